//! What the program tells of workers that called at once.
ghost use Rattle.std.specs.Prelude.{◌≡◌, IfOk, Some, string_bytes};
ghost use Rattle.trial.specs.Histories.{history_text, told_text};

use crate::reply::{Refused, Reply};
use joint::Refusal;
use judge::Verdict;
use std::alloc::{AllocError, Global};
use std::fmt;

/// What is told of the calls of workers that have ended.
#[derive(Clone, Copy, Debug, PartialEq, Eq)]
pub struct History {
    /// The entries of the journal.
    pub entries: usize,
    /// What the journal proves to be.
    pub verdict: Verdict,
    /// Whether the journal has the entries that the workers keep, each worker's in its order, and no others.
    pub audited: bool,
    /// The writing calls that the ledger counted.
    pub ledger: u64,
}

impl fmt::Display for History {
    ghost output = { λ h. Some (history_text h) };

    fn fmt<W: fmt::Write>(&self, f: &mut fmt::Formatter<W>) -> fmt::Result {
        let journal = Reply::Journal(self.entries, self.verdict);
        let (audited, ledger) = (self.audited, self.ledger);
        write!(f, "{journal}\naudit {audited}\nledger {ledger}\n")
    }
}

/// What is printed of a history, or of the refusal in its place.
pub fn text(alloc: Global, history: &Result<History, Refusal>) -> Result<String, AllocError>
    ensures { IfOk result (λ text. string_bytes text ≡ told_text history.now) }
{
    match history {
        Ok(history) => format!(in alloc; "{history}"),
        Err(refusal) => {
            let refused = Reply::Refused(Refused::Tree(*refusal));
            format!(in alloc; "{refused}\n")
        }
    }
}
