//! What a line is answered.
ghost use Rattle.std.specs.Prelude.{◌≡◌, Some};
ghost use Rattle.trial.specs.Replies.{pair_of, reply_to};
ghost use Rattle.trial.specs.Texts.{refused_text, reply_text};

use crate::drained::Closed;
use crate::keys::Keys;
use crate::places::Places;
use congee::NodeStats;
use joint::Refusal;
use judge::Verdict;
use std::fmt;

/// Why a line was refused.
#[derive(Clone, Copy)]
pub enum Refused {
    /// No tree is open.
    NoTree,
    /// A tree is open already.
    Open,
    /// By the tree.
    Tree(Refusal),
}

/// The reply to a line.
#[derive(Drop)]
pub enum Reply {
    Ok,
    /// The number of the worker that was registered.
    Worker(u32),
    /// The value that a point call tells, or none.
    Value(Option<u64>),
    /// What a call found at its key, and what it put there, or nothing where it took the key out.
    Pair(u64, Option<u64>),
    /// What an exchange put at its key, or what it found in place of the old value.
    Exchanged(Result<Option<u64>, Option<u64>>),
    /// The pairs that a scan found, in ascending order.
    Range(Places),
    /// All keys, in ascending order.
    Keys(Keys),
    /// Whether there is no key.
    Empty(bool),
    /// How the nodes are spread over levels and forms.
    Stats(NodeStats),
    /// What the tree that was closed handed over.
    Closed(Closed),
    /// The call is begun.
    Begun,
    /// The call is in flight.
    Running,
    /// Bytes.
    Charged(u64),
    /// Nodes and bytes.
    Waiting(u64, u64),
    /// The entries of the journal, and whether they are legal.
    Journal(usize, Verdict),
    Refused(Refused),
}

impl Reply {
    /// To a call on one key.
    pub fn of_point(told: judge::Reply<u64>) -> Reply
        ensures { result ≡ reply_to told }
    {
        match told {
            judge::Reply::Get(found) => Reply::Value(found),
            judge::Reply::Insert(found) => Reply::Value(found),
            judge::Reply::Remove(found) => Reply::Value(found),
            judge::Reply::ComputePresent(None) => Reply::Value(None),
            judge::Reply::ComputePresent(Some((old, new))) => Reply::Pair(old, new),
            judge::Reply::ComputeInsert(found) => Reply::Value(found),
            judge::Reply::Exchange(exchanged) => Reply::Exchanged(exchanged),
        }
    }
}

impl fmt::Display for Refused {
    ghost output = { λ r. Some (refused_text r) };

    fn fmt<W: fmt::Write>(&self, f: &mut fmt::Formatter<W>) -> fmt::Result {
        let refusal = match self {
            Refused::NoTree => return write!(f, "NoTree"),
            Refused::Open => return write!(f, "Open"),
            Refused::Tree(refusal) => refusal,
        };
        match refusal {
            Refusal::TableFull => write!(f, "TableFull"),
            Refusal::Memory => write!(f, "Memory"),
            Refusal::Budget {
                charged,
                wanted,
                limit,
            } => write!(f, "Budget {charged} {wanted} {limit}"),
            Refusal::Cells => write!(f, "Cells"),
            Refusal::Exhausted => write!(f, "Exhausted"),
            Refusal::Unpinned => write!(f, "Unpinned"),
            Refusal::Busy => write!(f, "Busy"),
            Refusal::InCall => write!(f, "InCall"),
            Refusal::WorkersLeft(workers) => write!(f, "WorkersLeft {workers}"),
            Refusal::Unknown => write!(f, "Unknown"),
            Refusal::Count => write!(f, "Count"),
            Refusal::Foreign => write!(f, "Foreign"),
            Refusal::GuardOut => write!(f, "GuardOut"),
            Refusal::JournalFull => write!(f, "JournalFull"),
            Refusal::Idle => write!(f, "Idle"),
            Refusal::Limits => write!(f, "Limits"),
            Refusal::SharesLeft(parts) => write!(f, "SharesLeft {parts}"),
        }
    }
}

impl fmt::Display for Reply {
    ghost output = { λ r. Some (reply_text r) };

    fn fmt<W: fmt::Write>(&self, f: &mut fmt::Formatter<W>) -> fmt::Result {
        match self {
            Reply::Ok => write!(f, "ok"),
            Reply::Worker(worker) => write!(f, "worker {worker}"),
            Reply::Value(None) => write!(f, "none"),
            Reply::Value(Some(value)) => write!(f, "some {value}"),
            Reply::Pair(old, None) => write!(f, "pair {old} none"),
            Reply::Pair(old, Some(new)) => write!(f, "pair {old} {new}"),
            Reply::Exchanged(Ok(None)) => write!(f, "ok none"),
            Reply::Exchanged(Ok(Some(value))) => write!(f, "ok some {value}"),
            Reply::Exchanged(Err(None)) => write!(f, "err none"),
            Reply::Exchanged(Err(Some(value))) => write!(f, "err some {value}"),
            Reply::Range(places) => write!(f, "range {}{places}", places.len()),
            Reply::Keys(keys) => write!(f, "keys{keys}"),
            Reply::Empty(empty) => write!(f, "{empty}"),
            Reply::Stats(stats) => write!(f, "{stats}"),
            Reply::Closed(closed) => write!(f, "{closed}"),
            Reply::Begun => write!(f, "begun"),
            Reply::Running => write!(f, "running"),
            Reply::Charged(bytes) => write!(f, "charged {bytes}"),
            Reply::Waiting(nodes, bytes) => write!(f, "waiting {nodes} {bytes}"),
            Reply::Journal(entries, Verdict::Legal) => write!(f, "journal {entries} legal"),
            Reply::Journal(entries, Verdict::Wrong(place)) => {
                write!(f, "journal {entries} wrong {place}")
            }
            Reply::Refused(refused) => write!(f, "refused {refused}"),
        }
    }
}
