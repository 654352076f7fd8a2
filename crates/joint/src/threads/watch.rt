//! Which writing calls a ledger counts.

ghost use Rattle.std.specs.Prelude.{◌≡◌, Bool, true};
ghost use Rattle.std.specs.Prelude.{ℕ};
ghost use Rattle.judge.specs.declared.journal.Entry.{Entry};

use judge::Entry;

/// Which entries of writing calls a ledger counts. It depends on the entry alone.
pub trait Watch {
    /// Whether it watches an entry.
    ghost watched: { Entry ℕ → Bool };

    /// Whether it watches this entry.
    fn watches(entry: &Entry<u64>) -> bool
        ensures { result ≡ watched entry.now };
}

/// Watches every entry.
#[derive(Clone, Copy, Debug, PartialEq, Eq, Drop)]
pub struct Every;

impl Watch for Every {
    ghost watched = { λ _. true };

    fn watches(_entry: &Entry<u64>) -> bool
        ensures { result ≡ true }
    {
        true
    }
}
