//! What a tree that is closed hands over.
ghost use Rattle.std.specs.Prelude.{◌≡◌, [], true, IfOk, IfErr};
ghost use Rattle.trial.specs.Texts.{closed_text};
ghost use Rattle.trial.specs.declared.end.End.TheVariants as End;

use crate::end::End;
use crate::places::Places;
use congee::Drainer;
use std::alloc::Global;
use std::fmt;

/// The pairs that a tree has handed over as it was closed.
#[derive(Drop)]
pub struct Drained {
    pub pairs: Places,
    /// Whether there was memory for each of them.
    pub whole: bool,
}

impl Drained {
    /// None yet.
    pub fn new(alloc: Global) -> Drained
        ensures pairs { result.pairs ≡ [] }
        ensures whole { result.whole ≡ true }
    {
        Drained {
            pairs: Places::new(alloc),
            whole: true,
        }
    }

    /// The pairs. Without memory for each of them, the script ends.
    pub fn pairs(self) -> Result<Places, End>
        ensures ok { IfOk result (λ pairs. (self.whole ≡ true) × (pairs ≡ self.pairs)) }
        ensures err { IfErr result (λ e. e ≡ End.Memory) }
    {
        let Drained { pairs, whole } = self;
        if whole { Ok(pairs) } else { Err(End::Memory) }
    }
}

impl Drainer<u64, u64> for Drained {
    ghost use Rattle.std.specs.Prelude.{◌∷◌, ◌++◌};

    ghost can_drain = { λ _. Unit {0} };

    ghost drains = { λ before key value after. after.whole ≡ true → (before.whole ≡ true) × (after.pairs ≡ before.pairs ++ (key, value) ∷ []) };

    fn drain(&mut self, key: u64, value: u64) {
        if self.pairs.add(key, value).is_err() {
            self.whole = false;
        }
    }
}

/// What a tree that was closed told.
#[derive(Drop)]
pub struct Closed {
    /// In ascending order of the keys.
    pub pairs: Places,
    /// The bytes that are still charged.
    pub charge: u64,
}

impl fmt::Display for Closed {
    ghost use Rattle.std.specs.Prelude.{Some};

    ghost output = { λ c. Some (closed_text c) };

    fn fmt<W: fmt::Write>(&self, f: &mut fmt::Formatter<W>) -> fmt::Result {
        for (key, value) in self.pairs.as_slice() {
            writeln!(f, "drain {key} {value}")?;
        }
        write!(f, "closed {}", self.charge)
    }
}
