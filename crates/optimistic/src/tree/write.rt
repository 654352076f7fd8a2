//! A write that is asked for.
ghost use Rattle.std.specs.Prelude.{MatchBool};
ghost use Rattle.optimistic.specs.tree.Sets.{Allows};

/// When a key is written.
#[derive(Clone, Copy, Drop)]
pub enum Condition {
    /// Whatever it has.
    Always,
    /// Where it has this.
    Has(Option<u64>),
}

/// What a key is to have, and when. Where it is to have nothing, it is written only if it has something.
#[derive(Clone, Copy, Drop)]
pub struct Write {
    pub key: u64,
    pub value: Option<u64>,
    pub only: Condition,
}

/// Whether a key that has this is to be written.
#[inline(always)]
pub fn allows(write: Write, found: Option<u64>) -> bool
    ensures { MatchBool result (Allows write found) (Allows write found → ⊥) }
{
    if write.value.is_none() && found.is_none() {
        return false;
    }
    match write.only {
        Condition::Always => true,
        Condition::Has(value) => value == found,
    }
}
