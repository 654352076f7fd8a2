//! Why a write is not made, and why an index is not opened.

use crate::drain::Undrained;
use std::alloc::AllocError;

/// Why a write is not made. Nothing is changed then, and no node is left locked.
#[derive(Clone, Copy, Debug, PartialEq, Eq, Drop)]
pub enum Refusal {
    /// Another writer came between.
    Again,
    /// There is no room for a node that the write wants.
    Full,
    /// A node was locked as often as a node can be.
    Exhausted,
}

/// Why not all of many pairs were put in: the pair at this place was refused. Those before it were put in, and no other.
#[derive(Clone, Copy, Debug, PartialEq, Eq, Drop)]
pub struct Uninserted {
    pub place: usize,
    pub refusal: Refusal,
}

/// Why an index is not opened.
#[derive(Clone, Copy, Debug, PartialEq, Eq, Drop)]
pub enum Unopened {
    /// It can't have so many words: fewer than `LEAST_WORDS`, or more than `MOST_WORDS`.
    Words,
    /// There is no memory for them.
    Memory(AllocError),
}

impl From<AllocError> for Unopened {
    ghost use Rattle.std.specs.Prelude.{◌≡◌};
    ghost use Rattle.optimistic.specs.declared.face.refusal.Unopened.TheVariants.{Memory};

    ghost from_gives = { λ e u. u ≡ Memory e };

    fn from(error: AllocError) -> Self {
        Unopened::Memory(error)
    }
}

/// Why an index is not opened with pairs.
#[derive(Clone, Copy, Debug, PartialEq, Eq, Drop)]
pub enum Unfilled {
    /// There is no such index.
    Unopened(Unopened),
    /// The pair at a place was refused.
    Uninserted(Uninserted),
}

impl From<Unopened> for Unfilled {
    ghost use Rattle.std.specs.Prelude.{◌≡◌};
    ghost use Rattle.optimistic.specs.declared.face.refusal.Unfilled.TheVariants.{Unopened};

    ghost from_gives = { λ e u. u ≡ Unopened e };

    fn from(error: Unopened) -> Self {
        Unfilled::Unopened(error)
    }
}

impl From<Uninserted> for Unfilled {
    ghost use Rattle.std.specs.Prelude.{◌≡◌};
    ghost use Rattle.optimistic.specs.declared.face.refusal.Unfilled.TheVariants.{Uninserted};

    ghost from_gives = { λ e u. u ≡ Uninserted e };

    fn from(error: Uninserted) -> Self {
        Unfilled::Uninserted(error)
    }
}

/// Why a closed index's pairs aren't put into a new one.
#[derive(Clone, Copy, Debug, Drop)]
pub enum Unreopened {
    /// Not all pairs were told.
    Undrained(Undrained),
    /// There was no room for them.
    Unfilled(Unfilled),
}

impl From<Undrained> for Unreopened {
    ghost use Rattle.std.specs.Prelude.{◌≡◌};
    ghost use Rattle.optimistic.specs.declared.face.refusal.Unreopened.TheVariants.{Undrained};

    ghost from_gives = { λ e u. u ≡ Undrained e };

    fn from(error: Undrained) -> Self {
        Unreopened::Undrained(error)
    }
}
