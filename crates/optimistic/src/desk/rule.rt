//! The rule that each step keeps, and what it tells.
ghost use Rattle.optimistic.specs.desk.Lending.{arrived, taken, given};

use atomic_table::{Play, Seat, TableRule};
use std::marker::PhantomData;

/// What holds of the value, by the key.
pub trait Fact<T, K> {
    ghost tells: { K → T → Type 0 };
}

/// Whoever takes the value or gives it back keeps this.
pub struct Lending<F> {
    fact: PhantomData<F>,
}

impl<T, K, F: Fact<T, K>> TableRule<Option<T>, K, K> for Lending<F> {
    ghost use Rattle.optimistic.specs.desk.Lending.{Lent};

    ghost holds = { Lent F.tells };

    ghost first = { λ k. k };
}

/// A new caller comes.
pub struct Arrive;

impl<T, K> Play<Option<T>, K> for Arrive {
    ghost then = { arrived };
}

/// The value is taken, if it is there.
pub struct Take<F> {
    fact: PhantomData<F>,
}

impl<T, K, F: Fact<T, K>> Play<Option<T>, K> for Take<F> {
    ghost then = { taken F.tells };
}

/// The value is given back.
pub struct Give;

impl<T, K> Play<Option<T>, K> for Give {
    ghost then = { given };
}

/// Who takes the value and gives it back. It has no bytes.
pub type Caller<T, K> = Seat<Option<T>, K>;
