//! What a closing tree hands its pairs to.
ghost use Rattle.std.specs.Prelude.{◌≡◌};

use std::marker::Model;

/// Takes the pairs of a tree that is closed, one after the other.
pub trait Drainer<K, V>: Drop {
    /// Whether it takes any further pair.
    ghost can_drain: { Self → Type 0 };

    /// How a pair may take the drainer from one state to the next.
    ghost drains: { Self → K → V → Self → Type 0 };

    /// Takes one pair.
    fn drain(&mut self, key: K, value: V)
        requires { can_drain self.old }
        ensures drained { drains self.old key value self.new }
        ensures again { can_drain self.new };
}

/// Drops each pair.
#[derive(Clone, Copy, PartialEq, Eq, Debug)]
pub struct NoDrain;

impl<K: Drop, V: Drop> Drainer<K, V> for NoDrain {
    ghost can_drain = { λ _. Unit {0} };

    ghost drains = { λ before _ _ after. after ≡ before };

    fn drain(&mut self, _key: K, _value: V) {}
}

/// Calls a closure with each pair, and is seen as that closure.
#[derive(Drop)]
pub struct Calls<F> {
    call: F,
}

impl<F> Model for Calls<F> {
    ghost Value = { F };

    ghost view = { λ c. c.call };
}

impl<F> Calls<F> {
    /// Wraps the closure.
    pub fn new(call: F) -> Self
        ensures { result ≡ call }
    {
        Calls { call }
    }

    /// Gives the closure back.
    pub fn into_inner(self) -> F
        ensures { result ≡ self }
    {
        let Calls { call } = self;
        call
    }
}

impl<K, V, F: FnMut(K, V) + Drop> Drainer<K, V> for Calls<F> {
    ghost can_drain = { F.IsAlwaysCallable };

    ghost drains = { λ before key value after. F.step before key value tt after };

    fn drain(&mut self, key: K, value: V) {
        (self.call)(key, value);
    }
}
