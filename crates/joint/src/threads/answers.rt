//! What answers for a closure between two turns of a call.

ghost use Rattle.std.specs.Prelude.{◌≡◌, Option};
ghost use Rattle.joint.specs.threads.Threads.{if_present, or_insert};

use std::marker::Model;

/// Answers for the value that stands at a call's key, or for an absent key.
pub(crate) trait Answer<P> {
    /// Whether it gives any further answer.
    ghost can_answer: { Self → Type 0 };

    /// How an answer takes it from one state to the next.
    ghost answers: { Self → Option P → Option P → Self → Type 0 };

    /// One answer.
    fn answer(&mut self, found: Option<P>) -> Option<P>
        requires { can_answer self.old }
        ensures answers { answers self.old found result self.new }
        ensures again { can_answer self.new };
}

/// Answers for a call that never asks.
#[derive(Drop)]
pub(crate) struct Silent;

impl<P: Drop> Answer<P> for Silent {
    ghost can_answer = { λ _. Unit {0} };

    ghost answers = { λ _ _ _ _. Unit {0} };

    fn answer(&mut self, _found: Option<P>) -> Option<P>
        ensures answers { Unit {0} }
        ensures again { Unit {0} }
    {
        None
    }
}

/// What a closure answers.
pub(crate) struct Closure<F> {
    call: F,
}

impl<F> Model for Closure<F> {
    ghost Value = { F };

    ghost view = { λ c. c.call };
}

impl<F> Closure<F> {
    pub(crate) fn new(call: F) -> Self
        ensures { result ≡ call }
    {
        Closure { call }
    }

    /// Gives the closure back.
    pub(crate) fn into_inner(self) -> F {
        let Closure { call } = self;
        call
    }
}

impl<P, F: FnMut(Option<P>) -> Option<P>> Answer<P> for Closure<F> {
    ghost can_answer = { F.IsAlwaysCallable };

    ghost answers = { λ f found answer f'. F.step f found answer f' };

    fn answer(&mut self, found: Option<P>) -> Option<P>
        requires { F.IsAlwaysCallable self.old }
        ensures answers { F.step self.old found result self.new }
        ensures again { F.IsAlwaysCallable self.new }
    {
        (self.call)(found)
    }
}

/// What a closure answers that is asked for a present value alone.
pub(crate) struct IfPresent<F> {
    call: F,
}

impl<F> Model for IfPresent<F> {
    ghost Value = { F };

    ghost view = { λ c. c.call };
}

impl<F> IfPresent<F> {
    pub(crate) fn new(call: F) -> Self
        ensures { result ≡ call }
    {
        IfPresent { call }
    }

    /// Gives the closure back.
    pub(crate) fn into_inner(self) -> F {
        let IfPresent { call } = self;
        call
    }
}

impl<P, F: FnMut(P) -> Option<P>> Answer<P> for IfPresent<F> {
    ghost can_answer = { F.IsAlwaysCallable };

    ghost answers = { λ f found answer f'. if_present F.step f found answer f' };

    fn answer(&mut self, found: Option<P>) -> Option<P>
        requires { F.IsAlwaysCallable self.old }
        ensures answers { if_present F.step self.old found result self.new }
        ensures again { F.IsAlwaysCallable self.new }
    {
        match found {
            Some(value) => (self.call)(value),
            None => None,
        }
    }
}

/// What a closure answers that is asked for an absent key too, and always gives a value.
pub(crate) struct OrInsert<F> {
    call: F,
}

impl<F> Model for OrInsert<F> {
    ghost Value = { F };

    ghost view = { λ c. c.call };
}

impl<F> OrInsert<F> {
    pub(crate) fn new(call: F) -> Self
        ensures { result ≡ call }
    {
        OrInsert { call }
    }

    /// Gives the closure back.
    pub(crate) fn into_inner(self) -> F {
        let OrInsert { call } = self;
        call
    }
}

impl<P, F: FnMut(Option<P>) -> P> Answer<P> for OrInsert<F> {
    ghost can_answer = { F.IsAlwaysCallable };

    ghost answers = { λ f found answer f'. or_insert F.step f found answer f' };

    fn answer(&mut self, found: Option<P>) -> Option<P>
        requires { F.IsAlwaysCallable self.old }
        ensures answers { or_insert F.step self.old found result self.new }
        ensures again { F.IsAlwaysCallable self.new }
    {
        Some((self.call)(found))
    }
}
