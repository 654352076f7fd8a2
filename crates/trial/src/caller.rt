//! What a script answers where a worker's call asks.
ghost use Rattle.std.specs.Prelude.{◌≡◌};
ghost use Rattle.trial.specs.Callers.{answer_of, after_step};

use joint::Outcome;

/// From the value that a call finds to the one that it puts there.
#[derive(Clone, Copy)]
pub enum Closure {
    /// The value plus the number, which wraps.
    Add(u64),
    /// No value: the key goes.
    Drop,
    /// The number for an absent key, else the value plus the number, which wraps.
    Put(u64),
}

impl Closure {
    /// The closure's answer for what a call finds.
    fn answer(self, found: Option<u64>) -> Option<u64>
        ensures { result ≡ answer_of self found }
    {
        match (self, found) {
            (Closure::Drop, _) => None,
            (Closure::Add(_), None) => None,
            (Closure::Put(n), None) => Some(n),
            (Closure::Add(n), Some(value)) => Some(value.wrapping_add(n)),
            (Closure::Put(n), Some(value)) => Some(value.wrapping_add(n)),
        }
    }
}

/// What stands behind a worker's call in flight.
#[derive(Clone, Copy)]
pub struct Caller {
    /// From the line that began the call.
    pub closure: Option<Closure>,
    /// The answer to what the step before asked, if it did.
    pub answer: Option<Option<u64>>,
}

impl Caller {
    /// After a step of the call that ended so.
    pub fn after_step(&mut self, outcome: &Outcome<u64>)
        ensures { self.new ≡ after_step self.old outcome.now }
    {
        self.answer = match (self.closure, outcome) {
            (Some(closure), Outcome::Asks(found)) => Some(closure.answer(*found)),
            _ => None,
        };
    }
}
