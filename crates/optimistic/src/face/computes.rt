//! Writes whose value a closure answers.
ghost use Rattle.std.specs.Prelude.{◌≡◌, IfErr, IfOk, IfSome, None, Some};
ghost use Rattle.optimistic.specs.face.Computes.{IsComputed, IsReplaced};
ghost use Rattle.optimistic.specs.face.Writes.{IsFinal};

use crate::face::refusal::Refusal;
use crate::face::worker::Worker;
use crate::face::writes::{Written, exchange, replacement};
use std::sync::Wait;
use std::thread::yield_now;

/// What a closure answers for a value.
fn ask<F: FnMut(u64) -> Option<u64>>(f: &mut F, value: u64) -> Option<u64>
    requires { F.IsAlwaysCallable f.old }
    ensures callable { F.IsAlwaysCallable f.new }
    ensures asked { F.step f.old value result f.new }
{
    f(value)
}

/// What a closure answers for a value, or for none.
fn ask_any<F: FnMut(Option<u64>) -> u64>(f: &mut F, old: Option<u64>) -> u64
    requires { F.IsAlwaysCallable f.old }
    ensures callable { F.IsAlwaysCallable f.new }
    ensures asked { F.step f.old old result f.new }
{
    f(old)
}

impl<'t> Worker<'t> {
    /// Puts the answer of `f` at a key that is present, or takes the key out where the answer is `None`. Gives the value before
    /// and the answer. `f` runs while no node is locked, and is asked again where the key has another value by then.
    pub fn compute_if_present<F: FnMut(u64) -> Option<u64>, R: Wait>(
        &mut self,
        rt: &R,
        key: u64,
        mut f: F,
    ) -> Result<Option<(u64, Option<u64>)>, Refusal>
    where
        F: Drop,
        requires { F.IsAlwaysCallable f }
        ensures computed { IsComputed key self.old self.new result }
        ensures asked { IfOk result (λ r. IfSome r (λ p. (before after : F) × F.step before p.0 p.1 after)) }
        ensures decided { IfErr result IsFinal }
    {
        for _ in rt.forever() {
            let Some(value) = self.get(rt, key) else {
                return Ok(None);
            };
            let answer = ask(&mut f, value);
            match self.try_write(exchange(key, value, answer)) {
                Ok(Written::Made(_)) => return Ok(Some((value, answer))),
                Ok(Written::Differs(_)) => {}
                Err(Refusal::Again) => yield_now(),
                Err(refusal) => return Err(refusal),
            }
        }
        unreachable!()
    }

    /// Puts the answer of `f` at a key, present or not, and gives the value before. `f` runs while no node is locked, and is
    /// asked again where the key has another value by then.
    pub fn compute_or_insert<F: FnMut(Option<u64>) -> u64, R: Wait>(
        &mut self,
        rt: &R,
        key: u64,
        mut f: F,
    ) -> Result<Option<u64>, Refusal>
    where
        F: Drop,
        requires { F.IsAlwaysCallable f }
        ensures replaced { IsReplaced key (λ old value. (before after : F) × F.step before old value after) self.old self.new result }
        ensures decided { IfErr result IsFinal }
    {
        for _ in rt.forever() {
            let old = self.get(rt, key);
            let value = ask_any(&mut f, old);
            match self.try_write(replacement(key, old, value)) {
                Ok(Written::Made(_)) => return Ok(old),
                Ok(Written::Differs(_)) => {}
                Err(Refusal::Again) => yield_now(),
                Err(refusal) => return Err(refusal),
            }
        }
        unreachable!()
    }
}
