//! Calls that write at a key.

ghost use Rattle.std.specs.Prelude.{ℕ, []};
ghost use Rattle.joint.specs.threads.Driving.{ended};
ghost use Rattle.joint.specs.threads.Threads.{Answers, Computes, IsByHolds, Serves, is_held_by, computed, exchanged, inserted, removed, replaced};
ghost use Rattle.joint.specs.declared.steps.Op.TheVariants as op;

use crate::refusal::Refusal;
use crate::steps::Op;
use crate::threads::answers::Answer;
use crate::threads::locked::Locked;
use crate::threads::replies::{End, computed, exchanged, inserted, removed, replaced};
use crate::threads::tokens::{Guard, Worker};
use crate::threads::tree::Tree;
use congee::{Payload, Small};
use std::sync::Wait;

impl<P: Payload + Small, T: Locked<P>> Tree<P, T> {
    /// One that finds no pairs.
    fn compute<C: Answer<P>, R: Wait>(
        &self,
        rt: &R,
        worker: &Worker,
        op: Op<P>,
        answers: &mut C,
    ) -> End<P>
        requires { C.can_answer answers.old }
        ensures { IsByHolds {Q = ℕ × P} T.holds C.answers (λ k v. (k, v)) worker.now.number op answers.old [] [] (ended result) }
    {
        let mut nothing: [(u64, P); 0] = [];
        self.drive(rt, worker, op, answers, &mut nothing)
    }

    /// Puts a value at a key, and gives the one before.
    pub(crate) fn insert<R: Wait>(
        &self,
        rt: &R,
        key: u64,
        value: P,
        worker: &Worker,
        guard: &Guard,
    ) -> Result<Option<P>, Refusal>
        ensures { Serves (is_held_by self.now.id worker.now guard.now) (Answers T.holds worker.now.number (op.Insert key value) inserted) result }
    {
        if !self.serves(worker, guard) {
            return Err(Refusal::Foreign);
        }
        inserted(self.call(rt, worker, Op::Insert(key, value)))
    }

    /// Takes a key's value out.
    pub(crate) fn remove<R: Wait>(
        &self,
        rt: &R,
        key: u64,
        worker: &Worker,
        guard: &Guard,
    ) -> Result<Option<P>, Refusal>
        ensures { Serves (is_held_by self.now.id worker.now guard.now) (Answers T.holds worker.now.number (op.Remove key) removed) result }
    {
        if !self.serves(worker, guard) {
            return Err(Refusal::Foreign);
        }
        removed(self.call(rt, worker, Op::Remove(key)))
    }

    /// Puts the answer at a key that is present, or takes the key out where the answer is `None`.
    pub(crate) fn compute_if_present<C: Answer<P>, R: Wait>(
        &self,
        rt: &R,
        key: u64,
        answers: &mut C,
        worker: &Worker,
        guard: &Guard,
    ) -> Result<Option<(P, Option<P>)>, Refusal>
        requires { C.can_answer answers.old }
        ensures { Serves (is_held_by self.now.id worker.now guard.now) (Computes T.holds C.answers worker.now.number (op.ComputePresent key) answers.old computed) result }
    {
        if !self.serves(worker, guard) {
            return Err(Refusal::Foreign);
        }
        computed(self.compute(rt, worker, Op::ComputePresent(key), answers))
    }

    /// Puts the answer at a key, present or not, and gives the value before.
    pub(crate) fn compute_or_insert<C: Answer<P>, R: Wait>(
        &self,
        rt: &R,
        key: u64,
        answers: &mut C,
        worker: &Worker,
        guard: &Guard,
    ) -> Result<Option<P>, Refusal>
        requires { C.can_answer answers.old }
        ensures { Serves (is_held_by self.now.id worker.now guard.now) (Computes T.holds C.answers worker.now.number (op.ComputeInsert key) answers.old replaced) result }
    {
        if !self.serves(worker, guard) {
            return Err(Refusal::Foreign);
        }
        replaced(self.compute(rt, worker, Op::ComputeInsert(key), answers))
    }

    /// Where the key has the old value, puts the new one there, or takes the key out at `None`.
    pub(crate) fn compare_exchange<R: Wait>(
        &self,
        rt: &R,
        key: u64,
        old: P,
        new: Option<P>,
        worker: &Worker,
        guard: &Guard,
    ) -> Result<Result<Option<P>, Option<P>>, Refusal>
        ensures { Serves (is_held_by self.now.id worker.now guard.now) (Answers T.holds worker.now.number (op.Exchange key old new) exchanged) result }
    {
        if !self.serves(worker, guard) {
            return Err(Refusal::Foreign);
        }
        exchanged(self.call(rt, worker, Op::Exchange(key, old, new)))
    }
}
