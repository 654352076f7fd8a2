//! Calls on several keys, of which the journal says nothing.

ghost use Rattle.std.specs.Prelude.{◌≡◌, ◌^◌, ◌≤◌, false, length, nat_eq, true, IfErr, IfOk, suc, map, take};
ghost use Rattle.congee.specs.owned.Nearest.{IsGreatest, IsLeast};
ghost use Rattle.joint.specs.threads.Threads.{Answers, AreKeys, As, Ascend, Finds, IsOfReader, Scans, Serves, is_held_by, is_of, counted, emptied, listed, pair_words, pairs_counted, scanned};
ghost use Rattle.joint.specs.threads.Writing.{Reads};
ghost use Rattle.joint.specs.declared.steps.Op.TheVariants as op;

use crate::nodes::nearest::Near;
use crate::refusal::Refusal;
use crate::steps::Op;
use crate::threads::journaled::Journaled;
use crate::threads::of_words::{are_keys, word_pair};
use crate::threads::tokens::{Guard, Worker};
use crate::threads::watch::Watch;
use congee::{Allocator, NodeStats, Word64};
use std::sync::Wait;
use std::sync::ledger::Ledger;

impl<L: Ledger, W: Watch, K: Word64, V: Word64, A: Allocator, D: Drop> Journaled<L, W, K, V, A, D> {
    /// Writes the pairs with start <= key < end into `out`, ascending, as many as fit, and gives their number. The places
    /// past them may have been written to.
    pub fn range<R: Wait>(
        &self,
        rt: &R,
        start: &K,
        end: &K,
        out: &mut [(u64, u64)],
        worker: &mut Worker,
        guard: &Guard,
    ) -> Result<usize, Refusal>
        ensures worker { worker.new ≡ worker.old }
        ensures answers { Serves (is_held_by self.now.tree.id worker.old guard.now)
            (Scans Reads (λ k v. (k, v)) worker.old.number (op.Range (K.word start.now) (K.word end.now) (length out.old)) out.old out.new (scanned (K.word start.now, K.word end.now) (map (λ pair. pair.0) out.new))) result }
        ensures few { IfOk result (λ n. n ≤ length out.old) }
        ensures ascend { IfOk result (λ n. Ascend (K.word start.now) (K.word end.now) (map (λ pair. pair.0) (take n out.new))) }
        ensures refused { IfErr result IsOfReader }
        ensures foreign { is_held_by self.now.tree.id worker.old guard.now ≡ false → out.new ≡ out.old }
    {
        let scan = Op::Range(start.to_word(), end.to_word(), out.len());
        self.tree.find(rt, scan, out, worker, guard)
    }

    /// Writes the pairs with start <= key <= last into `out`, ascending, as many as fit, and gives their number. The places
    /// past them may have been written to.
    pub fn range_inclusive<R: Wait>(
        &self,
        rt: &R,
        start: &K,
        last: &K,
        out: &mut [(u64, u64)],
        worker: &mut Worker,
        guard: &Guard,
    ) -> Result<usize, Refusal>
        ensures worker { worker.new ≡ worker.old }
        ensures answers { Serves (is_held_by self.now.tree.id worker.old guard.now)
            (Scans Reads (λ k v. (k, v)) worker.old.number (op.RangeInclusive (K.word start.now) (K.word last.now) (length out.old)) out.old out.new (scanned (K.word start.now, suc (K.word last.now)) (map (λ pair. pair.0) out.new))) result }
        ensures few { IfOk result (λ n. n ≤ length out.old) }
        ensures ascend { IfOk result (λ n. Ascend (K.word start.now) (suc (K.word last.now)) (map (λ pair. pair.0) (take n out.new))) }
        ensures refused { IfErr result IsOfReader }
        ensures foreign { is_held_by self.now.tree.id worker.old guard.now ≡ false → out.new ≡ out.old }
    {
        let scan = Op::RangeInclusive(start.to_word(), last.to_word(), out.len());
        self.tree.find(rt, scan, out, worker, guard)
    }

    /// Whether no key has a value, at its one step.
    pub fn is_empty<R: Wait>(
        &self,
        rt: &R,
        worker: &mut Worker,
        guard: &Guard,
    ) -> Result<bool, Refusal>
        ensures worker { worker.new ≡ worker.old }
        ensures answers { Serves (is_held_by self.now.tree.id worker.old guard.now) (Answers Reads worker.old.number op.IsEmpty emptied) result }
        ensures refused { IfErr result IsOfReader }
    {
        self.tree.is_empty(rt, worker, guard)
    }

    /// The pair of the least key, if there is one, of those that stand in one hold of the lock. The journal has no entry of it.
    pub fn first<R: Wait>(
        &self,
        rt: &R,
        worker: &mut Worker,
        guard: &Guard,
    ) -> Result<Option<(K, V)>, Refusal>
        ensures worker { worker.new ≡ worker.old }
        ensures answers { As (Serves (is_held_by self.now.tree.id worker.old guard.now)
            (Finds nat_eq true worker.old.number (λ m pair. IsLeast m 0 pair))) (pair_words K.of_word V.of_word) result }
        ensures refused { IfErr result IsOfReader }
    {
        word_pair(self.tree.nearest(rt, Near::From(0), worker, guard))
    }

    /// The pair of the greatest key, so.
    pub fn last<R: Wait>(
        &self,
        rt: &R,
        worker: &mut Worker,
        guard: &Guard,
    ) -> Result<Option<(K, V)>, Refusal>
        ensures worker { worker.new ≡ worker.old }
        ensures answers { As (Serves (is_held_by self.now.tree.id worker.old guard.now)
            (Finds nat_eq true worker.old.number (λ m pair. IsGreatest m (2 ^ 64) pair))) (pair_words K.of_word V.of_word) result }
        ensures refused { IfErr result IsOfReader }
    {
        word_pair(self.tree.nearest(rt, Near::UpTo(u64::MAX), worker, guard))
    }

    /// The pair of the least key above this one, so.
    pub fn next_after<R: Wait>(
        &self,
        rt: &R,
        key: &K,
        worker: &mut Worker,
        guard: &Guard,
    ) -> Result<Option<(K, V)>, Refusal>
        ensures worker { worker.new ≡ worker.old }
        ensures answers { As (Serves (is_held_by self.now.tree.id worker.old guard.now)
            (Finds nat_eq true worker.old.number (λ m pair. IsLeast m (suc (K.word key.now)) pair))) (pair_words K.of_word V.of_word) result }
        ensures refused { IfErr result IsOfReader }
    {
        word_pair(
            self.tree
                .nearest(rt, Near::After(key.to_word()), worker, guard),
        )
    }

    /// The pair of the greatest key below this one, so.
    pub fn next_before<R: Wait>(
        &self,
        rt: &R,
        key: &K,
        worker: &mut Worker,
        guard: &Guard,
    ) -> Result<Option<(K, V)>, Refusal>
        ensures worker { worker.new ≡ worker.old }
        ensures answers { As (Serves (is_held_by self.now.tree.id worker.old guard.now)
            (Finds nat_eq true worker.old.number (λ m pair. IsGreatest m (K.word key.now) pair))) (pair_words K.of_word V.of_word) result }
        ensures refused { IfErr result IsOfReader }
    {
        word_pair(
            self.tree
                .nearest(rt, Near::Before(key.to_word()), worker, guard),
        )
    }

    /// The pair of the least key that isn't less than this one, so: its own, where it is present.
    pub fn at_or_after<R: Wait>(
        &self,
        rt: &R,
        key: &K,
        worker: &mut Worker,
        guard: &Guard,
    ) -> Result<Option<(K, V)>, Refusal>
        ensures worker { worker.new ≡ worker.old }
        ensures answers { As (Serves (is_held_by self.now.tree.id worker.old guard.now)
            (Finds nat_eq true worker.old.number (λ m pair. IsLeast m (K.word key.now) pair))) (pair_words K.of_word V.of_word) result }
        ensures refused { IfErr result IsOfReader }
    {
        word_pair(
            self.tree
                .nearest(rt, Near::From(key.to_word()), worker, guard),
        )
    }

    /// The pair of the greatest key that isn't greater than this one, so: its own, where it is present.
    pub fn at_or_before<R: Wait>(
        &self,
        rt: &R,
        key: &K,
        worker: &mut Worker,
        guard: &Guard,
    ) -> Result<Option<(K, V)>, Refusal>
        ensures worker { worker.new ≡ worker.old }
        ensures answers { As (Serves (is_held_by self.now.tree.id worker.old guard.now)
            (Finds nat_eq true worker.old.number (λ m pair. IsGreatest m (suc (K.word key.now)) pair))) (pair_words K.of_word V.of_word) result }
        ensures refused { IfErr result IsOfReader }
    {
        word_pair(
            self.tree
                .nearest(rt, Near::UpTo(key.to_word()), worker, guard),
        )
    }

    /// All keys, ascending, at its one step. It wants no guard. Refused as Memory.
    pub fn keys<R: Wait>(&self, rt: &R, worker: &mut Worker) -> Result<Vec<K>, Refusal>
        ensures worker { worker.new ≡ worker.old }
        ensures answers { (answer : _) × Serves (is_of self.now.tree.id worker.old) (Answers Reads worker.old.number op.Keys listed) answer × AreKeys K.of_word answer result }
    {
        are_keys(self.alloc, self.tree.keys(rt, worker))
    }

    /// How the nodes are spread over levels and forms, and how many pairs there are, at its one step. It wants no guard.
    /// Refused as Memory.
    pub fn stats<R: Wait>(&self, rt: &R, worker: &mut Worker) -> Result<NodeStats, Refusal>
        ensures worker { worker.new ≡ worker.old }
        ensures answers { Serves (is_of self.now.tree.id worker.old) (Answers Reads worker.old.number op.Stats counted) result }
    {
        self.tree.stats(rt, worker)
    }

    /// How many pairs there are, at its one step; more than `u64::MAX` are told as that. It wants no guard. Refused as Memory.
    pub fn len<R: Wait>(&self, rt: &R, worker: &mut Worker) -> Result<u64, Refusal>
        ensures worker { worker.new ≡ worker.old }
        ensures answers { Serves (is_of self.now.tree.id worker.old) (Answers Reads worker.old.number op.Stats pairs_counted) result }
    {
        self.tree.len(rt, worker)
    }
}
