//! The index of words for threads.

ghost use Rattle.std.specs.Prelude.{◌≡◌, ◌^◌, ◌≤◌, false, length, map, nat_eq, true, IfErr, IfOk, suc, take};
ghost use Rattle.std.specs.Option.{option_map};
ghost use Rattle.congee.specs.owned.Nearest.{IsGreatest, IsLeast};
ghost use Rattle.joint.specs.nodes.Opening.{IsUnopened};
ghost use Rattle.joint.specs.threads.Pinned.{CallsPinned, KeepsWorker};
ghost use Rattle.joint.specs.threads.Threads.{Answers, AreKeys, As, Ascend, ByOwn, Closes, Computes, Finds, Hands, IsAccount, IsHold, IsOfReader, IsRound, IsTold, IsUnclosed, Pins, Scans, Serves, is_held_by, is_of, register_step, registered, charge_of, waiting_bytes_of, waiting_of, bounds, computed, contained, counted, either_words, emptied, exchanged, got, if_present, inserted, listed, or_insert, pair_words, pairs_counted, removed, replaced, scanned, told, words};
ghost use Rattle.joint.specs.declared.steps.Op.TheVariants as op;

use crate::limits::Limits;
use crate::nodes::nearest::Near;
use crate::refusal::Refusal;
use crate::steps::Op;
use crate::threads::answers::{IfPresent, OrInsert};
use crate::threads::driver::Pair;
use crate::threads::locked::Words;
use crate::threads::of_words::{OfWords, are_keys, either_words, word_pair, words};
use crate::threads::tokens::{Guard, Worker};
use crate::threads::tree::Tree;
use congee::{Allocator, DefaultAllocator, Drainer, NoDrain, NodeStats, Word64};
use judge::number_of;
use std::alloc::Global;
use std::marker::PhantomData;
use std::sync::Wait;

/// An ordered map from words to words that threads share. Each step of a call is one hold of its lock, and closures
/// run between two of them.
///
/// A thread registers a worker, pins it, and calls with worker and guard. A call with those of another index, or with
/// another worker's guard, is refused as Foreign, and does nothing.
#[derive(Drop)]
pub struct Congee<K, V, A: Allocator = DefaultAllocator, D = NoDrain> {
    tree: Tree<u64, Words<A>>,
    drainer: D,
    alloc: Global,
    words: PhantomData<(K, V)>,
}

impl<K: Word64, V: Word64, A: Allocator, D: Drop> Congee<K, V, A, D> {
    /// An index with a root alone, which the allocator is charged for. Refused as Limits, Budget or Memory; both are
    /// dropped then.
    ///
    /// Its number is `limits.id`; each index wants one of its own (`Limits::with_id`).
    pub fn new_with_drainer(
        alloc: Global,
        limits: Limits,
        allocator: A,
        drainer: D,
    ) -> Result<Self, Refusal>
        ensures id { IfOk result (λ t. t.tree.id ≡ limits.id) }
        ensures account { IfOk result (λ t. IsAccount t.tree.account (A.charged_of allocator) (A.limit_of allocator)) }
        ensures drainer { IfOk result (λ t. t.drainer ≡ drainer) }
        ensures cause { IfErr result (λ e. IsUnopened limits (A.charged_of allocator) (A.limit_of allocator) e) }
    {
        let tree = Tree::of_words(alloc, limits, allocator)?;
        Ok(Congee {
            tree,
            drainer,
            alloc,
            words: PhantomData,
        })
    }

    /// A worker at the lowest free place of the table. Refused as TableFull.
    pub fn register<R: Wait>(&self, rt: &R) -> Result<Worker, Refusal>
        ensures { (r : _) × IsHold nat_eq true register_step r × (result ≡ registered self.now.tree.id r.outcome) }
    {
        self.tree.register(rt)
    }

    /// The worker leaves its place; what it removed waits on. Refused as GuardOut while it is pinned, as Memory where
    /// its removals can't be queued, and as Foreign; it comes back.
    pub fn release<R: Wait>(&self, rt: &R, worker: Worker) -> Result<(), (Refusal, Worker)>
        ensures { Hands (is_of self.now.tree.id worker) (Answers (ByOwn nat_eq true) worker.number op.Release told) worker result }
    {
        self.tree.release(rt, worker)
    }

    /// A guard. Refused as Count where 65,535 guards of the worker are out.
    pub fn pin<R: Wait>(&self, rt: &R, worker: &mut Worker) -> Result<Guard, Refusal>
        ensures worker { worker.new ≡ worker.old }
        ensures answers { Serves (is_of self.now.tree.id worker.old) (Pins (ByOwn nat_eq true) self.now.tree.id worker.old.number) result }
        ensures refused { IfErr result IsOfReader }
    {
        self.tree.pin(rt, worker)
    }

    /// Spends a guard; with its last one a worker isn't pinned any more. The guard comes back with a refusal.
    pub fn unpin<R: Wait>(
        &self,
        rt: &R,
        worker: &mut Worker,
        guard: Guard,
    ) -> Result<(), (Refusal, Guard)>
        ensures worker { worker.new ≡ worker.old }
        ensures answers { Hands (is_held_by self.now.tree.id worker.old guard) (Answers (ByOwn nat_eq true) worker.old.number op.Unpin told) guard result }
    {
        self.tree.unpin(rt, worker, guard)
    }

    /// Pins the worker, calls `f` with worker and guard, and spends the guard, whatever `f` answered: so `?` may leave `f`.
    /// Answers what `f` did. A refused pin is the answer, and `f` isn't called then. A refused unpin is the answer too: it
    /// comes where `f` left another worker in this one's place, as Foreign; the worker stays pinned then.
    pub fn pinned<O: Drop, R: Wait, F: FnOnce(&mut Worker, &Guard) -> Result<O, Refusal>>(
        &self,
        rt: &R,
        worker: &mut Worker,
        f: F,
    ) -> Result<O, Refusal>
    where
        F: Drop,
        requires { F.IsAlwaysCallable f }
        ensures answers { CallsPinned (ByOwn nat_eq true) self.now.tree.id F.FnOnce f worker.old worker.new result }
        ensures worker { KeepsWorker F.FnOnce f → worker.new ≡ worker.old }
    {
        self.tree.pinned(rt, worker, f)
    }

    /// Seals the worker's removals, and destroys what no guard protects any more. Refused as Memory where they can't be
    /// queued; then nothing was done.
    pub fn flush<R: Wait>(&self, rt: &R, worker: &mut Worker, guard: &Guard) -> Result<(), Refusal>
        ensures worker { worker.new ≡ worker.old }
        ensures answers { Serves (is_held_by self.now.tree.id worker.old guard.now) (Answers (ByOwn nat_eq true) worker.old.number op.Flush told) result }
    {
        self.tree.flush(rt, worker, guard)
    }

    /// Pins the worker anew at the present epoch, where this is its only guard.
    pub fn repin<R: Wait>(&self, rt: &R, worker: &mut Worker, guard: &Guard) -> Result<(), Refusal>
        ensures worker { worker.new ≡ worker.old }
        ensures answers { Serves (is_held_by self.now.tree.id worker.old guard.now) (Answers (ByOwn nat_eq true) worker.old.number op.Repin told) result }
    {
        self.tree.repin(rt, worker, guard)
    }

    /// Pin, flush, unpin. Answers the first refusal; after a refused flush it unpins too.
    pub fn round<R: Wait>(&self, rt: &R, worker: &mut Worker) -> Result<(), Refusal>
        ensures worker { worker.new ≡ worker.old }
        ensures answers { Serves (is_of self.now.tree.id worker.old) (IsRound (ByOwn nat_eq true) worker.old.number) result }
    {
        self.tree.round(rt, worker)
    }

    /// The value at a key.
    pub fn get<R: Wait>(
        &self,
        rt: &R,
        key: &K,
        worker: &mut Worker,
        guard: &Guard,
    ) -> Result<Option<V>, Refusal>
        ensures worker { worker.new ≡ worker.old }
        ensures answers { As (Serves (is_held_by self.now.tree.id worker.old guard.now)
            (Answers (ByOwn nat_eq true) worker.old.number (op.Get (K.word key.now)) got)) (words V.of_word) result }
        ensures refused { IfErr result IsOfReader }
    {
        words(self.tree.get(rt, key.to_word(), worker, guard))
    }

    /// Puts a value at a key, and gives the one before.
    pub fn insert<R: Wait>(
        &self,
        rt: &R,
        key: K,
        value: V,
        worker: &mut Worker,
        guard: &Guard,
    ) -> Result<Option<V>, Refusal>
        ensures worker { worker.new ≡ worker.old }
        ensures answers { As (Serves (is_held_by self.now.tree.id worker.old guard.now)
            (Answers (ByOwn nat_eq true) worker.old.number (op.Insert (K.word key) (V.word value)) inserted)) (words V.of_word) result }
    {
        words(
            self.tree
                .insert(rt, key.to_word(), value.to_word(), worker, guard),
        )
    }

    /// Takes a key's value out.
    pub fn remove<R: Wait>(
        &self,
        rt: &R,
        key: &K,
        worker: &mut Worker,
        guard: &Guard,
    ) -> Result<Option<V>, Refusal>
        ensures worker { worker.new ≡ worker.old }
        ensures answers { As (Serves (is_held_by self.now.tree.id worker.old guard.now)
            (Answers (ByOwn nat_eq true) worker.old.number (op.Remove (K.word key.now)) removed)) (words V.of_word) result }
    {
        words(self.tree.remove(rt, key.to_word(), worker, guard))
    }

    /// Puts the answer of `f` at a key that is present, or takes the key out where the answer is `None`. Gives the value
    /// before and the answer. `f` runs between two holds of the lock, and is asked again where the call begins anew.
    pub fn compute_if_present<F: FnMut(u64) -> Option<u64>, R: Wait>(
        &self,
        rt: &R,
        key: &K,
        f: F,
        worker: &mut Worker,
        guard: &Guard,
    ) -> Result<Option<(u64, Option<u64>)>, Refusal>
        requires { F.IsAlwaysCallable f }
        ensures worker { worker.new ≡ worker.old }
        ensures answers { Serves (is_held_by self.now.tree.id worker.old guard.now)
            (Computes (ByOwn nat_eq true) (if_present F.step) worker.old.number (op.ComputePresent (K.word key.now)) f computed) result }
    {
        let mut answers = IfPresent::new(f);
        let answer = self
            .tree
            .compute_if_present(rt, key.to_word(), &mut answers, worker, guard);
        let _ = answers.into_inner();
        answer
    }

    /// Puts the answer of `f` at a key, present or not, and gives the value before. `f` runs between two holds of the
    /// lock, and is asked again where the call begins anew.
    pub fn compute_or_insert<F: FnMut(Option<u64>) -> u64, R: Wait>(
        &self,
        rt: &R,
        key: K,
        f: F,
        worker: &mut Worker,
        guard: &Guard,
    ) -> Result<Option<V>, Refusal>
        requires { F.IsAlwaysCallable f }
        ensures worker { worker.new ≡ worker.old }
        ensures answers { As (Serves (is_held_by self.now.tree.id worker.old guard.now)
            (Computes (ByOwn nat_eq true) (or_insert F.step) worker.old.number (op.ComputeInsert (K.word key)) f replaced)) (words V.of_word) result }
    {
        let mut answers = OrInsert::new(f);
        let before = self
            .tree
            .compute_or_insert(rt, key.to_word(), &mut answers, worker, guard);
        let _ = answers.into_inner();
        words(before)
    }

    /// Where the key has the old value, puts the new one there, or takes the key out at `None`. Another value, or none, is
    /// the inner error.
    pub fn compare_exchange<R: Wait>(
        &self,
        rt: &R,
        key: &K,
        old: &V,
        new: Option<V>,
        worker: &mut Worker,
        guard: &Guard,
    ) -> Result<Result<Option<V>, Option<V>>, Refusal>
        ensures worker { worker.new ≡ worker.old }
        ensures answers { As (Serves (is_held_by self.now.tree.id worker.old guard.now)
            (Answers (ByOwn nat_eq true) worker.old.number (op.Exchange (K.word key.now) (V.word old.now) (option_map V.word new)) exchanged)) (either_words V.of_word) result }
    {
        let (key, old, new) = (key.to_word(), old.to_word(), number_of(&new));
        either_words(self.tree.compare_exchange(rt, key, old, new, worker, guard))
    }

    /// Writes the pairs with start <= key < end into `out`, ascending, as many as fit, and gives their number. The places
    /// past them may have been written to.
    pub fn range<R: Wait>(
        &self,
        rt: &R,
        start: &K,
        end: &K,
        out: &mut [(u64, u64)],
        worker: &mut Worker,
        guard: &Guard,
    ) -> Result<usize, Refusal>
        ensures worker { worker.new ≡ worker.old }
        ensures answers { Serves (is_held_by self.now.tree.id worker.old guard.now)
            (Scans (ByOwn nat_eq true) (λ k v. (k, v)) worker.old.number (op.Range (K.word start.now) (K.word end.now) (length out.old)) out.old out.new (scanned (K.word start.now, K.word end.now) (map (λ pair. pair.0) out.new))) result }
        ensures few { IfOk result (λ n. n ≤ length out.old) }
        ensures ascend { IfOk result (λ n. Ascend (K.word start.now) (K.word end.now) (map (λ pair. pair.0) (take n out.new))) }
        ensures refused { IfErr result IsOfReader }
        ensures foreign { is_held_by self.now.tree.id worker.old guard.now ≡ false → out.new ≡ out.old }
    {
        let scan = Op::Range(start.to_word(), end.to_word(), out.len());
        self.find(rt, scan, out, worker, guard)
    }

    /// Writes the pairs with start <= key <= last into `out`, ascending, as many as fit, and gives their number. The places
    /// past them may have been written to.
    pub fn range_inclusive<R: Wait>(
        &self,
        rt: &R,
        start: &K,
        last: &K,
        out: &mut [(u64, u64)],
        worker: &mut Worker,
        guard: &Guard,
    ) -> Result<usize, Refusal>
        ensures worker { worker.new ≡ worker.old }
        ensures answers { Serves (is_held_by self.now.tree.id worker.old guard.now)
            (Scans (ByOwn nat_eq true) (λ k v. (k, v)) worker.old.number (op.RangeInclusive (K.word start.now) (K.word last.now) (length out.old)) out.old out.new (scanned (K.word start.now, suc (K.word last.now)) (map (λ pair. pair.0) out.new))) result }
        ensures few { IfOk result (λ n. n ≤ length out.old) }
        ensures ascend { IfOk result (λ n. Ascend (K.word start.now) (suc (K.word last.now)) (map (λ pair. pair.0) (take n out.new))) }
        ensures refused { IfErr result IsOfReader }
        ensures foreign { is_held_by self.now.tree.id worker.old guard.now ≡ false → out.new ≡ out.old }
    {
        let scan = Op::RangeInclusive(start.to_word(), last.to_word(), out.len());
        self.find(rt, scan, out, worker, guard)
    }

    /// A scan, with places for pairs of any form.
    pub(crate) fn find<Q: Pair<u64>, R: Wait>(
        &self,
        rt: &R,
        op: Op<u64>,
        out: &mut [Q],
        worker: &mut Worker,
        guard: &Guard,
    ) -> Result<usize, Refusal>
        ensures worker { worker.new ≡ worker.old }
        ensures answers { Serves (is_held_by self.now.tree.id worker.old guard.now)
            (Scans (ByOwn nat_eq true) Q.pair worker.old.number op out.old out.new (scanned (bounds op) (map Q.key_of out.new))) result }
        ensures few { IfOk result (λ n. n ≤ length out.old) }
        ensures ascend { IfOk result (λ n. Ascend (bounds op).0 (bounds op).1 (map Q.key_of (take n out.new))) }
        ensures refused { IfErr result IsOfReader }
        ensures foreign { is_held_by self.now.tree.id worker.old guard.now ≡ false → out.new ≡ out.old }
    {
        self.tree.find(rt, op, out, worker, guard)
    }

    /// Whether a key has a value.
    pub fn contains_key<R: Wait>(
        &self,
        rt: &R,
        key: &K,
        worker: &mut Worker,
        guard: &Guard,
    ) -> Result<bool, Refusal>
        ensures worker { worker.new ≡ worker.old }
        ensures answers { Serves (is_held_by self.now.tree.id worker.old guard.now) (Answers (ByOwn nat_eq true) worker.old.number (op.Get (K.word key.now)) contained) result }
        ensures refused { IfErr result IsOfReader }
    {
        self.tree.contains_key(rt, key.to_word(), worker, guard)
    }

    /// Whether no key has a value, at its one step.
    pub fn is_empty<R: Wait>(
        &self,
        rt: &R,
        worker: &mut Worker,
        guard: &Guard,
    ) -> Result<bool, Refusal>
        ensures worker { worker.new ≡ worker.old }
        ensures answers { Serves (is_held_by self.now.tree.id worker.old guard.now) (Answers (ByOwn nat_eq true) worker.old.number op.IsEmpty emptied) result }
        ensures refused { IfErr result IsOfReader }
    {
        self.tree.is_empty(rt, worker, guard)
    }

    /// The pair of the least key, if there is one, of those that stand in one hold of the lock.
    pub fn first<R: Wait>(
        &self,
        rt: &R,
        worker: &mut Worker,
        guard: &Guard,
    ) -> Result<Option<(K, V)>, Refusal>
        ensures worker { worker.new ≡ worker.old }
        ensures answers { As (Serves (is_held_by self.now.tree.id worker.old guard.now)
            (Finds nat_eq true worker.old.number (λ m pair. IsLeast m 0 pair))) (pair_words K.of_word V.of_word) result }
        ensures refused { IfErr result IsOfReader }
    {
        word_pair(self.tree.nearest(rt, Near::From(0), worker, guard))
    }

    /// The pair of the greatest key, so.
    pub fn last<R: Wait>(
        &self,
        rt: &R,
        worker: &mut Worker,
        guard: &Guard,
    ) -> Result<Option<(K, V)>, Refusal>
        ensures worker { worker.new ≡ worker.old }
        ensures answers { As (Serves (is_held_by self.now.tree.id worker.old guard.now)
            (Finds nat_eq true worker.old.number (λ m pair. IsGreatest m (2 ^ 64) pair))) (pair_words K.of_word V.of_word) result }
        ensures refused { IfErr result IsOfReader }
    {
        word_pair(self.tree.nearest(rt, Near::UpTo(u64::MAX), worker, guard))
    }

    /// The pair of the least key above this one, so.
    pub fn next_after<R: Wait>(
        &self,
        rt: &R,
        key: &K,
        worker: &mut Worker,
        guard: &Guard,
    ) -> Result<Option<(K, V)>, Refusal>
        ensures worker { worker.new ≡ worker.old }
        ensures answers { As (Serves (is_held_by self.now.tree.id worker.old guard.now)
            (Finds nat_eq true worker.old.number (λ m pair. IsLeast m (suc (K.word key.now)) pair))) (pair_words K.of_word V.of_word) result }
        ensures refused { IfErr result IsOfReader }
    {
        word_pair(
            self.tree
                .nearest(rt, Near::After(key.to_word()), worker, guard),
        )
    }

    /// The pair of the greatest key below this one, so.
    pub fn next_before<R: Wait>(
        &self,
        rt: &R,
        key: &K,
        worker: &mut Worker,
        guard: &Guard,
    ) -> Result<Option<(K, V)>, Refusal>
        ensures worker { worker.new ≡ worker.old }
        ensures answers { As (Serves (is_held_by self.now.tree.id worker.old guard.now)
            (Finds nat_eq true worker.old.number (λ m pair. IsGreatest m (K.word key.now) pair))) (pair_words K.of_word V.of_word) result }
        ensures refused { IfErr result IsOfReader }
    {
        word_pair(
            self.tree
                .nearest(rt, Near::Before(key.to_word()), worker, guard),
        )
    }

    /// The pair of the least key that isn't less than this one, so: its own, where it is present.
    pub fn at_or_after<R: Wait>(
        &self,
        rt: &R,
        key: &K,
        worker: &mut Worker,
        guard: &Guard,
    ) -> Result<Option<(K, V)>, Refusal>
        ensures worker { worker.new ≡ worker.old }
        ensures answers { As (Serves (is_held_by self.now.tree.id worker.old guard.now)
            (Finds nat_eq true worker.old.number (λ m pair. IsLeast m (K.word key.now) pair))) (pair_words K.of_word V.of_word) result }
        ensures refused { IfErr result IsOfReader }
    {
        word_pair(
            self.tree
                .nearest(rt, Near::From(key.to_word()), worker, guard),
        )
    }

    /// The pair of the greatest key that isn't greater than this one, so: its own, where it is present.
    pub fn at_or_before<R: Wait>(
        &self,
        rt: &R,
        key: &K,
        worker: &mut Worker,
        guard: &Guard,
    ) -> Result<Option<(K, V)>, Refusal>
        ensures worker { worker.new ≡ worker.old }
        ensures answers { As (Serves (is_held_by self.now.tree.id worker.old guard.now)
            (Finds nat_eq true worker.old.number (λ m pair. IsGreatest m (suc (K.word key.now)) pair))) (pair_words K.of_word V.of_word) result }
        ensures refused { IfErr result IsOfReader }
    {
        word_pair(
            self.tree
                .nearest(rt, Near::UpTo(key.to_word()), worker, guard),
        )
    }

    /// All keys, ascending, at its one step. It wants no guard. Refused as Memory.
    pub fn keys<R: Wait>(&self, rt: &R, worker: &mut Worker) -> Result<Vec<K>, Refusal>
        ensures worker { worker.new ≡ worker.old }
        ensures answers { (answer : _) × Serves (is_of self.now.tree.id worker.old) (Answers (ByOwn nat_eq true) worker.old.number op.Keys listed) answer × AreKeys K.of_word answer result }
    {
        are_keys(self.alloc, self.tree.keys(rt, worker))
    }

    /// How the nodes are spread over levels and forms, and how many pairs there are, at its one step. It wants no guard.
    /// Refused as Memory.
    pub fn stats<R: Wait>(&self, rt: &R, worker: &mut Worker) -> Result<NodeStats, Refusal>
        ensures worker { worker.new ≡ worker.old }
        ensures answers { Serves (is_of self.now.tree.id worker.old) (Answers (ByOwn nat_eq true) worker.old.number op.Stats counted) result }
    {
        self.tree.stats(rt, worker)
    }

    /// How many pairs there are, at its one step; more than `u64::MAX` are told as that. It wants no guard. Refused as Memory.
    pub fn len<R: Wait>(&self, rt: &R, worker: &mut Worker) -> Result<u64, Refusal>
        ensures worker { worker.new ≡ worker.old }
        ensures answers { Serves (is_of self.now.tree.id worker.old) (Answers (ByOwn nat_eq true) worker.old.number op.Stats pairs_counted) result }
    {
        self.tree.len(rt, worker)
    }

    /// The bytes charged to the allocator.
    pub fn charged<R: Wait>(&self, rt: &R) -> u64
        ensures { IsTold nat_eq true (charge_of self.now.tree.account) result }
    {
        self.tree.charged(rt)
    }

    /// The nodes that wait for their destruction.
    pub fn waiting<R: Wait>(&self, rt: &R) -> u64
        ensures { IsTold nat_eq true waiting_of result }
    {
        self.tree.waiting(rt)
    }

    /// Their sizes, in bytes.
    pub fn waiting_bytes<R: Wait>(&self, rt: &R) -> u64
        ensures { IsTold nat_eq true waiting_bytes_of result }
    {
        self.tree.waiting_bytes(rt)
    }
}

impl<K: Word64, V: Word64, A: Allocator> Congee<K, V, A, NoDrain> {
    /// An index with a root alone, which the allocator is charged for. Refused as Limits, Budget or Memory; the allocator
    /// is dropped then.
    ///
    /// Its number is `limits.id`; each index wants one of its own (`Limits::with_id`).
    pub fn new(alloc: Global, limits: Limits, allocator: A) -> Result<Self, Refusal>
        ensures id { IfOk result (λ t. t.tree.id ≡ limits.id) }
        ensures account { IfOk result (λ t. IsAccount t.tree.account (A.charged_of allocator) (A.limit_of allocator)) }
        ensures cause { IfErr result (λ e. IsUnopened limits (A.charged_of allocator) (A.limit_of allocator) e) }
    {
        Congee::new_with_drainer(alloc, limits, allocator, NoDrain)
    }
}

impl<K: Word64, V: Word64, A: Allocator, D: Drainer<K, V>> Congee<K, V, A, D> {
    /// Hands each pair to the drainer, ascending by key, and gives allocator and drainer back; the allocator has the
    /// charge with which it came, and its limit. Refused as WorkersLeft while workers are registered, and the index comes
    /// back; as Foreign too where another charge or limit came in with what its lock keeps, which no run brings about.
    pub fn close<R: Wait>(self, _rt: &R) -> Result<(A, D), (Refusal, Self)>
        requires { D.can_drain self.drainer }
        ensures closed { IfOk result (λ r. Closes nat_eq true (λ before key value after. D.drains before (K.of_word key) (V.of_word value) after) self.drainer (A.charged_of r.0) (A.limit_of r.0) r.1) }
        ensures given_back { IfOk result (λ r. IsAccount self.tree.account (A.charged_of r.0) (A.limit_of r.0)) }
        ensures cause { IfErr result (λ e. IsUnclosed nat_eq true self.tree.account e.0) }
        ensures back { IfErr result (λ e. (e.1.tree.id ≡ self.tree.id) × (e.1.tree.account ≡ self.tree.account) × (e.1.drainer ≡ self.drainer)) }
    {
        let Congee {
            tree,
            drainer,
            alloc,
            words: _,
        } = self;
        match tree.close(OfWords::<K, V, D>::new(drainer)) {
            Ok((allocator, drainer, _)) => Ok((allocator, drainer.into_inner())),
            Err((refusal, tree, drainer)) => {
                let back = Congee {
                    tree,
                    drainer: drainer.into_inner(),
                    alloc,
                    words: PhantomData,
                };
                Err((refusal, back))
            }
        }
    }
}
