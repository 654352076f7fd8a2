//! The index for threads whose keys are numbers.

ghost use Rattle.std.specs.Prelude.{◌≡◌, ◌^◌, ◌≤◌, false, length, nat_eq, true, IfErr, IfOk, MatchResult, suc, map, take};
ghost use Rattle.std.specs.Int.{from_be_bytes, w64};
ghost use Rattle.std.specs.Option.{option_map};
ghost use Rattle.congee.specs.Keys.{key_bytes};
ghost use Rattle.congee.specs.owned.Nearest.{IsGreatest, IsLeast};
ghost use Rattle.joint.specs.nodes.Opening.{IsUnopened};
ghost use Rattle.joint.specs.threads.Pinned.{CallsPinned, KeepsWorker};
ghost use Rattle.joint.specs.threads.Threads.{Answers, AreKeys, As, Ascend, ByOwn, Computes, Drops, Finds, Hands, IsAccount, IsHold, IsOfReader, IsRound, IsTold, IsUnclosed, Pins, Scans, Serves, is_held_by, is_of, register_step, registered, charge_of, waiting_bytes_of, waiting_of, computed, contained, counted, either_words, emptied, exchanged, got, if_present, inserted, listed, or_insert, pair_words, pairs_counted, removed, replaced, scanned, told, words};
ghost use Rattle.joint.specs.declared.steps.Op.TheVariants as op;

use crate::limits::Limits;
use crate::refusal::Refusal;
use crate::steps::Op;
use crate::threads::tokens::{Guard, Worker};
use crate::threads::word_congee::Congee;
use congee::{Allocator, DefaultAllocator, KEY_BYTES, NoDrain, NodeStats, Word64};
use std::alloc::Global;
use std::sync::Wait;

/// An ordered map from numbers to words that threads share.
#[derive(Drop)]
pub struct U64Congee<V, A: Allocator = DefaultAllocator> {
    words: Congee<u64, V, A, NoDrain>,
}

impl<V: Word64, A: Allocator> U64Congee<V, A> {
    /// An index with a root alone, which the allocator is charged for. Refused as Limits, Budget or Memory; the allocator
    /// is dropped then.
    ///
    /// Its number is `limits.id`; each index wants one of its own (`Limits::with_id`).
    pub fn new(alloc: Global, limits: Limits, allocator: A) -> Result<Self, Refusal>
        ensures id { IfOk result (λ t. t.words.tree.id ≡ limits.id) }
        ensures account { IfOk result (λ t. IsAccount t.words.tree.account (A.charged_of allocator) (A.limit_of allocator)) }
        ensures cause { IfErr result (λ e. IsUnopened limits (A.charged_of allocator) (A.limit_of allocator) e) }
    {
        Ok(U64Congee {
            words: Congee::new(alloc, limits, allocator)?,
        })
    }

    /// A worker at the lowest free place of the table. Refused as TableFull.
    pub fn register<R: Wait>(&self, rt: &R) -> Result<Worker, Refusal>
        ensures { (r : _) × IsHold nat_eq true register_step r × (result ≡ registered self.now.words.tree.id r.outcome) }
    {
        self.words.register(rt)
    }

    /// The worker leaves its place; what it removed waits on. Refused as GuardOut while it is pinned, as Memory where
    /// its removals can't be queued, and as Foreign; it comes back.
    pub fn release<R: Wait>(&self, rt: &R, worker: Worker) -> Result<(), (Refusal, Worker)>
        ensures { Hands (is_of self.now.words.tree.id worker) (Answers (ByOwn nat_eq true) worker.number op.Release told) worker result }
    {
        self.words.release(rt, worker)
    }

    /// A guard. Refused as Count where 65,535 guards of the worker are out.
    pub fn pin<R: Wait>(&self, rt: &R, worker: &mut Worker) -> Result<Guard, Refusal>
        ensures worker { worker.new ≡ worker.old }
        ensures answers { Serves (is_of self.now.words.tree.id worker.old) (Pins (ByOwn nat_eq true) self.now.words.tree.id worker.old.number) result }
        ensures refused { IfErr result IsOfReader }
    {
        self.words.pin(rt, worker)
    }

    /// Spends a guard; with its last one a worker isn't pinned any more. The guard comes back with a refusal.
    pub fn unpin<R: Wait>(
        &self,
        rt: &R,
        worker: &mut Worker,
        guard: Guard,
    ) -> Result<(), (Refusal, Guard)>
        ensures worker { worker.new ≡ worker.old }
        ensures answers { Hands (is_held_by self.now.words.tree.id worker.old guard) (Answers (ByOwn nat_eq true) worker.old.number op.Unpin told) guard result }
    {
        self.words.unpin(rt, worker, guard)
    }

    /// Pins the worker, calls `f` with worker and guard, and spends the guard, whatever `f` answered: so `?` may leave `f`.
    /// Answers what `f` did. A refused pin is the answer, and `f` isn't called then. A refused unpin is the answer too: it
    /// comes where `f` left another worker in this one's place, as Foreign; the worker stays pinned then.
    pub fn pinned<O: Drop, R: Wait, F: FnOnce(&mut Worker, &Guard) -> Result<O, Refusal>>(
        &self,
        rt: &R,
        worker: &mut Worker,
        f: F,
    ) -> Result<O, Refusal>
    where
        F: Drop,
        requires { F.IsAlwaysCallable f }
        ensures answers { CallsPinned (ByOwn nat_eq true) self.now.words.tree.id F.FnOnce f worker.old worker.new result }
        ensures worker { KeepsWorker F.FnOnce f → worker.new ≡ worker.old }
    {
        self.words.pinned(rt, worker, f)
    }

    /// Seals the worker's removals, and destroys what no guard protects any more. Refused as Memory where they can't be
    /// queued; then nothing was done.
    pub fn flush<R: Wait>(&self, rt: &R, worker: &mut Worker, guard: &Guard) -> Result<(), Refusal>
        ensures worker { worker.new ≡ worker.old }
        ensures answers { Serves (is_held_by self.now.words.tree.id worker.old guard.now) (Answers (ByOwn nat_eq true) worker.old.number op.Flush told) result }
    {
        self.words.flush(rt, worker, guard)
    }

    /// Pins the worker anew at the present epoch, where this is its only guard.
    pub fn repin<R: Wait>(&self, rt: &R, worker: &mut Worker, guard: &Guard) -> Result<(), Refusal>
        ensures worker { worker.new ≡ worker.old }
        ensures answers { Serves (is_held_by self.now.words.tree.id worker.old guard.now) (Answers (ByOwn nat_eq true) worker.old.number op.Repin told) result }
    {
        self.words.repin(rt, worker, guard)
    }

    /// Pin, flush, unpin. Answers the first refusal; after a refused flush it unpins too.
    pub fn round<R: Wait>(&self, rt: &R, worker: &mut Worker) -> Result<(), Refusal>
        ensures worker { worker.new ≡ worker.old }
        ensures answers { Serves (is_of self.now.words.tree.id worker.old) (IsRound (ByOwn nat_eq true) worker.old.number) result }
    {
        self.words.round(rt, worker)
    }

    /// The value at a key.
    pub fn get<R: Wait>(
        &self,
        rt: &R,
        key: u64,
        worker: &mut Worker,
        guard: &Guard,
    ) -> Result<Option<V>, Refusal>
        ensures worker { worker.new ≡ worker.old }
        ensures answers { As (Serves (is_held_by self.now.words.tree.id worker.old guard.now)
            (Answers (ByOwn nat_eq true) worker.old.number (op.Get key) got)) (words V.of_word) result }
        ensures refused { IfErr result IsOfReader }
    {
        self.words.get(rt, &key, worker, guard)
    }

    /// Puts a value at a key, and gives the one before.
    pub fn insert<R: Wait>(
        &self,
        rt: &R,
        key: u64,
        value: V,
        worker: &mut Worker,
        guard: &Guard,
    ) -> Result<Option<V>, Refusal>
        ensures worker { worker.new ≡ worker.old }
        ensures answers { As (Serves (is_held_by self.now.words.tree.id worker.old guard.now)
            (Answers (ByOwn nat_eq true) worker.old.number (op.Insert key (V.word value)) inserted)) (words V.of_word) result }
    {
        self.words.insert(rt, key, value, worker, guard)
    }

    /// Takes a key's value out.
    pub fn remove<R: Wait>(
        &self,
        rt: &R,
        key: u64,
        worker: &mut Worker,
        guard: &Guard,
    ) -> Result<Option<V>, Refusal>
        ensures worker { worker.new ≡ worker.old }
        ensures answers { As (Serves (is_held_by self.now.words.tree.id worker.old guard.now)
            (Answers (ByOwn nat_eq true) worker.old.number (op.Remove key) removed)) (words V.of_word) result }
    {
        self.words.remove(rt, &key, worker, guard)
    }

    /// Puts the answer of `f` at a key that is present, or takes the key out where the answer is `None`. Gives the value
    /// before and the answer. `f` runs between two holds of the lock, and is asked again where the call begins anew.
    pub fn compute_if_present<F: FnMut(u64) -> Option<u64>, R: Wait>(
        &self,
        rt: &R,
        key: u64,
        f: F,
        worker: &mut Worker,
        guard: &Guard,
    ) -> Result<Option<(u64, Option<u64>)>, Refusal>
        requires { F.IsAlwaysCallable f }
        ensures worker { worker.new ≡ worker.old }
        ensures answers { Serves (is_held_by self.now.words.tree.id worker.old guard.now)
            (Computes (ByOwn nat_eq true) (if_present F.step) worker.old.number (op.ComputePresent key) f computed) result }
    {
        self.words.compute_if_present(rt, &key, f, worker, guard)
    }

    /// Puts the answer of `f` at a key, present or not, and gives the value before. `f` runs between two holds of the
    /// lock, and is asked again where the call begins anew.
    pub fn compute_or_insert<F: FnMut(Option<u64>) -> u64, R: Wait>(
        &self,
        rt: &R,
        key: u64,
        f: F,
        worker: &mut Worker,
        guard: &Guard,
    ) -> Result<Option<V>, Refusal>
        requires { F.IsAlwaysCallable f }
        ensures worker { worker.new ≡ worker.old }
        ensures answers { As (Serves (is_held_by self.now.words.tree.id worker.old guard.now)
            (Computes (ByOwn nat_eq true) (or_insert F.step) worker.old.number (op.ComputeInsert key) f replaced)) (words V.of_word) result }
    {
        self.words.compute_or_insert(rt, key, f, worker, guard)
    }

    /// Where the key has the old value, puts the new one there, or takes the key out at `None`. Another value, or none, is
    /// the inner error.
    pub fn compare_exchange<R: Wait>(
        &self,
        rt: &R,
        key: u64,
        old: &V,
        new: Option<V>,
        worker: &mut Worker,
        guard: &Guard,
    ) -> Result<Result<Option<V>, Option<V>>, Refusal>
        ensures worker { worker.new ≡ worker.old }
        ensures answers { As (Serves (is_held_by self.now.words.tree.id worker.old guard.now)
            (Answers (ByOwn nat_eq true) worker.old.number (op.Exchange key (V.word old.now) (option_map V.word new)) exchanged)) (either_words V.of_word) result }
    {
        self.words
            .compare_exchange(rt, &key, old, new, worker, guard)
    }

    /// Writes the pairs with start <= key < end into `out`, ascending, as many as fit, each key as its eight bytes, the
    /// highest first, and gives their number. The places past them may have been written to.
    pub fn range<R: Wait>(
        &self,
        rt: &R,
        start: u64,
        end: u64,
        out: &mut [([u8; KEY_BYTES], u64)],
        worker: &mut Worker,
        guard: &Guard,
    ) -> Result<usize, Refusal>
        ensures worker { worker.new ≡ worker.old }
        ensures answers { Serves (is_held_by self.now.words.tree.id worker.old guard.now)
            (Scans (ByOwn nat_eq true) (λ k v. (key_bytes k, v)) worker.old.number (op.Range start end (length out.old)) out.old out.new (scanned (start, end) (map (λ pair. from_be_bytes w64 pair.0) out.new))) result }
        ensures few { IfOk result (λ n. n ≤ length out.old) }
        ensures ascend { IfOk result (λ n. Ascend start end (map (λ pair. from_be_bytes w64 pair.0) (take n out.new))) }
        ensures refused { IfErr result IsOfReader }
        ensures foreign { is_held_by self.now.words.tree.id worker.old guard.now ≡ false → out.new ≡ out.old }
    {
        let scan = Op::Range(start, end, out.len());
        self.words.find(rt, scan, out, worker, guard)
    }

    /// Writes the pairs with start <= key <= last into `out`, ascending, as many as fit, each key as its eight bytes, the
    /// highest first, and gives their number. The places past them may have been written to.
    pub fn range_inclusive<R: Wait>(
        &self,
        rt: &R,
        start: u64,
        last: u64,
        out: &mut [([u8; KEY_BYTES], u64)],
        worker: &mut Worker,
        guard: &Guard,
    ) -> Result<usize, Refusal>
        ensures worker { worker.new ≡ worker.old }
        ensures answers { Serves (is_held_by self.now.words.tree.id worker.old guard.now)
            (Scans (ByOwn nat_eq true) (λ k v. (key_bytes k, v)) worker.old.number (op.RangeInclusive start last (length out.old)) out.old out.new (scanned (start, suc last) (map (λ pair. from_be_bytes w64 pair.0) out.new))) result }
        ensures few { IfOk result (λ n. n ≤ length out.old) }
        ensures ascend { IfOk result (λ n. Ascend start (suc last) (map (λ pair. from_be_bytes w64 pair.0) (take n out.new))) }
        ensures refused { IfErr result IsOfReader }
        ensures foreign { is_held_by self.now.words.tree.id worker.old guard.now ≡ false → out.new ≡ out.old }
    {
        let scan = Op::RangeInclusive(start, last, out.len());
        self.words.find(rt, scan, out, worker, guard)
    }

    /// Whether a key has a value.
    pub fn contains_key<R: Wait>(
        &self,
        rt: &R,
        key: u64,
        worker: &mut Worker,
        guard: &Guard,
    ) -> Result<bool, Refusal>
        ensures worker { worker.new ≡ worker.old }
        ensures answers { Serves (is_held_by self.now.words.tree.id worker.old guard.now) (Answers (ByOwn nat_eq true) worker.old.number (op.Get key) contained) result }
        ensures refused { IfErr result IsOfReader }
    {
        self.words.contains_key(rt, &key, worker, guard)
    }

    /// Whether no key has a value, at its one step.
    pub fn is_empty<R: Wait>(
        &self,
        rt: &R,
        worker: &mut Worker,
        guard: &Guard,
    ) -> Result<bool, Refusal>
        ensures worker { worker.new ≡ worker.old }
        ensures answers { Serves (is_held_by self.now.words.tree.id worker.old guard.now) (Answers (ByOwn nat_eq true) worker.old.number op.IsEmpty emptied) result }
        ensures refused { IfErr result IsOfReader }
    {
        self.words.is_empty(rt, worker, guard)
    }

    /// The pair of the least key, if there is one, of those that stand in one hold of the lock.
    pub fn first<R: Wait>(
        &self,
        rt: &R,
        worker: &mut Worker,
        guard: &Guard,
    ) -> Result<Option<(u64, V)>, Refusal>
        ensures worker { worker.new ≡ worker.old }
        ensures answers { As (Serves (is_held_by self.now.words.tree.id worker.old guard.now)
            (Finds nat_eq true worker.old.number (λ m pair. IsLeast m 0 pair))) (pair_words (λ k. k) V.of_word) result }
        ensures refused { IfErr result IsOfReader }
    {
        self.words.first(rt, worker, guard)
    }

    /// The pair of the greatest key, so.
    pub fn last<R: Wait>(
        &self,
        rt: &R,
        worker: &mut Worker,
        guard: &Guard,
    ) -> Result<Option<(u64, V)>, Refusal>
        ensures worker { worker.new ≡ worker.old }
        ensures answers { As (Serves (is_held_by self.now.words.tree.id worker.old guard.now)
            (Finds nat_eq true worker.old.number (λ m pair. IsGreatest m (2 ^ 64) pair))) (pair_words (λ k. k) V.of_word) result }
        ensures refused { IfErr result IsOfReader }
    {
        self.words.last(rt, worker, guard)
    }

    /// The pair of the least key above this one, so.
    pub fn next_after<R: Wait>(
        &self,
        rt: &R,
        key: u64,
        worker: &mut Worker,
        guard: &Guard,
    ) -> Result<Option<(u64, V)>, Refusal>
        ensures worker { worker.new ≡ worker.old }
        ensures answers { As (Serves (is_held_by self.now.words.tree.id worker.old guard.now)
            (Finds nat_eq true worker.old.number (λ m pair. IsLeast m (suc key) pair))) (pair_words (λ k. k) V.of_word) result }
        ensures refused { IfErr result IsOfReader }
    {
        self.words.next_after(rt, &key, worker, guard)
    }

    /// The pair of the greatest key below this one, so.
    pub fn next_before<R: Wait>(
        &self,
        rt: &R,
        key: u64,
        worker: &mut Worker,
        guard: &Guard,
    ) -> Result<Option<(u64, V)>, Refusal>
        ensures worker { worker.new ≡ worker.old }
        ensures answers { As (Serves (is_held_by self.now.words.tree.id worker.old guard.now)
            (Finds nat_eq true worker.old.number (λ m pair. IsGreatest m key pair))) (pair_words (λ k. k) V.of_word) result }
        ensures refused { IfErr result IsOfReader }
    {
        self.words.next_before(rt, &key, worker, guard)
    }

    /// The pair of the least key that isn't less than this one, so: its own, where it is present.
    pub fn at_or_after<R: Wait>(
        &self,
        rt: &R,
        key: u64,
        worker: &mut Worker,
        guard: &Guard,
    ) -> Result<Option<(u64, V)>, Refusal>
        ensures worker { worker.new ≡ worker.old }
        ensures answers { As (Serves (is_held_by self.now.words.tree.id worker.old guard.now)
            (Finds nat_eq true worker.old.number (λ m pair. IsLeast m key pair))) (pair_words (λ k. k) V.of_word) result }
        ensures refused { IfErr result IsOfReader }
    {
        self.words.at_or_after(rt, &key, worker, guard)
    }

    /// The pair of the greatest key that isn't greater than this one, so: its own, where it is present.
    pub fn at_or_before<R: Wait>(
        &self,
        rt: &R,
        key: u64,
        worker: &mut Worker,
        guard: &Guard,
    ) -> Result<Option<(u64, V)>, Refusal>
        ensures worker { worker.new ≡ worker.old }
        ensures answers { As (Serves (is_held_by self.now.words.tree.id worker.old guard.now)
            (Finds nat_eq true worker.old.number (λ m pair. IsGreatest m (suc key) pair))) (pair_words (λ k. k) V.of_word) result }
        ensures refused { IfErr result IsOfReader }
    {
        self.words.at_or_before(rt, &key, worker, guard)
    }

    /// All keys, ascending, at its one step. It wants no guard. Refused as Memory.
    pub fn keys<R: Wait>(&self, rt: &R, worker: &mut Worker) -> Result<Vec<u64>, Refusal>
        ensures worker { worker.new ≡ worker.old }
        ensures answers { (answer : _) × Serves (is_of self.now.words.tree.id worker.old) (Answers (ByOwn nat_eq true) worker.old.number op.Keys listed) answer × AreKeys (λ k. k) answer result }
    {
        self.words.keys(rt, worker)
    }

    /// How the nodes are spread over levels and forms, and how many pairs there are, at its one step. It wants no guard.
    /// Refused as Memory.
    pub fn stats<R: Wait>(&self, rt: &R, worker: &mut Worker) -> Result<NodeStats, Refusal>
        ensures worker { worker.new ≡ worker.old }
        ensures answers { Serves (is_of self.now.words.tree.id worker.old) (Answers (ByOwn nat_eq true) worker.old.number op.Stats counted) result }
    {
        self.words.stats(rt, worker)
    }

    /// How many pairs there are, at its one step; more than `u64::MAX` are told as that. It wants no guard. Refused as Memory.
    pub fn len<R: Wait>(&self, rt: &R, worker: &mut Worker) -> Result<u64, Refusal>
        ensures worker { worker.new ≡ worker.old }
        ensures answers { Serves (is_of self.now.words.tree.id worker.old) (Answers (ByOwn nat_eq true) worker.old.number op.Stats pairs_counted) result }
    {
        self.words.len(rt, worker)
    }

    /// The bytes charged to the allocator.
    pub fn charged<R: Wait>(&self, rt: &R) -> u64
        ensures { IsTold nat_eq true (charge_of self.now.words.tree.account) result }
    {
        self.words.charged(rt)
    }

    /// The nodes that wait for their destruction.
    pub fn waiting<R: Wait>(&self, rt: &R) -> u64
        ensures { IsTold nat_eq true waiting_of result }
    {
        self.words.waiting(rt)
    }

    /// Their sizes, in bytes.
    pub fn waiting_bytes<R: Wait>(&self, rt: &R) -> u64
        ensures { IsTold nat_eq true waiting_bytes_of result }
    {
        self.words.waiting_bytes(rt)
    }

    /// Drops the pairs and the nodes, and gives the allocator back with the charge with which it came, and its limit.
    /// Refused as WorkersLeft while workers are registered, and the index comes back; as Foreign too where another charge
    /// or limit came in with what its lock keeps, which no run brings about.
    pub fn close<R: Wait>(self, rt: &R) -> Result<A, (Refusal, Self)>
        ensures closed { IfOk result (λ a. Drops nat_eq true (A.charged_of a) (A.limit_of a)) }
        ensures given_back { IfOk result (λ a. IsAccount self.words.tree.account (A.charged_of a) (A.limit_of a)) }
        ensures cause { IfErr result (λ e. IsUnclosed nat_eq true self.words.tree.account e.0) }
        ensures back { IfErr result (λ e. (e.1.words.tree.id ≡ self.words.tree.id) × (e.1.words.tree.account ≡ self.words.tree.account)) }
    {
        let U64Congee { words } = self;
        match words.close(rt) {
            Ok((allocator, _)) => Ok(allocator),
            Err((refusal, words)) => Err((refusal, U64Congee { words })),
        }
    }
}
