//! The index of words for threads, with a journal and a ledger that counts its writing calls.

ghost use Rattle.std.specs.Prelude.{◌≡◌, nat_eq, true, IfErr, IfOk, MatchResult};
ghost use Rattle.std.specs.Option.{option_map};
ghost use Rattle.joint.specs.threads.Journals.{ClosesJournal, IsJournal};
ghost use Rattle.joint.specs.nodes.Opening.{IsUnshared};
ghost use Rattle.joint.specs.threads.Pinned.{CallsPinned, KeepsWorker};
ghost use Rattle.joint.specs.threads.Threads.{Answers, As, Hands, IsAccount, IsHold, IsOfReader, IsRound, IsTold, IsUnclosed, Pins, Serves, is_held_by, is_of, register_step, registered, charge_of, waiting_bytes_of, waiting_of, computed, contained, either_words, exchanged, got, if_present, inserted, or_insert, removed, replaced, told, words};
ghost use Rattle.joint.specs.threads.Writing.{Gathers, GathersJournal, Reads, Writes, WritesMute};
ghost use Rattle.joint.specs.declared.refusal.Refusal.TheVariants as cause;
ghost use Rattle.joint.specs.declared.steps.Op.TheVariants as op;

mod scans;

use crate::limits::Limits;
use crate::nodes::account::Account;
use crate::refusal::Refusal;
use crate::steps::Op;
use crate::threads::answers::{IfPresent, OrInsert};
use crate::threads::journal::Journal;
use crate::threads::journaled_world::JournaledWorld;
use crate::threads::of_words::{OfWords, either_words, words};
use crate::threads::replies::{computed, exchanged, inserted, removed, replaced};
use crate::threads::share::Share;
use crate::threads::tokens::{Guard, Worker};
use crate::threads::tree::Tree;
use crate::threads::watch::Watch;
use crate::world::World;
use congee::{Allocator, DefaultAllocator, Drainer, NoDrain, Word64};
use judge::{Entry, number_of};
use std::alloc::Global;
use std::marker::PhantomData;
use std::sync::Wait;
use std::sync::ledger::{Blank, Ledger};

/// An ordered map from words to words that threads share, as `Congee`, with a journal of its calls on single keys. A
/// writing call counts on its caller's share of the ledger L where W watches its entry in the journal.
///
/// Each step of a call is one hold of the lock. The call goes on only while it is itself what its worker has in flight;
/// else, which no schedule brings about, it answers the reply of its entry, or is refused as Idle where it has none.
#[derive(Drop)]
pub struct Journaled<L: Ledger, W: Watch, K, V, A: Allocator = DefaultAllocator, D = NoDrain> {
    tree: Tree<u64, JournaledWorld<L, W, A>>,
    drainer: D,
    alloc: Global,
    words: PhantomData<(K, V)>,
}

impl<L: Ledger, W: Watch, K: Word64, V: Word64, A: Allocator, D: Drop> Journaled<L, W, K, V, A, D> {
    /// An index with a root alone, which the allocator is charged for, a journal of so many places, and the share of all
    /// parts of the new ledger. Refused as Limits, also where there is no part, or no place or more than 4,294,967,295;
    /// as Budget or Memory. All is dropped then.
    ///
    /// Its number is `limits.id`; each index wants one of its own (`Limits::with_id`).
    pub fn new_with_drainer(
        alloc: Global,
        limits: Limits,
        allocator: A,
        drainer: D,
        places: u64,
        parts: u32,
        blank: Blank,
    ) -> Result<(Self, Share<L>), Refusal>
        requires name { blank.name ≡ L.name }
        requires ledger { blank.parts ≡ L.parts }
        requires parts { blank.parts ≡ parts }
        ensures id { IfOk result (λ r. r.0.tree.id ≡ limits.id) }
        ensures account { IfOk result (λ r. IsAccount r.0.tree.account (A.charged_of allocator) (A.limit_of allocator)) }
        ensures drainer { IfOk result (λ r. r.0.drainer ≡ drainer) }
        ensures share { IfOk result (λ r. r.1 ≡ record { parts = parts; count = 0 }) }
        ensures cause { IfErr result (λ e. IsUnshared limits places parts (A.charged_of allocator) (A.limit_of allocator) e) }
    {
        if parts == 0 {
            return Err(Refusal::Limits);
        }
        let account = Account::of(&allocator);
        let world = World::new_journaled(alloc, limits, allocator, places)?;
        let (book, tokens) = blank.open::<L>();
        let journaled = Journaled {
            tree: Tree::of(limits.id, account, JournaledWorld::with(world, book)),
            drainer,
            alloc,
            words: PhantomData,
        };
        Ok((journaled, Share::all(parts, tokens)))
    }

    /// A worker at the lowest free place of the table. Refused as TableFull.
    pub fn register<R: Wait>(&self, rt: &R) -> Result<Worker, Refusal>
        ensures { (r : _) × IsHold nat_eq true register_step r × (result ≡ registered self.now.tree.id r.outcome) }
    {
        self.tree.register(rt)
    }

    /// The worker leaves its place; what it removed waits on. Refused as GuardOut while it is pinned, as Memory where
    /// its removals can't be queued, and as Foreign; it comes back.
    pub fn release<R: Wait>(&self, rt: &R, worker: Worker) -> Result<(), (Refusal, Worker)>
        ensures { Hands (is_of self.now.tree.id worker) (Answers Reads worker.number op.Release told) worker result }
    {
        self.tree.release(rt, worker)
    }

    /// A guard. Refused as Count where 65,535 guards of the worker are out.
    pub fn pin<R: Wait>(&self, rt: &R, worker: &mut Worker) -> Result<Guard, Refusal>
        ensures worker { worker.new ≡ worker.old }
        ensures answers { Serves (is_of self.now.tree.id worker.old) (Pins Reads self.now.tree.id worker.old.number) result }
        ensures refused { IfErr result IsOfReader }
    {
        self.tree.pin(rt, worker)
    }

    /// Spends a guard; with its last one a worker isn't pinned any more. The guard comes back with a refusal.
    pub fn unpin<R: Wait>(
        &self,
        rt: &R,
        worker: &mut Worker,
        guard: Guard,
    ) -> Result<(), (Refusal, Guard)>
        ensures worker { worker.new ≡ worker.old }
        ensures answers { Hands (is_held_by self.now.tree.id worker.old guard) (Answers Reads worker.old.number op.Unpin told) guard result }
    {
        self.tree.unpin(rt, worker, guard)
    }

    /// Pins the worker, calls `f` with worker and guard, and spends the guard, whatever `f` answered: so `?` may leave `f`.
    /// Answers what `f` did. A refused pin is the answer, and `f` isn't called then. A refused unpin is the answer too: it
    /// comes where `f` left another worker in this one's place, as Foreign; the worker stays pinned then.
    pub fn pinned<O: Drop, R: Wait, F: FnOnce(&mut Worker, &Guard) -> Result<O, Refusal>>(
        &self,
        rt: &R,
        worker: &mut Worker,
        f: F,
    ) -> Result<O, Refusal>
    where
        F: Drop,
        requires { F.IsAlwaysCallable f }
        ensures answers { CallsPinned Reads self.now.tree.id F.FnOnce f worker.old worker.new result }
        ensures worker { KeepsWorker F.FnOnce f → worker.new ≡ worker.old }
    {
        self.tree.pinned(rt, worker, f)
    }

    /// Seals the worker's removals, and destroys what no guard protects any more. Refused as Memory where they can't be
    /// queued; then nothing was done.
    pub fn flush<R: Wait>(&self, rt: &R, worker: &mut Worker, guard: &Guard) -> Result<(), Refusal>
        ensures worker { worker.new ≡ worker.old }
        ensures answers { Serves (is_held_by self.now.tree.id worker.old guard.now) (Answers Reads worker.old.number op.Flush told) result }
    {
        self.tree.flush(rt, worker, guard)
    }

    /// Pins the worker anew at the present epoch, where this is its only guard.
    pub fn repin<R: Wait>(&self, rt: &R, worker: &mut Worker, guard: &Guard) -> Result<(), Refusal>
        ensures worker { worker.new ≡ worker.old }
        ensures answers { Serves (is_held_by self.now.tree.id worker.old guard.now) (Answers Reads worker.old.number op.Repin told) result }
    {
        self.tree.repin(rt, worker, guard)
    }

    /// Pin, flush, unpin. Answers the first refusal; after a refused flush it unpins too.
    pub fn round<R: Wait>(&self, rt: &R, worker: &mut Worker) -> Result<(), Refusal>
        ensures worker { worker.new ≡ worker.old }
        ensures answers { Serves (is_of self.now.tree.id worker.old) (IsRound Reads worker.old.number) result }
    {
        self.tree.round(rt, worker)
    }

    /// The value at a key.
    pub fn get<R: Wait>(
        &self,
        rt: &R,
        key: &K,
        worker: &mut Worker,
        guard: &Guard,
    ) -> Result<Option<V>, Refusal>
        ensures worker { worker.new ≡ worker.old }
        ensures answers { As (Serves (is_held_by self.now.tree.id worker.old guard.now)
            (Answers Reads worker.old.number (op.Get (K.word key.now)) got)) (words V.of_word) result }
        ensures refused { IfErr result IsOfReader }
    {
        words(self.tree.get(rt, key.to_word(), worker, guard))
    }

    /// Puts a value at a key, and gives the one before.
    pub fn insert<R: Wait>(
        &self,
        rt: &R,
        key: K,
        value: V,
        share: &mut Share<L>,
        worker: &mut Worker,
        guard: &Guard,
    ) -> Result<Option<V>, Refusal>
        ensures worker { worker.new ≡ worker.old }
        ensures answers { As (Serves (is_held_by self.now.tree.id worker.old guard.now)
            (WritesMute W.watched worker.old.number (op.Insert (K.word key) (V.word value)) inserted share.old share.new)) (words V.of_word) result }
        ensures refused { IfErr result (λ e. share.new ≡ share.old) }
    {
        if !self.tree.serves(worker, guard) {
            return Err(Refusal::Foreign);
        }
        let op = Op::Insert(key.to_word(), value.to_word());
        words(inserted(self.tree.write_silently(rt, worker, op, share)))
    }

    /// Takes a key's value out.
    pub fn remove<R: Wait>(
        &self,
        rt: &R,
        key: &K,
        share: &mut Share<L>,
        worker: &mut Worker,
        guard: &Guard,
    ) -> Result<Option<V>, Refusal>
        ensures worker { worker.new ≡ worker.old }
        ensures answers { As (Serves (is_held_by self.now.tree.id worker.old guard.now)
            (WritesMute W.watched worker.old.number (op.Remove (K.word key.now)) removed share.old share.new)) (words V.of_word) result }
        ensures refused { IfErr result (λ e. share.new ≡ share.old) }
    {
        if !self.tree.serves(worker, guard) {
            return Err(Refusal::Foreign);
        }
        let op = Op::Remove(key.to_word());
        words(removed(self.tree.write_silently(rt, worker, op, share)))
    }

    /// Puts the answer of `f` at a key that is present, or takes the key out where the answer is `None`. Gives the value
    /// before and the answer. `f` runs between two holds of the lock, and is asked again where the call begins anew.
    pub fn compute_if_present<F: FnMut(u64) -> Option<u64>, R: Wait>(
        &self,
        rt: &R,
        key: &K,
        f: F,
        share: &mut Share<L>,
        worker: &mut Worker,
        guard: &Guard,
    ) -> Result<Option<(u64, Option<u64>)>, Refusal>
        requires { F.IsAlwaysCallable f }
        ensures worker { worker.new ≡ worker.old }
        ensures answers { Serves (is_held_by self.now.tree.id worker.old guard.now)
            (Writes W.watched (if_present F.step) worker.old.number (op.ComputePresent (K.word key.now)) f computed share.old share.new) result }
        ensures refused { IfErr result (λ e. share.new ≡ share.old) }
    {
        if !self.tree.serves(worker, guard) {
            return Err(Refusal::Foreign);
        }
        let mut answers = IfPresent::new(f);
        let op = Op::ComputePresent(key.to_word());
        let end = self.tree.write(rt, worker, op, &mut answers, share);
        let _ = answers.into_inner();
        computed(end)
    }

    /// Puts the answer of `f` at a key, present or not, and gives the value before. `f` runs between two holds of the
    /// lock, and is asked again where the call begins anew.
    pub fn compute_or_insert<F: FnMut(Option<u64>) -> u64, R: Wait>(
        &self,
        rt: &R,
        key: K,
        f: F,
        share: &mut Share<L>,
        worker: &mut Worker,
        guard: &Guard,
    ) -> Result<Option<V>, Refusal>
        requires { F.IsAlwaysCallable f }
        ensures worker { worker.new ≡ worker.old }
        ensures answers { As (Serves (is_held_by self.now.tree.id worker.old guard.now)
            (Writes W.watched (or_insert F.step) worker.old.number (op.ComputeInsert (K.word key)) f replaced share.old share.new)) (words V.of_word) result }
        ensures refused { IfErr result (λ e. share.new ≡ share.old) }
    {
        if !self.tree.serves(worker, guard) {
            return Err(Refusal::Foreign);
        }
        let mut answers = OrInsert::new(f);
        let op = Op::ComputeInsert(key.to_word());
        let end = self.tree.write(rt, worker, op, &mut answers, share);
        let _ = answers.into_inner();
        words(replaced(end))
    }

    /// Where the key has the old value, puts the new one there, or takes the key out at `None`. Another value, or none, is
    /// the inner error.
    pub fn compare_exchange<R: Wait>(
        &self,
        rt: &R,
        key: &K,
        old: &V,
        new: Option<V>,
        share: &mut Share<L>,
        worker: &mut Worker,
        guard: &Guard,
    ) -> Result<Result<Option<V>, Option<V>>, Refusal>
        ensures worker { worker.new ≡ worker.old }
        ensures answers { As (Serves (is_held_by self.now.tree.id worker.old guard.now)
            (WritesMute W.watched worker.old.number (op.Exchange (K.word key.now) (V.word old.now) (option_map V.word new)) exchanged share.old share.new)) (either_words V.of_word) result }
        ensures refused { IfErr result (λ e. share.new ≡ share.old) }
    {
        if !self.tree.serves(worker, guard) {
            return Err(Refusal::Foreign);
        }
        let op = Op::Exchange(key.to_word(), old.to_word(), number_of(&new));
        either_words(exchanged(self.tree.write_silently(rt, worker, op, share)))
    }

    /// Whether a key has a value. It is written down as a look-up.
    pub fn contains_key<R: Wait>(
        &self,
        rt: &R,
        key: &K,
        worker: &mut Worker,
        guard: &Guard,
    ) -> Result<bool, Refusal>
        ensures worker { worker.new ≡ worker.old }
        ensures answers { Serves (is_held_by self.now.tree.id worker.old guard.now) (Answers Reads worker.old.number (op.Get (K.word key.now)) contained) result }
        ensures refused { IfErr result IsOfReader }
    {
        self.tree.contains_key(rt, key.to_word(), worker, guard)
    }

    /// The bytes charged to the allocator.
    pub fn charged<R: Wait>(&self, rt: &R) -> u64
        ensures { IsTold nat_eq true (charge_of self.now.tree.account) result }
    {
        self.tree.charged(rt)
    }

    /// The nodes that wait for their destruction.
    pub fn waiting<R: Wait>(&self, rt: &R) -> u64
        ensures { IsTold nat_eq true waiting_of result }
    {
        self.tree.waiting(rt)
    }

    /// Their sizes, in bytes.
    pub fn waiting_bytes<R: Wait>(&self, rt: &R) -> u64
        ensures { IsTold nat_eq true waiting_bytes_of result }
    {
        self.tree.waiting_bytes(rt)
    }

    /// The number of watched writing calls in the journal, by a share of all parts: its count. One that lacks parts is
    /// refused as SharesLeft, with their number.
    pub fn gather<R: Wait>(&self, rt: &R, share: &mut Share<L>) -> Result<u64, Refusal>
        ensures gathers { Gathers W.watched L.parts share.old result }
        ensures share { share.new ≡ share.old }
    {
        self.tree.hold(rt).gather(share)
    }

    /// A copy of the journal, as one hold of the lock finds it: the entries of all writing calls that took effect so far,
    /// and of the look-ups for which there was a place, in the order of their deciding steps. Refused as Memory.
    pub fn entries<R: Wait>(&self, rt: &R) -> Result<Vec<Entry<u64>>, Refusal>
        ensures { MatchResult result (λ entries. IsJournal entries.items) (λ e. e ≡ cause.Memory) }
    {
        self.tree.hold(rt).entries(self.alloc)
    }

    /// Both in one hold: the number of watched writing calls, by a share of all parts, and a copy of the journal in which
    /// they are. Refused as SharesLeft and as Memory.
    pub fn gather_entries<R: Wait>(
        &self,
        rt: &R,
        share: &mut Share<L>,
    ) -> Result<(u64, Vec<Entry<u64>>), Refusal>
        ensures gathers { GathersJournal W.watched L.parts share.old result }
        ensures share { share.new ≡ share.old }
    {
        self.tree.hold(rt).gather_entries(self.alloc, share)
    }
}

impl<L: Ledger, W: Watch, K: Word64, V: Word64, A: Allocator> Journaled<L, W, K, V, A, NoDrain> {
    /// An index with a root alone, which the allocator is charged for, a journal of so many places, and the share of all
    /// parts of the new ledger. Refused as Limits, also where there is no part, or no place or more than 4,294,967,295;
    /// as Budget or Memory. All is dropped then.
    ///
    /// Its number is `limits.id`; each index wants one of its own (`Limits::with_id`).
    pub fn new(
        alloc: Global,
        limits: Limits,
        allocator: A,
        places: u64,
        parts: u32,
        blank: Blank,
    ) -> Result<(Self, Share<L>), Refusal>
        requires name { blank.name ≡ L.name }
        requires ledger { blank.parts ≡ L.parts }
        requires parts { blank.parts ≡ parts }
        ensures id { IfOk result (λ r. r.0.tree.id ≡ limits.id) }
        ensures account { IfOk result (λ r. IsAccount r.0.tree.account (A.charged_of allocator) (A.limit_of allocator)) }
        ensures share { IfOk result (λ r. r.1 ≡ record { parts = parts; count = 0 }) }
        ensures cause { IfErr result (λ e. IsUnshared limits places parts (A.charged_of allocator) (A.limit_of allocator) e) }
    {
        Journaled::new_with_drainer(alloc, limits, allocator, NoDrain, places, parts, blank)
    }
}

impl<L: Ledger, W: Watch, K: Word64, V: Word64, A: Allocator, D: Drainer<K, V>> Journaled<
    L,
    W,
    K,
    V,
    A,
    D,
> {
    /// Hands each pair to the drainer, ascending by key, and gives allocator, drainer and journal back; the allocator has
    /// the charge with which it came, and its limit, and the journal replays to the pairs that were drained. Refused as WorkersLeft while workers are registered, and the index comes
    /// back; as Foreign too where another charge or limit came in with what its lock keeps, which no run brings about.
    pub fn close<R: Wait>(self, _rt: &R) -> Result<(A, D, Journal<L, W>), (Refusal, Self)>
        requires { D.can_drain self.drainer }
        ensures closed { IfOk result (λ r. ClosesJournal (λ before key value after. D.drains before (K.of_word key) (V.of_word value) after) self.drainer (A.charged_of r.0) (A.limit_of r.0) r.1 r.2.entries.items) }
        ensures given_back { IfOk result (λ r. IsAccount self.tree.account (A.charged_of r.0) (A.limit_of r.0)) }
        ensures cause { IfErr result (λ e. IsUnclosed nat_eq true self.tree.account e.0) }
        ensures back { IfErr result (λ e. (e.1.tree.id ≡ self.tree.id) × (e.1.tree.account ≡ self.tree.account) × (e.1.drainer ≡ self.drainer)) }
    {
        let Journaled {
            tree,
            drainer,
            alloc,
            words: _,
        } = self;
        match tree.close(OfWords::<K, V, D>::new(drainer)) {
            Ok((allocator, drainer, journal)) => Ok((allocator, drainer.into_inner(), journal)),
            Err((refusal, tree, drainer)) => {
                let back = Journaled {
                    tree,
                    drainer: drainer.into_inner(),
                    alloc,
                    words: PhantomData,
                };
                Err((refusal, back))
            }
        }
    }
}
