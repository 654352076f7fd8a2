//! The index for threads whose values are shared.

ghost use Rattle.std.specs.Prelude.{◌≡◌, ◌^◌, false, suc, IfErr, IfOk, Ok};
ghost use Rattle.std.specs.Arc.{arc_value};
ghost use Rattle.std.specs.Option.{option_map};
ghost use Rattle.congee.specs.owned.Nearest.{IsGreatest, IsLeast};
ghost use Rattle.joint.specs.nodes.Opening.{IsUnopened};
ghost use Rattle.joint.specs.threads.Pinned.{CallsPinned, KeepsWorker};
ghost use Rattle.joint.specs.threads.Threads.{Answers, AreKeys, ByHold, Computes, Drops, Finds, Hands, IsAccount, IsHold, IsOfReader, IsRound, IsTold, IsUnclosed, Owns, OwnsPair, Pins, RefusesOwner, Serves, is_held_by, is_of, register_step, registered, charge_of, waiting_bytes_of, waiting_of, befores, computed, contained, counted, emptied, got, if_owned, inserted, listed, owned, owned_pair, pair_words, pairs_counted, removed, told};
ghost use Rattle.joint.specs.declared.steps.Op.TheVariants as op;

use crate::limits::Limits;
use crate::nodes::nearest::Near;
use crate::refusal::Refusal;
use crate::threads::answers::Answer;
use crate::threads::locked::Plain;
use crate::threads::of_words::are_keys;
use crate::threads::tokens::{Guard, Worker};
use crate::threads::tree::Tree;
use congee::{
    ArcPayload, DefaultAllocator, NoDrain, NodeStats, Payload, Word64, owner_of, payload_of,
};
use std::alloc::Global;
use std::marker::{Model, PhantomData};
use std::sync::{Arc, Wait};

/// An ordered map from words to shared values that threads share. An answer is one more owner of the value that stood;
/// where no more can be counted, the call is refused as Count.
#[derive(Drop)]
pub struct CongeeArc<K, V: Drop> {
    tree: Tree<ArcPayload<V>, Plain<ArcPayload<V>, DefaultAllocator>>,
    alloc: Global,
    keys: PhantomData<K>,
}

/// What a closure over owners answers that is asked for a present value alone.
struct IfOwned<F> {
    call: F,
}

impl<F> Model for IfOwned<F> {
    ghost Value = { F };

    ghost view = { λ c. c.call };
}

impl<F> IfOwned<F> {
    fn new(call: F) -> Self
        ensures { result ≡ call }
    {
        IfOwned { call }
    }

    /// Gives the closure back.
    fn into_inner(self) -> F {
        let IfOwned { call } = self;
        call
    }
}

impl<V: Drop, F: FnMut(Arc<V, Global>) -> Option<Arc<V, Global>>> Answer<ArcPayload<V>>
    for IfOwned<F> {
    ghost can_answer = { F.IsAlwaysCallable };

    ghost answers = { λ f found answer f'. if_owned F.step f found answer f' };

    fn answer(&mut self, found: Option<ArcPayload<V>>) -> Option<ArcPayload<V>>
        requires { F.IsAlwaysCallable self.old }
        ensures answers { if_owned F.step self.old found result self.new }
        ensures again { F.IsAlwaysCallable self.new }
    {
        match found {
            Some(value) => payload_of((self.call)(value.into_arc())),
            None => None,
        }
    }
}

/// The owners of an answer.
fn owners<V: Drop>(
    answer: Result<Option<ArcPayload<V>>, Refusal>,
) -> Result<Option<Arc<V, Global>>, Refusal>
    ensures { owned result ≡ answer }
{
    match answer {
        Ok(payload) => Ok(owner_of(payload)),
        Err(refusal) => Err(refusal),
    }
}

/// The value before, of an answer.
fn befores<P: Drop>(answer: Result<Option<(P, Option<P>)>, Refusal>) -> Result<Option<P>, Refusal>
    ensures { result ≡ befores answer }
{
    match answer {
        Ok(Some((before, _))) => Ok(Some(before)),
        Ok(None) => Ok(None),
        Err(refusal) => Err(refusal),
    }
}

/// The pair of an answer, with the owner of its value.
fn owner_pair<K: Word64, V: Drop>(
    answer: Result<Option<(u64, ArcPayload<V>)>, Refusal>,
) -> Result<Option<(K, Arc<V, Global>)>, Refusal>
    ensures { owned_pair result ≡ pair_words K.of_word (λ v. v) answer }
{
    match answer {
        Ok(Some((key, payload))) => Ok(Some((K::from_word(key), payload.into_arc()))),
        Ok(None) => Ok(None),
        Err(refusal) => Err(refusal),
    }
}

impl<K: Word64, V: Drop> CongeeArc<K, V> {
    /// An index with a root alone. Refused as Limits or Memory.
    ///
    /// Its number is `limits.id`; each index wants one of its own (`Limits::with_id`).
    pub fn new(alloc: Global, limits: Limits) -> Result<Self, Refusal>
        ensures id { IfOk result (λ t. t.tree.id ≡ limits.id) }
        ensures account { IfOk result (λ t. IsAccount t.tree.account 0 u64.MAX) }
        ensures cause { IfErr result (λ e. IsUnopened limits 0 u64.MAX e) }
    {
        let tree = Tree::new(alloc, limits, DefaultAllocator::new())?;
        Ok(CongeeArc {
            tree,
            alloc,
            keys: PhantomData,
        })
    }

    /// A worker at the lowest free place of the table. Refused as TableFull.
    pub fn register<R: Wait>(&self, rt: &R) -> Result<Worker, Refusal>
        ensures { (r : _) × IsHold {V = V} (λ _ _. false) false register_step r × (result ≡ registered self.now.tree.id r.outcome) }
    {
        self.tree.register(rt)
    }

    /// The worker leaves its place; what it removed waits on. Refused as GuardOut while it is pinned, as Memory where
    /// its removals can't be queued, and as Foreign; it comes back.
    pub fn release<R: Wait>(&self, rt: &R, worker: Worker) -> Result<(), (Refusal, Worker)>
        ensures { Hands (is_of self.now.tree.id worker) (Answers {V = V} (ByHold (λ _ _. false) false) worker.number op.Release told) worker result }
    {
        self.tree.release(rt, worker)
    }

    /// A guard. Refused as Count where 65,535 guards of the worker are out.
    pub fn pin<R: Wait>(&self, rt: &R, worker: &mut Worker) -> Result<Guard, Refusal>
        ensures worker { worker.new ≡ worker.old }
        ensures answers { Serves (is_of self.now.tree.id worker.old) (Pins {V = V} (ByHold (λ _ _. false) false) self.now.tree.id worker.old.number) result }
        ensures refused { IfErr result IsOfReader }
    {
        self.tree.pin(rt, worker)
    }

    /// Spends a guard; with its last one a worker isn't pinned any more. The guard comes back with a refusal.
    pub fn unpin<R: Wait>(
        &self,
        rt: &R,
        worker: &mut Worker,
        guard: Guard,
    ) -> Result<(), (Refusal, Guard)>
        ensures worker { worker.new ≡ worker.old }
        ensures answers { Hands (is_held_by self.now.tree.id worker.old guard) (Answers {V = V} (ByHold (λ _ _. false) false) worker.old.number op.Unpin told) guard result }
    {
        self.tree.unpin(rt, worker, guard)
    }

    /// Pins the worker, calls `f` with worker and guard, and spends the guard, whatever `f` answered: so `?` may leave `f`.
    /// Answers what `f` did. A refused pin is the answer, and `f` isn't called then. A refused unpin is the answer too: it
    /// comes where `f` left another worker in this one's place, as Foreign; the worker stays pinned then.
    pub fn pinned<O: Drop, R: Wait, F: FnOnce(&mut Worker, &Guard) -> Result<O, Refusal>>(
        &self,
        rt: &R,
        worker: &mut Worker,
        f: F,
    ) -> Result<O, Refusal>
    where
        F: Drop,
        requires { F.IsAlwaysCallable f }
        ensures answers { CallsPinned {V = V} (ByHold (λ _ _. false) false) self.now.tree.id F.FnOnce f worker.old worker.new result }
        ensures worker { KeepsWorker F.FnOnce f → worker.new ≡ worker.old }
    {
        self.tree.pinned(rt, worker, f)
    }

    /// Seals the worker's removals, and destroys what no guard protects any more. Refused as Memory where they can't be
    /// queued; then nothing was done.
    pub fn flush<R: Wait>(&self, rt: &R, worker: &mut Worker, guard: &Guard) -> Result<(), Refusal>
        ensures worker { worker.new ≡ worker.old }
        ensures answers { Serves (is_held_by self.now.tree.id worker.old guard.now) (Answers {V = V} (ByHold (λ _ _. false) false) worker.old.number op.Flush told) result }
    {
        self.tree.flush(rt, worker, guard)
    }

    /// Pins the worker anew at the present epoch, where this is its only guard.
    pub fn repin<R: Wait>(&self, rt: &R, worker: &mut Worker, guard: &Guard) -> Result<(), Refusal>
        ensures worker { worker.new ≡ worker.old }
        ensures answers { Serves (is_held_by self.now.tree.id worker.old guard.now) (Answers {V = V} (ByHold (λ _ _. false) false) worker.old.number op.Repin told) result }
    {
        self.tree.repin(rt, worker, guard)
    }

    /// Pin, flush, unpin. Answers the first refusal; after a refused flush it unpins too.
    pub fn round<R: Wait>(&self, rt: &R, worker: &mut Worker) -> Result<(), Refusal>
        ensures worker { worker.new ≡ worker.old }
        ensures answers { Serves (is_of self.now.tree.id worker.old) (IsRound {V = V} (ByHold (λ _ _. false) false) worker.old.number) result }
    {
        self.tree.round(rt, worker)
    }

    /// One more owner of the value at a key.
    pub fn get<R: Wait>(
        &self,
        rt: &R,
        key: K,
        worker: &mut Worker,
        guard: &Guard,
    ) -> Result<Option<Arc<V, Global>>, Refusal>
        ensures worker { worker.new ≡ worker.old }
        ensures answers { Owns (Serves (is_held_by self.now.tree.id worker.old guard.now)
            (Answers {V = V} (ByHold (λ _ _. false) false) worker.old.number (op.Get (K.word key)) got)) (λ read. read) result }
        ensures refused { IfErr result IsOfReader }
    {
        owners(self.tree.get(rt, key.to_word(), worker, guard))
    }

    /// Puts a value at a key, and gives the one before. The value comes back with a refusal.
    pub fn insert<R: Wait>(
        &self,
        rt: &R,
        key: K,
        value: Arc<V, Global>,
        worker: &mut Worker,
        guard: &Guard,
    ) -> Result<Option<Arc<V, Global>>, (Refusal, Arc<V, Global>)>
        ensures worker { worker.new ≡ worker.old }
        ensures inserted { IfOk result (λ before. Serves (is_held_by self.now.tree.id worker.old guard.now)
            (Answers {V = V} (ByHold (λ _ _. false) false) worker.old.number (op.Insert (K.word key) (arc_value value)) inserted) (Ok (option_map arc_value before))) }
        ensures refused { IfErr result (λ e. RefusesOwner (is_held_by self.now.tree.id worker.old guard.now)
            (Answers {V = V} (ByHold (λ _ _. false) false) worker.old.number (op.Insert (K.word key) (arc_value value)) inserted) e.0) }
        ensures back { IfErr result (λ e. arc_value e.1 ≡ arc_value value) }
    {
        if !self.tree.serves(worker, guard) {
            return Err((Refusal::Foreign, value));
        }
        let value = ArcPayload::new(value);
        let Some(kept) = value.copy() else {
            return Err((Refusal::Count, value.into_arc()));
        };
        match self.tree.insert(rt, key.to_word(), value, worker, guard) {
            Ok(before) => Ok(owner_of(before)),
            Err(refusal) => Err((refusal, kept.into_arc())),
        }
    }

    /// Takes a key's value out.
    pub fn remove<R: Wait>(
        &self,
        rt: &R,
        key: K,
        worker: &mut Worker,
        guard: &Guard,
    ) -> Result<Option<Arc<V, Global>>, Refusal>
        ensures worker { worker.new ≡ worker.old }
        ensures answers { Owns (Serves (is_held_by self.now.tree.id worker.old guard.now)
            (Answers {V = V} (ByHold (λ _ _. false) false) worker.old.number (op.Remove (K.word key)) removed)) (λ read. read) result }
    {
        owners(self.tree.remove(rt, key.to_word(), worker, guard))
    }

    /// Puts the answer of `f` at a key that is present, or takes the key out where the answer is `None`. Gives the value
    /// before. `f` runs between two holds of the lock, and is asked again where the call begins anew.
    pub fn compute_if_present<F: FnMut(Arc<V, Global>) -> Option<Arc<V, Global>>, R: Wait>(
        &self,
        rt: &R,
        key: K,
        f: F,
        worker: &mut Worker,
        guard: &Guard,
    ) -> Result<Option<Arc<V, Global>>, Refusal>
        requires { F.IsAlwaysCallable f }
        ensures worker { worker.new ≡ worker.old }
        ensures answers { Owns (Serves (is_held_by self.now.tree.id worker.old guard.now)
            (Computes {V = V} (ByHold (λ _ _. false) false) (if_owned F.step) worker.old.number (op.ComputePresent (K.word key)) f computed)) befores result }
    {
        let mut answers = IfOwned::new(f);
        let answer = self
            .tree
            .compute_if_present(rt, key.to_word(), &mut answers, worker, guard);
        let _ = answers.into_inner();
        owners(befores(answer))
    }

    /// Whether a key has a value.
    pub fn contains_key<R: Wait>(
        &self,
        rt: &R,
        key: K,
        worker: &mut Worker,
        guard: &Guard,
    ) -> Result<bool, Refusal>
        ensures worker { worker.new ≡ worker.old }
        ensures answers { Serves (is_held_by self.now.tree.id worker.old guard.now) (Answers {V = V} (ByHold (λ _ _. false) false) worker.old.number (op.Get (K.word key)) contained) result }
        ensures refused { IfErr result IsOfReader }
    {
        self.tree.contains_key(rt, key.to_word(), worker, guard)
    }

    /// Whether no key has a value, at its one step.
    pub fn is_empty<R: Wait>(
        &self,
        rt: &R,
        worker: &mut Worker,
        guard: &Guard,
    ) -> Result<bool, Refusal>
        ensures worker { worker.new ≡ worker.old }
        ensures answers { Serves (is_held_by self.now.tree.id worker.old guard.now) (Answers {V = V} (ByHold (λ _ _. false) false) worker.old.number op.IsEmpty emptied) result }
        ensures refused { IfErr result IsOfReader }
    {
        self.tree.is_empty(rt, worker, guard)
    }

    /// The pair of the least key, if there is one, of those that stand in one hold of the lock.
    pub fn first<R: Wait>(
        &self,
        rt: &R,
        worker: &mut Worker,
        guard: &Guard,
    ) -> Result<Option<(K, Arc<V, Global>)>, Refusal>
        ensures worker { worker.new ≡ worker.old }
        ensures answers { OwnsPair (Serves (is_held_by self.now.tree.id worker.old guard.now)
            (Finds {V = V} (λ _ _. false) false worker.old.number (λ m pair. IsLeast m 0 pair))) K.of_word result }
        ensures refused { IfErr result IsOfReader }
    {
        owner_pair(self.tree.nearest(rt, Near::From(0), worker, guard))
    }

    /// The pair of the greatest key, so.
    pub fn last<R: Wait>(
        &self,
        rt: &R,
        worker: &mut Worker,
        guard: &Guard,
    ) -> Result<Option<(K, Arc<V, Global>)>, Refusal>
        ensures worker { worker.new ≡ worker.old }
        ensures answers { OwnsPair (Serves (is_held_by self.now.tree.id worker.old guard.now)
            (Finds {V = V} (λ _ _. false) false worker.old.number (λ m pair. IsGreatest m (2 ^ 64) pair))) K.of_word result }
        ensures refused { IfErr result IsOfReader }
    {
        owner_pair(self.tree.nearest(rt, Near::UpTo(u64::MAX), worker, guard))
    }

    /// The pair of the least key above this one, so.
    pub fn next_after<R: Wait>(
        &self,
        rt: &R,
        key: K,
        worker: &mut Worker,
        guard: &Guard,
    ) -> Result<Option<(K, Arc<V, Global>)>, Refusal>
        ensures worker { worker.new ≡ worker.old }
        ensures answers { OwnsPair (Serves (is_held_by self.now.tree.id worker.old guard.now)
            (Finds {V = V} (λ _ _. false) false worker.old.number (λ m pair. IsLeast m (suc (K.word key)) pair))) K.of_word result }
        ensures refused { IfErr result IsOfReader }
    {
        owner_pair(
            self.tree
                .nearest(rt, Near::After(key.to_word()), worker, guard),
        )
    }

    /// The pair of the greatest key below this one, so.
    pub fn next_before<R: Wait>(
        &self,
        rt: &R,
        key: K,
        worker: &mut Worker,
        guard: &Guard,
    ) -> Result<Option<(K, Arc<V, Global>)>, Refusal>
        ensures worker { worker.new ≡ worker.old }
        ensures answers { OwnsPair (Serves (is_held_by self.now.tree.id worker.old guard.now)
            (Finds {V = V} (λ _ _. false) false worker.old.number (λ m pair. IsGreatest m (K.word key) pair))) K.of_word result }
        ensures refused { IfErr result IsOfReader }
    {
        owner_pair(
            self.tree
                .nearest(rt, Near::Before(key.to_word()), worker, guard),
        )
    }

    /// The pair of the least key that isn't less than this one, so: its own, where it is present.
    pub fn at_or_after<R: Wait>(
        &self,
        rt: &R,
        key: K,
        worker: &mut Worker,
        guard: &Guard,
    ) -> Result<Option<(K, Arc<V, Global>)>, Refusal>
        ensures worker { worker.new ≡ worker.old }
        ensures answers { OwnsPair (Serves (is_held_by self.now.tree.id worker.old guard.now)
            (Finds {V = V} (λ _ _. false) false worker.old.number (λ m pair. IsLeast m (K.word key) pair))) K.of_word result }
        ensures refused { IfErr result IsOfReader }
    {
        owner_pair(
            self.tree
                .nearest(rt, Near::From(key.to_word()), worker, guard),
        )
    }

    /// The pair of the greatest key that isn't greater than this one, so: its own, where it is present.
    pub fn at_or_before<R: Wait>(
        &self,
        rt: &R,
        key: K,
        worker: &mut Worker,
        guard: &Guard,
    ) -> Result<Option<(K, Arc<V, Global>)>, Refusal>
        ensures worker { worker.new ≡ worker.old }
        ensures answers { OwnsPair (Serves (is_held_by self.now.tree.id worker.old guard.now)
            (Finds {V = V} (λ _ _. false) false worker.old.number (λ m pair. IsGreatest m (suc (K.word key)) pair))) K.of_word result }
        ensures refused { IfErr result IsOfReader }
    {
        owner_pair(
            self.tree
                .nearest(rt, Near::UpTo(key.to_word()), worker, guard),
        )
    }

    /// All keys, ascending, at its one step. It wants no guard. Refused as Memory.
    pub fn keys<R: Wait>(&self, rt: &R, worker: &mut Worker) -> Result<Vec<K>, Refusal>
        ensures worker { worker.new ≡ worker.old }
        ensures answers { (answer : _) × Serves (is_of self.now.tree.id worker.old) (Answers {V = V} (ByHold (λ _ _. false) false) worker.old.number op.Keys listed) answer × AreKeys K.of_word answer result }
    {
        are_keys(self.alloc, self.tree.keys(rt, worker))
    }

    /// How the nodes are spread over levels and forms, and how many pairs there are, at its one step. It wants no guard.
    /// Refused as Memory.
    pub fn stats<R: Wait>(&self, rt: &R, worker: &mut Worker) -> Result<NodeStats, Refusal>
        ensures worker { worker.new ≡ worker.old }
        ensures answers { Serves (is_of self.now.tree.id worker.old) (Answers {V = V} (ByHold (λ _ _. false) false) worker.old.number op.Stats counted) result }
    {
        self.tree.stats(rt, worker)
    }

    /// How many pairs there are, at its one step; more than `u64::MAX` are told as that. It wants no guard. Refused as Memory.
    pub fn len<R: Wait>(&self, rt: &R, worker: &mut Worker) -> Result<u64, Refusal>
        ensures worker { worker.new ≡ worker.old }
        ensures answers { Serves (is_of self.now.tree.id worker.old) (Answers {V = V} (ByHold (λ _ _. false) false) worker.old.number op.Stats pairs_counted) result }
    {
        self.tree.len(rt, worker)
    }

    /// The bytes charged to the allocator.
    pub fn charged<R: Wait>(&self, rt: &R) -> u64
        ensures { IsTold {V = V} (λ _ _. false) false (charge_of self.now.tree.account) result }
    {
        self.tree.charged(rt)
    }

    /// The nodes that wait for their destruction.
    pub fn waiting<R: Wait>(&self, rt: &R) -> u64
        ensures { IsTold {V = V} (λ _ _. false) false waiting_of result }
    {
        self.tree.waiting(rt)
    }

    /// Their sizes, in bytes.
    pub fn waiting_bytes<R: Wait>(&self, rt: &R) -> u64
        ensures { IsTold {V = V} (λ _ _. false) false waiting_bytes_of result }
    {
        self.tree.waiting_bytes(rt)
    }

    /// Drops each value that stands. Refused as WorkersLeft while workers are registered, and the index comes back; as
    /// Foreign too where another account came in with what its lock keeps, which no run brings about.
    pub fn close<R: Wait>(self, _rt: &R) -> Result<(), (Refusal, Self)>
        ensures closed { IfOk result (λ _. Drops {V = V} (λ _ _. false) false self.tree.account.charged self.tree.account.limit) }
        ensures cause { IfErr result (λ e. IsUnclosed {V = V} (λ _ _. false) false self.tree.account e.0) }
        ensures back { IfErr result (λ e. (e.1.tree.id ≡ self.tree.id) × (e.1.tree.account ≡ self.tree.account)) }
    {
        let CongeeArc { tree, alloc, keys } = self;
        match tree.close(NoDrain) {
            Ok(_) => Ok(()),
            Err((refusal, tree, _)) => Err((refusal, CongeeArc { tree, alloc, keys })),
        }
    }
}
