//! One index under one lock, which each step of a call takes anew.

ghost use Rattle.std.specs.Prelude.{◌≡◌, ◌≤◌, [], false, length, map, take, IfOk, IfErr};
ghost use Rattle.joint.specs.threads.Driving.{IsToldInCall, ended};
ghost use Rattle.joint.specs.nodes.Nearest.{IsNearest};
ghost use Rattle.joint.specs.nodes.Opening.{IsUnopened};
ghost use Rattle.joint.specs.threads.Pinned.{CallsPinned, KeepsWorker};
ghost use Rattle.joint.specs.threads.Threads.{Answers, Ascend, ClosesWith, Finds, Hands, IsAccount, IsByHolds, IsHold, IsOfReader, IsRound, IsTold, IsUnclosed, Pins, Scans, Serves, is_held_by, is_of, register_step, registered, charge_of, waiting_bytes_of, waiting_of, bounds, contained, counted, emptied, got, listed, pairs_counted, scanned, told};
ghost use Rattle.joint.specs.engine.Engine.{IsOfCall};
ghost use Rattle.joint.specs.declared.steps.Op.TheVariants as op;

mod writes;

use crate::limits::Limits;
use crate::nodes::account::Account;
use crate::nodes::nearest::Near;
use crate::refusal::Refusal;
use crate::steps::{Op, Outcome, Report, Step};
use crate::threads::answers::{Answer, Silent};
use crate::threads::driver::{Pair, drive_to};
use crate::threads::locked::{Locked, Plain, Words};
use crate::threads::replies::{
    End, bounds, contained, counted, emptied, got, listed, of_reader, pairs_counted, scanned, told,
};
use crate::threads::rounds::{Ends, round};
use crate::threads::tokens::{Guard, Worker};
use crate::threads::turns::Holds;
use crate::world::World;
use congee::{Allocator, Drainer, NodeStats, Payload, Small};
use crossbeam_utils::CachePadded;
use std::alloc::Global;
use std::marker::PhantomData;
use std::sync::{Mutex, MutexGuard, Wait};
use std::thread;

/// How often a thread looks for the lock before it sleeps: most holds are over before it would have slept and woken.
const TRIES: u32 = 64;

/// An index under its lock.
#[derive(Drop)]
pub(crate) struct Tree<P: Payload + Small, T: Locked<P>> {
    /// Tells it from others.
    pub(crate) id: u64,
    /// What came in with the allocator, which `close` gives back so.
    pub(crate) account: Account,
    locked: CachePadded<Mutex<T>>,
    values: PhantomData<P>,
}

/// The whole calls of one worker's, one after another.
#[derive(Drop)]
struct WorkerCalls<'t, P: Payload + Small, T: Locked<P>, R: Wait> {
    rt: &'t R,
    tree: &'t Tree<P, T>,
    worker: &'t Worker,
}

impl<P: Payload + Small, T: Locked<P>, R: Wait> Ends<P> for WorkerCalls<'_, P, T, R> {
    ghost ends = { λ k op result k'. Answers T.holds k.worker.now.number op told result × (k'.worker.now.number ≡ k.worker.now.number) };

    fn end(&mut self, op: Op<P>) -> Result<(), Refusal>
        ensures { Answers T.holds self.old.worker.now.number op told result × (self.new.worker.now.number ≡ self.old.worker.now.number) }
    {
        self.tree.end(self.rt, self.worker, op)
    }
}

impl<P: Payload + Small, T: Locked<P>> Tree<P, T> {
    /// What is to be locked, under this name.
    pub(crate) fn of(id: u64, account: Account, kept: T) -> Self
        ensures id { result.id ≡ id }
        ensures account { result.account ≡ account }
    {
        Tree {
            id,
            account,
            locked: CachePadded::new(Mutex::new(kept)),
            values: PhantomData,
        }
    }

    /// Takes the lock. A hold is shorter than a thread takes to sleep and wake, so others are let run at first.
    pub(crate) fn hold<R: Wait>(&self, rt: &R) -> MutexGuard<'_, T> {
        for _ in 0..TRIES {
            if let Some(kept) = self.locked.try_lock() {
                return kept;
            }
            thread::yield_now();
        }
        self.locked.lock(rt)
    }

    /// Whether the worker is of this index.
    pub(crate) fn owns(&self, worker: &Worker) -> bool
        ensures { result ≡ is_of self.now.id worker.now }
    {
        worker.tree == self.id
    }

    /// Whether worker and guard are of this index, and the guard is the worker's.
    pub(crate) fn serves(&self, worker: &Worker, guard: &Guard) -> bool
        ensures { result ≡ is_held_by self.now.id worker.now guard.now }
    {
        worker.tree == self.id && guard.tree == self.id && guard.worker == worker.number
    }

    /// A turn of a worker's call: one hold of the lock.
    pub(crate) fn turn<R: Wait>(&self, rt: &R, call: &T::Memo, step: Step<P>) -> Report<P>
        requires { IsOfCall step.event }
        ensures holds { T.holds step.worker (T.asked call.now) step result }
        ensures told { IsToldInCall result.outcome }
    {
        self.hold(rt).turn(call, step)
    }

    /// A whole call of a worker's, each turn of which is a hold of the lock.
    fn drive<Q: Pair<P>, C: Answer<P>, R: Wait>(
        &self,
        rt: &R,
        worker: &Worker,
        op: Op<P>,
        answers: &mut C,
        found: &mut [Q],
    ) -> End<P>
        requires { C.can_answer answers.old }
        ensures { IsByHolds T.holds C.answers Q.pair worker.now.number op answers.old found.old found.new (ended result) }
    {
        let mut turns = Holds::new(rt, self, worker.number, &op);
        drive_to(rt, &mut turns, worker.number, op, answers, found)
    }

    /// One that asks for nothing, and writes the pairs that it finds to their places.
    fn scan<Q: Pair<P>, R: Wait>(
        &self,
        rt: &R,
        worker: &Worker,
        op: Op<P>,
        found: &mut [Q],
    ) -> End<P>
        ensures { Scans T.holds Q.pair worker.now.number op found.old found.new (λ end. end) result }
    {
        self.drive(rt, worker, op, &mut Silent, found)
    }

    /// One that asks for nothing and finds no pairs.
    fn call<R: Wait>(&self, rt: &R, worker: &Worker, op: Op<P>) -> End<P>
        ensures { Answers T.holds worker.now.number op (λ end. end) result }
    {
        let mut nothing: [(u64, P); 0] = [];
        self.scan(rt, worker, op, &mut nothing)
    }

    /// One that tells nothing but that it has ended.
    fn end<R: Wait>(&self, rt: &R, worker: &Worker, op: Op<P>) -> Result<(), Refusal>
        ensures { Answers T.holds worker.now.number op told result }
    {
        told(self.call(rt, worker, op))
    }

    /// A registration: one hold of the lock.
    fn enter<R: Wait>(&self, rt: &R) -> Report<P>
        ensures { IsHold P.same_as P.always_copies register_step result }
    {
        self.hold(rt).register()
    }

    /// A worker at the lowest free place of the table. Refused as TableFull.
    pub(crate) fn register<R: Wait>(&self, rt: &R) -> Result<Worker, Refusal>
        ensures { (r : _) × IsHold P.same_as P.always_copies register_step r × (result ≡ registered self.now.id r.outcome) }
    {
        match self.enter(rt).outcome {
            Outcome::Registered(number) => Ok(Worker {
                tree: self.id,
                number,
            }),
            Outcome::Refused(refusal) => Err(refusal),
            other => {
                drop(other);
                Err(Refusal::Idle)
            }
        }
    }

    /// The worker leaves its place; it comes back with a refusal.
    pub(crate) fn release<R: Wait>(&self, rt: &R, worker: Worker) -> Result<(), (Refusal, Worker)>
        ensures { Hands (is_of self.now.id worker) (Answers T.holds worker.number op.Release told) worker result }
    {
        if !self.owns(&worker) {
            return Err((Refusal::Foreign, worker));
        }
        match self.end(rt, &worker, Op::Release) {
            Ok(()) => Ok(()),
            Err(refusal) => Err((refusal, worker)),
        }
    }

    /// A guard of the worker, whose first guard pins it.
    pub(crate) fn pin<R: Wait>(&self, rt: &R, worker: &Worker) -> Result<Guard, Refusal>
        ensures answers { Serves (is_of self.now.id worker.now) (Pins T.holds self.now.id worker.now.number) result }
        ensures refused { IfErr result IsOfReader }
    {
        if !self.owns(worker) {
            return Err(Refusal::Foreign);
        }
        match self.end(rt, worker, Op::Pin) {
            Ok(()) => Ok(Guard {
                tree: self.id,
                worker: worker.number,
            }),
            Err(refusal) => Err(of_reader(refusal)),
        }
    }

    /// Spends a guard; it comes back with a refusal.
    pub(crate) fn unpin<R: Wait>(
        &self,
        rt: &R,
        worker: &Worker,
        guard: Guard,
    ) -> Result<(), (Refusal, Guard)>
        ensures { Hands (is_held_by self.now.id worker.now guard) (Answers T.holds worker.now.number op.Unpin told) guard result }
    {
        if !self.serves(worker, &guard) {
            return Err((Refusal::Foreign, guard));
        }
        match self.end(rt, worker, Op::Unpin) {
            Ok(()) => {
                guard.forget();
                Ok(())
            }
            Err(refusal) => Err((refusal, guard)),
        }
    }

    /// Pins, calls `f` with worker and guard, and unpins, whatever `f` answered.
    pub(crate) fn pinned<O: Drop, R: Wait, F: FnOnce(&mut Worker, &Guard) -> Result<O, Refusal>>(
        &self,
        rt: &R,
        worker: &mut Worker,
        f: F,
    ) -> Result<O, Refusal>
    where
        F: Drop,
        requires { F.IsAlwaysCallable f }
        ensures answers { CallsPinned T.holds self.now.id F.FnOnce f worker.old worker.new result }
        ensures worker { KeepsWorker F.FnOnce f → worker.new ≡ worker.old }
    {
        let guard = self.pin(rt, worker)?;
        let answer = f(worker, &guard);
        match self.unpin(rt, worker, guard) {
            Ok(()) => answer,
            Err((refusal, guard)) => {
                guard.forget();
                Err(refusal)
            }
        }
    }

    /// Seals the worker's bag, and collects.
    pub(crate) fn flush<R: Wait>(
        &self,
        rt: &R,
        worker: &Worker,
        guard: &Guard,
    ) -> Result<(), Refusal>
        ensures { Serves (is_held_by self.now.id worker.now guard.now) (Answers T.holds worker.now.number op.Flush told) result }
    {
        if !self.serves(worker, guard) {
            return Err(Refusal::Foreign);
        }
        self.end(rt, worker, Op::Flush)
    }

    /// Pins the worker's only guard anew.
    pub(crate) fn repin<R: Wait>(
        &self,
        rt: &R,
        worker: &Worker,
        guard: &Guard,
    ) -> Result<(), Refusal>
        ensures { Serves (is_held_by self.now.id worker.now guard.now) (Answers T.holds worker.now.number op.Repin told) result }
    {
        if !self.serves(worker, guard) {
            return Err(Refusal::Foreign);
        }
        self.end(rt, worker, Op::Repin)
    }

    /// Pin, flush, unpin. After a refused flush it unpins too.
    pub(crate) fn round<R: Wait>(&self, rt: &R, worker: &Worker) -> Result<(), Refusal>
        ensures { Serves (is_of self.now.id worker.now) (IsRound T.holds worker.now.number) result }
    {
        if !self.owns(worker) {
            return Err(Refusal::Foreign);
        }
        self.go_round(rt, worker)
    }

    /// The same of its own worker.
    fn go_round<R: Wait>(&self, rt: &R, worker: &Worker) -> Result<(), Refusal>
        ensures { IsRound T.holds worker.now.number result }
    {
        let mut calls = WorkerCalls {
            rt,
            tree: self,
            worker,
        };
        round(&mut calls)
    }

    /// The value at a key.
    pub(crate) fn get<R: Wait>(
        &self,
        rt: &R,
        key: u64,
        worker: &Worker,
        guard: &Guard,
    ) -> Result<Option<P>, Refusal>
        ensures answers { Serves (is_held_by self.now.id worker.now guard.now) (Answers T.holds worker.now.number (op.Get key) got) result }
        ensures refused { IfErr result IsOfReader }
    {
        if !self.serves(worker, guard) {
            return Err(Refusal::Foreign);
        }
        got(self.call(rt, worker, Op::Get(key)))
    }

    /// Whether a key has a value.
    pub(crate) fn contains_key<R: Wait>(
        &self,
        rt: &R,
        key: u64,
        worker: &Worker,
        guard: &Guard,
    ) -> Result<bool, Refusal>
        ensures answers { Serves (is_held_by self.now.id worker.now guard.now) (Answers T.holds worker.now.number (op.Get key) contained) result }
        ensures refused { IfErr result IsOfReader }
    {
        if !self.serves(worker, guard) {
            return Err(Refusal::Foreign);
        }
        contained(self.call(rt, worker, Op::Get(key)))
    }

    /// Writes the pairs that a scan finds to the places, and gives their number.
    pub(crate) fn find<Q: Pair<P>, R: Wait>(
        &self,
        rt: &R,
        op: Op<P>,
        found: &mut [Q],
        worker: &Worker,
        guard: &Guard,
    ) -> Result<usize, Refusal>
        ensures answers { Serves (is_held_by self.now.id worker.now guard.now)
            (Scans T.holds Q.pair worker.now.number op found.old found.new (scanned (bounds op) (map Q.key_of found.new))) result }
        ensures few { IfOk result (λ n. n ≤ length found.old) }
        ensures ascend { IfOk result (λ n. Ascend (bounds op).0 (bounds op).1 (map Q.key_of (take n found.new))) }
        ensures refused { IfErr result IsOfReader }
        ensures foreign { is_held_by self.now.id worker.now guard.now ≡ false → found.new ≡ found.old }
    {
        if !self.serves(worker, guard) {
            return Err(Refusal::Foreign);
        }
        let range = bounds(&op);
        let told = self.scan(rt, worker, op, found);
        scanned(range, found, told)
    }

    /// Whether no key has a value, at its one step.
    pub(crate) fn is_empty<R: Wait>(
        &self,
        rt: &R,
        worker: &Worker,
        guard: &Guard,
    ) -> Result<bool, Refusal>
        ensures answers { Serves (is_held_by self.now.id worker.now guard.now) (Answers T.holds worker.now.number op.IsEmpty emptied) result }
        ensures refused { IfErr result IsOfReader }
    {
        if !self.serves(worker, guard) {
            return Err(Refusal::Foreign);
        }
        emptied(self.call(rt, worker, Op::IsEmpty))
    }

    /// The nearest pair, of those that stand in one hold of the lock.
    pub(crate) fn nearest<R: Wait>(
        &self,
        rt: &R,
        near: Near,
        worker: &Worker,
        guard: &Guard,
    ) -> Result<Option<(u64, P)>, Refusal>
        ensures answers { Serves (is_held_by self.now.id worker.now guard.now) (Finds P.same_as P.always_copies worker.now.number (λ m pair. IsNearest m near pair)) result }
        ensures refused { IfErr result IsOfReader }
    {
        if !self.serves(worker, guard) {
            return Err(Refusal::Foreign);
        }
        let kept = self.hold(rt);
        let machine = kept.world();
        machine.sound();
        machine.nearest(worker.number, near)
    }

    /// All keys, ascending, at its one step.
    pub(crate) fn keys<R: Wait>(&self, rt: &R, worker: &Worker) -> Result<Vec<u64>, Refusal>
        ensures { Serves (is_of self.now.id worker.now) (Answers T.holds worker.now.number op.Keys listed) result }
    {
        if !self.owns(worker) {
            return Err(Refusal::Foreign);
        }
        listed(self.call(rt, worker, Op::Keys))
    }

    /// How the nodes are spread over levels and forms, and how many pairs there are, at its one step.
    pub(crate) fn stats<R: Wait>(&self, rt: &R, worker: &Worker) -> Result<NodeStats, Refusal>
        ensures { Serves (is_of self.now.id worker.now) (Answers T.holds worker.now.number op.Stats counted) result }
    {
        if !self.owns(worker) {
            return Err(Refusal::Foreign);
        }
        counted(self.call(rt, worker, Op::Stats))
    }

    /// How many pairs there are, at its one step.
    pub(crate) fn len<R: Wait>(&self, rt: &R, worker: &Worker) -> Result<u64, Refusal>
        ensures { Serves (is_of self.now.id worker.now) (Answers T.holds worker.now.number op.Stats pairs_counted) result }
    {
        if !self.owns(worker) {
            return Err(Refusal::Foreign);
        }
        pairs_counted(self.call(rt, worker, Op::Stats))
    }

    /// The bytes charged to the allocator.
    pub(crate) fn charged<R: Wait>(&self, rt: &R) -> u64
        ensures { IsTold P.same_as P.always_copies (charge_of self.now.account) result }
    {
        let kept = self.hold(rt);
        let machine = kept.world();
        machine.sound();
        let sizes = machine.charged().saturating_sub(machine.account().charged);
        self.account.charged.saturating_add(sizes)
    }

    /// The nodes that wait for their destruction.
    pub(crate) fn waiting<R: Wait>(&self, rt: &R) -> u64
        ensures { IsTold P.same_as P.always_copies waiting_of result }
    {
        let kept = self.hold(rt);
        let machine = kept.world();
        machine.sound();
        machine.waiting()
    }

    /// Their sizes, in bytes.
    pub(crate) fn waiting_bytes<R: Wait>(&self, rt: &R) -> u64
        ensures { IsTold P.same_as P.always_copies waiting_bytes_of result }
    {
        let kept = self.hold(rt);
        let machine = kept.world();
        machine.sound();
        machine.waiting_bytes()
    }

    /// Hands each pair to the drainer, ascending by key, and gives both back; the allocator has the charge with which it
    /// came. Refused as WorkersLeft while workers are registered, or as Foreign where another account than this one's came
    /// in with what was locked, which no run brings about; the index and the drainer come back.
    pub(crate) fn close<D: Drainer<u64, P>>(
        self,
        drainer: D,
    ) -> Result<(T::Account, D, T::Kept), (Refusal, Self, D)>
        requires { D.can_drain drainer }
        ensures closed { IfOk result (λ r. ClosesWith P.same_as P.always_copies D.drains T.keeps drainer (T.Account.charged_of r.0) (T.Account.limit_of r.0) r.1 r.2) }
        ensures given_back { IfOk result (λ r. IsAccount self.account (T.Account.charged_of r.0) (T.Account.limit_of r.0)) }
        ensures cause { IfErr result (λ e. IsUnclosed P.same_as P.always_copies self.account e.0) }
        ensures back { IfErr result (λ e. (e.1.id ≡ self.id) × (e.1.account ≡ self.account) × (e.2 ≡ drainer)) }
    {
        let Tree {
            id,
            account,
            locked,
            values: _,
        } = self;
        let kept = locked.into_inner().into_inner();
        let machine = kept.world();
        machine.sound();
        if !machine.account().is_same(account) {
            return Err((Refusal::Foreign, Tree::of(id, account, kept), drainer));
        }
        match kept.close(drainer) {
            Ok(closed) => Ok(closed),
            Err((refusal, kept, drainer)) => Err((refusal, Tree::of(id, account, kept), drainer)),
        }
    }
}

impl<P: Payload + Small, A: Allocator> Tree<P, Plain<P, A>> {
    /// An index with a root alone, named by its limits. Refused as Limits, Budget or Memory.
    pub(crate) fn new(alloc: Global, limits: Limits, allocator: A) -> Result<Self, Refusal>
        ensures id { IfOk result (λ t. t.id ≡ limits.id) }
        ensures account { IfOk result (λ t. IsAccount t.account (A.charged_of allocator) (A.limit_of allocator)) }
        ensures cause { IfErr result (λ e. IsUnopened limits (A.charged_of allocator) (A.limit_of allocator) e) }
    {
        let account = Account::of(&allocator);
        let world = World::new(alloc, limits, allocator)?;
        Ok(Tree::of(limits.id, account, Plain::new(world)))
    }
}

impl<A: Allocator> Tree<u64, Words<A>> {
    /// The same of an index of words.
    pub(crate) fn of_words(alloc: Global, limits: Limits, allocator: A) -> Result<Self, Refusal>
        ensures id { IfOk result (λ t. t.id ≡ limits.id) }
        ensures account { IfOk result (λ t. IsAccount t.account (A.charged_of allocator) (A.limit_of allocator)) }
        ensures cause { IfErr result (λ e. IsUnopened limits (A.charged_of allocator) (A.limit_of allocator) e) }
    {
        let account = Account::of(&allocator);
        let world = World::new(alloc, limits, allocator)?;
        Ok(Tree::of(limits.id, account, Words::new(world)))
    }
}
