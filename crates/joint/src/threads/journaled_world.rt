//! What an index with a journal keeps under its lock: the machine, and the book of the ledger that counts its watched
//! writing calls.

ghost use Rattle.std.specs.Prelude.{◌≡◌, ◌≤◌, ◌↔◌, ℕ, None, false, true, nat_eq, slice_get, IsTrue, IfOk, MatchResult};
ghost use Rattle.joint.specs.engine.Closing.{IsClosed, IsNotClosed};
ghost use Rattle.joint.specs.threads.Driving.{IsToldInCall};
ghost use Rattle.joint.specs.threads.Journals.{IsCounted, IsJournal, count_watched};
ghost use Rattle.joint.specs.nodes.Opening.{HasPlaces};
ghost use Rattle.joint.specs.threads.Threads.{register_step};
ghost use Rattle.joint.specs.world.World.{IsStep};
ghost use Rattle.joint.specs.engine.Engine.{IsOfCall};
ghost use Rattle.joint.specs.Changes.{changes};
ghost use Rattle.joint.specs.threads.Writing.{Appended, Gathers, GathersJournal, GathersOf, IsInFlight, MayStep, ReadingTurn, Reads, WontRepeat, WritingTurn};
ghost use Rattle.joint.specs.declared.refusal.Refusal.TheVariants as cause;

use crate::refusal::Refusal;
use crate::steps::{Event, Kind, Op, Outcome, Report, Step};
use crate::threads::journal::Journal;
use crate::threads::locked::{Locked, registration};
use crate::threads::progress::Progress;
use crate::threads::share::Share;
use crate::threads::watch::Watch;
use crate::world::World;
use congee::{Allocator, Drainer};
use judge::Entry;
use std::alloc::{AllocError, Global};
use std::marker::PhantomData;
use std::sync::ledger::{Book, Ledger};

/// The machine with its journal, and the book that counts its watched writing calls.
pub(crate) struct JournaledWorld<L: Ledger, W: Watch, A: Allocator> {
    world: World<u64, A>,
    book: Book<L>,
    watch: PhantomData<W>,
    ghost some: { 1 ≤ world.log.places },
    ghost few: { world.log.places ≤ 4294967295 },
    ghost counted: { book.total ≡ count_watched W.watched world.log.entries },
}

impl<L: Ledger, W: Watch, A: Allocator> Drop for JournaledWorld<L, W, A> {
    fn drop(self) {
        let JournaledWorld {
            world: _,
            book: _,
            watch: _,
        } = self;
    }
}

impl<L: Ledger, W: Watch, A: Allocator> JournaledWorld<L, W, A> {
    /// A machine with a journal, and the book that counts its watched writing calls.
    pub(crate) fn with(world: World<u64, A>, book: Book<L>) -> Self
        requires places { HasPlaces world.log.places }
        requires counted { book.total ≡ count_watched W.watched world.log.entries }
        ensures { result.world ≡ world }
    {
        JournaledWorld {
            world,
            book,
            watch: PhantomData,
        }
    }

    /// Whether the worker has this call in flight, which took this answer last.
    fn has_in_flight(&self, who: u32, op: Op<u64>, given: Option<Option<u64>>) -> bool
        ensures { IsTrue result ↔ IsInFlight self.now.world who op given }
    {
        match self.world.in_flight(who) {
            Some((flying, answer)) => is_same_op(&flying, &op) && is_same_answer(answer, given),
            None => false,
        }
    }

    /// Whether a step of a worker's call, which took this answer last, may be taken.
    fn may_step(
        &self,
        who: u32,
        op: Op<u64>,
        given: Option<Option<u64>>,
        event: &Event<u64>,
    ) -> bool
        ensures { IsTrue result ↔ MayStep self.now.world who op given event.now }
    {
        match event {
            Event::Register => false,
            Event::Begin(_) => true,
            Event::Go(noise) => {
                self.has_in_flight(who, op, given)
                    && (noise.answer.is_none() || self.world.asks(who))
            }
        }
    }

    /// Whether a call of a worker that has this entry, if any, won't have another.
    fn wont_repeat(&self, who: u32, entry: &Option<Entry<u64>>) -> bool
        ensures { IsTrue result ↔ WontRepeat self.now.world who entry.now }
    {
        entry.is_none() || !self.world.has_place(who)
    }

    /// One turn of a call that doesn't write: its begin; then, while it may be taken, its next step.
    fn read(&mut self, op: &Op<u64>, step: Step<u64>) -> Report<u64>
        requires { IsOfCall step.event }
        ensures turn { ReadingTurn self.old.world step.worker op.now step result self.new.world }
        ensures told { IsToldInCall result.outcome }
    {
        self.world.sound();
        if op.changes() || !self.may_step(step.worker, *op, None, &step.event) {
            return stopped(Outcome::Refused(Refusal::Idle));
        }
        step_on(&mut self.world, op, None, step).0
    }

    /// One turn of a writing call: its begin; then, while it may be taken, its next step.
    pub(crate) fn write(
        &mut self,
        op: &Op<u64>,
        call: &mut Progress<L>,
        step: Step<u64>,
    ) -> Report<u64>
        requires writing { changes op.now ≡ true }
        requires call { IsOfCall step.event }
        ensures turn { WritingTurn W.watched step.worker op.now call.old self.old.world step result call.new self.new.world }
        ensures told { IsToldInCall result.outcome }
    {
        self.world.sound();
        let who = step.worker;
        if !self.may_step(who, *op, call.given, &step.event)
            || !self.wont_repeat(who, &call.entry)
        {
            return stopped(call.settled());
        }
        let given = call.given;
        call.take_answer(op, &step.event);
        let (report, entry) = step_on(&mut self.world, op, given, step);
        call.note::<W>(&mut self.book, entry);
        call.tell(report)
    }

    /// The number of watched writing calls, by a share of all parts. One that lacks parts is refused as SharesLeft.
    pub(crate) fn gather(&mut self, share: &mut Share<L>) -> Result<u64, Refusal>
        ensures exact { GathersOf W.watched L.parts self.old.world.log.entries share.old result }
        ensures gathers { Gathers W.watched L.parts share.old result }
        ensures share { share.new ≡ share.old }
        ensures world { self.new.world ≡ self.old.world }
    {
        self.world.sound();
        share.gather(&mut self.book)
    }

    /// The same, with a copy of the journal in which they are. Refused as Memory too.
    pub(crate) fn gather_entries(
        &mut self,
        alloc: Global,
        share: &mut Share<L>,
    ) -> Result<(u64, Vec<Entry<u64>>), Refusal>
        ensures gathers { GathersJournal W.watched L.parts share.old result }
        ensures share { share.new ≡ share.old }
    {
        match self.gather(share) {
            Ok(count) => match self.entries(alloc) {
                Ok(entries) => Ok((count, entries)),
                Err(refusal) => Err(refusal),
            },
            Err(refusal) => Err(refusal),
        }
    }

    /// A copy of the journal. Refused as Memory.
    pub(crate) fn entries(&self, alloc: Global) -> Result<Vec<Entry<u64>>, Refusal>
        ensures exact { IfOk result (λ entries. entries.items ≡ self.now.world.log.entries) }
        ensures journal { MatchResult result (λ entries. IsJournal entries.items) (λ e. e ≡ cause.Memory) }
    {
        self.world.sound();
        match copy_of(alloc, self.world.journal()) {
            Ok(entries) => Ok(entries),
            Err(_) => Err(Refusal::Memory),
        }
    }
}

impl<L: Ledger, W: Watch, A: Allocator> Locked<u64> for JournaledWorld<L, W, A> {
    type Account = A;

    type Memo = Op<u64>;

    type Kept = Journal<L, W>;

    ghost asked = { λ op. op };

    ghost machine = { λ k. k.world };

    ghost keeps = { λ journal s. (journal.entries.items ≡ s.log.entries) × HasPlaces s.log.places };

    ghost turns = { ReadingTurn };

    ghost holds = { Reads };

    fn memo(op: &Op<u64>) -> Op<u64>
        ensures { result ≡ op.now }
    {
        *op
    }

    fn turn(&mut self, call: &Op<u64>, step: Step<u64>) -> Report<u64>
        requires { IsOfCall step.event }
        ensures turns { ReadingTurn self.old.world step.worker call.now step result self.new.world }
        ensures holds { Reads step.worker call.now step result }
        ensures told { IsToldInCall result.outcome }
    {
        self.read(call, step)
    }

    fn register(&mut self) -> Report<u64>
        ensures { IsStep nat_eq true self.old.world register_step result self.new.world }
    {
        self.world.sound();
        self.world.step(registration())
    }

    fn world(&self) -> &World<u64, A>
        ensures { result.now ≡ self.now.world }
    {
        &self.world
    }

    fn close<D: Drainer<u64, u64>>(
        self,
        drainer: D,
    ) -> Result<(A, D, Journal<L, W>), (Refusal, Self, D)>
        requires { D.can_drain drainer }
        ensures closed { MatchResult result (λ r. IsClosed D.drains self.world drainer (A.charged_of r.0) (A.limit_of r.0) r.1) (λ e. IsNotClosed self.world drainer e.0 e.1.world e.2) }
        ensures kept { IfOk result (λ r. (r.2.entries.items ≡ self.world.log.entries) × HasPlaces self.world.log.places) }
    {
        let JournaledWorld {
            world,
            book,
            watch: _,
        } = self;
        world.sound();
        match world.close_with_journal(drainer) {
            Ok((allocator, drainer, entries)) => {
                Ok((allocator, drainer, Journal::of(entries, book)))
            }
            Err((refusal, world, drainer)) => Err((
                refusal,
                JournaledWorld::with(world, book),
                drainer,
            )),
        }
    }
}

/// A step of a worker's call, which took this answer last, and the entry that it appends to the journal.
fn step_on<A: Allocator>(
    world: &mut World<u64, A>,
    op: &Op<u64>,
    given: Option<Option<u64>>,
    step: Step<u64>,
) -> (Report<u64>, Option<Entry<u64>>)
    requires { MayStep world.old step.worker op.now given step.event }
    ensures step { IsStep nat_eq true world.old step result.0 world.new }
    ensures appended { Appended world.old world.new step.worker op.now given step.event result.1 }
{
    world.sound();
    let before = world.journal().len();
    let report = world.step(step);
    let entry = entry_at(world.journal(), before);
    (report, entry)
}

/// Whether two calls are the same.
pub(crate) fn is_same_op(one: &Op<u64>, other: &Op<u64>) -> bool
    ensures { IsTrue result ↔ (one.now ≡ other.now) }
{
    *one == *other
}

/// Whether two last answers are the same.
fn is_same_answer(one: Option<Option<u64>>, other: Option<Option<u64>>) -> bool
    ensures { IsTrue result ↔ (one ≡ other) }
{
    match (one, other) {
        (None, None) => true,
        (Some(None), Some(None)) => true,
        (Some(Some(one)), Some(Some(other))) => one == other,
        _ => false,
    }
}

/// The entry at an index, if there is one.
fn entry_at(entries: &[Entry<u64>], at: usize) -> Option<Entry<u64>>
    ensures { result ≡ slice_get entries.now at }
{
    entries.get(at).copied()
}

/// The same entries.
fn copy_of(alloc: Global, entries: &[Entry<u64>]) -> Result<Vec<Entry<u64>>, AllocError>
    ensures { IfOk result (λ copy. copy.items ≡ entries.now) }
{
    entries.iter().copied().collect(alloc)
}

/// What a call tells that takes no step.
pub(crate) fn stopped(outcome: Outcome<u64>) -> Report<u64>
    ensures { result.outcome ≡ outcome }
{
    Report {
        kind: Kind::Collection,
        decided: false,
        kept: false,
        skipped: false,
        destroyed: 0,
        outcome,
    }
}
