//! The calls on the tree and the collector, one step at a time.
//!
//! A worker has one call `in_flight` at most. Each event has its own function of `step`: `step_in` takes a worker in,
//! `step_begin` begins a call, and `step_on` goes on with it. A writing call reserves its place in a journal, secures
//! places of its worker's bag for the nodes that it may hand over, and then walks the tree; a reading one walks at once.
//! `census` and `waiting` count the pairs and what calls have taken out; `journaling` and `request` tell what a journal
//! wants of a call and what its worker asked for; `nearest` looks for the pair next to a key, which is no step; `close`
//! ends them all.

pub(crate) mod census;
pub(crate) mod close;
pub(crate) mod in_flight;
pub(crate) mod journaling;
pub(crate) mod nearest;
pub(crate) mod request;
pub(crate) mod step;
pub(crate) mod waiting;

ghost use Rattle.std.specs.Prelude.{◌≡◌, ◌<◌, ℕ, List, Some, length, slice_get, slice_set, replicate, true, IfOk, MatchResult, if◌then◌else◌};
ghost use Rattle.crossbeam_epoch.specs.declared.bag.Work.{Work};
ghost use Rattle.crossbeam_epoch.specs.world.Machine.{deferred, place};
ghost use Rattle.congee.specs.protocol.Play.{begun};
ghost use Rattle.joint.specs.nodes.Nodes.{nodes, with_collector};
ghost use Rattle.joint.specs.engine.Intact.{IsSecuring, MayStart, BeginsSecuring, Secured, call_after, cleared, is_reserving, resting};
ghost use Rattle.joint.specs.Names.{root};
ghost use Rattle.joint.specs.engine.Laws.{CellLaws, CallLaws, ProgressLaws};
ghost use Rattle.joint.specs.declared.engine.in_flight.InFlight.TheVariants as InFlight;
ghost use Rattle.crossbeam_epoch.specs.declared.world.report.Event.TheVariants as Event;
ghost use Rattle.joint.specs.nodes.Opening.{IsOpened, IsUnopened};
ghost use Rattle.joint.specs.engine.Engine.{IsFresh, EngineHolds};
ghost use Rattle.joint.specs.Reports.{told, is_in_flight};
ghost use Rattle.joint.specs.nodes.View.{id_number};
ghost use Rattle.joint.specs.engine.Safety.{Rests, Runs, Owes, Walked, Collected};
ghost use Rattle.joint.specs.nodes.Slots.{slot_names};
ghost use Rattle.joint.specs.engine.State.{state_of, EngineIntact, EngineCounted, EngineSafe};

use crate::engine::census::Census;
use crate::engine::in_flight::InFlight;
use crate::id::Id;
use crate::limits::Limits;
use crate::nodes::Nodes;
use crate::nodes::slot::Slot;
use crate::refusal::Refusal;
use congee::{Allocator, Machine, Move, Noise, Op, Payload, Small, Step, step_of};
use crossbeam_epoch::{Event, Outcome, Report};
use std::alloc::{AllocError, Global};

/// What the collector's laws say of the cells.
pub(crate) fn cell_laws<P: Payload + Small>()
    ensures { CellLaws {T = Slot P} (Unit {0}) slot_names }
{
    crossbeam_epoch::World::<Slot<P>, ()>::reach();
    crossbeam_epoch::World::<Slot<P>, ()>::acts();
    crossbeam_epoch::World::<Slot<P>, ()>::stored();
    crossbeam_epoch::World::<Slot<P>, ()>::cells();
    crossbeam_epoch::World::<Slot<P>, ()>::seen();
    crossbeam_epoch::World::<Slot<P>, ()>::order();
    crossbeam_epoch::World::<Slot<P>, ()>::seals();
}

/// What the tree's laws say of the calls.
pub(crate) fn call_laws<P: Payload + Small>()
    ensures { CallLaws {C = Id} {V = P} id_number P.same_as P.always_copies }
{
    Machine::<Id, P>::opens();
    Machine::<Id, P>::begins();
    Machine::<Id, P>::spares();
    Machine::<Id, P>::holds();
    Machine::<Id, P>::tree();
    Machine::<Id, P>::exchanged();
}

/// What the collector's laws say of a call's way to its end.
pub(crate) fn progress<P: Payload + Small>()
    ensures { ProgressLaws (Slot P) (Unit {0}) }
{
    crossbeam_epoch::World::<Slot<P>, ()>::progress();
}

/// The call in flight after a step of the collector: the one that runs on, or none.
fn call_after<P: Payload + Small>(outcome: Outcome, call: InFlight<P>) -> InFlight<P>
    ensures { result ≡ call_after outcome call }
{
    match outcome {
        Outcome::Running => call,
        Outcome::Done => InFlight::Idle,
        Outcome::Refused(_) => InFlight::Idle,
    }
}

/// Whether a call on the tree is in flight after a step with this outcome.
fn is_in_flight<P>(outcome: &congee::Outcome<P>) -> bool
    ensures { result ≡ is_in_flight (told outcome.now) }
{
    match outcome {
        congee::Outcome::Running => true,
        congee::Outcome::Asks(_) => true,
        congee::Outcome::Found { .. } => true,
        congee::Outcome::Done(_) => false,
        congee::Outcome::Scanned { .. } => false,
        congee::Outcome::Refused(_) => false,
    }
}

/// A call on the tree that has ended.
fn resting<P: Payload + Small>() -> Machine<Id, P>
    ensures { result ≡ resting }
{
    Machine::ended(Id::root())
}

/// So many calls on the tree that have ended.
fn ended_machines<P: Payload + Small>(
    alloc: Global,
    places: usize,
) -> Result<Vec<Machine<Id, P>>, AllocError>
    ensures { IfOk result (λ v. v.items ≡ replicate places resting) }
{
    let mut machines = Vec::with_capacity(alloc, places)?;
    for _ in 0..places {
        machines.push(resting())?;
    }
    Ok(machines)
}

/// So many workers without a call in flight.
fn idle_calls<P: Payload + Small>(
    alloc: Global,
    places: usize,
) -> Result<Vec<InFlight<P>>, AllocError>
    ensures { IfOk result (λ v. v.items ≡ replicate places InFlight.Idle) }
{
    let mut calls = Vec::with_capacity(alloc, places)?;
    for _ in 0..places {
        calls.push(InFlight::Idle)?;
    }
    Ok(calls)
}

/// A tree in the cells of a collector, and the calls on it that are in flight, one a worker.
#[derive(Drop)]
pub struct Engine<P: Payload + Small, A: Allocator> {
    pub(crate) nodes: Nodes<P, A>,
    pub(crate) machines: Vec<Machine<Id, P>>,
    pub(crate) calls: Vec<InFlight<P>>,
    /// What is counted of the pairs that stand and of the nodes that calls have taken out.
    pub(crate) census: Census,
}

impl<P: Payload + Small, A: Allocator> Engine<P, A> {
    /// An index with a root alone, and a place for each worker there may be. Refused as `Nodes::new` refuses, and as Memory.
    pub(crate) fn new(alloc: Global, limits: Limits, allocator: A) -> Result<Self, Refusal>
        ensures { MatchResult result (λ e. IsOpened limits (A.charged_of allocator) (A.limit_of allocator) e.nodes × EngineHolds P.same_as P.always_copies (state_of e) × IsFresh (state_of e) × EngineCounted e.census (state_of e)) (λ e. IsUnopened limits (A.charged_of allocator) (A.limit_of allocator) e) }
    {
        cell_laws::<P>();
        call_laws::<P>();
        let nodes = Nodes::new(alloc, limits, allocator)?;
        nodes.charged();
        let places = limits.epoch.participants as usize;
        let Ok(machines) = ended_machines(alloc, places) else {
            return Err(Refusal::Memory);
        };
        let Ok(calls) = idle_calls(alloc, places) else {
            return Err(Refusal::Memory);
        };
        let census = Census::new();
        Ok(Engine {
            nodes,
            machines,
            calls,
            census,
        })
    }

    /// One step of the collector, of a worker without a call on the tree: the pairs stay, and no node goes that a call has.
    fn collect(&mut self, who: usize, event: Event) -> Report
        requires safe { EngineSafe P.same_as P.always_copies (state_of self.old) }
        requires rests { Rests self.old.machines.items who }
        ensures collected { Collected P.same_as P.always_copies self.old.nodes self.old.machines.items who event result self.new.nodes }
        ensures machines { self.new.machines ≡ self.old.machines }
        ensures calls { self.new.calls ≡ self.old.calls }
        ensures census { self.new.census ≡ self.old.census }
    {
        cell_laws::<P>();
        call_laws::<P>();
        self.nodes.collect(who, event)
    }

    /// Defers the destruction of the node that a worker has just marked, into a place that it had secured.
    fn hand_over(&mut self, who: usize, node: Id)
        requires { Owes P.same_as P.always_copies self.old.nodes self.old.machines.items who node }
        ensures safe { EngineSafe P.same_as P.always_copies (state_of self.new) }
        ensures state { self.new.nodes ≡ with_collector self.old.nodes (deferred self.old.nodes.collector who (Work.Remove node.name)) }
        ensures machines { self.new.machines ≡ self.old.machines }
        ensures calls { self.new.calls ≡ self.old.calls }
        ensures census { self.new.census ≡ self.old.census }
    {
        cell_laws::<P>();
        call_laws::<P>();
        self.nodes.charged();
        match self.nodes.defer(who, node) {
            Ok(_) => {}
            Err(_) => unreachable!(),
        }
    }

    /// One step of a worker's call on the tree, which is still in its place after the last one.
    #[inline(always)]
    pub(crate) fn walk(&mut self, who: usize, noise: Noise<Id, P>) -> Move<P>
        requires safe { EngineSafe P.same_as P.always_copies (state_of self.old) }
        requires runs { Runs self.old.machines.items who }
        ensures walked { Walked P.same_as P.always_copies self.old.nodes self.old.machines.items (record { who = who; noise = noise }) result self.new.nodes self.new.machines.items }
        ensures calls { self.new.calls ≡ self.old.calls }
        ensures census { self.new.census ≡ self.old.census }
    {
        cell_laws::<P>();
        call_laws::<P>();
        Machine::<Id, P>::leaves::<Nodes<P, A>>();
        let owed = self.machines[who].retires();
        let moved = step_of(&mut self.nodes, &mut self.machines, Step { who, noise });
        if let Some(node) = owed {
            self.hand_over(who, node);
        }
        moved
    }

    /// Puts another call in flight in a worker's place.
    fn set_call(&mut self, who: usize, call: InFlight<P>)
        requires { who < length self.old.calls.items }
        ensures calls { self.new.calls.items ≡ slice_set self.old.calls.items who call }
        ensures nodes { self.new.nodes ≡ self.old.nodes }
        ensures machines { self.new.machines ≡ self.old.machines }
        ensures census { self.new.census ≡ self.old.census }
    {
        self.calls[who] = call;
    }

    /// Begins a call on the collector.
    pub(crate) fn begin_collecting(&mut self, who: usize, op: crossbeam_epoch::Op) -> Report
        requires intact { EngineIntact P.same_as P.always_copies (state_of self.old) }
        requires idle { slice_get self.old.calls.items who ≡ Some InFlight.Idle }
        ensures intact { EngineIntact P.same_as P.always_copies (state_of self.new) }
        ensures collected { Collected P.same_as P.always_copies self.old.nodes self.old.machines.items who (Event.Begin op) result self.new.nodes }
        ensures calls { self.new.calls.items ≡ slice_set self.old.calls.items who (call_after result.outcome (InFlight.Collecting op)) }
        ensures machines { self.new.machines ≡ self.old.machines }
        ensures census { self.new.census ≡ self.old.census }
    {
        progress::<P>();
        let report = self.collect(who, Event::Begin(op));
        self.set_call(who, call_after(report.outcome, InFlight::Collecting(op)));
        report
    }

    /// The next step of a call on the collector.
    pub(crate) fn go_collecting(&mut self, who: usize, op: crossbeam_epoch::Op) -> Report
        requires intact { EngineIntact P.same_as P.always_copies (state_of self.old) }
        requires on { slice_get self.old.calls.items who ≡ Some (InFlight.Collecting op) }
        ensures intact { EngineIntact P.same_as P.always_copies (state_of self.new) }
        ensures collected { Collected P.same_as P.always_copies self.old.nodes self.old.machines.items who Event.Go result self.new.nodes }
        ensures calls { self.new.calls.items ≡ slice_set self.old.calls.items who (call_after result.outcome (InFlight.Collecting op)) }
        ensures machines { self.new.machines ≡ self.old.machines }
        ensures census { self.new.census ≡ self.old.census }
    {
        progress::<P>();
        let report = self.collect(who, Event::Go);
        self.set_call(who, call_after(report.outcome, InFlight::Collecting(op)));
        report
    }

    /// Begins a call on the tree in the place of a worker who may.
    pub(crate) fn start(&mut self, who: usize, op: Op<P>)
        requires intact { EngineIntact P.same_as P.always_copies (state_of self.old) }
        requires idle { slice_get self.old.calls.items who ≡ Some InFlight.Idle }
        requires may { MayStart self.old.nodes.collector who op }
        ensures intact { EngineIntact P.same_as P.always_copies (state_of self.new) }
        ensures nodes { self.new.nodes ≡ self.old.nodes }
        ensures machines { self.new.machines.items ≡ slice_set self.old.machines.items who (begun root op) }
        ensures calls { self.new.calls.items ≡ slice_set self.old.calls.items who InFlight.Walking }
        ensures census { self.new.census ≡ self.old.census }
    {
        call_laws::<P>();
        self.machines[who].begin(Id::root(), op);
        self.set_call(who, InFlight::Walking);
    }

    /// Puts another call on the tree in a worker's place.
    fn set_machine(&mut self, who: usize, machine: Machine<Id, P>)
        requires { who < length self.old.machines.items }
        ensures machines { self.new.machines.items ≡ slice_set self.old.machines.items who machine }
        ensures nodes { self.new.nodes ≡ self.old.nodes }
        ensures calls { self.new.calls ≡ self.old.calls }
        ensures census { self.new.census ≡ self.old.census }
    {
        self.machines[who] = machine;
    }

    /// Whether a worker's call is a writing one that has taken no step.
    pub(crate) fn is_reserving(&self, who: usize) -> bool
        ensures { result ≡ is_reserving (slice_get self.now.calls.items who) }
    {
        match self.calls.get(who) {
            Some(InFlight::Reserving(_)) => true,
            // There is none, or it is another call, or it has taken a step.
            _ => false,
        }
    }

    /// Ends a writing call that has taken no step.
    pub(crate) fn abandon(&mut self, who: usize)
        requires intact { EngineIntact P.same_as P.always_copies (state_of self.old) }
        requires on { is_reserving (slice_get self.old.calls.items who) ≡ true }
        ensures intact { EngineIntact P.same_as P.always_copies (state_of self.new) }
        ensures nodes { self.new.nodes ≡ self.old.nodes }
        ensures machines { self.new.machines ≡ self.old.machines }
        ensures calls { self.new.calls.items ≡ slice_set self.old.calls.items who InFlight.Idle }
        ensures census { self.new.census ≡ self.old.census }
    {
        self.set_call(who, InFlight::Idle);
    }

    /// A writing call begins to make places free for the nodes that it may hand over, in its first step.
    pub(crate) fn begin_securing(&mut self, who: usize)
        requires intact { EngineIntact P.same_as P.always_copies (state_of self.old) }
        requires on { is_reserving (slice_get self.old.calls.items who) ≡ true }
        ensures begins { BeginsSecuring P.same_as P.always_copies self.old.nodes self.old.machines.items self.old.calls.items who self.new.nodes self.new.machines.items self.new.calls.items }
        ensures census { self.new.census ≡ self.old.census }
    {
        progress::<P>();
        let call = std::mem::replace(&mut self.calls[who], InFlight::Idle);
        let InFlight::Reserving(op) = call else {
            unreachable!()
        };
        self.collect(who, Event::Begin(crossbeam_epoch::Op::Secure(2)));
        self.set_call(who, InFlight::Securing(op));
    }

    /// The next step of a writing call that makes its places free; after the last one the call on the tree begins.
    pub(crate) fn go_securing(&mut self, who: usize) -> Report
        requires intact { EngineIntact P.same_as P.always_copies (state_of self.old) }
        requires on { IsSecuring (slice_get self.old.calls.items who) }
        ensures secured { Secured P.same_as P.always_copies self.old.nodes self.old.machines.items self.old.calls.items who result self.new.nodes self.new.machines.items self.new.calls.items }
        ensures census { self.new.census ≡ self.old.census }
    {
        progress::<P>();
        let call = std::mem::replace(&mut self.calls[who], InFlight::Idle);
        let InFlight::Securing(op) = call else {
            unreachable!()
        };
        let report = self.collect(who, Event::Go);
        match report.outcome {
            Outcome::Running => self.set_call(who, InFlight::Securing(op)),
            Outcome::Done => self.start(who, op),
            Outcome::Refused(_) => {}
        }
        report
    }

    /// Ends a worker's call on the tree that has this outcome, where it is over, and puts a scan that is done out of its place.
    #[inline(always)]
    pub(crate) fn put_away(&mut self, who: usize, outcome: &congee::Outcome<P>)
        requires machines { who < length self.old.machines.items }
        requires calls { who < length self.old.calls.items }
        ensures machines { self.new.machines.items ≡ (if is_in_flight (told outcome.now) then self.old.machines.items else cleared self.old.machines.items who) }
        ensures calls { self.new.calls.items ≡ (if is_in_flight (told outcome.now) then self.old.calls.items else slice_set self.old.calls.items who InFlight.Idle) }
        ensures nodes { self.new.nodes ≡ self.old.nodes }
        ensures census { self.new.census ≡ self.old.census }
    {
        if is_in_flight(outcome) {
            return;
        }
        let scanned = self.machines[who].has_scanned();
        self.set_call(who, InFlight::Idle);
        if scanned {
            self.set_machine(who, resting());
        }
    }
}
