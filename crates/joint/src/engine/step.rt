//! One step of the machine: `step_in` for a registration, `step_begin` for a begin, `step_on` for a further step of a call.

ghost use Rattle.std.specs.Prelude.{◌≡◌, ◌<◌, Some, length, slice_get, true, false};
ghost use Rattle.judge.specs.Answer.{Pairs};
ghost use Rattle.congee.specs.Keys.{IsMapOf};
ghost use Rattle.joint.specs.engine.Beginning.{Begun};
ghost use Rattle.joint.specs.engine.Census.{effect_of};
ghost use Rattle.joint.specs.nodes.Nodes.{IsCharged, nodes};
ghost use Rattle.joint.specs.nodes.Survey.{IsEmptiness};
ghost use Rattle.joint.specs.engine.Engine.{Does, EngineHolds, IsEngineStep, Proceeds, misuse, quiet, collection, finds_none, interruption, is_busy, kind_of, reserving, Surveys, Walks};
ghost use Rattle.joint.specs.declared.steps.Event.TheVariants as Event;
ghost use Rattle.joint.specs.engine.Intact.{writes};
ghost use Rattle.joint.specs.declared.engine.in_flight.InFlight.TheVariants as InFlight;
ghost use Rattle.joint.specs.declared.steps.Survey.TheVariants as Survey;
ghost use Rattle.joint.specs.declared.engine.step.Way.TheVariants as Way;
ghost use Rattle.joint.specs.declared.steps.Target.TheVariants as Target;
ghost use Rattle.joint.specs.declared.steps.Outcome.TheVariants as Outcome;
ghost use Rattle.joint.specs.declared.steps.Kind.TheVariants as Kind;
ghost use Rattle.crossbeam_epoch.specs.world.Machine.{place};
ghost use Rattle.joint.specs.engine.State.{state_of, EngineIntact, EngineCounted};

use crate::engine::census::{Change, effect};
use crate::engine::in_flight::InFlight;
use crate::engine::{Engine, call_laws, cell_laws, progress};
use crate::id::Id;
use crate::refusal::Refusal;
use crate::steps::{Done, Kind, Op, Outcome, Report, Survey, Target};
use congee::{Allocator, Move, Noise, Payload, Small};
use crossbeam_epoch::Fault;

impl<P: Payload + Small, A: Allocator> Engine<P, A> {
    /// The step in which a worker registers.
    pub(crate) fn step_in(&mut self, worker: u32) -> Report<P>
        requires holds { EngineHolds P.same_as P.always_copies (state_of self.old) }
        requires counted { EngineCounted self.old.census (state_of self.old) }
        ensures step { IsEngineStep P.same_as P.always_copies (state_of self.old) (record { worker = worker; event = Event.Register }) result (state_of self.new) }
        ensures counted { EngineCounted self.new.census (state_of self.new) }
    {
        call_laws::<P>();
        let report = self.register();
        self.nodes.charged();
        report
    }

    /// The step in which a worker begins a call, or is refused it for its first cause.
    pub(crate) fn step_begin(&mut self, worker: u32, op: Op<P>) -> Report<P>
        requires holds { EngineHolds P.same_as P.always_copies (state_of self.old) }
        requires counted { EngineCounted self.old.census (state_of self.old) }
        ensures step { IsEngineStep P.same_as P.always_copies (state_of self.old) (record { worker = worker; event = Event.Begin op }) result (state_of self.new) }
        ensures counted { EngineCounted self.new.census (state_of self.new) }
    {
        call_laws::<P>();
        let who = worker as usize;
        let target = op.target();
        if !self.nodes.collector.is_registered(who) {
            return refused(kind_of(&target), Refusal::Unknown);
        }
        if self.is_busy(who) {
            return refused(kind_of(&target), Refusal::of_fault(interruption(&target)));
        }
        match target {
            Target::Collector(op) => self.begin_on_collector(who, op),
            Target::Tree(op) => self.begin_on_tree(who, op),
            Target::Survey(survey) => self.answer_survey(who, survey),
        }
    }

    /// The next step of a worker's call.
    #[inline(always)]
    pub(crate) fn step_on(&mut self, worker: u32, noise: Noise<Id, P>) -> Report<P>
        requires holds { EngineHolds P.same_as P.always_copies (state_of self.old) }
        requires counted { EngineCounted self.old.census (state_of self.old) }
        ensures step { IsEngineStep P.same_as P.always_copies (state_of self.old) (record { worker = worker; event = Event.Go noise }) result (state_of self.new) }
        ensures counted { EngineCounted self.new.census (state_of self.new) }
    {
        call_laws::<P>();
        let who = worker as usize;
        if self.is_walking(who) {
            self.go_on_tree(who, noise)
        } else {
            self.go_other(who)
        }
    }

    /// Whether a worker's call takes its steps on the tree.
    fn is_walking(&self, who: usize) -> bool
        ensures walking { result ≡ true → slice_get self.now.calls.items who ≡ Some InFlight.Walking }
        ensures other { result ≡ false → slice_get self.now.calls.items who ≡ Some InFlight.Walking → ⊥ }
    {
        match self.calls.get(who) {
            Some(InFlight::Walking) => true,
            // There is none, or it is on the collector, or before its first step on the tree.
            _ => false,
        }
    }

    /// A worker takes the lowest free place.
    fn register(&mut self) -> Report<P>
        requires intact { EngineIntact P.same_as P.always_copies (state_of self.old) }
        ensures intact { EngineIntact P.same_as P.always_copies (state_of self.new) }
        ensures registers { Proceeds P.same_as P.always_copies (state_of self.old) 0 Event.Register result (state_of self.new) }
        ensures census { self.new.census ≡ self.old.census }
    {
        cell_laws::<P>();
        call_laws::<P>();
        match self.nodes.register() {
            Ok(place) => report(Kind::Collection, Outcome::Registered(place as u32)),
            Err(fault) => refused(Kind::Collection, Refusal::of_fault(fault)),
        }
    }

    /// Begins a call on the collector, of a worker without a call in flight.
    fn begin_on_collector(&mut self, who: usize, op: crossbeam_epoch::Op) -> Report<P>
        requires intact { EngineIntact P.same_as P.always_copies (state_of self.old) }
        requires charged { IsCharged self.old.nodes }
        requires registered { (place self.old.nodes.collector who).registered ≡ true }
        requires idle { slice_get self.old.calls.items who ≡ Some InFlight.Idle }
        ensures intact { EngineIntact P.same_as P.always_copies (state_of self.new) }
        ensures begun { Begun P.same_as P.always_copies (state_of self.old) who (Target.Collector op) result (state_of self.new) }
        ensures census { self.new.census ≡ self.old.census }
        ensures charged { IsCharged self.new.nodes }
    {
        progress::<P>();
        let collector_report = self.begin_collecting(who, op);
        collection(
            collector_report,
            Outcome::of_collector(collector_report.outcome),
        )
    }

    /// Begins a call on the tree, of a worker without a call in flight.
    fn begin_on_tree(&mut self, who: usize, op: congee::Op<P>) -> Report<P>
        requires intact { EngineIntact P.same_as P.always_copies (state_of self.old) }
        requires registered { (place self.old.nodes.collector who).registered ≡ true }
        requires idle { slice_get self.old.calls.items who ≡ Some InFlight.Idle }
        ensures intact { EngineIntact P.same_as P.always_copies (state_of self.new) }
        ensures begun { Begun P.same_as P.always_copies (state_of self.old) who (Target.Tree op) result (state_of self.new) }
        ensures census { self.new.census ≡ self.old.census }
        ensures nodes { self.new.nodes ≡ self.old.nodes }
    {
        if !self.nodes.collector.is_pinned(who) {
            return refused(Kind::Tree, Refusal::Unpinned);
        }
        match way_of(&op) {
            Way::None => report(Kind::Tree, Outcome::Done(Done::Scanned(0))),
            Way::Reserve => {
                self.set_call(who, InFlight::Reserving(op));
                report(Kind::Tree, Outcome::Running)
            }
            Way::Walk => {
                self.start(who, op);
                report(Kind::Tree, Outcome::Running)
            }
        }
    }

    /// Tells of the tree as it stands, to a worker without a call in flight.
    #[inline(never)]
    fn answer_survey(&self, who: usize, survey: Survey) -> Report<P>
        requires intact { EngineIntact P.same_as P.always_copies (state_of self.now) }
        requires registered { (place self.now.nodes.collector who).registered ≡ true }
        requires idle { slice_get self.now.calls.items who ≡ Some InFlight.Idle }
        requires counted { EngineCounted self.now.census (state_of self.now) }
        ensures { Begun P.same_as P.always_copies (state_of self.now) who (Target.Survey survey) result (state_of self.now) }
    {
        match survey {
            Survey::Keys => self.tell_keys(),
            Survey::IsEmpty => {
                if self.nodes.collector.is_pinned(who) {
                    self.tell_empty()
                } else {
                    refused(Kind::Tree, Refusal::Unpinned)
                }
            }
            Survey::Stats => self.tell_stats(),
        }
    }

    /// All keys.
    fn tell_keys(&self) -> Report<P>
        requires { EngineIntact P.same_as P.always_copies (state_of self.now) }
        ensures { Surveys (state_of self.now) Survey.Keys result (state_of self.now) }
    {
        match self.nodes.keys(self.census.capped() as usize) {
            Ok(keys) => report(Kind::Tree, Outcome::Done(Done::Keys(keys))),
            Err(_) => refused(Kind::Tree, Refusal::Memory),
        }
    }

    /// Whether there is no key.
    fn tell_empty(&self) -> Report<P>
        requires intact { EngineIntact P.same_as P.always_copies (state_of self.now) }
        requires counted { EngineCounted self.now.census (state_of self.now) }
        ensures { Surveys (state_of self.now) Survey.IsEmpty result (state_of self.now) }
    {
        report(Kind::Tree, Outcome::Done(Done::Empty(self.is_empty())))
    }

    /// Whether no pair stands.
    fn is_empty(&self) -> bool
        requires { EngineCounted self.now.census (state_of self.now) }
        ensures { (m : Pairs P) → IsMapOf (nodes self.now.nodes) m → IsEmptiness m result }
    {
        self.census.pairs == 0
    }

    /// How the nodes are spread, and how many pairs there are.
    fn tell_stats(&self) -> Report<P>
        requires intact { EngineIntact P.same_as P.always_copies (state_of self.now) }
        requires counted { EngineCounted self.now.census (state_of self.now) }
        ensures { Surveys (state_of self.now) Survey.Stats result (state_of self.now) }
    {
        match self.nodes.stats(self.census.capped()) {
            Ok(stats) => report(Kind::Tree, Outcome::Done(Done::Stats(stats))),
            Err(_) => refused(Kind::Tree, Refusal::Memory),
        }
    }

    /// The next step of a worker's call that isn't on the tree yet, or there is none.
    #[inline(never)]
    fn go_other(&mut self, who: usize) -> Report<P>
        requires other { slice_get self.old.calls.items who ≡ Some InFlight.Walking → ⊥ }
        requires intact { EngineIntact P.same_as P.always_copies (state_of self.old) }
        requires charged { IsCharged self.old.nodes }
        requires counted { EngineCounted self.old.census (state_of self.old) }
        ensures intact { EngineIntact P.same_as P.always_copies (state_of self.new) }
        ensures does { (noise : Noise Id P) → Does P.same_as P.always_copies (state_of self.old) who (Event.Go noise) (misuse (state_of self.old) who (Event.Go noise)) result (state_of self.new) }
        ensures counted { EngineCounted self.new.census (state_of self.new) }
        ensures charged { IsCharged self.new.nodes }
    {
        if !self.nodes.collector.is_registered(who) {
            return refused(Kind::Collection, Refusal::Unknown);
        }
        match &self.calls[who] {
            InFlight::Idle => refused(Kind::Collection, Refusal::Idle),
            InFlight::Collecting(op) => {
                let op = *op;
                let collector_report = self.go_collecting(who, op);
                collection(
                    collector_report,
                    Outcome::of_collector(collector_report.outcome),
                )
            }
            InFlight::Reserving(_) => {
                self.begin_securing(who);
                let collector_report = self.go_securing(who);
                collection(collector_report, reserving(collector_report.outcome))
            }
            InFlight::Securing(_) => {
                let collector_report = self.go_securing(who);
                collection(collector_report, reserving(collector_report.outcome))
            }
            InFlight::Walking => unreachable!(),
        }
    }

    /// The next step of a worker's call on the tree, and what it makes of the pairs and of the nodes that are taken out is
    /// counted.
    #[inline(always)]
    fn go_on_tree(&mut self, who: usize, noise: Noise<Id, P>) -> Report<P>
        requires intact { EngineIntact P.same_as P.always_copies (state_of self.old) }
        requires on { slice_get self.old.calls.items who ≡ Some InFlight.Walking }
        requires counted { EngineCounted self.old.census (state_of self.old) }
        ensures intact { EngineIntact P.same_as P.always_copies (state_of self.new) }
        ensures walks { Walks P.same_as P.always_copies (state_of self.old) who noise result (state_of self.new) }
        ensures counted { EngineCounted self.new.census (state_of self.new) }
        ensures charged { IsCharged self.new.nodes }
    {
        call_laws::<P>();
        let stood = self.nodes.standing();
        let before = self.taken(who);
        let moved = self.walk(who, noise);
        self.put_away(who, &moved.outcome);
        let after = self.taken(who);
        let change = self.change_by(who, &moved);
        self.census.count(before, after, change);
        Report {
            kind: Kind::Tree,
            decided: moved.decided,
            kept: false,
            skipped: moved.skipped,
            destroyed: stood.saturating_sub(self.nodes.standing()),
            outcome: Outcome::of_tree(moved.outcome),
        }
    }

    /// What a step of a worker's call made of the number of pairs.
    #[inline(always)]
    fn change_by(&self, who: usize, moved: &Move<P>) -> Change
        requires { who < length self.now.machines.items }
        ensures { result ≡ effect_of moved.now.decided moved.now.outcome (slice_get self.now.machines.items who) }
    {
        if !moved.decided {
            return Change::Same;
        }
        match &moved.outcome {
            congee::Outcome::Done(reply) => effect(reply),
            // It goes on, by the reply that it will give: no other outcome decides.
            _ => match self.machines[who].reply() {
                Some(reply) => effect(reply),
                None => Change::Same,
            },
        }
    }

    /// Whether a worker has a call in flight.
    pub(crate) fn is_busy(&self, who: usize) -> bool
        requires { who < length self.now.calls.items }
        ensures { result ≡ is_busy (slice_get self.now.calls.items who) }
    {
        match &self.calls[who] {
            InFlight::Idle => false,
            // On the collector, on the tree, or before that making places free.
            _ => true,
        }
    }
}

/// A report of a step that decided, skipped and destroyed nothing.
fn report<P>(kind: Kind, outcome: Outcome<P>) -> Report<P>
    ensures { result ≡ quiet kind outcome }
{
    Report {
        kind,
        decided: false,
        kept: false,
        skipped: false,
        destroyed: 0,
        outcome,
    }
}

/// The report of a refusal.
pub(crate) fn refused<P>(kind: Kind, refusal: Refusal) -> Report<P>
    ensures { result ≡ quiet kind (Outcome.Refused refusal) }
{
    report(kind, Outcome::Refused(refusal))
}

/// The report of a step of the collector, with the nodes that it destroyed.
fn collection<P>(collector_report: crossbeam_epoch::Report, outcome: Outcome<P>) -> Report<P>
    ensures { result ≡ collection collector_report outcome }
{
    match collector_report.called {
        None => report(Kind::Collection, outcome),
        Some((_, None)) => report(Kind::Collection, outcome),
        Some((_, Some(_))) => Report {
            destroyed: 1,
            ..report(Kind::Collection, outcome)
        },
    }
}

/// How a call stands after a step that makes its places free: it goes on, or is refused.
fn reserving<P>(outcome: crossbeam_epoch::Outcome) -> Outcome<P>
    ensures { result ≡ reserving outcome }
{
    match outcome {
        crossbeam_epoch::Outcome::Done => Outcome::Running,
        outcome => Outcome::of_collector(outcome),
    }
}

/// Whether a call's steps are the tree's or the collector's.
fn kind_of<P>(target: &Target<P>) -> Kind
    ensures { result ≡ kind_of target.now }
{
    match target {
        Target::Collector(_) => Kind::Collection,
        Target::Tree(_) => Kind::Tree,
        Target::Survey(_) => Kind::Tree,
    }
}

/// Why a call isn't begun in mid-call.
fn interruption<P>(target: &Target<P>) -> Fault
    ensures { result ≡ interruption target.now }
{
    match target {
        Target::Collector(crossbeam_epoch::Op::Pin) => Fault::Busy,
        Target::Collector(crossbeam_epoch::Op::Secure(_)) => Fault::Busy,
        Target::Collector(_) => Fault::InCall,
        Target::Tree(_) => Fault::Busy,
        Target::Survey(_) => Fault::Busy,
    }
}

/// What a call on the tree does first.
#[derive(Clone, Copy, Drop)]
enum Way {
    /// It is a scan that can find nothing, and ends.
    None,
    /// It may hand nodes over, and reserves its place in a journal.
    Reserve,
    /// It reads, and walks at once.
    Walk,
}

/// What a call on the tree does first.
fn way_of<P>(op: &congee::Op<P>) -> Way
    ensures none { result ≡ Way.None → finds_none op.now ≡ true }
    ensures reserve { result ≡ Way.Reserve → writes op.now ≡ true }
    ensures walk { result ≡ Way.Walk → (finds_none op.now ≡ false) × (writes op.now ≡ false) }
{
    match op {
        congee::Op::Get(_) => Way::Walk,
        congee::Op::Range(start, end, size) if *start >= *end || *size == 0 => Way::None,
        congee::Op::Range(_, _, _) => Way::Walk,
        congee::Op::RangeInclusive(start, last, size) if *start > *last || *size == 0 => Way::None,
        congee::Op::RangeInclusive(_, _, _) => Way::Walk,
        // An insertion, a removal, a compute or an exchange.
        _ => Way::Reserve,
    }
}
