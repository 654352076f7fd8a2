//! Steps, runs of steps, and whole calls.

ghost use Rattle.std.specs.Prelude.{◌≡◌, ◌≢◌, ◌⊎◌, true, ◌<◌, ◌≤◌, ℕ, List, ◌∷◌, length, min, take as first_of, drop as behind, vec_len, vec_capacity, None, Some, ◌+◌, ◌-◌};
ghost use Rattle.crossbeam_epoch.specs.world.Machine.{place};
ghost use Rattle.crossbeam_epoch.specs.world.Steps.{after, busy_fault, marks, IsReport, state_after, AreReports, history_after};
ghost use Rattle.crossbeam_epoch.specs.declared.world.report.Report.{Report};
ghost use Rattle.crossbeam_epoch.specs.world.Calls.{IsCall, IsWholeCall, Extends};
ghost use Rattle.crossbeam_epoch.specs.world.Fits.{Fits};
ghost use Rattle.crossbeam_epoch.specs.world.History.{Mark};
ghost use Rattle.crossbeam_epoch.specs.world.Progress.{Orderly, IsOn, steps_left};
ghost use Rattle.crossbeam_epoch.specs.world.WaitFree.{most_steps, steps_in_flight, AllEndInTime, IsOver};
ghost use Rattle.crossbeam_epoch.specs.world.Log.{LogLine, Stepped, log_after, Shows};
ghost use Rattle.crossbeam_epoch.specs.world.Reach.{Moment, step_act, moments_after, HasMoments, NextMoment};

use crate::fault::Fault;
use crate::names::{Links, Pointable};
use crate::task::Task;
use crate::world::World;
use crate::world::participant::Phase;
use crate::world::report::{Event, Op, Outcome, Ran, Report, Step};
use std::alloc::Global;

/// The most steps of a call, beside one for each place of the table.
const MOST: usize = 527;

impl<T: Links + Pointable + Drop, J: Task> World<T, J> {
    /// One atomic step.
    pub fn step(&mut self, who: usize, event: Event) -> Report
        ensures report { IsReport self.old who event result }
        ensures state { self.new ≡ after self.old who event result.outcome }
        ensures told { NextMoment T.names (step_act self.old who event result) self.old self.new }
        ensures shown { (log : List LogLine) (h : List Mark) → Shows log h self.old → Shows (Stepped (record { who = who; event = event }) result ∷ log) (marks self.old who event result h) self.new }
    {
        if !self.is_registered(who) {
            return refused(Fault::Unknown);
        }
        let phase = self.phase_of(who);
        match event {
            Event::Begin(op) => match phase {
                Phase::Idle => silent(self.begin(who, op)),
                _ => refused(busy_fault(op)),
            },
            Event::Go => self.go(who, phase),
        }
    }

    /// As many of these steps as the list of reports has room for, one after another; their reports come behind those that
    /// stand there. It asks for no memory, and answers how many steps those are.
    pub fn run_into(&mut self, steps: &[Step], reports: &mut Vec<Report>) -> usize
        ensures done { result ≡ min (length steps.now) (vec_capacity reports.old - vec_len reports.old) }
        ensures before { first_of (length reports.old.items) reports.new.items ≡ reports.old.items }
        ensures count { length reports.new.items ≡ length reports.old.items + result }
        ensures capacity { vec_capacity reports.new ≡ vec_capacity reports.old }
        ensures legal { AreReports self.old (first_of result steps.now) (behind (length reports.old.items) reports.new.items) }
        ensures state { self.new ≡ state_after self.old (first_of result steps.now) (behind (length reports.old.items) reports.new.items) }
        ensures kept { (h : List Mark) → Fits h self.old → Fits (history_after self.old (first_of result steps.now) (behind (length reports.old.items) reports.new.items) h) self.new }
        ensures told { (h : List Moment) → HasMoments T.names h self.old → HasMoments T.names (moments_after T.names self.old (first_of result steps.now) (behind (length reports.old.items) reports.new.items) h) self.new }
        ensures shown { (log : List LogLine) (h : List Mark) → Shows log h self.old → Shows (log_after (first_of result steps.now) (behind (length reports.old.items) reports.new.items) log) (history_after self.old (first_of result steps.now) (behind (length reports.old.items) reports.new.items) h) self.new }
        ensures ends { Orderly self.old → AllEndInTime (length self.old.table) (first_of result steps.now) (behind (length reports.old.items) reports.new.items) }
        ensures ends_on { (who : ℕ) (op : Op) → Orderly self.old → IsOn op (place self.old who) → steps_in_flight who (first_of result steps.now) (behind (length reports.old.items) reports.new.items) < steps_left self.old who }
    {
        let before = reports.len();
        for step in steps {
            if reports.len() >= reports.capacity() {
                break;
            }
            let report = self.step(step.who, step.event);
            reports.push_reserved(report);
        }
        reports.len() - before
    }

    /// These steps, one after another: all of them, or none where there is no memory for their reports.
    pub fn run(&mut self, alloc: Global, steps: &[Step]) -> Ran
        ensures done { (result.done ≡ length steps.now) ⊎ (result.done ≡ 0) }
        ensures full { result.done ≡ min (length steps.now) (vec_capacity result.reports) }
        ensures reports { vec_len result.reports ≡ result.done }
        ensures legal { AreReports self.old (first_of result.done steps.now) result.reports.items }
        ensures state { self.new ≡ state_after self.old (first_of result.done steps.now) result.reports.items }
        ensures kept { (h : List Mark) → Fits h self.old → Fits (history_after self.old (first_of result.done steps.now) result.reports.items h) self.new }
        ensures told { (h : List Moment) → HasMoments T.names h self.old → HasMoments T.names (moments_after T.names self.old (first_of result.done steps.now) result.reports.items h) self.new }
        ensures shown { (log : List LogLine) (h : List Mark) → Shows log h self.old → Shows (log_after (first_of result.done steps.now) result.reports.items log) (history_after self.old (first_of result.done steps.now) result.reports.items h) self.new }
        ensures ends { Orderly self.old → AllEndInTime (length self.old.table) (first_of result.done steps.now) result.reports.items }
        ensures ends_on { (who : ℕ) (op : Op) → Orderly self.old → IsOn op (place self.old who) → steps_in_flight who (first_of result.done steps.now) result.reports.items < steps_left self.old who }
    {
        let mut reports = Vec::new(alloc);
        let _ = reports.reserve(steps.len());
        let done = self.run_into(steps, &mut reports);
        Ran { reports, done }
    }

    /// A whole call, at most so many steps of it; answers its last report, none where `most` is 0.
    pub fn call(&mut self, who: usize, op: Op, most: usize) -> Option<Report>
        ensures call { (reports : List Report) × IsCall self.old who op most reports result self.new × Extends T.names self.old who op reports self.new }
        ensures ends { Orderly self.old → most_steps (length self.old.table) op ≤ most → IsOver result }
    {
        let mut newest = None;
        let mut event = Event::Begin(op);
        for _ in 0..most {
            let report = self.step(who, event);
            match report.outcome {
                Outcome::Running => {}
                _ => return Some(report),
            }
            newest = Some(report);
            event = Event::Go;
        }
        newest
    }

    /// A whole flush: the bag is sealed and queued, and a collection follows.
    pub fn flush(&mut self, who: usize) -> Outcome
        ensures call { IsWholeCall T.names self.old who Op.Flush result self.new }
        ensures ends { Orderly self.old → result ≢ Outcome.Running }
    {
        self.whole(who, Op::Flush)
    }

    /// A whole repin: a lone guard is pinned anew at the present epoch.
    pub fn repin(&mut self, who: usize) -> Outcome
        ensures call { IsWholeCall T.names self.old who Op.Repin result self.new }
        ensures ends { Orderly self.old → result ≢ Outcome.Running }
    {
        self.whole(who, Op::Repin)
    }

    /// A whole leave: the bag is sealed and queued, and the place is free.
    pub fn release(&mut self, who: usize) -> Outcome
        ensures call { IsWholeCall T.names self.old who Op.Release result self.new }
        ensures ends { Orderly self.old → result ≢ Outcome.Running }
    {
        self.whole(who, Op::Release)
    }

    /// A whole call; answers how it stands after its last step.
    fn whole(&mut self, who: usize, op: Op) -> Outcome
        ensures call { IsWholeCall T.names self.old who op result self.new }
        ensures ends { Orderly self.old → result ≢ Outcome.Running }
    {
        let most = self.participants.len() + MOST;
        match self.call(who, op, most) {
            Some(report) => report.outcome,
            None => Outcome::Running,
        }
    }

    /// Where a participant's call stands.
    fn phase_of(&self, who: usize) -> Phase
        requires in_table { who < length self.now.table }
        ensures { result ≡ (place self.now who).phase }
    {
        self.participants[who].phase
    }

    /// One step of the call in flight.
    fn go(&mut self, who: usize, phase: Phase) -> Report
        requires in_table { who < length self.old.table }
        requires registered { (place self.old who).registered ≡ true }
        requires phase { (place self.old who).phase ≡ phase }
        ensures step { IsReport self.old who Event.Go result × (self.new ≡ after self.old who Event.Go result.outcome) }
    {
        let epoch = self.epoch;
        match phase {
            Phase::Idle => refused(Fault::Idle),
            Phase::Look => silent(self.look(who, Phase::Publish(epoch))),
            Phase::Publish(seen) => silent(self.publish(who, seen)),
            Phase::RepinLook => silent(self.look_again(who)),
            Phase::RepinPublish(seen) => silent(self.publish_again(who, seen)),
            Phase::Seal => silent(self.look(who, Phase::Queue(epoch))),
            Phase::Queue(seal) => silent(self.queue(who, seal, Phase::Load)),
            Phase::ReleaseSeal => silent(self.look(who, Phase::ReleaseQueue(epoch))),
            Phase::ReleaseQueue(seal) => silent(self.leave(who, seal)),
            Phase::Secure(n) => silent(self.secure(who, n)),
            Phase::SecureSeal => silent(self.look(who, Phase::SecureQueue(epoch))),
            Phase::SecureQueue(seal) => silent(self.queue(who, seal, Phase::Idle)),
            Phase::Load => silent(self.look(who, Phase::Inspect(epoch, 0))),
            Phase::Inspect(seen, place) => silent(self.inspect(who, seen, place)),
            Phase::Advance(seen) => silent(self.advance(who, seen)),
            Phase::Take(answered, bags) => silent(self.take(who, answered, bags)),
            Phase::Call(answered, bags, seal) => self.call_next(who, answered, bags, seal),
        }
    }
}

/// The refusal of a call that begins in mid-call.
fn busy_fault(op: Op) -> Fault
    ensures { result ≡ busy_fault op }
{
    match op {
        Op::Pin | Op::Secure(_) => Fault::Busy,
        Op::Unpin | Op::Repin | Op::Flush | Op::Release => Fault::InCall,
    }
}

/// The report of a step that calls no job.
fn silent(outcome: Outcome) -> Report
    ensures { result ≡ record { called = None; outcome = outcome } }
{
    Report {
        called: None,
        outcome,
    }
}

/// The report of a step that is refused.
fn refused(fault: Fault) -> Report
    ensures { result ≡ record { called = None; outcome = Outcome.Refused fault } }
{
    silent(Outcome::Refused(fault))
}
