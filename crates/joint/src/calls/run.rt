//! Any list of steps.

ghost use Rattle.std.specs.Prelude.{◌≡◌, ◌+◌, ◌-◌, ◌<◌, ◌≤◌, min, ℕ, List, length, take, vec_capacity};
ghost use Rattle.std.specs.FinMap.{empty};
ghost use Rattle.std.specs.Vec.{vec_len};
ghost use Rattle.judge.specs.Answer.{Pairs};
ghost use Rattle.congee.specs.Keys.{IsMapOf};
ghost use Rattle.congee.specs.protocol.PlainSteps.{Plain};
ghost use Rattle.joint.specs.calls.Alone.{AllEndAlone};
ghost use Rattle.joint.specs.nodes.Nodes.{IsBeside, nodes};
ghost use Rattle.joint.specs.engine.Census.{waiting_nodes};
ghost use Rattle.joint.specs.declared.limits.Limits.{Limits as Bounds};
ghost use Rattle.joint.specs.calls.Plain.{Agree, AreUnrefused, FollowsRun};
ghost use Rattle.joint.specs.calls.Promises.{KeepsPromises};
ghost use Rattle.joint.specs.world.World.{IsNew};
ghost use Rattle.joint.specs.calls.Rounds.{IsQuiet, Round, AreRounds, steps_in, bags_left, rounds_wanted, CameBack};
ghost use Rattle.joint.specs.calls.RunInto.{IsRunInto};
ghost use Rattle.joint.specs.calls.Runs.{IsRun, RunsJournal, RunsMap, AllSpare};
ghost use Rattle.joint.specs.engine.Engine.{IsFresh};
ghost use Rattle.joint.specs.engine.Flying.{Flights, AreInFlight, no_flights};
ghost use Rattle.joint.specs.calls.Scans.{ScansHold, EmptyScansHold};

use crate::calls::laws::{comes_back, runs_alone, runs_plain, runs_spare};
use crate::calls::promises::keeps_promises;
use crate::steps::{Ran, Report, Step};
use crate::world::World;
use congee::{Allocator, Payload, Small};
use std::alloc::Global;
use std::vec::Vec;

impl<P: Payload + Small, A: Allocator> World<P, A> {
    /// These steps, one after another; none of them where there is no memory for their reports. From the opening on, `promises`
    /// says in one place all that is promised of a run.
    pub fn run(&mut self, alloc: Global, steps: Vec<Step<P>>) -> Ran<P>
        ensures done { result.done ≡ vec_len result.reports }
        ensures full { result.done < length steps.items → vec_capacity result.reports ≤ vec_len result.reports }
        ensures whole { result.done < length steps.items → result.done ≡ 0 }
        ensures run { IsRun P.same_as P.always_copies self.old (take result.done steps.items) result.reports.items self.new }
        ensures map { (fs : Flights P) (m : Pairs P) → IsMapOf (nodes self.old.forest) m → AreInFlight self.old fs → RunsMap P.same_as fs m (take result.done steps.items) result.reports.items self.new }
        ensures fresh { IsFresh self.old → RunsMap P.same_as no_flights empty (take result.done steps.items) result.reports.items self.new }
        ensures scans { (fs : Flights P) (m : Pairs P) (r : RunsMap P.same_as fs m (take result.done steps.items) result.reports.items self.new) → ScansHold r.lines × EmptyScansHold r.lines }
        ensures journal { (fs : Flights P) (m : Pairs P) → IsMapOf (nodes self.old.forest) m → AreInFlight self.old fs → RunsJournal P.same_as fs m self.old (take result.done steps.items) result.reports.items self.new }
        ensures fresh_journal { IsFresh self.old → RunsJournal P.same_as no_flights empty self.old (take result.done steps.items) result.reports.items self.new }
        ensures beside { IsBeside self.old.forest self.new.forest }
        ensures spares { (run : IsRun P.same_as P.always_copies self.old (take result.done steps.items) result.reports.items self.new) → AllSpare self.old run.taken }
        ensures comes_back { (run : IsRun P.same_as P.always_copies self.old (take result.done steps.items) result.reports.items self.new) (who : ℕ) (rounds : List (Round P)) → IsQuiet self.old → AreRounds who rounds → run.taken ≡ steps_in rounds → rounds_wanted (bags_left self.old rounds) ≤ length rounds → CameBack self.new who }
        ensures all_come_back { (run : IsRun P.same_as P.always_copies self.old (take result.done steps.items) result.reports.items self.new) (who : ℕ) (rounds : List (Round P)) → IsQuiet self.old → AreRounds who rounds → run.taken ≡ steps_in rounds → rounds_wanted (length (waiting_nodes self.old)) ≤ length rounds → CameBack self.new who }
        ensures alone { (run : IsRun P.same_as P.always_copies self.old (take result.done steps.items) result.reports.items self.new) → AllEndAlone self.old run.taken }
        ensures plain { (order : List ℕ) (p : Plain P) → AreUnrefused result.reports.items → Agree self.old order p → FollowsRun P.same_as self.old.forest.version_max (take result.done steps.items) result.reports.items self.new order p }
        ensures promises { (limits : Bounds) → IsNew limits self.old → KeepsPromises P.same_as P.always_copies limits (take result.done steps.items) result.reports.items self.new }
    {
        keeps_promises::<P, A>();
        runs_spare::<P, A>();
        comes_back::<P>();
        runs_alone::<P, A>();
        runs_plain::<P, A>();
        self.sound();
        self.take_all(alloc, steps)
    }

    /// These steps, one after another, as many as the list has room for, each with its report behind those in the list; it
    /// answers how many. It takes no memory, and stops nowhere else; the steps that are left are dropped.
    pub fn run_into(&mut self, steps: Vec<Step<P>>, reports: &mut Vec<Report<P>>) -> usize
        ensures done { result ≡ min (length steps.items) (vec_capacity reports.old - vec_len reports.old) }
        ensures len { vec_len reports.new ≡ vec_len reports.old + result }
        ensures room { vec_capacity reports.new ≡ vec_capacity reports.old }
        ensures run { IsRunInto P.same_as P.always_copies self.old (take result steps.items) reports.old.items reports.new.items self.new }
    {
        let before = reports.len();
        let mut rest = steps.into_iter();
        while let Some(step) = rest.next() {
            if reports.len() == reports.capacity() {
                break;
            }
            let report = self.step(step);
            reports.push_reserved(report);
        }
        reports.len() - before
    }

    /// Takes the steps one after another, once there is memory for their reports.
    fn take_all(&mut self, alloc: Global, steps: Vec<Step<P>>) -> Ran<P>
        ensures done { result.done ≡ vec_len result.reports }
        ensures full { result.done < length steps.items → vec_capacity result.reports ≤ vec_len result.reports }
        ensures whole { result.done < length steps.items → result.done ≡ 0 }
        ensures run { IsRun P.same_as P.always_copies self.old (take result.done steps.items) result.reports.items self.new }
    {
        let mut reports = Vec::new(alloc);
        // A refusal leaves the list without room.
        let _ = reports.reserve(steps.len());
        let done = self.run_into(steps, &mut reports);
        Ran { reports, done }
    }
}
