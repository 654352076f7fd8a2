//! Whole calls.

ghost use Rattle.std.specs.Prelude.{◌≡◌, ◌<◌, ℕ, List, true, false, slice_set};
ghost use Rattle.judge.specs.Answer.{Pairs};
ghost use Rattle.congee.specs.Keys.{IsMapOf};
ghost use Rattle.joint.specs.calls.Alone.{CallEndsAlone};
ghost use Rattle.joint.specs.calls.Calling.{FillsPlaces, IsCalled, TellsMap, kept_report, next_step, put, put_away};
ghost use Rattle.joint.specs.Reports.{goes_unasked};
ghost use Rattle.joint.specs.declared.steps.Event.TheVariants.{Go};
ghost use Rattle.joint.specs.declared.steps.Outcome.TheVariants.{Running};
ghost use Rattle.joint.specs.nodes.Nodes.{IsBeside, nodes};
ghost use Rattle.joint.specs.calls.MapCalls.{AnswersKey, CallPlays};
ghost use Rattle.joint.specs.engine.Flying.{AreInFlight, Flights};

use crate::calls::laws::runs_alone;
use crate::id::Id;
use crate::steps::{Op, Outcome, Report};
use crate::world::World;
use congee::{Allocator, Noise, Payload, Small};
use std::mem;

impl<P: Payload + Small, A: Allocator> World<P, A> {
    /// A whole call of a worker's, at most so many steps of it; answers its last report, none where `most` is 0. It stops
    /// where a closure's answer is wanted. An unfinished call stays in flight. Each pair that a scan finds is written to
    /// its place of `found`, which has the scan's `size` places, and is told as `Running`; at the end the first ones, as
    /// many as were found, hold the scan's pairs.
    pub fn call(
        &mut self,
        who: u32,
        op: Op<P>,
        most: usize,
        found: &mut [(u64, P)],
    ) -> Option<Report<P>>
        ensures called { IsCalled P.same_as P.always_copies self.old who op most found.old result found.new self.new }
        ensures scan { (fs : Flights P) (m : Pairs P) → IsMapOf (nodes self.old.forest) m → AreInFlight self.old fs → FillsPlaces m op result found.new }
        ensures beside { IsBeside self.old.forest self.new.forest }
        ensures map { (fs : Flights P) (m : Pairs P) → IsMapOf (nodes self.old.forest) m → AreInFlight self.old fs → CallPlays P.same_as fs m who op result self.new }
        ensures answers { (fs : Flights P) (m : Pairs P) → IsMapOf (nodes self.old.forest) m → AreInFlight self.old fs → AnswersKey P.same_as fs m op result self.new }
        ensures survey { (fs : Flights P) (m : Pairs P) → IsMapOf (nodes self.old.forest) m → AreInFlight self.old fs → TellsMap m op result }
        ensures alone { CallEndsAlone self.old who op most result }
    {
        runs_alone::<P, A>();
        self.sound();
        self.take_steps(who, op, most, found)
    }

    /// The steps of a whole call, at most `most` of them; answers the last report.
    fn take_steps(
        &mut self,
        who: u32,
        op: Op<P>,
        most: usize,
        found: &mut [(u64, P)],
    ) -> Option<Report<P>>
        ensures { IsCalled P.same_as P.always_copies self.old who op most found.old result found.new self.new }
    {
        if most == 0 {
            return None;
        }
        let mut left = most - 1;
        let mut report = self.begin(who, op);
        put_found(&mut report, found);
        if is_last(left, &report.outcome) {
            return Some(report);
        }
        while left > 0 {
            let mut report = self.go(who, quiet_noise());
            put_found(&mut report, found);
            left -= 1;
            if is_last(left, &report.outcome) {
                return Some(report);
            }
            drop(report);
        }
        unreachable!()
    }
}

/// Writes a pair to its place, if there is that place.
pub(crate) fn put_at<Q: Drop>(found: &mut [Q], place: usize, pair: Q)
    ensures { found.new ≡ slice_set found.old place pair }
{
    if place < found.len() {
        found[place] = pair;
    }
}

/// Writes a pair that was found to its place.
fn put<P: Drop>(outcome: Outcome<P>, found: &mut [(u64, P)])
    ensures { found.new ≡ put outcome found.old }
{
    match outcome {
        Outcome::Found { place, key, value } => put_at(found, place, (key, value)),
        other => drop(other),
    }
}

/// Writes the pair of a report to its place.
#[inline(always)]
fn put_found<P: Drop>(report: &mut Report<P>, found: &mut [(u64, P)])
    ensures found { found.new ≡ put report.old.outcome found.old }
    ensures report { report.new ≡ kept_report report.old }
{
    if is_found(&report.outcome) {
        put(mem::replace(&mut report.outcome, Outcome::Running), found);
    }
}

/// Whether a pair was found.
fn is_found<P>(outcome: &Outcome<P>) -> bool
    ensures found { result ≡ false → (places : List (ℕ × P)) → put outcome.now places ≡ places }
    ensures other { result ≡ false → put_away outcome.now ≡ outcome.now }
    ensures running { result ≡ true → put_away outcome.now ≡ Running }
{
    match outcome {
        Outcome::Running => false,
        Outcome::Asks(_) => false,
        Outcome::Found { .. } => true,
        Outcome::Registered(_) => false,
        Outcome::Done(_) => false,
        Outcome::Refused(_) => false,
    }
}

/// Whether a report is the last one of a call with so many steps left.
#[inline(always)]
fn is_last<P>(left: usize, outcome: &Outcome<P>) -> bool
    ensures stops { result ≡ true → 0 < left → goes_unasked outcome.now ≡ false }
    ensures goes { result ≡ false → goes_unasked outcome.now ≡ true }
    ensures more { result ≡ false → 0 < left }
{
    left == 0 || !goes_unasked(outcome)
}

/// Whether a call takes its next step with nothing from outside.
fn goes_unasked<P>(outcome: &Outcome<P>) -> bool
    ensures { result ≡ goes_unasked outcome.now }
{
    match outcome {
        Outcome::Running => true,
        Outcome::Asks(_) => false,
        Outcome::Found { .. } => true,
        Outcome::Registered(_) => false,
        Outcome::Done(_) => false,
        Outcome::Refused(_) => false,
    }
}

/// Nothing from outside.
fn quiet_noise<P>() -> Noise<Id, P>
    ensures { (who : ℕ) → record { worker = who; event = Go result } ≡ next_step who }
{
    Noise {
        fail: false,
        seen: None,
        answer: None,
    }
}
