//! Whole calls on one key, as what they reply, and whole scans, as what they find.

ghost use Rattle.std.specs.Prelude.{◌≡◌, ℕ, suc, IsSome, length};
ghost use Rattle.std.specs.FinMap.{empty};
ghost use Rattle.judge.specs.Answer.{Pairs};
ghost use Rattle.congee.specs.Heap.{Node};
ghost use Rattle.congee.specs.Keys.{IsMapOf};
ghost use Rattle.joint.specs.nodes.Nodes.{IsBeside};
ghost use Rattle.joint.specs.calls.MapCalls.{asked_of};
ghost use Rattle.joint.specs.engine.Engine.{IsFresh, World as State};
ghost use Rattle.joint.specs.engine.Flying.{AreInFlight, Flights};
ghost use Rattle.joint.specs.engine.Standing.{pairs_of, the_pairs};
ghost use Rattle.joint.specs.calls.Scanned.{IsScanned, ScansAs, scanned_of};
ghost use Rattle.joint.specs.calls.Standing.{AnswersAs, IsReplied};
ghost use Rattle.joint.specs.declared.steps.Op.TheVariants as op;

use crate::steps::{Op, Report};
use crate::world::World;
use congee::{Allocator, Payload, Small};
use judge::Reply;

/// The pairs that stand are a value, `pairs_of` of the machine, and no other map stands. In a fresh index it is empty.
pub fn pairs_stand<P: Payload + Small>()
    ensures stands { (h : ℕ → Node P) → IsMapOf h (the_pairs h) }
    ensures alone { (h : ℕ → Node P) (m : Pairs P) → IsMapOf h m → m ≡ the_pairs h }
    ensures fresh { (s : State P) → IsFresh s → pairs_of s ≡ empty }
{}

impl<P: Payload + Small, A: Allocator> World<P, A> {
    /// The reply of a whole call on one key, at most so many steps of it, for a user who wants no report. `None` where it was
    /// refused, ran out of steps, or asks its closure, and of a call that isn't on one key: `call` tells which it was. An
    /// unfinished call stays in flight.
    pub fn reply(&mut self, who: u32, op: Op<P>, most: usize) -> Option<Reply<P>>
        ensures answers { AnswersAs P.same_as result (asked_of op) (pairs_of self.old) (pairs_of self.new) }
        ensures called { IsReplied P.same_as P.always_copies self.old who op most result self.new }
        ensures flights { (fs : Flights P) → AreInFlight self.old fs → IsSome result → AreInFlight self.new fs }
        ensures beside { IsBeside self.old.forest self.new.forest }
    {
        self.sound();
        let mut places: [(u64, P); 0] = [];
        let report = self.call(who, op, most, &mut places)?;
        report.reply()
    }

    /// The pairs with start <= key <= last, ascending, as many as there are places: a whole scan, of at most so many steps, for
    /// a user who wants no report. It answers how many of the places it filled, the first ones. `None` where it was refused
    /// or ran out of steps: `call` tells which it was. An unfinished scan stays in flight.
    pub fn scan(
        &mut self,
        who: u32,
        start: u64,
        last: u64,
        most: usize,
        places: &mut [(u64, P)],
    ) -> Option<usize>
        ensures finds { ScansAs start (suc last) (pairs_of self.old) result places.new }
        ensures pairs { pairs_of self.new ≡ pairs_of self.old }
        ensures called { IsScanned P.same_as P.always_copies self.old who (op.RangeInclusive start last (length places.old)) most places.old result places.new self.new }
        ensures flights { (fs : Flights P) → AreInFlight self.old fs → IsSome result → AreInFlight self.new fs }
        ensures beside { IsBeside self.old.forest self.new.forest }
    {
        self.sound();
        let op = Op::RangeInclusive(start, last, places.len());
        scanned(self.call(who, op, most, places))
    }
}

/// How many of its places a scan has filled, if a report tells it.
fn scanned<P: Drop>(told: Option<Report<P>>) -> Option<usize>
    ensures { result ≡ scanned_of told }
{
    match told {
        Some(report) => report.scanned(),
        None => None,
    }
}
