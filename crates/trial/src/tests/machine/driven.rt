//! A whole call by turns that a test gives: what no clause says, that its values come through.
ghost use Rattle.std.specs.Prelude.{◌≡◌, Some};
ghost use Rattle.std.specs.Option.{option_map};
ghost use Rattle.joint.specs.threads.Driving.{IsToldInCall};

use crate::tests::asserts::assert_same;
use joint::{Done, Event, Kind, Op, Outcome, Report, Step, Turns, drive};
use std::snapshot::Snapshot;
use std::test::Fail;

/// Turns of a call that asks once, finds one pair, and ends; it keeps the answer that it was given.
#[derive(Drop)]
struct Told {
    worker: u32,
    op: Snapshot<Op<u64>>,
    turns: u32,
    answer: Option<Option<u64>>,
    last: Option<Snapshot<Report<u64>>>,
}

/// What each turn tells.
fn outcome(turn: u32) -> Outcome<u64>
    ensures { IsToldInCall result }
{
    match turn {
        0 => Outcome::Running,
        1 => Outcome::Asks(Some(5)),
        2 => Outcome::Found {
            place: 1,
            key: 3,
            value: 4,
        },
        _ => Outcome::Done(Done::Scanned(2)),
    }
}

impl Turns<u64> for Told {
    ghost worker = { λ t. t.worker };

    ghost op = { λ t. t.op.value };

    ghost last = { λ t. option_map (λ r. r.value) t.last };

    ghost gives = { λ t step r t'. Unit {0} };

    fn turn(&mut self, step: Step<u64>) -> Report<u64>
        ensures worker { self.new.worker ≡ self.old.worker }
        ensures op { self.new.op ≡ self.old.op }
        ensures last { option_map (λ r. r.value) self.new.last ≡ Some result }
        ensures gives { Unit {0} }
        ensures told { IsToldInCall result.outcome }
    {
        if let Event::Go(noise) = step.event {
            if noise.answer.is_some() {
                self.answer = noise.answer;
            }
        }
        let report = Report {
            kind: Kind::Tree,
            decided: false,
            kept: false,
            skipped: false,
            destroyed: 0,
            outcome: outcome(self.turns),
        };
        self.turns = self.turns.saturating_add(1);
        self.last = Some(Snapshot::of(&report));
        report
    }
}

fn doubled(value: Option<u64>) -> Option<u64> {
    match value {
        Some(number) => Some(number.wrapping_mul(2)),
        None => None,
    }
}

#[test]
fn a_call_is_driven_to_its_end(rt: HostRuntime) -> Result<(), Fail> {
    let op = Op::ComputePresent(3);
    let mut turns = Told {
        worker: 7,
        op: Snapshot::of(&op),
        turns: 0,
        answer: None,
        last: None,
    };
    let mut found = [(0, 0), (0, 0)];
    let double = |value: Option<u64>| doubled(value);
    let done = drive(&rt, &mut turns, 7, op, double, &mut found);
    assert_same(&rt, done, Ok(Done::Scanned(2)));
    assert_same(&rt, turns.answer, Some(Some(10)));
    assert_same(&rt, turns.turns, 4);
    assert_same(&rt, found, [(0, 0), (3, 4)]);
    Ok(())
}
