//! Indexes that keep a journal: turns of two workers by rows, with what is told of each and what is in flight then, and the entries
//! that were written down.

use crate::tests::asserts::assert_same;
use crate::tests::machine::told::{Standing, Told, takes};
use crate::tests::machine::{Index, beginning, discard, entry, going, is_done, journaled, noise};
use joint::{Op, Refusal};
use judge::{Call, Reply, Verdict, check};
use std::alloc::Global;
use std::process::Abort;
use std::test::Fail;

/// What a worker does.
#[derive(Clone, Copy)]
enum Turn {
    /// It makes a whole call.
    Call(Op<u64>),
    Begin(Op<u64>),
    /// One step of its call, whose exchange may fail, with what the closure answers.
    Go(bool, Option<Option<u64>>),
    /// The steps of its call to the first that doesn't just go on, of a hundred.
    GoOn,
}

/// The worker, its turn, how its call stands then, and whether the turn's last step tells that the journal keeps the call; and the
/// call of worker 0 that is in flight then, with its closure's answer.
type Row = (
    u32,
    Turn,
    Standing,
    bool,
    Option<(Op<u64>, Option<Option<u64>>)>,
);

/// It is refused, for want of a place.
const FULL: Standing = Standing::Refused(Refusal::JournalFull);

/// One place: a writing call is refused then, and a look-up isn't kept.
const FILLED: [Row; 3] = [
    (
        0,
        Turn::Call(Op::Insert(1, 1)),
        Standing::Replied(Reply::Insert(None)),
        false,
        None,
    ),
    (0, Turn::Call(Op::Insert(2, 2)), FULL, false, None),
    (
        0,
        Turn::Call(Op::Get(1)),
        Standing::Replied(Reply::Get(Some(1))),
        false,
        None,
    ),
];

const PRESENT: Op<u64> = Op::ComputePresent(1);

/// Two places, the second of which is reserved: it is kept from a look-up, and comes free.
const RESERVED: [Row; 7] = [
    (
        0,
        Turn::Call(Op::Insert(1, 1)),
        Standing::Replied(Reply::Insert(None)),
        false,
        None,
    ),
    (
        0,
        Turn::Begin(PRESENT),
        Standing::Running,
        false,
        Some((PRESENT, None)),
    ),
    (
        0,
        Turn::Go(false, None),
        Standing::Running,
        false,
        Some((PRESENT, None)),
    ),
    (
        1,
        Turn::Call(Op::Get(1)),
        Standing::Replied(Reply::Get(Some(1))),
        false,
        Some((PRESENT, None)),
    ),
    (
        0,
        Turn::GoOn,
        Standing::Asks(Some(1)),
        false,
        Some((PRESENT, None)),
    ),
    (
        0,
        Turn::Go(false, Some(None)),
        Standing::Running,
        false,
        Some((PRESENT, Some(None))),
    ),
    (
        0,
        Turn::GoOn,
        Standing::Replied(Reply::ComputePresent(Some((1, None)))),
        false,
        None,
    ),
];

/// A closure that is asked again, since the leaf wasn't locked, is written down with its last answer.
const ASKED_AGAIN: [Row; 9] = [
    (
        0,
        Turn::Call(Op::Insert(1, 42)),
        Standing::Replied(Reply::Insert(None)),
        false,
        None,
    ),
    (
        0,
        Turn::Begin(PRESENT),
        Standing::Running,
        false,
        Some((PRESENT, None)),
    ),
    (
        0,
        Turn::GoOn,
        Standing::Asks(Some(42)),
        false,
        Some((PRESENT, None)),
    ),
    (
        0,
        Turn::Go(false, Some(Some(5))),
        Standing::Running,
        false,
        Some((PRESENT, Some(Some(5)))),
    ),
    (
        0,
        Turn::Go(true, None),
        Standing::Running,
        false,
        Some((PRESENT, Some(Some(5)))),
    ),
    (
        0,
        Turn::GoOn,
        Standing::Asks(Some(42)),
        false,
        Some((PRESENT, Some(Some(5)))),
    ),
    (
        0,
        Turn::Go(false, Some(Some(6))),
        Standing::Running,
        false,
        Some((PRESENT, Some(Some(6)))),
    ),
    (
        0,
        Turn::GoOn,
        Standing::Replied(Reply::ComputePresent(Some((42, Some(6))))),
        false,
        None,
    ),
    (
        0,
        Turn::Call(Op::Get(1)),
        Standing::Replied(Reply::Get(Some(6))),
        true,
        None,
    ),
];

const ABSENT: Op<u64> = Op::ComputeInsert(5);

/// A closure is asked until it has an answer, which for an absent key is a value.
const ASKED_UNTIL: [Row; 6] = [
    (
        0,
        Turn::Begin(ABSENT),
        Standing::Running,
        false,
        Some((ABSENT, None)),
    ),
    (
        0,
        Turn::GoOn,
        Standing::Asks(None),
        false,
        Some((ABSENT, None)),
    ),
    (
        0,
        Turn::Go(false, None),
        Standing::Asks(None),
        false,
        Some((ABSENT, None)),
    ),
    (
        0,
        Turn::Go(false, Some(None)),
        Standing::Asks(None),
        false,
        Some((ABSENT, None)),
    ),
    (
        0,
        Turn::Go(false, Some(Some(6))),
        Standing::Running,
        false,
        Some((ABSENT, Some(Some(6)))),
    ),
    (
        0,
        Turn::GoOn,
        Standing::Replied(Reply::ComputeInsert(None)),
        false,
        None,
    ),
];

/// A look-up of what isn't there.
const MISSED: Standing = Standing::Replied(Reply::Get(None));

/// Three places, and a look-up in each.
const LOOKED_UP: [Row; 3] = [
    (0, Turn::Call(Op::Get(0)), MISSED, true, None),
    (0, Turn::Call(Op::Get(1)), MISSED, true, None),
    (0, Turn::Call(Op::Get(2)), MISSED, true, None),
];

/// What a journal has in the end.
type Written = (Call<u64>, Reply<u64>);

/// The places of each journal, what is done, and what is written down then.
const JOURNALS: [(u64, &[Row], &[Written]); 5] = [
    (
        9,
        &ASKED_UNTIL,
        &[(Call::ComputeInsert(5, 6), Reply::ComputeInsert(None))],
    ),
    (1, &FILLED, &[(Call::Insert(1, 1), Reply::Insert(None))]),
    (
        2,
        &RESERVED,
        &[
            (Call::Insert(1, 1), Reply::Insert(None)),
            (
                Call::ComputePresent(1, None),
                Reply::ComputePresent(Some((1, None))),
            ),
        ],
    ),
    (
        9,
        &ASKED_AGAIN,
        &[
            (Call::Insert(1, 42), Reply::Insert(None)),
            (
                Call::ComputePresent(1, Some(6)),
                Reply::ComputePresent(Some((42, Some(6)))),
            ),
            (Call::Get(1), Reply::Get(Some(6))),
        ],
    ),
    (
        3,
        &LOOKED_UP,
        &[
            (Call::Get(0), Reply::Get(None)),
            (Call::Get(1), Reply::Get(None)),
            (Call::Get(2), Reply::Get(None)),
        ],
    ),
];

/// The steps of a call of which one has told this, to the first that doesn't just go on.
fn go_on(index: &mut Index, worker: u32, first: Told) -> Told {
    let mut told = first;
    for _ in 0..100u32 {
        if told.standing != Standing::Running {
            break;
        }
        told = takes(index, going(worker, noise(false, None)));
    }
    told
}

fn take(index: &mut Index, worker: u32, turn: Turn) -> Told {
    let (op, fail, answer) = match turn {
        Turn::Call(op) | Turn::Begin(op) => (Some(op), false, None),
        Turn::Go(fail, answer) => (None, fail, answer),
        Turn::GoOn => (None, false, None),
    };
    let step = match op {
        Some(op) => beginning(worker, op),
        None => going(worker, noise(fail, answer)),
    };
    let told = takes(index, step);
    match turn {
        Turn::Call(_) | Turn::GoOn => go_on(index, worker, told),
        Turn::Begin(_) | Turn::Go(_, _) => told,
    }
}

/// Each turn tells what its row says. Worker 1 has no call in flight after any.
fn goes<R: Abort>(rt: &R, index: &mut Index, rows: &[Row]) {
    for (place, (worker, turn, stands, keeps, flight)) in rows.iter().enumerate() {
        let Told { standing, kept, .. } = take(index, *worker, *turn);
        let flights = (index.in_flight(0), index.in_flight(1));
        assert_same(
            rt,
            (place, standing, kept, flights),
            (place, *stands, *keeps, (*flight, None)),
        );
    }
}

/// The journal has these entries of worker 0, and is legal.
fn has_written<R: Abort>(rt: &R, alloc: Global, index: &Index, written: &[Written]) {
    let journal = index.journal();
    assert_same(rt, check(alloc, journal), Ok(Verdict::Legal));
    assert_same(rt, journal.len(), written.len());
    for (place, (call, reply)) in written.iter().enumerate() {
        let expected = Some(entry(*call, *reply));
        assert_same(rt, journal.get(place).copied(), expected);
    }
}

#[test]
fn what_takes_effect_is_written_down(rt: HostRuntime) -> Result<(), Fail> {
    for (places, rows, written) in JOURNALS {
        let mut index = journaled(rt.alloc(), 2, 1_000, places)?;
        for worker in 0..2 {
            is_done(&mut index, worker, Op::Pin);
        }
        goes(&rt, &mut index, rows);
        has_written(&rt, rt.alloc(), &index, written);
        discard(index);
    }
    Ok(())
}
