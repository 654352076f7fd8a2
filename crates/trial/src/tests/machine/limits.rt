//! `joint`: limits that no script names, the turns of a cell and the epoch; and values of which there is no copy.

use super::told::{Standing, State, state};
use super::{Index, are_rounds_done, bounded, call, discard, is_done};
use crate::tests::asserts::assert_same;
use congee::{Allocator, Limited, NoDrain, Payload, Small};
use joint::{Done, Event, Limits, Op, Outcome, Refusal, Step, World};
use judge::{Call, Reply};
use std::alloc::Global;
use std::sync::atomic::AtomicBool;
use std::sync::atomic::Ordering::SeqCst;
use std::test::Fail;

/// The greatest epoch, the expiry, and why no index is opened with them, if none is.
const LIMITS: [(u64, u64, Option<Refusal>); 6] = [
    (3, 2, None),
    (4_611_686_018_427_387_904, 2, None),
    (2, 2, Some(Refusal::Limits)),
    (4_611_686_018_427_387_905, 2, Some(Refusal::Limits)),
    (3, 1, Some(Refusal::Limits)),
    (3, 3, Some(Refusal::Limits)),
];

/// Limits of one worker.
fn limits(cells: u32, epoch_max: u64, expiry: u64) -> Limits {
    let mut limits = Limits::usual(1, cells);
    limits.epoch.epoch_max = epoch_max;
    limits.epoch.expiry = expiry;
    limits
}

/// Why no index is opened, if none is.
fn refusal(alloc: Global, limits: Limits) -> Option<Refusal> {
    match bounded(alloc, limits, u64::MAX) {
        Ok(index) => {
            discard(index);
            None
        }
        Err(refusal) => Some(refusal),
    }
}

#[test]
fn limits_out_of_their_ranges_open_no_index(rt: HostRuntime) {
    for (epoch, expiry, cause) in LIMITS {
        let refused = refusal(rt.alloc(), limits(1_000, epoch, expiry));
        assert_same(&rt, (epoch, expiry, refused), (epoch, expiry, cause));
    }
}

/// A key comes and goes, and waits for so many rounds at most. The worker is not pinned then.
fn comes_and_goes(index: &mut Index, rounds: u32) -> [Standing; 2] {
    is_done(index, 0, Op::Pin);
    let put = Standing::of(call(index, 0, Call::Insert(1, 1)));
    let taken = Standing::of(call(index, 0, Call::Remove(1)));
    is_done(index, 0, Op::Unpin);
    are_rounds_done(index, 0, rounds);
    [put, taken]
}

/// It came and went.
const BOTH: [Standing; 2] = [
    Standing::Replied(Reply::Insert(None)),
    Standing::Replied(Reply::Remove(Some(1))),
];

/// What is told of a key that comes and goes on an index whose cells have so many turns, and of one that comes then.
fn told_in_turns(
    alloc: Global,
    turn_max: u32,
) -> Result<([Standing; 2], Standing, State), Refusal> {
    let mut limits = Limits::usual(1, 2);
    limits.epoch.turn_max = turn_max;
    let mut index = bounded(alloc, limits, u64::MAX)?;
    let both = comes_and_goes(&mut index, 3);
    is_done(&mut index, 0, Op::Pin);
    let last = Standing::of(call(&mut index, 0, Call::Insert(1, 1)));
    let state = state(&index);
    discard(index);
    Ok((both, last, state))
}

/// The root has one of two cells, and leaves the other one.
#[test]
fn a_cell_is_used_for_as_many_nodes_as_it_has_turns(rt: HostRuntime) -> Result<(), Fail> {
    for (turn_max, last, state) in [
        (0, Standing::Refused(Refusal::Cells), (2104, 0, 0)),
        (1, Standing::Replied(Reply::Insert(None)), (2168, 0, 0)),
    ] {
        let told = told_in_turns(rt.alloc(), turn_max)?;
        assert_same(&rt, told, (BOTH, last, state));
    }
    Ok(())
}

/// What is charged after the close.
fn charged(index: Index) -> Option<u64> {
    match index.close(NoDrain) {
        Ok((allocator, _)) => Some(allocator.charged()),
        Err((_refusal, index, _)) => {
            discard(index);
            None
        }
    }
}

/// Three rounds bring the epoch to its greatest, 3, and no node that is removed then is destroyed before the close.
#[test]
fn what_waits_at_the_greatest_epoch_goes_at_the_close(rt: HostRuntime) -> Result<(), Fail> {
    let mut index = bounded(rt.alloc(), limits(1_000, 3, 2), u64::MAX)?;
    are_rounds_done(&mut index, 0, 3);
    let told = (comes_and_goes(&mut index, 10), state(&index));
    is_done(&mut index, 0, Op::Release);
    let charged = charged(index);
    assert_same(&rt, (told, charged), ((BOTH, (2168, 1, 64)), Some(0)));
    Ok(())
}

/// A value that can be copied while the flag is up.
#[derive(Clone, Copy, Drop)]
struct Flagged<'f> {
    number: u64,
    is_up: &'f AtomicBool,
}

impl Small for Flagged<'_> {
    ghost use Rattle.std.proofs.Common.{rules};

    ghost small = { Prim.search rules };
}

impl Payload for Flagged<'_> {
    ghost use Rattle.std.specs.Prelude.{false};

    ghost always_copies = { false };

    ghost same_as = { λ _ _. false };

    ghost same_is_equal = { λ v w e. Prim.cc };

    fn copy(&self) -> Option<Self> {
        if self.is_up.load(SeqCst) {
            Some(*self)
        } else {
            None
        }
    }

    fn same(&self, _other: &Self) -> bool {
        false
    }
}

/// What a whole call of worker 0 is refused as, or the number that it found.
fn answer<'f>(
    index: &mut World<Flagged<'f>, Limited>,
    op: Op<Flagged<'f>>,
    value: Flagged<'f>,
) -> Result<Option<u64>, Refusal> {
    match index.call(0, op, 100, &mut [(0, value)]) {
        Some(report) => match report.outcome {
            Outcome::Refused(refusal) => Err(refusal),
            Outcome::Done(Done::Reply(Reply::Get(Some(found)))) => Ok(Some(found.number)),
            _ => Ok(None),
        },
        None => Ok(None),
    }
}

/// An index of one pinned worker that has put the value at 1.
fn holding<'f>(alloc: Global, value: Flagged<'f>) -> Result<World<Flagged<'f>, Limited>, Refusal> {
    let mut index = World::new(alloc, Limits::usual(1, 9), Limited::new(9_000))?;
    let event = Event::Register;
    index.step(Step { worker: 0, event });
    answer(&mut index, Op::Pin, value)?;
    answer(&mut index, Op::Insert(1, value), value)?;
    Ok(index)
}

/// Whether each call that would copy the value is refused while the flag is down, and then it stands as before.
fn stays(alloc: Global, flag: &AtomicBool) -> Result<bool, Refusal> {
    let value = Flagged {
        number: 7,
        is_up: flag,
    };
    let mut index = holding(alloc, value)?;
    for op in [
        Op::Get(1),
        Op::Range(0, 9, 1),
        Op::RangeInclusive(1, 1, 1),
        Op::Insert(1, value),
        Op::Remove(1),
        Op::ComputePresent(1),
        Op::ComputeInsert(1),
        Op::Exchange(1, value, None),
    ] {
        flag.store(false, SeqCst);
        let refused = answer(&mut index, op, value);
        flag.store(true, SeqCst);
        if refused != Err(Refusal::Count) || answer(&mut index, Op::Get(1), value) != Ok(Some(7)) {
            return Ok(false);
        }
    }
    Ok(true)
}

#[test]
fn a_value_without_a_copy_stays(rt: HostRuntime) -> Result<(), Fail> {
    let flag = AtomicBool::new(true);
    assert_same(&rt, stays(rt.alloc(), &flag), Ok(true));
    Ok(())
}
