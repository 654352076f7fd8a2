//! The versions that threads share: a reader at one stamp, beside a writer that goes on and vacuums.

use crate::examples::versions::at_once::{Hand, Shared, read, vacuum, write};
use crate::tests::asserts::assert_same;
use optimistic::Refusal;
use std::alloc::Global;
use std::sync::Wait;
use std::test::Fail;
use std::thread::{Threads, join};

/// How many rows there are. The write of a stamp is of the row that its remainder is, and each seventh one deletes.
const ROWS: u32 = 8;

/// The reader's stamp, and the last one of the writer.
const SEEN: u32 = 40;

const LAST: u32 = 1_000;

/// How often a reader reads each row.
const ROUNDS: u32 = 100;

/// What the write of a stamp leaves in its row.
fn left_by(stamp: u32) -> Option<u32> {
    if stamp % 7 == 0 { None } else { Some(stamp) }
}

/// What a row has at the reader's stamp: what that one of its last eight stamps left there which is of the row.
fn plain(row: u32) -> Option<u32> {
    for stamp in SEEN - ROWS + 1..SEEN + 1 {
        if stamp % ROWS == row {
            return left_by(stamp);
        }
    }
    None
}

/// Writes under the stamps from one on and before another, with a vacuum at each tenth.
fn writes<R: Wait>(rt: &R, hand: &mut Hand<'_>, from: u32, end: u32) -> Result<u64, Refusal> {
    let mut gone = 0u64;
    for stamp in from..end {
        write(rt, hand, stamp % ROWS, stamp, left_by(stamp))?;
        if stamp % 10 == 0 {
            gone = gone.saturating_add(vacuum(rt, hand, stamp.min(SEEN))?);
        }
    }
    Ok(gone)
}

/// How often a reader is told another value than a row had at its stamp.
fn differs<R: Wait>(rt: &R, shared: &Shared, alloc: Global) -> Option<u32> {
    let mut hand = shared.worker(alloc).ok()?;
    let mut wrong = 0u32;
    for _ in 0..ROUNDS {
        for row in 0..ROWS {
            if read(rt, &mut hand, row, SEEN) != plain(row) {
                wrong = wrong.saturating_add(1);
            }
        }
    }
    Some(wrong)
}

/// What the writer's vacuums took from the reader's stamp on.
fn goes_on<R: Wait>(rt: &R, shared: &Shared, alloc: Global) -> Option<u64> {
    let mut hand = shared.worker(alloc).ok()?;
    writes(rt, &mut hand, SEEN + 1, LAST).ok()
}

/// How often a reader was told another value beside the writer, and whether versions had gone before.
fn beside<R: Threads + Wait + Sync>(rt: &R, alloc: Global) -> Option<(u32, bool)> {
    let shared = Shared::new(alloc, 200_000).ok()?;
    let shared = &shared;
    let mut first = shared.worker(alloc).ok()?;
    let gone = writes(rt, &mut first, 1, SEEN + 1).ok()?;
    let (wrong, went_on) = join(
        rt,
        move || differs(rt, shared, alloc),
        move || goes_on(rt, shared, alloc),
    );
    went_on?;
    Some((wrong?, gone > 0))
}

#[test]
fn a_reader_at_a_stamp_is_told_the_same_beside_a_writer(rt: HostRuntime) -> Result<(), Fail> {
    let told = beside(&rt, rt.alloc());
    assert_same(&rt, told, Some((0, true)));
    Ok(())
}
