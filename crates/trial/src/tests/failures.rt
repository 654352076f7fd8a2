//! `joint`: calls that find no memory once.

use super::machine::told::state;
use super::machine::{Index, call, discard, is_done, open, replied};
use crate::tests::asserts::assert_same;
use joint::{Op, Outcome, Refusal};
use judge::{Call, Reply};
use std::alloc::Global;
use std::test::Fail;

/// Calls of one worker: a leaf grows, its way parts from others' twice, and these go with the nodes above.
const CALLS: [(Call<u64>, Reply<u64>); 14] = [
    (Call::Insert(1, 1), Reply::Insert(None)),
    (Call::Insert(2, 2), Reply::Insert(None)),
    (Call::Insert(3, 3), Reply::Insert(None)),
    (Call::Insert(4, 4), Reply::Insert(None)),
    (Call::Insert(5, 5), Reply::Insert(None)),
    (Call::Insert(256, 6), Reply::Insert(None)),
    (Call::ComputeInsert(1 << 32, 7), Reply::ComputeInsert(None)),
    (
        Call::ComputePresent(5, Some(12)),
        Reply::ComputePresent(Some((5, Some(12)))),
    ),
    (Call::Remove(256), Reply::Remove(Some(6))),
    (Call::Exchange(1 << 32, 7, None), Reply::Exchange(Ok(None))),
    (Call::Remove(1), Reply::Remove(Some(1))),
    (Call::Insert(6, 6), Reply::Insert(None)),
    (Call::Get(5), Reply::Get(Some(12))),
    (Call::Get(256), Reply::Get(None)),
];

/// Whether a call ends with the reply. Where memory is refused nothing has changed, and it is called again.
pub fn ends_with(index: &mut Index, made: Call<u64>, reply: Reply<u64>) -> bool {
    let before = state(index);
    let outcome = call(index, 0, made);
    if outcome != Outcome::Refused(Refusal::Memory) {
        return outcome == replied(reply);
    }
    before == state(index) && call(index, 0, made) == replied(reply)
}

/// An index with its workers; where memory is refused it is opened again.
pub fn opened(alloc: Global) -> Result<Index, Refusal> {
    match open(alloc, 2, 1_000) {
        Err(Refusal::Memory) => open(alloc, 2, 1_000),
        opened => opened,
    }
}

/// A flush; where memory is refused it is called again.
pub fn is_flushed(index: &mut Index) -> bool {
    let before = state(index);
    is_done(index, 0, Op::Flush) || (before == state(index) && is_done(index, 0, Op::Flush))
}

/// The first call that doesn't end so, with what it ought to answer.
fn first_wrong(index: &mut Index) -> Option<(Call<u64>, Reply<u64>)> {
    for (made, reply) in CALLS {
        if !ends_with(index, made, reply) {
            return Some((made, reply));
        }
    }
    None
}

/// Whether three rounds are done.
fn rests(index: &mut Index) -> bool {
    for _ in 0..3 {
        if !is_flushed(index) || !is_done(index, 0, Op::Unpin) || !is_done(index, 0, Op::Pin) {
            return false;
        }
    }
    true
}

/// The gate runs it with each request for memory refused in turn as well: what is refused changes nothing, and then is answered.
#[test]
fn a_call_that_finds_no_memory_changes_nothing(rt: HostRuntime) -> Result<(), Fail> {
    let mut index = opened(rt.alloc())?;
    let pinned = is_done(&mut index, 0, Op::Pin);
    let wrong = first_wrong(&mut index);
    let (before, rests) = (state(&index), rests(&mut index));
    let after = state(&index);
    discard(index);
    assert_same(&rt, (pinned, wrong, rests), (true, None, true));
    // The root and a leaf of 16; a leaf of 4 grew, and two went with their last values, each with the node above.
    assert_same(
        &rt,
        (before, after),
        ((2104 + 168 + 5 * 64, 5, 5 * 64), (2104 + 168, 0, 0)),
    );
    Ok(())
}
