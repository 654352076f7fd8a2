//! A closure that waits for a call of another thread, at the key that it is asked about or beside it in the same node. The call
//! ends, since no node is locked while a closure runs; so each test ends.

use super::calls::{Timed, told};
use super::lanes::{Task, ran};
use crate::tests::asserts::assert_same;
use judge::{Call, Reply};
use optimistic::{Pair, Refusal, Worker};
use std::alloc::{AllocError, Global};
use std::sync::Wait;
use std::sync::atomic::{AtomicU64, Ordering};
use std::test::Fail;
use std::thread::yield_now;

/// The closure was asked.
const ASKED: u64 = 1;

/// The other thread's call has ended.
const ENDED: u64 = 2;

/// The key that the closure is asked about.
const KEY: u64 = 1;

/// How often the other thread tries.
const TRIES: u32 = 1_000;

/// Waits until the other thread has come as far.
pub fn waits<R: Wait>(rt: &R, state: &AtomicU64, until: u64) {
    for _ in rt.forever() {
        if state.load(Ordering::SeqCst) >= until {
            break;
        }
        yield_now();
    }
}

/// The closure: tells that it was asked, waits for the other thread's call, and adds one.
fn added<R: Wait>(rt: &R, state: &AtomicU64, old: u64) -> u64 {
    state.fetch_max(ASKED, Ordering::SeqCst);
    waits(rt, state, ENDED);
    old.wrapping_add(1)
}

/// What each call with a closure tells.
fn computes<R: Wait>(
    rt: &R,
    worker: &mut Worker,
    state: &AtomicU64,
    is_present: bool,
) -> Result<Reply<u64>, Refusal> {
    if is_present {
        let told = worker.compute_if_present(rt, KEY, |old| Some(added(rt, state, old)))?;
        Ok(Reply::ComputePresent(told))
    } else {
        let add = |old: Option<u64>| added(rt, state, old.unwrap_or(0));
        Ok(Reply::ComputeInsert(worker.compute_or_insert(rt, KEY, add)?))
    }
}

/// Puts two other keys into the node, and makes the call with a closure. The other thread goes on even if the closure isn't asked.
fn asks<R: Wait>(
    rt: &R,
    worker: &mut Worker,
    state: &AtomicU64,
    is_present: bool,
) -> Result<Reply<u64>, Refusal> {
    worker.insert(rt, 2, 2)?;
    worker.insert(rt, 3, 3)?;
    if is_present {
        worker.insert(rt, KEY, 5)?;
    }
    computes(rt, worker, state, is_present)
}

/// The other thread's call, which is tried so often once the closure was asked.
fn writes<R: Wait>(
    rt: &R,
    worker: &mut Worker,
    state: &AtomicU64,
    key: u64,
) -> Result<Reply<u64>, Refusal> {
    waits(rt, state, ASKED);
    let mut told = Err(Refusal::Again);
    for _ in 0..TRIES {
        told = worker.try_insert(key, 7);
        if told != Err(Refusal::Again) {
            break;
        }
    }
    state.store(ENDED, Ordering::SeqCst);
    Ok(Reply::Insert(told?))
}

/// The call of a thread: the first one's is that with the closure. It is left out if it is refused.
pub fn one_of_both<R: Wait>(
    rt: &R,
    alloc: Global,
    worker: &mut Worker,
    state: &AtomicU64,
    place: u32,
    (key, is_present): (u64, bool),
) -> Result<Vec<Timed>, AllocError> {
    let answer = if place == 0 {
        let asked = asks(rt, worker, state, is_present);
        state.fetch_max(ASKED, Ordering::SeqCst);
        asked
    } else {
        writes(rt, worker, state, key)
    };
    let mut made = Vec::new(alloc);
    if let Ok(reply) = answer {
        made.push(told(place, Call::Get(key), reply))?;
    }
    Ok(made)
}

/// What a thread was told.
fn reply_of(lanes: &[Vec<Timed>], thread: usize) -> Option<Reply<u64>> {
    Some(lanes.get(thread)?.first()?.entry.reply)
}

/// What the closure's key has.
fn value_of(pairs: &[Pair]) -> Option<u64> {
    for pair in pairs {
        if pair.key == KEY {
            return Some(pair.value);
        }
    }
    None
}

/// The other call's key, whether the closure's is present, what both calls tell, and what the closure's key has then.
const ROWS: [(u64, bool, Reply<u64>, Reply<u64>, u64); 5] = [
    (
        KEY,
        false,
        Reply::ComputeInsert(Some(7)),
        Reply::Insert(None),
        8,
    ),
    (
        KEY,
        true,
        Reply::ComputePresent(Some((7, Some(8)))),
        Reply::Insert(Some(5)),
        8,
    ),
    (
        2,
        false,
        Reply::ComputeInsert(None),
        Reply::Insert(Some(2)),
        1,
    ),
    (
        2,
        true,
        Reply::ComputePresent(Some((5, Some(6)))),
        Reply::Insert(Some(2)),
        6,
    ),
    (
        4,
        true,
        Reply::ComputePresent(Some((5, Some(6)))),
        Reply::Insert(None),
        6,
    ),
];

#[test]
fn a_closure_waits_for_another_call(rt: HostRuntime) -> Result<(), Fail> {
    for (key, is_present, asked, wrote, value) in ROWS {
        let (lanes, pairs) = ran(&rt, rt.alloc(), 1_000, 2, Task::Waits(key, is_present))?;
        let told = (reply_of(&lanes, 0), reply_of(&lanes, 1), value_of(&pairs));
        let wanted = (Some(asked), Some(wrote), Some(value));
        assert_same(&rt, (key, is_present, told), (key, is_present, wanted));
    }
    Ok(())
}
