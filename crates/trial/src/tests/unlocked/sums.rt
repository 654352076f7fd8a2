//! Threads with keys of their own in nodes that all use, and sums to which all add.

use super::calls::{Timed, called, told};
use super::lanes::{Task, count_of, ran};
use crate::tests::asserts::assert_same;
use crate::tests::machine::drawn::number_in;
use judge::{Call, Reply};
use optimistic::{Pair, Worker};
use std::alloc::{AllocError, Global};
use std::sync::Wait;
use std::test::Fail;

/// How many rounds each thread makes; the sweep has it make more.
const ROUNDS: u32 = 200;

/// The first key that is a thread's own.
const OWN: u64 = 256;

const AMPLE: u32 = 1_000_000;

/// Adds one to what a key has, by look-ups and exchanges.
fn exchanges<R: Wait>(rt: &R, worker: &mut Worker, key: u64) -> bool {
    for _ in rt.forever() {
        let Some(old) = worker.get(rt, key) else {
            return false;
        };
        match worker.compare_exchange(rt, key, old, Some(old.wrapping_add(1))) {
            Ok(Ok(_)) => return true,
            Ok(Err(_)) => {}
            Err(_) => return false,
        }
    }
    false
}

/// Adds three to one key and one to another of the same node, by each call. Whether all were made.
fn adds<R: Wait>(rt: &R, worker: &mut Worker) -> bool {
    called(rt, worker, Call::ComputeInsert(0, 1), 1).is_ok()
        && called(rt, worker, Call::ComputePresent(0, Some(1)), 1).is_ok()
        && exchanges(rt, worker, 0)
        && called(rt, worker, Call::ComputeInsert(1, 1), 1).is_ok()
}

/// Puts a key that no other thread has, reads it, and takes every second one out. Whether all answers were right.
fn owns<R: Wait>(rt: &R, worker: &mut Worker, key: u64) -> bool {
    worker.insert(rt, key, key) == Ok(None)
        && worker.get(rt, key) == Some(key)
        && (key % 2 == 0 || worker.remove(rt, key) == Ok(Some(key)))
}

/// The rounds of a thread that were right, by the call that put its own key.
pub fn rounds<R: Wait>(
    rt: &R,
    alloc: Global,
    worker: &mut Worker,
    place: u32,
    threads: u32,
    count: u32,
) -> Result<Vec<Timed>, AllocError> {
    let mut right = Vec::new(alloc);
    for round in 0..u64::from(count) {
        let behind = round.wrapping_mul(u64::from(threads));
        let key = OWN.wrapping_add(behind).wrapping_add(u64::from(place));
        if adds(rt, worker) && owns(rt, worker, key) {
            right.push(told(place, Call::Insert(key, key), Reply::Insert(None)))?;
        }
    }
    Ok(right)
}

/// Whether a pair is what so many rounds leave: a sum, or an own key that wasn't taken out.
fn is_left(pair: &Pair, rounds: u64) -> bool {
    match pair.key {
        0 => pair.value == rounds.wrapping_mul(3),
        1 => pair.value == rounds,
        key => key >= OWN && key % 2 == 0 && pair.value == key && key - OWN < rounds,
    }
}

/// How many pairs there are; none if one isn't what so many rounds leave.
fn count_left(pairs: &[Pair], rounds: u64) -> usize {
    for pair in pairs {
        if !is_left(pair, rounds) {
            return 0;
        }
    }
    pairs.len()
}

#[test]
fn threads_have_own_keys_and_add_up(rt: HostRuntime) -> Result<(), Fail> {
    let count = number_in(&rt, "TRIAL_CALLS", ROUNDS);
    for threads in [2, 4, 16] {
        let (lanes, pairs) = ran(
            &rt,
            rt.alloc(),
            AMPLE,
            threads,
            Task::Rounds(threads, count),
        )?;
        let all = count.saturating_mul(threads) as usize;
        let known = (count_of(&lanes), count_left(&pairs, all as u64));
        assert_same(
            &rt,
            (threads, known),
            (threads, (all, (all / 2).saturating_add(2))),
        );
    }
    Ok(())
}
