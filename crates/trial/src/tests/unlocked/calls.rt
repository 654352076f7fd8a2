//! Drawn calls of a worker, each with its reply and when it was made.

use crate::tests::machine::drawn::next;
use judge::{Call, Entry, Reply};
use optimistic::{Refusal, Worker};
use std::alloc::{AllocError, Global};
use std::sync::Wait;
use std::sync::atomic::{AtomicU64, Ordering};

/// A call with its reply, and a clock's numbers before and after it.
#[derive(Clone, Copy, Drop)]
pub struct Timed {
    pub begin: u64,
    pub end: u64,
    pub entry: Entry<u64>,
}

/// A call of a thread with its reply, at no time.
pub fn told(thread: u32, call: Call<u64>, reply: Reply<u64>) -> Timed {
    let entry = Entry {
        worker: thread,
        call,
        reply,
    };
    Timed {
        begin: 0,
        end: 0,
        entry,
    }
}

/// Which calls a worker makes.
#[derive(Clone, Copy, Drop)]
pub struct Draws {
    /// How many keys there are.
    pub keys: u64,
    /// How many calls mostly put keys in, before as many that take them out.
    pub phase: u32,
    /// How many calls there are.
    pub count: u32,
}

/// A key of four clusters: of leaves, of inner nodes with a lone leaf below each byte, of such nodes further up, and scattered
/// ones by twos, which part at their last bit.
pub fn key_of(place: u64) -> u64 {
    let at = place / 4;
    match place % 4 {
        0 => at,
        1 => 1 << 40 | at << 8,
        2 => 2 << 40 | at << 24 | 7,
        _ => (at / 2 + 1).wrapping_mul(11_400_714_819_323_198_485) ^ at % 2,
    }
}

/// The key of a call.
pub fn key_called(call: Call<u64>) -> u64 {
    match call {
        Call::Get(key) => key,
        Call::Insert(key, _) => key,
        Call::Remove(key) => key,
        Call::ComputePresent(key, _) => key,
        Call::ComputeInsert(key, _) => key,
        Call::Exchange(key, _, _) => key,
    }
}

/// What a key has after a call with this reply.
fn left(call: Call<u64>, reply: Reply<u64>) -> Option<u64> {
    match (call, reply) {
        (Call::Insert(_, value), _) => Some(value),
        (Call::ComputeInsert(_, value), _) => Some(value),
        (_, Reply::Get(found)) => found,
        (_, Reply::ComputePresent(Some((_, answer)))) => answer,
        (_, Reply::Exchange(Ok(new))) => new,
        (_, Reply::Exchange(Err(found))) => found,
        _ => None,
    }
}

/// A worker's next call, which may bring this value, after one that left this at its key.
fn drawn(draws: Draws, turn: u32, number: u64, value: u64, last: (u64, Option<u64>)) -> Call<u64> {
    let key = key_of((number >> 40) % draws.keys.max(1));
    let grows = turn / draws.phase.max(1) % 2 == 0;
    let new = if grows { Some(value) } else { None };
    match ((number >> 33) % 8, grows) {
        (0, _) => Call::Get(key),
        (1, _) => Call::Get(last.0),
        (2, _) => Call::Exchange(last.0, last.1.unwrap_or(value), new),
        (3, _) => Call::ComputePresent(key, new),
        (4, true) => Call::ComputeInsert(key, value),
        (5, true) => Call::Insert(key, value),
        (6, true) => Call::Insert(key, value),
        _ => Call::Remove(key),
    }
}

/// What a closure answers for a value: so many times the value, and its number; or none, where it has no number.
fn raised(old: u64, times: u64, by: Option<u64>) -> Option<u64> {
    match by {
        Some(by) => Some(old.wrapping_mul(times).wrapping_add(by)),
        None => None,
    }
}

/// Makes a call. A closure answers so many times the value, and its number.
pub fn called<R: Wait>(
    rt: &R,
    worker: &mut Worker,
    call: Call<u64>,
    times: u64,
) -> Result<Reply<u64>, Refusal> {
    match call {
        Call::Get(key) => Ok(Reply::Get(worker.get(rt, key))),
        Call::Insert(key, value) => Ok(Reply::Insert(worker.insert(rt, key, value)?)),
        Call::Remove(key) => Ok(Reply::Remove(worker.remove(rt, key)?)),
        Call::ComputePresent(key, by) => {
            let told = worker.compute_if_present(rt, key, |old| raised(old, times, by))?;
            Ok(Reply::ComputePresent(told))
        }
        Call::ComputeInsert(key, by) => {
            let raise = |old: Option<u64>| old.unwrap_or(0).wrapping_mul(times).wrapping_add(by);
            Ok(Reply::ComputeInsert(worker.compute_or_insert(rt, key, raise)?))
        }
        Call::Exchange(key, old, new) => {
            Ok(Reply::Exchange(worker.compare_exchange(rt, key, old, new)?))
        }
    }
}

/// The call as its entry has it: a closure that wasn't asked answered nothing.
fn answered(call: Call<u64>, reply: Reply<u64>) -> Call<u64> {
    match (call, reply) {
        (Call::ComputePresent(key, _), Reply::ComputePresent(None)) => {
            Call::ComputePresent(key, None)
        }
        _ => call,
    }
}

/// The calls of the worker of this number, one after the other, of which none brings the value of another one. A refused call
/// changes nothing, and is left out.
pub fn calls<R: Wait>(
    rt: &R,
    alloc: Global,
    worker: &mut Worker,
    clock: &AtomicU64,
    place: u32,
    draws: Draws,
) -> Result<Vec<Timed>, AllocError> {
    let mut made = Vec::new(alloc);
    let mut number = u64::from(place);
    let mut last = (0, None);
    for turn in 0..draws.count {
        number = next(number);
        let value = u64::from(place) << 32 | u64::from(turn);
        let call = drawn(draws, turn, number, value, last);
        let begin = clock.fetch_add(1, Ordering::SeqCst);
        let answer = called(rt, worker, call, 0);
        let end = clock.fetch_add(1, Ordering::SeqCst);
        if let Ok(reply) = answer {
            last = (key_called(call), left(call, reply));
            let entry = Entry {
                worker: place,
                call: answered(call, reply),
                reply,
            };
            made.push(Timed { begin, end, entry })?;
        }
    }
    Ok(made)
}
