//! An index that threads share: two of them count at one key of it.

use joint::{Congee, Refusal, Worker};
use std::sync::Wait;
use std::thread;
use std::thread::Threads;

/// Numbers under their keys, for threads.
pub type Shared = Congee<u64, u64>;

/// Adds one to the number at a key, under a guard of its own. An absent key counts as 0.
fn add<R: Wait>(rt: &R, index: &Shared, key: u64, worker: &mut Worker) -> Result<(), Refusal> {
    index.pinned(rt, worker, |worker, guard| {
        let more = |number: Option<u64>| number.unwrap_or(0).wrapping_add(1);
        index.compute_or_insert(rt, key, more, worker, guard)?;
        Ok(())
    })
}

/// Adds one so many times, as a worker of its own.
pub fn count<R: Wait>(rt: &R, index: &Shared, key: u64, times: u32) -> Result<(), Refusal> {
    let mut worker = index.register(rt)?;
    for _ in 0..times {
        add(rt, index, key, &mut worker)?;
    }
    match index.release(rt, worker) {
        Ok(()) => Ok(()),
        Err((refusal, _)) => Err(refusal),
    }
}

/// Two threads count at one key, at once. The closure of each runs while no lock is held, and is asked again where the
/// other one's number came in between, so no count is lost.
pub fn count_in_two_threads<R: Threads + Wait + Sync>(
    rt: &R,
    index: &Shared,
    key: u64,
    times: u32,
) -> Result<(), Refusal> {
    let (one, two) = thread::join(
        rt,
        move || count(rt, index, key, times),
        move || count(rt, index, key, times),
    );
    one?;
    two
}
