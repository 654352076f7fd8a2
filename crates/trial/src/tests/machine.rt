//! The machine: its calls a step at a time, of one worker and of several beside each other. Here stands what these tests share:
//! how an index is opened, and how its workers' calls are stepped.

mod counts;
mod crowds;
pub mod drawn;
mod driven;
mod flights;
pub mod forms;
mod interleavings;
mod lies;
mod limits;
mod one_map;
mod orders;
mod scans;
mod schedules;
pub mod told;

use congee::{Limited, Noise};
pub use flights::entry;
use joint::{Done, Event, Id, Limits, Op, Outcome, Refusal, Report, Step, World};
use judge::{Call, Reply};
use std::alloc::Global;

/// More steps than a call takes that no other one disturbs.
pub const END: u32 = 200;

/// An index of numbers.
pub type Index = World<u64, Limited>;

/// An index of these limits, whose nodes may take so many bytes, and whose workers are registered.
pub fn bounded(alloc: Global, limits: Limits, bytes: u64) -> Result<Index, Refusal> {
    let mut index: Index = World::new(alloc, limits, Limited::new(bytes))?;
    for _ in 0..limits.epoch.participants {
        index.step(registering());
    }
    Ok(index)
}

/// An index with room for so many workers, who are registered, and so many nodes.
pub fn open(alloc: Global, workers: u32, cells: u32) -> Result<Index, Refusal> {
    bounded(alloc, Limits::usual(workers, cells), u64::MAX)
}

/// An index that keeps a journal of so many places.
pub fn journaled(alloc: Global, workers: u32, cells: u32, places: u64) -> Result<Index, Refusal> {
    let limits = Limits::usual(workers, cells);
    let mut index = World::new_journaled(alloc, limits, Limited::new(u64::MAX), places)?;
    for _ in 0..workers {
        index.step(registering());
    }
    Ok(index)
}

/// Drops an index, so that no test has to say how.
pub fn discard(index: Index) {
    drop(index);
}

/// A step by which a worker comes.
pub fn registering() -> Step<u64> {
    let event = Event::Register;
    Step { worker: 0, event }
}

/// A step that begins a call.
pub fn beginning(worker: u32, op: Op<u64>) -> Step<u64> {
    let event = Event::Begin(op);
    Step { worker, event }
}

pub fn begin(index: &mut Index, worker: u32, op: Op<u64>) -> Report<u64> {
    index.step(beginning(worker, op))
}

/// What comes to a step from outside: its exchange may fail, and its closure answers so where it is asked.
pub fn noise(fail: bool, answer: Option<Option<u64>>) -> Noise<Id, u64> {
    Noise {
        fail,
        seen: None,
        answer,
    }
}

/// A step of the worker's call in flight, to which this comes from outside.
pub fn going(worker: u32, noise: Noise<Id, u64>) -> Step<u64> {
    let event = Event::Go(noise);
    Step { worker, event }
}

pub fn go_with(index: &mut Index, worker: u32, noise: Noise<Id, u64>) -> Report<u64> {
    index.step(going(worker, noise))
}

/// A step of the worker's call in flight, whose closure answers so where it is asked.
pub fn go(index: &mut Index, worker: u32, answer: Option<Option<u64>>) -> Report<u64> {
    go_with(index, worker, noise(false, answer))
}

/// So many further steps at most of the worker's call, which stands so.
pub fn go_on(
    index: &mut Index,
    worker: u32,
    answer: Option<Option<u64>>,
    most: u32,
    outcome: Outcome<u64>,
) -> Outcome<u64> {
    let mut outcome = outcome;
    for _ in 0..most {
        if !outcome.is_in_flight() {
            return outcome;
        }
        outcome = go(index, worker, answer).outcome;
    }
    outcome
}

/// The call, without what its closure answers.
pub fn op_of(call: Call<u64>) -> Op<u64> {
    match call {
        Call::Get(key) => Op::Get(key),
        Call::Insert(key, value) => Op::Insert(key, value),
        Call::Remove(key) => Op::Remove(key),
        Call::ComputePresent(key, _) => Op::ComputePresent(key),
        Call::ComputeInsert(key, _) => Op::ComputeInsert(key),
        Call::Exchange(key, old, new) => Op::Exchange(key, old, new),
    }
}

/// What the call's closure answers.
pub fn answer_of(call: Call<u64>) -> Option<Option<u64>> {
    match call {
        Call::ComputePresent(_, answer) => Some(answer),
        Call::ComputeInsert(_, answer) => Some(Some(answer)),
        Call::Get(_) | Call::Insert(_, _) | Call::Remove(_) | Call::Exchange(_, _, _) => None,
    }
}

/// More steps than a whole call takes.
const LONG: u32 = 1_000;

/// A whole call of a worker, whose closure answers so where it is asked. A scan's pairs come into these places.
pub fn whole(
    index: &mut Index,
    worker: u32,
    op: Op<u64>,
    answer: Option<Option<u64>>,
    places: &mut [(u64, u64)],
) -> Outcome<u64> {
    match index.call(worker, op, LONG as usize, places) {
        Some(report) => go_on(index, worker, answer, LONG, report.outcome),
        None => Outcome::Running,
    }
}

/// A whole call on a key.
pub fn call(index: &mut Index, worker: u32, call: Call<u64>) -> Outcome<u64> {
    whole(index, worker, op_of(call), answer_of(call), &mut [])
}

/// A whole call on the collector, and whether it is done.
pub fn is_done(index: &mut Index, worker: u32, op: Op<u64>) -> bool {
    whole(index, worker, op, None, &mut []) == Outcome::Done(Done::Unit)
}

/// So many rounds of pin, flush and unpin, and whether each is done.
pub fn are_rounds_done(index: &mut Index, worker: u32, rounds: u32) -> bool {
    for _ in 0..rounds {
        if !is_done(index, worker, Op::Pin)
            || !is_done(index, worker, Op::Flush)
            || !is_done(index, worker, Op::Unpin)
        {
            return false;
        }
    }
    true
}

/// How many reports tell that a call stands so.
pub fn count_of(reports: &[Report<u64>], outcome: &Outcome<u64>) -> usize {
    let mut count = 0usize;
    for report in reports {
        if report.outcome == *outcome {
            count = count.saturating_add(1);
        }
    }
    count
}

/// How a call on a key ends with this reply.
pub fn replied(reply: Reply<u64>) -> Outcome<u64> {
    Outcome::Done(Done::Reply(reply))
}
