//! What threads do at an index, each with a worker of its own.

use super::backward::{are_far_told_back, are_forms_told_back};
use super::calls::{Draws, Timed, calls, told};
use super::faces::is_tried;
use super::many::go_together;
use super::rooms::{Row, filled};
use super::scans::{are_beside, are_far_told, are_forms_told};
use super::sums::rounds;
use super::waits::one_of_both;
use super::{drained, leave, opened};
use judge::{Call, Reply};
use optimistic::{Pair, U64Congee, Worker};
use std::alloc::{AllocError, Global};
use std::sync::Wait;
use std::sync::atomic::{AtomicU64, Ordering};
use std::test::Fail;
use std::thread;
use std::thread::Threads;

/// What each thread does.
#[derive(Clone, Copy, Drop)]
pub enum Task {
    /// Drawn calls.
    Draws(Draws),
    /// So many rounds, as one of so many threads.
    Rounds(u32, u32),
    /// The first one makes a call whose closure waits for that of the other one, at this key. Whether the closure is of a call at a
    /// present key.
    Waits(u64, bool),
    /// Puts keys of this row in, until there is no room.
    Fills(Row),
    /// Calls that don't wait.
    Tries,
    /// Calls that stand for many, with room for all their pairs or without.
    Together(bool),
    /// Scans of keys so far apart, in nodes of each form.
    Forms(u64),
    /// Scans of keys in different nodes.
    Far,
    /// Scans beside writers.
    Beside,
    /// The same, from the greatest key down.
    FormsBack(u64),
    FarBack,
    BesideBack,
}

/// The calls of each thread, and the pairs of the index that was closed after them.
pub type Ran = (Vec<Vec<Timed>>, Vec<Pair>);

/// A look-up, if all was right.
fn one_if(alloc: Global, is_right: bool) -> Result<Vec<Timed>, AllocError> {
    let mut made = Vec::new(alloc);
    if is_right {
        made.push(told(0, Call::Get(7), Reply::Get(None)))?;
    }
    Ok(made)
}

/// What the thread of this number does.
fn does<R: Wait>(
    rt: &R,
    alloc: Global,
    worker: &mut Worker,
    clock: &AtomicU64,
    place: u32,
    task: Task,
) -> Result<Vec<Timed>, AllocError> {
    match task {
        Task::Draws(draws) => calls(rt, alloc, worker, clock, place, draws),
        Task::Rounds(threads, count) => rounds(rt, alloc, worker, place, threads, count),
        Task::Waits(key, is_present) => one_of_both(
            rt,
            alloc,
            worker,
            clock,
            place,
            (key, is_present),
        ),
        Task::Fills(row) => filled(rt, alloc, worker, row),
        Task::Tries => one_if(alloc, is_tried(worker)),
        Task::Together(has_room) => one_if(alloc, go_together(rt, worker, has_room)),
        Task::Forms(step) => one_if(alloc, are_forms_told(rt, alloc, worker, step)),
        Task::Far => one_if(alloc, are_far_told(rt, alloc, worker)),
        Task::Beside => one_if(alloc, are_beside(rt, alloc, worker, clock, place, false)),
        Task::FormsBack(step) => one_if(alloc, are_forms_told_back(rt, alloc, worker, step)),
        Task::FarBack => one_if(alloc, are_far_told_back(rt, alloc, worker)),
        Task::BesideBack => one_if(alloc, are_beside(rt, alloc, worker, clock, place, true)),
    }
}

/// The calls of one thread, with a worker of its own. Without one nobody waits for it.
fn lane<R: Wait>(
    rt: &R,
    alloc: Global,
    index: &U64Congee,
    clock: &AtomicU64,
    place: u32,
    task: Task,
) -> Result<Vec<Timed>, AllocError> {
    let mut worker = match index.worker(alloc) {
        Ok(worker) => worker,
        Err(refused) => {
            clock.store(u64::MAX, Ordering::SeqCst);
            return Err(refused);
        }
    };
    let made = does(rt, alloc, &mut worker, clock, place, task);
    leave(worker);
    made
}

/// The calls of all threads.
fn lanes<R: Threads + Wait + Sync>(
    rt: &R,
    alloc: Global,
    index: &U64Congee,
    threads: u32,
    task: Task,
) -> Result<Vec<Vec<Timed>>, AllocError> {
    let clock = AtomicU64::new(0);
    let clock = &clock;
    let work = move |place: usize| lane(rt, alloc, index, clock, place as u32, task);
    let mut lanes = Vec::new(alloc);
    for lane in thread::map_indices(rt, alloc, threads as usize, &work)? {
        lanes.push(lane?)?;
    }
    Ok(lanes)
}

/// What so many threads do at an index of so many words for nodes.
pub fn ran<R: Threads + Wait + Sync>(
    rt: &R,
    alloc: Global,
    room: u32,
    threads: u32,
    task: Task,
) -> Result<Ran, Fail> {
    let index = opened(alloc, room)?;
    let lanes = lanes(rt, alloc, &index, threads, task);
    let pairs = drained(alloc, index)?;
    Ok((lanes?, pairs))
}

/// How many calls there are.
pub fn count_of(lanes: &[Vec<Timed>]) -> usize {
    let mut count = 0usize;
    for lane in lanes {
        count = count.saturating_add(lane.len());
    }
    count
}
