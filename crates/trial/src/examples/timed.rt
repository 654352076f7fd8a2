//! Jobs by the time at which each is due, in an index that threads share: which comes next, and which stand beside a time.
ghost use Rattle.std.specs.Prelude.{◌≤◌, IfOk, IfSome};

use congee::DefaultAllocator;
use joint::{Congee, Guard, Limits, Refusal, Worker};
use std::alloc::Global;
use std::sync::Wait;

/// Numbers of jobs under their times.
pub type Jobs = Congee<u64, u64>;

/// A time, and the number of a job.
pub type Job = (u64, u64);

/// The job of the least time, if that has come.
pub fn due<R: Wait>(
    rt: &R,
    jobs: &Jobs,
    now: u64,
    worker: &mut Worker,
    guard: &Guard,
) -> Result<Option<Job>, Refusal>
    ensures { IfOk result (λ found. IfSome found (λ job. job.0 ≤ now)) }
{
    match jobs.first(rt, worker, guard)? {
        Some((time, job)) if time <= now => Ok(Some((time, job))),
        _ => Ok(None),
    }
}

/// Takes out the jobs whose time has come, but so many at most, and counts them.
pub fn take_due<R: Wait>(
    rt: &R,
    jobs: &Jobs,
    now: u64,
    most: u32,
    worker: &mut Worker,
    guard: &Guard,
) -> Result<u32, Refusal> {
    for taken in 0..most {
        let Some((time, _)) = due(rt, jobs, now, worker, guard)? else {
            return Ok(taken);
        };
        jobs.remove(rt, &time, worker, guard)?;
    }
    Ok(most)
}

/// The last job before a time, and the first one from it on.
pub fn beside<R: Wait>(
    rt: &R,
    jobs: &Jobs,
    time: u64,
    worker: &mut Worker,
    guard: &Guard,
) -> Result<(Option<Job>, Option<Job>), Refusal> {
    let before = jobs.next_before(rt, &time, worker, guard)?;
    let from = jobs.at_or_after(rt, &time, worker, guard)?;
    Ok((before, from))
}

/// Puts a job in at each of these times, with its place as its number, and takes out those that are due at a time. How many these
/// were, and which are left beside another time.
pub fn first_due<R: Wait>(
    rt: &R,
    alloc: Global,
    times: &[u64],
    now: u64,
    time: u64,
) -> Result<(u32, Option<Job>, Option<Job>), Refusal> {
    let jobs: Jobs = Congee::new(
        alloc,
        Limits::usual(1, 1_000).with_id(4),
        DefaultAllocator::new(),
    )?;
    let mut worker = jobs.register(rt)?;
    jobs.pinned(rt, &mut worker, |worker, guard| {
        for (place, time) in times.iter().enumerate() {
            jobs.insert(rt, *time, place as u64, worker, guard)?;
        }
        let taken = take_due(rt, &jobs, now, 1_000, worker, guard)?;
        let (before, from) = beside(rt, &jobs, time, worker, guard)?;
        Ok((taken, before, from))
    })
}
