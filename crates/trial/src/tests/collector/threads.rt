//! What is tried on one collector: by one handle, and by threads, each with handles of its own.

use super::face::{
    Handle, ItemGuard, Under, defer, destroy, makes, nests, repins, rounds, spend, swapped,
    tries_one_cell,
};
use super::jobs::{defers_unchecked, flips, flushes, puts_off};
use super::machine::adds;
use super::values::Item;
use crate::tests::threads::threaded::comes;
use crossbeam_epoch::{Atomic, Collector, Fault, Job, Link, Pointable};
use std::alloc::Global;
use std::process::Abort;
use std::sync::atomic::Ordering::SeqCst;
use std::sync::atomic::{AtomicBool, AtomicU64};
use std::sync::{Arc, Wait};
use std::thread;
use std::thread::Threads;

/// For what threads may share, and send to one another.
fn crosses<C: Send + Sync>(_shared: &C) {}

/// A collector and its pointers are such, where its values are.
fn both_cross<T: Pointable + Drop + Send + Sync>(items: &Collector<T>, root: &Atomic<T>) {
    crosses(items);
    crosses(root);
}

/// A collector, a pointer to its values, the sum of its jobs, and what each of two threads tells the other.
#[derive(Drop)]
pub struct Place<'a> {
    pub items: &'a Collector<Item>,
    pub calls: &'a Arc<AtomicU64>,
    pub root: Atomic<Item>,
    first: Flags,
    second: Flags,
}

impl<'a> Place<'a> {
    /// The pointer is null, and nothing is told.
    pub fn new(items: &'a Collector<Item>, calls: &'a Arc<AtomicU64>) -> Place<'a> {
        Place {
            items,
            calls,
            root: Atomic::null(),
            first: Flags::new(),
            second: Flags::new(),
        }
    }
}

/// What is tried with a handle of its own.
#[derive(Clone, Copy)]
pub enum Task {
    /// Guards nest and move.
    Moves,
    /// A full store hands back, and a value that is read stays.
    OneCell,
    /// Four jobs from this number on, and a new value beside each. Each load finds a value.
    Swap(u32),
    /// What the pointer leads to is destroyed, and all cells are vacant then.
    Empties,
    /// The first of two threads is pinned while the second is, or the other way round.
    Meets(bool),
    /// The lowest bit of the tag is flipped, or the next one.
    Flips(usize),
    /// The pointer has this tag.
    Tag(usize),
    /// A job is deferred, and not yet called when its handle is released.
    Leaves,
    /// A flush that is refused leaves the epoch.
    Flush,
    /// Four jobs from this number on, each by a handle of its own, once a place is free.
    Turns(u32),
}

/// Whether what is tried with a new handle is so.
pub fn by_handle<R: Wait + Abort>(
    rt: &R,
    alloc: Global,
    place: &Place<'_>,
    task: Task,
) -> Result<bool, Fault> {
    let mut handle = place.items.register(rt)?;
    let told = does(rt, alloc, place, &mut handle, task);
    leaves(rt, handle)?;
    told
}

fn does<R: Wait + Abort>(
    rt: &R,
    alloc: Global,
    place: &Place<'_>,
    handle: &mut Handle<'_>,
    task: Task,
) -> Result<bool, Fault> {
    match task {
        Task::Moves => Ok(repins(rt, handle)? && nests(rt, handle)? && makes(rt, alloc, handle)?),
        Task::OneCell => tries_one_cell(rt, alloc, place.items, handle),
        Task::Swap(first) => replaces_in_turn(rt, alloc, handle, place, first),
        Task::Empties => empties(rt, alloc, handle, &place.root),
        Task::Meets(true) => meets(rt, handle, &place.first, &place.second),
        Task::Meets(false) => meets(rt, handle, &place.second, &place.first),
        Task::Flips(bit) => flips(rt, handle, &place.root, bit),
        Task::Tag(tag) => has_tag(rt, handle, &place.root, tag),
        Task::Leaves => defers_unchecked(rt, alloc, handle, place.calls),
        Task::Flush => flushes(rt, alloc, handle, place.calls),
        Task::Turns(_) => Ok(false),
    }
}

/// Whether the pointer has the tag.
fn has_tag<R: Wait + Abort>(
    rt: &R,
    handle: &mut Handle<'_>,
    root: &Atomic<Item>,
    tag: usize,
) -> Result<bool, Fault> {
    let guard = handle.pin()?;
    let found = root.load(rt, SeqCst, &guard).tag();
    spend(rt, handle, guard);
    Ok(found == tag)
}

/// Whether what some threads try at once is so.
pub fn at_once<R: Threads + Wait + Abort + Sync>(
    rt: &R,
    alloc: Global,
    place: &Place<'_>,
    tasks: &[Task],
) -> Result<bool, Fault> {
    both_cross(place.items, &place.root);
    let work = move |number: usize| does_own(rt, alloc, place, tasks.get(number).copied());
    let Ok(all) = thread::map_indices(rt, alloc, tasks.len(), &work) else {
        return Err(Fault::Memory);
    };
    let mut right = true;
    for told in all {
        right &= told?;
    }
    Ok(right)
}

/// Whether what a thread tries is so.
fn does_own<R: Wait + Abort>(
    rt: &R,
    alloc: Global,
    place: &Place<'_>,
    task: Option<Task>,
) -> Result<bool, Fault> {
    match task {
        Some(Task::Turns(first)) => take_turns(rt, alloc, place, first),
        Some(task) => by_handle(rt, alloc, place, task),
        None => Ok(false),
    }
}

/// One at the digit of this number, each digit of so many bits.
fn digit(number: u32, bits: u32) -> u64 {
    1u64.wrapping_shl(number.wrapping_mul(bits))
}

/// A job that adds this number to the sum.
pub fn job(alloc: Global, calls: &Arc<AtomicU64>, number: u64) -> Result<Job, Fault> {
    match adds(alloc, calls, number) {
        Ok(job) => Ok(job),
        Err(_) => Err(Fault::Memory),
    }
}

/// For each job, swaps a new value in under a guard, and puts off the job and the destruction of the value before.
/// Whether each load found a value.
fn replaces_in_turn<R: Wait + Abort>(
    rt: &R,
    alloc: Global,
    handle: &mut Handle<'_>,
    place: &Place<'_>,
    first: u32,
) -> Result<bool, Fault> {
    let mut found = true;
    for number in 0..4u32 {
        let job = job(alloc, place.calls, digit(first.wrapping_add(number), 8))?;
        found &= replaces(rt, alloc, handle, &place.root, job)?;
    }
    Ok(found)
}

/// Swaps a new value in under a guard, and puts off the job and the destruction of the value before. Whether a load
/// finds a value.
fn replaces<R: Wait + Abort>(
    rt: &R,
    alloc: Global,
    handle: &mut Handle<'_>,
    root: &Atomic<Item>,
    job: Job,
) -> Result<bool, Fault> {
    let guard = handle.pin()?;
    let swapped = swaps_in(rt, alloc, root, &guard);
    let put_off = match swapped {
        Ok((before, _found)) => puts_both_off(rt, handle, &guard, before, job),
        Err(fault) => Err(fault),
    };
    spend(rt, handle, guard);
    put_off?;
    let (_before, found) = swapped?;
    Ok(found)
}

/// Swaps a new value in. The pointer before, and whether a load finds a value.
fn swaps_in<R: Wait + Abort>(
    rt: &R,
    alloc: Global,
    root: &Atomic<Item>,
    guard: &ItemGuard<'_>,
) -> Result<(Link, bool), Fault> {
    let under = Under { rt, alloc, guard };
    let before = swapped(rt, root, under.placed(1)?, guard)?;
    Ok((before, !root.load(rt, SeqCst, guard).is_null()))
}

/// Puts off the job and the destruction of the value that the pointer leads to, if it isn't null, and collects.
fn puts_both_off<R: Wait + Abort>(
    rt: &R,
    handle: &mut Handle<'_>,
    guard: &ItemGuard<'_>,
    before: Link,
    job: Job,
) -> Result<(), Fault> {
    if before != Link::null() {
        destroy(rt, handle, guard, before)?;
    }
    defer(rt, handle, guard, job)?;
    handle.flush(rt, guard)
}

/// Releases the handle.
pub fn leaves<R: Wait + Abort>(rt: &R, handle: Handle<'_>) -> Result<(), Fault> {
    match handle.release(rt) {
        Ok(()) => Ok(()),
        Err((fault, _back)) => Err(fault),
    }
}

/// Puts off the destruction of the last value and collects until nothing is left. Whether every cell is vacant then.
fn empties<R: Wait + Abort>(
    rt: &R,
    alloc: Global,
    handle: &mut Handle<'_>,
    root: &Atomic<Item>,
) -> Result<bool, Fault> {
    drops_last(rt, handle, root)?;
    rounds(rt, handle, 8)?;
    fills_all(rt, alloc, handle)
}

/// Puts off the destruction of the value that the pointer leads to, which becomes null.
fn drops_last<R: Wait + Abort>(
    rt: &R,
    handle: &mut Handle<'_>,
    root: &Atomic<Item>,
) -> Result<(), Fault> {
    let guard = handle.pin()?;
    let outcome = match swapped(rt, root, Link::null(), &guard) {
        Ok(last) => destroy(rt, handle, &guard, last),
        Err(fault) => Err(fault),
    };
    spend(rt, handle, guard);
    outcome
}

/// Whether eight values are placed.
fn fills_all<R: Wait + Abort>(
    rt: &R,
    alloc: Global,
    handle: &mut Handle<'_>,
) -> Result<bool, Fault> {
    let pinned = handle.pin()?;
    let guard = &pinned;
    let under = Under { rt, alloc, guard };
    let mut vacant = true;
    for number in 0..8 {
        vacant &= under.placed(number).is_ok();
    }
    spend(rt, handle, pinned);
    Ok(vacant)
}

/// What a thread tells another: that it is there, and that it has pinned.
#[derive(Drop)]
struct Flags {
    here: AtomicBool,
    pinned: AtomicBool,
}

impl Flags {
    /// Neither is told yet.
    fn new() -> Flags {
        Flags {
            here: AtomicBool::new(false),
            pinned: AtomicBool::new(false),
        }
    }
}

/// Pins as soon as the other thread is there, tells so, and waits until the other has pinned. Whether both came in time: on a loaded
/// machine a thread comes late, and one without a handle doesn't come.
fn meets<R: Wait + Abort>(
    rt: &R,
    handle: &mut Handle<'_>,
    mine: &Flags,
    other: &Flags,
) -> Result<bool, Fault> {
    mine.here.store(true, SeqCst);
    let is_there = comes(&other.here, 10_000_000);
    let guard = handle.pin()?;
    mine.pinned.store(true, SeqCst);
    let met = is_there && comes(&other.pinned, 10_000);
    spend(rt, handle, guard);
    Ok(met)
}

/// For each of four jobs from this number on, waits for a free place, defers the job under a guard, collects, and leaves.
fn take_turns<R: Wait + Abort>(
    rt: &R,
    alloc: Global,
    place: &Place<'_>,
    first: u32,
) -> Result<bool, Fault> {
    for number in 0..4u32 {
        let mut handle = place_of_its_own(rt, place.items)?;
        let adds = digit(first.wrapping_add(number), 4);
        let sealed = puts_off(rt, alloc, &mut handle, place.calls, adds, 1);
        leaves(rt, handle)?;
        sealed?;
    }
    Ok(true)
}

/// A handle, once a place is free.
fn place_of_its_own<'c, R: Wait + Abort>(
    rt: &R,
    items: &'c Collector<Item>,
) -> Result<Handle<'c>, Fault> {
    for _ in rt.forever() {
        match items.register(rt) {
            Ok(handle) => return Ok(handle),
            Err(Fault::TableFull) => thread::yield_now(),
            Err(fault) => return Err(fault),
        }
    }
    unreachable!()
}
