//! Jobs: when they are called, and when not yet; a flush that finds no memory; and a pointer whose tag two threads change.

use super::face::{Handle, What, defer, discard, limits, rounds, spend, tried};
use super::machine::adds;
use super::threads::{Task, job, leaves};
use super::values::Item;
use crate::tests::asserts::assert_same;
use crossbeam_epoch::{Atomic, Collector, Fault, unprotected};
use std::alloc::Global;
use std::process::Abort;
use std::sync::atomic::AtomicU64;
use std::sync::atomic::Ordering::SeqCst;
use std::sync::{Arc, Wait};
use std::test::Fail;

/// Whether a job is deferred that isn't called yet.
pub fn defers_unchecked<R: Wait + Abort>(
    rt: &R,
    alloc: Global,
    handle: &mut Handle<'_>,
    sum: &Arc<AtomicU64>,
) -> Result<bool, Fault> {
    let job = job(alloc, sum, 1)?;
    let guard = handle.pin()?;
    let deferred = handle.defer_unchecked(rt, &guard, job).is_ok();
    spend(rt, handle, guard);
    Ok(deferred)
}

/// Whether a collector whose end is refused keeps its job, which rounds then call. The handle that put it off is dropped, so it
/// stays registered.
fn keeps<R: Wait + Abort>(rt: &R, alloc: Global, sum: &Arc<AtomicU64>) -> Result<bool, Fault> {
    let items: Collector<Item> = Collector::new(rt, alloc, limits(1), 2)?;
    let sealed = leaves_sealed(rt, alloc, &items, sum);
    match items.end() {
        Ok(()) => Ok(false),
        Err((fault, back)) => {
            let is_kept = sum.load(SeqCst) == 0 && back.id() == 2;
            let gone = goes_rounds(rt, &back);
            discard(back);
            sealed?;
            gone?;
            Ok(is_kept && fault == Fault::Registered(1))
        }
    }
}

#[test]
fn a_refused_end_keeps_the_jobs(rt: HostRuntime) -> Result<(), Fail> {
    let sum = Arc::new(rt.alloc(), AtomicU64::new(0))?;
    let is_kept = keeps(&rt, rt.alloc(), &sum)?;
    assert_same(&rt, (is_kept, sum.load(SeqCst)), (true, 1));
    Ok(())
}

/// Seals a job in a new handle, which is dropped.
fn leaves_sealed<R: Wait + Abort>(
    rt: &R,
    alloc: Global,
    items: &Collector<Item>,
    sum: &Arc<AtomicU64>,
) -> Result<(), Fault> {
    let mut handle = items.register(rt)?;
    let sealed = puts_off(rt, alloc, &mut handle, sum, 1, 1);
    drop(handle);
    sealed
}

/// Three rounds of a new handle.
fn goes_rounds<R: Wait + Abort>(rt: &R, items: &Collector<Item>) -> Result<(), Fault> {
    let mut handle = items.register(rt)?;
    let gone = rounds(rt, &mut handle, 3);
    leaves(rt, handle)?;
    gone
}

/// Whether no job is called while another handle is pinned. Some are put off, from one that adds 1 to one that adds as many as they
/// are, and their handle goes so many rounds meanwhile, and so many after it.
pub fn blocks<R: Wait + Abort>(
    rt: &R,
    alloc: Global,
    zero: &mut Handle<'_>,
    one: &mut Handle<'_>,
    sum: &Arc<AtomicU64>,
    (count, most, rest): (u64, u32, u32),
) -> Result<bool, Fault> {
    let blocking = one.pin()?;
    let put_off = puts_off(rt, alloc, zero, sum, 1, count);
    let gone = rounds(rt, zero, most);
    let before = sum.load(SeqCst);
    spend(rt, one, blocking);
    put_off?;
    gone?;
    rounds(rt, zero, rest)?;
    Ok(before == 0)
}

/// Defers so many jobs under one pin, and flushes. The first adds this number to the sum, and each other one unit more than the one
/// before.
pub fn puts_off<R: Wait + Abort>(
    rt: &R,
    alloc: Global,
    handle: &mut Handle<'_>,
    sum: &Arc<AtomicU64>,
    first: u64,
    count: u64,
) -> Result<(), Fault> {
    let guard = handle.pin()?;
    let mut put_off = Ok(());
    for number in 0..count {
        if put_off.is_ok() {
            put_off = match job(alloc, sum, first.wrapping_add(number)) {
                Ok(job) => defer(rt, handle, &guard, job),
                Err(fault) => Err(fault),
            };
        }
    }
    let flushed = handle.flush(rt, &guard);
    spend(rt, handle, guard);
    put_off?;
    flushed
}

#[test]
fn unprotected_calls_at_once(rt: HostRuntime) -> Result<(), Fail> {
    let sum = Arc::new(rt.alloc(), AtomicU64::new(0))?;
    let job = adds(rt.alloc(), &sum, 1)?;
    let mut free = unprotected();
    free.defer(&rt, job);
    free.flush(&rt);
    free.repin(&rt);
    let none: Option<&Collector<Item>> = free.collector();
    assert!(rt; sum.load(SeqCst) == 1 && none.is_none());
    Ok(())
}

/// How often each of two threads flips its bit of the tag: an odd number.
const TURNS: u32 = 20_001;

/// Flips the lowest bit of the tag, or the next one by updates.
pub fn flips<R: Wait + Abort>(
    rt: &R,
    handle: &mut Handle<'_>,
    root: &Atomic<Item>,
    bit: usize,
) -> Result<bool, Fault> {
    let guard = handle.pin()?;
    for _ in 0..TURNS {
        if bit == 1 {
            root.fetch_xor(rt, 1, SeqCst, &guard);
        } else {
            let _before = root.fetch_update(rt, SeqCst, SeqCst, &guard, |found| {
                Some(found.with_tag(found.tag() ^ 2))
            });
        }
    }
    spend(rt, handle, guard);
    Ok(true)
}

#[test]
fn a_refused_flush_leaves_the_epoch(rt: HostRuntime) {
    // Without memory for the collector and a job there is no flush to look at.
    if let Ok((told, _sum)) = tried(&rt, rt.alloc(), What::Alone(Task::Flush), limits(1), false) {
        assert_same(&rt, told, true);
    }
}

/// Whether the epoch goes on by a flush, or else the flush is refused.
pub fn flushes<R: Wait + Abort>(
    rt: &R,
    alloc: Global,
    handle: &mut Handle<'_>,
    sum: &Arc<AtomicU64>,
) -> Result<bool, Fault> {
    let job = job(alloc, sum, 1)?;
    let (before, flushed) = handle.pinned(move |handle, guard| {
        defer(rt, handle, guard, job)?;
        Ok((guard.pinned_at(), handle.flush(rt, guard).is_ok()))
    })?;
    let guard = handle.pin()?;
    let after = guard.pinned_at();
    spend(rt, handle, guard);
    Ok((after > before) == flushed)
}
