//! Sixteen threads that call on one index with a journal: calls of each kind on a key, and scans between.
ghost use Rattle.std.specs.Prelude.{◌≡◌, ◌<◌};

use super::asks::{Told, raised_or, spent};
use super::trees::recorded_called;
use crate::tests::asserts::assert_same;
use crate::tests::machine::drawn::number_in;
use crate::threads::callers;
use crate::worker::{Caller, Cut, Index, key_of};
use congee::DefaultAllocator;
use joint::{Guard, Journaled, Limits, Refusal, Share, Worker, audit};
use judge::{Call, Entry, Reply, Verdict, check};
use std::alloc::Global;
use std::marker::Brand;
use std::sync::Wait;
use std::sync::ledger::{Blank, Ledger};
use std::thread;
use std::thread::Threads;

const WORKERS: u32 = 16;

/// How many calls each worker makes; and as many as the index has room for, which the sweep has it make.
const CALLS: u32 = 40;

const CALLS_MAX: u32 = 10_000;

/// What a worker brings back.
#[derive(Drop)]
struct Worked<L: Ledger> {
    share: Share<L>,
    /// The entries of its calls, in its order.
    own: Vec<Entry<u64>>,
    /// Whether each scan found pairs that somebody put there.
    is_scanned: bool,
}

/// A value tells the place of its key, by what is left of it modulo this.
const STEP: u64 = 64;

/// How many keys there are: the last of the program's, 24 of which lie in one leaf.
const PLACES: u64 = 61;

/// The key of this place.
fn key_of_place(place: u64) -> u64 {
    key_of(place % PLACES + 36)
}

/// A value that tells the key of this place.
fn value_at(place: u64, number: u64) -> u64 {
    (number % 8).wrapping_mul(STEP).wrapping_add(place)
}

/// The key that a value tells.
fn told_by(value: u64) -> u64 {
    key_of_place(value % STEP)
}

/// A worker's call of this number. A closure adds to its value, or takes every second one out.
fn call_at(worker: u32, number: u64) -> Call<u64> {
    let place = u64::from(worker).wrapping_mul(7).wrapping_add(number) % PLACES;
    let (key, value) = (key_of_place(place), value_at(place, number));
    match number % 8 {
        1 => Call::Get(key),
        2 => Call::Remove(key),
        3 => Call::ComputePresent(key, if number % 16 < 8 { Some(STEP) } else { None }),
        5 => Call::ComputeInsert(key, value),
        6 => Call::Exchange(key, value_at(place, number / 8), Some(value)),
        _ => Call::Insert(key, value),
    }
}

/// The call with what its closure answered.
fn answered(call: Call<u64>, reply: Reply<u64>) -> Call<u64> {
    match (call, reply) {
        (Call::ComputePresent(key, _), Reply::ComputePresent(Some((_, new)))) => {
            Call::ComputePresent(key, new)
        }
        (Call::ComputePresent(key, _), Reply::ComputePresent(None)) => {
            Call::ComputePresent(key, None)
        }
        (Call::ComputeInsert(key, value), Reply::ComputeInsert(before)) => {
            Call::ComputeInsert(key, raised_or(before, value))
        }
        _ => call,
    }
}

/// A worker's call of this number, and what it answered.
fn calls<L: Ledger, R: Wait>(
    rt: &R,
    index: &Index<L>,
    caller: &mut Caller<L>,
    guard: &Guard,
    number: u64,
) -> Result<(Call<u64>, Reply<u64>), Refusal> {
    let call = call_at(caller.place, number);
    let (share, worker) = (&mut caller.share, &mut caller.worker);
    match recorded_called(rt, index, call, share, worker, guard)? {
        Told::Replied(reply) => Ok((answered(call, reply), reply)),
        _ => Err(Refusal::Idle),
    }
}

/// Whether a scan from a key on finds pairs that somebody put there.
fn scans<L: Ledger, R: Wait>(
    rt: &R,
    index: &Index<L>,
    worker: &mut Worker,
    guard: &Guard,
    from: u64,
) -> Result<bool, Refusal> {
    let mut out = [(0, 0); 20];
    let count = index.range(rt, &from, &u64::MAX, &mut out, worker, guard)?;
    let mut right = true;
    for (key, value) in out.iter().take(count) {
        right &= *key >= from && told_by(*value) == *key;
    }
    Ok(right)
}

/// A worker's call of this number under a pin of its own; a scan before each eighth.
fn calls_pinned<L: Ledger, R: Wait>(
    rt: &R,
    index: &Index<L>,
    caller: &mut Caller<L>,
    number: u32,
) -> Result<(Entry<u64>, bool), Refusal> {
    let guard = index.pin(rt, &mut caller.worker)?;
    let scanned = if number % 8 == 0 {
        scans(
            rt,
            index,
            &mut caller.worker,
            &guard,
            key_of_place(u64::from(number)),
        )
    } else {
        Ok(true)
    };
    let called = calls(rt, index, caller, &guard, u64::from(number));
    spent(index.unpin(rt, &mut caller.worker, guard))?;
    let (call, reply) = called?;
    let worker = caller.worker.number();
    Ok((
        Entry {
            worker,
            call,
            reply,
        },
        scanned?,
    ))
}

/// All calls of a worker, one after the other.
fn works<L: Ledger, R: Wait>(
    rt: &R,
    alloc: Global,
    index: &Index<L>,
    caller: Caller<L>,
    count: u32,
) -> Result<Worked<L>, Cut> {
    let mut caller = caller;
    let mut own = Vec::new(alloc);
    let mut is_scanned = true;
    for number in 0..count {
        let (entry, scanned) = calls_pinned(rt, index, &mut caller, number)?;
        is_scanned &= scanned;
        own.push(entry)?;
    }
    Ok(Worked {
        share: caller.share,
        own,
        is_scanned,
    })
}

/// Whether a journal is legal, and has each worker's own entries in its order.
fn is_right(alloc: Global, journal: &[Entry<u64>], own: &[Vec<Entry<u64>>]) -> Result<bool, Cut> {
    Ok(check(alloc, journal)? == Verdict::Legal && audit(journal, own))
}

/// What is known of the calls when all have ended: the entries of the journal, the writing calls that the ledger counts, whether
/// all scans found pairs that somebody put there, and whether the journal is right.
type Known = (usize, u64, bool, bool);

/// The history of so many calls of each worker, with this ledger.
fn history<L: Ledger + Send + Sync, R: Threads + Wait + Sync>(
    rt: &R,
    alloc: Global,
    blank: Blank,
    count: u32,
) -> Result<Known, Cut>
    requires name { blank.name ≡ L.name }
    requires ledger { blank.parts ≡ L.parts }
    requires parts { blank.parts ≡ 17 }
{
    let limits = Limits::usual(WORKERS, 2 * WORKERS * CALLS_MAX);
    let (allocator, places) = (DefaultAllocator::new(), u64::from(WORKERS * CALLS_MAX));
    let (index, mut all): (Index<L>, Share<L>) = Journaled::new(
        alloc, limits, allocator, places, 17, blank,
    )?;
    all_call(rt, alloc, &index, &mut all, count)
}

/// What is known when all workers have called, each with a share of one part.
fn all_call<L: Ledger + Send + Sync, R: Threads + Wait + Sync>(
    rt: &R,
    alloc: Global,
    index: &Index<L>,
    all: &mut Share<L>,
    count: u32,
) -> Result<Known, Cut>
    requires parts { 16 < all.old.parts }
{
    let callers = callers(rt, alloc, index, all, WORKERS)?;
    let work = move |caller: Caller<L>| works(rt, alloc, index, caller, count);
    let worked = thread::map_vec(rt, callers, &work)?;
    let (own, is_scanned) = joined(alloc, all, worked)?;
    learned(rt, alloc, index, all, &own, is_scanned)
}

/// The entries that each worker keeps, and whether all scans found pairs that somebody put there. Their shares become one.
fn joined<L: Ledger>(
    alloc: Global,
    all: &mut Share<L>,
    worked: Vec<Result<Worked<L>, Cut>>,
) -> Result<(Vec<Vec<Entry<u64>>>, bool), Cut> {
    let mut own = Vec::new(alloc);
    let mut all_scanned = true;
    for one in worked {
        let Worked {
            share,
            own: kept,
            is_scanned,
        } = one?;
        all.merge(share);
        own.push(kept)?;
        all_scanned &= is_scanned;
    }
    Ok((own, all_scanned))
}

/// What is known then.
fn learned<L: Ledger, R: Wait>(
    rt: &R,
    alloc: Global,
    index: &Index<L>,
    all: &mut Share<L>,
    own: &[Vec<Entry<u64>>],
    is_scanned: bool,
) -> Result<Known, Cut> {
    let written = index.gather(rt, all)?;
    let journal = index.entries(rt)?;
    let is_right = is_right(alloc, &journal, own)?;
    Ok((journal.len(), written, is_scanned, is_right))
}

fn history_by_brand<R: Threads + Wait + Sync>(
    rt: &R,
    alloc: Global,
    count: u32,
) -> Result<Known, Cut> {
    history::<Brand, R>(rt, alloc, Blank::new(17), count)
}

/// The second of eight calls only looks.
#[test]
fn sixteen_threads_call_and_scan(rt: HostRuntime) {
    let count = number_in(&rt, "TRIAL_CALLS", CALLS).min(CALLS_MAX);
    let looks = count.saturating_add(6) / 8;
    let entries = (count as usize).saturating_mul(WORKERS as usize);
    let written = u64::from(count.saturating_sub(looks)).saturating_mul(u64::from(WORKERS));
    let known = history_by_brand(&rt, rt.alloc(), count);
    assert_same(&rt, known, Ok((entries, written, true, true)));
}
