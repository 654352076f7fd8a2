//! Scans and ranges at one moment: of one thread, at the bounds and in nodes of each form; and beside writers, of whose keys some
//! stay, and of which one counts a key up and then another.

use super::backward::observes_back;
use super::lanes::{Task, count_of, ran};
use super::waits::waits;
use crate::tests::asserts::assert_same;
use optimistic::{Pair, Unscanned, Walk, Worker};
use std::alloc::Global;
use std::sync::Wait;
use std::sync::atomic::{AtomicU64, Ordering};
use std::test::Fail;

const AMPLE: u32 = 1_000_000;

/// How many rounds each thread makes.
pub const ROUNDS: u64 = 300;

/// Beside writers the keys that stay: so many, so far apart, each with itself as its value.
pub const FIXED: u64 = 40;

pub const APART: u64 = 3;

/// The keys below and above these that are counted up, the first one ahead.
const FIRST: u64 = 0;

const SECOND: u64 = u64::MAX;

/// What the first thread has told when these keys stand.
const READY: u64 = 1;

/// A buffer's place that isn't written.
pub const UNWRITTEN: Pair = Pair { key: 1, value: 0 };

/// Keys at both ends, in leaves that hang high and low, and in nodes that part at each depth.
pub const FAR: [u64; 12] = [
    0,
    1,
    255,
    256,
    65_536,
    65_537,
    16_777_216,
    4_294_967_296,
    1_099_511_627_776,
    281_474_976_710_656,
    72_057_594_037_927_936,
    18_446_744_073_709_551_615,
];

/// The key of a pair.
pub fn key_of(found: Option<Pair>) -> Option<u64> {
    match found {
        Some(pair) => Some(pair.key),
        None => None,
    }
}

/// How many pairs of one moment were told; none at an error.
fn count_told(found: Result<usize, Unscanned>) -> usize {
    match found {
        Ok(count) => count,
        Err(_) => 0,
    }
}

/// Whether these are the first multiples of a step, each with its place as its value.
fn are_multiples(pairs: &[Pair], count: u64, step: u64) -> bool {
    let mut next = 0u64;
    for pair in pairs {
        if pair.value != next || pair.key != next.wrapping_mul(step) {
            return false;
        }
        next = next.wrapping_add(1);
    }
    next == count
}

/// Whether so many keys, so far apart, are told by a scan, at one moment, and from the last back to the first.
fn are_told<R: Wait>(rt: &R, alloc: Global, worker: &mut Worker, count: u64, step: u64) -> bool {
    for n in 0..count {
        let _ = worker.insert(rt, n.wrapping_mul(step), n);
    }
    let end = count.wrapping_mul(step);
    let (mut scan, mut moment) = ([UNWRITTEN; 300], [UNWRITTEN; 300]);
    let scanned = worker.range(rt, 0, end, &mut scan).min(300);
    let told = count_told(worker.try_range_at_once(alloc, 0, end, &mut moment)).min(300);
    let mut right = are_multiples(&scan[..scanned], count, step)
        && are_multiples(&moment[..told], count, step)
        && key_of(worker.at_or_before(rt, end)) == key_of(worker.last(rt));
    let mut before = None;
    for n in 0..count {
        let key = n.wrapping_mul(step);
        right &= key_of(worker.next_before(rt, key)) == before;
        right &= key_of(worker.at_or_before(rt, key.wrapping_add(step / 2))) == Some(key);
        before = Some(key);
    }
    for n in 0..count {
        let _ = worker.remove(rt, n.wrapping_mul(step));
    }
    right && worker.is_empty(rt) && worker.last(rt).is_none()
}

/// Whether keys so far apart are, in nodes of each form.
pub fn are_forms_told<R: Wait>(rt: &R, alloc: Global, worker: &mut Worker, step: u64) -> bool {
    let mut right = true;
    for count in [1, 3, 4, 5, 16, 17, 48, 49, 200, 256, 260] {
        right &= are_told(rt, alloc, worker, count, step);
    }
    right
}

/// Whether keys in different nodes are told one after the other, and back.
fn are_neighbours<R: Wait>(rt: &R, worker: &mut Worker) -> bool {
    let mut right = true;
    let mut before = None;
    for key in FAR {
        let next = match before {
            Some(last) => worker.next_after(rt, last),
            None => worker.first(rt),
        };
        right &= key_of(next) == Some(key)
            && key_of(worker.next_before(rt, key)) == before
            && key_of(worker.at_or_before(rt, key)) == Some(key);
        before = Some(key);
    }
    right && key_of(worker.last(rt)) == before && worker.next_after(rt, u64::MAX).is_none()
}

/// Whether scans stop where the places are filled, at the end, and before a start past it.
fn are_bound<R: Wait>(rt: &R, worker: &mut Worker) -> bool {
    let mut few = [UNWRITTEN; 3];
    let mut many = [UNWRITTEN; 20];
    worker.range(rt, 0, u64::MAX, &mut few) == 3
        && few[2].key == 255
        && worker.range(rt, 0, u64::MAX, &mut many) == 11
        && many[11].key == UNWRITTEN.key
        && worker.range_inclusive(rt, 0, u64::MAX, &mut many) == 12
        && many[11].key == u64::MAX
        && worker.range_inclusive(rt, u64::MAX, u64::MAX, &mut many) == 1
        && worker.range(rt, 256, 256, &mut many) == 0
        && worker.range_inclusive(rt, 257, 256, &mut many) == 0
}

/// The same of ranges at one moment.
fn are_moments_bound<R: Wait>(rt: &R, alloc: Global, worker: &mut Worker) -> bool {
    let mut few = [UNWRITTEN; 3];
    worker.range_at_once(rt, alloc, 1, u64::MAX, &mut few) == Ok(3)
        && few[2].key == 256
        && worker.range_at_once(rt, alloc, 0, 2, &mut few) == Ok(2)
        && worker.range_at_once(rt, alloc, 5, 5, &mut few) == Ok(0)
        && worker.range_inclusive_at_once(rt, alloc, 6, 5, &mut few) == Ok(0)
        && worker.range_inclusive_at_once(rt, alloc, 0, u64::MAX, &mut []) == Ok(0)
        && worker.range_inclusive_at_once(rt, alloc, SECOND, SECOND, &mut few) == Ok(1)
        && few[0].key == SECOND
}

/// Whether a walk tells some keys, and then each of all, though what it told is taken out behind it.
fn are_walked<R: Wait>(rt: &R, worker: &mut Worker) -> bool {
    let mut some = Walk::new(2, 256);
    let mut all = Walk::new(0, u64::MAX);
    let mut right = key_of(worker.step(rt, &mut some)) == Some(255)
        && key_of(worker.step(rt, &mut some)) == Some(256);
    for key in FAR {
        right &= key_of(worker.step(rt, &mut all)) == Some(key);
        let _ = worker.remove(rt, key);
    }
    right
        && worker.step(rt, &mut some).is_none()
        && worker.step(rt, &mut all).is_none()
        && worker.step(rt, &mut all).is_none()
        && worker.is_empty(rt)
}

/// Whether scans in different nodes tell what stands.
pub fn are_far_told<R: Wait>(rt: &R, alloc: Global, worker: &mut Worker) -> bool {
    for key in FAR {
        let _ = worker.insert(rt, key, key);
    }
    are_neighbours(rt, worker)
        && are_bound(rt, worker)
        && are_moments_bound(rt, alloc, worker)
        && are_walked(rt, worker)
}

/// Counts the first key up and then the second.
fn counts_up<R: Wait>(rt: &R, worker: &mut Worker, clock: &AtomicU64) -> bool {
    let mut right = true;
    for n in 1..=FIXED {
        let key = n.wrapping_mul(APART);
        right &= worker.insert(rt, key, key).is_ok();
    }
    for round in 0..ROUNDS {
        right &= worker.insert(rt, FIRST, round).is_ok();
        right &= worker.insert(rt, SECOND, round).is_ok();
        clock.fetch_max(READY, Ordering::SeqCst);
    }
    right
}

/// Puts keys between those that stay and takes them out, so that nodes come and go.
fn disturbs<R: Wait>(rt: &R, worker: &mut Worker, place: u32) -> bool {
    let mut right = true;
    for round in 0..ROUNDS {
        let key = (round.wrapping_mul(7) % FIXED + 1).wrapping_mul(APART);
        let away = key.wrapping_add(u64::from(place));
        let far = away.wrapping_mul(65_537);
        right &= worker.insert(rt, away, away).is_ok() && worker.insert(rt, far, 0).is_ok();
        right &= worker.remove(rt, away).is_ok() && worker.remove(rt, far).is_ok();
    }
    right
}

/// Whether pairs are ascending, with each of the keys that stay among them.
fn hold(pairs: &[Pair]) -> bool {
    let mut next = APART;
    let mut least = 0;
    for pair in pairs {
        if pair.key < least {
            return false;
        }
        least = pair.key.wrapping_add(1);
        if pair.key == next && pair.value == next {
            next = next.wrapping_add(APART);
        }
    }
    next > FIXED * APART
}

/// Whether of pairs the last has the first one's value, or the one before that.
fn agree(pairs: &[Pair]) -> bool {
    match (pairs.first(), pairs.last()) {
        (Some(first), Some(last)) => {
            first.key == FIRST && last.key == SECOND && first.value.wrapping_sub(last.value) < 2
        }
        _ => false,
    }
}

/// Looks over and over whether a scan holds the keys that stay, and whether the two counts agree at one moment.
fn observes<R: Wait>(rt: &R, alloc: Global, worker: &mut Worker) -> bool {
    let mut out = [UNWRITTEN; 256];
    let mut right = true;
    for _ in 0..ROUNDS {
        let scanned = worker
            .range(rt, APART, FIXED * APART + 1, &mut out)
            .min(256);
        right &= hold(&out[..scanned]);
        let told = match worker.range_inclusive_at_once(rt, alloc, FIRST, SECOND, &mut out) {
            Ok(told) => told.min(256),
            Err(_) => 0,
        };
        right &= agree(&out[..told]);
        let tried = count_told(worker.try_range_inclusive_at_once(alloc, FIRST, SECOND, &mut out));
        right &= tried == 0 || agree(&out[..tried.min(256)]);
    }
    right
}

/// Whether what the thread of this number found was right: the first one counts, two more write beside it, and the others look,
/// from the least key on or from the greatest down.
pub fn are_beside<R: Wait>(
    rt: &R,
    alloc: Global,
    worker: &mut Worker,
    clock: &AtomicU64,
    place: u32,
    is_back: bool,
) -> bool {
    if place == 0 {
        return counts_up(rt, worker, clock);
    }
    waits(rt, clock, READY);
    if place < APART as u32 {
        disturbs(rt, worker, place)
    } else if is_back {
        observes_back(rt, alloc, worker)
    } else {
        observes(rt, alloc, worker)
    }
}

/// Tasks, with how many threads do them.
const TASKS: [(Task, u32); 4] = [
    (Task::Forms(1), 1),
    (Task::Forms(1_000), 1),
    (Task::Far, 1),
    (Task::Beside, 5),
];

#[test]
fn scans_tell_what_stands(rt: HostRuntime) -> Result<(), Fail> {
    for (number, (task, threads)) in TASKS.iter().enumerate() {
        let (lanes, _pairs) = ran(&rt, rt.alloc(), AMPLE, *threads, *task)?;
        assert_same(&rt, (number, count_of(&lanes)), (number, *threads as usize));
    }
    Ok(())
}
