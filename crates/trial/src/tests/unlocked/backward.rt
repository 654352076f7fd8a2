//! Ranges and walks from the greatest key down: they tell what those from the least key on do, turned about, in nodes of each form
//! and in different nodes; and beside writers they fall, with each of the keys that stay among them.

use super::lanes::{Task, count_of, ran};
use super::scans::{APART, FAR, FIXED, ROUNDS, UNWRITTEN};
use crate::tests::asserts::assert_same;
use optimistic::{Pair, WalkBack, Worker};
use std::alloc::Global;
use std::sync::Wait;
use std::test::Fail;

const AMPLE: u32 = 1_000_000;

/// How many pairs are told at most.
const PLACES: usize = 300;

/// Whether one list is another turned about.
fn are_turned(pairs: &[Pair], back: &[Pair]) -> bool {
    let mut right = pairs.len() == back.len();
    for (pair, other) in pairs.iter().zip(back.iter().rev()) {
        right &= pair.key == other.key && pair.value == other.value;
    }
    right
}

/// Whether a walk back tells the same pairs, and then none.
fn is_walked<R: Wait>(rt: &R, worker: &mut Worker, start: u64, last: u64, back: &[Pair]) -> bool {
    let mut walk = WalkBack::new(start, last);
    let mut right = true;
    for pair in back {
        right &= match worker.step_back(rt, &mut walk) {
            Some(told) => told.key == pair.key && told.value == pair.value,
            None => false,
        };
    }
    right && worker.step_back(rt, &mut walk).is_none() && worker.step_back(rt, &mut walk).is_none()
}

/// Whether the pairs of start <= key <= last are told from the last one down as they are from the first one on.
fn is_told<R: Wait>(rt: &R, alloc: Global, worker: &mut Worker, start: u64, last: u64) -> bool {
    let mut out = [UNWRITTEN; PLACES];
    let (mut back, mut moment) = ([UNWRITTEN; PLACES], [UNWRITTEN; PLACES]);
    let count = worker
        .range_inclusive(rt, start, last, &mut out)
        .min(PLACES);
    let told = worker
        .range_rev_inclusive(rt, start, last, &mut back)
        .min(PLACES);
    let stood = match worker.range_rev_inclusive_at_once(rt, alloc, start, last, &mut moment) {
        Ok(stood) => stood.min(PLACES),
        Err(_) => return false,
    };
    are_turned(&out[..count], &back[..told])
        && are_turned(&out[..count], &moment[..stood])
        && is_walked(rt, worker, start, last, &back[..told])
        && back[told..].iter().all(|pair| pair.key == UNWRITTEN.key)
}

/// Whether so many keys, so far apart, are told so, all of them and those within.
fn are_told<R: Wait>(rt: &R, alloc: Global, worker: &mut Worker, count: u64, step: u64) -> bool {
    for n in 0..count {
        let _ = worker.insert(rt, n.wrapping_mul(step), n);
    }
    let end = count.wrapping_mul(step);
    let mut right = is_told(rt, alloc, worker, 0, u64::MAX);
    for n in 0..count {
        let key = n.wrapping_mul(step);
        if n % 16 < 2 {
            right &= is_told(rt, alloc, worker, 0, key)
                && is_told(rt, alloc, worker, key, end)
                && is_told(rt, alloc, worker, key / 2, key.wrapping_add(step / 2));
        }
    }
    for n in 0..count {
        let _ = worker.remove(rt, n.wrapping_mul(step));
    }
    right && is_told(rt, alloc, worker, 0, u64::MAX)
}

/// Whether keys so far apart are, in nodes of each form.
pub fn are_forms_told_back<R: Wait>(rt: &R, alloc: Global, worker: &mut Worker, step: u64) -> bool {
    let mut right = true;
    for count in [1, 3, 4, 5, 16, 17, 48, 49, 200, 256, 260] {
        right &= are_told(rt, alloc, worker, count, step);
    }
    right
}

/// Whether ranges stop where the places are filled, at the start, and at an end before it.
fn are_bound<R: Wait>(rt: &R, alloc: Global, worker: &mut Worker) -> bool {
    let mut few = [UNWRITTEN; 3];
    let mut many = [UNWRITTEN; 20];
    worker.range_rev(rt, 0, u64::MAX, &mut few) == 3
        && few[0].key == 72_057_594_037_927_936
        && worker.range_rev(rt, 1, u64::MAX, &mut many) == 10
        && many[9].key == 1
        && many[10].key == UNWRITTEN.key
        && worker.range_rev_inclusive(rt, 0, u64::MAX, &mut many) == 12
        && many[11].key == 0
        && worker.range_rev_inclusive(rt, 0, 0, &mut many) == 1
        && worker.range_rev(rt, 256, 256, &mut many) == 0
        && worker.range_rev(rt, 0, 0, &mut many) == 0
        && worker.range_rev_inclusive(rt, 257, 256, &mut many) == 0
        && worker.range_rev_at_once(rt, alloc, 0, u64::MAX, &mut few) == Ok(3)
        && few[2].key == 1_099_511_627_776
        && worker.range_rev_at_once(rt, alloc, 5, 5, &mut few) == Ok(0)
        && worker.try_range_rev_at_once(alloc, 0, 2, &mut few) == Ok(2)
        && worker.try_range_rev_inclusive_at_once(alloc, 0, 2, &mut []) == Ok(0)
}

/// Whether keys in different nodes are told from the greatest down.
pub fn are_far_told_back<R: Wait>(rt: &R, alloc: Global, worker: &mut Worker) -> bool {
    for key in FAR {
        let _ = worker.insert(rt, key, key);
    }
    let mut right = are_bound(rt, alloc, worker) && is_told(rt, alloc, worker, 0, u64::MAX);
    for start in FAR {
        for last in FAR {
            right &= is_told(rt, alloc, worker, start, last);
        }
    }
    for key in FAR {
        let _ = worker.remove(rt, key);
    }
    right
}

/// Whether pairs fall, with each of the keys that stay among them.
fn fall(pairs: &[Pair]) -> bool {
    let mut next = FIXED * APART;
    let mut greatest = u64::MAX;
    for pair in pairs {
        if pair.key >= greatest {
            return false;
        }
        greatest = pair.key;
        if pair.key == next && pair.value == next {
            next = next.saturating_sub(APART);
        }
    }
    next == 0
}

/// Looks over and over whether a range back holds the keys that stay, at moments that rise and at one.
pub fn observes_back<R: Wait>(rt: &R, alloc: Global, worker: &mut Worker) -> bool {
    let mut out = [UNWRITTEN; 256];
    let last = FIXED * APART;
    let mut right = true;
    for _ in 0..ROUNDS {
        let told = worker
            .range_rev_inclusive(rt, APART, last, &mut out)
            .min(256);
        right &= fall(&out[..told]);
        let stood = match worker.range_rev_inclusive_at_once(rt, alloc, APART, last, &mut out) {
            Ok(stood) => stood.min(256),
            Err(_) => 0,
        };
        right &= fall(&out[..stood]);
    }
    right
}

/// Tasks, with how many threads do them.
const TASKS: [(Task, u32); 4] = [
    (Task::FormsBack(1), 1),
    (Task::FormsBack(1_000), 1),
    (Task::FarBack, 1),
    (Task::BesideBack, 5),
];

#[test]
fn ranges_back_tell_what_stands(rt: HostRuntime) -> Result<(), Fail> {
    for (number, (task, threads)) in TASKS.iter().enumerate() {
        let (lanes, _pairs) = ran(&rt, rt.alloc(), AMPLE, *threads, *task)?;
        assert_same(&rt, (number, count_of(&lanes)), (number, *threads as usize));
    }
    Ok(())
}
