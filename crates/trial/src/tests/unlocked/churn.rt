//! Keys that come and go for as long as it lasts: an index wants no more words for that, each call answers afterwards, and one that
//! was emptied takes as many keys again.

pub mod loads;

use super::scans::key_of;
use super::{ROOT_END, leave, opened};
use crate::tests::asserts::assert_same;
use crate::tests::machine::drawn::number_in;
use loads::{Churn, Layout, Load, Tally, churned};
use optimistic::{Pair, U64Congee, Walk, Worker};
use std::alloc::{AllocError, Global};
use std::sync::Wait;
use std::test::Fail;
use std::thread::Threads;

/// How many calls are made at each index; the sweep has more made.
const CALLS: u32 = 2_000;

/// As often as this each key comes and goes, about.
const ROUNDS: u64 = 50;

/// More words than any of this wants.
const AMPLE: u32 = 50_000;

/// So many words for each key that stands are enough for one worker: one key lies alone or with few others in each node.
const WORDS: u64 = 9;

/// So many words may be in nodes whose names a worker keeps back, some 256 and a node of each form, and in those that it changes.
const HIDDEN: u64 = 4_136;

/// What is done, and on how many threads.
const LOADS: [Load; 6] = [
    Load::Queue,
    Load::Window,
    Load::Shifts,
    Load::Wheel,
    Load::Tides,
    Load::Scans,
];

const LAYOUTS: [Layout; 4] = [
    Layout::Dense,
    Layout::Scattered,
    Layout::Twos,
    Layout::Fives,
];

const THREADS: [u64; 3] = [1, 2, 4];

/// How many pairs stand, if each call that tells pairs says so, and the same of their keys. Nobody else writes.
fn count_of<R: Wait>(rt: &R, alloc: Global, worker: &mut Worker) -> Option<u64> {
    let mut walk = Walk::new(0, u64::MAX);
    let (mut count, mut before) = (0u64, None);
    for _ in rt.forever() {
        let next = match before {
            Some(key) => worker.next_after(rt, key),
            None => worker.first(rt),
        };
        let next = key_of(next);
        if key_of(worker.step(rt, &mut walk)) != next {
            return None;
        }
        let Some(key) = next else {
            break;
        };
        if key_of(worker.next_before(rt, key)) != before {
            return None;
        }
        before = next;
        count = count.wrapping_add(1);
    }
    let mut out = [Pair { key: 0, value: 0 }; 64];
    let some = count.min(64) as usize;
    let is_right = worker.len(rt) == count
        && worker.is_empty(rt) == (count == 0)
        && key_of(worker.last(rt)) == before
        && worker.range(rt, 0, u64::MAX, &mut out) == some
        && worker.range_at_once(rt, alloc, 0, u64::MAX, &mut out) == Ok(some);
    if is_right { Some(count) } else { None }
}

/// How many pairs stand, and how many words are in use.
fn told<R: Wait>(
    rt: &R,
    alloc: Global,
    index: &U64Congee,
) -> Result<(Option<u64>, u64), AllocError> {
    let mut worker = index.worker(alloc)?;
    let count = count_of(rt, alloc, &mut worker);
    let used = worker.words_used();
    leave(worker);
    Ok((count, used))
}

/// Whether as many keys stand as came in and didn't go out, none was refused, and no more words are in use than are enough.
fn is_bounded<R: Threads + Wait + Sync>(rt: &R, alloc: Global, churn: Churn) -> Result<bool, Fail> {
    let index = opened(alloc, AMPLE)?;
    let tally = churned(rt, alloc, &index, churn)?;
    let (count, used) = told(rt, alloc, &index)?;
    drop(index);
    let keys = WORDS.saturating_mul(churn.window);
    let most = (ROOT_END as u64)
        .saturating_add(keys)
        .saturating_add(HIDDEN.saturating_mul(churn.threads));
    Ok(!tally.is_full && count == Some(tally.standing) && used <= most)
}

#[test]
fn keys_that_come_and_go_want_no_more_words(rt: HostRuntime) -> Result<(), Fail> {
    let calls = u64::from(number_in(&rt, "TRIAL_CHURN", CALLS));
    for (of, load) in LOADS.iter().enumerate() {
        for (kind, layout) in LAYOUTS.iter().enumerate() {
            for threads in THREADS {
                let churn = Churn {
                    load: *load,
                    layout: *layout,
                    window: calls / ROUNDS / 2,
                    threads,
                    calls,
                };
                let is_right = is_bounded(&rt, rt.alloc(), churn)?;
                assert_same(
                    &rt,
                    (of, kind, threads, is_right),
                    (of, kind, threads, true),
                );
            }
        }
    }
    Ok(())
}

/// Few words beside the root's.
const FEW: u32 = 6_000;

/// More keys than find room in these.
const MANY: u64 = 100_000;

/// Puts keys in until one is refused, and tells how many came in.
fn filled<R: Wait>(
    rt: &R,
    alloc: Global,
    index: &U64Congee,
    layout: Layout,
) -> Result<u64, AllocError> {
    let mut worker = index.worker(alloc)?;
    let mut count = MANY;
    for number in 0..MANY {
        if worker.insert(rt, loads::key_of(layout, number), number) != Ok(None) {
            count = number;
            break;
        }
    }
    leave(worker);
    Ok(count)
}

/// Takes out so many keys, as so many threads, in an order.
fn emptied<R: Threads + Wait + Sync>(
    rt: &R,
    alloc: Global,
    index: &U64Congee,
    churn: Churn,
) -> Result<bool, AllocError> {
    let Tally { standing, .. } = churned(rt, alloc, index, churn)?;
    let (count, _used) = told(rt, alloc, index)?;
    Ok(standing.wrapping_add(churn.window) == 0 && count == Some(0))
}

/// Whether an index that was filled takes as many keys again each time that threads have emptied it.
fn takes_again<R: Threads + Wait + Sync>(
    rt: &R,
    alloc: Global,
    layout: Layout,
) -> Result<bool, Fail> {
    let index = opened(alloc, FEW)?;
    let first = filled(rt, alloc, &index, layout)?;
    let mut is_right = first < MANY;
    for threads in THREADS {
        for order in 0..3 {
            let churn = Churn {
                load: Load::Ebb(order),
                layout,
                window: first,
                threads,
                calls: 0,
            };
            is_right &= emptied(rt, alloc, &index, churn)?;
            is_right &= filled(rt, alloc, &index, layout)? == first;
        }
    }
    drop(index);
    Ok(is_right)
}

#[test]
fn an_emptied_index_takes_as_many_keys_again(rt: HostRuntime) -> Result<(), Fail> {
    for (kind, layout) in LAYOUTS.iter().enumerate() {
        let is_right = takes_again(&rt, rt.alloc(), *layout)?;
        assert_same(&rt, (kind, is_right), (kind, true));
    }
    Ok(())
}

/// Room for a long row of nodes.
const LONG: u32 = 200_000;

/// Nodes of two keys side by side, each of which two threads empty: 33 that were left empty were once more than a search went by.
#[test]
fn searches_end_where_nodes_were_emptied(rt: HostRuntime) -> Result<(), Fail> {
    let index = opened(rt.alloc(), LONG)?;
    let churn = Churn {
        load: Load::Ebb(0),
        layout: Layout::Twos,
        window: filled(&rt, rt.alloc(), &index, Layout::Twos)?,
        threads: 2,
        calls: 0,
    };
    let is_right = emptied(&rt, rt.alloc(), &index, churn)?;
    drop(index);
    assert_same(&rt, is_right, true);
    Ok(())
}
