//! How many steps a call takes of the collector and of the tree, what they tell, and how many rounds it takes until memory comes back.

use super::told::{Standing, Told, state, takes};
use super::{
    Index, are_rounds_done, beginning, bounded, call, discard, going, is_done, noise, open, whole,
};
use crate::tests::asserts::assert_same;
use joint::{Limits, Op, Refusal};
use judge::{Call, Reply};
use std::alloc::Global;
use std::test::Fail;

/// Of the steps of a whole call: how many were of the collector, and of the tree; in how many it took effect, its entry was kept, and
/// it did without a node; and how many nodes they destroyed.
type Counts = [u64; 6];

/// A call of worker 0, whose closure answers 4, what its steps tell, and how it ends.
type Row = (Op<u64>, Counts, Standing);

/// A call writes in a place of its bag that it has secured, and what it took out comes back once nobody is pinned.
const WRITES: [Row; 19] = [
    (Op::Pin, [8, 0, 0, 0, 0, 0], Standing::Unit),
    (Op::Insert(1, 1), [1, 8, 1, 0, 0, 0], NEW),
    (Op::Insert(1, 2), [1, 11, 1, 0, 0, 0], OLD),
    (
        Op::Exchange(1, 2, Some(3)),
        [1, 10, 1, 0, 0, 0],
        Standing::Replied(Reply::Exchange(Ok(Some(3)))),
    ),
    (Op::ComputeInsert(2), [1, 12, 1, 0, 0, 0], COMPUTED),
    (
        Op::Range(1, 3, 2),
        [0, 10, 0, 0, 0, 0],
        Standing::Scanned(2),
    ),
    (Op::Remove(2), [1, 10, 1, 0, 0, 0], TAKEN),
    (
        Op::Remove(1),
        [1, 13, 1, 0, 0, 0],
        Standing::Replied(Reply::Remove(Some(3))),
    ),
    (
        Op::Remove(1),
        [1, 4, 1, 0, 0, 0],
        Standing::Replied(Reply::Remove(None)),
    ),
    (
        Op::ComputePresent(1),
        [1, 4, 1, 0, 0, 0],
        Standing::Replied(Reply::ComputePresent(None)),
    ),
    (
        Op::Get(1),
        [0, 4, 1, 0, 0, 0],
        Standing::Replied(Reply::Get(None)),
    ),
    (Op::Keys, [0, 1, 0, 0, 0, 0], Standing::Surveyed),
    (Op::Unpin, [1, 0, 0, 0, 0, 0], Standing::Unit),
    (Op::Pin, [3, 0, 0, 0, 0, 0], Standing::Unit),
    (Op::Flush, [8, 0, 0, 0, 0, 0], Standing::Unit),
    (Op::Unpin, [1, 0, 0, 0, 0, 0], Standing::Unit),
    (Op::Pin, [3, 0, 0, 0, 0, 0], Standing::Unit),
    (Op::Flush, [8, 0, 0, 0, 0, 1], Standing::Unit),
    (Op::Unpin, [1, 0, 0, 0, 0, 0], Standing::Unit),
];

const NEW: Standing = Standing::Replied(Reply::Insert(None));

const OLD: Standing = Standing::Replied(Reply::Insert(Some(1)));

const COMPUTED: Standing = Standing::Replied(Reply::ComputeInsert(None));

const TAKEN: Standing = Standing::Replied(Reply::Remove(Some(4)));

/// Behind a leaf of 16 places that has four values no lesser leaf can be charged.
const LESSENS: [Row; 8] = [
    (Op::Pin, [8, 0, 0, 0, 0, 0], Standing::Unit),
    (Op::Insert(1, 1), [1, 8, 1, 0, 0, 0], NEW),
    (Op::Insert(2, 4), [1, 11, 1, 0, 0, 0], NEW),
    (Op::Insert(3, 3), [1, 11, 1, 0, 0, 0], NEW),
    (Op::Insert(4, 4), [1, 11, 1, 0, 0, 0], NEW),
    (Op::Insert(5, 5), [1, 14, 1, 0, 0, 0], NEW),
    (
        Op::Remove(5),
        [1, 10, 1, 0, 0, 0],
        Standing::Replied(Reply::Remove(Some(5))),
    ),
    (Op::Remove(2), [1, 11, 1, 0, 1, 0], TAKEN),
];

/// Adds what a step tells.
fn add(counts: &mut Counts, told: Told) {
    let [collector, tree, decided, kept, skipped, destroyed] = *counts;
    *counts = [
        collector.wrapping_add(u64::from(!told.is_of_tree)),
        tree.wrapping_add(u64::from(told.is_of_tree)),
        decided.wrapping_add(u64::from(told.decided)),
        kept.wrapping_add(u64::from(told.kept)),
        skipped.wrapping_add(u64::from(told.skipped)),
        destroyed.wrapping_add(told.destroyed),
    ];
}

/// A whole call of worker 0, step by step: what its steps tell, and how it ends.
fn counted(index: &mut Index, op: Op<u64>) -> (Counts, Standing) {
    let mut told = takes(index, beginning(0, op));
    let mut counts = [0; 6];
    add(&mut counts, told);
    for _ in 0..1_000u32 {
        if told.standing.is_in_flight() {
            told = takes(index, going(0, noise(false, Some(Some(4)))));
            add(&mut counts, told);
        }
    }
    (counts, told.standing)
}

/// What the calls of these rows tell on an index of two workers whose nodes may take so many bytes.
fn told_on<const N: usize>(alloc: Global, bytes: u64, rows: [Row; N]) -> Result<[Row; N], Refusal> {
    let mut index = bounded(alloc, Limits::usual(2, 80), bytes)?;
    let mut rows = rows;
    for row in rows.iter_mut() {
        let (op, _, _) = *row;
        let (counts, standing) = counted(&mut index, op);
        *row = (op, counts, standing);
    }
    discard(index);
    Ok(rows)
}

#[test]
fn steps_tell_what_they_did(rt: HostRuntime) -> Result<(), Fail> {
    let (writes, lessens) = (WRITES, LESSENS);
    let found = (
        told_on(rt.alloc(), u64::MAX, writes)?,
        told_on(rt.alloc(), 2336, lessens)?,
    );
    assert_same(&rt, found, (writes, lessens));
    Ok(())
}

/// The places of a scan of two pairs of three, and how it ends.
fn scanned(index: &mut Index) -> ([(u64, u64); 3], Standing) {
    is_done(index, 0, Op::Pin);
    for key in 1..4 {
        call(index, 0, Call::Insert(key, key));
    }
    let mut places = [(0, 0); 3];
    let outcome = whole(index, 0, Op::Range(1, 4, 2), None, &mut places);
    (places, Standing::of(outcome))
}

#[test]
fn a_scan_leaves_places_that_it_was_not_given(rt: HostRuntime) -> Result<(), Fail> {
    let mut index = open(rt.alloc(), 1, 9)?;
    let found = scanned(&mut index);
    discard(index);
    let expected = ([(1, 1), (2, 2), (0, 0)], Standing::Scanned(2));
    assert_same(&rt, found, expected);
    Ok(())
}

/// A key with a leaf of its own below the root.
const KEY: u64 = 1 << 63;

/// The one worker, pinned after so many pins, removes a leaf for each of so many bags, and queues all of them but the last; then it
/// flushes.
fn fill_bags(index: &mut Index, pins: u32, bags: u32) {
    for _ in 0..pins {
        is_done(index, 0, Op::Pin);
        is_done(index, 0, Op::Unpin);
    }
    is_done(index, 0, Op::Pin);
    for bag in 0..bags {
        if bag > 0 {
            is_done(index, 0, Op::Flush);
        }
        call(index, 0, Call::Insert(KEY, 1));
        call(index, 0, Call::Remove(KEY));
    }
    is_done(index, 0, Op::Unpin);
    is_done(index, 0, Op::Pin);
    is_done(index, 0, Op::Flush);
}

/// How many nodes wait, and how many rounds it takes until none does, the one of the last flush among them.
fn rounds_of(index: &mut Index) -> (u64, u64) {
    let waiting = state(index).1;
    is_done(index, 0, Op::Unpin);
    for rounds in 1..100 {
        if state(index).1 == 0 {
            return (waiting, rounds);
        }
        are_rounds_done(index, 0, 1);
    }
    (waiting, 100)
}

fn rounds_after(alloc: Global, pins: u32, bags: u32) -> Result<(u64, u64), Refusal> {
    let mut index = open(alloc, 1, 100)?;
    fill_bags(&mut index, pins, bags);
    let rounds = rounds_of(&mut index);
    discard(index);
    Ok(rounds)
}

/// Two rounds are enough, and one more for each eight bags; where the pin of the first one doesn't collect, one fewer is. A pin
/// collects after 128 others. It takes the first bag, and the last one is sealed after it.
#[test]
fn few_rounds_are_enough(rt: HostRuntime) -> Result<(), Fail> {
    for (pins, more, most) in [(0, 0, 40u32), (127, 1, 8)] {
        for bags in 1..=most {
            let rounds = u64::from(bags.div_ceil(8).wrapping_add(more).wrapping_add(1));
            let found = rounds_after(rt.alloc(), pins, bags.wrapping_add(more))?;
            assert_same(&rt, (pins, found), (pins, (bags.into(), rounds)));
        }
    }
    Ok(())
}
