//! An index without room for the node that a key wants: for a growth of each form, for a first node, for a node over two others.

use super::calls::{Timed, called, told};
use super::lanes::{Task, count_of, ran};
use crate::tests::asserts::assert_same;
use judge::{Call, Reply};
use optimistic::{Refusal, Worker};
use std::alloc::{AllocError, Global};
use std::sync::Wait;
use std::test::Fail;

/// Keys that fill nodes of one kind.
#[derive(Clone, Copy)]
pub enum Row {
    /// Of one inner node, with a lone leaf below each byte.
    Inner,
    /// Of one leaf.
    Leaf,
    /// Each parts from the others one byte further up.
    Parting,
}

impl Row {
    /// The key at a place, in the second part of all keys by their first byte.
    fn key(self, place: u64) -> u64 {
        let at = match self {
            Row::Inner => place << 48,
            Row::Leaf => place,
            Row::Parting => (1 << (place.wrapping_mul(8) % 64)) / 256,
        };
        1 << 56 | at
    }
}

/// More keys than a node has children.
const MOST: u64 = 256;

/// Puts keys in until one is refused, and tells how many came in.
fn fills<R: Wait>(rt: &R, worker: &mut Worker, row: Row, most: u64) -> u64 {
    for place in 0..most {
        if worker.insert(rt, row.key(place), place) != Ok(None) {
            return place;
        }
    }
    most
}

/// How many of the first keys have what was put there.
fn found<R: Wait>(rt: &R, worker: &mut Worker, row: Row, count: u64) -> u64 {
    let mut found = 0u64;
    for place in 0..count {
        let is_found = worker.get(rt, row.key(place)) == Some(place);
        found = found.saturating_add(u64::from(is_found));
    }
    found
}

/// Whether a refused key leaves all as it was: the others' values, a write over one of them, and a key elsewhere.
fn is_refused<R: Wait>(rt: &R, worker: &mut Worker, row: Row, taken: u64) -> bool {
    let (key, first) = (row.key(taken), row.key(0));
    let refused = [worker.insert(rt, key, taken), worker.try_insert(key, taken)];
    let computed = called(rt, worker, Call::ComputeInsert(key, taken), 0);
    let stood = found(rt, worker, row, taken);
    let absent = worker.get(rt, key);
    let written = [
        worker.insert(rt, first, 7),
        worker.insert(rt, 7, 7),
        worker.remove(rt, first),
        worker.remove(rt, 7),
        worker.insert(rt, first, 0),
    ];
    refused == [Err(Refusal::Full), Err(Refusal::Full)]
        && computed == Err(Refusal::Full)
        && (stood, absent) == (taken, None)
        && written == [Ok(Some(0)), Ok(None), Ok(Some(7)), Ok(Some(7)), Ok(None)]
}

/// The calls that put as many keys of a row in as come in; none of them where the next one doesn't leave all as it was.
pub fn filled<R: Wait>(
    rt: &R,
    alloc: Global,
    worker: &mut Worker,
    row: Row,
) -> Result<Vec<Timed>, AllocError> {
    let taken = fills(rt, worker, row, MOST);
    let mut put = Vec::new(alloc);
    if taken == MOST || is_refused(rt, worker, row, taken) {
        for place in 0..taken {
            put.push(told(0, Call::Insert(row.key(place), place), Reply::Insert(None)))?;
        }
    }
    Ok(put)
}

/// Inner nodes have 12, 40, 112 and 520 words, leaves 8, 24, 64 and 264.
const ROWS: [(Row, u32, usize); 24] = [
    (Row::Inner, 0, 1),
    (Row::Inner, 11, 1),
    (Row::Inner, 12, 4),
    (Row::Inner, 51, 4),
    (Row::Inner, 52, 16),
    (Row::Inner, 163, 16),
    (Row::Inner, 164, 48),
    (Row::Inner, 683, 48),
    (Row::Inner, 684, 256),
    (Row::Leaf, 0, 1),
    (Row::Leaf, 7, 1),
    (Row::Leaf, 8, 4),
    (Row::Leaf, 31, 4),
    (Row::Leaf, 32, 16),
    (Row::Leaf, 95, 16),
    (Row::Leaf, 96, 48),
    (Row::Leaf, 359, 48),
    (Row::Leaf, 360, 256),
    (Row::Parting, 7, 1),
    (Row::Parting, 8, 2),
    (Row::Parting, 19, 2),
    (Row::Parting, 20, 3),
    (Row::Parting, 31, 3),
    (Row::Parting, 32, 4),
];

#[test]
fn a_key_without_room_changes_nothing(rt: HostRuntime) -> Result<(), Fail> {
    for (number, (row, room, taken)) in ROWS.iter().enumerate() {
        let (lanes, pairs) = ran(&rt, rt.alloc(), *room, 1, Task::Fills(*row))?;
        let known = (count_of(&lanes), pairs.len());
        assert_same(&rt, (number, known), (number, (*taken, *taken)));
    }
    Ok(())
}
