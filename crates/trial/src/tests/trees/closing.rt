//! Owned trees that are closed, number trees, and sequences beside a `BTreeMap`.
use crate::tests::asserts::assert_same;
use crate::tests::machine::drawn::{next, number_in};
use congee::{Allocator, Calls, Congee, DefaultAllocator, Limited, NoDrain, U64Congee};
use std::alloc::Global;
use std::collections::BTreeMap;
use std::test::Fail;

type Words = Congee<u64, u64, DefaultAllocator, NoDrain>;

type Numbers = U64Congee<u64, DefaultAllocator>;

type Map = BTreeMap<u64, u64>;

// Whether each pair is new in a tree.
fn puts<D: Drop>(
    tree: &mut Congee<u64, u64, Limited, D>,
    pairs: &[(u64, u64)],
) -> Result<bool, Fail> {
    for (key, value) in pairs {
        if tree.insert(*key, *value)?.is_some() {
            return Ok(false);
        }
    }
    Ok(true)
}

// Whether the drainer of a closed tree takes the pairs so, and nothing stays charged.
fn drains(alloc: Global, pairs: &[(u64, u64)], so: &[(u64, u64)]) -> Result<bool, Fail> {
    let mut seen = [(0u64, 0u64); 4];
    let mut count = 0usize;
    let keep = |key: u64, value: u64| {
        if let Some(place) = seen.get_mut(count) {
            *place = (key, value);
        }
        count = count.saturating_add(1);
    };
    let mut tree = Congee::new_with_drainer(alloc, Limited::new(4096), Calls::new(keep))?;
    let new = puts(&mut tree, pairs);
    let (allocator, _drainer) = tree.close();
    let left = (allocator.charged(), allocator.limit());
    Ok(new? && seen.get(..count) == Some(so) && left == (0, 4096))
}

#[test]
fn a_drainer_takes_ascending_pairs(rt: HostRuntime) -> Result<(), Fail> {
    let pairs = [(u64::MAX, 14), (256, 13), (0, 11), (1, 12)];
    let ascending = [(0, 11), (1, 12), (256, 13), (u64::MAX, 14)];
    let one = drains(rt.alloc(), &[(1, 42)], &[(1, 42)])?;
    let four = drains(rt.alloc(), &pairs, &ascending)?;
    assert_same(&rt, (one, four), (true, true));
    Ok(())
}

fn number_range_is(tree: &Numbers, start: u64, end: u64, pairs: &[([u8; 8], u64)]) -> bool {
    let mut found = [([1u8; 8], 0u64); 8];
    let count = tree.range(start, end, &mut found);
    found.get(..count) == Some(pairs)
}

fn number_scan_is(tree: &Numbers, start: u64, last: u64, pairs: &[([u8; 8], u64)]) -> bool {
    let mut found = [([1u8; 8], 0u64); 8];
    let count = tree.range_inclusive(start, last, &mut found);
    found.get(..count) == Some(pairs)
}

fn gives_bytes(tree: &mut Numbers) -> Result<bool, Fail> {
    Ok(
        tree.insert(0, 42)?.is_none()
            && tree.charged() == 2168
            && tree.get(0) == Some(42)
            && number_range_is(tree, 0, 10, &[([0u8; 8], 42)])
            && tree.insert(258, 43)?.is_none()
            && number_range_is(tree, 1, 259, &[([0, 0, 0, 0, 0, 0, 1, 2], 43)])
            && number_scan_is(tree, 1, 258, &[([0, 0, 0, 0, 0, 0, 1, 2], 43)])
            && tree.remove(258) == Some(43),
    )
}

#[test]
fn a_number_range_gives_bytes(rt: HostRuntime) -> Result<(), Fail> {
    let mut tree: Numbers = U64Congee::new(rt.alloc(), DefaultAllocator::new())?;
    let given = gives_bytes(&mut tree);
    let (allocator, _drainer) = tree.close();
    assert!(rt; given? && allocator.charged() == 0);
    Ok(())
}

#[derive(Clone, Copy)]
enum Call {
    Insert,
    Get,
    Remove,
}

/// Which key comes at which turn.
#[derive(Clone, Copy)]
enum Order {
    Dense,
    /// Each of the keys below so many as there are turns, 7,919 apart.
    Shuffled,
    Scattered,
    /// A leaf of its own for each.
    Lone,
    /// The next key in each such leaf.
    Paired,
    /// Keys of few bytes that differ, so that nodes part on each level, and leaves have one value, few or many.
    Drawn,
    /// The greatest key of all.
    Greatest,
}

impl Order {
    fn key(self, turn: u64, count: u64) -> u64 {
        match self {
            Order::Dense => turn,
            Order::Shuffled => turn.wrapping_mul(7919) % count.max(1),
            Order::Scattered => { turn.wrapping_mul(11400714819323198485) & 0x7fff_ffff_ffff_ffff }
            Order::Lone => turn.wrapping_mul(256),
            Order::Paired => turn.wrapping_mul(256).wrapping_add(1),
            Order::Drawn => drawn(next(turn)),
            Order::Greatest => u64::MAX,
        }
    }
}

/// The key that a number stands for.
fn drawn(number: u64) -> u64 {
    let low = number.wrapping_shr(20) % 64;
    match number.wrapping_shr(40) % 6 {
        0 => low,
        1 => low.wrapping_mul(256),
        2 => low.wrapping_shl(32),
        3 => low.wrapping_shl(56).wrapping_add(low % 2),
        4 => low.wrapping_shl(24).wrapping_add(low.wrapping_shl(16)),
        _ => (low % 8).wrapping_mul(0x0001_0001_0001_0001),
    }
}

/// One call with the keys of the turns from the first up to the second, in halves of a sequence's keys.
#[derive(Clone, Copy)]
struct Part(Call, Order, u64, u64);

/// How many keys a long sequence has; a hundred times as many in the sweep, which would take minutes without optimization.
const KEYS: u32 = 1_000;

const DENSE: [Part; 4] = [
    Part(Call::Insert, Order::Dense, 0, 2),
    Part(Call::Get, Order::Dense, 0, 4),
    Part(Call::Remove, Order::Dense, 0, 1),
    Part(Call::Get, Order::Dense, 0, 2),
];

const SHUFFLED: [Part; 2] = [
    Part(Call::Insert, Order::Shuffled, 0, 2),
    Part(Call::Get, Order::Dense, 0, 4),
];

const SCATTERED: [Part; 4] = [
    Part(Call::Insert, Order::Scattered, 0, 2),
    Part(Call::Insert, Order::Greatest, 0, 1),
    Part(Call::Remove, Order::Scattered, 0, 1),
    Part(Call::Get, Order::Scattered, 0, 2),
];

const FULL_NODE: [Part; 4] = [
    Part(Call::Insert, Order::Dense, 0, 48),
    Part(Call::Remove, Order::Dense, 24, 30),
    Part(Call::Insert, Order::Dense, 24, 30),
    Part(Call::Get, Order::Dense, 0, 48),
];

/// What is done with the leaves below one node: each gets a second value, and loses the first one, and then the other way.
const LEAVES: [Part; 9] = [
    Part(Call::Insert, Order::Lone, 0, 2),
    Part(Call::Insert, Order::Paired, 0, 2),
    Part(Call::Get, Order::Lone, 0, 2),
    Part(Call::Remove, Order::Lone, 0, 2),
    Part(Call::Get, Order::Paired, 0, 2),
    Part(Call::Insert, Order::Lone, 0, 2),
    Part(Call::Remove, Order::Paired, 0, 2),
    Part(Call::Get, Order::Lone, 0, 2),
    Part(Call::Get, Order::Paired, 0, 2),
];

/// All grows and shrinks again and again.
const GROWS: [Part; 8] = [
    Part(Call::Insert, Order::Drawn, 0, 2),
    Part(Call::Remove, Order::Drawn, 1, 4),
    Part(Call::Insert, Order::Drawn, 3, 5),
    Part(Call::Remove, Order::Drawn, 4, 7),
    Part(Call::Insert, Order::Drawn, 6, 9),
    Part(Call::Remove, Order::Drawn, 7, 8),
    Part(Call::Insert, Order::Greatest, 0, 1),
    Part(Call::Get, Order::Drawn, 0, 9),
];

/// Sequences, with half of their keys, or 0 where a sequence is long.
const SEQUENCES: [(&[Part], u64); 9] = [
    (&DENSE, 0),
    (&SHUFFLED, 0),
    (&SCATTERED, 0),
    (&FULL_NODE, 1),
    (&LEAVES, 2),
    (&LEAVES, 8),
    (&LEAVES, 24),
    (&LEAVES, 128),
    (&GROWS, 300),
];

// Whether the tree and the map answer a call alike; a key is inserted with itself.
fn agrees(tree: &mut Words, map: &mut Map, call: Call, key: u64) -> Result<bool, Fail> {
    Ok(match call {
        Call::Insert => tree.insert(key, key)? == map.insert(key, key)?,
        Call::Get => tree.get(&key) == map.get(&key).copied(),
        Call::Remove => tree.remove(&key) == map.remove(&key),
    })
}

fn part_agrees(tree: &mut Words, map: &mut Map, part: &Part, half: u64) -> Result<bool, Fail> {
    let Part(call, order, start, end) = part;
    for turn in start.wrapping_mul(half)..end.wrapping_mul(half) {
        let key = order.key(turn, half.wrapping_mul(2));
        if !agrees(tree, map, *call, key)? {
            return Ok(false);
        }
    }
    Ok(true)
}

/// Numbers from which scans to the greatest key start.
const STARTS: [u64; 7] = [0, 1, 300, 99_999, 1 << 40, u64::MAX - 1, u64::MAX];

// Whether a scan to the greatest key finds the map's pairs, and leaves the place past them as it was.
fn ends_agree(tree: &Words, map: &Map, start: u64) -> bool {
    let mut found = [(7, 7); 65];
    let count = tree.range_inclusive(&start, &u64::MAX, &mut found);
    let mut pairs = map.range(start..=u64::MAX);
    for pair in found.iter().take(count) {
        if pairs.next() != Some((&pair.0, &pair.1)) {
            return false;
        }
    }
    (count == 65 || pairs.next().is_none() && found[count] == (7, 7))
        && tree.range(&start, &u64::MAX, &mut found) <= count
}

// Whether a tree and a map answer these parts alike, and then such scans, and have the same keys.
fn parts_agree(tree: &mut Words, map: &mut Map, parts: &[Part], half: u64) -> Result<bool, Fail> {
    let mut alike = true;
    for part in parts {
        alike &= part_agrees(tree, map, part, half)?;
    }
    for start in &STARTS {
        alike &= ends_agree(tree, map, *start);
    }
    Ok(alike && tree.keys()?.iter().eq(map.keys()) && tree.len() == map.len() as u64)
}

// Whether an empty tree answers as a map.
fn all_agree(alloc: Global, parts: &[Part], half: u64) -> Result<bool, Fail> {
    let mut tree: Words = Congee::new(alloc, DefaultAllocator::new())?;
    let mut map = Map::new(alloc);
    let agreed = parts_agree(&mut tree, &mut map, parts, half);
    tree.close();
    agreed
}

#[test]
fn long_sequences_answer_as_a_map(rt: HostRuntime) -> Result<(), Fail> {
    let long = u64::from(number_in(&rt, "TRIAL_KEYS", KEYS) / 2);
    for (number, (parts, half)) in SEQUENCES.iter().enumerate() {
        let half = if *half == 0 { long } else { *half };
        let agreed = all_agree(rt.alloc(), *parts, half)?;
        assert_same(&rt, (number, agreed), (number, true));
    }
    Ok(())
}
