//! What owned trees do that grow and shrink, for the dialogues of `owned`: a leaf, and an inner node at each depth, go up and down
//! through all forms; what moved up is changed. And owners move with their nodes.

use super::owned::Tree;
use crate::tests::asserts::assert_same;
use congee::{CongeeArc, OOMError};
use std::alloc::{AllocError, Global};
use std::sync::Arc;
use std::test::Fail;

/// How many children a node comes to have, one row after another, and its size then. It goes up and then down: a greater form comes
/// with the child that no longer fits, a lesser one with the removal that leaves 40, 12 or 3, and one that has come stays where a
/// few come back. There is no inner node over a single child.
const ROWS: [(u64, u64); 20] = [
    (1, 0),
    (2, 64),
    (4, 64),
    (5, 168),
    (16, 168),
    (17, 672),
    (48, 672),
    (49, 2104),
    (41, 2104),
    (40, 672),
    (48, 672),
    (13, 672),
    (12, 168),
    (16, 168),
    (4, 168),
    (3, 64),
    (4, 64),
    (2, 64),
    (1, 0),
    (0, 0),
];

/// The first key below a child. The bytes that lead to the children do not come in order: 0, 85, 170, 255, 84 and so on.
fn key_at(place: u64, distance: u64) -> u64 {
    (place.wrapping_mul(85) % 256).wrapping_mul(distance)
}

/// Puts the keys of further children in, or takes those of the last ones out, until there are so many.
fn brings(
    tree: &mut Tree,
    now: u64,
    count: u64,
    distance: u64,
    beside: u64,
) -> Result<(), OOMError> {
    for place in now..count {
        let key = key_at(place, distance);
        let other = key.wrapping_add(beside);
        tree.insert(key, key)?;
        tree.insert(other, other)?;
    }
    for place in count..now {
        let key = key_at(place, distance);
        tree.remove(&key);
        tree.remove(&key.wrapping_add(beside));
    }
    Ok(())
}

/// Whether each key below so many children is found.
fn are_found(tree: &Tree, count: u64, distance: u64, beside: u64) -> bool {
    let mut found = true;
    for place in 0..count {
        let key = key_at(place, distance);
        let other = key.wrapping_add(beside);
        found &= tree.get(&key) == Some(key) && tree.get(&other) == Some(other);
    }
    found
}

/// Whether a node goes up and down as the rows say. Given are how far its children are apart: those of a leaf, whose prefix has seven
/// bytes, or those of an inner node, whose prefix has six bytes at the least distance and one at the greatest; how far the second key
/// below each child is from the first, with one key where both are the same; and the size of the nodes below each. Each key that is
/// there is found at each row, and the root is charged as well.
pub fn goes(tree: &mut Tree, [distance, beside, below]: [u64; 3]) -> Result<bool, Fail> {
    let mut now = 0;
    let mut is_right = true;
    for (count, size) in &ROWS {
        brings(tree, now, *count, distance, beside)?;
        now = *count;
        // A value that is alone has a least leaf.
        let each = if now == 1 { below.max(64) } else { below };
        let children = now.wrapping_mul(each);
        is_right &= tree.charged() == size.wrapping_add(children).wrapping_add(2104);
        is_right &= are_found(tree, now, distance, beside);
    }
    Ok(is_right && tree.is_empty())
}

/// Whether these keys get values, each with another key beside it, and all of them are removed again.
pub fn changes(tree: &mut Tree, keys: &[u64]) -> Result<bool, Fail> {
    for key in keys {
        tree.insert(*key, 7)?;
        tree.insert(key.wrapping_add(3 << 40), 8)?;
    }
    let mut right = true;
    for key in keys {
        right &= tree.remove(key) == Some(7);
        right &= tree.remove(&key.wrapping_add(3 << 40)) == Some(8);
    }
    Ok(right)
}

/// The number of an owner.
fn number_of(owner: Option<Arc<u64, Global>>) -> Option<u64> {
    match owner {
        Some(owner) => Some(*owner),
        None => None,
    }
}

/// Whether owners go down as words do: each is handed back once, and those that are left are found.
fn owners_move(alloc: Global, tree: &mut CongeeArc<u64, u64>) -> Result<bool, AllocError> {
    let mut right = true;
    for key in 0..60u64 {
        let owner = Arc::new(alloc, key)?;
        right &= matches!(tree.insert(key.wrapping_mul(256), owner), Ok(None));
    }
    for key in 0..58u64 {
        right &= number_of(tree.remove(key.wrapping_mul(256))) == Some(key);
    }
    for key in 58..60u64 {
        right &= match tree.get(key.wrapping_mul(256)) {
            Ok(owner) => number_of(owner) == Some(key),
            Err(_) => false,
        };
    }
    Ok(right)
}

#[test]
fn shared_values_move_with_their_nodes(rt: HostRuntime) -> Result<(), Fail> {
    let mut tree: CongeeArc<u64, u64> = CongeeArc::new(rt.alloc())?;
    let moved = owners_move(rt.alloc(), &mut tree);
    tree.close();
    assert_same(&rt, moved?, true);
    Ok(())
}
