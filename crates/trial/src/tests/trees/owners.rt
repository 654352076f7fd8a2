//! What a tree of shared values is asked as any ordered map.

use crate::tests::asserts::assert_same;
use congee::{CongeeArc, Count};
use std::alloc::{AllocError, Global};
use std::sync::Arc;
use std::test::Fail;

type Tree = CongeeArc<u64, u64>;

/// A pair that was found, with its value.
fn pair(found: Option<(u64, Arc<u64, Global>)>) -> Option<(u64, u64)> {
    match found {
        Some((key, value)) => Some((key, *value)),
        None => None,
    }
}

/// The same of a call that may be refused.
fn told(found: Result<Option<(u64, Arc<u64, Global>)>, Count>) -> Option<(u64, u64)> {
    match found {
        Ok(found) => pair(found),
        Err(_) => None,
    }
}

/// A tree of the squares of the first numbers, or none where there is no room.
fn squares(alloc: Global, count: u64) -> Result<Option<Tree>, AllocError> {
    let Ok(mut tree) = CongeeArc::new(alloc) else {
        return Ok(None);
    };
    for number in 0..count {
        let value = Arc::new(alloc, number.wrapping_mul(number))?;
        if tree.insert(number, value).is_err() {
            return Ok(None);
        }
    }
    Ok(Some(tree))
}

#[test]
fn shared_values_are_gone_over(rt: HostRuntime) -> Result<(), Fail> {
    let Some(tree) = squares(rt.alloc(), 5)? else {
        return Ok(());
    };
    let mut told = 0u64;
    for (key, value) in &tree {
        told = told
            .wrapping_mul(100)
            .wrapping_add(key)
            .wrapping_add(*value);
    }
    for (key, value) in tree.range_iter(1..3) {
        told = told.wrapping_add(key).wrapping_add(*value);
    }
    for key in tree.keys_iter().rev() {
        told = told.wrapping_mul(10).wrapping_add(key);
    }
    let last = match tree.values_iter().next_back() {
        Some(value) => *value,
        None => 0,
    };
    let counted = tree.stats()?.kv_pairs;
    let known = (tree.len(), tree.contains_key(4), tree.contains_key(5));
    assert_same(
        &rt,
        ((told, last), (known, counted)),
        ((206_122_843_210, 16), ((5, true, false), 5)),
    );
    Ok(())
}

#[test]
fn the_nearest_owners_are_told_and_go(rt: HostRuntime) -> Result<(), Fail> {
    let Some(mut tree) = squares(rt.alloc(), 5)? else {
        return Ok(());
    };
    let ends = (told(tree.first()), told(tree.last()));
    let at = (told(tree.at_or_after(3)), told(tree.at_or_before(9)));
    let next = (told(tree.next_after(3)), told(tree.next_before(3)));
    let taken = (pair(tree.pop_first()), pair(tree.pop_last()));
    let left = (
        tree.len(),
        told(tree.next_after(u64::MAX)),
        told(tree.last()),
    );
    assert_same(
        &rt,
        ((ends, at, next), (taken, left)),
        (
            (
                (Some((0, 0)), Some((4, 16))),
                (Some((3, 9)), Some((4, 16))),
                (Some((4, 16)), Some((2, 4))),
            ),
            ((Some((0, 0)), Some((4, 16))), (3, None, Some((3, 9)))),
        ),
    );
    Ok(())
}

#[test]
fn an_answer_is_put_in_for_an_owner(rt: HostRuntime) -> Result<(), Fail> {
    let alloc = rt.alloc();
    let Some(mut tree) = squares(alloc, 2)? else {
        return Ok(());
    };
    let other = Arc::new(alloc, 7u64)?;
    let again = Arc::try_clone(&other)?;
    let kept = tree.compute_or_insert(1, move |found| found.unwrap_or(other));
    let put = tree.compute_or_insert(9, move |found| found.unwrap_or(again));
    let found = (told(tree.at_or_after(1)), told(tree.last()));
    assert_same(
        &rt,
        (kept.is_ok(), put.is_ok(), found),
        (true, true, (Some((1, 1)), Some((9, 7)))),
    );
    Ok(())
}

#[test]
fn a_for_takes_a_tree_of_owners(rt: HostRuntime) -> Result<(), Fail> {
    let Some(tree) = squares(rt.alloc(), 4)? else {
        return Ok(());
    };
    let mut rest = tree.into_iter();
    let last = pair(rest.next_back());
    let mut sum = 0u64;
    for (key, value) in rest {
        sum = sum.wrapping_mul(10).wrapping_add(key).wrapping_add(*value);
    }
    assert_same(&rt, (last, sum), (Some((3, 9)), 26));
    Ok(())
}
