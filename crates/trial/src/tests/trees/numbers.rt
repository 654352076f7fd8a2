//! What a tree of numbers is asked as any ordered map, and trees as what a `for` goes over.

use crate::examples::counts::charge_after_counts;
use crate::tests::asserts::assert_same;
use crate::tests::dialogue::told;
use congee::{Calls, Congee, DefaultAllocator, U64Congee};
use std::alloc::Global;
use std::test::Fail;

type Numbers = U64Congee<u64>;

/// The squares of the first numbers.
fn squares(alloc: Global, count: u64) -> Result<Numbers, Fail> {
    let mut tree: Numbers = U64Congee::new(alloc, DefaultAllocator::new())?;
    for number in 0..count {
        tree.insert(number, number.wrapping_mul(number))?;
    }
    Ok(tree)
}

#[test]
fn the_nearest_numbers_are_told_and_go(rt: HostRuntime) -> Result<(), Fail> {
    let mut tree = squares(rt.alloc(), 5)?;
    let at = (tree.at_or_after(3), tree.at_or_before(9));
    let ends = (tree.pop_first(), tree.pop_last());
    let found = tree.compare_exchange(2, &4, Some(5));
    let other = tree.compare_exchange(3, &4, None);
    assert_same(
        &rt,
        (at, ends, found.ok(), other.err()),
        (
            (Some((3, 9)), Some((4, 16))),
            (Some((0, 0)), Some((4, 16))),
            Some(Some(5)),
            Some(Some(9)),
        ),
    );
    Ok(())
}

#[test]
fn a_numbers_place_is_filled_changed_and_emptied(rt: HostRuntime) -> Result<(), Fail> {
    let alloc = rt.alloc();
    let mut tree = squares(alloc, 3)?;
    let raised = tree
        .entry(2)
        .and_modify(|value| value.wrapping_add(1))
        .or_insert(0)?;
    let made = tree.entry(6).or_insert_with(|| 8)?;
    let before = tree.entry(6).insert(9)?;
    let taken = tree.entry(0).remove();
    let changed = tree.update(1, |value| value.wrapping_add(10));
    let first = tree.update_or_insert(8, |found| found.unwrap_or(3))?;
    let told = told(alloc, &tree)?;
    assert_same(
        &rt,
        (
            (raised, made, before),
            (taken, changed, first),
            told.as_str(),
        ),
        (
            (5, 8, Some(8)),
            (Some(0), Some(1), None),
            "{1: 11, 2: 5, 6: 9, 8: 3}",
        ),
    );
    Ok(())
}

#[test]
fn numbers_are_kept_taken_put_and_copied(rt: HostRuntime) -> Result<(), Fail> {
    let alloc = rt.alloc();
    let mut tree: Numbers = U64Congee::from_sorted(
        alloc,
        DefaultAllocator::new(),
        Vec::from_array(alloc, [(1u64, 10u64), (2, 20), (3, 30), (5, 50)])?,
    )?;
    tree.retain(|key, _| key % 2 == 1);
    let taken = tree.remove_range(2, 4);
    tree.extend(Vec::from_array(alloc, [(7u64, 1u64)])?)?;
    let copy = tree.try_clone(alloc, DefaultAllocator::new())?;
    let told = told(alloc, &copy)?;
    assert_same(
        &rt,
        (taken, told.as_str(), tree == copy),
        (1, "{1: 10, 5: 50, 7: 1}", true),
    );
    Ok(())
}

#[test]
fn a_for_goes_over_a_tree(rt: HostRuntime) -> Result<(), Fail> {
    let alloc = rt.alloc();
    let tree = squares(alloc, 4)?;
    let mut sum = 0u64;
    for (key, value) in &tree {
        sum = sum.wrapping_add(key).wrapping_add(value);
    }
    for value in tree.values_iter() {
        sum = sum.wrapping_add(value);
    }
    let mut keys = 0u64;
    for key in tree.keys_iter().rev() {
        keys = keys.wrapping_mul(10).wrapping_add(key);
    }
    assert_same(&rt, (sum, keys), (34, 3210));
    Ok(())
}

#[test]
fn a_for_takes_a_tree(rt: HostRuntime) -> Result<(), Fail> {
    let tree = squares(rt.alloc(), 4)?;
    let mut rest = tree.into_iter();
    let ends = (rest.next(), rest.next_back());
    let mut last = None;
    for pair in rest {
        last = Some(pair);
    }
    assert_same(
        &rt,
        (ends, last),
        ((Some((0, 0)), Some((3, 9))), Some((2, 4))),
    );
    Ok(())
}

#[test]
fn a_for_goes_over_a_tree_of_words(rt: HostRuntime) -> Result<(), Fail> {
    let mut tree: Congee<i64, u64> = Congee::new(rt.alloc(), DefaultAllocator::new())?;
    tree.insert(-3, 1)?;
    tree.insert(4, 2)?;
    let mut sum = 0u64;
    let mut last = 0i64;
    for (key, value) in &tree {
        sum = sum.wrapping_add(value);
        last = key;
    }
    assert_same(&rt, (sum, last), (3, 4));
    Ok(())
}

#[test]
fn a_drainer_is_handed_the_numbers(rt: HostRuntime) -> Result<(), Fail> {
    let mut sum = 0u64;
    let drainer = Calls::new(|key: u64, value: u64| {
        sum = sum.wrapping_add(key).wrapping_add(value);
    });
    let mut tree: U64Congee<u64, DefaultAllocator, _> = U64Congee::new_with_drainer(
        rt.alloc(),
        DefaultAllocator::new(),
        drainer,
    )?;
    tree.insert(3, 4)?;
    let _ = tree.close();
    assert_same(&rt, sum, 7);
    Ok(())
}

#[test]
fn numbers_are_counted_at_their_places(rt: HostRuntime) -> Result<(), Fail> {
    let counted = charge_after_counts(rt.alloc(), 100_000, &[3, 5, 3])?;
    assert_same(&rt, counted, (0, 2));
    Ok(())
}
