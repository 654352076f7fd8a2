//! What an owned tree is asked as any ordered map: of several pairs at once, at a key's place, made of pairs, copied and compared.

use crate::examples::tallies::{copy_of, cuts, extended, keeps_repeated, made_of, tally};
use crate::tests::asserts::assert_same;
use crate::tests::dialogue::told;
use congee::BuildError;
use std::test::Fail;

#[test]
fn several_pairs_are_kept_and_taken(rt: HostRuntime) -> Result<(), Fail> {
    let mut tree = tally(rt.alloc(), &[3, 1, 9, 3, 7, 9, 5, 9, 1])?;
    keeps_repeated(&mut tree);
    let kept = told(rt.alloc(), &tree)?;
    let taken = cuts(&mut tree, 2, 9);
    let left = told(rt.alloc(), &tree)?;
    assert_same(
        &rt,
        (kept.as_str(), taken, left.as_str()),
        ("{1: 2, 3: 2, 9: 3}", 1, "{1: 2, 9: 3}"),
    );
    Ok(())
}

#[test]
fn a_place_is_filled_changed_and_emptied(rt: HostRuntime) -> Result<(), Fail> {
    let mut tree = tally(rt.alloc(), &[0, 1, 1])?;
    let made = tree.entry(6).or_insert_with(|| 8)?;
    let before = tree.entry(6).insert(9)?;
    let taken = tree.entry(0).remove();
    let changed = tree.update(&1, |value| value.wrapping_add(10));
    let first = tree.update_or_insert(8, |found| found.unwrap_or(3))?;
    let told = told(rt.alloc(), &tree)?;
    assert_same(
        &rt,
        (made, before, taken, changed, first, told.as_str()),
        (8, Some(8), Some(1), Some(2), None, "{1: 12, 6: 9, 8: 3}"),
    );
    Ok(())
}

#[test]
fn a_tree_is_made_of_pairs_and_copied(rt: HostRuntime) -> Result<(), Fail> {
    let alloc = rt.alloc();
    let tree = made_of(alloc, Vec::from_array(alloc, [(1, 10), (5, 50), (300, 3)])?)?;
    let copy = extended(alloc, &tree, Vec::from_array(alloc, [(7, 1), (5, 51)])?)?;
    let is_same = [tree == copy_of(alloc, &tree)?, tree == copy];
    let unsorted = made_of(alloc, Vec::from_array(alloc, [(1, 10), (5, 50), (5, 51)])?);
    let texts = told(alloc, &(&tree, &copy))?;
    assert_same(
        &rt,
        (is_same, texts.as_str(), unsorted.err()),
        (
            [true, false],
            "({1: 10, 5: 50, 300: 3}, {1: 10, 5: 51, 7: 1, 300: 3})",
            Some(BuildError::OutOfOrder { place: 2 }),
        ),
    );
    Ok(())
}
