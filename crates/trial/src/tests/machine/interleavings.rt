//! Two calls on the machine, by the orders of their steps and with collections between any two of them: they answer as
//! one map does, and the nodes that stand are charged.

use super::drawn::number_in;
use super::one_map::Case;
use super::orders::{Course, LONG, Plays, Turn, is_tried, lengths, single};
use crate::tests::asserts::assert_same;
use crate::tests::texts::{array, named, part};
use std::alloc::Global;
use std::test::Fail;

/// Two calls that find nothing on their way.
const SHORT: [&str; 2] = [
    "a look-up and an insertion of one key: ; get 5; insert 5 1; 2168; 2168",
    "a removal and an insertion of one key: ; remove 5; insert 5 1; 2168; 2104",
];

/// Two calls on a small tree: the pairs that are put there before; both calls; what the tree takes in the end, in bytes, where the
/// first one took effect first, and where the second one did; and the keys of those pairs that are taken out again before.
pub const CASES: [&str; 36] = [
    // Two calls put values there.
    "two insertions of one key: ; insert 5 1; insert 5 2; 2168; 2168",
    "two insertions whose ways part above the leaves: ; insert 1 1; insert 256 2; 2296; 2296",
    "two insertions into one leaf: 1:1; insert 2 2; insert 3 3; 2168; 2168",
    "two insertions into a full leaf: 1:1 2:2 3:3 4:4; insert 5 5; insert 0 9; 2272; 2272",
    "a growth and a split: 1:1 2:2 3:3 4:4; insert 5 5; insert 256 9; 2400; 2400",
    // A look-up while the tree changes its form.
    "a look-up and a growth: 1:1 2:2 3:3 4:4; get 1; insert 5 5; 2272; 2272",
    "a look-up and a split: 1:1; get 256; insert 256 9; 2296; 2296",
    "a look-up and a removal of a leaf: 1:1; get 1; remove 1; 2104; 2104",
    "a look-up and another value: 1:42; get 1; insert 1 9; 2168; 2168",
    // A removal while the tree changes its form.
    "a removal and a growth: 1:1 2:2 3:3 4:4; remove 1; insert 5 5; 2168; 2272",
    "a removal of a leaf and a split: 1:1; remove 1; insert 256 9; 2168; 2168",
    "a removal of a leaf and an insertion into it: 1:1; remove 1; insert 2 9; 2168; 2168",
    "a removal of a leaf and an insertion of its key: 1:1; remove 1; insert 1 9; 2168; 2104",
    "two removals of a leaf: 1:1; remove 1; remove 1; 2104; 2104",
    // A removal takes an inner node out.
    "two removals below one node: 1:1 256:2; remove 1; remove 256; 2104; 2104",
    "a removal and an insertion into the node that goes: 1:1 256:2; remove 1; insert 512 9; 2296; 2296",
    "a removal and an insertion into the leaf that stays: 1:1 256:2; remove 1; insert 257 9; 2168; 2168",
    "a removal and an insertion into the leaf that goes: 1:1 256:2; remove 1; insert 2 9; 2296; 2296",
    "a removal and an insertion of its key: 1:1 256:2; remove 1; insert 1 9; 2296; 2168",
    "a removal and an insertion above the node that goes: 1:1 256:2; remove 1; insert 65536 9; 2296; 2296",
    "a removal and an exchange of the value that comes up: 1:1 256:2; remove 1; cas 256 2 3; 2168; 2168",
    "a removal and a look-up in the leaf that stays: 1:1 256:2; remove 1; get 256; 2168; 2168",
    "a removal and a look-up in the leaf that goes: 1:1 256:2; remove 1; get 1; 2168; 2168",
    "a node comes up, and an insertion into it: 1:1 65536:2 65792:3; remove 1; insert 66048 9; 2360; 2360",
    "two nodes go, one above the other: 1:1 65536:2 65792:3; remove 1; remove 65536; 2168; 2168",
    // A removal makes a node smaller.
    "two removals from a leaf that gives place: 1:1 2:2 3:3 4:4 5:5; remove 1; remove 2; 2168; 2168",
    "a removal and an insertion into the leaf that gives place: 1:1 2:2 3:3 4:4 5:5; remove 2; insert 0 9; 2168; 2272; 1",
    "a removal and another value in the leaf that gives place: 1:1 2:2 3:3 4:4 5:5; remove 2; insert 3 9; 2168; 2168; 1",
    "a removal and a look-up in the leaf that gives place: 1:1 2:2 3:3 4:4 5:5; remove 2; get 3; 2168; 2168; 1",
    "a removal and a split above the leaf that gives place: 1:1 2:2 3:3 4:4 5:5; remove 2; insert 256 9; 2296; 2296; 1",
    "two removals below a node that gives place: 1:1 257:2 513:3 769:4 1025:5; remove 769; remove 513; 2296; 2296; 1025",
    "two removals, of which the second makes a node give place: 1:1 257:2 513:3 769:4 1025:5; remove 769; remove 1025; 2360; 2360",
    "a removal and an insertion below the node that gives place: 1:1 257:2 513:3 769:4 1025:5; remove 769; insert 1025 9; 2424; 2528; 1025",
    "a removal and an insertion into a leaf below it: 1:1 257:2 513:3 769:4 1025:5; remove 769; insert 256 9; 2360; 2360; 1025",
    "a removal and an insertion into the leaf that goes: 1:1 257:2 513:3 769:4 1025:5; remove 769; insert 768 9; 2424; 2528; 1025",
    "a removal and a look-up below the node that gives place: 1:1 257:2 513:3 769:4 1025:5; remove 769; get 513; 2360; 2360; 1025",
];

/// Calls that compare or ask.
const CLOSURES: [&str; 3] = [
    "an exchange and a compute of a present key: 1:1; cas 1 1 2; present 1 9; 2168; 2168",
    "a compute that takes a leaf out and an exchange: 1:1; cas 1 1 2; present 1; 2104; 2104",
    "a compute of any key and a removal: 1:1; orinsert 1 9; remove 1; 2104; 2168",
];

/// A removal that takes an inner node out, beside another call, whose steps are parted into turns as well. All of the removal's
/// steps before its first lock come first: so they do in any order in which the other call hasn't locked a node before.
const PARTED: [&str; 6] = [
    "two removals below one node: 1:1 256:2; remove 1; remove 256; 2104; 2104; ; 3 3 3 1 1 1 6",
    "an insertion into the leaf that stays: 1:1 256:2; remove 1; insert 257 9; 2168; 2168; ; 3 3 3 1 1 1 2",
    "an insertion into the leaf that goes: 1:1 256:2; remove 1; insert 2 9; 2296; 2296; ; 3 3 3 1 1 1 2",
    "an insertion into the node that goes: 1:1 256:2; remove 1; insert 512 9; 2296; 2296; ; 3 2 1 1 1 1 2",
    "a look-up in the leaf that stays: 1:1 256:2; remove 1; get 256; 2168; 2168; ; 2 1 1 1 1 1 2",
    "a look-up in the leaf that goes: 1:1 256:2; remove 1; get 1; 2168; 2168; ; 2 1 1 1 1 1 2",
];

/// The removal's steps before its first lock.
const AHEAD: u32 = 9;

/// What it does from there on, as turns of so many steps: in what order it marks and hands over what has left the tree nobody
/// else sees.
const TURNS: [u64; 5] = [1, 1, 1, 1, 5];

/// Two calls begin.
const BEGINS: [Turn; 2] = [Turn::Begin(0), Turn::Begin(1)];

/// The second one begins behind the first one's steps before its first lock.
const LATE: [Turn; 3] = [Turn::Begin(0), Turn::Go(0, AHEAD), Turn::Begin(1)];

/// Both calls go on one after the other, to their ends or until one has found a lock taken for long, with a collection after each
/// step.
const ENDS: [Turn; 3] = [
    Turn::Sweep(0, LONG),
    Turn::Sweep(1, LONG),
    Turn::Sweep(0, LONG),
];

/// Both calls by turns from their beginning on, with a collection after each.
const TOGETHER: Course<'static> = Course {
    head: &BEGINS,
    sweeps: true,
    tail: &ENDS,
};

/// The same from the first one's first lock on.
const LOCKING: Course<'static> = Course {
    head: &LATE,
    sweeps: true,
    tail: &ENDS,
};

/// Whether each order is right, or one of so many, in which one call is cut in two and the other one in two or three.
fn are_cuts_right(alloc: Global, case: &Case, every: u32) -> Result<bool, Fail> {
    let [first, second] = lengths(alloc, &case.ground, case.calls)?;
    let mut number = 0u32;
    for start in 0..=first {
        for middle in 0..=second {
            number = number.saturating_add(1);
            if is_tried(number, every) {
                let order = 1u64
                    .wrapping_shl(middle)
                    .wrapping_sub(1)
                    .wrapping_shl(start);
                let plan = TOGETHER.plan(alloc, single(start, middle), order)?;
                if !case.goes(alloc, &plan)? {
                    return Ok(false);
                }
            }
        }
    }
    Ok(true)
}

/// How many orders there are, if one of so many is right, or each: of the turns that the text has, or else of the single steps.
fn orders(alloc: Global, text: &str, every: u32) -> Result<Option<u32>, Fail> {
    let case = Case::of(alloc, text, false)?;
    let others = array::<7>(part(text, 6))?;
    if others[0] > 0 {
        let turns = [TURNS.as_slice(), others.as_slice()];
        return LOCKING.right_orders(alloc, turns, &case, every);
    }
    let [first, second] = lengths(alloc, &case.ground, case.calls)?;
    TOGETHER.right_orders(alloc, single(first, second), &case, every)
}

/// Of the short ones a call has three steps and one seven, at least.
#[test]
fn calls_answer_as_one_map_in_every_order(rt: HostRuntime) -> Result<(), Fail> {
    for (table, usual, least) in [(SHORT.as_slice(), 3, 120), (PARTED.as_slice(), 61, 792)] {
        let every = number_in(&rt, "TRIAL_ORDERS", usual);
        for line in table {
            let (name, text) = named(*line)?;
            let all = orders(rt.alloc(), text, every)?;
            assert_same(&rt, ((name, all), all >= Some(least)), ((name, all), true));
        }
    }
    Ok(())
}

#[test]
fn calls_beside_each_other_answer_as_one_map(rt: HostRuntime) -> Result<(), Fail> {
    let every = number_in(&rt, "TRIAL_ORDERS", 61);
    for table in [CASES.as_slice(), CLOSURES.as_slice()] {
        for line in table {
            let (name, text) = named(*line)?;
            let case = Case::of(rt.alloc(), text, false)?;
            let are_right = are_cuts_right(rt.alloc(), &case, every)?;
            assert_same(&rt, (name, are_right), (name, true));
        }
    }
    Ok(())
}
