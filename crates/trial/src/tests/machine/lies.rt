//! Steps to which anything comes from outside: reads of changed nodes that see what isn't there, exchanges that fail, and
//! answers that nobody asked for.

use super::drawn::number_in;
use super::interleavings::CASES;
use super::one_map::Case;
use super::orders::{Plays, Turn, is_tried};
use crate::tests::asserts::assert_same;
use crate::tests::texts::named;
use congee::{Child, Noise, Seen};
use crossbeam_epoch::Name;
use joint::Id;
use std::alloc::Global;
use std::test::Fail;

/// What a read of a changed node sees: nothing, a value, or the node in this cell and turn.
#[derive(Clone, Copy)]
pub enum Sight {
    Blank,
    Value(u64),
    Node(u32, u32),
}

/// What is seen, the byte that leads there, whether the node has no place, and how many children it has.
pub type Lie = (Sight, u8, bool, u16);

const LIES: [Lie; 8] = [
    (Sight::Blank, 200, false, 0),
    (Sight::Blank, 200, true, u16::MAX),
    (Sight::Value(77), 200, false, 1),
    (Sight::Value(1), 200, true, 4),
    // The root, a node that may stand, one that is gone for good, and none that there ever was.
    (Sight::Node(0, 0), 200, false, 1),
    (Sight::Node(1, 0), 200, true, 48),
    (Sight::Node(2, u32::MAX), 200, false, 2),
    (Sight::Node(u32::MAX, u32::MAX), 200, true, 16),
];

fn child_of(sight: Sight) -> Child<Id, u64> {
    match sight {
        Sight::Blank => Child::Blank,
        Sight::Value(value) => Child::Value(value),
        Sight::Node(cell, turn) => Child::Node(Id {
            name: Name { cell, turn },
        }),
    }
}

/// What comes to a step from outside: its exchange may fail, it may be lied to, and its closure answers so where it is asked.
pub fn noise_of(fail: bool, lie: Option<Lie>, answer: Option<Option<u64>>) -> Noise<Id, u64> {
    let seen = match lie {
        Some((sight, byte, full, count)) => Some(Seen {
            child: child_of(sight),
            byte,
            full,
            count,
        }),
        None => None,
    };
    Noise { fail, seen, answer }
}

/// More steps than one of these calls takes.
const CUTS: u32 = 20;

/// The first call goes so many steps, then the second one to its end, then the first one, which is lied to, and then the second one
/// again, if it waited for a lock.
fn plan_of(cut: u32, lie: Lie) -> [Turn; 6] {
    [
        Turn::Begin(0),
        Turn::Begin(1),
        Turn::Go(0, cut),
        Turn::Go(1, 2 * CUTS),
        Turn::Lied(0, 4 * CUTS, lie),
        Turn::Go(1, 2 * CUTS),
    ]
}

/// Whether both calls of a case answer as one map, wherever the first is cut and whatever it is told then; or where one of so many
/// is tried.
fn is_right(alloc: Global, case: &Case, every: u32) -> Result<bool, Fail> {
    let mut number = 0u32;
    for cut in 0..CUTS {
        for lie in LIES {
            number = number.saturating_add(1);
            if is_tried(number, every) && !case.goes(alloc, &plan_of(cut, lie))? {
                return Ok(false);
            }
        }
    }
    Ok(true)
}

/// Either call of each case.
#[test]
fn calls_that_are_lied_to_answer_as_one_map(rt: HostRuntime) -> Result<(), Fail> {
    let every = number_in(&rt, "TRIAL_ORDERS", 43);
    for line in CASES {
        let (name, text) = named(line)?;
        for turned in [false, true] {
            let case = Case::of(rt.alloc(), text, turned)?;
            assert_same(
                &rt,
                ((name, turned), is_right(rt.alloc(), &case, every)?),
                ((name, turned), true),
            );
        }
    }
    Ok(())
}
