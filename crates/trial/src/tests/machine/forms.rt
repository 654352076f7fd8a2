//! Nodes that shrink with what they hold: no further node where a key comes and goes at the same count.

use super::drawn::number_in;
use super::told::{state, takes};
use super::{Index, are_rounds_done, beginning, call, discard, going, is_done, noise, op_of, open};
use crate::tests::asserts::assert_same;
use joint::{Op, Refusal};
use judge::Call;
use std::alloc::Global;
use std::test::Fail;

/// So many values or leaves in a node, and at most as many before; the distance of their keys; and how many nodes each further
/// pair of an insertion and a removal makes, and takes out of the tree: a leaf, where its value stands alone.
const COUNTS: [(u64, u64, u64, u64); 12] = [
    (4, 4, 1, 0),
    (16, 16, 1, 0),
    (48, 48, 1, 0),
    (3, 5, 1, 0),
    (12, 17, 1, 0),
    (40, 49, 1, 0),
    (4, 4, 256, 1),
    (16, 16, 256, 1),
    (48, 48, 256, 1),
    (3, 5, 256, 1),
    (12, 17, 256, 1),
    (40, 49, 256, 1),
];

/// What a whole call's steps destroyed.
fn given_back(index: &mut Index, made: Call<u64>) -> u64 {
    let mut told = takes(index, beginning(0, op_of(made)));
    let mut back = told.destroyed;
    for _ in 0..100u32 {
        if told.standing.is_in_flight() {
            told = takes(index, going(0, noise(false, None)));
            back = back.saturating_add(told.destroyed);
        }
    }
    back
}

/// Puts so many values or leaves there, takes some out until so many are left, and has a key come and go. What waits then goes.
fn fill(index: &mut Index, count: u64, most: u64, distance: u64) {
    is_done(index, 0, Op::Pin);
    for place in 0..most {
        call(index, 0, Call::Insert(place.wrapping_mul(distance), 1));
    }
    for place in count..most {
        call(index, 0, Call::Remove(place.wrapping_mul(distance)));
    }
    let key = count.wrapping_mul(distance);
    call(index, 0, Call::Insert(key, 1));
    call(index, 0, Call::Remove(key));
    is_done(index, 0, Op::Unpin);
    are_rounds_done(index, 0, 3);
    is_done(index, 0, Op::Pin);
}

/// Whether nothing is destroyed, and so many bytes more are charged, each of so many times that a key comes and goes.
fn stays(index: &mut Index, key: u64, leaves: u64, times: u64) -> bool {
    let (charged, _, _) = state(index);
    for pair in 1..=times {
        let back = given_back(index, Call::Insert(key, 1)).saturating_add(given_back(
            index,
            Call::Remove(key),
        ));
        let wanted = charged.wrapping_add(pair.wrapping_mul(leaves).wrapping_mul(64));
        if back > 0 || state(index).0 != wanted {
            return false;
        }
    }
    state(index).1 == leaves.wrapping_mul(times)
}

fn alternates(alloc: Global, row: (u64, u64, u64, u64), times: u64) -> Result<bool, Refusal> {
    let (count, most, distance, leaves) = row;
    let mut index = open(alloc, 2, 2_000)?;
    fill(&mut index, count, most, distance);
    let stays = stays(&mut index, count.wrapping_mul(distance), leaves, times);
    discard(index);
    Ok(!stays)
}

/// A key comes and goes a hundred times, and a thousand in the sweep: the form of its node changes once at most.
#[test]
fn a_growth_and_a_shrink_do_not_alternate(rt: HostRuntime) -> Result<(), Fail> {
    let times = number_in(&rt, "TRIAL_PAIRS", 100);
    for row in COUNTS {
        let alternates = alternates(rt.alloc(), row, times.into())?;
        assert_same(&rt, (row, alternates), (row, false));
    }
    Ok(())
}
