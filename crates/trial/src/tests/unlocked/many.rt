//! Calls that stand for many: look-ups and insertions, and how full an index is.

use super::ROOT_END;
use super::lanes::{Task, count_of, ran};
use crate::examples::many::{answers, puts_all, walks_once};
use crate::tests::asserts::assert_same;
use optimistic::{Pair, Refusal, Uninserted, Worker};
use std::sync::Wait;
use std::test::Fail;

/// The third key wants a node, since the first begins with the same byte.
const PAIRS: [Pair; 3] = [
    Pair { key: 1, value: 2 },
    Pair {
        key: 1 << 60,
        value: 3,
    },
    Pair { key: 5, value: 4 },
];

/// Where there is no room for that node.
const FULL: Uninserted = Uninserted {
    place: 2,
    refusal: Refusal::Full,
};

/// Whether more keys than are looked up side by side are answered in their order, and a walk comes to the first pair.
fn are_found_in_order<R: Wait>(rt: &R, worker: &mut Worker) -> bool {
    let mut out = [Some(9); 10];
    let keys = [1, 5, 6, 1 << 60, 2, 1, 5, 3, 1 << 60, 1];
    let all = answers(rt, worker, &keys, &mut out);
    let (one, five, top) = (Some(2), Some(4), Some(3));
    let first = match walks_once(rt, worker, 2, 9) {
        Some(pair) => (pair.key, pair.value),
        None => (0, 0),
    };
    all == 10 && first == (5, 4) && out == [one, five, None, top, None, one, five, None, top, one]
}

/// Whether all pairs are put in, or those before the third, which is refused; whether they are counted, and more words in use for
/// a node; and whether look-ups are answered in their order, as many as fit, and the other places stay.
pub fn go_together<R: Wait>(rt: &R, worker: &mut Worker, has_room: bool) -> bool {
    let (put, third, near) = if has_room {
        (Ok(()), Some(4), 2)
    } else {
        (Err(FULL), None, 1)
    };
    let mut out = [Some(9); 4];
    worker.words_used() == ROOT_END as u64
        && worker.insert_many(rt, &PAIRS) == put
        && worker.len(rt) == near + 1
        && worker.count(rt, 1, 5) == near
        && (worker.words_used() > ROOT_END as u64) == has_room
        && worker.get_many(rt, &[5, 6, 1], &mut out) == 3
        && worker.get_many(rt, &[1 << 60, 1], &mut out[..1]) == 1
        && out == [Some(3), None, Some(2), Some(9)]
        && worker.get_many(rt, &[5], &mut out) == 1
        && out[0] == third
        && puts_all(rt, worker, &PAIRS) == has_room
        && (!has_room || are_found_in_order(rt, worker))
}

#[test]
fn many_calls_are_made_by_one(rt: HostRuntime) -> Result<(), Fail> {
    for (room, has_room, count) in [(0, false, 2), (1_000, true, 3)] {
        let (lanes, pairs) = ran(&rt, rt.alloc(), room, 1, Task::Together(has_room))?;
        let known = (count_of(&lanes), pairs.len());
        assert_same(&rt, (room, known), (room, (1, count)));
    }
    Ok(())
}
