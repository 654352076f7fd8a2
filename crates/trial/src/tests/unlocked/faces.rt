//! Calls that don't wait, calls on words of other types, what workers tell each other, and a close.

use super::lanes::{Task, count_of, ran};
use super::{leave, opened};
use crate::examples::many::tells_all;
use crate::tests::asserts::assert_same;
use optimistic::{Congee, Pair, Pairs, U64Congee, Walk, WordWorker, Worker};
use std::alloc::{AllocError, Global};
use std::sync::Wait;
use std::test::Fail;

/// Whether the calls that don't wait answer as a map, with no other writer.
pub fn is_tried(worker: &mut Worker) -> bool {
    let put = [worker.try_insert(7, 1), worker.try_insert(7, 2)];
    let found = worker.try_get(7);
    let exchanged = [
        worker.try_compare_exchange(7, 2, Some(3)),
        worker.try_compare_exchange(7, 2, Some(4)),
    ];
    let taken = [worker.try_remove(7), worker.try_remove(7)];
    put == [Ok(None), Ok(Some(1))]
        && [found, worker.try_get(7)] == [Some(Some(2)), Some(None)]
        && exchanged == [Ok(Ok(Some(3))), Ok(Err(Some(3)))]
        && taken == [Ok(Some(3)), Ok(None)]
}

/// Whether the calls on words answer as a map, each with the one that doesn't wait.
fn words_answer<R: Wait>(rt: &R, worker: &mut WordWorker<u64, u64>) -> bool {
    let put = [worker.try_insert(1, 2), worker.insert(rt, 1, 3)];
    let found = [worker.try_get(&1), Some(worker.get(rt, &1))];
    let exchanged = [
        worker.try_compare_exchange(&1, &3, Some(4)),
        worker.compare_exchange(rt, &1, &4, None),
    ];
    let asked = worker.compute_or_insert(rt, &1, |old| old.unwrap_or(5));
    let raised = worker.compute_if_present(rt, &1, |old| Some(old.wrapping_add(1)));
    let taken = [worker.remove(rt, &1), worker.try_remove(&1)];
    [put[0], put[1], asked, taken[0], taken[1]]
        == [Ok(None), Ok(Some(2)), Ok(None), Ok(Some(6)), Ok(None)]
        && found == [Some(Some(3)), Some(Some(3))]
        && exchanged == [Ok(Ok(Some(4))), Ok(Ok(None))]
        && raised == Ok(Some((5, Some(6))))
}

/// Whether scans of words tell what stands, from both ends, by steps and at one moment.
fn words_are_scanned<R: Wait>(rt: &R, alloc: Global, worker: &mut WordWorker<u64, u64>) -> bool {
    let mut out = [Pair { key: 0, value: 0 }; 3];
    let mut walk = Walk::new(4, 9);
    let put = [worker.insert(rt, 3, 4), worker.insert(rt, 5, 6)];
    let found = [
        worker.first(rt),
        worker.at_or_after(rt, &4),
        worker.next_after(rt, &5),
        worker.last(rt),
        worker.at_or_before(rt, &4),
        worker.next_before(rt, &3),
        worker.step(rt, &mut walk),
        worker.step(rt, &mut walk),
    ];
    let (least, greatest) = (Some((3, 4)), Some((5, 6)));
    let counts = [
        worker.range(rt, &0, &5, &mut out),
        worker.range_inclusive(rt, &0, &5, &mut out),
    ];
    let moments = [
        worker.range_at_once(rt, alloc, &0, &5, &mut out),
        worker.range_inclusive_at_once(rt, alloc, &0, &5, &mut out),
    ];
    let tried = [
        worker.try_range_at_once(alloc, &0, &5, &mut out),
        worker.try_range_inclusive_at_once(alloc, &0, &5, &mut out),
    ];
    put == [Ok(None), Ok(None)]
        && found == [least, greatest, None, greatest, least, None, greatest, None]
        && counts == [1, 2]
        && moments == [Ok(1), Ok(2)]
        && tried == [Ok(1), Ok(2)]
        && !worker.is_empty(rt)
}

/// Whether many are put in and looked up by one call.
fn words_go_together<R: Wait>(rt: &R, worker: &mut WordWorker<u64, u64>) -> bool {
    let mut out = [Some(9); 3];
    worker.insert_many(rt, &[(11, 12), (13, 14)]) == Ok(())
        && worker.get_many(rt, &[13, 15], &mut out) == 2
        && out == [Some(14), None, Some(9)]
        && worker.len(rt) == worker.count(rt, &0, &u64::MAX)
        && worker.words_used() > 536
}

/// Whether they do, at an index of words.
fn are_words_answered<R: Wait>(rt: &R, alloc: Global, words: &Congee<u64, u64>) -> bool {
    match words.worker(alloc) {
        Ok(mut worker) => {
            let told = words_answer(rt, &mut worker)
                && words_are_scanned(rt, alloc, &mut worker)
                && words_go_together(rt, &mut worker);
            drop(worker);
            told
        }
        Err(_) => false,
    }
}

#[test]
fn each_call_answers(rt: HostRuntime) -> Result<(), Fail> {
    let words: Congee<u64, u64> = Congee::new(rt.alloc(), 1_536)?;
    let are_answered = are_words_answered(&rt, rt.alloc(), &words);
    drop(words);
    assert_same(&rt, are_answered, true);
    let (lanes, _pairs) = ran(&rt, rt.alloc(), 1_000, 1, Task::Tries)?;
    assert_same(&rt, count_of(&lanes), 1);
    Ok(())
}

/// The keys that are put in; 8 is taken out again.
const KEYS: [u64; 6] = [300, 1 << 40, 7, u64::MAX, 8, 9];

/// Puts the keys in, with a worker of its own.
fn puts<R: Wait>(rt: &R, alloc: Global, index: &U64Congee) -> Result<(), AllocError> {
    let mut worker = index.worker(alloc)?;
    for key in KEYS {
        let _ = worker.insert(rt, key, key ^ 5);
    }
    leave(worker);
    Ok(())
}

/// Puts keys in, takes one out with another worker, and closes the index with one that heeds it.
fn closed<R: Wait>(rt: &R, alloc: Global) -> Result<Option<Pairs>, AllocError> {
    let index = opened(alloc, 1_000)?;
    puts(rt, alloc, &index)?;
    let mut one = index.worker(alloc)?;
    let _ = one.remove(rt, 8);
    let seen = one.note();
    drop(one);
    let mut last = index.worker(alloc)?;
    last.heed(seen);
    let last = last.retire();
    Ok(index.close(last).ok())
}

/// A number that tells pairs and their order.
fn sum_of(pairs: &mut Pairs) -> Option<u64> {
    let mut sum = 0u64;
    let mut add = |key: u64, value: u64| {
        sum = sum
            .wrapping_mul(10)
            .wrapping_add(key % 1_000 + value % 1_000);
    };
    let all = tells_all(pairs, &mut add);
    if all { Some(sum) } else { None }
}

#[test]
fn a_closed_index_tells_its_pairs(rt: HostRuntime) -> Result<(), Fail> {
    let Some(mut pairs) = closed(&rt, rt.alloc())? else {
        panic!(rt; "an index that isn't closed");
    };
    let first = pairs.next();
    let rest = sum_of(&mut pairs);
    let end = pairs.next();
    drop(pairs);
    let is_first = matches!(first, Ok(Some(Pair { key: 7, value: 2 })));
    let is_end = matches!(end, Ok(None));
    assert_same(&rt, (is_first, rest, is_end), (true, Some(97_495), true));
    Ok(())
}
