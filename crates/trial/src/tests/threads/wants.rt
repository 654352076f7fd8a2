//! Calls that find no memory once, and are made again. The gate runs each of these tests with each request for memory refused
//! in turn: what is refused has changed nothing, and then it is answered.

use super::asks::{Ask, Threaded, Told, left, spent};
use super::trees::Owners;
use crate::tests::asserts::assert_same;
use crate::tests::failures::{ends_with, is_flushed, opened};
use crate::tests::machine::drawn::step_at;
use crate::tests::machine::{Index, begin, count_of, go, is_done, op_of, replied};
use congee::{Congee, DefaultAllocator, OOMError};
use joint::{CongeeArc, Guard, Limits, Op, Outcome, Refusal, Report, Step, Worker};
use judge::{Call, Reply};
use std::alloc::{AllocError, Global};
use std::process::Abort;
use std::sync::Wait;
use std::test::Fail;

/// An owned tree without a pair.
fn owned(alloc: Global) -> Result<Congee<u64, u64>, OOMError> {
    match Congee::new(alloc, DefaultAllocator::new()) {
        Err(OOMError::Memory) => Congee::new(alloc, DefaultAllocator::new()),
        made => made,
    }
}

/// Whether a value is put at an absent key.
fn is_put(tree: &mut Congee<u64, u64>, key: u64) -> bool {
    let charged = tree.charged();
    match tree.insert(key, key) {
        Ok(before) => before.is_none(),
        Err(refused) => {
            let is_kept = tree.charged() == charged && tree.get(&key).is_none();
            refused == OOMError::Memory && is_kept && tree.insert(key, key) == Ok(None)
        }
    }
}

/// Whether 49 values are put into one leaf, which grows through every form.
fn are_put(tree: &mut Congee<u64, u64>) -> bool {
    for key in 1..50 {
        if !is_put(tree, key) {
            return false;
        }
    }
    true
}

#[test]
fn an_owned_leaf_grows(rt: HostRuntime) -> Result<(), Fail> {
    let mut tree = owned(rt.alloc())?;
    let state = (are_put(&mut tree), tree.get(&49), tree.charged());
    tree.close();
    assert_same(&rt, state, (true, Some(49), 4208));
    Ok(())
}

/// The key of a call on one.
fn key_of(ask: Ask) -> Option<u64> {
    match ask {
        Ask::Call(
            Call::Get(key)
            | Call::Insert(key, _)
            | Call::Remove(key)
            | Call::ComputePresent(key, _)
            | Call::ComputeInsert(key, _)
            | Call::Exchange(key, _, _),
        ) => Some(key),
        _ => None,
    }
}

/// What a tree tells of a key's value.
fn value_at<T: Threaded, R: Wait>(
    rt: &R,
    tree: &mut T,
    ask: Ask,
    worker: &mut Worker,
    guard: &Guard,
) -> Option<Told> {
    tree.told(rt, Ask::Call(Call::Get(key_of(ask)?)), worker, guard)
        .ok()
}

/// What a tree tells. Where memory is refused it is asked again, and the key has what it had.
fn told_then<T: Threaded, R: Wait>(
    rt: &R,
    tree: &mut T,
    ask: Ask,
    worker: &mut Worker,
    guard: &Guard,
) -> Result<Told, Refusal> {
    let before = value_at(rt, tree, ask, worker, guard);
    match tree.told(rt, ask, worker, guard) {
        Err(Refusal::Memory) if value_at(rt, tree, ask, worker, guard) == before => {
            tree.told(rt, ask, worker, guard)
        }
        told => told,
    }
}

/// Whether a tree tells all of this, and then spends its guard.
fn tells<T: Threaded, R: Wait>(
    rt: &R,
    tree: &mut T,
    rows: &[(Ask, Told)],
    worker: &mut Worker,
) -> Result<bool, Refusal> {
    let guard = tree.pins(rt, worker)?;
    let mut right = true;
    for (ask, told) in rows {
        right &= told_then(rt, tree, *ask, worker, &guard) == Ok(*told);
    }
    spent(tree.unpins(rt, worker, guard))?;
    Ok(right)
}

/// Rounds; one whose flush is refused has unpinned.
fn rounds<T: Threaded, R: Wait>(rt: &R, tree: &T, worker: &mut Worker) -> Result<(), Refusal> {
    for _ in 0..3u8 {
        match tree.goes_round(rt, worker) {
            Err(Refusal::Memory) => tree.goes_round(rt, worker)?,
            done => done?,
        }
    }
    Ok(())
}

/// A worker leaves; a refused one comes back.
fn leaves<T: Threaded, R: Wait>(rt: &R, tree: &T, worker: Worker) -> Result<(), Refusal> {
    match tree.leaves(rt, worker) {
        Err((Refusal::Memory, back)) => left(tree.leaves(rt, back)),
        released => left(released),
    }
}

/// A tree of owners without a pair.
fn owners(alloc: Global) -> Result<Owners, Refusal> {
    let tree = match CongeeArc::new(alloc, Limits::usual(1, 9)) {
        Err(Refusal::Memory) => CongeeArc::new(alloc, Limits::usual(1, 9))?,
        opened => opened?,
    };
    Ok(Owners { tree, alloc })
}

/// Two owners part the ways above their leaves, and one goes, which had taken another one's place first.
const PARTED: [(Ask, Told); 8] = [
    (
        Ask::Call(Call::Insert(1, 7)),
        Told::Replied(Reply::Insert(None)),
    ),
    (
        Ask::Call(Call::Insert(256, 7)),
        Told::Replied(Reply::Insert(None)),
    ),
    (Ask::Call(Call::Get(1)), Told::Replied(Reply::Get(Some(7)))),
    (
        Ask::Call(Call::ComputePresent(1, Some(8))),
        Told::Replied(Reply::ComputePresent(Some((7, Some(8))))),
    ),
    (Ask::Call(Call::Get(1)), Told::Replied(Reply::Get(Some(8)))),
    (
        Ask::Call(Call::Remove(1)),
        Told::Replied(Reply::Remove(Some(8))),
    ),
    (Ask::Call(Call::Get(1)), Told::Replied(Reply::Get(None))),
    (
        Ask::Call(Call::Get(256)),
        Told::Replied(Reply::Get(Some(7))),
    ),
];

/// The other one goes too, with its leaf in the worker's bag.
const GONE: [(Ask, Told); 1] = [(
    Ask::Call(Call::Remove(256)),
    Told::Replied(Reply::Remove(Some(7))),
)];

/// A worker comes, is told all of this, and leaves; what waits goes in rounds between.
fn come_back<T: Threaded, R: Wait + Abort>(rt: &R, tree: &mut T) -> Result<(), Refusal> {
    let mut worker = tree.comes(rt)?;
    assert_same(rt, tells(rt, tree, &PARTED, &mut worker), Ok(true));
    assert_same(rt, tree.state(rt).1, 2);
    let swept = rounds(rt, tree, &mut worker);
    assert_same(rt, (swept, tree.state(rt)), (Ok(()), (2168, 0, 0)));
    assert_same(rt, tells(rt, tree, &GONE, &mut worker), Ok(true));
    leaves(rt, tree, worker)
}

#[test]
fn shared_owners_come_back(rt: HostRuntime) -> Result<(), Fail> {
    let mut tree = owners(rt.alloc())?;
    let back = come_back(&rt, &mut tree);
    assert_same(&rt, (back, tree.state(&rt)), (Ok(()), (2168, 1, 64)));
    assert!(rt; tree.closes(&rt).is_ok());
    Ok(())
}

/// The steps of a run: a pin, and one insertion after another, thirteen of which end.
const STEPS: u64 = 491;

fn steps_from(alloc: Global, from: u64) -> Result<Vec<Step<u64>>, AllocError> {
    let mut steps = Vec::with_capacity(alloc, STEPS as usize)?;
    for number in from..STEPS {
        steps.push(step_at(number))?;
    }
    Ok(steps)
}

/// The steps of a run from one on.
fn steps_left(alloc: Global, from: usize) -> Result<Vec<Step<u64>>, AllocError> {
    match steps_from(alloc, from as u64) {
        Ok(steps) => Ok(steps),
        Err(_) => steps_from(alloc, from as u64),
    }
}

/// How many insertions ended, one that was refused for want of memory among them.
fn ends(reports: &[Report<u64>]) -> usize {
    let put = count_of(reports, &replied(Reply::Insert(None)));
    put.saturating_add(count_of(reports, &Outcome::Refused(Refusal::Memory)))
}

/// How many steps a run takes from one on, and how many insertions end; each step that it took is reported.
fn ran(alloc: Global, index: &mut Index, from: usize) -> Result<(usize, usize, bool), AllocError> {
    let run = index.run(alloc, steps_left(alloc, from)?);
    Ok((run.done, ends(&run.reports), run.reports.len() == run.done))
}

/// The same of a run and of the one that goes on from there.
fn ran_on(alloc: Global, index: &mut Index) -> Result<(usize, usize, bool), AllocError> {
    let (done, ended, told) = ran(alloc, index, 0)?;
    let (more, further, all) = ran(alloc, index, done)?;
    Ok((
        done.saturating_add(more),
        ended.saturating_add(further),
        told && all,
    ))
}

/// A run takes no step where there is no memory for its reports, tells how many it took, and goes on from there.
#[test]
fn a_run_goes_on_where_it_stopped(rt: HostRuntime) -> Result<(), Fail> {
    let mut index = opened(rt.alloc())?;
    let ran = ran_on(rt.alloc(), &mut index);
    assert_same(&rt, ran, Ok((STEPS as usize, 13, true)));
    Ok(())
}

/// So many removals leave a bag one place, where a writing call wants two.
const BAG: u32 = 63;

/// A key with a leaf of its own.
const LONE: u64 = 1 << 63;

/// Whether a worker's bag has so many leaves: where memory is refused for one, it is put there again.
fn is_filled(index: &mut Index) -> bool {
    for _ in 0..BAG {
        if !ends_with(index, Call::Insert(LONE, 1), Reply::Insert(None))
            || !ends_with(index, Call::Remove(LONE), Reply::Remove(Some(1)))
        {
            return false;
        }
    }
    true
}

/// Whether the bag comes back in rounds, so that the next one that is queued asks for memory.
fn is_emptied(index: &mut Index) -> bool {
    for _ in 0..3 {
        if !is_flushed(index) || !is_done(index, 0, Op::Unpin) || !is_done(index, 0, Op::Pin) {
            return false;
        }
    }
    index.waiting() == 0
}

/// Each writing call, at one key.
const WRITING: [(Call<u64>, Reply<u64>); 7] = [
    (Call::Insert(1, 5), Reply::Insert(None)),
    (Call::Insert(1, 5), Reply::Insert(Some(5))),
    (Call::ComputeInsert(1, 6), Reply::ComputeInsert(Some(5))),
    (
        Call::ComputePresent(1, Some(7)),
        Reply::ComputePresent(Some((6, Some(7)))),
    ),
    (Call::Exchange(1, 7, Some(8)), Reply::Exchange(Ok(Some(8)))),
    (Call::Remove(1), Reply::Remove(Some(8))),
    (Call::Remove(1), Reply::Remove(None)),
];

/// How many of them are answered so, each of which finds its worker's bag too full, whatever it then does.
fn answered(index: &mut Index) -> usize {
    let mut count = 0usize;
    for (made, reply) in &WRITING {
        if !is_filled(index) || !ends_with(index, *made, *reply) || !is_emptied(index) {
            return count;
        }
        count = count.saturating_add(1);
    }
    count
}

#[test]
fn each_writing_call_wants_a_place_in_its_bag(rt: HostRuntime) -> Result<(), Fail> {
    let mut index = opened(rt.alloc())?;
    let answered = (is_done(&mut index, 0, Op::Pin), answered(&mut index));
    assert_same(&rt, answered, (true, WRITING.len()));
    Ok(())
}

/// Whether a leaf gets five values, and loses one again when nothing waits.
fn is_great(index: &mut Index) -> bool {
    if !is_done(index, 0, Op::Pin) {
        return false;
    }
    for key in 1..=5 {
        if !ends_with(index, Call::Insert(key, key), Reply::Insert(None)) {
            return false;
        }
    }
    is_emptied(index) && ends_with(index, Call::Remove(1), Reply::Remove(Some(1)))
}

/// How a removal ends, and whether it went on without a node that it wanted.
fn removed(index: &mut Index, key: u64) -> (Outcome<u64>, bool) {
    let mut report = begin(index, 0, op_of(Call::Remove(key)));
    let mut is_skipped = report.skipped;
    for _ in 0..100u32 {
        if !report.outcome.is_in_flight() {
            break;
        }
        report = go(index, 0, None);
        is_skipped = is_skipped || report.skipped;
    }
    (report.outcome, is_skipped)
}

/// A leaf with two values gets a lesser form where there is memory for one, and goes on as it is otherwise.
#[test]
fn a_removal_goes_on_without_a_lesser_leaf(rt: HostRuntime) -> Result<(), Fail> {
    let mut index = opened(rt.alloc())?;
    let great = is_great(&mut index);
    let (outcome, is_skipped) = removed(&mut index, 2);
    let ended = (outcome, index.waiting(), index.charged());
    let (waiting, charged) = if is_skipped { (0, 2272) } else { (1, 2336) };
    let expected = (replied(Reply::Remove(Some(2))), waiting, charged);
    assert_same(&rt, (great, ended), (true, expected));
    Ok(())
}

type Words = joint::Congee<u64, u64>;

/// A tree of words for threads without a pair.
fn words(alloc: Global) -> Result<Words, Refusal> {
    match Words::new(alloc, Limits::usual(1, 9), DefaultAllocator::new()) {
        Err(Refusal::Memory) => Words::new(alloc, Limits::usual(1, 9), DefaultAllocator::new()),
        opened => opened,
    }
}

const FOUND_THEN: [(Ask, Told); 8] = [
    (
        Ask::Call(Call::Insert(1, 1)),
        Told::Replied(Reply::Insert(None)),
    ),
    (
        Ask::Call(Call::ComputeInsert(256, 2)),
        Told::Replied(Reply::ComputeInsert(None)),
    ),
    (Ask::Keys, Told::Keys(2, Some(1))),
    (Ask::Stats, Told::Pairs(2)),
    (
        Ask::Call(Call::Remove(1)),
        Told::Replied(Reply::Remove(Some(1))),
    ),
    (Ask::Flush, Told::Done),
    (
        Ask::Call(Call::Exchange(256, 2, None)),
        Told::Replied(Reply::Exchange(Ok(None))),
    ),
    (Ask::Round, Told::Done),
];

/// Whether a worker comes and is told all of this.
fn finds<T: Threaded, R: Wait>(
    rt: &R,
    tree: &mut T,
    rows: &[(Ask, Told)],
) -> Result<bool, Refusal> {
    let mut worker = tree.comes(rt)?;
    tells(rt, tree, rows, &mut worker)
}

#[test]
fn calls_for_threads_find_memory_then(rt: HostRuntime) -> Result<(), Fail> {
    let mut tree = words(rt.alloc())?;
    let found = finds(&rt, &mut tree, &FOUND_THEN);
    // The root; two leaves and the node that was above them wait.
    let (charged, waiting, _bytes) = tree.state(&rt);
    assert_same(&rt, (found, waiting, charged), (Ok(true), 3, 2296));
    Ok(())
}
