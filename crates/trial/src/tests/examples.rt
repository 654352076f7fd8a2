//! The examples, run.

use super::collector::face::{Handle, ended, limits};
use super::collector::machine::adds;
use super::collector::threads::leaves;
use super::collector::values::Item;
use super::machine::{
    END, Index, begin, beginning, count_of, discard, go as step_on, going, is_done, noise, open,
    registering, replied,
};
use crate::examples::bounded::charged_by_pairs;
use crate::examples::collector::put_off;
use crate::examples::driven::{Driven, answered};
use crate::examples::grace::collects_beside_a_guard;
use crate::examples::journal::{Store, is_honest};
use crate::examples::machine::{
    Drained, drains_what_stands, reads_what_it_put, runs_and_closes, runs_as_one_map,
};
use crate::examples::owned::{
    charge_after_insertions, finds_what_it_puts, finds_what_it_puts_in_numbers, opens_and_closes,
    opens_and_closes_numbers,
};
use crate::examples::pages::{Numbers, Sum, drained, page_from, sum_by_pages};
use crate::examples::promises::{answer_alike, gives_memory_back};
use crate::examples::read_mostly::{Doubles, look, reads_beside_a_writer, writes_in_two_threads};
use crate::examples::reverse::appends_and_reads;
use crate::examples::stack::{Node, Stack, pops, sum_of_two};
use crate::examples::threaded::{fills_and_closes, first_calls, shared_values};
use crate::examples::timed::first_due;
use crate::examples::unlocked::shares_and_drains;
use crate::examples::{machine, moment};
use crate::tests::asserts::assert_same;
use congee::{Allocator, Congee, DefaultAllocator, Limited, OOMError};
use crossbeam_epoch::{Collector, Fault};
use crossbeam_utils::sync::ShardedLock;
use joint::{Done, Kind, Limits, Op, Ran, Refusal, Report, Step, World};
use judge::{Call, Entry, Reply};
use optimistic::Pair;
use std::alloc::{AllocError, Global};
use std::process::Abort;
use std::sync::atomic::{AtomicU64, Ordering};
use std::sync::{Arc, Mutex, Wait};
use std::test::Fail;
use std::vec::Vec;

#[test]
fn two_threads_share_a_stack(rt: HostRuntime) -> Result<(), Fail> {
    let numbers: Collector<Node, ()> = Collector::new(&rt, rt.alloc(), limits(1000), 1)?;
    let stack = Stack::new();
    let sum = sum_of_two(&rt, rt.alloc(), &numbers, &stack, 100);
    let is_ended = numbers.end().is_ok();
    // Each of 0 to 99 is pushed twice and popped twice.
    assert_same(&rt, (sum, is_ended), (Ok(9900), true));
    Ok(())
}

#[test]
fn the_last_number_is_popped_first(rt: HostRuntime) -> Result<(), Fail> {
    let numbers: Collector<Node, ()> = Collector::new(&rt, rt.alloc(), limits(3), 1)?;
    let popped = pops(&rt, rt.alloc(), &numbers, [1, 2, 3])?;
    assert_same(&rt, popped, [Some(3), Some(2), Some(1), None]);
    Ok(())
}

/// A step of the worker's call in flight, with nothing from outside.
fn go(worker: u32) -> Step<u64> {
    going(worker, noise(false, None))
}

/// Two workers come and pin; then so many steps of each, one after the other, of an insertion of the one and a look-up of
/// the other; then a look-up alone.
fn scheduled(place: u32) -> Step<u64> {
    match place {
        0 | 22 => registering(),
        1 => beginning(0, Op::Pin),
        2..=21 => go(0),
        23 => beginning(1, Op::Pin),
        24..=43 => go(1),
        44 => beginning(0, Op::Insert(7, 70)),
        45 | 86 => beginning(1, Op::Get(7)),
        46..=85 => go(place % 2),
        _ => go(1),
    }
}

fn schedule(alloc: Global) -> Result<Vec<Step<u64>>, AllocError> {
    let mut steps = Vec::new(alloc);
    for place in 0..107 {
        steps.push(scheduled(place))?;
    }
    Ok(steps)
}

/// How many steps a run took, and how many of its calls put a key there that was absent, found no key, and found 70.
fn counts(ran: Ran<u64>) -> (usize, [usize; 3]) {
    let counts = [
        count_of(&ran.reports, &replied(Reply::Insert(None))),
        count_of(&ran.reports, &replied(Reply::Get(None))),
        count_of(&ran.reports, &replied(Reply::Get(Some(70)))),
    ];
    (ran.done, counts)
}

/// How many nodes wait, and what is charged.
fn stands(index: machine::Index) -> (u64, u64) {
    (index.waiting(), index.charged())
}

#[test]
fn two_calls_in_flight_answer_as_one_map(rt: HostRuntime) -> Result<(), Fail> {
    let steps = schedule(rt.alloc())?;
    let taken = steps.len();
    let (index, ran) = runs_as_one_map(rt.alloc(), steps)?;
    // The root of 256 places and a leaf of 4.
    assert_same(
        &rt,
        (counts(ran), stands(index)),
        ((taken, [1, 1, 1]), (0, 2104 + 64)),
    );
    Ok(())
}

#[test]
fn an_index_that_is_closed_leaves_the_charge(rt: HostRuntime) -> Result<(), Fail> {
    let mut allocator = Limited::new(10_000);
    allocator.allocate(500)?;
    let none = Vec::new(rt.alloc());
    let allocator = runs_and_closes(rt.alloc(), allocator, none)?;
    assert_same(&rt, (allocator.charged(), allocator.limit()), (500, 10_000));
    let refused = runs_and_closes(rt.alloc(), allocator, schedule(rt.alloc())?);
    assert_same(&rt, refused.err(), Some(Refusal::WorkersLeft(2)));
    Ok(())
}

/// A worker puts two pairs in and goes.
const FILL: [Op<u64>; 5] = [
    Op::Pin,
    Op::Insert(7, 70),
    Op::Insert(3, 30),
    Op::Unpin,
    Op::Release,
];

#[test]
fn a_close_drains_what_stands(rt: HostRuntime) -> Result<(), Fail> {
    let sum = Sum {
        of_values: 0,
        last_key: None,
    };
    let steps = recorded(rt.alloc(), 1, &FILL)?;
    let Drained { ran, drainer } = drains_what_stands(rt.alloc(), steps, sum)?;
    let (_, [inserted, _, _]) = counts(ran);
    assert_same(
        &rt,
        (drainer.of_values, drainer.last_key, inserted),
        (100, Some(7), 2),
    );
    Ok(())
}

#[test]
fn a_worker_reads_what_it_put(rt: HostRuntime) -> Result<(), Fail> {
    let mut index = open(rt.alloc(), 1, 100)?;
    let unpinned = reads_what_it_put(&mut index, 0, 7, 70);
    is_done(&mut index, 0, Op::Pin);
    let first = reads_what_it_put(&mut index, 0, 7, 70);
    let second = reads_what_it_put(&mut index, 0, 7, 71);
    discard(index);
    assert_same(
        &rt,
        [unpinned, first, second],
        [None, Some(Some(70)), Some(Some(71))],
    );
    Ok(())
}

#[test]
fn an_index_for_threads_that_is_closed_leaves_the_charge(rt: HostRuntime) -> Result<(), Fail> {
    let mut allocator = Limited::new(10_000);
    allocator.allocate(500)?;
    let allocator = fills_and_closes(&rt, rt.alloc(), allocator)?;
    assert_same(&rt, (allocator.charged(), allocator.limit()), (500, 10_000));
    Ok(())
}

#[test]
fn owned_trees_keep_their_contracts(rt: HostRuntime) -> Result<(), Fail> {
    let one = opens_and_closes(rt.alloc(), 5000)?;
    let two = opens_and_closes_numbers(rt.alloc(), 6000)?;
    let budgets = [(one.charged, one.limit), (two.charged, two.limit)];
    assert_same(&rt, budgets, [(0, 5000), (0, 6000)]);
    let refused = [
        opens_and_closes(rt.alloc(), 2103).is_err(),
        charge_after_insertions(rt.alloc(), 2104, &[(1, 10)]).is_err(),
    ];
    assert_same(&rt, refused, [true, true]);
    let charge = charge_after_insertions(rt.alloc(), 5000, &[(1, 10), (256, 20), (1, 30)])?;
    let found = [
        finds_what_it_puts(rt.alloc(), 256, 7)?,
        finds_what_it_puts_in_numbers(rt.alloc(), 0, 9)?,
    ];
    assert_same(&rt, (charge, found), (0, [Some(7), Some(9)]));
    Ok(())
}

#[test]
fn a_tree_is_charged_by_its_pairs(rt: HostRuntime) -> Result<(), Fail> {
    let mut tree: Congee<u64, u64, Limited> = Congee::new(rt.alloc(), Limited::new(5000))?;
    for key in [0, 256, 65_536] {
        tree.insert(key, key)?;
    }
    // The root, three leaves, and two nodes over them.
    assert_same(
        &rt,
        (tree.len(), charged_by_pairs(&tree)),
        (3, 2104 + 5 * 64),
    );
    Ok(())
}

/// The steps of a whole call of worker 0 on this index, which takes them.
fn record(index: &mut Index, steps: &mut Vec<Step<u64>>, op: Op<u64>) -> Result<(), AllocError> {
    steps.push(beginning(0, op))?;
    let mut outcome = begin(index, 0, op).outcome;
    for _ in 0..END {
        if !outcome.is_in_flight() {
            break;
        }
        steps.push(go(0))?;
        outcome = step_on(index, 0, None).outcome;
    }
    Ok(())
}

/// So many workers come, and worker 0 makes these calls.
fn record_all(
    index: &mut Index,
    steps: &mut Vec<Step<u64>>,
    workers: u32,
    ops: &[Op<u64>],
) -> Result<(), AllocError> {
    for _ in 0..workers {
        index.step(registering());
        steps.push(registering())?;
    }
    for op in ops {
        record(index, steps, *op)?;
    }
    Ok(())
}

/// Their steps. A pin inspects each place, so they are those of an index with two, as an example's.
fn recorded(alloc: Global, workers: u32, ops: &[Op<u64>]) -> Result<Vec<Step<u64>>, Fail> {
    let mut index: Index = World::new(alloc, Limits::usual(2, 1000), Limited::new(u64::MAX))?;
    let mut steps = Vec::new(alloc);
    let told = record_all(&mut index, &mut steps, workers, ops);
    discard(index);
    told?;
    Ok(steps)
}

/// A worker fills a leaf until it is exchanged for a greater one. Behind each insertion it goes so many rounds, and so many in the
/// end.
fn growth(alloc: Global, between: u32, behind: u32) -> Result<Vec<Op<u64>>, AllocError> {
    let mut ops = Vec::new(alloc);
    for key in 1..6 {
        ops.extend_from_slice(&[Op::Pin, Op::Insert(key, key), Op::Get(key), Op::Unpin])?;
        for _ in 0..if key < 5 { between } else { behind } {
            ops.extend_from_slice(&[Op::Pin, Op::Flush, Op::Unpin])?;
        }
    }
    Ok(ops)
}

/// Its steps, where two workers have come.
fn grown(alloc: Global, between: u32, behind: u32) -> Result<Vec<Step<u64>>, Fail> {
    let ops = growth(alloc, between, behind)?;
    recorded(alloc, 2, &ops)
}

/// A removed node waits without rounds.
#[test]
fn rounds_give_memory_back(rt: HostRuntime) -> Result<(), Fail> {
    for (rounds, left) in [(0, (1, 2104 + 64 + 168)), (3, (0, 2104 + 168))] {
        let steps = grown(rt.alloc(), 0, rounds)?;
        let (index, ran) = gives_memory_back(rt.alloc(), Limits::usual(2, 1000), steps)?;
        let _counts = counts(ran);
        assert_same(&rt, (rounds, stands(index)), (rounds, left));
    }
    Ok(())
}

/// The place of the next report of the tree, from one on; where there is none, that behind the last one.
fn next_of_tree(reports: &[Report<u64>], from: usize) -> usize {
    for place in from..reports.len() {
        if let Some(report) = reports.get(place) {
            if report.kind == Kind::Tree {
                return place;
            }
        }
    }
    reports.len()
}

/// Whether two runs tell the same of the tree.
fn tell_alike(plain: &[Report<u64>], swept: &[Report<u64>]) -> bool {
    let (mut one, mut other) = (0, 0);
    for _ in 0..=swept.len() {
        one = next_of_tree(plain, one);
        other = next_of_tree(swept, other);
        if plain.get(one) != swept.get(other) {
            return false;
        }
        one = one.saturating_add(1);
        other = other.saturating_add(1);
    }
    true
}

#[test]
fn rounds_between_steps_are_unseen(rt: HostRuntime) -> Result<(), Fail> {
    let (steps, more) = (grown(rt.alloc(), 0, 0)?, grown(rt.alloc(), 2, 3)?);
    let (plain, swept) = answer_alike(rt.alloc(), Limits::usual(2, 1000), steps, more)?;
    let is_longer = plain.done < swept.done;
    assert_same(
        &rt,
        (is_longer, tell_alike(&plain.reports, &swept.reports)),
        (true, true),
    );
    Ok(())
}

#[test]
fn the_first_calls_find_what_was_put(rt: HostRuntime) -> Result<(), Fail> {
    assert_same(&rt, first_calls(&rt, rt.alloc())?, (Some(42), 1));
    Ok(())
}

#[test]
fn jobs_are_taken_when_they_are_due(rt: HostRuntime) -> Result<(), Fail> {
    let told = first_due(&rt, rt.alloc(), &[30, 10, 20, 50], 20, 40)?;
    assert_same(&rt, told, (2, Some((30, 0)), Some((50, 3))));
    Ok(())
}

#[test]
fn calls_are_driven_on_an_index_of_ones_own(rt: HostRuntime) -> Result<(), Fail> {
    let mut index = open(rt.alloc(), 1, 100)?;
    let mut found = [(0, 0); 2];
    for (op, done) in [
        (Op::Pin, Done::Unit),
        (Op::Insert(7, 1), Done::Reply(Reply::Insert(None))),
        (
            Op::ComputeInsert(7),
            Done::Reply(Reply::ComputeInsert(Some(1))),
        ),
        (Op::Range(0, 9, 2), Done::Scanned(1)),
    ] {
        let mut driven = Driven::new(index, 0, op);
        let told = answered(
            &rt,
            &mut driven,
            |value| Some(value?.wrapping_add(4)),
            &mut found,
        );
        assert_same(&rt, (op, told), (op, Ok(done)));
        index = driven.into_index();
    }
    discard(index);
    assert_same(&rt, found, [(7, 5), (0, 0)]);
    Ok(())
}

/// Whether this text is owned.
fn is_text(owner: &Option<Arc<String, Global>>, text: &str) -> bool {
    match owner {
        Some(owner) => owner.as_str() == text,
        None => false,
    }
}

#[test]
fn an_owner_is_read_and_the_next_one_is_taken_out(rt: HostRuntime) -> Result<(), Fail> {
    let hello = Arc::new(rt.alloc(), String::from_str(rt.alloc(), "hello")?)?;
    let world = Arc::new(rt.alloc(), String::from_str(rt.alloc(), "hello world")?)?;
    let (read, taken) = shared_values(&rt, rt.alloc(), hello, world)?;
    let are_texts = (is_text(&read, "hello"), is_text(&taken, "hello world"));
    assert_same(&rt, are_texts, (true, true));
    Ok(())
}

#[test]
fn a_lie_is_found(rt: HostRuntime) -> Result<(), Fail> {
    let mut store = Store::new(rt.alloc());
    store.put(0, 7, 70)?;
    store.get(1, 7)?;
    store.put(1, 7, 71)?;
    assert_same(&rt, is_honest(rt.alloc(), store.journal.as_slice())?, true);
    // What another one wrote down, that it still found the first number.
    store.journal.push(Entry {
        worker: 2,
        call: Call::Get(7),
        reply: Reply::Get(Some(70)),
    })?;
    assert_same(&rt, is_honest(rt.alloc(), store.journal.as_slice())?, false);
    Ok(())
}

#[test]
fn a_tree_is_read_by_pages_and_drained(rt: HostRuntime) -> Result<(), Fail> {
    let sum = Sum {
        of_values: 0,
        last_key: None,
    };
    let mut tree: Numbers<Sum> = Congee::new_with_drainer(
        rt.alloc(),
        DefaultAllocator::new(),
        sum,
    )?;
    let put = puts_forty(&mut tree);
    let mut page = [(0, 0); 3];
    let count = page_from(&tree, 38_001, &mut page);
    let all = sum_by_pages(&tree);
    let sum = drained(tree);
    put?;
    assert_same(&rt, (count, page[0], all), (1, (39_000, 39), 780));
    assert_same(&rt, (sum.of_values, sum.last_key), (780, Some(39_000)));
    Ok(())
}

/// Puts forty pairs in.
fn puts_forty(tree: &mut Numbers<Sum>) -> Result<(), OOMError> {
    for key in 0..40 {
        tree.insert(key * 1_000, key)?;
    }
    Ok(())
}

#[test]
fn what_was_put_off_is_called(rt: HostRuntime) -> Result<(), Fail> {
    let called = Arc::new(rt.alloc(), AtomicU64::new(0))?;
    let collector: Collector<Item> = Collector::new(&rt, rt.alloc(), limits(10), 1)?;
    let told = puts_off(&rt, rt.alloc(), &collector, &called);
    let refused = ended(collector);
    assert_same(
        &rt,
        (told, refused, called.load(Ordering::SeqCst)),
        (Ok((false, true)), None, 5),
    );
    Ok(())
}

/// Puts five jobs off with a handle of its own, which is released: whether it is pinned then, and whether one was called before.
fn puts_off<R: Wait + Abort>(
    rt: &R,
    alloc: Global,
    collector: &Collector<Item>,
    called: &Arc<AtomicU64>,
) -> Result<(bool, bool), Fault> {
    let mut handle = collector.register(rt)?;
    let put_off = puts_five_off(rt, alloc, &mut handle, called);
    let told = (handle.is_pinned(), called.load(Ordering::SeqCst) >= 1);
    leaves(rt, handle)?;
    put_off?;
    Ok(told)
}

fn puts_five_off<R: Wait + Abort>(
    rt: &R,
    alloc: Global,
    handle: &mut Handle<'_>,
    called: &Arc<AtomicU64>,
) -> Result<(), Fault> {
    for _ in 0..5 {
        match adds(alloc, called, 1) {
            Ok(job) => put_off(rt, handle, job)?,
            Err(_) => return Err(Fault::Memory),
        }
    }
    Ok(())
}

#[test]
fn what_is_called_is_older_than_a_guard(rt: HostRuntime) -> Result<(), Fail> {
    let collector: Collector<u64, ()> = Collector::new(&rt, rt.alloc(), limits(1), 1)?;
    // It is sealed with 0, and the epoch goes on to 1. The guard takes that, and the collection beside it goes on to 2.
    assert_same(&rt, collects(&rt, &collector), Ok((Some(0), 1)));
    Ok(())
}

fn collects<R: Wait>(rt: &R, collector: &Collector<u64, ()>) -> Result<(Option<u64>, u64), Fault> {
    let mut handle = collector.register(rt)?;
    let put_off = put_off(rt, &mut handle, ());
    let told = collects_beside_a_guard(rt, collector);
    put_off?;
    told
}

/// Two readers beside a writer find no value but the one that was put; once it is done, all keys.
#[test]
fn a_tree_under_a_sharded_lock_is_read_beside_a_writer(rt: HostRuntime) -> Result<(), Fail> {
    let doubles: Doubles = Congee::new(rt.alloc(), DefaultAllocator::new())?;
    let shared = ShardedLock::new(rt.alloc(), doubles)?;
    let (one, two) = reads_beside_a_writer(&rt, &shared, 300)?;
    let seen = look(&rt, &shared, 2, 301);
    assert_same(
        &rt,
        (one.doubled, two.doubled, seen.stood, seen.doubled),
        (true, true, 300, true),
    );
    Ok(())
}

/// Two writers under a plain lock put each its keys.
#[test]
fn a_tree_under_a_mutex_is_written_by_two(rt: HostRuntime) -> Result<(), Fail> {
    let doubles: Doubles = Congee::new(rt.alloc(), DefaultAllocator::new())?;
    let shared = Mutex::new(doubles);
    writes_in_two_threads(&rt, &shared, 150)?;
    let doubles = shared.lock(&rt);
    assert_same(&rt, (doubles.len(), doubles.get(&299)), (300, Some(598)));
    Ok(())
}

/// The key and the value of a pair, if there is one.
fn pair_at(pairs: &Option<Vec<Pair>>, place: usize) -> Option<(u64, u64)> {
    match pairs {
        Some(pairs) => match pairs.get(place) {
            Some(pair) => Some((pair.key, pair.value)),
            None => None,
        },
        None => None,
    }
}

#[test]
fn two_threads_share_an_index_without_a_lock(rt: HostRuntime) {
    let pairs = shares_and_drains(&rt, rt.alloc());
    let found = [pair_at(&pairs, 0), pair_at(&pairs, 1), pair_at(&pairs, 2)];
    assert_same(&rt, found, [Some((1, 10)), Some((2, 20)), None]);
}

/// The writer beside may have put its pair by then.
#[test]
fn a_range_at_one_moment_has_what_was_put_before(rt: HostRuntime) -> Result<(), Fail> {
    let read = moment::reads_beside(&rt, rt.alloc()).ok_or("nothing was read")?;
    let pairs = [read.pairs[0], read.pairs[1]];
    assert_same(&rt, (pairs[0].key, pairs[0].value), (1, 10));
    if read.count > 1 {
        assert_same(&rt, (read.count, pairs[1].key, pairs[1].value), (2, 2, 20));
    }
    Ok(())
}

#[test]
fn the_newest_entries_come_first(rt: HostRuntime) -> Result<(), Fail> {
    let (read, two) = appends_and_reads(&rt, rt.alloc()).ok_or("nothing was read")?;
    let (first, last) = (read.pairs[0], read.pairs[3]);
    assert_same(
        &rt,
        (read.count, first.key, first.value, last.key),
        (4, 6, 60, 3),
    );
    assert_same(&rt, (two.0.key, two.1.key), (4, 3));
    Ok(())
}
