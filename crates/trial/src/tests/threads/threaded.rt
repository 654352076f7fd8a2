//! The trees for threads: what no clause says, that their calls come through, with a journal and without one; and that closures
//! run between two holds.

ghost use Rattle.std.specs.Prelude.{◌≡◌};

use super::asks::{Ask, Left, Threaded, Told, Which, left, spent};
use super::trees::{Owners, Recorded};
use crate::drained::Drained;
use crate::examples::counter::count_in_two_threads;
use crate::tests::asserts::assert_same;
use crate::tests::machine::drawn::number_in;
use crate::worker::Cut;
use congee::{Allocator, DefaultAllocator, Limited};
use joint::{Congee, CongeeArc, Guard, Journaled, Limits, Refusal, U64Congee, Worker};
use judge::{Call, Reply, Verdict, check};
use std::alloc::Global;
use std::marker::Brand;
use std::process::Abort;
use std::sync::Wait;
use std::sync::atomic::AtomicBool;
use std::sync::atomic::Ordering::SeqCst;
use std::sync::ledger::{Blank, Ledger};
use std::test::Fail;
use std::thread;
use std::thread::Threads;

type Words = Congee<u64, u64>;

/// So many places and cells, and the name of an index.
fn limits(workers: u32, cells: u32, id: u64) -> Limits {
    Limits {
        id,
        ..Limits::usual(workers, cells)
    }
}

fn words(alloc: Global, id: u64) -> Result<Words, Refusal> {
    Congee::new(alloc, limits(2, 1_000, id), DefaultAllocator::new())
}

/// What is asked of a tree under one guard, and what it tells; then what is charged, and how many nodes and bytes wait; and what
/// is charged after three rounds, when nothing waits.
type Stage<'a> = (&'a [(Ask, Told)], (u64, u64, u64), u64);

/// Each call on a tree of words, as a map answers it. In the end 1 stands alone.
const EACH: [(Ask, Told); 33] = [
    (
        Ask::Call(Call::Insert(1, 42)),
        Told::Replied(Reply::Insert(None)),
    ),
    (Ask::Call(Call::Get(1)), Told::Replied(Reply::Get(Some(42)))),
    (
        Ask::Call(Call::ComputeInsert(1, 1)),
        Told::Replied(Reply::ComputeInsert(Some(42))),
    ),
    (
        Ask::Call(Call::ComputeInsert(2, 2)),
        Told::Replied(Reply::ComputeInsert(None)),
    ),
    (
        Ask::Call(Call::Get(1)),
        Told::Replied(Reply::Get(Some(106))),
    ),
    (Ask::Call(Call::Get(2)), Told::Replied(Reply::Get(Some(2)))),
    (
        Ask::Call(Call::ComputePresent(1, Some(1))),
        Told::Replied(Reply::ComputePresent(Some((106, Some(107))))),
    ),
    (
        Ask::Call(Call::ComputePresent(3, Some(1))),
        Told::Replied(Reply::ComputePresent(None)),
    ),
    (
        Ask::Call(Call::Exchange(1, 106, Some(5))),
        Told::Replied(Reply::Exchange(Err(Some(107)))),
    ),
    (
        Ask::Call(Call::Exchange(1, 107, Some(5))),
        Told::Replied(Reply::Exchange(Ok(Some(5)))),
    ),
    (
        Ask::Call(Call::Remove(2)),
        Told::Replied(Reply::Remove(Some(2))),
    ),
    (Ask::Call(Call::Get(2)), Told::Replied(Reply::Get(None))),
    (Ask::Has(1), Told::Has(true)),
    (
        Ask::Call(Call::Insert(256, 6)),
        Told::Replied(Reply::Insert(None)),
    ),
    (Ask::Range(2, 1_000), Told::Scanned(1, (256, 6))),
    (Ask::Nearest(Which::First), Told::Pair(Some((1, 5)))),
    (Ask::Nearest(Which::Last), Told::Pair(Some((256, 6)))),
    (Ask::Nearest(Which::After(1)), Told::Pair(Some((256, 6)))),
    (Ask::Nearest(Which::Before(256)), Told::Pair(Some((1, 5)))),
    (Ask::Nearest(Which::From(2)), Told::Pair(Some((256, 6)))),
    (Ask::Nearest(Which::UpTo(255)), Told::Pair(Some((1, 5)))),
    (
        Ask::Call(Call::Remove(256)),
        Told::Replied(Reply::Remove(Some(6))),
    ),
    (Ask::Call(Call::Get(1)), Told::Replied(Reply::Get(Some(5)))),
    (Ask::Nearest(Which::After(1)), Told::Pair(None)),
    (Ask::Range(0, 10), Told::Scanned(1, (1, 5))),
    (Ask::RangeInclusive(1, 1), Told::Scanned(1, (1, 5))),
    (Ask::Keys, Told::Keys(1, Some(1))),
    (Ask::Repin, Told::Done),
    (Ask::Flush, Told::Done),
    (Ask::IsEmpty, Told::IsEmpty(false)),
    (Ask::Stats, Told::Pairs(1)),
    (Ask::Len, Told::Pairs(1)),
    (Ask::Pinned, Told::Done),
];

/// 1 goes, so that the root alone is left, and comes again.
const GOES: [(Ask, Told); 1] = [(
    Ask::Call(Call::Remove(1)),
    Told::Replied(Reply::Remove(Some(5))),
)];

const COMES: [(Ask, Told); 1] = [(
    Ask::Call(Call::Insert(1, 5)),
    Told::Replied(Reply::Insert(None)),
)];

/// Of each call. Behind the first one a leaf waits, and the node above both.
const STAGES: [Stage<'static>; 3] = [
    (&EACH, (2296, 2, 128), 2168),
    (&GOES, (2168, 1, 64), 2104),
    (&COMES, (2168, 0, 0), 2168),
];

/// The calls on a tree of owners: one is put in, replaced and taken out again.
const SHARED: [(Ask, Told); 15] = [
    (
        Ask::Call(Call::Insert(1, 7)),
        Told::Replied(Reply::Insert(None)),
    ),
    (Ask::Call(Call::Get(1)), Told::Replied(Reply::Get(Some(7)))),
    (
        Ask::Call(Call::ComputePresent(1, Some(8))),
        Told::Replied(Reply::ComputePresent(Some((7, Some(8))))),
    ),
    (Ask::Call(Call::Get(1)), Told::Replied(Reply::Get(Some(8)))),
    (Ask::Nearest(Which::UpTo(9)), Told::Pair(Some((1, 8)))),
    (Ask::Nearest(Which::From(2)), Told::Pair(None)),
    (Ask::Keys, Told::Keys(1, Some(1))),
    (Ask::Stats, Told::Pairs(1)),
    (Ask::Len, Told::Pairs(1)),
    (Ask::Pinned, Told::Done),
    (Ask::IsEmpty, Told::IsEmpty(false)),
    (
        Ask::Call(Call::Remove(1)),
        Told::Replied(Reply::Remove(Some(8))),
    ),
    (Ask::Call(Call::Get(1)), Told::Replied(Reply::Get(None))),
    (Ask::Has(1), Told::Has(false)),
    (Ask::IsEmpty, Told::IsEmpty(true)),
];

const SHARED_STAGES: [Stage<'static>; 1] = [(&SHARED, (2168, 1, 64), 2104)];

/// The place of the first row that is told otherwise.
fn wrong<T: Threaded, R: Wait>(
    rt: &R,
    tree: &mut T,
    rows: &[(Ask, Told)],
    worker: &mut Worker,
) -> Result<Option<usize>, Refusal> {
    let guard = tree.pins(rt, worker)?;
    let mut wrong = None;
    for (place, (ask, told)) in rows.iter().enumerate() {
        if tree.told(rt, *ask, worker, &guard) != Ok(*told) && wrong.is_none() {
            wrong = Some(place);
        }
    }
    spent(tree.unpins(rt, worker, guard))?;
    Ok(wrong)
}

/// A tree goes through these stages. What came in with its allocator stays charged.
fn goes_through<T: Threaded, R: Wait + Abort>(
    rt: &R,
    tree: &mut T,
    stages: &[Stage<'_>],
    base: u64,
    worker: &mut Worker,
) -> Result<(), Refusal> {
    for (rows, (charged, waiting, bytes), after) in stages {
        assert_same(rt, wrong(rt, tree, rows, worker), Ok(None));
        let state = (base.wrapping_add(*charged), *waiting, *bytes);
        assert_same(rt, tree.state(rt), state);
        for _ in 0..3 {
            tree.goes_round(rt, worker)?;
        }
        assert_same(rt, tree.state(rt), (base.wrapping_add(*after), 0, 0));
    }
    Ok(())
}

/// What a tree leaves that is closed. Before its worker has left it comes back.
fn ends<T: Threaded, R: Wait + Abort>(rt: &R, tree: T, worker: Worker) -> Result<Left, Fail> {
    match tree.closes(rt) {
        Ok(_) => Err("closed with a worker".into()),
        Err((refusal, tree)) => {
            assert_same(rt, refusal, Refusal::WorkersLeft(1));
            left(tree.leaves(rt, worker))?;
            match tree.closes(rt) {
                Ok(left) => Ok(left),
                Err((refusal, _)) => Err(refusal.into()),
            }
        }
    }
}

/// What a tree leaves that has gone through these stages.
fn lives<T: Threaded, R: Wait + Abort>(
    rt: &R,
    tree: T,
    stages: &[Stage<'_>],
    base: u64,
) -> Result<Left, Fail> {
    let mut tree = tree;
    let mut worker = tree.comes(rt)?;
    assert_same(rt, worker.number(), 0);
    goes_through(rt, &mut tree, stages, base, &mut worker)?;
    ends(rt, tree, worker)
}

/// A tree of numbers, which are found by their bytes.
type Numbers = U64Congee<u64, Limited>;

/// What came in with the allocator of the second stays charged.
#[test]
fn each_call_comes_through(rt: HostRuntime) -> Result<(), Fail> {
    let alloc = rt.alloc();
    let left = lives(&rt, words(alloc, 0)?, &STAGES, 0)?;
    assert_same(&rt, left, (0, u64::MAX, 0, None));
    let mut allocator = Limited::new(10_000);
    allocator.allocate(500)?;
    let numbers: Numbers = U64Congee::new(alloc, limits(1, 9, 0), allocator)?;
    let left = lives(&rt, numbers, &STAGES, 500)?;
    assert_same(&rt, left, (500, 10_000, 0, None));
    let tree = CongeeArc::new(alloc, limits(1, 9, 0))?;
    let left = lives(&rt, Owners { tree, alloc }, &SHARED_STAGES, 0)?;
    assert_same(&rt, left, (0, 0, 0, None));
    Ok(())
}

/// The calls on a key among all of these, and the writing ones.
const CALLS: (usize, u64) = (18, 12);

/// How many entries the journal has, and whether it is legal.
fn judged<L: Ledger, R: Wait>(
    rt: &R,
    alloc: Global,
    recorded: &Recorded<L, Limited>,
) -> Result<(usize, Verdict), Cut> {
    let journal = recorded.tree.entries(rt)?;
    Ok((journal.len(), check(alloc, &journal)?))
}

/// The calls on a key are written down, and the writing ones counted by the share of all parts.
fn has_written<L: Ledger, R: Wait + Abort>(
    rt: &R,
    alloc: Global,
    recorded: &mut Recorded<L, Limited>,
) {
    let share = &mut recorded.share;
    let counted = (
        share.parts(),
        share.count(),
        recorded.tree.gather(rt, share),
    );
    assert_same(rt, counted, (2, CALLS.1, Ok(CALLS.1)));
    let journal = judged(rt, alloc, recorded);
    assert_same(rt, journal, Ok((CALLS.0, Verdict::Legal)));
}

/// Each call once.
fn writes_down<L: Ledger, R: Wait + Abort>(rt: &R, alloc: Global, blank: Blank) -> Result<(), Fail>
    requires name { blank.name ≡ L.name }
    requires ledger { blank.parts ≡ L.parts }
    requires parts { blank.parts ≡ 2 }
{
    let (limits, allocator) = (limits(2, 1_000, 0), Limited::new(10_000));
    let drained = Drained::new(alloc);
    let (tree, share) = Journaled::new_with_drainer(
        alloc, limits, allocator, drained, 20, 2, blank,
    )?;
    let mut recorded: Recorded<L, Limited> = Recorded { tree, share };
    let mut worker = recorded.comes(rt)?;
    let gone = goes_through(rt, &mut recorded, &STAGES, 0, &mut worker);
    has_written(rt, alloc, &mut recorded);
    let left = ends(rt, recorded, worker)?;
    assert_same(rt, (gone, left), (Ok(()), (0, 10_000, 1, Some((1, 5)))));
    Ok(())
}

fn writes_down_by_brand<R: Wait + Abort>(rt: &R, alloc: Global) -> Result<(), Fail> {
    writes_down::<Brand, R>(rt, alloc, Blank::new(2))
}

#[test]
fn each_call_is_written_down(rt: HostRuntime) -> Result<(), Fail> {
    writes_down_by_brand(&rt, rt.alloc())
}

/// What a thread does with one guard.
#[derive(Clone, Copy)]
enum Task<'t> {
    /// Puts the keys from one on to before another one in, each its own value.
    Fill(u64, u64),
    /// Looks at those below this one meanwhile, and scans: a value that it finds is its key.
    Read(u64),
    /// Finds all of them.
    Find(u64),
    /// Finds a value at a key.
    Look(u64, u64),
    /// Puts a key in whose closure waits for the flag.
    Await(&'t AtomicBool),
    /// Puts another key in, and sets the flag.
    Tell(&'t AtomicBool),
}

fn fills<R: Wait>(
    rt: &R,
    tree: &Words,
    (from, to): (u64, u64),
    worker: &mut Worker,
    guard: &Guard,
) -> Result<bool, Refusal> {
    let mut fresh = true;
    for key in from..to {
        fresh &= tree.insert(rt, key, key, worker, guard)? == None;
    }
    Ok(fresh)
}

fn finds<R: Wait>(
    rt: &R,
    tree: &Words,
    to: u64,
    worker: &mut Worker,
    guard: &Guard,
) -> Result<bool, Refusal> {
    let mut all = true;
    for key in 0..to {
        all &= tree.get(rt, &key, worker, guard)? == Some(key);
    }
    Ok(all)
}

fn reads_along<R: Wait>(
    rt: &R,
    tree: &Words,
    to: u64,
    worker: &mut Worker,
    guard: &Guard,
) -> Result<bool, Refusal> {
    let mut same = true;
    let mut out = [(0, 0); 20];
    for tenth in 0..to / 10 {
        let key = tenth.saturating_mul(10);
        let found = tree.get(rt, &key, worker, guard)?;
        same &= found == Some(key) || found == None;
        if key % 500 == 0 {
            let count = tree.range(rt, &key, &to, &mut out, worker, guard)?;
            for (at, value) in out.iter().take(count) {
                same &= at == value && *at >= key;
            }
        }
    }
    Ok(same)
}

/// Whether the flag is set within so many turns, each of which yields to other threads.
pub fn comes(flag: &AtomicBool, turns: u32) -> bool {
    for _ in 0..turns {
        if flag.load(SeqCst) {
            return true;
        }
        thread::yield_now();
    }
    flag.load(SeqCst)
}

fn does<R: Wait>(
    rt: &R,
    tree: &Words,
    task: Task<'_>,
    worker: &mut Worker,
    guard: &Guard,
) -> Result<bool, Refusal> {
    match task {
        Task::Fill(from, to) => fills(rt, tree, (from, to), worker, guard),
        Task::Read(to) => reads_along(rt, tree, to, worker, guard),
        Task::Find(to) => finds(rt, tree, to, worker, guard),
        Task::Look(key, value) => Ok(tree.get(rt, &key, worker, guard)? == Some(value)),
        Task::Await(flag) => {
            // On a loaded machine a thread was seen to come later than ten thousand turns.
            let answer = |_| if comes(flag, 10_000_000) { 1 } else { 0 };
            tree.compute_or_insert(rt, 1, answer, worker, guard)?;
            Ok(tree.get(rt, &1, worker, guard)? == Some(1))
        }
        Task::Tell(flag) => {
            let before = tree.insert(rt, 2, 2, worker, guard)?;
            flag.store(true, SeqCst);
            Ok(before == None)
        }
    }
}

/// A worker does it, and leaves.
fn works<R: Wait>(rt: &R, tree: &Words, task: Task<'_>) -> Result<bool, Refusal> {
    let mut worker = tree.register(rt)?;
    let guard = tree.pin(rt, &mut worker)?;
    let done = does(rt, tree, task, &mut worker, &guard);
    spent(tree.unpin(rt, &mut worker, guard))?;
    left(tree.release(rt, worker))?;
    done
}

/// Two threads work at once.
fn two_work<R: Threads + Wait + Sync>(
    rt: &R,
    tree: &Words,
    tasks: (Task<'_>, Task<'_>),
) -> Result<bool, Refusal> {
    let (one, two) = thread::join(
        rt,
        move || works(rt, tree, tasks.0),
        move || works(rt, tree, tasks.1),
    );
    Ok(one? && two?)
}

/// Four threads work at once: two put so many keys in, a half each, and two read.
fn four_work<R: Threads + Wait + Sync>(
    rt: &R,
    tree: &Words,
    half: u64,
    keys: u64,
) -> Result<bool, Refusal> {
    let (one, two) = thread::join(
        rt,
        move || two_work(rt, tree, (Task::Fill(0, half), Task::Read(keys))),
        move || two_work(rt, tree, (Task::Fill(half, keys), Task::Read(keys))),
    );
    Ok(one? && two?)
}

#[test]
fn two_fill_and_two_read(rt: HostRuntime) -> Result<(), Fail> {
    let tree: Words = Congee::new(rt.alloc(), limits(4, 100_000, 0), DefaultAllocator::new())?;
    let half = u64::from(number_in(&rt, "TRIAL_KEYS", 500).min(5_000));
    let keys = half.saturating_mul(2);
    assert_same(&rt, four_work(&rt, &tree, half, keys), Ok(true));
    assert_same(&rt, works(&rt, &tree, Task::Find(keys)), Ok(true));
    Ok(())
}

#[test]
fn closure_waits_for_other(rt: HostRuntime) -> Result<(), Fail> {
    let tree = words(rt.alloc(), 0)?;
    let flag = AtomicBool::new(false);
    let tasks = (Task::Await(&flag), Task::Tell(&flag));
    assert_same(&rt, two_work(&rt, &tree, tasks), Ok(true));
    Ok(())
}

#[test]
fn no_count_is_lost(rt: HostRuntime) -> Result<(), Fail> {
    let tree = words(rt.alloc(), 0)?;
    let counted = count_in_two_threads(&rt, &tree, 7, 500);
    let found = works(&rt, &tree, Task::Look(7, 1_000));
    assert_same(&rt, (counted, found), (Ok(()), Ok(true)));
    Ok(())
}
