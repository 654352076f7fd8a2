//! What each call of the trees for threads is refused as: at the limits of its tree, and where worker or guard are a
//! stranger's; and that what stands is found after it.

ghost use Rattle.std.specs.Prelude.{◌≡◌};

use super::asks::{Ask, Threaded, Told, Which, left, nothing, spent};
use super::trees::{Owners, Recorded};
use crate::drained::Drained;
use crate::tests::asserts::assert_same;
use congee::Limited;
use joint::{
    Congee, CongeeArc, Every, Guard, Journaled, Limits, Refusal, Share, U64Congee, Worker,
};
use judge::{Call, Reply};
use std::alloc::Global;
use std::marker::Brand;
use std::mem;
use std::sync::Wait;
use std::sync::ledger::{Blank, Ledger};
use std::test::Fail;

type Words = Congee<u64, u64, Limited>;

type Numbers = U64Congee<u64, Limited>;

type Journal<L> = Journaled<L, Every, u64, u64, Limited>;

/// What calls are refused as: those that write at a key that is there, those that put one there that isn't, and the others,
/// where they are.
#[derive(Clone, Copy)]
struct Refused {
    present: Refusal,
    absent: Refusal,
    other: Option<Refusal>,
}

/// Which of these a call is.
#[derive(Clone, Copy)]
enum Kind {
    Present,
    Absent,
    Other,
}

impl Refused {
    fn of(self, kind: Kind) -> Option<Refusal> {
        match kind {
            Kind::Present => Some(self.present),
            Kind::Absent => Some(self.absent),
            Kind::Other => self.other,
        }
    }
}

/// A stranger's.
const FOREIGN: Refused = Refused {
    present: Refusal::Foreign,
    absent: Refusal::Foreign,
    other: Some(Refusal::Foreign),
};

/// A key with a leaf of its own, which isn't there.
const ABSENT: u64 = 1 << 56;

/// The calls of a tree of words with 1 alone.
const OF_WORDS: [(Ask, Kind); 10] = [
    (Ask::Call(Call::Insert(1, 3)), Kind::Present),
    (Ask::Call(Call::ComputeInsert(1, 1)), Kind::Present),
    (Ask::Call(Call::ComputePresent(1, None)), Kind::Present),
    (Ask::Call(Call::Exchange(1, 2, None)), Kind::Present),
    (Ask::Call(Call::Remove(1)), Kind::Present),
    (Ask::Call(Call::Insert(ABSENT, 3)), Kind::Absent),
    (Ask::Call(Call::ComputeInsert(ABSENT, 1)), Kind::Absent),
    (Ask::Call(Call::Get(1)), Kind::Other),
    (Ask::Range(0, 9), Kind::Other),
    (Ask::RangeInclusive(0, 9), Kind::Other),
];

/// Those of a tree of owners.
const OF_OWNERS: [(Ask, Kind); 5] = [
    (Ask::Call(Call::Insert(1, 3)), Kind::Present),
    (Ask::Call(Call::Insert(ABSENT, 3)), Kind::Absent),
    (Ask::Call(Call::ComputePresent(1, None)), Kind::Present),
    (Ask::Call(Call::Remove(1)), Kind::Present),
    (Ask::Call(Call::Get(1)), Kind::Other),
];

/// Those that all kinds of trees have alike. The guard of the last one stays out.
const OF_ALL: [(Ask, Kind); 11] = [
    (Ask::Has(1), Kind::Other),
    (Ask::IsEmpty, Kind::Other),
    (Ask::Nearest(Which::First), Kind::Other),
    (Ask::Keys, Kind::Other),
    (Ask::Stats, Kind::Other),
    (Ask::Len, Kind::Other),
    (Ask::Repin, Kind::Other),
    (Ask::Flush, Kind::Other),
    (Ask::Round, Kind::Other),
    (Ask::Pinned, Kind::Other),
    (Ask::Pin, Kind::Other),
];

/// Whether each call is refused so.
fn refuses<T: Threaded, R: Wait>(
    rt: &R,
    tree: &mut T,
    calls: &[(Ask, Kind)],
    so: Refused,
    worker: &mut Worker,
    guard: &Guard,
) -> bool {
    for (ask, kind) in calls.iter().chain(OF_ALL.iter()) {
        if tree.told(rt, *ask, worker, guard).err() != so.of(*kind) {
            return false;
        }
    }
    true
}

/// What bounds a tree for one worker, whose nodes are locked once at most; and how it then refuses, once 1 has its second value.
#[derive(Clone, Copy)]
struct Bounds {
    cells: u32,
    bytes: u64,
    places: u64,
    so: Refused,
}

impl Bounds {
    fn limits(self) -> Limits {
        Limits {
            version_max: 1,
            ..Limits::usual(1, self.cells).with_id(1)
        }
    }
}

/// Bounds at which no key is put there any more for this.
fn full(cells: u32, bytes: u64, absent: Refusal) -> Bounds {
    let so = Refused {
        present: Refusal::Exhausted,
        absent,
        other: None,
    };
    Bounds {
        cells,
        bytes,
        places: 9,
        so,
    }
}

/// A stranger, who is of another tree, is refused what is asked with its guard, and as it spends that and leaves.
fn refuses_a_stranger<T: Threaded, R: Wait>(
    rt: &R,
    tree: &mut T,
    home: &mut Words,
    calls: &[(Ask, Kind)],
) -> Result<bool, Refusal> {
    let mut stranger = home.comes(rt)?;
    let theirs = home.pins(rt, &mut stranger)?;
    let refused = refuses(rt, tree, calls, FOREIGN, &mut stranger, &theirs);
    let found = home.told(rt, Ask::Call(Call::Get(1)), &mut stranger, &theirs);
    let back = spent(tree.unpins(rt, &mut stranger, theirs));
    let stays = left(tree.leaves(rt, stranger));
    Ok(
        refused
            && found == Ok(Told::Replied(Reply::Get(None)))
            && (back, stays) == (Err(Refusal::Foreign), Err(Refusal::Foreign)),
    )
}

/// What is done with a tree until it is at its bounds, and what it tells; and what it tells there.
const FILLS: [(Ask, Told); 2] = [
    (
        Ask::Call(Call::Insert(1, 1)),
        Told::Replied(Reply::Insert(None)),
    ),
    (
        Ask::Call(Call::Insert(1, 2)),
        Told::Replied(Reply::Insert(Some(1))),
    ),
];

const STANDS: [(Ask, Told); 1] = [(Ask::Call(Call::Get(1)), Told::Replied(Reply::Get(Some(2))))];

/// Whether a tree tells this.
fn tells<T: Threaded, R: Wait>(
    rt: &R,
    tree: &mut T,
    rows: &[(Ask, Told)],
    worker: &mut Worker,
    guard: &Guard,
) -> bool {
    let mut right = true;
    for (ask, told) in rows {
        right &= tree.told(rt, *ask, worker, guard) == Ok(*told);
    }
    right
}

/// A tree's own worker is refused at its bounds what is asked, and as another one comes and it leaves.
fn refuses_its_own<T: Threaded, R: Wait>(
    rt: &R,
    tree: &mut T,
    calls: &[(Ask, Kind)],
    so: Refused,
) -> Result<bool, Refusal> {
    let mut worker = tree.comes(rt)?;
    let guard = tree.pins(rt, &mut worker)?;
    let is_bound = tells(rt, tree, &FILLS, &mut worker, &guard)
        && refuses(rt, tree, calls, so, &mut worker, &guard)
        && tells(rt, tree, &STANDS, &mut worker, &guard);
    spent(tree.unpins(rt, &mut worker, guard))?;
    let is_alone = tree.comes(rt).err() == Some(Refusal::TableFull);
    let is_held = left(tree.leaves(rt, worker)) == Err(Refusal::GuardOut);
    Ok(is_bound && is_alone && is_held)
}

/// Whether a tree refuses both.
fn holds<T: Threaded, R: Wait>(
    rt: &R,
    tree: T,
    home: &mut Words,
    calls: &[(Ask, Kind)],
    so: Refused,
) -> Result<bool, Refusal> {
    let mut tree = tree;
    Ok(
        refuses_a_stranger(rt, &mut tree, home, calls)?
            && refuses_its_own(rt, &mut tree, calls, so)?,
    )
}

fn recorded_holds<L: Ledger, R: Wait>(
    rt: &R,
    alloc: Global,
    blank: Blank,
    home: &mut Words,
    bounds: Bounds,
) -> Result<bool, Refusal>
    requires name { blank.name ≡ L.name }
    requires ledger { blank.parts ≡ L.parts }
    requires parts { blank.parts ≡ 1 }
{
    let (limits, allocator) = (bounds.limits(), Limited::new(bounds.bytes));
    let drained = Drained::new(alloc);
    let (tree, share) = Journaled::new_with_drainer(
        alloc,
        limits,
        allocator,
        drained,
        bounds.places,
        1,
        blank,
    )?;
    let recorded: Recorded<L, Limited> = Recorded { tree, share };
    holds(rt, recorded, home, &OF_WORDS, bounds.so)
}

fn recorded_holds_by_brand<R: Wait>(
    rt: &R,
    alloc: Global,
    home: &mut Words,
    bounds: Bounds,
) -> Result<bool, Refusal> {
    recorded_holds::<Brand, R>(rt, alloc, Blank::new(1), home, bounds)
}

/// The kinds of trees.
#[derive(Clone, Copy)]
enum Tree {
    Words,
    Numbers,
    Owners,
    Recorded,
}

/// Whether a tree of this kind holds its bounds.
fn tree_holds<R: Wait>(
    rt: &R,
    alloc: Global,
    kind: Tree,
    home: &mut Words,
    bounds: Bounds,
) -> Result<bool, Refusal> {
    let (limits, allocator) = (bounds.limits(), Limited::new(bounds.bytes));
    match kind {
        Tree::Words => {
            let tree: Words = Congee::new(alloc, limits, allocator)?;
            holds(rt, tree, home, &OF_WORDS, bounds.so)
        }
        Tree::Numbers => {
            let tree: Numbers = U64Congee::new(alloc, limits, allocator)?;
            holds(rt, tree, home, &OF_WORDS, bounds.so)
        }
        Tree::Owners => {
            let tree = CongeeArc::new(alloc, limits)?;
            holds(rt, Owners { tree, alloc }, home, &OF_OWNERS, bounds.so)
        }
        Tree::Recorded => recorded_holds_by_brand(rt, alloc, home, bounds),
    }
}

/// At cells that are all taken, at a budget that is spent, and at a journal that is full.
fn at_cells() -> Bounds {
    full(2, u64::MAX, Refusal::Cells)
}

fn at_budget() -> Bounds {
    let budget = Refusal::Budget {
        charged: 2168,
        wanted: 64,
        limit: 2168,
    };
    full(9, 2168, budget)
}

fn at_places() -> Bounds {
    let so = Refused {
        present: Refusal::JournalFull,
        absent: Refusal::JournalFull,
        other: None,
    };
    Bounds {
        places: 2,
        so,
        ..at_cells()
    }
}

#[test]
fn each_call_is_refused_by_its_name(rt: HostRuntime) -> Result<(), Fail> {
    let mut home: Words = Congee::new(rt.alloc(), Limits::usual(8, 9), Limited::new(9_000))?;
    let rows = [
        (Tree::Words, at_cells()),
        (Tree::Words, at_budget()),
        (Tree::Numbers, at_cells()),
        (Tree::Numbers, at_budget()),
        (Tree::Owners, at_cells()),
        (Tree::Recorded, at_cells()),
        (Tree::Recorded, at_budget()),
        (Tree::Recorded, at_places()),
    ];
    for (place, (kind, bounds)) in rows.iter().enumerate() {
        let holds = tree_holds(&rt, rt.alloc(), *kind, &mut home, *bounds);
        assert_same(&rt, (place, holds), (place, Ok(true)));
    }
    Ok(())
}

/// Why a tree for so many workers and bytes isn't opened.
fn unopened<R: Wait>(
    rt: &R,
    alloc: Global,
    kind: Tree,
    workers: u32,
    bytes: u64,
) -> Option<Refusal> {
    let limits = Limits::usual(workers, 9);
    match kind {
        Tree::Words => Words::new(alloc, limits, Limited::new(bytes)).err(),
        Tree::Numbers => Numbers::new(alloc, limits, Limited::new(bytes)).err(),
        Tree::Owners => CongeeArc::<u64, u64>::new(alloc, limits).err(),
        Tree::Recorded => unopened_by_brand(rt, alloc, 1, 9),
    }
}

/// Why there is no worker of a tree with a journal that has so many parts of its ledger, places and bytes.
fn recorded_unopened<L: Ledger, R: Wait>(
    rt: &R,
    alloc: Global,
    blank: Blank,
    parts: u32,
    places: u64,
) -> Option<Refusal>
    requires name { blank.name ≡ L.name }
    requires ledger { blank.parts ≡ L.parts }
    requires parts { blank.parts ≡ parts }
{
    let (limits, allocator) = (Limits::usual(1, 9), Limited::new(2103));
    let opened: Result<(Journal<L>, Share<L>), Refusal> = Journaled::new(
        alloc, limits, allocator, places, parts, blank,
    );
    match opened {
        Ok((tree, _share)) => tree.register(rt).err(),
        Err(refusal) => Some(refusal),
    }
}

fn unopened_by_brand<R: Wait>(rt: &R, alloc: Global, parts: u32, places: u64) -> Option<Refusal> {
    recorded_unopened::<Brand, R>(rt, alloc, Blank::new(u64::from(parts)), parts, places)
}

#[test]
fn trees_want_their_limits(rt: HostRuntime) {
    let limits = Some(Refusal::Limits);
    let budget = Some(Refusal::Budget {
        charged: 0,
        wanted: 2104,
        limit: 2103,
    });
    let rows = [
        (Tree::Words, 0, 9_000, limits),
        (Tree::Words, 1, 2103, budget),
        (Tree::Numbers, 0, 9_000, limits),
        (Tree::Numbers, 1, 2103, budget),
        (Tree::Owners, 0, 9_000, limits),
        (Tree::Recorded, 1, 2103, budget),
    ];
    for (place, (kind, workers, bytes, refused)) in rows.iter().enumerate() {
        let unopened = unopened(&rt, rt.alloc(), *kind, *workers, *bytes);
        assert_same(&rt, (place, unopened), (place, *refused));
    }
    for (parts, places) in [(0, 9), (1, 0), (1, 1 << 32)] {
        let unopened = unopened_by_brand(&rt, rt.alloc(), parts, places);
        assert_same(&rt, ((parts, places), unopened), ((parts, places), limits));
    }
}

/// Why there is no guard, if there is none; one is let go.
fn refusal_of(pinned: Result<Guard, Refusal>) -> Option<Refusal> {
    match pinned {
        Ok(guard) => {
            guard.forget();
            None
        }
        Err(refusal) => Some(refusal),
    }
}

/// The most guards of a worker.
const GUARDS: u32 = 65_535;

/// Whether a worker is refused what is asked with another one's guard; whether it takes its own guards, and is refused one more
/// each way; and whether one that another worker's guard was left for stays pinned. No third worker finds a place.
fn guards_out<R: Wait>(rt: &R, tree: &Words) -> Result<bool, Refusal> {
    let (mut worker, mut other) = (tree.register(rt)?, tree.register(rt)?);
    let third = tree.register(rt).err();
    let mut with_theirs = None;
    let changed = tree.pinned(rt, &mut worker, |worker, guard| {
        with_theirs = tree.get(rt, &1, &mut other, guard).err();
        mem::swap(worker, &mut other);
        Ok(())
    });
    let refused = (third, with_theirs, changed);
    // Now this is the other one's place, who has a guard out.
    let is_held = other.number() == 0;
    for _ in 0..GUARDS {
        refusal_of(tree.pin(rt, &mut worker));
    }
    Ok(
        is_held
            && refused
                == (
                    Some(Refusal::TableFull),
                    Some(Refusal::Foreign),
                    Err(Refusal::Foreign),
                )
            && refusal_of(tree.pin(rt, &mut worker)) == Some(Refusal::Count)
            && tree.pinned(rt, &mut worker, nothing) == Err(Refusal::Count)
            && tree.round(rt, &mut worker) == Err(Refusal::Count)
            && left(tree.release(rt, other)) == Err(Refusal::GuardOut)
            && tree.keys(rt, &mut worker)?.is_empty(),
    )
}

#[test]
fn guards_are_counted_and_stay_with_their_worker(rt: HostRuntime) -> Result<(), Fail> {
    let tree: Words = Congee::new(rt.alloc(), Limits::usual(2, 9), Limited::new(9_000))?;
    assert_same(&rt, guards_out(&rt, &tree), Ok(true));
    Ok(())
}
