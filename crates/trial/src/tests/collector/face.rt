//! The face for threads: handles and guards. `values` has values without pointers, `atomics` the rows of pointers, `threads` and
//! `jobs` what handles do.

use super::jobs::blocks;
use super::threads::{Place, Task, at_once, by_handle, leaves};
use super::values::{Item, boxed, number_of, tag_of};
use crate::tests::asserts::assert_same;
use crossbeam_epoch::{
    Atomic, Collector, Fault, Guard, Job, Limits, Link, LocalHandle, Owned, Shared, unprotected,
};
use std::alloc::Global;
use std::process::Abort;
use std::sync::atomic::AtomicU64;
use std::sync::atomic::Ordering::SeqCst;
use std::sync::{Arc, Wait};
use std::test::Fail;
use std::thread::Threads;

pub type Handle<'c> = LocalHandle<'c, Item>;

pub type ItemGuard<'c> = Guard<'c, Item>;

/// Ample limits, but for the cells.
pub fn limits(cells: u32) -> Limits {
    Limits {
        participants: 4,
        cells,
        turn_max: u32::MAX,
        epoch_max: 1 << 62,
        expiry: 2,
    }
}

/// Drops a collector, so that no test has to say how.
pub fn discard(items: Collector<Item>) {
    drop(items);
}

/// Ends a collector; where it is refused, why.
pub fn ended(items: Collector<Item>) -> Option<Fault> {
    match items.end() {
        Ok(()) => None,
        Err((fault, back)) => {
            discard(back);
            Some(fault)
        }
    }
}

/// What is tried on a collector of its own.
#[derive(Clone, Copy)]
pub enum What {
    /// One handle does it.
    Alone(Task),
    /// Two threads do it at once, and then one handle.
    InTwo(Task, Task, Task),
    /// Four threads take turns at two places.
    InFour,
    /// A second handle blocks so many jobs of the first, which goes so many rounds meanwhile, and so many after it.
    Blocks(u64, u32, u32),
    /// Two handles fill the table, and refuse each other's guards and null.
    Refuses,
    /// The epoch goes on while a repin waits.
    GoesOn,
    /// A pinned handle isn't released.
    Stays,
}

use self::What::{Alone, Blocks, GoesOn, InFour, InTwo, Refuses, Stays};

/// Sixteen jobs of four threads.
const FOUR: [Task; 4] = [
    Task::Turns(0),
    Task::Turns(4),
    Task::Turns(8),
    Task::Turns(12),
];

/// What is tried; how many cells its collector has, and how many places; whether it is ended or dropped then; and the sum that its
/// jobs make. Byte n of the sum counts the calls of job n of two threads, and hexadecimal digit n those of job n of four. 65 jobs are
/// one more than a bag holds.
const TRIED: [(&str, What, u32, u32, bool, u64); 11] = [
    ("guards nest and move", Alone(Task::Moves), 20, 4, false, 0),
    (
        "a full store hands back, and a read value stays",
        Alone(Task::OneCell),
        1,
        4,
        false,
        0,
    ),
    ("two handles refuse", Refuses, 1, 2, false, 0),
    (
        "a participant is unpinned while a repin waits",
        GoesOn,
        1,
        4,
        false,
        0,
    ),
    ("a pinned handle stays", Stays, 1, 4, false, 0),
    (
        "two are pinned at once",
        InTwo(Task::Meets(true), Task::Meets(false), Task::Tag(0)),
        1,
        4,
        false,
        0,
    ),
    (
        "two threads share an atomic",
        InTwo(Task::Swap(0), Task::Swap(4), Task::Empties),
        8,
        4,
        false,
        0x0101_0101_0101_0101,
    ),
    (
        "no change of a tag is lost",
        InTwo(Task::Flips(1), Task::Flips(2), Task::Tag(3)),
        1,
        4,
        false,
        0,
    ),
    (
        "four threads take turns at two places",
        InFour,
        1,
        2,
        true,
        0x1111_1111_1111_1111,
    ),
    (
        "a pinned handle blocks a job",
        Blocks(1, 10, 3),
        1,
        4,
        false,
        1,
    ),
    ("it blocks two bags", Blocks(65, 4, 4), 1, 4, false, 2_145),
];

#[test]
fn handles_and_guards_do_as_they_say(rt: HostRuntime) -> Result<(), Fail> {
    for (name, what, cells, participants, ends, sum) in &TRIED {
        let mut limits = limits(*cells);
        limits.participants = *participants;
        let told = tried(&rt, rt.alloc(), *what, limits, *ends)?;
        assert_same(&rt, (*name, told), (*name, (true, *sum)));
    }
    Ok(())
}

/// The end calls a job that is left, and nothing calls it before.
#[test]
fn a_collector_ends(rt: HostRuntime) -> Result<(), Fail> {
    for ends in [true, false] {
        let told = tried(&rt, rt.alloc(), Alone(Task::Leaves), limits(1), ends)?;
        assert_same(&rt, (ends, told), (ends, (true, u64::from(ends))));
    }
    Ok(())
}

/// Whether what is tried on a new collector is so, and the sum of its jobs.
pub fn tried<R: Threads + Wait + Abort + Sync>(
    rt: &R,
    alloc: Global,
    what: What,
    limits: Limits,
    ends: bool,
) -> Result<(bool, u64), Fault> {
    let Ok(calls) = Arc::new(alloc, AtomicU64::new(0)) else {
        return Err(Fault::Memory);
    };
    let items: Collector<Item> = Collector::new(rt, alloc, limits, 1)?;
    let told = is_so(rt, alloc, &Place::new(&items, &calls), what);
    let is_over = if ends {
        ended(items).is_none()
    } else {
        discard(items);
        true
    };
    Ok((told? && is_over, calls.load(SeqCst)))
}

fn is_so<R: Threads + Wait + Abort + Sync>(
    rt: &R,
    alloc: Global,
    place: &Place<'_>,
    what: What,
) -> Result<bool, Fault> {
    match what {
        Alone(task) => by_handle(rt, alloc, place, task),
        InTwo(one, two, last) => {
            Ok(at_once(rt, alloc, place, &[one, two])? && by_handle(rt, alloc, place, last)?)
        }
        InFour => at_once(rt, alloc, place, &FOUR),
        Stays => stays(rt, place.items.register(rt)?),
        Blocks(..) | Refuses | GoesOn => of_two(rt, alloc, place, what),
    }
}

pub fn tries_one_cell<R: Wait + Abort>(
    rt: &R,
    alloc: Global,
    items: &Collector<Item>,
    handle: &mut Handle<'_>,
) -> Result<bool, Fault> {
    let pinned = handle.pin()?;
    let guard = &pinned;
    let under = Under { rt, alloc, guard };
    let fills = under.fills();
    let stays = under.stays_where_read(items);
    spend(rt, handle, pinned);
    Ok(fills? && stays?)
}

/// Whether what is tried with two handles is so.
fn of_two<R: Wait + Abort>(
    rt: &R,
    alloc: Global,
    place: &Place<'_>,
    what: What,
) -> Result<bool, Fault> {
    let (mut zero, mut one) = two_handles(rt, place.items)?;
    let told = match what {
        Blocks(count, most, rest) => blocks(
            rt,
            alloc,
            &mut zero,
            &mut one,
            place.calls,
            (count, most, rest),
        ),
        Refuses => two_handles_refuse(rt, place.items, &mut zero, &mut one),
        _ => goes_on_meanwhile(rt, &mut zero, &mut one),
    };
    both_leave(rt, zero, one)?;
    told
}

/// Releases both.
fn both_leave<R: Wait + Abort>(rt: &R, zero: Handle<'_>, one: Handle<'_>) -> Result<(), Fault> {
    let first = leaves(rt, zero);
    let second = leaves(rt, one);
    first?;
    second
}

/// Spends a guard of the handle.
pub fn spend<R: Abort>(rt: &R, handle: &mut Handle<'_>, guard: ItemGuard<'_>) {
    match handle.unpin(guard) {
        Ok(()) => {}
        Err(_refused) => panic!(rt; "a handle refuses its guard"),
    }
}

/// So many rounds of pin, flush, unpin.
pub fn rounds<R: Wait + Abort>(rt: &R, handle: &mut Handle<'_>, count: u32) -> Result<(), Fault> {
    for _ in 0..count {
        round(rt, handle)?;
    }
    Ok(())
}

/// Pin, flush, unpin.
fn round<R: Wait + Abort>(rt: &R, handle: &mut Handle<'_>) -> Result<(), Fault> {
    let guard = handle.pin()?;
    let flushed = handle.flush(rt, &guard);
    spend(rt, handle, guard);
    flushed
}

/// The pointer before a swap.
pub fn swapped<R: Wait + Abort>(
    rt: &R,
    root: &Atomic<Item>,
    new: Link,
    guard: &ItemGuard<'_>,
) -> Result<Link, Fault> {
    match root.swap(rt, new, SeqCst, guard) {
        Ok(before) => Ok(before.link()),
        Err((fault, _new)) => Err(fault),
    }
}

/// Puts off the destruction of what stands there.
pub fn destroy<R: Wait + Abort>(
    rt: &R,
    handle: &mut Handle<'_>,
    guard: &ItemGuard<'_>,
    link: Link,
) -> Result<(), Fault> {
    match handle.defer_destroy(rt, guard, Shared::of(link)) {
        Ok(()) => Ok(()),
        Err((fault, _back)) => Err(fault),
    }
}

/// Defers a job.
pub fn defer<R: Wait + Abort>(
    rt: &R,
    handle: &mut Handle<'_>,
    guard: &ItemGuard<'_>,
    job: Job,
) -> Result<(), Fault> {
    match handle.defer(rt, guard, job) {
        Ok(()) => Ok(()),
        Err((fault, _job)) => Err(fault),
    }
}

/// Whether guards of one handle nest, and the last one that goes takes the pin away.
pub fn nests<R: Abort>(rt: &R, handle: &mut Handle<'_>) -> Result<bool, Fault> {
    let first = handle.pin()?;
    let second = match handle.pin() {
        Ok(second) => second,
        Err(fault) => {
            spend(rt, handle, first);
            return Err(fault);
        }
    };
    let same = first.pinned_at() == second.pinned_at();
    let both = handle.is_pinned();
    spend(rt, handle, first);
    let one = handle.is_pinned();
    spend(rt, handle, second);
    Ok(same && both && one && !handle.is_pinned())
}

/// Whether a guard stays at its epoch while the epoch goes on, until a repin.
pub fn repins<R: Wait + Abort>(rt: &R, handle: &mut Handle<'_>) -> Result<bool, Fault> {
    let mut guard = handle.pin()?;
    let start = guard.pinned_at();
    handle.collect(rt);
    handle.collect(rt);
    let stuck = guard.pinned_at();
    let repinned = handle.repin(&mut guard);
    let next = guard.pinned_at();
    spend(rt, handle, guard);
    Ok((start, stuck, next) == (0, 0, 1) && repinned.is_ok())
}

/// Why what stands there isn't destroyed without a guard.
pub fn destroys_at_once<R: Wait>(rt: &R, items: &Collector<Item>, link: Link) -> Option<Fault> {
    let pointer: Shared<'_, Item> = Shared::of(link);
    match unprotected().defer_destroy(rt, items, pointer) {
        Ok(()) => None,
        Err((fault, _back)) => Some(fault),
    }
}

fn made(atomic: Result<Atomic<Item>, (Fault, Item)>) -> Result<Atomic<Item>, Fault> {
    match atomic {
        Ok(atomic) => Ok(atomic),
        Err((fault, _item)) => Err(fault),
    }
}

/// What is done under a guard.
#[derive_where(Clone, Copy)]
pub struct Under<'a, 'c, R: Wait + Abort> {
    pub rt: &'a R,
    pub alloc: Global,
    pub guard: &'a ItemGuard<'c>,
}

impl<'a, R: Wait + Abort> Under<'a, '_, R> {
    /// A value that is placed, and where it stands.
    pub fn placed(self, number: u64) -> Result<Link, Fault> {
        match boxed(self.alloc, number)?.into_shared(self.rt, self.guard) {
            Ok(pointer) => Ok(pointer.link()),
            Err((fault, _owned)) => Err(fault),
        }
    }

    /// Whether the second value is handed back by a full store, and finds room once the first is taken out.
    fn fills(self) -> Result<bool, Fault> {
        // The tag is 6 modulo 4.
        let first = match Atomic::place(self.rt, self.guard, boxed(self.alloc, 1)?.with_tag(6)) {
            Ok(root) => root,
            Err((fault, _owned)) => return Err(fault),
        };
        let second = self.refused_value(boxed(self.alloc, 2)?);
        let tag = tag_of(first.into_owned(self.rt, self.guard));
        Ok(tag == Some(2) && self.finds_room(second))
    }

    /// Whether this is the second value, and finds room.
    fn finds_room(self, second: Option<Owned<Item>>) -> bool {
        match second {
            Some(owned) => owned.borrow().0 == 2 && self.refused_value(owned).is_none(),
            None => false,
        }
    }

    /// A value that a full store hands back; another one is taken out again.
    fn refused_value(self, owned: Owned<Item>) -> Option<Owned<Item>> {
        match Atomic::place(self.rt, self.guard, owned) {
            Ok(root) => {
                root.into_owned(self.rt, self.guard);
                None
            }
            Err((_fault, owned)) => Some(owned),
        }
    }

    /// Whether a value that is read when it is destroyed stays, and its cell isn't used again.
    fn stays_where_read(self, items: &Collector<Item>) -> Result<bool, Fault> {
        let link = self.placed(4)?;
        let pointer: Shared<'_, Item> = Shared::of(link);
        let Some(lent) = pointer.deref(self.rt, self.guard) else {
            return Ok(false);
        };
        let accepted = destroys_at_once(self.rt, items, link).is_none();
        lent.back(self.rt);
        let full = self.placed(5) == Err(Fault::CellsFull);
        Ok(accepted && full && self.number_there(link) == Some(4))
    }

    /// The number of the value that the pointer leads to.
    pub fn number_there(self, link: Link) -> Option<u64> {
        let pointer: Shared<'_, Item> = Shared::of(link);
        let lent = pointer.as_ref(self.rt, self.guard)?;
        let number = lent.get().0;
        lent.back(self.rt);
        Some(number)
    }

    /// Whether two values that are boxed and placed are read and taken out again.
    fn makes(self) -> Result<bool, Fault> {
        let (rt, guard) = (self.rt, self.guard);
        let one = made(Atomic::new(rt, self.alloc, Item(1), guard))?;
        let two = made(Atomic::init(rt, self.alloc, Item(2), guard))?;
        let read = self.number_there(one.load(rt, SeqCst, guard).link());
        let first = number_of(one.try_into_owned(rt, guard));
        let second = number_of(two.into_owned(rt, guard));
        Ok(read == Some(1) && first == Some(1) && second == Some(2))
    }

    /// Whether an `Atomic` has the pointer that it is made of.
    fn begins(self) -> bool {
        let (rt, guard) = (self.rt, self.guard);
        let null: Shared<'_, Item> = Shared::default();
        let roots = [
            Atomic::default(),
            Atomic::from_shared(null.with_tag(1)),
            Atomic::from(null.with_tag(2)),
        ];
        let mut right = true;
        for (tag, root) in roots.iter().enumerate() {
            let found = root.load(rt, SeqCst, guard);
            right &= found.is_null() && found.tag() == tag;
        }
        right
    }
}

/// Whether each way to make an `Atomic` makes it so.
pub fn makes<R: Wait + Abort>(
    rt: &R,
    alloc: Global,
    handle: &mut Handle<'_>,
) -> Result<bool, Fault> {
    let pinned = handle.pin()?;
    let guard = &pinned;
    let under = Under { rt, alloc, guard };
    let (makes, begins) = (under.makes(), under.begins());
    spend(rt, handle, pinned);
    Ok(makes? && begins)
}

#[test]
fn a_collector_expires_after_two(rt: HostRuntime) {
    let mut limits = limits(1);
    limits.expiry = 1;
    let cause = match Collector::new(&rt, rt.alloc(), limits, 1) {
        Ok(items) => {
            discard(items);
            None
        }
        Err(fault) => Some(fault),
    };
    assert_same(&rt, cause, Some(Fault::Limits));
}

/// Whether two handles fill the table of this collector, and refuse each other's guards and null.
fn two_handles_refuse<R: Wait + Abort>(
    rt: &R,
    items: &Collector<Item>,
    zero: &mut Handle<'_>,
    one: &mut Handle<'_>,
) -> Result<bool, Fault> {
    let full = match items.register(rt) {
        Ok(third) => {
            leaves(rt, third)?;
            false
        }
        Err(fault) => fault == Fault::TableFull,
    };
    let refused = refuse(rt, zero, one)?;
    Ok(full && refused && zero.collector().same(items) && !one.is_pinned())
}

/// Whether a handle refuses to flush under another's guard, and to destroy null.
fn refuse<R: Wait + Abort>(
    rt: &R,
    zero: &mut Handle<'_>,
    one: &mut Handle<'_>,
) -> Result<bool, Fault> {
    let guard = zero.pin()?;
    let flushed = one.flush(rt, &guard);
    let destroyed = destroy(rt, zero, &guard, Link::null());
    spend(rt, zero, guard);
    Ok(flushed == Err(Fault::Foreign) && destroyed == Err(Fault::Unknown))
}

/// Whether a guard goes on from epoch 0 to 2 at a repin, during which another handle tries to advance twice: its participant is
/// unpinned meanwhile. The closure's answer comes back.
fn goes_on_meanwhile<R: Wait + Abort>(
    rt: &R,
    zero: &mut Handle<'_>,
    one: &mut Handle<'_>,
) -> Result<bool, Fault> {
    let mut guard = zero.pin()?;
    let before = guard.pinned_at();
    let answer = zero.repin_after(&mut guard, || {
        one.collect(rt);
        one.collect(rt);
        7u8
    });
    let after = guard.pinned_at();
    spend(rt, zero, guard);
    Ok(answer? == 7 && (before, after) == (0, 2))
}

/// Whether a handle is released only when its guard is spent.
fn stays<R: Wait + Abort>(rt: &R, mut handle: Handle<'_>) -> Result<bool, Fault> {
    let guard = handle.pin()?;
    match handle.release(rt) {
        Ok(()) => panic!(rt; "a pinned handle leaves"),
        Err((fault, mut back)) => {
            spend(rt, &mut back, guard);
            Ok(fault == Fault::GuardOut && back.release(rt).is_ok())
        }
    }
}

/// Two new handles.
fn two_handles<'c, R: Wait + Abort>(
    rt: &R,
    items: &'c Collector<Item>,
) -> Result<(Handle<'c>, Handle<'c>), Fault> {
    let zero = items.register(rt)?;
    match items.register(rt) {
        Ok(one) => Ok((zero, one)),
        Err(fault) => {
            leaves(rt, zero)?;
            Err(fault)
        }
    }
}
