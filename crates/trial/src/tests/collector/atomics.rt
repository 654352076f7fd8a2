//! Rows of what is asked of an `Atomic`, and of the values that it leads to, under a guard.

use super::face::{ItemGuard, Under, destroys_at_once, discard, limits, spend};
use super::threads::leaves;
use super::values::{Item, boxed, number_of};
use crate::tests::asserts::assert_same;
use crossbeam_epoch::{Atomic, Collector, Exchanged, Fault, Link, Shared};
use std::alloc::Global;
use std::process::Abort;
use std::sync::Wait;
use std::sync::atomic::Ordering::{Relaxed, SeqCst};
use std::test::Fail;

/// One of two pointers that are kept from row to row.
#[derive(Clone, Copy, PartialEq)]
enum Name {
    One,
    Two,
}

use self::Name::{One, Two};

/// A pointer with its tag.
#[derive(Clone, Copy, PartialEq)]
enum To {
    Null(u8),
    Kept(Name, u8),
    /// To a value that isn't kept.
    Else,
}

use self::To::{Kept, Null};

/// By which call an exchange is made.
#[derive(Clone, Copy)]
enum Way {
    Strong,
    Weak,
    Set,
    SetWeak,
    /// With both pointers under the guard.
    Shared,
}

#[derive(Clone, Copy)]
enum Ask {
    /// A new value of this number, which no `Atomic` leads to yet.
    Place(Name, u64),
    /// Keeps the pointer that stands there, without its tag.
    Keep(Name),
    Load,
    LoadConsume,
    Store(To),
    StoreShared(To),
    StoreNew(u64),
    Swap(To),
    Exchange(Way, To, To),
    /// For a new value of this number.
    ExchangeNew(To, u64),
    Or(usize),
    And(usize),
    Xor(usize),
    /// By a closure that gives the pointer with this tag, or nothing.
    Update(Option<usize>),
    /// By a closure that gives this pointer.
    UpdateTo(To),
    Read(Name),
    /// Reads it twice at once.
    ReadTwice(Name),
    /// Adds one to it.
    Raise(Name),
    Take(Name),
    TryTake(Name),
    /// Destroys it without a guard.
    Destroy(To),
}

use self::Ask::{
    And, Destroy, Exchange, ExchangeNew, Keep, Load, LoadConsume, Or, Place, Raise, Read,
    ReadTwice, Store, StoreNew, StoreShared, Swap, Take, TryTake, Update, UpdateTo, Xor,
};

#[derive(Clone, Copy, PartialEq)]
enum Told {
    /// The pointer before, the one that was loaded, or the one that an exchange wrote.
    Pointer(To),
    /// What stands there, so that nothing was written.
    Stays(To),
    /// The value's number.
    Number(Option<u64>),
    Refused(Fault),
    Done,
    /// It isn't as it ought to be.
    Wrong,
}

use self::Told::{Done, Number, Pointer, Refused, Stays};

/// A case by its name; rows under a guard of one collector, and then rows under a guard of another one. The `Atomic` is null at
/// first.
type Case = (&'static str, &'static [(Ask, Told)], &'static [(Ask, Told)]);

const CASES: [Case; 8] = [
    (
        "a compare exchange looks at the tag",
        &[
            (Place(One, 7), Done),
            (Store(Kept(One, 1)), Done),
            (
                Exchange(Way::Strong, Kept(One, 0), Null(0)),
                Stays(Kept(One, 1)),
            ),
            (
                Exchange(Way::Strong, Kept(One, 1), Null(0)),
                Pointer(Null(0)),
            ),
            (
                Exchange(Way::Weak, Null(0), Kept(One, 1)),
                Pointer(Kept(One, 1)),
            ),
            (Exchange(Way::Set, Kept(One, 1), Null(0)), Pointer(Null(0))),
            (
                Exchange(Way::SetWeak, Null(0), Kept(One, 1)),
                Pointer(Kept(One, 1)),
            ),
        ],
        &[],
    ),
    (
        "tags of an atomic",
        &[
            (Store(Null(1)), Done),
            (Or(2), Pointer(Null(1))),
            (Load, Pointer(Null(3))),
            (LoadConsume, Pointer(Null(3))),
            (And(1), Pointer(Null(3))),
            (Xor(3), Pointer(Null(1))),
            (Load, Pointer(Null(2))),
        ],
        &[],
    ),
    (
        "unprotected destroys at once",
        &[
            (Place(One, 3), Done),
            (Destroy(Kept(One, 0)), Done),
            (Take(One), Number(None)),
            (Destroy(Null(0)), Refused(Fault::Unknown)),
        ],
        &[],
    ),
    (
        "values are lent",
        &[
            (Place(One, 1), Done),
            (Raise(One), Done),
            (ReadTwice(One), Number(Some(2))),
            (Read(One), Number(Some(2))),
            (Take(One), Number(Some(2))),
            (Read(One), Number(None)),
        ],
        &[],
    ),
    (
        "an atomic is written",
        &[
            (StoreNew(1), Done),
            (Keep(One), Done),
            (Swap(Null(0)), Pointer(Kept(One, 0))),
            (Place(Two, 2), Done),
            (Swap(Kept(Two, 0)), Pointer(Null(0))),
            (Update(Some(2)), Pointer(Kept(Two, 0))),
            (Swap(Null(1)), Pointer(Kept(Two, 2))),
            // There is nothing to update.
            (Update(None), Stays(Null(1))),
            (Load, Pointer(Null(1))),
            (Take(One), Number(Some(1))),
            (Take(Two), Number(Some(2))),
        ],
        &[],
    ),
    (
        "a pointer is refused elsewhere",
        &[(Place(One, 5), Done)],
        &[
            (Store(Kept(One, 0)), Refused(Fault::Foreign)),
            (
                Exchange(Way::Strong, Null(0), Kept(One, 0)),
                Refused(Fault::Foreign),
            ),
            (UpdateTo(Kept(One, 0)), Stays(Null(0))),
            (Load, Pointer(Null(0))),
            (Read(One), Number(None)),
        ],
    ),
    (
        "a pointer is written",
        &[
            (Place(One, 6), Done),
            (StoreShared(Null(3)), Done),
            (Load, Pointer(Null(3))),
            (
                Exchange(Way::Shared, Null(3), Kept(One, 0)),
                Pointer(Kept(One, 0)),
            ),
            (Load, Pointer(Kept(One, 0))),
            (TryTake(One), Number(Some(6))),
        ],
        &[],
    ),
    (
        "a pointer goes to another collector",
        &[(Place(One, 8), Done), (Store(Kept(One, 0)), Done)],
        &[
            (ExchangeNew(Null(0), 8), Stays(Kept(One, 0))),
            (ExchangeNew(Kept(One, 0), 9), Done),
            (Keep(Two), Done),
            (Or(3), Pointer(Kept(Two, 0))),
            (
                Exchange(Way::Strong, Kept(Two, 0), Null(0)),
                Stays(Kept(Two, 3)),
            ),
            (Swap(Null(0)), Pointer(Kept(Two, 3))),
            (Load, Pointer(Null(0))),
            (Take(Two), Number(Some(9))),
        ],
    ),
];

/// The pointers that are kept.
#[derive(Clone, Copy)]
struct Pointers {
    one: Link,
    two: Link,
}

impl Pointers {
    fn named(self, name: Name) -> Link {
        match name {
            One => self.one,
            Two => self.two,
        }
    }

    fn keep(&mut self, name: Name, link: Link) -> Told {
        match name {
            One => self.one = link,
            Two => self.two = link,
        }
        Done
    }

    /// The pointer of a row.
    fn link(self, to: To) -> Link {
        match to {
            Null(tag) => Link {
                tag,
                ..Link::null()
            },
            Kept(name, tag) => Link {
                tag,
                ..self.named(name)
            },
            To::Else => Link::null(),
        }
    }

    /// A pointer as a row has it.
    fn told(self, link: Link) -> To {
        match link.site {
            None => Null(link.tag),
            Some(_) if link.site == self.one.site => Kept(One, link.tag),
            Some(_) if link.site == self.two.site => Kept(Two, link.tag),
            Some(_) => To::Else,
        }
    }
}

/// Where rows are asked.
#[derive_where(Clone, Copy)]
struct Rows<'a, 'c, R: Wait + Abort> {
    rt: &'a R,
    alloc: Global,
    items: &'a Collector<Item>,
    root: &'a Atomic<Item>,
    guard: &'a ItemGuard<'c>,
}

/// What an exchange of pointers tells; a refused or lost one hands the pointer back.
fn exchanged(
    made: Result<Exchanged<'_, Item, Link>, (Fault, Link)>,
    to: Link,
    kept: Pointers,
) -> Told {
    match made {
        Ok(Ok(written)) => Pointer(kept.told(written.link())),
        Ok(Err(error)) if error.new == to => Stays(kept.told(error.current.link())),
        Err((fault, back)) if back == to => Refused(fault),
        _ => Told::Wrong,
    }
}

impl<'a, 'c, R: Wait + Abort> Rows<'a, 'c, R> {
    /// What is done under the guard.
    fn under(self) -> Under<'a, 'c, R> {
        Under {
            rt: self.rt,
            alloc: self.alloc,
            guard: self.guard,
        }
    }

    fn told(self, ask: Ask, kept: &mut Pointers) -> Result<Told, Fault> {
        match ask {
            Place(name, number) => Ok(kept.keep(name, self.under().placed(number)?)),
            Keep(name) => Ok(kept.keep(name, self.untagged())),
            Load | LoadConsume | Or(_) | And(_) | Xor(_) => Ok(self.tagged(ask, *kept)),
            Store(_) | StoreShared(_) | StoreNew(_) | Swap(_) => self.written(ask, *kept),
            Exchange(way, from, to) => Ok(self.exchanged(
                way,
                kept.link(from),
                kept.link(to),
                *kept,
            )),
            ExchangeNew(from, number) => self.exchanged_for(kept.link(from), number, *kept),
            Update(_) | UpdateTo(_) => Ok(self.updated(ask, *kept)),
            _ => Ok(self.of_value(ask, *kept)),
        }
    }

    fn untagged(self) -> Link {
        let link = self.root.load(self.rt, SeqCst, self.guard).link();
        Link { tag: 0, ..link }
    }

    /// A load, or a call that changes the tag.
    fn tagged(self, ask: Ask, kept: Pointers) -> Told {
        let (rt, root, guard) = (self.rt, self.root, self.guard);
        let found = match ask {
            LoadConsume => root.load_consume(rt, guard),
            Or(tag) => root.fetch_or(rt, tag, SeqCst, guard),
            And(tag) => root.fetch_and(rt, tag, SeqCst, guard),
            Xor(tag) => root.fetch_xor(rt, tag, SeqCst, guard),
            _ => root.load(rt, SeqCst, guard),
        };
        Pointer(kept.told(found.link()))
    }

    /// A store or a swap; a refused pointer comes back.
    fn written(self, ask: Ask, kept: Pointers) -> Result<Told, Fault> {
        let (rt, root, guard) = (self.rt, self.root, self.guard);
        match ask {
            Store(to) => match root.store(rt, kept.link(to), SeqCst, guard) {
                Ok(()) => Ok(Done),
                Err((fault, back)) if back == kept.link(to) => Ok(Refused(fault)),
                Err(_) => Ok(Told::Wrong),
            },
            StoreShared(to) => {
                let pointer: Shared<'a, Item> = Shared::of(kept.link(to));
                Ok(if root.store(rt, pointer, SeqCst, guard).is_ok() {
                    Done
                } else {
                    Told::Wrong
                })
            }
            StoreNew(number) => {
                let owned = boxed(self.alloc, number)?;
                Ok(if root.store(rt, owned, SeqCst, guard).is_ok() {
                    Done
                } else {
                    Told::Wrong
                })
            }
            Swap(to) => match root.swap(rt, kept.link(to), SeqCst, guard) {
                Ok(before) => Ok(Pointer(kept.told(before.link()))),
                Err((fault, _back)) => Ok(Refused(fault)),
            },
            _ => Ok(Told::Wrong),
        }
    }

    fn exchanged(self, way: Way, from: Link, to: Link, kept: Pointers) -> Told {
        let (rt, root, guard) = (self.rt, self.root, self.guard);
        let from: Shared<'a, Item> = Shared::of(from);
        let made = match way {
            Way::Strong => root.compare_exchange(rt, from, to, SeqCst, SeqCst, guard),
            Way::Weak => root.compare_exchange_weak(rt, from, to, SeqCst, SeqCst, guard),
            Way::Set => root.compare_and_set(rt, from, to, SeqCst, guard),
            Way::SetWeak => root.compare_and_set_weak(rt, from, to, (SeqCst, Relaxed), guard),
            Way::Shared => return self.exchanged_shared(from, Shared::of(to), kept),
        };
        exchanged(made, to, kept)
    }

    fn exchanged_shared(
        self,
        from: Shared<'a, Item>,
        to: Shared<'a, Item>,
        kept: Pointers,
    ) -> Told {
        match self
            .root
            .compare_exchange(self.rt, from, to, SeqCst, SeqCst, self.guard)
        {
            Ok(Ok(written)) => Pointer(kept.told(written.link())),
            _ => Told::Wrong,
        }
    }

    /// Whether a new value is written; else it comes back.
    fn exchanged_for(self, from: Link, number: u64, kept: Pointers) -> Result<Told, Fault> {
        let owned = boxed(self.alloc, number)?;
        let from: Shared<'a, Item> = Shared::of(from);
        match self
            .root
            .compare_exchange(self.rt, from, owned, SeqCst, SeqCst, self.guard)
        {
            Ok(Ok(_written)) => Ok(Done),
            Ok(Err(error)) => {
                let current = kept.told(error.current.link());
                Ok(if number_of(Some(error.new)) == Some(number) {
                    Stays(current)
                } else {
                    Told::Wrong
                })
            }
            Err((fault, _owned)) => Ok(Refused(fault)),
        }
    }

    /// What stood there before an update, or what stays.
    fn updated(self, ask: Ask, kept: Pointers) -> Told {
        let (rt, guard) = (self.rt, self.guard);
        let made = self
            .root
            .fetch_update(rt, SeqCst, SeqCst, guard, |pointer| match ask {
                Update(Some(tag)) => Some(pointer.with_tag(tag)),
                UpdateTo(to) => Some(Shared::of(kept.link(to))),
                _ => None,
            });
        match made {
            Ok(before) => Pointer(kept.told(before.link())),
            Err(pointer) => Stays(kept.told(pointer.link())),
        }
    }

    /// What is asked of a value.
    fn of_value(self, ask: Ask, kept: Pointers) -> Told {
        match ask {
            Read(name) => Number(self.under().number_there(kept.named(name))),
            ReadTwice(name) => Number(self.read_twice(kept.named(name))),
            Raise(name) if self.raises(kept.named(name)) => Done,
            Take(name) => Number(self.taken(kept.named(name))),
            TryTake(name) => {
                let pointer: Shared<'a, Item> = Shared::of(kept.named(name));
                Number(number_of(pointer.try_into_owned(self.rt, self.guard)))
            }
            Destroy(to) => match destroys_at_once(self.rt, self.items, kept.link(to)) {
                None => Done,
                Some(fault) => Refused(fault),
            },
            _ => Told::Wrong,
        }
    }

    /// The number that stands there, which is taken out.
    fn taken(self, link: Link) -> Option<u64> {
        let pointer: Shared<'a, Item> = Shared::of(link);
        number_of(pointer.into_owned(self.rt, self.guard))
    }

    /// The number of the first row that is told otherwise.
    fn wrong(self, rows: &[(Ask, Told)], kept: &mut Pointers) -> Option<usize> {
        let mut wrong = None;
        for (number, (ask, told)) in rows.iter().enumerate() {
            let is_right = match self.told(*ask, kept) {
                Ok(found) => found == *told,
                Err(_) => false,
            };
            if !is_right && wrong.is_none() {
                wrong = Some(number);
            }
        }
        wrong
    }

    /// The number that stands there, as two read it at once, where nobody can change it or take it out meanwhile.
    fn read_twice(self, link: Link) -> Option<u64> {
        let pointer: Shared<'a, Item> = Shared::of(link);
        let lent = pointer.deref(self.rt, self.guard)?;
        let number = lent.get().number();
        let is_alike = self.under().number_there(link) == Some(number);
        let is_kept = !self.raises(link) && self.taken(link).is_none();
        lent.back(self.rt);
        if is_alike && is_kept {
            Some(number)
        } else {
            None
        }
    }

    /// Adds one to the value, and tells whether nobody else could have it meanwhile.
    fn raises(self, link: Link) -> bool {
        let mut pointer: Shared<'a, Item> = Shared::of(link);
        match pointer.deref_mut(self.rt, self.guard) {
            Some(mut lent) => {
                lent.get_mut().raise();
                let alone = self.under().number_there(link).is_none();
                lent.back(self.rt);
                alone
            }
            None => false,
        }
    }
}

/// The number of the first row that is told otherwise, with a handle of its own.
fn wrong<R: Wait + Abort>(
    rt: &R,
    alloc: Global,
    items: &Collector<Item>,
    root: &Atomic<Item>,
    rows: &[(Ask, Told)],
    kept: &mut Pointers,
) -> Result<Option<usize>, Fault> {
    let mut handle = items.register(rt)?;
    let wrong = match handle.pin() {
        Ok(pinned) => {
            let guard = &pinned;
            let asked = Rows {
                rt,
                alloc,
                items,
                root,
                guard,
            };
            let wrong = asked.wrong(rows, kept);
            spend(rt, &mut handle, pinned);
            Ok(wrong)
        }
        Err(fault) => Err(fault),
    };
    leaves(rt, handle)?;
    wrong
}

/// The first case that goes otherwise, with its first wrong row here and there.
type Wrong = Option<(&'static str, Option<usize>, Option<usize>)>;

fn first_wrong<R: Wait + Abort>(
    rt: &R,
    alloc: Global,
    items: &Collector<Item>,
    others: &Collector<Item>,
) -> Result<Wrong, Fault> {
    for (name, here, there) in CASES {
        let root: Atomic<Item> = Atomic::null();
        let mut kept = Pointers {
            one: Link::null(),
            two: Link::null(),
        };
        let first = wrong(rt, alloc, items, &root, here, &mut kept)?;
        let second = wrong(rt, alloc, others, &root, there, &mut kept)?;
        if first.is_some() || second.is_some() {
            return Ok(Some((name, first, second)));
        }
    }
    Ok(None)
}

/// The same, beside a collector of the other rows.
fn first_wrong_of<R: Wait + Abort>(
    rt: &R,
    alloc: Global,
    items: &Collector<Item>,
) -> Result<Wrong, Fault> {
    let others: Collector<Item> = Collector::new(rt, alloc, limits(2), 2)?;
    let wrong = first_wrong(rt, alloc, items, &others);
    discard(others);
    wrong
}

#[test]
fn each_row_is_told(rt: HostRuntime) -> Result<(), Fail> {
    let items: Collector<Item> = Collector::new(&rt, rt.alloc(), limits(20), 1)?;
    let wrong = first_wrong_of(&rt, rt.alloc(), &items);
    discard(items);
    assert_same(&rt, wrong?, None);
    Ok(())
}
