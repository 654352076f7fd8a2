//! Pointers that threads share.

ghost use Rattle.std.specs.Prelude.{◌≡◌, ◌≢◌, ◌⊎◌, ◌%◌, ◌<◌, true, false, MatchResult, IfErr, IfSome, IsErr, MatchOption};
ghost use Rattle.crossbeam_epoch.specs.face.Exchange.{Gave, GaveNext, GaveNone, Updates, IsExchange, IsRefused, RefusesForeign};
ghost use Rattle.crossbeam_epoch.specs.face.Pointer.{is_foreign};

use crate::face::atomic_link::{AtomicLink, Found, Replaced};
use crate::face::guard::Guard;
use crate::face::link::{Link, Tagged};
use crate::face::ordering::CompareAndSetOrdering;
use crate::face::owned::Owned;
use crate::face::pointer::Pointer;
use crate::face::shared::Shared;
use crate::fault::Fault;
use crate::names::Pointable;
use crate::tag::TagCall;
use crate::task::Task;
use std::alloc::Global;
use std::fmt;
use std::fmt::{Debug, Formatter};
use std::sync::Wait;
use std::sync::atomic::Ordering;

/// A pointer that threads share, to a value in a cell of a collector (the source's `Atomic`).
/// Each call is one step on it, whatever the ordering, and takes no lock while the pointer leads to one collector; an
/// exchange for a value that isn't placed yet takes one.
#[derive(Drop)]
pub struct Atomic<T: Pointable> {
    link: AtomicLink<T>,
}

/// A compare-and-exchange that found another pointer: that one, and what was to be written.
#[derive(Drop)]
#[derive_where(Debug; P)]
pub struct CompareExchangeError<'g, T, P> {
    pub current: Shared<'g, T>,
    pub new: P,
}

/// The error of `compare_and_set`.
pub type CompareAndSetError<'g, T, P> = CompareExchangeError<'g, T, P>;

/// What a compare-and-exchange answers that wasn't refused.
pub type Exchanged<'g, T, P> = Result<Shared<'g, T>, CompareExchangeError<'g, T, P>>;

impl<T: Pointable> Atomic<T> {
    /// A pointer that threads share from now on.
    fn of(tagged: Tagged<T>) -> Self {
        Atomic {
            link: AtomicLink::new(tagged),
        }
    }

    /// Null with tag 0.
    pub fn null() -> Self {
        Atomic::of(Tagged::new(Link::null()))
    }

    /// A pointer to where this one leads, with its tag.
    pub fn from_shared(pointer: Shared<'_, T>) -> Self {
        Atomic::of(Tagged::new(pointer.link()))
    }
}

impl<T: Pointable> Debug for Atomic<T> {
    fn fmt<W: fmt::Write>(&self, f: &mut Formatter<W>) -> fmt::Result {
        f.debug_struct("Atomic").finish()
    }
}

impl<T: Pointable> Default for Atomic<T> {
    fn default() -> Self {
        Atomic::null()
    }
}

impl<T: Pointable> From<Shared<'_, T>> for Atomic<T> {
    fn from(pointer: Shared<'_, T>) -> Self {
        Atomic::from_shared(pointer)
    }
}

impl<T: Pointable + Drop> Atomic<T> {
    /// A pointer to a value that is boxed and placed. Refused as `Memory` or `CellsFull`; the value comes back.
    pub fn new<R: Wait, J: Task>(
        rt: &R,
        alloc: Global,
        value: T,
        guard: &Guard<'_, T, J>,
    ) -> Result<Self, (Fault, T)>
        ensures { IfErr result (λ e. ((e.0 ≡ Fault.Memory) ⊎ (e.0 ≡ Fault.CellsFull)) × (e.1 ≡ value)) }
    {
        let owned = Owned::new(alloc, value)?;
        match Atomic::place(rt, guard, owned) {
            Ok(atomic) => Ok(atomic),
            Err((fault, owned)) => Err((fault, Box::into_inner(owned.into_box()))),
        }
    }

    /// The same as `new`.
    pub fn init<R: Wait, J: Task>(
        rt: &R,
        alloc: Global,
        value: T,
        guard: &Guard<'_, T, J>,
    ) -> Result<Self, (Fault, T)>
        ensures { IfErr result (λ e. ((e.0 ≡ Fault.Memory) ⊎ (e.0 ≡ Fault.CellsFull)) × (e.1 ≡ value)) }
    {
        Atomic::new(rt, alloc, value, guard)
    }

    /// A pointer to a value that is placed. Refused as `CellsFull`; the value comes back.
    pub fn place<R: Wait, J: Task>(
        rt: &R,
        guard: &Guard<'_, T, J>,
        owned: Owned<T>,
    ) -> Result<Self, (Fault, Owned<T>)>
        ensures { IfErr result (λ e. (e.0 ≡ Fault.CellsFull) × (e.1 ≡ owned)) }
    {
        let tagged = owned.enter(rt, guard)?;
        Ok(Atomic::of(tagged))
    }

    /// The pointer.
    pub fn load<'g, R: Wait, J: Task>(
        &self,
        rt: &R,
        _order: Ordering,
        _guard: &'g Guard<'_, T, J>,
    ) -> Shared<'g, T>
        ensures { result.link.tag < T.ALIGN }
    {
        Shared::of(self.link.load(rt).link())
    }

    /// The same as `load`.
    pub fn load_consume<'g, R: Wait, J: Task>(
        &self,
        rt: &R,
        guard: &'g Guard<'_, T, J>,
    ) -> Shared<'g, T>
        ensures { result.link.tag < T.ALIGN }
    {
        self.load(rt, Ordering::Acquire, guard)
    }

    /// Writes a pointer. Refused as `CellsFull` or `Foreign`; it comes back.
    pub fn store<R: Wait, J: Task, P: Pointer<T>>(
        &self,
        rt: &R,
        new: P,
        _order: Ordering,
        guard: &Guard<'_, T, J>,
    ) -> Result<(), (Fault, P)>
        ensures refused { IfErr result (IsRefused P.Pointer guard.now.collector.now.id new) }
        ensures foreign { P.leads_elsewhere new guard.now.collector.now.id ≡ true → IsErr result }
    {
        let tagged = new.enter(rt, guard)?;
        self.link.swap(rt, tagged.load());
        Ok(())
    }

    /// Writes a pointer, and gives the one before. Refused as `CellsFull` or `Foreign`; it comes back.
    pub fn swap<'g, R: Wait, J: Task, P: Pointer<T>>(
        &self,
        rt: &R,
        new: P,
        _order: Ordering,
        guard: &'g Guard<'_, T, J>,
    ) -> Result<Shared<'g, T>, (Fault, P)>
        ensures refused { MatchResult result (λ s. s.link.tag < T.ALIGN) (IsRefused P.Pointer guard.now.collector.now.id new) }
        ensures foreign { P.leads_elsewhere new guard.now.collector.now.id ≡ true → IsErr result }
    {
        let tagged = new.enter(rt, guard)?;
        Ok(Shared::of(self.link.swap(rt, tagged.load()).found()))
    }

    /// Writes `new` where the pointer has the cell and the tag of `current`, and gives what was written; else it gives
    /// the pointer and `new` back. Refused as `CellsFull` or `Foreign`; `new` comes back.
    pub fn compare_exchange<'g, R: Wait, J: Task, P: Pointer<T>>(
        &self,
        rt: &R,
        current: Shared<'_, T>,
        new: P,
        _success: Ordering,
        _failure: Ordering,
        guard: &'g Guard<'_, T, J>,
    ) -> Result<Exchanged<'g, T, P>, (Fault, P)>
        ensures answer { IsExchange P.Pointer T.ALIGN guard.now.collector.now.id current.entry.link new result }
        ensures foreign { RefusesForeign P.Pointer guard.now.collector.now.id new result }
    {
        if new.is_foreign(guard.collector.id()) {
            return Err((Fault::Foreign, new));
        }
        let Some(link) = new.as_link() else {
            return self.place_and_exchange(rt, current.link(), new, guard);
        };
        let next = Tagged::<T>::new(link).load();
        match self.link.exchange(rt, current.link(), next) {
            Ok(done) => match new.enter(rt, guard) {
                Ok(_) => Ok(Ok(Shared::of(done.written()))),
                Err(_) => unreachable!(),
            },
            Err(now) => Ok(Err(CompareExchangeError {
                current: Shared::of(now.link()),
                new,
            })),
        }
    }

    /// The same for a value, which is placed where the pointer is `current` and is held meanwhile.
    fn place_and_exchange<'g, R: Wait, J: Task, P: Pointer<T>>(
        &self,
        rt: &R,
        current: Link,
        new: P,
        guard: &'g Guard<'_, T, J>,
    ) -> Result<Exchanged<'g, T, P>, (Fault, P)>
        requires here { P.leads_elsewhere new guard.now.collector.now.id ≡ false }
        ensures answer { IsExchange P.Pointer T.ALIGN guard.now.collector.now.id current new result }
    {
        let found = self.link.load(rt).link();
        if found != current {
            return Ok(Err(CompareExchangeError {
                current: Shared::of(found),
                new,
            }));
        }
        let mut held = self.link.lock().lock(rt);
        self.link.bring(rt, &mut held);
        let answer = exchange(rt, &mut held, current, new, guard);
        self.link.settle(&held);
        answer
    }

    /// The same as `compare_exchange`; it is free to fail where they are equal too.
    pub fn compare_exchange_weak<'g, R: Wait, J: Task, P: Pointer<T>>(
        &self,
        rt: &R,
        current: Shared<'_, T>,
        new: P,
        success: Ordering,
        failure: Ordering,
        guard: &'g Guard<'_, T, J>,
    ) -> Result<Exchanged<'g, T, P>, (Fault, P)>
        ensures answer { IsExchange P.Pointer T.ALIGN guard.now.collector.now.id current.entry.link new result }
        ensures foreign { RefusesForeign P.Pointer guard.now.collector.now.id new result }
    {
        self.compare_exchange(rt, current, new, success, failure, guard)
    }

    /// The same as `compare_exchange`, with one ordering.
    pub fn compare_and_set<'g, R: Wait, J: Task, O: CompareAndSetOrdering, P: Pointer<T>>(
        &self,
        rt: &R,
        current: Shared<'_, T>,
        new: P,
        order: O,
        guard: &'g Guard<'_, T, J>,
    ) -> Result<Exchanged<'g, T, P>, (Fault, P)>
        ensures answer { IsExchange P.Pointer T.ALIGN guard.now.collector.now.id current.entry.link new result }
        ensures foreign { RefusesForeign P.Pointer guard.now.collector.now.id new result }
    {
        self.compare_exchange(rt, current, new, order.success(), order.failure(), guard)
    }

    /// The same as `compare_exchange_weak`, with one ordering.
    pub fn compare_and_set_weak<'g, R: Wait, J: Task, O: CompareAndSetOrdering, P: Pointer<T>>(
        &self,
        rt: &R,
        current: Shared<'_, T>,
        new: P,
        order: O,
        guard: &'g Guard<'_, T, J>,
    ) -> Result<Exchanged<'g, T, P>, (Fault, P)>
        ensures answer { IsExchange P.Pointer T.ALIGN guard.now.collector.now.id current.entry.link new result }
        ensures foreign { RefusesForeign P.Pointer guard.now.collector.now.id new result }
    {
        self.compare_exchange_weak(rt, current, new, order.success(), order.failure(), guard)
    }

    /// Writes what `f` gives for the pointer, again where another thread wrote in between. Gives the pointer before,
    /// or the one for which `f` gave `None`; a pointer to another collector's cell counts as `None`, and isn't written.
    /// `f` runs while no lock is held.
    pub fn fetch_update<'g, R: Wait, J: Task, F: FnMut(Shared<'g, T>) -> Option<Shared<'g, T>>>(
        &self,
        rt: &R,
        _success: Ordering,
        _failure: Ordering,
        guard: &'g Guard<'_, T, J>,
        f: F,
    ) -> Result<Shared<'g, T>, Shared<'g, T>>
    where
        F: Drop,
        requires { F.IsAlwaysCallable f }
        ensures tag { MatchResult result (λ s. s.link.tag < T.ALIGN) (λ s. s.link.tag < T.ALIGN) }
        ensures asked { MatchResult result (GaveNext F.step (λ s. is_foreign s.link.site guard.now.collector.now.id)) (GaveNone F.step (λ s. is_foreign s.link.site guard.now.collector.now.id)) }
    {
        match self.update(rt, guard.collector.id(), f) {
            Ok(done) => Ok(Shared::of(done.found())),
            Err(found) => Err(Shared::of(found.link())),
        }
    }

    /// The steps of `fetch_update`: what was found for the last time, and what was written in its place.
    fn update<'g, R: Wait, F: FnMut(Shared<'g, T>) -> Option<Shared<'g, T>>>(
        &self,
        rt: &R,
        collector: u64,
        mut f: F,
    ) -> Result<Replaced, Found>
    where
        F: Drop,
        requires { F.IsAlwaysCallable f }
        ensures tag { MatchResult result (λ r. r.found.tag < T.ALIGN) (λ n. n.link.tag < T.ALIGN) }
        ensures asked { MatchResult result
            (λ r. (s : _) × (s.link ≡ r.found) × Updates F.step (λ x. is_foreign x.link.site collector) T.ALIGN s r.written)
            (λ n. (s : _) × (s.link ≡ n.link) × GaveNone F.step (λ x. is_foreign x.link.site collector) s) }
    {
        for _ in rt.forever() {
            let found = self.link.load(rt);
            let Some(next) = ask(&mut f, Shared::of(found.link()), collector) else {
                return Err(found);
            };
            let next = Tagged::<T>::new(next).load();
            if let Some(done) = self.link.replace(rt, found.link(), next) {
                return Ok(done);
            }
        }
        unreachable!()
    }

    /// Keeps the bits of the tag that stand in the number modulo `T::ALIGN` too, and gives the pointer before.
    pub fn fetch_and<'g, R: Wait, J: Task>(
        &self,
        rt: &R,
        tag: usize,
        _order: Ordering,
        _guard: &'g Guard<'_, T, J>,
    ) -> Shared<'g, T>
        ensures { result.link.tag < T.ALIGN }
    {
        Shared::of(self.link.change(rt, TagCall::And, tag).found())
    }

    /// Adds the bits of the number modulo `T::ALIGN` to the tag, and gives the pointer before.
    pub fn fetch_or<'g, R: Wait, J: Task>(
        &self,
        rt: &R,
        tag: usize,
        _order: Ordering,
        _guard: &'g Guard<'_, T, J>,
    ) -> Shared<'g, T>
        ensures { result.link.tag < T.ALIGN }
    {
        Shared::of(self.link.change(rt, TagCall::Or, tag).found())
    }

    /// Flips the bits of the number modulo `T::ALIGN` in the tag, and gives the pointer before.
    pub fn fetch_xor<'g, R: Wait, J: Task>(
        &self,
        rt: &R,
        tag: usize,
        _order: Ordering,
        _guard: &'g Guard<'_, T, J>,
    ) -> Shared<'g, T>
        ensures { result.link.tag < T.ALIGN }
    {
        Shared::of(self.link.change(rt, TagCall::Xor, tag).found())
    }

    /// Takes the value out of its cell, which is destroyed. `None` as for `Shared::into_owned`.
    pub fn into_owned<R: Wait, J: Task>(self, rt: &R, guard: &Guard<'_, T, J>) -> Option<Owned<T>>
        ensures { IfSome result (λ o. o.tag < T.ALIGN) }
    {
        let Atomic { link } = self;
        Shared::of(link.into_inner()).into_owned(rt, guard)
    }

    /// The same as `into_owned`.
    pub fn try_into_owned<R: Wait, J: Task>(
        self,
        rt: &R,
        guard: &Guard<'_, T, J>,
    ) -> Option<Owned<T>>
        ensures { IfSome result (λ o. o.tag < T.ALIGN) }
    {
        self.into_owned(rt, guard)
    }
}

/// What `f` gives for a pointer, where it leads to no cell of another collector than this one.
fn ask<'g, T: Pointable + Drop, F: FnMut(Shared<'g, T>) -> Option<Shared<'g, T>>>(
    f: &mut F,
    before: Shared<'g, T>,
    collector: u64,
) -> Option<Link>
    requires { F.IsAlwaysCallable f.old }
    ensures callable { F.IsAlwaysCallable f.new }
    ensures asked { MatchOption result (GaveNone F.step (λ s. is_foreign s.link.site collector) before.entry) (λ l. Gave F.step (λ s. is_foreign s.link.site collector) before.entry l) }
{
    match f(before) {
        Some(next) if !next.is_foreign(collector) => Some(next.link()),
        Some(_) => None,
        None => None,
    }
}

/// The step of a compare-and-exchange on the pointer that is held.
fn exchange<'g, R: Wait, J: Task, T: Pointable + Drop, P: Pointer<T>>(
    rt: &R,
    held: &mut Tagged<T>,
    current: Link,
    new: P,
    guard: &'g Guard<'_, T, J>,
) -> Result<Exchanged<'g, T, P>, (Fault, P)>
    ensures { MatchResult result
        (λ r. MatchResult r
        (λ s. (held.old.link ≡ current) × (s.link ≡ held.new.link) × (s.link.tag ≡ P.tag_bits new % T.ALIGN) × P.leads_to new guard.now.collector.now.id s.link.site)
        (λ e. (held.old.link ≢ current) × (e.current.link ≡ held.old.link) × (e.new ≡ new) × (held.new ≡ held.old)))
        (λ e. (held.old.link ≡ current) × (e.0 ≡ P.refused_as) × (P.is_refusable new guard.now.collector.now.id ≡ true) × (e.1 ≡ new) × (held.new ≡ held.old)) }
{
    let now = held.load();
    if now != current {
        return Ok(Err(CompareExchangeError {
            current: Shared::of(now),
            new,
        }));
    }
    let tagged = new.enter(rt, guard)?;
    let link = tagged.load();
    held.swap(tagged);
    Ok(Ok(Shared::of(link)))
}
