//! The collector.

ghost use Rattle.std.specs.Prelude.{◌≡◌, ◌<◌, ◌≤◌, ◌+◌, ◌^◌, ◌&&◌, ℕ, length, [], None, nat_eq, IfOk, IfErr, IfSome, OnSome, IsSomeAnd, MatchOption, MatchResult};
ghost use Rattle.std.specs.Bool.{MatchBool};
ghost use Rattle.crossbeam_epoch.specs.Bags.{jobs_in};
ghost use Rattle.crossbeam_epoch.specs.Limits.{within, most_bags};
ghost use Rattle.crossbeam_epoch.specs.face.Attempt.{IsAttempt};
ghost use Rattle.crossbeam_epoch.specs.face.Pins.{IsRead, IsDue};
ghost use Rattle.crossbeam_epoch.specs.face.Queue.{IsTaken, TakesAll};
ghost use Rattle.crossbeam_epoch.specs.face.Tokens.{known, IsOf};

use crate::bag::{BAGS, Bag, Sealed, Work};
use crate::face::collected::Collected;
use crate::face::handle::LocalHandle;
use crate::face::internal::{Internal, Names};
use crate::face::lent::{Lent, LentMut};
use crate::face::pins::{Ended, Pins};
use crate::face::queue::{EXPIRY, Opened, Queue, Queued, Seal};
use crate::face::seats::Token;
use crate::face::slots::{Claimed, Slots};
use crate::fault::Fault;
use crate::limits::Limits;
use crate::names::Name;
use crate::task::{Job, Task};
use crossbeam_utils::CachePadded;
use std::alloc::{AllocError, Global};
use std::fmt;
use std::fmt::{Debug, Formatter};
use std::sync::{Mutex, MutexGuard, Wait};

/// An epoch-based garbage collector for values of one type (the source's `Collector`). What handles put off are jobs
/// of the type J: boxed closures, or an enum of the user's own.
#[derive(Drop)]
pub struct Collector<T, J: Task = Job> {
    id: u64,
    /// The epoch and the participants' words.
    pub(crate) pins: Pins,
    internal: CachePadded<Mutex<Internal<J>>>,
    names: Names,
    slots: Slots<T>,
}

impl<T: Drop, J: Task> Collector<T, J> {
    /// A collector with these limits. Its number tells it from others, so give each another one.
    /// Refused as `Limits`, also where `expiry` isn't 2, or as `Memory`.
    pub fn new<R: Wait>(_rt: &R, alloc: Global, limits: Limits, id: u64) -> Result<Self, Fault>
        ensures answer { MatchResult result (λ c. c.id ≡ id) (λ e. MatchBool (within limits && nat_eq limits.expiry 2) (e ≡ Fault.Memory) (e ≡ Fault.Limits)) }
        ensures words { IfOk result (λ c. (c.pins.places ≡ limits.participants) × (c.pins.epoch_max ≡ limits.epoch_max)) }
        ensures names { IfOk result (λ c. (c.names.cells ≡ limits.cells) × (c.names.turn_max ≡ limits.turn_max)) }
    {
        if !limits.is_within() || limits.expiry != EXPIRY {
            return Err(Fault::Limits);
        }
        match Collector::make(alloc, limits, id) {
            Ok(collector) => Ok(collector),
            Err(_) => Err(Fault::Memory),
        }
    }

    /// The collector of this number within these limits.
    fn make(alloc: Global, limits: Limits, id: u64) -> Result<Self, AllocError>
        requires { limits.epoch_max ≤ 2 ^ 62 }
        ensures id { IfOk result (λ c. c.id ≡ id) }
        ensures words { IfOk result (λ c. (c.pins.places ≡ limits.participants) × (c.pins.epoch_max ≡ limits.epoch_max)) }
        ensures names { IfOk result (λ c. (c.names.cells ≡ limits.cells) × (c.names.turn_max ≡ limits.turn_max)) }
    {
        let pins = Pins::new(alloc, limits.participants, limits.epoch_max)?;
        let slots = Slots::new(alloc, limits.cells)?;
        let (internal, names) = Internal::new(alloc, &limits)?;
        Ok(Collector {
            id,
            pins,
            internal: CachePadded::new(Mutex::new(internal)),
            names,
            slots,
        })
    }

    /// The number that tells it from others.
    pub fn id(&self) -> u64
        ensures { result ≡ self.now.id }
    {
        self.id
    }

    /// Whether both have one number.
    pub fn same(&self, other: &Collector<T, J>) -> bool
        ensures { result ≡ nat_eq self.now.id other.now.id }
    {
        self.id == other.id
    }

    /// Takes the lowest free place of the table. Refused as `TableFull`.
    pub fn register<R: Wait>(&self, rt: &R) -> Result<LocalHandle<'_, T, J>, Fault>
        ensures { MatchResult result (λ h. (h.collector.now ≡ self.now) × (h.guards ≡ 0) × (h.bag ≡ [])) (λ e. e ≡ Fault.TableFull) }
    {
        let _others_wait = self.lock().lock(rt);
        match self.pins.register() {
            Ok((token, place)) => Ok(LocalHandle::new(self, token, place)),
            Err(_) => Err(Fault::TableFull),
        }
    }

    /// Calls every job that is left. Refused as `Registered(n)` while n handles aren't released; the collector comes back.
    pub fn end(self) -> Result<(), (Fault, Self)>
        ensures { IfErr result (λ e. (e.1 ≡ self) × ((n : ℕ) × (0 < n) × (e.0 ≡ Fault.Registered n))) }
    {
        let (registered, seat) = self.pins.registered();
        if let Some(fault) = registered {
            return Err((fault, self));
        }
        let Collector {
            id: _,
            pins,
            internal,
            names: _,
            slots,
        } = self;
        let Internal { free: _, mut queue } = internal.into_inner().into_inner();
        call_bags(&slots, &mut queue, &pins.close(&seat));
        Ok(())
    }

    /// Its lock.
    fn lock(&self) -> &Mutex<Internal<J>> {
        &self.internal
    }
}

/// What handles, guards and pointers do, with one hold of the lock at most at a time.
impl<T: Drop, J: Task> Collector<T, J> {
    /// Gives a place up, whose seat this is, and in whose bag nothing is left.
    pub(crate) fn release<R: Wait>(&self, rt: &R, token: Token, place: u32, _bag: Bag<J>)
        requires of { IsOf self.now.pins.words.shared.table_id token }
        requires own { (place < self.now.pins.places) × ((known token).place ≡ Some place) }
        requires empty { _bag ≡ [] }
    {
        let _others_wait = self.lock().lock(rt);
        self.pins.release(token, place);
    }

    /// Queues the jobs of this bag with this seal, and leaves it empty. `None` where there is no memory.
    pub(crate) fn seal<R: Wait>(&self, rt: &R, seal: Seal, bag: &mut Bag<J>) -> Option<Queued>
        ensures { MatchOption result (bag.new ≡ bag.old) (λ q. (q.seal ≡ seal.epoch) × (q.jobs ≡ jobs_in bag.old) × (bag.new ≡ [])) }
    {
        self.lock().lock(rt).queue.push(seal, bag)
    }

    /// Places a value in a free cell, whose name is taken under the lock; hands it back where none is usable.
    pub(crate) fn place<R: Wait>(&self, rt: &R, value: Box<T>) -> Result<Name, Box<T>>
        ensures { IfErr result (λ v. v ≡ value) }
    {
        let Ok(name) = self.lock().lock(rt).free.place(()) else {
            return Err(value);
        };
        self.slots.place(name, value)?;
        Ok(name)
    }

    /// Lends a value to be read. It takes no lock.
    pub(crate) fn lend<R: Wait>(&self, rt: &R, name: Name) -> Option<Lent<'_, T>>
        ensures { IfSome result (λ l. l.name ≡ name) }
    {
        self.slots.lend(rt, name)
    }

    /// Lends a value to be changed. It takes no lock.
    pub(crate) fn lend_mut(&self, name: Name) -> Option<LentMut<'_, T>>
        ensures { IfSome result (λ l. l.kept.name ≡ name) }
    {
        self.slots.lend_mut(name)
    }

    /// Takes a value out of its cell for good, and offers the cell under the lock.
    pub(crate) fn remove<R: Wait>(&self, rt: &R, name: Name) -> Option<Box<T>> {
        let Claimed { name, value } = self.slots.remove(name)?;
        self.lock().lock(rt).free.take(name);
        Some(value)
    }

    /// Tries to advance the epoch once, then calls the jobs of expired bags from the queue's front: of at most `BAGS`, and
    /// of fewer only where none is left. No lock is held while a job runs.
    pub(crate) fn collect<R: Wait>(&self, rt: &R, token: &mut Token) -> Collected
        requires of { IsOf self.now.pins.words.shared.table_id token.old }
        ensures of { IsOf self.now.pins.words.shared.table_id token.new }
        ensures view { known token.new ≡ record (known token.old) { seen = (known token.new).seen; passed = (known token.new).passed } }
        ensures read { IsRead (known token.old) (known token.new).seen }
        ensures due { IsDue (known token.new).seen result.newest }
        ensures bags { TakesAll (known token.new).seen result }
        ensures attempt { IsSomeAnd result.attempt (λ a. IsAttempt self.now.pins.epoch_max a (known token.new).seen) }
    {
        let (seen, attempt) = self.pins.advance(token);
        let held = self.lock().lock(rt);
        let first = self.call_front(rt, held, token, seen, Collected::after(attempt));
        self.call_others(rt, token, seen, first)
    }

    /// Queues the jobs of this bag with this seal, and does the same then. `None` where there is no memory for that; then it did
    /// nothing.
    pub(crate) fn flush<R: Wait>(
        &self,
        rt: &R,
        token: &mut Token,
        seal: Seal,
        bag: &mut Bag<J>,
    ) -> Option<(Queued, Collected)>
        requires of { IsOf self.now.pins.words.shared.table_id token.old }
        ensures of { IsOf self.now.pins.words.shared.table_id token.new }
        ensures view { known token.new ≡ record (known token.old) { seen = (known token.new).seen; passed = (known token.new).passed } }
        ensures read { OnSome result (IsRead (known token.old) (known token.new).seen) }
        ensures queued { MatchOption result ((bag.new ≡ bag.old) × (known token.new ≡ known token.old)) (λ r. (r.0.seal ≡ seal.epoch) × (r.0.jobs ≡ jobs_in bag.old) × (bag.new ≡ [])) }
        ensures due { IfSome result (λ r. IsDue (known token.new).seen r.1.newest) }
        ensures bags { IfSome result (λ r. TakesAll (known token.new).seen r.1) }
        ensures attempt { IfSome result (λ r. IsSomeAnd r.1.attempt (λ a. IsAttempt self.now.pins.epoch_max a (known token.new).seen)) }
    {
        let queued = self.seal(rt, seal, bag)?;
        Some((queued, self.collect(rt, token)))
    }

    /// Goes on with a collection that called the first bag, if there was one: with one hold of the lock for each other bag.
    fn call_others<R: Wait>(&self, rt: &R, token: &Token, seen: u64, first: Collected) -> Collected
        requires seen { (known token.now).seen ≡ seen }
        requires first { IsDue seen first.newest × IsTaken seen 1 first }
        ensures { IsDue seen result.newest × TakesAll seen result × (result.attempt ≡ first.attempt) }
    {
        let mut called = first;
        for _ in 1..BAGS {
            if called.is_at_rest() {
                return called;
            }
            called = self.call_front(rt, self.lock().lock(rt), token, seen, called);
        }
        called
    }

    /// Calls the jobs of the front bag, where it is expired at the epoch that this seat saw last. The lock is held, and is
    /// let go before.
    fn call_front<R: Wait>(
        &self,
        rt: &R,
        mut held: MutexGuard<'_, Internal<J>>,
        token: &Token,
        seen: u64,
        called: Collected,
    ) -> Collected
        requires seen { (known token.now).seen ≡ seen }
        requires called { (called.bags < most_bags) × (called.rest ≡ None) × IsDue seen called.newest }
        ensures due { IsDue seen result.newest }
        ensures bags { IsTaken seen (called.bags + 1) result }
        ensures attempt { result.attempt ≡ called.attempt }
    {
        if let Some(none) = held.queue.none_expired(seen) {
            return called.at_rest(none);
        }
        let mut opened = Opened::none();
        let Sealed { seal: _, jobs } = held.queue.pop_expired(token, seen, &mut opened);
        let rest = held.queue.none_expired(seen);
        drop(held);
        self.call(rt, &mut opened, jobs);
        let called = called.one_more(opened.finish());
        match rest {
            Some(none) => called.at_rest(none),
            None => called,
        }
    }

    /// Calls these jobs, the first one first.
    fn call<R: Wait>(&self, rt: &R, opened: &mut Opened, jobs: Bag<J>)
        requires { (length jobs ≡ opened.old.jobs) × (opened.old.taken ≡ 0) }
        ensures { (opened.new ≡ record opened.old { taken = opened.new.taken }) × (opened.old.jobs ≤ opened.new.taken) }
    {
        call_jobs(opened, jobs, |name| drop(self.remove(rt, name)));
    }
}

/// Calls the jobs of the bags that are left at the end, the oldest bag's first.
fn call_bags<T: Drop, J: Task>(slots: &Slots<T>, queue: &mut Queue<J>, ended: &Ended)
    ensures { queue.new.bags.items ≡ [] }
{
    let mut opened = Opened::none();
    while let Some(bag) = queue.pop(ended, &mut opened) {
        call_jobs(&mut opened, bag.jobs, |name| drop(slots.remove(name)));
    }
    opened.finish();
}

/// Calls the jobs of a bag, the first one first; `remove` takes a value out of its cell for good.
fn call_jobs<J: Task, F: Fn(Name) + Drop>(opened: &mut Opened, mut jobs: Bag<J>, remove: F)
    requires callable { F.IsAlwaysCallable remove }
    requires bag { (length jobs ≡ opened.old.jobs) × (opened.old.taken ≡ 0) }
    ensures { (opened.new ≡ record opened.old { taken = opened.new.taken }) × (opened.old.jobs ≤ opened.new.taken) }
{
    while let Some(work) = opened.next(&mut jobs) {
        match work {
            Work::Blank => {}
            Work::Remove(name) => remove(name),
            Work::Run(job) => job.run(),
        }
    }
}

impl<T, J: Task> Debug for Collector<T, J> {
    fn fmt<W: fmt::Write>(&self, f: &mut Formatter<W>) -> fmt::Result {
        f.debug_struct("Collector").finish()
    }
}
