//! Handles of participants.

ghost use Rattle.std.specs.Prelude.{ℕ, ◌≡◌, ◌<◌, ◌≤◌, ◌+◌, ◌-◌, [], true, false, nat_lt};
ghost use Rattle.std.specs.Prelude.{length, Err, None, MatchResult, MatchOption, IfOk, IfErr, OnOk, IsSomeAnd};
ghost use Rattle.std.specs.Bool.{MatchBool};
ghost use Rattle.crossbeam_epoch.specs.Bags.{jobs_in};
ghost use Rattle.crossbeam_epoch.specs.face.Attempt.{IsAttempt};
ghost use Rattle.crossbeam_epoch.specs.face.Handle.{ChangesBag, ChangesBagUnder, IsRefusedUnder, LacksRoom, PutsOff, SealsFull, SealsUnder, owns, with_room};
ghost use Rattle.crossbeam_epoch.specs.face.Pinned.{IsPinnedFor, IsUnpinnedAfter, MovesIfAlone, MovesPin, RefusesToMove};
ghost use Rattle.crossbeam_epoch.specs.face.Participant.{IsPinned};
ghost use Rattle.crossbeam_epoch.specs.face.Pins.{IsDue, with_seen};
ghost use Rattle.crossbeam_epoch.specs.face.Tokens.{known, IsOf, unpinned_view};
ghost use Rattle.crossbeam_epoch.specs.face.Pointer.{name_in};
ghost use Rattle.crossbeam_epoch.specs.face.Queue.{TakesAll};
ghost use Rattle.crossbeam_epoch.specs.Limits.{bag_places};

use crate::bag::{Bag, Deferral, Work};
use crate::face::collected::Collected;
use crate::face::collector::Collector;
use crate::face::guard::{Guard, Row};
use crate::face::note::Note;
use crate::face::pins::Pin;
use crate::face::queue::{Queued, Seal};
use crate::face::seats::Token;
use crate::face::shared::Shared;
use crate::fault::Fault;
use crate::names::{Name, Pointable};
use crate::task::{Job, Task};
use std::fmt;
use std::fmt::{Debug, Formatter};
use std::marker::Model;
use std::sync::Wait;

/// A participant of a collector (the source's `LocalHandle`). It keeps the jobs that it defers until its bag is full.
/// A handle that is dropped stays registered, and its unsealed jobs are never called: `release` it.
#[derive(Drop)]
pub struct LocalHandle<'c, T, J: Task = Job> {
    collector: &'c Collector<T, J>,
    row: Row,
    /// Its seat at the words.
    token: Token,
    /// Guards that are out.
    guards: u16,
    /// The pin of the guards that are out.
    pin: Pin,
    bag: Bag<J>,
    seals: Seals,
}

/// The seals that a handle tells.
#[derive(Clone, Copy, Drop)]
pub struct Seals {
    /// That of the last bag that it queued.
    pub queued: Option<Queued>,
    /// Those of the bags whose jobs its last collection called.
    pub called: Collected,
}

impl<'c, T, J: Task> Model for LocalHandle<'c, T, J> {
    ghost use Rattle.std.specs.Prelude.{◌≡◌, ◌<◌};
    ghost use Rattle.crossbeam_epoch.specs.face.Participant.{Handle};
    ghost use Rattle.crossbeam_epoch.specs.face.Tokens.{known, IsOf, with_guards};

    ghost Value = { Handle T J };

    ghost view = { λ h. record { collector = h.collector; row = h.row; guards = h.guards; epoch = h.pin.epoch; bag = h.bag; seals = h.seals; knows = known h.token } };

    ghost invariant = { λ h. IsOf h.collector.now.pins.words.shared.table_id h.token × (h.row.place < h.collector.now.pins.places)
        × (known h.token ≡ with_guards h.guards h.row.place h.pin.at h.pin.epoch (known h.token).seen (known h.token).passed) };
}

impl<'c, T: Drop, J: Task> LocalHandle<'c, T, J> {
    /// The handle of a place that was just taken.
    pub(crate) fn new(collector: &'c Collector<T, J>, token: Token, place: u32) -> Self
        requires of { IsOf collector.now.pins.words.shared.table_id token × (place < collector.now.pins.places) }
        requires unpinned { known token ≡ unpinned_view place (known token).seen (known token).passed }
        ensures collector { result.collector ≡ collector.entry }
        ensures guards { result.guards ≡ 0 }
        ensures bag { result.bag ≡ [] }
    {
        LocalHandle {
            collector,
            row: Row {
                collector: collector.id(),
                place,
            },
            token,
            guards: 0,
            pin: Pin { at: 0, epoch: 0 },
            bag: Bag::new(),
            seals: Seals {
                queued: None,
                called: Collected::new(),
            },
        }
    }

    /// Its collector.
    pub fn collector(&self) -> &'c Collector<T, J>
        ensures { result.now ≡ self.now.collector.now }
    {
        self.collector
    }

    /// Whether a guard of it is out.
    pub fn is_pinned(&self) -> bool
        ensures value { result ≡ nat_lt 0 self.now.guards }
        ensures word { IsPinned self.now.guards self.now.epoch self.now.knows }
    {
        self.guards != 0
    }

    /// Pins the participant; guards of one handle nest, and go in any order. Refused as `Count` with 65,535 guards out.
    /// It takes no lock.
    pub fn pin(&mut self) -> Result<Guard<'c, T, J>, Fault>
        ensures guard { IfOk result (λ g. (owns self.new.guards self.new.row g.row ≡ true) × (g.epoch ≡ self.new.epoch)) }
        ensures counted { MatchResult result
            (λ _. self.new ≡ record self.old { guards = self.old.guards + 1; epoch = self.new.epoch; knows = self.new.knows })
            (λ e. (e ≡ Fault.Count) × (self.old.guards ≡ 65535) × (self.new ≡ self.old)) }
        ensures room { OnOk result (self.old.guards < 65535) }
        ensures nested { 0 < self.old.guards → self.new.epoch ≡ self.old.epoch }
        ensures word { IsPinned self.new.guards self.new.epoch self.new.knows }
    {
        if self.guards == u16::MAX {
            return Err(Fault::Count);
        }
        if self.guards == 0 {
            self.pin = self.collector.pins.pin(&mut self.token, self.row.place);
            self.guards = 1;
            return Ok(Guard::new(self.collector, self.row, self.pin.epoch));
        }
        self.guards += 1;
        Ok(Guard::new(self.collector, self.row, self.pin.epoch))
    }

    /// Spends a guard; the last one takes the pin away. Refused as `Foreign` for another handle's guard, which comes back.
    /// It takes no lock.
    pub fn unpin<'d>(&mut self, guard: Guard<'d, T, J>) -> Result<(), (Fault, Guard<'d, T, J>)>
        ensures state { MatchResult result
            (λ _. (owns self.old.guards self.old.row guard.entry.row ≡ true) × (self.new ≡ record self.old { guards = self.old.guards - 1; knows = self.new.knows }))
            (λ e. (owns self.old.guards self.old.row guard.entry.row ≡ false) × (e.0 ≡ Fault.Foreign) × (e.1 ≡ guard.entry) × (self.new ≡ self.old)) }
        ensures word { IsPinned self.new.guards self.new.epoch self.new.knows }
    {
        if !self.owns(&guard) {
            return Err((Fault::Foreign, guard));
        }
        let Guard {
            collector: _,
            row: _,
            epoch: _,
        } = guard;
        if self.guards > 1 {
            self.guards -= 1;
            return Ok(());
        }
        self.collector.pins.unpin(&mut self.token, self.row.place);
        self.guards = 0;
        Ok(())
    }

    /// Pins the participant, calls `f` with the handle and the guard, and spends the guard, whatever `f` answered: so `?`
    /// may leave `f`. Answers what `f` did; where `f` left the handle with as many guards as it found, so is it left with
    /// as many as before. Refused as `Count` with 65,535 guards out; then `f` isn't called. Refused as `Foreign` where `f`
    /// left another handle in this one's place; then that one is as `f` left it, and the participant stays pinned.
    pub fn pinned<O: Drop, F: FnOnce(&mut Self, &Guard<'c, T, J>) -> Result<O, Fault>>(
        &mut self,
        f: F,
    ) -> Result<O, Fault>
    where
        F: Drop,
        requires { F.IsAlwaysCallable f }
        ensures called { self.old.guards < 65535 → (p : _) × (q : _) × (r : _) × (p' : _)
            × IsPinnedFor self.old p.now q.now × F.post f p q r p' × IsUnpinnedAfter p'.now q.now r self.new result }
        ensures guards { ((p : _) (q : _) (r : _) (p' : _) → F.post f p q r p' → (p'.now.guards ≡ p.now.guards) × (p'.now.row ≡ p.now.row))
            → self.new.guards ≡ self.old.guards }
        ensures count { 65535 ≤ self.old.guards → (result ≡ Err Fault.Count) × (self.new ≡ self.old) }
        ensures word { IsPinned self.new.guards self.new.epoch self.new.knows }
    {
        let guard = self.pin()?;
        let answer = f(self, &guard);
        match self.unpin(guard) {
            Ok(()) => answer,
            Err((fault, guard)) => {
                guard.forget();
                Err(fault)
            }
        }
    }

    /// Whether the guard is one of this handle's.
    fn owns(&self, guard: &Guard<'_, T, J>) -> bool
        ensures value { result ≡ owns self.now.guards self.now.row guard.now.row }
        ensures out { result ≡ true → 0 < self.now.guards }
    {
        self.guards > 0 && guard.row == self.row
    }

    /// Leaves the collector; what was deferred and not sealed yet is sealed. Refused as `GuardOut` while a guard is
    /// out, or as `Memory`; the handle comes back.
    pub fn release<R: Wait>(mut self, rt: &R) -> Result<(), (Fault, Self)>
        ensures { MatchResult result
            (λ _. self.entry.guards ≡ 0)
            (λ e. (e.1 ≡ record self.entry { knows = e.1.knows })
            × MatchBool (nat_lt 0 self.entry.guards) (e.0 ≡ Fault.GuardOut) ((e.0 ≡ Fault.Memory) × (0 < length self.entry.bag))) }
    {
        if self.guards > 0 {
            return Err((Fault::GuardOut, self));
        }
        if let Err(fault) = self.seal(rt) {
            return Err((fault, self));
        }
        let LocalHandle {
            collector,
            row,
            token,
            guards: _,
            pin: _,
            bag,
            seals: _,
        } = self;
        collector.release(rt, token, row.place, bag);
        Ok(())
    }

    /// Tries to advance the epoch once, and calls the jobs of at most eight expired bags. What it then saw of the epoch
    /// is, with a guard out, the guard's epoch or one more.
    pub fn collect<R: Wait>(&mut self, rt: &R)
        ensures same { self.new ≡ record self.old { seals = record self.old.seals { called = self.new.seals.called }; knows = self.new.knows } }
        ensures word { IsPinned self.new.guards self.new.epoch self.new.knows }
        ensures saw { 0 < self.old.guards → (self.old.epoch ≤ self.new.knows.seen) × (self.new.knows.seen ≤ self.old.epoch + 1) }
        ensures due { IsDue self.new.knows.seen self.new.seals.called.newest }
        ensures bags { TakesAll self.new.knows.seen self.new.seals.called }
        ensures attempt { IsSomeAnd self.new.seals.called.attempt (λ a. IsAttempt self.old.collector.now.pins.epoch_max a self.new.knows.seen) }
    {
        self.seals.called = self.collector.collect(rt, &mut self.token);
    }

    /// A note of the epoch that it saw last, for another handle of its collector. It takes no lock.
    pub fn note(&mut self) -> Note<'c, T, J>
        ensures same { self.new ≡ self.old }
        ensures collector { result.collector.now ≡ self.old.collector.now }
        ensures seen { (known result.token).seen ≡ self.old.knows.seen }
    {
        let note = self.collector.pins.note(&mut self.token);
        Note::new(self.collector, note)
    }

    /// Takes another handle's note in, and reads the epoch. With a guard out the epoch that the other one had seen is so at
    /// most one past the guard's, and what it had called by then was sealed before the guard's epoch. It takes no lock.
    pub fn heed(&mut self, note: Note<'c, T, J>)
        requires { note.collector.now ≡ self.old.collector.now }
        ensures same { self.new ≡ record self.old { knows = self.new.knows } }
        ensures word { IsPinned self.new.guards self.new.epoch self.new.knows }
        ensures heard { (known note.entry.token).seen ≤ self.new.knows.seen }
        ensures saw { 0 < self.old.guards → (self.old.epoch ≤ self.new.knows.seen) × (self.new.knows.seen ≤ self.old.epoch + 1) }
        ensures before { 0 < self.old.guards → (seal : ℕ) → seal + 2 ≤ (known note.entry.token).seen → seal < self.old.epoch }
    {
        let Note {
            collector: _,
            token,
        } = note;
        self.collector.pins.heed(&mut self.token, token);
    }

    /// The seal of the last bag that it queued: an epoch that it read when the bag was filled. The jobs of a bag are called,
    /// before the end, by those alone who saw an epoch two past its seal.
    pub fn sealed_at(&self) -> Option<u64>
        ensures { MatchOption result (self.now.seals.queued ≡ None) (λ s. IsSomeAnd self.now.seals.queued (λ q. q.seal ≡ s)) }
    {
        match self.seals.queued {
            Some(bag) => Some(bag.seal()),
            None => None,
        }
    }

    /// The greatest seal of a bag whose jobs its last collection called; `None` where it called none.
    pub fn called_up_to(&self) -> Option<u64>
        ensures { result ≡ self.now.seals.called.newest }
    {
        self.seals.called.newest
    }

    /// How many bags its last collection called: eight at most, and fewer only where it found no expired one in front.
    pub fn called_bags(&self) -> u8
        ensures { result ≡ self.now.seals.called.bags }
    {
        self.seals.called.bags
    }

    /// Reads the epoch, to seal its bag with.
    fn look(&mut self) -> Seal
        ensures same { self.new ≡ record self.old { knows = self.new.knows } }
        ensures word { IsPinned self.new.guards self.new.epoch self.new.knows }
        ensures seen { result.epoch ≡ self.new.knows.seen }
        ensures knows { self.new.knows ≡ with_seen self.old.knows self.new.knows.seen }
        ensures read { 0 < self.old.guards → (self.old.epoch ≤ result.epoch) × (result.epoch ≤ self.old.epoch + 1) }
    {
        let epoch = self.collector.pins.look(&mut self.token);
        Seal::of(&self.token, epoch)
    }

    /// Seals the bag, unless it is empty, with an epoch that it reads first.
    fn seal<R: Wait>(&mut self, rt: &R) -> Result<(), Fault>
        ensures ok { OnOk result ((self.new.bag ≡ []) × ChangesBag self.old self.new) }
        ensures sealed { OnOk result (0 < self.old.guards → SealsUnder (nat_lt 0 (length self.old.bag)) self.old.epoch (jobs_in self.old.bag) self.old.seals.queued self.new.seals.queued) }
        ensures told { OnOk result (0 < length self.old.bag → IsSomeAnd self.new.seals.queued (λ q. (q.seal ≡ self.new.knows.seen) × (q.jobs ≡ jobs_in self.old.bag))) }
        ensures err { IfErr result (λ e. (e ≡ Fault.Memory) × (self.new ≡ record self.old { knows = self.new.knows }) × (0 < length self.old.bag)) }
    {
        if self.bag.is_empty() {
            return Ok(());
        }
        let seal = self.look();
        match self.collector.seal(rt, seal, &mut self.bag) {
            Some(queued) => {
                self.seals.queued = Some(queued);
                Ok(())
            }
            None => Err(Fault::Memory),
        }
    }

    /// Makes a place in the bag: a full one is sealed.
    fn make_room<R: Wait>(&mut self, rt: &R) -> Result<(), Fault>
        ensures ok { OnOk result (ChangesBag self.old self.new) }
        ensures bag { OnOk result (self.new.bag ≡ with_room self.old.bag) }
        ensures sealed { OnOk result (0 < self.old.guards → SealsFull self.old self.new) }
        ensures err { IfErr result (λ e. (e ≡ Fault.Memory) × (self.new ≡ record self.old { knows = self.new.knows }) × (bag_places ≤ length self.old.bag)) }
    {
        if !self.bag.is_full() {
            return Ok(());
        }
        self.seal(rt)
    }

    /// Puts a job off until no guard that is out now is left. Refused as `Foreign`, or as `Memory` where a full bag
    /// can't be queued; the job comes back.
    pub fn defer<R: Wait>(
        &mut self,
        rt: &R,
        guard: &Guard<'_, T, J>,
        job: J,
    ) -> Result<(), (Fault, J)>
        ensures ok { OnOk result (ChangesBagUnder guard.now.row self.old self.new) }
        ensures sealed { OnOk result (SealsFull self.old self.new) }
        ensures bag { OnOk result (PutsOff (Work.Run job) self.old self.new) }
        ensures err { IfErr result (λ e. (e.1 ≡ job) × IsRefusedUnder guard.now.row (LacksRoom self.old e.0) e.0 self.old self.new) }
    {
        if !self.owns(guard) {
            return Err((Fault::Foreign, job));
        }
        if let Err(fault) = self.make_room(rt) {
            return Err((fault, job));
        }
        self.bag.push(deferral(Work::Run(job)));
        Ok(())
    }

    /// The same as `defer`.
    pub fn defer_unchecked<R: Wait>(
        &mut self,
        rt: &R,
        guard: &Guard<'_, T, J>,
        job: J,
    ) -> Result<(), (Fault, J)>
        ensures ok { OnOk result (ChangesBagUnder guard.now.row self.old self.new) }
        ensures sealed { OnOk result (SealsFull self.old self.new) }
        ensures bag { OnOk result (PutsOff (Work.Run job) self.old self.new) }
        ensures err { IfErr result (λ e. (e.1 ≡ job) × IsRefusedUnder guard.now.row (LacksRoom self.old e.0) e.0 self.old self.new) }
    {
        self.defer(rt, guard, job)
    }

    /// Seals the bag, unless it is empty, queues it, and collects then. Refused as `Foreign`, or as `Memory`, where the bag can't be
    /// queued: then it keeps its jobs, none was called, and the epoch was looked at but not advanced. It takes the lock once to
    /// queue the bag, and once for each that it looks for.
    pub fn flush<R: Wait>(&mut self, rt: &R, guard: &Guard<'_, T, J>) -> Result<(), Fault>
        ensures ok { OnOk result ((owns self.old.guards self.old.row guard.now.row ≡ true)
            × (self.new.bag ≡ []) × (self.new ≡ record self.old { bag = self.new.bag; seals = self.new.seals; knows = self.new.knows })) }
        ensures sealed { OnOk result (SealsUnder (nat_lt 0 (length self.old.bag)) self.old.epoch (jobs_in self.old.bag) self.old.seals.queued self.new.seals.queued) }
        ensures due { OnOk result (IsDue self.new.knows.seen self.new.seals.called.newest) }
        ensures bags { OnOk result (TakesAll self.new.knows.seen self.new.seals.called) }
        ensures attempt { OnOk result (IsSomeAnd self.new.seals.called.attempt (λ a. IsAttempt self.old.collector.now.pins.epoch_max a self.new.knows.seen)) }
        ensures saw { OnOk result ((self.old.epoch ≤ self.new.knows.seen) × (self.new.knows.seen ≤ self.old.epoch + 1)) }
        ensures word { OnOk result (IsPinned self.new.guards self.new.epoch self.new.knows) }
        ensures err { IfErr result (λ e. IsRefusedUnder guard.now.row ((e ≡ Fault.Memory) × (0 < length self.old.bag) × (self.new.knows ≡ with_seen self.old.knows self.new.knows.seen)) e self.old self.new) }
    {
        if !self.owns(guard) {
            return Err(Fault::Foreign);
        }
        if self.bag.is_empty() {
            self.collect(rt);
            return Ok(());
        }
        let seal = self.look();
        match self
            .collector
            .flush(rt, &mut self.token, seal, &mut self.bag)
        {
            Some((queued, called)) => {
                let queued = Some(queued);
                self.seals = Seals { queued, called };
                Ok(())
            }
            None => Err(Fault::Memory),
        }
    }

    /// Pins the participant anew, where this is its only guard and the epoch isn't the one that its word publishes. Refused
    /// as `Foreign`. It takes no lock.
    pub fn repin(&mut self, guard: &mut Guard<'_, T, J>) -> Result<(), Fault>
        ensures ok { OnOk result ((owns self.old.guards self.old.row guard.old.row ≡ true) × MovesPin self.old guard.old self.new guard.new) }
        ensures epoch { OnOk result (MovesIfAlone self.old guard.old self.new guard.new) }
        ensures word { IsPinned self.new.guards self.new.epoch self.new.knows }
        ensures err { IfErr result (λ e. RefusesToMove e self.old guard.old self.new guard.new) }
    {
        if !self.owns(guard) {
            return Err(Fault::Foreign);
        }
        if self.guards == 1 {
            self.pin = self
                .collector
                .pins
                .repin(&mut self.token, self.row.place, self.pin);
            guard.epoch = self.pin.epoch;
        }
        Ok(())
    }

    /// Calls `f` while this guard doesn't pin the participant, and pins it anew. Refused as `Foreign`. It takes no lock.
    pub fn repin_after<O, F: FnOnce() -> O>(
        &mut self,
        guard: &mut Guard<'_, T, J>,
        f: F,
    ) -> Result<O, Fault>
    where
        F: Drop,
        requires { F.pre f }
        ensures ok { IfOk result (λ o. (owns self.old.guards self.old.row guard.old.row ≡ true) × F.post f o) }
        ensures state { OnOk result (MovesPin self.old guard.old self.new guard.new) }
        ensures epoch { OnOk result (MovesIfAlone self.old guard.old self.new guard.new) }
        ensures word { IsPinned self.new.guards self.new.epoch self.new.knows }
        ensures err { IfErr result (λ e. RefusesToMove e self.old guard.old self.new guard.new) }
    {
        if !self.owns(guard) {
            return Err(Fault::Foreign);
        }
        if self.guards > 1 {
            return Ok(f());
        }
        self.collector.pins.unpin(&mut self.token, self.row.place);
        let answer = f();
        self.pin = self.collector.pins.pin(&mut self.token, self.row.place);
        guard.epoch = self.pin.epoch;
        Ok(answer)
    }
}

impl<T: Pointable + Drop, J: Task> LocalHandle<'_, T, J> {
    /// Puts off the destruction of the value that the pointer leads to. Refused as `Foreign`, as `Unknown` for null,
    /// or as `Memory`; the pointer comes back.
    pub fn defer_destroy<'s, R: Wait>(
        &mut self,
        rt: &R,
        guard: &Guard<'_, T, J>,
        pointer: Shared<'s, T>,
    ) -> Result<(), (Fault, Shared<'s, T>)>
        ensures ok { OnOk result (ChangesBagUnder guard.now.row self.old self.new) }
        ensures sealed { OnOk result (SealsFull self.old self.new) }
        ensures bag { OnOk result (MatchResult (name_in pointer.entry.link.site self.old.collector.now.id)
            (λ n. PutsOff (Work.Remove n) self.old self.new)
            (λ e. ⊥)) }
        ensures err { IfErr result (λ e. (e.1 ≡ pointer.entry) × IsRefusedUnder guard.now.row
            (MatchResult (name_in pointer.entry.link.site self.old.collector.now.id) (λ _. LacksRoom self.old e.0) (λ f. e.0 ≡ f)) e.0 self.old self.new) }
    {
        if !self.owns(guard) {
            return Err((Fault::Foreign, pointer));
        }
        let name = match pointer.name_in(self.collector) {
            Ok(name) => name,
            Err(fault) => return Err((fault, pointer)),
        };
        if let Err(fault) = self.make_room(rt) {
            return Err((fault, pointer));
        }
        self.bag.push(deferral(Work::Remove(name)));
        Ok(())
    }
}

/// A deferral, which has no ticket of its own.
fn deferral<J>(work: Work<J>) -> Deferral<J>
    ensures { result ≡ record { ticket = 0; work = work } }
{
    Deferral { ticket: 0, work }
}

impl<T, J: Task> Debug for LocalHandle<'_, T, J> {
    fn fmt<W: fmt::Write>(&self, f: &mut Formatter<W>) -> fmt::Result {
        f.debug_struct("LocalHandle").finish()
    }
}
