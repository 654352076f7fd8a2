//! Deferrals.

ghost use Rattle.std.specs.Prelude.{◌≡◌, ◌<◌, List, ◌∷◌, length, IfOk, OnOk, OnErr, IfErr, MatchResult, None, Some, ◌^◌, ◌-◌, ◌==◌, ◌&&◌, not, true, false, if◌then◌else◌};
ghost use Rattle.crossbeam_epoch.specs.world.Machine.{place, deferred, deferred_anew, after_deferral, name_of};
ghost use Rattle.crossbeam_epoch.specs.world.Steps.{defer_fault, destroy_fault, quiet_fault, IsDeferralFault};
ghost use Rattle.crossbeam_epoch.specs.world.History.{Deferred};
ghost use Rattle.crossbeam_epoch.specs.world.Reach.{Quiet, Marked, NextMoment};
ghost use Rattle.crossbeam_epoch.specs.Limits.{bag_places};

use crate::bag::{BAG, Deferral, Sealed, Work};
use crate::fault::Fault;
use crate::names::{Links, Name, Pointable};
use crate::task::Task;
use crate::world::World;

impl<T: Links + Pointable + Drop, J: Task> World<T, J> {
    /// Defers a job, and answers its ticket, counted from 0; refused as Unknown, InCall, Unpinned, Count or, where the bag is full, Memory.
    pub fn defer(&mut self, who: usize, job: J) -> Result<u64, (Fault, J)>
        ensures ticket { IfOk result (λ t. t ≡ self.old.next) }
        ensures state { OnOk result (self.new ≡ after_deferral self.old who (Work.Run job)) }
        ensures back { IfErr result (λ e. (self.new ≡ self.old) × (e.1 ≡ job)) }
        ensures fault { MatchResult result (λ t. defer_fault self.old who ≡ None) (λ e. IsDeferralFault self.old who (defer_fault self.old who) e.0) }
        ensures told { MatchResult result (λ t. NextMoment T.names (Marked (Deferred t None)) self.old self.new) (λ e. NextMoment T.names Quiet self.old self.new) }
    {
        match self.put_off(who, Work::Run(job)) {
            Ok(ticket) => Ok(ticket),
            Err((fault, work)) => match work {
                Work::Run(job) => Err((fault, job)),
                Work::Blank => unreachable!(),
                Work::Remove(_) => unreachable!(),
            },
        }
    }

    /// Defers a job as `defer` does: no job borrows anything here.
    pub fn defer_unchecked(&mut self, who: usize, job: J) -> Result<u64, (Fault, J)>
        ensures ticket { IfOk result (λ t. t ≡ self.old.next) }
        ensures state { OnOk result (self.new ≡ after_deferral self.old who (Work.Run job)) }
        ensures back { IfErr result (λ e. (self.new ≡ self.old) × (e.1 ≡ job)) }
        ensures fault { MatchResult result (λ t. defer_fault self.old who ≡ None) (λ e. IsDeferralFault self.old who (defer_fault self.old who) e.0) }
        ensures told { MatchResult result (λ t. NextMoment T.names (Marked (Deferred t None)) self.old self.new) (λ e. NextMoment T.names Quiet self.old self.new) }
    {
        self.defer(who, job)
    }

    /// Defers the destruction of a cell, and answers its ticket; Unknown too where the name is destroyed.
    pub fn defer_destroy(&mut self, who: usize, name: Name) -> Result<u64, Fault>
        ensures ticket { IfOk result (λ t. t ≡ self.old.next) }
        ensures state { OnOk result (self.new ≡ after_deferral self.old who (Work.Remove name)) }
        ensures back { OnErr result (self.new ≡ self.old) }
        ensures fault { MatchResult result (λ t. destroy_fault self.old who name ≡ None) (λ e. IsDeferralFault self.old who (destroy_fault self.old who name) e) }
        ensures told { MatchResult result (λ t. NextMoment T.names (Marked (Deferred t (Some name))) self.old self.new) (λ e. NextMoment T.names Quiet self.old self.new) }
    {
        if self.cells.get(name).is_none() {
            return Err(Fault::Unknown);
        }
        match self.put_off(who, Work::Remove(name)) {
            Ok(ticket) => Ok(ticket),
            Err((fault, _)) => Err(fault),
        }
    }

    /// Whether a participant has a free place in its bag, so that its next deferral needs no memory; false where there is no such participant.
    pub fn has_place(&self, who: usize) -> bool
        ensures { result ≡ ((place self.now who).registered && not (length (place self.now who).bag == bag_places)) }
    {
        self.is_registered(who) && !self.participants[who].bag.is_full()
    }

    /// The free places of a participant's bag, so many of its next deferrals need no memory; 0 where there is no such participant.
    pub fn places(&self, who: usize) -> usize
        ensures { result ≡ (if (place self.now who).registered then bag_places - length (place self.now who).bag else 0) }
    {
        if self.is_registered(who) {
            BAG - self.participants[who].bag.len()
        } else {
            0
        }
    }

    /// Puts a job into a participant's bag; a full bag is sealed and queued first, which may find no memory.
    fn put_off(&mut self, who: usize, work: Work<J>) -> Result<u64, (Fault, Work<J>)>
        ensures ticket { IfOk result (λ t. t ≡ self.old.next) }
        ensures state { OnOk result (self.new ≡ after_deferral self.old who work) }
        ensures back { IfErr result (λ e. (self.new ≡ self.old) × (e.1 ≡ work)) }
        ensures fault { MatchResult result (λ t. defer_fault self.old who ≡ None) (λ e. IsDeferralFault self.old who (defer_fault self.old who) e.0) }
    {
        if let Some(fault) = self.defer_fault(who) {
            return Err((fault, work));
        }
        if !self.is_bag_full(who) {
            return Ok(self.put(who, work));
        }
        match self.put_anew(who, work) {
            Ok(ticket) => Ok(ticket),
            Err(work) => Err((Fault::Memory, work)),
        }
    }

    /// Seals and queues a bag, and puts a job into a new one; hands the job back where there is no memory.
    fn put_anew(&mut self, who: usize, work: Work<J>) -> Result<u64, Work<J>>
        requires in_table { who < length self.old.table }
        requires few { self.old.next < 2 ^ 64 - 1 }
        ensures ok { IfOk result (λ t. (t ≡ self.old.next) × (self.new ≡ deferred_anew self.old who work)) }
        ensures err { IfErr result (λ w. (w ≡ work) × (self.new ≡ self.old) × (self.old.room ≡ 0)) }
    {
        if self.queue.reserve().is_err() {
            return Err(work);
        }
        let ticket = self.tickets.give();
        let jobs = self.participants[who].start_bag(Deferral { ticket, work });
        self.queue.push_back_reserved(Sealed {
            seal: self.epoch,
            jobs,
        });
        Ok(ticket)
    }

    /// Puts a job into a bag that has a place.
    fn put(&mut self, who: usize, work: Work<J>) -> u64
        requires in_table { who < length self.old.table }
        requires room { length (place self.old who).bag < bag_places }
        requires few { self.old.next < 2 ^ 64 - 1 }
        ensures ticket { result ≡ self.old.next }
        ensures state { self.new ≡ deferred self.old who work }
    {
        let ticket = self.tickets.give();
        self.participants[who].bag.push(Deferral { ticket, work });
        ticket
    }

    /// Whether a participant's bag has no free place.
    fn is_bag_full(&self, who: usize) -> bool
        requires in_table { who < length self.now.table }
        ensures value { result ≡ (length (place self.now who).bag == bag_places) }
        ensures room { result ≡ false → length (place self.now who).bag < bag_places }
        ensures full { result ≡ true → length (place self.now who).bag ≡ bag_places }
    {
        self.participants[who].bag.is_full()
    }

    /// The fault of a deferral, Memory aside.
    fn defer_fault(&self, who: usize) -> Option<Fault>
        ensures value { result ≡ defer_fault self.now who }
        ensures inside { result ≡ None → who < length self.now.table }
        ensures few { result ≡ None → self.now.next < 2 ^ 64 - 1 }
    {
        if !self.is_registered(who) {
            return Some(Fault::Unknown);
        }
        self.tickets.or_count(self.quiet_fault(who))
    }

    /// The fault of a deferral at a place, Count and Memory aside.
    fn quiet_fault(&self, who: usize) -> Option<Fault>
        requires in_table { who < length self.now.table }
        ensures { result ≡ quiet_fault (place self.now who).phase (place self.now who) }
    {
        self.participants[who].quiet_fault()
    }
}
