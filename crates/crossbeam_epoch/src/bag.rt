//! Bags of deferred jobs, and sealed bags.

ghost use Rattle.std.specs.Prelude.{◌≡◌, ◌<◌, ◌≤◌, ◌++◌, ◌∷◌, [], length, remove, slice_index_or, nat_eq, MatchOption};
ghost use Rattle.crossbeam_epoch.specs.Bags.{is_job, jobs_in};
ghost use Rattle.crossbeam_epoch.specs.Limits.{bag_places};

use crate::names::Name;
use arrayvec::ArrayVec;
use std::marker::Model;
use std::mem;

/// The places of a bag.
pub const BAG: usize = 64;

/// The most bags that one collection takes.
pub(crate) const BAGS: u8 = 8;

/// What an entry does when it is called. A blank fills a bag's free places.
#[derive(Drop)]
pub enum Work<J> {
    Blank,
    /// The cell of this name is destroyed.
    Remove(Name),
    /// The job is run.
    Run(J),
}

impl<J> Work<J> {
    /// Whether there is something to be done.
    fn is_job(&self) -> bool
        ensures { result ≡ is_job self.now }
    {
        !matches!(self, Work::Blank)
    }
}

/// A deferred job with its ticket.
#[derive(Drop)]
pub struct Deferral<J> {
    pub ticket: u64,
    pub work: Work<J>,
}

impl<J> Default for Deferral<J> {
    fn default() -> Self {
        Deferral {
            ticket: 0,
            work: Work::Blank,
        }
    }
}

/// At most `BAG` jobs, in the order of deferral; it never allocates.
#[derive(Drop)]
pub struct Bag<J> {
    entries: ArrayVec<Deferral<J>, BAG>,
}

/// A bag in the queue.
#[derive(Drop)]
pub struct Sealed<J> {
    /// An epoch read after the bag's last deferral.
    pub seal: u64,
    pub jobs: Bag<J>,
}

impl<J> Model for Bag<J> {
    ghost use Rattle.std.specs.Prelude.{List, ◌≤◌, length};
    ghost use Rattle.crossbeam_epoch.specs.Limits.{bag_places};
    ghost use Rattle.crossbeam_epoch.specs.declared.bag.Deferral.{Deferral};

    ghost Value = { List (Deferral J) };

    ghost view = { λ b. b.entries.items };

    ghost invariant = { λ b. length b.entries.items ≤ bag_places };
}

impl<J> Bag<J> {
    /// Whether no place is free.
    pub fn is_full(&self) -> bool
        ensures value { result ≡ nat_eq (length self.now) bag_places }
        ensures fits { length self.now ≤ bag_places }
    {
        self.entries.is_full()
    }

    /// Whether there is no job.
    pub fn is_empty(&self) -> bool
        ensures { result ≡ nat_eq (length self.now) 0 }
    {
        self.entries.is_empty()
    }

    /// The number of jobs.
    pub fn len(&self) -> usize
        ensures value { result ≡ length self.now }
        ensures fits { result ≤ bag_places }
    {
        self.entries.len()
    }
}

impl<J> Bag<J> {
    /// The number of jobs without the blanks.
    pub(crate) fn jobs(&self) -> usize
        ensures { result ≡ jobs_in self.now }
    {
        let entries = self.entries.as_slice();
        entries.iter().filter(|entry| entry.work.is_job()).count()
    }
}

impl<J: Drop> Bag<J> {
    /// An empty bag.
    pub(crate) fn new() -> Bag<J>
        ensures { result ≡ [] }
    {
        Bag {
            entries: ArrayVec::new(),
        }
    }

    /// Puts a job behind the others.
    pub(crate) fn push(&mut self, entry: Deferral<J>)
        requires { length self.old < bag_places }
        ensures { self.new ≡ self.old ++ entry ∷ [] }
    {
        self.entries.push(entry);
    }

    /// Takes the work out of the job at this place, where there is one, and leaves a blank there.
    pub(crate) fn take_work(&mut self, at: usize) -> Option<Work<J>>
        ensures length { length self.new ≡ length self.old }
        ensures work { MatchOption result (length self.old ≤ at) (λ w. (at < length self.old) × ((e : _) × (e ≡ slice_index_or self.old at e) × (w ≡ e.work))) }
    {
        match self.entries.get_mut(at) {
            Some(entry) => Some(mem::replace(&mut entry.work, Work::Blank)),
            None => None,
        }
    }

    /// Takes the first job out.
    pub(crate) fn take_first(&mut self) -> Deferral<J>
        requires { 0 < length self.old }
        ensures first { result ≡ slice_index_or self.old 0 result }
        ensures rest { self.new ≡ remove self.old 0 }
    {
        self.entries.remove(0)
    }
}
