//! The queue of sealed bags, and what is told of a bag that was queued, or that wasn't there to be taken.

ghost use Rattle.std.specs.Prelude.{◌≡◌, ◌≤◌, ◌<◌, ◌+◌, ◌∷◌, [], ◌++◌, MatchOption, length, slice_index_or, true, false};
ghost use Rattle.crossbeam_epoch.specs.Bags.{jobs_in};
ghost use Rattle.crossbeam_epoch.specs.face.Queue.{is_front_expired};
ghost use Rattle.crossbeam_epoch.specs.face.Tokens.{known};

use crate::bag::{Bag, Sealed, Work};
use crate::chain::Chain;
use crate::face::pins::Ended;
use crate::face::seats::Token;
use crate::task::Task;
use std::alloc::Global;
use std::mem;

/// How far the epoch has to be past a bag's seal.
pub const EXPIRY: u64 = 2;

/// That a bag with this seal and so many jobs was queued.
#[derive(Clone, Copy, Drop)]
pub struct Queued {
    seal: u64,
    jobs: usize,
}

impl Queued {
    /// The seal of the bag.
    pub fn seal(self) -> u64
        ensures { result ≡ self.seal }
    {
        self.seal
    }
}

/// Which bag came off the queue last, to have its jobs called, and how many of them were taken out. The queue alone tells of a
/// bag. It can't be dropped, and is spent by `finish`, once each job was taken out.
pub struct Opened {
    seal: u64,
    jobs: usize,
    taken: usize,
}

/// That each job was taken out of a bag with this seal, which had come off the queue.
#[derive(Drop)]
pub struct Emptied {
    seal: u64,
}

impl Emptied {
    /// The seal of the bag.
    pub fn seal(&self) -> u64
        ensures { result ≡ self.now.seal }
    {
        self.seal
    }
}

impl Opened {
    /// No bag yet.
    pub fn none() -> Opened
        ensures { result ≡ record { seal = 0; jobs = 0; taken = 0 } }
    {
        Opened {
            seal: 0,
            jobs: 0,
            taken: 0,
        }
    }

    /// Takes the next job's work out of the bag; `None` where each was.
    pub fn next<J: Drop>(&mut self, bag: &mut Bag<J>) -> Option<Work<J>>
        requires { length bag.old ≡ self.old.jobs }
        ensures same { self.new ≡ record self.old { taken = self.new.taken } }
        ensures length { length bag.new ≡ length bag.old }
        ensures work { MatchOption result
            ((self.old.jobs ≤ self.old.taken) × (self.new.taken ≡ self.old.taken))
            (λ w. (self.old.taken < self.old.jobs) × (self.new.taken ≡ self.old.taken + 1) × ((e : _) × (e ≡ slice_index_or bag.old self.old.taken e) × (w ≡ e.work))) }
    {
        if self.taken >= bag.len() {
            return None;
        }
        let work = bag.take_work(self.taken)?;
        self.taken += 1;
        Some(work)
    }

    /// That each job was taken out.
    pub fn finish(self) -> Emptied
        requires { self.jobs ≤ self.taken }
        ensures { result.seal ≡ self.seal }
    {
        let Opened {
            seal,
            jobs: _,
            taken: _,
        } = self;
        Emptied { seal }
    }
}

/// That no front bag was there whose seal was two behind this epoch.
#[derive(Clone, Copy, Drop)]
pub struct NoneExpired {
    seen: u64,
}

/// An epoch that a seat saw, with which a bag is sealed.
#[derive(Clone, Copy, Drop)]
pub struct Seal {
    epoch: u64,
}

impl Seal {
    /// The epoch that this seat saw last.
    pub fn of(_token: &Token, epoch: u64) -> Seal
        requires { (known _token.now).seen ≡ epoch }
        ensures { result.epoch ≡ epoch }
    {
        Seal { epoch }
    }
}

/// Sealed bags, the oldest in front. The one way in is with an epoch that a seat saw; the ways out are by a seat that saw
/// an epoch two past the seal, and by the end.
#[derive(Drop)]
pub struct Queue<J: Task> {
    bags: Chain<J>,
}

impl<J: Task> Queue<J> {
    /// No bag.
    pub fn new(alloc: Global) -> Queue<J>
        ensures { result.bags.items ≡ [] }
    {
        Queue {
            bags: Chain::new(alloc),
        }
    }

    /// Seals the jobs of this bag, which is left empty, and puts them behind the others. `None` where a block is to be made
    /// for them and there is no memory.
    pub fn push(&mut self, seal: Seal, bag: &mut Bag<J>) -> Option<Queued>
        ensures bags { MatchOption result
            ((bag.new ≡ bag.old) × (self.new.bags.items ≡ self.old.bags.items) × (self.old.bags.room ≡ 0))
            (λ q. (q.seal ≡ seal.epoch) × (q.jobs ≡ jobs_in bag.old) × (bag.new ≡ []) × (self.new.bags.items ≡ self.old.bags.items ++ record { seal = seal.epoch; jobs = bag.old } ∷ [])) }
    {
        if self.bags.reserve().is_err() {
            return None;
        }
        let seal = seal.epoch;
        let queued = Queued {
            seal,
            jobs: bag.jobs(),
        };
        let jobs = mem::replace(bag, Bag::new());
        self.bags.push_back_reserved(Sealed { seal, jobs });
        Some(queued)
    }

    /// Whether the epoch that was seen is at least two past the seal of the front bag.
    fn is_front_expired(&self, seen: u64) -> bool
        ensures { result ≡ is_front_expired (λ b. b.seal) self.now.bags.items seen }
    {
        match self.bags.front() {
            Some(bag) => seen >= EXPIRY && bag.seal <= seen - EXPIRY,
            None => false,
        }
    }

    /// That no front bag is expired, where it is so.
    pub fn none_expired(&self, seen: u64) -> Option<NoneExpired>
        ensures { MatchOption result
            (is_front_expired (λ b. b.seal) self.now.bags.items seen ≡ true)
            (λ n. (n.seen ≡ seen) × (is_front_expired (λ b. b.seal) self.now.bags.items seen ≡ false)) }
    {
        if self.is_front_expired(seen) {
            None
        } else {
            Some(NoneExpired { seen })
        }
    }

    /// Takes the front bag off, for a seat that saw an epoch which is two past the bag's seal. Of the bag before it each job was
    /// taken out.
    pub fn pop_expired(&mut self, _token: &Token, seen: u64, opened: &mut Opened) -> Sealed<J>
        requires seen { (known _token.now).seen ≡ seen }
        requires expired { is_front_expired (λ b. b.seal) self.old.bags.items seen ≡ true }
        requires spent { opened.old.jobs ≤ opened.old.taken }
        ensures due { result.seal + 2 ≤ seen }
        ensures bags { self.old.bags.items ≡ result ∷ self.new.bags.items }
        ensures opened { opened.new ≡ record { seal = result.seal; jobs = length result.jobs; taken = 0 } }
    {
        match self.bags.pop_front() {
            Some(bag) => {
                opened.seal = bag.seal;
                opened.jobs = bag.jobs.len();
                opened.taken = 0;
                bag
            }
            None => unreachable!(),
        }
    }

    /// Takes the front bag off, at the end. Of the bag before it each job was taken out.
    pub fn pop(&mut self, _ended: &Ended, opened: &mut Opened) -> Option<Sealed<J>>
        requires spent { opened.old.jobs ≤ opened.old.taken }
        ensures bags { MatchOption result ((self.old.bags.items ≡ []) × (self.new.bags.items ≡ [])) (λ b. self.old.bags.items ≡ b ∷ self.new.bags.items) }
        ensures opened { MatchOption result (opened.new ≡ opened.old) (λ b. opened.new ≡ record { seal = b.seal; jobs = length b.jobs; taken = 0 }) }
    {
        let bag = self.bags.pop_front()?;
        opened.seal = bag.seal;
        opened.jobs = bag.jobs.len();
        opened.taken = 0;
        Some(bag)
    }
}
