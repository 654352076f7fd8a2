//! The end of a collector.

ghost use Rattle.std.specs.Prelude.{◌≡◌, ◌<◌, ◌-◌, ℕ, List, length, min, IfOk, OnOk, MatchResult};
ghost use Rattle.crossbeam_epoch.specs.world.Ending.{registered_in, jobs_of, after_jobs, history_of_calls, IsEnded};
ghost use Rattle.crossbeam_epoch.specs.world.Reach.{Moment, marks_of, HasMoments};

use crate::bag::{Bag, Deferral, Sealed};
use crate::chain::Chain;
use crate::fault::Fault;
use crate::names::{Links, Pointable};
use crate::task::Task;
use crate::world::World;
use crate::world::cells::Cells;
use crate::world::collect::perform;
use crate::world::tickets::Tickets;

impl<T: Links + Pointable + Drop, J: Task> World<T, J> {
    /// Calls every job that is left, and answers how many of those that waited it called; Registered(n), with the
    /// collector, while n participants are registered.
    pub fn end(self) -> Result<u64, (Fault, World<T, J>)>
        ensures fault { MatchResult result (λ n. registered_in self ≡ 0) (λ e. (0 < registered_in self) × (e.0 ≡ Fault.Registered (registered_in self)) × (e.1 ≡ self)) }
        ensures count { IfOk result (λ n. n ≡ min self.waiting (length (jobs_of self.queue))) }
        ensures called { OnOk result ((h : List Moment) → HasMoments T.names h self → (length (jobs_of self.queue) ≡ self.waiting) × IsEnded (history_of_calls self.store (jobs_of self.queue) (marks_of h)) self.next) }
    {
        let registered = self.registered();
        if registered > 0 {
            return Err((Fault::Registered(registered), self));
        }
        let World {
            mut tickets,
            mut cells,
            queue,
            ..
        } = self;
        let waiting = tickets.waiting();
        call_bags(queue, &mut tickets, &mut cells);
        Ok(waiting - tickets.waiting())
    }

    /// How many participants are registered.
    fn registered(&self) -> u32
        ensures { result ≡ registered_in self.now }
    {
        let mut registered = 0;
        for n in 0..self.limits.participants {
            if self.is_registered(n as usize) {
                registered += 1;
            }
        }
        registered
    }
}

/// Calls the jobs of these bags, the front bag's first.
fn call_bags<T: Drop, J: Task>(mut queue: Chain<J>, tickets: &mut Tickets, cells: &mut Cells<T>)
    ensures count { tickets.new ≡ record tickets.old { waiting = tickets.old.waiting - length (jobs_of queue.items) } }
    ensures cells { cells.new ≡ after_jobs cells.old (jobs_of queue.items) }
{
    while let Some(Sealed { jobs, .. }) = queue.pop_front() {
        call_bag(jobs, tickets, cells);
    }
}

/// Calls the jobs of a bag, the first one first.
fn call_bag<T: Drop, J: Task>(mut jobs: Bag<J>, tickets: &mut Tickets, cells: &mut Cells<T>)
    ensures count { tickets.new ≡ record tickets.old { waiting = tickets.old.waiting - length jobs } }
    ensures cells { cells.new ≡ after_jobs cells.old jobs }
{
    while !jobs.is_empty() {
        let Deferral { work, .. } = jobs.take_first();
        tickets.settle();
        perform(cells, work);
    }
}
