//! The atomic steps of a collection: load, inspect, advance, take, call.

ghost use Rattle.std.specs.Prelude.{◌≡◌, ◌<◌, length};
ghost use Rattle.crossbeam_epoch.specs.world.Machine.{place, inspected, inspection, ends_advance, advanced, is_due, took, called, after_call, destroys, after_work};
ghost use Rattle.crossbeam_epoch.specs.world.Steps.{outcome_at, called_by};

use crate::bag::{BAGS, Deferral, Sealed, Work};
use crate::names::{Links, Name, Pointable};
use crate::task::Task;
use crate::world::World;
use crate::world::cells::Cells;
use crate::world::participant::{Phase, outcome_at};
use crate::world::report::{Outcome, Report};

impl<T: Links + Pointable + Drop, J: Task> World<T, J> {
    /// A collection looks at one place: a participant that is pinned at another epoch ends the advance.
    pub(crate) fn inspect(&mut self, who: usize, seen: u64, at: usize) -> Outcome
        requires in_table { who < length self.old.table }
        ensures state { self.new ≡ inspected self.old who seen at }
        ensures outcome { result ≡ Outcome.Running }
    {
        self.participants[who].phase = self.after_inspection(seen, at);
        Outcome::Running
    }

    /// Where a collection goes on after it looked at one place.
    fn after_inspection(&self, seen: u64, at: usize) -> Phase
        ensures { result ≡ inspection self.now seen at }
    {
        if self.ends_at(seen, at) {
            Phase::Take(seen, 0)
        } else if at < self.participants.len().saturating_sub(1) {
            Phase::Inspect(seen, at + 1)
        } else {
            Phase::Advance(seen)
        }
    }

    /// Whether the participant at this place is pinned at another epoch.
    fn ends_at(&self, seen: u64, at: usize) -> bool
        ensures { result ≡ ends_advance (place self.now at).word seen }
    {
        match self.participants.get(at) {
            Some(place) => place.is_elsewhere(seen),
            None => false,
        }
    }

    /// A collection that passed every place sets the epoch.
    pub(crate) fn advance(&mut self, who: usize, seen: u64) -> Outcome
        requires in_table { who < length self.old.table }
        ensures state { self.new ≡ advanced self.old who seen }
        ensures outcome { result ≡ Outcome.Running }
    {
        if seen >= self.limits.epoch_max {
            self.participants[who].phase = Phase::Take(seen, 0);
            return Outcome::Running;
        }
        self.epoch = seen + 1;
        self.participants[who].phase = Phase::Take(seen + 1, 0);
        Outcome::Running
    }

    /// Whether there is a front bag that is old enough.
    fn is_due(&self, answered: u64) -> bool
        ensures { result ≡ is_due self.now answered }
    {
        match self.queue.front() {
            Some(bag) => bag.seal <= answered && answered - bag.seal >= self.limits.expiry,
            None => false,
        }
    }

    /// A collection takes the front bag, if it is old enough.
    pub(crate) fn take(&mut self, who: usize, answered: u64, bags: u8) -> Outcome
        requires in_table { who < length self.old.table }
        ensures state { self.new ≡ took self.old who answered bags }
        ensures outcome { result ≡ outcome_at (place self.new who).phase }
    {
        if bags >= BAGS || !self.is_due(answered) {
            self.participants[who].phase = Phase::Idle;
            return Outcome::Done;
        }
        let Some(Sealed { seal, jobs }) = self.queue.pop_front() else {
            return Outcome::Done;
        };
        self.participants[who].call_from(jobs, Phase::Call(answered, bags + 1, seal));
        Outcome::Running
    }

    /// A collection calls the first job in its hand.
    pub(crate) fn call_next(&mut self, who: usize, answered: u64, bags: u8, seal: u64) -> Report
        requires in_table { who < length self.old.table }
        ensures state { self.new ≡ called self.old who answered bags seal }
        ensures outcome { result.outcome ≡ outcome_at (place self.new who).phase }
        ensures job { result.called ≡ called_by self.old.store (Phase.Call answered bags seal) (place self.old who).hand }
    {
        let place = &mut self.participants[who];
        if place.hand.is_empty() {
            place.phase = Phase::Idle;
            return Report {
                called: None,
                outcome: Outcome::Done,
            };
        }
        let Deferral { ticket, work } = place.hand.take_first();
        let phase = after_call(place.hand.len(), answered, bags, seal);
        place.phase = phase;
        self.tickets.settle();
        let destroyed = perform(&mut self.cells, work);
        Report {
            called: Some((ticket, destroyed)),
            outcome: outcome_at(phase),
        }
    }
}

/// Where a collection goes on after a call that leaves so many jobs in hand.
fn after_call(left: usize, answered: u64, bags: u8, seal: u64) -> Phase
    ensures { result ≡ after_call left answered bags seal }
{
    if left > 0 {
        Phase::Call(answered, bags, seal)
    } else if bags < BAGS {
        Phase::Take(answered, bags)
    } else {
        Phase::Idle
    }
}

/// Runs a job, or destroys the cell of a removal; answers the name that was destroyed.
pub(crate) fn perform<T: Drop, J: Task>(cells: &mut Cells<T>, work: Work<J>) -> Option<Name>
    ensures destroyed { result ≡ destroys cells.old work }
    ensures cells { cells.new ≡ after_work cells.old work }
{
    match work {
        Work::Blank => None,
        Work::Run(job) => {
            job.run();
            None
        }
        Work::Remove(name) => match cells.take(name) {
            Some(_) => Some(name),
            None => None,
        },
    }
}
