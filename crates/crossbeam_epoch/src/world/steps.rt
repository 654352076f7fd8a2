//! The atomic steps of pins, repins, leaves and securings.

ghost use Rattle.std.specs.Prelude.{◌≡◌, ◌<◌, ◌⊎◌, length};
ghost use Rattle.crossbeam_epoch.specs.world.Machine.{place, with_place, in_phase, published, relooked, repinned, queued, released, secured};
ghost use Rattle.crossbeam_epoch.specs.world.Steps.{begin_fault, begun_at, outcome_at, outcome_or, place_or};

use crate::bag::Sealed;
use crate::fault::Fault;
use crate::names::{Links, Pointable};
use crate::task::Task;
use crate::world::World;
use crate::world::participant::{Participant, Phase, outcome_at};
use crate::world::report::{Op, Outcome};
use std::mem;

impl<T: Links + Pointable + Drop, J: Task> World<T, J> {
    /// A call begins at a place without a call in flight, or is refused.
    pub(crate) fn begin(&mut self, who: usize, op: Op) -> Outcome
        requires in_table { who < length self.old.table }
        requires idle { (place self.old who).phase ≡ Phase.Idle }
        ensures state { self.new ≡ with_place self.old who (place_or (begin_fault op (place self.old who)) (begun_at op (place self.old who)) (place self.old who)) }
        ensures outcome { result ≡ outcome_or (begin_fault op (place self.old who)) (begun_at op (place self.old who)) }
    {
        self.participants[who].begin(op)
    }

    /// A call reads the epoch, and goes on so.
    pub(crate) fn look(&mut self, who: usize, next: Phase) -> Outcome
        requires in_table { who < length self.old.table }
        ensures state { self.new ≡ in_phase self.old who next }
        ensures outcome { result ≡ Outcome.Running }
    {
        self.participants[who].phase = next;
        Outcome::Running
    }

    /// A first-level pin publishes the epoch that it read.
    pub(crate) fn publish(&mut self, who: usize, seen: u64) -> Outcome
        requires in_table { who < length self.old.table }
        ensures state { self.new ≡ with_place self.old who (published seen (place self.old who)) }
        ensures outcome { result ≡ outcome_at (published seen (place self.old who)).phase }
    {
        self.participants[who].publish(seen)
    }

    /// A repin reads the epoch, and ends where it is the word's.
    pub(crate) fn look_again(&mut self, who: usize) -> Outcome
        requires in_table { who < length self.old.table }
        ensures state { self.new ≡ with_place self.old who (relooked self.old.epoch (place self.old who)) }
        ensures outcome { result ≡ outcome_at (relooked self.old.epoch (place self.old who)).phase }
    {
        self.participants[who].look_again(self.epoch)
    }

    /// A repin publishes the epoch that it read.
    pub(crate) fn publish_again(&mut self, who: usize, seen: u64) -> Outcome
        requires in_table { who < length self.old.table }
        ensures state { self.new ≡ with_place self.old who (repinned seen (place self.old who)) }
        ensures outcome { result ≡ Outcome.Done }
    {
        self.participants[who].publish_again(seen)
    }

    /// A securing looks whether so many places of the bag are free.
    pub(crate) fn secure(&mut self, who: usize, n: u8) -> Outcome
        requires in_table { who < length self.old.table }
        ensures state { self.new ≡ with_place self.old who (secured n (place self.old who)) }
        ensures outcome { result ≡ outcome_at (secured n (place self.old who)).phase }
    {
        self.participants[who].secure(n)
    }

    /// A call queues its bag under this seal, and goes on so.
    pub(crate) fn queue(&mut self, who: usize, seal: u64, next: Phase) -> Outcome
        requires in_table { who < length self.old.table }
        ensures outcome { result ≡ outcome_at next ⊎ (result ≡ Outcome.Refused Fault.Memory) }
        ensures done { result ≡ outcome_at next → self.new ≡ queued self.old who seal next }
        ensures refused { result ≡ Outcome.Refused Fault.Memory → (self.old.room ≡ 0) × (self.new ≡ in_phase self.old who Phase.Idle) }
    {
        if self.queue.reserve().is_err() {
            self.participants[who].phase = Phase::Idle;
            return Outcome::Refused(Fault::Memory);
        }
        let jobs = self.participants[who].give_bag(next);
        self.queue.push_back_reserved(Sealed { seal, jobs });
        outcome_at(next)
    }

    /// A participant's bag is queued under this seal, and it leaves the table.
    pub(crate) fn leave(&mut self, who: usize, seal: u64) -> Outcome
        requires in_table { who < length self.old.table }
        ensures outcome { result ≡ Outcome.Done ⊎ (result ≡ Outcome.Refused Fault.Memory) }
        ensures done { result ≡ Outcome.Done → self.new ≡ released self.old who seal }
        ensures refused { result ≡ Outcome.Refused Fault.Memory → (self.old.room ≡ 0) × (self.new ≡ in_phase self.old who Phase.Idle) }
    {
        if self.queue.reserve().is_err() {
            self.participants[who].phase = Phase::Idle;
            return Outcome::Refused(Fault::Memory);
        }
        let place = &mut self.participants[who];
        let Participant { bag, .. } = mem::replace(place, Participant::blank());
        self.queue.push_back_reserved(Sealed { seal, jobs: bag });
        Outcome::Done
    }
}
