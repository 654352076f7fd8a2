//! A call in flight, and what its steps told.

use super::told::{Standing, takes};
use super::{Index, answer_of, beginning, going, noise, op_of};
use congee::Noise;
use joint::{Id, Op};
use judge::{Call, Entry, Reply};

/// The most places of a scan.
const PLACES: usize = 4;

/// A call of a worker.
#[derive(Clone, Copy)]
pub struct Flight {
    pub worker: u32,
    op: Op<u64>,
    /// The call on a key, where it is one.
    call: Option<Call<u64>>,
    pub standing: Standing,
    /// How often it took effect, and the turn at which it did so last.
    pub effects: u32,
    pub turn: u32,
    /// Its steps since it began and has secured places for the nodes that it may take out.
    pub steps: u32,
    /// Whether one of these came before the other call took effect, and whether one came after.
    pub saw_before: bool,
    pub saw_after: bool,
    /// The pair that a scan told last for each place, how many places have one, and whether one was told again.
    pub found: [(u64, u64); PLACES],
    filled: usize,
    pub again: bool,
}

impl Flight {
    fn of(worker: u32, op: Op<u64>, call: Option<Call<u64>>) -> Flight {
        Flight {
            worker,
            op,
            call,
            standing: Standing::Unit,
            effects: 0,
            turn: 0,
            steps: 0,
            saw_before: false,
            saw_after: false,
            found: [(0, 0); PLACES],
            filled: 0,
            again: false,
        }
    }

    /// A call on a key that has not begun.
    pub fn on_key(worker: u32, call: Call<u64>) -> Flight {
        Flight::of(worker, op_of(call), Some(call))
    }

    /// A scan that has not begun.
    pub fn scan(worker: u32, op: Op<u64>) -> Flight {
        Flight::of(worker, op, None)
    }

    /// What its closure answers.
    pub fn answer(&self) -> Option<Option<u64>> {
        match self.call {
            Some(call) => answer_of(call),
            None => None,
        }
    }

    /// Begins it; one that writes secures its places.
    pub fn begin(&mut self, index: &mut Index) {
        self.standing = takes(index, beginning(self.worker, self.op)).standing;
        if !matches!(self.call, None | Some(Call::Get(_))) {
            self.standing = takes(index, going(self.worker, noise(false, None))).standing;
        }
    }

    /// A step, to which this comes from outside, unless it has ended. `changed` tells whether the other call has taken effect.
    pub fn advance(&mut self, index: &mut Index, turn: u32, changed: bool, noise: Noise<Id, u64>) {
        if !self.standing.is_in_flight() {
            return;
        }
        let told = takes(index, going(self.worker, noise));
        self.standing = told.standing;
        self.steps = self.steps.saturating_add(1);
        self.saw_before |= !changed;
        self.saw_after |= changed;
        if told.decided {
            self.effects = self.effects.saturating_add(1);
            self.turn = turn;
        }
        if let Standing::Found(place, key, value) = told.standing {
            self.fill(place, (key, value));
        }
    }

    fn fill(&mut self, place: usize, pair: (u64, u64)) {
        if place < self.filled {
            self.again = true;
        } else {
            self.filled = place.saturating_add(1);
        }
        if let Some(found) = self.found.get_mut(place) {
            *found = pair;
        }
    }

    /// The call on a key with its reply, if it has one and took effect once.
    pub fn entry(&self) -> Option<Entry<u64>> {
        match (self.call, self.standing) {
            (Some(call), Standing::Replied(reply)) if self.effects == 1 => Some(entry(call, reply)),
            _ => None,
        }
    }
}

/// A call of worker 0, with its reply.
pub fn entry(call: Call<u64>, reply: Reply<u64>) -> Entry<u64> {
    Entry {
        worker: 0,
        call,
        reply,
    }
}
