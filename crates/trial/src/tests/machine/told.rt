//! What the machine's steps tell, as values that can be copied.

use super::Index;
use joint::{Done, Kind, Outcome, Refusal, Report, Step};
use judge::Reply;

/// How a worker's call stands after a step, without what a survey tells.
#[derive(Clone, Copy, Debug, PartialEq, Eq)]
pub enum Standing {
    Running,
    Asks(Option<u64>),
    Found(usize, u64, u64),
    Registered(u32),
    Unit,
    Replied(Reply<u64>),
    Scanned(usize),
    Surveyed,
    Refused(Refusal),
}

impl Standing {
    pub fn of(outcome: Outcome<u64>) -> Standing {
        match outcome {
            Outcome::Running => Standing::Running,
            Outcome::Asks(found) => Standing::Asks(found),
            Outcome::Found { place, key, value } => Standing::Found(place, key, value),
            Outcome::Registered(worker) => Standing::Registered(worker),
            Outcome::Done(Done::Unit) => Standing::Unit,
            Outcome::Done(Done::Reply(reply)) => Standing::Replied(reply),
            Outcome::Done(Done::Scanned(count)) => Standing::Scanned(count),
            Outcome::Done(_) => Standing::Surveyed,
            Outcome::Refused(refusal) => Standing::Refused(refusal),
        }
    }

    pub fn is_in_flight(self) -> bool {
        matches!(
            self,
            Standing::Running | Standing::Asks(_) | Standing::Found(_, _, _)
        )
    }
}

/// What a step tells.
#[derive(Clone, Copy)]
pub struct Told {
    pub is_of_tree: bool,
    pub decided: bool,
    pub kept: bool,
    pub skipped: bool,
    pub destroyed: u64,
    pub standing: Standing,
}

/// A step.
pub fn takes(index: &mut Index, step: Step<u64>) -> Told {
    let Report {
        kind,
        decided,
        kept,
        skipped,
        destroyed,
        outcome,
    } = index.step(step);
    Told {
        is_of_tree: kind == Kind::Tree,
        decided,
        kept,
        skipped,
        destroyed,
        standing: Standing::of(outcome),
    }
}

/// Bytes charged, nodes that wait for their destruction, and their bytes.
pub type State = (u64, u64, u64);

pub fn state(index: &Index) -> State {
    (index.charged(), index.waiting(), index.waiting_bytes())
}
