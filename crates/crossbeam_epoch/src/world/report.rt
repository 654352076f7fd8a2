//! What a step is asked, and what it answers.

use crate::fault::Fault;
use crate::names::Name;

/// A call of a participant.
#[derive(Clone, Copy, Debug, PartialEq, Eq, Drop)]
pub enum Op {
    /// Takes a guard.
    Pin,
    /// Gives a guard back.
    Unpin,
    /// Pins a lone guard anew at the present epoch.
    Repin,
    /// Seals the bag and collects.
    Flush,
    /// Leaves the table.
    Release,
    /// Makes so many places of the bag free: 1 to 64.
    Secure(u8),
}

/// What a step is.
#[derive(Clone, Copy, Debug, PartialEq, Eq, Drop)]
pub enum Event {
    /// A call begins.
    Begin(Op),
    /// The call in flight takes a step.
    Go,
}

/// One step of a participant.
#[derive(Clone, Copy, Debug, PartialEq, Eq, Drop)]
pub struct Step {
    pub who: usize,
    pub event: Event,
}

/// How a call stands after a step.
#[derive(Clone, Copy, Debug, PartialEq, Eq, Drop)]
pub enum Outcome {
    /// The call is in flight.
    Running,
    /// The call ended.
    Done,
    /// The call or the step was refused.
    Refused(Fault),
}

/// What a step did.
#[derive(Clone, Copy, Debug, PartialEq, Eq, Drop)]
pub struct Report {
    /// The ticket of the job that the step called, and the name of the cell that it destroyed.
    pub called: Option<(u64, Option<Name>)>,
    pub outcome: Outcome,
}

/// What a run did.
#[derive(Drop)]
pub struct Ran {
    /// One report a step.
    pub reports: Vec<Report>,
    /// How many steps were taken.
    pub done: usize,
}
