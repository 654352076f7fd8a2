//! What a worker asks of the machine, and what it is told.

ghost use Rattle.std.specs.Prelude.{◌≡◌};
ghost use Rattle.joint.specs.Changes.{changes};
ghost use Rattle.joint.specs.Reports.{reply_in, scanned_in, is_in_flight, target, told, collected};

use crate::id::Id;
use crate::refusal::Refusal;
use congee::{NodeStats, Noise};
use judge::Reply;
use std::vec::Vec;

/// One step of the machine.
#[derive(Drop)]
pub struct Step<P> {
    /// The worker's place in the table, counted from 0.
    pub worker: u32,
    pub event: Event<P>,
}

/// What happens in a step.
#[derive(Drop)]
pub enum Event<P> {
    /// A worker takes the lowest free place. The step's worker isn't looked at.
    Register,
    /// The worker begins a call.
    Begin(Op<P>),
    /// The worker's call in flight takes its next step.
    Go(Noise<Id, P>),
}

/// A call of a worker.
#[derive(Clone, Copy, Debug, PartialEq, Eq, Drop)]
pub enum Op<P> {
    /// Takes a guard.
    Pin,
    /// Gives a guard back.
    Unpin,
    /// Pins a lone guard anew at the present epoch.
    Repin,
    /// Seals the worker's bag, and collects.
    Flush,
    /// Leaves the table. What the worker removed waits on.
    Release,
    /// Looks the key up.
    Get(u64),
    /// Puts the value at the key.
    Insert(u64, P),
    /// Takes the key out.
    Remove(u64),
    /// Where the key is present, puts the closure's answer there, or takes the key out.
    ComputePresent(u64),
    /// Puts the closure's answer at the key, present or not.
    ComputeInsert(u64),
    /// Where the key has the old value, puts the new one there, or takes the key out at `None`.
    Exchange(u64, P, Option<P>),
    /// Finds the pairs from the first key up to the second, so many at most.
    Range(u64, u64, usize),
    /// Finds the pairs from the first key to the second, itself included, so many at most.
    RangeInclusive(u64, u64, usize),
    /// Tells all keys that stand at its one step. It wants no guard.
    Keys,
    /// Tells whether no key stands at its one step.
    IsEmpty,
    /// Counts the tree's nodes and pairs as they stand at its one step. It wants no guard.
    Stats,
}

/// What a call of one step tells of the tree as it stands.
#[derive(Clone, Copy, Debug, PartialEq, Eq, Drop)]
pub enum Survey {
    Keys,
    IsEmpty,
    Stats,
}

/// The layer that a call is of.
#[derive(Drop)]
pub enum Target<P> {
    Collector(crossbeam_epoch::Op),
    Tree(congee::Op<P>),
    Survey(Survey),
}

/// Whether a step is one of the tree or one of the collector.
#[derive(Clone, Copy, Debug, PartialEq, Eq, Drop)]
pub enum Kind {
    Tree,
    Collection,
}

/// What a step or a whole call tells.
#[derive(Debug, PartialEq, Eq, Drop)]
pub struct Report<P> {
    pub kind: Kind,
    /// Whether a call on one key took effect.
    pub decided: bool,
    /// Whether the journal keeps that call.
    pub kept: bool,
    /// Whether budget, cells or memory were missing for a node that would take the place of a greater one: the call goes on
    /// without it.
    pub skipped: bool,
    /// Nodes destroyed.
    pub destroyed: u64,
    /// How the worker's call stands.
    pub outcome: Outcome<P>,
}

/// How a worker's call stands after a step.
#[derive(Debug, PartialEq, Eq, Drop)]
pub enum Outcome<P> {
    /// The call is in flight.
    Running,
    /// The closure's answer is wanted, for the value that stands or for an absent key.
    Asks(Option<P>),
    /// A scan found a pair for a place; it is in flight.
    Found { place: usize, key: u64, value: P },
    /// The worker's place, counted from 0.
    Registered(u32),
    /// The call has ended.
    Done(Done<P>),
    /// The call or the step was refused, and no pair has changed.
    Refused(Refusal),
}

/// The answer of a call.
#[derive(Debug, PartialEq, Eq, Drop)]
pub enum Done<P> {
    /// Of a pin, an unpin, a repin, a flush or a release.
    Unit,
    /// Of a call on one key.
    Reply(Reply<P>),
    /// Of a scan: places filled.
    Scanned(usize),
    /// All keys, ascending.
    Keys(Vec<u64>),
    /// Whether there is no key.
    Empty(bool),
    /// How the nodes are spread over levels and forms, and how many pairs there are.
    Stats(NodeStats),
}

/// What a list of steps told.
#[derive(Drop)]
pub struct Ran<P> {
    /// One report a step.
    pub reports: Vec<Report<P>>,
    /// Steps taken.
    pub done: usize,
}

impl<P> Op<P> {
    /// Whether the call may change what stands at its key.
    pub(crate) fn changes(&self) -> bool
        ensures { result ≡ changes self.now }
    {
        match self {
            Op::Insert(..)
            | Op::Remove(_)
            | Op::ComputePresent(_)
            | Op::ComputeInsert(_)
            | Op::Exchange(..) => true,
            // It looks at pairs, or is no call on the tree.
            _ => false,
        }
    }

    /// The same call as its layer names it.
    pub(crate) fn target(self) -> Target<P>
        ensures { result ≡ target self }
    {
        match self {
            Op::Pin => Target::Collector(crossbeam_epoch::Op::Pin),
            Op::Unpin => Target::Collector(crossbeam_epoch::Op::Unpin),
            Op::Repin => Target::Collector(crossbeam_epoch::Op::Repin),
            Op::Flush => Target::Collector(crossbeam_epoch::Op::Flush),
            Op::Release => Target::Collector(crossbeam_epoch::Op::Release),
            Op::Get(key) => Target::Tree(congee::Op::Get(key)),
            Op::Insert(key, value) => Target::Tree(congee::Op::Insert(key, value)),
            Op::Remove(key) => Target::Tree(congee::Op::Remove(key)),
            Op::ComputePresent(key) => Target::Tree(congee::Op::ComputePresent(key)),
            Op::ComputeInsert(key) => Target::Tree(congee::Op::ComputeInsert(key)),
            Op::Exchange(key, old, new) => Target::Tree(congee::Op::Exchange(key, old, new)),
            Op::Range(start, end, size) => Target::Tree(congee::Op::Range(start, end, size)),
            Op::RangeInclusive(start, last, size) => {
                Target::Tree(congee::Op::RangeInclusive(start, last, size))
            }
            Op::Keys => Target::Survey(Survey::Keys),
            Op::IsEmpty => Target::Survey(Survey::IsEmpty),
            Op::Stats => Target::Survey(Survey::Stats),
        }
    }
}

impl<P: Drop> Report<P> {
    /// The reply with which a call on one key has ended, if that is how it stands.
    pub fn reply(self) -> Option<Reply<P>>
        ensures { result ≡ reply_in self.outcome }
    {
        let Report { outcome, .. } = self;
        match outcome {
            Outcome::Done(Done::Reply(reply)) => Some(reply),
            other => {
                drop(other);
                None
            }
        }
    }
}

impl<P: Drop> Report<P> {
    /// How many of its places a scan has filled, if it has ended so.
    pub fn scanned(self) -> Option<usize>
        ensures { result ≡ scanned_in self.outcome }
    {
        let Report { outcome, .. } = self;
        match outcome {
            Outcome::Done(Done::Scanned(count)) => Some(count),
            other => {
                drop(other);
                None
            }
        }
    }
}

impl<P> Outcome<P> {
    /// Whether a call that stands so is in flight.
    pub fn is_in_flight(&self) -> bool
        ensures { result ≡ is_in_flight self.now }
    {
        match self {
            Outcome::Running => true,
            Outcome::Asks(_) => true,
            Outcome::Found { .. } => true,
            Outcome::Registered(_) => false,
            Outcome::Done(_) => false,
            Outcome::Refused(_) => false,
        }
    }

    /// How a call on the tree stands.
    #[inline(always)]
    pub(crate) fn of_tree(outcome: congee::Outcome<P>) -> Self
        ensures { result ≡ told outcome }
    {
        match outcome {
            congee::Outcome::Running => Outcome::Running,
            congee::Outcome::Asks(found) => Outcome::Asks(found),
            congee::Outcome::Found { place, key, value } => Outcome::Found { place, key, value },
            congee::Outcome::Done(reply) => Outcome::Done(Done::Reply(reply)),
            congee::Outcome::Scanned { count } => Outcome::Done(Done::Scanned(count)),
            congee::Outcome::Refused(refusal) => Outcome::Refused(Refusal::of_tree(refusal)),
        }
    }

    /// How a call on the collector stands.
    pub(crate) fn of_collector(outcome: crossbeam_epoch::Outcome) -> Self
        ensures { result ≡ collected outcome }
    {
        match outcome {
            crossbeam_epoch::Outcome::Running => Outcome::Running,
            crossbeam_epoch::Outcome::Done => Outcome::Done(Done::Unit),
            crossbeam_epoch::Outcome::Refused(fault) => Outcome::Refused(Refusal::of_fault(fault)),
        }
    }
}
