//! Why a call was refused.

use thiserror::Error;

/// A refusal. The collector is as it was, and what was handed in comes back.
#[derive(Clone, Copy, Debug, PartialEq, Eq, Drop, Error)]
pub enum Fault {
    /// Every place of the table is taken.
    #[error("every place of the table is taken")]
    TableFull,
    /// No usable cell is free.
    #[error("no usable cell is free")]
    CellsFull,
    /// A growth was refused.
    #[error("out of memory")]
    Memory,
    /// The participant has no guard out.
    #[error("the participant isn't pinned")]
    Unpinned,
    /// A pin or a securing began while a call of the participant is in flight.
    #[error("a call is in flight")]
    Busy,
    /// The participant has 65,535 guards out, or 2^64 - 1 jobs were deferred.
    #[error("the greatest count is reached")]
    Count,
    /// A participant leaves while a guard of it is out.
    #[error("a guard is out")]
    GuardOut,
    /// So many participants are registered.
    #[error("{0} participants are registered")]
    Registered(u32),
    /// There is no such participant, root or undestroyed name.
    #[error("no such participant, root or name")]
    Unknown,
    /// The guard is of another handle or collector.
    #[error("the guard is of another handle or collector")]
    Foreign,
    /// No call of the participant is in flight.
    #[error("no call is in flight")]
    Idle,
    /// A limit, or a number of places to secure, lies outside its bounds.
    #[error("outside the limits")]
    Limits,
    /// Another call than a pin or a securing was asked for while a call of the participant is in flight.
    #[error("the participant is in mid-call")]
    InCall,
}
