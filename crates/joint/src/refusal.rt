//! Why a call is refused.

ghost use Rattle.std.specs.Prelude.{◌≡◌};
ghost use Rattle.joint.specs.Refusals.{of_tree, of_fault};

use crossbeam_epoch::Fault;
use thiserror::Error;

/// Why a call was refused.
#[derive(Clone, Copy, Debug, PartialEq, Eq, Drop, Error)]
pub enum Refusal {
    /// Every place of the table is taken.
    #[error("every worker's place is taken")]
    TableFull,
    /// A growth was refused: of a new index, of the queue of bags, or of a node.
    #[error("out of memory")]
    Memory,
    /// The bytes charged and the bytes wanted together exceed the limit.
    #[error("{charged} bytes are charged, and {wanted} more exceed the limit of {limit}")]
    Budget {
        charged: u64,
        wanted: u64,
        limit: u64,
    },
    /// No usable cell is free for a node.
    #[error("no cell is free")]
    Cells,
    /// The version of a node that was to be locked is the greatest.
    #[error("no version is left")]
    Exhausted,
    /// The worker has no pin.
    #[error("the worker isn't pinned")]
    Unpinned,
    /// A pin or a call on the tree began while a call of the worker is in flight.
    #[error("a call is in flight")]
    Busy,
    /// An unpin, a repin, a flush or a release began while a call of the worker is in flight.
    #[error("the worker is in mid-call")]
    InCall,
    /// So many workers are registered.
    #[error("{0} workers are registered")]
    WorkersLeft(u32),
    /// No such worker is registered.
    #[error("no such worker is registered")]
    Unknown,
    /// The worker's guards stand at 65,535, or no more owners of a value can be counted.
    #[error("the greatest count is reached")]
    Count,
    /// The worker or the guard is of another index, or the guard of another worker.
    #[error("the worker or the guard is of another index")]
    Foreign,
    /// The worker leaves while a guard of it is out.
    #[error("a guard is out")]
    GuardOut,
    /// No place of the journal is free for a writing call.
    #[error("the journal is full")]
    JournalFull,
    /// No call of the worker is in flight.
    #[error("no call is in flight")]
    Idle,
    /// A limit is out of its range.
    #[error("a limit is out of its range")]
    Limits,
    /// A share of a ledger lacks so many of its parts.
    #[error("a share lacks {0} parts")]
    SharesLeft(u32),
}

impl Refusal {
    /// Why a call on the tree was refused.
    pub(crate) fn of_tree(refusal: congee::Refusal) -> Self
        ensures { result ≡ of_tree refusal }
    {
        match refusal {
            congee::Refusal::Budget {
                charged,
                wanted,
                limit,
            } => Refusal::Budget {
                charged,
                wanted,
                limit,
            },
            congee::Refusal::Cells => Refusal::Cells,
            congee::Refusal::Memory => Refusal::Memory,
            congee::Refusal::Exhausted => Refusal::Exhausted,
            congee::Refusal::Count => Refusal::Count,
        }
    }

    /// Why a call on the collector was refused.
    pub(crate) fn of_fault(fault: Fault) -> Self
        ensures { result ≡ of_fault fault }
    {
        match fault {
            Fault::TableFull => Refusal::TableFull,
            Fault::CellsFull => Refusal::Cells,
            Fault::Memory => Refusal::Memory,
            Fault::Unpinned => Refusal::Unpinned,
            Fault::Busy => Refusal::Busy,
            Fault::Count => Refusal::Count,
            Fault::GuardOut => Refusal::GuardOut,
            Fault::Registered(left) => Refusal::WorkersLeft(left),
            Fault::Unknown => Refusal::Unknown,
            Fault::Foreign => Refusal::Foreign,
            Fault::Idle => Refusal::Idle,
            Fault::Limits => Refusal::Limits,
            Fault::InCall => Refusal::InCall,
        }
    }
}
