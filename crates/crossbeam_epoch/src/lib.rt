//! Epoch-based reclamation, twice: as a machine of atomic steps, `World`, and for real threads under the
//! names of `crossbeam-epoch`, `Collector` and what belongs to it.
//!
//! The question is when a value may be destroyed that others may still look at. Here nobody counts who looks. There is
//! one number, the epoch, and each participant has a word in a table. Whoever wants to look pins: its word says "pinned
//! at e", the epoch as it was read. Whoever has taken a value out of everybody's reach doesn't destroy it but defers
//! that: the job goes into the participant's bag, and a full bag, or a flushed one, is sealed with the epoch as it is
//! then and queued.
//!
//! A collection tries to advance: it reads the epoch and looks at every word, and where nobody is pinned at another
//! epoch it raises the epoch by one. So while a participant stays pinned the epoch rises once at most. Then it takes
//! bags off the queue's front whose seal is two or more behind, eight at most, and calls their jobs. Such a bag was
//! filled before whoever is pinned now had pinned, so nobody who could have had the value in hand is still there.
//!
//! In `world` each of these is a step of one machine over cells with names, so that laws can say what holds over any
//! steps of any participants. `face` has the same for threads: pinning, loading and reading take no lock, free cells and the
//! queue of bags stand under one. The two share bags and their queue, the numbers of cells, jobs, limits and names.
#![tactic(auto)]

mod bag;
mod chain;
mod face;
mod fault;
mod limits;
mod names;
mod tag;
mod task;
mod world;

pub use bag::{BAG, Bag, Deferral, Sealed, Work};
pub use face::{
    Atomic, Collector, CompareAndSetError, CompareAndSetOrdering, CompareExchangeError, Exchanged,
    Guard, Lent, LentMut, Link, LocalHandle, Note, Owned, Pointer, Shared, Site, Tagged,
    Unprotected, unprotected,
};
pub use fault::Fault;
pub use limits::Limits;
pub use names::{Links, Name, Pointable, Ptr};
pub use task::{Job, Task};
pub use world::{
    Cell, Event, Op, OtherPointer, Outcome, Participant, Phase, Ran, Report, Step, World,
};
