//! What a worker is about between two of its steps.

use congee::Op;

/// A worker's call in flight.
#[derive(Drop)]
pub enum InFlight<P> {
    /// There is none.
    Idle,
    /// A call on the collector.
    Collecting(crossbeam_epoch::Op),
    /// A writing call that has taken no step.
    Reserving(Op<P>),
    /// A writing call, while places for the nodes that it may hand over are made free.
    Securing(Op<P>),
    /// A call on the tree.
    Walking,
}
