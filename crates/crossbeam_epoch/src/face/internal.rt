//! What a collector keeps under its lock.
//!
//! The names that cells have yet to give, and the bags that were sealed: each with an epoch that its participant
//! read after the last deferral, so every guard that was out at one of its deferrals was confirmed by that
//! epoch or an earlier one. While a guard is out the epoch stays at most one past the one that confirmed its pin, so a bag
//! whose seal is two behind was filled before every pin of now.

ghost use Rattle.std.specs.Prelude.{◌≡◌, [], IfOk};
ghost use Rattle.crossbeam_epoch.specs.world.Store.{opened_store};

use crate::face::queue::Queue;
use crate::limits::Limits;
use crate::task::Task;
use crate::world::cells::Cells;
use std::alloc::{AllocError, Global};

/// The free cells and the queue of a collector.
#[derive(Drop)]
pub struct Internal<J: Task> {
    /// The cells whose names are given, each with nothing in it: the values stand beside the lock.
    pub free: Cells<()>,
    pub queue: Queue<J>,
}

/// That the names of so many cells are given, with turns up to the last one.
#[derive(Clone, Copy, Drop)]
pub struct Names {
    cells: u32,
    turn_max: u32,
}

impl<J: Task> Internal<J> {
    /// The cells that these limits allow, which are free, and no bag.
    pub fn new(alloc: Global, limits: &Limits) -> Result<(Internal<J>, Names), AllocError>
        ensures free { IfOk result (λ i. i.0.free ≡ opened_store limits.now.cells limits.now.turn_max) }
        ensures bags { IfOk result (λ i. i.0.queue.bags.items ≡ []) }
        ensures names { IfOk result (λ i. (i.1.cells ≡ limits.now.cells) × (i.1.turn_max ≡ limits.now.turn_max)) }
    {
        let (cells, turn_max) = (limits.cells, limits.turn_max);
        let internal = Internal {
            free: Cells::new(alloc, cells, turn_max)?,
            queue: Queue::new(alloc),
        };
        Ok((internal, Names { cells, turn_max }))
    }
}
