//! Guards.

ghost use Rattle.std.specs.Prelude.{◌≡◌, IsSomeAnd};

use crate::face::collector::Collector;
use crate::face::unguarded::Unprotected;
use crate::task::{Job, Task};
use std::fmt;
use std::fmt::{Debug, Formatter};

/// A row of a collector's table, by its place.
#[derive(Clone, Copy, PartialEq, Eq, Drop)]
pub struct Row {
    /// The collector's identity number.
    pub collector: u64,
    pub place: u32,
}

/// Keeps a participant pinned (the source's `Guard`). It is spent by `LocalHandle::unpin`, and can't be dropped.
pub struct Guard<'c, T, J: Task = Job> {
    pub(crate) collector: &'c Collector<T, J>,
    pub(crate) row: Row,
    pub(crate) epoch: u64,
}

impl<'c, T: Drop, J: Task> Guard<'c, T, J> {
    /// A guard of this row, whose pin was confirmed by this epoch.
    pub(crate) fn new(collector: &'c Collector<T, J>, row: Row, epoch: u64) -> Self
        ensures { (result.collector ≡ collector.entry) × (result.row ≡ row) × (result.epoch ≡ epoch) }
    {
        Guard {
            collector,
            row,
            epoch,
        }
    }

    /// An epoch that was read after the pin was published.
    pub fn pinned_at(&self) -> u64
        ensures { result ≡ self.now.epoch }
    {
        self.epoch
    }

    /// Ends a guard that no handle takes; its participant stays pinned.
    pub(crate) fn forget(self) {
        let Guard {
            collector: _,
            row: _,
            epoch: _,
        } = self;
    }

    /// The collector of its handle.
    pub fn collector(&self) -> Option<&'c Collector<T, J>>
        ensures { IsSomeAnd result (λ c. c.now ≡ self.now.collector.now) }
    {
        Some(self.collector)
    }
}

/// What puts nothing off, for a collector that nobody else uses.
pub fn unprotected() -> Unprotected {
    Unprotected
}

impl<T, J: Task> Debug for Guard<'_, T, J> {
    fn fmt<W: fmt::Write>(&self, f: &mut Formatter<W>) -> fmt::Result {
        f.debug_struct("Guard").finish()
    }
}
