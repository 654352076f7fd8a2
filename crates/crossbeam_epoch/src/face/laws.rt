//! What follows from the rule of the words.

ghost use Rattle.crossbeam_epoch.specs.face.Pins.{PinsHoldEpoch};

use crate::face::collector::Collector;
use crate::task::Task;

impl<T: Drop, J: Task> Collector<T, J> {
    /// While a pin is confirmed by q the epoch is q or q + 1, and no seat has seen a later one, whichever steps were taken.
    /// So what was sealed at q or later isn't expired for anybody.
    pub fn grace()
        ensures { PinsHoldEpoch }
    {}
}
