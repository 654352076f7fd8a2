//! What one handle tells another of the epochs that it saw.

ghost use Rattle.std.specs.Prelude.{◌≡◌};
ghost use Rattle.crossbeam_epoch.specs.face.Pins.{newcomer, with_seen};
ghost use Rattle.crossbeam_epoch.specs.face.Tokens.{known, IsOf};

use crate::face::collector::Collector;
use crate::face::seats::Token;
use crate::task::{Job, Task};

/// The epoch that a handle saw last, for another handle of its collector, in this thread or in another one.
#[derive(Drop)]
pub struct Note<'c, T, J: Task = Job> {
    pub(crate) collector: &'c Collector<T, J>,
    pub(crate) token: Token,
    ghost of: { IsOf collector.now.pins.words.shared.table_id token },
    ghost is: { known token ≡ with_seen newcomer (known token).seen },
}

impl<'c, T: Drop, J: Task> Note<'c, T, J> {
    /// The note of this seat, which has no place.
    pub(crate) fn new(collector: &'c Collector<T, J>, token: Token) -> Self
        requires of { IsOf collector.now.pins.words.shared.table_id token }
        requires is { known token ≡ with_seen newcomer (known token).seen }
        ensures { (result.collector ≡ collector.entry) × (result.token ≡ token) }
    {
        Note { collector, token }
    }
}
