//! The pair next to a key, of those that stand.

ghost use Rattle.joint.specs.engine.Looks.{Looks};
ghost use Rattle.joint.specs.engine.State.{state_of, EngineIntact};
ghost use Rattle.joint.specs.nodes.Nearest.{IsNearest};

use crate::engine::Engine;
use crate::nodes::nearest::Near;
use crate::refusal::Refusal;
use congee::{Allocator, Payload, Small};

impl<P: Payload + Small, A: Allocator> Engine<P, A> {
    /// The nearest pair, for a worker that may look. Refused as Unknown, Busy or Unpinned for its first cause, and as Count
    /// where the value can't have an owner more.
    pub(crate) fn nearest(&self, who: usize, near: Near) -> Result<Option<(u64, P)>, Refusal>
        requires { EngineIntact P.same_as P.always_copies (state_of self.now) }
        ensures { Looks P.always_copies (state_of self.now) who (λ m pair. IsNearest m near pair) result }
    {
        if !self.nodes.collector.is_registered(who) {
            return Err(Refusal::Unknown);
        }
        if self.is_busy(who) {
            return Err(Refusal::Busy);
        }
        if !self.nodes.collector.is_pinned(who) {
            return Err(Refusal::Unpinned);
        }
        let Some((key, value)) = self.nodes.nearest(near) else {
            return Ok(None);
        };
        match value.copy() {
            Some(value) => Ok(Some((key, value))),
            None => Err(Refusal::Count),
        }
    }
}
