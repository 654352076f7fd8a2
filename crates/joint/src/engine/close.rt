//! The end of the calls: nobody is registered any more, and the nodes are let go.

ghost use Rattle.std.specs.Prelude.{◌≡◌};
ghost use Rattle.crossbeam_epoch.specs.world.Ending.{registered_in};
ghost use Rattle.joint.specs.engine.Closing.{IsClosed};
ghost use Rattle.joint.specs.engine.Intact.{IsIntact};
ghost use Rattle.joint.specs.engine.State.{state_of, EngineIntact};

use crate::engine::Engine;
use congee::{Allocator, Drainer, Payload, Small};

impl<P: Payload + Small, A: Allocator> Engine<P, A> {
    /// How many workers are registered.
    pub(crate) fn registered(&self) -> u32
        requires { EngineIntact P.same_as P.always_copies (state_of self.now) }
        ensures { result ≡ registered_in self.now.nodes.collector }
    {
        let mut registered = 0;
        for n in 0..self.calls.len() {
            if self.nodes.collector.is_registered(n) {
                registered += 1;
            }
        }
        registered
    }

    /// Hands each pair to the drainer, in ascending order of the keys, and gives the allocator back with the charge that it had
    /// before the first node.
    pub(crate) fn close<D: Drainer<u64, P>>(self, drainer: D) -> (A, D)
        requires intact { IsIntact P.same_as P.always_copies self.nodes self.machines.items self.calls.items }
        requires no_worker { registered_in self.nodes.collector ≡ 0 }
        requires ready { D.can_drain drainer }
        ensures { IsClosed D.drains (state_of self) drainer (A.charged_of result.0) (A.limit_of result.0) result.1 }
    {
        let Engine { mut nodes, .. } = self;
        let drainer = nodes.drain(drainer);
        (nodes.release(), drainer)
    }
}
