//! How many nodes wait for their destruction.

ghost use Rattle.std.specs.Prelude.{◌≡◌, ◌*◌, ◌<◌, ◌≤◌, ◌∷◌, IfSome, length, map, slice_get};
ghost use Rattle.std.specs.List.{sum_by};
ghost use Rattle.std.specs.Option.{option_to_list};
ghost use Rattle.congee.specs.Heap.{Stands};
ghost use Rattle.joint.specs.engine.Census.{taken_at, waiting_nodes};
ghost use Rattle.joint.specs.nodes.Nodes.{nodes};
ghost use Rattle.joint.specs.nodes.Listing.{bytes_of};
ghost use Rattle.joint.specs.nodes.View.{id_number};
ghost use Rattle.joint.specs.engine.State.{state_of, EngineIntact, EngineCounted};

use crate::engine::Engine;
use crate::engine::census::Taken;
use crate::id::Id;
use congee::{Allocator, Payload, Small};

impl<P: Payload + Small, A: Allocator> Engine<P, A> {
    /// The nodes that were handed over, and those that calls have taken out of the tree and not yet handed over.
    pub(crate) fn waiting(&self) -> u64
        requires intact { EngineIntact P.same_as P.always_copies (state_of self.now) }
        requires counted { EngineCounted self.now.census (state_of self.now) }
        ensures { result ≡ length (waiting_nodes (state_of self.now)) }
    {
        self.nodes.handed() + self.census.taken.nodes
    }

    /// Their sizes, in bytes.
    pub(crate) fn waiting_bytes(&self) -> u64
        requires intact { EngineIntact P.same_as P.always_copies (state_of self.now) }
        requires counted { EngineCounted self.now.census (state_of self.now) }
        ensures { result ≡ sum_by (bytes_of self.now.nodes) (waiting_nodes (state_of self.now)) }
    {
        self.nodes.handed_bytes() + self.census.taken.bytes
    }

    /// The nodes that a worker's call has taken out of the tree and not yet handed over.
    #[inline(always)]
    pub(crate) fn taken(&self, who: usize) -> Taken
        requires intact { EngineIntact P.same_as P.always_copies (state_of self.now) }
        requires inside { who < length self.now.machines.items }
        ensures nodes { result.nodes ≡ length (taken_at (slice_get self.now.machines.items who)) }
        ensures bytes { result.bytes ≡ sum_by (bytes_of self.now.nodes) (taken_at (slice_get self.now.machines.items who)) }
        ensures few { result.nodes ≤ 2 }
        ensures small { result.bytes ≤ 2104 * 2 }
    {
        match self.machines[who].taken() {
            Some((node, next)) => self.weighed(node, next),
            None => Taken { nodes: 0, bytes: 0 },
        }
    }

    /// One node that stands, and another one where there is one.
    fn weighed(&self, node: Id, next: Option<Id>) -> Taken
        requires stands { Stands (nodes self.now.nodes (id_number node)) }
        requires stand { IfSome next (λ n. Stands (nodes self.now.nodes (id_number n))) }
        ensures nodes { result.nodes ≡ length (node ∷ option_to_list next) }
        ensures bytes { result.bytes ≡ sum_by (bytes_of self.now.nodes) (map id_number (node ∷ option_to_list next)) }
        ensures small { result.bytes ≤ 2104 * 2 }
    {
        let size = self.nodes.size_of(node);
        match next {
            None => Taken {
                nodes: 1,
                bytes: size,
            },
            Some(next) => Taken {
                nodes: 2,
                bytes: size + self.nodes.size_of(next),
            },
        }
    }
}
