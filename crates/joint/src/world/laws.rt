//! What holds of the nodes in each state.

ghost use Rattle.joint.specs.nodes.Listing.{IsListOf};
ghost use Rattle.joint.specs.engine.Census.{waiting_nodes};
ghost use Rattle.joint.specs.engine.Engine.{World};
ghost use Rattle.joint.specs.world.Whereabouts.{AllSomewhere, IsWaiting};
ghost use Rattle.joint.specs.world.World.{Holds};

use crate::engine::call_laws;
use congee::{Payload, Small};

/// In each state each node that was ever made is in one place: held by the call that made it, in the tree, waiting for its
/// destruction, or destroyed.
pub fn whereabouts<P: Payload + Small>()
    ensures { (s : World P) → Holds P.same_as P.always_copies s → AllSomewhere s }
{
    call_laws::<P>();
}

/// In each state the nodes that wait are those that were handed over and those that calls have taken out of the tree, each
/// once.
pub fn waits<P: Payload + Small>()
    ensures { (s : World P) → Holds P.same_as P.always_copies s → IsListOf (IsWaiting s) (waiting_nodes s) }
{
    call_laws::<P>();
}
