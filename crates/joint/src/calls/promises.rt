//! Everything that is promised of one run, in one place.

ghost use Rattle.std.specs.Prelude.{◌≡◌, ℕ, List};
ghost use Rattle.joint.specs.declared.limits.Limits.{Limits};
ghost use Rattle.joint.specs.declared.steps.Report.{Report};
ghost use Rattle.joint.specs.declared.steps.Step.{Step};
ghost use Rattle.joint.specs.calls.Plain.{AreSame, AreUnrefused, answers, projection};
ghost use Rattle.joint.specs.calls.Promises.{KeepsPromises};
ghost use Rattle.joint.specs.world.World.{IsNew, Holds};
ghost use Rattle.joint.specs.calls.Runs.{IsRun};
ghost use Rattle.joint.specs.engine.Engine.{World};

use crate::calls::laws::{comes_back, runs_alone, runs_plain, runs_spare};
use congee::{Allocator, Payload, Small};

/// Every run from an index's opening on, of any workers' steps in any order: the calls on single keys that took effect answer
/// as one ordered map, in the order of their deciding steps, each within its call; scans give ascending pairs that stood
/// during them and skip no key that stood throughout; what an unrefused run tells depends on its steps on the tree alone;
/// no step destroys a node in use; rounds from a quiet state on leave tree nodes alone, and what waits in the unsealed bags
/// of other workers; and a call that is taken alone ends within its number of steps. Runs one after another are one run
/// (`runs_join`).
///
/// Two such runs of indexes with one greatest version, neither of which refuses anything, tell the same where their steps on
/// the tree are the same, whatever their collectors did.
pub fn keeps_promises<P: Payload + Small, A: Allocator>()
    ensures keeps { (limits : Limits) (s s' : World P) (steps : List (Step P)) (reports : List (Report P)) → IsNew limits s → Holds P.same_as P.always_copies s → IsRun P.same_as P.always_copies s steps reports s' → KeepsPromises P.same_as P.always_copies limits steps reports s' }
    ensures alike { (limits others : Limits) (s q : World P) (a b : List (Step P)) (told again : List (Report P)) → limits.version_max ≡ others.version_max → KeepsPromises P.same_as P.always_copies limits a told s → KeepsPromises P.same_as P.always_copies others b again q → AreUnrefused told → AreUnrefused again → projection a told ≡ projection b again → AreSame (answers a told) (answers b again) }
{
    runs_spare::<P, A>();
    comes_back::<P>();
    runs_alone::<P, A>();
    runs_plain::<P, A>();
}
