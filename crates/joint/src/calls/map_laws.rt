//! What whole calls mean.

ghost use Rattle.std.specs.Prelude.{◌≡◌, ℕ, List, None, Some, [], ◌∷◌};
ghost use Rattle.std.specs.FinMap.{empty};
ghost use Rattle.judge.specs.Answer.{Pairs};
ghost use Rattle.congee.specs.Keys.{IsMapOf};
ghost use Rattle.joint.specs.declared.steps.Done.TheVariants.{Scanned};
ghost use Rattle.joint.specs.declared.steps.Event.TheVariants.{Register};
ghost use Rattle.joint.specs.declared.steps.Op.{Op};
ghost use Rattle.joint.specs.declared.steps.Outcome.TheVariants.{Done};
ghost use Rattle.joint.specs.declared.steps.Report.{Report};
ghost use Rattle.joint.specs.nodes.Nodes.{nodes};
ghost use Rattle.joint.specs.calls.MapCalls.{AreOfCall, HasScanned, KeepsAll, PlaysCall, answered_after, told_after, told_places};
ghost use Rattle.joint.specs.Reports.{range_of, target};
ghost use Rattle.joint.specs.calls.Runs.{Taken, AreTaken, after_all};
ghost use Rattle.joint.specs.engine.Engine.{IsFresh, World};
ghost use Rattle.joint.specs.engine.Flying.{Flights, AreInFlight, no_flights};
ghost use Rattle.joint.specs.world.World.{Holds, IsStep};

use congee::{Payload, Small};

/// A call on one key that no other worker's step comes between answers as the map of the pairs that stood, with its
/// closure's last answer; where it is done, the next map's pairs stand. A refused call and one of any other kind leave the
/// pairs; a scan that is done has told the first pairs of its range. Once a call has ended, the calls in flight are those
/// that were. A registration leaves both. In a fresh index no pair stands, and no call is in flight.
pub fn calls_map<P: Payload + Small>()
    ensures plays { (s : World P) (first : Taken P) (more : List (Taken P)) (fs : Flights P) (m : Pairs P) (who : ℕ) (op : Op P) → Holds P.same_as P.always_copies s → AreTaken P.same_as P.always_copies s (first ∷ more) → IsMapOf (nodes s.forest) m → AreInFlight s fs → AreOfCall who op first more → PlaysCall P.same_as fs m who (answered_after first.report.outcome None more) (target op) (told_after first.report.outcome more) (after_all s (first ∷ more)) }
    ensures scan { (s : World P) (first : Taken P) (more : List (Taken P)) (fs : Flights P) (m : Pairs P) (who : ℕ) (op : Op P) (start end size count : ℕ) → Holds P.same_as P.always_copies s → AreTaken P.same_as P.always_copies s (first ∷ more) → IsMapOf (nodes s.forest) m → AreInFlight s fs → range_of op ≡ Some (start, end, size) → AreOfCall who op first more → told_after first.report.outcome more ≡ Done (Scanned count) → HasScanned start end size count m (told_places [] more) }
    ensures registers { (s : World P) (who : ℕ) (r : Report P) (s' : World P) (fs : Flights P) (m : Pairs P) → Holds P.same_as P.always_copies s → IsStep P.same_as P.always_copies s (record { worker = who; event = Register }) r s' → IsMapOf (nodes s.forest) m → AreInFlight s fs → KeepsAll fs m s' }
    ensures fresh { (s : World P) → IsFresh s → IsMapOf (nodes s.forest) empty × AreInFlight s no_flights }
{}
