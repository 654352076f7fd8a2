//! What any list of steps of the machine means.

ghost use Rattle.std.specs.Prelude.{◌≡◌, ◌≤◌, ℕ, List, Option, [], ◌∷◌, ◌++◌, length};
ghost use Rattle.std.specs.FinMap.{empty, len};
ghost use Rattle.judge.specs.Answer.{Pairs};
ghost use Rattle.judge.specs.Journal.{Legal};
ghost use Rattle.congee.specs.Heap.{Node};
ghost use Rattle.congee.specs.Keys.{IsMapOf};
ghost use Rattle.congee.specs.protocol.Alone.{tree_nodes, tree_pairs};
ghost use Rattle.congee.specs.protocol.PlainSteps.{Plain};
ghost use Rattle.joint.specs.declared.limits.Limits.{Limits};
ghost use Rattle.joint.specs.declared.steps.Op.{Op};
ghost use Rattle.joint.specs.declared.steps.Report.{Report};
ghost use Rattle.joint.specs.declared.steps.Step.{Step};
ghost use Rattle.joint.specs.calls.Alone.{AllEndAlone, CallEndsAlone};
ghost use Rattle.joint.specs.calls.Calling.{IsCalled};
ghost use Rattle.joint.specs.nodes.Nodes.{nodes};
ghost use Rattle.joint.specs.nodes.Levels.{nodes_of};
ghost use Rattle.joint.specs.engine.Census.{waiting_nodes};
ghost use Rattle.joint.specs.nodes.Opening.{IsOpened};
ghost use Rattle.joint.specs.calls.Plain.{Agree, AreSame, AreTold, AreUnrefused, FollowsRun, answers, opened_plain, projection};
ghost use Rattle.joint.specs.calls.Rounds.{IsQuiet, Round, AreRounds, steps_in, bags_left, rounds_wanted, CameBack};
ghost use Rattle.joint.specs.calls.Runs.{Taken, AreTaken, after_all, IsRun, IsMapRun, entries, pairs_after, PlaysMap, AllHold, AllSpare};
ghost use Rattle.joint.specs.world.MapSteps.{Line};
ghost use Rattle.joint.specs.engine.Engine.{IsFresh, World};
ghost use Rattle.joint.specs.engine.Flying.{Flights, AreInFlight, no_flights};
ghost use Rattle.joint.specs.calls.Scans.{ScansHold, EmptyScansHold};
ghost use Rattle.joint.specs.world.World.{Holds};

use crate::engine::{call_laws, progress};
use crate::id::Id;
use crate::nodes::Nodes;
use crate::nodes::slot::Slot;
use congee::{Allocator, Machine, Payload, Small};

/// A list of steps is the run of a map: calls that took effect answer as one map, in the order of their deciding steps,
/// and each scan found what it promises.
pub fn runs_map<P: Payload + Small>()
    ensures plays { (s : World P) (taken : List (Taken P)) (fs : Flights P) (m : Pairs P) → Holds P.same_as P.always_copies s → AreTaken P.same_as P.always_copies s taken → IsMapOf (nodes s.forest) m → AreInFlight s fs → PlaysMap P.same_as fs m s taken }
    ensures fresh { (s : World P) (taken : List (Taken P)) → IsFresh s → Holds P.same_as P.always_copies s → AreTaken P.same_as P.always_copies s taken → PlaysMap P.same_as no_flights empty s taken }
    ensures scans { (fs : Flights P) (m : Pairs P) (lines : List (Line P)) (fs' : Flights P) → IsMapRun P.same_as fs m lines fs' → ScansHold lines × EmptyScansHold lines }
    ensures legal { (fs : Flights P) (m : Pairs P) (lines : List (Line P)) (fs' : Flights P) → IsMapRun P.same_as fs m lines fs' → Legal P.same_as m (entries lines) (pairs_after m lines) }
{}

/// Runs one after another are a run, and in each state of it holds what always does.
pub fn runs_join<P: Payload + Small>()
    ensures joins { (s s1 s2 : World P) (a b : List (Step P)) (q r : List (Report P)) → IsRun P.same_as P.always_copies s a q s1 → IsRun P.same_as P.always_copies s1 b r s2 → IsRun P.same_as P.always_copies s (a ++ b) (q ++ r) s2 }
    ensures holds { (s : World P) (taken : List (Taken P)) → AreTaken P.same_as P.always_copies s taken → AllHold P.same_as P.always_copies taken }
{}

/// No step of a run destroys a node in use.
pub fn runs_spare<P: Payload + Small, A: Allocator>()
    ensures { (s : World P) (taken : List (Taken P)) → Holds P.same_as P.always_copies s → AreTaken P.same_as P.always_copies s taken → AllSpare s taken }
{
    Machine::<Id, P>::leaves::<Nodes<P, A>>();
}

/// A call whose steps nobody else's come between, while no other call holds a lock, ends within its number of steps.
pub fn runs_alone<P: Payload + Small, A: Allocator>()
    ensures runs { (s : World P) (taken : List (Taken P)) → Holds P.same_as P.always_copies s → AreTaken P.same_as P.always_copies s taken → AllEndAlone s taken }
    ensures calls { (s : World P) (who : ℕ) (op : Op P) (most : ℕ) (places : List (ℕ × P)) (result : Option (Report P)) (places' : List (ℕ × P)) (s' : World P) → Holds P.same_as P.always_copies s → IsCalled P.same_as P.always_copies s who op most places result places' s' → CallEndsAlone s who op most result }
{
    call_laws::<P>();
    progress::<P>();
    Machine::<Id, P>::alone::<Nodes<P, A>>();
}

/// The nodes of a tree that bound a scan alone are those that statistics count.
pub fn counts_nodes<P: Payload + Small>()
    ensures { (h : ℕ → Node P) → tree_nodes h ≡ length (nodes_of h) }
{}

/// In each state the values in the tree that bound a scan alone are as many as the pairs that stand there.
pub fn counts_pairs<P: Payload + Small>()
    ensures { (s : World P) (m : Pairs P) → Holds P.same_as P.always_copies s → IsMapOf (nodes s.forest) m → tree_pairs (nodes s.forest) ≡ len m }
{
    Machine::<Id, P>::counts_pairs();
}

/// Memory comes back: after two whole rounds of one worker from a quiet state on, and one more for each eight bags that are
/// queued after the first flush, or nodes that waited, each node that stands is in the tree, or waits in the unsealed bag of
/// another worker.
pub fn comes_back<P: Payload + Small>()
    ensures bags { (s : World P) (who : ℕ) (rounds : List (Round P)) → Holds P.same_as P.always_copies s → IsQuiet s → AreRounds who rounds → AreTaken P.same_as P.always_copies s (steps_in rounds) → rounds_wanted (bags_left s rounds) ≤ length rounds → CameBack (after_all s (steps_in rounds)) who }
    ensures nodes { (s : World P) (who : ℕ) (rounds : List (Round P)) → Holds P.same_as P.always_copies s → IsQuiet s → AreRounds who rounds → AreTaken P.same_as P.always_copies s (steps_in rounds) → rounds_wanted (length (waiting_nodes s)) ≤ length rounds → CameBack (after_all s (steps_in rounds)) who }
{
    call_laws::<P>();
    crossbeam_epoch::World::<Slot<P>, ()>::rounds();
    crossbeam_epoch::World::<Slot<P>, ()>::parts();
}

/// Reclamation can't be seen: a run that refuses nothing on the tree, whatever it refuses of the collector, tells there what the
/// plain run of its steps there tells, and leaves both agreeing. So two such runs with equal steps on the tree tell the same. An index as it opens agrees with the
/// plain run's first state.
pub fn runs_plain<P: Payload + Small, A: Allocator>()
    ensures follows { (s s' : World P) (steps : List (Step P)) (reports : List (Report P)) (order : List ℕ) (p : Plain P) → Holds P.same_as P.always_copies s → IsRun P.same_as P.always_copies s steps reports s' → AreUnrefused reports → Agree s order p → FollowsRun P.same_as s.forest.version_max steps reports s' order p }
    ensures alike { (most : ℕ) (p : Plain P) (a b : List (Step P)) (q r : List (Report P)) → AreTold P.same_as most p (projection a q) (answers a q) → AreTold P.same_as most p (projection b r) (answers b r) → AreUnrefused q → AreUnrefused r → projection a q ≡ projection b r → AreSame (answers a q) (answers b r) }
    ensures opens { (limits : Limits) (charge limit : ℕ) (s : World P) → IsOpened limits charge limit s.forest → IsFresh s → Agree s (0 ∷ []) opened_plain }
{
    Machine::<Id, P>::numbered::<Nodes<P, A>>();
}
