//! What a reader may conclude of any run: of its calls by what they told, and of nodes, locks and guards in its states.

ghost use Rattle.std.specs.Prelude.{◌≡◌, ◌==◌, ◌<◌, ℕ, List, [], true, false, slice_get};
ghost use Rattle.std.specs.FinMap.{empty};
ghost use Rattle.judge.specs.Answer.{Pairs};
ghost use Rattle.judge.specs.Journal.{Legal};
ghost use Rattle.congee.specs.Keys.{IsMapOf};
ghost use Rattle.congee.specs.protocol.Filled.{AllFilled};
ghost use Rattle.joint.specs.declared.limits.Limits.{Limits};
ghost use Rattle.joint.specs.declared.steps.Report.{Report};
ghost use Rattle.joint.specs.declared.steps.Step.{Step};
ghost use Rattle.joint.specs.calls.Alone.{OthersUnlocked};
ghost use Rattle.joint.specs.calls.Answering.{AllDecide};
ghost use Rattle.joint.specs.calls.Ends.{AllEndWell, IdleUnasked, IsBetween, ReadersRefused};
ghost use Rattle.joint.specs.calls.Filling.{NoneSkipped, StaysFilled};
ghost use Rattle.joint.specs.nodes.Nodes.{nodes};
ghost use Rattle.joint.specs.engine.Journaling.{asks_at};
ghost use Rattle.joint.specs.calls.Leaving.{AllLeaveOnce, LeftLocked, LocksApart, LocksHeld, MarkedLeft};
ghost use Rattle.joint.specs.engine.Log.{opened_log};
ghost use Rattle.joint.specs.world.World.{IsNew, Holds, IsStep};
ghost use Rattle.joint.specs.calls.Runs.{Taken, AreTaken, after_all, IsRun, IsMapRun, RunsJournal};
ghost use Rattle.joint.specs.world.MapSteps.{Line};
ghost use Rattle.joint.specs.engine.Engine.{IsFresh, World, is_busy};
ghost use Rattle.joint.specs.engine.Flying.{Flights, AreInFlight, no_flights};
ghost use Rattle.joint.specs.calls.Stretches.{SeesNode, StandsOn};
ghost use Rattle.joint.specs.calls.Wanted.{AllEndAloneTold, OthersIdle, wants_after, wants_if};

use crate::calls::laws::runs_alone;
use crate::engine::{call_laws, cell_laws, progress};
use crate::id::Id;
use crate::nodes::Nodes;
use congee::{Allocator, Machine, Payload, Small};

/// A call's next step takes its closure's answer exactly where the newest of its further steps has asked.
pub fn answers_wanted<P: Payload + Small>()
    ensures step { (s : World P) (step : Step P) (r : Report P) (s' : World P) (who : ℕ) → Holds P.same_as P.always_copies s → IsStep P.same_as P.always_copies s step r s' → asks_at (slice_get s'.machines who) ≡ wants_if (asks_at (slice_get s.machines who)) (step.worker == who) step.event r.outcome }
    ensures run { (s : World P) (taken : List (Taken P)) (who : ℕ) → Holds P.same_as P.always_copies s → AreTaken P.same_as P.always_copies s taken → asks_at (slice_get (after_all s taken).machines who) ≡ wants_after who (asks_at (slice_get s.machines who)) taken }
    ensures fresh { (s : World P) (taken : List (Taken P)) (who : ℕ) → IsFresh s → Holds P.same_as P.always_copies s → AreTaken P.same_as P.always_copies s taken → asks_at (slice_get (after_all s taken).machines who) ≡ wants_after who false taken }
{}

/// The journal of any run, of whole calls too: it goes on with the entries of the writing calls that took effect in it and of
/// the look-ups that were kept, in deciding order. In each state it is legal and replays to the pairs that stand; where none
/// is kept it is empty.
pub fn runs_journal<P: Payload + Small>()
    ensures goes_on { (s : World P) (steps : List (Step P)) (reports : List (Report P)) (s' : World P) (fs : Flights P) (m : Pairs P) → Holds P.same_as P.always_copies s → IsRun P.same_as P.always_copies s steps reports s' → IsMapOf (nodes s.forest) m → AreInFlight s fs → RunsJournal P.same_as fs m s steps reports s' }
    ensures fresh { (s : World P) (steps : List (Step P)) (reports : List (Report P)) (s' : World P) → IsFresh s → Holds P.same_as P.always_copies s → IsRun P.same_as P.always_copies s steps reports s' → RunsJournal P.same_as no_flights empty s steps reports s' }
    ensures replays { (s : World P) (m : Pairs P) → Holds P.same_as P.always_copies s → 0 < s.log.places → IsMapOf (nodes s.forest) m → Legal P.same_as empty s.log.entries m }
    ensures none { (s : World P) → Holds P.same_as P.always_copies s → s.log.places ≡ 0 → s.log.entries ≡ [] }
{}

/// A call that is over, done or refused, leaves its worker between calls: none in flight, no lock held, no node made that
/// isn't hung, none owed; and so it is in each state where a worker has no call in flight. A misused step leaves nodes and
/// calls as they were. Of a worker without a call nothing is written down as asked.
pub fn calls_end<P: Payload + Small>()
    ensures between { (s : World P) (who : ℕ) → Holds P.same_as P.always_copies s → is_busy (slice_get s.calls who) ≡ false → IsBetween s who }
    ensures run { (s : World P) (taken : List (Taken P)) → Holds P.same_as P.always_copies s → AreTaken P.same_as P.always_copies s taken → AllEndWell s taken }
    ensures unasked { (s : World P) (taken : List (Taken P)) → P.always_copies ≡ true → Holds P.same_as P.always_copies s → AreTaken P.same_as P.always_copies s taken → IdleUnasked s → IdleUnasked (after_all s taken) }
    ensures opened { (s : World P) (workers places : ℕ) → s.log ≡ opened_log workers places → IdleUnasked s }
{}

/// A look-up, a scan, the question whether the index is empty and a pin are refused for misuse or as Count alone.
pub fn readers_refused<P: Payload + Small>()
    ensures { (s : World P) (taken : List (Taken P)) → Holds P.same_as P.always_copies s → AreTaken P.same_as P.always_copies s taken → ReadersRefused s taken }
{
    progress::<P>();
}

/// In each state no two calls hold one lock, what a call holds is locked, and a node that was marked obsolete has left the
/// tree.
pub fn locks_apart<P: Payload + Small>()
    ensures apart { (s : World P) → Holds P.same_as P.always_copies s → LocksApart s }
    ensures held { (s : World P) → Holds P.same_as P.always_copies s → LocksHeld s }
    ensures marked { (s : World P) → Holds P.same_as P.always_copies s → MarkedLeft s }
{
    call_laws::<P>();
}

/// Each node that leaves the tree in a run leaves it by the step in which a call takes effect, two at most of each call; the
/// call then hands it over once, by one deferral of its destruction, under its worker's guard and into a place that was
/// made free for it. Until it is destroyed it stays out of the tree, locked, with its child nodes.
pub fn nodes_leave<P: Payload + Small, A: Allocator>()
    ensures run { (s : World P) (taken : List (Taken P)) → Holds P.same_as P.always_copies s → AreTaken P.same_as P.always_copies s taken → AllLeaveOnce s taken }
    ensures locked { (s : World P) (taken : List (Taken P)) → Holds P.same_as P.always_copies s → AreTaken P.same_as P.always_copies s taken → LeftLocked s → LeftLocked (after_all s taken) }
    ensures opened { (limits : Limits) (s : World P) → IsNew limits s → LeftLocked s }
{
    call_laws::<P>();
    Machine::<Id, P>::leaves::<Nodes<P, A>>();
}

/// As long as no step goes on without a node that it wanted, each node of the tree but the root has a child, each that holds
/// nodes two of them, and none is too small for its form.
pub fn nodes_filled<P: Payload + Small, A: Allocator>()
    ensures run { (s : World P) (taken : List (Taken P)) → Holds P.same_as P.always_copies s → AreTaken P.same_as P.always_copies s taken → NoneSkipped taken → StaysFilled s → StaysFilled (after_all s taken) }
    ensures opened { (limits : Limits) (s : World P) → IsNew limits s → Holds P.same_as P.always_copies s → StaysFilled s }
    ensures filled { (s : World P) → StaysFilled s → AllFilled (nodes s.forest) }
{
    call_laws::<P>();
    Machine::<Id, P>::filled::<Nodes<P, A>>();
}

/// A call on one key is refused before it took effect, or takes effect in one of its steps; from then on it decides nothing
/// more, isn't refused, and is done with the reply that its entry has.
pub fn calls_answer<P: Payload + Small>()
    ensures { (fs : Flights P) (m : Pairs P) (lines : List (Line P)) (fs' : Flights P) → IsMapRun P.same_as fs m lines fs' → AllDecide lines }
{}

/// A node that is in the tree while a worker is pinned, or whose name the worker's call has read and checked, stands until the
/// stretch of the worker's guard ends, whether the call still has its name or not.
pub fn guards_keep<P: Payload + Small, A: Allocator>()
    ensures { (who n : ℕ) (s : World P) (taken : List (Taken P)) → Holds P.same_as P.always_copies s → AreTaken P.same_as P.always_copies s taken → SeesNode s who n → StandsOn who n s taken }
{
    call_laws::<P>();
    cell_laws::<P>();
    Machine::<Id, P>::leaves::<Nodes<P, A>>();
}

/// A call whose steps nobody else's come between, while no other call holds a lock, ends within its number of steps, where its
/// worker answers exactly what the newest report asked. No other call holds one where no other worker has a call in flight.
pub fn alone_by_reports<P: Payload + Small, A: Allocator>()
    ensures runs { (s : World P) (taken : List (Taken P)) → Holds P.same_as P.always_copies s → AreTaken P.same_as P.always_copies s taken → AllEndAloneTold s taken }
    ensures idle { (s : World P) (who : ℕ) → Holds P.same_as P.always_copies s → OthersIdle s who → OthersUnlocked s who }
{
    runs_alone::<P, A>();
}
