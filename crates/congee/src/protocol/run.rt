//! Any number of calls on one tree, stepped in any order.
ghost use Rattle.std.specs.Prelude.{◌≡◌, ◌+◌, ◌-◌, ◌⊎◌, drop, length, min, vec_capacity};
ghost use Rattle.std.specs.Vec.{vec_len};
ghost use Rattle.std.proofs.Math.ListN.{take};
ghost use Rattle.congee.specs.protocol.Bounds.{Within};
ghost use Rattle.congee.specs.protocol.Causes.{RefusesAt};
ghost use Rattle.congee.specs.protocol.Destroys.{Spares};
ghost use Rattle.congee.specs.protocol.Filled.{AllBranch, AllFilled, NoneSkipped};
ghost use Rattle.congee.specs.protocol.Opening.{FreshRoot};
ghost use Rattle.congee.specs.protocol.Play.{Begins, Protocol, Plays, Settled, StepPlays};
ghost use Rattle.congee.specs.protocol.Trace.{IsTrace, AllEndAlone};

use crate::protocol::machine::{Machine, Move, Noise, Outcome};
use crate::protocol::store::{NodeName, Store};
use judge::Payload;
use std::alloc::Global;
use std::vec::Vec;

/// One step of one of the calls.
#[derive(Drop)]
pub struct Step<C, P> {
    /// Which call steps, by its place among the machines.
    pub who: usize,
    /// What comes to the step from outside.
    pub noise: Noise<C, P>,
}

/// What the steps did.
#[derive(Drop)]
pub struct Played<P> {
    /// What each step did, in their order.
    pub moves: Vec<Move<P>>,
    /// How many of the steps were done.
    pub done: usize,
}

/// Lets calls that have not begun take these steps, one after another. A step of a call that isn't there reports `Running`, and
/// does nothing. A call whose steps nobody else's come between ends within 60 steps, and a scan within five for each node, two
/// for each pair and two more. The list of moves gets its memory before the first step: where that is refused, none is taken.
pub fn play<C: NodeName + Drop, P: Payload, S: Store<C, P>>(
    alloc: Global,
    store: &mut S,
    machines: &mut [Machine<C, P>],
    steps: Vec<Step<C, P>>,
) -> Played<P>
    requires begins { Begins C.number (S.heap store.old) machines.old }
    requires within { Within (S.version_max store.old) (S.heap store.old) }
    ensures done { result.done ≡ vec_len result.moves }
    ensures stops { result.done ≡ min (length steps.items) (vec_capacity result.moves) }
    ensures all { (result.done ≡ length steps.items) ⊎ (result.done ≡ 0) }
    ensures limit { S.version_max store.new ≡ S.version_max store.old }
    ensures rest { S.rest store.new ≡ S.rest store.old }
    ensures within { Within (S.version_max store.new) (S.heap store.new) }
    ensures nexts { IsTrace C.number P.same_as P.always_copies (S.version_max store.old) (RefusesAt S.heap S.version_max S.rest S.refuses store.old) (S.heap store.old) machines.old (take result.done steps.items) result.moves.items (S.heap store.new) machines.new }
    ensures run { Plays C.number P.same_as P.always_copies (S.version_max store.old) (RefusesAt S.heap S.version_max S.rest S.refuses store.old) (S.heap store.old) machines.old (take result.done steps.items) result.moves.items (S.heap store.new) machines.new }
    ensures spares { Spares C.number P.same_as P.always_copies (S.heap store.new) machines.new }
    ensures alone { (trace : IsTrace C.number P.same_as P.always_copies (S.version_max store.old) (RefusesAt S.heap S.version_max S.rest S.refuses store.old) (S.heap store.old) machines.old (take result.done steps.items) result.moves.items (S.heap store.new) machines.new) → Settled C.number P.same_as P.always_copies (S.heap store.old) machines.old → AllEndAlone C.number (S.heap store.old) machines.old trace.traced }
    ensures alone_fresh { (trace : IsTrace C.number P.same_as P.always_copies (S.version_max store.old) (RefusesAt S.heap S.version_max S.rest S.refuses store.old) (S.heap store.old) machines.old (take result.done steps.items) result.moves.items (S.heap store.new) machines.new) → FreshRoot (S.heap store.old) → AllEndAlone C.number (S.heap store.old) machines.old trace.traced }
    ensures branch_fresh { FreshRoot (S.heap store.old) → AllBranch (S.heap store.new) }
    ensures filled_fresh { FreshRoot (S.heap store.old) → NoneSkipped result.moves.items → AllFilled (S.heap store.new) }
{
    let mut moves = Vec::new(alloc);
    // A refusal leaves the list without room.
    let _ = moves.reserve(steps.len());
    let done = play_into(store, machines, steps, &mut moves);
    Played { moves, done }
}

/// The same for as many of the steps as the list has room for: their moves come behind those that it has. It asks for no memory,
/// and stops for no other reason. Gives how many steps were taken.
pub fn play_into<C: NodeName + Drop, P: Payload, S: Store<C, P>>(
    store: &mut S,
    machines: &mut [Machine<C, P>],
    steps: Vec<Step<C, P>>,
    moves: &mut Vec<Move<P>>,
) -> usize
    requires begins { Begins C.number (S.heap store.old) machines.old }
    requires within { Within (S.version_max store.old) (S.heap store.old) }
    ensures done { result ≡ min (length steps.items) (vec_capacity moves.old - vec_len moves.old) }
    ensures kept { take (length moves.old.items) moves.new.items ≡ moves.old.items }
    ensures moves { vec_len moves.new ≡ vec_len moves.old + result }
    ensures room { vec_capacity moves.new ≡ vec_capacity moves.old }
    ensures limit { S.version_max store.new ≡ S.version_max store.old }
    ensures rest { S.rest store.new ≡ S.rest store.old }
    ensures within { Within (S.version_max store.new) (S.heap store.new) }
    ensures nexts { IsTrace C.number P.same_as P.always_copies (S.version_max store.old) (RefusesAt S.heap S.version_max S.rest S.refuses store.old) (S.heap store.old) machines.old (take result steps.items) (drop (length moves.old.items) moves.new.items) (S.heap store.new) machines.new }
    ensures run { Plays C.number P.same_as P.always_copies (S.version_max store.old) (RefusesAt S.heap S.version_max S.rest S.refuses store.old) (S.heap store.old) machines.old (take result steps.items) (drop (length moves.old.items) moves.new.items) (S.heap store.new) machines.new }
    ensures spares { Spares C.number P.same_as P.always_copies (S.heap store.new) machines.new }
    ensures alone { (trace : IsTrace C.number P.same_as P.always_copies (S.version_max store.old) (RefusesAt S.heap S.version_max S.rest S.refuses store.old) (S.heap store.old) machines.old (take result steps.items) (drop (length moves.old.items) moves.new.items) (S.heap store.new) machines.new) → Settled C.number P.same_as P.always_copies (S.heap store.old) machines.old → AllEndAlone C.number (S.heap store.old) machines.old trace.traced }
    ensures alone_fresh { (trace : IsTrace C.number P.same_as P.always_copies (S.version_max store.old) (RefusesAt S.heap S.version_max S.rest S.refuses store.old) (S.heap store.old) machines.old (take result steps.items) (drop (length moves.old.items) moves.new.items) (S.heap store.new) machines.new) → FreshRoot (S.heap store.old) → AllEndAlone C.number (S.heap store.old) machines.old trace.traced }
    ensures branch_fresh { FreshRoot (S.heap store.old) → AllBranch (S.heap store.new) }
    ensures filled_fresh { FreshRoot (S.heap store.old) → NoneSkipped (drop (length moves.old.items) moves.new.items) → AllFilled (S.heap store.new) }
{
    let before = moves.len();
    let mut rest = steps.into_iter();
    while let Some(step) = rest.next() {
        if moves.len() == moves.capacity() {
            break;
        }
        let moved = step_of(store, machines, step);
        moves.push_reserved(moved);
    }
    moves.len() - before
}

/// The step of the call at its place.
#[inline(always)]
pub fn step_of<C: NodeName + Drop, P: Payload, S: Store<C, P>>(
    store: &mut S,
    machines: &mut [Machine<C, P>],
    step: Step<C, P>,
) -> Move<P>
    requires protocol { Protocol C.number P.same_as P.always_copies (S.heap store.old) machines.old }
    requires within { Within (S.version_max store.old) (S.heap store.old) }
    ensures limit { S.version_max store.new ≡ S.version_max store.old }
    ensures rest { S.rest store.new ≡ S.rest store.old }
    ensures within { Within (S.version_max store.new) (S.heap store.new) }
    ensures plays { StepPlays C.number P.same_as P.always_copies (S.version_max store.old) (S.refuses store.old) (S.heap store.old) machines.old step result (S.heap store.new) machines.new }
{
    let Step { who, noise } = step;
    if who < machines.len() {
        let machine = &mut machines[who];
        machine.next(store, noise)
    } else {
        Move {
            decided: false,
            skipped: false,
            outcome: Outcome::Running,
        }
    }
}
