//! Calls that are stepped by turns on a plain store, worked out by hand.
use crate::tests::asserts::assert_same;
use crate::tests::texts::{array, call_of, named, part, question};
use congee::{Child, Move, Noise, Op, Outcome, PlainStore, Seen, Step, play};
use judge::Call;
use std::alloc::{AllocError, Global};
use std::test::Fail;

type Steps = Vec<Step<usize, u64>>;

/// How many nodes there may be; calls, counted from 0; turns: so many steps of a call, or one step whose upgrade fails, one
/// that would see a value or a node that isn't there, or one at which the closure doesn't answer; what the steps tell, but those
/// after which their call just goes on, and which went on without a node that they wanted; how many nodes there are in the end, and how many of them were given back.
const WORKED: [&str; 26] = [
    "a call finds its leaf gone: 10; insert 1 42, get 1, remove 1, insert 1 9, get 1; \
     go 0 30, go 1 3, go 2 30, go 3 30, go 1 30, go 4 30; \
     Insert(None) Remove(Some(42)) Insert(None) Get(Some(9)) Get(Some(9)); 3 0",
    "two make a leaf for one key: 10; insert 7 1, insert 7 2, get 7; go 0 4, go 1 4, go 0 30, go 1 30, go 2 30; \
     Insert(None) Insert(Some(1)) Get(Some(2)); 3 1",
    "a split comes before the read: 10; insert 1 1, get 256, insert 256 5; go 0 30, go 1 4, go 2 30, go 1 30; \
     Insert(None) Insert(None) Get(Some(5)); 4 0",
    "a lying read is checked: 10; insert 1 42, get 1, insert 2 9, get 1; \
     go 0 30, go 1 4, go 3 4, go 2 30, value 1 77, node 3 99, go 1 30, go 3 30; \
     Insert(None) Insert(None) Get(Some(42)) Get(Some(42)); 2 0",
    "a failed upgrade begins anew: 10; insert 1 42, get 1; go 0 4, fail 0, go 0 30, go 1 30; \
     Insert(None) Get(Some(42)); 3 1",
    "a closure is asked until it answers: 10; insert 1 42, present 1 50, get 1; \
     go 0 30, go 1 6, wait 1, wait 1, go 1 30, go 2 30; \
     Insert(None) Asks(Some(42)) Asks(Some(42)) Asks(Some(42)) ComputePresent(Some((42, Some(50)))) Get(Some(50)); 2 0",
    "a refused call gives its nodes back: 2; insert 1 42, insert 256 5, get 256; go 0 30, go 1 30, go 2 30; \
     Insert(None) Cells Get(None); 3 1",
    "a leaf shrinks: 10; insert 1 1, insert 2 2, insert 3 3, insert 4 4, insert 5 5, remove 1, remove 2, get 3; \
     go 0 40, go 1 40, go 2 40, go 3 40, go 4 40, go 5 40, go 6 40, go 7 40; \
     Insert(None) Insert(None) Insert(None) Insert(None) Insert(None) Remove(Some(1)) Remove(Some(2)) Get(Some(3)); 4 0",
    "a leaf shrinks at the second try, its parent's upgrade having failed: 10; insert 1 1, insert 2 2, insert 3 3, insert 4 4, insert 5 5, remove 1, remove 2, get 3; \
     go 0 40, go 1 40, go 2 40, go 3 40, go 4 40, go 5 40, go 6 7, fail 6, go 6 40, go 7 40; \
     Insert(None) Insert(None) Insert(None) Insert(None) Insert(None) Remove(Some(1)) Remove(Some(2)) Get(Some(3)); 5 1",
    "a leaf shrinks at the second try, its own upgrade having failed: 10; insert 1 1, insert 2 2, insert 3 3, insert 4 4, insert 5 5, remove 1, remove 2, get 3; \
     go 0 40, go 1 40, go 2 40, go 3 40, go 4 40, go 5 40, go 6 8, fail 6, go 6 40, go 7 40; \
     Insert(None) Insert(None) Insert(None) Insert(None) Insert(None) Remove(Some(1)) Remove(Some(2)) Get(Some(3)); 5 1",
    "a leaf that can't shrink loses its value all the same: 2; insert 1 1, insert 2 2, insert 3 3, insert 4 4, insert 5 5, remove 1, remove 2, get 3; \
     go 0 40, go 1 40, go 2 40, go 3 40, go 4 40, go 5 40, go 6 40, go 7 40; \
     Insert(None) Insert(None) Insert(None) Insert(None) Insert(None) Remove(Some(1)) Skipped Remove(Some(2)) Get(Some(3)); 3 0",
    "a node with one child left goes: 10; insert 1 1, insert 256 2, remove 1, get 256, get 1; \
     go 0 40, go 1 40, go 2 40, go 3 40, go 4 40; \
     Insert(None) Insert(None) Remove(Some(1)) Get(Some(2)) Get(None); 4 0",
    "a node with one child left goes at the second try, the upper upgrade having failed: 10; insert 1 1, insert 256 2, remove 1, get 256; \
     go 0 40, go 1 40, go 2 9, fail 2, go 2 40, go 3 40; \
     Insert(None) Insert(None) Remove(Some(1)) Get(Some(2)); 4 0",
    "a node with one child left goes at the second try, the middle upgrade having failed: 10; insert 1 1, insert 256 2, remove 1, get 256; \
     go 0 40, go 1 40, go 2 10, fail 2, go 2 40, go 3 40; \
     Insert(None) Insert(None) Remove(Some(1)) Get(Some(2)); 4 0",
    "a node with one child left goes at the second try, the lower upgrade having failed: 10; insert 1 1, insert 256 2, remove 1, get 256; \
     go 0 40, go 1 40, go 2 11, fail 2, go 2 40, go 3 40; \
     Insert(None) Insert(None) Remove(Some(1)) Get(Some(2)); 4 0",
    "a node above a leaf shrinks as the leaf goes: 20; insert 1 1, insert 257 2, insert 513 3, insert 769 4, insert 1025 5, remove 1025, remove 769, get 513; \
     go 0 40, go 1 40, go 2 40, go 3 40, go 4 40, go 5 40, go 6 40, go 7 40; \
     Insert(None) Insert(None) Insert(None) Insert(None) Insert(None) Remove(Some(5)) Remove(Some(4)) Get(Some(3)); 9 0",
    "a node above a leaf shrinks at the second try, the upper upgrade having failed: 20; insert 1 1, insert 257 2, insert 513 3, insert 769 4, insert 1025 5, remove 1025, remove 769, get 513; \
     go 0 40, go 1 40, go 2 40, go 3 40, go 4 40, go 5 40, go 6 10, fail 6, go 6 40, go 7 40; \
     Insert(None) Insert(None) Insert(None) Insert(None) Insert(None) Remove(Some(5)) Remove(Some(4)) Get(Some(3)); 10 1",
    "a node above a leaf shrinks at the second try, the middle upgrade having failed: 20; insert 1 1, insert 257 2, insert 513 3, insert 769 4, insert 1025 5, remove 1025, remove 769, get 513; \
     go 0 40, go 1 40, go 2 40, go 3 40, go 4 40, go 5 40, go 6 11, fail 6, go 6 40, go 7 40; \
     Insert(None) Insert(None) Insert(None) Insert(None) Insert(None) Remove(Some(5)) Remove(Some(4)) Get(Some(3)); 10 1",
    "a node above a leaf shrinks at the second try, the lower upgrade having failed: 20; insert 1 1, insert 257 2, insert 513 3, insert 769 4, insert 1025 5, remove 1025, remove 769, get 513; \
     go 0 40, go 1 40, go 2 40, go 3 40, go 4 40, go 5 40, go 6 12, fail 6, go 6 40, go 7 40; \
     Insert(None) Insert(None) Insert(None) Insert(None) Insert(None) Remove(Some(5)) Remove(Some(4)) Get(Some(3)); 10 1",
    "a node that couldn't shrink goes when one child is left: 7; insert 1 1, insert 257 2, insert 513 3, insert 769 4, insert 1025 5, remove 1025, remove 769, remove 513, remove 257, get 1; \
     go 0 40, go 1 40, go 2 40, go 3 40, go 4 40, go 5 40, go 6 40, go 7 40, go 8 40, go 9 40; \
     Insert(None) Insert(None) Insert(None) Insert(None) Insert(None) Remove(Some(5)) Skipped Remove(Some(4)) Skipped Remove(Some(3)) Remove(Some(2)) Get(Some(1)); 8 0",
    "a leaf below the root goes alone: 10; insert 1 1, insert 256 2, remove 1, remove 256, get 256; \
     go 0 40, go 1 40, go 2 40, go 3 40, go 4 40; \
     Insert(None) Insert(None) Remove(Some(1)) Remove(Some(2)) Get(None); 4 0",
    "a node with two children left stays: 10; insert 1 1, insert 257 2, insert 513 3, remove 513, get 257; \
     go 0 40, go 1 40, go 2 40, go 3 40, go 4 40; \
     Insert(None) Insert(None) Insert(None) Remove(Some(3)) Get(Some(2)); 5 0",
    "a look-up goes on below a node that went: 10; insert 1 1, insert 256 2, get 256, remove 1; \
     go 0 40, go 1 40, go 2 6, go 3 40, go 2 40; \
     Insert(None) Insert(None) Remove(Some(1)) Get(Some(2)); 4 0",
    "both children of a node go: 10; insert 1 1, insert 256 2, remove 256, remove 1, get 256; \
     go 0 40, go 1 40, go 2 9, go 3 40, go 2 40, go 4 40; \
     Insert(None) Insert(None) Remove(Some(1)) Remove(Some(2)) Get(None); 4 0",
    "a node gets a third child before it would go: 10; insert 1 1, insert 256 2, remove 1, insert 512 3, get 256; \
     go 0 40, go 1 40, go 2 9, go 3 40, go 2 40, go 4 40; \
     Insert(None) Insert(None) Insert(None) Remove(Some(1)) Get(Some(2)); 5 0",
    "a locked leaf moves up: 10; insert 1 1, insert 256 2, insert 256 9, remove 1, get 256; \
     go 0 40, go 1 40, go 2 12, go 3 40, go 2 40, go 4 40; \
     Insert(None) Insert(None) Remove(Some(1)) Insert(Some(2)) Get(Some(9)); 4 0",
];

/// What a run left: how many nodes there are, how many of them were given back, and whether no node is locked but those that were
/// taken out and retired; and what its steps told.
#[derive(Drop)]
struct Ran {
    nodes: usize,
    given_back: usize,
    is_at_rest: bool,
    told: String,
}

fn step_of(who: usize) -> Step<usize, u64> {
    Step {
        who,
        noise: Noise {
            fail: false,
            seen: None,
            answer: Some(Some(50)),
        },
    }
}

fn seeing(who: usize, child: Child<usize, u64>) -> Step<usize, u64> {
    let mut step = step_of(who);
    step.noise.seen = Some(Seen {
        child,
        byte: 200,
        full: true,
        count: 3,
    });
    step
}

fn push_steps(steps: &mut Steps, who: usize, count: usize) -> Result<(), Fail> {
    for _ in 0..count {
        steps.push(step_of(who))?;
    }
    Ok(())
}

fn push_turn(alloc: Global, steps: &mut Steps, turn: &str) -> Result<(), Fail> {
    let (word, numbers) = question(alloc, turn)?;
    let who = *numbers.first().ok_or("nobody's turn")? as usize;
    let mut step = step_of(who);
    match (word, numbers.get(1)) {
        ("go", Some(count)) => return push_steps(steps, who, *count as usize),
        ("fail", None) => step.noise.fail = true,
        ("wait", None) => step.noise.answer = None,
        ("value", Some(value)) => step = seeing(who, Child::Value(*value)),
        ("node", Some(name)) => step = seeing(who, Child::Node(*name as usize)),
        _ => return Err("no turn")?,
    }
    Ok(steps.push(step)?)
}

fn steps_of(alloc: Global, turns: &str) -> Result<Steps, Fail> {
    let mut steps = Vec::new(alloc);
    for turn in turns.split(',') {
        push_turn(alloc, &mut steps, turn.trim())?;
    }
    Ok(steps)
}

fn calls_of(alloc: Global, text: &str) -> Result<Vec<Call<u64>>, Fail> {
    let mut calls = Vec::new(alloc);
    for call in text.split(',') {
        calls.push(call_of(alloc, call.trim())?)?;
    }
    Ok(calls)
}

fn op_of(call: Call<u64>) -> Op<u64> {
    match call {
        Call::Get(key) => Op::Get(key),
        Call::Insert(key, value) => Op::Insert(key, value),
        Call::Remove(key) => Op::Remove(key),
        Call::ComputePresent(key, _) => Op::ComputePresent(key),
        Call::ComputeInsert(key, _) => Op::ComputeInsert(key),
        Call::Exchange(key, old, new) => Op::Exchange(key, old, new),
    }
}

fn ops_of(alloc: Global, calls: &[Call<u64>]) -> Result<Vec<Op<u64>>, AllocError> {
    let mut ops = Vec::new(alloc);
    for call in calls {
        ops.push(op_of(*call))?;
    }
    Ok(ops)
}

fn run(alloc: Global, room: usize, calls: &[Call<u64>], steps: Steps) -> Result<Ran, Fail> {
    let ops = ops_of(alloc, calls)?;
    let mut store = PlainStore::new(alloc, room)?;
    let mut calls = PlainStore::calls(alloc, ops)?;
    let played = play(alloc, &mut store, &mut calls, steps);
    match told(alloc, &played.moves) {
        Ok(told) => Ok(Ran {
            nodes: store.nodes.len(),
            given_back: given_back(&store),
            is_at_rest: is_at_rest(&store),
            told,
        }),
        Err(fail) => Err(fail),
    }
}

/// How many nodes were given back.
fn given_back(store: &PlainStore) -> usize {
    let mut count = 0usize;
    for node in store.nodes.iter() {
        if node.destroyed {
            count = count.saturating_add(1);
        }
    }
    count
}

/// Whether no node is locked but those that were taken out and retired.
fn is_at_rest(store: &PlainStore) -> bool {
    let mut rests = true;
    for node in store.nodes.iter() {
        rests &= node.locked == node.obsolete && node.obsolete == node.retired;
    }
    rests
}

/// What the steps tell, one after the other.
fn told(alloc: Global, moves: &[Move<u64>]) -> Result<String, Fail> {
    let mut told = String::new(alloc);
    for step in moves {
        if step.skipped {
            told.push_str(" Skipped")?;
        }
        let text = match &step.outcome {
            Outcome::Running => continue,
            Outcome::Done(reply) => format!(in alloc; " {reply:?}")?,
            Outcome::Asks(value) => format!(in alloc; " Asks({value:?})")?,
            Outcome::Refused(refusal) => format!(in alloc; " {refusal:?}")?,
            Outcome::Found { .. } | Outcome::Scanned { .. } => String::from_str(alloc, " a scan")?,
        };
        told.push_str(&text)?;
    }
    Ok(told)
}

fn run_of(alloc: Global, worked: &str) -> Result<Ran, Fail> {
    let calls = calls_of(alloc, part(worked, 1))?;
    let room = part(worked, 0).parse::<usize>()?;
    run(alloc, room, &calls, steps_of(alloc, part(worked, 2))?)
}

fn holds(alloc: Global, worked: &str) -> Result<bool, Fail> {
    let [there, back] = array::<2>(part(worked, 4))?;
    let ran = run_of(alloc, worked)?;
    Ok(
        ran.is_at_rest
            && (ran.nodes as u64, ran.given_back as u64) == (there, back)
            && ran.told.trim() == part(worked, 3),
    )
}

#[test]
fn calls_by_turns_tell_what_was_worked_out(rt: HostRuntime) -> Result<(), Fail> {
    for worked in WORKED {
        let (name, text) = named(worked)?;
        assert_same(&rt, (name, holds(rt.alloc(), text)?), (name, true));
    }
    Ok(())
}
