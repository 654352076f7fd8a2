//! Dialogues with the collector, worked out by hand: calls in order, and how each is answered.

use crate::tests::asserts::assert_same;
use crate::tests::dialogue::{Asked, told, wrong_turn};
use crate::tests::texts::{array, named, small};
use crossbeam_epoch::{
    Event, Fault, Job, Limits, Links, Name, Op, Outcome, Pointable, Ptr, Step, World,
};
use std::alloc::{AllocError, Global};
use std::marker::Send;
use std::sync::Arc;
use std::sync::atomic::{AtomicU64, Ordering};
use std::test::Fail;

/// Ample limits for so many participants.
fn ample(participants: u32) -> Limits {
    Limits {
        participants,
        cells: 1000,
        turn_max: u32::MAX,
        epoch_max: 1 << 62,
        expiry: 2,
    }
}

#[test]
fn limits_have_bounds(rt: HostRuntime) {
    for (row, expected) in [
        ((256, 16_777_215, 1 << 62, 2), true),
        ((1, 1, 3, 1), true),
        ((0, 1, 3, 1), false),
        ((257, 1, 3, 1), false),
        ((1, 0, 3, 1), false),
        ((1, 16_777_216, 3, 1), false),
        ((1, 1, 2, 1), false),
        ((1, 1, (1 << 62) + 1, 1), false),
        ((1, 1, 3, 0), false),
        ((1, 1, 3, 3), false),
    ] {
        let (participants, cells, epoch_max, expiry) = row;
        let limits = Limits {
            participants,
            cells,
            turn_max: 0,
            epoch_max,
            expiry,
        };
        assert_same(&rt, (row, limits.is_within()), (row, expected));
    }
}

/// A value without links.
#[derive(Debug, Drop)]
struct Plain(u64);

impl Links for Plain {
    ghost use Rattle.std.specs.Prelude.{[]};
    ghost use Rattle.std.proofs.Common.{rules};

    ghost names = { λ v. [] };

    fn link(&self, _i: u32) -> Option<Name> {
        None
    }

    ghost fits = { Prim.search rules };
}

impl Pointable for Plain {
    ghost use Rattle.std.specs.Prelude.{refl};
    ghost use Rattle.std.proofs.Common.{lit≤};

    ghost ALIGN = { 4 };

    const ALIGN: u16 = 4;

    ghost aligned = { (2, lit≤ tt, refl) };
}

type Jobs = World<Plain, ()>;

/// Participants, cells, the greatest turn, the greatest epoch and the expiry; then what is asked of a new collector with one root. A participant is
/// told by its number, a placed value by its cell and turn, and a pointer to it by its tag behind these; `null` has a tag alone.
const WORKED: [&str; 10] = [
    // Participant 1 pins at an older epoch than the seal of a job of participant 0.
    "a blocked job waits: 2 1000 9 99 2; register = Ok(0); register = Ok(1); pin 0 = Done; unpin 0 = Done; pin 1 = Done; unpin 1 = Done; \
     pin 1 = Done; pin 0 = Done; defer 0 1 = Ok(()); flush 0 = Done; epoch = 3; waiting = 1",
    "an expiry of one is too little: 2 1000 9 99 1; register = Ok(0); register = Ok(1); pin 0 = Done; unpin 0 = Done; pin 1 = Done; \
     unpin 1 = Done; pin 1 = Done; pin 0 = Done; defer 0 1 = Ok(()); flush 0 = Done; epoch = 3; waiting = 0",
    // It has 64 jobs; the 65th queues it.
    "a full bag is queued: 1 1000 9 99 2; register = Ok(0); pin 0 = Done; defer 0 65 = Ok(()); unpin 0 = Done; waiting = 65; \
     rounds 0 1 = Done; waiting = 65; rounds 0 1 = Done; waiting = 0",
    // 2,177 jobs are 35 bags.
    "a collection takes eight bags: 1 1000 9 99 2; register = Ok(0); pin 0 = Done; defer 0 2177 = Ok(()); unpin 0 = Done; waiting = 2177; \
     rounds 0 1 = Done; waiting = 2177; rounds 0 1 = Done; waiting = 1665; rounds 0 1 = Done; waiting = 1153; rounds 0 1 = Done; \
     waiting = 641; rounds 0 1 = Done; waiting = 129; rounds 0 1 = Done; waiting = 0",
    // A flush by its name seals the bag and collects; a repin by its name follows the epoch.
    "whole calls by their names: 1 1000 9 99 2; register = Ok(0); World::flush 0 = Refused(Unpinned); World::repin 0 = Refused(Unpinned); \
     defer_unchecked 0 = Err((Unpinned, ())); has_place 0 = true; has_place 1 = false; places 0 = 64; places 1 = 0; places 9 = 0; pin 0 = Done; epoch = 1; World::repin 0 = Done; \
     defer_unchecked 0 = Ok(0); places 0 = 63; defer 0 63 = Ok(()); has_place 0 = false; places 0 = 0; World::flush 0 = Done; \
     has_place 0 = true; places 0 = 64; epoch = 2; \
     waiting = 64; World::repin 0 = Done; World::flush 0 = Done; epoch = 3; waiting = 0",
    // The cell has two turns.
    "cells are used again under the next turn: 1 1 1 99 2; register = Ok(0); place 1 = Ok(Name { cell: 0, turn: 0 }); \
     place 2 = Err((CellsFull, Plain(2))); replace 0 0 3 = Ok(Plain(1)); read 0 0 = Some(Plain(3)); store 0 0 1 = Ok(()); \
     load 0 = Ok(Ptr { name: Some(Name { cell: 0, turn: 0 }), tag: 1 }); load 1 = Err(Unknown); store_null 0 = Ok(()); pin 0 = Done; \
     destroy 0 0 0 = Ok(0); unpin 0 = Done; rounds 0 3 = Done; waiting = 0; read 0 0 = None; place 4 = Ok(Name { cell: 0, turn: 1 }); \
     give_back 0 1 = Ok(Plain(4)); place 5 = Err((CellsFull, Plain(5)))",
    "a participant that leaves queues its bag: 2 1000 9 99 2; register = Ok(0); register = Ok(1); register = Err(TableFull); pin 0 = Done; \
     defer 0 1 = Ok(()); release 0 = Refused(GuardOut); unpin 0 = Done; release 0 = Done; waiting = 1; rounds 1 3 = Done; waiting = 0; \
     register = Ok(0)",
    // The tag is 5 modulo 4.
    "an exchange of a root looks at the tag: 1 1000 9 99 2; place 7 = Ok(Name { cell: 0, turn: 0 }); \
     swap 0 0 5 = Ok(Ptr { name: None, tag: 0 }); \
     empty 0 0 0 = Ok(Err(OtherPointer { current: Ptr { name: Some(Name { cell: 0, turn: 0 }), tag: 1 }, new: Ptr { name: None, tag: 0 } })); \
     empty 0 0 1 = Ok(Ok(Ptr { name: None, tag: 0 })); load 0 = Ok(Ptr { name: None, tag: 0 })",
    "bits of a tag are changed: 1 1000 9 99 2; store_null 3 = Ok(()); fetch_and 1 = Ok(Ptr { name: None, tag: 3 }); \
     fetch_xor 3 = Ok(Ptr { name: None, tag: 1 }); load 0 = Ok(Ptr { name: None, tag: 2 }); store_null 1 = Ok(()); \
     fetch_or 2 = Ok(Ptr { name: None, tag: 1 }); load 0 = Ok(Ptr { name: None, tag: 3 }); store_null 5 = Ok(()); \
     load 0 = Ok(Ptr { name: None, tag: 1 })",
    // The second round's flush gives 2, and the third one's 3.
    "the epoch stops at its greatest: 1 1000 9 3 2; register = Ok(0); rounds 0 1 = Done; epoch = 1; rounds 0 1 = Done; epoch = 2; \
     rounds 0 1 = Done; epoch = 3; pin 0 = Done; defer 0 1 = Ok(()); unpin 0 = Done; rounds 0 10 = Done; epoch = 3; waiting = 1",
];

/// The limits of a text, by their numbers.
fn limits_of(text: &str) -> Result<Limits, Fail> {
    let [participants, cells, turn_max, epoch_max, expiry] = array::<5>(text)?;
    Ok(Limits {
        participants: small(participants),
        cells: small(cells),
        turn_max: small(turn_max),
        epoch_max,
        expiry,
    })
}

/// Drops a machine, so that no test has to say how.
fn discard(world: Jobs) {
    drop(world);
}

/// The first turn that a new collector answers otherwise.
fn wrong(alloc: Global, text: &'static str) -> Result<Option<&'static str>, Fail> {
    let (limits, dialogue) = text.split_once(';').ok_or("no limits")?;
    let mut world: Jobs = World::new(alloc, limits_of(limits)?, 1)?;
    let turn = wrong_turn(alloc, &mut world, dialogue);
    discard(world);
    turn
}

#[test]
fn the_collector_answers_as_worked_out(rt: HostRuntime) -> Result<(), Fail> {
    for worked in WORKED {
        let (name, text) = named(worked)?;
        assert_same(&rt, (name, wrong(rt.alloc(), text)?), (name, None));
    }
    Ok(())
}

/// What is asked, and how many numbers come with it.
static QUESTIONS: [(&str, usize); 27] = [
    ("pin", 1),
    ("unpin", 1),
    ("flush", 1),
    ("release", 1),
    ("World::flush", 1),
    ("World::repin", 1),
    ("rounds", 2),
    ("load", 1),
    ("swap", 3),
    ("fetch_and", 1),
    ("fetch_or", 1),
    ("fetch_xor", 1),
    ("store_null", 1),
    ("store", 3),
    ("defer", 2),
    ("register", 0),
    ("epoch", 0),
    ("waiting", 0),
    ("defer_unchecked", 1),
    ("has_place", 1),
    ("places", 1),
    ("place", 1),
    ("read", 2),
    ("give_back", 2),
    ("replace", 3),
    ("destroy", 3),
    // Writes null where the root holds the pointer.
    ("empty", 3),
];

/// The place of a question in the table.
fn place_of(word: &str, count: usize) -> Result<usize, Fail> {
    for (place, (asked, numbers)) in QUESTIONS.iter().enumerate() {
        if *asked == word && *numbers == count {
            return Ok(place);
        }
    }
    Err("no question")?
}

impl Asked for Jobs {
    fn answer(&mut self, alloc: Global, word: &str, numbers: &[u64]) -> Result<String, Fail> {
        let place = place_of(word, numbers.len())?;
        let mut three = [0; 3];
        for (number, given) in three.iter_mut().zip(numbers) {
            *number = *given;
        }
        match place {
            0..=6 => told(alloc, &outcome(self, place, three)),
            7..=11 => told(alloc, &found(self, place, three)),
            12..=14 => told(alloc, &written(self, place, three)),
            _ => of_others(alloc, self, place, three),
        }
    }
}

fn name(cell: u64, turn: u64) -> Name {
    Name {
        cell: small(cell),
        turn: small(turn),
    }
}

/// A pointer to a value in this cell and turn.
fn pointer(cell: u64, turn: u64, tag: u64) -> Ptr {
    let name = Some(name(cell, turn));
    Ptr { name, tag: 0 }.with_tag::<Plain>(tag as usize)
}

/// How a whole call ends.
fn outcome(world: &mut Jobs, place: usize, numbers: [u64; 3]) -> Outcome {
    let [who, count, _] = numbers;
    match place {
        0 => call(world, who, Op::Pin),
        1 => call(world, who, Op::Unpin),
        2 => call(world, who, Op::Flush),
        3 => call(world, who, Op::Release),
        4 => world.flush(who as usize),
        5 => world.repin(who as usize),
        _ => rounds(world, who, count),
    }
}

/// The pointer of a root, or what it was before.
fn found(world: &mut Jobs, place: usize, numbers: [u64; 3]) -> Result<Ptr, Fault> {
    let [one, two, three] = numbers;
    match place {
        7 => world.load(one as usize),
        8 => world.swap(0, pointer(one, two, three)),
        9 => world.fetch_and(0, one as usize),
        10 => world.fetch_or(0, one as usize),
        _ => world.fetch_xor(0, one as usize),
    }
}

/// Whether a root is written, or jobs are put off.
fn written(world: &mut Jobs, place: usize, numbers: [u64; 3]) -> Result<(), Fault> {
    let [one, two, three] = numbers;
    match place {
        12 => world.store(0, Ptr::null().with_tag::<Plain>(one as usize)),
        13 => world.store(0, pointer(one, two, three)),
        _ => defers(world, one as usize, two),
    }
}

/// The answers that are of a kind of their own.
fn of_others(
    alloc: Global,
    world: &mut Jobs,
    place: usize,
    numbers: [u64; 3],
) -> Result<String, Fail> {
    let [one, two, three] = numbers;
    let who = one as usize;
    match place {
        15 => told(alloc, &world.register()),
        16 => told(alloc, &world.epoch()),
        17 => told(alloc, &world.waiting()),
        18 => told(alloc, &world.defer_unchecked(who, ())),
        19 => told(alloc, &world.has_place(who)),
        20 => told(alloc, &world.places(who)),
        21 => told(alloc, &world.place(Plain(one))),
        22 => told(alloc, &world.read(name(one, two))),
        23 => told(alloc, &world.give_back(name(one, two))),
        24 => told(alloc, &world.replace(name(one, two), Plain(three))),
        25 => told(alloc, &world.defer_destroy(who, name(two, three))),
        _ => told(
            alloc,
            &world.compare_exchange(0, pointer(one, two, three), Ptr::null()),
        ),
    }
}

/// A whole call of at most 2,000 steps.
fn call(world: &mut Jobs, who: u64, op: Op) -> Outcome {
    let mut event = Event::Begin(op);
    for _ in 0..2000 {
        let outcome = world.step(who as usize, event).outcome;
        if outcome != Outcome::Running {
            return outcome;
        }
        event = Event::Go;
    }
    Outcome::Running
}

/// Rounds of pin, flush and unpin; the first answer that isn't `Done`.
fn rounds(world: &mut Jobs, who: u64, count: u64) -> Outcome {
    for _ in 0..count {
        for op in [Op::Pin, Op::Flush, Op::Unpin] {
            let outcome = call(world, who, op);
            if outcome != Outcome::Done {
                return outcome;
            }
        }
    }
    Outcome::Done
}

/// So many deferrals of a job, until one is refused.
fn defers(world: &mut Jobs, who: usize, count: u64) -> Result<(), Fault> {
    for _ in 0..count {
        if let Err((fault, ())) = world.defer(who, ()) {
            return Err(fault);
        }
    }
    Ok(())
}

/// Whether a bag after the first one is refused when 32 are queued from an empty queue. A first one that is refused is
/// asked for again.
fn refuses_later_bags(world: &mut Jobs) -> bool {
    for job in 0..2049 {
        let refused = world.defer(0, ()).is_err();
        if refused && (job > 64 || world.defer(0, ()).is_err()) {
            return true;
        }
    }
    false
}

/// A collector of one participant, which is made again where memory is refused.
fn jobs(alloc: Global) -> Result<Jobs, Fault> {
    match World::new(alloc, ample(1), 0) {
        Err(Fault::Memory) => World::new(alloc, ample(1), 0),
        made => made,
    }
}

/// Whether a participant comes, and pins.
fn comes(world: &mut Jobs) -> bool {
    world.register() == Ok(0) && call(world, 0, Op::Pin) == Outcome::Done
}

/// A block of 32 bags is made with the first of them, so the others need no memory. The gate runs it with each request for
/// memory refused in turn as well.
#[test]
fn the_first_bag_of_a_block_alone_asks_for_memory(rt: HostRuntime) -> Result<(), Fail> {
    let mut world = jobs(rt.alloc())?;
    let came = comes(&mut world);
    let refuses = refuses_later_bags(&mut world);
    discard(world);
    assert_same(&rt, (came, refuses), (true, false));
    Ok(())
}

/// Whether so many jobs are put off. A refused one comes back, and is put off then.
fn are_deferred(world: &mut Jobs, count: u64) -> bool {
    for _ in 0..count {
        if let Err((fault, ())) = world.defer(0, ()) {
            if fault != Fault::Memory || world.defer(0, ()).is_err() {
                return false;
            }
        }
    }
    true
}

/// A flush, which is called again where memory is refused.
fn flushed(world: &mut Jobs) -> Outcome {
    match call(world, 0, Op::Flush) {
        Outcome::Refused(Fault::Memory) => call(world, 0, Op::Flush),
        outcome => outcome,
    }
}

/// Whether so many jobs wait now, and after each of some rounds.
fn are_left(world: &mut Jobs, left: &[u64]) -> bool {
    for waiting in left {
        if world.waiting() != *waiting
            || call(world, 0, Op::Pin) != Outcome::Done
            || flushed(world) != Outcome::Done
            || call(world, 0, Op::Unpin) != Outcome::Done
        {
            return false;
        }
    }
    true
}

/// 65 jobs are two bags, and 2,177 are 35 in two blocks. The gate runs it with each request for memory refused in turn as well.
#[test]
fn jobs_that_find_no_memory_are_put_off_then(rt: HostRuntime) -> Result<(), Fail> {
    for left in [
        [65, 65, 0].as_slice(),
        [2177, 2177, 1665, 1153, 641, 129, 0].as_slice(),
    ] {
        let mut world = jobs(rt.alloc())?;
        let waits = comes(&mut world)
            && are_deferred(&mut world, left[0])
            && call(&mut world, 0, Op::Unpin) == Outcome::Done;
        let is_called = waits && are_left(&mut world, left);
        discard(world);
        assert_same(&rt, (waits, is_called), (true, true));
    }
    Ok(())
}

/// A first pin: look, publish, load, inspect, advance, take; then nothing is in flight.
#[test]
fn a_run_takes_every_step(rt: HostRuntime) -> Result<(), Fail> {
    let mut world: Jobs = World::new(rt.alloc(), ample(1), 1)?;
    let came = world.register() == Ok(0);
    let pin = Step {
        who: 0,
        event: Event::Begin(Op::Pin),
    };
    let go = Step {
        who: 0,
        event: Event::Go,
    };
    let ran = world.run(rt.alloc(), &[pin, go, go, go, go, go, go, go]);
    let is_pinned = world.epoch() == 1 && world.is_pinned(0);
    discard(world);
    let mut right = ran.done == 8 && ran.reports.len() == 8;
    for (number, report) in ran.reports.iter().enumerate() {
        let expected = match number {
            0..=5 => Outcome::Running,
            6 => Outcome::Done,
            _ => Outcome::Refused(Fault::Idle),
        };
        right &= report.outcome == expected && report.called.is_none();
    }
    assert_same(&rt, (came, is_pinned, right), (true, true, true));
    Ok(())
}

/// Whether the end is refused, and the participant stays.
fn end_is_refused(world: Jobs) -> bool {
    match world.end() {
        Ok(_called) => false,
        Err((fault, world)) => {
            let stays = world.is_registered(0);
            discard(world);
            stays && fault == Fault::Registered(1)
        }
    }
}

#[test]
fn the_end_waits_for_everybody(rt: HostRuntime) -> Result<(), Fail> {
    let mut world: Jobs = World::new(rt.alloc(), ample(1), 1)?;
    let came = world.register() == Ok(0);
    assert_same(&rt, (came, end_is_refused(world)), (true, true));
    Ok(())
}

type BoxedJobs = World<Plain, Job>;

/// A job that adds this number to the sum when it is called.
pub(crate) fn adds(alloc: Global, sum: &Arc<AtomicU64>, number: u64) -> Result<Job, AllocError> {
    let sum = Arc::try_clone(sum)?;
    let call: Box<dyn FnOnce() + Send> = Box::new(alloc, move || {
        sum.fetch_add(number, Ordering::SeqCst);
    })?;
    Ok(Job::new(call))
}

/// The participant does these calls.
fn calls(world: &mut BoxedJobs, ops: &[Op]) {
    for op in ops {
        world.call(0, *op, 1000);
    }
}

/// How many jobs the end calls, if it isn't refused.
fn end(world: BoxedJobs) -> Option<u64> {
    match world.end() {
        Ok(called) => Some(called),
        Err((_fault, _world)) => None,
    }
}

/// Whether a job that is put off under a pin is called once: by rounds, where there are some, and else by the end.
fn put_off(alloc: Global, sum: &Arc<AtomicU64>, with_rounds: bool) -> Result<bool, Fail> {
    let job = adds(alloc, sum, 1)?;
    let mut world: BoxedJobs = World::new(alloc, ample(1), 1)?;
    let came = world.register().is_ok();
    calls(&mut world, &[Op::Pin, Op::Secure(1), Op::Unpin, Op::Pin]);
    let deferred = world.defer(0, job).is_ok();
    if with_rounds {
        for _ in 0..4 {
            calls(&mut world, &[Op::Flush, Op::Unpin, Op::Pin]);
        }
    }
    calls(&mut world, &[Op::Unpin]);
    let released = world.release(0) == Outcome::Done;
    let (waiting, before) = (world.waiting(), sum.load(Ordering::SeqCst));
    let ended = end(world);
    // How many jobs are left for the end.
    let left = if with_rounds { 0 } else { 1 };
    let is_called = waiting == left && before.wrapping_add(left) == 1 && ended == Some(left);
    Ok(came && deferred && released && is_called && sum.load(Ordering::SeqCst) == 1)
}

#[test]
fn a_job_runs_its_box(rt: HostRuntime) -> Result<(), Fail> {
    for with_rounds in [true, false] {
        let sum = Arc::new(rt.alloc(), AtomicU64::new(0))?;
        let is_called = put_off(rt.alloc(), &sum, with_rounds)?;
        assert_same(&rt, (with_rounds, is_called), (with_rounds, true));
    }
    Ok(())
}
