//! Four workers beside each other, in orders that nobody foresaw: calls of each kind are drawn, and so is whose step comes
//! next, which exchange fails, what a changed node shows and what a closure answers. The calls answer as one map, the nodes
//! that stand are charged, and what waits goes in quiet rounds.

use super::drawn::{next, number_in};
use super::flights::entry;
use super::lies::{Sight, noise_of};
use super::told::{Standing, Told, state, takes};
use super::{
    Index, are_rounds_done, beginning, call, discard, going, is_done, journaled, noise, op_of,
    registering, whole,
};
use crate::tests::asserts::assert_same;
use congee::{NodeStats, Noise};
use joint::{Done, Id, Op, Outcome, Step};
use judge::{Call, Entry, Reply, Verdict, check};
use std::alloc::{AllocError, Global};
use std::test::Fail;

const WORKERS: u32 = 4;

/// The turns of a schedule between two rests, and its rests.
const TURNS: u32 = 1_000;

const RESTS: u32 = 5;

/// More entries than a schedule has steps.
const PLACES: u64 = 10_000;

/// How a worker's call stands.
#[derive(Clone, Copy)]
struct Seat {
    standing: Standing,
    /// A call on a key, with the last answer that it took.
    call: Option<Call<u64>>,
    /// The place of its entry, once it took effect.
    place: Option<usize>,
}

const FREE: Seat = Seat {
    standing: Standing::Unit,
    call: None,
    place: None,
};

/// The calls of an index's workers, and the entries that their steps told, in the order in which they took effect.
#[derive(Drop)]
struct Crowd {
    seats: [Seat; 4],
    told: Vec<Entry<u64>>,
    /// The last drawn number.
    number: u64,
}

/// Nine keys share a leaf, which grows twice; the others part from it at each level, two of them in one leaf.
fn key_by(drawn: u64) -> u64 {
    match drawn % 16 {
        9 => 256,
        10 => 257,
        11 => 1 << 16,
        12 => 1 << 32,
        13 => 1 << 48,
        14 => 1 << 63,
        15 => u64::MAX,
        key => key,
    }
}

/// The call on a key that a drawn number stands for.
fn call_by(drawn: u64) -> Call<u64> {
    let key = key_by(drawn);
    let value = drawn.wrapping_shr(8) % 4;
    match drawn.wrapping_shr(4) % 8 {
        0 => Call::Get(key),
        1 => Call::ComputeInsert(key, value),
        2 => Call::ComputePresent(key, None),
        3 => Call::Exchange(key, value, Some(9)),
        4 => Call::Exchange(key, value, None),
        5 => Call::Remove(key),
        _ => Call::Insert(key, value),
    }
}

/// What a worker without a call in flight begins, if it isn't a call on a key: one on the tree or on the collector.
fn op_by(drawn: u64) -> Option<Op<u64>> {
    Some(match drawn.wrapping_shr(10) % 24 {
        0 | 1 => Op::Range(key_by(drawn), key_by(drawn.wrapping_shr(4)), 6),
        2 => Op::Keys,
        3 => Op::IsEmpty,
        4 => Op::Stats,
        5 | 6 => Op::Pin,
        7 => Op::Unpin,
        8 => Op::Repin,
        9 => Op::Flush,
        10 => Op::Release,
        _ => return None,
    })
}

/// What a read of a changed node sees: nothing, a value, or a node that stands, is gone or never was.
fn sight_by(drawn: u64) -> Sight {
    match drawn % 4 {
        0 => Sight::Blank,
        1 => Sight::Value(77),
        _ => Sight::Node(
            (drawn.wrapping_shr(2) % 64) as u32,
            (drawn.wrapping_shr(8) % 3) as u32,
        ),
    }
}

/// What comes to a step from outside: each eighth exchange fails, and each answer is another one, or none.
fn noise_by(drawn: u64) -> Noise<Id, u64> {
    let answer = match drawn.wrapping_shr(12) % 8 {
        0 => None,
        1 => Some(None),
        _ => Some(Some(drawn.wrapping_shr(15) % 4)),
    };
    let lie = (
        sight_by(drawn.wrapping_shr(3)),
        (drawn % 256) as u8,
        drawn % 2 == 0,
        (drawn % 64) as u16,
    );
    noise_of(drawn.wrapping_shr(20) % 8 == 0, Some(lie), answer)
}

/// The call that has taken this answer.
fn answered(call: Call<u64>, answer: Option<Option<u64>>) -> Call<u64> {
    match (call, answer) {
        (Call::ComputePresent(key, _), Some(new)) => Call::ComputePresent(key, new),
        (Call::ComputeInsert(key, _), Some(Some(new))) => Call::ComputeInsert(key, new),
        (call, _) => call,
    }
}

/// The call as its entry has it: nothing was answered of a key that was absent.
fn replied_to(call: Call<u64>, reply: Reply<u64>) -> Call<u64> {
    match (call, reply) {
        (Call::ComputePresent(key, _), Reply::ComputePresent(None)) => {
            Call::ComputePresent(key, None)
        }
        (call, _) => call,
    }
}

impl Seat {
    /// The call after a step that told this; its entry has its place since it took effect.
    fn hear(
        &mut self,
        entries: &mut Vec<Entry<u64>>,
        worker: u32,
        told: Told,
    ) -> Result<(), AllocError> {
        self.standing = told.standing;
        if told.decided {
            self.place = Some(entries.len());
            entries.push(entry(Call::Get(0), Reply::Get(None)))?;
        }
        if let (Standing::Replied(reply), Some(call)) = (told.standing, self.call) {
            if let Some(entry) = entries.get_mut(self.place.unwrap_or(usize::MAX)) {
                let call = replied_to(call, reply);
                *entry = Entry {
                    worker,
                    call,
                    reply,
                };
            }
        }
        Ok(())
    }
}

/// Turns of workers.
impl Crowd {
    /// The next number that is drawn.
    fn draw(&mut self) -> u64 {
        self.number = next(self.number);
        self.number.wrapping_shr(33)
    }

    fn step(&mut self, index: &mut Index, worker: u32, step: Step<u64>) -> Result<(), AllocError> {
        let told = takes(index, step);
        match self.seats.get_mut(worker as usize) {
            Some(seat) => seat.hear(&mut self.told, worker, told),
            None => Ok(()),
        }
    }

    /// A step of a worker's call, to which this comes from outside, if one is in flight; tells whether one was.
    fn go(
        &mut self,
        index: &mut Index,
        worker: u32,
        noise: Noise<Id, u64>,
    ) -> Result<bool, AllocError> {
        let Some(seat) = self.seats.get_mut(worker as usize) else {
            return Ok(false);
        };
        if let (Standing::Asks(_), Some(call)) = (seat.standing, seat.call) {
            seat.call = Some(answered(call, noise.answer));
        }
        let goes = seat.standing.is_in_flight();
        if goes {
            self.step(index, worker, going(worker, noise))?;
        }
        Ok(goes)
    }

    /// A worker begins what is drawn.
    fn begin(&mut self, index: &mut Index, worker: u32, drawn: u64) -> Result<(), AllocError> {
        let mut seat = FREE;
        let op = match op_by(drawn) {
            Some(op) => op,
            None => {
                let call = call_by(drawn);
                seat.call = Some(call);
                op_of(call)
            }
        };
        if let Some(place) = self.seats.get_mut(worker as usize) {
            *place = seat;
        }
        self.step(index, worker, beginning(worker, op))
    }

    /// The turn of one of the workers; or one comes anew, where a place is free.
    fn turn(&mut self, index: &mut Index) -> Result<(), AllocError> {
        let (drawn, noise) = (self.draw(), self.draw());
        let worker = (drawn.wrapping_shr(27) % u64::from(WORKERS)) as u32;
        if drawn.wrapping_shr(16) % 32 == 0 {
            takes(index, registering());
        } else if !self.go(index, worker, noise_by(noise))? {
            self.begin(index, worker, drawn)?;
        }
        Ok(())
    }
}

/// More steps than any call takes, and more guards than a worker has.
const LONG: u32 = 1_000;

/// The most removals of a bag.
const BAG: u64 = 64;

/// Its rests.
impl Crowd {
    /// Each call goes on to its end, whoever left comes, and nobody stays pinned.
    fn rest(&mut self, index: &mut Index) -> Result<(), AllocError> {
        for _ in 0..LONG {
            for worker in 0..WORKERS {
                self.go(index, worker, noise(false, Some(Some(1))))?;
            }
        }
        for worker in 0..WORKERS {
            takes(index, registering());
            for _ in 0..LONG {
                if !is_done(index, worker, Op::Unpin) {
                    break;
                }
            }
        }
        Ok(())
    }

    /// Tells what each key has, as look-ups of worker 0.
    fn look(&mut self, index: &mut Index) -> Result<(), AllocError> {
        is_done(index, 0, Op::Pin);
        for number in 0..16 {
            let look = Call::Get(key_by(number));
            if let Standing::Replied(reply) = Standing::of(call(index, 0, look)) {
                self.told.push(entry(look, reply))?;
            }
        }
        is_done(index, 0, Op::Unpin);
        Ok(())
    }

    /// What isn't as it must be after some turns, when all calls have ended.
    fn wrong_rest(&mut self, index: &mut Index) -> Result<Option<&'static str>, AllocError> {
        for _ in 0..TURNS {
            self.turn(index)?;
        }
        self.rest(index)?;
        if !is_charged(index) {
            return Ok(Some("the charge"));
        }
        if !comes_back(index) {
            return Ok(Some("what waits after quiet rounds"));
        }
        if !is_charged(index) {
            return Ok(Some("the charge after quiet rounds"));
        }
        self.look(index)?;
        Ok(None)
    }
}

/// Whether the nodes of the tree and those that wait are charged, and no other.
fn is_charged(index: &mut Index) -> bool {
    let outcome = whole(index, 0, Op::Stats, None, &mut []);
    let (charged, _, waiting) = state(index);
    match outcome {
        Outcome::Done(Done::Stats(stats)) => { charged == bytes_of(&stats).saturating_add(waiting) }
        _ => false,
    }
}

/// Whether quiet rounds of worker 0 leave a bag of each other one at most, and nothing once these have flushed.
fn comes_back(index: &mut Index) -> bool {
    let rounds = state(index).1.div_ceil(8).saturating_add(2);
    let mut are_done = are_rounds_done(index, 0, rounds.min(LONG.into()) as u32);
    are_done &= state(index).1 <= 3 * BAG;
    for worker in 1..WORKERS {
        are_done &= are_rounds_done(index, worker, 1);
    }
    are_done &= are_rounds_done(index, 0, 3);
    let (_, waiting, bytes) = state(index);
    are_done && (waiting, bytes) == (0, 0)
}

/// The bytes of the nodes that statistics count.
fn bytes_of(stats: &NodeStats) -> u64 {
    let mut bytes = 0u64;
    for level in &stats.levels {
        for (info, size) in [
            (level.n4, 64),
            (level.n16, 168),
            (level.n48, 672),
            (level.n256, 2104),
        ] {
            bytes = bytes.saturating_add(info.node_count.saturating_mul(size));
        }
    }
    bytes
}

/// What of a whole schedule isn't as it must be.
fn wrong_of(
    alloc: Global,
    index: &mut Index,
    seed: u64,
) -> Result<Option<&'static str>, AllocError> {
    let mut crowd = Crowd {
        seats: [FREE; 4],
        told: Vec::new(alloc),
        number: seed,
    };
    for _ in 0..RESTS {
        let wrong = crowd.wrong_rest(index)?;
        if wrong.is_some() {
            return Ok(wrong);
        }
    }
    if crowd.told.as_slice() != index.journal() {
        return Ok(Some("the journal"));
    }
    match check(alloc, &crowd.told)? {
        Verdict::Legal => Ok(None),
        Verdict::Wrong(_) => Ok(Some("an answer")),
    }
}

/// What of an index isn't as it must be whose workers have come.
fn first_wrong(alloc: Global, seed: u64) -> Result<Option<&'static str>, Fail> {
    let mut index = journaled(alloc, WORKERS, 5_000, PLACES)?;
    let wrong = wrong_of(alloc, &mut index, seed);
    discard(index);
    Ok(wrong?)
}

#[test]
fn four_workers_answer_as_one_map(rt: HostRuntime) -> Result<(), Fail> {
    for seed in 0..number_in(&rt, "TRIAL_SCHEDULES", 5) {
        let wrong = first_wrong(rt.alloc(), seed.into())?;
        assert_same(&rt, (seed, wrong), (seed, None));
    }
    Ok(())
}
