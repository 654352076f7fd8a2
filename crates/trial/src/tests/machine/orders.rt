//! Two calls beside each other on a small index, by turns: the one driver of all orders of two calls' steps.

use super::flights::Flight;
use super::lies::{Lie, noise_of};
use super::{Index, are_rounds_done, call, discard, is_done, open};
use crate::tests::texts::small;
use joint::{Op, Refusal};
use judge::Call;
use std::alloc::{AllocError, Global};
use std::test::Fail;

/// Two workers have calls, and this one collects.
const COLLECTOR: u32 = 2;

/// More steps than one of these calls takes that begins anew once.
pub const LONG: u32 = 70;

/// The nodes that are enough for two calls on a small tree.
pub const CELLS: u32 = 12;

/// What stands before two calls: on an index of so many nodes the pairs that are put there, and keys of those that are taken out
/// again.
#[derive(Drop)]
pub struct Ground {
    pub cells: u32,
    pub pairs: Vec<(u64, u64)>,
    pub gone: Vec<u64>,
}

/// What comes next of the first call, 0, or of the second one, 1.
#[derive(Clone, Copy)]
pub enum Turn {
    Begin(usize),
    /// So many steps, fewer where it ends.
    Go(usize, u32),
    /// The same, with a collection after each.
    Sweep(usize, u32),
    /// So many steps that are lied to; each third of the first 20 fails.
    Lied(usize, u32, Lie),
    /// Whoever isn't in a call collects.
    Collect,
    /// Its worker unpins, and does three rounds.
    Rounds(usize),
}

pub type Plan = Vec<Turn>;

/// Two calls of workers 0 and 1, who are pinned.
pub struct Pair {
    pub index: Index,
    pub calls: [Flight; 2],
}

impl Pair {
    /// Two calls that haven't begun. Worker 1 puts there what stands before.
    pub fn on(alloc: Global, ground: &Ground, calls: [Flight; 2]) -> Result<Pair, Refusal> {
        let mut index = open(alloc, 3, ground.cells)?;
        is_done(&mut index, 0, Op::Pin);
        is_done(&mut index, 1, Op::Pin);
        for (key, value) in &ground.pairs {
            call(&mut index, 1, Call::Insert(*key, *value));
        }
        for key in &ground.gone {
            call(&mut index, 1, Call::Remove(*key));
        }
        Ok(Pair { index, calls })
    }

    /// The calls, on an index that goes.
    pub fn end(self) -> [Flight; 2] {
        let Pair { index, calls } = self;
        discard(index);
        calls
    }

    /// Both calls, by these turns.
    pub fn fly(&mut self, plan: &[Turn]) {
        let mut number = 0u32;
        for turn in plan {
            self.take(*turn, number);
            number = number.saturating_add(1);
        }
    }

    fn take(&mut self, turn: Turn, number: u32) {
        match turn {
            Turn::Begin(who) => self.begin(who),
            Turn::Go(who, steps) => self.go(who, steps, number, false),
            Turn::Sweep(who, steps) => self.go(who, steps, number, true),
            Turn::Lied(who, steps, lie) => self.go_lied(who, steps, number, lie),
            Turn::Collect => self.collect(),
            Turn::Rounds(who) => self.rest(who),
        }
    }

    fn begin(&mut self, who: usize) {
        if let Some(flight) = self.calls.get_mut(who) {
            flight.begin(&mut self.index);
        }
    }

    /// The worker pins anew, and begins another call.
    pub fn begin_anew(&mut self, who: usize, call: Call<u64>) {
        if let Some(flight) = self.calls.get_mut(who) {
            let worker = flight.worker;
            is_done(&mut self.index, worker, Op::Unpin);
            is_done(&mut self.index, worker, Op::Pin);
            *flight = Flight::on_key(worker, call);
            flight.begin(&mut self.index);
        }
    }

    fn go(&mut self, who: usize, steps: u32, number: u32, sweeps: bool) {
        for _ in 0..steps {
            if !self.is_in_flight(who) {
                return;
            }
            self.step(who, number, false, None);
            if sweeps {
                self.collect();
            }
        }
    }

    fn go_lied(&mut self, who: usize, steps: u32, number: u32, lie: Lie) {
        for step in 0..steps {
            self.step(who, number, step < 20 && step % 3 == 0, Some(lie));
        }
    }

    /// A step, unless it has ended; its exchange may fail, and it may be lied to.
    pub fn step(&mut self, who: usize, number: u32, fail: bool, lie: Option<Lie>) {
        let [first, second] = self.calls;
        let other = if who == 0 { second } else { first };
        let changed = other.effects > 0;
        if let Some(flight) = self.calls.get_mut(who) {
            let noise = noise_of(fail, lie, flight.answer());
            flight.advance(&mut self.index, number, changed, noise);
        }
    }

    pub fn is_in_flight(&self, who: usize) -> bool {
        match self.calls.get(who) {
            Some(flight) => flight.standing.is_in_flight(),
            None => false,
        }
    }

    pub fn collect(&mut self) {
        for worker in 0..2 {
            if !self.is_in_flight(worker as usize) {
                is_done(&mut self.index, worker, Op::Flush);
            }
        }
        are_rounds_done(&mut self.index, COLLECTOR, 1);
    }

    fn rest(&mut self, who: usize) {
        let worker = if who == 0 { 0 } else { 1 };
        is_done(&mut self.index, worker, Op::Unpin);
        are_rounds_done(&mut self.index, worker, 3);
    }
}

/// How many steps each of two calls takes where the other one isn't there.
pub fn lengths(alloc: Global, ground: &Ground, calls: [Flight; 2]) -> Result<[u32; 2], Refusal> {
    let mut steps = [0; 2];
    for who in 0..2usize {
        let mut pair = Pair::on(alloc, ground, calls)?;
        pair.fly(&[Turn::Begin(who), Turn::Go(who, LONG)]);
        if let (Some(flight), Some(steps)) = (pair.end().get(who), steps.get_mut(who)) {
            *steps = flight.steps;
        }
    }
    Ok(steps)
}

/// The turns of two calls, each of so many steps.
pub type Turns<'a> = [&'a [u64]; 2];

/// What comes before turns of both calls and behind them, and whether a collection comes after each.
#[derive(Clone, Copy)]
pub struct Course<'a> {
    pub head: &'a [Turn],
    pub sweeps: bool,
    pub tail: &'a [Turn],
}

/// How many turns both calls have.
fn count(turns: Turns<'_>) -> u32 {
    let [first, second] = turns;
    first.len().saturating_add(second.len()).min(63) as u32
}

/// Turns of one step.
static SINGLE: [u64; 32] = [1; 32];

/// So many turns of one step of each call.
pub fn single(first: u32, second: u32) -> Turns<'static> {
    [
        SINGLE.get(..first as usize).unwrap_or(SINGLE.as_slice()),
        SINGLE.get(..second as usize).unwrap_or(SINGLE.as_slice()),
    ]
}

/// Two calls of which it is known what comes of them.
pub trait Plays {
    /// Whether both are right by these turns.
    fn goes(&self, alloc: Global, plan: &[Turn]) -> Result<bool, Fail>;
}

impl Course<'_> {
    /// The turns of both calls one after another: the second one has its next turn where the next bit of `order` tells it so, and
    /// the first one else.
    pub fn plan(&self, alloc: Global, turns: Turns<'_>, order: u64) -> Result<Plan, AllocError> {
        let [first, second] = turns;
        let mut first = first.iter();
        let mut second = second.iter();
        let mut plan = Vec::new(alloc);
        plan.extend_from_slice(self.head)?;
        for turn in 0..count(turns) {
            let turn = if order.wrapping_shr(turn) % 2 == 1 {
                Turn::Go(1, small(*second.next().unwrap_or(&0)))
            } else {
                Turn::Go(0, small(*first.next().unwrap_or(&0)))
            };
            plan.push(turn)?;
            if self.sweeps {
                plan.push(Turn::Collect)?;
            }
        }
        plan.extend_from_slice(self.tail)?;
        Ok(plan)
    }

    /// How many orders of both calls' turns there are, if one of so many of them, or each, is right.
    pub fn right_orders<P: Plays>(
        &self,
        alloc: Global,
        turns: Turns<'_>,
        case: &P,
        every: u32,
    ) -> Result<Option<u32>, Fail> {
        let [_, second] = turns;
        let mut all = 0u32;
        for order in 0..1u64.wrapping_shl(count(turns)) {
            if order.count_ones() as usize == second.len() {
                all = all.saturating_add(1);
                if is_tried(all, every) && !case.goes(alloc, &self.plan(alloc, turns, order)?)? {
                    return Ok(None);
                }
            }
        }
        Ok(Some(all))
    }
}

/// Whether the order of this number is tried, where one of so many is.
pub fn is_tried(number: u32, every: u32) -> bool {
    every == 0 || number % every == 0
}
