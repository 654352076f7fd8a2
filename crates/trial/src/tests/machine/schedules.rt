//! Reclamation can't be seen: calls answer alike with rounds between them and without.

use super::drawn::{next, number_in, step_at};
use super::flights::Flight;
use super::orders::{Ground, Pair, Turn, is_tried};
use super::told::{Standing, state};
use super::{Index, count_of, discard, open, replied};
use crate::tests::asserts::assert_same;
use joint::{Refusal, Step};
use judge::{Call, Reply};
use std::alloc::{AllocError, Global};
use std::test::Fail;

/// The call that a drawn number stands for: six keys share a leaf, which grows at the fifth, and two have leaves of their own.
fn call_by(drawn: u64) -> Call<u64> {
    let key = match drawn % 8 {
        6 => 256,
        7 => 1 << 63,
        key => key,
    };
    match drawn.wrapping_shr(3) % 8 {
        0 => Call::Get(key),
        1 => Call::ComputeInsert(key, drawn % 3),
        2 => Call::ComputePresent(key, Some(1)),
        3 => Call::ComputePresent(key, None),
        4 => Call::Exchange(key, 1, None),
        5 => Call::Remove(key),
        _ => Call::Insert(key, 1),
    }
}

/// Two calls have begun on an index without a pair.
fn begun(alloc: Global) -> Result<Pair, Refusal> {
    let ground = Ground {
        cells: 100,
        pairs: Vec::new(alloc),
        gone: Vec::new(alloc),
    };
    let calls = [
        Flight::on_key(0, Call::Insert(0, 1)),
        Flight::on_key(1, Call::Insert(1, 1)),
    ];
    let mut pair = Pair::on(alloc, &ground, calls)?;
    pair.fly(&[Turn::Begin(0), Turn::Begin(1)]);
    Ok(pair)
}

/// A step of one of the two calls; where that has ended the next one.
fn turn(pair: &mut Pair, drawn: u64) {
    let who = (drawn.wrapping_shr(20) % 2) as usize;
    if pair.is_in_flight(who) {
        pair.step(who, 0, false, None);
    } else {
        pair.begin_anew(who, call_by(drawn));
    }
}

/// How both calls stand.
fn standings(pair: &Pair) -> [Standing; 2] {
    let [first, second] = pair.calls;
    [first.standing, second.standing]
}

/// Whether both tell the same at each of so many turns, though a round comes after every sixth turn or so of the second one.
fn are_alike(plain: &mut Pair, swept: &mut Pair, seed: u64, turns: u32) -> bool {
    let mut number = seed;
    for _ in 0..turns {
        number = next(number);
        let drawn = number.wrapping_shr(33);
        turn(plain, drawn);
        turn(swept, drawn);
        if standings(plain) != standings(swept) {
            return false;
        }
        if drawn.wrapping_shr(24) % 6 == 0 {
            swept.collect();
        }
    }
    true
}

/// How many fewer nodes wait at the end of a drawn schedule with rounds, if it tells the same as without.
fn destroyed(alloc: Global, seed: u64) -> Result<Option<u64>, Fail> {
    let mut plain = begun(alloc)?;
    let told = destroyed_beside(alloc, &mut plain, seed);
    let _calls = plain.end();
    told
}

fn destroyed_beside(alloc: Global, plain: &mut Pair, seed: u64) -> Result<Option<u64>, Fail> {
    let mut swept = begun(alloc)?;
    let are_alike = are_alike(plain, &mut swept, seed, 1_000);
    let left = state(&swept.index).1;
    let _calls = swept.end();
    if !are_alike {
        return Ok(None);
    }
    Ok(Some(state(&plain.index).1.saturating_sub(left)))
}

/// How many schedules there are. Each destroys two nodes or more, on an average.
const SCHEDULES: u32 = 100;

#[test]
fn drawn_schedules_tell_the_same_with_rounds_between(rt: HostRuntime) -> Result<(), Fail> {
    let every = number_in(&rt, "TRIAL_ORDERS", 10);
    let (mut tried, mut all) = (0u64, 0u64);
    for seed in 0..SCHEDULES {
        if is_tried(seed, every) {
            let count = destroyed(rt.alloc(), u64::from(seed))?;
            assert_same(&rt, (seed, count.is_some()), (seed, true));
            tried = tried.saturating_add(1);
            all = all.saturating_add(count.unwrap_or(0));
        }
    }
    let most = tried.saturating_mul(2);
    assert_same(&rt, all.min(most), most);
    Ok(())
}

fn many_steps(alloc: Global) -> Result<Vec<Step<u64>>, AllocError> {
    let mut steps = Vec::with_capacity(alloc, 10_000)?;
    for number in 0..10_000 {
        steps.push(step_at(number))?;
    }
    Ok(steps)
}

/// How many steps a run takes, how many reports it gives, and how many of them tell of a pair that is new.
fn counts(alloc: Global, index: &mut Index) -> Result<(usize, usize, usize), AllocError> {
    let ran = index.run(alloc, many_steps(alloc)?);
    let put = count_of(&ran.reports, &replied(Reply::Insert(None)));
    Ok((ran.done, ran.reports.len(), put))
}

/// Whether two runs into a list fill it, the first one alone.
fn fills(alloc: Global, index: &mut Index) -> Result<bool, AllocError> {
    let mut reports = Vec::with_capacity(alloc, 100)?;
    let room = reports.capacity();
    let first = index.run_into(many_steps(alloc)?, &mut reports);
    let second = index.run_into(many_steps(alloc)?, &mut reports);
    Ok((first, second, reports.len()) == (room, 0, room))
}

#[test]
fn a_run_into_a_list_fills_it(rt: HostRuntime) -> Result<(), Fail> {
    let mut index = open(rt.alloc(), 1, 1_000)?;
    let fills = fills(rt.alloc(), &mut index);
    discard(index);
    assert_same(&rt, fills, Ok(true));
    Ok(())
}

#[test]
fn a_run_takes_ten_thousand_steps(rt: HostRuntime) -> Result<(), Fail> {
    let mut index = open(rt.alloc(), 1, 1_000)?;
    let counts = counts(rt.alloc(), &mut index);
    discard(index);
    assert_same(&rt, counts?, (10_000, 10_000, 270));
    Ok(())
}
