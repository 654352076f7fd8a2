//! Histories: the calls of threads at one index, judged to be one map's.

use super::calls::{Draws, Timed, key_called, key_of};
use super::lanes::{Task, count_of, ran};
use super::search::has_order;
use crate::tests::asserts::assert_same;
use crate::tests::machine::drawn::number_in;
use judge::{Call, Entry, Reply};
use optimistic::Pair;
use std::alloc::{AllocError, Global};
use std::process::Abort;
use std::sync::Wait;
use std::test::Fail;
use std::thread::Threads;

/// How many calls each thread makes; the sweep has it make more.
const CALLS: u32 = 500;

/// Room for all nodes that a history of so many keys can have.
const AMPLE: u32 = 100_000;

/// Too little for all nodes of a history on 96 keys.
const TIGHT: u32 = 300;

/// The calls of one key.
fn of_key(alloc: Global, key: u64, lanes: &[Vec<Timed>]) -> Result<Vec<Vec<Timed>>, AllocError> {
    let mut some = Vec::new(alloc);
    for lane in lanes {
        let mut own = Vec::new(alloc);
        for call in lane {
            if key_called(call.entry.call) == key {
                own.push(*call)?;
            }
        }
        some.push(own)?;
    }
    Ok(some)
}

/// Whether the calls of each key are one map's.
fn is_legal_by_keys(
    alloc: Global,
    keys: u64,
    lanes: &[Vec<Timed>],
    pairs: &[Pair],
) -> Result<bool, AllocError> {
    let mut others = pairs.len();
    for place in 0..keys {
        let key = key_of(place);
        let own = of_key(alloc, key, lanes)?;
        let mut pair = Vec::new(alloc);
        for found in pairs {
            if found.key == key {
                pair.push(*found)?;
            }
        }
        others = others.saturating_sub(pair.len());
        if !has_order(alloc, &own, Some(&pair))? {
            return Ok(false);
        }
    }
    Ok(others == 0)
}

/// How many threads make calls on how many keys; how many calls mostly put keys in, before as many that take them out; how many calls
/// each makes; how many words there are for nodes; and whether the calls have one order, or those of each key.
type Plan = (u32, u64, u32, u32, u32, bool);

/// A plan's calls are one map's, which has then what the index had. Where the room is tight some are refused, which change nothing.
fn holds<R: Threads + Wait + Sync + Abort>(rt: &R, alloc: Global, plan: Plan) -> Result<(), Fail> {
    let (threads, keys, phase, count, room, is_whole) = plan;
    let draws = Draws { keys, phase, count };
    let (lanes, pairs) = ran(rt, alloc, room, threads, Task::Draws(draws))?;
    let is_one_maps = if is_whole {
        has_order(alloc, &lanes, Some(&pairs))?
    } else {
        is_legal_by_keys(alloc, keys, &lanes, &pairs)?
    };
    let most = (threads as usize).saturating_mul(count as usize);
    let known = (is_one_maps, count_of(&lanes) < most);
    assert_same(rt, (plan, known), (plan, (true, room == TIGHT)));
    Ok(())
}

/// Plans, with how many times the usual number of calls. Of one thread, nodes of each form come and go.
const PLANS: [Plan; 6] = [
    (1, 600, 5_000, 40, AMPLE, true),
    (2, 8, 250, 1, AMPLE, false),
    (4, 8, 250, 1, AMPLE, false),
    (4, 96, 250, 1, AMPLE, false),
    (16, 96, 250, 1, AMPLE, false),
    (4, 96, 250, 1, TIGHT, false),
];

/// Those; and a few calls of three threads on few keys, in one order.
#[test]
fn threads_calls_are_one_maps(rt: HostRuntime) -> Result<(), Fail> {
    let usual = number_in(&rt, "TRIAL_CALLS", CALLS);
    for (threads, keys, phase, times, room, is_whole) in PLANS {
        let plan = (
            threads,
            keys,
            phase,
            usual.saturating_mul(times),
            room,
            is_whole,
        );
        holds(&rt, rt.alloc(), plan)?;
    }
    for phase in 1..100 {
        holds(&rt, rt.alloc(), (3, 3, phase, 12, 500, true))?;
    }
    Ok(())
}

/// A call of a history that a person worked out: its thread, when it began and ended, and its entry.
type Worked = (u32, u64, u64, Call<u64>, Reply<u64>);

fn by_threads(alloc: Global, rows: &[Worked]) -> Result<Vec<Vec<Timed>>, AllocError> {
    let mut lanes = Vec::new(alloc);
    for thread in 0..3u32 {
        let mut lane = Vec::new(alloc);
        for (owner, begin, end, call, reply) in rows {
            let entry = Entry {
                worker: thread,
                call: *call,
                reply: *reply,
            };
            if *owner == thread {
                lane.push(Timed {
                    begin: *begin,
                    end: *end,
                    entry,
                })?;
            }
        }
        lanes.push(lane)?;
    }
    Ok(lanes)
}

/// Two calls that put something at the key.
const PUT: Worked = (0, 0, 10, Call::Insert(1, 5), Reply::Insert(None));

const AGAIN: Worked = (1, 0, 20, Call::Insert(1, 6), Reply::Insert(None));

/// Histories, and whether each is one map's.
const WORKED: [(&'static [Worked], bool); 8] = [
    (&[PUT, (1, 5, 15, Call::Get(1), Reply::Get(None))], true),
    (&[PUT, (1, 11, 15, Call::Get(1), Reply::Get(None))], false),
    (
        &[
            PUT,
            (1, 5, 6, Call::Get(1), Reply::Get(Some(5))),
            (2, 7, 8, Call::Get(1), Reply::Get(None)),
        ],
        false,
    ),
    (
        &[
            PUT,
            (1, 5, 9, Call::Get(1), Reply::Get(Some(5))),
            (2, 7, 8, Call::Get(1), Reply::Get(None)),
        ],
        true,
    ),
    (
        &[
            PUT,
            AGAIN,
            (2, 0, 30, Call::Remove(1), Reply::Remove(Some(5))),
        ],
        true,
    ),
    (
        &[
            PUT,
            AGAIN,
            (2, 0, 30, Call::Remove(1), Reply::Remove(Some(6))),
        ],
        true,
    ),
    (
        &[
            PUT,
            AGAIN,
            (2, 21, 30, Call::Remove(1), Reply::Remove(Some(7))),
        ],
        false,
    ),
    (
        &[
            PUT,
            AGAIN,
            (2, 11, 12, Call::Remove(1), Reply::Remove(Some(6))),
            (2, 13, 14, Call::Get(1), Reply::Get(Some(6))),
        ],
        false,
    ),
];

/// Histories that are no map's are refused.
#[test]
fn an_order_is_found_where_there_is_one(rt: HostRuntime) -> Result<(), Fail> {
    for (number, (calls, is_one_maps)) in WORKED.iter().enumerate() {
        let lanes = by_threads(rt.alloc(), *calls)?;
        let known = has_order(rt.alloc(), &lanes, None)?;
        assert_same(&rt, (number, known), (number, *is_one_maps));
    }
    Ok(())
}
