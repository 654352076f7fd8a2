//! Two calls on single keys: whether they answered as one map does, in the order in which they took effect, and the nodes that
//! stand are charged.

use super::flights::{Flight, entry};
use super::orders::{CELLS, Ground, Pair, Plays, Turn};
use super::told::{Standing, state};
use super::{Index, are_rounds_done, call, is_done};
use crate::tests::texts::{call_of, numbers, pairs, part};
use joint::Op;
use judge::{Call, Entry, Reply, Verdict, check};
use std::alloc::Global;
use std::test::Fail;

/// Two calls on what stands before them.
#[derive(Drop)]
pub struct Case {
    pub ground: Ground,
    pub calls: [Flight; 2],
    /// What the tree takes in the end, in bytes: where the first call took effect first, and where the second one did.
    charges: [u64; 2],
}

impl Case {
    /// A case, as its pairs, its calls, its charges, and the keys that are taken out before. With `turned` the calls are those of
    /// the other worker.
    pub fn of(alloc: Global, text: &str, turned: bool) -> Result<Case, Fail> {
        let [one, other, charge, late] = if turned { [2, 1, 4, 3] } else { [1, 2, 3, 4] };
        let first = call_of(alloc, part(text, one))?;
        let second = call_of(alloc, part(text, other))?;
        Ok(Case {
            ground: Ground {
                cells: CELLS,
                pairs: pairs(alloc, part(text, 0))?,
                gone: numbers(alloc, part(text, 5))?,
            },
            calls: [Flight::on_key(0, first), Flight::on_key(1, second)],
            charges: [
                part(text, charge).parse::<u64>()?,
                part(text, late).parse::<u64>()?,
            ],
        })
    }

    fn is_right(&self, alloc: Global, pair: &mut Pair) -> Result<bool, Fail> {
        let [first, second] = pair.calls;
        let (Some(one), Some(other)) = (first.entry(), second.entry()) else {
            return Ok(false);
        };
        let [charge, turned] = self.charges;
        let (entries, charge) = if first.turn < second.turn {
            ([one, other], charge)
        } else {
            ([other, one], turned)
        };
        let looks = looks(alloc, &mut pair.index)?;
        let is_map = is_map(alloc, &self.ground, entries, &looks)?;
        Ok(is_map && is_charged(&mut pair.index, charge))
    }
}

impl Plays for Case {
    fn goes(&self, alloc: Global, plan: &[Turn]) -> Result<bool, Fail> {
        let mut pair = Pair::on(alloc, &self.ground, self.calls)?;
        pair.fly(plan);
        let is_right = self.is_right(alloc, &mut pair);
        let _calls = pair.end();
        is_right
    }
}

/// The keys of all cases.
const KEYS: [u64; 16] = [
    0, 1, 2, 3, 4, 5, 256, 257, 512, 513, 768, 769, 1025, 65_536, 65_792, 66_048,
];

/// What each key has in the end, as calls of a worker.
fn looks(alloc: Global, index: &mut Index) -> Result<Vec<Entry<u64>>, Fail> {
    let mut looks = Vec::new(alloc);
    for key in KEYS {
        let look = Call::Get(key);
        if let Standing::Replied(reply) = Standing::of(call(index, 0, look)) {
            looks.push(entry(look, reply))?;
        }
    }
    Ok(looks)
}

/// The value of a key among pairs.
pub fn value_at(pairs: &[(u64, u64)], key: u64) -> Option<u64> {
    for (at, value) in pairs {
        if *at == key {
            return Some(*value);
        }
    }
    None
}

/// The journal of what is done before two calls.
pub fn journal_of(alloc: Global, ground: &Ground) -> Result<Vec<Entry<u64>>, Fail> {
    let mut journal = Vec::new(alloc);
    for (key, value) in &ground.pairs {
        journal.push(entry(Call::Insert(*key, *value), Reply::Insert(None)))?;
    }
    for key in &ground.gone {
        let reply = Reply::Remove(value_at(&ground.pairs, *key));
        journal.push(entry(Call::Remove(*key), reply))?;
    }
    Ok(journal)
}

/// Whether two calls, and then a look at each key, answer as a map.
fn is_map(
    alloc: Global,
    ground: &Ground,
    entries: [Entry<u64>; 2],
    looks: &[Entry<u64>],
) -> Result<bool, Fail> {
    let mut journal = journal_of(alloc, ground)?;
    for entries in [entries.as_slice(), looks] {
        for entry in entries {
            journal.push(*entry)?;
        }
    }
    Ok(looks.len() == KEYS.len() && check(alloc, &journal)? == Verdict::Legal)
}

/// Whether the tree takes so many bytes, and all that waits goes in quiet rounds.
fn is_charged(index: &mut Index, bytes: u64) -> bool {
    let (charged, _, waiting) = state(index);
    let mut are_done = true;
    for worker in 0..2 {
        are_done &= is_done(index, worker, Op::Unpin);
    }
    for worker in 0..2 {
        are_done &= are_rounds_done(index, worker, 3);
    }
    are_done && charged.saturating_sub(waiting) == bytes && state(index) == (bytes, 0, 0)
}
