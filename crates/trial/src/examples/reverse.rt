//! The newest entries of a log, whose numbers are its keys, newest first, of an index whose readers take no lock.
ghost use Rattle.std.specs.Prelude.{◌≡◌, ◌⊎◌, ℕ, ◌<◌, ◌≤◌, ◌^◌, List, Some, IfSome, take};
ghost use Rattle.std.specs.List.{AllPairs, Contains};
ghost use Rattle.optimistic.specs.declared.drain.nexts.Pair.{Pair};
ghost use Rattle.optimistic.specs.declared.words.rule.Entry.{Entry};
ghost use Rattle.optimistic.specs.words.Kept.{value_of};
ghost use Rattle.optimistic.specs.tree.Drained.{pair_of};

use optimistic::{Pair, U64Congee, WalkBack, Worker};
use std::alloc::Global;
use std::sync::Wait;

/// How many entries are read at most.
const NEWEST: usize = 4;

/// The newest entries, as many as there are.
#[derive(Drop)]
pub struct Latest {
    pub count: usize,
    pub pairs: [Pair; NEWEST],
}

/// The newest entries as they are at one moment, newest first. An entry of that moment that isn't told is older than all that are.
/// Nothing for want of memory.
pub fn newest<R: Wait>(rt: &R, alloc: Global, worker: &mut Worker<'_>) -> Option<Latest>
    ensures { IfSome result (λ n. (log : List Entry) × AllPairs (λ (p q : Pair). q.key < p.key) (take n.count n.pairs)
        × ((key value : ℕ) → key < 2 ^ 64 → value_of key log ≡ Some value
        → Contains (take n.count n.pairs) (pair_of key value) ⊎ ((p : Pair) → Contains (take n.count n.pairs) p → key < p.key))) }
{
    let mut pairs = [Pair { key: 0, value: 0 }; NEWEST];
    let Ok(count) = worker.range_rev_inclusive_at_once(rt, alloc, 0, u64::MAX, &mut pairs) else {
        return None;
    };
    Some(Latest { count, pairs })
}

/// The newest entry up to a number, and one before it: the second is older than the first, whatever is put and taken out between.
pub fn newest_two<R: Wait>(rt: &R, worker: &mut Worker<'_>, last: u64) -> Option<(Pair, Pair)>
    ensures { IfSome result (λ r. (r.1.key < r.0.key) × (r.0.key ≤ last)) }
{
    let mut walk = WalkBack::new(0, last);
    let newest = worker.step_back(rt, &mut walk)?;
    let before = worker.step_back(rt, &mut walk)?;
    Some((newest, before))
}

/// Appends the entries from 1 to 6, and reads the newest ones, and two up to 4.
pub fn appends_and_reads<R: Wait>(rt: &R, alloc: Global) -> Option<(Latest, (Pair, Pair))> {
    let index = U64Congee::new(alloc, 10_000).ok()?;
    let mut worker = index.worker(alloc).ok()?;
    for entry in 1..7 {
        let Ok(_old) = worker.insert(rt, entry, entry * 10) else {
            return None;
        };
    }
    let read = newest(rt, alloc, &mut worker)?;
    let two = newest_two(rt, &mut worker, 4)?;
    Some((read, two))
}
