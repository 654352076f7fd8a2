//! Calls on an index whose readers take no lock that stand for many, and a walk, pair by pair.
ghost use Rattle.std.specs.Prelude.{◌≡◌, ℕ, ◌≤◌, List, Some, IfSome, take, true};
ghost use Rattle.optimistic.specs.declared.words.rule.Entry.{Entry};
ghost use Rattle.optimistic.specs.face.Calls.{Saw};
ghost use Rattle.optimistic.specs.face.Many.{Answered, PutAll};
ghost use Rattle.optimistic.specs.face.Scans.{FirstFrom};
ghost use Rattle.optimistic.specs.tree.Drained.{GaveAll, IsClosed};

use optimistic::{Pair, Pairs, Walk, Worker};
use std::sync::Wait;

/// Puts pairs, and tells whether all were put, one call of the log after the other.
pub fn puts_all<R: Wait>(rt: &R, worker: &mut Worker<'_>, pairs: &[Pair]) -> bool
    ensures { result ≡ true → PutAll pairs.now worker.old worker.new }
{
    match worker.insert_many(rt, pairs) {
        Ok(()) => true,
        Err(_) => false,
    }
}

/// The answers to keys, as many as there are places for. Each key had its answer at a moment within the call.
pub fn answers<R: Wait>(
    rt: &R,
    worker: &mut Worker<'_>,
    keys: &[u64],
    out: &mut [Option<u64>],
) -> usize
    ensures answers { Answered worker.old.seen (take result keys.now) (take result out.new) worker.new.seen }
    ensures saw { Saw worker.old worker.new }
{
    worker.get_many(rt, keys, out)
}

/// The first pair of a range, by a walk that goes no further: it was the first one from the start on, at one moment.
pub fn walks_once<R: Wait>(rt: &R, worker: &mut Worker<'_>, start: u64, last: u64) -> Option<Pair>
    ensures { IfSome result (λ p. FirstFrom start (Some p) worker.old worker.new × (p.key ≤ last)) }
{
    let mut walk = Walk::new(start, last);
    worker.step(rt, &mut walk)
}

/// Tells a closed index's pairs to a closure: all of them, in ascending order, as one log makes them.
pub fn tells_all<F: FnMut(u64, u64)>(pairs: &mut Pairs, f: &mut F) -> bool
    requires { F.IsAlwaysCallable f.old }
    ensures { (seen made : List Entry) (by : ℕ) → IsClosed seen made by pairs.old → result ≡ true → GaveAll (λ d k v e. F.step d k v tt e) seen made by f.old f.new }
{
    match pairs.for_each(f) {
        Ok(()) => true,
        Err(_) => false,
    }
}
