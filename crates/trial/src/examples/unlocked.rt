//! An index whose readers take no lock, with two threads.
ghost use Rattle.std.specs.Prelude.{◌≡◌, ℕ, List, Some, IfSome};
ghost use Rattle.optimistic.specs.declared.words.rule.Entry.{Entry};
ghost use Rattle.optimistic.specs.words.Kept.{value_of};
ghost use Rattle.optimistic.specs.face.Calls.{HasCall};
ghost use Rattle.optimistic.specs.tree.Drained.{IsAll};

use optimistic::{Pair, Retired, Seen, U64Congee};
use std::alloc::Global;
use std::sync::Wait;
use std::thread::{Threads, join};

/// What a thread read of its key, and what it has then seen of the index.
#[derive(Drop)]
pub struct Report<'t> {
    pub read: Option<u64>,
    pub seen: Seen<'t>,
}

/// Puts a value at a key and reads the key. What it reads is the key's value after all calls that it has then seen, and its
/// own is one of them. Nothing where a call is refused.
#[tactic(auto, using(optimistic::proofs::Laws::call_wrote, optimistic::proofs::Laws::call_later))]
fn puts_and_reads<'t, R: Wait>(
    rt: &R,
    index: &'t U64Congee,
    alloc: Global,
    key: u64,
    value: u64,
) -> Option<Report<'t>>
    ensures index { IfSome result (λ r. r.seen.index ≡ index.now.tree.nodes.table.shared.table_id) }
    ensures put { IfSome result (λ r. HasCall key (Some value) r.seen.seen) }
    ensures read { IfSome result (λ r. r.read ≡ value_of key r.seen.seen) }
{
    let mut worker = index.worker(alloc).ok()?;
    let Ok(_old) = worker.insert(rt, key, value) else {
        return None;
    };
    let read = worker.get(rt, key);
    let seen = worker.note();
    Some(Report { read, seen })
}

/// A worker that has seen what two others had, given back.
#[tactic(auto, using(optimistic::proofs::Laws::call_later))]
fn told<'t>(index: &'t U64Congee, alloc: Global, one: Seen<'t>, two: Seen<'t>) -> Option<Retired>
    requires one { one.index ≡ index.now.tree.nodes.table.shared.table_id }
    requires two { two.index ≡ index.now.tree.nodes.table.shared.table_id }
    ensures index { IfSome result (λ r. r.index ≡ index.now.tree.nodes.table.shared.table_id) }
    ensures one { (key value : _) → HasCall key value one.entry.seen → IfSome result (λ r. HasCall key value r.seen) }
    ensures two { (key value : _) → HasCall key value two.entry.seen → IfSome result (λ r. HasCall key value r.seen) }
{
    let mut worker = index.worker(alloc).ok()?;
    worker.heed(one);
    worker.heed(two);
    Some(worker.retire())
}

/// Has two threads put 10 at 1 and 20 at 2, and learns what they have seen.
fn shares<R: Threads + Wait + Sync>(rt: &R, index: &U64Congee, alloc: Global) -> Option<Retired>
    ensures index { IfSome result (λ r. r.index ≡ index.now.tree.nodes.table.shared.table_id) }
    ensures put { IfSome result (λ r. HasCall 1 (Some 10) r.seen × HasCall 2 (Some 20) r.seen) }
{
    let (one, two) = join(
        rt,
        move || puts_and_reads(rt, index, alloc, 1, 10),
        move || puts_and_reads(rt, index, alloc, 2, 20),
    );
    match (one, two) {
        (Some(one), Some(two)) => told(index, alloc, one.seen, two.seen),
        _ => None,
    }
}

/// Closes an index, with a worker that was given back, and drains it.
fn drains(index: U64Congee, alloc: Global, last: Retired) -> Option<Vec<Pair>>
    requires { last.index ≡ index.tree.nodes.table.shared.table_id }
    ensures { IfSome result (λ pairs. IsAll last.seen last.made last.by pairs.items) }
{
    let Ok(mut pairs) = index.close(last) else {
        return None;
    };
    match pairs.drain(alloc) {
        Ok(drained) => Some(drained),
        Err(_) => None,
    }
}

/// Opens an index, has two threads put values into it, closes it and drains it: the pairs are all of one log, which comes after
/// the calls of both threads.
pub fn shares_and_drains<R: Threads + Wait + Sync>(rt: &R, alloc: Global) -> Option<Vec<Pair>>
    ensures { IfSome result (λ pairs. (seen : List Entry) × (made : List Entry) × (by : ℕ) × IsAll seen made by pairs.items × HasCall 1 (Some 10) seen × HasCall 2 (Some 20) seen) }
{
    let index = U64Congee::new(alloc, 10_000).ok()?;
    let last = shares(rt, &index, alloc)?;
    let pairs = drains(index, alloc, last)?;
    Some(pairs)
}
