//! A range of an index whose readers take no lock as it is at one moment, beside a writer.
ghost use Rattle.std.specs.Prelude.{◌≡◌, ℕ, List, Some, IfSome, take};
ghost use Rattle.optimistic.specs.declared.words.rule.Entry.{Entry};
ghost use Rattle.optimistic.specs.words.Kept.{StartsWith};
ghost use Rattle.optimistic.specs.face.Calls.{HasCall};
ghost use Rattle.optimistic.specs.tree.Wholes.{IsRange};

use optimistic::{Pair, Seen, U64Congee};
use std::alloc::Global;
use std::sync::Wait;
use std::thread::{Threads, join};

/// How many pairs are read at most.
const PLACES: usize = 8;

/// The pairs of a range, as many as there are.
#[derive(Drop)]
pub struct Read {
    pub count: usize,
    pub pairs: [Pair; PLACES],
}

/// Puts a value at a key, and tells what it has then seen of the index: its own call is among it. Nothing where it is refused.
#[tactic(auto, using(optimistic::proofs::Laws::call_wrote))]
fn puts<'t, R: Wait>(
    rt: &R,
    index: &'t U64Congee,
    alloc: Global,
    key: u64,
    value: u64,
) -> Option<Seen<'t>>
    ensures index { IfSome result (λ seen. seen.index ≡ index.now.tree.nodes.table.shared.table_id) }
    ensures put { IfSome result (λ seen. HasCall key (Some value) seen.seen) }
{
    let mut worker = index.worker(alloc).ok()?;
    let Ok(_old) = worker.insert(rt, key, value) else {
        return None;
    };
    Some(worker.note())
}

/// The pairs with start <= key < end, as they were at one moment, which comes after all that another worker had seen. Nothing
/// for want of memory.
fn reads_after<'t, R: Wait>(
    rt: &R,
    index: &'t U64Congee,
    alloc: Global,
    seen: Seen<'t>,
    start: u64,
    end: u64,
) -> Option<Read>
    requires { seen.index ≡ index.now.tree.nodes.table.shared.table_id }
    ensures { IfSome result (λ r. (log : List Entry) × StartsWith log seen.entry.seen × IsRange log start end 8 (take r.count r.pairs)) }
{
    let mut worker = index.worker(alloc).ok()?;
    worker.heed(seen);
    let mut pairs = [Pair { key: 0, value: 0 }; PLACES];
    let count = worker
        .range_at_once(rt, alloc, start, end, &mut pairs)
        .ok()?;
    Some(Read { count, pairs })
}

/// The same, of a range that is read after a call. It has the pairs of one log, in which the call is.
#[tactic(auto, using(optimistic::proofs::Laws::call_later))]
fn reads_put<'t, R: Wait>(
    rt: &R,
    index: &'t U64Congee,
    alloc: Global,
    seen: Seen<'t>,
    key: u64,
    value: u64,
) -> Option<Read>
    requires index { seen.index ≡ index.now.tree.nodes.table.shared.table_id }
    requires put { HasCall key (Some value) seen.seen }
    ensures { IfSome result (λ r. (log : List Entry) × HasCall key (Some value) log × IsRange log 0 100 8 (take r.count r.pairs)) }
{
    let read = reads_after(rt, index, alloc, seen, 0, 100)?;
    Some(read)
}

/// Opens an index and puts 10 at 1. Then a thread reads all keys below 100, while another puts 20 at 2: by `reads_put` what is
/// read are the pairs of one moment, as some log has them, which has the call at 1.
pub fn reads_beside<R: Threads + Wait + Sync>(rt: &R, alloc: Global) -> Option<Read> {
    let index = U64Congee::new(alloc, 10_000).ok()?;
    let index = &index;
    let seen = puts(rt, index, alloc, 1, 10)?;
    let (read, put) = join(
        rt,
        move || reads_put(rt, index, alloc, seen, 1, 10),
        move || puts(rt, index, alloc, 2, 20),
    );
    match (read, put) {
        (Some(read), Some(_seen)) => Some(read),
        _ => None,
    }
}
