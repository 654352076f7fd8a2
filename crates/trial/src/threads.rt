//! Workers of an index that call at once, each in a thread of its own, and what is told of it.
ghost use Rattle.std.specs.Prelude.{◌≡◌, ◌+◌, ◌*◌, ◌<◌, ℕ, IfOk, OnErr, OnOk, Ok, Some, length, slice_get, take, vec_len};
ghost use Rattle.std.specs.Io.KnownBytes.{Appends};
ghost use Rattle.joint.specs.Limits.{usual};
ghost use Rattle.trial.specs.Arguments.{AreAllowed};
ghost use Rattle.trial.specs.Histories.{AreCalls, AreKept, IsHistory, Takes, Tells, told_text, writes_in};

use crate::end::End;
use crate::history::{History, text};
use crate::output::print;
use crate::worker::{Caller, Cut, Index, Worked};
use congee::DefaultAllocator;
use joint::{Journaled, Limits, Refusal, Share, audit};
use judge::{Entry, check};
use std::alloc::Global;
use std::io::Write;
use std::marker::Brand;
use std::sync::Wait;
use std::sync::ledger::{Blank, Ledger};
use std::thread;
use std::thread::Threads;

/// The cells beside two for each call.
const CELLS: u32 = 1_000;

/// What bounds the index of so many workers: two cells for each of their calls, and some beside.
fn limits(workers: u32, calls: u32) -> Limits
    requires allowed { AreAllowed workers calls }
    ensures { result ≡ usual workers (2 * workers * calls + 1000) }
{
    Limits::usual(workers, 2 * workers * calls + CELLS)
}

/// The places of its journal, one for each call.
fn places(workers: u32, calls: u32) -> u64
    requires allowed { AreAllowed workers calls }
    ensures { result ≡ workers * calls }
{
    u64::from(workers) * u64::from(calls)
}

/// The index, with a place of its journal for each call, and the share of all parts: one for each worker, and one more.
fn open<L: Ledger>(
    alloc: Global,
    blank: Blank,
    workers: u32,
    calls: u32,
) -> Result<(Index<L>, Share<L>), Refusal>
    requires allowed { AreAllowed workers calls }
    requires name { blank.name ≡ L.name }
    requires ledger { blank.parts ≡ L.parts }
    requires parts { blank.parts ≡ workers + 1 }
    ensures { IfOk result (λ opened. (opened.1.parts ≡ workers + 1) × (opened.1.count ≡ 0)) }
{
    let (limits, places) = (limits(workers, calls), places(workers, calls));
    let allocator = DefaultAllocator::new();
    Journaled::new(alloc, limits, allocator, places, workers + 1, blank)
}

/// A worker at its place, with a share of one part.
fn caller<L: Ledger, R: Wait>(
    rt: &R,
    index: &Index<L>,
    all: &mut Share<L>,
    place: u32,
) -> Result<Caller<L>, Refusal>
    requires parts { 1 < all.old.parts }
    ensures place { IfOk result (λ caller. caller.place ≡ place) }
    ensures share { IfOk result (λ caller. (caller.share.parts ≡ 1) × (caller.share.count ≡ 0)) }
    ensures parts { OnOk result (all.new.parts + 1 ≡ all.old.parts) }
    ensures count { OnOk result (all.new.count ≡ all.old.count) }
{
    let worker = index.register(rt)?;
    let share = all.split(1);
    Ok(Caller {
        place,
        worker,
        share,
    })
}

/// So many workers, each with a share of one part.
pub(crate) fn callers<L: Ledger, R: Wait>(
    rt: &R,
    alloc: Global,
    index: &Index<L>,
    all: &mut Share<L>,
    workers: u32,
) -> Result<Vec<Caller<L>>, Cut>
    requires parts { workers < all.old.parts }
    ensures len { IfOk result (λ callers. vec_len callers ≡ workers) }
    ensures each { IfOk result (λ callers. (i : ℕ) (caller : _) → slice_get callers.items i ≡ Some caller → (caller.place ≡ i) × (caller.share.parts ≡ 1) × (caller.share.count ≡ 0)) }
    ensures left { OnOk result ((all.new.parts + workers ≡ all.old.parts) × (all.new.count ≡ all.old.count)) }
{
    let mut callers = Vec::new(alloc);
    for place in 0..workers {
        callers.push(caller(rt, index, all, place)?)?;
    }
    Ok(callers)
}

/// The entries that each worker keeps. Its share is merged into that of all parts.
fn own<L: Ledger>(
    alloc: Global,
    all: &mut Share<L>,
    worked: Vec<Result<Worked<L>, Cut>>,
    calls: u32,
) -> Result<Vec<Vec<Entry<u64>>>, Cut>
    requires worked { (i : ℕ) (w : _) → slice_get worked.items i ≡ Some (Ok w) → AreCalls calls i w.own.items × (length w.own.items ≡ calls) }
    requires shares { (i : ℕ) (w : _) → slice_get worked.items i ≡ Some (Ok w) → (w.share.parts ≡ 1) × (w.share.count ≡ writes_in calls) }
    ensures len { IfOk result (λ own. vec_len own ≡ vec_len worked) }
    ensures kept { IfOk result (λ own. AreKept calls own.items) }
    ensures parts { OnOk result (all.new.parts ≡ all.old.parts + length worked.items) }
    ensures count { OnOk result (all.new.count ≡ all.old.count + length worked.items * writes_in calls) }
{
    let mut own = Vec::new(alloc);
    for one in worked {
        let Worked { share, own: kept } = one?;
        all.merge(share);
        own.push(kept)?;
    }
    Ok(own)
}

/// The history of the workers' calls, with this ledger.
fn history_by<L: Ledger + Send + Sync, R: Threads + Wait + Sync>(
    rt: &R,
    alloc: Global,
    blank: Blank,
    workers: u32,
    calls: u32,
) -> Result<History, Cut>
    requires allowed { AreAllowed workers calls }
    requires name { blank.name ≡ L.name }
    requires ledger { blank.parts ≡ L.parts }
    requires parts { blank.parts ≡ workers + 1 }
    ensures { IfOk result (λ history. IsHistory workers calls history) }
{
    let (index, mut all) = open::<L>(alloc, blank, workers, calls)?;
    let callers = callers(rt, alloc, &index, &mut all, workers)?;
    let shared = &index;
    let work = move |caller: Caller<L>| -> Result<Worked<L>, Cut>
        ensures { IfOk result (λ worked. AreCalls calls caller.place worked.own.items × (length worked.own.items ≡ calls)
            × (worked.share.parts ≡ caller.share.parts) × (worked.share.count ≡ caller.share.count + writes_in calls)) }
    { caller.work(rt, alloc, shared, calls) };
    let worked = thread::map_vec(rt, callers, &work)?;
    let own = own(alloc, &mut all, worked, calls)?;
    let gathered = index.gather_entries(rt, &mut all)?;
    let (ledger, journal) = gathered;
    let verdict = check(alloc, &journal)?;
    Ok(History {
        entries: journal.len(),
        verdict,
        audited: audit(&journal, &own),
        ledger,
    })
}

/// The history of the workers' calls.
fn history<R: Threads + Wait + Sync>(
    rt: &R,
    alloc: Global,
    workers: u32,
    calls: u32,
) -> Result<History, Cut>
    requires allowed { AreAllowed workers calls }
    ensures { IfOk result (λ history. IsHistory workers calls history) }
{
    history_by::<Brand, R>(rt, alloc, Blank::new(workers as u64 + 1), workers, calls)
}

/// Takes what came of the workers' calls.
fn tell<W: Write>(alloc: Global, writer: &mut W, told: &Result<History, Refusal>) -> Result<(), End>
    ensures ok { OnOk result (Appends (W.contents writer.old) (W.contents writer.new) (told_text told.now)) }
    ensures front { (n : ℕ) × Appends (W.contents writer.old) (W.contents writer.new) (take n (told_text told.now)) }
{
    let text = text(alloc, told)?;
    print(writer, text.as_bytes())
}

/// Takes what came of the workers' calls, and tells the exit status.
fn end<W: Write>(alloc: Global, writer: &mut W, told: Result<History, Refusal>) -> u8
    ensures { (workers calls : ℕ) → IfOk told (IsHistory workers calls) → Takes (Tells workers calls result) (W.contents writer.old) (W.contents writer.new) }
{
    match tell(alloc, writer, &told) {
        Ok(()) if told.is_ok() => 0,
        _ => 1,
    }
}

/// Lets so many workers make so many calls each on one index, at once, prints the history, and tells the exit status: 0, or 1
/// where a call is refused, of which the refusal is printed, and for want of memory or where the writer fails.
pub fn threads<R: Threads + Wait + Sync, W: Write>(
    rt: &R,
    alloc: Global,
    workers: u32,
    calls: u32,
    writer: &mut W,
) -> u8
    requires allowed { AreAllowed workers calls }
    ensures { Takes (Tells workers calls result) (W.contents writer.old) (W.contents writer.new) }
{
    match history(rt, alloc, workers, calls) {
        Ok(history) => end(alloc, writer, Ok(history)),
        Err(Cut::Refused(refusal)) => end(alloc, writer, Err(refusal)),
        // Nothing is printed then.
        Err(Cut::Memory) => 1,
    }
}
