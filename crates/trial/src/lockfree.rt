//! Workers of an index whose readers take no lock, each in a thread of its own, and what is told of them.
ghost use Rattle.std.specs.Prelude.{◌≡◌, ◌+◌, ◌*◌, ◌<◌, ◌≤◌, ◌^◌, ℕ, IfOk, IsTrue, OnOk, Ok, Some, length, slice_get, string_bytes, take};
ghost use Rattle.std.specs.Io.KnownBytes.{Appends};
ghost use Rattle.optimistic.specs.tree.Drained.{IsAll};
ghost use Rattle.trial.specs.Arguments.{AreAllowed};
ghost use Rattle.trial.specs.Histories.{Takes};
ghost use Rattle.trial.specs.declared.lockfree.Stop.TheVariants as why;
ghost use Rattle.trial.specs.Lockfree.{AreTold, AreWorked, IsTrueInAll, IsWorked, TellsLockfree, tallied_text};

mod tallies;
mod worker;

use crate::end::End;
use crate::output::print;
use optimistic::{Pair, Retired, U64Congee, Undrained};
use std::alloc::{AllocError, AllocFailed, Global};
use std::io::Write;
use std::sync::Wait;
use std::thread;
use std::thread::Threads;
use tallies::Tallies;
use worker::{Made, Worked, work};

/// Why there is nothing to count.
#[derive(Clone, Copy, Debug, PartialEq, Eq, Drop)]
pub enum Stop {
    /// There is no memory for the index.
    Index,
    /// A node of the closed index is locked.
    Locked,
    /// A growth of the program's own was refused.
    Memory,
}

impl From<AllocError> for Stop {
    ghost from_gives = { λ _ stop. stop ≡ why.Memory };

    fn from(_: AllocError) -> Stop {
        Stop::Memory
    }
}

impl<T: Drop> From<AllocFailed<T>> for Stop {
    ghost from_gives = { λ _ stop. stop ≡ why.Memory };

    fn from(_: AllocFailed<T>) -> Stop {
        Stop::Memory
    }
}

/// The words of the index beside those for each call.
const WORDS: usize = 50_000;

/// The words of the index for each call, which may want nodes.
const WORDS_OF_CALL: usize = 16;

/// How many words the index of so many workers has.
fn words(workers: u32, calls: u32) -> usize
    requires allowed { AreAllowed workers calls }
    ensures { result ≡ 16 * (workers * calls) + 50000 }
{
    WORDS_OF_CALL * (workers as usize * calls as usize) + WORDS
}

/// What came of each worker's calls, and a worker that has seen all that they had, given back.
fn gathered<'t>(
    alloc: Global,
    index: &'t U64Congee,
    calls: u32,
    worked: Vec<Result<Worked<'t>, AllocError>>,
) -> Result<(Vec<Made>, Retired), Stop>
    requires index { (i : ℕ) (w : _) → slice_get worked.items i ≡ Some (Ok w) → w.seen.index ≡ index.now.tree.nodes.table.shared.table_id }
    requires worked { (i : ℕ) (w : _) → slice_get worked.items i ≡ Some (Ok w) → IsWorked calls i w.made w.seen.seen }
    ensures index { IfOk result (λ gathered. gathered.1.index ≡ index.now.tree.nodes.table.shared.table_id) }
    ensures len { IfOk result (λ gathered. length gathered.0.items ≡ length worked.entry.items) }
    ensures worked { IfOk result (λ gathered. AreWorked calls gathered.0.items gathered.1.seen) }
{
    let mut last = index.worker(alloc)?;
    let mut made = Vec::new(alloc);
    for one in worked {
        let Worked { made: own, seen } = one?;
        last.heed(seen);
        made.push(own)?;
    }
    Ok((made, last.retire()))
}

/// Has so many workers make so many calls each, at once.
fn call_all<R: Threads + Wait + Sync>(
    rt: &R,
    alloc: Global,
    index: &U64Congee,
    workers: u32,
    calls: u32,
) -> Result<(Vec<Made>, Retired), Stop>
    requires few { workers ≤ 16 }
    ensures index { IfOk result (λ called. called.1.index ≡ index.now.tree.nodes.table.shared.table_id) }
    ensures len { IfOk result (λ called. length called.0.items ≡ workers) }
    ensures worked { IfOk result (λ called. AreWorked calls called.0.items called.1.seen) }
{
    let call = move |place: usize| -> Result<Worked<'_>, AllocError>
        requires { place < 16 }
        ensures { IfOk result (λ w. (w.seen.index ≡ index.entry.now.tree.nodes.table.shared.table_id) × IsWorked calls place w.made w.seen.seen) }
    { work(rt, alloc, index, place as u32, calls) };
    let worked = thread::map_indices(rt, alloc, workers as usize, &call)?;
    gathered(alloc, index, calls, worked)
}

/// Closes the index, with a worker that was given back, and takes its pairs.
fn drained(alloc: Global, index: U64Congee, last: Retired) -> Result<Vec<Pair>, Stop>
    requires { last.index ≡ index.tree.nodes.table.shared.table_id }
    ensures { IfOk result (λ pairs. IsAll last.seen last.made last.by pairs.items) }
{
    let Ok(mut pairs) = index.close(last) else {
        return Err(Stop::Locked);
    };
    match pairs.drain(alloc) {
        Ok(drained) => Ok(drained),
        Err(Undrained::Locked) => Err(Stop::Locked),
        Err(Undrained::Memory) => Err(Stop::Memory),
    }
}

/// What is told of so many calls of each of so many workers.
fn called<R: Threads + Wait + Sync>(
    rt: &R,
    alloc: Global,
    workers: u32,
    calls: u32,
) -> Result<Tallies, Stop>
    requires allowed { AreAllowed workers calls }
    ensures { IfOk result (λ t. AreTold workers calls t) }
{
    let Ok(index) = U64Congee::new(alloc, words(workers, calls)) else {
        return Err(Stop::Index);
    };
    let (made, last) = call_all(rt, alloc, &index, workers, calls)?;
    let pairs = drained(alloc, index, last)?;
    Ok(Tallies::of(alloc, made, calls, &pairs)?)
}

/// What is printed of the calls, or of why they aren't told.
fn text(alloc: Global, told: &Result<Tallies, Stop>) -> Result<String, AllocError>
    ensures { IfOk result (λ text. string_bytes text ≡ tallied_text told.now) }
{
    match told {
        Ok(tallies) => format!(in alloc; "{tallies}"),
        Err(Stop::Index) => format!(in alloc; "refused Memory\n"),
        Err(Stop::Locked) => format!(in alloc; "refused Locked\n"),
        Err(Stop::Memory) => Ok(String::new(alloc)),
    }
}

/// Whether the calls are told and their audit is true.
fn is_true(told: &Result<Tallies, Stop>) -> bool
    ensures { IsTrue result → IsTrueInAll told.now }
{
    match told {
        Ok(tallies) => tallies.all.audited,
        Err(_) => false,
    }
}

/// Takes what came of the workers' calls.
fn tell<W: Write>(alloc: Global, writer: &mut W, told: &Result<Tallies, Stop>) -> Result<(), End>
    ensures ok { OnOk result (Appends (W.contents writer.old) (W.contents writer.new) (tallied_text told.now)) }
    ensures front { (n : ℕ) × Appends (W.contents writer.old) (W.contents writer.new) (take n (tallied_text told.now)) }
{
    let text = text(alloc, told)?;
    print(writer, text.as_bytes())
}

/// Takes what came of the workers' calls, and tells the exit status.
fn end<W: Write>(alloc: Global, writer: &mut W, told: &Result<Tallies, Stop>) -> u8
    ensures { (workers calls : ℕ) → IfOk told.now (AreTold workers calls) → Takes (TellsLockfree workers calls result) (W.contents writer.old) (W.contents writer.new) }
{
    match tell(alloc, writer, told) {
        Ok(()) if is_true(told) => 0,
        _ => 1,
    }
}

/// Lets so many workers make so many calls each on one index whose readers take no lock, at once, prints what came of them, and
/// tells the exit status: 0, or 1 where an audit is false, for want of memory, or where the writer fails.
pub fn lockfree<R: Threads + Wait + Sync, W: Write>(
    rt: &R,
    alloc: Global,
    workers: u32,
    calls: u32,
    writer: &mut W,
) -> u8
    requires allowed { AreAllowed workers calls }
    ensures { Takes (TellsLockfree workers calls result) (W.contents writer.old) (W.contents writer.new) }
{
    let told = called(rt, alloc, workers, calls);
    end(alloc, writer, &told)
}
