//! What is asked of a tree for threads, of any kind, and what it tells.

use congee::NodeStats;
use joint::{Guard, Refusal, Worker};
use judge::{Call, Reply};
use std::sync::Wait;

/// What is asked of a tree.
#[derive(Clone, Copy)]
pub enum Ask {
    /// A call on a key. The closure of a `ComputePresent` adds its number to the value, or takes the key out where it has none; that
    /// of a `ComputeInsert` adds 64, or answers its number where there is no value. Owners are replaced by one of the number.
    Call(Call<u64>),
    /// A scan into four places.
    Range(u64, u64),
    RangeInclusive(u64, u64),
    /// Whether a key has a value.
    Has(u64),
    IsEmpty,
    Nearest(Which),
    Keys,
    Stats,
    Len,
    Repin,
    Flush,
    Round,
    /// A call of nothing under a guard of its own.
    Pinned,
    /// A guard, which stays out.
    Pin,
}

/// Which pair is looked for.
#[derive(Clone, Copy)]
pub enum Which {
    First,
    Last,
    After(u64),
    Before(u64),
    From(u64),
    UpTo(u64),
}

/// What it tells.
#[derive(Clone, Copy, PartialEq, Eq)]
pub enum Told {
    Replied(Reply<u64>),
    /// How many pairs were found, and what stands in the first place.
    Scanned(usize, (u64, u64)),
    Has(bool),
    IsEmpty(bool),
    Pair(Option<(u64, u64)>),
    /// How many keys there are, and the first one.
    Keys(usize, Option<u64>),
    /// How many pairs the statistics count, or the tree.
    Pairs(u64),
    Done,
    /// Another value came back with the refusal, or a tree of this kind has no such call.
    Nothing,
}

/// What a tree that is closed leaves: what its allocator has charged, how much that may be, and how many pairs its drainer took,
/// with the first one.
pub type Left = (u64, u64, usize, Option<(u64, u64)>);

/// A tree for threads, of any kind.
pub trait Threaded: Sized + Drop {
    fn comes<R: Wait>(&self, rt: &R) -> Result<Worker, Refusal>;

    fn leaves<R: Wait>(&self, rt: &R, worker: Worker) -> Result<(), (Refusal, Worker)>;

    fn pins<R: Wait>(&self, rt: &R, worker: &mut Worker) -> Result<Guard, Refusal>;

    fn unpins<R: Wait>(
        &self,
        rt: &R,
        worker: &mut Worker,
        guard: Guard,
    ) -> Result<(), (Refusal, Guard)>;

    fn goes_round<R: Wait>(&self, rt: &R, worker: &mut Worker) -> Result<(), Refusal>;

    /// What it tells of what is asked.
    fn told<R: Wait>(
        &mut self,
        rt: &R,
        ask: Ask,
        worker: &mut Worker,
        guard: &Guard,
    ) -> Result<Told, Refusal>;

    /// The bytes that are charged, the nodes that wait, and their bytes.
    fn state<R: Wait>(&self, rt: &R) -> (u64, u64, u64);

    /// It comes back with a refusal.
    fn closes<R: Wait>(self, rt: &R) -> Result<Left, (Refusal, Self)>;
}

/// Whether a guard was spent; a refused one is let go.
pub fn spent(unpinned: Result<(), (Refusal, Guard)>) -> Result<(), Refusal> {
    match unpinned {
        Ok(()) => Ok(()),
        Err((refusal, guard)) => {
            guard.forget();
            Err(refusal)
        }
    }
}

/// Whether a worker has left.
pub fn left(released: Result<(), (Refusal, Worker)>) -> Result<(), Refusal> {
    match released {
        Ok(()) => Ok(()),
        Err((refusal, _)) => Err(refusal),
    }
}

/// A guard that stays out.
pub fn held(pinned: Result<Guard, Refusal>) -> Result<Told, Refusal> {
    match pinned {
        Ok(guard) => {
            guard.forget();
            Ok(Told::Done)
        }
        Err(refusal) => Err(refusal),
    }
}

/// What is done under a guard.
pub fn nothing(_worker: &mut Worker, _guard: &Guard) -> Result<(), Refusal> {
    Ok(())
}

pub fn done(answer: Result<(), Refusal>) -> Result<Told, Refusal> {
    match answer {
        Ok(()) => Ok(Told::Done),
        Err(refusal) => Err(refusal),
    }
}

/// What a closure answers for a value.
pub fn raised(found: u64, by: Option<u64>) -> Option<u64> {
    match by {
        Some(by) => Some(found.wrapping_add(by)),
        None => None,
    }
}

/// What a closure answers for a value or none.
pub fn raised_or(found: Option<u64>, number: u64) -> u64 {
    match found {
        Some(found) => found.wrapping_add(64),
        None => number,
    }
}

/// Keys as they are told.
pub fn keys_told(keys: Result<Vec<u64>, Refusal>) -> Result<Told, Refusal> {
    match keys {
        Ok(keys) => Ok(Told::Keys(keys.len(), keys.first().copied())),
        Err(refusal) => Err(refusal),
    }
}

/// The pairs that statistics count.
pub fn pairs_told(stats: Result<NodeStats, Refusal>) -> Result<Told, Refusal> {
    match stats {
        Ok(stats) => Ok(Told::Pairs(stats.kv_pairs)),
        Err(refusal) => Err(refusal),
    }
}

/// How many pairs a tree counts.
pub fn count_told(len: Result<u64, Refusal>) -> Result<Told, Refusal> {
    match len {
        Ok(len) => Ok(Told::Pairs(len)),
        Err(refusal) => Err(refusal),
    }
}

pub fn presence_told(has: Result<bool, Refusal>) -> Result<Told, Refusal> {
    match has {
        Ok(has) => Ok(Told::Has(has)),
        Err(refusal) => Err(refusal),
    }
}

pub fn emptiness_told(is_empty: Result<bool, Refusal>) -> Result<Told, Refusal> {
    match is_empty {
        Ok(is_empty) => Ok(Told::IsEmpty(is_empty)),
        Err(refusal) => Err(refusal),
    }
}

/// What a call tells that answers with the value before it, if any.
pub fn value_told(call: Call<u64>, answer: Result<Option<u64>, Refusal>) -> Result<Told, Refusal> {
    match (call, answer) {
        (_, Err(refusal)) => Err(refusal),
        (Call::Get(_), Ok(found)) => Ok(Told::Replied(Reply::Get(found))),
        (Call::Insert(..), Ok(before)) => Ok(Told::Replied(Reply::Insert(before))),
        (Call::Remove(_), Ok(taken)) => Ok(Told::Replied(Reply::Remove(taken))),
        (_, Ok(before)) => Ok(Told::Replied(Reply::ComputeInsert(before))),
    }
}

pub fn present_told(answer: Result<Option<(u64, Option<u64>)>, Refusal>) -> Result<Told, Refusal> {
    match answer {
        Ok(told) => Ok(Told::Replied(Reply::ComputePresent(told))),
        Err(refusal) => Err(refusal),
    }
}

pub fn exchange_told(
    answer: Result<Result<Option<u64>, Option<u64>>, Refusal>,
) -> Result<Told, Refusal> {
    match answer {
        Ok(told) => Ok(Told::Replied(Reply::Exchange(told))),
        Err(refusal) => Err(refusal),
    }
}

/// How many pairs a scan found, and what stands in the first place.
pub fn scan_told(count: Result<usize, Refusal>, first: (u64, u64)) -> Result<Told, Refusal> {
    match count {
        Ok(count) => Ok(Told::Scanned(count, first)),
        Err(refusal) => Err(refusal),
    }
}

pub fn pair_told(pair: Result<Option<(u64, u64)>, Refusal>) -> Result<Told, Refusal> {
    match pair {
        Ok(pair) => Ok(Told::Pair(pair)),
        Err(refusal) => Err(refusal),
    }
}
