//! Whether calls of several threads are one map's: an order of all, in which no call comes behind one that began after its end, and
//! in which a map answers each as it was answered.

use super::calls::{Timed, key_called};
use super::lanes::count_of;
use judge::{Call, Entry, Reply, Verdict, check};
use optimistic::Pair;
use std::alloc::{AllocError, Global};
use std::collections::BTreeMap;

/// A call in the order, and what its key has before and after it.
#[derive(Clone, Copy, Drop)]
struct Step {
    lane: usize,
    entry: Entry<u64>,
    before: Option<u64>,
    after: Option<u64>,
}

/// An order of some of the calls, and the pairs that these make. A lane has the calls of one thread.
#[derive(Drop)]
struct Search<'h> {
    lanes: &'h [Vec<Timed>],
    /// How many calls of each lane are in the order.
    taken: Vec<usize>,
    pairs: BTreeMap<u64, u64>,
    order: Vec<Step>,
}

/// What a map answers to a call where its key has this, and what the key has then.
fn answer(call: Call<u64>, before: Option<u64>) -> (Reply<u64>, Option<u64>) {
    match call {
        Call::Get(_) => (Reply::Get(before), before),
        Call::Insert(_, value) => (Reply::Insert(before), Some(value)),
        Call::Remove(_) => (Reply::Remove(before), None),
        Call::ComputeInsert(_, value) => (Reply::ComputeInsert(before), Some(value)),
        Call::ComputePresent(_, new) => match before {
            Some(old) => (Reply::ComputePresent(Some((old, new))), new),
            None => (Reply::ComputePresent(None), None),
        },
        Call::Exchange(_, old, new) => {
            if before == Some(old) {
                (Reply::Exchange(Ok(new)), new)
            } else {
                (Reply::Exchange(Err(before)), before)
            }
        }
    }
}

impl<'h> Search<'h> {
    /// The first call of a lane that isn't in the order.
    fn upcoming(&self, lane: usize) -> Option<Timed> {
        self.lanes.get(lane)?.get(*self.taken.get(lane)?).copied()
    }

    /// When the first of all calls ended that aren't in the order.
    fn first_end(&self) -> u64 {
        let mut first = u64::MAX;
        for lane in 0..self.lanes.len() {
            if let Some(call) = self.upcoming(lane) {
                first = first.min(call.end);
            }
        }
        first
    }

    /// The next step of a lane, if it began before this end and was answered as the pairs do.
    fn step(&self, lane: usize, first_end: u64) -> Option<Step> {
        let Timed {
            begin,
            end: _,
            entry,
        } = self.upcoming(lane)?;
        let before = self.pairs.get(&key_called(entry.call)).copied();
        let (reply, after) = answer(entry.call, before);
        if begin > first_end || reply != entry.reply {
            return None;
        }
        Some(Step {
            lane,
            entry,
            before,
            after,
        })
    }

    /// A step that changes nothing, which is always as good as any other; else the first of a lane from this one on.
    fn choice(&self, from: usize) -> Option<Step> {
        let first_end = self.first_end();
        let mut choice = None;
        for lane in 0..self.lanes.len() {
            match self.step(lane, first_end) {
                Some(step) if step.before == step.after => return Some(step),
                Some(step) if lane >= from && choice.is_none() => choice = Some(step),
                _ => {}
            }
        }
        choice
    }

    /// Puts a value at a key, or takes it out.
    fn set(&mut self, key: u64, value: Option<u64>) -> Result<(), AllocError> {
        match value {
            Some(value) => {
                self.pairs.insert(key, value)?;
            }
            None => {
                self.pairs.remove(&key);
            }
        }
        Ok(())
    }

    /// Puts a step at the end of the order.
    fn take(&mut self, step: Step) -> Result<(), AllocError> {
        self.set(key_called(step.entry.call), step.after)?;
        self.order.push(step)?;
        if let Some(taken) = self.taken.get_mut(step.lane) {
            *taken = taken.saturating_add(1);
        }
        Ok(())
    }

    /// Takes steps back up to one that changes something, and tells whose it was.
    fn take_back(&mut self) -> Result<Option<usize>, AllocError> {
        for _ in 0..self.order.len() {
            let Some(step) = self.order.pop() else {
                break;
            };
            self.set(key_called(step.entry.call), step.before)?;
            if let Some(taken) = self.taken.get_mut(step.lane) {
                *taken = taken.saturating_sub(1);
            }
            if step.before != step.after {
                return Ok(Some(step.lane));
            }
        }
        Ok(None)
    }

    /// Whether these are the pairs that the calls leave.
    fn leaves(&self, pairs: &[Pair]) -> bool {
        for pair in pairs {
            if self.pairs.get(&pair.key) != Some(&pair.value) {
                return false;
            }
        }
        pairs.len() == self.pairs.len()
    }

    /// Whether the calls leave these pairs, and `judge` finds their order legal.
    fn is_legal(&self, alloc: Global, pairs: &[Pair]) -> Result<bool, AllocError> {
        let mut entries = Vec::new(alloc);
        for step in &self.order {
            entries.push(step.entry)?;
        }
        Ok(self.leaves(pairs) && check(alloc, &entries)? == Verdict::Legal)
    }
}

/// Looks for an order of all calls with at most so many steps, of which some are taken back. Whether there is one.
fn is_found(search: &mut Search, count: usize, steps: usize) -> Result<bool, AllocError> {
    let mut from = 0;
    for _ in 0..steps {
        if search.order.len() == count {
            return Ok(true);
        }
        match search.choice(from) {
            Some(step) => {
                search.take(step)?;
                from = 0;
            }
            None => match search.take_back()? {
                Some(lane) => from = lane.saturating_add(1),
                None => return Ok(false),
            },
        }
    }
    Ok(search.order.len() == count)
}

/// Whether the calls have an order in which they are one map's, which has these pairs then, if any are named.
pub fn has_order(
    alloc: Global,
    lanes: &[Vec<Timed>],
    pairs: Option<&[Pair]>,
) -> Result<bool, AllocError> {
    let count = count_of(lanes);
    let mut search = Search {
        lanes,
        taken: Vec::from_elem(alloc, 0, lanes.len())?,
        pairs: BTreeMap::new(alloc),
        order: Vec::new(alloc),
    };
    let is_found = is_found(&mut search, count, count.saturating_mul(100))?;
    match pairs {
        Some(pairs) if is_found => search.is_legal(alloc, pairs),
        _ => Ok(is_found),
    }
}
