//! An index that is opened with pairs.
ghost use Rattle.std.specs.Prelude.{◌≡◌, ℕ, [], List, IfOk, IfErr};
ghost use Rattle.optimistic.specs.declared.words.rule.Entry.{Entry};
ghost use Rattle.optimistic.specs.words.Kept.{calls_by};
ghost use Rattle.optimistic.specs.face.Calls.{Known};
ghost use Rattle.optimistic.specs.face.Many.{PutAll};
ghost use Rattle.optimistic.specs.face.Openings.{IsOpenedWith, IsReopened, IsUnfilled};
ghost use Rattle.optimistic.specs.tree.Drained.{rest, HasLog, IsClosed};

use crate::drain::{Pair, Pairs};
use crate::face::close::Retired;
use crate::face::index::U64Congee;
use crate::face::refusal::{Unfilled, Unopened, Unreopened};
use std::alloc::Global;
use std::sync::Wait;

/// An index that was opened with pairs, and what the worker knew that put them in.
#[derive(Drop)]
pub struct Filled {
    pub index: U64Congee,
    pub last: Retired,
}

/// Puts each pair's value at its key by a worker that made no other call, and gives it back.
fn fill<R: Wait>(
    rt: &R,
    alloc: Global,
    index: &U64Congee,
    pairs: &[Pair],
) -> Result<Retired, Unfilled>
    ensures own { IfOk result (λ l. l.index ≡ index.now.tree.nodes.table.shared.table_id) }
    ensures put { IfOk result (λ l. (first : Known) × (first.made ≡ []) × (calls_by first.by first.seen ≡ []) × PutAll pairs.now first l) }
    ensures cause { IfErr result (IsUnfilled index.now.tree.nodes.table.shared.table_id.words pairs.now) }
{
    let mut worker = match index.worker(alloc) {
        Ok(worker) => worker,
        Err(error) => return Err(Unfilled::Unopened(Unopened::Memory(error))),
    };
    worker.insert_many(rt, pairs)?;
    Ok(worker.retire())
}

impl U64Congee {
    /// An index of so many words, from `LEAST_WORDS` to `MOST_WORDS`, into which each pair's value is put at its key, one after the
    /// other. Ascending keys take the least time. Nothing is left of an index that hasn't room for all.
    pub fn from_pairs<R: Wait>(
        rt: &R,
        alloc: Global,
        words: usize,
        pairs: &[Pair],
    ) -> Result<Filled, Unfilled>
        ensures filled { IfOk result (λ f. IsOpenedWith words pairs.now f) }
        ensures cause { IfErr result (IsUnfilled words pairs.now) }
    {
        let index = U64Congee::new(alloc, words)?;
        let last = fill(rt, alloc, &index, pairs)?;
        Ok(Filled { index, last })
    }
}

impl Pairs {
    /// A new index of so many words with the pairs that weren't told before: at first, with all pairs of the closed one. So an index
    /// that is full grows, while nobody calls. An error leaves all as it was.
    pub fn reopen<R: Wait>(
        &mut self,
        rt: &R,
        alloc: Global,
        words: usize,
    ) -> Result<Filled, Unreopened>
        ensures all { (seen made : List Entry) (by : ℕ) → IsClosed seen made by self.old → IfOk result (λ f. IsReopened seen made by words f) }
        ensures log { (log : List Entry) → HasLog self.old log → HasLog self.new log }
        ensures rest { IfErr result (λ _. rest self.new ≡ rest self.old) }
    {
        let from = self.from();
        let pairs = self.drain(alloc)?;
        match U64Congee::from_pairs(rt, alloc, words, pairs.as_slice()) {
            Ok(filled) => Ok(filled),
            Err(cause) => {
                self.go_back(from);
                Err(Unreopened::Unfilled(cause))
            }
        }
    }
}
