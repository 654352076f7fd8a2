//! The index.
ghost use Rattle.std.specs.Prelude.{◌≡◌, [], IfOk, MatchResult};
ghost use Rattle.optimistic.specs.words.Kept.{calls_by};
ghost use Rattle.optimistic.specs.face.Refusals.{IsSize, IsUnopened};

use crate::face::close::Retired;
use crate::face::pool::Pool;
use crate::face::refusal::Unopened;
use crate::face::worker::Worker;
use crate::tree::Tree;
use std::alloc::{AllocError, Global};

/// The fewest words that an index may have: so many its root takes, and what lies before that.
pub const LEAST_WORDS: usize = 536;

/// The most words that an index may have.
pub const MOST_WORDS: usize = (1 << 48) - 1;

/// An ordered map from numbers to numbers that threads share. No reader takes a lock, and a writer locks single nodes.
///
/// Its memory is reserved at first: so many words of eight bytes, all of which are written as it opens. It doesn't grow: a write that
/// wants a new node where none is to be had is refused. Words of nodes that were freed serve all workers, but nodes of the same form
/// alone, so keys of another kind may find less room than those before them. Each thread asks for a worker, and calls through it.
#[derive(Drop)]
pub struct U64Congee {
    pub(crate) tree: Tree,
    pub(crate) pool: Pool,
    ghost one: { pool ≡ tree.nodes.table.shared.table_id },
}

impl U64Congee {
    /// An empty index of so many words, from `LEAST_WORDS` to `MOST_WORDS`. Another number of words is refused, and so is want
    /// of memory.
    pub fn new(alloc: Global, words: usize) -> Result<Self, Unopened>
        ensures words { IfOk result (λ i. i.tree.nodes.table.shared.table_id.words ≡ words) }
        ensures cause { MatchResult result (λ _. IsSize words) (IsUnopened words) }
    {
        if !(LEAST_WORDS..=MOST_WORDS).contains(&words) {
            return Err(Unopened::Words);
        }
        let tree = Tree::new(alloc, words)?;
        let pool = Pool::new(alloc, &tree)?;
        Ok(U64Congee { tree, pool })
    }

    /// A worker for a thread. It has seen some beginning of the log, in which no call is its own.
    pub fn worker(&self, alloc: Global) -> Result<Worker<'_>, AllocError>
        ensures index { IfOk result (λ w. w.index ≡ self.now.tree.nodes.table.shared.table_id) }
        ensures new { IfOk result (λ w. (w.made ≡ []) × (calls_by w.by w.seen ≡ [])) }
    {
        Worker::new(alloc, &self.tree, &self.pool)
    }

    /// A worker that was given back goes on: it knows what it knew.
    pub fn resume(&self, alloc: Global, last: Retired) -> Result<Worker<'_>, AllocError>
        requires { last.index ≡ self.now.tree.nodes.table.shared.table_id }
        ensures { IfOk result (λ w. w ≡ last) }
    {
        Worker::resume(alloc, &self.tree, &self.pool, last)
    }
}
