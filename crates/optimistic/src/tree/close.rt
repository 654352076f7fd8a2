//! The end of a tree.
ghost use Rattle.std.specs.Prelude.{IfOk, IfErr};
ghost use Rattle.optimistic.specs.words.Told.{view, IsOf};
ghost use Rattle.optimistic.specs.tree.Drained.{IsClosed, HasNoRoot};

use crate::drain::{Locked, Pairs, is_unlocked};
use crate::tree::get::{TOP, Tree};
use crate::words::{Hand, ROOT};

/// That the root covers each key, in its second word.
const COVERS_ALL: u64 = 32;

impl Tree {
    /// Closes the tree, with a hand that was given back. Its pairs are those of one log, which begins with all that the hand
    /// has seen, and has the hand's calls, and no others of it. An error tells that a hand was lost that had locked the root.
    pub fn close(self, hand: Hand) -> Result<Pairs, Locked>
        requires { IsOf self.nodes.table.shared.table_id hand }
        ensures pairs { IfOk result (λ p. IsClosed (view hand).seen.log (view hand).made (view hand).by p) }
        ensures locked { IfErr result (λ _. HasNoRoot (view hand).seen.log (view hand).made (view hand).by) }
    {
        let Tree { nodes } = self;
        let words = nodes.close(hand);
        let unlocked = is_unlocked(&words, TOP);
        if !unlocked {
            return Err(Locked);
        }
        let covers = words.word(ROOT, 1);
        if covers != COVERS_ALL {
            return Err(Locked);
        }
        Ok(Pairs::new(words))
    }
}
