//! A word that is written to a node that the hand has.
ghost use Rattle.std.specs.Prelude.{◌≡◌, ◌≢◌, ℕ, ◌<◌, ◌≤◌, ◌+◌, true};
ghost use Rattle.optimistic.specs.Layout.{width, is_link};
ghost use Rattle.optimistic.specs.words.Kept.{word_at, has};
ghost use Rattle.optimistic.specs.words.Told.{view, IsOf, HasForm, Tells};
ghost use Rattle.optimistic.specs.forms.Bytes.{with_at};
ghost use Rattle.optimistic.specs.tree.Writes.{KeepsBut, IsWritten, MayStore};

use crate::tree::get::Tree;
use crate::words::Hand;

/// A word of a node, and what it becomes.
#[derive(Clone, Copy, Drop)]
pub struct Change {
    pub word: usize,
    pub value: u64,
}

impl Tree {
    /// Writes a word.
    #[inline(always)]
    pub fn write(&self, hand: &mut Hand, node: usize, form: u64, change: Change)
        requires of { IsOf self.now.nodes.table.shared.table_id hand.old }
        requires at { HasForm node form (view hand.old) }
        requires mine { has (view hand.old).mine node ≡ true }
        requires inside { (0 < change.word) × (change.word < width form) }
        requires tells { MayStore form change.word change.value (view hand.old) }
        ensures of { IsOf self.now.nodes.table.shared.table_id hand.new }
        ensures at { HasForm node form (view hand.new) }
        ensures mine { has (view hand.new).mine node ≡ true }
        ensures keeps { KeepsBut node (view hand.old) (view hand.new) }
        ensures written { IsWritten node form (with_at (word_at (view hand.old).seen.words node) change.word change.value) (view hand.new) }
    {
        self.nodes
            .store(hand, node, form, change.word, change.value);
    }
}
