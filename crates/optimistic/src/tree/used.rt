//! How full the table is.
ghost use Rattle.std.specs.Prelude.{◌≡◌};
ghost use Rattle.optimistic.specs.words.Calls.{Keeps};
ghost use Rattle.optimistic.specs.words.Room.{used};
ghost use Rattle.optimistic.specs.words.Told.{view, IsOf};

use crate::tree::get::Tree;
use crate::words::Hand;

impl Tree {
    /// How many words there are.
    pub fn words(&self) -> usize
        ensures { result ≡ self.now.nodes.table.shared.table_id.words }
    {
        self.nodes.count()
    }

    /// How many words are in use, after all that the hand has then seen.
    pub fn used(&self, hand: &mut Hand) -> u64
        requires of { IsOf self.now.nodes.table.shared.table_id hand.old }
        ensures of { IsOf self.now.nodes.table.shared.table_id hand.new }
        ensures keeps { Keeps (view hand.old) (view hand.new) }
        ensures mine { (view hand.new).mine ≡ (view hand.old).mine }
        ensures used { result ≡ used (view hand.new).seen }
    {
        self.nodes.used(hand)
    }
}
