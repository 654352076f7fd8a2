//! A child that is put into a node that the hand has, or taken out of it.
ghost use Rattle.std.specs.Prelude.{◌≡◌, ◌≢◌, ℕ, ◌<◌, ◌⊎◌, true, false, None, MatchBool};
ghost use Rattle.optimistic.specs.words.Kept.{word_at, has};
ghost use Rattle.optimistic.specs.words.Told.{view, IsOf, HasForm, Tells, Looks};
ghost use Rattle.optimistic.specs.forms.Children.{IsForm};
ghost use Rattle.optimistic.specs.tree.Reads.{IsPlace};
ghost use Rattle.optimistic.specs.tree.Takes.{HasChild, HasTaken, HasWritten};
ghost use Rattle.optimistic.specs.tree.Trees.{IsTree};
ghost use Rattle.optimistic.specs.tree.Writes.{HasPut};

use crate::changes::{find_place, put_in, take_out, write_over};
use crate::moves::Item;
use crate::tree::get::Tree;
use crate::tree::place::{Child, Place};
use crate::words::Hand;

impl Tree {
    /// Puts a byte's child in, if there is room.
    pub fn put(&self, hand: &mut Hand, at: Place, byte: u8, child: Child) -> bool
        requires of { IsOf self.now.nodes.table.shared.table_id hand.old }
        requires at { IsPlace at (view hand.old) }
        requires mine { has (view hand.old).mine at.node ≡ true }
        requires shape { IsForm at.form (word_at (view hand.old).seen.words at.node) }
        requires some { child.first ≢ 0 }
        requires tells { Tells child.first (view hand.old) }
        ensures of { IsOf self.now.nodes.table.shared.table_id hand.new }
        ensures at { HasForm at.node at.form (view hand.new) }
        ensures mine { has (view hand.new).mine at.node ≡ true }
        ensures put { MatchBool result (HasPut at.node at.form byte child.first child.second (view hand.old) (view hand.new)) (Looks IsTree (view hand.old) (view hand.new)) }
    {
        let item = Item {
            byte,
            first: child.first,
            last: child.second,
        };
        put_in(&self.nodes, hand, at.node, at.form, item)
    }

    /// Writes a byte's child over.
    fn rewrite(&self, hand: &mut Hand, at: Place, byte: u8, child: Child)
        requires of { IsOf self.now.nodes.table.shared.table_id hand.old }
        requires at { IsPlace at (view hand.old) }
        requires mine { has (view hand.old).mine at.node ≡ true }
        requires shape { IsForm at.form (word_at (view hand.old).seen.words at.node) }
        requires there { HasChild at.form (word_at (view hand.old).seen.words at.node) byte }
        requires some { child.first ≢ 0 }
        requires tells { Tells child.first (view hand.old) }
        ensures of { IsOf self.now.nodes.table.shared.table_id hand.new }
        ensures at { HasForm at.node at.form (view hand.new) }
        ensures mine { has (view hand.new).mine at.node ≡ true }
        ensures put { HasPut at.node at.form byte child.first child.second (view hand.old) (view hand.new) }
    {
        let item = Item {
            byte,
            first: child.first,
            last: child.second,
        };
        match find_place(&self.nodes, hand, at.node, at.form, byte) {
            Some(place) => write_over(&self.nodes, hand, at.node, at.form, place, item),
            None => unreachable!(),
        }
    }

    /// Puts a byte's child in where the child word is this one. Where that is 0 there may be no room.
    pub fn put_over(&self, hand: &mut Hand, at: Place, byte: u8, old: u64, child: Child) -> bool
        requires of { IsOf self.now.nodes.table.shared.table_id hand.old }
        requires at { IsPlace at (view hand.old) }
        requires mine { has (view hand.old).mine at.node ≡ true }
        requires shape { IsForm at.form (word_at (view hand.old).seen.words at.node) }
        requires there { old ≢ 0 → HasChild at.form (word_at (view hand.old).seen.words at.node) byte }
        requires some { child.first ≢ 0 }
        requires tells { Tells child.first (view hand.old) }
        ensures of { IsOf self.now.nodes.table.shared.table_id hand.new }
        ensures at { HasForm at.node at.form (view hand.new) }
        ensures mine { has (view hand.new).mine at.node ≡ true }
        ensures put { MatchBool result (HasPut at.node at.form byte child.first child.second (view hand.old) (view hand.new)) (Looks IsTree (view hand.old) (view hand.new)) }
        ensures room { result ≡ false → old ≡ 0 }
    {
        if old == 0 {
            return self.put(hand, at, byte, child);
        }
        self.rewrite(hand, at, byte, child);
        true
    }

    /// Takes a byte's child out.
    pub fn take(&self, hand: &mut Hand, at: Place, byte: u8)
        requires of { IsOf self.now.nodes.table.shared.table_id hand.old }
        requires at { IsPlace at (view hand.old) }
        requires mine { has (view hand.old).mine at.node ≡ true }
        requires shape { IsForm at.form (word_at (view hand.old).seen.words at.node) }
        requires there { HasChild at.form (word_at (view hand.old).seen.words at.node) byte }
        ensures of { IsOf self.now.nodes.table.shared.table_id hand.new }
        ensures at { HasForm at.node at.form (view hand.new) }
        ensures mine { has (view hand.new).mine at.node ≡ true }
        ensures taken { HasTaken at.node at.form byte (view hand.old) (view hand.new) }
    {
        match find_place(&self.nodes, hand, at.node, at.form, byte) {
            Some(place) => take_out(&self.nodes, hand, at.node, at.form, place),
            None => unreachable!(),
        }
    }

    /// Writes a key's lone leaf as a byte's child, where the child word is this one, or takes it away.
    pub fn write_leaf(
        &self,
        hand: &mut Hand,
        at: Place,
        byte: u8,
        old: u64,
        leaf: u64,
        value: Option<u64>,
    ) -> bool
        requires of { IsOf self.now.nodes.table.shared.table_id hand.old }
        requires at { IsPlace at (view hand.old) }
        requires mine { has (view hand.old).mine at.node ≡ true }
        requires shape { IsForm at.form (word_at (view hand.old).seen.words at.node) }
        requires there { old ≢ 0 → HasChild at.form (word_at (view hand.old).seen.words at.node) byte }
        requires some { (leaf ≢ 0) × ((value ≢ None) ⊎ (old ≢ 0)) }
        requires tells { Tells leaf (view hand.old) }
        ensures of { IsOf self.now.nodes.table.shared.table_id hand.new }
        ensures at { HasForm at.node at.form (view hand.new) }
        ensures mine { has (view hand.new).mine at.node ≡ true }
        ensures written { MatchBool result (HasWritten at.node at.form byte leaf value (view hand.old) (view hand.new)) (Looks IsTree (view hand.old) (view hand.new)) }
        ensures room { result ≡ false → old ≡ 0 }
    {
        match value {
            Some(second) => {
                let first = leaf;
                self.put_over(hand, at, byte, old, Child { first, second })
            }
            None => {
                self.take(hand, at, byte);
                true
            }
        }
    }
}
