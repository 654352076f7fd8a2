//! A key's leaf that is written at its last node, or taken away there.
ghost use Rattle.std.specs.Prelude.{◌≡◌, ◌≢◌, ℕ, ◌<◌, ◌≤◌, ◌+◌, ◌%◌, ◌^◌, ◌⊎◌, true, MatchBool};
ghost use Rattle.optimistic.specs.Layout.{where_of};
ghost use Rattle.optimistic.specs.words.Kept.{word_at, version_at, has};
ghost use Rattle.optimistic.specs.words.Told.{view, IsOf, IsDrafted, MayUnlock, Unlocks};
ghost use Rattle.optimistic.specs.forms.Children.{is_inner};
ghost use Rattle.optimistic.specs.tree.Reads.{IsPlace};
ghost use Rattle.optimistic.specs.tree.Sets.{IsSet, Minds, HasNoMore, LetsGo};
ghost use Rattle.optimistic.specs.tree.Trees.{IsTree};
ghost use Rattle.optimistic.specs.tree.Writes.{write_note};

use crate::forms::names::{key_byte, leaf_word, where_word};
use crate::tree::get::Tree;
use crate::tree::lock::Locking;
use crate::tree::names::{goes_on, pair_value};
use crate::tree::place::Place;
use crate::tree::sizes::is_enough;
use crate::tree::write::{Write, allows};
use crate::words::{Entry, Hand, Note, ROOT};

/// What came of a write.
#[derive(Clone, Copy, Drop)]
pub enum Set {
    /// It was made. The key had this before.
    Done(Option<u64>),
    /// The key has this, where it isn't to be written.
    Differs(Option<u64>),
    /// The node was changed meanwhile, or isn't the key's last one.
    Again,
    /// The node has no room.
    Full,
    /// Another key's leaf, or a node that doesn't cover the key, stands there.
    Taken,
    /// The node can't be locked any more.
    Exhausted,
}

/// Whether a node that says this of its keys covers this one, and may have its leaf.
#[inline(always)]
pub fn has_leaf(at: Place, found: u64, key: u64) -> bool
    requires form { at.form < 9 }
    requires level { at.level < 8 }
    ensures { result ≡ true → (found ≡ where_of at.form at.level key) × ((is_inner at.form ≡ true) ⊎ (at.level ≡ 7)) }
{
    let word = where_word(at.form, at.level, key);
    if found != word {
        return false;
    }
    if at.form < 5 {
        return true;
    }
    at.level == 7
}

/// Whether a child is none, or the key's leaf.
#[inline(always)]
fn is_open(first: u64, leaf: u64) -> bool
    ensures { MatchBool result ((first ≡ 0) ⊎ (first ≡ leaf)) ((first ≢ 0) × (first ≢ leaf)) }
{
    if first == 0 {
        return true;
    }
    first == leaf
}

impl Tree {
    /// Lets a node go, which decides the write of a key.
    fn settle_write(&self, hand: &mut Hand, at: Place, version: u64, write: Write)
        requires of { IsOf self.now.nodes.table.shared.table_id hand.old }
        requires at { IsPlace at (view hand.old) }
        requires mine { has (view hand.old).mine at.node ≡ true }
        requires version { (version_at (view hand.old).seen.words at.node ≡ version) × (version + 1 < 2 ^ 64) }
        requires may { MayUnlock IsTree at.node (write_note write.key write.value) (view hand.old) }
        ensures of { IsOf self.now.nodes.table.shared.table_id hand.new }
        ensures unlocked { Unlocks IsTree at.node (write_note write.key write.value) (view hand.old) (view hand.new) }
    {
        let entry = Entry {
            by: 0,
            key: write.key,
            value: write.value,
        };
        let note = Note {
            first: None,
            second: None,
            third: None,
            entry: Some(entry),
            form: 0,
        };
        self.nodes.unlock(hand, at.node, at.form, version, &note);
    }

    /// Writes a key at a node that the hand has, and that covers the key, if there is room, and lets the node go.
    #[inline(always)]
    fn set_there(&self, hand: &mut Hand, at: Place, version: u64, write: Write) -> Set
        requires of { IsOf self.now.nodes.table.shared.table_id hand.old }
        requires at { IsPlace at (view hand.old) }
        requires version { version + 1 < 2 ^ 64 }
        requires drafted { IsDrafted at.node version (view hand.old) }
        requires covers { word_at (view hand.old).seen.words at.node 1 ≡ where_of at.form at.level write.key }
        requires leaves { (is_inner at.form ≡ true) ⊎ (at.level ≡ 7) }
        ensures of { IsOf self.now.nodes.table.shared.table_id hand.new }
        ensures set { IsSet write.key write.value result (view hand.old) (view hand.new) }
        ensures minds { Minds write result }
        ensures lets_go { LetsGo at.node (view hand.old) (view hand.new) }
    {
        let byte = key_byte(write.key, at.level);
        let child = self.child(hand, at, write.key, byte);
        let found = pair_value(child, write.key);
        let allowed = allows(write, found);
        if !allowed {
            self.nodes.release(hand, at.node, at.form, version);
            return Set::Again;
        }
        let leaf = leaf_word(write.key);
        let open = is_open(child.first, leaf);
        if !open {
            self.nodes.release(hand, at.node, at.form, version);
            return if goes_on(child, write.key) {
                Set::Again
            } else {
                Set::Taken
            };
        }
        let written = self.write_leaf(hand, at, byte, child.first, leaf, write.value);
        if !written {
            self.nodes.release(hand, at.node, at.form, version);
            return Set::Full;
        }
        self.settle_write(hand, at, version, write);
        Set::Done(found)
    }

    /// The same at a node that may not cover the key.
    #[inline(always)]
    fn set_locked(&self, hand: &mut Hand, at: Place, version: u64, write: Write) -> Set
        requires of { IsOf self.now.nodes.table.shared.table_id hand.old }
        requires at { IsPlace at (view hand.old) }
        requires version { version + 1 < 2 ^ 64 }
        requires drafted { IsDrafted at.node version (view hand.old) }
        ensures of { IsOf self.now.nodes.table.shared.table_id hand.new }
        ensures set { IsSet write.key write.value result (view hand.old) (view hand.new) }
        ensures minds { Minds write result }
        ensures lets_go { LetsGo at.node (view hand.old) (view hand.new) }
    {
        let found = self.read(hand, at.node, at.form, 1);
        let fits = has_leaf(at, found, write.key);
        if !fits {
            self.nodes.release(hand, at.node, at.form, version);
            return Set::Again;
        }
        self.set_there(hand, at, version, write)
    }

    /// The same, unless that leaves a node but the root with fewer than two entries.
    fn set_counted(&self, hand: &mut Hand, at: Place, version: u64, write: Write) -> Set
        requires of { IsOf self.now.nodes.table.shared.table_id hand.old }
        requires at { IsPlace at (view hand.old) }
        requires version { version + 1 < 2 ^ 64 }
        requires drafted { IsDrafted at.node version (view hand.old) }
        ensures of { IsOf self.now.nodes.table.shared.table_id hand.new }
        ensures set { IsSet write.key write.value result (view hand.old) (view hand.new) }
        ensures minds { Minds write result }
        ensures lets_go { LetsGo at.node (view hand.old) (view hand.new) }
    {
        if write.value.is_some() || at.node == ROOT {
            return self.set_locked(hand, at, version, write);
        }
        let entries = self.entries(hand, at);
        let enough = is_enough(entries);
        if !enough {
            self.nodes.release(hand, at.node, at.form, version);
            return Set::Again;
        }
        self.set_locked(hand, at, version, write)
    }

    /// Writes a key at a node, if that is the key's last one and has room.
    pub fn set_at(&self, hand: &mut Hand, at: Place, write: Write) -> Set
        requires of { IsOf self.now.nodes.table.shared.table_id hand.old }
        requires at { IsPlace at (view hand.old) }
        ensures of { IsOf self.now.nodes.table.shared.table_id hand.new }
        ensures set { IsSet write.key write.value result (view hand.old) (view hand.new) }
        ensures minds { Minds write result }
        ensures no_more { HasNoMore (view hand.old) (view hand.new) }
    {
        match self.try_lock(hand, at) {
            Locking::Had(version) => self.set_counted(hand, at, version, write),
            Locking::Busy => Set::Again,
            Locking::Exhausted => Set::Exhausted,
        }
    }

    /// Writes a key, if it is to be written, no writer comes between, and its last node has room; a removal, if it leaves the
    /// node with two entries at least. The key had what is answered right before the write.
    pub fn try_set(&self, hand: &mut Hand, write: Write) -> Set
        requires of { IsOf self.now.nodes.table.shared.table_id hand.old }
        ensures of { IsOf self.now.nodes.table.shared.table_id hand.new }
        ensures set { IsSet write.key write.value result (view hand.old) (view hand.new) }
        ensures minds { Minds write result }
        ensures no_more { HasNoMore (view hand.old) (view hand.new) }
    {
        match self.reach(hand, write.key) {
            Some(end) => {
                let allowed = allows(write, end.value);
                if !allowed {
                    return Set::Differs(end.value);
                }
                self.set_at(hand, end.at, write)
            }
            None => Set::Again,
        }
    }
}
