//! Nodes that the hand has, as they were settled.
ghost use Rattle.std.specs.Prelude.{◌≡◌, ◌≢◌, ℕ, ◌⊎◌, IfSome, true};
ghost use Rattle.optimistic.specs.Layout.{node_of, where_of, byte_at};
ghost use Rattle.optimistic.specs.words.Calls.{Keeps};
ghost use Rattle.optimistic.specs.words.Kept.{has, Calm, Since, SameWords};
ghost use Rattle.optimistic.specs.words.Told.{view, IsOf, Tells, Looks, Releases};
ghost use Rattle.optimistic.specs.Moves.{words_of, Stays};
ghost use Rattle.optimistic.specs.forms.Children.{is_inner, first_of, IsForm, Becomes};
ghost use Rattle.optimistic.specs.tree.Exchanges.{IsHeld, IsLocked, Hangs, Owns, LetsTwoGo, IsHung, HasLower, IsBoth};
ghost use Rattle.optimistic.specs.tree.Levels.{goes_on};
ghost use Rattle.optimistic.specs.tree.Reads.{IsPlace};
ghost use Rattle.optimistic.specs.tree.Trees.{IsTree};

use crate::changes::{find_place, write_over};
use crate::forms::names::{child_node, key_byte, leaf_word, where_word};
use crate::moves::Item;
use crate::tree::get::Tree;
use crate::tree::lock::Locking;
use crate::tree::names::goes_on;
use crate::tree::place::{Child, Place};
use crate::words::Hand;

/// A node that the hand has, and its version.
#[derive(Clone, Copy, Drop)]
pub struct Locked {
    pub at: Place,
    pub version: u64,
}

/// What came of an attempt to lock two nodes.
#[derive(Clone, Copy, Drop)]
pub enum Both {
    /// The hand has them, the one above first.
    Had(Locked, Locked),
    /// Another thread has one of them, or the lower one can't be locked any more.
    Busy,
    /// The one above can't be locked any more.
    Exhausted,
}

/// Whether a node may have a key's lone leaf.
#[inline(always)]
fn has_leaves(at: Place) -> bool
    ensures { result ≡ true → (is_inner at.form ≡ true) ⊎ (at.level ≡ 7) }
{
    if at.form < 5 {
        return true;
    }
    at.level == 7
}

/// Whether a child is a node that covers a key, and the one of this name.
fn names(child: Child, key: u64, node: usize) -> bool
    ensures { result ≡ true → (goes_on child.first child.second key ≡ true) × (node_of child.first ≡ node) × (child.first ≢ 0) }
{
    let on = goes_on(child, key);
    if !on {
        return false;
    }
    child_node(child.first) == node
}

impl Tree {
    /// Lets a node go that is as it was settled.
    pub fn let_go(&self, hand: &mut Hand, node: Locked)
        requires of { IsOf self.now.nodes.table.shared.table_id hand.old }
        requires locked { IsLocked node (view hand.old) }
        ensures of { IsOf self.now.nodes.table.shared.table_id hand.new }
        ensures releases { Releases IsTree node.at.node (view hand.old) (view hand.new) }
    {
        self.nodes
            .release(hand, node.at.node, node.at.form, node.version);
    }

    /// Lets two nodes go that are as they were settled.
    pub fn let_two_go(&self, hand: &mut Hand, above: Locked, old: Locked)
        requires of { IsOf self.now.nodes.table.shared.table_id hand.old }
        requires above { IsLocked above (view hand.old) }
        requires old { IsLocked old (view hand.old) }
        requires apart { above.at.node ≢ old.at.node }
        ensures of { IsOf self.now.nodes.table.shared.table_id hand.new }
        ensures keeps { Keeps (view hand.old) (view hand.new) }
        ensures lets_go { LetsTwoGo above.at.node old.at.node (view hand.old) (view hand.new) }
        ensures since { Since (view hand.old).seen (view hand.new).seen }
        ensures others { (p : ℕ) → has (view hand.new).mine p ≡ true → SameWords p (view hand.old).seen (view hand.new).seen × Calm p (view hand.old).seen (view hand.new).seen }
    {
        self.let_go(hand, above);
        self.let_go(hand, old);
    }

    /// Locks a node below one that the hand has, or lets that one go.
    fn lock_below(&self, hand: &mut Hand, above: Locked, old: Place) -> Both
        requires of { IsOf self.now.nodes.table.shared.table_id hand.old }
        requires above { IsLocked above (view hand.old) }
        requires old { IsPlace old (view hand.old) }
        ensures of { IsOf self.now.nodes.table.shared.table_id hand.new }
        ensures lower { HasLower above old result (view hand.old) (view hand.new) }
    {
        match self.try_lock(hand, old) {
            Locking::Had(version) => Both::Had(above, Locked { at: old, version }),
            Locking::Busy => {
                self.let_go(hand, above);
                Both::Busy
            }
            Locking::Exhausted => {
                self.let_go(hand, above);
                Both::Busy
            }
        }
    }

    /// Locks two nodes, the one above first, if nobody has them.
    pub fn lock_both(&self, hand: &mut Hand, above: Place, old: Place) -> Both
        requires of { IsOf self.now.nodes.table.shared.table_id hand.old }
        requires above { IsPlace above (view hand.old) }
        requires old { IsPlace old (view hand.old) }
        ensures of { IsOf self.now.nodes.table.shared.table_id hand.new }
        ensures both { IsBoth above old result (view hand.old) (view hand.new) }
    {
        match self.try_lock(hand, above) {
            Locking::Had(version) => self.lock_below(hand, Locked { at: above, version }, old),
            Locking::Busy => Both::Busy,
            Locking::Exhausted => Both::Exhausted,
        }
    }

    /// Whether a node is the child of another one on the way to a key.
    pub fn is_child(&self, hand: &mut Hand, above: Locked, old: Locked, key: u64) -> bool
        requires of { IsOf self.now.nodes.table.shared.table_id hand.old }
        requires above { IsLocked above (view hand.old) }
        requires old { IsLocked old (view hand.old) }
        ensures of { IsOf self.now.nodes.table.shared.table_id hand.new }
        ensures looks { Looks IsTree (view hand.old) (view hand.new) }
        ensures hangs { result ≡ true → Hangs above.at old.at key (view hand.old) }
    {
        let over = self.read(hand, above.at.node, above.at.form, 1);
        let under = self.read(hand, old.at.node, old.at.form, 1);
        if above.at.form > 4 {
            return false;
        }
        let word = where_word(above.at.form, above.at.level, key);
        if over != word {
            return false;
        }
        let lower = where_word(old.at.form, old.at.level, key);
        if under != lower {
            return false;
        }
        let byte = key_byte(key, above.at.level);
        let child = self.child(hand, above.at, key, byte);
        names(child, key, old.at.node)
    }

    /// What a key has at a node that covers it, if that is its last one and may have its leaf.
    pub fn own_leaf(&self, hand: &mut Hand, old: Locked, key: u64) -> Option<Option<u64>>
        requires of { IsOf self.now.nodes.table.shared.table_id hand.old }
        requires old { IsLocked old (view hand.old) }
        requires covers { words_of (view hand.old) old.at.node 1 ≡ where_of old.at.form old.at.level key }
        ensures of { IsOf self.now.nodes.table.shared.table_id hand.new }
        ensures looks { Looks IsTree (view hand.old) (view hand.new) }
        ensures owns { IfSome result (λ x. Owns old.at key x (view hand.old)) }
    {
        let byte = key_byte(key, old.at.level);
        let child = self.child(hand, old.at, key, byte);
        let leaves = has_leaves(old.at);
        if !leaves {
            return None;
        }
        if child.first == 0 {
            return Some(None);
        }
        let leaf = leaf_word(key);
        if child.first == leaf {
            return Some(Some(child.second));
        }
        None
    }

    /// Writes over the child that a node has on the way to a key.
    pub fn write_child(&self, hand: &mut Hand, above: Locked, key: u64, child: Child)
        requires of { IsOf self.now.nodes.table.shared.table_id hand.old }
        requires above { IsHeld above (view hand.old) }
        requires shape { IsForm above.at.form (words_of (view hand.old) above.at.node) }
        requires inner { is_inner above.at.form ≡ true }
        requires there { first_of above.at.form (words_of (view hand.old) above.at.node) key (byte_at key above.at.level) ≢ 0 }
        requires some { child.first ≢ 0 }
        requires tells { Tells child.first (view hand.old) }
        ensures of { IsOf self.now.nodes.table.shared.table_id hand.new }
        ensures stays { Stays above.at.node (view hand.old) (view hand.new) }
        ensures becomes { Becomes above.at.form (words_of (view hand.old) above.at.node) (words_of (view hand.new) above.at.node) (byte_at key above.at.level) (λ k. child.first) child.second }
    {
        let byte = key_byte(key, above.at.level);
        let node = above.at.node;
        let form = above.at.form;
        let Some(place) = find_place(&self.nodes, hand, node, form, byte) else {
            unreachable!();
        };
        let item = Item {
            byte,
            first: child.first,
            last: child.second,
        };
        write_over(&self.nodes, hand, node, form, place, item);
    }

    /// Hangs a child in place of a node, which covers nothing from then on.
    pub fn hang(&self, hand: &mut Hand, above: Locked, old: Locked, key: u64, child: Child)
        requires of { IsOf self.now.nodes.table.shared.table_id hand.old }
        requires above { IsHeld above (view hand.old) }
        requires old { IsHeld old (view hand.old) }
        requires apart { above.at.node ≢ old.at.node }
        requires shape { IsForm above.at.form (words_of (view hand.old) above.at.node) }
        requires inner { is_inner above.at.form ≡ true }
        requires there { first_of above.at.form (words_of (view hand.old) above.at.node) key (byte_at key above.at.level) ≢ 0 }
        requires some { child.first ≢ 0 }
        requires tells { Tells child.first (view hand.old) }
        ensures of { IsOf self.now.nodes.table.shared.table_id hand.new }
        ensures hung { IsHung above.at old.at key child.first child.second (view hand.old) (view hand.new) }
        ensures held { IsHeld above (view hand.new) × IsHeld old (view hand.new) }
    {
        self.nodes.store(hand, old.at.node, old.at.form, 1, 0);
        self.write_child(hand, above, key, child);
    }
}
