//! A new node where the key's place at its last node is taken: it comes between the node and the child that stands there.
ghost use Rattle.std.specs.Prelude.{◌≡◌, ◌≢◌, ◌<◌, ◌+◌, ◌^◌, ◌⊎◌, true, Some, None, IfErr, IfOk, MatchResult};
ghost use Rattle.optimistic.specs.Layout.{byte_at, child_of, leaf_of, where_of};
ghost use Rattle.optimistic.specs.words.Calls.{Keeps};
ghost use Rattle.optimistic.specs.words.Kept.{has, Since};
ghost use Rattle.optimistic.specs.words.Room.{IsUnmade};
ghost use Rattle.optimistic.specs.words.Told.{view, IsOf, HasForm, Tells, IsDrafted};
ghost use Rattle.optimistic.specs.forms.Children.{is_inner, first_of, second_of, IsForm, Becomes};
ghost use Rattle.optimistic.specs.forms.Pairs.{HasTwo};
ghost use Rattle.optimistic.specs.Moves.{words_of, Stays};
ghost use Rattle.optimistic.specs.tree.Branches.{IsBranch, IsSpare, IsFirst, LetsBothGo};
ghost use Rattle.optimistic.specs.tree.Fresh.{IsFreeOf};
ghost use Rattle.optimistic.specs.tree.Reads.{IsPlace};
ghost use Rattle.optimistic.specs.tree.Sets.{Replaces, IsSet, HasNoMore, LetsGo};
ghost use Rattle.optimistic.specs.tree.Writes.{KeepsBut};

use crate::changes::{find_place, write_over};
use crate::forms::names::{child_word, key_byte, leaf_word, where_word};
use crate::moves::Item;
use crate::pairs::fill_two;
use crate::tree::branch::{Branch, find_branch};
use crate::tree::fresh::{Free, Fresh};
use crate::tree::get::Tree;
use crate::tree::lock::Locking;
use crate::tree::place::{Child, Place};
use crate::tree::set::Set;
use crate::tree::stores::Change;
use crate::words::{Entry, Hand, Note, Uncarved};

/// Whether a node that says this of its keys covers this one, and has children.
#[inline(always)]
fn has_children(at: Place, found: u64, key: u64) -> bool
    requires form { at.form < 9 }
    requires level { at.level < 8 }
    ensures { result ≡ true → (found ≡ where_of at.form at.level key) × (is_inner at.form ≡ true) }
{
    let word = where_word(at.form, at.level, key);
    if found != word {
        return false;
    }
    at.form < 5
}

impl Tree {
    /// Says which keys a new node covers, and gives it the old child and the key's lone leaf.
    fn fill_branch(
        &self,
        hand: &mut Hand,
        node: usize,
        branch: Branch,
        child: Child,
        key: u64,
        value: u64,
    )
        requires of { IsOf self.now.nodes.table.shared.table_id hand.old }
        requires at { HasForm node branch.form (view hand.old) }
        requires form { (branch.form ≡ 1) ⊎ ((branch.form ≡ 5) × (branch.level ≡ 7)) }
        requires level { branch.level < 8 }
        requires mine { has (view hand.old).mine node ≡ true }
        requires apart { branch.byte ≢ byte_at key branch.level }
        requires some { child.first ≢ 0 }
        requires tells { Tells child.first (view hand.old) }
        ensures of { IsOf self.now.nodes.table.shared.table_id hand.new }
        ensures at { HasForm node branch.form (view hand.new) }
        ensures keeps { KeepsBut node (view hand.old) (view hand.new) }
        ensures covers { words_of (view hand.new) node 1 ≡ where_of branch.form branch.level key }
        ensures two { HasTwo branch.form (words_of (view hand.new) node) branch.byte child.first child.second (byte_at key branch.level) (leaf_of key) value }
    {
        let covers = Change {
            word: 1,
            value: where_word(branch.form, branch.level, key),
        };
        self.write(hand, node, branch.form, covers);
        let old = Item {
            byte: branch.byte,
            first: child.first,
            last: child.second,
        };
        let leaf = Item {
            byte: key_byte(key, branch.level),
            first: leaf_word(key),
            last: value,
        };
        fill_two(&self.nodes, hand, node, branch.form, old, leaf);
    }

    /// Puts a new node where the key has a child.
    fn hang_branch(&self, hand: &mut Hand, at: Place, node: usize, form: u64, level: u64, key: u64)
        requires of { IsOf self.now.nodes.table.shared.table_id hand.old }
        requires at { IsPlace at (view hand.old) }
        requires mine { has (view hand.old).mine at.node ≡ true }
        requires inner { is_inner at.form ≡ true }
        requires shape { IsForm at.form (words_of (view hand.old) at.node) }
        requires there { first_of at.form (words_of (view hand.old) at.node) key (byte_at key at.level) ≢ 0 }
        requires new { HasForm node form (view hand.old) }
        requires form { (0 < form) × (form < 9) }
        requires level { level < 8 }
        ensures of { IsOf self.now.nodes.table.shared.table_id hand.new }
        ensures at { HasForm at.node at.form (view hand.new) }
        ensures stays { Stays at.node (view hand.old) (view hand.new) }
        ensures hung { Becomes at.form (words_of (view hand.old) at.node) (words_of (view hand.new) at.node) (byte_at key at.level) (λ k. child_of form level node) (where_of form level key) }
    {
        let byte = key_byte(key, at.level);
        let found = find_place(&self.nodes, hand, at.node, at.form, byte);
        let Some(place) = found else { unreachable!() };
        let item = Item {
            byte,
            first: child_word(form, level, node as u64),
            last: where_word(form, level, key),
        };
        write_over(&self.nodes, hand, at.node, at.form, place, item);
    }

    /// Puts a new node between a node and its child, and writes the key's leaf there. The hand has both nodes, and lets them go.
    fn split_with(
        &self,
        hand: &mut Hand,
        at: Place,
        version: u64,
        child: Child,
        branch: Branch,
        new: Fresh,
        key: u64,
        value: u64,
    )
        requires of { IsOf self.now.nodes.table.shared.table_id hand.old }
        requires at { IsPlace at (view hand.old) }
        requires version { version + 1 < 2 ^ 64 }
        requires drafted { IsDrafted at.node version (view hand.old) }
        requires inner { is_inner at.form ≡ true }
        requires shape { IsForm at.form (words_of (view hand.old) at.node) }
        requires covers { words_of (view hand.old) at.node 1 ≡ where_of at.form at.level key }
        requires first { first_of at.form (words_of (view hand.old) at.node) key (byte_at key at.level) ≡ child.first }
        requires second { second_of at.form (words_of (view hand.old) at.node) key (byte_at key at.level) ≡ child.second }
        requires tells { Tells child.first (view hand.old) }
        requires branch { IsBranch child.first child.second key at.level branch.form branch.level branch.byte }
        requires new { IsSpare new branch.form (view hand.old) }
        requires apart { at.node ≢ new.node }
        ensures of { IsOf self.now.nodes.table.shared.table_id hand.new }
        ensures since { Since (view hand.old).seen (view hand.new).seen }
        ensures set { Replaces key (Some value) None (view hand.old) (view hand.new) }
        ensures lets_go { LetsBothGo at.node new.node (view hand.old) (view hand.new) }
    {
        self.fill_branch(hand, new.node, branch, child, key, value);
        self.hang_branch(hand, at, new.node, branch.form, branch.level, key);
        let entry = Entry {
            by: 0,
            key,
            value: Some(value),
        };
        let note = Note {
            first: Some(new.node as u64),
            second: None,
            third: None,
            entry: Some(entry),
            form: 0,
        };
        self.nodes.unlock(hand, at.node, at.form, version, &note);
        self.nodes.release(hand, new.node, branch.form, new.version);
    }

    /// The same with a node that is taken for it. Where none is left, the node is let go as it was.
    fn split_by(
        &self,
        hand: &mut Hand,
        free: &mut Free,
        at: Place,
        version: u64,
        child: Child,
        branch: Branch,
        key: u64,
        value: u64,
    ) -> Result<Set, Uncarved>
        requires of { IsOf self.now.nodes.table.shared.table_id hand.old }
        requires at { IsPlace at (view hand.old) }
        requires version { version + 1 < 2 ^ 64 }
        requires drafted { IsDrafted at.node version (view hand.old) }
        requires inner { is_inner at.form ≡ true }
        requires shape { IsForm at.form (words_of (view hand.old) at.node) }
        requires covers { words_of (view hand.old) at.node 1 ≡ where_of at.form at.level key }
        requires first { first_of at.form (words_of (view hand.old) at.node) key (byte_at key at.level) ≡ child.first }
        requires second { second_of at.form (words_of (view hand.old) at.node) key (byte_at key at.level) ≡ child.second }
        requires tells { Tells child.first (view hand.old) }
        requires branch { IsBranch child.first child.second key at.level branch.form branch.level branch.byte }
        requires names { IsFreeOf free.old (view hand.old) }
        ensures of { IsOf self.now.nodes.table.shared.table_id hand.new }
        ensures since { Since (view hand.old).seen (view hand.new).seen }
        ensures names { IsFreeOf free.new (view hand.new) }
        ensures set { MatchResult result (λ s. IsSet key (Some value) s (view hand.old) (view hand.new)) (λ _. Keeps (view hand.old) (view hand.new)) }
        ensures cause { IfErr result (λ e. IsUnmade self.now.nodes.table.shared.table_id.words e (view hand.new).seen) }
        ensures first { IfOk result IsFirst }
        ensures lets_go { LetsGo at.node (view hand.old) (view hand.new) }
    {
        match self.fresh(hand, free, branch.form) {
            Ok(new) => {
                self.split_with(hand, at, version, child, branch, new, key, value);
                Ok(Set::Done(None))
            }
            Err(error) => {
                self.nodes.release(hand, at.node, at.form, version);
                Err(error)
            }
        }
    }

    /// The same at a node that the hand has, if it covers the key, and something stands there that says nothing of the key.
    fn split_locked(
        &self,
        hand: &mut Hand,
        free: &mut Free,
        at: Place,
        version: u64,
        key: u64,
        value: u64,
    ) -> Result<Set, Uncarved>
        requires of { IsOf self.now.nodes.table.shared.table_id hand.old }
        requires at { IsPlace at (view hand.old) }
        requires version { version + 1 < 2 ^ 64 }
        requires drafted { IsDrafted at.node version (view hand.old) }
        requires names { IsFreeOf free.old (view hand.old) }
        ensures of { IsOf self.now.nodes.table.shared.table_id hand.new }
        ensures since { Since (view hand.old).seen (view hand.new).seen }
        ensures names { IsFreeOf free.new (view hand.new) }
        ensures set { MatchResult result (λ s. IsSet key (Some value) s (view hand.old) (view hand.new)) (λ _. Keeps (view hand.old) (view hand.new)) }
        ensures cause { IfErr result (λ e. IsUnmade self.now.nodes.table.shared.table_id.words e (view hand.new).seen) }
        ensures first { IfOk result IsFirst }
        ensures lets_go { LetsGo at.node (view hand.old) (view hand.new) }
    {
        let found = self.read(hand, at.node, at.form, 1);
        let fits = has_children(at, found, key);
        if !fits {
            self.nodes.release(hand, at.node, at.form, version);
            return Ok(Set::Again);
        }
        let byte = key_byte(key, at.level);
        let child = self.child(hand, at, key, byte);
        match find_branch(child, key, at.level) {
            Some(branch) => self.split_by(hand, free, at, version, child, branch, key, value),
            None => {
                self.nodes.release(hand, at.node, at.form, version);
                Ok(Set::Again)
            }
        }
    }

    /// Writes a key that has no value at its last node, where another key's leaf, or a node that doesn't cover the key, stands in
    /// its place: both go below a new node. Where no node was to be had, nothing changed.
    pub fn try_split(
        &self,
        hand: &mut Hand,
        free: &mut Free,
        at: Place,
        key: u64,
        value: u64,
    ) -> Result<Set, Uncarved>
        requires of { IsOf self.now.nodes.table.shared.table_id hand.old }
        requires at { IsPlace at (view hand.old) }
        requires names { IsFreeOf free.old (view hand.old) }
        ensures of { IsOf self.now.nodes.table.shared.table_id hand.new }
        ensures since { Since (view hand.old).seen (view hand.new).seen }
        ensures names { IsFreeOf free.new (view hand.new) }
        ensures set { MatchResult result (λ s. IsSet key (Some value) s (view hand.old) (view hand.new)) (λ _. Keeps (view hand.old) (view hand.new)) }
        ensures cause { IfErr result (λ e. IsUnmade self.now.nodes.table.shared.table_id.words e (view hand.new).seen) }
        ensures first { IfOk result IsFirst }
        ensures no_more { HasNoMore (view hand.old) (view hand.new) }
    {
        match self.try_lock(hand, at) {
            Locking::Had(version) => self.split_locked(hand, free, at, version, key, value),
            Locking::Busy => Ok(Set::Again),
            Locking::Exhausted => Ok(Set::Exhausted),
        }
    }
}
