//! A node's child at a key's byte, as it is read.
ghost use Rattle.std.specs.Prelude.{◌≡◌, ◌≢◌, ℕ, ◌<◌, ◌≤◌, ◌+◌, ◌-◌, ◌*◌, ◌/◌, ◌%◌, ◌^◌, ◌==◌, if◌then◌else◌, true};
ghost use Rattle.std.specs.Int.{bit_at};
ghost use Rattle.optimistic.specs.Layout.{width, is_link, leaf_of};
ghost use Rattle.optimistic.specs.words.Told.{view, IsOf, HasForm, Tells, Looks};
ghost use Rattle.optimistic.specs.tree.Reads.{Steady, Found, IsPlace};
ghost use Rattle.optimistic.specs.tree.Trees.{IsTree};

use crate::forms::bits::has_bit;
use crate::forms::names::leaf_word;
use crate::forms::places::{find_forty_eight, find_four, find_sixteen};
use crate::forms::wide::{has_byte, place_of_byte};
use crate::tree::get::Tree;
use crate::tree::place::{Child, Place};
use crate::words::Hand;

/// No child.
const NONE: Child = Child {
    first: 0,
    second: 0,
};

impl Tree {
    /// A word of a node.
    #[inline(always)]
    pub fn read(&self, hand: &mut Hand, node: usize, form: u64, word: usize) -> u64
        requires of { IsOf self.now.nodes.table.shared.table_id hand.old }
        requires at { HasForm node form (view hand.old) }
        requires inside { (0 < word) × (word < width form) }
        ensures of { IsOf self.now.nodes.table.shared.table_id hand.new }
        ensures at { HasForm node form (view hand.new) }
        ensures looks { Looks IsTree (view hand.old) (view hand.new) }
        ensures tells { is_link form word ≡ true → Tells result (view hand.new) }
        ensures steady { Steady node form word result (view hand.old) (view hand.new) }
    {
        self.nodes.load(hand, node, form, word)
    }

    /// The child of which the words begin at this one.
    #[inline(always)]
    pub fn pair(&self, hand: &mut Hand, node: usize, form: u64, word: usize) -> Child
        requires of { IsOf self.now.nodes.table.shared.table_id hand.old }
        requires at { HasForm node form (view hand.old) }
        requires inside { (0 < word) × (word + 1 < width form) }
        requires link { is_link form word ≡ true }
        ensures of { IsOf self.now.nodes.table.shared.table_id hand.new }
        ensures at { HasForm node form (view hand.new) }
        ensures looks { Looks IsTree (view hand.old) (view hand.new) }
        ensures tells { Tells result.first (view hand.new) }
        ensures first { Steady node form word result.first (view hand.old) (view hand.new) }
        ensures second { Steady node form (word + 1) result.second (view hand.old) (view hand.new) }
    {
        let first = self.read(hand, node, form, word);
        let second = self.read(hand, node, form, word + 1);
        Child { first, second }
    }

    /// The child of a key at a node.
    #[inline(always)]
    pub fn child(&self, hand: &mut Hand, at: Place, key: u64, byte: u8) -> Child
        requires of { IsOf self.now.nodes.table.shared.table_id hand.old }
        requires at { IsPlace at (view hand.old) }
        ensures of { IsOf self.now.nodes.table.shared.table_id hand.new }
        ensures at { HasForm at.node at.form (view hand.new) }
        ensures looks { Looks IsTree (view hand.old) (view hand.new) }
        ensures tells { Tells result.first (view hand.new) }
        ensures found { Found at.node at.form result.first result.second key byte (view hand.old) (view hand.new) }
    {
        match at.form {
            1 => self.child_of_four(hand, at.node, key, byte),
            2 => self.child_of_sixteen(hand, at.node, key, byte),
            3 => self.child_of_forty_eight(hand, at.node, key, byte),
            4 => self.child_of_wide(hand, at.node, key, byte),
            5 => self.value_of_four(hand, at.node, key, byte),
            6 => self.value_of_sixteen(hand, at.node, key, byte),
            7 => self.value_of_forty_eight(hand, at.node, key, byte),
            _ => self.value_of_wide(hand, at.node, key, byte),
        }
    }

    /// The child at a byte of a node of four.
    #[inline(always)]
    fn child_of_four(&self, hand: &mut Hand, node: usize, key: u64, byte: u8) -> Child
        requires of { IsOf self.now.nodes.table.shared.table_id hand.old }
        requires at { HasForm node 1 (view hand.old) }
        ensures of { IsOf self.now.nodes.table.shared.table_id hand.new }
        ensures at { HasForm node 1 (view hand.new) }
        ensures looks { Looks IsTree (view hand.old) (view hand.new) }
        ensures tells { Tells result.first (view hand.new) }
        ensures found { Found node 1 result.first result.second key byte (view hand.old) (view hand.new) }
    {
        let word = self.read(hand, node, 1, 2);
        match find_four(word, byte) {
            Some(place) => self.pair(hand, node, 1, 4 + 2 * place),
            None => NONE,
        }
    }

    /// The child at a byte of a node of sixteen.
    #[inline(always)]
    fn child_of_sixteen(&self, hand: &mut Hand, node: usize, key: u64, byte: u8) -> Child
        requires of { IsOf self.now.nodes.table.shared.table_id hand.old }
        requires at { HasForm node 2 (view hand.old) }
        ensures of { IsOf self.now.nodes.table.shared.table_id hand.new }
        ensures at { HasForm node 2 (view hand.new) }
        ensures looks { Looks IsTree (view hand.old) (view hand.new) }
        ensures tells { Tells result.first (view hand.new) }
        ensures found { Found node 2 result.first result.second key byte (view hand.old) (view hand.new) }
    {
        let a = self.read(hand, node, 2, 2);
        let b = self.read(hand, node, 2, 3);
        match find_sixteen(a, b, byte) {
            Some(place) => self.pair(hand, node, 2, 6 + 2 * place),
            None => NONE,
        }
    }

    /// The child at a byte of a node of forty-eight.
    #[inline(always)]
    fn child_of_forty_eight(&self, hand: &mut Hand, node: usize, key: u64, byte: u8) -> Child
        requires of { IsOf self.now.nodes.table.shared.table_id hand.old }
        requires at { HasForm node 3 (view hand.old) }
        ensures of { IsOf self.now.nodes.table.shared.table_id hand.new }
        ensures at { HasForm node 3 (view hand.new) }
        ensures looks { Looks IsTree (view hand.old) (view hand.new) }
        ensures tells { Tells result.first (view hand.new) }
        ensures found { Found node 3 result.first result.second key byte (view hand.old) (view hand.new) }
    {
        let a = self.read(hand, node, 3, 2);
        let b = self.read(hand, node, 3, 3);
        let c = self.read(hand, node, 3, 4);
        let d = self.read(hand, node, 3, 5);
        let e = self.read(hand, node, 3, 6);
        let f = self.read(hand, node, 3, 7);
        match find_forty_eight(a, b, c, d, e, f, byte) {
            Some(place) => self.pair(hand, node, 3, 10 + 2 * place),
            None => NONE,
        }
    }

    /// The child at a byte of a node of 256.
    #[inline(always)]
    fn child_of_wide(&self, hand: &mut Hand, node: usize, key: u64, byte: u8) -> Child
        requires of { IsOf self.now.nodes.table.shared.table_id hand.old }
        requires at { HasForm node 4 (view hand.old) }
        ensures of { IsOf self.now.nodes.table.shared.table_id hand.new }
        ensures at { HasForm node 4 (view hand.new) }
        ensures looks { Looks IsTree (view hand.old) (view hand.new) }
        ensures tells { Tells result.first (view hand.new) }
        ensures found { Found node 4 result.first result.second key byte (view hand.old) (view hand.new) }
    {
        let place = place_of_byte(byte);
        self.pair(hand, node, 4, 8 + 2 * place)
    }

    /// The lone leaf of a key whose value is this word, if its place is taken.
    #[inline(always)]
    fn lone(
        &self,
        hand: &mut Hand,
        node: usize,
        form: u64,
        word: usize,
        taken: bool,
        key: u64,
    ) -> Child
        requires of { IsOf self.now.nodes.table.shared.table_id hand.old }
        requires at { HasForm node form (view hand.old) }
        requires inside { (0 < word) × (word < width form) }
        ensures of { IsOf self.now.nodes.table.shared.table_id hand.new }
        ensures at { HasForm node form (view hand.new) }
        ensures looks { Looks IsTree (view hand.old) (view hand.new) }
        ensures first { result.first ≡ (if taken then leaf_of key else 0) }
        ensures second { Steady node form word result.second (view hand.old) (view hand.new) }
    {
        let second = self.read(hand, node, form, word);
        if taken {
            Child {
                first: leaf_word(key),
                second,
            }
        } else {
            Child { first: 0, second }
        }
    }

    /// The lone leaf at a byte of a node of four values.
    #[inline(always)]
    fn value_of_four(&self, hand: &mut Hand, node: usize, key: u64, byte: u8) -> Child
        requires of { IsOf self.now.nodes.table.shared.table_id hand.old }
        requires at { HasForm node 5 (view hand.old) }
        ensures of { IsOf self.now.nodes.table.shared.table_id hand.new }
        ensures at { HasForm node 5 (view hand.new) }
        ensures looks { Looks IsTree (view hand.old) (view hand.new) }
        ensures tells { Tells result.first (view hand.new) }
        ensures found { Found node 5 result.first result.second key byte (view hand.old) (view hand.new) }
    {
        let word = self.read(hand, node, 5, 2);
        match find_four(word, byte) {
            Some(place) => self.lone(hand, node, 5, 3 + place, has_bit(word >> 32, place), key),
            None => NONE,
        }
    }

    /// The lone leaf at a byte of a node of sixteen values.
    #[inline(always)]
    fn value_of_sixteen(&self, hand: &mut Hand, node: usize, key: u64, byte: u8) -> Child
        requires of { IsOf self.now.nodes.table.shared.table_id hand.old }
        requires at { HasForm node 6 (view hand.old) }
        ensures of { IsOf self.now.nodes.table.shared.table_id hand.new }
        ensures at { HasForm node 6 (view hand.new) }
        ensures looks { Looks IsTree (view hand.old) (view hand.new) }
        ensures tells { Tells result.first (view hand.new) }
        ensures found { Found node 6 result.first result.second key byte (view hand.old) (view hand.new) }
    {
        let a = self.read(hand, node, 6, 2);
        let b = self.read(hand, node, 6, 3);
        let mask = self.read(hand, node, 6, 4);
        match find_sixteen(a, b, byte) {
            Some(place) => self.lone(hand, node, 6, 6 + place, has_bit(mask, place), key),
            None => NONE,
        }
    }

    /// The lone leaf at a byte of a node of forty-eight values.
    #[inline(always)]
    fn value_of_forty_eight(&self, hand: &mut Hand, node: usize, key: u64, byte: u8) -> Child
        requires of { IsOf self.now.nodes.table.shared.table_id hand.old }
        requires at { HasForm node 7 (view hand.old) }
        ensures of { IsOf self.now.nodes.table.shared.table_id hand.new }
        ensures at { HasForm node 7 (view hand.new) }
        ensures looks { Looks IsTree (view hand.old) (view hand.new) }
        ensures tells { Tells result.first (view hand.new) }
        ensures found { Found node 7 result.first result.second key byte (view hand.old) (view hand.new) }
    {
        let a = self.read(hand, node, 7, 2);
        let b = self.read(hand, node, 7, 3);
        let c = self.read(hand, node, 7, 4);
        let d = self.read(hand, node, 7, 5);
        let e = self.read(hand, node, 7, 6);
        let f = self.read(hand, node, 7, 7);
        let mask = self.read(hand, node, 7, 8);
        match find_forty_eight(a, b, c, d, e, f, byte) {
            Some(place) => self.lone(hand, node, 7, 10 + place, has_bit(mask, place), key),
            None => NONE,
        }
    }

    /// The lone leaf at a byte of a node of 256 values.
    #[inline(always)]
    pub fn value_of_wide(&self, hand: &mut Hand, node: usize, key: u64, byte: u8) -> Child
        requires of { IsOf self.now.nodes.table.shared.table_id hand.old }
        requires at { HasForm node 8 (view hand.old) }
        ensures of { IsOf self.now.nodes.table.shared.table_id hand.new }
        ensures at { HasForm node 8 (view hand.new) }
        ensures looks { Looks IsTree (view hand.old) (view hand.new) }
        ensures tells { Tells result.first (view hand.new) }
        ensures found { Found node 8 result.first result.second key byte (view hand.old) (view hand.new) }
    {
        let place = place_of_byte(byte);
        let mask = self.read(hand, node, 8, 2 + place / 64);
        self.lone(hand, node, 8, 8 + place, has_byte(mask, byte), key)
    }
}
