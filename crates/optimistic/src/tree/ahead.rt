//! Look-ups of several keys side by side.
//!
//! Before some keys are looked up, the ways to them are followed some nodes down, one node of each key after the other: no look
//! waits for the one before it, so what they want from memory comes at the same time. Where a way led is a guess alone: a key is
//! looked up from there on as if nothing were known of the node, and from the root where that comes to nothing.
ghost use Rattle.std.specs.Prelude.{◌≡◌, ◌<◌, IfSome, Some, length, slice_get};
ghost use Rattle.optimistic.specs.declared.words.rule.Moment.{Moment};
ghost use Rattle.optimistic.specs.words.Calls.{Keeps, Later};
ghost use Rattle.optimistic.specs.words.Kept.{value_of, Since};
ghost use Rattle.optimistic.specs.words.Told.{view, IsOf, Looks};
ghost use Rattle.optimistic.specs.tree.Reads.{IsPlace};
ghost use Rattle.optimistic.specs.tree.Trails.{AreKnown, IsKnown};
ghost use Rattle.optimistic.specs.tree.Trees.{IsTree};

use crate::forms::names::key_byte;
use crate::tree::get::{TOP, Tree};
use crate::tree::names::{may_go_on, place_below};
use crate::tree::place::{Look, Place};
use crate::words::Hand;
use std::sync::Wait;

/// How many keys are looked up side by side.
pub const GROUP: usize = 8;

/// How many nodes are passed before these keys are looked up: three for each.
pub const STEPS: usize = 24;

/// The nodes to which the ways to some keys led.
#[derive(Clone, Copy, Drop)]
pub struct Ahead {
    places: [Place; GROUP],
}

impl Ahead {
    /// The node to which a key's way led.
    fn at(&self, turn: usize) -> Place
        requires { turn < length self.now.places }
        ensures { slice_get self.now.places turn ≡ Some result }
    {
        self.places[turn]
    }

    /// Keeps a node in mind for a key.
    fn put(&mut self, turn: usize, at: Place)
        requires { turn < length self.old.places }
        ensures { (m : Moment) → AreKnown self.old m → IsKnown at m → AreKnown self.new m }
    {
        self.places[turn] = at;
    }
}

impl Tree {
    /// The root for each key.
    pub fn ahead(&self, hand: &Hand) -> Ahead
        requires of { IsOf self.now.nodes.table.shared.table_id hand.now }
        ensures { AreKnown result (view hand.now).seen }
    {
        let _ = hand;
        Ahead {
            places: [TOP; GROUP],
        }
    }

    /// The node below one on a key's way, or the same one where the way may not go on.
    fn below(&self, hand: &mut Hand, at: Place, key: u64) -> Place
        requires of { IsOf self.now.nodes.table.shared.table_id hand.old }
        requires at { IsPlace at (view hand.old) }
        ensures of { IsOf self.now.nodes.table.shared.table_id hand.new }
        ensures looks { Looks IsTree (view hand.old) (view hand.new) }
        ensures place { IsPlace result (view hand.new) }
    {
        let byte = key_byte(key, at.level);
        let child = self.child(hand, at, key, byte);
        let on = may_go_on(child, key);
        if on { place_below(child.first) } else { at }
    }

    /// Follows a key's way by one node.
    pub fn follow(&self, hand: &mut Hand, ahead: &mut Ahead, turn: usize, key: u64)
        requires of { IsOf self.now.nodes.table.shared.table_id hand.old }
        requires known { AreKnown ahead.old (view hand.old).seen }
        requires turn { turn < 8 }
        ensures of { IsOf self.now.nodes.table.shared.table_id hand.new }
        ensures looks { Looks IsTree (view hand.old) (view hand.new) }
        ensures known { AreKnown ahead.new (view hand.new).seen }
    {
        let at = ahead.at(turn);
        let below = self.below(hand, at, key);
        ahead.put(turn, below);
    }

    /// Looks a key up from a node on, if that is on its way and no writer comes between.
    fn try_by(&self, hand: &mut Hand, at: Place, key: u64) -> Option<Option<u64>>
        requires of { IsOf self.now.nodes.table.shared.table_id hand.old }
        requires at { IsPlace at (view hand.old) }
        ensures of { IsOf self.now.nodes.table.shared.table_id hand.new }
        ensures later { Later (view hand.old) (view hand.new) }
        ensures mine { (view hand.new).mine ≡ (view hand.old).mine }
        ensures since { Since (view hand.old).seen (view hand.new).seen }
        ensures value { IfSome result (λ x. Keeps (view hand.old) (view hand.new) × (x ≡ value_of key (view hand.new).seen.log)) }
    {
        let mut next = self.look(hand, at, key);
        for _ in 0..9 {
            match next {
                Look::Answer(value) => return Some(value),
                Look::Down(below) => next = self.look(hand, below, key),
                Look::Again => return None,
            }
        }
        None
    }

    /// Looks a key up from a node on, and from the root where that comes to nothing.
    fn get_by<R: Wait>(&self, rt: &R, hand: &mut Hand, at: Place, key: u64) -> Option<u64>
        requires of { IsOf self.now.nodes.table.shared.table_id hand.old }
        requires at { IsPlace at (view hand.old) }
        ensures of { IsOf self.now.nodes.table.shared.table_id hand.new }
        ensures keeps { Keeps (view hand.old) (view hand.new) }
        ensures mine { (view hand.new).mine ≡ (view hand.old).mine }
        ensures since { Since (view hand.old).seen (view hand.new).seen }
        ensures value { result ≡ value_of key (view hand.new).seen.log }
    {
        if let Some(value) = self.try_by(hand, at, key) {
            return value;
        }
        self.get(rt, hand, key)
    }

    /// Looks a key up from where its way led.
    pub fn get_ahead<R: Wait>(
        &self,
        rt: &R,
        hand: &mut Hand,
        ahead: &Ahead,
        turn: usize,
        key: u64,
    ) -> Option<u64>
        requires of { IsOf self.now.nodes.table.shared.table_id hand.old }
        requires known { AreKnown ahead.now (view hand.old).seen }
        requires turn { turn < 8 }
        ensures of { IsOf self.now.nodes.table.shared.table_id hand.new }
        ensures keeps { Keeps (view hand.old) (view hand.new) }
        ensures mine { (view hand.new).mine ≡ (view hand.old).mine }
        ensures known { AreKnown ahead.now (view hand.new).seen }
        ensures value { result ≡ value_of key (view hand.new).seen.log }
    {
        let at = ahead.at(turn);
        self.get_by(rt, hand, at, key)
    }
}
