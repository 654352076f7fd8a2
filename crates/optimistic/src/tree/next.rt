//! The next pair from a key on, as it is at one moment.
//!
//! The way down to a key tells its value, or that no key up to some later one has one. That holds as long as the version stays
//! of the node that told it. So the next pair is found by some ways down, and it is the next one at one moment if each of the
//! nodes that told of the keys before it still has its version once the pair is known.
ghost use Rattle.std.specs.Prelude.{◌≡◌, ◌≢◌, ℕ, ◌<◌, ◌≤◌, ◌⊎◌, ◌+◌, true, IfNone, IfSome, List};
ghost use Rattle.optimistic.specs.declared.words.rule.Entry.{Entry};
ghost use Rattle.optimistic.specs.words.Calls.{Keeps, Later};
ghost use Rattle.optimistic.specs.words.Kept.{word_at, Since};
ghost use Rattle.optimistic.specs.words.Told.{view, IsOf, Looks};
ghost use Rattle.optimistic.specs.tree.Alone.{IsDated, IsDisturbedFrom};
ghost use Rattle.optimistic.specs.tree.Asked.{IsAsked, IsSought};
ghost use Rattle.optimistic.specs.tree.Nexts.{IsFirst};
ghost use Rattle.optimistic.specs.tree.Reads.{IsPlace};
ghost use Rattle.optimistic.specs.tree.Sights.{Shows, Knows, IsSight, Stood};
ghost use Rattle.optimistic.specs.tree.Trees.{IsTree};

use crate::drain::Pair;
use crate::drain::keys::last_key;
use crate::drain::nexts::{Next, next_of_item};
use crate::forms::names::{key_byte, where_word};
use crate::moves::Item;
use crate::tree::get::{ATTEMPTS, TOP, Tree};
use crate::tree::place::Place;
use crate::words::Hand;
use std::hint::spin_loop;
use std::sync::Wait;
use std::thread::yield_now;

/// What a node told at a version, which holds while it has that version.
#[derive(Clone, Copy, Drop)]
pub struct Sight {
    pub at: Place,
    pub version: u64,
    pub next: Next,
}

/// The byte before `to`, if that comes after `byte`.
#[inline(always)]
fn byte_before(to: usize, byte: u8) -> u8
    requires { to ≤ 256 }
    ensures { (byte ≤ result) × ((result ≡ byte) ⊎ (result < to)) }
{
    if to > byte as usize {
        (to - 1) as u8
    } else {
        byte
    }
}

impl Tree {
    /// What a node tells of the next pair from a key on, if it covers the key and stays as it is meanwhile.
    #[inline(always)]
    fn next_at(&self, hand: &mut Hand, at: Place, from: u64) -> Next
        requires of { IsOf self.now.nodes.table.shared.table_id hand.old }
        requires at { IsPlace at (view hand.old) }
        ensures of { IsOf self.now.nodes.table.shared.table_id hand.new }
        ensures looks { Looks IsTree (view hand.old) (view hand.new) }
        ensures knows { Knows from result (view hand.new) }
        ensures shows { Shows at from result (view hand.old) (view hand.new) }
    {
        let byte = key_byte(from, at.level);
        let child = self.child(hand, at, from, byte);
        let some = child.first != 0;
        if some {
            let item = Item {
                byte,
                first: child.first,
                last: child.second,
            };
            return next_of_item(item, at, from);
        }
        let to = self.gap(hand, at, byte);
        let end = byte_before(to, byte);
        Next::After(last_key(from, at.level, end))
    }

    /// What a node on the way to a key tells, with its version, if it covers the key and nobody has it.
    #[inline(always)]
    pub(crate) fn sight_at(&self, hand: &mut Hand, at: Place, from: u64) -> Option<Sight>
        requires of { IsOf self.now.nodes.table.shared.table_id hand.old }
        requires at { IsPlace at (view hand.old) }
        ensures of { IsOf self.now.nodes.table.shared.table_id hand.new }
        ensures looks { Looks IsTree (view hand.old) (view hand.new) }
        ensures sight { IfSome result (λ s. IsSight s from (view hand.new)) }
        ensures dated { IfSome result (λ s. IsDated s.at.node s.version (view hand.old).seen (view hand.new).seen) }
        ensures asked { IsAsked from at result (view hand.old) (view hand.new) }
    {
        let version = self.nodes.load(hand, at.node, at.form, 0);
        let next = self.next_at(hand, at, from);
        let sight = Sight { at, version, next };
        if let Next::Down(_) = next {
            return Some(sight);
        }
        let found = self.read(hand, at.node, at.form, 1);
        let word = where_word(at.form, at.level, from);
        if found != word {
            return None;
        }
        if version % 2 == 1 {
            return None;
        }
        Some(sight)
    }

    /// What the last node on the way to a key tells.
    pub fn sight(&self, hand: &mut Hand, from: u64) -> Option<Sight>
        requires of { IsOf self.now.nodes.table.shared.table_id hand.old }
        ensures of { IsOf self.now.nodes.table.shared.table_id hand.new }
        ensures looks { Looks IsTree (view hand.old) (view hand.new) }
        ensures sight { IfSome result (λ s. IsSight s from (view hand.new)) }
        ensures dated { IfSome result (λ s. IsDated s.at.node s.version (view hand.old).seen (view hand.new).seen) }
        ensures sought { IsSought result (view hand.old) (view hand.new) }
    {
        let mut sight = self.sight_at(hand, TOP, from);
        for _depth in 0..9u64 {
            let Some(seen) = sight else {
                return None;
            };
            match seen.next {
                Next::Down(below) => sight = self.sight_at(hand, below, from),
                _ => return Some(seen),
            }
        }
        None
    }

    /// The pair, if the node that was seen still has its version.
    pub fn confirm(
        &self,
        hand: &mut Hand,
        sight: Sight,
        first: Option<Pair>,
    ) -> Option<Option<Pair>>
        requires of { IsOf self.now.nodes.table.shared.table_id hand.old }
        requires place { IsPlace sight.at (view hand.old) }
        ensures of { IsOf self.now.nodes.table.shared.table_id hand.new }
        ensures looks { Looks IsTree (view hand.old) (view hand.new) }
        ensures still { IfSome result (λ r. (r ≡ first) × (word_at (view hand.new).seen.words sight.at.node 0 ≡ sight.version)) }
        ensures moved { IfNone result (word_at (view hand.new).seen.words sight.at.node 0 ≢ sight.version) }
    {
        let version = self.nodes.load(hand, sight.at.node, sight.at.form, 0);
        if version != sight.version {
            return None;
        }
        Some(first)
    }

    /// The first pair from a key on, if no writer comes between.
    fn try_next(&self, hand: &mut Hand, from: u64) -> Option<Option<Pair>>
        requires of { IsOf self.now.nodes.table.shared.table_id hand.old }
        ensures of { IsOf self.now.nodes.table.shared.table_id hand.new }
        ensures looks { Looks IsTree (view hand.old) (view hand.new) }
        ensures first { IfSome result (λ r. Stood (λ log. IsFirst log from r) (view hand.old) (view hand.new)) }
        ensures alone { IfNone result (IsDisturbedFrom (view hand.old) (view hand.new)) }
    {
        let Some(sight) = self.sight(hand, from) else {
            return None;
        };
        match sight.next {
            Next::Here(value) => self.confirm(hand, sight, Some(Pair { key: from, value })),
            Next::Down(_) => None,
            Next::After(last) => {
                if last == u64::MAX {
                    return self.confirm(hand, sight, None);
                }
                match self.try_next(hand, last + 1) {
                    Some(first) => self.confirm(hand, sight, first),
                    None => None,
                }
            }
        }
    }

    /// The same, some times where a writer comes between.
    fn next_soon(&self, hand: &mut Hand, from: u64) -> Option<Option<Pair>>
        requires of { IsOf self.now.nodes.table.shared.table_id hand.old }
        ensures of { IsOf self.now.nodes.table.shared.table_id hand.new }
        ensures later { Later (view hand.old) (view hand.new) }
        ensures mine { (view hand.new).mine ≡ (view hand.old).mine }
        ensures since { Since (view hand.old).seen (view hand.new).seen }
        ensures first { IfSome result (λ r. Keeps (view hand.old) (view hand.new) × Stood (λ log. IsFirst log from r) (view hand.old) (view hand.new)) }
        ensures alone { IfNone result (IsDisturbedFrom (view hand.old) (view hand.new)) }
    {
        for _attempt in 0..ATTEMPTS {
            if let Some(first) = self.try_next(hand, from) {
                return Some(first);
            }
            spin_loop();
        }
        None
    }

    /// The first pair from a key on, as it was at one moment within the call.
    pub fn next_from<R: Wait>(&self, rt: &R, hand: &mut Hand, from: u64) -> Option<Pair>
        requires of { IsOf self.now.nodes.table.shared.table_id hand.old }
        ensures of { IsOf self.now.nodes.table.shared.table_id hand.new }
        ensures keeps { Keeps (view hand.old) (view hand.new) }
        ensures mine { (view hand.new).mine ≡ (view hand.old).mine }
        ensures first { Stood (λ log. IsFirst log from result) (view hand.old) (view hand.new) }
    {
        for _ in rt.forever() {
            if let Some(first) = self.next_soon(hand, from) {
                return first;
            }
            yield_now();
        }
        unreachable!()
    }
}
