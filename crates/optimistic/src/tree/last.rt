//! The last pair up to a key, as it is at one moment.
//!
//! As the next pair from a key on, it is found by some ways down. The last node of each tells of keys up to the one that was
//! asked for: of those from one on that none has a value. The next way goes down to the key before that one.
ghost use Rattle.std.specs.Prelude.{◌≡◌, ◌≢◌, ℕ, ◌<◌, ◌≤◌, ◌⊎◌, ◌+◌, true, IfNone, IfSome, List};
ghost use Rattle.optimistic.specs.declared.words.rule.Entry.{Entry};
ghost use Rattle.optimistic.specs.words.Calls.{Keeps, Later};
ghost use Rattle.optimistic.specs.words.Kept.{Since};
ghost use Rattle.optimistic.specs.words.Told.{view, IsOf, Looks};
ghost use Rattle.optimistic.specs.tree.Alone.{IsDisturbedFrom};
ghost use Rattle.optimistic.specs.tree.Asked.{IsAsked, IsSought, sight_in};
ghost use Rattle.optimistic.specs.tree.Nexts.{IsLast, IsNear};
ghost use Rattle.optimistic.specs.tree.Reads.{IsPlace};
ghost use Rattle.optimistic.specs.tree.Sights.{Shows, Knows, IsBack, IsBackSight, Stood};
ghost use Rattle.optimistic.specs.tree.Trees.{IsTree};

use crate::drain::Pair;
use crate::drain::keys::{first_key, last_key};
use crate::drain::nexts::Next;
use crate::forms::names::{key_byte, where_word};
use crate::moves::Item;
use crate::tree::back::{Back, back_of_item, byte_behind};
use crate::tree::get::{ATTEMPTS, TOP, Tree};
use crate::tree::next::Sight;
use crate::tree::place::Place;
use crate::words::Hand;
use std::hint::spin_loop;
use std::sync::Wait;
use std::thread::yield_now;

/// What a node told of the keys from one on.
#[derive(Clone, Copy, Drop)]
pub struct BackSight {
    pub from: u64,
    pub sight: Sight,
}

impl Tree {
    /// What a node tells of the keys up to one, if it covers the key and stays as it is meanwhile.
    fn back_at(&self, hand: &mut Hand, at: Place, to: u64) -> Back
        requires of { IsOf self.now.nodes.table.shared.table_id hand.old }
        requires at { IsPlace at (view hand.old) }
        ensures of { IsOf self.now.nodes.table.shared.table_id hand.new }
        ensures looks { Looks IsTree (view hand.old) (view hand.new) }
        ensures back { IsBack to result.from result.next }
        ensures near { IsNear at.level to result.from }
        ensures knows { Knows result.from result.next (view hand.new) }
        ensures shows { Shows at result.from result.next (view hand.old) (view hand.new) }
    {
        let byte = key_byte(to, at.level);
        let child = self.child(hand, at, to, byte);
        let some = child.first != 0;
        if some {
            let item = Item {
                byte,
                first: child.first,
                last: child.second,
            };
            return back_of_item(item, at, to);
        }
        let end = self.back_gap(hand, at, byte);
        let least = byte_behind(end, byte);
        let from = first_key(to, at.level, least);
        let last = last_key(to, at.level, byte);
        Back {
            from,
            next: Next::After(last),
        }
    }

    /// What a node on the way to a key tells, with its version, if it covers the keys that are told and nobody has it.
    fn back_sight_at(&self, hand: &mut Hand, at: Place, to: u64) -> Option<BackSight>
        requires of { IsOf self.now.nodes.table.shared.table_id hand.old }
        requires at { IsPlace at (view hand.old) }
        ensures of { IsOf self.now.nodes.table.shared.table_id hand.new }
        ensures looks { Looks IsTree (view hand.old) (view hand.new) }
        ensures sight { IfSome result (λ b. IsBackSight to b (view hand.new)) }
        ensures asked { IsAsked to at (sight_in result) (view hand.old) (view hand.new) }
    {
        let version = self.nodes.load(hand, at.node, at.form, 0);
        let back = self.back_at(hand, at, to);
        let next = back.next;
        let from = back.from;
        let sight = Sight { at, version, next };
        if let Next::Down(_) = next {
            return Some(BackSight { from, sight });
        }
        let found = self.read(hand, at.node, at.form, 1);
        let word = where_word(at.form, at.level, from);
        if found != word {
            return None;
        }
        if version % 2 == 1 {
            return None;
        }
        Some(BackSight { from, sight })
    }

    /// What the last node on the way to a key tells of the keys up to it.
    fn back_sight(&self, hand: &mut Hand, to: u64) -> Option<BackSight>
        requires of { IsOf self.now.nodes.table.shared.table_id hand.old }
        ensures of { IsOf self.now.nodes.table.shared.table_id hand.new }
        ensures looks { Looks IsTree (view hand.old) (view hand.new) }
        ensures sight { IfSome result (λ b. IsBackSight to b (view hand.new)) }
        ensures sought { IsSought (sight_in result) (view hand.old) (view hand.new) }
    {
        let mut back = self.back_sight_at(hand, TOP, to);
        for _depth in 0..9u64 {
            let Some(seen) = back else {
                return None;
            };
            match seen.sight.next {
                Next::Down(below) => back = self.back_sight_at(hand, below, to),
                _ => return Some(seen),
            }
        }
        None
    }

    /// The last pair up to a key, if no writer comes between.
    fn try_last(&self, hand: &mut Hand, to: u64) -> Option<Option<Pair>>
        requires of { IsOf self.now.nodes.table.shared.table_id hand.old }
        ensures of { IsOf self.now.nodes.table.shared.table_id hand.new }
        ensures looks { Looks IsTree (view hand.old) (view hand.new) }
        ensures last { IfSome result (λ r. Stood (λ log. IsLast log (to + 1) r) (view hand.old) (view hand.new)) }
        ensures alone { IfNone result (IsDisturbedFrom (view hand.old) (view hand.new)) }
    {
        let Some(back) = self.back_sight(hand, to) else {
            return None;
        };
        match back.sight.next {
            Next::Here(value) => self.confirm(hand, back.sight, Some(Pair { key: to, value })),
            Next::Down(_) => None,
            Next::After(_) => {
                if back.from == 0 {
                    return self.confirm(hand, back.sight, None);
                }
                match self.try_last(hand, back.from - 1) {
                    Some(last) => self.confirm(hand, back.sight, last),
                    None => None,
                }
            }
        }
    }

    /// The same, some times where a writer comes between.
    fn last_soon(&self, hand: &mut Hand, to: u64) -> Option<Option<Pair>>
        requires of { IsOf self.now.nodes.table.shared.table_id hand.old }
        ensures of { IsOf self.now.nodes.table.shared.table_id hand.new }
        ensures later { Later (view hand.old) (view hand.new) }
        ensures mine { (view hand.new).mine ≡ (view hand.old).mine }
        ensures since { Since (view hand.old).seen (view hand.new).seen }
        ensures last { IfSome result (λ r. Keeps (view hand.old) (view hand.new) × Stood (λ log. IsLast log (to + 1) r) (view hand.old) (view hand.new)) }
        ensures alone { IfNone result (IsDisturbedFrom (view hand.old) (view hand.new)) }
    {
        for _attempt in 0..ATTEMPTS {
            if let Some(last) = self.try_last(hand, to) {
                return Some(last);
            }
            spin_loop();
        }
        None
    }

    /// The last pair up to a key, as it was at one moment within the call.
    pub fn last_to<R: Wait>(&self, rt: &R, hand: &mut Hand, to: u64) -> Option<Pair>
        requires of { IsOf self.now.nodes.table.shared.table_id hand.old }
        ensures of { IsOf self.now.nodes.table.shared.table_id hand.new }
        ensures keeps { Keeps (view hand.old) (view hand.new) }
        ensures mine { (view hand.new).mine ≡ (view hand.old).mine }
        ensures last { Stood (λ log. IsLast log (to + 1) result) (view hand.old) (view hand.new) }
    {
        for _ in rt.forever() {
            if let Some(last) = self.last_soon(hand, to) {
                return last;
            }
            yield_now();
        }
        unreachable!()
    }
}
