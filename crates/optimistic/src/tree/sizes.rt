//! The form that a node takes as it fills or empties.
ghost use Rattle.std.specs.Prelude.{◌<◌, ◌≤◌, IfSome, MatchBool};
ghost use Rattle.optimistic.specs.words.Told.{view, IsOf, Looks};
ghost use Rattle.optimistic.specs.tree.Reads.{IsPlace};
ghost use Rattle.optimistic.specs.tree.Sizes.{IsLike, IsFit};
ghost use Rattle.optimistic.specs.tree.Trees.{IsTree};

use crate::forms::bits::count;
use crate::moves::room_of;
use crate::tree::get::Tree;
use crate::tree::place::Place;
use crate::words::Hand;

/// What becomes of a node as an entry is put into it or taken out of it.
#[derive(Clone, Copy, Drop)]
pub enum Fit {
    /// It stays.
    Stays,
    /// It is made anew in this form, of more places or fewer.
    Becomes(u64),
    /// Its only other child goes up in its place.
    Lifts,
}

/// The form with the next more places for entries of the same kind.
fn larger(form: u64) -> Option<u64>
    ensures { IfSome result (λ g. IsLike form g) }
{
    match form {
        1 => Some(2),
        2 => Some(3),
        3 => Some(4),
        5 => Some(6),
        6 => Some(7),
        7 => Some(8),
        _ => None,
    }
}

/// The form with the next fewer places.
fn smaller(form: u64) -> Option<u64>
    ensures { IfSome result (λ g. IsLike form g) }
{
    match form {
        2 => Some(1),
        3 => Some(2),
        4 => Some(3),
        6 => Some(5),
        7 => Some(6),
        8 => Some(7),
        _ => None,
    }
}

/// What becomes of a full node of a form, as an entry is put in.
pub fn after_insertion(form: u64) -> Fit
    ensures { IsFit form result }
{
    match larger(form) {
        Some(next) => Fit::Becomes(next),
        None => Fit::Stays,
    }
}

/// How many entries a node of a form keeps at least. It has no fewer, until it is made anew in a smaller form, which has room
/// for some more.
fn least(form: u64) -> u64 {
    match form {
        2 => 4,
        3 => 13,
        4 => 41,
        6 => 4,
        7 => 13,
        8 => 41,
        _ => 0,
    }
}

/// The fewest entries of a node that isn't the root, between two writes. With fewer it would be passed for nothing.
const FEWEST: u64 = 2;

/// Whether a node of so many entries keeps the fewest as one is taken out.
pub fn is_enough(entries: u64) -> bool
    ensures { MatchBool result (3 ≤ entries) (entries < 3) }
{
    entries > FEWEST
}

/// What becomes of a node of a form that has so many entries, as one is taken out.
pub fn after_removal(form: u64, entries: u64) -> Fit
    ensures { IsFit form result }
{
    if !is_enough(entries) {
        return Fit::Lifts;
    }
    if entries > least(form) {
        return Fit::Stays;
    }
    match smaller(form) {
        Some(next) => Fit::Becomes(next),
        None => Fit::Stays,
    }
}

impl Tree {
    /// How many entries a node has, if no writer comes between. Nothing is known of the answer: it is a hint.
    pub fn entries(&self, hand: &mut Hand, at: Place) -> u64
        requires of { IsOf self.now.nodes.table.shared.table_id hand.old }
        requires at { IsPlace at (view hand.old) }
        ensures of { IsOf self.now.nodes.table.shared.table_id hand.new }
        ensures looks { Looks IsTree (view hand.old) (view hand.new) }
    {
        match room_of(at.form) {
            4 => {
                let word = self.read(hand, at.node, at.form, 2);
                u64::from(count(word >> 32))
            }
            16 => {
                let mask = self.read(hand, at.node, at.form, 4);
                u64::from(count(mask))
            }
            48 => {
                let line = self.read(hand, at.node, at.form, 8);
                u64::from(count(line))
            }
            _ => self.entries_wide(hand, at),
        }
    }

    /// The same of a node of 256.
    fn entries_wide(&self, hand: &mut Hand, at: Place) -> u64
        requires of { IsOf self.now.nodes.table.shared.table_id hand.old }
        requires at { IsPlace at (view hand.old) }
        ensures of { IsOf self.now.nodes.table.shared.table_id hand.new }
        ensures looks { Looks IsTree (view hand.old) (view hand.new) }
    {
        let first = self.read(hand, at.node, at.form, 2);
        if at.form < 5 {
            return first;
        }
        let second = self.read(hand, at.node, at.form, 3);
        let third = self.read(hand, at.node, at.form, 4);
        let fourth = self.read(hand, at.node, at.form, 5);
        let low = u64::from(count(first)).wrapping_add(u64::from(count(second)));
        let high = u64::from(count(third)).wrapping_add(u64::from(count(fourth)));
        low.wrapping_add(high)
    }
}
