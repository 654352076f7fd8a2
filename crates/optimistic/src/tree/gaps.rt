//! The bytes at which a node has children, and those beside one at which it has none.
ghost use Rattle.std.specs.Prelude.{◌≡◌, ◌≢◌, ◌<◌, ◌≤◌, ◌+◌};
ghost use Rattle.optimistic.specs.Layout.{room};
ghost use Rattle.optimistic.specs.words.Told.{view, IsOf, HasForm, Looks};
ghost use Rattle.optimistic.specs.tree.Reads.{IsPlace};
ghost use Rattle.optimistic.specs.tree.Sights.{Lacks, Only, Places, IsWithin};
ghost use Rattle.optimistic.specs.tree.Trees.{IsTree};

use crate::forms::gaps::{first_set, last_set, places_among};
use crate::moves::room_of;
use crate::tree::get::Tree;
use crate::tree::place::Place;
use crate::words::Hand;

impl Tree {
    /// The bytes at which a node of four may have children, and their places.
    #[inline(always)]
    fn bytes_of_four(&self, hand: &mut Hand, at: Place, places: &mut [u8; 256]) -> [u64; 4]
        requires of { IsOf self.now.nodes.table.shared.table_id hand.old }
        requires at { IsPlace at (view hand.old) }
        requires form { room at.form ≡ 4 }
        ensures of { IsOf self.now.nodes.table.shared.table_id hand.new }
        ensures looks { Looks IsTree (view hand.old) (view hand.new) }
        ensures only { Only at.node at.form result (view hand.old) (view hand.new) }
        ensures places { Places at.node at.form result places.new (view hand.old) (view hand.new) }
        ensures within { IsWithin at.form result places.new }
    {
        let word = self.read(hand, at.node, at.form, 2);
        places_among(&[word], (word >> 32) % 16, places)
    }

    /// The same of a node of sixteen.
    #[inline(always)]
    fn bytes_of_sixteen(&self, hand: &mut Hand, at: Place, places: &mut [u8; 256]) -> [u64; 4]
        requires of { IsOf self.now.nodes.table.shared.table_id hand.old }
        requires at { IsPlace at (view hand.old) }
        requires form { room at.form ≡ 16 }
        ensures of { IsOf self.now.nodes.table.shared.table_id hand.new }
        ensures looks { Looks IsTree (view hand.old) (view hand.new) }
        ensures only { Only at.node at.form result (view hand.old) (view hand.new) }
        ensures places { Places at.node at.form result places.new (view hand.old) (view hand.new) }
        ensures within { IsWithin at.form result places.new }
    {
        let a = self.read(hand, at.node, at.form, 2);
        let b = self.read(hand, at.node, at.form, 3);
        let mask = self.read(hand, at.node, at.form, 4);
        places_among(&[a, b], mask % 65_536, places)
    }

    /// The same of a node of forty-eight.
    #[inline(always)]
    fn bytes_of_forty_eight(&self, hand: &mut Hand, at: Place, places: &mut [u8; 256]) -> [u64; 4]
        requires of { IsOf self.now.nodes.table.shared.table_id hand.old }
        requires at { IsPlace at (view hand.old) }
        requires form { room at.form ≡ 48 }
        ensures of { IsOf self.now.nodes.table.shared.table_id hand.new }
        ensures looks { Looks IsTree (view hand.old) (view hand.new) }
        ensures only { Only at.node at.form result (view hand.old) (view hand.new) }
        ensures places { Places at.node at.form result places.new (view hand.old) (view hand.new) }
        ensures within { IsWithin at.form result places.new }
    {
        let a = self.read(hand, at.node, at.form, 2);
        let b = self.read(hand, at.node, at.form, 3);
        let c = self.read(hand, at.node, at.form, 4);
        let d = self.read(hand, at.node, at.form, 5);
        let e = self.read(hand, at.node, at.form, 6);
        let f = self.read(hand, at.node, at.form, 7);
        let mask = self.read(hand, at.node, at.form, 8);
        places_among(&[a, b, c, d, e, f], mask % 281_474_976_710_656, places)
    }

    /// The same of a node of 256 values.
    #[inline(always)]
    fn bytes_of_values(&self, hand: &mut Hand, node: usize) -> [u64; 4]
        requires of { IsOf self.now.nodes.table.shared.table_id hand.old }
        requires at { HasForm node 8 (view hand.old) }
        ensures of { IsOf self.now.nodes.table.shared.table_id hand.new }
        ensures looks { Looks IsTree (view hand.old) (view hand.new) }
        ensures only { Only node 8 result (view hand.old) (view hand.new) }
    {
        let a = self.read(hand, node, 8, 2);
        let b = self.read(hand, node, 8, 3);
        let c = self.read(hand, node, 8, 4);
        let d = self.read(hand, node, 8, 5);
        [a, b, c, d]
    }

    /// The same of each node but those of 256 children, which have a word for each.
    #[inline(always)]
    pub fn bytes(&self, hand: &mut Hand, at: Place, places: &mut [u8; 256]) -> [u64; 4]
        requires of { IsOf self.now.nodes.table.shared.table_id hand.old }
        requires at { IsPlace at (view hand.old) }
        requires form { at.form ≢ 4 }
        ensures of { IsOf self.now.nodes.table.shared.table_id hand.new }
        ensures looks { Looks IsTree (view hand.old) (view hand.new) }
        ensures only { Only at.node at.form result (view hand.old) (view hand.new) }
        ensures places { room at.form ≢ 256 → Places at.node at.form result places.new (view hand.old) (view hand.new) }
        ensures within { room at.form ≢ 256 → IsWithin at.form result places.new }
    {
        match room_of(at.form) {
            4 => self.bytes_of_four(hand, at, places),
            16 => self.bytes_of_sixteen(hand, at, places),
            48 => self.bytes_of_forty_eight(hand, at, places),
            _ => self.bytes_of_values(hand, at.node),
        }
    }

    /// From a byte on, the bytes at which a node of 256 children has none.
    #[inline(always)]
    pub fn gap_of_wide(&self, hand: &mut Hand, node: usize, from: u8) -> usize
        requires of { IsOf self.now.nodes.table.shared.table_id hand.old }
        requires at { HasForm node 4 (view hand.old) }
        ensures of { IsOf self.now.nodes.table.shared.table_id hand.new }
        ensures looks { Looks IsTree (view hand.old) (view hand.new) }
        ensures bounds { (from ≤ result) × (result ≤ 256) }
        ensures lacks { Lacks node 4 from result (view hand.old) (view hand.new) }
    {
        for byte in from as usize..256 {
            let first = self.read(hand, node, 4, 8 + 2 * byte);
            if first != 0 {
                return byte;
            }
        }
        256
    }

    /// The same of the bytes up to one.
    #[inline(always)]
    pub(crate) fn back_gap_of_wide(&self, hand: &mut Hand, node: usize, to: u8) -> usize
        requires of { IsOf self.now.nodes.table.shared.table_id hand.old }
        requires at { HasForm node 4 (view hand.old) }
        ensures of { IsOf self.now.nodes.table.shared.table_id hand.new }
        ensures looks { Looks IsTree (view hand.old) (view hand.new) }
        ensures bound { result ≤ to + 1 }
        ensures lacks { Lacks node 4 result (to + 1) (view hand.old) (view hand.new) }
    {
        let mut end = to as usize + 1;
        while end > 0 {
            let first = self.read(hand, node, 4, 8 + 2 * (end - 1));
            if first != 0 {
                return end;
            }
            end -= 1;
        }
        0
    }

    /// From a byte on, the bytes at which a node has no child.
    pub fn gap(&self, hand: &mut Hand, at: Place, from: u8) -> usize
        requires of { IsOf self.now.nodes.table.shared.table_id hand.old }
        requires at { IsPlace at (view hand.old) }
        ensures of { IsOf self.now.nodes.table.shared.table_id hand.new }
        ensures looks { Looks IsTree (view hand.old) (view hand.new) }
        ensures bounds { (from ≤ result) × (result ≤ 256) }
        ensures lacks { Lacks at.node at.form from result (view hand.old) (view hand.new) }
    {
        if at.form == 4 {
            return self.gap_of_wide(hand, at.node, from);
        }
        let mut places = [0; 256];
        let bytes = self.bytes(hand, at, &mut places);
        first_set(&bytes, from)
    }

    /// Up to a byte, the bytes at which a node has no child.
    pub fn back_gap(&self, hand: &mut Hand, at: Place, to: u8) -> usize
        requires of { IsOf self.now.nodes.table.shared.table_id hand.old }
        requires at { IsPlace at (view hand.old) }
        ensures of { IsOf self.now.nodes.table.shared.table_id hand.new }
        ensures looks { Looks IsTree (view hand.old) (view hand.new) }
        ensures bound { result ≤ to + 1 }
        ensures lacks { Lacks at.node at.form result (to + 1) (view hand.old) (view hand.new) }
    {
        if at.form == 4 {
            return self.back_gap_of_wide(hand, at.node, to);
        }
        let mut places = [0; 256];
        let bytes = self.bytes(hand, at, &mut places);
        last_set(&bytes, to)
    }
}
