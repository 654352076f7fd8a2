//! What a node tells of the keys up to one, as many as it has, from that one down.
//!
//! As what it tells of the keys from one on: under one reading of its version, up to the first of which a node below it tells, or to
//! the first that it covers. So they are told as they were at one moment.
ghost use Rattle.std.specs.Prelude.{◌≡◌, ◌≢◌, ℕ, List, ◌+◌, ◌-◌, ◌%◌, ◌<◌, ◌≤◌, ◌⊎◌, ◌++◌, length, take, true, IfSome};
ghost use Rattle.optimistic.specs.Layout.{byte_at, room};
ghost use Rattle.optimistic.specs.declared.drain.nexts.Pair.{Pair};
ghost use Rattle.optimistic.specs.declared.words.rule.Entry.{Entry};
ghost use Rattle.optimistic.specs.declared.words.rule.View.{View};
ghost use Rattle.optimistic.specs.words.Calls.{Keeps, Later};
ghost use Rattle.optimistic.specs.words.Kept.{Since};
ghost use Rattle.optimistic.specs.words.Told.{view, IsOf, Tells, Looks};
ghost use Rattle.optimistic.specs.forms.Wide.{bit_in};
ghost use Rattle.optimistic.specs.tree.Nexts.{IsNear};
ghost use Rattle.optimistic.specs.tree.Reads.{IsPlace};
ghost use Rattle.optimistic.specs.tree.Runs.{ChildMakes, HasBytes};
ghost use Rattle.optimistic.specs.tree.RunsBack.{lowest, not_before, BackHolds, KnowsBack, ShowsBack, ShowsRunBack, IsRunBack, WasToldBack};
ghost use Rattle.optimistic.specs.tree.Sights.{Lacks, Only, IsWithin};
ghost use Rattle.optimistic.specs.tree.Trails.{IsTrail, IsTurn};
ghost use Rattle.optimistic.specs.tree.Trees.{IsTree};

use crate::drain::Pair;
use crate::drain::keys::{first_key, last_key};
use crate::drain::nexts::Next;
use crate::forms::gaps::last_set;
use crate::forms::names::{key_byte, leaf_key, where_word};
use crate::moves::{Item, room_of};
use crate::tree::back::back_of_item;
use crate::tree::get::{ATTEMPTS, Tree};
use crate::tree::place::{Child, Place};
use crate::tree::run::{Bit, Part, Run};
use crate::tree::trail::{LOOKS, Trail, Turn};
use crate::words::Hand;
use std::hint::spin_loop;
use std::sync::Wait;
use std::thread::yield_now;

/// The greater of two keys.
#[inline(always)]
fn greater(a: u64, b: u64) -> u64
    ensures { (a ≤ result) × (b ≤ result) × ((result ≡ a) ⊎ (result ≡ b)) }
{
    if a < b { b } else { a }
}

/// What a lone leaf at a key's byte tells of the keys down from that one.
#[inline(always)]
fn back_lone(child: Child, level: u64, from: u64, byte: u8) -> Bit
    requires level { level < 8 }
    requires byte { byte ≡ byte_at from level }
    requires leaf { child.first % 256 ≡ 9 }
    ensures bit { (form : ℕ) (log : List Entry) → form < 5 → ChildMakes form level child.first child.second from log → BackHolds log from result }
    ensures knows { (w : View) → KnowsBack from result w }
{
    let first = first_key(from, level, byte);
    let key = leaf_key(child.first, from);
    if key > from {
        return Bit::Told(None, first);
    }
    if key < first {
        return Bit::Told(None, first);
    }
    Bit::Told(
        Some(Pair {
            key,
            value: child.second,
        }),
        first,
    )
}

/// What the child at a key's byte tells of the keys down from that one.
#[inline(always)]
fn back_bit_of(child: Child, at: Place, from: u64, byte: u8) -> Bit
    requires level { at.level < 8 }
    requires byte { byte ≡ byte_at from at.level }
    ensures bit { (log : List Entry) → ChildMakes at.form at.level child.first child.second from log → BackHolds log from result }
    ensures knows { (w : View) → Tells child.first w → KnowsBack from result w }
{
    if at.form > 4 {
        return Bit::Told(
            Some(Pair {
                key: from,
                value: child.second,
            }),
            from,
        );
    }
    if child.first % 256 == 9 {
        return back_lone(child, at.level, from, byte);
    }
    let item = Item {
        byte,
        first: child.first,
        last: child.second,
    };
    let back = back_of_item(item, at, from);
    match back.next {
        Next::Here(value) => Bit::Told(Some(Pair { key: from, value }), from),
        Next::Down(place) => Bit::Down(place),
        Next::After(_) => Bit::Told(None, back.from),
    }
}

/// Puts a pair that isn't before the first key into its place, and gives the number of pairs that then stand.
#[inline(always)]
fn put_back(out: &mut [Pair], count: usize, pair: Option<Pair>, first: u64) -> usize
    requires { count < length out.old }
    ensures pairs { take result out.new ≡ take count out.old ++ not_before first pair }
    ensures same { length out.new ≡ length out.old }
    ensures count { result ≤ count + 1 }
{
    let Some(pair) = pair else {
        return count;
    };
    if pair.key < first {
        return count;
    }
    out[count] = pair;
    count + 1
}

/// Where the next key down is told, and which it is.
#[inline(always)]
fn back_run_of(at: Place, version: u64, part: Part, stop: u64, first: u64) -> Run
    requires { first ≤ stop }
    ensures same { (result.at ≡ at) × (result.version ≡ version) × (result.count ≡ part.count) }
    ensures next { lowest first result.next ≡ lowest stop part.next }
    ensures inside { IfSome part.next (λ k. stop ≤ k) → IfSome result.next (λ k. first ≤ k) }
    ensures turn { (w : View) → IfSome part.below (λ p. IsPlace p w) → IsTurn result.turn w }
{
    let Part { next, count, below } = part;
    let Some(key) = next else {
        if stop > first {
            return Run {
                at,
                version,
                next: Some(stop - 1),
                count,
                turn: Turn::Up,
            };
        }
        return Run {
            at,
            version,
            next: None,
            count,
            turn: Turn::Here,
        };
    };
    let turn = match below {
        Some(place) => Turn::Down(place),
        None => Turn::Here,
    };
    Run {
        at,
        version,
        next: Some(key),
        count,
        turn,
    }
}

/// Whether an earlier key is next, or none.
#[inline(always)]
fn is_earlier(next: Option<u64>, from: u64) -> bool
    ensures { (first : ℕ) → first ≤ from → result ≡ true → lowest first next ≤ from }
{
    match next {
        Some(key) => key < from,
        None => true,
    }
}

impl Tree {
    /// Up to a byte, the bytes at which a node has no child.
    #[inline(always)]
    fn byte_to(&self, hand: &mut Hand, at: Place, bytes: &[u64; 4], to: u8) -> usize
        requires of { IsOf self.now.nodes.table.shared.table_id hand.old }
        requires at { IsPlace at (view hand.old) }
        ensures of { IsOf self.now.nodes.table.shared.table_id hand.new }
        ensures place { IsPlace at (view hand.new) }
        ensures looks { (a : View) → Looks IsTree a (view hand.old) → Looks IsTree a (view hand.new) }
        ensures since { Since (view hand.old).seen (view hand.new).seen }
        ensures bound { result ≤ to + 1 }
        ensures lacks { (a : View) → Looks IsTree a (view hand.old) → (at.form ≢ 4 → Only at.node at.form bytes.now a (view hand.old)) → Lacks at.node at.form result (to + 1) a (view hand.new) }
        ensures set { at.form ≢ 4 → 0 < result → bit_in bytes.now (result - 1) ≡ 1 }
    {
        if at.form == 4 {
            return self.back_gap_of_wide(hand, at.node, to);
        }
        last_set(bytes, to)
    }

    /// What the child at a key's byte tells of the keys down from that one, if there is one, of a node of 256.
    #[inline(always)]
    fn back_bit_wide(&self, hand: &mut Hand, at: Place, from: u64, byte: u8) -> Bit
        requires of { IsOf self.now.nodes.table.shared.table_id hand.old }
        requires at { IsPlace at (view hand.old) }
        requires byte { byte ≡ byte_at from at.level }
        ensures of { IsOf self.now.nodes.table.shared.table_id hand.new }
        ensures place { IsPlace at (view hand.new) }
        ensures looks { Looks IsTree (view hand.old) (view hand.new) }
        ensures knows { KnowsBack from result (view hand.new) }
        ensures shows { ShowsBack at from result (view hand.old) (view hand.new) }
    {
        let child = self.child_there(hand, at, from, byte);
        if child.first == 0 {
            return Bit::Told(None, first_key(from, at.level, byte));
        }
        back_bit_of(child, at, from, byte)
    }

    /// What the child at a key's byte tells of the keys down from that one.
    #[inline(always)]
    fn back_bit_here(
        &self,
        hand: &mut Hand,
        at: Place,
        bytes: &[u64; 4],
        places: &[u8; 256],
        from: u64,
        byte: u8,
    ) -> Bit
        requires of { IsOf self.now.nodes.table.shared.table_id hand.old }
        requires at { IsPlace at (view hand.old) }
        requires byte { byte ≡ byte_at from at.level }
        requires within { room at.form ≢ 256 → IsWithin at.form bytes.now places.now }
        requires set { at.form ≢ 4 → bit_in bytes.now byte ≡ 1 }
        ensures of { IsOf self.now.nodes.table.shared.table_id hand.new }
        ensures place { IsPlace at (view hand.new) }
        ensures looks { Looks IsTree (view hand.old) (view hand.new) }
        ensures knows { KnowsBack from result (view hand.new) }
        ensures shows { (a : View) → Looks IsTree a (view hand.old) → HasBytes at bytes.now places.now a (view hand.old) → ShowsBack at from result a (view hand.new) }
    {
        if room_of(at.form) == 256 {
            return self.back_bit_wide(hand, at, from, byte);
        }
        let child = self.entry(hand, at, places[byte as usize] as usize);
        back_bit_of(child, at, from, byte)
    }

    /// What a node that covers a key tells of it, and of those before it down to the child's before.
    #[inline(always)]
    fn back_bit_at(
        &self,
        hand: &mut Hand,
        at: Place,
        bytes: &[u64; 4],
        places: &[u8; 256],
        from: u64,
    ) -> Bit
        requires of { IsOf self.now.nodes.table.shared.table_id hand.old }
        requires at { IsPlace at (view hand.old) }
        requires within { room at.form ≢ 256 → IsWithin at.form bytes.now places.now }
        ensures of { IsOf self.now.nodes.table.shared.table_id hand.new }
        ensures looks { (a : View) → Looks IsTree a (view hand.old) → Looks IsTree a (view hand.new) }
        ensures place { IsPlace at (view hand.new) }
        ensures since { Since (view hand.old).seen (view hand.new).seen }
        ensures knows { KnowsBack from result (view hand.new) }
        ensures shows { (a : View) → Looks IsTree a (view hand.old) → HasBytes at bytes.now places.now a (view hand.old) → ShowsBack at from result a (view hand.new) }
    {
        let byte = key_byte(from, at.level);
        let end = self.byte_to(hand, at, bytes, byte);
        if end > byte as usize {
            return self.back_bit_here(hand, at, bytes, places, from, byte);
        }
        let gap = first_key(from, at.level, end as u8);
        if end == 0 {
            return Bit::Told(None, gap);
        }
        let before = (end - 1) as u8;
        let last = last_key(from, at.level, before);
        match self.back_bit_here(hand, at, bytes, places, last, before) {
            Bit::Down(_) => Bit::Told(None, gap),
            Bit::Told(pair, first) => Bit::Told(pair, first),
        }
    }

    /// What a node tells of the keys down to one, all of which it covers if it does the first that is asked for.
    #[inline(always)]
    fn back_run_in(
        &self,
        hand: &mut Hand,
        at: Place,
        bytes: &[u64; 4],
        places: &[u8; 256],
        start: u64,
        stop: u64,
        out: &mut [Pair],
        most: usize,
    ) -> Part
        requires of { IsOf self.now.nodes.table.shared.table_id hand.old }
        requires at { IsPlace at (view hand.old) }
        requires order { stop ≤ start }
        requires near { (k : ℕ) → stop ≤ k → k ≤ start → IsNear at.level start k }
        requires room { most ≤ length out.old }
        requires within { room at.form ≢ 256 → IsWithin at.form bytes.now places.now }
        ensures of { IsOf self.now.nodes.table.shared.table_id hand.new }
        ensures place { IsPlace at (view hand.new) }
        ensures looks { (a : View) → Looks IsTree a (view hand.old) → Looks IsTree a (view hand.new) }
        ensures since { Since (view hand.old).seen (view hand.new).seen }
        ensures same { length out.new ≡ length out.old }
        ensures count { result.count ≤ most }
        ensures order { (lowest stop result.next ≤ start + 1) × IfSome result.next (λ k. stop ≤ k) }
        ensures below { IfSome result.below (λ p. IsPlace p (view hand.new)) }
        ensures shows { (a : View) → Looks IsTree a (view hand.old) → HasBytes at bytes.now places.now a (view hand.old) → ShowsRunBack at start (lowest stop result.next) (take result.count out.new) a (view hand.new) }
    {
        let mut from = start;
        let mut count = 0;
        while count < most {
            match self.back_bit_at(hand, at, bytes, places, from) {
                Bit::Down(below) => {
                    return Part {
                        next: Some(from),
                        count,
                        below: Some(below),
                    };
                }
                Bit::Told(pair, first) => {
                    count = put_back(out, count, pair, stop);
                    if first <= stop {
                        return Part {
                            next: None,
                            count,
                            below: None,
                        };
                    }
                    from = first - 1;
                }
            }
        }
        Part {
            next: Some(from),
            count,
            below: None,
        }
    }

    /// What a node tells of the keys from one down to another, with its version, if it covers the first and nobody has it.
    fn back_look_run(
        &self,
        hand: &mut Hand,
        at: Place,
        from: u64,
        first: u64,
        out: &mut [Pair],
        places: usize,
    ) -> Option<Run>
        requires of { IsOf self.now.nodes.table.shared.table_id hand.old }
        requires at { IsPlace at (view hand.old) }
        requires order { first ≤ from }
        requires room { places ≤ length out.old }
        ensures of { IsOf self.now.nodes.table.shared.table_id hand.new }
        ensures looks { Looks IsTree (view hand.old) (view hand.new) }
        ensures same { length out.new ≡ length out.old }
        ensures run { IfSome result (λ r. IsRunBack r from first places (take r.count out.new) (view hand.new)) }
    {
        let version = self.nodes.load(hand, at.node, at.form, 0);
        let found = self.read(hand, at.node, at.form, 1);
        let word = where_word(at.form, at.level, from);
        if found != word {
            return None;
        }
        if version % 2 == 1 {
            return None;
        }
        let mut there = [0; 256];
        let bytes = self.bytes_there(hand, at, &mut there);
        let stop = greater(first, first_key(from, at.level, 0));
        let part = self.back_run_in(hand, at, &bytes, &there, from, stop, out, places);
        Some(back_run_of(at, version, part, stop, first))
    }

    /// What the last node of a trail tells.
    fn back_look_last(
        &self,
        hand: &mut Hand,
        trail: &Trail,
        from: u64,
        first: u64,
        out: &mut [Pair],
        places: usize,
    ) -> Option<Run>
        requires of { IsOf self.now.nodes.table.shared.table_id hand.old }
        requires trail { IsTrail trail.now (view hand.old).seen }
        requires order { first ≤ from }
        requires room { places ≤ length out.old }
        ensures of { IsOf self.now.nodes.table.shared.table_id hand.new }
        ensures looks { Looks IsTree (view hand.old) (view hand.new) }
        ensures trail { IsTrail trail.now (view hand.new).seen }
        ensures same { length out.new ≡ length out.old }
        ensures run { IfSome result (λ r. IsRunBack r from first places (take r.count out.new) (view hand.new)) }
    {
        let at = trail.last();
        self.back_look_run(hand, at, from, first, out, places)
    }

    /// What is told of the keys down from one by a node on the way to it. The trail leads to that which tells of the next key.
    pub fn back_look_by(
        &self,
        hand: &mut Hand,
        trail: &mut Trail,
        from: u64,
        first: u64,
        out: &mut [Pair],
        places: usize,
    ) -> Option<Run>
        requires of { IsOf self.now.nodes.table.shared.table_id hand.old }
        requires trail { IsTrail trail.old (view hand.old).seen }
        requires order { first ≤ from }
        requires room { places ≤ length out.old }
        ensures of { IsOf self.now.nodes.table.shared.table_id hand.new }
        ensures looks { Looks IsTree (view hand.old) (view hand.new) }
        ensures trail { IsTrail trail.new (view hand.new).seen }
        ensures same { length out.new ≡ length out.old }
        ensures run { IfSome result (λ r. IsRunBack r from first places (take r.count out.new) (view hand.new)) }
        ensures later { IfSome result (λ r. lowest first r.next ≤ from) }
    {
        let mut looked = self.back_look_last(hand, trail, from, first, out, places);
        for _ in 0..LOOKS {
            match looked {
                Some(run) => {
                    trail.turn(run.turn);
                    if is_earlier(run.next, from) {
                        return Some(run);
                    }
                }
                None => {
                    if !trail.go_up() {
                        return None;
                    }
                }
            }
            looked = self.back_look_last(hand, trail, from, first, out, places);
        }
        None
    }

    /// What is told of the keys down from one, as it was at one moment, if no writer comes between.
    fn try_back_run(
        &self,
        hand: &mut Hand,
        trail: &mut Trail,
        from: u64,
        first: u64,
        out: &mut [Pair],
        places: usize,
    ) -> Option<Run>
        requires of { IsOf self.now.nodes.table.shared.table_id hand.old }
        requires trail { IsTrail trail.old (view hand.old).seen }
        requires order { first ≤ from }
        requires room { places ≤ length out.old }
        ensures of { IsOf self.now.nodes.table.shared.table_id hand.new }
        ensures looks { Looks IsTree (view hand.old) (view hand.new) }
        ensures same { length out.new ≡ length out.old }
        ensures trail { IsTrail trail.new (view hand.new).seen }
        ensures told { IfSome result (λ r. WasToldBack r from first places (take r.count out.new) (view hand.old) (view hand.new)) }
    {
        let Some(run) = self.back_look_by(hand, trail, from, first, out, places) else {
            return None;
        };
        let version = self.nodes.load(hand, run.at.node, run.at.form, 0);
        if version != run.version {
            return None;
        }
        Some(run)
    }

    /// The same, some times where a writer comes between, each but the first from the root on.
    fn back_run_soon(
        &self,
        hand: &mut Hand,
        trail: &mut Trail,
        from: u64,
        first: u64,
        out: &mut [Pair],
        places: usize,
    ) -> Option<Run>
        requires of { IsOf self.now.nodes.table.shared.table_id hand.old }
        requires trail { IsTrail trail.old (view hand.old).seen }
        requires order { first ≤ from }
        requires room { places ≤ length out.old }
        ensures of { IsOf self.now.nodes.table.shared.table_id hand.new }
        ensures later { Later (view hand.old) (view hand.new) }
        ensures mine { (view hand.new).mine ≡ (view hand.old).mine }
        ensures since { Since (view hand.old).seen (view hand.new).seen }
        ensures trail { IsTrail trail.new (view hand.new).seen }
        ensures same { length out.new ≡ length out.old }
        ensures keeps { IfSome result (λ _. Keeps (view hand.old) (view hand.new)) }
        ensures told { IfSome result (λ r. WasToldBack r from first places (take r.count out.new) (view hand.old) (view hand.new)) }
    {
        for _ in 0..ATTEMPTS {
            if let Some(run) = self.try_back_run(hand, trail, from, first, out, places) {
                return Some(run);
            }
            *trail = self.trail(hand);
            spin_loop();
        }
        None
    }

    /// What is told of the keys down from one, as it was at one moment within the call: as many of them as one node tells of.
    pub fn back_run<R: Wait>(
        &self,
        rt: &R,
        hand: &mut Hand,
        trail: &mut Trail,
        from: u64,
        first: u64,
        out: &mut [Pair],
        places: usize,
    ) -> Run
        requires of { IsOf self.now.nodes.table.shared.table_id hand.old }
        requires trail { IsTrail trail.old (view hand.old).seen }
        requires order { first ≤ from }
        requires room { places ≤ length out.old }
        ensures of { IsOf self.now.nodes.table.shared.table_id hand.new }
        ensures keeps { Keeps (view hand.old) (view hand.new) }
        ensures mine { (view hand.new).mine ≡ (view hand.old).mine }
        ensures trail { IsTrail trail.new (view hand.new).seen }
        ensures same { length out.new ≡ length out.old }
        ensures told { WasToldBack result from first places (take result.count out.new) (view hand.old) (view hand.new) }
    {
        for _ in rt.forever() {
            if let Some(run) = self.back_run_soon(hand, trail, from, first, out, places) {
                return run;
            }
            yield_now();
        }
        unreachable!()
    }
}
