//! What a node tells of the keys from one on, as many as it has.
//!
//! Under one reading of its version, before all and after, a node tells of key after key, up to the first of which a node below it
//! tells, or to the last that it covers. So they are told as they were at one moment.
ghost use Rattle.std.specs.Prelude.{◌≡◌, ◌≢◌, ℕ, List, ◌+◌, ◌%◌, ◌<◌, ◌≤◌, ◌⊎◌, ◌++◌, length, map, take, drop, true, IfNone, IfSome, ◌-◌, ◌*◌, ◌^◌};
ghost use Rattle.optimistic.specs.Layout.{byte_at, room, prefix_of};
ghost use Rattle.optimistic.specs.declared.drain.nexts.Pair.{Pair};
ghost use Rattle.optimistic.specs.declared.words.rule.Entry.{Entry};
ghost use Rattle.optimistic.specs.declared.words.rule.Moment.{Moment};
ghost use Rattle.optimistic.specs.declared.words.rule.View.{View};
ghost use Rattle.optimistic.specs.words.Calls.{Keeps, Later};
ghost use Rattle.optimistic.specs.words.Kept.{Since};
ghost use Rattle.optimistic.specs.words.Told.{view, IsOf, HasForm, Tells, Looks};
ghost use Rattle.optimistic.specs.tree.Alone.{IsDated, IsDisturbedFrom};
ghost use Rattle.optimistic.specs.tree.Drained.{IsDrained};
ghost use Rattle.optimistic.specs.tree.Nexts.{IsNear};
ghost use Rattle.optimistic.specs.tree.Reads.{Found, IsPlace};
ghost use Rattle.optimistic.specs.tree.Runs.{behind, within, Gives, ChildMakes, BitHolds, KnowsBit, HasBytes, HasEntry, ShowsBit, ShowsRun, IsRun, WasTold};
ghost use Rattle.optimistic.specs.tree.Sights.{Lacks, Only, Holds, IsSight, IsWithin, Stood};
ghost use Rattle.optimistic.specs.forms.Wide.{bit_in};
ghost use Rattle.optimistic.specs.tree.Trails.{IsTrail, IsTurn};
ghost use Rattle.optimistic.specs.tree.Trees.{IsTree};

use crate::drain::Pair;
use crate::drain::keys::{first_key, last_key};
use crate::drain::nexts::{Next, next_of_item};
use crate::forms::gaps::first_set;
use crate::forms::names::{key_byte, leaf_key, where_word};
use crate::forms::scan::{rest_from, take_next};
use crate::moves::{Item, last_at, room_of};
use crate::tree::get::{ATTEMPTS, Tree};
use crate::tree::next::Sight;
use crate::tree::place::{Child, Place};
use crate::tree::trail::{LOOKS, Trail, Turn};
use crate::words::Hand;
use std::hint::spin_loop;
use std::sync::Wait;
use std::thread::yield_now;

/// What the child at a key's byte tells.
#[derive(Clone, Copy, Drop)]
pub enum Bit {
    /// Of the keys up to this one that pair alone has a value, or none has.
    Told(Option<Pair>, u64),
    /// The key's next node tells it.
    Down(Place),
}

/// What a part of a node told: the key from which on is still to be told, if there is one, how many pairs were told, and which node
/// is next on the way to that key.
#[derive(Clone, Copy, Drop)]
pub struct Part {
    pub next: Option<u64>,
    pub count: usize,
    pub below: Option<Place>,
}

/// What a node told at a version, which holds while it has that version.
#[derive(Clone, Copy, Drop)]
pub struct Run {
    pub at: Place,
    pub version: u64,
    pub next: Option<u64>,
    pub count: usize,
    pub turn: Turn,
}

/// How many pairs are told at once at most.
pub const BUFFER: usize = 64;

/// The lesser of two numbers of places.
#[inline(always)]
pub fn fewer(a: usize, b: usize) -> usize
    ensures { (result ≤ a) × (result ≤ b) × ((result ≡ a) ⊎ (result ≡ b)) }
{
    if a < b { a } else { b }
}

/// The lesser of two keys.
#[inline(always)]
fn lesser(a: u64, b: u64) -> u64
    ensures { (result ≤ a) × (result ≤ b) × ((result ≡ a) ⊎ (result ≡ b)) }
{
    if a < b { a } else { b }
}

/// The pair of a lone leaf at a key's byte, if its key lies from that key up to the last one with the byte.
#[inline(always)]
fn lone_pair(child: Child, level: u64, from: u64, byte: u8, end: u64) -> Option<Pair>
    requires level { level < 8 }
    requires byte { byte ≡ byte_at from level }
    requires leaf { child.first % 256 ≡ 9 }
    requires end { end + 1 ≡ (prefix_of from level * 256 + byte + 1) * 2 ^ (56 - 8 * level) }
    ensures { (form : ℕ) (log : List Entry) → form < 5 → ChildMakes form level child.first child.second from log → Gives log from end result }
{
    let _ = (level, byte);
    let key = leaf_key(child.first, from);
    if key < from {
        return None;
    }
    if key > end {
        return None;
    }
    Some(Pair {
        key,
        value: child.second,
    })
}

/// What a lone leaf at a key's byte tells.
#[inline(always)]
fn lone_bit(child: Child, level: u64, from: u64, byte: u8) -> Bit
    requires level { level < 8 }
    requires byte { byte ≡ byte_at from level }
    requires leaf { child.first % 256 ≡ 9 }
    ensures bit { (form : ℕ) (log : List Entry) → form < 5 → ChildMakes form level child.first child.second from log → BitHolds log from result }
    ensures knows { (w : View) → KnowsBit from result w }
{
    let end = last_key(from, level, byte);
    Bit::Told(lone_pair(child, level, from, byte, end), end)
}

/// What the child at a key's byte tells.
#[inline(always)]
fn bit_of(child: Child, at: Place, from: u64, byte: u8) -> Bit
    requires level { at.level < 8 }
    requires byte { byte ≡ byte_at from at.level }
    ensures bit { (log : List Entry) → ChildMakes at.form at.level child.first child.second from log → BitHolds log from result }
    ensures knows { (w : View) → Tells child.first w → KnowsBit from result w }
{
    if at.form > 4 {
        return Bit::Told(
            Some(Pair {
                key: from,
                value: child.second,
            }),
            from,
        );
    }
    if child.first % 256 == 9 {
        return lone_bit(child, at.level, from, byte);
    }
    let item = Item {
        byte,
        first: child.first,
        last: child.second,
    };
    match next_of_item(item, at, from) {
        Next::Here(value) => Bit::Told(Some(Pair { key: from, value }), from),
        Next::Down(place) => Bit::Down(place),
        Next::After(end) => Bit::Told(None, end),
    }
}

/// The first key from one on that has another byte, which is no lower, and the same bytes before it.
#[inline(always)]
fn first_with(from: u64, level: u64, low: u8, byte: u8) -> u64
    requires level { level < 8 }
    requires low { low ≡ byte_at from level }
    requires order { low ≤ byte }
    ensures near { IsNear level from result }
    ensures byte { byte_at result level ≡ byte }
    ensures first { (from ≤ result) × ((low ≡ byte) ⊎ (result ≡ (prefix_of from level * 256 + byte) * 2 ^ (56 - 8 * level))) × (low ≡ byte → result ≡ from) }
{
    if low == byte {
        from
    } else {
        first_key(from, level, byte)
    }
}

/// Puts a pair that isn't behind the last key into its place, and gives the number of pairs that then stand.
#[inline(always)]
fn put_within(out: &mut [Pair], count: usize, pair: Option<Pair>, last: u64) -> usize
    requires { count < length out.old }
    ensures pairs { take result out.new ≡ take count out.old ++ within last pair }
    ensures same { length out.new ≡ length out.old }
    ensures count { result ≤ count + 1 }
{
    let Some(pair) = pair else {
        return count;
    };
    if pair.key > last {
        return count;
    }
    out[count] = pair;
    count + 1
}

/// Puts so many pairs behind those that stand.
pub fn put_all(out: &mut [Pair], count: usize, pairs: &[Pair], more: usize)
    requires room { count + more ≤ length out.old }
    requires more { more ≤ length pairs.now }
    ensures pairs { take (count + more) out.new ≡ take count out.old ++ take more pairs.now }
    ensures same { length out.new ≡ length out.old }
    ensures past { drop (count + more) out.new ≡ drop (count + more) out.old }
{
    out[count..count + more].copy_from_slice(&pairs[..more]);
}

/// The same of their keys alone.
pub fn put_keys(out: &mut [u64], count: usize, pairs: &[Pair], more: usize)
    requires room { count + more ≤ length out.old }
    requires more { more ≤ length pairs.now }
    ensures keys { take (count + more) out.new ≡ take count out.old ++ map (λ (p : Pair). p.key) (take more pairs.now) }
    ensures same { length out.new ≡ length out.old }
    ensures past { drop (count + more) out.new ≡ drop (count + more) out.old }
{
    for i in 0..more {
        out[count + i] = pairs[i].key;
    }
}

/// Where the next key is told, and from which key on.
#[inline(always)]
fn run_of(at: Place, version: u64, part: Part, stop: u64, last: u64) -> Run
    requires { stop ≤ last }
    ensures same { (result.at ≡ at) × (result.version ≡ version) × (result.count ≡ part.count) }
    ensures next { behind last result.next ≡ behind stop part.next }
    ensures inside { IfSome part.next (λ k. k ≤ stop) → IfSome result.next (λ k. k ≤ last) }
    ensures turn { (w : View) → IfSome part.below (λ p. IsPlace p w) → IsTurn result.turn w }
{
    let Part { next, count, below } = part;
    let Some(key) = next else {
        if stop < last {
            return Run {
                at,
                version,
                next: Some(stop + 1),
                count,
                turn: Turn::Up,
            };
        }
        return Run {
            at,
            version,
            next: None,
            count,
            turn: Turn::Here,
        };
    };
    let turn = match below {
        Some(place) => Turn::Down(place),
        None => Turn::Here,
    };
    Run {
        at,
        version,
        next: Some(key),
        count,
        turn,
    }
}

/// What a node told on the way to a key: up to another, which is no earlier one, that pair alone has a value, or none has.
fn run_of_sight(sight: Sight, pair: Option<Pair>, end: u64, last: u64, out: &mut [Pair]) -> Run
    requires { 0 < length out.old }
    ensures same { (result.at ≡ sight.at) × (result.version ≡ sight.version) × (length out.new ≡ length out.old) }
    ensures run { (from places : ℕ) (w : View) → from ≤ last → from ≤ end → 0 < places → IsSight sight from w → ((log : List Entry) → Holds log from sight.next → Gives log from end pair)
        → IsRun result from last places (take result.count out.new) w × (from < behind last result.next) }
{
    let count = put_within(out, 0, pair, last);
    let part = Part {
        next: None,
        count,
        below: None,
    };
    run_of(sight.at, sight.version, part, lesser(last, end), last)
}

/// Whether a later key is next, or none.
#[inline(always)]
fn is_later(next: Option<u64>, from: u64) -> bool
    ensures { (last : ℕ) → from ≤ last → result ≡ true → from < behind last next }
{
    match next {
        Some(key) => key > from,
        None => true,
    }
}

impl Tree {
    /// The bytes at which a node may have children, where it has no word for each, and their places, where they aren't the bytes.
    #[inline(always)]
    pub(crate) fn bytes_there(&self, hand: &mut Hand, at: Place, places: &mut [u8; 256]) -> [u64; 4]
        requires of { IsOf self.now.nodes.table.shared.table_id hand.old }
        requires at { IsPlace at (view hand.old) }
        ensures of { IsOf self.now.nodes.table.shared.table_id hand.new }
        ensures place { IsPlace at (view hand.new) }
        ensures looks { (a : View) → Looks IsTree a (view hand.old) → Looks IsTree a (view hand.new) }
        ensures since { Since (view hand.old).seen (view hand.new).seen }
        ensures bytes { (a : View) → Looks IsTree a (view hand.old) → HasBytes at result places.new a (view hand.new) }
        ensures within { room at.form ≢ 256 → IsWithin at.form result places.new }
    {
        if at.form == 4 {
            [0; 4]
        } else {
            self.bytes(hand, at, places)
        }
    }

    /// From a byte on, the bytes at which a node has no child.
    #[inline(always)]
    fn byte_from(&self, hand: &mut Hand, at: Place, bytes: &[u64; 4], from: u8) -> usize
        requires of { IsOf self.now.nodes.table.shared.table_id hand.old }
        requires at { IsPlace at (view hand.old) }
        ensures of { IsOf self.now.nodes.table.shared.table_id hand.new }
        ensures place { IsPlace at (view hand.new) }
        ensures looks { (a : View) → Looks IsTree a (view hand.old) → Looks IsTree a (view hand.new) }
        ensures since { Since (view hand.old).seen (view hand.new).seen }
        ensures bounds { (from ≤ result) × (result ≤ 256) }
        ensures lacks { (a : View) → Looks IsTree a (view hand.old) → (at.form ≢ 4 → Only at.node at.form bytes.now a (view hand.old)) → Lacks at.node at.form from result a (view hand.new) }
        ensures set { at.form ≢ 4 → result < 256 → bit_in bytes.now result ≡ 1 }
    {
        if at.form == 4 {
            return self.gap_of_wide(hand, at.node, from);
        }
        first_set(bytes, from)
    }

    /// The child of a key. At a node of 256 values the look-up is in place here: it's the shortest.
    #[inline(always)]
    pub(crate) fn child_there(&self, hand: &mut Hand, at: Place, key: u64, byte: u8) -> Child
        requires of { IsOf self.now.nodes.table.shared.table_id hand.old }
        requires at { IsPlace at (view hand.old) }
        ensures of { IsOf self.now.nodes.table.shared.table_id hand.new }
        ensures looks { Looks IsTree (view hand.old) (view hand.new) }
        ensures tells { Tells result.first (view hand.new) }
        ensures found { Found at.node at.form result.first result.second key byte (view hand.old) (view hand.new) }
    {
        if at.form == 8 {
            return self.value_of_wide(hand, at.node, key, byte);
        }
        self.child(hand, at, key, byte)
    }

    /// What the child at a key's byte tells, if there is one, of a node of 256.
    #[inline(always)]
    fn bit_wide(&self, hand: &mut Hand, at: Place, from: u64, byte: u8) -> Bit
        requires of { IsOf self.now.nodes.table.shared.table_id hand.old }
        requires at { IsPlace at (view hand.old) }
        requires byte { byte ≡ byte_at from at.level }
        ensures of { IsOf self.now.nodes.table.shared.table_id hand.new }
        ensures place { IsPlace at (view hand.new) }
        ensures looks { Looks IsTree (view hand.old) (view hand.new) }
        ensures knows { KnowsBit from result (view hand.new) }
        ensures shows { ShowsBit at from result (view hand.old) (view hand.new) }
    {
        let child = self.child_there(hand, at, from, byte);
        if child.first == 0 {
            return Bit::Told(None, last_key(from, at.level, byte));
        }
        bit_of(child, at, from, byte)
    }

    /// The entry of a place of a node of up to 48. Of a node of values the first word says no more than that.
    #[inline(always)]
    pub(crate) fn entry(&self, hand: &mut Hand, at: Place, place: usize) -> Child
        requires of { IsOf self.now.nodes.table.shared.table_id hand.old }
        requires at { IsPlace at (view hand.old) }
        requires inside { place < room at.form }
        ensures of { IsOf self.now.nodes.table.shared.table_id hand.new }
        ensures place { IsPlace at (view hand.new) }
        ensures looks { Looks IsTree (view hand.old) (view hand.new) }
        ensures tells { Tells result.first (view hand.new) }
        ensures found { HasEntry at place result.first result.second (view hand.old) (view hand.new) }
    {
        let last = last_at(at.form, place);
        let second = self.read(hand, at.node, at.form, last);
        if at.form > 4 {
            return Child { first: 9, second };
        }
        let first = self.read(hand, at.node, at.form, last - 1);
        Child { first, second }
    }

    /// What the child at a key's byte tells.
    #[inline(always)]
    fn bit_here(
        &self,
        hand: &mut Hand,
        at: Place,
        bytes: &[u64; 4],
        places: &[u8; 256],
        from: u64,
        byte: u8,
    ) -> Bit
        requires of { IsOf self.now.nodes.table.shared.table_id hand.old }
        requires at { IsPlace at (view hand.old) }
        requires byte { byte ≡ byte_at from at.level }
        requires within { room at.form ≢ 256 → IsWithin at.form bytes.now places.now }
        requires set { at.form ≢ 4 → bit_in bytes.now byte ≡ 1 }
        ensures of { IsOf self.now.nodes.table.shared.table_id hand.new }
        ensures place { IsPlace at (view hand.new) }
        ensures looks { Looks IsTree (view hand.old) (view hand.new) }
        ensures knows { KnowsBit from result (view hand.new) }
        ensures shows { (a : View) → Looks IsTree a (view hand.old) → HasBytes at bytes.now places.now a (view hand.old) → ShowsBit at from result a (view hand.new) }
    {
        if room_of(at.form) == 256 {
            return self.bit_wide(hand, at, from, byte);
        }
        let child = self.entry(hand, at, places[byte as usize] as usize);
        bit_of(child, at, from, byte)
    }

    /// What a node that covers a key tells of it, and of those behind it up to its next child's.
    #[inline(always)]
    fn bit_at(
        &self,
        hand: &mut Hand,
        at: Place,
        bytes: &[u64; 4],
        places: &[u8; 256],
        from: u64,
    ) -> Bit
        requires of { IsOf self.now.nodes.table.shared.table_id hand.old }
        requires at { IsPlace at (view hand.old) }
        requires within { room at.form ≢ 256 → IsWithin at.form bytes.now places.now }
        ensures of { IsOf self.now.nodes.table.shared.table_id hand.new }
        ensures place { IsPlace at (view hand.new) }
        ensures looks { (a : View) → Looks IsTree a (view hand.old) → Looks IsTree a (view hand.new) }
        ensures since { Since (view hand.old).seen (view hand.new).seen }
        ensures knows { KnowsBit from result (view hand.new) }
        ensures shows { (a : View) → Looks IsTree a (view hand.old) → HasBytes at bytes.now places.now a (view hand.old) → ShowsBit at from result a (view hand.new) }
    {
        let byte = key_byte(from, at.level);
        let to = self.byte_from(hand, at, bytes, byte);
        if to == byte as usize {
            return self.bit_here(hand, at, bytes, places, from, byte);
        }
        let gap = last_key(from, at.level, (to - 1) as u8);
        if to > 255 {
            return Bit::Told(None, gap);
        }
        let first = first_key(from, at.level, to as u8);
        match self.bit_here(hand, at, bytes, places, first, to as u8) {
            Bit::Down(_) => Bit::Told(None, gap),
            Bit::Told(pair, end) => Bit::Told(pair, end),
        }
    }

    /// What a node tells of the keys up to one, all of which it covers if it does the first.
    #[inline(always)]
    fn run_in(
        &self,
        hand: &mut Hand,
        at: Place,
        bytes: &[u64; 4],
        places: &[u8; 256],
        start: u64,
        stop: u64,
        out: &mut [Pair],
        most: usize,
    ) -> Part
        requires of { IsOf self.now.nodes.table.shared.table_id hand.old }
        requires at { IsPlace at (view hand.old) }
        requires order { start ≤ stop }
        requires near { (k : ℕ) → start ≤ k → k ≤ stop → IsNear at.level start k }
        requires room { most ≤ length out.old }
        requires within { room at.form ≢ 256 → IsWithin at.form bytes.now places.now }
        ensures of { IsOf self.now.nodes.table.shared.table_id hand.new }
        ensures place { IsPlace at (view hand.new) }
        ensures looks { (a : View) → Looks IsTree a (view hand.old) → Looks IsTree a (view hand.new) }
        ensures since { Since (view hand.old).seen (view hand.new).seen }
        ensures same { length out.new ≡ length out.old }
        ensures count { result.count ≤ most }
        ensures order { (start ≤ behind stop result.next) × IfSome result.next (λ k. k ≤ stop) }
        ensures below { IfSome result.below (λ p. IsPlace p (view hand.new)) }
        ensures shows { (a : View) → Looks IsTree a (view hand.old) → HasBytes at bytes.now places.now a (view hand.old) → ShowsRun at start (behind stop result.next) (take result.count out.new) a (view hand.new) }
    {
        let mut from = start;
        let mut count = 0;
        while count < most {
            match self.bit_at(hand, at, bytes, places, from) {
                Bit::Down(below) => {
                    return Part {
                        next: Some(from),
                        count,
                        below: Some(below),
                    };
                }
                Bit::Told(pair, end) => {
                    count = put_within(out, count, pair, stop);
                    if end >= stop {
                        return Part {
                            next: None,
                            count,
                            below: None,
                        };
                    }
                    from = end + 1;
                }
            }
        }
        Part {
            next: Some(from),
            count,
            below: None,
        }
    }

    /// The same from a key on, behind what was told of those before it.
    fn run_rest(
        &self,
        hand: &mut Hand,
        at: Place,
        bytes: &[u64; 4],
        places: &[u8; 256],
        from: u64,
        stop: u64,
        out: &mut [Pair],
        count: usize,
        most: usize,
    ) -> Part
        requires of { IsOf self.now.nodes.table.shared.table_id hand.old }
        requires at { IsPlace at (view hand.old) }
        requires order { from ≤ stop }
        requires near { (k : ℕ) → from ≤ k → k ≤ stop → IsNear at.level from k }
        requires room { (count ≤ most) × (most ≤ length out.old) }
        requires within { room at.form ≢ 256 → IsWithin at.form bytes.now places.now }
        ensures of { IsOf self.now.nodes.table.shared.table_id hand.new }
        ensures place { IsPlace at (view hand.new) }
        ensures looks { (a : View) → Looks IsTree a (view hand.old) → Looks IsTree a (view hand.new) }
        ensures since { Since (view hand.old).seen (view hand.new).seen }
        ensures same { length out.new ≡ length out.old }
        ensures count { (count ≤ result.count) × (result.count ≤ most) }
        ensures order { (from ≤ behind stop result.next) × IfSome result.next (λ k. k ≤ stop) }
        ensures below { IfSome result.below (λ p. IsPlace p (view hand.new)) }
        ensures shows { (a : View) → Looks IsTree a (view hand.old) → HasBytes at bytes.now places.now a (view hand.old)
            → (ps : List Pair) × ShowsRun at from (behind stop result.next) ps a (view hand.new) × (take result.count out.new ≡ take count out.old ++ ps) }
    {
        let part = self.run_in(
            hand,
            at,
            bytes,
            places,
            from,
            stop,
            &mut out[count..],
            most - count,
        );
        Part {
            next: part.next,
            count: count + part.count,
            below: part.below,
        }
    }

    /// The same of a node of up to 48 children, as long as they are lone leaves.
    #[inline(always)]
    fn run_few(
        &self,
        hand: &mut Hand,
        at: Place,
        bytes: &[u64; 4],
        places: &[u8; 256],
        start: u64,
        stop: u64,
        out: &mut [Pair],
        most: usize,
    ) -> Part
        requires of { IsOf self.now.nodes.table.shared.table_id hand.old }
        requires at { IsPlace at (view hand.old) }
        requires order { start ≤ stop }
        requires near { (k : ℕ) → start ≤ k → k ≤ stop → IsNear at.level start k }
        requires room { most ≤ length out.old }
        requires within { room at.form ≢ 256 → IsWithin at.form bytes.now places.now }
        requires form { at.form < 4 }
        ensures of { IsOf self.now.nodes.table.shared.table_id hand.new }
        ensures place { IsPlace at (view hand.new) }
        ensures looks { (a : View) → Looks IsTree a (view hand.old) → Looks IsTree a (view hand.new) }
        ensures since { Since (view hand.old).seen (view hand.new).seen }
        ensures same { length out.new ≡ length out.old }
        ensures count { result.count ≤ most }
        ensures order { (start ≤ behind stop result.next) × IfSome result.next (λ k. k ≤ stop) }
        ensures below { IfSome result.below (λ p. IsPlace p (view hand.new)) }
        ensures shows { (a : View) → Looks IsTree a (view hand.old) → HasBytes at bytes.now places.now a (view hand.old) → ShowsRun at start (behind stop result.next) (take result.count out.new) a (view hand.new) }
    {
        let mut from = start;
        let mut low = key_byte(start, at.level);
        let mut rest = rest_from(bytes, low);
        let mut count = 0;
        while count < most {
            let Some(byte) = take_next(bytes, &mut rest) else {
                return Part {
                    next: None,
                    count,
                    below: None,
                };
            };
            let child = self.entry(hand, at, places[byte as usize] as usize);
            if child.first % 256 != 9 {
                return self.run_rest(hand, at, bytes, places, from, stop, out, count, most);
            }
            let first = first_with(from, at.level, low, byte);
            let end = last_key(first, at.level, byte);
            let pair = lone_pair(child, at.level, first, byte, end);
            count = put_within(out, count, pair, stop);
            if end >= stop {
                return Part {
                    next: None,
                    count,
                    below: None,
                };
            }
            from = end + 1;
            low = byte + 1;
        }
        Part {
            next: Some(from),
            count,
            below: None,
        }
    }

    /// The same, as its bytes are read.
    #[inline(always)]
    fn run_there(
        &self,
        hand: &mut Hand,
        at: Place,
        start: u64,
        stop: u64,
        out: &mut [Pair],
        most: usize,
    ) -> Part
        requires of { IsOf self.now.nodes.table.shared.table_id hand.old }
        requires at { IsPlace at (view hand.old) }
        requires order { start ≤ stop }
        requires near { (k : ℕ) → start ≤ k → k ≤ stop → IsNear at.level start k }
        requires room { most ≤ length out.old }
        ensures of { IsOf self.now.nodes.table.shared.table_id hand.new }
        ensures place { IsPlace at (view hand.new) }
        ensures looks { (a : View) → Looks IsTree a (view hand.old) → Looks IsTree a (view hand.new) }
        ensures since { Since (view hand.old).seen (view hand.new).seen }
        ensures same { length out.new ≡ length out.old }
        ensures count { result.count ≤ most }
        ensures order { (start ≤ behind stop result.next) × IfSome result.next (λ k. k ≤ stop) }
        ensures below { IfSome result.below (λ p. IsPlace p (view hand.new)) }
        ensures shows { (a : View) → Looks IsTree a (view hand.old) → ShowsRun at start (behind stop result.next) (take result.count out.new) a (view hand.new) }
    {
        let mut places = [0; 256];
        let bytes = self.bytes_there(hand, at, &mut places);
        if at.form < 4 {
            return self.run_few(hand, at, &bytes, &places, start, stop, out, most);
        }
        self.run_in(hand, at, &bytes, &places, start, stop, out, most)
    }

    /// The same, in a loop of its own for each form.
    #[inline(always)]
    fn run_of_form(
        &self,
        hand: &mut Hand,
        at: Place,
        start: u64,
        stop: u64,
        out: &mut [Pair],
        most: usize,
    ) -> Part
        requires of { IsOf self.now.nodes.table.shared.table_id hand.old }
        requires at { IsPlace at (view hand.old) }
        requires order { start ≤ stop }
        requires near { (k : ℕ) → start ≤ k → k ≤ stop → IsNear at.level start k }
        requires room { most ≤ length out.old }
        ensures of { IsOf self.now.nodes.table.shared.table_id hand.new }
        ensures place { IsPlace at (view hand.new) }
        ensures looks { (a : View) → Looks IsTree a (view hand.old) → Looks IsTree a (view hand.new) }
        ensures since { Since (view hand.old).seen (view hand.new).seen }
        ensures same { length out.new ≡ length out.old }
        ensures count { result.count ≤ most }
        ensures order { (start ≤ behind stop result.next) × IfSome result.next (λ k. k ≤ stop) }
        ensures below { IfSome result.below (λ p. IsPlace p (view hand.new)) }
        ensures shows { (a : View) → Looks IsTree a (view hand.old) → ShowsRun at start (behind stop result.next) (take result.count out.new) a (view hand.new) }
    {
        match at.form {
            1 => self.run_there(hand, at, start, stop, out, most),
            2 => self.run_there(hand, at, start, stop, out, most),
            3 => self.run_there(hand, at, start, stop, out, most),
            4 => self.run_there(hand, at, start, stop, out, most),
            5 => self.run_there(hand, at, start, stop, out, most),
            6 => self.run_there(hand, at, start, stop, out, most),
            7 => self.run_there(hand, at, start, stop, out, most),
            _ => self.run_there(hand, at, start, stop, out, most),
        }
    }

    /// What a node tells of the keys from one on up to another, with its version, if it covers the first and nobody has it.
    fn look_run(
        &self,
        hand: &mut Hand,
        at: Place,
        from: u64,
        last: u64,
        out: &mut [Pair],
        places: usize,
    ) -> Option<Run>
        requires of { IsOf self.now.nodes.table.shared.table_id hand.old }
        requires at { IsPlace at (view hand.old) }
        requires order { from ≤ last }
        requires room { places ≤ length out.old }
        ensures of { IsOf self.now.nodes.table.shared.table_id hand.new }
        ensures looks { Looks IsTree (view hand.old) (view hand.new) }
        ensures same { length out.new ≡ length out.old }
        ensures run { IfSome result (λ r. IsRun r from last places (take r.count out.new) (view hand.new)) }
        ensures dated { IfSome result (λ r. IsDated r.at.node r.version (view hand.old).seen (view hand.new).seen) }
    {
        let version = self.nodes.load(hand, at.node, at.form, 0);
        let found = self.read(hand, at.node, at.form, 1);
        let word = where_word(at.form, at.level, from);
        if found != word {
            return None;
        }
        if version % 2 == 1 {
            return None;
        }
        let stop = lesser(last, last_key(from, at.level, 255));
        let part = self.run_of_form(hand, at, from, stop, out, places);
        Some(run_of(at, version, part, stop, last))
    }

    /// What the last node of a trail tells.
    #[inline(always)]
    fn look_last(
        &self,
        hand: &mut Hand,
        trail: &Trail,
        from: u64,
        last: u64,
        out: &mut [Pair],
        places: usize,
    ) -> Option<Run>
        requires of { IsOf self.now.nodes.table.shared.table_id hand.old }
        requires trail { IsTrail trail.now (view hand.old).seen }
        requires order { from ≤ last }
        requires room { places ≤ length out.old }
        ensures of { IsOf self.now.nodes.table.shared.table_id hand.new }
        ensures looks { Looks IsTree (view hand.old) (view hand.new) }
        ensures trail { IsTrail trail.now (view hand.new).seen }
        ensures same { length out.new ≡ length out.old }
        ensures run { IfSome result (λ r. IsRun r from last places (take r.count out.new) (view hand.new)) }
        ensures dated { IfSome result (λ r. IsDated r.at.node r.version (view hand.old).seen (view hand.new).seen) }
    {
        let at = trail.last();
        self.look_run(hand, at, from, last, out, places)
    }

    /// What is told of the keys from one on by a node on the way to it. The trail leads to that which tells of the next key.
    #[inline(always)]
    pub fn look_by(
        &self,
        hand: &mut Hand,
        trail: &mut Trail,
        from: u64,
        last: u64,
        out: &mut [Pair],
        places: usize,
    ) -> Option<Run>
        requires of { IsOf self.now.nodes.table.shared.table_id hand.old }
        requires trail { IsTrail trail.old (view hand.old).seen }
        requires order { from ≤ last }
        requires room { places ≤ length out.old }
        ensures of { IsOf self.now.nodes.table.shared.table_id hand.new }
        ensures looks { Looks IsTree (view hand.old) (view hand.new) }
        ensures trail { IsTrail trail.new (view hand.new).seen }
        ensures same { length out.new ≡ length out.old }
        ensures run { IfSome result (λ r. IsRun r from last places (take r.count out.new) (view hand.new)) }
        ensures dated { IfSome result (λ r. IsDated r.at.node r.version (view hand.old).seen (view hand.new).seen) }
        ensures later { IfSome result (λ r. from < behind last r.next) }
    {
        let mut looked = self.look_last(hand, trail, from, last, out, places);
        for _ in 0..LOOKS {
            match looked {
                Some(run) => {
                    trail.turn(run.turn);
                    if is_later(run.next, from) {
                        return Some(run);
                    }
                }
                None => {
                    if !trail.go_up() {
                        return None;
                    }
                }
            }
            looked = self.look_last(hand, trail, from, last, out, places);
        }
        None
    }

    /// What the last node on the way from the root tells of a key, and of those behind it that have no value.
    fn look_anew(
        &self,
        hand: &mut Hand,
        from: u64,
        last: u64,
        out: &mut [Pair],
        places: usize,
    ) -> Option<Run>
        requires of { IsOf self.now.nodes.table.shared.table_id hand.old }
        requires order { from ≤ last }
        requires room { (0 < places) × (places ≤ length out.old) }
        ensures of { IsOf self.now.nodes.table.shared.table_id hand.new }
        ensures looks { Looks IsTree (view hand.old) (view hand.new) }
        ensures same { length out.new ≡ length out.old }
        ensures run { IfSome result (λ r. IsRun r from last places (take r.count out.new) (view hand.new)) }
        ensures dated { IfSome result (λ r. IsDated r.at.node r.version (view hand.old).seen (view hand.new).seen) }
        ensures later { IfSome result (λ r. from < behind last r.next) }
        ensures alone { IfNone result (IsDisturbedFrom (view hand.old) (view hand.new)) }
    {
        let Some(sight) = self.sight(hand, from) else {
            return None;
        };
        match sight.next {
            Next::Here(value) => {
                let pair = Pair { key: from, value };
                Some(run_of_sight(sight, Some(pair), from, last, out))
            }
            Next::Down(_) => None,
            Next::After(end) => Some(run_of_sight(sight, None, end, last, out)),
        }
    }

    /// What is told of the keys from one on by the nodes of a trail, or, where these tell nothing, by the way from the root, if no
    /// writer comes between.
    pub fn look_on(
        &self,
        hand: &mut Hand,
        trail: &mut Trail,
        from: u64,
        last: u64,
        out: &mut [Pair],
        places: usize,
    ) -> Option<Run>
        requires of { IsOf self.now.nodes.table.shared.table_id hand.old }
        requires trail { IsTrail trail.old (view hand.old).seen }
        requires order { from ≤ last }
        requires room { (0 < places) × (places ≤ length out.old) }
        ensures of { IsOf self.now.nodes.table.shared.table_id hand.new }
        ensures looks { Looks IsTree (view hand.old) (view hand.new) }
        ensures trail { IsTrail trail.new (view hand.new).seen }
        ensures same { length out.new ≡ length out.old }
        ensures run { IfSome result (λ r. IsRun r from last places (take r.count out.new) (view hand.new)) }
        ensures dated { IfSome result (λ r. IsDated r.at.node r.version (view hand.old).seen (view hand.new).seen) }
        ensures later { IfSome result (λ r. from < behind last r.next) }
        ensures alone { IfNone result (IsDisturbedFrom (view hand.old) (view hand.new)) }
    {
        if let Some(run) = self.look_by(hand, trail, from, last, out, places) {
            return Some(run);
        }
        *trail = self.trail(hand);
        self.look_anew(hand, from, last, out, places)
    }

    /// What is told of the keys from one on, as it was at one moment, if no writer comes between.
    #[inline(always)]
    fn try_run(
        &self,
        hand: &mut Hand,
        trail: &mut Trail,
        from: u64,
        last: u64,
        out: &mut [Pair],
        places: usize,
    ) -> Option<Run>
        requires of { IsOf self.now.nodes.table.shared.table_id hand.old }
        requires trail { IsTrail trail.old (view hand.old).seen }
        requires order { from ≤ last }
        requires room { (0 < places) × (places ≤ length out.old) }
        ensures of { IsOf self.now.nodes.table.shared.table_id hand.new }
        ensures looks { Looks IsTree (view hand.old) (view hand.new) }
        ensures trail { IsTrail trail.new (view hand.new).seen }
        ensures same { length out.new ≡ length out.old }
        ensures told { IfSome result (λ r. WasTold r from last places (take r.count out.new) (view hand.old) (view hand.new)) }
        ensures alone { IfNone result (IsDisturbedFrom (view hand.old) (view hand.new)) }
    {
        let Some(run) = self.look_on(hand, trail, from, last, out, places) else {
            return None;
        };
        let version = self.nodes.load(hand, run.at.node, run.at.form, 0);
        if version != run.version {
            return None;
        }
        Some(run)
    }

    /// The same, some times where a writer comes between.
    fn run_soon(
        &self,
        hand: &mut Hand,
        trail: &mut Trail,
        from: u64,
        last: u64,
        out: &mut [Pair],
        places: usize,
    ) -> Option<Run>
        requires of { IsOf self.now.nodes.table.shared.table_id hand.old }
        requires trail { IsTrail trail.old (view hand.old).seen }
        requires order { from ≤ last }
        requires room { (0 < places) × (places ≤ length out.old) }
        ensures of { IsOf self.now.nodes.table.shared.table_id hand.new }
        ensures later { Later (view hand.old) (view hand.new) }
        ensures mine { (view hand.new).mine ≡ (view hand.old).mine }
        ensures since { Since (view hand.old).seen (view hand.new).seen }
        ensures trail { IsTrail trail.new (view hand.new).seen }
        ensures same { length out.new ≡ length out.old }
        ensures keeps { IfSome result (λ _. Keeps (view hand.old) (view hand.new)) }
        ensures told { IfSome result (λ r. WasTold r from last places (take r.count out.new) (view hand.old) (view hand.new)) }
        ensures alone { IfNone result (IsDisturbedFrom (view hand.old) (view hand.new)) }
    {
        for _attempt in 0..ATTEMPTS {
            if let Some(run) = self.try_run(hand, trail, from, last, out, places) {
                return Some(run);
            }
            spin_loop();
        }
        None
    }

    /// What is told of the keys from one on, as it was at one moment within the call: as many of them as one node tells of.
    pub fn run<R: Wait>(
        &self,
        rt: &R,
        hand: &mut Hand,
        trail: &mut Trail,
        from: u64,
        last: u64,
        out: &mut [Pair],
        places: usize,
    ) -> Run
        requires of { IsOf self.now.nodes.table.shared.table_id hand.old }
        requires trail { IsTrail trail.old (view hand.old).seen }
        requires order { from ≤ last }
        requires room { (0 < places) × (places ≤ length out.old) }
        ensures of { IsOf self.now.nodes.table.shared.table_id hand.new }
        ensures keeps { Keeps (view hand.old) (view hand.new) }
        ensures mine { (view hand.new).mine ≡ (view hand.old).mine }
        ensures trail { IsTrail trail.new (view hand.new).seen }
        ensures same { length out.new ≡ length out.old }
        ensures told { WasTold result from last places (take result.count out.new) (view hand.old) (view hand.new) }
    {
        for _ in rt.forever() {
            if let Some(run) = self.run_soon(hand, trail, from, last, out, places) {
                return run;
            }
            yield_now();
        }
        unreachable!()
    }

    /// The same, if no writer comes between.
    #[inline(always)]
    pub fn run_on(
        &self,
        hand: &mut Hand,
        trail: &mut Trail,
        from: u64,
        last: u64,
        out: &mut [Pair],
        places: usize,
    ) -> Option<Run>
        requires of { IsOf self.now.nodes.table.shared.table_id hand.old }
        requires trail { IsTrail trail.old (view hand.old).seen }
        requires order { from ≤ last }
        requires room { (0 < places) × (places ≤ length out.old) }
        ensures of { IsOf self.now.nodes.table.shared.table_id hand.new }
        ensures keeps { Keeps (view hand.old) (view hand.new) }
        ensures mine { (view hand.new).mine ≡ (view hand.old).mine }
        ensures trail { IsTrail trail.new (view hand.new).seen }
        ensures same { length out.new ≡ length out.old }
        ensures told { IfSome result (λ r. WasTold r from last places (take r.count out.new) (view hand.old) (view hand.new)) }
    {
        self.try_run(hand, trail, from, last, out, places)
    }
}
