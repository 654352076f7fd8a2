//! The pair next to a key, as the nodes stand: one way down, and past a child without such a key to the one beside it.

ghost use Rattle.std.specs.Prelude.{◌≡◌, ◌<◌, ◌≤◌, ◌⊎◌, ℕ, None, suc, MatchOption};
ghost use Rattle.std.specs.FinMap as map;
ghost use Rattle.congee.specs.forms.Forms.{children_of};
ghost use Rattle.std.specs.Option.{option_map};
ghost use Rattle.congee.specs.Keys.{IsMapOf};
ghost use Rattle.congee.specs.owned.Nearest.{IsGreatest, IsLeast};
ghost use Rattle.congee.specs.protocol.Regions.{start_at};
ghost use Rattle.judge.specs.Answer.{Pairs};
ghost use Rattle.joint.specs.nodes.Nodes.{nodes};
ghost use Rattle.joint.specs.nodes.Levels.{IsNodeIn};
ghost use Rattle.joint.specs.nodes.Nearest.{FindsFirst, FindsLast, IsFinal, IsNearest};
ghost use Rattle.joint.specs.nodes.Survey.{IsRegionOf, IsTree};
ghost use Rattle.joint.specs.nodes.View.{id_number};

use crate::id::Id;
use crate::nodes::Nodes;
use crate::nodes::survey::{first_under, width};
use congee::protocol::Region;
use congee::{Allocator, Child, Node, Payload, Small};

/// Where a pair is looked for: the nearest one on that side of a key.
#[derive(Clone, Copy, Drop)]
pub enum Near {
    /// The key itself, or the least one above it.
    From(u64),
    /// The least one above it.
    After(u64),
    /// The key itself, or the greatest one below it.
    UpTo(u64),
    /// The greatest one below it.
    Before(u64),
}

/// A byte such that no key from this one on is under a lesser byte of a node; 256 where none is under any.
fn first_byte(region: Region, from: u64) -> usize
    requires { IsRegionOf region }
    ensures few { result ≤ 256 }
    ensures starts { (start_at region.base region.depth result ≤ from) ⊎ (result ≡ 0) }
{
    let byte = from.saturating_sub(region.base) / width(region.depth);
    byte.min(256) as usize
}

/// A byte such that no key up to this one is under it or a greater byte of a node; 256 where none is.
fn end_byte(region: Region, last: u64) -> usize
    requires { IsRegionOf region }
    ensures few { result ≤ 256 }
    ensures ends { (suc last ≤ start_at region.base region.depth result) ⊎ (result ≡ 256) }
{
    if last < region.base {
        return 0;
    }
    let byte = (last - region.base) / width(region.depth);
    byte.min(255) as usize + 1
}

/// The child of the greatest byte before `end`.
fn last_before<P: Payload + Small>(node: &Node<Id, P>, end: usize) -> Option<(u8, &Child<Id, P>)>
    requires { end ≤ 256 }
    ensures { MatchOption result ((b : ℕ) → b < end → map.get (children_of node.now) b ≡ None)
        (λ r. IsFinal (children_of node.now) end r.0 r.1.now) }
{
    let mut past = end;
    while past > 0 {
        past -= 1;
        let byte = past as u8;
        if let Some(child) = node.get_child(byte) {
            return Some((byte, child));
        }
    }
    None
}

impl<P: Payload + Small, A: Allocator> Nodes<P, A> {
    /// The pair of the least key from one on, of those at and below a node.
    fn first_below(&self, at: Id, from: u64) -> Option<(u64, &P)>
        requires { IsNodeIn (nodes self.now) (id_number at) }
        ensures { FindsFirst (nodes self.now) (id_number at) from (option_map (λ r. (r.0, r.1.now)) result) }
    {
        let node = self.slot(at).node();
        let region = Region::of(node.prefix());
        let mut start = first_byte(region, from);
        while let Some((byte, child)) = node.first_from(start) {
            start = byte as usize + 1;
            match child {
                Child::Blank => {}
                Child::Node(below) => {
                    if let Some(pair) = self.first_below(*below, from) {
                        return Some(pair);
                    }
                }
                Child::Value(value) => {
                    let key = first_under(region, byte);
                    if key >= from {
                        return Some((key, value));
                    }
                }
            }
        }
        None
    }

    /// The pair of the least key from one on.
    fn first_from(&self, from: u64) -> Option<(u64, &P)>
        requires { IsTree (nodes self.now) }
        ensures { (m : Pairs P) → IsMapOf (nodes self.now) m → IsLeast m from (option_map (λ r. (r.0, r.1.now)) result) }
    {
        self.first_below(Id::root(), from)
    }

    /// The pair of the least key above one.
    fn first_after(&self, key: u64) -> Option<(u64, &P)>
        requires { IsTree (nodes self.now) }
        ensures { (m : Pairs P) → IsMapOf (nodes self.now) m → IsLeast m (suc key) (option_map (λ r. (r.0, r.1.now)) result) }
    {
        match key.checked_add(1) {
            Some(from) => self.first_from(from),
            None => None,
        }
    }

    /// The pair of the greatest key up to one, of those at and below a node.
    fn last_below(&self, at: Id, last: u64) -> Option<(u64, &P)>
        requires { IsNodeIn (nodes self.now) (id_number at) }
        ensures { FindsLast (nodes self.now) (id_number at) (suc last) (option_map (λ r. (r.0, r.1.now)) result) }
    {
        let node = self.slot(at).node();
        let region = Region::of(node.prefix());
        let mut end = end_byte(region, last);
        while let Some((byte, child)) = last_before(node, end) {
            end = byte as usize;
            match child {
                Child::Blank => {}
                Child::Node(below) => {
                    if let Some(pair) = self.last_below(*below, last) {
                        return Some(pair);
                    }
                }
                Child::Value(value) => {
                    let key = first_under(region, byte);
                    if key <= last {
                        return Some((key, value));
                    }
                }
            }
        }
        None
    }

    /// The pair of the greatest key up to one.
    fn last_to(&self, last: u64) -> Option<(u64, &P)>
        requires { IsTree (nodes self.now) }
        ensures { (m : Pairs P) → IsMapOf (nodes self.now) m → IsGreatest m (suc last) (option_map (λ r. (r.0, r.1.now)) result) }
    {
        self.last_below(Id::root(), last)
    }

    /// The pair of the greatest key below one.
    fn last_short_of(&self, key: u64) -> Option<(u64, &P)>
        requires { IsTree (nodes self.now) }
        ensures { (m : Pairs P) → IsMapOf (nodes self.now) m → IsGreatest m key (option_map (λ r. (r.0, r.1.now)) result) }
    {
        match key.checked_sub(1) {
            Some(last) => self.last_to(last),
            None => None,
        }
    }

    /// The nearest pair.
    pub(crate) fn nearest(&self, near: Near) -> Option<(u64, &P)>
        requires { IsTree (nodes self.now) }
        ensures { (m : Pairs P) → IsMapOf (nodes self.now) m → IsNearest m near (option_map (λ r. (r.0, r.1.now)) result) }
    {
        match near {
            Near::From(key) => self.first_from(key),
            Near::After(key) => self.first_after(key),
            Near::UpTo(key) => self.last_to(key),
            Near::Before(key) => self.last_short_of(key),
        }
    }
}
