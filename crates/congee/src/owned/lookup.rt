//! What a node has for a key, under a byte, and as a walk reads it.
ghost use Rattle.std.specs.Prelude.{◌≡◌, ◌+◌, ◌*◌, ◌≤◌, ℕ, Some, None, true, IfSome, MatchOption};
ghost use Rattle.std.specs.FinMap as map;
ghost use Rattle.slab.specs.Slab.{get, ContainsKey};
ghost use Rattle.congee.specs.forms.Forms.{children_of};
ghost use Rattle.congee.specs.declared.keys.TheConstants.{KEY_BYTES};
ghost use Rattle.congee.specs.declared.forms.prefix.TheConstants.{MAX_PREFIX_LEN};

use crate::forms::prefix::MAX_PREFIX_LEN;
use crate::keys::{KEY_BYTES, key_of_bytes};
use crate::owned::arena::Stored;
use crate::owned::entries::{Hung, LoneRef};
use crate::owned::inline_leaf::{key_of, leads};
use crate::owned::inner::Row;
use crate::owned::names::Name;
use crate::owned::nodes::Nodes;
use crate::owned::place::{Found, Onward, Way};
use crate::owned::sight::{Sight, Stem};
use crate::owned::slots::Slot;

impl<P: Stored> Nodes<P> {
    ghost use Rattle.congee.specs.forms.Bytes.{IsFirst};
    ghost use Rattle.congee.specs.Heap.{fits};
    ghost use Rattle.congee.specs.owned.Arena.{IsTree, OnWay, heap_of};
    ghost use Rattle.congee.specs.owned.Entries.{lone_seen};
    ghost use Rattle.congee.specs.owned.Place.{IsOpen};
    ghost use Rattle.congee.specs.owned.Rows.{SeesRow};
    ghost use Rattle.congee.specs.owned.Sights.{Sees};
    ghost use Rattle.congee.specs.owned.Slots.{lone_node};
    ghost use Rattle.congee.specs.owned.Stores.{LeafStands, child_now};
    ghost use Rattle.congee.specs.owned.Ways.{IsWayBelow, IsWayOn, Leads, LeadsOn};
    ghost use Rattle.congee.specs.declared.forms.base_node.Node.{Node as Form};
    ghost use Rattle.congee.specs.declared.forms.child.Child.TheVariants.{Value};

    /// The leaf with one value under a byte of an inner node.
    #[inline(always)]
    pub(crate) fn lone(&self, slot: usize, byte: u8) -> LoneRef<'_, P>
        requires { ContainsKey self.now (257 * slot + (byte + 1)) }
        ensures { get self.now (257 * slot + (byte + 1)) ≡ Some (lone_node (lone_seen result)) }
    {
        self.slab[slot].lone(byte)
    }

    /// What a node has for a key.
    #[inline(always)]
    pub(crate) fn look(&self, at: Name, key: &[u8; KEY_BYTES]) -> Way<'_, P>
        requires tree { IsTree self.now }
        requires stands { ContainsKey self.now at }
        ensures { Leads self.now key.now at result }
    {
        match at.byte {
            Some(byte) => self.look_inline(at.slot, byte, key),
            None => self.look_slot(at.slot, key),
        }
    }

    /// What a leaf in the place of its parent has for a key.
    #[inline(always)]
    fn look_inline(&self, slot: usize, byte: u8, key: &[u8; KEY_BYTES]) -> Way<'_, P>
        requires { ContainsKey self.now (257 * slot + (byte + 1)) }
        ensures { Leads self.now key.now (257 * slot + (byte + 1)) result }
    {
        let lone = self.lone(slot, byte);
        if lone.key[MAX_PREFIX_LEN] == key[MAX_PREFIX_LEN] {
            Way::Held(lone.value)
        } else {
            Way::Free
        }
    }

    /// What a node in a slot has for a key.
    #[inline(always)]
    fn look_slot(&self, slot: usize, key: &[u8; KEY_BYTES]) -> Way<'_, P>
        requires tree { IsTree self.now }
        requires stands { ContainsKey self.now (257 * slot) }
        ensures { Leads self.now key.now (257 * slot) result }
    {
        match &self.slab[slot] {
            Slot::Inner(n) => {
                let byte = key[n.prefix_len()];
                match n.get_child(byte) {
                    None => Way::Free,
                    Some(Hung::Blank) => unreachable!(),
                    Some(Hung::Node(below)) => self.way_below(below, key),
                    Some(Hung::Leaf(lone)) => {
                        let name = Name::inline(slot, byte);
                        if leads(&lone.key, key) {
                            Way::Below(name)
                        } else {
                            Way::Apart(name)
                        }
                    }
                }
            }
            Slot::Leaf(n) => match n.get_child(key[n.prefix_len()]) {
                None => Way::Free,
                Some(value) => Way::Held(value),
            },
        }
    }

    /// What a node in a slot has for a key. Where that is a leaf in its place whose prefix the key has, what the leaf has.
    #[inline(always)]
    pub(crate) fn look_on(&self, slot: usize, key: &[u8; KEY_BYTES]) -> Onward<'_, P>
        requires tree { IsTree self.now }
        requires stands { ContainsKey self.now (257 * slot) }
        ensures { LeadsOn self.now key.now (257 * slot) result }
    {
        match &self.slab[slot] {
            Slot::Inner(n) => {
                let next = key[n.prefix_len()];
                match n.get_child(next) {
                    None => Onward::Free,
                    Some(Hung::Blank) => unreachable!(),
                    Some(Hung::Node(below)) => self.way_on(below, key),
                    Some(Hung::Leaf(lone)) => {
                        let leaf = Name::inline(slot, next);
                        if !leads(&lone.key, key) {
                            Onward::Apart(leaf)
                        } else if lone.key[MAX_PREFIX_LEN] == key[MAX_PREFIX_LEN] {
                            Onward::HeldBelow(leaf, lone.value)
                        } else {
                            Onward::FreeBelow(leaf)
                        }
                    }
                }
            }
            Slot::Leaf(n) => match n.get_child(key[n.prefix_len()]) {
                None => Onward::Free,
                Some(value) => Onward::Held(value),
            },
        }
    }

    /// Whether the node in a slot is a leaf on the key's way that has nothing for the key, and room.
    #[inline(always)]
    pub(crate) fn is_open(&self, slot: usize, key: &[u8; KEY_BYTES]) -> bool
        ensures { result ≡ true → IsOpen self.now key.now (257 * slot) }
    {
        let Some(Slot::Leaf(leaf)) = self.slab.get(slot) else {
            return false;
        };
        if !leaf.is_prefix_of(key) || leaf.is_full() {
            return false;
        }
        leaf.get_child(key[MAX_PREFIX_LEN]).is_none()
    }

    /// A slot whose node is on the key's way: this one, if its node is, else the root's.
    #[inline(always)]
    pub(crate) fn way_from(&self, near: usize, key: &[u8; KEY_BYTES]) -> usize
        requires { IsTree self.now }
        ensures { OnWay self.now key.now (257 * result) }
    {
        match self.slab.get(near) {
            Some(node) if node.is_prefix_of(key) => near,
            _ => 0,
        }
    }

    /// Whether the key has the prefix of the node in a slot.
    #[inline(always)]
    fn is_prefix_of(&self, slot: usize, key: &[u8; KEY_BYTES]) -> bool
        requires { ContainsKey self.now (257 * slot) }
        ensures { result ≡ fits (heap_of self.now (257 * slot)).prefix key.now }
    {
        self.slab[slot].is_prefix_of(key)
    }

    /// Whether the node in a slot is on the key's way.
    #[inline(always)]
    fn way_below(&self, slot: usize, key: &[u8; KEY_BYTES]) -> Way<'_, P>
        requires { ContainsKey self.now (257 * slot) }
        ensures { IsWayBelow self.now key.now (257 * slot) result }
    {
        if self.is_prefix_of(slot, key) {
            Way::Below(Name::of(slot))
        } else {
            Way::Apart(Name::of(slot))
        }
    }

    /// The same, for a way that goes on by slots.
    #[inline(always)]
    fn way_on(&self, slot: usize, key: &[u8; KEY_BYTES]) -> Onward<'_, P>
        requires { ContainsKey self.now (257 * slot) }
        ensures { IsWayOn self.now key.now (257 * slot) result }
    {
        if self.is_prefix_of(slot, key) {
            Onward::Below(slot)
        } else {
            Onward::Apart(Name::of(slot))
        }
    }

    /// What hangs under the least byte from `from` on.
    #[inline(always)]
    pub(crate) fn first_from(&self, at: Name, from: usize) -> Option<(u8, Found<'_, P>)>
        requires { ContainsKey self.now at }
        ensures first { (x : Form ℕ P) → get self.now at ≡ Some x → MatchOption result ((b : ℕ) → from ≤ b → map.get (children_of x) b ≡ None)
            (λ r. IsFirst (children_of x) from r.0 (child_now r.1)) }
        ensures leaf { IfSome result (λ r. LeafStands self.now r.1) }
    {
        match at.byte {
            Some(byte) => self.first_inline(at.slot, byte, from),
            None => self.first_in_slot(at.slot, from),
        }
    }

    /// The value of a leaf in the place of its parent, if its byte isn't below `from`.
    #[inline(always)]
    fn first_inline(&self, slot: usize, byte: u8, from: usize) -> Option<(u8, Found<'_, P>)>
        requires { ContainsKey self.now (257 * slot + (byte + 1)) }
        ensures first { (x : Form ℕ P) → get self.now (257 * slot + (byte + 1)) ≡ Some x
            → MatchOption result ((b : ℕ) → from ≤ b → map.get (children_of x) b ≡ None)
            (λ r. IsFirst (children_of x) from r.0 (child_now r.1)) }
        ensures leaf { IfSome result (λ r. LeafStands self.now r.1) }
    {
        let lone = self.lone(slot, byte);
        let last = lone.key[MAX_PREFIX_LEN];
        if from <= last as usize {
            Some((last, Found::Value(lone.value)))
        } else {
            None
        }
    }

    /// What hangs under the least byte from `from` on in the node in a slot.
    #[inline(always)]
    fn first_in_slot(&self, slot: usize, from: usize) -> Option<(u8, Found<'_, P>)>
        requires { ContainsKey self.now (257 * slot) }
        ensures first { (x : Form ℕ P) → get self.now (257 * slot) ≡ Some x
            → MatchOption result ((b : ℕ) → from ≤ b → map.get (children_of x) b ≡ None)
            (λ r. IsFirst (children_of x) from r.0 (child_now r.1)) }
        ensures leaf { IfSome result (λ r. LeafStands self.now r.1) }
    {
        match &self.slab[slot] {
            Slot::Inner(n) => match n.first_from(from) {
                None => None,
                Some((byte, Hung::Blank)) => Some((byte, Found::Blank)),
                Some((byte, Hung::Node(below))) => Some((byte, Found::Node(Name::of(below)))),
                Some((byte, Hung::Leaf(lone))) => {
                    let name = Name::inline(slot, byte);
                    Some((byte, Found::Leaf(name, key_of_bytes(&lone.key), lone.value)))
                }
            },
            Slot::Leaf(n) => match n.first_from(from) {
                None => None,
                Some((byte, value)) => Some((byte, Found::Value(value))),
            },
        }
    }

    /// A node, read once.
    #[inline(always)]
    pub(crate) fn sight(&self, at: Name) -> Sight<'_, P>
        requires { ContainsKey self.now at }
        ensures { Sees self.now at result }
    {
        match at.byte {
            Some(byte) => Sight::Inline(self.lone(at.slot, byte)),
            None => match &self.slab[at.slot] {
                Slot::Inner(n) => Sight::Inner(at.slot, n),
                Slot::Leaf(n) => Sight::Leaf(key_of(n.prefix(), 0), n),
            },
        }
    }

    /// The entries from a byte on of an inner node with a prefix; none of another node.
    #[inline(always)]
    pub(crate) fn row(&self, at: Name, from: usize) -> Option<(Stem, Row<'_, P>)>
        requires { ContainsKey self.now at }
        ensures name { IfSome result (λ r. 257 * r.0.slot ≡ at) }
        ensures sees { IfSome result (λ r. SeesRow self.now r.0 from r.1) }
    {
        match at.byte {
            Some(_) => None,
            None => match &self.slab[at.slot] {
                Slot::Leaf(_) => None,
                Slot::Inner(n) => {
                    let prefix = n.prefix();
                    if prefix.len() == 0 {
                        return None;
                    }
                    let stem = Stem {
                        slot: at.slot,
                        first: prefix[0],
                    };
                    Some((stem, n.row(from)))
                }
            },
        }
    }
}
