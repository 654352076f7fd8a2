//! The changes at the end of a key's way where a value comes in or gives place to another.
ghost use Rattle.std.specs.Prelude.{◌≡◌, [], ◌∷◌, length, slice_index, ◌<◌, Some, None, IfErr, OnOk};
ghost use Rattle.slab.specs.Slab.{ContainsKey, HasRoomFor};
ghost use Rattle.congee.specs.Heap.{Nothing, child_for};
ghost use Rattle.congee.specs.forms.Forms.{size_of};
ghost use Rattle.congee.specs.owned.Arena.{IsTree, OnWay, Hangs, heap_of};
ghost use Rattle.congee.specs.owned.Charge.{Covers};
ghost use Rattle.congee.specs.owned.Edits.{Adds, Denies, ForksOff, Swaps};
ghost use Rattle.congee.specs.owned.Naming.{HasOwnSlot};
ghost use Rattle.congee.specs.owned.OwnedSteps.{IsHeld};
ghost use Rattle.congee.specs.owned.Place.{IsOpen, PartsAt};
ghost use Rattle.congee.specs.owned.Renames.{Renamed};
ghost use Rattle.congee.specs.owned.Wanted.{room_for, free_wants, wants_at};
ghost use Rattle.congee.specs.declared.forms.base_node.NodeType.TheVariants.{N4};
ghost use Rattle.congee.specs.declared.forms.prefix.TheConstants.{MAX_PREFIX_LEN};

use crate::allocator::{Allocator, OOMError};
use crate::forms::base_node::NodeType;
use crate::forms::prefix::MAX_PREFIX_LEN;
use crate::keys::KEY_BYTES;
use crate::owned::arena::{Arena, Stored};
use crate::owned::inline_leaf::Lone;
use crate::owned::names::Name;
use crate::owned::prefix_split::Parting;
use std::alloc::Global;

impl<P: Stored, A: Allocator> Arena<P, A> {
    /// The key's byte at a node.
    #[inline(always)]
    pub(crate) fn byte_at(&self, at: Name, key: &[u8; KEY_BYTES]) -> u8
        requires { ContainsKey self.now.nodes at }
        ensures { result ≡ slice_index key.now (length (heap_of self.now.nodes at).prefix) }
    {
        key[self.nodes.prefix_len(at)]
    }

    /// Puts another value in the place of the key's.
    #[inline(always)]
    pub(crate) fn replace(&mut self, at: Name, key: &[u8; KEY_BYTES], value: P) -> P
        requires tree { IsTree self.old.nodes }
        requires way { OnWay self.old.nodes key.now at }
        requires held { IsHeld self.old.nodes key.now at }
        ensures { Swaps self.old self.new key.now (Some result) (Some value) }
    {
        let byte = self.byte_at(at, key);
        self.nodes.swap_value(at, byte, value)
    }

    /// Puts a value into a leaf with a slot of its own that has none for the key, or hands it back.
    fn add_beside(
        &mut self,
        alloc: Global,
        at: Name,
        key: &[u8; KEY_BYTES],
        value: P,
    ) -> Result<(), (OOMError, P)>
        requires own { HasOwnSlot at }
        requires tree { IsTree self.old.nodes }
        requires way { OnWay self.old.nodes key.now at }
        requires free { child_for (heap_of self.old.nodes at) key.now ≡ Nothing }
        requires leaf { length (heap_of self.old.nodes at).prefix ≡ MAX_PREFIX_LEN }
        requires covered { Covers A.charged_of self.old }
        ensures adds { OnOk result (Adds A.charged_of A.limit_of self.old self.new
            key.now None value (Some (room_for (heap_of self.old.nodes at)))) }
        ensures refused { IfErr result (Denies A.charged_of A.limit_of self.old self.new
            key.now value (Some (room_for (heap_of self.old.nodes at)))) }
    {
        if let Err(e) = self.make_room(alloc, at) {
            return Err((e, value));
        }
        let byte = self.byte_at(at, key);
        self.nodes.hang_value(at, byte, value);
        Ok(())
    }

    /// Puts a value into a leaf that has none for the key, or hands it back. One that lies in its parent's place takes a slot of
    /// its own: it has room for another value, so that is never refused.
    pub(crate) fn add_value(
        &mut self,
        alloc: Global,
        above: Name,
        at: Name,
        key: &[u8; KEY_BYTES],
        value: P,
    ) -> Result<(), (OOMError, P)>
        requires tree { IsTree self.old.nodes }
        requires way { OnWay self.old.nodes key.now at }
        requires hangs { (HasOwnSlot at → ⊥) → Hangs self.old.nodes key.now above at }
        requires free { child_for (heap_of self.old.nodes at) key.now ≡ Nothing }
        requires leaf { length (heap_of self.old.nodes at).prefix ≡ MAX_PREFIX_LEN }
        requires covered { Covers A.charged_of self.old }
        ensures adds { OnOk result (Adds A.charged_of A.limit_of self.old self.new
            key.now None value (Some (room_for (heap_of self.old.nodes at)))) }
        ensures refused { IfErr result (Denies A.charged_of A.limit_of self.old self.new
            key.now value (Some (room_for (heap_of self.old.nodes at)))) }
    {
        if at.is_inline() {
            let up = self.byte_at(above, key);
            let leaf = self.nodes.unfold(above, up);
            return self.add_beside(alloc, leaf, key, value);
        }
        self.add_beside(alloc, at, key, value)
    }

    /// Hangs a leaf for the key below an inner node that has nothing for it, or hands the value back.
    #[inline(always)]
    pub(crate) fn add_leaf(
        &mut self,
        alloc: Global,
        at: Name,
        key: &[u8; KEY_BYTES],
        value: P,
    ) -> Result<(), (OOMError, P)>
        requires tree { IsTree self.old.nodes }
        requires way { OnWay self.old.nodes key.now at }
        requires free { child_for (heap_of self.old.nodes at) key.now ≡ Nothing }
        requires inner { length (heap_of self.old.nodes at).prefix < MAX_PREFIX_LEN }
        requires covered { Covers A.charged_of self.old }
        ensures adds { OnOk result (Adds A.charged_of A.limit_of self.old self.new
            key.now None value (Some (size_of N4 ∷ room_for (heap_of self.old.nodes at)))) }
        ensures refused { IfErr result (Denies A.charged_of A.limit_of self.old self.new
            key.now value (Some (size_of N4 ∷ room_for (heap_of self.old.nodes at)))) }
    {
        if let Err(e) = self.ready(1) {
            return Err((e, value));
        }
        if let Err(e) = self.make_room(alloc, at) {
            self.allocator.deallocate(NodeType::N4.size());
            return Err((e, value));
        }
        let byte = self.byte_at(at, key);
        self.nodes.hang_leaf(at, byte, key, value);
        Ok(())
    }

    /// Puts a value into a leaf that is open for the key, which asks for no node.
    #[inline(always)]
    pub(crate) fn add_here(&mut self, at: Name, key: &[u8; KEY_BYTES], value: P)
        requires own { HasOwnSlot at }
        requires tree { IsTree self.old.nodes }
        requires open { IsOpen self.old.nodes key.now at }
        ensures { Adds A.charged_of A.limit_of self.old self.new
            key.now None value (wants_at (heap_of self.old.nodes) key.now) }
    {
        let byte = key[MAX_PREFIX_LEN];
        self.nodes.hang_value(at, byte, value);
    }

    /// Puts a value in below a node that has nothing for the key, or hands it back.
    #[inline(always)]
    pub(crate) fn add(
        &mut self,
        alloc: Global,
        above: Name,
        at: Name,
        key: &[u8; KEY_BYTES],
        value: P,
    ) -> Result<(), (OOMError, P)>
        requires tree { IsTree self.old.nodes }
        requires way { OnWay self.old.nodes key.now at }
        requires hangs { (HasOwnSlot at → ⊥) → Hangs self.old.nodes key.now above at }
        requires free { child_for (heap_of self.old.nodes at) key.now ≡ Nothing }
        requires covered { Covers A.charged_of self.old }
        ensures adds { OnOk result (Adds A.charged_of A.limit_of self.old self.new
            key.now None value (Some (free_wants (heap_of self.old.nodes at)))) }
        ensures refused { IfErr result (Denies A.charged_of A.limit_of self.old self.new
            key.now value (Some (free_wants (heap_of self.old.nodes at)))) }
    {
        if self.nodes.is_leaf(at) {
            self.add_value(alloc, above, at, key, value)
        } else {
            self.add_leaf(alloc, at, key, value)
        }
    }

    /// Puts a leaf of the least form with one value into its parent's place; any other stays in its slot.
    #[inline(always)]
    pub(crate) fn tuck(&mut self, above: Name, at: Name, key: &[u8; KEY_BYTES])
        requires own { HasOwnSlot at }
        requires tree { IsTree self.old.nodes }
        requires hangs { Hangs self.old.nodes key.now above at }
        requires leaf { length (heap_of self.old.nodes at).prefix ≡ MAX_PREFIX_LEN }
        ensures renamed { Renamed self.old.nodes self.new.nodes }
        ensures allocator { self.new.allocator ≡ self.old.allocator }
    {
        if self.nodes.node_type(at) != NodeType::N4 || self.nodes.len(at) != 1 {
            return;
        }
        let up = self.byte_at(above, key);
        self.nodes.fold(above, up, at);
    }

    /// Hangs a node of the bytes that the key shares with the child `below` over that child and a leaf for the key.
    fn fork(&mut self, at: Name, below: Name, key: &[u8; KEY_BYTES], value: P)
        requires tree { IsTree self.old.nodes }
        requires parts { PartsAt self.old.nodes key.now at below }
        requires own { HasOwnSlot below }
        requires room { HasRoomFor self.old.nodes 2 }
        ensures { ForksOff self.old self.new key.now value }
    {
        let Parting { place, other } = self.nodes.parting(below, key);
        let over = self.nodes.make(&key[..place]);
        self.nodes.hang_leaf(over, key[place], key, value);
        self.nodes.hang_node(over, other, below);
        let up = self.byte_at(at, key);
        self.nodes.swap_node(at, up, over);
    }

    /// The same over a leaf that lies in its parent's place: the new node comes there, and the leaf into a place of that one.
    fn fork_leaf(&mut self, at: Name, below: Name, key: &[u8; KEY_BYTES], value: P)
        requires tree { IsTree self.old.nodes }
        requires parts { PartsAt self.old.nodes key.now at below }
        requires inline { HasOwnSlot below → ⊥ }
        requires room { HasRoomFor self.old.nodes 2 }
        ensures { ForksOff self.old self.new key.now value }
    {
        let up = self.byte_at(at, key);
        let Parting { place, other } = self.nodes.parting(below, key);
        let over = self.nodes.make(&key[..place]);
        self.nodes.hang_leaf(over, key[place], key, value);
        let Lone {
            key: beside,
            value: held,
        } = self.nodes.cover_leaf(at, up, over);
        self.nodes.hang_leaf(over, other, &beside, held);
    }

    /// Hangs a node of the bytes that the key shares with the child `below` over that child and a leaf for the key,
    /// or hands the value back.
    pub(crate) fn split(
        &mut self,
        at: Name,
        below: Name,
        key: &[u8; KEY_BYTES],
        value: P,
    ) -> Result<(), (OOMError, P)>
        requires tree { IsTree self.old.nodes }
        requires parts { PartsAt self.old.nodes key.now at below }
        requires stands { ContainsKey self.old.nodes below }
        ensures adds { OnOk result (Adds A.charged_of A.limit_of self.old self.new
            key.now None value (Some (size_of N4 ∷ size_of N4 ∷ []))) }
        ensures refused { IfErr result (Denies A.charged_of A.limit_of self.old self.new
            key.now value (Some (size_of N4 ∷ size_of N4 ∷ []))) }
    {
        if let Err(e) = self.ready(1) {
            return Err((e, value));
        }
        if let Err(e) = self.ready(2) {
            self.allocator.deallocate(NodeType::N4.size());
            return Err((e, value));
        }
        if below.is_inline() {
            self.fork_leaf(at, below, key, value);
        } else {
            self.fork(at, below, key, value);
        }
        Ok(())
    }
}
