//! The nodes of an owned tree: the way of a key, and the changes of single nodes.
ghost use Rattle.std.specs.Prelude.{◌≡◌, ◌+◌, ◌*◌, ℕ, ◌≤◌, Option, Some, IsSome, IfErr, OnOk, OnErr};
ghost use Rattle.std.specs.Option.{option_copied};
ghost use Rattle.slab.specs.Slab.{get, ContainsKey, HasRoomFor};

use crate::allocator::{Allocator, OOMError};
use crate::forms::base_node::NodeType;
use crate::forms::child::Small;
use crate::keys::KEY_BYTES;
use crate::owned::names::Name;
use crate::owned::nodes::Nodes;
use crate::owned::place::{Onward, Place, Spot};
use std::alloc::Global;

/// What an owned tree holds, and what a leaf with a slot of its own keeps of it in a place.
pub trait Stored: Small {
    ghost use denote.Param.{layout};
    ghost use prog.Memory.{size};
    ghost use Rattle.std.specs.Prelude.{◌<◌, ◌^◌};
    ghost use Rattle.congee.specs.owned.ValueRoom.{node_ty, slot_ty};

    /// A value, or a default where no byte uses the place.
    type Kept: Default + Small;

    ghost value_in: { Self.Kept → Option Self };

    /// The value as a place keeps it.
    fn keep(self) -> Self::Kept
        ensures { value_in result ≡ Some self };

    /// The value that a place kept.
    fn give(kept: Self::Kept) -> Self
        requires { IsSome (value_in kept) }
        ensures { value_in kept ≡ Some result };

    /// The value that a place keeps, where it lies.
    fn look(kept: &Self::Kept) -> Option<&Self>
        ensures { option_copied result ≡ value_in kept.now };

    ghost leaf_fits: { size (node_ty (layout Self.Kept.row)) < 2 ^ 63 };

    ghost fits: { size (slot_ty (layout Self.row) (layout Self.Kept.row)) < 2 ^ 63 };
}

/// The nodes of a tree by their names, the root's is 0, the budget that they are charged to, and how many pairs they hold. There can
/// be 2^64 of these.
#[derive(Drop)]
pub struct Arena<P: Stored, A> {
    pub nodes: Nodes<P>,
    pub allocator: A,
    pub pairs: u128,
}

impl<P: Stored, A: Allocator> Arena<P, A> {
    ghost use Rattle.congee.specs.owned.Place.{Ends, Located};
    ghost use Rattle.congee.specs.owned.Arena.{IsTree, OnWay};

    /// The end of a key's way from the root.
    #[inline(always)]
    pub(crate) fn locate(&self, key: &[u8; KEY_BYTES]) -> Place
        requires { IsTree self.now.nodes }
        ensures { Located self.now.nodes key.now result }
    {
        let mut top = 0;
        let mut above = 0;
        let mut at = 0;
        loop {
            match self.nodes.look_on(at, key) {
                Onward::Free => return Place::ending(top, above, Name::of(at), Spot::Free),
                Onward::Held(_) => return Place::ending(top, above, Name::of(at), Spot::Held),
                Onward::FreeBelow(leaf) => return Place::ending(above, at, leaf, Spot::Free),
                Onward::HeldBelow(leaf, _) => return Place::ending(above, at, leaf, Spot::Held),
                Onward::Apart(name) => return Place::ending(
                    top,
                    above,
                    Name::of(at),
                    Spot::Apart(name),
                ),
                Onward::Below(below) => {
                    top = above;
                    above = at;
                    at = below;
                }
            }
        }
    }

    /// The end of a key's way, from a slot on whose node is on it.
    #[inline(always)]
    pub(crate) fn locate_from(&self, from: usize, key: &[u8; KEY_BYTES]) -> Place
        requires tree { IsTree self.now.nodes }
        requires way { OnWay self.now.nodes key.now (257 * from) }
        ensures { Ends self.now.nodes key.now result }
    {
        let mut at = from;
        loop {
            match self.nodes.look_on(at, key) {
                Onward::Free => return Place::ending(at, at, Name::of(at), Spot::Free),
                Onward::Held(_) => return Place::ending(at, at, Name::of(at), Spot::Held),
                Onward::FreeBelow(leaf) => return Place::ending(at, at, leaf, Spot::Free),
                Onward::HeldBelow(leaf, _) => return Place::ending(at, at, leaf, Spot::Held),
                Onward::Apart(name) => return Place::ending(
                    at,
                    at,
                    Name::of(at),
                    Spot::Apart(name),
                ),
                Onward::Below(below) => at = below,
            }
        }
    }
}

impl<P: Stored, A: Allocator> Arena<P, A> {
    ghost use Rattle.congee.specs.forms.Forms.{size_of};
    ghost use Rattle.congee.specs.owned.Arena.{heap_of};
    ghost use Rattle.congee.specs.owned.OwnedSteps.{MakesRoom, SameNodes, IsRefusal};
    ghost use Rattle.congee.specs.owned.Charge.{Affords, Balances, Covers, Grows, IsRefusedBy, KeepsLimit};
    ghost use Rattle.congee.specs.owned.Wanted.{room_for};
    ghost use Rattle.congee.specs.declared.forms.base_node.Node.{Node as Form};
    ghost use Rattle.congee.specs.declared.forms.base_node.NodeType.TheVariants.{N4};

    /// Charges for a least node, and makes room for so many nodes.
    #[inline(always)]
    pub(crate) fn ready(&mut self, room: usize) -> Result<(), OOMError>
        ensures same { SameNodes self.old.nodes self.new.nodes }
        ensures room { OnOk result (HasRoomFor self.new.nodes room) }
        ensures charge { OnOk result (A.charged_of self.new.allocator ≡ A.charged_of self.old.allocator + size_of N4) }
        ensures fits { OnOk result (A.charged_of self.old.allocator + size_of N4 ≤ A.limit_of self.old.allocator) }
        ensures unchanged { OnErr result (A.charged_of self.new.allocator ≡ A.charged_of self.old.allocator) }
        ensures limit { KeepsLimit A.limit_of self.old self.new }
        ensures refused { IfErr result (λ e. IsRefusal (A.charged_of self.old.allocator) (size_of N4) (A.limit_of self.old.allocator) e) }
    {
        self.allocator.allocate(NodeType::N4.size())?;
        if self.nodes.reserve(room).is_err() {
            self.allocator.deallocate(NodeType::N4.size());
            return Err(OOMError::Memory);
        }
        Ok(())
    }

    /// Gives a node room for one more child: a full one takes its next form, which is charged before the old one is taken off.
    #[inline(always)]
    pub(crate) fn make_room(&mut self, alloc: Global, at: Name) -> Result<(), OOMError>
        requires stands { ContainsKey self.old.nodes at }
        requires covered { Covers A.charged_of self.old }
        ensures grows { OnOk result ((x : Form ℕ P) → get self.old.nodes at ≡ Some x → MakesRoom self.old.nodes self.new.nodes at x) }
        ensures same { OnErr result (SameNodes self.old.nodes self.new.nodes) }
        ensures balance { Balances A.charged_of self.old self.new }
        ensures limit { KeepsLimit A.limit_of self.old self.new }
        ensures refused { IfErr result (λ e. IsRefusedBy A.charged_of A.limit_of self.old (room_for (heap_of self.old.nodes at)) e) }
        ensures fits { OnOk result (Affords A.charged_of A.limit_of self.old (room_for (heap_of self.old.nodes at))) }
        ensures grown { OnOk result (Grows self.old self.new (room_for (heap_of self.old.nodes at))) }
        ensures keeps { (n : ℕ) → HasRoomFor self.old.nodes n → HasRoomFor self.new.nodes n }
    {
        if !self.nodes.is_full(at) {
            return Ok(());
        }
        let form = self.nodes.node_type(at);
        let next = form.next();
        self.allocator.allocate(next.size())?;
        if self.nodes.grow(alloc, at).is_err() {
            self.allocator.deallocate(next.size());
            return Err(OOMError::Memory);
        }
        self.allocator.deallocate(form.size());
        Ok(())
    }
}

impl Stored for u64 {
    ghost use Rattle.std.proofs.Common.{rules};

    type Kept = u64;

    ghost value_in = { λ kept. Some kept };

    #[inline(always)]
    fn keep(self) -> u64 {
        self
    }

    #[inline(always)]
    fn give(kept: u64) -> u64 {
        kept
    }

    #[inline(always)]
    fn look(kept: &u64) -> Option<&u64> {
        Some(kept)
    }

    ghost leaf_fits = { Prim.search rules };

    ghost fits = { Prim.search rules };
}
