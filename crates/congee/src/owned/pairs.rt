//! The calls on an arena as those on a map.
ghost use Rattle.std.specs.Prelude.{◌≡◌, ◌+◌, ◌*◌, ◌≤◌, ◌^◌, ℕ, false, List, Option, None, Some, IfOk, IfErr, OnOk};
ghost use Rattle.std.specs.Option.{option_copied};
ghost use Rattle.congee.specs.Heap.{value_at};
ghost use Rattle.congee.specs.forms.Forms.{size_of};
ghost use Rattle.congee.specs.declared.forms.base_node.NodeType.TheVariants.{N256};
ghost use Rattle.congee.specs.owned.Arena.{IsTree, heap_of};
ghost use Rattle.congee.specs.owned.Full.{NodesFilled, lacking_of};
ghost use Rattle.congee.specs.owned.Keyed.{IsKeyed};
ghost use Rattle.congee.specs.owned.Levels.{nodes_of};
ghost use Rattle.congee.specs.owned.Charge.{Covers};
ghost use Rattle.congee.specs.owned.Counted.{IsCounted, one_if};
ghost use Rattle.congee.specs.owned.Edits.{Adds, Denies, Frees};
ghost use Rattle.congee.specs.owned.Going.{goes_at, going_by};
ghost use Rattle.congee.specs.owned.Sizes.{bytes_of};
ghost use Rattle.congee.specs.owned.Stats.{root_alone};
ghost use Rattle.congee.specs.owned.OwnedSteps.{IsRefusal, settled};
ghost use Rattle.congee.specs.owned.Place.{Ends, IsOpen};
ghost use Rattle.congee.specs.owned.Wanted.{WantsLeaf, wants_at, wants_of};

use crate::allocator::{Allocator, OOMError};
use crate::forms::base_node::NodeType;
use crate::keys::{KEY_BYTES, key_of_bytes};
use crate::owned::arena::{Arena, Stored};
use crate::owned::inner::Inner;
use crate::owned::names::Name;
use crate::owned::nodes::Nodes;
use crate::owned::place::{Onward, Place, Spot};
use std::alloc::Global;

/// How many pairs there are once one comes in at a key that had this value.
#[inline(always)]
fn counted_in<P>(pairs: u128, before: &Option<P>) -> u128
    requires { pairs ≤ 2 ^ 64 }
    ensures { result + one_if before.now ≡ pairs + 1 }
{
    match before {
        Some(_) => pairs,
        None => pairs + 1,
    }
}

/// How many there are once a key that had this value has none.
#[inline(always)]
fn counted_out<P>(pairs: u128, before: &Option<P>) -> u128
    requires { one_if before.now ≤ pairs }
    ensures { result + one_if before.now ≡ pairs }
{
    match before {
        Some(_) => pairs - 1,
        None => pairs,
    }
}

impl<P: Stored, A: Allocator> Arena<P, A> {
    /// A root alone, charged to the allocator.
    pub(crate) fn new(alloc: Global, allocator: A) -> Result<Self, OOMError>
        ensures tree { IfOk result (λ t. IsTree t.nodes) }
        ensures empty { IfOk result (λ t. (key : List ℕ) → value_at (heap_of t.nodes) key ≡ None) }
        ensures nodes { IfOk result (λ t. nodes_of t.nodes ≡ root_alone) }
        ensures wants { IfOk result (λ t. WantsLeaf (wants_of t.nodes)) }
        ensures bytes { IfOk result (λ t. bytes_of t.nodes ≡ size_of N256) }
        ensures filled { IfOk result (λ t. lacking_of t.nodes ≡ 0) }
        ensures branch { IfOk result (λ t. NodesFilled false t.nodes) }
        ensures keyed { IfOk result (λ t. IsKeyed t.nodes) }
        ensures counted { IfOk result (λ t. IsCounted t) }
        ensures charged { IfOk result (λ t. A.charged_of t.allocator ≡ A.charged_of allocator + size_of N256) }
        ensures limit { IfOk result (λ t. A.limit_of t.allocator ≡ A.limit_of allocator) }
        ensures refused { IfErr result (λ e. IsRefusal (A.charged_of allocator) (size_of N256) (A.limit_of allocator) e) }
    {
        let mut allocator = allocator;
        allocator.allocate(NodeType::N256.size())?;
        let Ok(root) = Inner::new(alloc, NodeType::N256, &[]) else {
            return Err(OOMError::Memory);
        };
        match Nodes::new(alloc, root) {
            Ok(nodes) => Ok(Arena {
                nodes,
                allocator,
                pairs: 0,
            }),
            Err(_) => Err(OOMError::Memory),
        }
    }

    /// The value at a key.
    pub(crate) fn get(&self, key: &[u8; KEY_BYTES]) -> Option<&P>
        requires { IsTree self.now.nodes }
        ensures { option_copied result ≡ value_at (heap_of self.now.nodes) key.now }
    {
        let mut at = 0;
        loop {
            match self.nodes.look_on(at, key) {
                Onward::Free => return None,
                Onward::Apart(_) => return None,
                Onward::FreeBelow(_) => return None,
                Onward::Held(value) => return Some(value),
                Onward::HeldBelow(_, value) => return Some(value),
                Onward::Below(below) => at = below,
            }
        }
    }

    /// Puts a value at the end of a key's way, and gives the one before. A refused value comes back. The caller counts.
    #[inline(always)]
    fn put(
        &mut self,
        alloc: Global,
        place: Place,
        key: &[u8; KEY_BYTES],
        value: P,
    ) -> Result<Option<P>, (OOMError, P)>
        requires tree { IsTree self.old.nodes }
        requires ends { Ends self.old.nodes key.now place }
        requires covered { Covers A.charged_of self.old }
        ensures adds { IfOk result (λ before. Adds A.charged_of A.limit_of self.old self.new
            key.now before value (wants_at (heap_of self.old.nodes) key.now)) }
        ensures refused { IfErr result (Denies A.charged_of A.limit_of self.old self.new
            key.now value (wants_at (heap_of self.old.nodes) key.now)) }
    {
        let Place {
            above,
            at,
            spot,
            ..
        } = place;
        match spot {
            Spot::Held => Ok(Some(self.replace(at, key, value))),
            Spot::Free => {
                self.add(alloc, above, at, key, value)?;
                Ok(None)
            }
            Spot::Apart(below) => {
                self.split(at, below, key, value)?;
                Ok(None)
            }
        }
    }

    /// Takes a key's value out, and what goes with it. The caller counts.
    #[inline(always)]
    fn pull(&mut self, alloc: Global, key: &[u8; KEY_BYTES]) -> Option<P>
        requires tree { IsTree self.old.nodes }
        requires covered { Covers A.charged_of self.old }
        ensures { Frees A.charged_of A.limit_of self.old self.new
            key.now result None (goes_at (heap_of self.old.nodes) key.now) }
    {
        let place = self.locate(key);
        match place.spot {
            Spot::Held => Some(self.take(alloc, &place, key)),
            Spot::Free => None,
            Spot::Apart(_) => None,
        }
    }

    /// Where the key has a value, puts the new one in its place, and gives the one before. The caller counts.
    #[inline(always)]
    fn change(&mut self, key: &[u8; KEY_BYTES], value: P) -> Option<P>
        requires tree { IsTree self.old.nodes }
        requires covered { Covers A.charged_of self.old }
        ensures { Frees A.charged_of A.limit_of self.old self.new
            key.now result (settled result (Some value)) (going_by (Some value) (goes_at (heap_of self.old.nodes) key.now)) }
    {
        let place = self.locate(key);
        match place.spot {
            Spot::Held => Some(self.replace(place.at, key, value)),
            Spot::Free => None,
            Spot::Apart(_) => None,
        }
    }

    /// The same, and it counts.
    #[inline(always)]
    fn insert_at(
        &mut self,
        alloc: Global,
        place: Place,
        key: &[u8; KEY_BYTES],
        value: P,
    ) -> Result<Option<P>, (OOMError, P)>
        requires tree { IsTree self.old.nodes }
        requires ends { Ends self.old.nodes key.now place }
        requires covered { Covers A.charged_of self.old }
        requires counted { IsCounted self.old }
        ensures adds { IfOk result (λ before. Adds A.charged_of A.limit_of self.old self.new
            key.now before value (wants_at (heap_of self.old.nodes) key.now)) }
        ensures refused { IfErr result (Denies A.charged_of A.limit_of self.old self.new
            key.now value (wants_at (heap_of self.old.nodes) key.now)) }
        ensures counted { IsCounted self.new }
    {
        // Its bytes are those of a number.
        let _number = key_of_bytes(key);
        let pairs = self.pairs;
        match self.put(alloc, place, key, value) {
            Ok(before) => {
                self.pairs = counted_in(pairs, &before);
                Ok(before)
            }
            Err(refused) => {
                self.pairs = pairs;
                Err(refused)
            }
        }
    }

    /// Puts a value at a key, and gives the one before. A refused value comes back.
    pub(crate) fn insert(
        &mut self,
        alloc: Global,
        key: &[u8; KEY_BYTES],
        value: P,
    ) -> Result<Option<P>, (OOMError, P)>
        requires tree { IsTree self.old.nodes }
        requires covered { Covers A.charged_of self.old }
        requires counted { IsCounted self.old }
        ensures adds { IfOk result (λ before. Adds A.charged_of A.limit_of self.old self.new
            key.now before value (wants_at (heap_of self.old.nodes) key.now)) }
        ensures refused { IfErr result (Denies A.charged_of A.limit_of self.old self.new
            key.now value (wants_at (heap_of self.old.nodes) key.now)) }
        ensures counted { IsCounted self.new }
    {
        let place = self.locate(key);
        self.insert_at(alloc, place, key, value)
    }

    /// The same, from the slot where the way of the key before ended, if its node is on this key's way. Tells where this one ended.
    #[inline(always)]
    pub(crate) fn insert_near(
        &mut self,
        alloc: Global,
        near: usize,
        key: &[u8; KEY_BYTES],
        value: P,
    ) -> Result<usize, (OOMError, P)>
        requires tree { IsTree self.old.nodes }
        requires covered { Covers A.charged_of self.old }
        requires counted { IsCounted self.old }
        ensures adds { OnOk result ((before : Option P) × Adds A.charged_of A.limit_of self.old self.new
            key.now before value (wants_at (heap_of self.old.nodes) key.now)) }
        ensures refused { IfErr result (Denies A.charged_of A.limit_of self.old self.new
            key.now value (wants_at (heap_of self.old.nodes) key.now)) }
        ensures counted { IsCounted self.new }
    {
        if self.nodes.is_open(near, key) {
            self.insert_here(near, key, value);
            return Ok(near);
        }
        self.insert_from(alloc, near, key, value)
    }

    /// The same where that is no open leaf of the key's.
    #[inline(never)]
    fn insert_from(
        &mut self,
        alloc: Global,
        near: usize,
        key: &[u8; KEY_BYTES],
        value: P,
    ) -> Result<usize, (OOMError, P)>
        requires tree { IsTree self.old.nodes }
        requires covered { Covers A.charged_of self.old }
        requires counted { IsCounted self.old }
        ensures adds { OnOk result ((before : Option P) × Adds A.charged_of A.limit_of self.old self.new
            key.now before value (wants_at (heap_of self.old.nodes) key.now)) }
        ensures refused { IfErr result (Denies A.charged_of A.limit_of self.old self.new
            key.now value (wants_at (heap_of self.old.nodes) key.now)) }
        ensures counted { IsCounted self.new }
    {
        let from = self.nodes.way_from(near, key);
        let place = self.locate_from(from, key);
        let slot = place.at.slot;
        self.insert_at(alloc, place, key, value)?;
        Ok(slot)
    }

    /// Puts a value into the leaf in a slot, which is open for the key.
    #[inline(always)]
    fn insert_here(&mut self, slot: usize, key: &[u8; KEY_BYTES], value: P)
        requires tree { IsTree self.old.nodes }
        requires open { IsOpen self.old.nodes key.now (257 * slot) }
        requires counted { IsCounted self.old }
        ensures adds { Adds A.charged_of A.limit_of self.old self.new
            key.now None value (wants_at (heap_of self.old.nodes) key.now) }
        ensures counted { IsCounted self.new }
    {
        // Its bytes are those of a number.
        let _number = key_of_bytes(key);
        let pairs = counted_in::<P>(self.pairs, &None);
        self.add_here(Name::of(slot), key, value);
        self.pairs = pairs;
    }

    /// Takes a key's value out, and what goes with it.
    pub(crate) fn remove(&mut self, alloc: Global, key: &[u8; KEY_BYTES]) -> Option<P>
        requires tree { IsTree self.old.nodes }
        requires covered { Covers A.charged_of self.old }
        requires counted { IsCounted self.old }
        ensures frees { Frees A.charged_of A.limit_of self.old self.new
            key.now result None (goes_at (heap_of self.old.nodes) key.now) }
        ensures counted { IsCounted self.new }
    {
        // Its bytes are those of a number.
        let _number = key_of_bytes(key);
        let pairs = self.pairs;
        let before = self.pull(alloc, key);
        self.pairs = counted_out(pairs, &before);
        before
    }

    /// Where the key has a value, puts the new one in its place or takes it out, and gives the one before.
    pub(crate) fn settle(
        &mut self,
        alloc: Global,
        key: &[u8; KEY_BYTES],
        new: Option<P>,
    ) -> Option<P>
        requires tree { IsTree self.old.nodes }
        requires covered { Covers A.charged_of self.old }
        requires counted { IsCounted self.old }
        ensures frees { Frees A.charged_of A.limit_of self.old self.new
            key.now result (settled result new) (going_by new (goes_at (heap_of self.old.nodes) key.now)) }
        ensures counted { IsCounted self.new }
    {
        let value = match new {
            None => return self.remove(alloc, key),
            Some(value) => value,
        };
        // Its bytes are those of a number.
        let _number = key_of_bytes(key);
        let pairs = self.pairs;
        let before = self.change(key, value);
        self.pairs = pairs;
        before
    }
}
