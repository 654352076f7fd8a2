//! A removal at the end of a key's way, and what goes with the value: a leaf that it leaves empty, and then a node above that is
//! left with one child, which moves up. A node that is left with few children gives place to one of a lesser form.
ghost use Rattle.std.specs.Prelude.{◌≡◌, ◌≢◌, ◌+◌, ◌<◌, ◌≤◌, ◌↔◌, ℕ, Bool, IsTrue, Some, None, true, false};
ghost use Rattle.std.specs.FinMap as map;
ghost use Rattle.slab.specs.Slab.{get, ContainsKey};
ghost use Rattle.congee.specs.forms.Forms.{capacity_of, children_of, form_of, size_of};
ghost use Rattle.congee.specs.protocol.Steps.{form_below, shrinks};
ghost use Rattle.congee.specs.owned.Arena.{IsTree, OnWay, Hangs, heap_of};
ghost use Rattle.congee.specs.owned.Charge.{Covers, KeepsLimit};
ghost use Rattle.congee.specs.owned.Edits.{Drops, Frees};
ghost use Rattle.congee.specs.owned.Full.{FilledIn, NodesFilled, OthersFilled, places_for};
ghost use Rattle.congee.specs.owned.Going.{goes_at, going_last, going_one, lesser_if};
ghost use Rattle.congee.specs.owned.Lesser.{Charges, Lessens, LosesChild, SameMap};
ghost use Rattle.congee.specs.owned.Naming.{HasOwnSlot};
ghost use Rattle.congee.specs.owned.OwnedSteps.{IsHeld};
ghost use Rattle.congee.specs.owned.Place.{Located};
ghost use Rattle.congee.specs.owned.Sizes.{bytes_of};
ghost use Rattle.congee.specs.declared.forms.base_node.Node.{Node as Form};
ghost use Rattle.congee.specs.declared.forms.base_node.NodeType.TheVariants.{N4};

use crate::allocator::Allocator;
use crate::forms::base_node::NodeType;
use crate::keys::KEY_BYTES;
use crate::owned::arena::{Arena, Stored};
use crate::owned::names::Name;
use crate::owned::place::{Place, Spot};
use std::alloc::Global;

/// Whether a node of the form with so many children gives place to a lesser one as it loses one.
#[inline(always)]
fn is_small(form: NodeType, count: usize) -> bool
    ensures { result ≡ shrinks form count }
{
    match form {
        NodeType::N4 => false,
        NodeType::N16 => count <= 4,
        NodeType::N48 => count <= 13,
        NodeType::N256 => count <= 41,
    }
}

/// Whether a leaf of the form with so many values stays as it is as it loses one: two are left, and it gives place to no lesser
/// form.
#[inline(always)]
fn stays_as_is(form: NodeType, count: usize) -> bool
    ensures { IsTrue result ↔ ((2 < count) × (shrinks form count ≡ false)) }
{
    count > 2 && !is_small(form, count)
}

/// Charges for the form below of a node that is about to lose one of so many children, if it gives place to that one and the
/// budget has room.
#[inline(always)]
fn charges_lesser<A: Allocator>(allocator: &mut A, form: NodeType, count: usize) -> bool
    ensures { Charges A.charged_of A.limit_of allocator.old allocator.new (lesser_if (shrinks form count) form) result }
{
    is_small(form, count) && allocator.allocate(form.below().size()).is_ok()
}

impl<P: Stored, A: Allocator> Arena<P, A> {
    /// A node gives place to one of the form below, which is charged already. Where memory is refused it stays, and that charge
    /// is taken off.
    fn lessen(&mut self, alloc: Global, at: Name)
        requires tree { IsTree self.old.nodes }
        requires stands { ContainsKey self.old.nodes at }
        requires below { at ≢ 0 }
        requires greater { (x : Form ℕ P) → get self.old.nodes at ≡ Some x → form_of x ≢ N4 }
        requires room { (x : Form ℕ P) → get self.old.nodes at ≡ Some x → map.len (children_of x) ≤ capacity_of (form_below (form_of x)) }
        requires covered { (x : Form ℕ P) → get self.old.nodes at ≡ Some x
            → bytes_of self.old.nodes + size_of (form_below (form_of x)) ≤ A.charged_of self.old.allocator }
        ensures same { SameMap self.old.nodes self.new.nodes }
        ensures lessens { (x : Form ℕ P) → get self.old.nodes at ≡ Some x → Lessens A.charged_of self.old self.new (form_of x) }
        ensures filled { (by_form : Bool) (x : Form ℕ P) → get self.old.nodes at ≡ Some x
            → OthersFilled by_form self.old.nodes at → FilledIn (places_for by_form (form_below (form_of x))) x
            → (by_form ≡ true → bytes_of self.new.nodes + size_of (form_of x) ≡ bytes_of self.old.nodes + size_of (form_below (form_of x)))
            → NodesFilled by_form self.new.nodes }
        ensures limit { KeepsLimit A.limit_of self.old self.new }
    {
        let form = self.nodes.node_type(at);
        if self.nodes.shrink(alloc, at).is_err() {
            self.allocator.deallocate(form.below().size());
            return;
        }
        self.allocator.deallocate(form.size());
    }

    /// Takes a value out of a leaf that has others and gives place to no lesser form: all else stays.
    #[inline(always)]
    fn take_in_place(&mut self, at: Name, key: &[u8; KEY_BYTES]) -> P
        requires own { HasOwnSlot at }
        requires tree { IsTree self.old.nodes }
        requires way { OnWay self.old.nodes key.now at }
        requires held { IsHeld self.old.nodes key.now at }
        requires others { (x : Form ℕ P) → get self.old.nodes at ≡ Some x → map.len (children_of x) ≢ 1 }
        requires stays { (x : Form ℕ P) → get self.old.nodes at ≡ Some x → shrinks (form_of x) (map.len (children_of x)) ≡ false }
        requires covered { Covers A.charged_of self.old }
        ensures { Frees A.charged_of A.limit_of self.old self.new
            key.now (Some result) None (Some (going_one (heap_of self.old.nodes at))) }
    {
        let byte = self.byte_at(at, key);
        self.nodes.take_value(at, byte)
    }

    /// Takes a value out of a leaf that has others. The leaf gives place to a lesser form if it is left small, and comes into its
    /// parent's place if one value is left.
    #[inline(never)]
    fn take_value(&mut self, alloc: Global, above: Name, at: Name, key: &[u8; KEY_BYTES]) -> P
        requires own { HasOwnSlot at }
        requires tree { IsTree self.old.nodes }
        requires way { OnWay self.old.nodes key.now at }
        requires held { IsHeld self.old.nodes key.now at }
        requires hangs { Hangs self.old.nodes key.now above at }
        requires others { (x : Form ℕ P) → get self.old.nodes at ≡ Some x → map.len (children_of x) ≢ 1 }
        requires covered { Covers A.charged_of self.old }
        ensures { Frees A.charged_of A.limit_of self.old self.new
            key.now (Some result) None (Some (going_one (heap_of self.old.nodes at))) }
    {
        let form = self.nodes.node_type(at);
        let lesser = charges_lesser(&mut self.allocator, form, self.nodes.len(at));
        let byte = self.byte_at(at, key);
        let value = self.nodes.take_value(at, byte);
        if lesser {
            self.lessen(alloc, at);
            return value;
        }
        self.tuck(above, at, key);
        value
    }

    /// A leaf with one value goes, from its parent's place or with its slot.
    #[inline(always)]
    fn drop_leaf(&mut self, above: Name, at: Name, key: &[u8; KEY_BYTES]) -> P
        requires tree { IsTree self.old.nodes }
        requires way { OnWay self.old.nodes key.now at }
        requires held { IsHeld self.old.nodes key.now at }
        requires hangs { Hangs self.old.nodes key.now above at }
        requires last { (x : Form ℕ P) → get self.old.nodes at ≡ Some x → map.len (children_of x) ≡ 1 }
        ensures drops { Drops self.old self.new key.now at result }
        ensures above { LosesChild self.old.nodes self.new.nodes key.now above at }
    {
        if at.is_inline() {
            let up = self.byte_at(above, key);
            return self.nodes.unhang_leaf(above, up);
        }
        let byte = self.byte_at(at, key);
        let value = self.nodes.take_value(at, byte);
        let up = self.byte_at(above, key);
        self.nodes.unhang_node(above, up);
        self.nodes.remove(at);
        value
    }

    /// A leaf goes with its only value, and the node above that has one other child, which comes into its place.
    fn collapse(&mut self, top: Name, above: Name, at: Name, key: &[u8; KEY_BYTES]) -> P
        requires tree { IsTree self.old.nodes }
        requires way { OnWay self.old.nodes key.now at }
        requires held { IsHeld self.old.nodes key.now at }
        requires hangs { Hangs self.old.nodes key.now above at }
        requires higher { Hangs self.old.nodes key.now top above }
        requires last { (x : Form ℕ P) → get self.old.nodes at ≡ Some x → map.len (children_of x) ≡ 1 }
        requires two { (x : Form ℕ P) → get self.old.nodes above ≡ Some x → map.len (children_of x) ≡ 2 }
        requires covered { Covers A.charged_of self.old }
        ensures { Frees A.charged_of A.limit_of self.old self.new
            key.now (Some result) None (Some (going_last (heap_of self.old.nodes at) above (heap_of self.old.nodes above))) }
    {
        let leaf = self.nodes.node_type(at).size();
        let node = self.nodes.node_type(above).size();
        let value = self.drop_leaf(above, at, key);
        let up = self.byte_at(top, key);
        self.nodes.lift(top, up, above);
        self.allocator.deallocate(leaf);
        self.allocator.deallocate(node);
        value
    }

    /// A leaf goes with its only value from the root.
    #[inline(never)]
    fn drop_last(&mut self, at: Name, key: &[u8; KEY_BYTES]) -> P
        requires tree { IsTree self.old.nodes }
        requires way { OnWay self.old.nodes key.now at }
        requires held { IsHeld self.old.nodes key.now at }
        requires hangs { Hangs self.old.nodes key.now 0 at }
        requires last { (x : Form ℕ P) → get self.old.nodes at ≡ Some x → map.len (children_of x) ≡ 1 }
        requires covered { Covers A.charged_of self.old }
        ensures { Frees A.charged_of A.limit_of self.old self.new
            key.now (Some result) None (Some (going_last (heap_of self.old.nodes at) 0 (heap_of self.old.nodes 0))) }
    {
        let leaf = self.nodes.node_type(at).size();
        let value = self.drop_leaf(Name::root(), at, key);
        self.allocator.deallocate(leaf);
        value
    }

    /// A leaf goes with its only value from an inner node that isn't left with one child. That one gives place to a lesser one
    /// if it is small then.
    #[inline(never)]
    fn thin_out(&mut self, alloc: Global, above: Name, at: Name, key: &[u8; KEY_BYTES]) -> P
        requires tree { IsTree self.old.nodes }
        requires way { OnWay self.old.nodes key.now at }
        requires held { IsHeld self.old.nodes key.now at }
        requires hangs { Hangs self.old.nodes key.now above at }
        requires last { (x : Form ℕ P) → get self.old.nodes at ≡ Some x → map.len (children_of x) ≡ 1 }
        requires inner { above ≢ 0 }
        requires more { (x : Form ℕ P) → get self.old.nodes above ≡ Some x → map.len (children_of x) ≢ 2 }
        requires covered { Covers A.charged_of self.old }
        ensures { Frees A.charged_of A.limit_of self.old self.new
            key.now (Some result) None (Some (going_last (heap_of self.old.nodes at) above (heap_of self.old.nodes above))) }
    {
        let leaf = self.nodes.node_type(at).size();
        let form = self.nodes.node_type(above);
        let lesser = charges_lesser(&mut self.allocator, form, self.nodes.len(above));
        let value = self.drop_leaf(above, at, key);
        self.allocator.deallocate(leaf);
        if lesser {
            self.lessen(alloc, above);
        }
        value
    }

    /// Takes the value at the end of a key's way out.
    #[inline(always)]
    pub(crate) fn take(&mut self, alloc: Global, place: &Place, key: &[u8; KEY_BYTES]) -> P
        requires tree { IsTree self.old.nodes }
        requires located { Located self.old.nodes key.now place.now }
        requires held { place.now.spot ≡ Spot.Held }
        requires covered { Covers A.charged_of self.old }
        ensures { Frees A.charged_of A.limit_of self.old self.new
            key.now (Some result) None (goes_at (heap_of self.old.nodes) key.now) }
    {
        let (top, above, at) = (place.top, place.above, place.at);
        let count = self.nodes.len(at);
        if stays_as_is(self.nodes.node_type(at), count) {
            return self.take_in_place(at, key);
        }
        if count != 1 {
            return self.take_value(alloc, above, at, key);
        }
        if above.is_root() {
            return self.drop_last(at, key);
        }
        if self.nodes.len(above) == 2 {
            return self.collapse(top, above, at, key);
        }
        self.thin_out(alloc, above, at, key)
    }
}
