//! The nodes with slots of their own, inner ones and leaves.
ghost use Rattle.std.specs.Prelude.{◌≡◌, ◌≢◌, ◌≤◌, length, slice_index, Some, None, false, IsSome, OnOk, OnErr};
ghost use Rattle.std.specs.FinMap as map;
ghost use Rattle.congee.specs.Heap.{fits};
ghost use Rattle.congee.specs.declared.keys.TheConstants.{KEY_BYTES};
ghost use Rattle.congee.specs.declared.forms.prefix.TheConstants.{MAX_PREFIX_LEN};

use crate::forms::base_node::NodeType;
use crate::forms::child::Child;
use crate::keys::KEY_BYTES;
use crate::owned::arena::Stored;
use crate::owned::entries::{Hung, LoneRef};
use crate::owned::inline_leaf::Lone;
use crate::owned::inner::Inner;
use crate::owned::leaf_node::LeafNode;
use std::alloc::{AllocError, Global};

/// A node with a slot of its own. A child of an inner node is a node by its slot, or a leaf with one value.
#[derive(Drop)]
pub(crate) enum Slot<P: Stored> {
    Inner(Inner<P>),
    Leaf(LeafNode<P>),
}

impl<P: Stored> Slot<P> {
    ghost use Rattle.congee.specs.Heap.{fits};
    ghost use Rattle.congee.specs.forms.Forms.{capacity_of};
    ghost use Rattle.congee.specs.declared.forms.child.Child.TheVariants.{Value};
    ghost use Rattle.congee.specs.protocol.Steps.{form_below};
    ghost use Rattle.congee.specs.declared.forms.base_node.NodeType.TheVariants.{N4};
    ghost use Rattle.congee.specs.owned.Lesser.{Shrunk};
    ghost use Rattle.congee.specs.owned.Lifting.{HasOnly};
    ghost use Rattle.congee.specs.owned.Entries.{Begins, first_byte, lone_seen};
    ghost use Rattle.congee.specs.owned.Kinds.{prefix_in, form_in, len_in, full_in, HasLowBytes, IsInner, IsLeaf, inner_get, leaf_get, IsValue, Cleared, InnerBecomes, LeafBecomes, Grown};

    /// The node's prefix, at most `MAX_PREFIX_LEN` bytes.
    #[inline(always)]
    pub(crate) fn prefix(&self) -> &[u8]
        ensures bytes { result.now ≡ prefix_in self.now }
        ensures fits { length result.now ≤ MAX_PREFIX_LEN }
    {
        match self {
            Slot::Inner(n) => n.prefix(),
            Slot::Leaf(n) => n.prefix(),
        }
    }

    /// How many bytes the prefix has.
    #[inline(always)]
    pub(crate) fn prefix_len(&self) -> usize
        ensures count { result ≡ length (prefix_in self.now) }
        ensures fits { result ≤ MAX_PREFIX_LEN }
    {
        match self {
            Slot::Inner(n) => n.prefix_len(),
            Slot::Leaf(n) => n.prefix_len(),
        }
    }

    /// Whether the key has the prefix's bytes in their places.
    #[inline(always)]
    pub(crate) fn is_prefix_of(&self, key: &[u8; KEY_BYTES]) -> bool
        ensures { result ≡ fits (prefix_in self.now) key.now }
    {
        match self {
            Slot::Inner(n) => n.is_prefix_of(key),
            Slot::Leaf(n) => n.is_prefix_of(key),
        }
    }

    /// The node's form.
    #[inline(always)]
    pub(crate) fn node_type(&self) -> NodeType
        ensures { result ≡ form_in self.now }
    {
        match self {
            Slot::Inner(n) => n.node_type(),
            Slot::Leaf(n) => n.node_type(),
        }
    }

    /// How many children the node has.
    #[inline(always)]
    pub(crate) fn len(&self) -> usize
        ensures count { result ≡ len_in self.now }
        ensures fits { result ≤ capacity_of (form_in self.now) }
        ensures bytes { HasLowBytes self.now }
    {
        match self {
            Slot::Inner(n) => n.len(),
            Slot::Leaf(n) => n.len(),
        }
    }

    /// Whether the node has as many children as its form can.
    #[inline(always)]
    pub(crate) fn is_full(&self) -> bool
        ensures { result ≡ full_in self.now }
    {
        match self {
            Slot::Inner(n) => n.is_full(),
            Slot::Leaf(n) => n.is_full(),
        }
    }

    /// Becomes the next greater form. Where memory is refused, it stays as it was.
    pub(crate) fn grow(&mut self, alloc: Global) -> Result<(), AllocError>
        ensures grown { OnOk result (Grown self.old self.new) }
        ensures refused { OnErr result (self.new ≡ self.old) }
    {
        match self {
            Slot::Inner(n) => n.grow(alloc),
            Slot::Leaf(n) => n.grow(alloc),
        }
    }

    /// Becomes the form below. Where memory is refused, it stays as it was.
    pub(crate) fn shrink(&mut self, alloc: Global) -> Result<(), AllocError>
        requires room { len_in self.old ≤ capacity_of (form_below (form_in self.old)) }
        ensures shrunk { OnOk result (Shrunk self.old self.new) }
        ensures refused { OnErr result (self.new ≡ self.old) }
        ensures memory { OnErr result (form_below (form_in self.old) ≢ N4) }
    {
        match self {
            Slot::Inner(n) => n.shrink(alloc),
            Slot::Leaf(n) => n.shrink(alloc),
        }
    }

    /// The leaf with one value under a byte of an inner node.
    #[inline(always)]
    pub(crate) fn lone(&self, byte: u8) -> LoneRef<'_, P>
        requires present { IsValue (inner_get self.now byte) }
        ensures leaf { inner_get self.now byte ≡ Some (Value (lone_seen result)) }
        ensures begins { slice_index result.key 0 ≡ first_byte (prefix_in self.now) byte }
    {
        match self {
            Slot::Inner(n) => match n.get_child(byte) {
                Some(Hung::Leaf(leaf)) => leaf,
                Some(Hung::Node(_)) => unreachable!(),
                Some(Hung::Blank) => unreachable!(),
                None => unreachable!(),
            },
            Slot::Leaf(_) => unreachable!(),
        }
    }

    /// A leaf's value under a byte comes in.
    #[inline(always)]
    pub(crate) fn put_value(&mut self, byte: u8, value: P)
        requires leaf { IsLeaf self.old }
        requires absent { leaf_get self.old byte ≡ None }
        requires room { full_in self.old ≡ false }
        ensures { LeafBecomes self.old self.new (λ m. map.insert m byte (Value value)) }
    {
        match self {
            Slot::Leaf(n) => n.insert(byte, value),
            Slot::Inner(_) => unreachable!(),
        }
    }

    /// Another value comes in the place of a leaf's value under a byte, which is given back.
    #[inline(always)]
    pub(crate) fn change_value(&mut self, byte: u8, value: P) -> P
        requires present { IsValue (leaf_get self.old byte) }
        ensures was { leaf_get self.old byte ≡ Some (Value result) }
        ensures now { LeafBecomes self.old self.new (λ m. map.insert m byte (Value value)) }
    {
        match self {
            Slot::Leaf(n) => n.change(byte, value),
            Slot::Inner(_) => unreachable!(),
        }
    }

    /// A leaf's value under a byte is taken out and given back.
    #[inline(always)]
    pub(crate) fn take_value(&mut self, byte: u8) -> P
        requires present { IsValue (leaf_get self.old byte) }
        ensures was { leaf_get self.old byte ≡ Some (Value result) }
        ensures now { LeafBecomes self.old self.new (λ m. map.remove m byte) }
    {
        match self {
            Slot::Leaf(n) => n.remove(byte),
            Slot::Inner(_) => unreachable!(),
        }
    }

    /// A child comes in under a byte of an inner node that had none there.
    #[inline(always)]
    pub(crate) fn put_child(&mut self, byte: u8, child: Child<usize, Lone<P>>)
        requires inner { IsInner self.old }
        requires absent { inner_get self.old byte ≡ None }
        requires room { full_in self.old ≡ false }
        requires begins { Begins (first_byte (prefix_in self.old) byte) child }
        ensures { InnerBecomes self.old self.new (λ m. map.insert m byte child) }
    {
        match self {
            Slot::Inner(n) => n.insert(byte, child),
            Slot::Leaf(_) => unreachable!(),
        }
    }

    /// Another child comes in the place of the one under a byte of an inner node, which is given back.
    #[inline(always)]
    pub(crate) fn change_child(
        &mut self,
        byte: u8,
        child: Child<usize, Lone<P>>,
    ) -> Child<usize, Lone<P>>
        requires present { IsSome (inner_get self.old byte) }
        requires begins { Begins (first_byte (prefix_in self.old) byte) child }
        ensures was { inner_get self.old byte ≡ Some result }
        ensures now { InnerBecomes self.old self.new (λ m. map.insert m byte child) }
    {
        match self {
            Slot::Inner(n) => n.change(byte, child),
            Slot::Leaf(_) => unreachable!(),
        }
    }

    /// The child under a byte of an inner node is taken out and given back.
    #[inline(always)]
    pub(crate) fn take_child(&mut self, byte: u8) -> Child<usize, Lone<P>>
        requires present { IsSome (inner_get self.old byte) }
        ensures was { inner_get self.old byte ≡ Some result }
        ensures now { InnerBecomes self.old self.new (λ m. map.remove m byte) }
    {
        match self {
            Slot::Inner(n) => n.remove(byte),
            Slot::Leaf(_) => unreachable!(),
        }
    }

    /// The only child of an inner node.
    #[inline(always)]
    pub(crate) fn take_only(&mut self) -> Child<usize, Lone<P>>
        requires inner { IsInner self.old }
        requires one { len_in self.old ≡ 1 }
        ensures { HasOnly self.old result }
    {
        match self {
            Slot::Inner(n) => n.take_only(),
            Slot::Leaf(_) => unreachable!(),
        }
    }

    /// Loses all children, and keeps its prefix.
    pub(crate) fn clear(&mut self)
        ensures { Cleared self.old self.new }
    {
        match self {
            Slot::Inner(n) => n.clear(),
            Slot::Leaf(n) => n.clear(),
        }
    }
}
