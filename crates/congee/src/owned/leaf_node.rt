//! A leaf with a slot of its own: its prefix, and its values by their bytes.
ghost use Rattle.std.specs.Prelude.{◌≡◌, ◌≢◌, ◌<◌, ◌≤◌, ℕ, length, false, None, Some, IsSome, MatchOption, OnOk, OnErr};
ghost use Rattle.std.specs.Option.{option_copied, option_map};
ghost use Rattle.std.specs.FinMap as map;
ghost use Rattle.congee.specs.Heap.{fits};
ghost use Rattle.congee.specs.forms.Bytes.{IsFirst, IsLastBelow};
ghost use Rattle.congee.specs.forms.Forms.{Becomes, capacity_of, children_of, form_of, is_full_of, next_form, prefix_of};
ghost use Rattle.congee.specs.protocol.Steps.{form_below};
ghost use Rattle.congee.specs.declared.forms.base_node.NodeType.TheVariants.{N4};
ghost use Rattle.congee.specs.declared.forms.child.Child.TheVariants.{Value};

use crate::forms::base_node::NodeType;
use crate::forms::prefix::{MAX_PREFIX_LEN, Prefix};
use crate::keys::KEY_BYTES;
use crate::owned::arena::Stored;
use crate::owned::values::Values;
use std::alloc::{AllocError, Global};
use std::marker::Model;

/// The prefix of a leaf, and its values. To contracts it is a node whose children are values.
#[derive(Drop)]
pub(crate) struct LeafNode<P: Stored> {
    prefix: Prefix,
    values: Values<P::Kept>,
}

impl<P: Stored> Model for LeafNode<P> {
    ghost use Rattle.std.specs.Prelude.{ℕ};
    ghost use Rattle.congee.specs.declared.forms.base_node.Node.{Node};
    ghost use Rattle.congee.specs.owned.Codes.{node_code};
    ghost use Rattle.congee.specs.owned.Values.{HoldsValues, node_with};

    ghost Value = { Node ℕ P };

    ghost coded = { node_code P.code };

    ghost view = { λ n. node_with P.value_in n.prefix n.values };

    ghost invariant = { λ n. HoldsValues P.value_in n.values };
}

impl<P: Stored> LeafNode<P> {
    /// A leaf of the least form without values.
    pub(crate) fn least(prefix: &[u8]) -> Self
        requires fits { length prefix.now ≤ MAX_PREFIX_LEN }
        ensures form { form_of result ≡ N4 }
        ensures prefix { prefix_of result ≡ prefix.now }
        ensures children { children_of result ≡ map.empty }
    {
        LeafNode {
            prefix: Prefix::new(prefix),
            values: Values::least(),
        }
    }

    /// The form.
    #[inline(always)]
    pub(crate) fn node_type(&self) -> NodeType
        ensures { result ≡ form_of self.now }
    {
        self.values.node_type()
    }

    /// The first bytes of every key in the leaf.
    #[inline(always)]
    pub(crate) fn prefix(&self) -> &[u8]
        ensures bytes { result.now ≡ prefix_of self.now }
        ensures fits { length result.now ≤ MAX_PREFIX_LEN }
    {
        self.prefix.as_slice()
    }

    /// How many bytes they are.
    #[inline(always)]
    pub(crate) fn prefix_len(&self) -> usize
        ensures count { result ≡ length (prefix_of self.now) }
        ensures fits { result ≤ MAX_PREFIX_LEN }
    {
        self.prefix.len()
    }

    /// Whether its prefix is the beginning of the key.
    #[inline(always)]
    pub(crate) fn is_prefix_of(&self, key: &[u8; KEY_BYTES]) -> bool
        ensures { result ≡ fits (prefix_of self.now) key.now }
    {
        self.prefix.is_prefix_of(key)
    }

    /// How many values there are.
    #[inline(always)]
    pub(crate) fn len(&self) -> usize
        ensures count { result ≡ map.len (children_of self.now) }
        ensures fits { result ≤ capacity_of (form_of self.now) }
        ensures bytes { (b : ℕ) → IsSome (map.get (children_of self.now) b) → b < 256 }
    {
        self.values.len()
    }

    /// Whether no further value fits.
    #[inline(always)]
    pub(crate) fn is_full(&self) -> bool
        ensures { result ≡ is_full_of self.now }
    {
        self.values.is_full()
    }

    /// The value of a byte.
    #[inline(always)]
    pub(crate) fn get_child(&self, byte: u8) -> Option<&P>
        ensures { option_map Value (option_copied result) ≡ map.get (children_of self.now) byte }
    {
        match self.values.get_child(byte) {
            None => None,
            Some(kept) => P::look(kept),
        }
    }

    /// The value of the least byte from `from` on.
    #[inline(always)]
    pub(crate) fn first_from(&self, from: usize) -> Option<(u8, &P)>
        ensures { MatchOption result ((b : ℕ) → from ≤ b → map.get (children_of self.now) b ≡ None)
            (λ r. IsFirst (children_of self.now) from r.0 (Value r.1.now)) }
    {
        match self.values.first_from(from) {
            None => None,
            Some((byte, kept)) => match P::look(kept) {
                None => unreachable!(),
                Some(value) => Some((byte, value)),
            },
        }
    }

    /// The greatest byte below `end` that has a value.
    #[inline(always)]
    pub(crate) fn last_below(&self, end: usize) -> Option<u8>
        requires { end ≤ 256 }
        ensures { IsLastBelow (children_of self.now) end result }
    {
        self.values.last_below(end)
    }

    /// Adds a value under a byte that has none, to a leaf that is not full.
    #[inline(always)]
    pub(crate) fn insert(&mut self, byte: u8, value: P)
        requires absent { map.get (children_of self.old) byte ≡ None }
        requires room { is_full_of self.old ≡ false }
        ensures { Becomes self.old self.new (map.insert (children_of self.old) byte (Value value)) }
    {
        self.values.insert(byte, value.keep())
    }

    /// Puts another value under a byte that has one, and gives the one before.
    #[inline(always)]
    pub(crate) fn change(&mut self, byte: u8, value: P) -> P
        requires present { IsSome (map.get (children_of self.old) byte) }
        ensures before { map.get (children_of self.old) byte ≡ Some (Value result) }
        ensures after { Becomes self.old self.new (map.insert (children_of self.old) byte (Value value)) }
    {
        P::give(self.values.change(byte, value.keep()))
    }

    /// Takes out the value of a byte that has one.
    #[inline(always)]
    pub(crate) fn remove(&mut self, byte: u8) -> P
        requires present { IsSome (map.get (children_of self.old) byte) }
        ensures before { map.get (children_of self.old) byte ≡ Some (Value result) }
        ensures after { Becomes self.old self.new (map.remove (children_of self.old) byte) }
    {
        P::give(self.values.remove(byte))
    }

    /// Takes every value out.
    pub(crate) fn clear(&mut self)
        ensures { Becomes self.old self.new map.empty }
    {
        self.values.clear()
    }

    /// Becomes a leaf of the next greater form. Where memory is refused, the leaf stays as it was.
    pub(crate) fn grow(&mut self, alloc: Global) -> Result<(), AllocError>
        ensures form { OnOk result (form_of self.new ≡ next_form (form_of self.old)) }
        ensures prefix { OnOk result (prefix_of self.new ≡ prefix_of self.old) }
        ensures children { OnOk result (children_of self.new ≡ children_of self.old) }
        ensures refused { OnErr result (self.new ≡ self.old) }
    {
        self.values.grow(alloc)
    }

    /// Becomes a leaf of the form below, where its values fit. Where memory is refused, which the least form doesn't want, the
    /// leaf stays as it was.
    pub(crate) fn shrink(&mut self, alloc: Global) -> Result<(), AllocError>
        requires room { map.len (children_of self.old) ≤ capacity_of (form_below (form_of self.old)) }
        ensures form { OnOk result (form_of self.new ≡ form_below (form_of self.old)) }
        ensures prefix { OnOk result (prefix_of self.new ≡ prefix_of self.old) }
        ensures children { OnOk result (children_of self.new ≡ children_of self.old) }
        ensures refused { OnErr result (self.new ≡ self.old) }
        ensures memory { OnErr result (form_below (form_of self.old) ≢ N4) }
    {
        self.values.shrink(alloc)
    }
}
