//! An inner node: its prefix, and the places of what hangs in it.
ghost use Rattle.std.specs.Prelude.{◌≡◌, ◌≢◌, ◌≤◌, ◌<◌, ◌∷◌, ℕ, List, length, slice_index, false, MatchOption, None, Some, IsSome, IfOk, IfSome, OnOk, OnErr};
ghost use Rattle.std.specs.Option.{option_map};
ghost use Rattle.std.specs.FinMap as map;
ghost use Rattle.congee.specs.Heap.{fits};
ghost use Rattle.congee.specs.forms.Bytes.{IsFirst, IsLastBelow};
ghost use Rattle.congee.specs.forms.Forms.{Becomes, capacity_of, children_of, form_of, is_full_of, next_form, prefix_of};
ghost use Rattle.congee.specs.protocol.Steps.{form_below};
ghost use Rattle.congee.specs.owned.Entries.{Begins, child_by, child_there, first_byte};
ghost use Rattle.congee.specs.owned.Rows.{IsRow};

use crate::forms::base_node::NodeType;
use crate::forms::child::{Child, Small};
use crate::forms::masked::Masked;
use crate::forms::prefix::{MAX_PREFIX_LEN, Prefix};
use crate::keys::KEY_BYTES;
use crate::owned::entries::{Entry, Hung, LoneRef, Tail};
use crate::owned::inline_leaf::Lone;
use crate::owned::places::{Nested, Places};
use std::alloc::{AllocError, Global};
use std::marker::Model;

/// The prefix of an inner node, and what hangs in it. To contracts it is a node whose children are nodes by their slots and
/// leaves with their whole keys.
#[derive(Drop)]
pub(crate) struct Inner<P: Nested> {
    prefix: Prefix,
    places: Places<P>,
}

/// The entries of an inner node from a byte on, or all those of the greatest form.
#[derive(Drop)]
pub(crate) enum Row<'a, P> {
    Few(&'a [Entry<P>]),
    Wide(&'a Masked<Entry<P>>),
}

impl<P: Nested> Model for Inner<P> {
    ghost use Rattle.std.specs.Prelude.{ℕ};
    ghost use Rattle.congee.specs.declared.forms.base_node.Node.{Node};
    ghost use Rattle.congee.specs.declared.owned.inline_leaf.Lone.{Lone as LoneOf};
    ghost use Rattle.congee.specs.owned.Codes.{node_code};
    ghost use Rattle.congee.specs.owned.Entries.{node_by};
    ghost use Rattle.congee.specs.owned.Lones.{lone_code};

    ghost Value = { Node ℕ (LoneOf P) };

    ghost coded = { node_code (lone_code P.code) };

    ghost view = { λ n. node_by n.prefix n.places };
}

/// The bytes of a key after the first.
#[inline(always)]
fn tail_of(key: &[u8; KEY_BYTES]) -> Tail
    ensures { (first : ℕ) → slice_index key.now 0 ≡ first → first ∷ result.bytes ≡ key.now }
{
    Tail {
        bytes: [key[1], key[2], key[3], key[4], key[5], key[6], key[7]],
    }
}

/// The key of a first byte and the others.
#[inline(always)]
pub(crate) fn key_by(first: u8, tail: &Tail) -> [u8; KEY_BYTES]
    ensures { result ≡ first ∷ tail.now.bytes }
{
    let rest = &tail.bytes;
    [
        first, rest[0], rest[1], rest[2], rest[3], rest[4], rest[5], rest[6],
    ]
}

/// A child as a place keeps it.
#[inline(always)]
fn entry_of<P>(child: Child<usize, Lone<P>>) -> Entry<P>
    ensures { (prefix : List ℕ) (byte : ℕ) → Begins (first_byte prefix byte) child → child_by prefix byte result ≡ child }
{
    match child {
        Child::Blank => Entry::Blank,
        Child::Node(slot) => Entry::Node(slot),
        Child::Value(lone) => {
            let Lone { key, value } = lone;
            Entry::Leaf(tail_of(&key), value)
        }
    }
}

/// What a place keeps as a child, whose keys begin with this byte.
#[inline(always)]
fn child_of<P>(first: u8, entry: Entry<P>) -> Child<usize, Lone<P>>
    ensures { (prefix : List ℕ) (byte : ℕ) → first_byte prefix byte ≡ first → result ≡ child_by prefix byte entry }
{
    match entry {
        Entry::Blank => Child::Blank,
        Entry::Node(slot) => Child::Node(slot),
        Entry::Leaf(tail, value) => Child::Value(Lone {
            key: key_by(first, &tail),
            value,
        }),
    }
}

/// The same, where it lies.
#[inline(always)]
fn hung_of<P>(first: u8, entry: &Entry<P>) -> Hung<'_, P>
    ensures { (prefix : List ℕ) (byte : ℕ) → first_byte prefix byte ≡ first → child_there result ≡ child_by prefix byte entry.now }
{
    match entry {
        Entry::Blank => Hung::Blank,
        Entry::Node(slot) => Hung::Node(*slot),
        Entry::Leaf(tail, value) => Hung::Leaf(LoneRef {
            key: key_by(first, tail),
            value,
        }),
    }
}

impl<P: Small> Inner<P> {
    ghost use Rattle.congee.specs.owned.Only.{IsOnly};
    ghost use Rattle.congee.specs.declared.forms.base_node.NodeType.TheVariants.{N4};

    /// A node without children.
    pub(crate) fn new(alloc: Global, form: NodeType, prefix: &[u8]) -> Result<Self, AllocError>
        requires fits { length prefix.now ≤ MAX_PREFIX_LEN }
        ensures form { IfOk result (λ n. form_of n ≡ form) }
        ensures prefix { IfOk result (λ n. prefix_of n ≡ prefix.now) }
        ensures children { IfOk result (λ n. children_of n ≡ map.empty) }
    {
        Ok(Inner {
            prefix: Prefix::new(prefix),
            places: Places::new(alloc, form)?,
        })
    }

    /// A node of the least form without children.
    pub(crate) fn least(prefix: &[u8]) -> Self
        requires fits { length prefix.now ≤ MAX_PREFIX_LEN }
        ensures form { form_of result ≡ N4 }
        ensures prefix { prefix_of result ≡ prefix.now }
        ensures children { children_of result ≡ map.empty }
    {
        Inner {
            prefix: Prefix::new(prefix),
            places: Places::least(),
        }
    }

    /// The form.
    #[inline(always)]
    pub(crate) fn node_type(&self) -> NodeType
        ensures { result ≡ form_of self.now }
    {
        self.places.node_type()
    }

    /// The first bytes of every key below the node.
    #[inline(always)]
    pub(crate) fn prefix(&self) -> &[u8]
        ensures bytes { result.now ≡ prefix_of self.now }
        ensures fits { length result.now ≤ MAX_PREFIX_LEN }
    {
        self.prefix.as_slice()
    }

    /// How many bytes they are.
    #[inline(always)]
    pub(crate) fn prefix_len(&self) -> usize
        ensures count { result ≡ length (prefix_of self.now) }
        ensures fits { result ≤ MAX_PREFIX_LEN }
    {
        self.prefix.len()
    }

    /// Whether its prefix is the beginning of the key.
    #[inline(always)]
    pub(crate) fn is_prefix_of(&self, key: &[u8; KEY_BYTES]) -> bool
        ensures { result ≡ fits (prefix_of self.now) key.now }
    {
        self.prefix.is_prefix_of(key)
    }

    /// How many children there are.
    #[inline(always)]
    pub(crate) fn len(&self) -> usize
        ensures count { result ≡ map.len (children_of self.now) }
        ensures fits { result ≤ capacity_of (form_of self.now) }
        ensures bytes { (b : ℕ) → IsSome (map.get (children_of self.now) b) → b < 256 }
    {
        self.places.len()
    }

    /// Whether no further child fits.
    #[inline(always)]
    pub(crate) fn is_full(&self) -> bool
        ensures { result ≡ is_full_of self.now }
    {
        self.places.is_full()
    }

    /// The first byte of every key under a byte of the node.
    #[inline(always)]
    fn first_byte(&self, byte: u8) -> u8
        ensures { result ≡ first_byte (prefix_of self.now) byte }
    {
        let prefix = self.prefix.as_slice();
        if prefix.len() == 0 { byte } else { prefix[0] }
    }

    /// The entries from a byte on.
    #[inline(always)]
    pub(crate) fn row(&self, from: usize) -> Row<'_, P>
        ensures { IsRow self.now from result }
    {
        match &self.places {
            Places::N4(n) => Row::Few(n.children_from(from)),
            Places::N16(n) => Row::Few(n.children_from(from)),
            Places::N48(n) => Row::Few(n.children_from(from)),
            Places::N256(n) => Row::Wide(&n.children),
        }
    }

    /// What hangs under a byte.
    #[inline(always)]
    pub(crate) fn get_child(&self, byte: u8) -> Option<Hung<'_, P>>
        ensures child { option_map child_there result ≡ map.get (children_of self.now) byte }
        ensures begins { IfSome result (λ h. Begins (first_byte (prefix_of self.now) byte) (child_there h)) }
    {
        match self.places.get_child(byte) {
            None => None,
            Some(entry) => Some(hung_of(self.first_byte(byte), entry)),
        }
    }

    /// What hangs under the least byte from `from` on.
    #[inline(always)]
    pub(crate) fn first_from(&self, from: usize) -> Option<(u8, Hung<'_, P>)>
        ensures { MatchOption result ((b : ℕ) → from ≤ b → map.get (children_of self.now) b ≡ None)
            (λ r. IsFirst (children_of self.now) from r.0 (child_there r.1)) }
    {
        match self.places.first_from(from) {
            None => None,
            Some((byte, entry)) => Some((byte, hung_of(self.first_byte(byte), entry))),
        }
    }

    /// The greatest byte below `end` that has a child.
    #[inline(always)]
    pub(crate) fn last_below(&self, end: usize) -> Option<u8>
        requires { end ≤ 256 }
        ensures { IsLastBelow (children_of self.now) end result }
    {
        self.places.last_below(end)
    }

    /// Adds a child under a byte that has none, to a node that is not full.
    #[inline(always)]
    pub(crate) fn insert(&mut self, byte: u8, child: Child<usize, Lone<P>>)
        requires absent { map.get (children_of self.old) byte ≡ None }
        requires room { is_full_of self.old ≡ false }
        requires begins { Begins (first_byte (prefix_of self.old) byte) child }
        ensures { Becomes self.old self.new (map.insert (children_of self.old) byte child) }
    {
        self.places.insert(byte, entry_of(child))
    }

    /// Puts another child under a byte that has one, and gives the one before.
    #[inline(always)]
    pub(crate) fn change(&mut self, byte: u8, child: Child<usize, Lone<P>>) -> Child<usize, Lone<P>>
        requires present { IsSome (map.get (children_of self.old) byte) }
        requires begins { Begins (first_byte (prefix_of self.old) byte) child }
        ensures before { map.get (children_of self.old) byte ≡ Some result }
        ensures after { Becomes self.old self.new (map.insert (children_of self.old) byte child) }
    {
        let first = self.first_byte(byte);
        child_of(first, self.places.change(byte, entry_of(child)))
    }

    /// Takes out the child of a byte that has one.
    #[inline(always)]
    pub(crate) fn remove(&mut self, byte: u8) -> Child<usize, Lone<P>>
        requires present { IsSome (map.get (children_of self.old) byte) }
        ensures before { map.get (children_of self.old) byte ≡ Some result }
        ensures after { Becomes self.old self.new (map.remove (children_of self.old) byte) }
    {
        let first = self.first_byte(byte);
        child_of(first, self.places.remove(byte))
    }

    /// Takes out the only child.
    #[inline(always)]
    pub(crate) fn take_only(&mut self) -> Child<usize, Lone<P>>
        requires one { map.len (children_of self.old) ≡ 1 }
        ensures { IsOnly (children_of self.old) result }
    {
        match self.first_from(0) {
            Some((byte, _)) => self.remove(byte),
            None => unreachable!(),
        }
    }

    /// Takes every child out.
    pub(crate) fn clear(&mut self)
        ensures { Becomes self.old self.new map.empty }
    {
        self.places.clear()
    }

    /// Becomes a node of the next greater form. Where memory is refused, the node stays as it was.
    pub(crate) fn grow(&mut self, alloc: Global) -> Result<(), AllocError>
        ensures form { OnOk result (form_of self.new ≡ next_form (form_of self.old)) }
        ensures prefix { OnOk result (prefix_of self.new ≡ prefix_of self.old) }
        ensures children { OnOk result (children_of self.new ≡ children_of self.old) }
        ensures refused { OnErr result (self.new ≡ self.old) }
    {
        self.places.grow(alloc)
    }

    /// Becomes a node of the form below, where its children fit. Where memory is refused, which the least form doesn't want, the
    /// node stays as it was.
    pub(crate) fn shrink(&mut self, alloc: Global) -> Result<(), AllocError>
        requires room { map.len (children_of self.old) ≤ capacity_of (form_below (form_of self.old)) }
        ensures form { OnOk result (form_of self.new ≡ form_below (form_of self.old)) }
        ensures prefix { OnOk result (prefix_of self.new ≡ prefix_of self.old) }
        ensures children { OnOk result (children_of self.new ≡ children_of self.old) }
        ensures refused { OnErr result (self.new ≡ self.old) }
        ensures memory { OnErr result (form_below (form_of self.old) ≢ N4) }
    {
        self.places.shrink(alloc)
    }
}
