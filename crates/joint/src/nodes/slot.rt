//! What stands in a cell of the collector.

ghost use Rattle.std.specs.Prelude.{◌≡◌, ◌≢◌, ◌<◌, ◌≤◌, ◌↔◌, ℕ, None, Some, true, false, length, slice_get, IfOk};
ghost use Rattle.std.specs.FinMap.{entries};
ghost use Rattle.congee.specs.declared.forms.prefix.TheConstants.{MAX_PREFIX_LEN};
ghost use Rattle.congee.specs.declared.forms.child.Child.TheVariants as Hung;
ghost use Rattle.congee.specs.forms.Forms.{children_of, prefix_of, form_of, capacity_of, is_full_of, Becomes};
ghost use Rattle.joint.specs.nodes.Slots.{names_in};
ghost use Rattle.congee.specs.protocol.Events.{hung, HoldsNodes, IsOther, MayChange, TakesOver};
ghost use Rattle.congee.specs.Heap.{Below, Holds, Nothing};
ghost use Rattle.std.specs.FinMap as map;
ghost use Rattle.joint.specs.declared.nodes.slot.LockWord.{LockWord};
ghost use Rattle.joint.specs.nodes.Altering.{Hangs, MovesTo, IsNewSlot, Pulls};
ghost use Rattle.joint.specs.nodes.Solid.{AreAlike, IsPoured, IsSolid, IsWhole, hang};
ghost use Rattle.joint.specs.nodes.View.{id_number, child_at, node_of, shape, is_word};

use crate::id::Id;
use congee::{Child, Node, NodeType, Payload, Small};
use crossbeam_epoch::{Links, Name, Pointable};
use std::alloc::{AllocError, Global};

/// A payload whose nodes fit in memory.
///
/// Each payload is one; a user has nothing to prove.
pub trait Housed: Small {
    ghost use Rattle.std.specs.Mem.{FitsInMemory};
    ghost use Rattle.congee.specs.contracts.forms.base_node.Node.{the_row as node_row};
    ghost use Rattle.joint.specs.contracts.id.Id.{the_row as id_row};

    ghost fits_node: { FitsInMemory (node_row id_row Self.row) };
}

impl<P: Small> Housed for P {
    ghost use Rattle.congee.specs.forms.RoomLemmas.{any_node_fits};
    ghost use Rattle.joint.specs.contracts.id.Id.{the_row as id_row};
    ghost use Rattle.joint.specs.nodes.RoomLemmas.{small_id};

    ghost fits_node = { any_node_fits id_row P.row small_id P.small };
}

/// A node in its cell, with its lock word.
#[derive(Drop)]
pub struct Slot<P: Housed> {
    /// There is none only while the node is out to be changed.
    pub node: Option<Box<Node<Id, P>>>,
    pub word: LockWord,
}

/// A node's lock word, and whether it was handed over for its destruction.
#[derive(Clone, Copy, Drop)]
pub struct LockWord {
    pub version: u64,
    pub locked: bool,
    pub obsolete: bool,
    pub retired: bool,
}

impl LockWord {
    /// Whether the word is free at this version.
    pub(crate) fn is_at(self, version: u64) -> bool
        ensures { result ≡ is_word self version }
    {
        self.version == version && !self.locked && !self.obsolete
    }
}

impl<P: Payload + Small> Slot<P> {
    /// An empty node of the form, with a prefix of at most seven bytes and a free lock word.
    pub(crate) fn new(alloc: Global, form: NodeType, prefix: &[u8]) -> Result<Self, AllocError>
        requires { length prefix.now ≤ MAX_PREFIX_LEN }
        ensures { IfOk result (λ s. IsNewSlot s form prefix.now) }
    {
        let node = Box::new(alloc, Node::new(alloc, form, prefix)?)?;
        Ok(Slot {
            node: Some(node),
            word: LockWord {
                version: 0,
                locked: false,
                obsolete: false,
                retired: false,
            },
        })
    }

    /// The node in it.
    pub(crate) fn node(&self) -> &Node<Id, P>
        requires { IsWhole self.now.node }
        ensures shape { shape result.now self.now.word ≡ node_of self.now }
        ensures solid { IsSolid (children_of result.now) }
    {
        match &self.node {
            Some(node) => node,
            None => unreachable!(),
        }
    }

    /// Hangs the child at the byte of its node, in place of what hangs there, or takes out what hangs there.
    pub(crate) fn hang(&mut self, byte: u8, child: Child<Id, P>)
        requires whole { IsWhole self.old.node }
        requires room { MayChange (node_of self.old) byte (hung id_number child) }
        ensures { Hangs self.old byte child self.new }
    {
        match &mut self.node {
            Some(node) => hang(node, byte, child),
            None => unreachable!(),
        }
    }

    /// Takes the value at the byte out of its node.
    pub(crate) fn pull(&mut self, byte: u8) -> P
        requires whole { IsWhole self.old.node }
        requires holds { (v : P) × ((node_of self.old).children byte ≡ Holds v) }
        ensures { Pulls self.old byte result self.new }
    {
        match &mut self.node {
            Some(node) => pull(node, byte),
            None => unreachable!(),
        }
    }

    /// The node that hangs in its own beside the one at the byte, where there are two.
    pub(crate) fn other(&self, byte: u8) -> Id
        requires whole { IsWhole self.now.node }
        requires nodes { HoldsNodes (node_of self.now) }
        requires two { (node_of self.now).count ≡ 2 }
        requires there { (node_of self.now).children byte ≢ Nothing }
        ensures { IsOther (node_of self.now) byte (id_number result) }
    {
        let node = self.node();
        prove!(node.len() == 2);
        let Some((at, first)) = node.first_from(0) else {
            unreachable!();
        };
        if at != byte {
            return name_in(first);
        }
        let Some((_, next)) = node.first_from(byte as usize + 1) else {
            unreachable!();
        };
        name_in(next)
    }

    /// Gives its children to an empty slot: values are moved, and the names of nodes stay here too.
    pub(crate) fn move_to(&mut self, other: &mut Slot<P>)
        requires whole { IsWhole self.old.node }
        requires whole_other { IsWhole other.old.node }
        requires room { TakesOver (node_of self.old) (node_of other.old) }
        ensures { MovesTo self.old other.old self.new other.new }
    {
        let Some(node) = &mut self.node else {
            unreachable!();
        };
        match &mut other.node {
            Some(other) => move_to(node, other),
            None => unreachable!(),
        }
    }
}

/// Gives a node's children to an empty one: values are moved, and the names of nodes stay in the first too.
fn move_to<P: Payload + Small>(node: &mut Node<Id, P>, other: &mut Node<Id, P>)
    requires empty { children_of other.old ≡ map.empty }
    requires room { map.len (children_of node.old) ≤ capacity_of (form_of other.old) }
    requires alike { AreAlike node.old }
    requires solid { IsSolid (children_of node.old) }
    ensures moved { Becomes other.old other.new (children_of node.old) }
    ensures left { IsPoured node.old node.new }
{
    if holds_names(node) {
        copy_names(node, other);
    } else {
        node.move_to(other);
    }
}

/// Whether the children are nodes; else they are values.
fn holds_names<P: Payload + Small>(node: &Node<Id, P>) -> bool
    requires alike { AreAlike node.now }
    requires solid { IsSolid (children_of node.now) }
    ensures names { result ≡ true → (k : ℕ) (v : P) → child_at node.now k ≡ Holds v → ⊥ }
    ensures values { result ≡ false → (k d : ℕ) → child_at node.now k ≡ Below d → ⊥ }
{
    match node.first_from(0) {
        Some((_, Child::Node(_))) => true,
        Some((_, Child::Value(_))) => false,
        Some((_, Child::Blank)) => unreachable!(),
        None => false,
    }
}

/// Copies the children of a node that holds nodes alone into an empty one.
fn copy_names<P: Payload + Small>(node: &Node<Id, P>, other: &mut Node<Id, P>)
    requires empty { children_of other.old ≡ map.empty }
    requires room { map.len (children_of node.now) ≤ capacity_of (form_of other.old) }
    requires names { (k : ℕ) (v : P) → child_at node.now k ≡ Holds v → ⊥ }
    requires solid { IsSolid (children_of node.now) }
    ensures { Becomes other.old other.new (children_of node.now) }
{
    let mut from = 0;
    while let Some((byte, child)) = node.first_from(from) {
        match child {
            Child::Node(id) => other.insert(byte, Child::Node(*id)),
            Child::Value(_) => unreachable!(),
            Child::Blank => unreachable!(),
        }
        from = byte as usize + 1;
    }
}

/// Hangs the child at the byte of a node, in place of what hangs there, or takes out what hangs there.
fn hang<P: Payload + Small>(node: &mut Node<Id, P>, byte: u8, child: Child<Id, P>)
    requires solid { IsSolid (children_of node.old) }
    requires room { (w : LockWord) → MayChange (shape node.old w) byte (hung id_number child) }
    ensures { Becomes node.old node.new (hang (children_of node.old) byte child) }
{
    match child {
        Child::Blank => {
            node.remove(byte);
        }
        Child::Node(id) => put(node, byte, Child::Node(id)),
        Child::Value(value) => put(node, byte, Child::Value(value)),
    }
}

/// Takes the value at the byte out of a node.
fn pull<P: Payload + Small>(node: &mut Node<Id, P>, byte: u8) -> P
    requires { (v : P) × (child_at node.old byte ≡ Holds v) }
    ensures was { map.get (children_of node.old) byte ≡ Some (Hung.Value result) }
    ensures after { Becomes node.old node.new (map.remove (children_of node.old) byte) }
{
    match node.remove(byte) {
        Child::Value(value) => value,
        Child::Node(_) => unreachable!(),
        Child::Blank => unreachable!(),
    }
}

/// Puts a child at the byte of a node that has one there, or room for one more.
fn put<P: Payload + Small>(node: &mut Node<Id, P>, byte: u8, child: Child<Id, P>)
    requires { map.get (children_of node.old) byte ≡ None → is_full_of node.old ≡ false }
    ensures { Becomes node.old node.new (map.insert (children_of node.old) byte child) }
{
    if node.get_child(byte).is_some() {
        node.change(byte, child);
    } else {
        node.insert(byte, child);
    }
}

/// A slot leads to the nodes that hang in its own.
impl<P: Payload + Small> Links for Slot<P> {
    ghost use Rattle.std.proofs.Common.{rules};
    ghost use Rattle.joint.specs.nodes.Slots.{names_of};

    ghost names = { λ s. names_of s.node };

    fn link(&self, i: u32) -> Option<Name> {
        match &self.node {
            Some(node) => nth_name(node, i),
            None => None,
        }
    }

    ghost fits = { Prim.search rules };
}

/// The node that a child is.
fn name_in<P: Payload + Small>(child: &Child<Id, P>) -> Id
    requires solid { child.now ≡ Hung.Blank → ⊥ }
    requires name { (v : P) → child.now ≡ Hung.Value v → ⊥ }
    ensures { child.now ≡ Hung.Node result }
{
    match child {
        Child::Node(id) => *id,
        Child::Value(_) => unreachable!(),
        Child::Blank => unreachable!(),
    }
}

/// The i-th name among the children of a node.
fn nth_name<P: Payload + Small>(node: &Node<Id, P>, i: u32) -> Option<Name>
    ensures { result ≡ slice_get (names_in (entries (children_of node.now))) i }
{
    let mut left = i;
    for k in 0..node.len() {
        match node.child_at(k) {
            Some((_, Child::Node(id))) => {
                if left == 0 {
                    return Some(id.name);
                }
                left -= 1;
            }
            Some((_, Child::Value(_))) => {}
            Some((_, Child::Blank)) => {}
            None => {}
        }
    }
    None
}

/// No pointer to a slot has a tag.
impl<P: Payload + Small> Pointable for Slot<P> {
    ghost use Rattle.std.specs.Prelude.{refl};
    ghost use Rattle.std.proofs.Common.{lit≤};

    ghost ALIGN = { 1 };

    const ALIGN: u16 = 1;

    ghost aligned = { (0, lit≤ tt, refl) };
}
