//! A node of any form.
ghost use Rattle.std.specs.Prelude.{◌≡◌, ◌≢◌, ◌≤◌, ◌<◌, ℕ, length, false, MatchOption, None, Some, IsSome, IfOk, OnOk, OnErr, slice_get};
ghost use Rattle.std.specs.Option.{option_copied, option_map};
ghost use Rattle.std.specs.Iterator.{YieldsFirstBy, item_count};
ghost use Rattle.std.specs.FinMap as map;
ghost use Rattle.congee.specs.forms.Bytes.{IsFirst, between};
ghost use Rattle.congee.specs.forms.Forms.{capacity_of, size_of, next_form, form_of, prefix_of, children_of, is_full_of, Becomes};
ghost use Rattle.congee.specs.forms.Scan.{rest};

use crate::forms::child::{Child, Small};
use crate::forms::indexed::Indexed;
use crate::forms::masked::Masked;
use crate::forms::node4::Node4;
use crate::forms::node16::Node16;
use crate::forms::node48::Node48;
use crate::forms::node256::Node256;
use crate::forms::prefix::{MAX_PREFIX_LEN, Prefix};
use crate::forms::room::Boxed;
use crate::forms::sorted::Sorted;
use std::alloc::{AllocError, Global};

/// The form of a node.
#[derive(Clone, Copy, Debug, PartialEq, Eq)]
pub enum NodeType {
    N4,
    N16,
    N48,
    N256,
}

// What a node of each form is charged, in bytes.
pub(crate) const N4_SIZE: u64 = 64;

pub(crate) const N16_SIZE: u64 = 168;

pub(crate) const N48_SIZE: u64 = 672;

pub(crate) const N256_SIZE: u64 = 2104;

impl NodeType {
    /// How many children a node of this form can have.
    pub fn capacity(self) -> usize
        ensures { result ≡ capacity_of self }
    {
        match self {
            NodeType::N4 => 4,
            NodeType::N16 => 16,
            NodeType::N48 => 48,
            NodeType::N256 => 256,
        }
    }

    /// What a node of this form is charged, in bytes.
    pub fn size(self) -> u64
        ensures { result ≡ size_of self }
    {
        match self {
            NodeType::N4 => N4_SIZE,
            NodeType::N16 => N16_SIZE,
            NodeType::N48 => N48_SIZE,
            NodeType::N256 => N256_SIZE,
        }
    }

    /// The next greater form; the greatest is its own.
    pub fn next(self) -> NodeType
        ensures { result ≡ next_form self }
    {
        match self {
            NodeType::N4 => NodeType::N16,
            NodeType::N16 => NodeType::N48,
            NodeType::N48 => NodeType::N256,
            NodeType::N256 => NodeType::N256,
        }
    }
}

/// A node: its prefix, fixed with its form, and its children by byte.
///
/// `C` is a node's name and `P` a payload. The smallest form lies inline, the others in a box.
#[derive(Drop)]
pub enum Node<C: Small, P: Boxed<C>> {
    N4(Node4<C, P>),
    N16(Box<Node16<C, P>>),
    N48(Box<Node48<C, P>>),
    N256(Box<Node256<C, P>>),
}

impl<C: Small, P: Small> Node<C, P> {
    ghost use Rattle.congee.specs.declared.forms.base_node.NodeType.TheVariants.{N4 as T4};

    /// An empty node with a prefix of at most seven bytes. `N4` asks for no memory.
    pub fn new(alloc: Global, form: NodeType, prefix: &[u8]) -> Result<Self, AllocError>
        requires fits { length prefix.now ≤ MAX_PREFIX_LEN }
        ensures form { IfOk result (λ n. form_of n ≡ form) }
        ensures prefix { IfOk result (λ n. prefix_of n ≡ prefix.now) }
        ensures children { IfOk result (λ n. children_of n ≡ map.empty) }
        ensures memory { OnErr result (form ≢ T4) }
    {
        let prefix = Prefix::new(prefix);
        Ok(match form {
            NodeType::N4 => Node::N4(Node4 {
                prefix,
                children: Sorted::new(),
            }),
            NodeType::N16 => Node::N16(Box::new(
                alloc,
                Node16 {
                    prefix,
                    children: Sorted::new(),
                },
            )?),
            NodeType::N48 => Node::N48(Box::new(
                alloc,
                Node48 {
                    prefix,
                    children: Indexed::new(),
                },
            )?),
            NodeType::N256 => Node::N256(Box::new(
                alloc,
                Node256 {
                    prefix,
                    children: Masked::new(),
                },
            )?),
        })
    }

    /// The form.
    #[inline(always)]
    pub fn node_type(&self) -> NodeType
        ensures { result ≡ form_of self.now }
    {
        match self {
            Node::N4(_) => NodeType::N4,
            Node::N16(_) => NodeType::N16,
            Node::N48(_) => NodeType::N48,
            Node::N256(_) => NodeType::N256,
        }
    }

    /// What the node is charged, in bytes.
    pub fn size(&self) -> u64
        ensures { result ≡ size_of (form_of self.now) }
    {
        self.node_type().size()
    }

    /// The first bytes of every key below the node.
    #[inline(always)]
    pub fn prefix(&self) -> &[u8]
        ensures bytes { result.now ≡ prefix_of self.now }
        ensures fits { length result.now ≤ MAX_PREFIX_LEN }
    {
        match self {
            Node::N4(n) => n.prefix.as_slice(),
            Node::N16(n) => n.prefix.as_slice(),
            Node::N48(n) => n.prefix.as_slice(),
            Node::N256(n) => n.prefix.as_slice(),
        }
    }

    /// How many children there are.
    #[inline(always)]
    pub fn len(&self) -> usize
        ensures count { result ≡ map.len (children_of self.now) }
        ensures fits { result ≤ capacity_of (form_of self.now) }
        ensures bytes { (b : ℕ) → IsSome (map.get (children_of self.now) b) → b < 256 }
    {
        match self {
            Node::N4(n) => n.children.len(),
            Node::N16(n) => n.children.len(),
            Node::N48(n) => n.children.len(),
            Node::N256(n) => n.children.len(),
        }
    }

    /// Whether no further child fits. A node of 256 is never full.
    #[inline(always)]
    pub fn is_full(&self) -> bool
        ensures { result ≡ is_full_of self.now }
    {
        match self {
            Node::N4(n) => n.children.len() == 4,
            Node::N16(n) => n.children.len() == 16,
            Node::N48(n) => n.children.len() == 48,
            Node::N256(_) => false,
        }
    }

    /// The child of a byte.
    #[inline(always)]
    pub fn get_child(&self, byte: u8) -> Option<&Child<C, P>>
        ensures { option_copied result ≡ map.get (children_of self.now) byte }
    {
        match self {
            Node::N4(n) => n.children.get_child(byte),
            Node::N16(n) => n.children.get_child(byte),
            Node::N48(n) => n.children.get_child(byte),
            Node::N256(n) => n.children.get_child(byte),
        }
    }

    /// The child of the least byte from `from` on.
    #[inline(always)]
    pub fn first_from(&self, from: usize) -> Option<(u8, &Child<C, P>)>
        ensures { MatchOption result ((b : ℕ) → from ≤ b → map.get (children_of self.now) b ≡ None)
            (λ r. IsFirst (children_of self.now) from r.0 r.1.now) }
    {
        match self {
            Node::N4(n) => n.children.first_from(from),
            Node::N16(n) => n.children.first_from(from),
            Node::N48(n) => n.children.first_from(from),
            Node::N256(n) => n.children.first_from(from),
        }
    }

    /// The child number `i`, ascending by byte and counted from 0, with its byte.
    pub fn child_at(&self, i: usize) -> Option<(u8, &Child<C, P>)>
        ensures { option_map (λ r. (r.0, r.1.now)) result ≡ slice_get (map.entries (children_of self.now)) i }
    {
        if i >= self.len() {
            return None;
        }
        let mut from = 0;
        for _passed in 0..i {
            match self.first_from(from) {
                None => return None,
                Some((byte, _)) => from = byte as usize + 1,
            }
        }
        self.first_from(from)
    }

    /// The children from byte `start` to byte `end`, both included, ascending.
    pub fn get_children(&self, start: u8, end: u8) -> NodeIter<'_, C, P>
        ensures { rest result ≡ between start end (map.entries (children_of self.now)) }
    {
        NodeIter {
            node: self,
            from: start as usize,
            end,
        }
    }

    /// Adds a child under a byte that has none, to a node that is not full.
    #[inline(always)]
    pub fn insert(&mut self, byte: u8, child: Child<C, P>)
        requires absent { map.get (children_of self.old) byte ≡ None }
        requires room { is_full_of self.old ≡ false }
        ensures { Becomes self.old self.new (map.insert (children_of self.old) byte child) }
    {
        match self {
            Node::N4(n) => n.children.insert(byte, child),
            Node::N16(n) => n.children.insert(byte, child),
            Node::N48(n) => n.children.insert(byte, child),
            Node::N256(n) => n.children.insert(byte, child),
        }
    }

    /// Puts another child under a byte that has one, and gives the one before.
    #[inline(always)]
    pub fn change(&mut self, byte: u8, child: Child<C, P>) -> Child<C, P>
        requires present { IsSome (map.get (children_of self.old) byte) }
        ensures before { map.get (children_of self.old) byte ≡ Some result }
        ensures after { Becomes self.old self.new (map.insert (children_of self.old) byte child) }
    {
        match self {
            Node::N4(n) => n.children.change(byte, child),
            Node::N16(n) => n.children.change(byte, child),
            Node::N48(n) => n.children.change(byte, child),
            Node::N256(n) => n.children.change(byte, child),
        }
    }

    /// Takes out the child of a byte that has one.
    #[inline(always)]
    pub fn remove(&mut self, byte: u8) -> Child<C, P>
        requires present { IsSome (map.get (children_of self.old) byte) }
        ensures before { map.get (children_of self.old) byte ≡ Some result }
        ensures after { Becomes self.old self.new (map.remove (children_of self.old) byte) }
    {
        match self {
            Node::N4(n) => n.children.remove(byte),
            Node::N16(n) => n.children.remove(byte),
            Node::N48(n) => n.children.remove(byte),
            Node::N256(n) => n.children.remove(byte),
        }
    }

    /// Takes every child out.
    pub fn clear(&mut self)
        ensures { Becomes self.old self.new map.empty }
    {
        let mut next = 0;
        while let Some((byte, _)) = self.first_from(next) {
            self.remove(byte);
            next = 1 + byte as usize;
        }
    }

    /// Moves every child to `greater`, an empty node with room for them.
    pub fn move_to(&mut self, greater: &mut Node<C, P>)
        requires empty { children_of greater.old ≡ map.empty }
        requires room { map.len (children_of self.old) ≤ capacity_of (form_of greater.old) }
        ensures left { Becomes self.old self.new map.empty }
        ensures moved { Becomes greater.old greater.new (children_of self.old) }
    {
        let mut from = 0;
        while let Some((byte, _)) = self.first_from(from) {
            let child = self.remove(byte);
            greater.insert(byte, child);
            from = byte as usize + 1;
        }
    }

    // The same, but a blank is left in the place of each, so that none moves up.
    fn pour_into(&mut self, other: &mut Node<C, P>)
        requires empty { children_of other.old ≡ map.empty }
        requires room { map.len (children_of self.old) ≤ capacity_of (form_of other.old) }
        ensures moved { Becomes other.old other.new (children_of self.old) }
    {
        let mut from = 0;
        while let Some((first, _)) = self.first_from(from) {
            let child = self.change(first, Child::Blank);
            other.insert(first, child);
            from = first as usize + 1;
        }
    }

    /// Becomes a node of the next greater form, with the same prefix and children.
    ///
    /// Memory is asked for first: where it is refused, the node stays as it was.
    pub fn grow(&mut self, alloc: Global) -> Result<(), AllocError>
        ensures form { OnOk result (form_of self.new ≡ next_form (form_of self.old)) }
        ensures prefix { OnOk result (prefix_of self.new ≡ prefix_of self.old) }
        ensures children { OnOk result (children_of self.new ≡ children_of self.old) }
        ensures refused { OnErr result (self.new ≡ self.old) }
    {
        let form = self.node_type().next();
        let mut greater = Node::new(alloc, form, self.prefix())?;
        prove!(self.len() <= form.capacity());
        self.pour_into(&mut greater);
        *self = greater;
        Ok(())
    }
}

/// The children of a node within a range of bytes, ascending.
#[derive(Drop)]
pub struct NodeIter<'a, C: Small, P: Small> {
    node: &'a Node<C, P>,
    from: usize,
    end: u8,
}

impl<'a, C: Small, P: Small> Iterator for NodeIter<'a, C, P> {
    type Item = (u8, &'a Child<C, P>);

    ghost next_gives = { YieldsFirstBy (λ r. (r.0, r.1.now)) rest };

    ghost remaining = { item_count rest };

    fn next(&mut self) -> Option<(u8, &'a Child<C, P>)> {
        match self.node.first_from(self.from) {
            Some((byte, child)) if byte <= self.end => {
                self.from = byte as usize + 1;
                Some((byte, child))
            }
            _ => None,
        }
    }
}
