//! The storage of an owned tree: a slot for each node, but a leaf with one value lies in the place of its parent that it hangs in.
ghost use Rattle.std.specs.Prelude.{◌≡◌, ◌≢◌, ◌*◌, ◌<◌, ◌≤◌, ◌^◌, ℕ, length, slice_index, Some, None, false, true, IsSome, IfOk, OnOk, OnErr, IsTrue, ◌↔◌};
ghost use Rattle.std.specs.FinMap as map;
ghost use Rattle.slab.specs.Slab.{get, ContainsKey, HasRoomFor, SameValues, Updates};
ghost use Rattle.congee.specs.Heap.{fits};
ghost use Rattle.congee.specs.forms.Forms.{capacity_of, children_of, form_of, is_full_of, prefix_of};
ghost use Rattle.congee.specs.protocol.Steps.{form_below};
ghost use Rattle.congee.specs.declared.forms.prefix.TheConstants.{MAX_PREFIX_LEN};

use crate::forms::base_node::NodeType;
use crate::forms::prefix::MAX_PREFIX_LEN;
use crate::keys::KEY_BYTES;
use crate::owned::arena::Stored;
use crate::owned::inner::Inner;
use crate::owned::names::Name;
use crate::owned::prefix_split::Parting;
use crate::owned::slots::Slot;
use slab::Slab;
use std::alloc::{AllocError, Global};
use std::marker::Model;

/// The nodes of a tree by their names. The first node is the root, whose name is the default one.
#[derive(Drop)]
pub struct Nodes<P: Stored> {
    pub(crate) slab: Slab<Slot<P>>,
    // How many leaves lie in the places of their parents. The slab has room for each of them.
    pub(crate) inline: usize,
}

impl<P: Stored> Model for Nodes<P> {
    ghost use Rattle.slab.specs.Slab.{Slab, slab_code};
    ghost use Rattle.congee.specs.owned.Codes.{node_code};
    ghost use Rattle.std.specs.Prelude.{ℕ};
    ghost use Rattle.congee.specs.declared.forms.base_node.Node.{Node};

    ghost Value = { Slab (Node ℕ P) };

    ghost coded = { slab_code (node_code P.code) };

    ghost use Rattle.congee.specs.owned.Slots.{nodes_in};
    ghost use Rattle.congee.specs.owned.Storage.{IsStored};

    ghost view = { λ n. nodes_in n.slab };

    ghost invariant = { λ n. IsStored n.slab n.inline };
}

impl<P: Stored> Nodes<P> {
    ghost use Rattle.congee.specs.owned.Changes.{DiffersAt};
    ghost use Rattle.congee.specs.owned.Naming.{HasOwnSlot};
    ghost use Rattle.congee.specs.owned.OwnedSteps.{Makes};
    ghost use Rattle.congee.specs.owned.Sizes.{bytes_of};
    ghost use Rattle.congee.specs.owned.Slots.{inner_child, with_children};
    ghost use Rattle.congee.specs.owned.Stores.{GrowsTo, IsAlone, LeavesRoot};
    ghost use Rattle.congee.specs.owned.Lesser.{ShrinksTo};
    ghost use Rattle.congee.specs.declared.forms.base_node.Node.{Node as Form};
    ghost use Rattle.congee.specs.declared.forms.base_node.NodeType.TheVariants.{N4};

    /// The root alone.
    pub(crate) fn new(alloc: Global, root: Inner<P>) -> Result<Self, AllocError>
        requires inner { length (prefix_of root) < MAX_PREFIX_LEN }
        requires empty { children_of root ≡ map.empty }
        ensures root { IfOk result (λ t. IsAlone t (with_children (inner_child 0) root)) }
    {
        let mut slab = Slab::new(alloc);
        match slab.insert(Slot::Inner(root)) {
            Ok(_) => Ok(Nodes { slab, inline: 0 }),
            Err(_) => Err(AllocError),
        }
    }

    /// Makes room for as many more nodes.
    #[inline(always)]
    pub(crate) fn reserve(&mut self, additional: usize) -> Result<(), AllocError>
        ensures same { SameValues self.old self.new }
        ensures room { OnOk result (HasRoomFor self.new additional) }
    {
        match self.inline.checked_add(additional) {
            Some(wanted) => self.slab.reserve(wanted),
            None => Err(AllocError),
        }
    }

    /// How many bytes every key below a node begins with.
    #[inline(always)]
    pub(crate) fn prefix_len(&self, at: Name) -> usize
        requires { ContainsKey self.now at }
        ensures count { (x : Form ℕ P) → get self.now at ≡ Some x → result ≡ length (prefix_of x) }
        ensures fits { result ≤ MAX_PREFIX_LEN }
    {
        match at.byte {
            None => self.slab[at.slot].prefix_len(),
            Some(_) => MAX_PREFIX_LEN,
        }
    }

    /// The first bytes of every key below a node with a slot of its own.
    #[inline(always)]
    pub(crate) fn prefix(&self, at: Name) -> &[u8]
        requires own { HasOwnSlot at }
        requires stands { ContainsKey self.now at }
        ensures bytes { (x : Form ℕ P) → get self.now at ≡ Some x → result.now ≡ prefix_of x }
        ensures fits { length result.now ≤ MAX_PREFIX_LEN }
    {
        self.slab[at.slot].prefix()
    }

    /// The first place where a key and the prefix of a node differ, and the prefix's byte there.
    pub(crate) fn parting(&self, at: Name, key: &[u8; KEY_BYTES]) -> Parting
        requires stands { ContainsKey self.now at }
        requires differs { (x : Form ℕ P) → get self.now at ≡ Some x → fits (prefix_of x) key.now ≡ false }
        ensures place { (x : Form ℕ P) → get self.now at ≡ Some x → DiffersAt key.now (prefix_of x) result.place }
        ensures other { (x : Form ℕ P) → get self.now at ≡ Some x → result.other ≡ slice_index (prefix_of x) result.place }
        ensures within { result.place < MAX_PREFIX_LEN }
    {
        match at.byte {
            None => Parting::of(key, self.slab[at.slot].prefix()),
            Some(byte) => Parting::of(key, &self.lone(at.slot, byte).key[..MAX_PREFIX_LEN]),
        }
    }

    /// Whether the values of a node are those of keys, and no nodes hang in it.
    #[inline(always)]
    pub(crate) fn is_leaf(&self, at: Name) -> bool
        requires { ContainsKey self.now at }
        ensures { (x : Form ℕ P) → get self.now at ≡ Some x → IsTrue result ↔ (length (prefix_of x) ≡ MAX_PREFIX_LEN) }
    {
        self.prefix_len(at) == MAX_PREFIX_LEN
    }

    /// The form of a node.
    #[inline(always)]
    pub(crate) fn node_type(&self, at: Name) -> NodeType
        requires { ContainsKey self.now at }
        ensures { (x : Form ℕ P) → get self.now at ≡ Some x → result ≡ form_of x }
    {
        match at.byte {
            None => self.slab[at.slot].node_type(),
            Some(_) => NodeType::N4,
        }
    }

    /// How many children a node has.
    #[inline(always)]
    pub(crate) fn len(&self, at: Name) -> usize
        requires { ContainsKey self.now at }
        ensures count { (x : Form ℕ P) → get self.now at ≡ Some x → result ≡ map.len (children_of x) }
        ensures inline { (HasOwnSlot at → ⊥) → result ≡ 1 }
        ensures bytes { (x : Form ℕ P) → get self.now at ≡ Some x → (b : ℕ) → IsSome (map.get (children_of x) b) → b < 256 }
    {
        match at.byte {
            None => self.slab[at.slot].len(),
            Some(_) => 1,
        }
    }

    /// Whether no further child fits in a node.
    #[inline(always)]
    pub(crate) fn is_full(&self, at: Name) -> bool
        requires { ContainsKey self.now at }
        ensures { (x : Form ℕ P) → get self.now at ≡ Some x → result ≡ is_full_of x }
    {
        match at.byte {
            None => self.slab[at.slot].is_full(),
            Some(_) => false,
        }
    }

    /// Makes a least inner node that hangs nowhere yet.
    pub(crate) fn make(&mut self, prefix: &[u8]) -> Name
        requires inner { length prefix.now < MAX_PREFIX_LEN }
        requires room { HasRoomFor self.old 1 }
        ensures made { Makes self.old self.new result prefix.now }
        ensures own { HasOwnSlot result }
        ensures capacity { self.new.capacity ≡ self.old.capacity }
    {
        let slot = self.slab.insert_reserved(Slot::Inner(Inner::least(prefix)));
        Name::of(slot)
    }

    /// Drops a leaf with a slot of its own, which hangs nowhere.
    pub(crate) fn remove(&mut self, at: Name)
        requires own { HasOwnSlot at }
        requires stands { ContainsKey self.old at }
        requires leaf { (x : Form ℕ P) → get self.old at ≡ Some x → length (prefix_of x) ≡ MAX_PREFIX_LEN }
        ensures gone { Updates self.old self.new at None }
        ensures capacity { self.new.capacity ≡ self.old.capacity }
    {
        self.slab.remove(at.slot);
    }

    /// Gives a node the next greater form. Where memory is refused, it stays as it was.
    pub(crate) fn grow(&mut self, alloc: Global, at: Name) -> Result<(), AllocError>
        requires stands { ContainsKey self.old at }
        requires full { (x : Form ℕ P) → get self.old at ≡ Some x → is_full_of x ≡ true }
        ensures grown { OnOk result ((x : Form ℕ P) → get self.old at ≡ Some x → GrowsTo self.old self.new at x) }
        ensures refused { OnErr result (SameValues self.old self.new) }
        ensures capacity { self.new.capacity ≡ self.old.capacity }
    {
        self.slab[at.slot].grow(alloc)
    }

    /// Gives a node the form below. Where memory is refused, which the least form doesn't want, it stays as it was.
    pub(crate) fn shrink(&mut self, alloc: Global, at: Name) -> Result<(), AllocError>
        requires stands { ContainsKey self.old at }
        requires greater { (x : Form ℕ P) → get self.old at ≡ Some x → form_of x ≢ N4 }
        requires room { (x : Form ℕ P) → get self.old at ≡ Some x → map.len (children_of x) ≤ capacity_of (form_below (form_of x)) }
        ensures shrunk { OnOk result ((x : Form ℕ P) → get self.old at ≡ Some x → ShrinksTo self.old self.new at x) }
        ensures refused { OnErr result (SameValues self.old self.new) }
        ensures memory { OnErr result ((x : Form ℕ P) → get self.old at ≡ Some x → form_below (form_of x) ≢ N4) }
        ensures capacity { self.new.capacity ≡ self.old.capacity }
    {
        self.slab[at.slot].shrink(alloc)
    }

    /// The sum of the sizes of all nodes, in bytes.
    pub(crate) fn bytes(&self) -> u64
        requires { bytes_of self.now < 2 ^ 64 }
        ensures { result ≡ bytes_of self.now }
    {
        let mut bytes = NodeType::N4.size() * self.inline as u64;
        for (_, slot) in self.slab.iter() {
            bytes += slot.node_type().size();
        }
        bytes
    }

    /// Takes out all but the root, and the root's children.
    pub(crate) fn clear(&mut self)
        requires root { ContainsKey self.old 0 }
        requires inner { (x : Form ℕ P) → get self.old 0 ≡ Some x → length (prefix_of x) < MAX_PREFIX_LEN }
        ensures { (x : Form ℕ P) → get self.old 0 ≡ Some x → LeavesRoot self.old self.new x }
    {
        let mut root = self.slab.remove(0);
        self.slab.clear();
        root.clear();
        self.slab.insert_reserved(root);
        self.inline = 0;
    }
}
