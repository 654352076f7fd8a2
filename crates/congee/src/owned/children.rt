//! What hangs in a node: it comes in, gives place to another, goes, or takes another name.
ghost use Rattle.std.specs.Prelude.{◌≡◌, ◌+◌, ◌<◌, ℕ, length, slice_index, Some, None, false};
ghost use Rattle.std.specs.FinMap as map;
ghost use Rattle.slab.specs.Slab.{get, ContainsKey, HasRoomFor};
ghost use Rattle.congee.specs.owned.Entries.{first_byte};
ghost use Rattle.congee.specs.forms.Forms.{children_of, form_of, is_full_of, prefix_of, size_of};
ghost use Rattle.congee.specs.declared.keys.TheConstants.{KEY_BYTES};
ghost use Rattle.congee.specs.declared.forms.prefix.TheConstants.{MAX_PREFIX_LEN};

use crate::forms::child::Child;
use crate::forms::prefix::MAX_PREFIX_LEN;
use crate::keys::KEY_BYTES;
use crate::owned::arena::Stored;
use crate::owned::inline_leaf::{Lone, key_from};
use crate::owned::leaf_node::LeafNode;
use crate::owned::names::Name;
use crate::owned::nodes::Nodes;
use crate::owned::slots::Slot;

impl<P: Stored> Nodes<P> {
    ghost use Rattle.congee.specs.owned.Kinds.{IsValue};
    ghost use Rattle.congee.specs.owned.Lifting.{GivesOnly, HasOneNode, MayLift, MovesUp};
    ghost use Rattle.congee.specs.owned.Sizes.{bytes_of};
    ghost use Rattle.congee.specs.owned.Naming.{HasOwnSlot};
    ghost use Rattle.congee.specs.owned.OwnedSteps.{Sets};
    ghost use Rattle.congee.specs.owned.Renames.{Renames};
    ghost use Rattle.congee.specs.owned.Stores.{CoversLeaf, Folds, HasOne, HangsLeaf, HasInline, HasNode, LosesLeaf, MakesLeaf};
    ghost use Rattle.congee.specs.declared.forms.base_node.Node.{Node as Form};
    ghost use Rattle.congee.specs.declared.forms.child.Child.TheVariants.{Node as Sub, Value};

    /// Hangs a leaf for the key, with one value, under a free byte of an inner node that has room.
    #[inline(always)]
    pub(crate) fn hang_leaf(&mut self, at: Name, byte: u8, key: &[u8; KEY_BYTES], value: P)
        requires stands { ContainsKey self.old at }
        requires inner { (x : Form ℕ P) → get self.old at ≡ Some x → length (prefix_of x) < MAX_PREFIX_LEN }
        requires absent { (x : Form ℕ P) → get self.old at ≡ Some x → map.get (children_of x) byte ≡ None }
        requires room { (x : Form ℕ P) → get self.old at ≡ Some x → is_full_of x ≡ false }
        requires spare { HasRoomFor self.old 1 }
        requires begins { (x : Form ℕ P) → get self.old at ≡ Some x → slice_index key.now 0 ≡ first_byte (prefix_of x) byte }
        ensures hangs { (x : Form ℕ P) → get self.old at ≡ Some x → HangsLeaf self.old self.new at x byte key.now value }
        ensures capacity { self.new.capacity ≡ self.old.capacity }
    {
        prove!(self.inline < self.slab.capacity());
        self.slab[at.slot].put_child(byte, Child::Value(Lone { key: *key, value }));
        self.inline += 1;
    }

    /// Puts a leaf for the key, with one value, in the place of a node with a slot of its own.
    fn swap_leaf(&mut self, at: Name, byte: u8, key: &[u8; KEY_BYTES], value: P)
        requires stands { ContainsKey self.old at }
        requires inner { (x : Form ℕ P) → get self.old at ≡ Some x → length (prefix_of x) < MAX_PREFIX_LEN }
        requires present { (x : Form ℕ P) → get self.old at ≡ Some x → HasNode (map.get (children_of x) byte) }
        requires spare { HasRoomFor self.old 1 }
        requires begins { (x : Form ℕ P) → get self.old at ≡ Some x → slice_index key.now 0 ≡ first_byte (prefix_of x) byte }
        ensures hangs { (x : Form ℕ P) → get self.old at ≡ Some x → HangsLeaf self.old self.new at x byte key.now value }
        ensures capacity { self.new.capacity ≡ self.old.capacity }
    {
        prove!(self.inline < self.slab.capacity());
        self.slab[at.slot].change_child(byte, Child::Value(Lone { key: *key, value }));
        self.inline += 1;
    }

    /// Makes a leaf for the key, with one value, that hangs nowhere yet.
    fn make_leaf(&mut self, key: &[u8; KEY_BYTES], value: P) -> Name
        requires room { HasRoomFor self.old 1 }
        ensures made { MakesLeaf self.old self.new result key.now value }
        ensures own { HasOwnSlot result }
        ensures capacity { self.new.capacity ≡ self.old.capacity }
    {
        let mut leaf = LeafNode::least(&key[..MAX_PREFIX_LEN]);
        leaf.insert(key[MAX_PREFIX_LEN], value);
        Name::of(self.slab.insert_reserved(Slot::Leaf(leaf)))
    }

    /// Hangs a node with a slot of its own under a free byte of an inner node that has room.
    pub(crate) fn hang_node(&mut self, at: Name, byte: u8, below: Name)
        requires stands { ContainsKey self.old at }
        requires inner { (x : Form ℕ P) → get self.old at ≡ Some x → length (prefix_of x) < MAX_PREFIX_LEN }
        requires absent { (x : Form ℕ P) → get self.old at ≡ Some x → map.get (children_of x) byte ≡ None }
        requires room { (x : Form ℕ P) → get self.old at ≡ Some x → is_full_of x ≡ false }
        requires own { HasOwnSlot below }
        ensures hangs { (x : Form ℕ P) → get self.old at ≡ Some x → Sets self.old self.new at x (map.insert (children_of x) byte (Sub below)) }
        ensures capacity { self.new.capacity ≡ self.old.capacity }
    {
        self.slab[at.slot].put_child(byte, Child::Node(below.slot));
    }

    /// Puts another node in the place of one. Both have slots of their own.
    pub(crate) fn swap_node(&mut self, at: Name, byte: u8, below: Name)
        requires stands { ContainsKey self.old at }
        requires inner { (x : Form ℕ P) → get self.old at ≡ Some x → length (prefix_of x) < MAX_PREFIX_LEN }
        requires present { (x : Form ℕ P) → get self.old at ≡ Some x → HasNode (map.get (children_of x) byte) }
        requires own { HasOwnSlot below }
        ensures swaps { (x : Form ℕ P) → get self.old at ≡ Some x → Sets self.old self.new at x (map.insert (children_of x) byte (Sub below)) }
        ensures capacity { self.new.capacity ≡ self.old.capacity }
    {
        self.slab[at.slot].change_child(byte, Child::Node(below.slot));
    }

    /// Takes a node with a slot of its own out of its place.
    pub(crate) fn unhang_node(&mut self, at: Name, byte: u8)
        requires stands { ContainsKey self.old at }
        requires inner { (x : Form ℕ P) → get self.old at ≡ Some x → length (prefix_of x) < MAX_PREFIX_LEN }
        requires present { (x : Form ℕ P) → get self.old at ≡ Some x → HasNode (map.get (children_of x) byte) }
        ensures takes { (x : Form ℕ P) → get self.old at ≡ Some x → Sets self.old self.new at x (map.remove (children_of x) byte) }
        ensures capacity { self.new.capacity ≡ self.old.capacity }
    {
        self.slab[at.slot].take_child(byte);
    }

    /// Takes a leaf with one value, which lies in its parent's place, out of it, and gives the value.
    #[inline(always)]
    pub(crate) fn unhang_leaf(&mut self, at: Name, byte: u8) -> P
        requires stands { ContainsKey self.old at }
        requires inner { (x : Form ℕ P) → get self.old at ≡ Some x → length (prefix_of x) < MAX_PREFIX_LEN }
        requires present { (x : Form ℕ P) → get self.old at ≡ Some x → HasInline (map.get (children_of x) byte) }
        ensures takes { (x : Form ℕ P) → get self.old at ≡ Some x → LosesLeaf self.old self.new at x byte result }
        ensures capacity { self.new.capacity ≡ self.old.capacity }
    {
        match self.slab[at.slot].take_child(byte) {
            Child::Value(lone) => {
                self.inline -= 1;
                let Lone { key: _, value } = lone;
                value
            }
            _ => unreachable!(),
        }
    }

    /// Puts a node with a slot of its own in the place of a leaf with one value, which lies there, and gives the leaf.
    #[inline(always)]
    pub(crate) fn cover_leaf(&mut self, at: Name, byte: u8, below: Name) -> Lone<P>
        requires stands { ContainsKey self.old at }
        requires inner { (x : Form ℕ P) → get self.old at ≡ Some x → length (prefix_of x) < MAX_PREFIX_LEN }
        requires present { (x : Form ℕ P) → get self.old at ≡ Some x → HasInline (map.get (children_of x) byte) }
        requires own { HasOwnSlot below }
        ensures covers { (x : Form ℕ P) → get self.old at ≡ Some x → CoversLeaf self.old self.new at x byte below result.key result.value }
        ensures capacity { self.new.capacity ≡ self.old.capacity }
    {
        match self.slab[at.slot].change_child(byte, Child::Node(below.slot)) {
            Child::Value(lone) => {
                self.inline -= 1;
                lone
            }
            _ => unreachable!(),
        }
    }

    /// Puts a value under a free byte of a leaf that has room and a slot of its own.
    #[inline(always)]
    pub(crate) fn hang_value(&mut self, at: Name, byte: u8, value: P)
        requires own { HasOwnSlot at }
        requires stands { ContainsKey self.old at }
        requires leaf { (x : Form ℕ P) → get self.old at ≡ Some x → length (prefix_of x) ≡ MAX_PREFIX_LEN }
        requires absent { (x : Form ℕ P) → get self.old at ≡ Some x → map.get (children_of x) byte ≡ None }
        requires room { (x : Form ℕ P) → get self.old at ≡ Some x → is_full_of x ≡ false }
        ensures hangs { (x : Form ℕ P) → get self.old at ≡ Some x → Sets self.old self.new at x (map.insert (children_of x) byte (Value value)) }
        ensures capacity { self.new.capacity ≡ self.old.capacity }
    {
        self.slab[at.slot].put_value(byte, value);
    }

    /// Puts another value in the place of one.
    #[inline(always)]
    pub(crate) fn swap_value(&mut self, at: Name, byte: u8, value: P) -> P
        requires stands { ContainsKey self.old at }
        requires present { (x : Form ℕ P) → get self.old at ≡ Some x → IsValue (map.get (children_of x) byte) }
        ensures was { (x : Form ℕ P) → get self.old at ≡ Some x → Some (Value result) ≡ map.get (children_of x) byte }
        ensures swaps { (x : Form ℕ P) → get self.old at ≡ Some x → Sets self.old self.new at x (map.insert (children_of x) byte (Value value)) }
        ensures capacity { self.new.capacity ≡ self.old.capacity }
    {
        match at.byte {
            None => self.slab[at.slot].change_value(byte, value),
            Some(place) => {
                let key = self.slab[at.slot].lone(place).key;
                match self.slab[at.slot].change_child(place, Child::Value(Lone { key, value })) {
                    Child::Value(lone) => {
                        let Lone { key: _, value } = lone;
                        value
                    }
                    _ => unreachable!(),
                }
            }
        }
    }

    /// Takes a value out of a leaf with a slot of its own.
    #[inline(always)]
    pub(crate) fn take_value(&mut self, at: Name, byte: u8) -> P
        requires own { HasOwnSlot at }
        requires stands { ContainsKey self.old at }
        requires present { (x : Form ℕ P) → get self.old at ≡ Some x → IsValue (map.get (children_of x) byte) }
        ensures was { (x : Form ℕ P) → get self.old at ≡ Some x → Some (Value result) ≡ map.get (children_of x) byte }
        ensures takes { (x : Form ℕ P) → get self.old at ≡ Some x → Sets self.old self.new at x (map.remove (children_of x) byte) }
        ensures capacity { self.new.capacity ≡ self.old.capacity }
    {
        self.slab[at.slot].take_value(byte)
    }

    /// Drops an inner node in which one node hangs, and gives that one: a node by its slot, or a leaf with one value.
    fn take_only(&mut self, at: Name) -> Child<usize, Lone<P>>
        requires stands { ContainsKey self.old at }
        requires inner { (x : Form ℕ P) → get self.old at ≡ Some x → length (prefix_of x) < MAX_PREFIX_LEN }
        requires alone { (x : Form ℕ P) → get self.old at ≡ Some x → HasOneNode x }
        ensures gives { (x : Form ℕ P) → get self.old at ≡ Some x → GivesOnly self.old self.new at x result }
        ensures capacity { self.new.capacity ≡ self.old.capacity }
    {
        let mut node = self.slab.remove(at.slot);
        match node.take_only() {
            Child::Value(lone) => {
                self.inline -= 1;
                Child::Value(lone)
            }
            child => child,
        }
    }

    /// The only child of an inner node comes into the node's place in the one above, and the node goes.
    pub(crate) fn lift(&mut self, above: Name, byte: u8, at: Name)
        requires { MayLift self.old above byte at }
        ensures lifts { (r : MayLift self.old above byte at) → MovesUp self.old self.new above byte at r }
        ensures bytes { (r : MayLift self.old above byte at) → bytes_of self.new + size_of (form_of r.lower) ≡ bytes_of self.old }
    {
        prove!(self.inline <= self.slab.capacity());
        match self.take_only(at) {
            Child::Node(slot) => {
                let child = Name::of(slot);
                self.swap_node(above, byte, child);
            }
            Child::Value(lone) => {
                let Lone { key, value } = lone;
                self.swap_leaf(above, byte, &key, value);
            }
            Child::Blank => unreachable!(),
        }
    }

    /// Gives the leaf under a byte, which lies in its parent's place, a slot of its own, and tells its name there.
    pub(crate) fn unfold(&mut self, at: Name, byte: u8) -> Name
        requires stands { ContainsKey self.old at }
        requires inner { (x : Form ℕ P) → get self.old at ≡ Some x → length (prefix_of x) < MAX_PREFIX_LEN }
        requires present { (x : Form ℕ P) → get self.old at ≡ Some x → HasInline (map.get (children_of x) byte) }
        ensures renames { (x : Form ℕ P) (leaf : ℕ) → get self.old at ≡ Some x → map.get (children_of x) byte ≡ Some (Sub leaf)
            → Renames self.old self.new at byte leaf result }
        ensures lone { (y : Form ℕ P) → get self.new result ≡ Some y → HasOne y }
        ensures keeps { (n : ℕ) → HasRoomFor self.old n → HasRoomFor self.new n }
        ensures own { HasOwnSlot result }
        ensures capacity { self.new.capacity ≡ self.old.capacity }
    {
        let parent = &self.slab[at.slot];
        prove!(parent.len() <= parent.node_type().capacity());
        let key = parent.lone(byte).key;
        let value = self.unhang_leaf(at, byte);
        let leaf = self.make_leaf(&key, value);
        self.hang_node(at, byte, leaf);
        leaf
    }

    /// Puts the least leaf with one value that hangs under a byte into its parent's place.
    pub(crate) fn fold(&mut self, at: Name, byte: u8, leaf: Name)
        requires stands { ContainsKey self.old at }
        requires inner { (x : Form ℕ P) → get self.old at ≡ Some x → length (prefix_of x) < MAX_PREFIX_LEN }
        requires present { (x : Form ℕ P) → get self.old at ≡ Some x → map.get (children_of x) byte ≡ Some (Sub leaf) }
        requires own { HasOwnSlot leaf }
        requires below { ContainsKey self.old leaf }
        requires lone { (y : Form ℕ P) → get self.old leaf ≡ Some y → HasOne y }
        requires begins { (x y : Form ℕ P) → get self.old at ≡ Some x → get self.old leaf ≡ Some y → slice_index (prefix_of y) 0 ≡ first_byte (prefix_of x) byte }
        ensures folds { Folds self.old self.new at byte leaf }
        ensures capacity { self.new.capacity ≡ self.old.capacity }
    {
        prove!(self.inline <= self.slab.capacity());
        let last = match self.first_from(leaf, 0) {
            Some((last, _)) => last,
            None => unreachable!(),
        };
        let key = key_from(self.prefix(leaf), last);
        let value = self.take_value(leaf, last);
        self.remove(leaf);
        self.swap_leaf(at, byte, &key, value);
    }
}
