//! A node that a walk is in, read once.
ghost use Rattle.std.specs.Prelude.{◌≡◌, ℕ, ◌≤◌, None, Some, IfSome, MatchOption};
ghost use Rattle.std.specs.FinMap as map;
ghost use Rattle.slab.specs.Slab.{get};
ghost use Rattle.congee.specs.forms.Bytes.{IsFirst, IsLastBelow};
ghost use Rattle.congee.specs.forms.Forms.{children_of};
ghost use Rattle.congee.specs.owned.Arena.{Nodes};
ghost use Rattle.congee.specs.owned.Sights.{HasKey, HasLeaf, Sees, child_of};
ghost use Rattle.congee.specs.declared.forms.base_node.Node.{Node as Form};

use crate::forms::prefix::MAX_PREFIX_LEN;
use crate::keys::key_of_bytes;
use crate::owned::arena::Stored;
use crate::owned::entries::{Hung, LoneRef};
use crate::owned::inner::Inner;
use crate::owned::leaf_node::LeafNode;
use crate::owned::names::Name;

/// A node by what its name led to, so that a walk through its children looks nothing up again.
#[derive(Drop)]
pub(crate) enum Sight<'a, P: Stored> {
    /// A leaf with one value, in the place of its parent.
    Inline(LoneRef<'a, P>),
    /// An inner node, and its slot.
    Inner(usize, &'a Inner<P>),
    /// A leaf with a slot of its own, and the least key that it may have.
    Leaf(u64, &'a LeafNode<P>),
}

/// What hangs under a node's byte.
#[derive(Drop)]
pub(crate) enum Next<'a, P> {
    /// A blank, which is never put in.
    Blank,
    /// A node with a slot of its own.
    Node(Name),
    /// A leaf with one value, which lies there: its name, its key and its value.
    Leaf(Name, u64, &'a P),
    /// A value, with its key.
    Value(u64, &'a P),
}

/// An inner node with a prefix: its slot, and the first byte of its keys.
#[derive(Clone, Copy)]
pub(crate) struct Stem {
    pub(crate) slot: usize,
    pub(crate) first: u8,
}

impl<'a, P: Stored> Sight<'a, P> {
    /// What hangs under the least byte from `from` on.
    #[inline(always)]
    pub(crate) fn first_from(&self, from: usize) -> Option<(u8, Next<'a, P>)>
        ensures first { (s : Nodes P) (at : ℕ) (x : Form ℕ P) → Sees s at self.now → get s at ≡ Some x
            → MatchOption result ((b : ℕ) → from ≤ b → map.get (children_of x) b ≡ None)
            (λ r. IsFirst (children_of x) from r.0 (child_of r.1)) }
        ensures leaf { (s : Nodes P) (at : ℕ) → Sees s at self.now → IfSome result (λ r. HasLeaf s r.1) }
        ensures key { (s : Nodes P) (at : ℕ) → Sees s at self.now → IfSome result (λ r. HasKey s at r.0 r.1) }
    {
        match *self {
            Sight::Inline(ref lone) => {
                let last = lone.key[MAX_PREFIX_LEN];
                if from <= last as usize {
                    Some((last, Next::Value(key_of_bytes(&lone.key), lone.value)))
                } else {
                    None
                }
            }
            Sight::Inner(slot, n) => match n.first_from(from) {
                None => None,
                Some((byte, Hung::Blank)) => Some((byte, Next::Blank)),
                Some((byte, Hung::Node(below))) => Some((byte, Next::Node(Name::of(below)))),
                Some((byte, Hung::Leaf(lone))) => {
                    let name = Name::inline(slot, byte);
                    Some((byte, Next::Leaf(name, key_of_bytes(&lone.key), lone.value)))
                }
            },
            Sight::Leaf(least, n) => match n.first_from(from) {
                None => None,
                Some((byte, value)) => Some((byte, Next::Value(least | byte as u64, value))),
            },
        }
    }

    /// The greatest byte below `end` under which something hangs.
    #[inline(always)]
    pub(crate) fn last_below(&self, end: usize) -> Option<u8>
        requires { end ≤ 256 }
        ensures { (s : Nodes P) (at : ℕ) (x : Form ℕ P) → Sees s at self.now → get s at ≡ Some x → IsLastBelow (children_of x) end result }
    {
        match *self {
            Sight::Inline(ref lone) => {
                let last = lone.key[MAX_PREFIX_LEN];
                if end > last as usize {
                    Some(last)
                } else {
                    None
                }
            }
            Sight::Inner(_, n) => n.last_below(end),
            Sight::Leaf(_, n) => n.last_below(end),
        }
    }
}
