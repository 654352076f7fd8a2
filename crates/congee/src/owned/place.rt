//! Where a key's way through a tree ends, and what hangs there.
ghost use Rattle.std.specs.Prelude.{◌≡◌, ◌*◌};

use crate::owned::names::Name;

/// What a node has for a key.
#[derive(Drop)]
pub(crate) enum Way<'a, P> {
    /// Nothing.
    Free,
    /// A value.
    Held(&'a P),
    /// A node whose prefix the key has.
    Below(Name),
    /// A node whose prefix the key lacks.
    Apart(Name),
}

/// What a node in a slot has for a key, and a leaf that lies in it and leads the key.
#[derive(Drop)]
pub(crate) enum Onward<'a, P> {
    /// Nothing.
    Free,
    /// A value.
    Held(&'a P),
    /// A leaf that lies in it, whose prefix the key has, and that has nothing for the key.
    FreeBelow(Name),
    /// Such a leaf, with the key's value.
    HeldBelow(Name, &'a P),
    /// A node with a slot of its own, whose prefix the key has.
    Below(usize),
    /// A node whose prefix the key lacks.
    Apart(Name),
}

/// What hangs under a byte.
#[derive(Drop)]
pub(crate) enum Found<'a, P> {
    /// A blank, which is never put in.
    Blank,
    /// A node with a slot of its own.
    Node(Name),
    /// A leaf with one value, which lies there: its name, and its pair.
    Leaf(Name, u64, &'a P),
    /// A value.
    Value(&'a P),
}

/// What the last node has below the key's byte.
#[derive(Drop)]
pub(crate) enum Spot {
    /// A value.
    Held,
    /// Nothing.
    Free,
    /// A node whose prefix the key lacks.
    Apart(Name),
}

/// The end of a key's way: the last node, the one above it and the one above that, and what the last one has for the key.
/// Above the root stands the root.
#[derive(Drop)]
pub(crate) struct Place {
    pub top: Name,
    pub above: Name,
    pub at: Name,
    pub spot: Spot,
}

impl Place {
    /// The end of a way, below two nodes with slots of their own.
    #[inline(always)]
    pub(crate) fn ending(top: usize, above: usize, at: Name, spot: Spot) -> Self
        ensures top { result.top ≡ 257 * top }
        ensures above { result.above ≡ 257 * above }
        ensures at { result.at ≡ at }
        ensures spot { result.spot ≡ spot }
    {
        Place {
            top: Name::of(top),
            above: Name::of(above),
            at,
            spot,
        }
    }
}
