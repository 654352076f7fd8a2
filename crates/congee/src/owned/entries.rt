//! What stands in a place of an inner node.
ghost use Rattle.std.specs.Prelude.{◌≡◌, ◌<◌, length, slice_index};

use crate::keys::KEY_BYTES;

/// How many bytes of a key come after its first.
pub(crate) const TAIL_LEN: usize = KEY_BYTES - 1;

/// The bytes of a key after its first.
#[derive(Drop)]
pub(crate) struct Tail {
    pub(crate) bytes: [u8; TAIL_LEN],
    ghost whole: { length bytes ≡ 7 },
    ghost last: { slice_index bytes 6 < 256 },
}

/// A node by its slot, or a leaf with one value. The first byte of the leaf's key is the one that leads to it from the root,
/// so with a value of eight bytes it takes sixteen.
#[derive(Drop, Default)]
pub(crate) enum Entry<P> {
    /// It fills the places that no byte uses.
    #[default]
    Blank,
    Node(usize),
    Leaf(Tail, P),
}

/// A leaf with one value where it lies: its key, and its value.
#[derive(Drop)]
pub(crate) struct LoneRef<'a, P> {
    pub(crate) key: [u8; KEY_BYTES],
    pub(crate) value: &'a P,
    ghost whole: { length key ≡ 8 },
    ghost last: { slice_index key 7 < 256 },
}

/// What hangs under a byte of an inner node.
#[derive(Drop)]
pub(crate) enum Hung<'a, P> {
    /// A blank, which is never put in.
    Blank,
    /// A node by its slot.
    Node(usize),
    /// A leaf with one value, which lies there.
    Leaf(LoneRef<'a, P>),
}
