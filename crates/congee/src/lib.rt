//! The adaptive radix tree of `congee`: node forms, trees of one owner, and the protocol of a call on a shared tree.
//!
//! A key is eight bytes, the greatest first, so the order of keys is that of numbers. A path from the root spells a key:
//! each node maps the key's next byte to a child, and the last one, a leaf, maps its last byte to the value. Bytes that
//! all keys below a node share make no nodes of their own: the node stores them as its prefix, and a look-up compares
//! them on its way.
//!
//! A node is as big as it must be. Four forms hold at most 4, 16, 48 and 256 children: the first two as sorted bytes,
//! the third with an index of 256 places, the greatest with a place for each byte. A node that is full gives place to
//! one of the next form, and one that few children are left in to one of the form below, where there is room for that.
//! The root has 256 places and stays. An insertion whose key leaves a node's prefix midway splits it: a new node gets
//! what is common, and the old node and a new leaf below it. A leaf whose last value is taken goes too, and so does an
//! inner node that one child is left in, which comes into its place.
//!
//! Trees of one owner have layouts of their own: the third form of an inner node keeps its children in the order of their
//! bytes as the first two do; a leaf keeps values alone, a word in eight bytes, its greatest form beside a mask of the
//! bytes that have one; and a leaf with one value lies in its parent's place.
//!
//! A scan goes down to the least key that isn't less than its start, and on from child to child in the order of bytes,
//! so it gives pairs in ascending order and stops at its end or at its last place.
//!
//! `forms` has the nodes: four forms, each a finite map from bytes to children with a capacity and a
//! fixed prefix. `owned` has the trees of one owner, whose nodes stand in an arena. `protocol` has a
//! call on a shared tree, a step at a time, over any store of nodes. All charge an `allocator`.
#![tactic(auto)]

mod allocator;
pub mod forms;
mod keys;
mod owned;
pub mod protocol;

pub use allocator::{Allocator, DefaultAllocator, Limited, OOMError};
pub use forms::{
    Boxed, Child, MAX_PREFIX_LEN, Node, Node4, Node16, Node48, Node256, NodeIter, NodeType, Small,
};
pub use judge::{ArcPayload, Ordered64, Payload, Word64};
pub use keys::KEY_BYTES;
pub use owned::{
    ArcIntoIter, ArcIter, ArcValues, BuildError, Calls, Congee, CongeeArc, Count, Drainer, Entry,
    IntoIter, Iter, Keys, LevelStats, NoDrain, NodeInfo, NodeStats, U64Congee, U64Entry,
    Uncomputed, Values, owner_of, payload_of,
};
pub use protocol::{
    Machine, Move, NodeName, Noise, Op, Outcome, PlainStore, Played, Refusal, Seen, Step, Store,
    play, play_into, step_of,
};
