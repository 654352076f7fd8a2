//! Trees of one owner, in layers, from the nodes up to the trees.
//!
//! `nodes` is the storage: a slot for each node, an inner one or a leaf (`slots`). An inner node (`inner`) has a prefix
//! and by form its `places`, whose `entries` are nodes by their slots, or leaves with one value (`inline_leaf`), which have no slot and
//! lie there; a leaf with a slot of its own (`leaf_node`) has a prefix and by form its `values`. Each has a name (`names`), and to
//! contracts each is a node of those that shared trees have.
//!
//! Over it, `lookup` tells what a node has for a key, `prefix_split` where a key leaves a prefix, and `children` changes what hangs
//! in a node. An `arena` is the nodes and their budget. It goes down a key's way, whose end is a `place`; there `edit` puts
//! values in and splits, and `removing` takes them out, with the nodes that go or shrink. `pairs` has these as calls on a
//! map, and `close` ends a tree, with a `drainer`.
//!
//! A walk reads each node once, as a `sight`: `scan` gives the pairs in order, `writing` puts a range of them into a slice,
//! and `survey` counts the nodes, for `stats`. The trees are `congee`, of words, `u64_congee`, whose keys are numbers, and
//! `congee_arc`, of shared values. What a tree of words has beside its point calls stands apart: `nearest`, `iter`, `updates`,
//! `entry`, and `several`, `building` and `compared`, which go over pairs by their `numbers`; `u64_calls` and `u64_entry` are the same
//! of numbers, `arc_calls` and `arc_iter` what there is of it of shared values, and `into_iter` makes trees what a `for` goes over.
mod arc_calls;
mod arc_iter;
mod arena;
mod building;
mod children;
mod close;
mod compared;
mod congee;
mod congee_arc;
mod drainer;
mod edit;
mod entries;
mod entry;
mod inline_leaf;
mod inner;
mod into_iter;
mod iter;
mod leaf_node;
mod lookup;
mod names;
mod nearest;
mod nodes;
mod numbers;
mod ordered;
mod pairs;
mod place;
mod places;
mod prefix_split;
mod removing;
mod scan;
mod several;
mod shown;
mod sight;
mod slots;
mod stats;
mod survey;
mod u64_calls;
mod u64_congee;
mod u64_entry;
mod updates;
mod values;
mod writing;

pub use arc_calls::Uncomputed;
pub use arc_iter::{ArcIntoIter, ArcIter, ArcValues};
pub use building::BuildError;
pub use congee::Congee;
pub use congee_arc::{CongeeArc, Count, owner_of, payload_of};
pub use drainer::{Calls, Drainer, NoDrain};
pub use entry::Entry;
pub use into_iter::IntoIter;
pub use iter::{Iter, Keys, Values};
pub use stats::{LevelStats, NodeInfo, NodeStats};
pub use u64_congee::U64Congee;
pub use u64_entry::U64Entry;
