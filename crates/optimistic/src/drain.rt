//! The pairs of a tree that no thread shares any more, in ascending order of keys.
//!
//! From any key on, the way down to it tells the key's value, or that no key up to some later one has one.

mod items;
pub(crate) mod keys;
pub(crate) mod nexts;
mod pairs;

pub use nexts::is_unlocked;
pub use pairs::{Locked, Pair, Pairs, Undrained};
