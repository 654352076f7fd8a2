//! The tree.
//!
//! Each node says in its second word which keys it covers. So the way down to a node is only a guess: a reader that finds
//! at one version of a node that it covers the key, and that its child there doesn't, has its answer.

pub(crate) mod ahead;
mod back;
mod branch;
mod child;
mod close;
mod fresh;
mod gaps;
mod get;
mod last;
mod lift;
mod lock;
mod locked;
pub(crate) mod names;
pub(crate) mod next;
pub(crate) mod place;
mod put;
mod reach;
mod replace;
mod reshape;
pub(crate) mod run;
pub(crate) mod run_back;
mod set;
mod sizes;
mod split;
mod stores;
mod trade;
pub(crate) mod trail;
mod used;
mod whole;
mod whole_back;
mod write;

pub use fresh::Free;
pub use get::{ATTEMPTS, TOP, Tree};
pub use reshape::Want;
pub use set::Set;
pub use trade::{Trade, share_of};
pub use whole::{Reached, Unscanned};
pub use write::{Condition, Write};
