//! A concurrent ordered index whose readers take no lock: an adaptive radix tree over one table of words.
#![tactic(auto)]

mod changes;
mod desk;
mod drain;
mod face;
mod fill;
mod forms;
mod moves;
mod pairs;
mod tree;
mod words;

pub use drain::{Locked, Pair, Pairs, Undrained};
pub use face::{
    Congee, Filled, LEAST_WORDS, MOST_WORDS, Refusal, Retired, Seen, U64Congee, Unfilled,
    Uninserted, Unopened, Unreopened, Walk, WalkBack, WordWorker, Worker,
};
pub use tree::Unscanned;
