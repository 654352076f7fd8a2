//! An index for keys of eight bytes and the reclamation of its nodes, as one machine: one atomic
//! step at a time, a call of each worker in flight.
//!
//! The tree's calls are those of `congee`'s protocol, and its store is the cells of a `crossbeam_epoch::World`: a node
//! stands in a cell, and its child nodes are known by their cells' names. A worker is a participant. It pins, calls,
//! unpins; a call that takes a node out of the tree defers its destruction to the collector, and some later pin or
//! flush, of whatever worker, destroys it once nobody is pinned who could have it in hand. Then its bytes come off the
//! charge.
//!
//! A writing call must not fail once it has taken effect, so it asks first for what it will want. Its first step takes
//! a place of the journal, where there is one; the next ones make two places free in the worker's bag; then it walks the
//! tree, a step at a time. Whatever is refused is refused on this way, before the step that decides, and gives back
//! what was made. The deciding step writes the call's entry down; after it the call unlocks, hands over the nodes
//! that it took out, and is done.
//!
//! For threads the whole machine stands under one lock, and each step of a call is one hold of it: any two calls
//! interleave as on the machine, and no closure runs while the lock is held. That is the price: no two steps at once.
//!
//! | What | Its room |
//! |---|---|
//! | nodes in cells: read, made, changed, handed over, counted, destroyed; the root, and walks through the tree | `nodes` |
//! | the calls in flight, a step by its event, and what is counted of pairs | `engine` |
//! | the machine, a step at a time, with a log of what was asked and the journal | `world` |
//! | whole calls, their replies, any list of steps, and what follows of them | `calls` |
//! | indexes that threads share, with guards and workers | `threads` |
#![tactic(auto)]

mod calls;
mod engine;
mod id;
mod limits;
mod nodes;
mod refusal;
mod steps;
mod threads;
mod world;

pub use calls::laws::{
    comes_back, counts_nodes, counts_pairs, runs_alone, runs_join, runs_map, runs_plain, runs_spare,
};
pub use calls::map_laws::calls_map;
pub use calls::promises::keeps_promises;
pub use calls::replies::pairs_stand;
pub use calls::run_laws::{
    alone_by_reports, answers_wanted, calls_answer, calls_end, guards_keep, locks_apart,
    nodes_filled, nodes_leave, readers_refused, runs_journal,
};
pub use id::Id;
pub use limits::Limits;
pub use refusal::Refusal;
pub use steps::{Done, Event, Kind, Op, Outcome, Ran, Report, Step, Survey};
pub use threads::auditing::audit;
pub use threads::congee_arc::CongeeArc;
pub use threads::driver::{Turns, drive, turns_tell};
pub use threads::journal::Journal;
pub use threads::journaled::Journaled;
pub use threads::share::Share;
pub use threads::tokens::{Guard, Worker};
pub use threads::u64_congee::U64Congee;
pub use threads::watch::{Every, Watch};
pub use threads::word_congee::Congee;
pub use world::World;
pub use world::laws::{waits, whereabouts};
