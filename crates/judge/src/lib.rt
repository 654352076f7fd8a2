//! What a journal of calls on one map must say, and the test of it.
//!
//! A journal lists calls with their replies in the order in which they took effect. It is legal
//! where one finite map, empty at first, answers each call as its entry says.
//!
//! The test replays it. It keeps the pairs that stand after the entries so far, in a `BTreeMap` that begins empty. For
//! each entry in turn it makes the call on these pairs and compares the map's reply with the entry's: where they differ
//! the verdict is `Wrong` with the entry's place; after the last entry it is `Legal`. So one pass is enough, of
//! logarithmic steps, and only the pairs that stand are in memory.
//!
//! That is exact both ways, since a call has one reply on one map: what its closure answered when it took effect
//! stands in the entry's call, so nobody is asked again and nothing is left to choose. An entry tells of its worker by
//! number, which the test doesn't look at.
//!
//! | What | Its file |
//! |---|---|
//! | calls, replies and entries | `journal` |
//! | the replay | `checker`, over the pairs of `standing` |
//! | what may be a key (`Word64`, `Ordered64`) or a value (`Payload`) of such a map | `words`, `payloads` |
#![tactic(auto)]

mod checker;
mod journal;
mod payloads;
mod standing;
mod words;

pub use checker::{Verdict, check};
pub use journal::{Call, Entry, Reply};
pub use payloads::{ArcPayload, Payload};
pub use words::{Ordered64, Word64, number_of, word_of};
