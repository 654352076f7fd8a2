//! What belongs to the index for threads: whole calls, turn by turn, and the audit of a journal.
//!
//! `tree` has an index under its lock (`locked`, or with a journal `journaled_world`). A call is driven (`driver`): its turns are
//! begun and gone on with one hold each (`turns`, `writes`), its closure answers between two of them (`answers`), and
//! how it reads its end stands in `replies`; a round is three calls (`rounds`). `word_congee`, `u64_congee`, `congee_arc` and
//! `journaled` are the types that threads share, called with a worker and a guard (`tokens`); the last leaves a `journal`.

pub(crate) mod answers;
pub(crate) mod auditing;
pub(crate) mod congee_arc;
pub(crate) mod driver;
pub(crate) mod journal;
pub(crate) mod journaled;
pub(crate) mod journaled_world;
pub(crate) mod locked;
pub(crate) mod of_words;
pub(crate) mod progress;
pub(crate) mod replies;
pub(crate) mod rounds;
pub(crate) mod share;
pub(crate) mod tokens;
pub(crate) mod tree;
pub(crate) mod turns;
pub(crate) mod u64_congee;
pub(crate) mod watch;
pub(crate) mod word_congee;
pub(crate) mod writes;
