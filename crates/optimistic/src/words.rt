//! Versioned nodes as words of one table.
//!
//! Each node has a version word, which is odd while one thread has the node, and further words that only that thread
//! changes. Readers take no lock: they read the version, the words, and the version again.
//!
//! Every step is one atomic operation on one word. The rule that all steps keep says what the nodes were when they were
//! last settled, and that this is what a log of decided calls makes of them, as the author of a structure states it in a
//! `Shape`. A thread steps with a `Hand`, whose view is the last moment that it saw.

mod last;
mod nodes;
mod rule;

pub use last::Words;
pub use nodes::{Nodes, ROOT, Uncarved, width_of};
pub use rule::{Block, Entry, Extent, Hand, Moment, Note, Plot, Shape, Tenure, View};
