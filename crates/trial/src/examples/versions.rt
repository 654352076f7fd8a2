//! A store of rows that keep their versions, over an owned tree: readers have snapshots, and a vacuum takes out what no reader sees.
//!
//! What is promised, of any list of writes and deletions that the store tells (`Tells`; a new one tells the empty list):
//!
//! - a write puts itself before the list that it finds, under a stamp of its own, and a refused one changes nothing (`write`, `delete`);
//! - a live snapshot is told, of each row, the value that the last write to it left, of those up to the snapshot's stamp; nothing
//!   where that was a deletion or there is none (`read`);
//! - a scan has the rows of a range that a read would give a value of, ascending, each with that value, and no other (`scan`);
//! - beginning and ending snapshots and a vacuum leave what the store tells (`begin`, `end`, `vacuum`). A vacuum goes by the oldest
//!   live snapshot, which the store knows, since it counts them by their stamps.
pub mod at_once;
pub mod keys;
pub mod store;
pub mod vacuum;
