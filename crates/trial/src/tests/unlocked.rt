//! The index whose readers take no lock: drawn calls of one thread and of many, judged to be one map's; what threads put, and add
//! up; an index without room; a closure that waits for another call; keys that come and go for as long as it lasts; and each public
//! call once.
//!
//! No test has a version near its end: each begins at 0 and is raised by two at a lock, to 2^64. That such a write is refused, and
//! changes nothing, is proved.

mod alone;
mod backward;
mod calls;
mod churn;
mod faces;
mod histories;
mod lanes;
mod many;
mod rooms;
mod scans;
mod search;
mod sums;
mod versions;
mod waits;

use optimistic::{Pair, U64Congee, Worker};
use std::alloc::{AllocError, Global};
use std::test::Fail;

/// The words up to the root's end.
const ROOT_END: usize = 536;

/// An index with room for nodes of so many words beside its root.
fn opened(alloc: Global, room: u32) -> Result<U64Congee, AllocError> {
    match U64Congee::new(alloc, ROOT_END + room as usize) {
        Ok(index) => Ok(index),
        Err(_) => Err(AllocError),
    }
}

/// Drops a worker.
fn leave(worker: Worker<'_>) {
    drop(worker);
}

/// Closes an index, and takes its pairs.
fn drained(alloc: Global, index: U64Congee) -> Result<Vec<Pair>, Fail> {
    let last = index.worker(alloc)?.retire();
    match index.close(last) {
        Ok(mut pairs) => match pairs.drain(alloc) {
            Ok(pairs) => Ok(pairs),
            Err(_) => Err("pairs that aren't told".into()),
        },
        Err(_) => Err("a node is locked".into()),
    }
}
