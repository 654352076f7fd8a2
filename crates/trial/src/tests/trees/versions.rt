//! The store of versions, beside a plain list of what was written.

use crate::examples::versions::store::{Snapshot, Store};
use crate::tests::asserts::assert_same;
use crate::tests::machine::drawn::next;
use congee::{Allocator, DefaultAllocator};
use std::alloc::{AllocError, Global};
use std::test::Fail;

/// How many calls are made, of how many rows, with how many snapshots live at most.
const CALLS: u32 = 100_000;

const ROWS: u32 = 16;

const LIVE_MAX: usize = 4;

/// A row, and what was written to it; none where it was deleted. The first write has stamp 1.
type Write = (u32, Option<u32>);

/// What the last write to a row left there, of so many.
fn last_of(writes: &[Write], stamp: u32, row: u32) -> Option<u32> {
    for place in (0..stamp as usize).rev() {
        match writes.get(place) {
            Some((written, value)) if *written == row => return *value,
            _ => {}
        }
    }
    None
}

/// The rows that have a value after so many writes, each with it.
fn rows_of(alloc: Global, writes: &[Write], stamp: u32) -> Result<Vec<(u32, u32)>, AllocError> {
    let mut rows = Vec::new(alloc);
    for row in 0..ROWS {
        match last_of(writes, stamp, row) {
            Some(value) => rows.push((row, value))?,
            None => {}
        }
    }
    Ok(rows)
}

/// A store, its live snapshots, the oldest first, and all that was written.
#[derive(Drop)]
struct Both {
    store: Store,
    live: Vec<Snapshot>,
    writes: Vec<Write>,
}

impl Both {
    /// Writes a row, or deletes it, in both. Whether the stamp is the number of writes.
    fn writes(&mut self, row: u32, value: Option<u32>) -> Result<bool, AllocError> {
        self.writes.push((row, value))?;
        let told = match value {
            Some(value) => self.store.write(row, value),
            None => self.store.delete(row),
        };
        Ok(match told {
            Ok(stamp) => stamp as usize == self.writes.len(),
            Err(_) => false,
        })
    }

    /// Begins a snapshot, if few are live. Whether it was begun at the number of writes.
    fn begins(&mut self) -> Result<bool, AllocError> {
        if self.live.len() == LIVE_MAX {
            return Ok(true);
        }
        match self.store.begin() {
            Ok(snapshot) => {
                let agrees = snapshot.stamp() as usize == self.writes.len();
                self.live.push(snapshot)?;
                Ok(agrees)
            }
            Err(_) => Ok(false),
        }
    }

    /// Whether each live snapshot is told of a row what the list has.
    fn reads(&self, row: u32) -> bool {
        for snapshot in &self.live {
            let plain = last_of(self.writes.as_slice(), snapshot.stamp(), row);
            if self.store.read(snapshot, row) != plain {
                return false;
            }
        }
        true
    }

    /// Whether a scan for the oldest snapshot has the rows that the list has.
    fn scans(&self, alloc: Global) -> Result<bool, AllocError> {
        let Some(snapshot) = self.live.first() else {
            return Ok(true);
        };
        let rows = self.store.scan(alloc, snapshot, 0, ROWS)?;
        let plain = rows_of(alloc, self.writes.as_slice(), snapshot.stamp())?;
        Ok(rows.as_slice() == plain.as_slice())
    }

    /// Ends the oldest snapshot, and takes out what none sees any more.
    fn ends(&mut self) {
        if self.live.is_empty() {
            return;
        }
        let snapshot = self.live.remove(0);
        self.store.end(snapshot);
        self.store.vacuum();
    }

    /// Makes the call of a number. Whether both tell the same.
    fn agrees(&mut self, alloc: Global, number: u64) -> Result<bool, AllocError> {
        let row = (number >> 60) as u32;
        match (number >> 57) % 8 {
            0..=2 => self.writes(row, Some((number >> 33) as u32)),
            3 => self.writes(row, None),
            4 => self.begins(),
            5 => Ok(self.reads(row)),
            6 => self.scans(alloc),
            _ => {
                self.ends();
                Ok(true)
            }
        }
    }
}

#[test]
fn a_store_of_versions_tells_what_was_written(rt: HostRuntime) -> Result<(), Fail> {
    let alloc = rt.alloc();
    let mut both = Both {
        store: Store::new(alloc, DefaultAllocator::new())?,
        live: Vec::new(alloc),
        writes: Vec::new(alloc),
    };
    let mut number = 7;
    let mut wrong = 0u32;
    for _ in 0..CALLS {
        number = next(number);
        if !both.agrees(alloc, number)? {
            wrong = wrong.saturating_add(1);
        }
    }
    let live = both.live.len();
    let Both { store, .. } = both;
    let left = store.close().charged();
    assert_same(&rt, (wrong, live <= LIVE_MAX, left), (0, true, 0));
    Ok(())
}
