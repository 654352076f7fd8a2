//! The store of the example `versions`, run on calls that look drawn, with a line for each.

ghost use Rattle.std.specs.Prelude.{◌<◌};

use crate::examples::versions::store::{Refused, Snapshot, Store};
use crate::output::print;
use congee::{Allocator, DefaultAllocator};
use std::alloc::{AllocError, AllocFailed, Global};
use std::io::Write;

/// The most snapshots that are live at once.
const LIVE_MAX: usize = 3;

/// How many calls are made.
const CALLS: u32 = 40;

/// How many rows are called on, and how many values are written.
const ROWS: u64 = 6;

const VALUES: u64 = 100;

/// A store, its live snapshots, the oldest first, and the number that the next call comes from.
#[derive(Drop)]
struct Run {
    store: Store,
    live: Vec<Snapshot>,
    drawn: u64,
}

/// Why a run ends early.
#[derive(Clone, Copy, Debug, PartialEq, Eq, Drop)]
enum Stop {
    /// The store refused a call.
    Refused(Refused),
    /// A growth of the program's own was refused.
    Memory,
}

impl From<Refused> for Stop {
    ghost from_gives = { λ _ _. Unit {0} };

    fn from(refused: Refused) -> Stop {
        Stop::Refused(refused)
    }
}

impl From<AllocError> for Stop {
    ghost from_gives = { λ _ _. Unit {0} };

    fn from(_: AllocError) -> Stop {
        Stop::Memory
    }
}

impl<T: Drop> From<AllocFailed<T>> for Stop {
    ghost from_gives = { λ _ _. Unit {0} };

    fn from(_: AllocFailed<T>) -> Stop {
        Stop::Memory
    }
}

/// What is told of a row.
fn told(alloc: Global, value: Option<u32>) -> Result<String, AllocError> {
    match value {
        Some(value) => format!(in alloc; "{value}"),
        None => format!(in alloc; "nothing"),
    }
}

impl Run {
    /// The next number below this one.
    fn draw(&mut self, end: u64) -> u64
        requires { 0 < end }
        ensures { result < end }
    {
        self.drawn = self
            .drawn
            .wrapping_mul(6_364_136_223_846_793_005)
            .wrapping_add(1_442_695_040_888_963_407);
        (self.drawn >> 33) % end
    }

    /// Begins a snapshot.
    fn begin(&mut self, alloc: Global) -> Result<String, Stop> {
        let snapshot = self.store.begin()?;
        let stamp = snapshot.stamp();
        self.live.push(snapshot)?;
        Ok(format!(in alloc; "begin at {stamp}\n")?)
    }

    /// Ends the oldest snapshot, and takes out what none sees any more.
    fn end(&mut self, alloc: Global) -> Result<String, Stop> {
        if self.live.is_empty() {
            return self.begin(alloc);
        }
        let snapshot = self.live.remove(0);
        let stamp = snapshot.stamp();
        self.store.end(snapshot);
        let gone = self.store.vacuum();
        Ok(format!(in alloc; "end at {stamp}, vacuum: {gone} gone\n")?)
    }

    /// Reads a row by the oldest snapshot.
    fn read(&mut self, alloc: Global, row: u32) -> Result<String, Stop> {
        let Some(snapshot) = self.live.first() else {
            return self.begin(alloc);
        };
        let told = told(alloc, self.store.read(snapshot, row))?;
        let stamp = snapshot.stamp();
        Ok(format!(in alloc; "read {row} at {stamp}: {told}\n")?)
    }

    /// Reads all rows by the oldest snapshot.
    fn scan(&mut self, alloc: Global) -> Result<String, Stop> {
        let Some(snapshot) = self.live.first() else {
            return self.begin(alloc);
        };
        let stamp = snapshot.stamp();
        let mut text = format!(in alloc; "scan at {stamp}:")?;
        for (row, value) in self.store.scan(alloc, snapshot, 0, ROWS as u32)? {
            let pair = format!(in alloc; " {row}={value}")?;
            text.push_str(&pair)?;
        }
        text.push_str("\n")?;
        Ok(text)
    }

    /// One call, and the line that tells it.
    fn call(&mut self, alloc: Global) -> Result<String, Stop> {
        let row = self.draw(ROWS) as u32;
        match self.draw(8) {
            0..=2 => {
                let value = self.draw(VALUES) as u32;
                let stamp = self.store.write(row, value)?;
                Ok(format!(in alloc; "write {row} = {value}: stamp {stamp}\n")?)
            }
            3 => {
                let stamp = self.store.delete(row)?;
                Ok(format!(in alloc; "delete {row}: stamp {stamp}\n")?)
            }
            4 if self.live.len() < LIVE_MAX => self.begin(alloc),
            5 => self.read(alloc, row),
            6 => self.scan(alloc),
            _ => self.end(alloc),
        }
    }
}

/// What is printed of the calls.
fn text(alloc: Global) -> Result<String, AllocError> {
    let Ok(store) = Store::new(alloc, DefaultAllocator::new()) else {
        return Err(AllocError);
    };
    let mut run = Run {
        store,
        live: Vec::new(alloc),
        drawn: 6,
    };
    let mut text = String::new(alloc);
    for _ in 0..CALLS {
        match run.call(alloc) {
            Ok(line) => text.push_str(&line)?,
            Err(Stop::Refused(refused)) => {
                let line = format!(in alloc; "refused: {refused:?}\n")?;
                text.push_str(&line)?;
            }
            Err(Stop::Memory) => return Err(AllocError),
        }
    }
    let Run { store, .. } = run;
    let left = store.close().charged();
    let line = format!(in alloc; "close: {left} bytes left\n")?;
    text.push_str(&line)?;
    Ok(text)
}

/// Makes calls on a store of versions, prints a line for each, and tells the exit status: 0, or 1 for want of memory or where the
/// writer fails.
pub fn versions<W: Write>(alloc: Global, writer: &mut W) -> u8 {
    let Ok(text) = text(alloc) else {
        return 1;
    };
    match print(writer, text.as_bytes()) {
        Ok(()) => 0,
        Err(_) => 1,
    }
}
