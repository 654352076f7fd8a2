//! The store.
ghost use Rattle.std.specs.Prelude.{◌≡◌, ◌+◌, ◌-◌, ◌^◌, ◌<◌, ◌≤◌, ℕ, List, [], ◌∷◌, ◌++◌, Option, None, Some, IfOk, IfErr, IfSome, IfNone, OnOk, OnErr, IsSome};
ghost use Rattle.std.specs.FinMap as map;
ghost use Rattle.judge.specs.Answer.{set_at};
ghost use Rattle.judge.specs.Words.{joined};
ghost use Rattle.congee.specs.owned.Nearest.{NoneIn};
ghost use Rattle.trial.specs.Versions.{Lists, MayRead, Reads, Tells, Write, count_in, fewer_by_one, last_of};

use crate::examples::versions::keys::{Version, Written};
use crate::examples::versions::vacuum::{Versions, vacuum_rows};
use congee::{Allocator, Congee, DefaultAllocator, OOMError};
use std::alloc::{AllocError, Global};

/// Why a call was refused. It changed nothing.
#[derive(Clone, Copy, PartialEq, Eq, Debug)]
pub enum Refused {
    /// The last stamp was given.
    Stamps,
    /// No more snapshots of one stamp can be counted.
    Snapshots,
    /// There is no room for a node.
    Room(OOMError),
}

/// What a reader sees: each row as it stood after the write of this stamp, until the store ends it. One that is dropped stays counted.
#[derive(Drop)]
pub struct Snapshot {
    stamp: u32,
}

/// Rows with their versions. Each write makes one, under a stamp of its own; the first has stamp 1.
#[derive(Drop)]
pub struct Store<A: Allocator = DefaultAllocator> {
    versions: Versions<A>,
    live: Live,
    /// The stamp of the last write.
    last: u32,
    ghost free: { (row stamp : ℕ) → last < stamp → stamp < 2 ^ 32 → map.get versions.pairs (joined row stamp) ≡ None },
}

impl Snapshot {
    /// The stamp of the last write that it sees.
    pub fn stamp(&self) -> u32
        ensures { result ≡ self.now.stamp }
    {
        self.stamp
    }
}

/// How many live snapshots each stamp has.
type Live = Congee<u32, u64, DefaultAllocator>;

/// Counts one fewer at a stamp.
fn count_off(live: &mut Live, stamp: u32)
    ensures { live.new.pairs ≡ set_at live.old.pairs stamp (fewer_by_one (map.get live.old.pairs stamp)) }
{
    let count = live.get(&stamp).unwrap_or(0);
    if count <= 1 {
        live.remove(&stamp);
        return;
    }
    match live.insert(stamp, count - 1) {
        Ok(_before) => {}
        Err(_) => unreachable!(),
    }
}

impl<A: Allocator> Store<A> {
    /// No row has a version. Refused for want of room for the trees' roots.
    pub fn new(alloc: Global, allocator: A) -> Result<Self, OOMError>
        ensures tells { IfOk result (λ s. Tells s.versions.pairs s.live.pairs s.last []) }
        ensures base { IfOk result (λ s. s.versions.base ≡ A.charged_of allocator) }
    {
        let versions = Congee::new(alloc, allocator)?;
        let live = Congee::new(alloc, DefaultAllocator::new())?;
        Ok(Store {
            versions,
            live,
            last: 0,
        })
    }

    /// A snapshot of what has been written so far. It is live until `end`.
    pub fn begin(&mut self) -> Result<Snapshot, Refused>
        ensures stamp { IfOk result (λ s. s.stamp ≡ self.old.last) }
        ensures counted { IfOk result (λ s. self.new.live.pairs ≡ map.insert self.old.live.pairs s.stamp (count_in (map.get self.old.live.pairs s.stamp) + 1)) }
        ensures tells { (log : List Write) → Tells self.old.versions.pairs self.old.live.pairs self.old.last log → Tells self.new.versions.pairs self.new.live.pairs self.new.last log }
        ensures refused { OnErr result (self.new.live.pairs ≡ self.old.live.pairs) }
        ensures kept { (self.new.versions ≡ self.old.versions) × (self.new.last ≡ self.old.last) }
    {
        let count = self.live.get(&self.last).unwrap_or(0);
        let Some(more) = count.checked_add(1) else {
            return Err(Refused::Snapshots);
        };
        match self.live.insert(self.last, more) {
            Ok(_before) => Ok(Snapshot { stamp: self.last }),
            Err(error) => Err(Refused::Room(error)),
        }
    }

    /// Ends a snapshot. Once none of its stamp is live, a vacuum may take what it saw.
    pub fn end(&mut self, snapshot: Snapshot)
        ensures counted { self.new.live.pairs ≡ set_at self.old.live.pairs snapshot.stamp (fewer_by_one (map.get self.old.live.pairs snapshot.stamp)) }
        ensures tells { (log : List Write) → Tells self.old.versions.pairs self.old.live.pairs self.old.last log → Tells self.new.versions.pairs self.new.live.pairs self.new.last log }
        ensures kept { (self.new.versions ≡ self.old.versions) × (self.new.last ≡ self.old.last) }
    {
        count_off(&mut self.live, snapshot.stamp);
    }

    /// The value that a row has for a snapshot; none where it has no version up to it, or where the last such deleted it.
    pub fn read(&self, snapshot: &Snapshot, row: u32) -> Option<u32>
        ensures shown { Reads self.now.versions.pairs row snapshot.now.stamp result }
        ensures last { (log : List Write) → Tells self.now.versions.pairs self.now.live.pairs self.now.last log → IsSome (map.get self.now.live.pairs snapshot.now.stamp)
            → result ≡ last_of log row snapshot.now.stamp }
    {
        let first = Version { row, stamp: 0 };
        let last = Version {
            row,
            stamp: snapshot.stamp,
        };
        match self.versions.last_in(first..=last) {
            Some((_, written)) => written.value,
            None => None,
        }
    }

    /// Makes a version under the next stamp, which it gives.
    fn put(&mut self, row: u32, value: Option<u32>) -> Result<u32, Refused>
        ensures stamp { IfOk result (λ stamp. (stamp ≡ self.old.last + 1) × (self.new.last ≡ stamp)) }
        ensures tells { IfOk result (λ stamp. (log : List Write) → Tells self.old.versions.pairs self.old.live.pairs self.old.last log
            → Tells self.new.versions.pairs self.new.live.pairs self.new.last (record { row = row; stamp = stamp; value = value } ∷ log)) }
        ensures live { self.new.live ≡ self.old.live }
        ensures refused { OnErr result ((self.new.versions.pairs ≡ self.old.versions.pairs) × (self.new.last ≡ self.old.last)) }
        ensures base { self.new.versions.base ≡ self.old.versions.base }
    {
        let Some(stamp) = self.last.checked_add(1) else {
            return Err(Refused::Stamps);
        };
        match self
            .versions
            .insert(Version { row, stamp }, Written { value })
        {
            Ok(_before) => {}
            Err(error) => return Err(Refused::Room(error)),
        }
        self.last = stamp;
        Ok(stamp)
    }

    /// Gives a row a value, under the next stamp, which it answers.
    pub fn write(&mut self, row: u32, value: u32) -> Result<u32, Refused>
        ensures stamp { IfOk result (λ stamp. (stamp ≡ self.old.last + 1) × (self.new.last ≡ stamp)) }
        ensures tells { IfOk result (λ stamp. (log : List Write) → Tells self.old.versions.pairs self.old.live.pairs self.old.last log
            → Tells self.new.versions.pairs self.new.live.pairs self.new.last (record { row = row; stamp = stamp; value = Some value } ∷ log)) }
        ensures live { self.new.live ≡ self.old.live }
        ensures refused { OnErr result ((self.new.versions.pairs ≡ self.old.versions.pairs) × (self.new.last ≡ self.old.last)) }
        ensures base { self.new.versions.base ≡ self.old.versions.base }
    {
        self.put(row, Some(value))
    }

    /// Deletes a row, under the next stamp, which it answers: snapshots from that one on are told nothing of it.
    pub fn delete(&mut self, row: u32) -> Result<u32, Refused>
        ensures stamp { IfOk result (λ stamp. (stamp ≡ self.old.last + 1) × (self.new.last ≡ stamp)) }
        ensures tells { IfOk result (λ stamp. (log : List Write) → Tells self.old.versions.pairs self.old.live.pairs self.old.last log
            → Tells self.new.versions.pairs self.new.live.pairs self.new.last (record { row = row; stamp = stamp; value = None } ∷ log)) }
        ensures live { self.new.live ≡ self.old.live }
        ensures refused { OnErr result ((self.new.versions.pairs ≡ self.old.versions.pairs) × (self.new.last ≡ self.old.last)) }
        ensures base { self.new.versions.base ≡ self.old.versions.base }
    {
        self.put(row, None)
    }

    /// The least row with a version, from one on and before another.
    fn row_within(&self, start: u32, end: u32) -> Option<u32>
        ensures some { IfSome result (λ row. (start ≤ row) × (row < end) × NoneIn self.now.versions.pairs (joined start 0) (joined row 0)) }
        ensures none { IfNone result (NoneIn self.now.versions.pairs (joined start 0) (joined end 0)) }
    {
        let first = Version {
            row: start,
            stamp: 0,
        };
        let past = Version { row: end, stamp: 0 };
        match self.versions.first_in(first..past) {
            Some((version, _)) => Some(version.row),
            None => None,
        }
    }

    /// Puts a row behind those before it, if it has a value for a snapshot.
    fn put_row(
        &self,
        rows: &mut Vec<(u32, u32)>,
        snapshot: &Snapshot,
        row: u32,
    ) -> Result<(), AllocError>
        ensures { OnOk result ((start : ℕ) → start ≤ row → Lists self.now.versions.pairs snapshot.now.stamp start row rows.old.items
            → Lists self.now.versions.pairs snapshot.now.stamp start (row + 1) rows.new.items) }
    {
        let Some(value) = self.read(snapshot, row) else {
            return Ok(());
        };
        rows.push((row, value))?;
        Ok(())
    }

    /// The rows from one on and before another that have a value for a snapshot, ascending, each with the value that a read gives.
    pub fn scan(
        &self,
        alloc: Global,
        snapshot: &Snapshot,
        start: u32,
        end: u32,
    ) -> Result<Vec<(u32, u32)>, AllocError>
        ensures { IfOk result (λ rows. Lists self.now.versions.pairs snapshot.now.stamp start end rows.items) }
    {
        let mut rows = Vec::new(alloc);
        if start >= end {
            return Ok(rows);
        }
        let mut from = start;
        while let Some(row) = self.row_within(from, end) {
            self.put_row(&mut rows, snapshot, row)?;
            from = row + 1;
        }
        Ok(rows)
    }

    /// The stamp of the oldest live snapshot; where none is live, of one that would begin now.
    fn oldest(&self) -> u32
        ensures { (stamp : ℕ) → MayRead self.now.live.pairs self.now.last stamp → result ≤ stamp }
    {
        match self.live.first() {
            Some((stamp, _)) => stamp.min(self.last),
            None => self.last,
        }
    }

    /// Takes out the versions that no live snapshot sees, nor one that begins from now on: each behind which its row has another that
    /// is no newer than the oldest live snapshot. Gives their number.
    pub fn vacuum(&mut self) -> u64
        ensures tells { (log : List Write) → Tells self.old.versions.pairs self.old.live.pairs self.old.last log → Tells self.new.versions.pairs self.new.live.pairs self.new.last log }
        ensures live { (self.new.live ≡ self.old.live) × (self.new.last ≡ self.old.last) }
        ensures base { self.new.versions.base ≡ self.old.versions.base }
    {
        let oldest = self.oldest();
        vacuum_rows(&mut self.versions, oldest)
    }

    /// The bytes that versions take of the budget, and what it had charged before.
    pub fn charged(&self) -> u64
        ensures { result ≡ A.charged_of self.now.versions.allocator }
    {
        self.versions.charged()
    }

    /// Drops all versions. The budget comes back with the charge with which it came in.
    pub fn close(self) -> A
        ensures charged { A.charged_of result ≡ self.versions.base }
    {
        let Store { versions, .. } = self;
        let (allocator, _) = versions.close();
        allocator
    }
}
