//! A node that is locked, without waiting.
ghost use Rattle.std.specs.Prelude.{◌≡◌, ◌≢◌, ℕ, ◌<◌, ◌≤◌, ◌+◌, ◌%◌, ◌^◌};
ghost use Rattle.optimistic.specs.words.Told.{view, IsOf};
ghost use Rattle.optimistic.specs.tree.Locks.{IsLocking};
ghost use Rattle.optimistic.specs.tree.Reads.{IsPlace};

use crate::tree::get::Tree;
use crate::tree::place::Place;
use crate::words::Hand;

/// What came of an attempt to lock a node.
#[derive(Clone, Copy, Drop)]
pub enum Locking {
    /// The hand has it, at this version.
    Had(u64),
    /// Another thread has it, or was faster.
    Busy,
    /// Its version is the last one that a node can have.
    Exhausted,
}

impl Tree {
    /// Locks a node, if nobody has it.
    #[inline(always)]
    pub fn try_lock(&self, hand: &mut Hand, at: Place) -> Locking
        requires of { IsOf self.now.nodes.table.shared.table_id hand.old }
        requires at { IsPlace at (view hand.old) }
        ensures of { IsOf self.now.nodes.table.shared.table_id hand.new }
        ensures place { IsPlace at (view hand.new) }
        ensures locking { IsLocking at.node result (view hand.old) (view hand.new) }
    {
        let version = self.nodes.load(hand, at.node, at.form, 0);
        if version % 2 == 1 {
            return Locking::Busy;
        }
        if version > u64::MAX - 2 {
            return Locking::Exhausted;
        }
        let locked = self.nodes.lock(hand, at.node, at.form, version);
        if !locked {
            return Locking::Busy;
        }
        Locking::Had(version + 1)
    }
}
