//! A thread's calls.
ghost use Rattle.std.specs.Prelude.{◌≡◌, ◌+◌, ◌≤◌, [], IfNone, IfOk, IfSome};
ghost use Rattle.optimistic.specs.words.Kept.{calls_by, StartsWith};
ghost use Rattle.optimistic.specs.words.Room.{used};
ghost use Rattle.optimistic.specs.face.Calls.{Saw, Looked, Found};
ghost use Rattle.optimistic.specs.tree.Alone.{IsDisturbedIn};
ghost use Rattle.optimistic.specs.face.Workers.{IsWritten, WantsRoom};

use crate::face::close::Retired;
use crate::face::pool::Pool;
use crate::face::refusal::Refusal;
use crate::face::seen::Seen;
use crate::face::writes::{Written, came_of, outcome_of};
use crate::tree::{ATTEMPTS, Free, Set, Trade, Tree, Want, Write, share_of};
use crate::words::Hand;
use std::alloc::{AllocError, Global};
use std::hint::spin_loop;
use std::marker::Model;
use std::mem::replace;
use std::sync::Wait;
use std::thread::yield_now;

/// How often a worker that goes tries to leave its names: a trade of another worker takes some hundred nanoseconds, but its thread may
/// have to wait for a processor meanwhile.
const LEAVES: u32 = 10_000;

/// A thread's hand at an index, with the names of some nodes that were freed. Those that it has beyond a few, and all when it is
/// given back, it leaves to the index's other workers.
pub struct Worker<'t> {
    pub(crate) tree: &'t Tree,
    pub(crate) hand: Hand,
    free: Free,
    /// The moment at which the names were last used.
    names: Hand,
    pool: &'t Pool,
}

impl<'t> Model for Worker<'t> {
    ghost use Rattle.std.specs.Prelude.{◌≡◌};
    ghost use Rattle.optimistic.specs.face.Calls.{Known};
    ghost use Rattle.optimistic.specs.face.Workers.{known, HasNone, HasNames};
    ghost use Rattle.optimistic.specs.words.Told.{IsOf};

    ghost Value = { Known };

    ghost view = { λ w. known w.tree.now.nodes.table.shared.table_id w.hand.me.0 };

    ghost invariant = { λ w. IsOf w.tree.now.nodes.table.shared.table_id w.hand × HasNone w.hand.me.0 × HasNames w.tree.now.nodes.table.shared.table_id w.free w.names × (w.pool.now ≡ w.tree.now.nodes.table.shared.table_id) };
}

impl<'t> Drop for Worker<'t> {
    fn drop(self) {
        let retired = self.retire();
        drop(retired);
    }
}

impl<'t> Worker<'t> {
    /// A worker that has made no call.
    pub(crate) fn new(alloc: Global, tree: &'t Tree, pool: &'t Pool) -> Result<Self, AllocError>
        requires { pool.now ≡ tree.now.nodes.table.shared.table_id }
        ensures index { IfOk result (λ w. w.index ≡ tree.now.nodes.table.shared.table_id) }
        ensures new { IfOk result (λ w. (w.made ≡ []) × (calls_by w.by w.seen ≡ [])) }
    {
        let free = Free::new(alloc, share_of(tree.words()))?;
        let mut hand = tree.hand();
        let names = tree.nodes.note(&mut hand);
        Ok(Worker {
            tree,
            hand,
            free,
            names,
            pool,
        })
    }

    /// A worker that knows what one knew that was given back.
    pub(crate) fn resume(
        alloc: Global,
        tree: &'t Tree,
        pool: &'t Pool,
        last: Retired,
    ) -> Result<Self, AllocError>
        requires index { last.index ≡ tree.now.nodes.table.shared.table_id }
        requires pool { pool.now ≡ tree.now.nodes.table.shared.table_id }
        ensures { IfOk result (λ w. w ≡ last) }
    {
        let free = Free::new(alloc, share_of(tree.words()))?;
        let Retired { mut hand } = last;
        let names = tree.nodes.note(&mut hand);
        Ok(Worker {
            tree,
            hand,
            free,
            names,
            pool,
        })
    }

    /// Looks a key up, if no writer comes between. It had the answer at one moment within the call: after all that the worker
    /// has then seen of the log, which begins with all that it had seen before.
    pub fn try_get(&mut self, key: u64) -> Option<Option<u64>>
        ensures saw { Saw self.old self.new }
        ensures found { IfSome result (λ x. Found key x self.old self.new) }
        ensures alone { IfNone result (IsDisturbedIn self.old.moment self.new.moment) }
    {
        self.tree.try_get(&mut self.hand, key)
    }

    /// Looks a key up.
    pub fn get<R: Wait>(&mut self, rt: &R, key: u64) -> Option<u64>
        ensures { Found key result self.old self.new }
    {
        self.tree.get(rt, &mut self.hand, key)
    }

    /// How many words are left for new nodes: those past all nodes, and those of freed nodes whose names the worker has, or which no
    /// worker keeps. A freed node is used again for a node of its form alone.
    pub fn words_free(&mut self) -> u64
        ensures looked { Looked self.old self.new }
        ensures free { self.new.index.words ≤ used self.new.moment + result }
    {
        let used = self.tree.used(&mut self.hand);
        let words = self.tree.words() as u64;
        let freed = self.pool.words().saturating_add(self.free.words());
        words.saturating_sub(used).saturating_add(freed)
    }

    /// How many of the index's words are in use, at the last moment that the worker has then seen. Words past them are left for
    /// new nodes, and so are those of nodes that were freed.
    pub fn words_used(&mut self) -> u64
        ensures { Looked self.old self.new × (result ≡ used self.new.moment) }
    {
        self.tree.used(&mut self.hand)
    }

    /// What it has seen of the log, for another worker of its index.
    pub fn note(&mut self) -> Seen<'t>
        ensures same { self.new ≡ self.old }
        ensures note { (result.index ≡ self.old.index) × (result.seen ≡ self.old.seen) }
    {
        let note = self.tree.nodes.note(&mut self.hand);
        Seen {
            tree: self.tree,
            note,
        }
    }

    /// Takes in what another worker had seen of the log: from now on it has seen no less.
    pub fn heed(&mut self, other: Seen<'t>)
        requires { other.index ≡ self.old.index }
        ensures looked { Looked self.old self.new }
        ensures heeds { StartsWith self.new.seen other.entry.seen }
    {
        let Seen { tree: _, note } = other;
        self.tree.nodes.heed(&mut self.hand, note);
    }

    /// A trade of names of free nodes with the other workers, or nothing where another worker trades. Tells whether it was made.
    fn trade(&mut self, trade: Trade) -> bool
        ensures { self.new ≡ self.old }
    {
        self.pool
            .trade(self.tree, &mut self.free, &mut self.names, trade)
    }

    /// Leaves all names to the other workers, unless others trade all the while.
    fn leave(&mut self)
        ensures { self.new ≡ self.old }
    {
        if self.free.stocked() == 0 {
            return;
        }
        for attempt in 0..LEAVES {
            if self.trade(Trade::Leave) {
                return;
            }
            if attempt < ATTEMPTS {
                spin_loop();
            } else {
                yield_now();
            }
        }
    }

    /// Gives the worker back, and keeps what it knows. Names that it has are left to others.
    pub fn retire(mut self) -> Retired
        ensures { result ≡ self.entry }
    {
        self.leave();
        let Worker {
            tree: _,
            hand,
            free,
            names,
            pool: _,
        } = self;
        drop(free);
        drop(names);
        Retired { hand }
    }

    /// The same once more, with a name that the other workers left, if one was wanted and they left any. Where another worker trades,
    /// it is to be tried again.
    fn reshape_again(&mut self, write: Write, want: Want) -> Result<Written, Refusal>
        requires { calls_by self.old.by self.old.seen ≡ self.old.made }
        ensures { IsWritten write self.old self.new result }
    {
        let wanted = self.free.wanted();
        if wanted == 0 || !self.trade(Trade::Take(wanted)) {
            return Err(Refusal::Again);
        }
        self.reshape(write, want)
    }

    /// Makes a write as it changes which nodes there are, with names that the other workers left where it has none.
    fn reshape_stocked(&mut self, write: Write, want: Want) -> Result<Written, Refusal>
        ensures { IsWritten write self.old self.new result }
    {
        self.free.know(self.pool.stocked());
        match self.reshape(write, want) {
            Err(Refusal::Full) => self.reshape_again(write, want),
            Err(Refusal::Again) => self.reshape_again(write, want),
            done => done,
        }
    }

    /// The same. Names beyond those that it keeps go to the other workers.
    fn try_reshape(&mut self, write: Write, want: Want) -> Result<Written, Refusal>
        ensures { IsWritten write self.old self.new result }
    {
        let outcome = self.reshape_stocked(write, want);
        if self.free.is_laden() {
            self.trade(Trade::Give);
        }
        outcome
    }

    /// Makes a write as it changes which nodes there are, with words at the end and names of its own.
    fn reshape(&mut self, write: Write, want: Want) -> Result<Written, Refusal>
        ensures { IsWritten write self.old self.new result }
    {
        let now = self.tree.nodes.note(&mut self.hand);
        let names = replace(&mut self.names, now);
        self.tree.nodes.heed(&mut self.hand, names);
        let outcome = self
            .tree
            .try_reshape(&mut self.hand, &mut self.free, write, want);
        self.names = self.tree.nodes.note(&mut self.hand);
        outcome_of(outcome)
    }

    /// Puts a value at a key.
    fn try_put(&mut self, write: Write) -> Result<Written, Refusal>
        ensures written { IsWritten write self.old self.new result }
        ensures room { WantsRoom write result }
    {
        match self.tree.try_set(&mut self.hand, write) {
            Set::Taken => self.try_reshape(write, Want::Branch),
            Set::Full => self.try_reshape(write, Want::Room),
            set => came_of(set),
        }
    }

    /// Takes a key away with or from its last node. Where there is no room for a lesser node, from the node as it stands.
    fn try_less(&mut self, write: Write) -> Result<Written, Refusal>
        ensures written { IsWritten write self.old self.new result }
        ensures room { WantsRoom write result }
    {
        match self.try_reshape(write, Want::Less) {
            Ok(written) => Ok(written),
            Err(Refusal::Full) => came_of(self.tree.try_set(&mut self.hand, write)),
            Err(Refusal::Again) => Err(Refusal::Again),
            Err(Refusal::Exhausted) => Err(Refusal::Exhausted),
        }
    }

    /// Takes a key away.
    fn try_take(&mut self, write: Write) -> Result<Written, Refusal>
        ensures written { IsWritten write self.old self.new result }
        ensures room { WantsRoom write result }
    {
        match self.tree.try_take(&mut self.hand, write) {
            Some(set) => came_of(set),
            None => self.try_less(write),
        }
    }

    /// Makes a write where it is to be made, if no writer comes between.
    pub(crate) fn try_write(&mut self, write: Write) -> Result<Written, Refusal>
        ensures written { IsWritten write self.old self.new result }
        ensures room { WantsRoom write result }
    {
        if write.value.is_some() {
            self.try_put(write)
        } else {
            self.try_take(write)
        }
    }
}
