//! The table for threads: one at a time has it, and each change is written down.
ghost use Rattle.std.specs.Prelude.{◌≡◌, ◌++◌, ◌∷◌, [], None, IfErr, IfOk, OnOk};
ghost use Rattle.trial.specs.Sessions.{Ends, left};

use super::registry::{Change, Closed, Registry};
use congee::OOMError;
use std::alloc::{AllocError, AllocFailed, Global};
use std::marker::Model;
use std::sync::{Mutex, Wait};
use std::thread::{Threads, join};

/// Why a change wasn't made, or the table couldn't be opened or closed.
#[derive(Clone, Copy, Debug, PartialEq, Eq, Drop)]
pub enum Stop {
    /// An index refused a pair, or had no memory for its root.
    Index,
    /// There is no memory for the journal or the lists.
    Memory,
}

impl From<OOMError> for Stop {
    fn from(_: OOMError) -> Stop {
        Stop::Index
    }
}

impl From<AllocError> for Stop {
    fn from(_: AllocError) -> Stop {
        Stop::Memory
    }
}

impl<T: Drop> From<AllocFailed<T>> for Stop {
    fn from(_: AllocFailed<T>) -> Stop {
        Stop::Memory
    }
}

/// A registry with the changes that it went through, seen as their list: the registry is what they leave.
#[derive(Drop)]
pub struct Kept {
    registry: Registry,
    journal: Vec<Change>,
}

impl Model for Kept {
    ghost use Rattle.std.specs.Prelude.{List};
    ghost use Rattle.trial.specs.Sessions.{IsLeft};
    ghost use Rattle.trial.specs.declared.examples.sessions.registry.Change.{Change as Changed};

    ghost Value = { List Changed };

    ghost view = { λ k. k.journal.items };

    ghost invariant = { λ k. IsLeft k.journal.items k.registry };
}

/// What a table leaves: the changes, in the order in which they were made, and the pairs.
#[derive(Drop)]
pub struct Ended {
    pub journal: Vec<Change>,
    pub closed: Closed,
}

impl Kept {
    /// No sessions, and no changes.
    #[tactic(auto, using(crate::proofs::Turning::left_none))]
    pub fn new(alloc: Global) -> Result<Kept, Stop>
        ensures { IfOk result (λ k. k ≡ []) }
    {
        let registry = Registry::new(alloc)?;
        Ok(Kept {
            registry,
            journal: Vec::new(alloc),
        })
    }

    /// When the session expires; `None` where it isn't registered, or has expired.
    pub fn look_up(&self, session: u32) -> Option<u32>
        ensures { result ≡ left self.now session None }
    {
        self.registry.look_up(session)
    }

    /// Makes a change and writes it down. A refused one does neither.
    pub fn make(&mut self, change: Change) -> Result<(), Stop>
        ensures made { OnOk result (self.new ≡ self.old ++ change ∷ []) }
        ensures refused { IfErr result (λ e. self.new ≡ self.old) }
    {
        self.journal.push(change)?;
        match self.registry.make(change) {
            Ok(()) => Ok(()),
            Err(_) => {
                self.journal.pop();
                Err(Stop::Index)
            }
        }
    }

    /// Drops both indexes, and gives the pairs of each and the changes.
    pub fn close(self, alloc: Global) -> Result<Ended, Stop>
        ensures journal { IfOk result (λ ended. ended.journal.items ≡ self) }
        ensures pairs { IfOk result (λ ended. Ends self ended.closed) }
    {
        let Kept { registry, journal } = self;
        let closed = registry.close(alloc)?;
        Ok(Ended { journal, closed })
    }
}

/// Registers so many sessions, each for ten ticks from its number on.
fn registers<R: Wait>(rt: &R, table: &Mutex<Kept>, count: u32) -> Result<(), Stop> {
    for session in 0..count {
        let expiry = session.saturating_add(10);
        table.lock(rt).make(Change::Register { session, expiry })?;
    }
    Ok(())
}

/// Lets so many ticks pass, and expires what is over at each.
fn expires<R: Wait>(rt: &R, table: &Mutex<Kept>, ticks: u32) -> Result<(), Stop> {
    for now in 0..ticks {
        table.lock(rt).make(Change::Expire { now })?;
    }
    Ok(())
}

/// How many of so many look-ups found their session.
fn looks_up<R: Wait>(rt: &R, table: &Mutex<Kept>, count: u32) -> u32 {
    let mut found: u32 = 0;
    for session in 0..count {
        if table.lock(rt).look_up(session).is_some() {
            found = found.saturating_add(1);
        }
    }
    found
}

/// One thread registers, one expires and one looks up, at once. What is drained at the end is what the journal leaves, and both
/// indexes have it. The second number is how many look-ups found their session.
pub fn shares<R: Threads + Wait + Sync>(
    rt: &R,
    alloc: Global,
    count: u32,
) -> Result<(Ended, u32), Stop>
    ensures { IfOk result (λ r. Ends r.0.journal.items r.0.closed) }
{
    let table = Mutex::new(Kept::new(alloc)?);
    let shared = &table;
    let (registered, (expired, found)) = join(
        rt,
        move || registers(rt, shared, count),
        move || {
            join(
                rt,
                move || expires(rt, shared, count),
                move || looks_up(rt, shared, count),
            )
        },
    );
    registered?;
    expired?;
    let ended = table.into_inner().close(alloc)?;
    Ok((ended, found))
}
