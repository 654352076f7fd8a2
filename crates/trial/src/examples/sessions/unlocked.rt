//! The table for threads whose readers take no lock: two indexes, of which each has a log of its own.
ghost use Rattle.std.specs.Prelude.{◌≡◌, ℕ, List, Some, IfOk, IfSome, OnOk};
ghost use Rattle.optimistic.specs.declared.words.rule.Entry.{Entry};
ghost use Rattle.optimistic.specs.words.Kept.{StartsWith, value_of};
ghost use Rattle.optimistic.specs.face.Calls.{HasCall};
ghost use Rattle.optimistic.specs.tree.Drained.{IsAll};

use optimistic::{Pair, Refusal, Retired, Seen, U64Congee, Worker};
use std::alloc::{AllocError, Global};
use std::sync::Wait;
use std::thread::{Threads, join};

/// Sessions with the times at which they expire, and each under its expiry and itself.
#[derive(Drop)]
pub struct Table {
    expiries: U64Congee,
    by_expiry: U64Congee,
}

/// A thread's worker at each of the two.
#[derive(Drop)]
pub struct Clerk<'t> {
    expiries: Worker<'t>,
    by_expiry: Worker<'t>,
}

/// Where a session stands in the second index: the expiry is the higher half.
fn place_of(expiry: u32, session: u32) -> u64 {
    u64::from(expiry) * (1 << 32) + u64::from(session)
}

impl Table {
    /// No sessions. Each index has so many words.
    pub fn new(alloc: Global, words: usize) -> Option<Table> {
        let expiries = U64Congee::new(alloc, words).ok()?;
        let by_expiry = U64Congee::new(alloc, words).ok()?;
        Some(Table {
            expiries,
            by_expiry,
        })
    }

    /// A thread's workers.
    pub fn clerk(&self, alloc: Global) -> Result<Clerk<'_>, AllocError>
        ensures { IfOk result (λ c. c.expiries.index ≡ self.now.expiries.tree.nodes.table.shared.table_id) }
    {
        let expiries = self.expiries.worker(alloc)?;
        let by_expiry = self.by_expiry.worker(alloc)?;
        Ok(Clerk {
            expiries,
            by_expiry,
        })
    }
}

impl<'t> Clerk<'t> {
    /// Registers a session, or gives it another expiry. The table comes first, so until the second write the session is found and
    /// not yet expired by anybody; a pair of its earlier expiry stays until that time.
    pub fn register<R: Wait>(&mut self, rt: &R, session: u32, expiry: u32) -> Result<(), Refusal>
        ensures index { OnOk result (self.new.expiries.index ≡ self.old.expiries.index) }
        ensures put { OnOk result (HasCall session (Some expiry) self.new.expiries.seen) }
    {
        self.expiries
            .insert(rt, u64::from(session), u64::from(expiry))?;
        self.by_expiry
            .insert(rt, place_of(expiry, session), u64::from(session))?;
        Ok(())
    }

    /// When the session expires, after all changes of the table that this thread has then seen.
    pub fn look_up<R: Wait>(&mut self, rt: &R, session: u32) -> Option<u64>
        ensures index { self.new.expiries.index ≡ self.old.expiries.index }
        ensures found { result ≡ value_of session self.new.expiries.seen }
        ensures saw { StartsWith self.new.expiries.seen self.old.expiries.seen }
    {
        self.expiries.get(rt, u64::from(session))
    }

    /// Takes the first pair out of the second index, if its time has come, and then its session, if that has this expiry still. Tells
    /// whether there was such a pair.
    pub fn expire_one<R: Wait>(&mut self, rt: &R, now: u32) -> Result<bool, Refusal> {
        let Some(first) = self.by_expiry.first(rt) else {
            return Ok(false);
        };
        let expiry = first.key / (1 << 32);
        if expiry > u64::from(now) {
            return Ok(false);
        }
        self.by_expiry.remove(rt, first.key)?;
        let _kept = self
            .expiries
            .compare_exchange(rt, first.value, expiry, None)?;
        Ok(true)
    }

    /// What it has seen of the table, for another thread's.
    fn note(self) -> Seen<'t>
        ensures { (result.index ≡ self.entry.expiries.index) × (result.seen ≡ self.entry.expiries.seen) }
    {
        let Clerk {
            mut expiries,
            by_expiry: _,
        } = self;
        expiries.note()
    }
}

/// Registers a session, and tells what it has then seen. Nothing where it is refused.
fn registers<'t, R: Wait>(
    rt: &R,
    table: &'t Table,
    alloc: Global,
    session: u32,
    expiry: u32,
) -> Option<Seen<'t>>
    ensures index { IfSome result (λ s. s.index ≡ table.now.expiries.tree.nodes.table.shared.table_id) }
    ensures put { IfSome result (λ s. HasCall session (Some expiry) s.seen) }
{
    let mut clerk = table.clerk(alloc).ok()?;
    clerk.register(rt, session, expiry).ok()?;
    Some(clerk.note())
}

/// Expires what is over at a time, at most so many.
fn expires<R: Wait>(rt: &R, table: &Table, alloc: Global, now: u32, most: u32) -> Option<u32> {
    let mut clerk = table.clerk(alloc).ok()?;
    let mut gone: u32 = 0;
    for _ in 0..most {
        if !clerk.expire_one(rt, now).ok()? {
            break;
        }
        gone = gone.saturating_add(1);
    }
    Some(gone)
}

/// A worker that has seen what two threads had, given back.
#[tactic(auto, using(optimistic::proofs::Laws::call_later))]
fn told<'t>(table: &'t Table, alloc: Global, one: Seen<'t>, two: Seen<'t>) -> Option<Retired>
    requires one { one.index ≡ table.now.expiries.tree.nodes.table.shared.table_id }
    requires two { two.index ≡ table.now.expiries.tree.nodes.table.shared.table_id }
    ensures index { IfSome result (λ r. r.index ≡ table.now.expiries.tree.nodes.table.shared.table_id) }
    ensures one { (session expiry : _) → HasCall session expiry one.entry.seen → IfSome result (λ r. HasCall session expiry r.seen) }
    ensures two { (session expiry : _) → HasCall session expiry two.entry.seen → IfSome result (λ r. HasCall session expiry r.seen) }
{
    let mut worker = table.expiries.worker(alloc).ok()?;
    worker.heed(one);
    worker.heed(two);
    Some(worker.retire())
}

/// Has two threads register session 1 until 10 and session 2 until 20, and expires at 15 beside them.
fn shares<R: Threads + Wait + Sync>(rt: &R, table: &Table, alloc: Global) -> Option<Retired>
    ensures index { IfSome result (λ r. r.index ≡ table.now.expiries.tree.nodes.table.shared.table_id) }
    ensures put { IfSome result (λ r. HasCall 1 (Some 10) r.seen × HasCall 2 (Some 20) r.seen) }
{
    let (one, (two, _gone)) = join(
        rt,
        move || registers(rt, table, alloc, 1, 10),
        move || {
            join(
                rt,
                move || registers(rt, table, alloc, 2, 20),
                move || expires(rt, table, alloc, 15, 2),
            )
        },
    );
    match (one, two) {
        (Some(one), Some(two)) => told(table, alloc, one, two),
        _ => None,
    }
}

/// Closes the table, with a worker that was given back, and drains the sessions with their expiries.
fn drains(table: Table, alloc: Global, last: Retired) -> Option<Vec<Pair>>
    requires { last.index ≡ table.expiries.tree.nodes.table.shared.table_id }
    ensures { IfSome result (λ sessions. IsAll last.seen last.made last.by sessions.items) }
{
    let Table {
        expiries,
        by_expiry: _,
    } = table;
    let Ok(mut sessions) = expiries.close(last) else {
        return None;
    };
    match sessions.drain(alloc) {
        Ok(drained) => Some(drained),
        Err(_) => None,
    }
}

/// Opens a table, has threads register and expire, closes it and drains it: the sessions are those of one log of decided calls, each with
/// the expiry that its last call gave it, and none where that took it out; the log comes after the registrations of both threads.
pub fn registers_and_drains<R: Threads + Wait + Sync>(rt: &R, alloc: Global) -> Option<Vec<Pair>>
    ensures { IfSome result (λ sessions. (seen : List Entry) × (made : List Entry) × (by : ℕ) × IsAll seen made by sessions.items × HasCall 1 (Some 10) seen × HasCall 2 (Some 20) seen) }
{
    let table = Table::new(alloc, 10_000)?;
    let last = shares(rt, &table, alloc)?;
    let sessions = drains(table, alloc, last)?;
    Some(sessions)
}
