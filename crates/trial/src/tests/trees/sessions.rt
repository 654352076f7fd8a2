//! The examples' table of sessions on drawn changes, beside a plain one; and shared by threads.

use crate::examples::sessions::registry::{Change, Closed, Registry};
use crate::examples::sessions::shared::shares;
use crate::examples::sessions::unlocked::registers_and_drains;
use crate::tests::asserts::assert_same;
use crate::tests::machine::drawn::next;
use congee::OOMError;
use std::test::Fail;

/// How many sessions there are.
const SESSIONS: usize = 64;

/// The expiry of each session that is there.
type Plain = [Option<u32>; SESSIONS];

/// The change of a turn, by a number that looks drawn. The turn is the time.
fn change_at(turn: u32, number: u64) -> Change {
    let session = (number.wrapping_shr(33) % 64) as u32;
    let expiry = turn.saturating_add((number.wrapping_shr(48) % 512) as u32);
    match number.wrapping_shr(60) % 8 {
        0 => Change::Expire { now: turn },
        1 => Change::Renew { session, expiry },
        _ => Change::Register { session, expiry },
    }
}

/// Makes a change of the plain table.
fn make(plain: &mut Plain, change: Change) {
    match change {
        Change::Register { session, expiry } => plain[session as usize % SESSIONS] = Some(expiry),
        Change::Renew { session, expiry } => {
            let place = session as usize % SESSIONS;
            if plain[place].is_some() {
                plain[place] = Some(expiry);
            }
        }
        Change::Expire { now } => {
            for place in 0..SESSIONS {
                match plain[place] {
                    Some(expiry) if expiry <= now => plain[place] = None,
                    _ => {}
                }
            }
        }
    }
}

/// The first turn after which a session is told otherwise.
fn first_wrong(
    registry: &mut Registry,
    plain: &mut Plain,
    turns: u32,
) -> Result<Option<u32>, OOMError> {
    let mut number = 1;
    for turn in 0..turns {
        number = next(number);
        let change = change_at(turn, number);
        registry.make(change)?;
        make(plain, change);
        let session = turn % 64;
        if registry.look_up(session) != plain[session as usize] {
            return Ok(Some(turn));
        }
    }
    Ok(None)
}

/// Whether both lists have each session that is there, and no other.
fn agree(closed: &Closed, plain: &Plain) -> bool {
    let mut standing = 0usize;
    for place in 0..SESSIONS {
        if plain[place].is_some() {
            standing = standing.wrapping_add(1);
        }
    }
    for (session, expiry) in &closed.by_session {
        if plain[*session as usize % SESSIONS] != Some(*expiry) {
            return false;
        }
    }
    for (expiry, session) in &closed.by_expiry {
        if plain[*session as usize % SESSIONS] != Some(*expiry) {
            return false;
        }
    }
    closed.by_session.len() == standing && closed.by_expiry.len() == standing
}

#[test]
fn drawn_changes_leave_what_a_plain_table_does(rt: HostRuntime) -> Result<(), Fail> {
    let mut registry = Registry::new(rt.alloc())?;
    let mut plain = [None; SESSIONS];
    let wrong = first_wrong(&mut registry, &mut plain, 100_000)?;
    let closed = registry.close(rt.alloc())?;
    assert_same(&rt, (wrong, agree(&closed, &plain)), (None, true));
    Ok(())
}

#[test]
fn threads_leave_what_their_journal_does(rt: HostRuntime) -> Result<(), Fail> {
    let Ok((ended, _found)) = shares(&rt, rt.alloc(), 64) else {
        return Err("refused".into());
    };
    let mut plain = [None; SESSIONS];
    for change in &ended.journal {
        make(&mut plain, *change);
    }
    assert_same(
        &rt,
        (ended.journal.len(), agree(&ended.closed, &plain)),
        (128, true),
    );
    Ok(())
}

#[test]
fn a_session_that_lasts_is_drained(rt: HostRuntime) -> Result<(), Fail> {
    let sessions = registers_and_drains(&rt, rt.alloc()).ok_or("refused")?;
    let last = match sessions.last() {
        Some(pair) => (pair.key, pair.value),
        None => return Err("no session".into()),
    };
    assert_same(&rt, last, (2, 20));
    Ok(())
}
