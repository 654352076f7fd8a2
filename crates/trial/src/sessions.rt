//! The table of sessions of the examples on drawn changes, and what is printed of it.

ghost use Rattle.std.specs.Prelude.{IfOk};
ghost use Rattle.trial.specs.Sessions.{Ends};

use crate::examples::sessions::registry::Change;
use crate::examples::sessions::shared::{Ended, Kept, Stop};
use crate::output::print;
use std::alloc::{AllocError, Global};
use std::io::Write;

/// How many changes are drawn.
const CHANGES: u32 = 24;

/// How many sessions they are of.
const SESSIONS: u32 = 7;

/// The change of a number, which is the time as well.
fn drawn(number: u32) -> Change {
    let draw = number.wrapping_mul(2_654_435_761) >> 16;
    let session = draw % SESSIONS;
    let expiry = number.saturating_add(1 + draw / SESSIONS % 9);
    match draw % 5 {
        0 => Change::Expire { now: number },
        1 => Change::Renew { session, expiry },
        _ => Change::Register { session, expiry },
    }
}

/// The drawn changes, and the pairs that they leave.
fn ended(alloc: Global) -> Result<Ended, Stop>
    ensures { IfOk result (λ e. Ends e.journal.items e.closed) }
{
    let mut table = Kept::new(alloc)?;
    for number in 0..CHANGES {
        table.make(drawn(number))?;
    }
    let ended = table.close(alloc)?;
    Ok(ended)
}

/// A change on a line.
fn line(alloc: Global, change: Change) -> Result<String, AllocError> {
    match change {
        Change::Register { session, expiry } => {
            format!(in alloc; "register {session} until {expiry}\n")
        }
        Change::Renew { session, expiry } => format!(in alloc; "renew {session} until {expiry}\n"),
        Change::Expire { now } => format!(in alloc; "expire {now}\n"),
    }
}

/// The changes and the pairs of both indexes, each on a line.
fn text(alloc: Global, ended: &Ended) -> Result<String, AllocError> {
    let mut text = String::new(alloc);
    for change in &ended.journal {
        let line = line(alloc, *change)?;
        text.push_str(&line)?;
    }
    for (session, expiry) in &ended.closed.by_session {
        let line = format!(in alloc; "session {session} until {expiry}\n")?;
        text.push_str(&line)?;
    }
    for (expiry, session) in &ended.closed.by_expiry {
        let line = format!(in alloc; "until {expiry} session {session}\n")?;
        text.push_str(&line)?;
    }
    Ok(text)
}

/// Makes drawn changes of a table of sessions, prints them and the pairs that they leave, and tells the exit status: 0, or 1 for
/// want of memory, or where the writer fails.
pub fn sessions<W: Write>(alloc: Global, writer: &mut W) -> u8 {
    let Ok(ended) = ended(alloc) else {
        return 1;
    };
    let Ok(text) = text(alloc, &ended) else {
        return 1;
    };
    match print(writer, text.as_bytes()) {
        Ok(()) => 0,
        Err(_) => 1,
    }
}
