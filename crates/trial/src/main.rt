//! Reads a script from standard input, one command a line, and prints the replies; or lets threads call on one index, and
//! prints whether their history is legal.
//!
//! A script is read in pieces of 8,192 bytes and cut into lines (`run`, `script`). A line is read as words (`line`), which
//! spell a command (`parser`), and the session answers it (`session`) on the index that the script opened. A call is made
//! whole, or it is begun and taken so many steps further, line by line: so a script says in which order the steps of many
//! workers' calls come (`open_tree`). What was answered is written out before more is read (`printing`, `output`). The first
//! line that is no command, or the first fault of reader, writer or memory, ends the program, and its status tells which.
//!
//! With `threads N M` instead, N threads make M calls each on one index with a journal (`threads`, `worker`). Each keeps
//! its calls and what they answered; at the end the journal is judged, each thread's own list is held beside it, and the
//! ledger's count of writing calls beside both (`history`).
//!
//! With `lockfree N M` they call on an index whose readers take no lock, each on keys of its own beside the others' (`lockfree`).
//! Each keeps its calls and what they answered; at the end its list is judged, with what the closed index has at its keys.
//!
//! With `sessions` it makes drawn changes of the examples' table of sessions, and prints them and what they leave (`sessions`).
//!
//! With `versions` it makes drawn calls on the examples' store of versions, and prints each with what it told (`versions`).
#![tactic(auto)]

mod arguments;
mod caller;
mod command;
mod drained;
mod end;
mod examples;
mod history;
mod keys;
mod keyword;
mod line;
mod lockfree;
mod open_tree;
mod output;
mod parser;
mod places;
mod printing;
mod reply;
mod run;
mod script;
mod session;
mod sessions;
mod start;
#[cfg(test)]
mod tests;
mod threads;
mod versions;
mod word;
mod worker;

use std::env;
use std::io::{self, ErrorKind};
use std::process::ExitCode;

/// The arguments after the program's name. One that is no text is an error.
fn words(rt: &HostRuntime) -> io::Result<Vec<String>> {
    let mut words = Vec::new(rt.alloc());
    for word in env::args(rt)?.skip(1) {
        words.push(word)?;
    }
    Ok(words)
}

fn main(rt: HostRuntime) -> ExitCode {
    let mut reader = rt.reader();
    let mut writer = io::writer(&rt);
    match words(&rt) {
        Ok(words) => start::start(&rt, rt.alloc(), &words, &mut reader, &mut writer),
        Err(error) if error.kind() == ErrorKind::OutOfMemory => ExitCode::FAILURE,
        Err(_) => start::usage(&mut writer),
    }
}
