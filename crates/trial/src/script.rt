//! The lines of a script, answered in turn.
ghost use Rattle.std.specs.Prelude.{◌≡◌, ◌+◌, ◌<◌, ◌^◌, ◌≤◌, List, ℕ, length, OnOk, IfErr, IfOk, drop};
ghost use Rattle.trial.specs.Grammar.{line_max};
ghost use Rattle.trial.specs.Line.{IsBad};
ghost use Rattle.trial.specs.Script.{NoFeed};
ghost use Rattle.trial.specs.Turns.{LineGoes, LineStops, LinesGo, LinesStop};

use crate::end::End;
use crate::line::{self, LINE_MAX, Line};
use crate::open_tree::OpenTree;
use crate::output::Output;
use crate::printing::{put_bad_line, put_reply};
use crate::session;
use std::alloc::Global;
use std::io::Write;

/// A script that is being answered.
#[derive(Drop)]
pub struct Script {
    pub alloc: Global,
    pub session: Option<OpenTree>,
    /// The lines that were answered.
    pub lines: u64,
    /// The replies on their way to the writer.
    pub output: Output,
}

impl Script {
    /// Ends the script at a line outside the grammar.
    fn bad_line<W: Write>(&mut self, writer: &mut W) -> End
        requires { self.old.lines + 1 < 2 ^ 64 }
        ensures { (bytes : List ℕ) → IsBad bytes → LineStops self.old (W.contents writer.old) bytes self.new (W.contents writer.new) result }
    {
        match put_bad_line(self.alloc, &mut self.output, writer, self.lines + 1) {
            Ok(()) => End::BadLine,
            Err(end) => end,
        }
    }

    /// Answers a line, which comes without its line feed.
    pub fn line<W: Write>(&mut self, writer: &mut W, bytes: &[u8]) -> Result<(), End>
        requires { self.old.lines + 1 < 2 ^ 64 }
        ensures ok { OnOk result (LineGoes self.old (W.contents writer.old) bytes.now self.new (W.contents writer.new)) }
        ensures err { IfErr result (λ e. LineStops self.old (W.contents writer.old) bytes.now self.new (W.contents writer.new) e) }
    {
        match line::read(bytes) {
            Line::Skipped => Ok(()),
            Line::Command(command) => {
                let reply = session::answer(self.alloc, &mut self.session, command)?;
                put_reply(self.alloc, &mut self.output, writer, &reply)
            }
            Line::Bad => Err(self.bad_line(writer)),
        }
    }

    /// Answers each line that ends within the bytes, and tells how many bytes they take.
    pub fn lines<W: Write>(&mut self, writer: &mut W, bytes: &[u8]) -> Result<usize, End>
        requires { self.old.lines + length bytes.now + 1 < 2 ^ 64 }
        ensures ok { IfOk result (λ n. LinesGo self.old (W.contents writer.old) bytes.now self.new (W.contents writer.new) (drop n bytes.now)
            × NoFeed (drop n bytes.now) × (length (drop n bytes.now) ≤ line_max)) }
        ensures within { IfOk result (λ n. n ≤ length bytes.now) }
        ensures err { IfErr result (λ e. LinesStop self.old (W.contents writer.old) bytes.now self.new (W.contents writer.new) e) }
    {
        let mut start = 0;
        for (i, &byte) in bytes.iter().enumerate() {
            if byte == b'\n' {
                self.line(writer, &bytes[start..i])?;
                self.lines += 1;
                start = i + 1;
            }
        }
        if bytes.len() - start > LINE_MAX {
            return Err(self.bad_line(writer));
        }
        Ok(start)
    }
}
