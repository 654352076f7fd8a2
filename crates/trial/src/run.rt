//! The program: from a reader's bytes to a writer's.
ghost use Rattle.std.specs.Prelude.{◌≡◌, ◌+◌, ◌<◌, ◌≤◌, ℕ, List, Option, [], length, take, drop, IsNone, IfSome};
ghost use Rattle.std.specs.Prelude.{IfOk, IfErr, OnOk, OnErr, vec_len};
ghost use Rattle.std.specs.Io.KnownBytes.{Appends, Consumes, IsAtEnd, Keeps};
ghost use Rattle.trial.specs.declared.end.End.{End};
ghost use Rattle.trial.specs.Grammar.{line_max};
ghost use Rattle.trial.specs.Script.{AreAnswered, status_of, input_max, read_max};
ghost use Rattle.trial.specs.Going.{Going, Ends, Ran, IsAtStart, IsWritten};
ghost use Rattle.trial.specs.MapReplies.{MapAnswers};

use crate::end::End;
use crate::output::Output;
use crate::script::Script;
use joint::calls_map;
use std::alloc::Global;
use std::io::{Read, Write};

/// The most bytes of a script.
const INPUT_MAX: u64 = 16_777_216;

/// The most bytes that one read is asked for.
const CHUNK: usize = 8192;

/// A script on its way from a reader to a writer.
#[derive(Drop)]
pub struct Program {
    pub script: Script,
    /// What was read of the line that isn't whole yet.
    pub unread: Vec<u8>,
    /// The bytes that were read.
    pub taken: u64,
}

impl Program {
    /// A program that has read and printed nothing.
    fn new(alloc: Global) -> Program
        ensures { IsAtStart result }
    {
        Program {
            script: Script {
                alloc,
                session: None,
                lines: 0,
                output: Output::new(),
            },
            unread: Vec::new(alloc),
            taken: 0,
        }
    }

    /// Answers the last line, where no line feed ends it.
    fn last_line<W: Write>(&mut self, writer: &mut W) -> End
        requires { self.old.script.lines ≤ input_max }
        ensures { (had left held : Option (List ℕ)) → IsAtEnd left → Going had left held (W.contents writer.old) self.old
            → Ends had left held (W.contents writer.new) self.new result }
    {
        if self.unread.is_empty() {
            return End::Done;
        }
        match self.script.line(writer, &self.unread) {
            Ok(()) => End::Done,
            Err(end) => end,
        }
    }

    /// Takes the bytes, and answers each line that is whole now.
    fn accept<W: Write>(&mut self, writer: &mut W, bytes: &[u8]) -> Option<End>
        requires bound { self.old.taken ≤ input_max }
        requires lines { self.old.script.lines ≤ input_max }
        requires short { length self.old.unread.items ≤ line_max }
        requires read { length bytes.now ≤ read_max }
        ensures goes { IsNone result → (had mid left held : Option (List ℕ)) → Going had mid held (W.contents writer.old) self.old
            → Consumes mid left bytes.now → Going had left held (W.contents writer.new) self.new }
        ensures ends { IfSome result (λ e. (had mid left held : Option (List ℕ)) → Going had mid held (W.contents writer.old) self.old
            → Consumes mid left bytes.now → Ends had left held (W.contents writer.new) self.new e) }
        ensures taken { IsNone result → (self.new.taken ≡ self.old.taken + length bytes.now) × (self.new.taken ≤ input_max) }
    {
        let room = (INPUT_MAX - self.taken) as usize;
        let (fresh, over) = bytes.split_at(bytes.len().min(room));
        let Ok(()) = self.unread.extend_from_slice(fresh) else {
            return Some(End::Memory);
        };
        match self.script.lines(writer, &self.unread) {
            Ok(answered) => {
                self.unread.drain(..answered);
            }
            Err(end) => return Some(end),
        }
        if !over.is_empty() {
            return Some(End::TooLong);
        }
        self.taken += bytes.len() as u64;
        None
    }

    /// One read, and the replies to the lines that it completes. The end, if it came. An interrupted read is a failed one.
    fn read_once<R: Read, W: Write>(
        &mut self,
        reader: &mut R,
        writer: &mut W,
        chunk: &mut Vec<u8>,
    ) -> Option<End>
        requires room { vec_len chunk.old ≡ read_max }
        requires bound { self.old.taken ≤ input_max }
        requires lines { self.old.script.lines ≤ input_max }
        requires short { length self.old.unread.items ≤ line_max }
        ensures goes { IsNone result → (had held : Option (List ℕ)) → Going had (R.remaining reader.old) held (W.contents writer.old) self.old
            → Going had (R.remaining reader.new) held (W.contents writer.new) self.new }
        ensures ends { IfSome result (λ e. (had held : Option (List ℕ)) → Going had (R.remaining reader.old) held (W.contents writer.old) self.old
            → Ends had (R.remaining reader.new) held (W.contents writer.new) self.new e) }
        ensures room { vec_len chunk.new ≡ vec_len chunk.old }
        ensures taken { IsNone result → (self.old.taken < self.new.taken) × (self.new.taken ≤ input_max) }
    {
        match reader.read(chunk.as_mut_slice()) {
            Ok(0) => Some(self.last_line(writer)),
            Ok(n) => self.accept(writer, &chunk[..n]),
            Err(_) => Some(End::Reading),
        }
    }

    /// Writes out what is held back at the end that came, unless it is the writer that failed.
    fn finish<W: Write>(&mut self, writer: &mut W, end: End) -> End
        ensures { (had left held : Option (List ℕ)) → Ends had left held (W.contents writer.old) self.old end
            → Ran AreAnswered had left held (W.contents writer.new) result }
    {
        match end {
            End::Writing => End::Writing,
            _ => match self.script.output.flush(writer) {
                Ok(()) => end,
                Err(failed) => failed,
            },
        }
    }

    /// Reads, answers and writes, until an end comes.
    fn run<R: Read, W: Write>(&mut self, reader: &mut R, writer: &mut W, chunk: &mut Vec<u8>) -> End
        requires fresh { IsAtStart self.old }
        requires room { vec_len chunk.old ≡ read_max }
        ensures { Ran AreAnswered (R.remaining reader.old) (R.remaining reader.new) (W.contents writer.old) (W.contents writer.new) result }
    {
        loop {
            if let Some(end) = self.read_once(reader, writer, chunk) {
                return self.finish(writer, end);
            }
            if let Err(failed) = self.script.output.flush(writer) {
                return failed;
            }
        }
    }
}

/// Reads a script, one command a line, writes the replies, and tells the exit status.
pub fn run<R: Read, W: Write>(alloc: Global, reader: &mut R, writer: &mut W) -> u8
    ensures replies { (end : End) × (result ≡ status_of end)
        × Ran AreAnswered (R.remaining reader.old) (R.remaining reader.new) (W.contents writer.old) (W.contents writer.new) end }
    ensures map { (end : End) × (result ≡ status_of end)
        × Ran MapAnswers (R.remaining reader.old) (R.remaining reader.new) (W.contents writer.old) (W.contents writer.new) end }
{
    calls_map::<u64>();
    match vec![in alloc; 0; CHUNK] {
        Ok(mut chunk) => Program::new(alloc).run(reader, writer, &mut chunk).status(),
        Err(_) => End::Memory.status(),
    }
}
