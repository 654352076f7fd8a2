//! From the bytes of a line to what it asks for.
ghost use Rattle.std.specs.Prelude.{◌≡◌, ◌==◌, ◌<◌, IfSome, IfNone, length};
ghost use Rattle.std.specs.List.{slice_split, AllZip};
ghost use Rattle.trial.specs.Words.{Reads};
ghost use Rattle.trial.specs.declared.line.Line.{Line};
ghost use Rattle.trial.specs.Line.{IsLine};

use crate::command::Command;
use crate::parser;
use crate::word::Word;
use arrayvec::ArrayVec;

/// The most bytes of a line, its line feed not counted.
pub const LINE_MAX: usize = 1000;

/// The most words of a command.
const WORDS_MAX: usize = 9;

/// What a line of a script is.
#[derive(Clone, Copy)]
pub enum Line {
    /// An empty line or a comment.
    Skipped,
    Command(Command),
    /// Outside the grammar.
    Bad,
}

/// What the words are that stand between the line's spaces, or none where there are too many.
fn words(line: &[u8]) -> Option<ArrayVec<Word, WORDS_MAX>>
    ensures words { IfSome result (λ ws. AllZip Reads (slice_split (λ b. b == 32) line.now) ws.items) }
    ensures none { IfNone result (9 < length (slice_split (λ b. b == 32) line.now)) }
{
    let mut words = ArrayVec::new();
    let mut start = 0;
    for (i, &byte) in line.iter().enumerate() {
        if byte == b' ' {
            if words.is_full() {
                return None;
            }
            words.push(Word::of(&line[start..i]));
            start = i + 1;
        }
    }
    if words.is_full() {
        return None;
    }
    words.push(Word::of(&line[start..]));
    Some(words)
}

/// What the line is, which comes without its line feed.
pub fn read(line: &[u8]) -> Line
    ensures line { IsLine line.now result }
    ensures only { (other : Line) → IsLine line.now other → other ≡ result }
{
    if line.len() > LINE_MAX {
        return Line::Bad;
    }
    if line.is_empty() || line[0] == b'#' {
        return Line::Skipped;
    }
    let Some(words) = words(line) else {
        return Line::Bad;
    };
    match parser::command(&words) {
        Some(command) => Line::Command(command),
        None => Line::Bad,
    }
}
