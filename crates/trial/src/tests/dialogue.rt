//! Dialogues: texts of turns, each a question and its answer, as `0 get 1 = some 42`, parted by semicolons.

use super::texts::question;
use std::alloc::Global;
use std::fmt::Debug;
use std::test::Fail;

/// The question of a turn, and its answer.
fn parted(turn: &str) -> Result<(&str, &str), Fail> {
    let (question, answer) = turn.split_once('=').ok_or("a turn without an answer")?;
    Ok((question.trim(), answer.trim()))
}

/// An answer as a text.
pub fn told<T: Debug>(alloc: Global, answer: &T) -> Result<String, Fail> {
    Ok(format!(in alloc; "{answer:?}")?)
}

/// What is asked by a word and numbers.
pub trait Asked {
    /// The answer to a question, as a text.
    fn answer(&mut self, alloc: Global, word: &str, numbers: &[u64]) -> Result<String, Fail>;
}

/// The first turn that goes otherwise.
pub fn wrong_turn<A: Asked>(
    alloc: Global,
    asked: &mut A,
    dialogue: &'static str,
) -> Result<Option<&'static str>, Fail> {
    for turn in dialogue.split(';') {
        let (asking, expected) = parted(turn)?;
        let (word, numbers) = question(alloc, asking)?;
        if asked.answer(alloc, word, &numbers)?.as_str() != expected {
            return Ok(Some(turn));
        }
    }
    Ok(None)
}
