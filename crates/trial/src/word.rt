//! The words of a line.
ghost use Rattle.std.specs.Prelude.{◌≡◌, ◌<◌, ◌^◌, ℕ, IfSome, IfNone, decimal};
ghost use Rattle.trial.specs.Words.{Reads};

use crate::keyword::Keyword;
use std::str;

/// What a word of a line is.
#[derive(Clone, Copy, Default)]
pub enum Word {
    Key(Keyword),
    /// A decimal below 2 ^ 64, without sign or leading zeros.
    Number(u64),
    /// Anything else.
    #[default]
    Other,
}

/// The number below 2 ^ 64 that the word is the decimal of, or none.
pub fn number(word: &[u8]) -> Option<u64>
    ensures found { IfSome result (λ n. word.now ≡ decimal n) }
    ensures none { IfNone result ((n : ℕ) → n < 2 ^ 64 → word.now ≡ decimal n → ⊥) }
{
    if word.is_empty() || !word[0].is_ascii_digit() {
        return None;
    }
    // No zero leads a further digit.
    if word.len() > 1 && word[0] == b'0' {
        return None;
    }
    match str::from_utf8(word) {
        Ok(text) => text.parse().ok(),
        Err(_) => None,
    }
}

impl Word {
    /// What the word is.
    pub fn of(word: &[u8]) -> Word
        ensures { Reads word.now result }
    {
        if let Some(n) = number(word) {
            return Word::Number(n);
        }
        match Keyword::of(word) {
            Some(key) => Word::Key(key),
            None => Word::Other,
        }
    }
}
