//! Keys and values of words: of what a call on words answers, and for a drainer.

ghost use Rattle.std.specs.Prelude.{◌≡◌, map, IfOk};
ghost use Rattle.joint.specs.threads.Threads.{AreKeys, either_words, pair_words, words};

use crate::refusal::Refusal;
use congee::{Drainer, Word64};
use judge::word_of;
use std::alloc::{AllocError, Global};
use std::marker::{Model, PhantomData};

/// The value of an answer.
pub(crate) fn words<V: Word64>(answer: Result<Option<u64>, Refusal>) -> Result<Option<V>, Refusal>
    ensures { result ≡ words V.of_word answer }
{
    match answer {
        Ok(word) => Ok(word_of(word)),
        Err(refusal) => Err(refusal),
    }
}

/// The values of an exchange's answer.
pub(crate) fn either_words<V: Word64>(
    answer: Result<Result<Option<u64>, Option<u64>>, Refusal>,
) -> Result<Result<Option<V>, Option<V>>, Refusal>
    ensures { result ≡ either_words V.of_word answer }
{
    match answer {
        Ok(Ok(word)) => Ok(Ok(word_of(word))),
        Ok(Err(word)) => Ok(Err(word_of(word))),
        Err(refusal) => Err(refusal),
    }
}

/// The pair of an answer.
pub(crate) fn word_pair<K: Word64, V: Word64>(
    answer: Result<Option<(u64, u64)>, Refusal>,
) -> Result<Option<(K, V)>, Refusal>
    ensures { result ≡ pair_words K.of_word V.of_word answer }
{
    match answer {
        Ok(Some((key, value))) => Ok(Some((K::from_word(key), V::from_word(value)))),
        Ok(None) => Ok(None),
        Err(refusal) => Err(refusal),
    }
}

/// The keys of words.
fn keys_of<K: Word64>(alloc: Global, words: &[u64]) -> Result<Vec<K>, AllocError>
    ensures { IfOk result (λ keys. keys.items ≡ map K.of_word words.now) }
{
    words.iter().map(|word| K::from_word(*word)).collect(alloc)
}

/// The keys of an answer.
pub(crate) fn are_keys<K: Word64>(
    alloc: Global,
    answer: Result<Vec<u64>, Refusal>,
) -> Result<Vec<K>, Refusal>
    ensures { AreKeys K.of_word answer result }
{
    let words = answer?;
    match keys_of(alloc, words.as_slice()) {
        Ok(keys) => Ok(keys),
        Err(_) => Err(Refusal::Memory),
    }
}

/// Takes words, and hands keys and values on.
pub(crate) struct OfWords<K, V, D> {
    drainer: D,
    words: PhantomData<(K, V)>,
}

impl<K, V, D> Model for OfWords<K, V, D> {
    ghost Value = { D };

    ghost view = { λ w. w.drainer };
}

impl<K, V, D: Drop> Drop for OfWords<K, V, D> {
    fn drop(self) {
        let OfWords {
            drainer: _,
            words: _,
        } = self;
    }
}

impl<K: Word64, V: Word64, D: Drainer<K, V>> Drainer<u64, u64> for OfWords<K, V, D> {
    ghost can_drain = { D.can_drain };

    ghost drains = { λ before key value after. D.drains before (K.of_word key) (V.of_word value) after };

    fn drain(&mut self, key: u64, value: u64)
        requires { D.can_drain self.old }
        ensures drained { D.drains self.old (K.of_word key) (V.of_word value) self.new }
        ensures again { D.can_drain self.new }
    {
        self.drainer.drain(K::from_word(key), V::from_word(value));
    }
}

impl<K, V, D> OfWords<K, V, D> {
    pub(crate) fn new(drainer: D) -> Self
        ensures { result ≡ drainer }
    {
        OfWords {
            drainer,
            words: PhantomData,
        }
    }

    /// Gives the drainer back.
    pub(crate) fn into_inner(self) -> D
        ensures { result ≡ self }
    {
        let OfWords { drainer, words: _ } = self;
        drainer
    }
}
