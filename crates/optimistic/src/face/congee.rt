//! The index for keys and values of eight bytes.
ghost use Rattle.std.specs.Prelude.{◌≡◌, ◌+◌, ◌<◌, ◌≤◌, ◌^◌, [], get_or, length, map, take, drop, min, IfErr, IfNone, IfOk, IfSome, MatchResult};
ghost use Rattle.std.specs.Option.{option_map};
ghost use Rattle.optimistic.specs.words.Kept.{calls_by, StartsWith};
ghost use Rattle.optimistic.specs.words.Room.{used};
ghost use Rattle.optimistic.specs.face.Calls.{Saw, Looked, Found};
ghost use Rattle.optimistic.specs.face.Computes.{IsComputed, IsReplaced};
ghost use Rattle.optimistic.specs.face.Many.{Answered, AreInserted, IsSameWorker};
ghost use Rattle.optimistic.specs.face.Refusals.{IsSize, IsUnopened};
ghost use Rattle.optimistic.specs.face.Scans.{FirstFrom, LastBelow, FirstIn, LastIn, Emptiness, IsScan, AreKeys, Counts, RangeAtOnce};
ghost use Rattle.optimistic.specs.face.Walks.{IsStep};
ghost use Rattle.optimistic.specs.face.Writes.{IsInserted, IsRemoved, IsExchanged, IsFinal};
ghost use Rattle.optimistic.specs.face.Words.{As, words, either_words, pair_words, in_words};
ghost use Rattle.optimistic.specs.tree.Alone.{IsDisturbedIn};
ghost use Rattle.optimistic.specs.tree.Drained.{IsClosed, HasNoRoot};
ghost use Rattle.optimistic.specs.tree.Trails.{AreKnown};
ghost use Rattle.optimistic.specs.tree.Wholes.{IfAgain};

use crate::drain::{Locked, Pair, Pairs};
use crate::face::close::Retired;
use crate::face::index::U64Congee;
use crate::face::refusal::{Refusal, Uninserted, Unopened};
use crate::face::seen::Seen;
use crate::face::walk::Walk;
use crate::face::worker::Worker;
use crate::tree::Unscanned;
use crate::tree::ahead::{Ahead, GROUP, STEPS};
use judge::{Word64, number_of, word_of};
use std::alloc::{AllocError, Global};
use std::marker::{Model, PhantomData};
use std::sync::Wait;

/// An ordered map from words to words that threads share. No reader takes a lock, and a writer locks single nodes.
#[derive(Drop)]
pub struct Congee<K, V> {
    index: U64Congee,
    words: PhantomData<(K, V)>,
}

/// A thread's worker at such an index.
#[derive(Drop)]
pub struct WordWorker<'t, K, V> {
    pub(crate) worker: Worker<'t>,
    words: PhantomData<(K, V)>,
}

impl<'t, K, V> Model for WordWorker<'t, K, V> {
    ghost use Rattle.optimistic.specs.face.Calls.{Known};

    ghost Value = { Known };

    ghost view = { λ w. w.worker };
}

/// The value of an answer.
fn words<V: Word64>(answer: Result<Option<u64>, Refusal>) -> Result<Option<V>, Refusal>
    ensures { result ≡ words V.of_word answer }
{
    match answer {
        Ok(word) => Ok(word_of(word)),
        Err(refusal) => Err(refusal),
    }
}

/// The values of an exchange's answer.
fn either_words<V: Word64>(
    answer: Result<Result<Option<u64>, Option<u64>>, Refusal>,
) -> Result<Result<Option<V>, Option<V>>, Refusal>
    ensures { result ≡ either_words V.of_word answer }
{
    match answer {
        Ok(Ok(word)) => Ok(Ok(word_of(word))),
        Ok(Err(word)) => Ok(Err(word_of(word))),
        Err(refusal) => Err(refusal),
    }
}

/// The key and the value of a pair.
pub(crate) fn pair_words<K: Word64, V: Word64>(pair: Option<Pair>) -> Option<(K, V)>
    ensures { result ≡ pair_words K.of_word V.of_word pair }
{
    match pair {
        Some(pair) => Some((K::from_word(pair.key), V::from_word(pair.value))),
        None => None,
    }
}

/// The word of a key among others.
fn key_at<K: Word64>(keys: &[K], place: usize) -> u64
    requires { place < length keys.now }
    ensures { (d : K) → result ≡ K.word (get_or keys.now place d) }
{
    keys[place].to_word()
}

/// The words of a pair among others.
fn pair_at<K: Word64, V: Word64>(pairs: &[(K, V)], place: usize) -> Pair
    requires { place < length pairs.now }
    ensures { (d : K × V) → result ≡ in_words K.word V.word (get_or pairs.now place d) }
{
    let pair = &pairs[place];
    Pair {
        key: pair.0.to_word(),
        value: pair.1.to_word(),
    }
}

impl<K: Word64, V: Word64> Congee<K, V> {
    /// An empty index of so many words of memory, from `LEAST_WORDS` to `MOST_WORDS`. Another number of words is refused, and so
    /// is want of memory.
    pub fn new(alloc: Global, words: usize) -> Result<Self, Unopened>
        ensures words { IfOk result (λ i. i.index.tree.nodes.table.shared.table_id.words ≡ words) }
        ensures cause { MatchResult result (λ _. IsSize words) (IsUnopened words) }
    {
        let index = U64Congee::new(alloc, words)?;
        Ok(Congee {
            index,
            words: PhantomData,
        })
    }

    /// An index of numbers as one of keys and values, each of which is its number: so an index that was opened with pairs.
    pub fn of_words(index: U64Congee) -> Self
        ensures { result.index ≡ index }
    {
        Congee {
            index,
            words: PhantomData,
        }
    }

    /// A worker for a thread. It has seen some beginning of the log, in which no call is its own.
    pub fn worker(&self, alloc: Global) -> Result<WordWorker<'_, K, V>, AllocError>
        ensures index { IfOk result (λ w. w.index ≡ self.now.index.tree.nodes.table.shared.table_id) }
        ensures new { IfOk result (λ w. (w.made ≡ []) × (calls_by w.by w.seen ≡ [])) }
    {
        let worker = self.index.worker(alloc)?;
        Ok(WordWorker {
            worker,
            words: PhantomData,
        })
    }

    /// A worker that was given back goes on: it knows what it knew.
    pub fn resume(&self, alloc: Global, last: Retired) -> Result<WordWorker<'_, K, V>, AllocError>
        requires { last.index ≡ self.now.index.tree.nodes.table.shared.table_id }
        ensures { IfOk result (λ w. w ≡ last) }
    {
        let worker = self.index.resume(alloc, last)?;
        Ok(WordWorker {
            worker,
            words: PhantomData,
        })
    }
}

impl<'t, K: Word64, V: Word64> WordWorker<'t, K, V> {
    /// Looks a key up, if no writer comes between. It had the answer at one moment within the call: after all that the worker
    /// has then seen of the log, which begins with all that it had seen before.
    pub fn try_get(&mut self, key: &K) -> Option<Option<V>>
        ensures saw { Saw self.old self.new }
        ensures found { IfSome result (λ r. As (λ x. Found (K.word key.now) x self.old self.new) (option_map V.of_word) r) }
        ensures alone { IfNone result (IsDisturbedIn self.old.moment self.new.moment) }
    {
        match self.worker.try_get(key.to_word()) {
            Some(word) => Some(word_of(word)),
            None => None,
        }
    }

    /// Looks a key up.
    pub fn get<R: Wait>(&mut self, rt: &R, key: &K) -> Option<V>
        ensures { As (λ x. Found (K.word key.now) x self.old self.new) (option_map V.of_word) result }
    {
        word_of(self.worker.get(rt, key.to_word()))
    }

    /// Puts a value at a key, and gives the one before, if no writer comes between.
    pub fn try_insert(&mut self, key: K, value: V) -> Result<Option<V>, Refusal>
        ensures { As (IsInserted (K.word key) (V.word value) self.old self.new) (words V.of_word) result }
    {
        words(self.worker.try_insert(key.to_word(), value.to_word()))
    }

    /// Puts a value at a key, and gives the one before.
    pub fn insert<R: Wait>(&mut self, rt: &R, key: K, value: V) -> Result<Option<V>, Refusal>
        ensures inserted { As (IsInserted (K.word key) (V.word value) self.old self.new) (words V.of_word) result }
        ensures decided { IfErr result IsFinal }
    {
        words(self.worker.insert(rt, key.to_word(), value.to_word()))
    }

    /// Takes a key's value out, if no writer comes between.
    pub fn try_remove(&mut self, key: &K) -> Result<Option<V>, Refusal>
        ensures { As (IsRemoved (K.word key.now) self.old self.new) (words V.of_word) result }
    {
        words(self.worker.try_remove(key.to_word()))
    }

    /// Takes a key's value out.
    pub fn remove<R: Wait>(&mut self, rt: &R, key: &K) -> Result<Option<V>, Refusal>
        ensures removed { As (IsRemoved (K.word key.now) self.old self.new) (words V.of_word) result }
        ensures decided { IfErr result IsFinal }
    {
        words(self.worker.remove(rt, key.to_word()))
    }

    /// Where the key has the old value, puts the new one there, or takes the key out at `None`, if no writer comes between.
    /// Another value, or none, is the inner error.
    pub fn try_compare_exchange(
        &mut self,
        key: &K,
        old: &V,
        new: Option<V>,
    ) -> Result<Result<Option<V>, Option<V>>, Refusal>
        ensures { As (IsExchanged (K.word key.now) (V.word old.now) (option_map V.word new) self.old self.new) (either_words V.of_word) result }
    {
        let word = number_of(&new);
        either_words(
            self.worker
                .try_compare_exchange(key.to_word(), old.to_word(), word),
        )
    }

    /// Where the key has the old value, puts the new one there, or takes the key out at `None`. Another value, or none, is the
    /// inner error.
    pub fn compare_exchange<R: Wait>(
        &mut self,
        rt: &R,
        key: &K,
        old: &V,
        new: Option<V>,
    ) -> Result<Result<Option<V>, Option<V>>, Refusal>
        ensures exchanged { As (IsExchanged (K.word key.now) (V.word old.now) (option_map V.word new) self.old self.new) (either_words V.of_word) result }
        ensures decided { IfErr result IsFinal }
    {
        let word = number_of(&new);
        either_words(
            self.worker
                .compare_exchange(rt, key.to_word(), old.to_word(), word),
        )
    }

    /// Puts the answer of `f` at a key that is present, or takes the key out where the answer is `None`. Gives the value before
    /// and the answer. `f` runs while no node is locked, and is asked again where the key has another value by then.
    pub fn compute_if_present<F: FnMut(u64) -> Option<u64>, R: Wait>(
        &mut self,
        rt: &R,
        key: &K,
        f: F,
    ) -> Result<Option<(u64, Option<u64>)>, Refusal>
    where
        F: Drop,
        requires { F.IsAlwaysCallable f }
        ensures computed { IsComputed (K.word key.now) self.old self.new result }
        ensures asked { IfOk result (λ r. IfSome r (λ p. (before after : F) × F.step before p.0 p.1 after)) }
        ensures decided { IfErr result IsFinal }
    {
        self.worker.compute_if_present(rt, key.to_word(), f)
    }

    /// Puts the answer of `f` at a key, present or not, and gives the value before. `f` runs while no node is locked, and is
    /// asked again where the key has another value by then.
    pub fn compute_or_insert<F: FnMut(Option<u64>) -> u64, R: Wait>(
        &mut self,
        rt: &R,
        key: &K,
        f: F,
    ) -> Result<Option<V>, Refusal>
    where
        F: Drop,
        requires { F.IsAlwaysCallable f }
        ensures replaced { As (IsReplaced (K.word key.now) (λ old value. (before after : F) × F.step before old value after) self.old self.new) (words V.of_word) result }
        ensures decided { IfErr result IsFinal }
    {
        words(self.worker.compute_or_insert(rt, key.to_word(), f))
    }

    /// The pair with the least key, or `None` if there was none, at one moment within the call.
    pub fn first<R: Wait>(&mut self, rt: &R) -> Option<(K, V)>
        ensures { As (λ r. FirstFrom 0 r self.old self.new) (pair_words K.of_word V.of_word) result }
    {
        pair_words(self.worker.first(rt))
    }

    /// The pair with the least key that isn't below this one, or `None` if there was none, at one moment within the call.
    pub fn at_or_after<R: Wait>(&mut self, rt: &R, key: &K) -> Option<(K, V)>
        ensures { As (λ r. FirstFrom (K.word key.now) r self.old self.new) (pair_words K.of_word V.of_word) result }
    {
        pair_words(self.worker.at_or_after(rt, key.to_word()))
    }

    /// The pair with the least key above this one, or `None` if there was none, at one moment within the call.
    pub fn next_after<R: Wait>(&mut self, rt: &R, key: &K) -> Option<(K, V)>
        ensures { As (λ r. FirstFrom (K.word key.now + 1) r self.old self.new) (pair_words K.of_word V.of_word) result }
    {
        pair_words(self.worker.next_after(rt, key.to_word()))
    }

    /// The pair with the greatest key, or `None` if there was none, at one moment within the call.
    pub fn last<R: Wait>(&mut self, rt: &R) -> Option<(K, V)>
        ensures { As (λ r. LastBelow (2 ^ 64) r self.old self.new) (pair_words K.of_word V.of_word) result }
    {
        pair_words(self.worker.last(rt))
    }

    /// The pair with the greatest key that isn't above this one, or `None` if there was none, at one moment within the call.
    pub fn at_or_before<R: Wait>(&mut self, rt: &R, key: &K) -> Option<(K, V)>
        ensures { As (λ r. LastBelow (K.word key.now + 1) r self.old self.new) (pair_words K.of_word V.of_word) result }
    {
        pair_words(self.worker.at_or_before(rt, key.to_word()))
    }

    /// The pair with the greatest key below this one, or `None` if there was none, at one moment within the call.
    pub fn next_before<R: Wait>(&mut self, rt: &R, key: &K) -> Option<(K, V)>
        ensures { As (λ r. LastBelow (K.word key.now) r self.old self.new) (pair_words K.of_word V.of_word) result }
    {
        pair_words(self.worker.next_before(rt, key.to_word()))
    }

    /// The pair with the least key of start <= key <= last, or `None` if there was none, at one moment within the call.
    pub fn first_in<R: Wait>(&mut self, rt: &R, start: &K, last: &K) -> Option<(K, V)>
        ensures { As (λ r. FirstIn (K.word start.now) (K.word last.now + 1) r self.old self.new) (pair_words K.of_word V.of_word) result }
    {
        pair_words(self.worker.first_in(rt, start.to_word(), last.to_word()))
    }

    /// The pair with the greatest key of start <= key <= last, or `None` if there was none, at one moment within the call.
    pub fn last_in<R: Wait>(&mut self, rt: &R, start: &K, last: &K) -> Option<(K, V)>
        ensures { As (λ r. LastIn (K.word start.now) (K.word last.now + 1) r self.old self.new) (pair_words K.of_word V.of_word) result }
    {
        pair_words(self.worker.last_in(rt, start.to_word(), last.to_word()))
    }

    /// Whether no key had a value, at one moment within the call.
    pub fn is_empty<R: Wait>(&mut self, rt: &R) -> bool
        ensures { Emptiness result self.old self.new }
    {
        self.worker.is_empty(rt)
    }

    /// Writes pairs with start <= key < end into `out`, as words, ascending, and gives their number. Each stood at a moment
    /// within the call, and these moments rise. A key that stood throughout the call is there, unless the places are filled with
    /// lower keys. The places past those that are written stay as they were.
    pub fn range<R: Wait>(&mut self, rt: &R, start: &K, end: &K, out: &mut [Pair]) -> usize
        ensures scan { IsScan (K.word start.now) (K.word end.now) (length out.old) self.old self.new (take result out.new) }
        ensures count { result ≤ length out.new }
        ensures saw { Saw self.old self.new }
        ensures past { drop result out.new ≡ drop result out.old }
    {
        self.worker.range(rt, start.to_word(), end.to_word(), out)
    }

    /// The same of start <= key <= last.
    pub fn range_inclusive<R: Wait>(
        &mut self,
        rt: &R,
        start: &K,
        last: &K,
        out: &mut [Pair],
    ) -> usize
        ensures scan { IsScan (K.word start.now) (K.word last.now + 1) (length out.old) self.old self.new (take result out.new) }
        ensures count { result ≤ length out.new }
        ensures saw { Saw self.old self.new }
        ensures past { drop result out.new ≡ drop result out.old }
    {
        self.worker
            .range_inclusive(rt, start.to_word(), last.to_word(), out)
    }

    /// Writes the keys with start <= key <= last that have a value into `out`, as words, ascending, and gives their number: those of
    /// the pairs that `range_inclusive` tells.
    pub fn keys<R: Wait>(&mut self, rt: &R, start: &K, last: &K, out: &mut [u64]) -> usize
        ensures keys { AreKeys (K.word start.now) (K.word last.now + 1) (length out.old) self.old self.new (take result out.new) }
        ensures count { result ≤ length out.new }
        ensures saw { Saw self.old self.new }
        ensures past { drop result out.new ≡ drop result out.old }
    {
        self.worker.keys(rt, start.to_word(), last.to_word(), out)
    }

    /// How many pairs with start <= key <= last a scan finds. Each stood at a moment within the call, and a key that stood
    /// throughout is counted. The greatest number of 64 bits stands for any greater one.
    pub fn count<R: Wait>(&mut self, rt: &R, start: &K, last: &K) -> u64
        ensures count { Counts (K.word start.now) (K.word last.now + 1) result self.old self.new }
        ensures saw { Saw self.old self.new }
    {
        self.worker.count(rt, start.to_word(), last.to_word())
    }

    /// How many pairs a scan of all keys finds, as `count` does of some.
    pub fn len<R: Wait>(&mut self, rt: &R) -> u64
        ensures count { Counts 0 (2 ^ 64) result self.old self.new }
        ensures saw { Saw self.old self.new }
    {
        self.worker.len(rt)
    }

    /// Writes the pairs with start <= key < end into `out`, as words, ascending, and gives their number: all that stood at one
    /// moment within the call, or as many as there are places, the lowest. An error tells that a writer came between, or that
    /// there was no memory; what the places hold then, and what those hold that are past the pairs, isn't told.
    pub fn try_range_at_once(
        &mut self,
        alloc: Global,
        start: &K,
        end: &K,
        out: &mut [Pair],
    ) -> Result<usize, Unscanned>
        ensures range { IfOk result (λ n. RangeAtOnce (K.word start.now) (K.word end.now) (length out.old) (take n out.new) self.old self.new) }
        ensures count { IfOk result (λ n. n ≤ length out.new) }
        ensures saw { Saw self.old self.new }
        ensures alone { IfAgain result (IsDisturbedIn self.old.moment self.new.moment) }
    {
        self.worker
            .try_range_at_once(alloc, start.to_word(), end.to_word(), out)
    }

    /// The same of start <= key <= last.
    pub fn try_range_inclusive_at_once(
        &mut self,
        alloc: Global,
        start: &K,
        last: &K,
        out: &mut [Pair],
    ) -> Result<usize, Unscanned>
        ensures range { IfOk result (λ n. RangeAtOnce (K.word start.now) (K.word last.now + 1) (length out.old) (take n out.new) self.old self.new) }
        ensures count { IfOk result (λ n. n ≤ length out.new) }
        ensures saw { Saw self.old self.new }
        ensures alone { IfAgain result (IsDisturbedIn self.old.moment self.new.moment) }
    {
        self.worker
            .try_range_inclusive_at_once(alloc, start.to_word(), last.to_word(), out)
    }

    /// Writes the pairs with start <= key < end into `out`, as `try_range_at_once` does, again where a writer comes between.
    pub fn range_at_once<R: Wait>(
        &mut self,
        rt: &R,
        alloc: Global,
        start: &K,
        end: &K,
        out: &mut [Pair],
    ) -> Result<usize, AllocError>
        ensures range { IfOk result (λ n. RangeAtOnce (K.word start.now) (K.word end.now) (length out.old) (take n out.new) self.old self.new) }
        ensures count { IfOk result (λ n. n ≤ length out.new) }
        ensures saw { Saw self.old self.new }
    {
        self.worker
            .range_at_once(rt, alloc, start.to_word(), end.to_word(), out)
    }

    /// The same of start <= key <= last.
    pub fn range_inclusive_at_once<R: Wait>(
        &mut self,
        rt: &R,
        alloc: Global,
        start: &K,
        last: &K,
        out: &mut [Pair],
    ) -> Result<usize, AllocError>
        ensures range { IfOk result (λ n. RangeAtOnce (K.word start.now) (K.word last.now + 1) (length out.old) (take n out.new) self.old self.new) }
        ensures count { IfOk result (λ n. n ≤ length out.new) }
        ensures saw { Saw self.old self.new }
    {
        self.worker
            .range_inclusive_at_once(rt, alloc, start.to_word(), last.to_word(), out)
    }

    /// The next pair of a walk, or `None` if there is none up to its last key, as it was at one moment within the call. After
    /// `None` there is none any more.
    pub fn step<R: Wait>(&mut self, rt: &R, walk: &mut Walk) -> Option<(K, V)>
        ensures { As (λ r. IsStep walk.old r walk.new self.old self.new) (pair_words K.of_word V.of_word) result }
    {
        pair_words(self.worker.step(rt, walk))
    }

    /// The root for each key.
    fn ahead(&self) -> Ahead
        ensures { AreKnown result self.now.moment }
    {
        self.worker.ahead()
    }

    /// Follows a key's way by one node.
    fn follow(&mut self, ahead: &mut Ahead, turn: usize, key: u64)
        requires known { AreKnown ahead.old self.old.moment }
        requires turn { turn < 8 }
        ensures looked { Looked self.old self.new }
        ensures known { AreKnown ahead.new self.new.moment }
    {
        self.worker.follow(ahead, turn, key);
    }

    /// Looks a key's word up from where its way led.
    fn get_word<R: Wait>(&mut self, rt: &R, ahead: &Ahead, turn: usize, key: u64) -> Option<V>
        requires known { AreKnown ahead.now self.old.moment }
        requires turn { turn < 8 }
        ensures found { As (λ x. Found key x self.old self.new) (option_map V.of_word) result }
        ensures known { AreKnown ahead.now self.new.moment }
    {
        word_of(self.worker.get_ahead(rt, ahead, turn, key))
    }

    /// Follows the ways to the keys of a group, if one begins at this place.
    fn look_ahead(&mut self, ahead: &mut Ahead, keys: &[K], first: usize)
        requires known { AreKnown ahead.old self.old.moment }
        ensures saw { Saw self.old self.new }
        ensures known { AreKnown ahead.new self.new.moment }
    {
        if first % GROUP != 0 {
            return;
        }
        *ahead = self.ahead();
        for step in 0..STEPS {
            let turn = step % GROUP;
            let place = first.saturating_add(turn);
            if place >= keys.len() {
                continue;
            }
            self.follow(ahead, turn, key_at(keys, place));
        }
    }

    /// Looks up one key after the other, as many as there are places for answers, and gives their number. Each key had its
    /// answer at a moment within the call, and these moments rise. The places past those that are written stay as they were.
    pub fn get_many<R: Wait>(&mut self, rt: &R, keys: &[K], out: &mut [Option<V>]) -> usize
        ensures answers { As (λ xs. Answered self.old.seen (map K.word (take result keys.now)) xs self.new.seen) (map (option_map V.of_word)) (take result out.new) }
        ensures count { result ≡ min (length keys.now) (length out.old) }
        ensures saw { Saw self.old self.new }
        ensures past { drop result out.new ≡ drop result out.old }
    {
        let count = keys.len().min(out.len());
        let mut ahead = self.ahead();
        for place in 0..count {
            self.look_ahead(&mut ahead, keys, place);
            out[place] = self.get_word(rt, &ahead, place % GROUP, key_at(keys, place));
        }
        count
    }

    /// Puts a word at a key's.
    fn insert_pair<R: Wait>(&mut self, rt: &R, pair: Pair) -> Result<Option<u64>, Refusal>
        ensures inserted { IsInserted pair.key pair.value self.old self.new result }
        ensures decided { IfErr result IsFinal }
    {
        self.worker.insert(rt, pair.key, pair.value)
    }

    /// Puts one pair's value at its key after the other, each by a call of its own, as `insert` does. At the first that is refused
    /// it ends, and tells which one that is.
    pub fn insert_many<R: Wait>(&mut self, rt: &R, pairs: &[(K, V)]) -> Result<(), Uninserted>
        ensures inserted { AreInserted (map (in_words K.word V.word) pairs.now) self.old self.new result }
        ensures decided { IfErr result (λ e. IsFinal e.refusal) }
        ensures same { IsSameWorker self.old self.new }
    {
        for place in 0..pairs.len() {
            match self.insert_pair(rt, pair_at(pairs, place)) {
                Ok(_) => {}
                Err(refusal) => return Err(Uninserted { place, refusal }),
            }
        }
        Ok(())
    }

    /// How many of the index's words are in use, at the last moment that the worker has then seen. Words past them are left for
    /// new nodes, and so are those of nodes that workers freed.
    pub fn words_used(&mut self) -> u64
        ensures { Looked self.old self.new × (result ≡ used self.new.moment) }
    {
        self.worker.words_used()
    }

    /// What it has seen of the log, for another worker of its index.
    pub fn note(&mut self) -> Seen<'t>
        ensures same { self.new ≡ self.old }
        ensures note { (result.index ≡ self.old.index) × (result.seen ≡ self.old.seen) }
    {
        self.worker.note()
    }

    /// Takes in what another worker had seen of the log: from now on it has seen no less.
    pub fn heed(&mut self, other: Seen<'t>)
        requires { other.index ≡ self.old.index }
        ensures looked { Looked self.old self.new }
        ensures heeds { StartsWith self.new.seen other.entry.seen }
    {
        self.worker.heed(other);
    }

    /// Gives the worker back: what it knows goes on, and is with what its index is closed.
    pub fn retire(self) -> Retired
        ensures { result ≡ self.entry }
    {
        let WordWorker { worker, words: _ } = self;
        worker.retire()
    }
}

impl<K, V> Congee<K, V> {
    /// Closes the index, with a worker that was given back, as `U64Congee::close` does. The pairs are told as words.
    pub fn close(self, last: Retired) -> Result<Pairs, Locked>
        requires { last.index ≡ self.index.tree.nodes.table.shared.table_id }
        ensures pairs { IfOk result (λ p. IsClosed last.seen last.made last.by p) }
        ensures locked { IfErr result (λ _. HasNoRoot last.seen last.made last.by) }
    {
        let Congee { index, words: _ } = self;
        index.close(last)
    }
}
