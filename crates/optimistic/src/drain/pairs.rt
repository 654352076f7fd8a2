//! The pairs that a tree had.
ghost use Rattle.std.specs.Prelude.{◌≡◌, ℕ, ◌^◌, IfOk, IfErr, MatchResult};

use crate::drain::keys::key_after;
use crate::drain::nexts::first_from;
pub use crate::drain::nexts::{Locked, Pair};
use crate::words::Words;
use std::alloc::Global;

/// Why not all pairs were told.
#[derive(Clone, Copy, Debug, Drop)]
pub enum Undrained {
    /// Some node is locked.
    Locked,
    /// There was no memory.
    Memory,
}

/// Calls a closure with a pair.
fn tell<F: FnMut(u64, u64)>(f: &mut F, pair: Pair)
    requires { F.IsAlwaysCallable f.old }
    ensures callable { F.IsAlwaysCallable f.new }
    ensures told { F.step f.old pair.key pair.value tt f.new }
{
    f(pair.key, pair.value);
}

/// The pairs of a tree that no thread shares any more, in ascending order of keys.
#[derive(Drop)]
pub struct Pairs {
    words: Words,
    from: Option<u64>,
}

impl Pairs {
    ghost use Rattle.std.specs.Prelude.{List};
    ghost use Rattle.optimistic.specs.declared.words.rule.Entry.{Entry};
    ghost use Rattle.optimistic.specs.tree.Nexts.{IsFirst, behind};
    ghost use Rattle.optimistic.specs.tree.Drained.{rest, HasLog, IsDrained, IsClosed, IsAll, IsNumber, IsLocked, IsCause, Gave, GaveAll};

    /// All pairs of these words.
    pub(crate) fn new(words: Words) -> Pairs
        ensures words { result.words ≡ words }
        ensures all { rest result ≡ 0 }
    {
        Pairs {
            words,
            from: Some(0),
        }
    }

    /// The key from which on the pairs are still to come.
    pub(crate) fn from(&self) -> Option<u64>
        ensures { result ≡ self.now.from }
    {
        self.from
    }

    /// Begins again at a key.
    pub(crate) fn go_back(&mut self, from: Option<u64>)
        ensures words { self.new.words ≡ self.old.words }
        ensures from { self.new.from ≡ from }
    {
        self.from = from;
    }

    /// The pair with the least key that wasn't told before, or `None` if each was told.
    ///
    /// What is told is what a log of decided calls makes of the keys. It stays the same log. An error tells that some node
    /// is locked, and leaves all as it was.
    pub fn next(&mut self) -> Result<Option<Pair>, Locked>
        ensures pair { (log : List Entry) → HasLog self.old log → HasLog self.new log
            × MatchResult result (λ first. IsFirst log (rest self.old) first × (rest self.new ≡ behind first)) (λ _. rest self.new ≡ rest self.old) }
        ensures locked { IfErr result (λ _. IsLocked self.old) }
    {
        match self.from {
            Some(from) => match first_from(&self.words, from) {
                Ok(Some(pair)) => {
                    self.from = key_after(pair.key);
                    Ok(Some(pair))
                }
                Ok(None) => {
                    self.from = None;
                    Ok(None)
                }
                Err(Locked) => Err(Locked),
            },
            None => Ok(None),
        }
    }

    /// How many pairs weren't told before: at first, how many the index has. All stays as it was. The greatest number of 64 bits
    /// stands for any greater one. An error tells that some node is locked.
    pub fn count(&self) -> Result<u64, Locked>
        ensures pairs { (log : List Entry) → HasLog self.now log → IfOk result (λ n. IsNumber (IsDrained log (rest self.now) (2 ^ 64)) n) }
        ensures all { (seen made : List Entry) (by : ℕ) → IsClosed seen made by self.now → IfOk result (λ n. IsNumber (IsAll seen made by) n) }
        ensures locked { IfErr result (λ _. IsLocked self.now) }
    {
        let mut from = self.from;
        let mut count = 0u64;
        while let Some(key) = from {
            match first_from(&self.words, key) {
                Ok(Some(pair)) => {
                    count = count.saturating_add(1);
                    from = key_after(pair.key);
                }
                Ok(None) => from = None,
                Err(Locked) => return Err(Locked),
            }
        }
        Ok(count)
    }

    /// All pairs that weren't told before, in ascending order of keys: at first, all pairs of the index. An error leaves all as it
    /// was.
    pub fn drain(&mut self, alloc: Global) -> Result<Vec<Pair>, Undrained>
        ensures pairs { (log : List Entry) → HasLog self.old log → HasLog self.new log × IfOk result (λ v. IsDrained log (rest self.old) (2 ^ 64) v.items) }
        ensures all { (seen made : List Entry) (by : ℕ) → IsClosed seen made by self.old → IfOk result (λ v. IsAll seen made by v.items) }
        ensures rest { MatchResult result (λ _. rest self.new ≡ 2 ^ 64) (λ _. rest self.new ≡ rest self.old) }
        ensures cause { IfErr result (λ e. IsCause self.old e) }
    {
        let mut pairs = Vec::new(alloc);
        let mut from = self.from;
        while let Some(key) = from {
            let Ok(first) = first_from(&self.words, key) else {
                return Err(Undrained::Locked);
            };
            match first {
                Some(pair) => {
                    if pairs.push(pair).is_err() {
                        return Err(Undrained::Memory);
                    }
                    from = key_after(pair.key);
                }
                None => from = None,
            }
        }
        self.from = None;
        Ok(pairs)
    }

    /// Calls `f` with the key and the value of each pair that wasn't told before, in ascending order of keys: at first, of all
    /// pairs of the index. An error leaves all as it was, but for what `f` made of the pairs that it was given.
    pub fn for_each<F: FnMut(u64, u64)>(&mut self, f: &mut F) -> Result<(), Locked>
        requires { F.IsAlwaysCallable f.old }
        ensures callable { F.IsAlwaysCallable f.new }
        ensures gave { MatchResult result (λ _. Gave (λ d k v e. F.step d k v tt e) self.old (2 ^ 64) f.old f.new) (λ _. (to : ℕ) × Gave (λ d k v e. F.step d k v tt e) self.old to f.old f.new) }
        ensures all { (seen made : List Entry) (by : ℕ) → IsClosed seen made by self.old → IfOk result (λ _. GaveAll (λ d k v e. F.step d k v tt e) seen made by f.old f.new) }
        ensures log { (log : List Entry) → HasLog self.old log → HasLog self.new log }
        ensures rest { MatchResult result (λ _. rest self.new ≡ 2 ^ 64) (λ _. rest self.new ≡ rest self.old) }
        ensures locked { IfErr result (λ _. IsLocked self.old) }
    {
        let mut from = self.from;
        while let Some(key) = from {
            match first_from(&self.words, key) {
                Ok(Some(pair)) => {
                    tell(f, pair);
                    from = key_after(pair.key);
                }
                Ok(None) => from = None,
                Err(Locked) => return Err(Locked),
            }
        }
        self.from = None;
        Ok(())
    }
}
