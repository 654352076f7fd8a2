//! Trees of words as what a `for` goes over.
ghost use Rattle.std.specs.Prelude.{◌≡◌, map};
ghost use Rattle.std.specs.FinMap as fin;
ghost use Rattle.std.specs.Iterator.{YieldsFirst, YieldsLast, item_count};
ghost use Rattle.congee.specs.owned.Nearest.{pair_by};

use crate::allocator::{Allocator, DefaultAllocator};
use crate::owned::congee::Congee;
use crate::owned::drainer::NoDrain;
use crate::owned::iter::Iter;
use crate::owned::u64_congee::U64Congee;
use judge::Word64;
use std::iter::{DoubleEndedIterator, IntoIterator, Iterator};
use std::marker::Model;

/// A tree and what is left of its pairs, from both ends.
#[derive(Drop)]
struct Rest<K: Word64, V: Word64, A: Allocator, D: Drop> {
    tree: Congee<K, V, A, D>,
    // The numbers that it has yet to come to, unless it is over.
    from: u64,
    last: u64,
    over: bool,
}

impl<K: Word64, V: Word64, A: Allocator, D: Drop> Model for Rest<K, V, A, D> {
    ghost use Rattle.std.specs.Prelude.{ℕ, List, ◌+◌, cond, []};
    ghost use Rattle.std.specs.FinMap as fin;
    ghost use Rattle.congee.specs.owned.Ranges.{in_range};

    ghost Value = { List (ℕ × ℕ) };

    ghost view = { λ r. cond r.over [] (in_range r.from (r.last + 1) (fin.entries r.tree.pairs)) };
}

impl<K: Word64, V: Word64, A: Allocator, D: Drop> Rest<K, V, A, D> {
    /// All pairs.
    fn new(tree: Congee<K, V, A, D>) -> Self
        ensures { result ≡ fin.entries tree.pairs }
    {
        tree.words_end();
        Rest {
            tree,
            from: 0,
            last: u64::MAX,
            over: false,
        }
    }

    /// The next pair. It goes down its way.
    fn step(&mut self) -> Option<(u64, u64)>
        ensures { YieldsFirst (λ s. s) self.old result self.new }
    {
        if self.over {
            return None;
        }
        let last = self.last;
        let Some((key, value)) = self.tree.numbers_from(Some(self.from)) else {
            self.over = true;
            return None;
        };
        if key < last {
            self.from = key + 1;
            return Some((key, value));
        }
        self.over = true;
        if key > last {
            return None;
        }
        Some((key, value))
    }

    /// The last pair. It goes down its way.
    fn step_back(&mut self) -> Option<(u64, u64)>
        ensures { YieldsLast (λ s. s) self.old result self.new }
    {
        if self.over {
            return None;
        }
        let from = self.from;
        let Some((key, value)) = self.tree.numbers_to(self.last) else {
            self.over = true;
            return None;
        };
        if key > from {
            self.last = key - 1;
            return Some((key, value));
        }
        self.over = true;
        if key < from {
            return None;
        }
        Some((key, value))
    }
}

/// The pairs of a tree, ascending by key, from both ends. It has the tree, whose nodes go as it is dropped; a drainer is dropped
/// with it, and handed nothing.
#[derive(Drop)]
pub struct IntoIter<K: Word64, V: Word64, A: Allocator = DefaultAllocator, D: Drop = NoDrain> {
    rest: Rest<K, V, A, D>,
}

impl<K: Word64, V: Word64, A: Allocator, D: Drop> Model for IntoIter<K, V, A, D> {
    ghost use Rattle.std.specs.Prelude.{List, map};

    ghost Value = { List (K × V) };

    ghost use Rattle.congee.specs.owned.Nearest.{pair_by};

    ghost view = { λ i. map (pair_by K.of_word V.of_word) i.rest };
}

impl<K: Word64, V: Word64, A: Allocator, D: Drop> Iterator for IntoIter<K, V, A, D> {
    type Item = (K, V);

    ghost next_gives = { YieldsFirst (λ s. s) };

    ghost remaining = { item_count (λ s. s) };

    fn next(&mut self) -> Option<(K, V)> {
        match self.rest.step() {
            Some((key, value)) => Some((K::from_word(key), V::from_word(value))),
            None => None,
        }
    }
}

impl<K: Word64, V: Word64, A: Allocator, D: Drop> DoubleEndedIterator for IntoIter<K, V, A, D> {
    ghost next_back_gives = { YieldsLast (λ s. s) };

    fn next_back(&mut self) -> Option<(K, V)> {
        match self.rest.step_back() {
            Some((key, value)) => Some((K::from_word(key), V::from_word(value))),
            None => None,
        }
    }
}

impl<K: Word64, V: Word64, A: Allocator, D: Drop> IntoIterator for Congee<K, V, A, D> {
    type Item = (K, V);

    type IntoIter = IntoIter<K, V, A, D>;

    ghost into_iter_gives = { λ t r. r ≡ map (pair_by K.of_word V.of_word) (fin.entries t.pairs) };

    fn into_iter(self) -> IntoIter<K, V, A, D> {
        IntoIter {
            rest: Rest::new(self),
        }
    }
}

impl<'a, K: Word64, V: Word64, A: Allocator, D: Drop> IntoIterator for &'a Congee<K, V, A, D> {
    type Item = (K, V);

    type IntoIter = Iter<'a, K, V, A>;

    ghost into_iter_gives = { λ t r. r ≡ map (pair_by K.of_word V.of_word) (fin.entries t.now.pairs) };

    fn into_iter(self) -> Iter<'a, K, V, A> {
        self.iter()
    }
}

impl<V: Word64, A: Allocator, D: Drop> IntoIterator for U64Congee<V, A, D> {
    type Item = (u64, V);

    type IntoIter = IntoIter<u64, V, A, D>;

    ghost into_iter_gives = { λ t r. r ≡ map (pair_by (λ k. k) V.of_word) (fin.entries t.tree.pairs) };

    fn into_iter(self) -> IntoIter<u64, V, A, D> {
        self.tree.into_iter()
    }
}

impl<'a, V: Word64, A: Allocator, D: Drop> IntoIterator for &'a U64Congee<V, A, D> {
    type Item = (u64, V);

    type IntoIter = Iter<'a, u64, V, A>;

    ghost into_iter_gives = { λ t r. r ≡ map (pair_by (λ k. k) V.of_word) (fin.entries t.now.tree.pairs) };

    fn into_iter(self) -> Iter<'a, u64, V, A> {
        self.iter()
    }
}
