//! Iterators over the pairs of an owned tree.
ghost use Rattle.std.specs.Prelude.{◌≡◌, ◌+◌, ℕ, map};
ghost use Rattle.std.specs.FinMap as fin;
ghost use Rattle.std.specs.Iterator.{YieldsFirst, YieldsFirstBy, YieldsLast, YieldsLastBy, item_count};
ghost use Rattle.congee.specs.owned.Arena.{IsTree};
ghost use Rattle.congee.specs.owned.Cursor.{IsAt};
ghost use Rattle.congee.specs.owned.Iterating.{IsFirstIn, IsLastBefore, first_in, first_past};
ghost use Rattle.std.specs.Range.Bound.{bound_map};
ghost use Rattle.congee.specs.owned.Nearest.{key_by, pair_by, value_by};
ghost use Rattle.congee.specs.owned.Ranges.{in_range};
ghost use Rattle.congee.specs.owned.Table.{pairs_of};
ghost use Rattle.congee.specs.owned.Walks.{IsWalk, steps_of};

use crate::allocator::{Allocator, DefaultAllocator};
use crate::owned::arena::{Arena, Stored};
use crate::owned::congee::Congee;
use crate::owned::scan::Walk;
use crate::owned::u64_congee::U64Congee;
use judge::Word64;
use std::iter::{DoubleEndedIterator, Iterator};
use std::marker::{Model, PhantomData};
use std::ops::{Bound, RangeBounds};

/// The pairs of an arena in a range, from both ends. At each end it keeps its way down, of eight nodes at most.
#[derive(Drop)]
pub(crate) struct Run<'a, P: Stored, A: Allocator> {
    arena: &'a Arena<P, A>,
    front: Walk<'a, P>,
    back: Walk<'a, P>,
    // The numbers that it has yet to come to, unless it is over.
    from: u64,
    last: u64,
    over: bool,
}

impl<'a, P: Stored, A: Allocator> Model for Run<'a, P, A> {
    ghost use Rattle.std.specs.Prelude.{ℕ, List};

    ghost Value = { List (ℕ × P) };

    ghost use Rattle.std.specs.Prelude.{◌≡◌, ◌+◌, cond, false, []};
    ghost use Rattle.std.specs.FinMap as fin;
    ghost use Rattle.congee.specs.owned.Arena.{IsTree};
    ghost use Rattle.congee.specs.owned.Cursor.{IsAt};
    ghost use Rattle.congee.specs.owned.Ranges.{in_range};
    ghost use Rattle.congee.specs.owned.Table.{pairs_of};
    ghost use Rattle.congee.specs.owned.Walks.{IsWalk, steps_of};

    ghost view = { λ r. cond r.over [] (in_range r.from (r.last + 1) (fin.entries (pairs_of r.arena.now.nodes))) };

    ghost invariant = { λ r. IsTree r.arena.now.nodes × IsWalk r.arena.now.nodes r.front × IsWalk r.arena.now.nodes r.back
        × (r.over ≡ false → IsAt r.arena.now.nodes (steps_of r.front) r.from)
        × (r.over ≡ false → IsAt r.arena.now.nodes (steps_of r.back) (r.last + 1)) };
}

impl<'a, P: Stored, A: Allocator> Run<'a, P, A> {
    /// The next pair. The run is past it then.
    #[inline(always)]
    pub(super) fn step(&mut self) -> Option<(u64, &'a P)>
        ensures { YieldsFirstBy (λ r. (r.0, r.1.now)) (λ s. s) self.old result self.new }
    {
        if self.over {
            return None;
        }
        let arena = self.arena;
        let last = self.last;
        let Some((key, value)) = arena.next_along(&mut self.front) else {
            self.over = true;
            return None;
        };
        if key < last {
            self.from = key + 1;
            return Some((key, value));
        }
        self.over = true;
        if key > last {
            return None;
        }
        Some((key, value))
    }

    /// The last pair. The run ends before it then.
    #[inline(always)]
    pub(super) fn step_back(&mut self) -> Option<(u64, &'a P)>
        ensures { YieldsLastBy (λ r. (r.0, r.1.now)) (λ s. s) self.old result self.new }
    {
        if self.over {
            return None;
        }
        let arena = self.arena;
        let from = self.from;
        let Some((key, value)) = arena.back_along(&mut self.back) else {
            self.over = true;
            return None;
        };
        if key > from {
            self.last = key - 1;
            return Some((key, value));
        }
        self.over = true;
        if key < from {
            return None;
        }
        Some((key, value))
    }
}

impl<P: Stored, A: Allocator> Arena<P, A> {
    /// The pairs from a number on to the last one, that included.
    fn run(&self, from: u64, last: u64) -> Run<'_, P, A>
        requires { IsTree self.now.nodes }
        ensures { result ≡ in_range from (last + 1) (fin.entries (pairs_of self.now.nodes)) }
    {
        let front = self.seek(from);
        let back = self.seek_past(last);
        Run {
            arena: self,
            front,
            back,
            from,
            last,
            over: false,
        }
    }

    /// All pairs.
    pub(super) fn whole_run(&self) -> Run<'_, P, A>
        requires { IsTree self.now.nodes }
        ensures { result ≡ fin.entries (pairs_of self.now.nodes) }
    {
        self.run(0, u64::MAX)
    }

    /// The pairs from a number on to the last one; none where there is no such number.
    pub(super) fn bounded_run(&self, from: Option<u64>, last: Option<u64>) -> Run<'_, P, A>
        requires { IsTree self.now.nodes }
        ensures { (a b : ℕ) → IsFirstIn from a → IsLastBefore last b → result ≡ in_range a b (fin.entries (pairs_of self.now.nodes)) }
    {
        let Some(from) = from else {
            return self.run(1, 0);
        };
        let Some(last) = last else {
            return self.run(1, 0);
        };
        self.run(from, last)
    }
}

/// The least number that a lower bound lets in, if one of 64 bits is.
pub(super) fn first_word<K: Word64>(bound: Bound<&K>) -> Option<u64>
    ensures { IsFirstIn result (first_in K.word (bound_map (λ k. k.now) bound.entry)) }
{
    match bound {
        Bound::Included(key) => Some(key.to_word()),
        Bound::Excluded(key) => key.to_word().checked_add(1),
        Bound::Unbounded => Some(0),
    }
}

/// The greatest number that an upper bound lets in, if one is.
pub(super) fn last_word<K: Word64>(bound: Bound<&K>) -> Option<u64>
    ensures { IsLastBefore result (first_past K.word (bound_map (λ k. k.now) bound.entry)) }
{
    match bound {
        Bound::Included(key) => Some(key.to_word()),
        Bound::Excluded(key) => key.to_word().checked_sub(1),
        Bound::Unbounded => Some(u64::MAX),
    }
}

/// The pairs of a tree, or those within bounds, ascending by key. It copies none but the one that it gives.
#[derive(Drop)]
pub struct Iter<'a, K: Word64, V: Word64, A: Allocator = DefaultAllocator> {
    run: Run<'a, u64, A>,
    words: PhantomData<(K, V)>,
}

impl<'a, K: Word64, V: Word64, A: Allocator> Model for Iter<'a, K, V, A> {
    ghost use Rattle.std.specs.Prelude.{List, map};

    ghost Value = { List (K × V) };

    ghost use Rattle.congee.specs.owned.Nearest.{pair_by};

    ghost view = { λ i. map (pair_by K.of_word V.of_word) i.run };
}

impl<'a, K: Word64, V: Word64, A: Allocator> Iterator for Iter<'a, K, V, A> {
    type Item = (K, V);

    ghost next_gives = { YieldsFirst (λ s. s) };

    ghost remaining = { item_count (λ s. s) };

    #[inline]
    fn next(&mut self) -> Option<(K, V)> {
        match self.run.step() {
            Some((key, value)) => Some((K::from_word(key), V::from_word(*value))),
            None => None,
        }
    }
}

impl<'a, K: Word64, V: Word64, A: Allocator> DoubleEndedIterator for Iter<'a, K, V, A> {
    ghost next_back_gives = { YieldsLast (λ s. s) };

    #[inline]
    fn next_back(&mut self) -> Option<(K, V)> {
        match self.run.step_back() {
            Some((key, value)) => Some((K::from_word(key), V::from_word(*value))),
            None => None,
        }
    }
}

/// The keys of a tree's pairs, or of those within bounds, ascending.
#[derive(Drop)]
pub struct Keys<'a, K: Word64, A: Allocator = DefaultAllocator, P: Stored = u64> {
    pub(super) run: Run<'a, P, A>,
    pub(super) words: PhantomData<K>,
}

impl<'a, K: Word64, A: Allocator, P: Stored> Model for Keys<'a, K, A, P> {
    ghost use Rattle.std.specs.Prelude.{List, map};

    ghost Value = { List K };

    ghost use Rattle.congee.specs.owned.Nearest.{key_by};

    ghost view = { λ i. map (key_by K.of_word) i.run };
}

impl<'a, K: Word64, A: Allocator, P: Stored> Iterator for Keys<'a, K, A, P> {
    type Item = K;

    ghost next_gives = { YieldsFirst (λ s. s) };

    ghost remaining = { item_count (λ s. s) };

    #[inline]
    fn next(&mut self) -> Option<K> {
        match self.run.step() {
            Some((key, _)) => Some(K::from_word(key)),
            None => None,
        }
    }
}

impl<'a, K: Word64, A: Allocator, P: Stored> DoubleEndedIterator for Keys<'a, K, A, P> {
    ghost next_back_gives = { YieldsLast (λ s. s) };

    #[inline]
    fn next_back(&mut self) -> Option<K> {
        match self.run.step_back() {
            Some((key, _)) => Some(K::from_word(key)),
            None => None,
        }
    }
}

/// The values of a tree's pairs, or of those within bounds, ascending by key.
#[derive(Drop)]
pub struct Values<'a, V: Word64, A: Allocator = DefaultAllocator> {
    run: Run<'a, u64, A>,
    words: PhantomData<V>,
}

impl<'a, V: Word64, A: Allocator> Model for Values<'a, V, A> {
    ghost use Rattle.std.specs.Prelude.{List, map};

    ghost Value = { List V };

    ghost use Rattle.congee.specs.owned.Nearest.{value_by};

    ghost view = { λ i. map (value_by V.of_word) i.run };
}

impl<'a, V: Word64, A: Allocator> Iterator for Values<'a, V, A> {
    type Item = V;

    ghost next_gives = { YieldsFirst (λ s. s) };

    ghost remaining = { item_count (λ s. s) };

    #[inline]
    fn next(&mut self) -> Option<V> {
        match self.run.step() {
            Some((_, value)) => Some(V::from_word(*value)),
            None => None,
        }
    }
}

impl<'a, V: Word64, A: Allocator> DoubleEndedIterator for Values<'a, V, A> {
    ghost next_back_gives = { YieldsLast (λ s. s) };

    #[inline]
    fn next_back(&mut self) -> Option<V> {
        match self.run.step_back() {
            Some((_, value)) => Some(V::from_word(*value)),
            None => None,
        }
    }
}

impl<K: Word64, V: Word64, A: Allocator, D: Drop> Congee<K, V, A, D> {
    /// All pairs, ascending by key, each once. It takes no memory, and the same time for each pair on the whole.
    pub fn iter(&self) -> Iter<'_, K, V, A>
        ensures { result ≡ map (pair_by K.of_word V.of_word) (fin.entries self.now.pairs) }
    {
        Iter {
            run: self.arena.whole_run(),
            words: PhantomData,
        }
    }

    /// All keys, ascending, each once.
    pub fn keys_iter(&self) -> Keys<'_, K, A>
        ensures { result ≡ map (key_by K.of_word) (fin.entries self.now.pairs) }
    {
        Keys {
            run: self.arena.whole_run(),
            words: PhantomData,
        }
    }

    /// All values, ascending by key.
    pub fn values_iter(&self) -> Values<'_, V, A>
        ensures { result ≡ map (value_by V.of_word) (fin.entries self.now.pairs) }
    {
        Values {
            run: self.arena.whole_run(),
            words: PhantomData,
        }
    }

    /// The pairs whose keys' words lie within the bounds, ascending, each once: `a..b`, `a..=b`, `..b`, `a..` or a pair of
    /// `Bound`s. A range that ends before it starts has none.
    pub fn range_iter<R: RangeBounds<K> + Drop>(&self, range: R) -> Iter<'_, K, V, A>
        ensures { R.has_bounds range → result ≡ map (pair_by K.of_word V.of_word)
            (in_range (first_in K.word (R.start_bound range)) (first_past K.word (R.end_bound range)) (fin.entries self.now.pairs)) }
    {
        let from = first_word(range.start_bound());
        let last = last_word(range.end_bound());
        Iter {
            run: self.arena.bounded_run(from, last),
            words: PhantomData,
        }
    }
}

impl<V: Word64, A: Allocator, D: Drop> U64Congee<V, A, D> {
    /// All pairs, ascending by key, each once. It takes no memory, and the same time for each pair on the whole.
    pub fn iter(&self) -> Iter<'_, u64, V, A>
        ensures { result ≡ map (pair_by (λ k. k) V.of_word) (fin.entries self.now.tree.pairs) }
    {
        self.tree.iter()
    }

    /// All keys, ascending, each once.
    pub fn keys_iter(&self) -> Keys<'_, u64, A>
        ensures { result ≡ map (key_by (λ k. k)) (fin.entries self.now.tree.pairs) }
    {
        self.tree.keys_iter()
    }

    /// All values, ascending by key.
    pub fn values_iter(&self) -> Values<'_, V, A>
        ensures { result ≡ map (value_by V.of_word) (fin.entries self.now.tree.pairs) }
    {
        self.tree.values_iter()
    }

    /// The pairs whose keys lie within the bounds, ascending, each once: `a..b`, `a..=b`, `..b`, `a..` or a pair of `Bound`s. A
    /// range that ends before it starts has none.
    pub fn range_iter<R: RangeBounds<u64> + Drop>(&self, range: R) -> Iter<'_, u64, V, A>
        ensures { R.has_bounds range → result ≡ map (pair_by (λ k. k) V.of_word)
            (in_range (first_in (λ k. k) (R.start_bound range)) (first_past (λ k. k) (R.end_bound range)) (fin.entries self.now.tree.pairs)) }
    {
        self.tree.range_iter(range)
    }
}
