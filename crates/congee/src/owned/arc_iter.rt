//! Iterators over a tree of shared values, which lend the values, and one that takes the tree and gives their owners.
ghost use Rattle.std.specs.Prelude.{◌≡◌, map};
ghost use Rattle.std.specs.Arc.{arc_value};
ghost use Rattle.std.specs.FinMap as fin;
ghost use Rattle.std.specs.Iterator.{YieldsFirstBy, YieldsFirstRef, YieldsLastBy, YieldsLastRef, item_count};
ghost use Rattle.std.specs.Range.Bound.{bound_map};
ghost use Rattle.congee.specs.owned.Iterating.{first_in, first_past};
ghost use Rattle.congee.specs.owned.Nearest.{key_by};
ghost use Rattle.congee.specs.owned.OwnerCalls.{shared_by};
ghost use Rattle.congee.specs.owned.Ranges.{in_range};

use crate::allocator::DefaultAllocator;
use crate::owned::congee_arc::CongeeArc;
use crate::owned::iter::{Keys, Run, first_word, last_word};
use judge::{ArcPayload, Word64};
use std::alloc::Global;
use std::iter::{DoubleEndedIterator, IntoIterator, Iterator};
use std::marker::{Model, PhantomData};
use std::ops::RangeBounds;
use std::sync::Arc;

/// The pairs of a tree of shared values, or those within bounds, ascending by key, each value lent.
#[derive(Drop)]
pub struct ArcIter<'a, K: Word64, V: Drop> {
    run: Run<'a, ArcPayload<V>, DefaultAllocator>,
    words: PhantomData<K>,
}

impl<'a, K: Word64, V: Drop> Model for ArcIter<'a, K, V> {
    ghost use Rattle.std.specs.Prelude.{List, map};

    ghost Value = { List (K × V) };

    ghost use Rattle.congee.specs.owned.OwnerCalls.{shared_by};

    ghost view = { λ i. map (shared_by K.of_word) i.run };
}

impl<'a, K: Word64, V: Drop> Iterator for ArcIter<'a, K, V> {
    type Item = (K, &'a V);

    ghost next_gives = { YieldsFirstBy (λ p. (p.0, p.1.now)) (λ s. s) };

    ghost remaining = { item_count (λ s. s) };

    #[inline]
    fn next(&mut self) -> Option<(K, &'a V)> {
        match self.run.step() {
            Some((key, payload)) => Some((K::from_word(key), payload.value())),
            None => None,
        }
    }
}

impl<'a, K: Word64, V: Drop> DoubleEndedIterator for ArcIter<'a, K, V> {
    ghost next_back_gives = { YieldsLastBy (λ p. (p.0, p.1.now)) (λ s. s) };

    #[inline]
    fn next_back(&mut self) -> Option<(K, &'a V)> {
        match self.run.step_back() {
            Some((key, payload)) => Some((K::from_word(key), payload.value())),
            None => None,
        }
    }
}

/// The values of a tree of shared values, ascending by key, each lent.
#[derive(Drop)]
pub struct ArcValues<'a, V: Drop> {
    run: Run<'a, ArcPayload<V>, DefaultAllocator>,
}

impl<'a, V: Drop> Model for ArcValues<'a, V> {
    ghost use Rattle.std.specs.Prelude.{List, map};

    ghost Value = { List V };

    ghost view = { λ i. map (λ pair. pair.1) i.run };
}

impl<'a, V: Drop> Iterator for ArcValues<'a, V> {
    type Item = &'a V;

    ghost next_gives = { YieldsFirstRef (λ s. s) };

    ghost remaining = { item_count (λ s. s) };

    #[inline]
    fn next(&mut self) -> Option<&'a V> {
        match self.run.step() {
            Some((_, payload)) => Some(payload.value()),
            None => None,
        }
    }
}

impl<'a, V: Drop> DoubleEndedIterator for ArcValues<'a, V> {
    ghost next_back_gives = { YieldsLastRef (λ s. s) };

    #[inline]
    fn next_back(&mut self) -> Option<&'a V> {
        match self.run.step_back() {
            Some((_, payload)) => Some(payload.value()),
            None => None,
        }
    }
}

impl<K: Word64, V: Drop> CongeeArc<K, V> {
    /// All pairs, ascending by key, each once, each value lent. It takes no memory, no further owner, and the same time for each pair
    /// on the whole.
    pub fn iter(&self) -> ArcIter<'_, K, V>
        ensures { result ≡ map (shared_by K.of_word) (fin.entries self.now.pairs) }
    {
        ArcIter {
            run: self.arena.whole_run(),
            words: PhantomData,
        }
    }

    /// All keys, ascending, each once.
    pub fn keys_iter(&self) -> Keys<'_, K, DefaultAllocator, ArcPayload<V>>
        ensures { result ≡ map (key_by K.of_word) (fin.entries self.now.pairs) }
    {
        Keys {
            run: self.arena.whole_run(),
            words: PhantomData,
        }
    }

    /// All values, ascending by key, each lent.
    pub fn values_iter(&self) -> ArcValues<'_, V>
        ensures { result ≡ map (λ pair. pair.1) (fin.entries self.now.pairs) }
    {
        ArcValues {
            run: self.arena.whole_run(),
        }
    }

    /// The pairs whose keys' words lie within the bounds, ascending, each once, each value lent: `a..b`, `a..=b`, `..b`, `a..` or a
    /// pair of `Bound`s. A range that ends before it starts has none.
    pub fn range_iter<R: RangeBounds<K> + Drop>(&self, range: R) -> ArcIter<'_, K, V>
        ensures { R.has_bounds range → result ≡ map (shared_by K.of_word)
            (in_range (first_in K.word (R.start_bound range)) (first_past K.word (R.end_bound range)) (fin.entries self.now.pairs)) }
    {
        let from = first_word(range.start_bound());
        let last = last_word(range.end_bound());
        ArcIter {
            run: self.arena.bounded_run(from, last),
            words: PhantomData,
        }
    }
}

impl<'a, K: Word64, V: Drop> IntoIterator for &'a CongeeArc<K, V> {
    type Item = (K, &'a V);

    type IntoIter = ArcIter<'a, K, V>;

    ghost into_iter_gives = { λ t r. r ≡ map (shared_by K.of_word) (fin.entries t.now.pairs) };

    fn into_iter(self) -> ArcIter<'a, K, V> {
        self.iter()
    }
}

/// The pairs of a tree of shared values, ascending by key, from both ends, each with the tree's owner of its value. It has the tree,
/// takes each pair out of it as it comes to it, and drops the others with it.
#[derive(Drop)]
pub struct ArcIntoIter<K: Word64, V: Drop> {
    tree: CongeeArc<K, V>,
}

impl<K: Word64, V: Drop> Model for ArcIntoIter<K, V> {
    ghost use Rattle.std.specs.Prelude.{List, map};

    ghost Value = { List (K × V) };

    ghost use Rattle.std.specs.FinMap as fin;
    ghost use Rattle.congee.specs.owned.OwnerCalls.{shared_by};

    ghost view = { λ i. map (shared_by K.of_word) (fin.entries i.tree.pairs) };
}

impl<K: Word64, V: Drop> ArcIntoIter<K, V> {
    /// The next pair.
    fn step(&mut self) -> Option<(K, Arc<V, Global>)>
        ensures { YieldsFirstBy (λ p. (p.0, arc_value p.1)) (λ s. s) self.old result self.new }
    {
        self.tree.words_end();
        self.tree.pop_first()
    }

    /// The last pair.
    fn step_back(&mut self) -> Option<(K, Arc<V, Global>)>
        ensures { YieldsLastBy (λ p. (p.0, arc_value p.1)) (λ s. s) self.old result self.new }
    {
        self.tree.words_end();
        self.tree.pop_last()
    }
}

impl<K: Word64, V: Drop> Iterator for ArcIntoIter<K, V> {
    type Item = (K, Arc<V, Global>);

    ghost next_gives = { YieldsFirstBy (λ p. (p.0, arc_value p.1)) (λ s. s) };

    ghost remaining = { item_count (λ s. s) };

    fn next(&mut self) -> Option<(K, Arc<V, Global>)> {
        self.step()
    }
}

impl<K: Word64, V: Drop> DoubleEndedIterator for ArcIntoIter<K, V> {
    ghost next_back_gives = { YieldsLastBy (λ p. (p.0, arc_value p.1)) (λ s. s) };

    fn next_back(&mut self) -> Option<(K, Arc<V, Global>)> {
        self.step_back()
    }
}

impl<K: Word64, V: Drop> IntoIterator for CongeeArc<K, V> {
    type Item = (K, Arc<V, Global>);

    type IntoIter = ArcIntoIter<K, V>;

    ghost into_iter_gives = { λ t r. r ≡ map (shared_by K.of_word) (fin.entries t.pairs) };

    fn into_iter(self) -> ArcIntoIter<K, V> {
        ArcIntoIter { tree: self }
    }
}
