//! The pairs at the ends of an owned tree of words, and those next to a key.
ghost use Rattle.std.specs.Prelude.{◌≡◌, ◌+◌, ◌^◌, ℕ, Option, Some, None, IfSome, IfNone, nat_eq};
ghost use Rattle.std.specs.Option.{option_map};
ghost use Rattle.std.specs.FinMap as map;
ghost use Rattle.congee.specs.owned.Content.{Modifies};
ghost use Rattle.congee.specs.owned.Iterating.{first_in, first_past};
ghost use Rattle.congee.specs.owned.Nearest.{IsGreatest, IsGreatestIn, IsGreatestPair, IsLeast, IsLeastIn, IsLeastPair, NoneBelow, NoneFrom, pair_by};
ghost use Rattle.judge.specs.declared.journal.Call.TheVariants as call;
ghost use Rattle.judge.specs.declared.journal.Reply.TheVariants as reply;

use crate::allocator::Allocator;
use crate::keys::bytes_of_key;
use crate::owned::congee::{Congee, pair_of};
use crate::owned::iter::{first_word, last_word};
use judge::Word64;
use std::ops::RangeBounds;

impl<K: Word64, V: Word64, A: Allocator, D: Drop> Congee<K, V, A, D> {
    /// The pair of the least key that isn't less than this one: its own, where it is present.
    pub fn at_or_after(&self, key: &K) -> Option<(K, V)>
        ensures { (found : Option (ℕ × ℕ)) × (result ≡ option_map (pair_by K.of_word V.of_word) found)
            × IsLeast self.now.pairs (K.word key.now) found }
    {
        pair_of(self.arena.first_from(key.to_word()))
    }

    /// The pair of the greatest key that isn't greater than this one: its own, where it is present.
    pub fn at_or_before(&self, key: &K) -> Option<(K, V)>
        ensures { (found : Option (ℕ × ℕ)) × (result ≡ option_map (pair_by K.of_word V.of_word) found)
            × IsGreatest self.now.pairs (K.word key.now + 1) found }
    {
        pair_of(self.arena.last_to(key.to_word()))
    }

    /// The pair of the least key whose word lies within the bounds: `a..b`, `a..=b`, `..b`, `a..` or a pair of `Bound`s. A range
    /// that ends before it starts has none.
    pub fn first_in<R: RangeBounds<K> + Drop>(&self, range: R) -> Option<(K, V)>
        ensures { R.has_bounds range → (found : Option (ℕ × ℕ)) × (result ≡ option_map (pair_by K.of_word V.of_word) found)
            × IsLeastIn self.now.pairs (first_in K.word (R.start_bound range)) (first_past K.word (R.end_bound range)) found }
    {
        let from = first_word(range.start_bound());
        let last = last_word(range.end_bound());
        pair_of(self.arena.first_between(from, last))
    }

    /// The pair of the greatest key whose word lies within the bounds, as `first_in` has the least.
    pub fn last_in<R: RangeBounds<K> + Drop>(&self, range: R) -> Option<(K, V)>
        ensures { R.has_bounds range → (found : Option (ℕ × ℕ)) × (result ≡ option_map (pair_by K.of_word V.of_word) found)
            × IsGreatestIn self.now.pairs (first_in K.word (R.start_bound range)) (first_past K.word (R.end_bound range)) found }
    {
        let from = first_word(range.start_bound());
        let last = last_word(range.end_bound());
        pair_of(self.arena.last_between(from, last))
    }

    /// Takes the pair of the least key out, as `remove` does.
    pub fn pop_first(&mut self) -> Option<(K, V)>
        ensures popped { IfSome result (λ r. (pair : ℕ × ℕ) × (r ≡ pair_by K.of_word V.of_word pair)
            × IsLeastPair self.old.pairs 0 pair.0 pair.1
            × Modifies nat_eq A.charged_of A.limit_of self.old self.new (map.get self.old.goes pair.0)
            (call.Remove pair.0) (reply.Remove (Some pair.1))) }
        ensures empty { IfNone result (NoneFrom self.old.pairs 0 × (self.new ≡ self.old)) }
        ensures base { self.new.base ≡ self.old.base }
    {
        let Some((key, value)) = self.arena.first_from(0) else {
            return None;
        };
        let bytes = bytes_of_key(&key);
        self.arena.remove(self.alloc, &bytes);
        Some((K::from_word(key), V::from_word(value)))
    }

    /// Takes the pair of the greatest key out, as `remove` does.
    pub fn pop_last(&mut self) -> Option<(K, V)>
        ensures popped { IfSome result (λ r. (pair : ℕ × ℕ) × (r ≡ pair_by K.of_word V.of_word pair)
            × IsGreatestPair self.old.pairs (2 ^ 64) pair.0 pair.1
            × Modifies nat_eq A.charged_of A.limit_of self.old self.new (map.get self.old.goes pair.0)
            (call.Remove pair.0) (reply.Remove (Some pair.1))) }
        ensures empty { IfNone result (NoneBelow self.old.pairs (2 ^ 64) × (self.new ≡ self.old)) }
        ensures base { self.new.base ≡ self.old.base }
    {
        let Some((key, value)) = self.arena.last_to(u64::MAX) else {
            return None;
        };
        let bytes = bytes_of_key(&key);
        self.arena.remove(self.alloc, &bytes);
        Some((K::from_word(key), V::from_word(value)))
    }
}
