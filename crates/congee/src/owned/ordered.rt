//! Trees whose keys' words stand in the keys' own order.
ghost use Rattle.std.specs.FinMap as map;
ghost use Rattle.std.specs.List.Sorted.{IsStrictlySortedBy};
ghost use Rattle.congee.specs.owned.Iterating.{AreWords};
ghost use Rattle.congee.specs.owned.Ranges.{keys_by};

use crate::allocator::Allocator;
use crate::owned::congee::Congee;
use judge::{Ordered64, Word64};

impl<K: Ordered64, V: Word64, A: Allocator, D: Drop> Congee<K, V, A, D> {
    /// The keys ascend in their own order where each is one that was put in: so does what `keys`, `range` and iterators tell.
    pub fn keys_ascend(&self)
        ensures { AreWords K.fits K.word self.now.pairs → IsStrictlySortedBy K.cmp (keys_by K.of_word (map.entries self.now.pairs)) }
    {}
}
