//! Owned trees printed as maps.

use crate::allocator::Allocator;
use crate::owned::congee::Congee;
use judge::Word64;
use std::fmt;
use std::fmt::Debug;

impl<K: Word64 + Debug, V: Word64 + Debug, A: Allocator, D: Drop> Debug for Congee<K, V, A, D> {
    fn fmt<W: fmt::Write>(&self, f: &mut fmt::Formatter<W>) -> fmt::Result {
        let mut map = f.debug_map();
        for (key, value) in self.iter() {
            map.entry(&key, &value);
        }
        map.finish()
    }
}
