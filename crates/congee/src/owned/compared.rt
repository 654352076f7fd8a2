//! Owned trees compared by their pairs.
ghost use Rattle.std.specs.Prelude.{◌≡◌, ◌↔◌, IsTrue};
ghost use Rattle.std.specs.Cmp.{on_per};
ghost use Rattle.congee.specs.owned.Compared.{same_pairs, same_pairs_per};

use crate::allocator::Allocator;
use crate::owned::congee::Congee;
use crate::owned::numbers::number_after;
use judge::Word64;
use std::cmp::PartialEq;

/// Whether two pairs, if there are any, are the same.
fn is_same(left: Option<(u64, u64)>, right: Option<(u64, u64)>) -> bool
    ensures { IsTrue result ↔ (left ≡ right) }
{
    match (left, right) {
        (Some((key, value)), Some((other, that))) => key == other && value == that,
        (None, None) => true,
        _ => false,
    }
}

impl<K: Word64, V: Word64, A: Allocator, D: Drop> Congee<K, V, A, D> {
    /// Whether the other tree has the same pairs, by their numbers, whatever it is charged to.
    pub fn has_pairs_of<B: Allocator, E: Drop>(&self, other: &Congee<K, V, B, E>) -> bool
        ensures { IsTrue result ↔ (self.now.pairs ≡ other.now.pairs) }
    {
        let mut left = self.numbers_from(Some(0));
        let mut right = other.numbers_from(Some(0));
        while let Some((key, _)) = left {
            if !is_same(left, right) {
                return false;
            }
            left = self.numbers_from(number_after(key));
            right = other.numbers_from(number_after(key));
        }
        right.is_none()
    }
}

impl<K: Word64, V: Word64, A: Allocator, D: Drop> PartialEq for Congee<K, V, A, D> {
    ghost eq = { λ m n. same_pairs m.pairs n.pairs };

    ghost laws = { on_per (λ t. t.pairs) same_pairs_per };

    fn eq(&self, other: &Congee<K, V, A, D>) -> bool {
        self.has_pairs_of(other)
    }
}
