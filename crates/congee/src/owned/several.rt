//! Calls that take or put several pairs of an owned tree.
ghost use Rattle.std.specs.Prelude.{◌≡◌, ℕ, IfErr, OnOk, length};
ghost use Rattle.std.specs.FinMap as map;
ghost use Rattle.std.specs.Iterator.{IsFinite};
ghost use Rattle.congee.specs.owned.Content.{KeepsCharge};
ghost use Rattle.congee.specs.owned.Ranges.{in_range};
ghost use Rattle.congee.specs.owned.Several.{Lightens, PutsAll, PutsSome, Sifts, WithoutRange};

use crate::allocator::{Allocator, OOMError};
use crate::owned::congee::Congee;
use crate::owned::numbers::number_after;
use judge::Word64;

impl<K: Word64, V: Word64, A: Allocator, D: Drop> Congee<K, V, A, D> {
    /// Keeps the pairs that `f` says yes to, and takes the others out, as `remove` does. It asks once about each pair, ascending by key.
    pub fn retain<F: FnMut(K, V) -> bool>(&mut self, mut f: F)
        requires { F.IsAlwaysCallable f }
        ensures kept { (after : F) × Sifts F.step K.of_word V.of_word f (map.entries self.old.pairs) (map.entries self.new.pairs) after }
        ensures lightens { Lightens A.charged_of A.limit_of self.old self.new }
        ensures base { self.new.base ≡ self.old.base }
    {
        let mut next = self.numbers_from(Some(0));
        while let Some((key, value)) = next {
            let keep = f(K::from_word(key), V::from_word(value));
            self.remove_unless(keep, key);
            next = self.numbers_from(number_after(key));
        }
    }

    /// Takes the pairs with start <= key < end out, as `remove` does, and gives their number.
    pub fn remove_range(&mut self, start: &K, end: &K) -> usize
        ensures removed { WithoutRange (K.word start.now) (K.word end.now) self.old.pairs self.new.pairs }
        ensures count { result ≡ length (in_range (K.word start.now) (K.word end.now) (map.entries self.old.pairs)) }
        ensures lightens { Lightens A.charged_of A.limit_of self.old self.new }
        ensures base { self.new.base ≡ self.old.base }
    {
        let mut from = start.to_word();
        let end = end.to_word();
        let mut count = 0usize;
        while let Some((key, _)) = self.numbers_from(Some(from)) {
            if key >= end {
                break;
            }
            self.remove_number(key);
            from = key + 1;
            count += 1;
        }
        count
    }

    /// Puts the pairs in, one after the other; of two with one key the later stays. At a refusal those before that pair are in.
    pub fn extend<I: IntoIterator<Item = (K, V)>>(&mut self, pairs: I) -> Result<(), OOMError>
        requires { (it : I.IntoIter) → I.into_iter_gives pairs it → I.IntoIter.can_next it × IsFinite (I.IntoIter.remaining it) }
        ensures all { OnOk result (PutsAll I.into_iter_gives I.IntoIter.next_gives K.word V.word pairs self.old self.new) }
        ensures refused { IfErr result (PutsSome I.into_iter_gives I.IntoIter.next_gives K.word V.word A.charged_of A.limit_of pairs self.old self.new) }
        ensures keeps { KeepsCharge A.charged_of A.limit_of self.old self.new }
        ensures base { self.new.base ≡ self.old.base }
    {
        for pair in pairs {
            let (key, value) = pair;
            self.insert_number(key.to_word(), value.to_word())?;
        }
        Ok(())
    }
}
