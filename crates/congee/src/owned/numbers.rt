//! Pairs of an owned tree by their numbers.
ghost use Rattle.std.specs.Prelude.{◌≡◌, ℕ, ◌+◌, ◌^◌, IfErr, OnOk, cond};
ghost use Rattle.std.specs.FinMap as map;
ghost use Rattle.congee.specs.owned.Content.{KeepsCharge, Refuses};
ghost use Rattle.congee.specs.owned.Iterating.{IsFirstIn};
ghost use Rattle.congee.specs.owned.Nearest.{IsGreatest, IsLeast, NoneFrom};
ghost use Rattle.congee.specs.owned.Several.{Lightens};

use crate::allocator::{Allocator, OOMError};
use crate::keys::bytes_of_key;
use crate::owned::congee::Congee;
use judge::Word64;

/// The number after one, if there is one of 64 bits.
pub(super) fn number_after(key: u64) -> Option<u64>
    ensures { IsFirstIn result (key + 1) }
{
    key.checked_add(1)
}

impl<K: Word64, V: Word64, A: Allocator, D: Drop> Congee<K, V, A, D> {
    /// The pair of the least number from one on; none where there is no such number.
    pub(super) fn numbers_from(&self, from: Option<u64>) -> Option<(u64, u64)>
        ensures least { (n : ℕ) → IsFirstIn from n → IsLeast self.now.pairs n result }
        ensures beyond { NoneFrom self.now.pairs (2 ^ 64) }
    {
        match from {
            Some(from) => self.arena.first_from(from),
            None => None,
        }
    }

    /// The pair of the greatest number up to one, that included.
    pub(super) fn numbers_to(&self, last: u64) -> Option<(u64, u64)>
        ensures { IsGreatest self.now.pairs (last + 1) result }
    {
        self.arena.last_to(last)
    }

    /// No key is past the greatest number of 64 bits.
    pub(super) fn words_end(&self)
        ensures { NoneFrom self.now.pairs (2 ^ 64) }
    {
        self.arena.words_end();
    }

    /// Puts a value's number at a key's. A refused call changes nothing.
    pub(super) fn insert_number(&mut self, key: u64, value: u64) -> Result<(), OOMError>
        ensures pairs { OnOk result (self.new.pairs ≡ map.insert self.old.pairs key value) }
        ensures refused { IfErr result (Refuses A.charged_of A.limit_of self.old self.new key) }
        ensures keeps { KeepsCharge A.charged_of A.limit_of self.old self.new }
        ensures base { self.new.base ≡ self.old.base }
    {
        let bytes = bytes_of_key(&key);
        match self.arena.insert(self.alloc, &bytes, value) {
            Ok(_) => Ok(()),
            Err((e, _)) => Err(e),
        }
    }

    /// The same. It goes from where the way of the key before ended, if that is on this key's way, and tells where this one ended.
    pub(super) fn insert_number_near(
        &mut self,
        near: usize,
        key: u64,
        value: u64,
    ) -> Result<usize, OOMError>
        ensures pairs { OnOk result (self.new.pairs ≡ map.insert self.old.pairs key value) }
        ensures refused { IfErr result (Refuses A.charged_of A.limit_of self.old self.new key) }
        ensures keeps { KeepsCharge A.charged_of A.limit_of self.old self.new }
        ensures base { self.new.base ≡ self.old.base }
    {
        let bytes = bytes_of_key(&key);
        match self.arena.insert_near(self.alloc, near, &bytes, value) {
            Ok(slot) => Ok(slot),
            Err((e, _)) => Err(e),
        }
    }

    /// Takes the value of a key's number out, as `remove` does.
    pub(super) fn remove_number(&mut self, key: u64)
        ensures pairs { self.new.pairs ≡ map.remove self.old.pairs key }
        ensures lightens { Lightens A.charged_of A.limit_of self.old self.new }
        ensures base { self.new.base ≡ self.old.base }
    {
        let bytes = bytes_of_key(&key);
        self.arena.remove(self.alloc, &bytes);
    }

    /// The same, but where the pair is to be kept.
    pub(super) fn remove_unless(&mut self, keep: bool, key: u64)
        ensures pairs { self.new.pairs ≡ cond keep self.old.pairs (map.remove self.old.pairs key) }
        ensures lightens { Lightens A.charged_of A.limit_of self.old self.new }
        ensures base { self.new.base ≡ self.old.base }
    {
        if !keep {
            self.remove_number(key);
        }
    }
}
