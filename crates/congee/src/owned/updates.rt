//! Calls that ask a closure for a key's next value.
ghost use Rattle.std.specs.Prelude.{◌≡◌, ℕ, Option, IfOk, IfErr, nat_eq};
ghost use Rattle.std.specs.Option.{option_map};
ghost use Rattle.std.specs.FinMap as map;
ghost use Rattle.congee.specs.owned.Content.{Inserts, Refuses};
ghost use Rattle.congee.specs.owned.Entry.{Fills, Updates};
ghost use Rattle.judge.specs.declared.journal.Call.TheVariants as call;
ghost use Rattle.judge.specs.declared.journal.Reply.TheVariants as reply;

use crate::allocator::{Allocator, OOMError};
use crate::keys::bytes_of_key;
use crate::owned::congee::Congee;
use judge::{Word64, word_of};

impl<K: Word64, V: Word64, A: Allocator, D: Drop> Congee<K, V, A, D> {
    /// Puts the answer of `f` in the place of a key's value, and gives the value before. It asks `f` once, and not where the key
    /// is absent. It wants no memory.
    pub fn update<F: FnOnce(V) -> V>(&mut self, key: &K, f: F) -> Option<V>
        requires { F.IsAlwaysCallable f }
        ensures before { result ≡ option_map V.of_word (map.get self.old.pairs (K.word key.now)) }
        ensures updates { Updates V.word V.of_word A.charged_of A.limit_of self.old self.new (K.word key.now) (F.post f) (map.get self.old.pairs (K.word key.now)) }
        ensures base { self.new.base ≡ self.old.base }
    {
        let bytes = bytes_of_key(key);
        let Some(old) = self.arena.get(&bytes).copied() else {
            return None;
        };
        let new = f(V::from_word(old));
        let word = new.to_word();
        self.arena.settle(self.alloc, &bytes, Some(word));
        Some(V::from_word(old))
    }

    /// Puts the answer of `f` at a key, present or not, and gives the value before. It asks `f` once. A refused call changes nothing.
    pub fn update_or_insert<F: FnOnce(Option<V>) -> V>(
        &mut self,
        key: K,
        f: F,
    ) -> Result<Option<V>, OOMError>
        requires { F.IsAlwaysCallable f }
        ensures inserts { IfOk result (λ r. (before : Option ℕ) × (after : V) × (r ≡ option_map V.of_word before) × F.post f r after
            × Inserts nat_eq A.charged_of A.limit_of self.old self.new (K.word key)
            (call.ComputeInsert (K.word key) (V.word after)) (reply.ComputeInsert before)) }
        ensures refused { IfErr result (Refuses A.charged_of A.limit_of self.old self.new (K.word key)) }
        ensures base { self.new.base ≡ self.old.base }
    {
        let bytes = bytes_of_key(&key);
        let old = self.arena.get(&bytes).copied();
        let new = f(word_of(old));
        let word = new.to_word();
        match self.arena.insert(self.alloc, &bytes, word) {
            Ok(before) => Ok(word_of(before)),
            Err((e, _)) => Err(e),
        }
    }

    /// The value at a key. Where the key is absent, the answer of `f` is put in, which is asked for nothing else. It goes down a
    /// present key's way once, an absent one's twice.
    pub fn get_or_insert_with<F: FnOnce() -> V>(&mut self, key: K, f: F) -> Result<V, OOMError>
        requires { F.IsAlwaysCallable f }
        ensures fills { Fills V.word V.of_word A.charged_of A.limit_of self.old self.new (K.word key) (F.post f) result (map.get self.old.pairs (K.word key)) }
        ensures base { self.new.base ≡ self.old.base }
    {
        let bytes = bytes_of_key(&key);
        if let Some(found) = self.arena.get(&bytes).copied() {
            return Ok(V::from_word(found));
        }
        let value = f();
        let word = value.to_word();
        match self.arena.insert(self.alloc, &bytes, word) {
            Ok(_) => Ok(V::from_word(word)),
            Err((e, _)) => Err(e),
        }
    }
}
