//! A key's place in an owned tree.
ghost use Rattle.std.specs.Prelude.{◌≡◌, ℕ, Option, IfOk, IfErr, nat_eq};
ghost use Rattle.std.specs.Option.{option_map};
ghost use Rattle.std.specs.FinMap as map;
ghost use Rattle.congee.specs.owned.Content.{Inserts, Modifies, Refuses};
ghost use Rattle.congee.specs.owned.Entry.{Fills, Updates};
ghost use Rattle.judge.specs.declared.journal.Call.TheVariants as call;
ghost use Rattle.judge.specs.declared.journal.Reply.TheVariants as reply;

use crate::allocator::{Allocator, DefaultAllocator, OOMError};
use crate::owned::congee::Congee;
use crate::owned::drainer::NoDrain;
use judge::Word64;

/// A key, present or not, and the tree. Each call on it goes down the key's way anew.
pub struct Entry<'a, K: Word64, V: Word64, A: Allocator = DefaultAllocator, D: Drop = NoDrain> {
    pub tree: &'a mut Congee<K, V, A, D>,
    pub key: K,
}

impl<K: Word64, V: Word64, A: Allocator, D: Drop> Congee<K, V, A, D> {
    /// The place of a key, for one call after the other.
    pub fn entry(&mut self, key: K) -> Entry<'_, K, V, A, D>
        ensures key { result.key ≡ key }
        ensures unchanged { result.tree.now ≡ self.old }
        ensures same_tree { result.tree.ghost_name ≡ self.entry.ghost_name }
    {
        Entry { tree: self, key }
    }
}

impl<'a, K: Word64, V: Word64, A: Allocator, D: Drop> Entry<'a, K, V, A, D> {
    /// The key.
    pub fn key(&self) -> &K
        ensures { result.now ≡ self.now.key }
    {
        &self.key
    }

    /// The value, if the key is present.
    pub fn get(&self) -> Option<V>
        ensures { result ≡ option_map V.of_word (map.get self.now.tree.now.pairs (K.word self.now.key)) }
    {
        self.tree.get(&self.key)
    }

    /// Puts the answer of `f` in the place of the value, if the key is present. It asks `f` once then.
    pub fn and_modify<F: FnOnce(V) -> V>(self, f: F) -> Self
        requires { F.IsAlwaysCallable f }
        ensures key { result.key ≡ self.entry.key }
        ensures updates { Updates V.word V.of_word A.charged_of A.limit_of self.entry.tree.now result.tree.now (K.word self.entry.key) (F.post f) (map.get self.entry.tree.now.pairs (K.word self.entry.key)) }
        ensures base { result.tree.now.base ≡ self.entry.tree.now.base }
        ensures same_tree { result.tree.ghost_name ≡ self.entry.tree.ghost_name }
    {
        let Entry { tree, key } = self;
        tree.update(&key, f);
        Entry { tree, key }
    }

    /// The value, or this one, which is put in.
    pub fn or_insert(self, value: V) -> Result<V, OOMError>
        ensures fills { Fills V.word V.of_word A.charged_of A.limit_of self.entry.tree.now self.exit.0.now (K.word self.entry.key) (λ v. v ≡ value) result (map.get self.entry.tree.now.pairs (K.word self.entry.key)) }
        ensures base { self.exit.0.now.base ≡ self.entry.tree.now.base }
    {
        let Entry { tree, key } = self;
        tree.get_or_insert_with(key, move || value)
    }

    /// The value, or the answer of `f`, which is put in. It asks `f` once where the key is absent.
    pub fn or_insert_with<F: FnOnce() -> V>(self, f: F) -> Result<V, OOMError>
        requires { F.IsAlwaysCallable f }
        ensures fills { Fills V.word V.of_word A.charged_of A.limit_of self.entry.tree.now self.exit.0.now (K.word self.entry.key) (F.post f) result (map.get self.entry.tree.now.pairs (K.word self.entry.key)) }
        ensures base { self.exit.0.now.base ≡ self.entry.tree.now.base }
    {
        let Entry { tree, key } = self;
        tree.get_or_insert_with(key, f)
    }

    /// Puts a value at the key, and gives the one before. A refused call changes nothing.
    pub fn insert(self, value: V) -> Result<Option<V>, OOMError>
        ensures inserts { IfOk result (λ r. (before : Option ℕ) × (r ≡ option_map V.of_word before)
            × Inserts nat_eq A.charged_of A.limit_of self.entry.tree.now self.exit.0.now (K.word self.entry.key)
            (call.Insert (K.word self.entry.key) (V.word value)) (reply.Insert before)) }
        ensures refused { IfErr result (Refuses A.charged_of A.limit_of self.entry.tree.now self.exit.0.now (K.word self.entry.key)) }
        ensures base { self.exit.0.now.base ≡ self.entry.tree.now.base }
    {
        let Entry { tree, key } = self;
        tree.insert(key, value)
    }

    /// Takes the key's value out, as `remove` of the tree does.
    pub fn remove(self) -> Option<V>
        ensures removes { (before : Option ℕ) × (result ≡ option_map V.of_word before)
            × Modifies nat_eq A.charged_of A.limit_of self.entry.tree.now self.exit.0.now (map.get self.entry.tree.now.goes (K.word self.entry.key))
            (call.Remove (K.word self.entry.key)) (reply.Remove before) }
        ensures base { self.exit.0.now.base ≡ self.entry.tree.now.base }
    {
        let Entry { tree, key } = self;
        tree.remove(&key)
    }
}
