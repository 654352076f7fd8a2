//! A number's place in a tree of numbers.
ghost use Rattle.std.specs.Prelude.{◌≡◌, ℕ, Option, IfOk, IfErr, nat_eq};
ghost use Rattle.std.specs.Option.{option_map};
ghost use Rattle.std.specs.FinMap as map;
ghost use Rattle.congee.specs.owned.Content.{Inserts, Modifies, Refuses};
ghost use Rattle.congee.specs.owned.Entry.{Fills, Updates};
ghost use Rattle.judge.specs.declared.journal.Call.TheVariants as call;
ghost use Rattle.judge.specs.declared.journal.Reply.TheVariants as reply;

use crate::allocator::{Allocator, DefaultAllocator, OOMError};
use crate::owned::drainer::NoDrain;
use crate::owned::u64_congee::U64Congee;
use judge::Word64;

/// A number, present or not, and the tree. Each call on it goes down the number's way anew.
pub struct U64Entry<'a, V: Word64, A: Allocator = DefaultAllocator, D: Drop = NoDrain> {
    pub tree: &'a mut U64Congee<V, A, D>,
    pub key: u64,
}

impl<V: Word64, A: Allocator, D: Drop> U64Congee<V, A, D> {
    /// The place of a key, for one call after the other.
    pub fn entry(&mut self, key: u64) -> U64Entry<'_, V, A, D>
        ensures key { result.key ≡ key }
        ensures unchanged { result.tree.now ≡ self.old }
        ensures same_tree { result.tree.ghost_name ≡ self.entry.ghost_name }
    {
        U64Entry { tree: self, key }
    }
}

impl<'a, V: Word64, A: Allocator, D: Drop> U64Entry<'a, V, A, D> {
    /// The value, if the key is present.
    pub fn get(&self) -> Option<V>
        ensures { result ≡ option_map V.of_word (map.get self.now.tree.now.tree.pairs self.now.key) }
    {
        self.tree.get(self.key)
    }

    /// Puts the answer of `f` in the place of the value, if the key is present. It asks `f` once then.
    pub fn and_modify<F: FnOnce(V) -> V>(self, f: F) -> Self
        requires { F.IsAlwaysCallable f }
        ensures key { result.key ≡ self.entry.key }
        ensures updates { Updates V.word V.of_word A.charged_of A.limit_of self.entry.tree.now.tree result.tree.now.tree self.entry.key (F.post f) (map.get self.entry.tree.now.tree.pairs self.entry.key) }
        ensures base { result.tree.now.tree.base ≡ self.entry.tree.now.tree.base }
        ensures same_tree { result.tree.ghost_name ≡ self.entry.tree.ghost_name }
    {
        let U64Entry { tree, key } = self;
        tree.update(key, f);
        U64Entry { tree, key }
    }

    /// The value, or this one, which is put in.
    pub fn or_insert(self, value: V) -> Result<V, OOMError>
        ensures fills { Fills V.word V.of_word A.charged_of A.limit_of self.entry.tree.now.tree self.exit.0.now.tree self.entry.key (λ v. v ≡ value) result (map.get self.entry.tree.now.tree.pairs self.entry.key) }
        ensures base { self.exit.0.now.tree.base ≡ self.entry.tree.now.tree.base }
    {
        let U64Entry { tree, key } = self;
        tree.get_or_insert_with(key, move || value)
    }

    /// The value, or the answer of `f`, which is put in. It asks `f` once where the key is absent.
    pub fn or_insert_with<F: FnOnce() -> V>(self, f: F) -> Result<V, OOMError>
        requires { F.IsAlwaysCallable f }
        ensures fills { Fills V.word V.of_word A.charged_of A.limit_of self.entry.tree.now.tree self.exit.0.now.tree self.entry.key (F.post f) result (map.get self.entry.tree.now.tree.pairs self.entry.key) }
        ensures base { self.exit.0.now.tree.base ≡ self.entry.tree.now.tree.base }
    {
        let U64Entry { tree, key } = self;
        tree.get_or_insert_with(key, f)
    }

    /// Puts a value at the key, and gives the one before. A refused call changes nothing.
    pub fn insert(self, value: V) -> Result<Option<V>, OOMError>
        ensures inserts { IfOk result (λ r. (before : Option ℕ) × (r ≡ option_map V.of_word before)
            × Inserts nat_eq A.charged_of A.limit_of self.entry.tree.now.tree self.exit.0.now.tree self.entry.key
            (call.Insert self.entry.key (V.word value)) (reply.Insert before)) }
        ensures refused { IfErr result (Refuses A.charged_of A.limit_of self.entry.tree.now.tree self.exit.0.now.tree self.entry.key) }
        ensures base { self.exit.0.now.tree.base ≡ self.entry.tree.now.tree.base }
    {
        let U64Entry { tree, key } = self;
        tree.insert(key, value)
    }

    /// Takes the key's value out, as `remove` of the tree does.
    pub fn remove(self) -> Option<V>
        ensures removes { (before : Option ℕ) × (result ≡ option_map V.of_word before)
            × Modifies nat_eq A.charged_of A.limit_of self.entry.tree.now.tree self.exit.0.now.tree (map.get self.entry.tree.now.tree.goes self.entry.key)
            (call.Remove self.entry.key) (reply.Remove before) }
        ensures base { self.exit.0.now.tree.base ≡ self.entry.tree.now.tree.base }
    {
        let U64Entry { tree, key } = self;
        tree.remove(key)
    }
}
