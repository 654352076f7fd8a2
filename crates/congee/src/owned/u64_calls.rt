//! What a tree of numbers has beside its calls on one key: what `Congee` has, by numbers.
ghost use Rattle.std.specs.Prelude.{◌≡◌, ◌↔◌, ◌+◌, ◌^◌, ℕ, Option, Some, None, IfOk, IfErr, IfSome, IfNone, IsTrue, OnOk, length, nat_eq};
ghost use Rattle.std.specs.Cmp.{on_per};
ghost use Rattle.std.specs.Iterator.{IsFinite};
ghost use Rattle.std.specs.Option.{option_map};
ghost use Rattle.std.specs.FinMap as map;
ghost use Rattle.congee.specs.owned.Building.{BuildsAll, CopyRefused, IsBuildError, IsOver};
ghost use Rattle.congee.specs.owned.Compared.{same_pairs, same_pairs_per};
ghost use Rattle.congee.specs.owned.Content.{Inserts, KeepsCharge, Modifies, Refuses};
ghost use Rattle.congee.specs.owned.Entry.{Fills, Updates};
ghost use Rattle.congee.specs.owned.Nearest.{IsGreatest, IsGreatestPair, IsLeast, IsLeastPair, NoneBelow, NoneFrom, pair_by};
ghost use Rattle.congee.specs.owned.Ranges.{in_range};
ghost use Rattle.congee.specs.owned.Several.{Lightens, PutsAll, PutsSome, Sifts, WithoutRange};
ghost use Rattle.judge.specs.declared.journal.Call.TheVariants as call;
ghost use Rattle.judge.specs.declared.journal.Reply.TheVariants as reply;

use crate::allocator::{Allocator, OOMError};
use crate::owned::building::BuildError;
use crate::owned::congee::Congee;
use crate::owned::drainer::NoDrain;
use crate::owned::u64_congee::U64Congee;
use judge::Word64;
use std::alloc::Global;
use std::cmp::PartialEq;
use std::fmt;
use std::fmt::Debug;

impl<V: Word64, A: Allocator, D: Drop> U64Congee<V, A, D> {
    /// The pair of the least key that isn't less than this one: its own, where it is present.
    pub fn at_or_after(&self, key: u64) -> Option<(u64, V)>
        ensures { (found : Option (ℕ × ℕ)) × (result ≡ option_map (pair_by (λ k. k) V.of_word) found)
            × IsLeast self.now.tree.pairs key found }
    {
        self.tree.at_or_after(&key)
    }

    /// The pair of the greatest key that isn't greater than this one: its own, where it is present.
    pub fn at_or_before(&self, key: u64) -> Option<(u64, V)>
        ensures { (found : Option (ℕ × ℕ)) × (result ≡ option_map (pair_by (λ k. k) V.of_word) found)
            × IsGreatest self.now.tree.pairs (key + 1) found }
    {
        self.tree.at_or_before(&key)
    }

    /// Takes the pair of the least key out, as `remove` does.
    pub fn pop_first(&mut self) -> Option<(u64, V)>
        ensures popped { IfSome result (λ r. (pair : ℕ × ℕ) × (r ≡ pair_by (λ k. k) V.of_word pair)
            × IsLeastPair self.old.tree.pairs 0 pair.0 pair.1
            × Modifies nat_eq A.charged_of A.limit_of self.old.tree self.new.tree (map.get self.old.tree.goes pair.0)
            (call.Remove pair.0) (reply.Remove (Some pair.1))) }
        ensures empty { IfNone result (NoneFrom self.old.tree.pairs 0 × (self.new.tree ≡ self.old.tree)) }
        ensures base { self.new.tree.base ≡ self.old.tree.base }
    {
        self.tree.pop_first()
    }

    /// Takes the pair of the greatest key out, as `remove` does.
    pub fn pop_last(&mut self) -> Option<(u64, V)>
        ensures popped { IfSome result (λ r. (pair : ℕ × ℕ) × (r ≡ pair_by (λ k. k) V.of_word pair)
            × IsGreatestPair self.old.tree.pairs (2 ^ 64) pair.0 pair.1
            × Modifies nat_eq A.charged_of A.limit_of self.old.tree self.new.tree (map.get self.old.tree.goes pair.0)
            (call.Remove pair.0) (reply.Remove (Some pair.1))) }
        ensures empty { IfNone result (NoneBelow self.old.tree.pairs (2 ^ 64) × (self.new.tree ≡ self.old.tree)) }
        ensures base { self.new.tree.base ≡ self.old.tree.base }
    {
        self.tree.pop_last()
    }

    /// Puts the answer of `f` in the place of a key's value, and gives the value before. It asks `f` once, and not where the key
    /// is absent. It wants no memory.
    pub fn update<F: FnOnce(V) -> V>(&mut self, key: u64, f: F) -> Option<V>
        requires { F.IsAlwaysCallable f }
        ensures before { result ≡ option_map V.of_word (map.get self.old.tree.pairs key) }
        ensures updates { Updates V.word V.of_word A.charged_of A.limit_of self.old.tree self.new.tree key (F.post f) (map.get self.old.tree.pairs key) }
        ensures base { self.new.tree.base ≡ self.old.tree.base }
    {
        self.tree.update(&key, f)
    }

    /// Puts the answer of `f` at a key, present or not, and gives the value before. It asks `f` once. A refused call changes nothing.
    pub fn update_or_insert<F: FnOnce(Option<V>) -> V>(
        &mut self,
        key: u64,
        f: F,
    ) -> Result<Option<V>, OOMError>
        requires { F.IsAlwaysCallable f }
        ensures inserts { IfOk result (λ r. (before : Option ℕ) × (after : V) × (r ≡ option_map V.of_word before) × F.post f r after
            × Inserts nat_eq A.charged_of A.limit_of self.old.tree self.new.tree key
            (call.ComputeInsert key (V.word after)) (reply.ComputeInsert before)) }
        ensures refused { IfErr result (Refuses A.charged_of A.limit_of self.old.tree self.new.tree key) }
        ensures base { self.new.tree.base ≡ self.old.tree.base }
    {
        self.tree.update_or_insert(key, f)
    }

    /// The value at a key. Where the key is absent, the answer of `f` is put in, which is asked for nothing else. It goes down a
    /// present key's way once, an absent one's twice.
    pub fn get_or_insert_with<F: FnOnce() -> V>(&mut self, key: u64, f: F) -> Result<V, OOMError>
        requires { F.IsAlwaysCallable f }
        ensures fills { Fills V.word V.of_word A.charged_of A.limit_of self.old.tree self.new.tree key (F.post f) result (map.get self.old.tree.pairs key) }
        ensures base { self.new.tree.base ≡ self.old.tree.base }
    {
        self.tree.get_or_insert_with(key, f)
    }

    /// Keeps the pairs that `f` says yes to, and takes the others out, as `remove` does. It asks once about each pair, ascending by key.
    pub fn retain<F: FnMut(u64, V) -> bool>(&mut self, f: F)
        requires { F.IsAlwaysCallable f }
        ensures kept { (after : F) × Sifts F.step (λ k. k) V.of_word f (map.entries self.old.tree.pairs) (map.entries self.new.tree.pairs) after }
        ensures lightens { Lightens A.charged_of A.limit_of self.old.tree self.new.tree }
        ensures base { self.new.tree.base ≡ self.old.tree.base }
    {
        self.tree.retain(f);
    }

    /// Takes the pairs with start <= key < end out, as `remove` does, and gives their number.
    pub fn remove_range(&mut self, start: u64, end: u64) -> usize
        ensures removed { WithoutRange start end self.old.tree.pairs self.new.tree.pairs }
        ensures count { result ≡ length (in_range start end (map.entries self.old.tree.pairs)) }
        ensures lightens { Lightens A.charged_of A.limit_of self.old.tree self.new.tree }
        ensures base { self.new.tree.base ≡ self.old.tree.base }
    {
        self.tree.remove_range(&start, &end)
    }

    /// Puts the pairs in, one after the other; of two with one key the later stays. At a refusal those before that pair are in.
    pub fn extend<I: IntoIterator<Item = (u64, V)>>(&mut self, pairs: I) -> Result<(), OOMError>
        requires { (it : I.IntoIter) → I.into_iter_gives pairs it → I.IntoIter.can_next it × IsFinite (I.IntoIter.remaining it) }
        ensures all { OnOk result (PutsAll I.into_iter_gives I.IntoIter.next_gives (λ k. k) V.word pairs self.old.tree self.new.tree) }
        ensures refused { IfErr result (PutsSome I.into_iter_gives I.IntoIter.next_gives (λ k. k) V.word A.charged_of A.limit_of pairs self.old.tree self.new.tree) }
        ensures keeps { KeepsCharge A.charged_of A.limit_of self.old.tree self.new.tree }
        ensures base { self.new.tree.base ≡ self.old.tree.base }
    {
        self.tree.extend(pairs)
    }

    /// A tree of the same pairs over another allocator, or over this one's copy. The pairs go in one after the other, ascending.
    pub fn try_clone<B: Allocator>(
        &self,
        alloc: Global,
        allocator: B,
    ) -> Result<U64Congee<V, B, NoDrain>, OOMError>
        ensures same { IfOk result (λ t. t.tree.pairs ≡ self.now.tree.pairs) }
        ensures over { IfOk result (λ t. IsOver B.charged_of B.limit_of allocator t.tree) }
        ensures refused { IfErr result (CopyRefused B.charged_of B.limit_of allocator self.now.tree) }
    {
        Ok(U64Congee {
            tree: self.tree.try_clone(alloc, allocator)?,
        })
    }

    /// Whether the other tree has the same pairs, by their numbers, whatever it is charged to.
    pub fn has_pairs_of<B: Allocator, E: Drop>(&self, other: &U64Congee<V, B, E>) -> bool
        ensures { IsTrue result ↔ (self.now.tree.pairs ≡ other.now.tree.pairs) }
    {
        self.tree.has_pairs_of(&other.tree)
    }
}

impl<V: Word64, A: Allocator> U64Congee<V, A, NoDrain> {
    /// A tree of pairs whose keys ascend, over the allocator. It is refused for a pair out of order, budget or memory.
    pub fn from_sorted<I: IntoIterator<Item = (u64, V)> + Drop>(
        alloc: Global,
        allocator: A,
        pairs: I,
    ) -> Result<Self, BuildError>
        requires { (it : I.IntoIter) → I.into_iter_gives pairs it → I.IntoIter.can_next it × IsFinite (I.IntoIter.remaining it) }
        ensures built { IfOk result (λ t. BuildsAll I.into_iter_gives I.IntoIter.next_gives (λ k. k) V.word pairs t.tree.pairs) }
        ensures over { IfOk result (λ t. IsOver A.charged_of A.limit_of allocator t.tree) }
        ensures refused { IfErr result (IsBuildError I.into_iter_gives I.IntoIter.next_gives (λ k. k) V.word A.charged_of A.limit_of allocator pairs) }
    {
        Ok(U64Congee {
            tree: Congee::from_sorted(alloc, allocator, pairs)?,
        })
    }
}

impl<V: Word64, A: Allocator, D: Drop> PartialEq for U64Congee<V, A, D> {
    ghost eq = { λ m n. same_pairs m.tree.pairs n.tree.pairs };

    ghost laws = { on_per (λ t. t.tree.pairs) same_pairs_per };

    fn eq(&self, other: &U64Congee<V, A, D>) -> bool {
        self.tree == other.tree
    }
}

impl<V: Word64 + Debug, A: Allocator, D: Drop> Debug for U64Congee<V, A, D> {
    fn fmt<W: fmt::Write>(&self, f: &mut fmt::Formatter<W>) -> fmt::Result {
        self.tree.fmt(f)
    }
}
