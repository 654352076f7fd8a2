//! The owned tree of words.
ghost use Rattle.std.specs.Prelude.{◌≡◌, ◌+◌, ◌≤◌, ◌^◌, ℕ, Option, None, Some, Ok, Err, IfOk, IfErr, IfSome, IfNone, OnOk};
ghost use Rattle.std.specs.Prelude.{IsTrue, IsSome, ◌↔◌, nat_eq, length, take, drop};
ghost use Rattle.std.specs.Option.{option_map};
ghost use Rattle.std.specs.List.{All};
ghost use Rattle.std.specs.FinMap as map;
ghost use Rattle.congee.specs.forms.Forms.{size_of};
ghost use Rattle.congee.specs.declared.forms.base_node.NodeType.TheVariants.{N256};
ghost use Rattle.congee.specs.owned.Nearest.{ComesBack, IsGreatest, IsGreatestAs, IsLeast, IsLeastAs, pair_by};
ghost use Rattle.congee.specs.owned.Bound.{most_bytes};
ghost use Rattle.congee.specs.owned.Content.{Inserts, IsBare, KeepsCharge, ChangesNothing, Refuses, Modifies};
ghost use Rattle.congee.specs.owned.Drained.{Drained};
ghost use Rattle.congee.specs.owned.Full.{AllBranch, AllFilled};
ghost use Rattle.congee.specs.owned.OwnedSteps.{IsRefusal};
ghost use Rattle.congee.specs.owned.Ranges.{by_bytes, in_range, keys_by};
ghost use Rattle.congee.specs.owned.Runs.{StaysFilled};
ghost use Rattle.congee.specs.owned.Stats.{HasValue, IsTally, capped};
ghost use Rattle.congee.specs.owned.Weights.{sizes_of};
ghost use Rattle.congee.specs.owned.Going.{going_by};
ghost use Rattle.judge.specs.declared.journal.Call.TheVariants as call;
ghost use Rattle.judge.specs.declared.journal.Reply.TheVariants as reply;

use crate::allocator::{Allocator, DefaultAllocator, OOMError};
use crate::keys::{KEY_BYTES, bytes_of_key};
use crate::owned::arena::Arena;
use crate::owned::drainer::{Drainer, NoDrain};
use crate::owned::stats::NodeStats;
use judge::{Word64, number_of, word_of};
use std::alloc::{AllocError, Global};
use std::marker::{Model, PhantomData};

/// An ordered map from words to words for one thread: an adaptive radix tree over the keys' eight bytes.
///
/// `A` is the budget that its nodes are charged to, `D` what takes the pairs where the tree is closed.
#[derive(Drop)]
pub struct Congee<K, V, A: Allocator = DefaultAllocator, D = NoDrain> {
    pub(super) arena: Arena<u64, A>,
    drainer: D,
    pub(super) alloc: Global,
    words: PhantomData<(K, V)>,
}

impl<K, V, A: Allocator, D> Model for Congee<K, V, A, D> {
    ghost use Rattle.std.specs.Prelude.{ℕ, ◌≤◌, ◌-◌, false};
    ghost use Rattle.std.specs.Coded.{coded_ℕ};
    ghost use Rattle.congee.specs.owned.Content.{Content, content_code};

    ghost Value = { Content ℕ A D };

    ghost coded = { content_code coded_ℕ A.code D.code };

    ghost use Rattle.congee.specs.owned.Arena.{IsTree};
    ghost use Rattle.congee.specs.owned.Counted.{IsCounted};
    ghost use Rattle.congee.specs.owned.Full.{NodesFilled, lacking_of};
    ghost use Rattle.congee.specs.owned.Keyed.{IsKeyed};
    ghost use Rattle.congee.specs.owned.Levels.{nodes_of};
    ghost use Rattle.congee.specs.owned.Sizes.{bytes_of};
    ghost use Rattle.congee.specs.owned.Table.{pairs_of};
    ghost use Rattle.congee.specs.owned.Going.{goes_of};
    ghost use Rattle.congee.specs.owned.Wanted.{wants_of};

    ghost view = { λ t. record { pairs = pairs_of t.arena.nodes; nodes = nodes_of t.arena.nodes; bytes = bytes_of t.arena.nodes; lacking = lacking_of t.arena.nodes; base = A.charged_of t.arena.allocator - bytes_of t.arena.nodes; wants = wants_of t.arena.nodes; goes = goes_of t.arena.nodes; allocator = t.arena.allocator; drainer = t.drainer } };

    ghost invariant = { λ t. IsTree t.arena.nodes × (bytes_of t.arena.nodes ≤ A.charged_of t.arena.allocator) × NodesFilled false t.arena.nodes × IsKeyed t.arena.nodes × IsCounted t.arena };
}

/// Whether the number is there.
fn holds(found: Option<u64>, number: u64) -> bool
    ensures { IsTrue result ↔ (found ≡ Some number) }
{
    match found {
        Some(value) => value == number,
        None => false,
    }
}

/// The pair of two numbers, if there is one.
pub(super) fn pair_of<K: Word64, V: Word64>(found: Option<(u64, u64)>) -> Option<(K, V)>
    ensures { result ≡ option_map (pair_by K.of_word V.of_word) found }
{
    match found {
        Some((key, value)) => Some((K::from_word(key), V::from_word(value))),
        None => None,
    }
}

impl<K: Word64, V: Word64, A: Allocator, D: Drop> Congee<K, V, A, D> {
    /// An empty tree over the allocator, which its root is charged to. A refused call drops both.
    pub fn new_with_drainer(alloc: Global, allocator: A, drainer: D) -> Result<Self, OOMError>
        ensures bare { IfOk result (λ t. IsBare t) }
        ensures charged { IfOk result (λ t. A.charged_of t.allocator ≡ A.charged_of allocator + size_of N256) }
        ensures base { IfOk result (λ t. t.base ≡ A.charged_of allocator) }
        ensures limit { IfOk result (λ t. A.limit_of t.allocator ≡ A.limit_of allocator) }
        ensures drainer { IfOk result (λ t. t.drainer ≡ drainer) }
        ensures refused { IfErr result (λ e. IsRefusal (A.charged_of allocator) (size_of N256) (A.limit_of allocator) e) }
    {
        let arena = Arena::new(alloc, allocator)?;
        Ok(Congee {
            arena,
            drainer,
            alloc,
            words: PhantomData,
        })
    }

    /// Puts the answer of `f` at a key that is present, or takes the key out where the answer is `None`.
    /// Gives the value before and the answer. It asks `f` once where the key is present.
    pub fn compute_if_present<F: FnOnce(u64) -> Option<u64>>(
        &mut self,
        key: &K,
        f: F,
    ) -> Option<(u64, Option<u64>)>
        requires { F.IsAlwaysCallable f }
        ensures asked { IfSome result (λ r. F.post f r.0 r.1) }
        ensures present { IfSome result (λ r. Modifies nat_eq A.charged_of A.limit_of self.old self.new
            (going_by r.1 (map.get self.old.goes (K.word key.now)))
            (call.ComputePresent (K.word key.now) r.1) (reply.ComputePresent (Some (r.0, r.1)))) }
        ensures absent { IfNone result (ChangesNothing nat_eq A.charged_of A.limit_of self.old self.new
            (call.ComputePresent (K.word key.now) None) (reply.ComputePresent None)) }
        ensures base { self.new.base ≡ self.old.base }
    {
        let bytes = bytes_of_key(key);
        let Some(old) = self.arena.get(&bytes).copied() else {
            return None;
        };
        let new = f(old);
        self.arena.settle(self.alloc, &bytes, new);
        Some((old, new))
    }

    /// Puts the answer of `f` at a key, present or not, and gives the value before. It asks `f` once. A refused call changes nothing.
    pub fn compute_or_insert<F: FnOnce(Option<u64>) -> u64>(
        &mut self,
        key: K,
        f: F,
    ) -> Result<Option<V>, OOMError>
        requires { F.IsAlwaysCallable f }
        ensures inserts { IfOk result (λ r. (before : Option ℕ) × (value : ℕ)
            × (r ≡ option_map V.of_word before) × F.post f before value
            × Inserts nat_eq A.charged_of A.limit_of self.old self.new (K.word key)
            (call.ComputeInsert (K.word key) value) (reply.ComputeInsert before)) }
        ensures refused { IfErr result (Refuses A.charged_of A.limit_of self.old self.new (K.word key)) }
        ensures base { self.new.base ≡ self.old.base }
    {
        let bytes = bytes_of_key(&key);
        let old = self.arena.get(&bytes).copied();
        let value = f(old);
        match self.arena.insert(self.alloc, &bytes, value) {
            Ok(before) => Ok(word_of(before)),
            Err((e, _)) => Err(e),
        }
    }

    /// Where the key has the old value, puts the new one there, or takes the key out at `None`.
    /// Another value, or none, is the error.
    pub fn compare_exchange(
        &mut self,
        key: &K,
        old: &V,
        new: Option<V>,
    ) -> Result<Option<V>, Option<V>>
        ensures ok { IfOk result (λ r. (word : Option ℕ) × (word ≡ option_map V.word new) × (r ≡ new)
            × Modifies nat_eq A.charged_of A.limit_of self.old self.new (going_by new (map.get self.old.goes (K.word key.now)))
            (call.Exchange (K.word key.now) (V.word old.now) word) (reply.Exchange (Ok word))) }
        ensures other { IfErr result (λ r. (found : Option ℕ) × (r ≡ option_map V.of_word found)
            × ChangesNothing nat_eq A.charged_of A.limit_of self.old self.new
            (call.Exchange (K.word key.now) (V.word old.now) (option_map V.word new)) (reply.Exchange (Err found))) }
        ensures base { self.new.base ≡ self.old.base }
    {
        let bytes = bytes_of_key(key);
        let old = old.to_word();
        let found = self.arena.get(&bytes).copied();
        if !holds(found, old) {
            return Err(word_of(found));
        }
        let word = number_of(&new);
        self.arena.settle(self.alloc, &bytes, word);
        Ok(new)
    }

    /// The value at a key.
    pub fn get(&self, key: &K) -> Option<V>
        ensures { result ≡ option_map V.of_word (map.get self.now.pairs (K.word key.now)) }
    {
        let bytes = bytes_of_key(key);
        word_of(self.arena.get(&bytes).copied())
    }

    /// Puts a value at a key, and gives the one before. A refused call changes nothing.
    pub fn insert(&mut self, key: K, value: V) -> Result<Option<V>, OOMError>
        ensures inserts { IfOk result (λ r. (before : Option ℕ) × (r ≡ option_map V.of_word before)
            × Inserts nat_eq A.charged_of A.limit_of self.old self.new (K.word key)
            (call.Insert (K.word key) (V.word value)) (reply.Insert before)) }
        ensures put { OnOk result (map.get self.new.pairs (K.word key) ≡ Some (V.word value)) }
        ensures refused { IfErr result (Refuses A.charged_of A.limit_of self.old self.new (K.word key)) }
        ensures base { self.new.base ≡ self.old.base }
    {
        let bytes = bytes_of_key(&key);
        match self.arena.insert(self.alloc, &bytes, value.to_word()) {
            Ok(before) => Ok(word_of(before)),
            Err((e, _)) => Err(e),
        }
    }

    /// Takes a key's value out. A node that it leaves small gives place to a lesser one. Where budget or memory has no room for that
    /// one, it is skipped, and the node stays.
    pub fn remove(&mut self, key: &K) -> Option<V>
        ensures removes { (before : Option ℕ) × (result ≡ option_map V.of_word before)
            × Modifies nat_eq A.charged_of A.limit_of self.old self.new (map.get self.old.goes (K.word key.now))
            (call.Remove (K.word key.now)) (reply.Remove before) }
        ensures base { self.new.base ≡ self.old.base }
    {
        let bytes = bytes_of_key(key);
        word_of(self.arena.remove(self.alloc, &bytes))
    }

    /// Takes every pair out, and every node but the root, whose bytes alone stay charged. The places that the nodes had
    /// stay for those that come next.
    pub fn clear(&mut self)
        ensures bare { IsBare self.new }
        ensures keeps { KeepsCharge A.charged_of A.limit_of self.old self.new }
        ensures base { self.new.base ≡ self.old.base }
    {
        self.arena.clear();
    }

    /// All keys, ascending. It is refused for want of memory alone.
    pub fn keys(&self) -> Result<Vec<K, Global>, AllocError>
        ensures { IfOk result (λ keys. keys.items ≡ keys_by K.of_word (map.entries self.now.pairs)) }
    {
        self.arena.keys(self.alloc)
    }

    /// How many nodes of each form stand on each level and how many children they have, and how many pairs there are.
    /// The root is level 0. The sizes of these nodes are what the tree is charged. It is refused for want of memory alone.
    pub fn stats(&self) -> Result<NodeStats, AllocError>
        ensures counted { IfOk result (λ stats. IsTally stats self.now.nodes (map.len self.now.pairs)) }
        ensures charged { OnOk result (sizes_of self.now.nodes ≡ self.now.bytes) }
    {
        self.arena.stats(self.alloc)
    }

    /// Whether no key has a value.
    pub fn is_empty(&self) -> bool
        ensures { IsTrue result ↔ (self.now.pairs ≡ map.empty) }
    {
        self.arena.is_empty()
    }

    /// How many keys have a value; a number past `u64::MAX` stays there.
    pub fn len(&self) -> u64
        ensures { result ≡ capped (map.len self.now.pairs) }
    {
        self.arena.count_pairs()
    }

    /// Whether the key has a value.
    pub fn contains_key(&self, key: &K) -> bool
        ensures { IsTrue result ↔ IsSome (map.get self.now.pairs (K.word key.now)) }
    {
        let bytes = bytes_of_key(key);
        let found = self.arena.get(&bytes).copied();
        found.is_some()
    }

    /// The pair of the least key.
    pub fn first(&self) -> Option<(K, V)>
        ensures found { (found : Option (ℕ × ℕ)) × (result ≡ option_map (pair_by K.of_word V.of_word) found)
            × IsLeast self.now.pairs 0 found }
        ensures exact { ComesBack K.word K.of_word → ComesBack V.word V.of_word
            → IsLeastAs K.word V.word self.now.pairs 0 result }
    {
        pair_of(self.arena.first_from(0))
    }

    /// The pair of the least key that is greater than this one, present or not. So a scan goes on past a full buffer.
    pub fn next_after(&self, key: &K) -> Option<(K, V)>
        ensures found { (found : Option (ℕ × ℕ)) × (result ≡ option_map (pair_by K.of_word V.of_word) found)
            × IsLeast self.now.pairs (K.word key.now + 1) found }
        ensures exact { ComesBack K.word K.of_word → ComesBack V.word V.of_word
            → IsLeastAs K.word V.word self.now.pairs (K.word key.now + 1) result }
    {
        match key.to_word().checked_add(1) {
            Some(from) => pair_of(self.arena.first_from(from)),
            None => None,
        }
    }

    /// The pair of the greatest key.
    pub fn last(&self) -> Option<(K, V)>
        ensures found { (found : Option (ℕ × ℕ)) × (result ≡ option_map (pair_by K.of_word V.of_word) found)
            × IsGreatest self.now.pairs (2 ^ 64) found }
        ensures exact { ComesBack K.word K.of_word → ComesBack V.word V.of_word
            → IsGreatestAs K.word V.word self.now.pairs (2 ^ 64) result }
    {
        pair_of(self.arena.last_to(u64::MAX))
    }

    /// The pair of the greatest key that is less than this one, present or not.
    pub fn next_before(&self, key: &K) -> Option<(K, V)>
        ensures found { (found : Option (ℕ × ℕ)) × (result ≡ option_map (pair_by K.of_word V.of_word) found)
            × IsGreatest self.now.pairs (K.word key.now) found }
        ensures exact { ComesBack K.word K.of_word → ComesBack V.word V.of_word
            → IsGreatestAs K.word V.word self.now.pairs (K.word key.now) result }
    {
        match key.to_word().checked_sub(1) {
            Some(last) => pair_of(self.arena.last_to(last)),
            None => None,
        }
    }

    /// Writes the pairs with start <= key < end into `out`, ascending, as many as fit, each key as its eight bytes, and gives their
    /// number.
    pub(crate) fn range_by_bytes(
        &self,
        start: u64,
        end: u64,
        out: &mut [([u8; KEY_BYTES], u64)],
    ) -> usize
        ensures pairs { take result out.new ≡ by_bytes (take (length out.old) (in_range start end (map.entries self.now.pairs))) }
        ensures count { result ≡ length (take (length out.old) (in_range start end (map.entries self.now.pairs))) }
        ensures past { drop result out.new ≡ drop result out.old }
    {
        self.arena.range(start, end, out)
    }

    /// Writes the pairs with start <= key <= last into `out`, ascending, as many as fit, each key as its eight bytes, and gives their
    /// number.
    pub(crate) fn range_to_by_bytes(
        &self,
        start: u64,
        last: u64,
        out: &mut [([u8; KEY_BYTES], u64)],
    ) -> usize
        ensures pairs { take result out.new ≡ by_bytes (take (length out.old) (in_range start (last + 1) (map.entries self.now.pairs))) }
        ensures count { result ≡ length (take (length out.old) (in_range start (last + 1) (map.entries self.now.pairs))) }
        ensures past { drop result out.new ≡ drop result out.old }
    {
        self.arena.range_to(start, last, out)
    }

    /// Writes the pairs with start <= key < end into `out`, ascending, as many as fit, and gives their number.
    /// The places past them stay as they were.
    #[tactic(auto, using(crate::proofs::lemmas::owned::EntryRanges::same_entries))]
    pub fn range(&self, start: &K, end: &K, out: &mut [(u64, u64)]) -> usize
        ensures pairs { take result out.new ≡ take (length out.old) (in_range (K.word start.now) (K.word end.now) (map.entries self.now.pairs)) }
        ensures count { result ≡ length (take (length out.old) (in_range (K.word start.now) (K.word end.now) (map.entries self.now.pairs))) }
        ensures past { drop result out.new ≡ drop result out.old }
    {
        self.arena.range(start.to_word(), end.to_word(), out)
    }

    /// Writes the pairs with start <= key <= last into `out`, ascending, as many as fit, and gives their number. The places
    /// past them stay as they were.
    #[tactic(auto, using(crate::proofs::lemmas::owned::EntryRanges::same_entries))]
    pub fn range_inclusive(&self, start: &K, last: &K, out: &mut [(u64, u64)]) -> usize
        ensures pairs { take result out.new ≡ take (length out.old) (in_range (K.word start.now) (K.word last.now + 1) (map.entries self.now.pairs)) }
        ensures count { result ≡ length (take (length out.old) (in_range (K.word start.now) (K.word last.now + 1) (map.entries self.now.pairs))) }
        ensures past { drop result out.new ≡ drop result out.old }
    {
        self.arena.range_to(start.to_word(), last.to_word(), out)
    }

    /// Each leaf of the tree has a value.
    pub fn leaves_hold(&self)
        ensures { All HasValue self.now.nodes }
    {
        self.arena.leaves_hold();
    }

    /// Each node but the root has a value, or two nodes below it at least, whatever was skipped.
    pub fn nodes_branch(&self)
        ensures { AllBranch self.now.nodes }
    {
        self.arena.nodes_branch();
    }

    /// Where no node but the root lacks a child, each has two nodes below it at least, or one value, and isn't too small for its
    /// form. It is so after any calls on a new tree of which none goes on without a lesser node that it wants.
    pub fn nodes_filled(&self)
        ensures filled { self.now.lacking ≡ 0 → AllFilled self.now.nodes }
        ensures run { StaysFilled nat_eq A.charged_of A.limit_of self.now }
    {
        self.arena.nodes_filled();
    }

    /// Beside the root's 2104 bytes the nodes take 128 at most for each pair, and 56 for each child that they lack. The sum of their sizes
    /// is the tree's bytes.
    pub fn bytes_by_pairs(&self)
        ensures sizes { sizes_of self.now.nodes ≡ self.now.bytes }
        ensures bound { self.now.bytes ≤ most_bytes (map.len self.now.pairs) self.now.lacking }
    {
        self.arena.bytes_by_pairs();
    }

    /// The bytes that the allocator has charged: those that it had charged before the tree was opened, and the nodes' sizes.
    pub fn charged(&self) -> u64
        ensures charged { result ≡ A.charged_of self.now.allocator }
        ensures parts { result ≡ self.now.base + self.now.bytes }
    {
        self.arena.allocator.charged()
    }
}

impl<K: Word64, V: Word64, A: Allocator> Congee<K, V, A, NoDrain> {
    /// An empty tree over the allocator, which its root is charged to. A refused call drops the allocator.
    pub fn new(alloc: Global, allocator: A) -> Result<Self, OOMError>
        ensures bare { IfOk result (λ t. IsBare t) }
        ensures charged { IfOk result (λ t. A.charged_of t.allocator ≡ A.charged_of allocator + size_of N256) }
        ensures base { IfOk result (λ t. t.base ≡ A.charged_of allocator) }
        ensures limit { IfOk result (λ t. A.limit_of t.allocator ≡ A.limit_of allocator) }
        ensures refused { IfErr result (λ e. IsRefusal (A.charged_of allocator) (size_of N256) (A.limit_of allocator) e) }
    {
        Congee::new_with_drainer(alloc, allocator, NoDrain)
    }
}

impl<K: Word64, V: Word64, A: Allocator, D: Drainer<K, V>> Congee<K, V, A, D> {
    /// Hands each pair to the drainer, ascending by key, and drops the nodes. Gives the allocator and the drainer back:
    /// the nodes' bytes are off the charge, so it is the one with which the allocator came in.
    pub fn close(self) -> (A, D)
        requires { D.can_drain self.drainer }
        ensures drained { Drained D.drains K.of_word V.of_word self.drainer (map.entries self.pairs) result.1 }
        ensures charged { A.charged_of result.0 ≡ self.base }
        ensures taken_off { A.charged_of result.0 + self.bytes ≡ A.charged_of self.allocator }
        ensures limit { A.limit_of result.0 ≡ A.limit_of self.allocator }
    {
        let Congee { arena, drainer, .. } = self;
        let drainer = arena.drain::<K, V, D>(drainer);
        (arena.release(), drainer)
    }
}
