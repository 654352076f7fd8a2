//! The owned tree whose keys are numbers.
ghost use Rattle.std.specs.Prelude.{◌≡◌, ◌+◌, ◌≤◌, ◌↔◌, ◌^◌, ℕ, Option, Some, None, Ok, Err, IfOk, IfErr, IfSome, IfNone, IsSome, IsTrue, OnOk, nat_eq, length, take, drop};
ghost use Rattle.std.specs.Option.{option_map};
ghost use Rattle.std.specs.List.{All};
ghost use Rattle.std.specs.FinMap as map;
ghost use Rattle.congee.specs.forms.Forms.{size_of};
ghost use Rattle.congee.specs.declared.forms.base_node.NodeType.TheVariants.{N256};
ghost use Rattle.congee.specs.owned.Bound.{most_bytes};
ghost use Rattle.congee.specs.owned.Content.{Inserts, IsBare, KeepsCharge, ChangesNothing, Refuses, Modifies};
ghost use Rattle.congee.specs.owned.Drained.{Drained};
ghost use Rattle.congee.specs.owned.Full.{AllBranch, AllFilled};
ghost use Rattle.congee.specs.owned.Nearest.{ComesBack, IsGreatest, IsGreatestAs, IsLeast, IsLeastAs, pair_by};
ghost use Rattle.congee.specs.owned.OwnedSteps.{IsRefusal};
ghost use Rattle.congee.specs.owned.Ranges.{by_bytes, in_range, keys_by};
ghost use Rattle.congee.specs.owned.Runs.{StaysFilled};
ghost use Rattle.congee.specs.owned.Stats.{HasValue, IsTally, capped};
ghost use Rattle.congee.specs.owned.Going.{going_by};
ghost use Rattle.congee.specs.owned.Weights.{sizes_of};
ghost use Rattle.judge.specs.declared.journal.Call.TheVariants as call;
ghost use Rattle.judge.specs.declared.journal.Reply.TheVariants as reply;

use crate::allocator::{Allocator, DefaultAllocator, OOMError};
use crate::keys::KEY_BYTES;
use crate::owned::congee::Congee;
use crate::owned::drainer::{Drainer, NoDrain};
use crate::owned::stats::NodeStats;
use judge::Word64;
use std::alloc::{AllocError, Global};

/// An ordered map from 64-bit numbers to words for one thread.
///
/// `A` is the budget that its nodes are charged to, `D` what takes the pairs where the tree is closed.
#[derive(Drop)]
pub struct U64Congee<V, A: Allocator = DefaultAllocator, D = NoDrain> {
    pub(super) tree: Congee<u64, V, A, D>,
}

impl<V: Word64, A: Allocator> U64Congee<V, A, NoDrain> {
    /// An empty tree over the allocator, which its root is charged to. A refused call drops the allocator.
    pub fn new(alloc: Global, allocator: A) -> Result<Self, OOMError>
        ensures bare { IfOk result (λ t. IsBare t.tree) }
        ensures charged { IfOk result (λ t. A.charged_of t.tree.allocator ≡ A.charged_of allocator + size_of N256) }
        ensures base { IfOk result (λ t. t.tree.base ≡ A.charged_of allocator) }
        ensures limit { IfOk result (λ t. A.limit_of t.tree.allocator ≡ A.limit_of allocator) }
        ensures refused { IfErr result (λ e. IsRefusal (A.charged_of allocator) (size_of N256) (A.limit_of allocator) e) }
    {
        Ok(U64Congee {
            tree: Congee::new(alloc, allocator)?,
        })
    }
}

impl<V: Word64, A: Allocator, D: Drop> U64Congee<V, A, D> {
    /// An empty tree over the allocator, which its root is charged to. A refused call drops both.
    pub fn new_with_drainer(alloc: Global, allocator: A, drainer: D) -> Result<Self, OOMError>
        ensures bare { IfOk result (λ t. IsBare t.tree) }
        ensures charged { IfOk result (λ t. A.charged_of t.tree.allocator ≡ A.charged_of allocator + size_of N256) }
        ensures base { IfOk result (λ t. t.tree.base ≡ A.charged_of allocator) }
        ensures limit { IfOk result (λ t. A.limit_of t.tree.allocator ≡ A.limit_of allocator) }
        ensures drainer { IfOk result (λ t. t.tree.drainer ≡ drainer) }
        ensures refused { IfErr result (λ e. IsRefusal (A.charged_of allocator) (size_of N256) (A.limit_of allocator) e) }
    {
        Ok(U64Congee {
            tree: Congee::new_with_drainer(alloc, allocator, drainer)?,
        })
    }

    /// The value at a key.
    pub fn get(&self, key: u64) -> Option<V>
        ensures { result ≡ option_map V.of_word (map.get self.now.tree.pairs key) }
    {
        self.tree.get(&key)
    }

    /// Puts a value at a key, and gives the one before. A refused call changes nothing.
    pub fn insert(&mut self, key: u64, value: V) -> Result<Option<V>, OOMError>
        ensures inserts { IfOk result (λ r. (before : Option ℕ) × (r ≡ option_map V.of_word before)
            × Inserts nat_eq A.charged_of A.limit_of self.old.tree self.new.tree key
            (call.Insert key (V.word value)) (reply.Insert before)) }
        ensures put { OnOk result (map.get self.new.tree.pairs key ≡ Some (V.word value)) }
        ensures refused { IfErr result (Refuses A.charged_of A.limit_of self.old.tree self.new.tree key) }
        ensures base { self.new.tree.base ≡ self.old.tree.base }
    {
        self.tree.insert(key, value)
    }

    /// Takes a key's value out. A node that it leaves small gives place to a lesser one. Where budget or memory has no room for that
    /// one, it is skipped, and the node stays.
    pub fn remove(&mut self, key: u64) -> Option<V>
        ensures removes { (before : Option ℕ) × (result ≡ option_map V.of_word before)
            × Modifies nat_eq A.charged_of A.limit_of self.old.tree self.new.tree (map.get self.old.tree.goes key)
            (call.Remove key) (reply.Remove before) }
        ensures base { self.new.tree.base ≡ self.old.tree.base }
    {
        self.tree.remove(&key)
    }

    /// Puts the answer of `f` at a key that is present, or takes the key out where the answer is `None`.
    /// Gives the value before and the answer. It asks `f` once where the key is present.
    pub fn compute_if_present<F: FnOnce(u64) -> Option<u64>>(
        &mut self,
        key: u64,
        f: F,
    ) -> Option<(u64, Option<u64>)>
        requires { F.IsAlwaysCallable f }
        ensures asked { IfSome result (λ r. F.post f r.0 r.1) }
        ensures present { IfSome result (λ r. Modifies nat_eq A.charged_of A.limit_of self.old.tree self.new.tree
            (going_by r.1 (map.get self.old.tree.goes key))
            (call.ComputePresent key r.1) (reply.ComputePresent (Some (r.0, r.1)))) }
        ensures absent { IfNone result (ChangesNothing nat_eq A.charged_of A.limit_of self.old.tree self.new.tree
            (call.ComputePresent key None) (reply.ComputePresent None)) }
        ensures base { self.new.tree.base ≡ self.old.tree.base }
    {
        self.tree.compute_if_present(&key, f)
    }

    /// Puts the answer of `f` at a key, present or not, and gives the value before. It asks `f` once. A refused call changes nothing.
    pub fn compute_or_insert<F: FnOnce(Option<u64>) -> u64>(
        &mut self,
        key: u64,
        f: F,
    ) -> Result<Option<V>, OOMError>
        requires { F.IsAlwaysCallable f }
        ensures inserts { IfOk result (λ r. (before : Option ℕ) × (value : ℕ)
            × (r ≡ option_map V.of_word before) × F.post f before value
            × Inserts nat_eq A.charged_of A.limit_of self.old.tree self.new.tree key
            (call.ComputeInsert key value) (reply.ComputeInsert before)) }
        ensures refused { IfErr result (Refuses A.charged_of A.limit_of self.old.tree self.new.tree key) }
        ensures base { self.new.tree.base ≡ self.old.tree.base }
    {
        self.tree.compute_or_insert(key, f)
    }

    /// Where the key has the old value, puts the new one there, or takes the key out at `None`.
    /// Another value, or none, is the error.
    pub fn compare_exchange(
        &mut self,
        key: u64,
        old: &V,
        new: Option<V>,
    ) -> Result<Option<V>, Option<V>>
        ensures ok { IfOk result (λ r. (word : Option ℕ) × (word ≡ option_map V.word new) × (r ≡ new)
            × Modifies nat_eq A.charged_of A.limit_of self.old.tree self.new.tree (going_by new (map.get self.old.tree.goes key))
            (call.Exchange key (V.word old.now) word) (reply.Exchange (Ok word))) }
        ensures other { IfErr result (λ r. (found : Option ℕ) × (r ≡ option_map V.of_word found)
            × ChangesNothing nat_eq A.charged_of A.limit_of self.old.tree self.new.tree
            (call.Exchange key (V.word old.now) (option_map V.word new)) (reply.Exchange (Err found))) }
        ensures base { self.new.tree.base ≡ self.old.tree.base }
    {
        self.tree.compare_exchange(&key, old, new)
    }

    /// Takes every pair out, and every node but the root, whose bytes alone stay charged. The places that the nodes had
    /// stay for those that come next.
    pub fn clear(&mut self)
        ensures bare { IsBare self.new.tree }
        ensures keeps { KeepsCharge A.charged_of A.limit_of self.old.tree self.new.tree }
        ensures base { self.new.tree.base ≡ self.old.tree.base }
    {
        self.tree.clear();
    }

    /// All keys, ascending. It is refused for want of memory alone.
    pub fn keys(&self) -> Result<Vec<u64, Global>, AllocError>
        ensures { IfOk result (λ keys. keys.items ≡ keys_by (λ k. k) (map.entries self.now.tree.pairs)) }
    {
        self.tree.keys()
    }

    /// How many nodes of each form stand on each level and how many children they have, and how many pairs there are.
    /// The root is level 0. The sizes of these nodes are what the tree is charged. It is refused for want of memory alone.
    pub fn stats(&self) -> Result<NodeStats, AllocError>
        ensures counted { IfOk result (λ stats. IsTally stats self.now.tree.nodes (map.len self.now.tree.pairs)) }
        ensures charged { OnOk result (sizes_of self.now.tree.nodes ≡ self.now.tree.bytes) }
    {
        self.tree.stats()
    }

    /// Whether no key has a value.
    pub fn is_empty(&self) -> bool
        ensures { IsTrue result ↔ (self.now.tree.pairs ≡ map.empty) }
    {
        self.tree.is_empty()
    }

    /// How many keys have a value; a number past `u64::MAX` stays there.
    pub fn len(&self) -> u64
        ensures { result ≡ capped (map.len self.now.tree.pairs) }
    {
        self.tree.len()
    }

    /// Whether the key has a value.
    pub fn contains_key(&self, key: u64) -> bool
        ensures { IsTrue result ↔ IsSome (map.get self.now.tree.pairs key) }
    {
        self.tree.contains_key(&key)
    }

    /// The pair of the least key.
    pub fn first(&self) -> Option<(u64, V)>
        ensures found { (found : Option (ℕ × ℕ)) × (result ≡ option_map (pair_by (λ k. k) V.of_word) found)
            × IsLeast self.now.tree.pairs 0 found }
        ensures exact { ComesBack V.word V.of_word → IsLeastAs (λ k. k) V.word self.now.tree.pairs 0 result }
    {
        self.tree.first()
    }

    /// The pair of the least key that is greater than this one, present or not. So a scan goes on past a full buffer.
    pub fn next_after(&self, key: u64) -> Option<(u64, V)>
        ensures found { (found : Option (ℕ × ℕ)) × (result ≡ option_map (pair_by (λ k. k) V.of_word) found)
            × IsLeast self.now.tree.pairs (key + 1) found }
        ensures exact { ComesBack V.word V.of_word → IsLeastAs (λ k. k) V.word self.now.tree.pairs (key + 1) result }
    {
        self.tree.next_after(&key)
    }

    /// The pair of the greatest key.
    pub fn last(&self) -> Option<(u64, V)>
        ensures found { (found : Option (ℕ × ℕ)) × (result ≡ option_map (pair_by (λ k. k) V.of_word) found)
            × IsGreatest self.now.tree.pairs (2 ^ 64) found }
        ensures exact { ComesBack V.word V.of_word → IsGreatestAs (λ k. k) V.word self.now.tree.pairs (2 ^ 64) result }
    {
        self.tree.last()
    }

    /// The pair of the greatest key that is less than this one, present or not.
    pub fn next_before(&self, key: u64) -> Option<(u64, V)>
        ensures found { (found : Option (ℕ × ℕ)) × (result ≡ option_map (pair_by (λ k. k) V.of_word) found)
            × IsGreatest self.now.tree.pairs key found }
        ensures exact { ComesBack V.word V.of_word → IsGreatestAs (λ k. k) V.word self.now.tree.pairs key result }
    {
        self.tree.next_before(&key)
    }

    /// Each leaf of the tree has a value.
    pub fn leaves_hold(&self)
        ensures { All HasValue self.now.tree.nodes }
    {
        self.tree.leaves_hold();
    }

    /// Each node but the root has a value, or two nodes below it at least, whatever was skipped.
    pub fn nodes_branch(&self)
        ensures { AllBranch self.now.tree.nodes }
    {
        self.tree.nodes_branch();
    }

    /// Where no node but the root lacks a child, each has two nodes below it at least, or one value, and isn't too small for its
    /// form. It is so after any calls on a new tree of which none goes on without a lesser node that it wants.
    pub fn nodes_filled(&self)
        ensures filled { self.now.tree.lacking ≡ 0 → AllFilled self.now.tree.nodes }
        ensures run { StaysFilled nat_eq A.charged_of A.limit_of self.now.tree }
    {
        self.tree.nodes_filled();
    }

    /// Beside the root's 2104 bytes the nodes take 128 at most for each pair, and 56 for each child that they lack. The sum of their sizes
    /// is the tree's bytes.
    pub fn bytes_by_pairs(&self)
        ensures sizes { sizes_of self.now.tree.nodes ≡ self.now.tree.bytes }
        ensures bound { self.now.tree.bytes ≤ most_bytes (map.len self.now.tree.pairs) self.now.tree.lacking }
    {
        self.tree.bytes_by_pairs();
    }

    /// The bytes that the allocator has charged: those that it had charged before the tree was opened, and the nodes' sizes.
    pub fn charged(&self) -> u64
        ensures charged { result ≡ A.charged_of self.now.tree.allocator }
        ensures parts { result ≡ self.now.tree.base + self.now.tree.bytes }
    {
        self.tree.charged()
    }

    /// Writes the pairs with start <= key < end into `out`, ascending, as many as fit, each key as its eight bytes, the
    /// highest first. Gives their number. The places past them stay as they were.
    pub fn range(&self, start: u64, end: u64, out: &mut [([u8; KEY_BYTES], u64)]) -> usize
        ensures pairs { take result out.new ≡ by_bytes (take (length out.old) (in_range start end (map.entries self.now.tree.pairs))) }
        ensures count { result ≡ length (take (length out.old) (in_range start end (map.entries self.now.tree.pairs))) }
        ensures past { drop result out.new ≡ drop result out.old }
    {
        self.tree.range_by_bytes(start, end, out)
    }

    /// Writes the pairs with start <= key <= last into `out`, ascending, as many as fit, each key as its eight bytes, the
    /// highest first. Gives their number. The places past them stay as they were.
    pub fn range_inclusive(
        &self,
        start: u64,
        last: u64,
        out: &mut [([u8; KEY_BYTES], u64)],
    ) -> usize
        ensures pairs { take result out.new ≡ by_bytes (take (length out.old) (in_range start (last + 1) (map.entries self.now.tree.pairs))) }
        ensures count { result ≡ length (take (length out.old) (in_range start (last + 1) (map.entries self.now.tree.pairs))) }
        ensures past { drop result out.new ≡ drop result out.old }
    {
        self.tree.range_to_by_bytes(start, last, out)
    }
}

impl<V: Word64, A: Allocator, D: Drainer<u64, V>> U64Congee<V, A, D> {
    /// Hands each pair to the drainer, ascending by key, and drops the nodes. Gives the allocator and the drainer back:
    /// the nodes' bytes are off the charge, so it is the one with which the allocator came in.
    pub fn close(self) -> (A, D)
        requires { D.can_drain self.tree.drainer }
        ensures drained { Drained D.drains (λ k. k) V.of_word self.tree.drainer (map.entries self.tree.pairs) result.1 }
        ensures charged { A.charged_of result.0 ≡ self.tree.base }
        ensures taken_off { A.charged_of result.0 + self.tree.bytes ≡ A.charged_of self.tree.allocator }
        ensures limit { A.limit_of result.0 ≡ A.limit_of self.tree.allocator }
    {
        self.tree.close()
    }
}
