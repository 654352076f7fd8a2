//! What a tree of shared values has beside its calls on one key.
ghost use Rattle.std.specs.Prelude.{◌≡◌, ◌+◌, ◌^◌, ℕ, Some, IsSome, IsTrue, ◌↔◌, IfErr, IfNone, IfOk, IfSome, OnErr, OnOk};
ghost use Rattle.std.specs.Arc.{arc_value};
ghost use Rattle.std.specs.FinMap as map;
ghost use Rattle.std.specs.Option.{option_map};
ghost use Rattle.congee.specs.owned.Nearest.{IsGreatestPair, IsLeastPair, NoneBelow, NoneFrom};
ghost use Rattle.congee.specs.owned.OwnerCalls.{HasBelow, HasFrom, IsUncomputed, TellsGreatest, TellsLeast};
ghost use Rattle.congee.specs.owned.Owners.{OwnerInserts, OwnerModifies};
ghost use Rattle.congee.specs.owned.Stats.{IsTally};
ghost use Rattle.congee.specs.owned.Weights.{sizes_of};
ghost use Rattle.judge.specs.declared.journal.Call.TheVariants as call;
ghost use Rattle.judge.specs.declared.journal.Reply.TheVariants as reply;

use crate::allocator::OOMError;
use crate::keys::bytes_of_key;
use crate::owned::congee_arc::{CongeeArc, Count, another_owner, owner_of};
use crate::owned::stats::NodeStats;
use judge::{ArcPayload, Word64};
use std::alloc::{AllocError, Global};
use std::sync::Arc;

/// Why the answer of a closure isn't in a tree of shared values.
#[derive(Drop)]
pub enum Uncomputed<V: Drop> {
    /// No more owners of the value that is there can be counted, so the closure wasn't asked.
    Count,
    /// There was no room for a node. The answer comes back.
    Refused(OOMError, Arc<V, Global>),
}

impl<K: Word64, V: Drop> CongeeArc<K, V> {
    /// Whether the key has a value.
    pub fn contains_key(&self, key: K) -> bool
        ensures { IsTrue result ↔ IsSome (map.get self.now.pairs (K.word key)) }
    {
        let bytes = bytes_of_key(&key);
        let found = self.arena.get(&bytes);
        found.is_some()
    }

    /// How many nodes of each form stand on each level and how many children they have, and how many pairs there are.
    /// The root is level 0. It is refused for want of memory alone.
    pub fn stats(&self) -> Result<NodeStats, AllocError>
        ensures counted { IfOk result (λ stats. IsTally stats self.now.nodes (map.len self.now.pairs)) }
        ensures charged { OnOk result (sizes_of self.now.nodes ≡ self.now.bytes) }
    {
        self.arena.stats(self.alloc)
    }

    /// No key is past the greatest number of 64 bits.
    pub(super) fn words_end(&self)
        ensures { NoneFrom self.now.pairs (2 ^ 64) }
    {
        self.arena.words_end();
    }

    /// The pair of the least key from a number on, with one more owner of its value.
    fn owned_from(&self, from: u64) -> Result<Option<(K, Arc<V, Global>)>, Count>
        ensures found { IfOk result (TellsLeast K.of_word arc_value self.now.pairs from) }
        ensures refused { OnErr result (HasFrom self.now.pairs from) }
    {
        match self.arena.pair_from(from) {
            Some((key, payload)) => Ok(Some((K::from_word(key), another_owner(payload)?))),
            None => Ok(None),
        }
    }

    /// The pair of the greatest key up to a number, itself included, so.
    fn owned_to(&self, last: u64) -> Result<Option<(K, Arc<V, Global>)>, Count>
        ensures found { IfOk result (TellsGreatest K.of_word arc_value self.now.pairs (last + 1)) }
        ensures refused { OnErr result (HasBelow self.now.pairs (last + 1)) }
    {
        match self.arena.pair_to(last) {
            Some((key, payload)) => Ok(Some((K::from_word(key), another_owner(payload)?))),
            None => Ok(None),
        }
    }

    /// The pair of the least key, with one more owner of its value. It is refused where that value can't have one more.
    pub fn first(&self) -> Result<Option<(K, Arc<V, Global>)>, Count>
        ensures found { IfOk result (TellsLeast K.of_word arc_value self.now.pairs 0) }
        ensures refused { OnErr result (HasFrom self.now.pairs 0) }
    {
        self.owned_from(0)
    }

    /// The pair of the greatest key, so.
    pub fn last(&self) -> Result<Option<(K, Arc<V, Global>)>, Count>
        ensures found { IfOk result (TellsGreatest K.of_word arc_value self.now.pairs (2 ^ 64)) }
        ensures refused { OnErr result (HasBelow self.now.pairs (2 ^ 64)) }
    {
        self.owned_to(u64::MAX)
    }

    /// The pair of the least key that isn't less than this one, so: its own, where it is present.
    pub fn at_or_after(&self, key: K) -> Result<Option<(K, Arc<V, Global>)>, Count>
        ensures found { IfOk result (TellsLeast K.of_word arc_value self.now.pairs (K.word key)) }
        ensures refused { OnErr result (HasFrom self.now.pairs (K.word key)) }
    {
        self.owned_from(key.to_word())
    }

    /// The pair of the greatest key that isn't greater than this one, so: its own, where it is present.
    pub fn at_or_before(&self, key: K) -> Result<Option<(K, Arc<V, Global>)>, Count>
        ensures found { IfOk result (TellsGreatest K.of_word arc_value self.now.pairs (K.word key + 1)) }
        ensures refused { OnErr result (HasBelow self.now.pairs (K.word key + 1)) }
    {
        self.owned_to(key.to_word())
    }

    /// The pair of the least key that is greater than this one, present or not, so.
    pub fn next_after(&self, key: K) -> Result<Option<(K, Arc<V, Global>)>, Count>
        ensures found { IfOk result (TellsLeast K.of_word arc_value self.now.pairs (K.word key + 1)) }
        ensures refused { OnErr result (HasFrom self.now.pairs (K.word key + 1)) }
    {
        let word = key.to_word();
        if word == u64::MAX {
            self.arena.words_end();
            return Ok(None);
        }
        self.owned_from(word + 1)
    }

    /// The pair of the greatest key that is less than this one, present or not, so.
    pub fn next_before(&self, key: K) -> Result<Option<(K, Arc<V, Global>)>, Count>
        ensures found { IfOk result (TellsGreatest K.of_word arc_value self.now.pairs (K.word key)) }
        ensures refused { OnErr result (HasBelow self.now.pairs (K.word key)) }
    {
        let word = key.to_word();
        if word == 0 {
            return Ok(None);
        }
        self.owned_to(word - 1)
    }

    /// Takes the value of a number out, as `remove` does.
    fn remove_number(&mut self, key: u64) -> Option<Arc<V, Global>>
        ensures value { option_map arc_value result ≡ map.get self.old.pairs key }
        ensures removes { OwnerModifies self.old self.new (map.get self.old.goes key) (call.Remove key) (reply.Remove (option_map arc_value result)) }
    {
        let bytes = bytes_of_key(&key);
        owner_of(self.arena.remove(self.alloc, &bytes))
    }

    /// Takes the pair of the least key out, as `remove` does.
    pub fn pop_first(&mut self) -> Option<(K, Arc<V, Global>)>
        ensures popped { IfSome result (λ r. (k : ℕ) × (r.0 ≡ K.of_word k) × IsLeastPair self.old.pairs 0 k (arc_value r.1)
            × OwnerModifies self.old self.new (map.get self.old.goes k) (call.Remove k) (reply.Remove (Some (arc_value r.1)))) }
        ensures empty { IfNone result (NoneFrom self.old.pairs 0 × (self.new ≡ self.old)) }
    {
        let Some((key, _)) = self.arena.pair_from(0) else {
            return None;
        };
        match self.remove_number(key) {
            Some(value) => Some((K::from_word(key), value)),
            None => None,
        }
    }

    /// Takes the pair of the greatest key out, as `remove` does.
    pub fn pop_last(&mut self) -> Option<(K, Arc<V, Global>)>
        ensures popped { IfSome result (λ r. (k : ℕ) × (r.0 ≡ K.of_word k) × IsGreatestPair self.old.pairs (2 ^ 64) k (arc_value r.1)
            × OwnerModifies self.old self.new (map.get self.old.goes k) (call.Remove k) (reply.Remove (Some (arc_value r.1)))) }
        ensures empty { IfNone result (NoneBelow self.old.pairs (2 ^ 64) × (self.new ≡ self.old)) }
    {
        let Some((key, _)) = self.arena.pair_to(u64::MAX) else {
            return None;
        };
        match self.remove_number(key) {
            Some(value) => Some((K::from_word(key), value)),
            None => None,
        }
    }

    /// One more owner of the value of a number.
    fn owner_number(&self, key: u64) -> Result<Option<Arc<V, Global>>, Count>
        ensures value { IfOk result (λ r. option_map arc_value r ≡ map.get self.now.pairs key) }
        ensures refused { OnErr result (IsSome (map.get self.now.pairs key)) }
    {
        let bytes = bytes_of_key(&key);
        match self.arena.get(&bytes) {
            Some(payload) => Ok(Some(another_owner(payload)?)),
            None => Ok(None),
        }
    }

    /// Puts the answer of `f` at a key, present or not, and gives the value before. It asks `f` once, about one more owner of the
    /// value that is there. A refused call changes nothing.
    pub fn compute_or_insert<F: FnOnce(Option<Arc<V, Global>>) -> Arc<V, Global>>(
        &mut self,
        key: K,
        f: F,
    ) -> Result<Option<Arc<V, Global>>, Uncomputed<V>>
        requires { F.IsAlwaysCallable f }
        ensures inserts { IfOk result (λ before. (given : _) × (value : _)
            × (option_map arc_value given ≡ option_map arc_value before) × F.post f given value
            × OwnerInserts self.old self.new (K.word key)
            (call.ComputeInsert (K.word key) (arc_value value)) (reply.ComputeInsert (option_map arc_value before))) }
        ensures refused { IfErr result (IsUncomputed self.old self.new (K.word key) (F.post f)) }
    {
        let word = key.to_word();
        let Ok(given) = self.owner_number(word) else {
            return Err(Uncomputed::Count);
        };
        let value = f(given);
        let bytes = bytes_of_key(&word);
        match self
            .arena
            .insert(self.alloc, &bytes, ArcPayload::new(value))
        {
            Ok(before) => Ok(owner_of(before)),
            Err((e, payload)) => Err(Uncomputed::Refused(e, payload.into_arc())),
        }
    }
}
