//! The owned tree of shared values.
ghost use Rattle.std.specs.Prelude.{◌≡◌, ◌≤◌, ◌↔◌, ◌-◌, None, Some, IsSome, IsTrue};
ghost use Rattle.std.specs.Prelude.{IfOk, IfErr, IfSome, IfNone, OnErr};
ghost use Rattle.std.specs.Option.{option_map};
ghost use Rattle.std.specs.Arc.{arc_value};
ghost use Rattle.std.specs.List.{All};
ghost use Rattle.std.specs.FinMap as map;
ghost use Rattle.congee.specs.forms.Forms.{size_of};
ghost use Rattle.congee.specs.declared.forms.base_node.NodeType.TheVariants.{N256};
ghost use Rattle.congee.specs.owned.Bound.{most_bytes};
ghost use Rattle.congee.specs.owned.Owners.{OwnerAnswers, OwnerInserts, OwnerRefuses, OwnerModifies};
ghost use Rattle.congee.specs.owned.Full.{AllBranch, AllFilled};
ghost use Rattle.congee.specs.owned.Going.{going_by};
ghost use Rattle.congee.specs.owned.Runs.{OwnersStayFilled};
ghost use Rattle.congee.specs.owned.Stats.{HasValue, capped, root_alone};
ghost use Rattle.congee.specs.owned.Wanted.{WantsLeaf};
ghost use Rattle.congee.specs.owned.Ranges.{keys_by};
ghost use Rattle.congee.specs.owned.Weights.{sizes_of};
ghost use Rattle.judge.specs.declared.journal.Call.TheVariants as call;
ghost use Rattle.judge.specs.declared.journal.Reply.TheVariants as reply;

use crate::allocator::{DefaultAllocator, OOMError};
use crate::forms::child::Small;
use crate::keys::bytes_of_key;
use crate::owned::arena::{Arena, Stored};
use judge::{ArcPayload, Payload, Word64};
use std::alloc::{AllocError, Global};
use std::marker::{Model, PhantomData};
use std::sync::Arc;
use thiserror::Error;

/// No more owners of a value can be counted.
#[derive(Clone, Copy, PartialEq, Eq, Debug, Drop, Error)]
#[error("No more owners of the value can be counted!")]
pub struct Count;

impl<V: Drop> Small for ArcPayload<V> {
    ghost use Rattle.std.proofs.Common.{rules};

    ghost small = { Prim.search rules };
}

impl<V: Drop> Small for Option<ArcPayload<V>> {
    ghost use Rattle.std.proofs.Common.{rules};

    ghost small = { Prim.search rules };
}

impl<V: Drop> Stored for ArcPayload<V> {
    ghost use Rattle.std.proofs.Common.{rules};

    type Kept = Option<ArcPayload<V>>;

    ghost value_in = { λ kept. kept };

    #[inline(always)]
    fn keep(self) -> Option<ArcPayload<V>> {
        Some(self)
    }

    #[inline(always)]
    fn give(kept: Option<ArcPayload<V>>) -> ArcPayload<V> {
        match kept {
            Some(payload) => payload,
            None => unreachable!(),
        }
    }

    #[inline(always)]
    fn look(kept: &Option<ArcPayload<V>>) -> Option<&ArcPayload<V>> {
        kept.as_ref()
    }

    ghost leaf_fits = { Prim.search rules };

    ghost fits = { Prim.search rules };
}

/// An ordered map from words to shared values for one thread: an adaptive radix tree over the keys' eight bytes.
#[derive(Drop)]
pub struct CongeeArc<K, V: Drop> {
    pub(super) arena: Arena<ArcPayload<V>, DefaultAllocator>,
    pub(super) alloc: Global,
    words: PhantomData<K>,
}

impl<K, V: Drop> Model for CongeeArc<K, V> {
    ghost use Rattle.std.specs.Prelude.{◌≡◌, false};
    ghost use Rattle.congee.specs.owned.Owners.{Owners, owners_code};

    ghost Value = { Owners V };

    ghost coded = { owners_code V.code };

    ghost use Rattle.congee.specs.owned.Arena.{IsTree};
    ghost use Rattle.congee.specs.owned.Counted.{IsCounted};
    ghost use Rattle.congee.specs.owned.Full.{NodesFilled, lacking_of};
    ghost use Rattle.congee.specs.owned.Keyed.{IsKeyed};
    ghost use Rattle.congee.specs.owned.Levels.{nodes_of};
    ghost use Rattle.congee.specs.owned.Sizes.{bytes_of};
    ghost use Rattle.congee.specs.owned.Table.{pairs_of};
    ghost use Rattle.congee.specs.owned.Going.{goes_of};
    ghost use Rattle.congee.specs.owned.Wanted.{wants_of};

    ghost view = { λ t. record { pairs = pairs_of t.arena.nodes; nodes = nodes_of t.arena.nodes; bytes = bytes_of t.arena.nodes; lacking = lacking_of t.arena.nodes; wants = wants_of t.arena.nodes; goes = goes_of t.arena.nodes } };

    ghost invariant = { λ t. IsTree t.arena.nodes × (bytes_of t.arena.nodes ≡ t.arena.allocator.charged) × NodesFilled false t.arena.nodes × IsKeyed t.arena.nodes × IsCounted t.arena };
}

/// The owner in a payload, if there is one.
pub fn owner_of<V>(payload: Option<ArcPayload<V>>) -> Option<Arc<V, Global>>
    ensures { option_map arc_value result ≡ payload }
{
    payload.map(ArcPayload::into_arc)
}

/// An owner as a payload, if there is one.
pub fn payload_of<V>(owner: Option<Arc<V, Global>>) -> Option<ArcPayload<V>>
    ensures { result ≡ option_map arc_value owner }
{
    owner.map(ArcPayload::new)
}

/// One more owner of the value.
pub(super) fn another_owner<V: Drop>(payload: &ArcPayload<V>) -> Result<Arc<V, Global>, Count>
    ensures { IfOk result (λ owner. arc_value owner ≡ payload.now) }
{
    match payload.copy() {
        Some(copied) => Ok(copied.into_arc()),
        None => Err(Count),
    }
}

impl<K: Word64, V: Drop> CongeeArc<K, V> {
    /// An empty tree. It is refused for want of memory alone.
    pub fn new(alloc: Global) -> Result<Self, OOMError>
        ensures empty { IfOk result (λ t. t.pairs ≡ map.empty) }
        ensures root { IfOk result (λ t. t.bytes ≡ size_of N256) }
        ensures nodes { IfOk result (λ t. t.nodes ≡ root_alone) }
        ensures filled { IfOk result (λ t. t.lacking ≡ 0) }
        ensures wants { IfOk result (λ t. WantsLeaf t.wants) }
        ensures refused { IfErr result (λ e. e ≡ OOMError.Memory) }
    {
        let arena = Arena::new(alloc, DefaultAllocator::new())?;
        Ok(CongeeArc {
            arena,
            alloc,
            words: PhantomData,
        })
    }

    /// Whether no key has a value.
    pub fn is_empty(&self) -> bool
        ensures { IsTrue result ↔ (self.now.pairs ≡ map.empty) }
    {
        self.arena.is_empty()
    }

    /// How many keys have a value; a number past `u64::MAX` stays there.
    pub fn len(&self) -> u64
        ensures { result ≡ capped (map.len self.now.pairs) }
    {
        self.arena.count_pairs()
    }

    /// All keys, ascending. It is refused for want of memory alone.
    pub fn keys(&self) -> Result<Vec<K, Global>, AllocError>
        ensures { IfOk result (λ keys. keys.items ≡ keys_by K.of_word (map.entries self.now.pairs)) }
    {
        self.arena.keys(self.alloc)
    }

    /// One more owner of the value at a key. It is refused where a value is there that can't have one more.
    pub fn get(&self, key: K) -> Result<Option<Arc<V, Global>>, Count>
        ensures value { IfOk result (λ r. option_map arc_value r ≡ map.get self.now.pairs (K.word key)) }
        ensures refused { OnErr result (IsSome (map.get self.now.pairs (K.word key))) }
    {
        let bytes = bytes_of_key(&key);
        match self.arena.get(&bytes) {
            Some(payload) => Ok(Some(another_owner(payload)?)),
            None => Ok(None),
        }
    }

    /// Puts a value at a key, and gives the one before. A refused call changes nothing, and the value comes back.
    pub fn insert(
        &mut self,
        key: K,
        value: Arc<V, Global>,
    ) -> Result<Option<Arc<V, Global>>, (OOMError, Arc<V, Global>)>
        ensures inserts { IfOk result (λ r. OwnerInserts self.old self.new (K.word key)
            (call.Insert (K.word key) (arc_value value)) (reply.Insert (option_map arc_value r))) }
        ensures back { IfErr result (λ e. arc_value e.1 ≡ arc_value value) }
        ensures refused { IfErr result (λ e. OwnerRefuses self.old self.new (K.word key) e.0) }
    {
        let bytes = bytes_of_key(&key);
        match self
            .arena
            .insert(self.alloc, &bytes, ArcPayload::new(value))
        {
            Ok(before) => Ok(owner_of(before)),
            Err((e, payload)) => Err((e, payload.into_arc())),
        }
    }

    /// Takes a key's value out. A node that it leaves small gives place to a lesser one. Where budget or memory has no room for that
    /// one, it is skipped, and the node stays.
    pub fn remove(&mut self, key: K) -> Option<Arc<V, Global>>
        ensures { OwnerModifies self.old self.new (map.get self.old.goes (K.word key))
            (call.Remove (K.word key)) (reply.Remove (option_map arc_value result)) }
    {
        let bytes = bytes_of_key(&key);
        owner_of(self.arena.remove(self.alloc, &bytes))
    }

    /// Puts the answer of `f` at a key that is present, or takes the key out where the answer is `None`.
    /// Gives the value before. It asks `f` once where the key is present. It is refused where a value is there that can't have one
    /// more owner, and changes nothing then.
    pub fn compute_if_present<F: FnOnce(Arc<V, Global>) -> Option<Arc<V, Global>>>(
        &mut self,
        key: K,
        f: F,
    ) -> Result<Option<Arc<V, Global>>, Count>
        requires { F.IsAlwaysCallable f }
        ensures present { IfOk result (λ r. IfSome r (λ old. (given : _) × (new : _)
            × (arc_value given ≡ arc_value old) × F.post f given new
            × OwnerModifies self.old self.new (going_by new (map.get self.old.goes (K.word key)))
            (call.ComputePresent (K.word key) (option_map arc_value new))
            (reply.ComputePresent (Some (arc_value old, option_map arc_value new))))) }
        ensures absent { IfOk result (λ r. IfNone r (OwnerAnswers self.old self.new
            (call.ComputePresent (K.word key) None) (reply.ComputePresent None) × (self.new ≡ self.old))) }
        ensures refused { OnErr result (IsSome (map.get self.old.pairs (K.word key))) }
        ensures unchanged { OnErr result (self.new ≡ self.old) }
    {
        let bytes = bytes_of_key(&key);
        let given = match self.arena.get(&bytes) {
            Some(payload) => another_owner(payload)?,
            None => return Ok(None),
        };
        let new = payload_of(f(given));
        Ok(owner_of(self.arena.settle(self.alloc, &bytes, new)))
    }

    /// Each leaf of the tree has a value.
    pub fn leaves_hold(&self)
        ensures { All HasValue self.now.nodes }
    {
        self.arena.leaves_hold();
    }

    /// Each node but the root has a value, or two nodes below it at least, whatever was skipped.
    pub fn nodes_branch(&self)
        ensures { AllBranch self.now.nodes }
    {
        self.arena.nodes_branch();
    }

    /// Where no node but the root lacks a child, each has two nodes below it at least, or one value, and isn't too small for its
    /// form. It is so after any calls on a new tree of which none goes on without a lesser node that it wants.
    pub fn nodes_filled(&self)
        ensures filled { self.now.lacking ≡ 0 → AllFilled self.now.nodes }
        ensures run { OwnersStayFilled self.now }
    {
        self.arena.nodes_filled();
    }

    /// Beside the root's 2104 bytes the nodes take 128 at most for each pair, and 56 for each child that they lack. The sum of their sizes
    /// is the tree's bytes.
    pub fn bytes_by_pairs(&self)
        ensures sizes { sizes_of self.now.nodes ≡ self.now.bytes }
        ensures bound { self.now.bytes ≤ most_bytes (map.len self.now.pairs) self.now.lacking }
    {
        self.arena.bytes_by_pairs();
    }

    /// Drops each value that stands.
    pub fn close(self) {}
}
