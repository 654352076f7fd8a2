//! The nodes of an arena, counted by level and form.
ghost use Rattle.std.specs.Prelude.{◌≡◌, ◌≤◌, ◌++◌, ◌↔◌, List, length, vec_len, false, IsTrue, IfOk, OnOk};
ghost use Rattle.std.specs.FinMap as map;
ghost use Rattle.std.specs.List.{All};
ghost use Rattle.slab.specs.Slab.{get, ContainsKey};
ghost use Rattle.congee.specs.owned.Arena.{IsTree, heap_of};
ghost use Rattle.congee.specs.owned.Bound.{most_bytes};
ghost use Rattle.congee.specs.owned.Keyed.{IsKeyed};
ghost use Rattle.congee.specs.owned.Counted.{IsCounted};
ghost use Rattle.congee.specs.owned.Full.{AllBranch, AllFilled, NodesFilled, lacking_of};
ghost use Rattle.congee.specs.owned.Levels.{nodes_from, nodes_of};
ghost use Rattle.congee.specs.owned.Stats.{HasValue, IsTally, Shape, capped};
ghost use Rattle.congee.specs.owned.Sizes.{bytes_of};
ghost use Rattle.congee.specs.owned.Table.{pairs_of};
ghost use Rattle.congee.specs.owned.Weights.{HasBytesFrom, sizes_of};

use crate::allocator::Allocator;
use crate::keys::KEY_BYTES;
use crate::owned::arena::{Arena, Stored};
use crate::owned::names::Name;
use crate::owned::sight::Next;
use crate::owned::stats::NodeStats;
use std::alloc::{AllocError, Global};

/// A number of 64 bits; one past `u64::MAX` stays there.
fn in_64_bits(number: u128) -> u64
    ensures { result ≡ capped number }
{
    number.min(u64::MAX as u128) as u64
}

impl<P: Stored, A: Allocator> Arena<P, A> {
    /// Counts a node on a level, and the nodes below it: a leaf has none, and its values are told by their number.
    fn count_from(&self, at: Name, level: usize, stats: &mut NodeStats) -> Result<(), AllocError>
        requires tree { IsTree self.now.nodes }
        requires stands { ContainsKey self.now.nodes at }
        requires level { level ≤ length (heap_of self.now.nodes at).prefix }
        requires next { level ≤ vec_len stats.old.levels }
        ensures counted { OnOk result ((seen : List Shape) → IsTally stats.old seen 0
            → IsTally stats.new (seen ++ nodes_from (get self.now.nodes) KEY_BYTES level at) 0) }
        ensures levels { OnOk result (vec_len stats.old.levels ≤ vec_len stats.new.levels) }
        ensures bytes { OnOk result (HasBytesFrom (get self.now.nodes) KEY_BYTES at) }
    {
        stats.count(level, self.nodes.node_type(at), self.nodes.len(at) as u64)?;
        if self.nodes.is_leaf(at) {
            return Ok(());
        }
        let sight = self.nodes.sight(at);
        let mut from = 0;
        while let Some((byte, child)) = sight.first_from(from) {
            match child {
                Next::Node(below) | Next::Leaf(below, _, _) => {
                    self.count_from(below, level + 1, stats)?;
                }
                _ => {}
            }
            from = byte as usize + 1;
        }
        Ok(())
    }

    /// Each leaf has a value.
    #[tactic(auto, using(crate::proofs::lemmas::owned::Filled::leaves_filled))]
    pub(crate) fn leaves_hold(&self)
        requires { IsTree self.now.nodes }
        ensures { All HasValue (nodes_of self.now.nodes) }
    {}

    /// Each node but the root has a child, and two where it holds nodes.
    pub(crate) fn nodes_branch(&self)
        requires tree { IsTree self.now.nodes }
        requires branch { NodesFilled false self.now.nodes }
        ensures { AllBranch (nodes_of self.now.nodes) }
    {}

    /// Where no node but the root lacks a child, each has as many as it should.
    pub(crate) fn nodes_filled(&self)
        requires { IsTree self.now.nodes }
        ensures { lacking_of self.now.nodes ≡ 0 → AllFilled (nodes_of self.now.nodes) }
    {}

    /// The sizes of the nodes are what stands in the slab, and bounded by the pairs and by what the nodes lack.
    pub(crate) fn bytes_by_pairs(&self)
        requires tree { IsTree self.now.nodes }
        requires branch { NodesFilled false self.now.nodes }
        requires keyed { IsKeyed self.now.nodes }
        ensures sizes { sizes_of (nodes_of self.now.nodes) ≡ bytes_of self.now.nodes }
        ensures bound { bytes_of self.now.nodes ≤ most_bytes (map.len (pairs_of self.now.nodes)) (lacking_of self.now.nodes) }
    {}

    /// The number of pairs; one past `u64::MAX` stays there.
    pub(crate) fn count_pairs(&self) -> u64
        requires { IsCounted self.now }
        ensures { result ≡ capped (map.len (pairs_of self.now.nodes)) }
    {
        in_64_bits(self.pairs)
    }

    /// Whether there are no pairs.
    pub(crate) fn is_empty(&self) -> bool
        requires { IsCounted self.now }
        ensures { IsTrue result ↔ (map.len (pairs_of self.now.nodes) ≡ 0) }
    {
        self.pairs == 0
    }

    /// How the nodes are spread, and how many pairs they hold.
    pub(crate) fn stats(&self, alloc: Global) -> Result<NodeStats, AllocError>
        requires tree { IsTree self.now.nodes }
        requires counted { IsCounted self.now }
        ensures counted { IfOk result (λ stats. IsTally stats (nodes_of self.now.nodes) (map.len (pairs_of self.now.nodes))) }
        ensures charged { OnOk result (sizes_of (nodes_of self.now.nodes) ≡ bytes_of self.now.nodes) }
    {
        let mut stats = NodeStats::new(alloc);
        self.count_from(Name::root(), 0, &mut stats)?;
        stats.kv_pairs = self.count_pairs();
        Ok(stats)
    }
}
