//! The end of an owned tree, or of what is in it: its pairs are handed on or go, and its nodes come off the budget.
ghost use Rattle.std.specs.Prelude.{◌≡◌, ◌+◌, ◌≤◌, ℕ, false, List, None};
ghost use Rattle.std.specs.FinMap as map;
ghost use Rattle.congee.specs.forms.Forms.{size_of};
ghost use Rattle.congee.specs.declared.forms.base_node.NodeType.TheVariants.{N256};
ghost use Rattle.congee.specs.owned.Arena.{IsTree, heap_of};
ghost use Rattle.congee.specs.owned.Drained.{Drained};
ghost use Rattle.congee.specs.Heap.{value_at};
ghost use Rattle.congee.specs.owned.Counted.{IsCounted};
ghost use Rattle.congee.specs.owned.Full.{NodesFilled, lacking_of};
ghost use Rattle.congee.specs.owned.Keyed.{IsKeyed};
ghost use Rattle.congee.specs.owned.Levels.{nodes_of};
ghost use Rattle.congee.specs.owned.Charge.{Balances, Covers, KeepsLimit};
ghost use Rattle.congee.specs.owned.Sizes.{bytes_of};
ghost use Rattle.congee.specs.owned.Stats.{root_alone};
ghost use Rattle.congee.specs.owned.Table.{pairs_of};
ghost use Rattle.congee.specs.owned.Wanted.{WantsLeaf, wants_of};

use crate::allocator::Allocator;
use crate::forms::base_node::NodeType;
use crate::owned::arena::{Arena, Stored};
use crate::owned::drainer::Drainer;
use crate::owned::nodes::Nodes;
use judge::Word64;

/// The sum of the nodes' sizes, in bytes.
fn bytes_charged<P: Stored, A: Allocator>(nodes: &Nodes<P>, allocator: &A) -> u64
    requires { bytes_of nodes.now ≤ A.charged_of allocator.now }
    ensures { result ≡ bytes_of nodes.now }
{
    // The sum is no more than the charge, so it fits.
    let _charged = allocator.charged();
    nodes.bytes()
}

impl<P: Stored, A: Allocator> Arena<P, A> {
    /// Takes every pair out, and every node but the root, whose bytes alone stay charged.
    pub(crate) fn clear(&mut self)
        requires tree { IsTree self.old.nodes }
        requires covered { Covers A.charged_of self.old }
        ensures tree { IsTree self.new.nodes }
        ensures empty { (key : List ℕ) → value_at (heap_of self.new.nodes) key ≡ None }
        ensures nodes { nodes_of self.new.nodes ≡ root_alone }
        ensures wants { WantsLeaf (wants_of self.new.nodes) }
        ensures bytes { bytes_of self.new.nodes ≡ size_of N256 }
        ensures filled { lacking_of self.new.nodes ≡ 0 }
        ensures branch { NodesFilled false self.new.nodes }
        ensures keyed { IsKeyed self.new.nodes }
        ensures counted { IsCounted self.new }
        ensures balance { Balances A.charged_of self.old self.new }
        ensures limit { KeepsLimit A.limit_of self.old self.new }
    {
        let others = bytes_charged(&self.nodes, &self.allocator) - NodeType::N256.size();
        self.allocator.deallocate(others);
        self.nodes.clear();
        self.pairs = 0;
    }

    /// Drops the nodes, and gives the allocator back with their bytes taken off.
    pub(crate) fn release(self) -> A
        requires covered { bytes_of self.nodes ≤ A.charged_of self.allocator }
        ensures charge { A.charged_of result + bytes_of self.nodes ≡ A.charged_of self.allocator }
        ensures limit { A.limit_of result ≡ A.limit_of self.allocator }
    {
        let Arena {
            nodes,
            mut allocator,
            ..
        } = self;
        let bytes = bytes_charged(&nodes, &allocator);
        allocator.deallocate(bytes);
        allocator
    }
}

impl<A: Allocator> Arena<u64, A> {
    /// Hands each pair to the drainer, ascending.
    pub(crate) fn drain<K: Word64, V: Word64, D: Drainer<K, V>>(&self, drainer: D) -> D
        requires tree { IsTree self.now.nodes }
        requires ready { D.can_drain drainer }
        ensures { Drained D.drains K.of_word V.of_word drainer (map.entries (pairs_of self.now.nodes)) result }
    {
        let mut drainer = drainer;
        let mut walk = self.beginning();
        while let Some((key, value)) = self.next_along(&mut walk) {
            drainer.drain(K::from_word(key), V::from_word(*value));
        }
        drainer
    }
}
