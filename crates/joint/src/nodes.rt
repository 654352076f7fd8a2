//! The nodes of a shared tree in the cells of a collector.
//!
//! A cell holds a `slot`: a node beside its lock word. `cells` takes one out and puts it back; `Nodes` changes it in between,
//! and serves the protocol's calls as their `store`, which `reading` reads for. `collector` has the collector's own calls on
//! the nodes, `counts` what was handed over and of what size. `opening` makes the root; `survey`, `stats` and `close` go
//! through the whole tree, `nearest` one way down it. `account` is what came in with the allocator.

pub(crate) mod account;
pub(crate) mod cells;
pub(crate) mod close;
pub(crate) mod collector;
pub(crate) mod counts;
pub(crate) mod nearest;
pub(crate) mod opening;
pub(crate) mod reading;
pub(crate) mod slot;
pub(crate) mod stats;
pub(crate) mod store;
pub(crate) mod survey;

ghost use Rattle.std.specs.Prelude.{◌≡◌, ◌+◌, ◌-◌, ◌*◌, ◌^◌, ◌<◌, ◌≤◌, ℕ, true, length};
ghost use Rattle.std.specs.List.{sum_by};
ghost use Rattle.congee.specs.protocol.Events.{hung, SameBut, MayChange, ChangeGives};
ghost use Rattle.congee.specs.Heap.{Holds, Nothing, Stands};
ghost use Rattle.joint.specs.declared.limits.TheConstants.{CELLS_MAX};
ghost use Rattle.joint.specs.nodes.Nodes.{IsCharged, total, nodes, frame};
ghost use Rattle.joint.specs.nodes.Listing.{bytes_of, handed_nodes, standing_nodes};
ghost use Rattle.joint.specs.nodes.Solid.{IsWhole};
ghost use Rattle.joint.specs.nodes.View.{id_number, node_of, worded};

use crate::id::Id;
use crate::nodes::account::Account;
use crate::nodes::counts::Counts;
use crate::nodes::slot::{LockWord, Slot};
use congee::{Allocator, Child, Payload, Small};
use crossbeam_epoch::World;
use std::alloc::Global;
use std::marker::Model;

/// The nodes in their cells, charged to an allocator.
#[derive(Drop)]
pub struct Nodes<P: Payload + Small, A: Allocator> {
    pub(crate) collector: World<Slot<P>, ()>,
    pub(crate) counts: Counts,
    pub(crate) allocator: A,
    /// What the allocator had charged before the first node, in bytes.
    pub(crate) base: u64,
    pub(crate) version_max: u64,
    pub(crate) alloc: Global,
}

impl<P: Payload + Small, A: Allocator> Model for Nodes<P, A> {
    ghost use Rattle.std.specs.Coded.{codes};
    ghost use Rattle.joint.specs.nodes.MapCode.{map_code};
    ghost use Rattle.joint.specs.nodes.Nodes.{Nodes as State, IsKept};

    ghost Value = { State P };

    ghost coded = { Prim.hlevel (codes, map_code) };

    ghost view = { λ n. record {
      collector = n.collector;
      charge = A.charged_of n.allocator;
      base = n.base;
      limit = A.limit_of n.allocator;
      version_max = n.version_max;
    } };

    ghost invariant = { λ n. IsKept n.counts (record {
      collector = n.collector;
      charge = A.charged_of n.allocator;
      base = n.base;
      limit = A.limit_of n.allocator;
      version_max = n.version_max;
    }) };
}

impl<P: Payload + Small, A: Allocator> Nodes<P, A> {
    /// The bytes charged to the allocator.
    pub fn charged(&self) -> u64
        ensures value { result ≡ self.now.charge }
        ensures sum { IsCharged self.now }
        ensures few { (n : ℕ) → (nodes self.now n).made ≡ true → n < 2 ^ 64 - 1 }
    {
        self.allocator.charged()
    }

    /// The charge is that of the nodes that stand, above what was charged before the first one.
    pub(crate) fn weighed(&self)
        ensures { self.now.charge ≡ self.now.base + sum_by (bytes_of self.now) (standing_nodes self.now) }
    {
        let _ = &self.counts;
    }

    /// The nodes that were handed over and aren't destroyed yet.
    pub(crate) fn handed(&self) -> u64
        ensures value { result ≡ length (handed_nodes self.now) }
        ensures few { result ≤ CELLS_MAX }
    {
        self.counts.waiting
    }

    /// Their sizes, in bytes.
    pub(crate) fn handed_bytes(&self) -> u64
        ensures value { result ≡ sum_by (bytes_of self.now) (handed_nodes self.now) }
        ensures few { result ≤ 2104 * CELLS_MAX }
    {
        self.counts.waiting_bytes
    }

    /// What came in with the allocator.
    pub(crate) fn account(&self) -> Account
        ensures { result ≡ record { charged = self.now.base; limit = self.now.limit } }
    {
        Account {
            charged: self.base,
            limit: self.allocator.limit(),
        }
    }

    /// What is charged for a node that stands, in bytes.
    pub(crate) fn size_of(&self, at: Id) -> u64
        requires { Stands (nodes self.now (id_number at)) }
        ensures value { result ≡ bytes_of self.now (id_number at) }
        ensures few { result ≤ 2104 }
    {
        self.counts.size(at.name.cell)
    }

    /// The nodes that stand.
    pub fn standing(&self) -> u64
        ensures value { result ≡ total (λ slot. 1) self.now.collector.store }
        ensures sum { IsCharged self.now }
    {
        self.counts.standing
    }

    /// The slot of a node that stands.
    pub(crate) fn slot(&self, at: Id) -> &Slot<P>
        requires { Stands (nodes self.now (id_number at)) }
        ensures node { nodes self.now (id_number at) ≡ node_of result.now }
        ensures whole { IsWhole result.now.node }
    {
        match self.collector.read(at.name) {
            Some(slot) => slot,
            None => unreachable!(),
        }
    }

    /// Gives a node another lock word, with the mark that it has.
    pub(crate) fn set_word(&mut self, at: Id, word: LockWord)
        requires stands { Stands (nodes self.old (id_number at)) }
        requires mark { word.retired ≡ (nodes self.old (id_number at)).retired }
        ensures frame { frame self.new ≡ frame self.old }
        ensures charge { self.new.charge ≡ self.old.charge }
        ensures node { SameBut (nodes self.old) (id_number at) (worded word (nodes self.old (id_number at))) (nodes self.new) }
    {
        World::<Slot<P>, ()>::cells();
        let mut slot = cells::take_out(&mut self.collector, at.name);
        slot.word = word;
        cells::put_back(&mut self.collector, at.name, slot);
    }

    /// Hangs the child at the byte of a node, in place of what hangs there, or takes out what hangs there.
    pub(crate) fn hang(&mut self, at: Id, byte: u8, child: Child<Id, P>)
        requires stands { Stands (nodes self.old (id_number at)) }
        requires room { MayChange (nodes self.old (id_number at)) byte (hung id_number child) }
        ensures frame { frame self.new ≡ frame self.old }
        ensures charge { self.new.charge ≡ self.old.charge }
        ensures node { ChangeGives (nodes self.old) (id_number at) byte (hung id_number child) (nodes self.new) }
    {
        World::<Slot<P>, ()>::cells();
        let mut slot = cells::take_out(&mut self.collector, at.name);
        slot.hang(byte, child);
        cells::put_back(&mut self.collector, at.name, slot);
    }

    /// Takes the value at the byte out of a node.
    pub(crate) fn pull(&mut self, at: Id, byte: u8) -> P
        requires stands { Stands (nodes self.old (id_number at)) }
        requires holds { (v : P) × ((nodes self.old (id_number at)).children byte ≡ Holds v) }
        ensures value { (nodes self.old (id_number at)).children byte ≡ Holds result }
        ensures frame { frame self.new ≡ frame self.old }
        ensures node { ChangeGives (nodes self.old) (id_number at) byte Nothing (nodes self.new) }
    {
        World::<Slot<P>, ()>::cells();
        let mut slot = cells::take_out(&mut self.collector, at.name);
        let value = slot.pull(byte);
        cells::put_back(&mut self.collector, at.name, slot);
        value
    }
}
