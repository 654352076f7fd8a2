//! A store that is a plain list of nodes, none of which is ever taken away.
ghost use Rattle.std.specs.Prelude.{◌≡◌, ℕ, ◌+◌, ◌-◌, ◌^◌, ◌<◌, ◌≤◌, Bool, true, false, IfOk, map};
ghost use Rattle.congee.specs.protocol.Opening.{RootAlone, FreshRoot};
ghost use Rattle.congee.specs.protocol.Bounds.{Within};
ghost use Rattle.congee.specs.Heap.{Node, Stands, is_taken};
ghost use Rattle.congee.specs.protocol.Play.{Begins, begun};
ghost use Rattle.std.specs.Vec.{vec_len};
ghost use Rattle.congee.specs.protocol.Events.{hung, ReadGives, UpgradeGives, MayChange, ChangeGives};
ghost use Rattle.congee.specs.protocol.ScanEvents.{LeastGives};
ghost use Rattle.congee.specs.protocol.Seeing.{ReadSees, LeastSees};

use crate::forms::base_node::NodeType;
use crate::forms::child::Child;
use crate::keys::KEY_BYTES;
use crate::protocol::machine::Machine;
use crate::protocol::op::Op;
use crate::protocol::plain_node::PlainNode;
use crate::protocol::store::{
    Least, NodeName, Reading, Refusal, Region, Seen, Stamp, Store, Upgrade,
};
use std::alloc::{AllocError, Global};
use std::vec::Vec;

impl NodeName for usize {
    ghost number = { λ n. n };

    ghost tells = { λ c d e. e };
}

/// Nodes of words for one thread, each named by its place in the list. A node that is given back or retired stays
/// there, marked, so that everything a run did can be looked at afterwards.
#[derive(Drop)]
pub struct PlainStore {
    /// The nodes, each at the place of its name; the root comes first.
    pub nodes: Vec<PlainNode>,
    room: usize,
    alloc: Global,
}

impl PlainStore {
    ghost use Rattle.congee.specs.protocol.PlainHeap.{plain_heap};

    /// A store with a root alone, under the name 0, that nobody holds. So many nodes have room in it, the root not
    /// counted.
    #[tactic(auto, using(crate::proofs::lemmas::protocol::PlainHeaps::fresh_within))]
    pub fn new(alloc: Global, room: usize) -> Result<Self, AllocError>
        ensures fresh { IfOk result (λ s. FreshRoot (plain_heap s.nodes.items)) }
        ensures within { IfOk result (λ s. Within (2 ^ 64 - 1) (plain_heap s.nodes.items)) }
    {
        let root = PlainNode::new(alloc, NodeType::N256, &[0; KEY_BYTES], 0)?;
        let mut nodes = Vec::with_capacity(alloc, 1)?;
        nodes.push_reserved(root);
        Ok(PlainStore { nodes, room, alloc })
    }

    /// These calls on the tree below a root, before their first steps.
    pub fn calls(alloc: Global, ops: Vec<Op<u64>>) -> Result<Vec<Machine<usize, u64>>, AllocError>
        ensures count { IfOk result (λ calls. vec_len calls ≡ vec_len ops) }
        ensures each { IfOk result (λ calls. calls.items ≡ map (begun 0) ops.items) }
        ensures begins { IfOk result (λ calls. (h : ℕ → Node ℕ) → RootAlone h → Begins (λ n. n) h calls.items) }
    {
        let mut calls = Vec::with_capacity(alloc, ops.len())?;
        let mut rest = ops.into_iter();
        while let Some(op) = rest.next() {
            calls.push_reserved(Machine::new(0, op));
        }
        Ok(calls)
    }
}

impl Store<usize, u64> for PlainStore {
    ghost use Rattle.congee.specs.protocol.PlainHeap.{plain_heap, refuses_in};

    ghost heap = { λ s. plain_heap s.nodes.items };

    ghost version_max = { λ s. 2 ^ 64 - 1 };

    ghost Rest = { ℕ };

    ghost rest = { λ s. s.room };

    ghost refuses = { λ s form e. refuses_in s.nodes.items s.room e };

    fn version(&self, node: usize) -> Option<u64> {
        let node = &self.nodes[node];
        if node.locked || node.obsolete {
            None
        } else {
            Some(node.version)
        }
    }

    fn read(
        &self,
        at: Stamp<usize>,
        key: &[u8; KEY_BYTES],
        seen: Option<Seen<usize, u64>>,
    ) -> Reading<usize, u64>
        requires { Stands (plain_heap self.now.nodes.items at.node) }
        ensures gives { ReadGives (λ n. n) true (plain_heap self.now.nodes.items at.node) at.version key.now result }
        ensures sees { ReadSees (plain_heap self.now.nodes.items at.node) at.version seen result }
    {
        self.nodes[at.node].read(at.version, key, seen)
    }

    fn region(&self, node: usize) -> Region {
        Region::of(self.nodes[node].prefix.as_slice())
    }

    fn least(
        &self,
        at: Stamp<usize>,
        from: u16,
        last: u8,
        seen: Option<Seen<usize, u64>>,
    ) -> Least<usize, u64>
        requires { Stands (plain_heap self.now.nodes.items at.node) }
        ensures gives { LeastGives (λ n. n) true (plain_heap self.now.nodes.items at.node) at.version from last result }
        ensures sees { LeastSees (plain_heap self.now.nodes.items at.node) at.version seen result }
    {
        self.nodes[at.node].least(at.version, from, last, seen)
    }

    fn check(&self, at: Stamp<usize>) -> bool
        requires { Stands (plain_heap self.now.nodes.items at.node) }
        ensures { result ≡ is_taken (plain_heap self.now.nodes.items at.node) at.version }
    {
        self.nodes[at.node].is_at(at.version)
    }

    fn upgrade(&mut self, at: Stamp<usize>, fail: bool) -> Upgrade
        requires { Stands (plain_heap self.old.nodes.items at.node) }
        ensures rest { self.new.room ≡ self.old.room }
        ensures gives { UpgradeGives (2 ^ 64 - 1) (plain_heap self.old.nodes.items) at.node at.version fail result (plain_heap self.new.nodes.items) }
    {
        if at.version == u64::MAX {
            return Upgrade::Exhausted;
        }
        if fail {
            return Upgrade::Failed;
        }
        if !self.nodes[at.node].is_at(at.version) {
            return Upgrade::Failed;
        }
        self.nodes[at.node].locked = true;
        Upgrade::Locked
    }

    fn make(
        &mut self,
        form: NodeType,
        key: &[u8; KEY_BYTES],
        length: usize,
    ) -> Result<usize, Refusal> {
        let name = self.nodes.len();
        if name > self.room {
            return Err(Refusal::Cells);
        }
        if self.nodes.reserve(1).is_err() {
            return Err(Refusal::Memory);
        }
        match PlainNode::new(self.alloc, form, key, length) {
            Err(_) => Err(Refusal::Memory),
            Ok(node) => {
                self.nodes.push_reserved(node);
                Ok(name)
            }
        }
    }

    fn change(&mut self, node: usize, byte: u8, child: Child<usize, u64>)
        requires stands { Stands (plain_heap self.old.nodes.items node) }
        requires locked { (plain_heap self.old.nodes.items node).locked ≡ true }
        requires room { MayChange (plain_heap self.old.nodes.items node) byte (hung (λ n. n) child) }
        ensures rest { self.new.room ≡ self.old.room }
        ensures gives { ChangeGives (plain_heap self.old.nodes.items) node byte (hung (λ n. n) child) (plain_heap self.new.nodes.items) }
    {
        self.nodes[node].children[byte as usize] = child;
    }

    fn fill(&mut self, node: usize, byte: u8, child: Child<usize, u64>)
        requires stands { Stands (plain_heap self.old.nodes.items node) }
        requires room { MayChange (plain_heap self.old.nodes.items node) byte (hung (λ n. n) child) }
        ensures rest { self.new.room ≡ self.old.room }
        ensures gives { ChangeGives (plain_heap self.old.nodes.items) node byte (hung (λ n. n) child) (plain_heap self.new.nodes.items) }
    {
        self.nodes[node].children[byte as usize] = child;
    }

    fn other(&self, node: usize, byte: u8) -> usize {
        self.nodes[node].other(byte)
    }

    fn take_over(&mut self, old: usize, node: usize) {
        if old < node {
            let (front, back) = self.nodes.split_at_mut(node);
            front[old].move_to(&mut back[0]);
        } else if node < old {
            let (front, back) = self.nodes.split_at_mut(old);
            back[0].move_to(&mut front[node]);
        }
    }

    fn give_back(&mut self, node: usize) {
        let node = &mut self.nodes[node];
        node.destroyed = true;
        node.locked = false;
    }

    fn obsolete(&mut self, node: usize) {
        self.nodes[node].obsolete = true;
    }

    fn retire(&mut self, node: usize) {
        self.nodes[node].retired = true;
    }

    fn unlock(&mut self, node: usize) {
        let node = &mut self.nodes[node];
        node.version += 1;
        node.locked = false;
    }
}
