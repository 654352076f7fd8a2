//! The nodes as one call's steps reach them.

ghost use Rattle.std.specs.Prelude.{◌≡◌, true};
ghost use Rattle.congee.specs.Heap.{Stands, is_taken};
ghost use Rattle.congee.specs.protocol.Events.{hung, ReadGives, UpgradeGives, MayChange, ChangeGives};
ghost use Rattle.congee.specs.protocol.Seeing.{ReadSees, LeastSees};
ghost use Rattle.congee.specs.protocol.ScanEvents.{LeastGives};
ghost use Rattle.joint.specs.nodes.Nodes.{nodes, frame};
ghost use Rattle.joint.specs.nodes.View.{id_number};

use crate::id::Id;
use crate::nodes::slot::{LockWord, Slot};
use crate::nodes::{Nodes, cells, reading};
use congee::protocol::{Least, Reading, Region, Stamp, Upgrade};
use congee::{Allocator, Child, KEY_BYTES, NodeType, Payload, Refusal, Seen, Small, Store};
use crossbeam_epoch::World;

impl<P: Payload + Small, A: Allocator> Store<Id, P> for Nodes<P, A> {
    ghost use Rattle.joint.specs.nodes.Nodes.{Nodes as State, nodes, frame, Refuses};

    ghost heap = { nodes };

    ghost version_max = { λ s. s.version_max };

    ghost Rest = { State P };

    ghost rest = { frame };

    ghost refuses = { Refuses };

    fn version(&self, node: Id) -> Option<u64> {
        let word = self.slot(node).word;
        if word.locked || word.obsolete {
            None
        } else {
            Some(word.version)
        }
    }

    fn read(
        &self,
        at: Stamp<Id>,
        key: &[u8; KEY_BYTES],
        seen: Option<Seen<Id, P>>,
    ) -> Reading<Id, P>
        requires { Stands (nodes self.now (id_number at.node)) }
        ensures gives { ReadGives id_number P.always_copies (nodes self.now (id_number at.node)) at.version key.now result }
        ensures sees { ReadSees (nodes self.now (id_number at.node)) at.version seen result }
    {
        let slot = self.slot(at.node);
        reading::read(slot.node(), slot.word, at.version, key, seen)
    }

    fn region(&self, node: Id) -> Region {
        Region::of(self.slot(node).node().prefix())
    }

    fn least(&self, at: Stamp<Id>, from: u16, last: u8, seen: Option<Seen<Id, P>>) -> Least<Id, P>
        requires { Stands (nodes self.now (id_number at.node)) }
        ensures gives { LeastGives id_number P.always_copies (nodes self.now (id_number at.node)) at.version from last result }
        ensures sees { LeastSees (nodes self.now (id_number at.node)) at.version seen result }
    {
        let slot = self.slot(at.node);
        reading::least(slot.node(), slot.word, at.version, from, last, seen)
    }

    fn check(&self, at: Stamp<Id>) -> bool
        requires { Stands (nodes self.now (id_number at.node)) }
        ensures { result ≡ is_taken (nodes self.now (id_number at.node)) at.version }
    {
        self.slot(at.node).word.is_at(at.version)
    }

    fn upgrade(&mut self, at: Stamp<Id>, fail: bool) -> Upgrade
        requires { Stands (nodes self.old (id_number at.node)) }
        ensures limit { self.new.version_max ≡ self.old.version_max }
        ensures rest { frame self.new ≡ frame self.old }
        ensures gives { UpgradeGives self.old.version_max (nodes self.old) (id_number at.node) at.version fail result (nodes self.new) }
    {
        if at.version == self.version_max {
            return Upgrade::Exhausted;
        }
        if fail {
            return Upgrade::Failed;
        }
        let word = self.slot(at.node).word;
        if !word.is_at(at.version) {
            return Upgrade::Failed;
        }
        self.set_word(
            at.node,
            LockWord {
                locked: true,
                ..word
            },
        );
        Upgrade::Locked
    }

    fn make(
        &mut self,
        form: NodeType,
        key: &[u8; KEY_BYTES],
        length: usize,
    ) -> Result<Id, Refusal> {
        cells::charge(&mut self.allocator, form)?;
        match cells::new_slot(self.alloc, &self.collector, form, &key[..length]) {
            Ok(slot) => {
                let name = cells::place(&mut self.collector, slot);
                self.counts.add(name.cell, form);
                Ok(Id { name })
            }
            Err(refusal) => {
                self.allocator.deallocate(form.size());
                Err(refusal)
            }
        }
    }

    fn change(&mut self, node: Id, byte: u8, child: Child<Id, P>)
        requires stands { Stands (nodes self.old (id_number node)) }
        requires locked { (nodes self.old (id_number node)).locked ≡ true }
        requires room { MayChange (nodes self.old (id_number node)) byte (hung id_number child) }
        ensures limit { self.new.version_max ≡ self.old.version_max }
        ensures rest { frame self.new ≡ frame self.old }
        ensures gives { ChangeGives (nodes self.old) (id_number node) byte (hung id_number child) (nodes self.new) }
    {
        self.hang(node, byte, child);
    }

    fn fill(&mut self, node: Id, byte: u8, child: Child<Id, P>)
        requires stands { Stands (nodes self.old (id_number node)) }
        requires room { MayChange (nodes self.old (id_number node)) byte (hung id_number child) }
        ensures limit { self.new.version_max ≡ self.old.version_max }
        ensures rest { frame self.new ≡ frame self.old }
        ensures gives { ChangeGives (nodes self.old) (id_number node) byte (hung id_number child) (nodes self.new) }
    {
        self.hang(node, byte, child);
    }

    fn other(&self, node: Id, byte: u8) -> Id {
        self.slot(node).other(byte)
    }

    fn take_over(&mut self, old: Id, node: Id) {
        if !old.is(node) {
            cells::move_children(&mut self.collector, old.name, node.name);
        }
    }

    fn give_back(&mut self, node: Id) {
        cells::take_away(&mut self.collector, node.name);
        let size = self.counts.take_off(node.name.cell);
        self.allocator.deallocate(size);
    }

    fn obsolete(&mut self, node: Id) {
        let word = self.slot(node).word;
        self.set_word(
            node,
            LockWord {
                obsolete: true,
                ..word
            },
        );
    }

    fn retire(&mut self, node: Id) {
        World::<Slot<P>, ()>::cells();
        self.counts.mark(node.name.cell);
        let mut slot = cells::take_out(&mut self.collector, node.name);
        slot.word.retired = true;
        cells::put_back(&mut self.collector, node.name, slot);
    }

    fn unlock(&mut self, node: Id) {
        let _most = self.version_max;
        let word = self.slot(node).word;
        self.set_word(
            node,
            LockWord {
                version: word.version + 1,
                locked: false,
                ..word
            },
        );
    }
}
