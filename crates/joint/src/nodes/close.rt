//! The end of the index: its pairs are handed on, and its nodes come off the charge.

ghost use Rattle.std.specs.Prelude.{◌≡◌};
ghost use Rattle.std.specs.FinMap.{entries};
ghost use Rattle.judge.specs.Answer.{Pairs};
ghost use Rattle.crossbeam_epoch.specs.world.Ending.{registered_in};
ghost use Rattle.congee.specs.Keys.{IsMapOf};
ghost use Rattle.joint.specs.nodes.Draining.{TakesBelow, Drained};
ghost use Rattle.joint.specs.nodes.Nodes.{nodes, frame};
ghost use Rattle.joint.specs.nodes.Levels.{IsNodeIn};
ghost use Rattle.joint.specs.nodes.Survey.{IsTree};
ghost use Rattle.joint.specs.nodes.View.{id_number};

use crate::id::Id;
use crate::nodes::Nodes;
use crate::nodes::survey::first_under;
use congee::protocol::Region;
use congee::{Allocator, Child, Drainer, Payload, Small};

impl<P: Payload + Small, A: Allocator> Nodes<P, A> {
    /// Takes the pairs at and below a node out, in ascending order of the keys, and hands them to the drainer.
    fn drain_below<D: Drainer<u64, P>>(&mut self, at: Id, drainer: &mut D)
        requires node { IsNodeIn (nodes self.old) (id_number at) }
        requires ready { D.can_drain drainer.old }
        ensures frame { frame self.new ≡ frame self.old }
        ensures ready { D.can_drain drainer.new }
        ensures takes { TakesBelow D.drains (nodes self.old) (id_number at) drainer.old (nodes self.new) drainer.new }
    {
        let region = Region::of(self.slot(at).node().prefix());
        let mut from = 0;
        while let Some((byte, child)) = self.slot(at).node().first_from(from) {
            match child {
                Child::Blank => {}
                Child::Node(below) => {
                    let below = *below;
                    self.drain_below(below, drainer);
                }
                Child::Value(_) => {
                    let value = self.pull(at, byte);
                    drainer.drain(first_under(region, byte), value);
                }
            }
            from = byte as usize + 1;
        }
    }

    /// Takes every pair out, in ascending order of the keys, and hands it to the drainer.
    pub(crate) fn drain<D: Drainer<u64, P>>(&mut self, drainer: D) -> D
        requires tree { IsTree (nodes self.old) }
        requires ready { D.can_drain drainer }
        ensures drained { (m : Pairs P) → IsMapOf (nodes self.old) m → Drained D.drains drainer (entries m) result }
        ensures frame { frame self.new ≡ frame self.old }
    {
        let mut drainer = drainer;
        self.drain_below(Id::root(), &mut drainer);
        drainer
    }

    /// Carries out the removals that wait, drops the nodes, and gives the allocator back with their bytes taken off.
    pub(crate) fn release(self) -> A
        requires { registered_in self.collector ≡ 0 }
        ensures charge { A.charged_of result ≡ self.base }
        ensures limit { A.limit_of result ≡ self.limit }
    {
        let Nodes {
            collector,
            mut allocator,
            base,
            ..
        } = self;
        match collector.end() {
            Ok(_) => {
                let nodes = allocator.charged() - base;
                allocator.deallocate(nodes);
                allocator
            }
            Err(_) => unreachable!(),
        }
    }
}
