//! How the nodes of the tree as it stands are spread over levels and forms.

ghost use Rattle.std.specs.Prelude.{◌≡◌, ◌≤◌, ◌++◌, List, length, vec_len, IfOk, OnOk};
ghost use Rattle.std.specs.FinMap as map;
ghost use Rattle.congee.specs.Keys.{IsMapOf};
ghost use Rattle.congee.specs.owned.Stats.{IsTally, Shape, capped};
ghost use Rattle.judge.specs.Answer.{Pairs};
ghost use Rattle.joint.specs.nodes.Nodes.{nodes};
ghost use Rattle.joint.specs.nodes.Levels.{IsNodeIn, nodes_from, nodes_of};
ghost use Rattle.joint.specs.nodes.Survey.{IsTree};
ghost use Rattle.joint.specs.nodes.View.{id_number};

use crate::id::Id;
use crate::nodes::Nodes;
use congee::{Allocator, Child, KEY_BYTES, NodeStats, Payload, Small};
use std::alloc::AllocError;

impl<P: Payload + Small, A: Allocator> Nodes<P, A> {
    /// Counts a node on a level, and the nodes below it.
    fn count_from(&self, at: Id, level: usize, stats: &mut NodeStats) -> Result<(), AllocError>
        requires node { IsNodeIn (nodes self.now) (id_number at) }
        requires level { level ≤ length (nodes self.now (id_number at)).prefix }
        requires next { level ≤ vec_len stats.old.levels }
        ensures counted { OnOk result ((seen : List Shape) → IsTally stats.old seen 0
            → IsTally stats.new (seen ++ nodes_from (nodes self.now) KEY_BYTES level (id_number at)) 0) }
        ensures levels { OnOk result (vec_len stats.old.levels ≤ vec_len stats.new.levels) }
    {
        let node = self.slot(at).node();
        stats.count(level, node.node_type(), node.len() as u64)?;
        let mut from = 0;
        while let Some((byte, child)) = node.first_from(from) {
            if let Child::Node(below) = child {
                self.count_from(*below, level + 1, stats)?;
            }
            from = byte as usize + 1;
        }
        Ok(())
    }

    /// How many nodes of each form stand on each level of the tree and how many children they have, with the number of
    /// pairs. The root is level 0. Refused for want of memory alone.
    pub(crate) fn stats(&self, pairs: u64) -> Result<NodeStats, AllocError>
        requires tree { IsTree (nodes self.now) }
        requires counted { (m : Pairs P) → IsMapOf (nodes self.now) m → pairs ≡ capped (map.len m) }
        ensures { IfOk result (λ s. (m : Pairs P) → IsMapOf (nodes self.now) m → IsTally s (nodes_of (nodes self.now)) (map.len m)) }
    {
        let mut stats = NodeStats::new(self.alloc);
        self.count_from(Id::root(), 0, &mut stats)?;
        stats.kv_pairs = pairs;
        Ok(stats)
    }
}
