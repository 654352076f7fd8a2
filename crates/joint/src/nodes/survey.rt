//! The tree as it stands at one moment: a walk looks at each node once, whatever its lock.

ghost use Rattle.std.specs.Prelude.{◌≡◌, ◌≤◌, IfOk, OnOk};
ghost use Rattle.congee.specs.declared.forms.prefix.TheConstants.{MAX_PREFIX_LEN};
ghost use Rattle.congee.specs.Keys.{IsMapOf};
ghost use Rattle.congee.specs.protocol.Regions.{start_at};
ghost use Rattle.congee.specs.protocol.ScanSteps.{width};
ghost use Rattle.judge.specs.Answer.{Pairs};
ghost use Rattle.joint.specs.nodes.Nodes.{nodes};
ghost use Rattle.joint.specs.nodes.Levels.{IsNodeIn};
ghost use Rattle.joint.specs.nodes.Survey.{IsRegionOf, IsTree, PutsKeys, keys_of};
ghost use Rattle.joint.specs.nodes.View.{id_number};

use crate::id::Id;
use crate::nodes::Nodes;
use congee::protocol::Region;
use congee::{Allocator, Child, Payload, Small};
use std::alloc::AllocError;
use std::vec::Vec;

/// How many keys are under each byte of a node whose prefix has so many bytes.
pub(crate) fn width(depth: usize) -> u64
    requires { depth ≤ MAX_PREFIX_LEN }
    ensures { result ≡ width depth }
{
    match depth {
        0 => 0x100_0000_0000_0000,
        1 => 0x1_0000_0000_0000,
        2 => 0x100_0000_0000,
        3 => 0x1_0000_0000,
        4 => 0x100_0000,
        5 => 0x1_0000,
        6 => 0x100,
        // A prefix has at most seven bytes.
        _ => 1,
    }
}

/// The least key under a byte.
pub(crate) fn first_under(region: Region, byte: u8) -> u64
    requires { IsRegionOf region }
    ensures { result ≡ start_at region.base region.depth byte }
{
    region.base + byte as u64 * width(region.depth)
}

impl<P: Payload + Small, A: Allocator> Nodes<P, A> {
    /// Puts the keys at and below a node behind those before them, in ascending order.
    fn keys_below(&self, at: Id, keys: &mut Vec<u64>) -> Result<(), AllocError>
        requires { IsNodeIn (nodes self.now) (id_number at) }
        ensures { OnOk result (PutsKeys (nodes self.now) (id_number at) keys.old.items keys.new.items) }
    {
        let node = self.slot(at).node();
        let region = Region::of(node.prefix());
        let mut from = 0;
        while let Some((byte, child)) = node.first_from(from) {
            match child {
                Child::Blank => {}
                Child::Node(below) => self.keys_below(*below, keys)?,
                Child::Value(_) => keys.push(first_under(region, byte))?,
            }
            from = byte as usize + 1;
        }
        Ok(())
    }

    /// All keys, ascending, in a list with room for so many.
    pub(crate) fn keys(&self, room: usize) -> Result<Vec<u64>, AllocError>
        requires { IsTree (nodes self.now) }
        ensures { IfOk result (λ v. (m : Pairs P) → IsMapOf (nodes self.now) m → v.items ≡ keys_of m) }
    {
        let mut keys = Vec::with_capacity(self.alloc, room)?;
        self.keys_below(Id::root(), &mut keys)?;
        Ok(keys)
    }
}
