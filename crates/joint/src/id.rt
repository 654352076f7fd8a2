//! The name of a node.

use congee::{NodeName, Small};
use crossbeam_epoch::Name;

/// The name of a node: that of its cell.
#[derive(Clone, Copy, Debug, PartialEq, Eq, Drop)]
pub struct Id {
    pub name: Name,
}

impl Id {
    ghost use Rattle.std.specs.Prelude.{◌≡◌, ◌≢◌, true, false};
    ghost use Rattle.joint.specs.Names.{root};

    /// The root's, whose cell is the first that is given.
    pub(crate) fn root() -> Id
        ensures { result ≡ root }
    {
        Id {
            name: Name { cell: 0, turn: 0 },
        }
    }

    /// Whether both name one node.
    pub(crate) fn is(self, other: Id) -> bool
        ensures same { result ≡ true → self ≡ other }
        ensures apart { result ≡ false → self.name ≢ other.name }
    {
        self.name.cell == other.name.cell && self.name.turn == other.name.turn
    }
}

impl NodeName for Id {
    ghost use Rattle.joint.specs.Names.{number};
    ghost use Rattle.joint.specs.NameLemmas.{tells};

    ghost number = { λ i. number i.name };

    ghost tells = { tells };
}

impl Small for Id {
    ghost use Rattle.std.proofs.Common.{rules};

    ghost small = { Prim.search rules };
}
