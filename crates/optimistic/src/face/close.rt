//! The end of an index.
ghost use Rattle.std.specs.Prelude.{◌≡◌, IfOk, IfErr};
ghost use Rattle.optimistic.specs.tree.Drained.{IsClosed, HasNoRoot};

use crate::drain::{Locked, Pairs};
use crate::face::index::U64Congee;
use crate::words::Hand;
use std::marker::Model;

/// What a worker knew as it was given back.
#[derive(Drop)]
pub struct Retired {
    pub(crate) hand: Hand,
}

impl Model for Retired {
    ghost use Rattle.optimistic.specs.face.Calls.{Known};
    ghost use Rattle.optimistic.specs.face.Workers.{known, HasNone};
    ghost use Rattle.optimistic.specs.words.Told.{IsOf};

    ghost Value = { Known };

    ghost view = { λ r. known r.hand.table_id r.hand.me.0 };

    ghost invariant = { λ r. IsOf r.hand.table_id r.hand × HasNone r.hand.me.0 };
}

impl U64Congee {
    /// Closes the index, with a worker that was given back. What stands is what one log makes, which begins with all that the
    /// worker has seen, and has its calls and no others of it. An error tells that a writer was lost that had locked the root.
    pub fn close(self, last: Retired) -> Result<Pairs, Locked>
        requires { last.index ≡ self.tree.nodes.table.shared.table_id }
        ensures pairs { IfOk result (λ p. IsClosed last.seen last.made last.by p) }
        ensures locked { IfErr result (λ _. HasNoRoot last.seen last.made last.by) }
    {
        let U64Congee { tree, pool } = self;
        drop(pool);
        let Retired { hand } = last;
        tree.close(hand)
    }
}
