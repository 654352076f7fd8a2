//! What one worker tells another of the log.

use crate::tree::Tree;
use crate::words::Hand;
use std::marker::Model;

/// The log as far as a worker had seen it, for another worker of its index, in this thread or in another one.
#[derive(Drop)]
pub struct Seen<'t> {
    pub(crate) tree: &'t Tree,
    pub(crate) note: Hand,
}

impl<'t> Model for Seen<'t> {
    ghost use Rattle.optimistic.specs.face.Calls.{Known};
    ghost use Rattle.optimistic.specs.face.Workers.{known};
    ghost use Rattle.optimistic.specs.words.Kept.{view_of};
    ghost use Rattle.optimistic.specs.words.Told.{IsNote};
    ghost use Rattle.std.specs.Prelude.{[]};

    ghost Value = { Known };

    ghost view = { λ s. known s.tree.now.nodes.table.shared.table_id (view_of s.note.me.0.told [] [] 0) };

    ghost invariant = { λ s. IsNote s.tree.now.nodes.table.shared.table_id s.note.me.0.told s.note };
}
