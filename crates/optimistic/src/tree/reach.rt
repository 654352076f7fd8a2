//! The way down to a key's last node.
ghost use Rattle.std.specs.Prelude.{◌≡◌, ◌≢◌, ℕ, ◌<◌, ◌≤◌, IfNone, IfSome};
ghost use Rattle.optimistic.specs.words.Calls.{Keeps};
ghost use Rattle.optimistic.specs.words.Kept.{value_of, Since};
ghost use Rattle.optimistic.specs.words.Told.{view, IsOf};
ghost use Rattle.optimistic.specs.tree.Alone.{IsDisturbedFrom};
ghost use Rattle.optimistic.specs.tree.Reads.{IsPlace};

use crate::tree::get::{TOP, Tree};
use crate::tree::place::{Look, Place};
use crate::words::Hand;

/// A key's last node, what the key has there, and the node above it, by which the way came. The root has none.
#[derive(Clone, Copy, Drop)]
pub struct End {
    pub above: Option<Place>,
    pub at: Place,
    pub value: Option<u64>,
}

impl Tree {
    /// The last node on the way to a key, and the key's value, if no writer comes between.
    pub fn reach(&self, hand: &mut Hand, key: u64) -> Option<End>
        requires of { IsOf self.now.nodes.table.shared.table_id hand.old }
        ensures of { IsOf self.now.nodes.table.shared.table_id hand.new }
        ensures keeps { Keeps (view hand.old) (view hand.new) }
        ensures mine { (view hand.new).mine ≡ (view hand.old).mine }
        ensures since { Since (view hand.old).seen (view hand.new).seen }
        ensures above { IfSome result (λ r. IfSome r.above (λ p. IsPlace p (view hand.new))) }
        ensures place { IfSome result (λ r. IsPlace r.at (view hand.new)) }
        ensures value { IfSome result (λ r. r.value ≡ value_of key (view hand.new).seen.log) }
        ensures alone { IfNone result (IsDisturbedFrom (view hand.old) (view hand.new)) }
    {
        let mut above = None;
        let mut at = TOP;
        let mut next = self.look(hand, at, key);
        for _depth in 0..9u64 {
            match next {
                Look::Answer(value) => return Some(End { above, at, value }),
                Look::Down(below) => {
                    above = Some(at);
                    at = below;
                    next = self.look(hand, at, key);
                }
                Look::Again => return None,
            }
        }
        None
    }
}
