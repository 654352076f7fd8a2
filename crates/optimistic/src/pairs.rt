//! A node of four that a hand has gets two entries.
ghost use Rattle.std.specs.Prelude.{◌≡◌, ◌≢◌, true};
ghost use Rattle.optimistic.specs.Layout.{room};
ghost use Rattle.optimistic.specs.forms.Children.{is_inner, IsForm, IsFull, Becomes, put_first};
ghost use Rattle.optimistic.specs.forms.Pairs.{HasTwo};
ghost use Rattle.optimistic.specs.words.Kept.{has};
ghost use Rattle.optimistic.specs.words.Told.{view, IsOf, HasForm, Tells};
ghost use Rattle.optimistic.specs.Moves.{words_of, Stays};

use crate::changes::put_in_four;
use crate::fill::clear_all;
use crate::moves::Item;
use crate::words::{Hand, Nodes, Shape};

/// Puts an entry into a node of four that has room for it.
fn put_where_room<P: Shape>(nodes: &Nodes<P>, hand: &mut Hand, node: usize, form: u64, item: Item)
    requires of { IsOf nodes.now.table.shared.table_id hand.old }
    requires at { HasForm node form (view hand.old) }
    requires form { room form ≡ 4 }
    requires mine { has (view hand.old).mine node ≡ true }
    requires words { IsForm form (words_of (view hand.old) node) }
    requires some { is_inner form ≡ true → item.first ≢ 0 }
    requires tells { is_inner form ≡ true → Tells item.first (view hand.old) }
    requires room { IsFull form (words_of (view hand.old) node) item.byte → ⊥ }
    ensures of { IsOf nodes.now.table.shared.table_id hand.new }
    ensures at { HasForm node form (view hand.new) }
    ensures stays { Stays node (view hand.old) (view hand.new) }
    ensures put { Becomes form (words_of (view hand.old) node) (words_of (view hand.new) node) item.byte (put_first form item.first) item.last }
{
    let put = put_in_four(nodes, hand, node, form, item);
    if !put {
        unreachable!()
    }
}

/// Gives a node of four two entries, and no others.
pub fn fill_two<P: Shape>(
    nodes: &Nodes<P>,
    hand: &mut Hand,
    node: usize,
    form: u64,
    a: Item,
    b: Item,
)
    requires of { IsOf nodes.now.table.shared.table_id hand.old }
    requires at { HasForm node form (view hand.old) }
    requires form { room form ≡ 4 }
    requires mine { has (view hand.old).mine node ≡ true }
    requires apart { a.byte ≢ b.byte }
    requires some { is_inner form ≡ true → (a.first ≢ 0) × (b.first ≢ 0) }
    requires tells { is_inner form ≡ true → Tells a.first (view hand.old) × Tells b.first (view hand.old) }
    ensures of { IsOf nodes.now.table.shared.table_id hand.new }
    ensures at { HasForm node form (view hand.new) }
    ensures stays { Stays node (view hand.old) (view hand.new) }
    ensures two { HasTwo form (words_of (view hand.new) node) a.byte a.first a.last b.byte b.first b.last }
{
    clear_all(nodes, hand, node, form);
    put_where_room(nodes, hand, node, form, a);
    put_where_room(nodes, hand, node, form, b);
}
