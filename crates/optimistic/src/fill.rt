//! A node is filled with another one's entries, both of which a hand has.
ghost use Rattle.std.specs.Prelude.{◌≡◌, ◌≢◌, ℕ, ◌+◌, ◌<◌, ◌≤◌, true};
ghost use Rattle.optimistic.specs.Layout.{room};
ghost use Rattle.optimistic.specs.forms.Children.{is_inner, first_word, IsForm, Alike, Same, Becomes, put_first};
ghost use Rattle.optimistic.specs.forms.Copies.{Copies};
ghost use Rattle.optimistic.specs.forms.Parts.{HasPart, IsEmpty};
ghost use Rattle.optimistic.specs.words.Kept.{has};
ghost use Rattle.optimistic.specs.words.Told.{view, IsOf, HasForm, Tells};
ghost use Rattle.optimistic.specs.Moves.{words_of, Stays};

use crate::changes::{find_place, put_in, take_out};
use crate::moves::{Item, clear_children, load_item, room_of};
use crate::words::{Hand, Nodes, Shape};

/// Makes a node empty.
pub fn clear_all<P: Shape>(nodes: &Nodes<P>, hand: &mut Hand, node: usize, form: u64)
    requires of { IsOf nodes.now.table.shared.table_id hand.old }
    requires at { HasForm node form (view hand.old) }
    requires form { 0 < room form }
    requires mine { has (view hand.old).mine node ≡ true }
    ensures of { IsOf nodes.now.table.shared.table_id hand.new }
    ensures at { HasForm node form (view hand.new) }
    ensures stays { Stays node (view hand.old) (view hand.new) }
    ensures empty { IsEmpty form (words_of (view hand.new) node) }
{
    clear_children(nodes, hand, node, form);
    match room_of(form) {
        4 => nodes.store(hand, node, form, 2, 0),
        16 => nodes.store(hand, node, form, 4, 0),
        48 => nodes.store(hand, node, form, 8, 0),
        _ => clear_bytes(nodes, hand, node, form),
    }
}

/// Clears the other words of a node of 256.
fn clear_bytes<P: Shape>(nodes: &Nodes<P>, hand: &mut Hand, node: usize, form: u64)
    requires of { IsOf nodes.now.table.shared.table_id hand.old }
    requires at { HasForm node form (view hand.old) }
    requires form { room form ≡ 256 }
    requires mine { has (view hand.old).mine node ≡ true }
    requires cleared { is_inner form ≡ true → (q : ℕ) → q < room form → words_of (view hand.old) node (first_word form q) ≡ 0 }
    ensures of { IsOf nodes.now.table.shared.table_id hand.new }
    ensures at { HasForm node form (view hand.new) }
    ensures stays { Stays node (view hand.old) (view hand.new) }
    ensures empty { IsEmpty form (words_of (view hand.new) node) }
{
    if form < 5 {
        nodes.store(hand, node, form, 2, 0);
    } else {
        clear_masks(nodes, hand, node, form);
    }
}

/// Makes a node of 256 values empty.
fn clear_masks<P: Shape>(nodes: &Nodes<P>, hand: &mut Hand, node: usize, form: u64)
    requires of { IsOf nodes.now.table.shared.table_id hand.old }
    requires at { HasForm node form (view hand.old) }
    requires form { (room form ≡ 256) × (5 ≤ form) }
    requires mine { has (view hand.old).mine node ≡ true }
    ensures of { IsOf nodes.now.table.shared.table_id hand.new }
    ensures at { HasForm node form (view hand.new) }
    ensures stays { Stays node (view hand.old) (view hand.new) }
    ensures empty { IsEmpty form (words_of (view hand.new) node) }
{
    nodes.store(hand, node, form, 2, 0);
    nodes.store(hand, node, form, 3, 0);
    nodes.store(hand, node, form, 4, 0);
    nodes.store(hand, node, form, 5, 0);
}

/// Moves what a place has, if the other node has room for it.
fn move_item<P: Shape>(
    nodes: &Nodes<P>,
    hand: &mut Hand,
    node: usize,
    form: u64,
    place: usize,
    to: usize,
    new: u64,
) -> bool
    requires of { IsOf nodes.now.table.shared.table_id hand.old }
    requires at { HasForm node form (view hand.old) × HasForm to new (view hand.old) }
    requires mine { (has (view hand.old).mine node ≡ true) × (has (view hand.old).mine to ≡ true) × (node ≢ to) }
    requires kind { (is_inner new ≡ is_inner form) × (0 < room new) × (place < room form) }
    requires words { IsForm form (words_of (view hand.old) node) × IsForm new (words_of (view hand.old) to) }
    ensures of { IsOf nodes.now.table.shared.table_id hand.new }
    ensures at { HasForm node form (view hand.new) × HasForm to new (view hand.new) }
    ensures stays { Stays to (view hand.old) (view hand.new) }
    ensures form { result ≡ true → IsForm new (words_of (view hand.new) to) }
    ensures moved { (w : ℕ → ℕ) → Same form w (words_of (view hand.old) node) → HasPart form w place new (words_of (view hand.old) to) → result ≡ true → HasPart form w (place + 1) new (words_of (view hand.new) to) }
{
    match load_item(nodes, hand, node, form, place) {
        None => true,
        Some(item) => put_in(nodes, hand, to, new, item),
    }
}

/// Gives a node the entries of another one, and no others. Whether it has room for them.
pub fn fill<P: Shape>(
    nodes: &Nodes<P>,
    hand: &mut Hand,
    node: usize,
    form: u64,
    to: usize,
    new: u64,
) -> bool
    requires of { IsOf nodes.now.table.shared.table_id hand.old }
    requires at { HasForm node form (view hand.old) × HasForm to new (view hand.old) }
    requires mine { (has (view hand.old).mine node ≡ true) × (has (view hand.old).mine to ≡ true) × (node ≢ to) }
    requires kind { (is_inner new ≡ is_inner form) × (0 < room new) × (0 < room form) }
    requires words { IsForm form (words_of (view hand.old) node) }
    ensures of { IsOf nodes.now.table.shared.table_id hand.new }
    ensures at { HasForm node form (view hand.new) × HasForm to new (view hand.new) }
    ensures stays { Stays to (view hand.old) (view hand.new) }
    ensures alike { result ≡ true → IsForm new (words_of (view hand.new) to) × Alike form (words_of (view hand.old) node) new (words_of (view hand.new) to) }
{
    clear_all(nodes, hand, to, new);
    for place in 0..room_of(form) {
        let moved = move_item(nodes, hand, node, form, place, to, new);
        if !moved {
            return false;
        }
    }
    true
}

/// Gives a node the entries of another one, and this one at its byte. Whether it has room for them.
pub fn fill_with<P: Shape>(
    nodes: &Nodes<P>,
    hand: &mut Hand,
    node: usize,
    form: u64,
    to: usize,
    new: u64,
    item: Item,
) -> bool
    requires of { IsOf nodes.now.table.shared.table_id hand.old }
    requires at { HasForm node form (view hand.old) × HasForm to new (view hand.old) }
    requires mine { (has (view hand.old).mine node ≡ true) × (has (view hand.old).mine to ≡ true) × (node ≢ to) }
    requires kind { (is_inner new ≡ is_inner form) × (0 < room new) × (0 < room form) }
    requires words { IsForm form (words_of (view hand.old) node) }
    requires some { is_inner new ≡ true → item.first ≢ 0 }
    requires tells { is_inner new ≡ true → Tells item.first (view hand.old) }
    ensures of { IsOf nodes.now.table.shared.table_id hand.new }
    ensures at { HasForm node form (view hand.new) × HasForm to new (view hand.new) }
    ensures stays { Stays to (view hand.old) (view hand.new) }
    ensures copies { result ≡ true → Copies form (words_of (view hand.old) node) new (words_of (view hand.new) to) item.byte (put_first new item.first) item.last }
{
    let filled = fill(nodes, hand, node, form, to, new);
    if !filled {
        return false;
    }
    put_in(nodes, hand, to, new, item)
}

/// Gives a node the entries of another one, but that of this byte. Whether it has room for them, and there was that one.
pub fn fill_without<P: Shape>(
    nodes: &Nodes<P>,
    hand: &mut Hand,
    node: usize,
    form: u64,
    to: usize,
    new: u64,
    byte: u8,
) -> bool
    requires of { IsOf nodes.now.table.shared.table_id hand.old }
    requires at { HasForm node form (view hand.old) × HasForm to new (view hand.old) }
    requires mine { (has (view hand.old).mine node ≡ true) × (has (view hand.old).mine to ≡ true) × (node ≢ to) }
    requires kind { (is_inner new ≡ is_inner form) × (0 < room new) × (0 < room form) }
    requires words { IsForm form (words_of (view hand.old) node) }
    ensures of { IsOf nodes.now.table.shared.table_id hand.new }
    ensures at { HasForm node form (view hand.new) × HasForm to new (view hand.new) }
    ensures stays { Stays to (view hand.old) (view hand.new) }
    ensures copies { result ≡ true → Copies form (words_of (view hand.old) node) new (words_of (view hand.new) to) byte (λ key. 0) 0 }
{
    let filled = fill(nodes, hand, node, form, to, new);
    if !filled {
        return false;
    }
    remove(nodes, hand, to, new, byte)
}

/// Takes the entry of a byte out, if there is one.
fn remove<P: Shape>(nodes: &Nodes<P>, hand: &mut Hand, node: usize, form: u64, byte: u8) -> bool
    requires of { IsOf nodes.now.table.shared.table_id hand.old }
    requires at { HasForm node form (view hand.old) }
    requires form { 0 < room form }
    requires mine { has (view hand.old).mine node ≡ true }
    requires words { IsForm form (words_of (view hand.old) node) }
    ensures of { IsOf nodes.now.table.shared.table_id hand.new }
    ensures at { HasForm node form (view hand.new) }
    ensures stays { Stays node (view hand.old) (view hand.new) }
    ensures gone { result ≡ true → Becomes form (words_of (view hand.old) node) (words_of (view hand.new) node) byte (λ key. 0) 0 }
{
    let Some(place) = find_place(nodes, hand, node, form, byte) else {
        return false;
    };
    match load_item(nodes, hand, node, form, place) {
        None => false,
        Some(_) => {
            take_out(nodes, hand, node, form, place);
            true
        }
    }
}
