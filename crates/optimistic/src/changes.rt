//! A node's entries change, while a hand has it: one is put in, written over, or taken out.
ghost use Rattle.std.specs.Prelude.{◌≡◌, ◌≢◌, ℕ, ◌+◌, ◌*◌, ◌/◌, ◌%◌, ◌<◌, ◌≤◌, true, false, IfSome, MatchOption, MatchBool};
ghost use Rattle.optimistic.specs.Layout.{room, entries, width};
ghost use Rattle.optimistic.specs.forms.Bytes.{IsLowest};
ghost use Rattle.optimistic.specs.forms.Children.{is_inner, byte_in, taken_in, first_word, last_word, with_entry, without_entry, IsForm, Finds, IsRoom, IsFull, Becomes, put_first};
ghost use Rattle.optimistic.specs.words.Kept.{has};
ghost use Rattle.optimistic.specs.words.Told.{view, IsOf, HasForm, Tells, Looks};
ghost use Rattle.optimistic.specs.Moves.{words_of, Stays, Agree};

use crate::forms::bits::without_bit;
use crate::forms::places::{
    find_forty_eight, find_four, find_sixteen, put, put_four, room_in_forty_eight, room_in_four,
    room_in_sixteen, take, take_four,
};
use crate::forms::wide::{has_child, one_fewer, one_more, place_of_byte, put_byte};
use crate::moves::{Item, first_at, room_of, store_item};
use crate::words::{Hand, Nodes, Shape};

/// The place of a byte.
pub fn find_place<P: Shape>(
    nodes: &Nodes<P>,
    hand: &mut Hand,
    node: usize,
    form: u64,
    byte: u8,
) -> Option<usize>
    requires of { IsOf nodes.now.table.shared.table_id hand.old }
    requires at { HasForm node form (view hand.old) }
    requires form { 0 < room form }
    requires mine { has (view hand.old).mine node ≡ true }
    requires words { IsForm form (words_of (view hand.old) node) }
    ensures of { IsOf nodes.now.table.shared.table_id hand.new }
    ensures at { HasForm node form (view hand.new) }
    ensures stays { Stays node (view hand.old) (view hand.new) }
    ensures same { Agree form (words_of (view hand.new) node) (words_of (view hand.old) node) }
    ensures finds { Finds form (words_of (view hand.old) node) byte result }
{
    match room_of(form) {
        4 => {
            let word = nodes.load(hand, node, form, 2);
            find_four(word, byte)
        }
        16 => {
            let a = nodes.load(hand, node, form, 2);
            let b = nodes.load(hand, node, form, 3);
            find_sixteen(a, b, byte)
        }
        48 => find_among_forty_eight(nodes, hand, node, form, byte),
        _ => Some(place_of_byte(byte)),
    }
}

/// The place of a byte among forty-eight.
fn find_among_forty_eight<P: Shape>(
    nodes: &Nodes<P>,
    hand: &mut Hand,
    node: usize,
    form: u64,
    byte: u8,
) -> Option<usize>
    requires of { IsOf nodes.now.table.shared.table_id hand.old }
    requires at { HasForm node form (view hand.old) }
    requires form { room form ≡ 48 }
    requires mine { has (view hand.old).mine node ≡ true }
    requires words { IsForm form (words_of (view hand.old) node) }
    ensures of { IsOf nodes.now.table.shared.table_id hand.new }
    ensures at { HasForm node form (view hand.new) }
    ensures looks { Looks P.good (view hand.old) (view hand.new) }
    ensures lowest { IsLowest 48 (byte_in form (words_of (view hand.old) node)) byte result }
    ensures finds { Finds form (words_of (view hand.old) node) byte result }
{
    let a = nodes.load(hand, node, form, 2);
    let b = nodes.load(hand, node, form, 3);
    let c = nodes.load(hand, node, form, 4);
    let d = nodes.load(hand, node, form, 5);
    let e = nodes.load(hand, node, form, 6);
    let f = nodes.load(hand, node, form, 7);
    find_forty_eight(a, b, c, d, e, f, byte)
}

/// Puts an entry in, if there is room: at its byte's place, or at a free one.
pub fn put_in<P: Shape>(
    nodes: &Nodes<P>,
    hand: &mut Hand,
    node: usize,
    form: u64,
    item: Item,
) -> bool
    requires of { IsOf nodes.now.table.shared.table_id hand.old }
    requires at { HasForm node form (view hand.old) }
    requires form { 0 < room form }
    requires mine { has (view hand.old).mine node ≡ true }
    requires words { IsForm form (words_of (view hand.old) node) }
    requires some { is_inner form ≡ true → item.first ≢ 0 }
    requires tells { is_inner form ≡ true → Tells item.first (view hand.old) }
    ensures of { IsOf nodes.now.table.shared.table_id hand.new }
    ensures at { HasForm node form (view hand.new) }
    ensures stays { Stays node (view hand.old) (view hand.new) }
    ensures put { MatchBool result (Becomes form (words_of (view hand.old) node) (words_of (view hand.new) node) item.byte (put_first form item.first) item.last) (Looks P.good (view hand.old) (view hand.new)) }
{
    match room_of(form) {
        4 => put_in_four(nodes, hand, node, form, item),
        16 => put_in_sixteen(nodes, hand, node, form, item),
        48 => put_in_forty_eight(nodes, hand, node, form, item),
        _ => {
            put_in_wide(nodes, hand, node, form, item);
            true
        }
    }
}

/// The same among four.
pub fn put_in_four<P: Shape>(
    nodes: &Nodes<P>,
    hand: &mut Hand,
    node: usize,
    form: u64,
    item: Item,
) -> bool
    requires of { IsOf nodes.now.table.shared.table_id hand.old }
    requires at { HasForm node form (view hand.old) }
    requires form { room form ≡ 4 }
    requires mine { has (view hand.old).mine node ≡ true }
    requires words { IsForm form (words_of (view hand.old) node) }
    requires some { is_inner form ≡ true → item.first ≢ 0 }
    requires tells { is_inner form ≡ true → Tells item.first (view hand.old) }
    ensures of { IsOf nodes.now.table.shared.table_id hand.new }
    ensures at { HasForm node form (view hand.new) }
    ensures stays { Stays node (view hand.old) (view hand.new) }
    ensures put { MatchBool result (Becomes form (words_of (view hand.old) node) (words_of (view hand.new) node) item.byte (put_first form item.first) item.last) (Looks P.good (view hand.old) (view hand.new)) }
    ensures full { result ≡ false → IsFull form (words_of (view hand.old) node) item.byte }
{
    let word = nodes.load(hand, node, form, 2);
    let Some(place) = room_in_four(word, item.byte) else {
        return false;
    };
    store_item(nodes, hand, node, form, place, item);
    let changed = put_four(word, place, item.byte);
    nodes.store(hand, node, form, 2, changed);
    true
}

/// The same among sixteen.
fn put_in_sixteen<P: Shape>(
    nodes: &Nodes<P>,
    hand: &mut Hand,
    node: usize,
    form: u64,
    item: Item,
) -> bool
    requires of { IsOf nodes.now.table.shared.table_id hand.old }
    requires at { HasForm node form (view hand.old) }
    requires form { room form ≡ 16 }
    requires mine { has (view hand.old).mine node ≡ true }
    requires words { IsForm form (words_of (view hand.old) node) }
    requires some { is_inner form ≡ true → item.first ≢ 0 }
    requires tells { is_inner form ≡ true → Tells item.first (view hand.old) }
    ensures of { IsOf nodes.now.table.shared.table_id hand.new }
    ensures at { HasForm node form (view hand.new) }
    ensures stays { Stays node (view hand.old) (view hand.new) }
    ensures put { MatchBool result (Becomes form (words_of (view hand.old) node) (words_of (view hand.new) node) item.byte (put_first form item.first) item.last) (Looks P.good (view hand.old) (view hand.new)) }
{
    let a = nodes.load(hand, node, form, 2);
    let b = nodes.load(hand, node, form, 3);
    let mask = nodes.load(hand, node, form, 4);
    let Some(place) = room_in_sixteen(a, b, mask, item.byte) else {
        return false;
    };
    let word = nodes.load(hand, node, form, 2 + place / 8);
    store_item(nodes, hand, node, form, place, item);
    let changed = put(word, mask, place, item.byte);
    nodes.store(hand, node, form, 2 + place / 8, changed.keys);
    nodes.store(hand, node, form, 4, changed.mask);
    true
}

/// The same among forty-eight.
fn put_in_forty_eight<P: Shape>(
    nodes: &Nodes<P>,
    hand: &mut Hand,
    node: usize,
    form: u64,
    item: Item,
) -> bool
    requires of { IsOf nodes.now.table.shared.table_id hand.old }
    requires at { HasForm node form (view hand.old) }
    requires form { room form ≡ 48 }
    requires mine { has (view hand.old).mine node ≡ true }
    requires words { IsForm form (words_of (view hand.old) node) }
    requires some { is_inner form ≡ true → item.first ≢ 0 }
    requires tells { is_inner form ≡ true → Tells item.first (view hand.old) }
    ensures of { IsOf nodes.now.table.shared.table_id hand.new }
    ensures at { HasForm node form (view hand.new) }
    ensures stays { Stays node (view hand.old) (view hand.new) }
    ensures put { MatchBool result (Becomes form (words_of (view hand.old) node) (words_of (view hand.new) node) item.byte (put_first form item.first) item.last) (Looks P.good (view hand.old) (view hand.new)) }
{
    let found = find_among_forty_eight(nodes, hand, node, form, item.byte);
    let mask = nodes.load(hand, node, form, 8);
    let Some(place) = room_in_forty_eight(found, mask) else {
        return false;
    };
    let word = nodes.load(hand, node, form, 2 + place / 8);
    store_item(nodes, hand, node, form, place, item);
    let changed = put(word, mask, place, item.byte);
    nodes.store(hand, node, form, 2 + place / 8, changed.keys);
    nodes.store(hand, node, form, 8, changed.mask);
    true
}

/// How many children a node of 256 has once there is one at this place.
fn count_with<P: Shape>(
    nodes: &Nodes<P>,
    hand: &mut Hand,
    node: usize,
    form: u64,
    place: usize,
) -> u64
    requires of { IsOf nodes.now.table.shared.table_id hand.old }
    requires at { HasForm node form (view hand.old) }
    requires inside { place < room form }
    ensures of { IsOf nodes.now.table.shared.table_id hand.new }
    ensures at { HasForm node form (view hand.new) }
    ensures looks { Looks P.good (view hand.old) (view hand.new) }
{
    let first = nodes.load(hand, node, form, first_at(form, place));
    let count = nodes.load(hand, node, form, 2);
    if has_child(first) {
        count
    } else {
        one_more(count)
    }
}

/// The same of a node of 256.
fn put_in_wide<P: Shape>(nodes: &Nodes<P>, hand: &mut Hand, node: usize, form: u64, item: Item)
    requires of { IsOf nodes.now.table.shared.table_id hand.old }
    requires at { HasForm node form (view hand.old) }
    requires form { room form ≡ 256 }
    requires mine { has (view hand.old).mine node ≡ true }
    requires some { is_inner form ≡ true → item.first ≢ 0 }
    requires tells { is_inner form ≡ true → Tells item.first (view hand.old) }
    ensures of { IsOf nodes.now.table.shared.table_id hand.new }
    ensures at { HasForm node form (view hand.new) }
    ensures stays { Stays node (view hand.old) (view hand.new) }
    ensures put { Becomes form (words_of (view hand.old) node) (words_of (view hand.new) node) item.byte (put_first form item.first) item.last }
{
    let place = place_of_byte(item.byte);
    if form < 5 {
        let more = count_with(nodes, hand, node, form, place);
        store_item(nodes, hand, node, form, place, item);
        nodes.store(hand, node, form, 2, more);
    } else {
        let mask = nodes.load(hand, node, form, 2 + place / 64);
        store_item(nodes, hand, node, form, place, item);
        let changed = put_byte(mask, item.byte);
        nodes.store(hand, node, form, 2 + place / 64, changed);
    }
}

/// Clears the child word of a place, if it has one.
fn clear_entry<P: Shape>(nodes: &Nodes<P>, hand: &mut Hand, node: usize, form: u64, place: usize)
    requires of { IsOf nodes.now.table.shared.table_id hand.old }
    requires at { HasForm node form (view hand.old) }
    requires inside { place < room form }
    requires mine { has (view hand.old).mine node ≡ true }
    ensures of { IsOf nodes.now.table.shared.table_id hand.new }
    ensures at { HasForm node form (view hand.new) }
    ensures stays { Stays node (view hand.old) (view hand.new) }
    ensures words { Agree form (words_of (view hand.new) node) (without_entry form (words_of (view hand.old) node) place) }
{
    if form < 5 {
        nodes.store(hand, node, form, first_at(form, place), 0);
        return;
    }
}

/// Takes a place's entry out.
pub fn take_out<P: Shape>(nodes: &Nodes<P>, hand: &mut Hand, node: usize, form: u64, place: usize)
    requires of { IsOf nodes.now.table.shared.table_id hand.old }
    requires at { HasForm node form (view hand.old) }
    requires inside { place < room form }
    requires mine { has (view hand.old).mine node ≡ true }
    requires words { IsForm form (words_of (view hand.old) node) }
    requires taken { taken_in form (words_of (view hand.old) node) place ≡ 1 }
    ensures of { IsOf nodes.now.table.shared.table_id hand.new }
    ensures at { HasForm node form (view hand.new) }
    ensures stays { Stays node (view hand.old) (view hand.new) }
    ensures gone { Becomes form (words_of (view hand.old) node) (words_of (view hand.new) node) (byte_in form (words_of (view hand.old) node) place) (λ key. 0) 0 }
{
    clear_entry(nodes, hand, node, form, place);
    match room_of(form) {
        4 => {
            let word = nodes.load(hand, node, form, 2);
            let changed = take_four(word, place);
            nodes.store(hand, node, form, 2, changed);
        }
        16 => {
            let mask = nodes.load(hand, node, form, 4);
            let rest = take(mask, place);
            nodes.store(hand, node, form, 4, rest);
        }
        48 => {
            let lines = nodes.load(hand, node, form, 8);
            let fewer = take(lines, place);
            nodes.store(hand, node, form, 8, fewer);
        }
        _ => take_wide(nodes, hand, node, form, place),
    }
}

/// The same of a node of 256, of which the child word is cleared.
fn take_wide<P: Shape>(nodes: &Nodes<P>, hand: &mut Hand, node: usize, form: u64, place: usize)
    requires of { IsOf nodes.now.table.shared.table_id hand.old }
    requires at { HasForm node form (view hand.old) }
    requires inside { (place < 256) × (room form ≡ 256) }
    requires mine { has (view hand.old).mine node ≡ true }
    ensures of { IsOf nodes.now.table.shared.table_id hand.new }
    ensures at { HasForm node form (view hand.new) }
    ensures stays { Stays node (view hand.old) (view hand.new) }
    ensures gone { (w : ℕ → ℕ) → Agree form (words_of (view hand.old) node) (without_entry form w place) → taken_in form w place ≡ 1 → Becomes form w (words_of (view hand.new) node) place (λ key. 0) 0 }
{
    if form < 5 {
        let count = nodes.load(hand, node, form, 2);
        let fewer = one_fewer(count);
        nodes.store(hand, node, form, 2, fewer);
    } else {
        let mask = nodes.load(hand, node, form, 2 + place / 64);
        let rest = without_bit(mask, place % 64);
        nodes.store(hand, node, form, 2 + place / 64, rest);
    }
}

/// Writes a place's entry over.
pub fn write_over<P: Shape>(
    nodes: &Nodes<P>,
    hand: &mut Hand,
    node: usize,
    form: u64,
    place: usize,
    item: Item,
)
    requires of { IsOf nodes.now.table.shared.table_id hand.old }
    requires at { HasForm node form (view hand.old) }
    requires inside { place < room form }
    requires mine { has (view hand.old).mine node ≡ true }
    requires words { IsForm form (words_of (view hand.old) node) }
    requires taken { (taken_in form (words_of (view hand.old) node) place ≡ 1) × (byte_in form (words_of (view hand.old) node) place ≡ item.byte) }
    requires some { is_inner form ≡ true → item.first ≢ 0 }
    requires tells { is_inner form ≡ true → Tells item.first (view hand.old) }
    ensures of { IsOf nodes.now.table.shared.table_id hand.new }
    ensures at { HasForm node form (view hand.new) }
    ensures stays { Stays node (view hand.old) (view hand.new) }
    ensures written { Becomes form (words_of (view hand.old) node) (words_of (view hand.new) node) item.byte (put_first form item.first) item.last }
{
    store_item(nodes, hand, node, form, place, item);
}
