//! A node's entries are moved to another node, which a hand has too.
ghost use Rattle.std.specs.Prelude.{◌≡◌, ◌≢◌, ◌↔◌, ℕ, ◌+◌, ◌*◌, ◌/◌, ◌%◌, ◌<◌, ◌≤◌, true, IsTrue, IfSome, MatchOption, MatchBool};
ghost use Rattle.optimistic.specs.Layout.{room, entries, width, is_link};
ghost use Rattle.optimistic.specs.forms.Bytes.{with_at};
ghost use Rattle.optimistic.specs.forms.Children.{is_inner, byte_in, taken_in, first_word, last_word, with_entry, without_entry, first_of, second_of, IsForm, Alike};
ghost use Rattle.optimistic.specs.forms.Parts.{HasPart};
ghost use Rattle.optimistic.specs.words.Kept.{has};
ghost use Rattle.optimistic.specs.words.Told.{view, IsOf, HasForm, Tells, Looks};
ghost use Rattle.optimistic.specs.Moves.{words_of, Stays, Agree, IsItem};

use crate::forms::bits::has_bit;
use crate::forms::bytes::byte_at;
use crate::forms::wide::has_child;
use crate::words::{Hand, Nodes, Shape};

/// An entry of a node: its byte, its child word, and its second word. Of a node of values both are the value.
#[derive(Clone, Copy, Drop)]
pub struct Item {
    pub byte: u8,
    pub first: u64,
    pub last: u64,
}

/// How many entries a form has room for.
#[inline(always)]
pub fn room_of(form: u64) -> usize
    ensures { result ≡ room form }
{
    match form {
        1 => 4,
        2 => 16,
        3 => 48,
        4 => 256,
        5 => 4,
        6 => 16,
        7 => 48,
        8 => 256,
        _ => 0,
    }
}

/// The word of the first entry.
#[inline(always)]
pub fn entries_of(form: u64) -> usize
    ensures { result ≡ entries form }
{
    match form {
        1 => 4,
        2 => 6,
        3 => 10,
        4 => 8,
        5 => 3,
        6 => 6,
        7 => 10,
        _ => 8,
    }
}

/// The first word of a place's entry.
#[inline(always)]
pub fn first_at(form: u64, place: usize) -> usize
    requires { place < room form }
    ensures word { result ≡ first_word form place }
    ensures inside { (2 < result) × (result < width form) }
{
    let entries = entries_of(form);
    if form < 5 {
        entries + 2 * place
    } else {
        entries + place
    }
}

/// The last word of a place's entry.
#[inline(always)]
pub fn last_at(form: u64, place: usize) -> usize
    requires { place < room form }
    ensures word { result ≡ last_word form place }
    ensures inside { (2 < result) × (result < width form) }
{
    let entries = entries_of(form);
    if form < 5 {
        entries + (2 * place + 1)
    } else {
        entries + place
    }
}

/// Whether a place of a node of up to 48 is taken.
fn is_taken<P: Shape>(
    nodes: &Nodes<P>,
    hand: &mut Hand,
    node: usize,
    form: u64,
    place: usize,
) -> bool
    requires of { IsOf nodes.now.table.shared.table_id hand.old }
    requires at { HasForm node form (view hand.old) }
    requires inside { place < room form }
    requires mine { has (view hand.old).mine node ≡ true }
    ensures of { IsOf nodes.now.table.shared.table_id hand.new }
    ensures at { HasForm node form (view hand.new) }
    ensures looks { Looks P.good (view hand.old) (view hand.new) }
    ensures taken { IsTrue result ↔ (taken_in form (words_of (view hand.old) node) place ≡ 1) }
{
    match room_of(form) {
        4 => {
            let word = nodes.load(hand, node, form, 2);
            has_bit(word, 32 + place)
        }
        16 => {
            let mask = nodes.load(hand, node, form, 4);
            has_bit(mask, place)
        }
        48 => {
            let mask = nodes.load(hand, node, form, 8);
            has_bit(mask, place)
        }
        _ => is_taken_wide(nodes, hand, node, form, place),
    }
}

/// Whether a place of a node of 256 is taken.
fn is_taken_wide<P: Shape>(
    nodes: &Nodes<P>,
    hand: &mut Hand,
    node: usize,
    form: u64,
    place: usize,
) -> bool
    requires of { IsOf nodes.now.table.shared.table_id hand.old }
    requires at { HasForm node form (view hand.old) }
    requires inside { (place < 256) × (room form ≡ 256) }
    requires mine { has (view hand.old).mine node ≡ true }
    ensures of { IsOf nodes.now.table.shared.table_id hand.new }
    ensures at { HasForm node form (view hand.new) }
    ensures looks { Looks P.good (view hand.old) (view hand.new) }
    ensures taken { IsTrue result ↔ (taken_in form (words_of (view hand.old) node) place ≡ 1) }
{
    if form < 5 {
        let first = nodes.load(hand, node, form, 8 + 2 * place);
        has_child(first)
    } else {
        let mask = nodes.load(hand, node, form, 2 + place / 64);
        has_bit(mask, place % 64)
    }
}

/// The byte of a place of a node of up to 48.
fn byte_of_place<P: Shape>(
    nodes: &Nodes<P>,
    hand: &mut Hand,
    node: usize,
    form: u64,
    place: usize,
) -> u8
    requires of { IsOf nodes.now.table.shared.table_id hand.old }
    requires at { HasForm node form (view hand.old) }
    requires inside { (place < room form) × (room form ≢ 256) }
    requires mine { has (view hand.old).mine node ≡ true }
    ensures of { IsOf nodes.now.table.shared.table_id hand.new }
    ensures at { HasForm node form (view hand.new) }
    ensures looks { Looks P.good (view hand.old) (view hand.new) }
    ensures byte { result ≡ byte_in form (words_of (view hand.old) node) place }
{
    let word = nodes.load(hand, node, form, 2 + place / 8);
    byte_at(word, place % 8)
}

/// The entry of a place, of which the byte is known.
fn load_entry<P: Shape>(
    nodes: &Nodes<P>,
    hand: &mut Hand,
    node: usize,
    form: u64,
    place: usize,
    byte: u8,
) -> Item
    requires of { IsOf nodes.now.table.shared.table_id hand.old }
    requires at { HasForm node form (view hand.old) }
    requires inside { place < room form }
    requires mine { has (view hand.old).mine node ≡ true }
    ensures of { IsOf nodes.now.table.shared.table_id hand.new }
    ensures at { HasForm node form (view hand.new) }
    ensures looks { Looks P.good (view hand.old) (view hand.new) }
    ensures entry { (result.byte ≡ byte) × (words_of (view hand.old) node (first_word form place) ≡ result.first) × (words_of (view hand.old) node (last_word form place) ≡ result.last) }
    ensures tells { is_inner form ≡ true → Tells result.first (view hand.new) }
{
    let last = nodes.load(hand, node, form, last_at(form, place));
    let first = nodes.load(hand, node, form, first_at(form, place));
    Item { byte, first, last }
}

/// What a place of a node that the hand has holds.
pub fn load_item<P: Shape>(
    nodes: &Nodes<P>,
    hand: &mut Hand,
    node: usize,
    form: u64,
    place: usize,
) -> Option<Item>
    requires of { IsOf nodes.now.table.shared.table_id hand.old }
    requires at { HasForm node form (view hand.old) }
    requires inside { place < room form }
    requires mine { has (view hand.old).mine node ≡ true }
    ensures of { IsOf nodes.now.table.shared.table_id hand.new }
    ensures at { HasForm node form (view hand.new) }
    ensures looks { Looks P.good (view hand.old) (view hand.new) }
    ensures item { MatchOption result (taken_in form (words_of (view hand.old) node) place ≢ 1) (λ e. IsItem form (words_of (view hand.old) node) place e) }
    ensures tells { IfSome result (λ e. is_inner form ≡ true → Tells e.first (view hand.new)) }
{
    let taken = is_taken(nodes, hand, node, form, place);
    if !taken {
        return None;
    }
    if room_of(form) == 256 {
        let wide = load_entry(nodes, hand, node, form, place, place as u8);
        return Some(wide);
    }
    let byte = byte_of_place(nodes, hand, node, form, place);
    let entry = load_entry(nodes, hand, node, form, place, byte);
    Some(entry)
}

/// Writes a place's entry.
pub fn store_item<P: Shape>(
    nodes: &Nodes<P>,
    hand: &mut Hand,
    node: usize,
    form: u64,
    place: usize,
    item: Item,
)
    requires of { IsOf nodes.now.table.shared.table_id hand.old }
    requires at { HasForm node form (view hand.old) }
    requires inside { place < room form }
    requires mine { has (view hand.old).mine node ≡ true }
    requires tells { is_inner form ≡ true → Tells item.first (view hand.old) }
    ensures of { IsOf nodes.now.table.shared.table_id hand.new }
    ensures at { HasForm node form (view hand.new) }
    ensures stays { Stays node (view hand.old) (view hand.new) }
    ensures words { Agree form (words_of (view hand.new) node) (with_entry form (words_of (view hand.old) node) place item.first item.last) }
{
    let last = last_at(form, place);
    if form < 5 {
        let first = first_at(form, place);
        renew(nodes, hand, node, form, first, item.first);
        nodes.store(hand, node, form, last, item.last);
    } else {
        nodes.store(hand, node, form, last, item.last);
    }
}

/// Writes a word, where it is another one so far.
fn renew<P: Shape>(
    nodes: &Nodes<P>,
    hand: &mut Hand,
    node: usize,
    form: u64,
    word: usize,
    value: u64,
)
    requires of { IsOf nodes.now.table.shared.table_id hand.old }
    requires at { HasForm node form (view hand.old) }
    requires inside { (1 < word) × (word < width form) }
    requires mine { has (view hand.old).mine node ≡ true }
    requires tells { is_link form word ≡ true → Tells value (view hand.old) }
    ensures of { IsOf nodes.now.table.shared.table_id hand.new }
    ensures at { HasForm node form (view hand.new) }
    ensures stays { Stays node (view hand.old) (view hand.new) }
    ensures words { Agree form (words_of (view hand.new) node) (with_at (words_of (view hand.old) node) word value) }
{
    let old = nodes.load(hand, node, form, word);
    if old != value {
        nodes.store(hand, node, form, word, value);
        return;
    }
}

/// Clears all child words of a node of children.
pub fn clear_children<P: Shape>(nodes: &Nodes<P>, hand: &mut Hand, node: usize, form: u64)
    requires of { IsOf nodes.now.table.shared.table_id hand.old }
    requires at { HasForm node form (view hand.old) }
    requires mine { has (view hand.old).mine node ≡ true }
    ensures of { IsOf nodes.now.table.shared.table_id hand.new }
    ensures at { HasForm node form (view hand.new) }
    ensures stays { Stays node (view hand.old) (view hand.new) }
    ensures cleared { is_inner form ≡ true → (q : ℕ) → q < room form → words_of (view hand.new) node (first_word form q) ≡ 0 }
{
    if form > 4 {
        return;
    }
    for place in 0..room_of(form) {
        let at = first_at(form, place);
        renew(nodes, hand, node, form, at, 0);
    }
}
