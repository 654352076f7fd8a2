//! What the places of a node hold, among words that no thread steps on any more.
ghost use Rattle.std.specs.Prelude.{◌≡◌, ◌≢◌, ◌↔◌, ℕ, ◌+◌, ◌<◌, ◌≤◌, length, IsTrue, MatchOption};
ghost use Rattle.optimistic.specs.Layout.{room, width};
ghost use Rattle.optimistic.specs.words.Last.{words_in, node_in};
ghost use Rattle.optimistic.specs.forms.Children.{byte_in, taken_in, first_word, last_word};
ghost use Rattle.optimistic.specs.forms.Least.{IsLeast};
ghost use Rattle.optimistic.specs.Moves.{IsItem};

use crate::forms::bits::has_bit;
use crate::forms::bytes::byte_at;
use crate::forms::wide::has_child;
use crate::moves::{Item, first_at, last_at, room_of};
use crate::words::Words;

/// Whether a place is taken.
fn is_taken(words: &Words, node: usize, form: u64, place: usize) -> bool
    requires at { node + width form ≤ length (words_in words.now) }
    requires inside { place < room form }
    ensures { IsTrue result ↔ (taken_in form (node_in words.now node) place ≡ 1) }
{
    match room_of(form) {
        4 => has_bit(words.word(node, 2), 32 + place),
        16 => has_bit(words.word(node, 4), place),
        48 => has_bit(words.word(node, 8), place),
        _ => is_taken_wide(words, node, form, place),
    }
}

/// Whether a place of a node of 256 is taken.
fn is_taken_wide(words: &Words, node: usize, form: u64, place: usize) -> bool
    requires at { node + width form ≤ length (words_in words.now) }
    requires inside { (place < 256) × (room form ≡ 256) }
    ensures { IsTrue result ↔ (taken_in form (node_in words.now node) place ≡ 1) }
{
    if form < 5 {
        has_child(words.word(node, 8 + 2 * place))
    } else {
        has_bit(words.word(node, 2 + place / 64), place % 64)
    }
}

/// The byte of a place.
fn byte_of_place(words: &Words, node: usize, form: u64, place: usize) -> u8
    requires at { node + width form ≤ length (words_in words.now) }
    requires inside { place < room form }
    ensures { result ≡ byte_in form (node_in words.now node) place }
{
    if room_of(form) == 256 {
        place as u8
    } else {
        byte_at(words.word(node, 2 + place / 8), place % 8)
    }
}

/// What a place holds.
fn item_at(words: &Words, node: usize, form: u64, place: usize) -> Option<Item>
    requires at { node + width form ≤ length (words_in words.now) }
    requires inside { place < room form }
    ensures { MatchOption result (taken_in form (node_in words.now node) place ≢ 1) (λ e. IsItem form (node_in words.now node) place e) }
{
    if is_taken(words, node, form, place) {
        let byte = byte_of_place(words, node, form, place);
        let first = words.word(node, first_at(form, place));
        let last = words.word(node, last_at(form, place));
        Some(Item { byte, first, last })
    } else {
        None
    }
}

/// Of the items with no lower byte than `from` the one with the lowest, where `least` is it without this one.
fn lower_of_two(least: Option<Item>, item: Item, from: u8) -> Option<Item>
    ensures { (form : ℕ) (w : ℕ → ℕ) (i : ℕ) → i < room form → IsItem form w i item → IsLeast form w from i least → IsLeast form w from (i + 1) result }
{
    if item.byte < from {
        return least;
    }
    match least {
        Some(other) => {
            if other.byte < item.byte {
                Some(other)
            } else {
                Some(item)
            }
        }
        None => Some(item),
    }
}

/// The same with what one more place has.
fn lower(least: Option<Item>, item: Option<Item>, from: u8) -> Option<Item>
    ensures { (form : ℕ) (w : ℕ → ℕ) (i : ℕ) → i < room form → MatchOption item (taken_in form w i ≢ 1) (λ e. IsItem form w i e) → IsLeast form w from i least → IsLeast form w from (i + 1) result }
{
    match item {
        Some(new) => lower_of_two(least, new, from),
        None => least,
    }
}

/// Of the items of a node with no lower byte than `from` the one with the lowest.
pub fn least(words: &Words, node: usize, form: u64, from: u8) -> Option<Item>
    requires { node + width form ≤ length (words_in words.now) }
    ensures { IsLeast form (node_in words.now node) from (room form) result }
{
    if room_of(form) == 256 {
        return least_of_wide(words, node, form, from);
    }
    let mut least = None;
    for place in 0..room_of(form) {
        least = lower(least, item_at(words, node, form, place), from);
    }
    least
}

/// The same at a node of 256: the first item from the byte on.
fn least_of_wide(words: &Words, node: usize, form: u64, from: u8) -> Option<Item>
    requires at { node + width form ≤ length (words_in words.now) }
    requires wide { room form ≡ 256 }
    ensures { IsLeast form (node_in words.now node) from (room form) result }
{
    for place in from as usize..256 {
        if let Some(item) = item_at(words, node, form, place) {
            return Some(item);
        }
    }
    None
}
