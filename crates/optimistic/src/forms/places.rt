//! The places of a node: where a byte's entry lies, and what is written where one is put in or taken out.
//!
//! The functions take words that were read, and say what they mean of any words that have these in their places.
ghost use Rattle.std.specs.Prelude.{◌≡◌, ◌≢◌, ℕ, [], ◌∷◌, ◌<◌, ◌/◌, ◌+◌, ◌*◌, ◌^◌, true, IfSome, MatchOption};
ghost use Rattle.optimistic.specs.Layout.{room};
ghost use Rattle.optimistic.specs.forms.Bytes.{byte_of, key_of, with_at, IsLowest};
ghost use Rattle.optimistic.specs.forms.Children.{is_inner, byte_in, taken_in, IsForm, Finds, IsRoom, IsFull, Same, Becomes, with_entry, without_entry, put_first};

use crate::forms::bits::{place_for, with_bit, without_bit};
use crate::forms::bytes::{place_of_forty_eight, place_of_four, place_of_sixteen, with_byte};

/// What an insertion writes beside the entry: the word that has the place's byte, and the mask.
#[derive(Clone, Copy, Drop)]
pub struct Written {
    pub keys: u64,
    pub mask: u64,
}

/// The place of a byte among four.
#[inline(always)]
pub fn find_four(word: u64, byte: u8) -> Option<usize>
    ensures lowest { IsLowest 4 (byte_of word) byte result }
    ensures inside { IfSome result (λ p. p < 4) }
    ensures finds { (form : ℕ) (w : ℕ → ℕ) → room form ≡ 4 → w 2 ≡ word → IsForm form w → Finds form w byte result }
{
    place_of_four(word, byte)
}

/// The place of a byte among sixteen.
#[inline(always)]
pub fn find_sixteen(a: u64, b: u64, byte: u8) -> Option<usize>
    ensures lowest { IsLowest 16 (key_of (a ∷ b ∷ [])) byte result }
    ensures inside { IfSome result (λ p. p < 16) }
    ensures finds { (form : ℕ) (w : ℕ → ℕ) → room form ≡ 16 → w 2 ≡ a → w 3 ≡ b → IsForm form w → Finds form w byte result }
{
    place_of_sixteen(a, b, byte)
}

/// The place of a byte among forty-eight.
#[inline(always)]
pub fn find_forty_eight(a: u64, b: u64, c: u64, d: u64, e: u64, f: u64, byte: u8) -> Option<usize>
    ensures lowest { IsLowest 48 (key_of (a ∷ b ∷ c ∷ d ∷ e ∷ f ∷ [])) byte result }
    ensures inside { IfSome result (λ p. p < 48) }
    ensures finds { (form : ℕ) (w : ℕ → ℕ) → room form ≡ 48 → w 2 ≡ a → w 3 ≡ b → w 4 ≡ c → w 5 ≡ d → w 6 ≡ e → w 7 ≡ f → IsForm form w → Finds form w byte result }
{
    place_of_forty_eight(a, b, c, d, e, f, byte)
}

/// The place for a byte among four: its own, or a free one.
#[inline(always)]
pub fn room_in_four(word: u64, byte: u8) -> Option<usize>
    requires fits { word < 2 ^ 36 }
    ensures { (form : ℕ) (w : ℕ → ℕ) → room form ≡ 4 → w 2 ≡ word → MatchOption result (IsFull form w byte) (λ p. IsRoom form w byte p) }
{
    place_for(find_four(word, byte), word >> 32, 4)
}

/// The place for a byte among sixteen.
#[inline(always)]
pub fn room_in_sixteen(a: u64, b: u64, mask: u64, byte: u8) -> Option<usize>
    requires fits { mask < 2 ^ 16 }
    ensures { (form : ℕ) (w : ℕ → ℕ) → room form ≡ 16 → w 2 ≡ a → w 3 ≡ b → w 4 ≡ mask → MatchOption result (IsFull form w byte) (λ p. IsRoom form w byte p) }
{
    place_for(find_sixteen(a, b, byte), mask, 16)
}

/// The place for a byte that has the place `found` among forty-eight, or none.
#[inline(always)]
pub fn room_in_forty_eight(found: Option<usize>, mask: u64) -> Option<usize>
    requires fits { mask < 2 ^ 48 }
    ensures { (form : ℕ) (w : ℕ → ℕ) (b : ℕ) → room form ≡ 48 → w 8 ≡ mask → IsLowest 48 (byte_in form w) b found → MatchOption result (IsFull form w b) (λ p. IsRoom form w b p) }
{
    place_for(found, mask, 48)
}

/// The word of four places after a byte was put in at its place.
#[inline(always)]
pub fn put_four(word: u64, place: usize, byte: u8) -> u64
    requires { place < 4 }
    ensures { (form : ℕ) (w w' : ℕ → ℕ) (x y : ℕ) → room form ≡ 4 → w 2 ≡ word → IsForm form w → IsRoom form w byte place → (is_inner form ≡ true → x ≢ 0)
        → Same form w' (with_at (with_entry form w place x y) 2 result) → Becomes form w w' byte (put_first form x) y }
{
    with_bit(with_byte(word, place, byte), 32 + place)
}

/// The word of four places after the entry of one was taken out.
#[inline(always)]
pub fn take_four(word: u64, place: usize) -> u64
    requires { place < 4 }
    ensures { (form : ℕ) (w w' : ℕ → ℕ) → room form ≡ 4 → w 2 ≡ word → IsForm form w → taken_in form w place ≡ 1
        → Same form w' (with_at (without_entry form w place) 2 result) → Becomes form w w' (byte_in form w place) (λ key. 0) 0 }
{
    without_bit(word, 32 + place)
}

/// A byte put in at its place among sixteen or forty-eight: `word` has the place's byte.
#[inline(always)]
pub fn put(word: u64, mask: u64, place: usize, byte: u8) -> Written
    requires { place < 64 }
    ensures sixteen { (form : ℕ) (w w' : ℕ → ℕ) (x y : ℕ) → room form ≡ 16 → w (2 + place / 8) ≡ word → w 4 ≡ mask → IsForm form w → IsRoom form w byte place → (is_inner form ≡ true → x ≢ 0)
        → Same form w' (with_at (with_at (with_entry form w place x y) (2 + place / 8) result.keys) 4 result.mask) → Becomes form w w' byte (put_first form x) y }
    ensures forty_eight { (form : ℕ) (w w' : ℕ → ℕ) (x y : ℕ) → room form ≡ 48 → w (2 + place / 8) ≡ word → w 8 ≡ mask → IsForm form w → IsRoom form w byte place → (is_inner form ≡ true → x ≢ 0)
        → Same form w' (with_at (with_at (with_entry form w place x y) (2 + place / 8) result.keys) 8 result.mask) → Becomes form w w' byte (put_first form x) y }
{
    Written {
        keys: with_byte(word, place % 8, byte),
        mask: with_bit(mask, place),
    }
}

/// The mask after the entry of a place was taken out, of sixteen or forty-eight.
#[inline(always)]
pub fn take(mask: u64, place: usize) -> u64
    requires { place < 64 }
    ensures sixteen { (form : ℕ) (w w' : ℕ → ℕ) → room form ≡ 16 → w 4 ≡ mask → IsForm form w → place < 16 → taken_in form w place ≡ 1
        → Same form w' (with_at (without_entry form w place) 4 result) → Becomes form w w' (byte_in form w place) (λ key. 0) 0 }
    ensures forty_eight { (form : ℕ) (w w' : ℕ → ℕ) → room form ≡ 48 → w 8 ≡ mask → IsForm form w → place < 48 → taken_in form w place ≡ 1
        → Same form w' (with_at (without_entry form w place) 8 result) → Becomes form w w' (byte_in form w place) (λ key. 0) 0 }
{
    without_bit(mask, place)
}
