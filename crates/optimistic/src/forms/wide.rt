//! Nodes of 256 places: the byte is the place.
ghost use Rattle.std.specs.Prelude.{◌≡◌, ◌≢◌, ◌↔◌, ℕ, Some, ◌<◌, ◌/◌, ◌+◌, ◌*◌, IsTrue};
ghost use Rattle.optimistic.specs.forms.Bytes.{with_at};
ghost use Rattle.optimistic.specs.forms.Wide.{is_child};
ghost use Rattle.optimistic.specs.forms.Children.{taken_in, first_word, Finds, Same, Becomes, with_entry, without_entry, put_first};

use crate::forms::bits::{has_bit, with_bit, without_bit};

/// The place of a byte. Of children, word 2 tells how many there are.
#[inline(always)]
pub fn place_of_byte(byte: u8) -> usize
    ensures place { result ≡ byte }
    ensures small { result < 256 }
    ensures finds { (w : ℕ → ℕ) → Finds 4 w byte (Some result) }
    ensures values { (w : ℕ → ℕ) → Finds 8 w byte (Some result) }
    ensures put { (w w' : ℕ → ℕ) (x y n : ℕ) → x ≢ 0 → Same 4 w' (with_at (with_entry 4 w result x y) 2 n) → Becomes 4 w w' byte (put_first 4 x) y }
    ensures take { (w w' : ℕ → ℕ) (n : ℕ) → w (first_word 4 result) ≢ 0 → Same 4 w' (with_at (without_entry 4 w result) 2 n) → Becomes 4 w w' byte (λ key. 0) 0 }
{
    byte as usize
}

/// One child more. How many there are is a hint.
#[inline(always)]
pub fn one_more(count: u64) -> u64 {
    count.wrapping_add(1)
}

/// One child fewer.
#[inline(always)]
pub fn one_fewer(count: u64) -> u64 {
    count.wrapping_sub(1)
}

/// Whether a child word is of a child.
#[inline(always)]
pub fn has_child(word: u64) -> bool
    ensures { IsTrue result ↔ (is_child (λ i. word) 0 ≡ 1) }
{
    if word == 0 { false } else { true }
}

/// Whether a byte has a value, by the word that has its bit.
#[inline(always)]
pub fn has_byte(mask: u64, byte: u8) -> bool
    ensures { (w : ℕ → ℕ) → w (2 + byte / 64) ≡ mask → IsTrue result ↔ (taken_in 8 w byte ≡ 1) }
{
    has_bit(mask, byte as usize % 64)
}

/// The word after a byte was put in.
#[inline(always)]
pub fn put_byte(mask: u64, byte: u8) -> u64
    ensures { (w w' : ℕ → ℕ) (x y : ℕ) → w (2 + byte / 64) ≡ mask → Same 8 w' (with_at (with_entry 8 w byte x y) (2 + byte / 64) result) → Becomes 8 w w' byte (put_first 8 x) y }
{
    with_bit(mask, byte as usize % 64)
}

/// The word after a byte was taken out.
#[inline(always)]
pub fn take_byte(mask: u64, byte: u8) -> u64
    ensures { (w w' : ℕ → ℕ) → w (2 + byte / 64) ≡ mask → taken_in 8 w byte ≡ 1 → Same 8 w' (with_at w (2 + byte / 64) result) → Becomes 8 w w' byte (λ key. 0) 0 }
{
    without_bit(mask, byte as usize % 64)
}
