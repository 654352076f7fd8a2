//! The taken bytes of a node in ascending order.
ghost use Rattle.std.specs.Prelude.{◌≡◌, ◌↔◌, ℕ, ◌+◌, ◌-◌, ◌*◌, ◌<◌, ◌≤◌, ◌/◌, ◌^◌, get_or, set, length, MatchOption, IsSome, List};
ghost use Rattle.std.specs.FinMap as map;
ghost use Rattle.optimistic.specs.forms.Held.{held, IsNode};
ghost use Rattle.std.specs.Int.{bit_at};
ghost use Rattle.optimistic.specs.forms.Bytes.{key_of};
ghost use Rattle.optimistic.specs.forms.Wide.{bit_in, IsNext, IsRest, HasPlace, HasPlaces};

use crate::forms::bits::{lowest, with_bit, without_bit};
use crate::forms::bytes::byte_at;

/// The first bit from `from` on that is set.
#[inline(always)]
pub fn next_in(mask: u64, from: usize) -> Option<usize>
    requires { from < 64 }
    ensures { MatchOption result ((k : ℕ) → from ≤ k → bit_at mask k ≡ 0) (λ p. IsNext (bit_at mask) 64 from p) }
{
    let rest = mask >> from;
    if rest == 0 {
        None
    } else {
        Some(from + lowest(rest))
    }
}

/// The bit behind the last up to `to` that is set, or 0.
#[inline(always)]
pub fn last_in(mask: u64, to: usize) -> usize
    requires { to < 64 }
    ensures bound { result ≤ to + 1 }
    ensures none { (k : ℕ) → result ≤ k → k ≤ to → bit_at mask k ≡ 0 }
    ensures set { 0 < result → bit_at mask (result - 1) ≡ 1 }
{
    let rest = mask & (u64::MAX >> (63 - to));
    64 - rest.leading_zeros() as usize
}

/// The first byte from `from` on whose bit is set in four words.
#[inline(always)]
pub fn next_byte(masks: &[u64; 4], from: usize) -> Option<usize>
    ensures { MatchOption result ((k : ℕ) → from ≤ k → k < 256 → bit_in masks.now k ≡ 0) (λ p. IsNext (bit_in masks.now) 256 from p) }
{
    let mut at = from;
    while at < 256 {
        let word = at / 64;
        match next_in(masks[word], at % 64) {
            Some(bit) => return Some(word * 64 + bit),
            None => at = (word + 1) * 64,
        }
    }
    None
}

/// The bits of four words that weren't taken yet: those of a word from a byte on, moved to the front, and the words behind it.
#[derive(Clone, Copy, Drop)]
pub struct Rest {
    pub word: usize,
    pub at: usize,
    pub bits: u64,
}

/// The bits from a byte on, by the word that has the byte's.
#[inline(always)]
fn rest_of(mask: u64, from: u8) -> Rest
    ensures { (masks : List ℕ) → get_or masks (from / 64) 0 ≡ mask → IsRest masks from result }
{
    let at = from as usize;
    Rest {
        word: at / 64,
        at,
        bits: mask >> (at % 64),
    }
}

/// The bits from a byte on.
#[inline(always)]
pub fn rest_from(masks: &[u64; 4], from: u8) -> Rest
    ensures { IsRest masks.now from result }
{
    rest_of(masks[from as usize / 64], from)
}

/// Takes the first bit that is set, and gives its byte.
#[inline(always)]
pub fn take_next(masks: &[u64; 4], rest: &mut Rest) -> Option<u8>
    requires { (from : ℕ) × IsRest masks.now from rest.old }
    ensures { (from : ℕ) → IsRest masks.now from rest.old
        → MatchOption result ((k : ℕ) → from ≤ k → k < 256 → bit_in masks.now k ≡ 0) (λ b. IsNext (bit_in masks.now) 256 from b × IsRest masks.now (b + 1) rest.new) }
{
    while rest.bits == 0 {
        if rest.word > 2 {
            return None;
        }
        rest.word += 1;
        rest.at = rest.word * 64;
        rest.bits = masks[rest.word];
    }
    let bit = lowest(rest.bits);
    let byte = rest.at + bit;
    rest.at = byte + 1;
    rest.bits = rest.bits >> bit >> 1;
    Some(byte as u8)
}

/// A bit for each byte that a taken place has, and of each of them its place.
#[inline(always)]
pub fn places_taken<const N: usize>(words: &[u64; N], mask: u64, places: &mut [u8; 256]) -> [u64; 4]
    requires few { N ≤ 6 }
    requires fits { mask < 2 ^ (8 * N) }
    ensures bytes { (b : ℕ) → b < 256 → (bit_in result b ≡ 1) ↔ HasPlace (key_of words.now) (bit_at mask) b }
    ensures places { HasPlaces (key_of words.now) (bit_at mask) result places.new }
{
    let mut masks = [0; 4];
    let mut rest = mask;
    while rest != 0 {
        let place = lowest(rest);
        let byte = byte_at(words[place / 8], place % 8) as usize;
        places[byte] = place as u8;
        masks[byte / 64] = with_bit(masks[byte / 64], byte % 64);
        rest = without_bit(rest, place);
    }
    masks
}
