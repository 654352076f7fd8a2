//! The bytes at which a node may have a child, the first of them from one on, and the last up to one.
ghost use Rattle.std.specs.Prelude.{◌≡◌, ◌≢◌, ℕ, ◌+◌, ◌-◌, ◌*◌, ◌^◌, ◌<◌, ◌≤◌, get_or};
ghost use Rattle.std.specs.Int.{bit_at};
ghost use Rattle.optimistic.specs.Layout.{room};
ghost use Rattle.optimistic.specs.forms.Children.{byte_in, mask_of, taken_in, IsForm};
ghost use Rattle.optimistic.specs.forms.Gaps.{HasOnly, HasWords};
ghost use Rattle.optimistic.specs.forms.Wide.{bit_in, HasPlaces};

use crate::forms::scan::{last_in, next_byte, places_taken};

/// The first byte from `from` on whose bit is set, or 256.
#[inline(always)]
pub fn first_set(masks: &[u64; 4], from: u8) -> usize
    ensures bounds { (from ≤ result) × (result ≤ 256) }
    ensures none { (k : ℕ) → from ≤ k → k < result → bit_in masks.now k ≡ 0 }
    ensures set { result < 256 → bit_in masks.now result ≡ 1 }
{
    match next_byte(masks, from as usize) {
        Some(byte) => byte,
        None => 256,
    }
}

/// The byte behind the last up to `to` whose bit is set, or 0.
pub fn last_set(masks: &[u64; 4], to: u8) -> usize
    ensures bound { result ≤ to + 1 }
    ensures none { (k : ℕ) → result ≤ k → k < to + 1 → bit_in masks.now k ≡ 0 }
    ensures set { 0 < result → bit_in masks.now (result - 1) ≡ 1 }
{
    let mut end = to as usize + 1;
    while end > 0 {
        let word = (end - 1) / 64;
        let last = last_in(masks[word], (end - 1) % 64);
        if last > 0 {
            return word * 64 + last;
        }
        end = word * 64;
    }
    0
}

/// The bytes of a node of up to 48, by the words that have them, and its mask, and of each of them its place.
#[inline(always)]
pub fn places_among<const N: usize>(words: &[u64; N], mask: u64, places: &mut [u8; 256]) -> [u64; 4]
    requires few { N ≤ 6 }
    requires fits { mask < 2 ^ (8 * N) }
    ensures only { (form : ℕ) (w : ℕ → ℕ) → room form ≢ 256 → room form ≤ 8 * N → HasWords words.now w → mask_of form w ≡ mask → IsForm form w → HasOnly form w result }
    ensures places { (form : ℕ) (w : ℕ → ℕ) → room form ≢ 256 → HasWords words.now w → mask_of form w ≡ mask → HasPlaces (byte_in form w) (taken_in form w) result places.new }
    ensures within { (b : ℕ) → b < 256 → bit_in result b ≡ 1 → bit_at mask (get_or places.new b 0) ≡ 1 }
{
    places_taken(words, mask, places)
}
