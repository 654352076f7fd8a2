//! Masks of taken places.
ghost use Rattle.std.specs.Prelude.{◌≡◌, ◌≢◌, ◌↔◌, ℕ, ◌<◌, ◌≤◌, ◌^◌, IsTrue, MatchOption};
ghost use Rattle.std.specs.Int.{bit_at};
ghost use Rattle.std.specs.FinMap as map;
ghost use Rattle.optimistic.specs.forms.Bytes.{with_at, IsLowest, HasNone};
ghost use Rattle.optimistic.specs.forms.Held.{held, IsNode, IsPlaceFor};

/// Whether a place is taken.
#[inline(always)]
pub fn has_bit(mask: u64, place: usize) -> bool
    requires { place < 64 }
    ensures { IsTrue result ↔ (bit_at mask place ≡ 1) }
{
    (mask >> place) & 1 == 1
}

/// The mask with a place taken.
#[inline(always)]
pub fn with_bit(mask: u64, place: usize) -> u64
    requires { place < 64 }
    ensures { (q : ℕ) → bit_at result q ≡ with_at (bit_at mask) place 1 q }
{
    mask | 1 << place
}

/// The mask without a place.
#[inline(always)]
pub fn without_bit(mask: u64, place: usize) -> u64
    requires { place < 64 }
    ensures bits { (q : ℕ) → bit_at result q ≡ with_at (bit_at mask) place 0 q }
    ensures smaller { bit_at mask place ≡ 1 → result < mask }
{
    mask & !(1 << place)
}

/// The lowest place that isn't taken.
#[inline(always)]
pub fn free_place(mask: u64, places: usize) -> Option<usize>
    requires few { places < 64 }
    requires fits { mask < 2 ^ places }
    ensures { MatchOption result ((i : ℕ) → i < places → bit_at mask i ≡ 1) (λ p. (p < places) × (bit_at mask p ≡ 0)) }
{
    let place = mask.trailing_ones() as usize;
    if place < places { Some(place) } else { None }
}

/// The place for a byte: where it was found, or else a free one.
#[inline(always)]
pub fn place_for(found: Option<usize>, mask: u64, places: usize) -> Option<usize>
    requires few { places < 64 }
    requires fits { mask < 2 ^ places }
    ensures { (key : ℕ → ℕ) (b : ℕ) → IsLowest places key b found →
        MatchOption result (HasNone places key b × ((i : ℕ) → i < places → bit_at mask i ≡ 1)) (λ p. IsPlaceFor places key (bit_at mask) b p) }
{
    match found {
        Some(place) => Some(place),
        None => free_place(mask, places),
    }
}

/// Whether all places are taken.
#[inline(always)]
pub fn is_full(mask: u64, places: usize) -> bool
    requires few { places < 64 }
    requires fits { mask < 2 ^ places }
    ensures taken { IsTrue result ↔ ((i : ℕ) → i < places → bit_at mask i ≡ 1) }
    ensures len { (key word : ℕ → ℕ) → IsTrue result → IsNode key (bit_at mask) places → map.len (held key (bit_at mask) word places) ≡ places }
{
    match free_place(mask, places) {
        Some(_) => false,
        None => true,
    }
}

/// How many places are taken.
#[inline(always)]
pub fn count(mask: u64) -> u32
    ensures { (n : ℕ) (key word : ℕ → ℕ) → mask < 2 ^ n → IsNode key (bit_at mask) n → map.len (held key (bit_at mask) word n) ≡ result }
{
    mask.count_ones()
}

/// The lowest bit that is set.
#[inline(always)]
pub fn lowest(mask: u64) -> usize
    requires { mask ≢ 0 }
    ensures bound { result < 64 }
    ensures set { bit_at mask result ≡ 1 }
    ensures below { (k : ℕ) → k < result → bit_at mask k ≡ 0 }
{
    mask.trailing_zeros() as usize
}
