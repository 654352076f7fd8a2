//! Bytes that rise, in an array in which a byte's place is how many are lower.
ghost use Rattle.std.specs.Prelude.{◌≡◌, ◌<◌, ◌≤◌, ℕ, [], length, get_or, MatchOption};
ghost use Rattle.std.specs.List.{insert, remove};
ghost use Rattle.congee.specs.forms.Ranks.{IsLastIn, IsOrdered, IsRising};

use std::marker::Model;

/// At most `N` bytes that rise. The places past them hold 255.
#[derive(Drop)]
pub(crate) struct Ranks<const N: usize> {
    bytes: [u8; N],
    len: u8,
}

impl<const N: usize> Model for Ranks<N> {
    ghost use Rattle.std.specs.Prelude.{ℕ, List, take};
    ghost use Rattle.std.specs.Coded.{coded_ℕ, coded_list};
    ghost use Rattle.congee.specs.forms.Ranks.{IsPadded};

    ghost Value = { List ℕ };

    ghost coded = { coded_list coded_ℕ };

    ghost view = { λ r. take r.len r.bytes };

    ghost invariant = { λ r. IsPadded N r.bytes r.len };
}

// The first place whose byte is at least this one, looked for from the front.
#[inline(always)]
fn walk_to<const N: usize>(bytes: &[u8; N], byte: u8) -> usize
    ensures within { result ≤ N }
    ensures below { (i : ℕ) → i < result → get_or bytes.now i 0 < byte }
    ensures at { result < N → byte ≤ get_or bytes.now result 0 }
{
    for place in 0..N {
        if bytes[place] >= byte {
            return place;
        }
    }
    N
}

// The same, as the number of lower bytes. It has no branch that depends on them.
#[inline(always)]
fn count_lower<const N: usize>(bytes: &[u8; N], byte: u8) -> usize
    requires narrow { N < 256 }
    requires ordered { IsOrdered bytes.now }
    ensures within { result ≤ N }
    ensures below { (i : ℕ) → i < result → get_or bytes.now i 0 < byte }
    ensures at { result < N → byte ≤ get_or bytes.now result 0 }
{
    let mut count: u8 = 0;
    for i in 0..N {
        if bytes[i] < byte {
            count += 1;
        }
    }
    count as usize
}

// The same: a few are looked at from the front, where most searches end soon.
#[inline(always)]
fn place_in<const N: usize>(bytes: &[u8; N], byte: u8) -> usize
    requires narrow { N < 256 }
    requires ordered { IsOrdered bytes.now }
    ensures within { result ≤ N }
    ensures below { (i : ℕ) → i < result → get_or bytes.now i 0 < byte }
    ensures at { result < N → byte ≤ get_or bytes.now result 0 }
{
    if N <= 4 {
        walk_to(bytes, byte)
    } else {
        count_lower(bytes, byte)
    }
}

impl<const N: usize> Ranks<N> {
    /// No bytes.
    #[inline(always)]
    pub(crate) fn new() -> Self
        requires { N < 256 }
        ensures { result ≡ [] }
    {
        Ranks {
            bytes: [255; N],
            len: 0,
        }
    }

    /// How many there are.
    #[inline(always)]
    pub(crate) fn len(&self) -> usize
        ensures count { result ≡ length self.now }
        ensures fits { result ≤ N }
    {
        self.len as usize
    }

    /// The byte in a place.
    #[inline(always)]
    pub(crate) fn at(&self, place: usize) -> u8
        requires { place < length self.now }
        ensures { result ≡ get_or self.now place 0 }
    {
        self.bytes[place]
    }

    /// The place of the first byte that is at least this one.
    #[inline(always)]
    pub(crate) fn place_of(&self, byte: u8) -> usize
        requires { IsRising self.now }
        ensures fits { length self.now ≤ N }
        ensures within { result ≤ length self.now }
        ensures below { (i : ℕ) → i < result → get_or self.now i 0 < byte }
        ensures at { result < length self.now → byte ≤ get_or self.now result 0 }
    {
        place_in(&self.bytes, byte)
    }

    /// The greatest byte below `end`.
    #[inline(always)]
    pub(crate) fn last_below(&self, end: usize) -> Option<u8>
        requires rising { IsRising self.now }
        requires bytes { (i : ℕ) → get_or self.now i 0 < 256 }
        ensures { MatchOption result (0 < length self.now → end ≤ get_or self.now 0 0) (IsLastIn self.now end) }
    {
        let place = if end > 255 {
            self.len()
        } else {
            self.place_of(end as u8)
        };
        if place == 0 {
            return None;
        }
        Some(self.at(place - 1))
    }

    /// Puts a byte into a place, and moves those from there on up.
    #[inline(always)]
    pub(crate) fn insert(&mut self, place: usize, byte: u8)
        requires within { place ≤ length self.old }
        requires room { length self.old < N }
        ensures { self.new ≡ insert self.old place byte }
    {
        self.bytes.copy_within(place..self.len as usize, place + 1);
        self.bytes[place] = byte;
        self.len += 1;
    }

    /// Takes the byte out of a place, and moves those after it down.
    #[inline(always)]
    pub(crate) fn remove(&mut self, place: usize)
        requires { place < length self.old }
        ensures { self.new ≡ remove self.old place }
    {
        self.bytes.copy_within(place + 1..self.len as usize, place);
        self.len -= 1;
        self.bytes[self.len as usize] = 255;
    }
}
