//! The index of a node of 48 places: where each byte's child stands, and which places are free.
ghost use Rattle.std.specs.Prelude.{◌≡◌, ℕ, ◌+◌, ◌<◌, ◌≤◌, ◌≢◌, get_or, set, MatchOption};
ghost use Rattle.congee.specs.forms.Index.{IsIndex, place_of};

/// No child.
pub(crate) const EMPTY_MARKER: u8 = 48;

/// Where the child of each byte stands, and a list of the free places.
///
/// `free` is the first free place, and `next` has for each free place the next one.
#[derive(Drop)]
pub(crate) struct Index {
    len: u8,
    free: u8,
    places: [u8; 256],
    next: [u8; 48],
}

impl Index {
    /// Every place is free, in order.
    pub(crate) fn new() -> Self
        ensures ok { IsIndex result }
        ensures len { result.len ≡ 0 }
        ensures none { (b : ℕ) → b < 256 → place_of result b ≡ 48 }
    {
        let mut next = [0; 48];
        for place in 0..48 {
            next[place] = place as u8 + 1;
        }
        Index {
            len: 0,
            free: 0,
            places: [EMPTY_MARKER; 256],
            next,
        }
    }

    /// How many bytes have a place.
    pub(crate) fn len(&self) -> u8
        ensures { result ≡ self.now.len }
    {
        self.len
    }

    /// The place of a byte, or 48.
    pub(crate) fn place(&self, byte: u8) -> u8
        ensures { result ≡ place_of self.now byte }
    {
        self.places[byte as usize]
    }

    /// The least byte from `from` on that has a place.
    #[inline(always)]
    pub(crate) fn first_from(&self, from: usize) -> Option<u8>
        ensures { MatchOption result ((b : ℕ) → from ≤ b → b < 256 → place_of self.now b ≡ 48)
            (λ r. (from ≤ r) × (place_of self.now r ≢ 48) × ((b : ℕ) → from ≤ b → b < r → place_of self.now b ≡ 48)) }
    {
        for byte in from..256 {
            if self.places[byte] != EMPTY_MARKER {
                return Some(byte as u8);
            }
        }
        None
    }

    /// The greatest byte below `end` that has a place.
    #[inline(always)]
    pub(crate) fn last_below(&self, end: usize) -> Option<u8>
        requires { end ≤ 256 }
        ensures { MatchOption result ((b : ℕ) → b < end → place_of self.now b ≡ 48)
            (λ r. (r < end) × (place_of self.now r ≢ 48) × ((b : ℕ) → r < b → b < end → place_of self.now b ≡ 48)) }
    {
        let mut past = end;
        while past > 0 {
            past -= 1;
            if self.places[past] != EMPTY_MARKER {
                return Some(past as u8);
            }
        }
        None
    }

    /// Gives the first free place to a byte that has none.
    pub(crate) fn insert(&mut self, byte: u8) -> u8
        requires ok { IsIndex self.old }
        requires absent { place_of self.old byte ≡ 48 }
        requires room { self.old.len < 48 }
        ensures within { result < 48 }
        ensures places { self.new.places ≡ set self.old.places byte result }
        ensures fresh { (b : ℕ) → b < 256 → place_of self.old b ≢ result }
        ensures ok { IsIndex self.new }
        ensures len { self.new.len ≡ self.old.len + 1 }
    {
        let place = self.free;
        self.free = self.next[place as usize];
        self.places[byte as usize] = place;
        self.len += 1;
        place
    }

    /// Takes the place of a byte away: it is the first free place then.
    pub(crate) fn remove(&mut self, byte: u8) -> u8
        requires ok { IsIndex self.old }
        requires present { place_of self.old byte < 48 }
        requires some { 0 < self.old.len }
        ensures place { result ≡ place_of self.old byte }
        ensures places { self.new.places ≡ set self.old.places byte 48 }
        ensures ok { IsIndex self.new }
        ensures len { self.new.len + 1 ≡ self.old.len }
    {
        let place = self.places[byte as usize];
        self.next[place as usize] = self.free;
        self.free = place;
        self.places[byte as usize] = EMPTY_MARKER;
        self.len -= 1;
        place
    }
}
