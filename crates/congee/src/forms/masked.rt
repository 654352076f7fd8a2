//! Children by byte, with a mask.
ghost use Rattle.std.specs.Prelude.{◌≡◌, ◌<◌, ◌≤◌, ℕ, length, IsTrue, ◌↔◌, MatchOption, None, Some, IsSome};
ghost use Rattle.std.specs.Option.{option_copied};
ghost use Rattle.std.specs.FinMap as map;
ghost use Rattle.congee.specs.forms.Bytes.{IsFirst, IsLastBelow};
ghost use Rattle.congee.specs.forms.Mask.{bit_of, SetAt};

use arrayvec::ArrayVec;
use std::marker::Model;
use std::mem;

/// A bit for each byte: byte b has bit b mod 8 of mask byte b / 8.
#[derive(Drop)]
pub(crate) struct Mask {
    bytes: [u8; 32],
}

impl Mask {
    /// Whether the byte's bit is set.
    fn has(&self, byte: u8) -> bool
        ensures { IsTrue result ↔ (bit_of self.now.bytes byte ≡ 1) }
    {
        (self.bytes[byte as usize / 8] >> (byte as u32 % 8)) & 1 == 1
    }

    /// Sets the byte's bit.
    fn set(&mut self, byte: u8)
        requires sized { length self.old.bytes ≡ 32 }
        ensures { SetAt self.old.bytes byte 1 self.new.bytes }
    {
        self.bytes[byte as usize / 8] |= 1 << (byte as u32 % 8);
    }

    /// Clears the byte's bit.
    fn clear(&mut self, byte: u8)
        requires sized { length self.old.bytes ≡ 32 }
        ensures { SetAt self.old.bytes byte 0 self.new.bytes }
    {
        self.bytes[byte as usize / 8] &= !(1 << (byte as u32 % 8));
    }

    /// The least byte from `from` on whose bit is set.
    #[inline(always)]
    fn first_from(&self, from: usize) -> Option<u8>
        ensures { MatchOption result ((b : ℕ) → from ≤ b → b < 256 → bit_of self.now.bytes b ≡ 0)
            (λ r. (from ≤ r) × (bit_of self.now.bytes r ≡ 1) × ((b : ℕ) → from ≤ b → b < r → bit_of self.now.bytes b ≡ 0)) }
    {
        let mut byte = from;
        while byte < 256 {
            let bits = self.bytes[byte / 8];
            let rest = bits >> (byte as u32 % 8);
            if rest != 0 {
                return Some((byte + rest.trailing_zeros() as usize) as u8);
            }
            byte = (byte / 8 + 1) * 8;
        }
        None
    }

    /// The greatest byte below `end` whose bit is set.
    #[inline(always)]
    fn last_below(&self, end: usize) -> Option<u8>
        requires { end ≤ 256 }
        ensures { MatchOption result ((b : ℕ) → b < end → bit_of self.now.bytes b ≡ 0)
            (λ r. (r < end) × (bit_of self.now.bytes r ≡ 1) × ((b : ℕ) → r < b → b < end → bit_of self.now.bytes b ≡ 0)) }
    {
        let mut past = end;
        while past > 0 {
            let byte = past - 1;
            if self.bytes[byte / 8] == 0 {
                past = byte / 8 * 8;
            } else if self.has(byte as u8) {
                return Some(byte as u8);
            } else {
                past = byte;
            }
        }
        None
    }
}

/// A place for each byte.
#[derive(Drop)]
pub(crate) struct Masked<X> {
    children: ArrayVec<X, 256>,
    mask: Mask,
    len: u16,
}

impl<X> Model for Masked<X> {
    ghost use Rattle.std.specs.Ordering.{nat_cmp};
    ghost use Rattle.std.specs.FinMap as map;
    ghost use Rattle.std.specs.Coded.{coded_ℕ};
    ghost use Rattle.congee.specs.forms.Mask.{masked_map, IsMasked};

    ghost Value = { map.FinMap nat_cmp X };

    ghost coded = { map.code coded_ℕ X.code };

    ghost view = { λ s. masked_map s.mask.bytes s.children.items };

    ghost invariant = { λ s. IsMasked s.len s.mask.bytes s.children.items };
}

impl<X> Masked<X> {
    /// How many children there are.
    #[inline(always)]
    pub(crate) fn len(&self) -> usize
        ensures count { result ≡ map.len self.now }
        ensures fits { result ≤ 256 }
        ensures bytes { (b : ℕ) → IsSome (map.get self.now b) → b < 256 }
    {
        self.len as usize
    }

    /// The child of a byte.
    #[inline(always)]
    pub(crate) fn get_child(&self, byte: u8) -> Option<&X>
        ensures { option_copied result ≡ map.get self.now byte }
    {
        if self.mask.has(byte) {
            Some(&self.children.as_slice()[byte as usize])
        } else {
            None
        }
    }

    /// The child of the least byte from `from` on.
    #[inline(always)]
    pub(crate) fn first_from(&self, from: usize) -> Option<(u8, &X)>
        ensures { MatchOption result ((b : ℕ) → from ≤ b → map.get self.now b ≡ None)
            (λ r. IsFirst self.now from r.0 r.1.now) }
    {
        match self.mask.first_from(from) {
            None => None,
            Some(byte) => Some((byte, &self.children.as_slice()[byte as usize])),
        }
    }

    /// The greatest byte below `end` that has a child.
    #[inline(always)]
    pub(crate) fn last_below(&self, end: usize) -> Option<u8>
        requires { end ≤ 256 }
        ensures { IsLastBelow self.now end result }
    {
        self.mask.last_below(end)
    }
}

impl<X: Default + Drop> Masked<X> {
    /// No children.
    pub(crate) fn new() -> Self
        ensures { result ≡ map.empty }
    {
        let mut children = ArrayVec::new();
        while !children.is_full() {
            children.push(X::default());
        }
        Masked {
            children,
            mask: Mask { bytes: [0; 32] },
            len: 0,
        }
    }

    /// Adds a child under a byte that has none.
    #[inline(always)]
    pub(crate) fn insert(&mut self, byte: u8, child: X)
        requires absent { map.get self.old byte ≡ None }
        ensures { self.new ≡ map.insert self.old byte child }
    {
        self.children[byte as usize] = child;
        self.mask.set(byte);
        self.len += 1;
    }

    /// Puts another child under a byte, and gives the one before.
    #[inline(always)]
    pub(crate) fn change(&mut self, byte: u8, child: X) -> X
        requires present { IsSome (map.get self.old byte) }
        ensures before { map.get self.old byte ≡ Some result }
        ensures after { self.new ≡ map.insert self.old byte child }
    {
        mem::replace(&mut self.children[byte as usize], child)
    }

    /// Takes out the child of a byte.
    #[inline(always)]
    pub(crate) fn remove(&mut self, byte: u8) -> X
        requires present { IsSome (map.get self.old byte) }
        ensures before { map.get self.old byte ≡ Some result }
        ensures after { self.new ≡ map.remove self.old byte }
    {
        self.mask.clear(byte);
        self.len -= 1;
        mem::take(&mut self.children[byte as usize])
    }
}
