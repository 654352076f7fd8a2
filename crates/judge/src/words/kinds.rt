//! The eight-byte kinds of numbers, characters, pairs and bytes.
ghost use Rattle.std.specs.Prelude.{◌≡◌, ℕ, ◌*◌, ◌+◌, ◌/◌, ◌%◌, ◌^◌, ◌<◌, not, ltb, cond, FitsSigned, refl};
ghost use Rattle.std.specs.Int.{w32, w64, from_be_bytes, to_be_bytes};
ghost use Rattle.std.specs.Char.{IsScalar};
ghost use Rattle.std.proofs.Math.Nat.{mod-eq_of_lt};
ghost use Rattle.judge.specs.Words.{AreBytes, above_least, bit_of, char_of, from_least, joined};
ghost use Rattle.judge.specs.WordLemmas as kept;

use crate::words::{Ordered64, Word64};

impl Word64 for u64 {
    ghost word = { λ k. k };

    ghost of_word = { λ n. n };

    ghost fits = { λ k. Unit {0} };

    ghost comes_back = { λ k f. refl };

    fn to_word(&self) -> u64 {
        *self
    }

    fn from_word(n: u64) -> u64 {
        n
    }
}

impl Word64 for usize {
    ghost word = { λ k. k };

    ghost of_word = { λ n. n };

    ghost fits = { λ k. Unit {0} };

    ghost comes_back = { λ k f. refl };

    fn to_word(&self) -> u64 {
        *self as u64
    }

    fn from_word(n: u64) -> usize {
        n as usize
    }
}

impl Word64 for u32 {
    ghost word = { λ k. k };

    ghost of_word = { λ n. n % 2 ^ 32 };

    ghost fits = { λ k. k < 2 ^ 32 };

    ghost comes_back = { λ k f. mod-eq_of_lt f };

    fn to_word(&self) -> u64 {
        u64::from(*self)
    }

    fn from_word(n: u64) -> u32 {
        (n % (1 << 32)) as u32
    }
}

impl Word64 for u16 {
    ghost word = { λ k. k };

    ghost of_word = { λ n. n % 2 ^ 16 };

    ghost fits = { λ k. k < 2 ^ 16 };

    ghost comes_back = { λ k f. mod-eq_of_lt f };

    fn to_word(&self) -> u64 {
        u64::from(*self)
    }

    fn from_word(n: u64) -> u16 {
        (n % (1 << 16)) as u16
    }
}

impl Word64 for u8 {
    ghost word = { λ k. k };

    ghost of_word = { λ n. n % 2 ^ 8 };

    ghost fits = { λ k. k < 2 ^ 8 };

    ghost comes_back = { λ k f. mod-eq_of_lt f };

    fn to_word(&self) -> u64 {
        u64::from(*self)
    }

    fn from_word(n: u64) -> u8 {
        (n % (1 << 8)) as u8
    }
}

/// The sign's bit is flipped, so that words stand in the order of their numbers.
impl Word64 for i64 {
    ghost word = { above_least (2 ^ 63) };

    ghost of_word = { from_least (2 ^ 63) };

    ghost fits = { FitsSigned w64 };

    ghost comes_back = { kept.signed_64 };

    fn to_word(&self) -> u64 {
        self.cast_unsigned().wrapping_add(1 << 63)
    }

    fn from_word(n: u64) -> i64 {
        n.wrapping_add(1 << 63).cast_signed()
    }
}

/// The sign's bit is flipped, so that words stand in the order of their numbers.
impl Word64 for i32 {
    ghost word = { above_least (2 ^ 31) };

    ghost of_word = { λ n. from_least (2 ^ 31) (n % 2 ^ 32) };

    ghost fits = { FitsSigned w32 };

    ghost comes_back = { kept.signed_32 };

    fn to_word(&self) -> u64 {
        u64::from(self.cast_unsigned().wrapping_add(1 << 31))
    }

    fn from_word(n: u64) -> i32 {
        ((n % (1 << 32)) as u32).wrapping_add(1 << 31).cast_signed()
    }
}

impl Word64 for bool {
    ghost word = { bit_of };

    ghost of_word = { λ n. ltb 0 n };

    ghost fits = { λ k. Unit {0} };

    ghost comes_back = { λ k f. kept.bits k };

    fn to_word(&self) -> u64 {
        u64::from(*self)
    }

    fn from_word(n: u64) -> bool {
        n > 0
    }
}

/// By its code. A word that is none stands for the character of code 0.
impl Word64 for char {
    ghost word = { λ k. k };

    ghost of_word = { λ n. char_of (n % 2 ^ 32) };

    ghost fits = { IsScalar };

    ghost comes_back = { kept.chars };

    fn to_word(&self) -> u64 {
        u64::from(*self)
    }

    fn from_word(n: u64) -> char {
        match char::from_u32((n % (1 << 32)) as u32) {
            Some(c) => c,
            None => '\0',
        }
    }
}

/// The first has the higher bits, so that pairs stand by the first, and those with one first by the second.
impl Word64 for (u32, u32) {
    ghost word = { λ k. joined k.0 k.1 };

    ghost of_word = { λ n. (n / 2 ^ 32, n % 2 ^ 32) };

    ghost fits = { λ k. (k.0 < 2 ^ 32) × (k.1 < 2 ^ 32) };

    ghost comes_back = { λ k f. kept.pairs k.0 k.1 f.1 };

    fn to_word(&self) -> u64 {
        let (high, low) = *self;
        u64::from(high) * (1 << 32) + u64::from(low)
    }

    fn from_word(n: u64) -> (u32, u32) {
        ((n / (1 << 32)) as u32, (n % (1 << 32)) as u32)
    }
}

/// The first byte has the highest bits, so that words stand as the bytes do.
impl Word64 for [u8; 8] {
    ghost word = { from_be_bytes w64 };

    ghost of_word = { to_be_bytes w64 };

    ghost fits = { AreBytes };

    ghost comes_back = { kept.bytes };

    fn to_word(&self) -> u64 {
        u64::from_be_bytes(*self)
    }

    fn from_word(n: u64) -> [u8; 8] {
        n.to_be_bytes()
    }
}

impl Ordered64 for u64 {
    ghost in_order = { λ a b f g. kept.numbers_in_order a b };
}

impl Ordered64 for usize {
    ghost in_order = { λ a b f g. kept.numbers_in_order a b };
}

impl Ordered64 for u32 {
    ghost in_order = { λ a b f g. kept.numbers_in_order a b };
}

impl Ordered64 for u16 {
    ghost in_order = { λ a b f g. kept.numbers_in_order a b };
}

impl Ordered64 for u8 {
    ghost in_order = { λ a b f g. kept.numbers_in_order a b };
}

impl Ordered64 for i64 {
    ghost in_order = { kept.signed_64_in_order };
}

impl Ordered64 for i32 {
    ghost in_order = { kept.signed_32_in_order };
}

impl Ordered64 for bool {
    ghost in_order = { λ a b f g. kept.bits_in_order a b };
}

impl Ordered64 for char {
    ghost in_order = { λ a b f g. kept.numbers_in_order a b };
}

impl Ordered64 for (u32, u32) {
    ghost in_order = { λ a b f g. kept.pairs_in_order a.0 a.1 b.0 b.1 f.1 g.1 };
}

impl Ordered64 for [u8; 8] {
    ghost in_order = { kept.bytes_in_order };
}
