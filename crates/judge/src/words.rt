//! Keys and values that are eight bytes.
ghost use Rattle.std.specs.Prelude.{◌≡◌, ℕ, ◌<◌, ◌↔◌, refl};
ghost use Rattle.std.specs.Option.{option_map};
ghost use Rattle.std.specs.declared.cmp.Ordering.TheVariants.{Less};

use std::cmp::Ord;

mod kinds;

/// A key or a value that is as good as a 64-bit number: of each one that there can be, the number gives it back.
pub trait Word64: Drop {
    /// The number of a value.
    ghost word: { Self → ℕ };

    /// The value of a number.
    ghost of_word: { ℕ → Self };

    /// There can be such a value: a number in it is one of its type.
    ghost fits: { Self → Type 0 };

    /// The number that stands for the value.
    fn to_word(&self) -> u64
        ensures number { result ≡ word self.now }
        ensures fits { fits self.now };

    /// The value that a number stands for. Of a number that stands for none it may be any.
    fn from_word(n: u64) -> Self
        ensures { result ≡ of_word n };

    ghost comes_back: { (k : Self) → fits k → of_word (word k) ≡ k };
}

/// A key whose words stand in the keys' own order, so that a tree's pairs stand in it too.
pub trait Ordered64: Word64 + Ord {
    ghost in_order: { (a b : Self) → Self.fits a → Self.fits b → (Self.cmp a b ≡ Less) ↔ (Self.word a < Self.word b) };
}

/// The value of a number, if there is one.
pub fn word_of<V: Word64>(number: Option<u64>) -> Option<V>
    ensures { result ≡ option_map V.of_word number }
{
    match number {
        Some(number) => Some(V::from_word(number)),
        None => None,
    }
}

/// The number of a value, if there is one.
pub fn number_of<V: Word64>(value: &Option<V>) -> Option<u64>
    ensures { result ≡ option_map V.word value.now }
{
    match value {
        Some(value) => Some(value.to_word()),
        None => None,
    }
}
