//! Where a version of a row stands, and what it says.
ghost use Rattle.std.specs.Prelude.{◌≡◌, ℕ, ◌/◌, ◌%◌, ◌^◌, ◌<◌, IfSome};
ghost use Rattle.std.proofs.Common.{ap};
ghost use Rattle.judge.specs.Words.{joined};
ghost use Rattle.judge.specs.WordLemmas.{pairs, pairs_in_order};
ghost use Rattle.trial.specs.Versions.{value_in, word_in};
ghost use Rattle.trial.specs.VersionWords.{value_back};

use congee::{Ordered64, Word64};

/// The key of a version: its row, and the stamp of the write that made it. Versions stand by their rows, those of one by their stamps.
#[derive(Clone, Copy, PartialEq, Eq, PartialOrd, Ord, Debug)]
pub struct Version {
    pub row: u32,
    pub stamp: u32,
}

impl Word64 for Version {
    ghost word = { λ v. joined v.row v.stamp };

    ghost of_word = { λ n. record { row = n / 2 ^ 32; stamp = n % 2 ^ 32 } };

    ghost fits = { λ v. (v.row < 2 ^ 32) × (v.stamp < 2 ^ 32) };

    ghost comes_back = { λ v f. ap (λ p. record { row = p.0; stamp = p.1 }) (pairs v.row v.stamp f.1) };

    fn to_word(&self) -> u64 {
        u64::from(self.row) * (1 << 32) + u64::from(self.stamp)
    }

    fn from_word(n: u64) -> Version {
        Version {
            row: (n / (1 << 32)) as u32,
            stamp: (n % (1 << 32)) as u32,
        }
    }
}

impl Ordered64 for Version {
    ghost in_order = { λ a b f g. pairs_in_order a.row a.stamp b.row b.stamp f.1 g.1 };
}

/// What a version says: the value that was written, or none where the row was deleted.
#[derive(Clone, Copy, PartialEq, Eq, Debug)]
pub struct Written {
    pub value: Option<u32>,
}

impl Word64 for Written {
    ghost word = { λ w. word_in w.value };

    ghost of_word = { λ n. record { value = value_in n } };

    ghost fits = { λ w. IfSome w.value (λ n. n < 2 ^ 32) };

    ghost comes_back = { λ w f. ap (λ v. record { value = v }) (value_back w.value f) };

    fn to_word(&self) -> u64 {
        match self.value {
            Some(value) => u64::from(value) + 1,
            None => 0,
        }
    }

    fn from_word(n: u64) -> Written {
        let value = if n == 0 {
            None
        } else {
            Some(((n - 1) % (1 << 32)) as u32)
        };
        Written { value }
    }
}
