//! All keys of a tree.
ghost use Rattle.std.specs.Prelude.{◌≡◌};
ghost use Rattle.std.specs.List.{flat_map};
ghost use Rattle.trial.specs.Texts.{spaced};

use std::fmt;
use std::marker::Model;
use std::vec::Vec;

/// Keys, in ascending order.
#[derive(Drop)]
pub struct Keys {
    keys: Vec<u64>,
}

impl Model for Keys {
    ghost use Rattle.std.specs.Prelude.{ℕ, List};

    ghost Value = { List ℕ };

    ghost view = { λ k. k.keys.items };
}

impl Keys {
    /// Of these numbers.
    pub fn new(keys: Vec<u64>) -> Keys
        ensures { result ≡ keys.items }
    {
        Keys { keys }
    }

    /// The keys, in ascending order.
    pub fn as_slice(&self) -> &[u64]
        ensures { result.now ≡ self.now }
    {
        &self.keys
    }
}

impl fmt::Display for Keys {
    ghost use Rattle.std.specs.Prelude.{Some};

    ghost output = { λ k. Some (flat_map spaced k) };

    fn fmt<W: fmt::Write>(&self, f: &mut fmt::Formatter<W>) -> fmt::Result {
        for key in &self.keys {
            write!(f, " {key}")?;
        }
        Ok(())
    }
}
