//! The pairs that a scan tells.
ghost use Rattle.std.specs.Prelude.{◌≡◌, ◌++◌, ◌∷◌, [], OnOk, length, take};
ghost use Rattle.congee.specs.protocol.Scans.{written};
ghost use Rattle.trial.specs.Texts.{pairs_text};

use std::alloc::{AllocError, Global};
use std::fmt;
use std::marker::Model;

/// The places that a scan fills, each with the pair of a key and a value that was told for it last.
#[derive(Drop)]
pub struct Places {
    pairs: Vec<(u64, u64)>,
}

impl Model for Places {
    ghost use Rattle.std.specs.Prelude.{ℕ, List};

    ghost Value = { List (ℕ × ℕ) };

    ghost view = { λ p. p.pairs.items };
}

impl Places {
    /// None is filled.
    pub fn new(alloc: Global) -> Places
        ensures { result ≡ [] }
    {
        Places {
            pairs: Vec::new(alloc),
        }
    }

    /// How many are filled.
    pub fn len(&self) -> usize
        ensures { result ≡ length self.now }
    {
        self.pairs.len()
    }

    /// The pairs, in their places.
    pub fn as_slice(&self) -> &[(u64, u64)]
        ensures { result.now ≡ self.now }
    {
        &self.pairs
    }

    /// Fills a place anew, or the next one where the place is past those that are filled.
    pub fn fill(&mut self, place: usize, key: u64, value: u64) -> Result<(), AllocError>
        ensures ok { OnOk result (self.new ≡ written self.old place (key, value)) }
    {
        if place < self.pairs.len() {
            self.pairs[place] = (key, value);
        } else {
            self.pairs.push((key, value))?;
        }
        Ok(())
    }

    /// Fills the next place.
    pub fn add(&mut self, key: u64, value: u64) -> Result<(), AllocError>
        ensures ok { OnOk result (self.new ≡ self.old ++ (key, value) ∷ []) }
    {
        self.pairs.push((key, value))?;
        Ok(())
    }

    /// The first places alone.
    pub fn first(self, count: usize) -> Places
        ensures { result ≡ take count self }
    {
        let Places { mut pairs } = self;
        pairs.truncate(count);
        Places { pairs }
    }

    /// Empties each.
    pub fn clear(&mut self)
        ensures { self.new ≡ [] }
    {
        self.pairs.clear();
    }
}

impl fmt::Display for Places {
    ghost use Rattle.std.specs.Prelude.{Some};

    ghost output = { λ p. Some (pairs_text p) };

    fn fmt<W: fmt::Write>(&self, f: &mut fmt::Formatter<W>) -> fmt::Result {
        for (key, value) in &self.pairs {
            write!(f, " {key}:{value}")?;
        }
        Ok(())
    }
}
