//! The pairs that stand while a journal is replayed.
ghost use Rattle.std.specs.Prelude.{◌≡◌, ℕ, IfOk, OnOk};
ghost use Rattle.std.specs.Coded.{coded_ℕ};
ghost use Rattle.std.specs.FinMap as map;
ghost use Rattle.std.specs.Ordering.{nat_cmp};
ghost use Rattle.judge.specs.Answer.{set_at};

use std::alloc::{AllocError, Global};
use std::collections::BTreeMap;
use std::marker::Model;

/// Pairs of a key and a value, seen as a finite map.
#[derive(Drop)]
pub struct Standing {
    kept: BTreeMap<u64, u64>,
}

impl Model for Standing {
    ghost Value = { map.FinMap nat_cmp ℕ };

    ghost coded = { map.code coded_ℕ coded_ℕ };

    ghost view = { λ s. map.from_entries s.kept.entries };
}

impl Standing {
    /// No pairs.
    pub fn new(alloc: Global) -> Self
        ensures { result ≡ map.empty }
    {
        Standing {
            kept: BTreeMap::new(alloc),
        }
    }

    /// The value at the key.
    pub fn get(&self, key: u64) -> Option<u64>
        ensures { result ≡ map.get self.now key }
    {
        self.kept.get(&key).copied()
    }

    /// Puts the value at the key, and answers the one before.
    pub fn insert(&mut self, key: u64, value: u64) -> Result<Option<u64>, AllocError>
        ensures before { IfOk result (λ before. before ≡ map.get self.old key) }
        ensures after { OnOk result (self.new ≡ map.insert self.old key value) }
    {
        Ok(self.kept.insert(key, value)?)
    }

    /// Takes the key out, and answers its value.
    pub fn remove(&mut self, key: u64) -> Option<u64>
        ensures before { result ≡ map.get self.old key }
        ensures after { self.new ≡ map.remove self.old key }
    {
        self.kept.remove(&key)
    }

    /// Puts the value at the key, or takes the key out.
    pub fn set(&mut self, key: u64, value: Option<u64>) -> Result<(), AllocError>
        ensures { OnOk result (self.new ≡ set_at self.old key value) }
    {
        match value {
            Some(value) => self.insert(key, value)?,
            None => self.remove(key),
        };
        Ok(())
    }
}
