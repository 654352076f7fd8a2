//! The budget of a tree: the bytes of its nodes, counted against a limit.
ghost use Rattle.std.specs.Prelude.{◌≡◌, ◌+◌, ◌-◌, ◌^◌, ◌<◌, ◌≤◌, OnOk, OnErr, IfErr};

use std::alloc::{AllocError, AllocFailed};
use thiserror::Error;

/// Why a node can't be made.
#[derive(Clone, Copy, PartialEq, Eq, Debug, Drop, Error)]
#[error("Allocator is out of memory!")]
pub enum OOMError {
    /// `wanted` more bytes than the `charged` ones would pass the limit of the budget.
    Budget {
        charged: u64,
        wanted: u64,
        limit: u64,
    },
    /// The machine refused the memory itself.
    Memory,
}

impl From<AllocError> for OOMError {
    ghost use Rattle.congee.specs.declared.allocator.OOMError.TheVariants.{Memory};

    ghost from_gives = { λ _ e. e ≡ Memory };

    fn from(_error: AllocError) -> Self {
        OOMError::Memory
    }
}

impl<T: Drop> From<AllocFailed<T>> for OOMError {
    ghost use Rattle.congee.specs.declared.allocator.OOMError.TheVariants.{Memory};

    ghost from_gives = { λ _ e. e ≡ Memory };

    fn from(_failed: AllocFailed<T>) -> Self {
        OOMError::from(AllocError)
    }
}

/// Counts the bytes of nodes against a limit.
pub trait Allocator: Drop {
    ghost use Rattle.std.specs.Prelude.{ℕ, ◌≡◌, ◌+◌, ◌<◌, ◌≤◌, OnOk, OnErr, IfErr};
    ghost use Rattle.congee.specs.declared.allocator.OOMError.TheVariants.{Budget};

    /// The bytes charged.
    ghost charged_of: { Self → ℕ };

    /// The bytes that may be charged.
    ghost limit_of: { Self → ℕ };

    /// Charges `size` bytes, or refuses them where they would pass the limit.
    fn allocate(&mut self, size: u64) -> Result<(), OOMError>
        ensures ok { OnOk result (charged_of self.new ≡ charged_of self.old + size) }
        ensures fits { OnOk result (charged_of self.old + size ≤ limit_of self.old) }
        ensures limit { OnOk result (limit_of self.new ≡ limit_of self.old) }
        ensures refused { IfErr result (λ e. (limit_of self.old < charged_of self.old + size) × (e ≡ Budget (charged_of self.old) size (limit_of self.old))) }
        ensures unchanged { OnErr result (self.new ≡ self.old) };

    /// Takes `size` bytes off the charge.
    fn deallocate(&mut self, size: u64)
        requires { size ≤ charged_of self.old }
        ensures charged { charged_of self.new + size ≡ charged_of self.old }
        ensures limit { limit_of self.new ≡ limit_of self.old };

    /// The bytes charged.
    fn charged(&self) -> u64
        ensures { result ≡ charged_of self.now };

    /// The bytes that may be charged.
    fn limit(&self) -> u64
        ensures { result ≡ limit_of self.now };
}

/// Charges the bytes where they stay within the limit.
fn charge(charged: &mut u64, size: u64, limit: u64) -> Result<(), OOMError>
    ensures ok { OnOk result (charged.new ≡ charged.old + size) }
    ensures fits { OnOk result (charged.old + size ≤ limit) }
    ensures refused { IfErr result (λ e. (limit < charged.old + size) × (e ≡ OOMError.Budget charged.old size limit)) }
    ensures unchanged { OnErr result (charged.new ≡ charged.old) }
{
    match charged.checked_add(size) {
        Some(sum) if sum <= limit => {
            *charged = sum;
            Ok(())
        }
        _ => Err(OOMError::Budget {
            charged: *charged,
            wanted: size,
            limit,
        }),
    }
}

/// The budget whose limit is `u64::MAX`.
#[derive(Debug, Drop)]
pub struct DefaultAllocator {
    charged: u64,
}

impl DefaultAllocator {
    /// Nothing charged.
    pub fn new() -> Self
        ensures charged { ⟦<DefaultAllocator as Allocator>⟧.charged_of result ≡ 0 }
        ensures limit { ⟦<DefaultAllocator as Allocator>⟧.limit_of result ≡ u64.MAX }
    {
        DefaultAllocator { charged: 0 }
    }
}

impl Allocator for DefaultAllocator {
    ghost charged_of = { λ a. a.charged };

    ghost limit_of = { λ _. 2 ^ 64 - 1 };

    fn allocate(&mut self, size: u64) -> Result<(), OOMError> {
        charge(&mut self.charged, size, u64::MAX)
    }

    fn deallocate(&mut self, size: u64) {
        self.charged -= size;
    }

    fn charged(&self) -> u64 {
        self.charged
    }

    fn limit(&self) -> u64 {
        u64::MAX
    }
}

/// The budget of a limit of one's own.
#[derive(Debug, Drop)]
pub struct Limited {
    charged: u64,
    limit: u64,
}

impl Limited {
    /// Nothing charged of `limit` bytes.
    pub fn new(limit: u64) -> Self
        ensures charged { ⟦<Limited as Allocator>⟧.charged_of result ≡ 0 }
        ensures limit { ⟦<Limited as Allocator>⟧.limit_of result ≡ limit }
    {
        Limited { charged: 0, limit }
    }
}

impl Allocator for Limited {
    ghost charged_of = { λ a. a.charged };

    ghost limit_of = { λ a. a.limit };

    fn allocate(&mut self, size: u64) -> Result<(), OOMError> {
        charge(&mut self.charged, size, self.limit)
    }

    fn deallocate(&mut self, size: u64) {
        self.charged -= size;
    }

    fn charged(&self) -> u64 {
        self.charged
    }

    fn limit(&self) -> u64 {
        self.limit
    }
}
