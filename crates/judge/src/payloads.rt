//! The values that a map may hold.
ghost use Rattle.std.specs.Prelude.{◌≡◌, Bool, true, false, IfSome, IsSome};
ghost use Rattle.std.specs.Arc.{arc_value};

use std::alloc::Global;
use std::marker::Model;
use std::ops::Deref;
use std::sync::Arc;

/// A value that a map may hold: a word, or an owner of a shared value.
pub trait Payload: Drop {
    /// Whether every copy succeeds.
    ghost always_copies: { Bool };

    /// Whether two values are known to be equal.
    ghost same_as: { Self → Self → Bool };

    /// An equal value, or `None` where no more owners can be counted.
    fn copy(&self) -> Option<Self>
        ensures equal { IfSome result (λ copied. copied ≡ self.now) }
        ensures always { always_copies ≡ true → IsSome result };

    /// Whether the two are known to be equal.
    fn same(&self, other: &Self) -> bool
        ensures { result ≡ same_as self.now other.now };

    ghost same_is_equal: { (v w : Self) → same_as v w ≡ true → v ≡ w };
}

impl Payload for u64 {
    ghost use Rattle.std.specs.Prelude.{nat_eq};
    ghost use Rattle.std.proofs.Common.{rules};

    ghost always_copies = { true };

    ghost same_as = { nat_eq };

    ghost same_is_equal = { Prim.search rules };

    fn copy(&self) -> Option<u64> {
        Some(*self)
    }

    fn same(&self, other: &u64) -> bool {
        *self == *other
    }
}

/// An owner of a shared value, seen as that value.
#[derive(Drop)]
pub struct ArcPayload<V> {
    owner: Arc<V, Global>,
}

impl<V> Model for ArcPayload<V> {
    ghost Value = { V };

    ghost view = { λ p. arc_value p.owner };
}

impl<V> ArcPayload<V> {
    /// Makes the owner a payload.
    pub fn new(owner: Arc<V, Global>) -> Self
        ensures { result ≡ arc_value owner }
    {
        ArcPayload { owner }
    }

    /// The value, lent.
    pub fn value(&self) -> &V
        ensures { result.now ≡ self.now }
    {
        Deref::deref(&self.owner)
    }

    /// Gives the owner back.
    pub fn into_arc(self) -> Arc<V, Global>
        ensures { arc_value result ≡ self }
    {
        let ArcPayload { owner } = self;
        owner
    }
}

impl<V: Drop> Payload for ArcPayload<V> {
    ghost always_copies = { false };

    ghost same_as = { λ _ _. false };

    ghost same_is_equal = { λ v w e. Prim.cc };

    fn copy(&self) -> Option<Self> {
        match Arc::try_clone(&self.owner) {
            Ok(owner) => Some(ArcPayload { owner }),
            Err(_) => None,
        }
    }

    fn same(&self, _other: &Self) -> bool {
        false
    }
}
