//! What comes in with an allocator.

ghost use Rattle.std.specs.Prelude.{◌≡◌, ◌↔◌, IsTrue};

use congee::Allocator;

/// What an allocator had charged when it came in, and the most that it may charge, in bytes.
#[derive(Clone, Copy, Debug, PartialEq, Eq)]
pub(crate) struct Account {
    pub(crate) charged: u64,
    pub(crate) limit: u64,
}

impl Account {
    /// Of an allocator as it stands.
    pub(crate) fn of<A: Allocator>(allocator: &A) -> Self
        ensures { result ≡ record { charged = A.charged_of allocator.now; limit = A.limit_of allocator.now } }
    {
        Account {
            charged: allocator.charged(),
            limit: allocator.limit(),
        }
    }

    /// Whether it is the same as another.
    pub(crate) fn is_same(self, other: Account) -> bool
        ensures { IsTrue result ↔ (self ≡ other) }
    {
        self.charged == other.charged && self.limit == other.limit
    }
}
