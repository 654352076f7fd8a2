//! The names of nodes.
ghost use Rattle.std.specs.Prelude.{◌≡◌, ◌+◌, ◌*◌, ◌/◌, ◌%◌, Some, None, IsTrue, ◌↔◌};

use std::marker::Model;

/// Where a node lies: in a slot, or as a leaf with one value under a byte of the inner node in the slot.
#[derive(Clone, Copy, Default)]
pub(crate) struct Name {
    pub(crate) slot: usize,
    pub(crate) byte: Option<u8>,
}

impl Model for Name {
    ghost use Rattle.std.specs.Prelude.{ℕ, ◌+◌, ◌*◌, ◌/◌, ◌%◌};
    ghost use Rattle.congee.specs.owned.Naming.{offset_of, byte_of, IsByte};

    ghost Value = { ℕ };

    ghost view = { λ n. 257 * n.slot + offset_of n.byte };

    ghost invariant = { λ n. IsByte n.byte };

    ghost inverse = { λ name. record { slot = name / 257; byte = byte_of (name % 257) } };
}

impl Name {
    /// The name of the node in a slot.
    #[inline(always)]
    pub(crate) fn of(slot: usize) -> Self
        ensures { result ≡ 257 * slot }
    {
        Name { slot, byte: None }
    }

    /// The name of a leaf in the place of its parent.
    #[inline(always)]
    pub(crate) fn inline(slot: usize, byte: u8) -> Self
        ensures { result ≡ 257 * slot + (byte + 1) }
    {
        Name {
            slot,
            byte: Some(byte),
        }
    }

    /// The root's name.
    #[inline(always)]
    pub(crate) fn root() -> Self
        ensures { result ≡ 0 }
    {
        Name::of(0)
    }

    /// Whether it is the root's.
    #[inline(always)]
    pub(crate) fn is_root(&self) -> bool
        ensures { IsTrue result ↔ (self.now ≡ 0) }
    {
        self.slot == 0 && self.byte.is_none()
    }

    /// Whether it is a leaf in the place of its parent.
    #[inline(always)]
    pub(crate) fn is_inline(&self) -> bool
        ensures { IsTrue result ↔ (self.now % 257 ≡ 0 → ⊥) }
    {
        self.byte.is_some()
    }
}
