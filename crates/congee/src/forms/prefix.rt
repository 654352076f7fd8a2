//! The bytes that lead to a node.
ghost use Rattle.std.specs.Prelude.{◌≡◌, ◌≤◌, length};
ghost use Rattle.congee.specs.Heap.{fits};

use crate::keys::KEY_BYTES;
use std::marker::Model;

/// The longest prefix, in bytes.
pub const MAX_PREFIX_LEN: usize = KEY_BYTES - 1;

/// The first bytes of every key below a node, at most seven, in one word with their number: it stands in the last place.
#[derive(Drop)]
pub(crate) struct Prefix {
    bytes: [u8; KEY_BYTES],
}

impl Model for Prefix {
    ghost use Rattle.std.specs.Prelude.{ℕ, List, take, slice_index, length, ◌≡◌, ◌≤◌, ◌<◌};
    ghost use Rattle.std.specs.Coded.{coded_ℕ, coded_list};
    ghost use Rattle.congee.specs.declared.forms.prefix.TheConstants.{MAX_PREFIX_LEN};
    ghost use Rattle.congee.specs.declared.keys.TheConstants.{KEY_BYTES};

    ghost Value = { List ℕ };

    ghost coded = { coded_list coded_ℕ };

    ghost view = { λ p. take (slice_index p.bytes MAX_PREFIX_LEN) p.bytes };

    ghost invariant = { λ p. (length p.bytes ≡ KEY_BYTES) × (slice_index p.bytes MAX_PREFIX_LEN ≤ MAX_PREFIX_LEN) × ((i : ℕ) → slice_index p.bytes i < 256) };
}

impl Prefix {
    /// A prefix of these bytes.
    pub(crate) fn new(bytes: &[u8]) -> Self
        requires fits { length bytes.now ≤ MAX_PREFIX_LEN }
        ensures { result ≡ bytes.now }
    {
        let mut word = [0; KEY_BYTES];
        for i in 0..bytes.len() {
            word[i] = bytes[i];
        }
        word[MAX_PREFIX_LEN] = bytes.len() as u8;
        Prefix { bytes: word }
    }

    /// How many bytes it has.
    #[inline(always)]
    pub(crate) fn len(&self) -> usize
        ensures count { result ≡ length self.now }
        ensures fits { result ≤ MAX_PREFIX_LEN }
    {
        self.bytes[MAX_PREFIX_LEN] as usize
    }

    /// Its bytes.
    #[inline(always)]
    pub(crate) fn as_slice(&self) -> &[u8]
        ensures bytes { result.now ≡ self.now }
        ensures fits { length result.now ≤ MAX_PREFIX_LEN }
    {
        &self.bytes[..self.len()]
    }

    /// Whether it is the beginning of the key: the two words differ in no bit of it.
    #[inline(always)]
    pub(crate) fn is_prefix_of(&self, key: &[u8; KEY_BYTES]) -> bool
        ensures { result ≡ fits self.now key.now }
    {
        let rest = 8 * (MAX_PREFIX_LEN - self.len()) as u32;
        let apart = u64::from_be_bytes(*key) ^ u64::from_be_bytes(self.bytes);
        (apart >> 8) >> rest == 0
    }
}
