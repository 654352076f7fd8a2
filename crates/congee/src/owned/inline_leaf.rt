//! A leaf with one value, and its key.
ghost use Rattle.std.specs.Prelude.{◌≡◌, ◌<◌, ℕ, length, true, take, slice_index};
ghost use Rattle.congee.specs.Heap.{fits};
ghost use Rattle.congee.specs.Keys.{key_bytes};
ghost use Rattle.congee.specs.declared.keys.TheConstants.{KEY_BYTES};
ghost use Rattle.congee.specs.declared.forms.prefix.TheConstants.{MAX_PREFIX_LEN};

use crate::forms::prefix::MAX_PREFIX_LEN;
use crate::keys::{KEY_BYTES, key_of_bytes};

/// A leaf with one value, in the place of its parent that it hangs in.
#[derive(Drop)]
pub(crate) struct Lone<P> {
    pub(crate) key: [u8; KEY_BYTES],
    pub(crate) value: P,
    ghost whole: { length key ≡ KEY_BYTES },
    ghost last: { slice_index key MAX_PREFIX_LEN < 256 },
}

/// The key of a leaf's pair: the leaf's prefix, and the last byte.
#[inline(always)]
pub(crate) fn key_from(prefix: &[u8], last: u8) -> [u8; KEY_BYTES]
    requires { length prefix.now ≡ MAX_PREFIX_LEN }
    ensures bytes { (j : ℕ) → j < MAX_PREFIX_LEN → slice_index result j ≡ slice_index prefix.now j }
    ensures last { slice_index result MAX_PREFIX_LEN ≡ last }
{
    let mut key = [last; KEY_BYTES];
    for i in 0..MAX_PREFIX_LEN {
        key[i] = prefix[i];
    }
    key
}

/// The key of a leaf's pair as a number.
#[inline(always)]
pub(crate) fn key_of(prefix: &[u8], last: u8) -> u64
    requires { length prefix.now ≡ MAX_PREFIX_LEN }
    ensures begins { fits prefix.now (key_bytes result) ≡ true }
    ensures ends { slice_index (key_bytes result) MAX_PREFIX_LEN ≡ last }
{
    key_of_bytes(&key_from(prefix, last))
}

/// Whether two keys have the same leaf's prefix.
#[inline(always)]
pub(crate) fn leads(one: &[u8; KEY_BYTES], other: &[u8; KEY_BYTES]) -> bool
    ensures { result ≡ fits (take MAX_PREFIX_LEN one.now) other.now }
{
    one[..MAX_PREFIX_LEN] == other[..MAX_PREFIX_LEN]
}
