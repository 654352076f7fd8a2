//! The bytes of a key.
ghost use Rattle.std.specs.Prelude.{◌≡◌, ◌<◌, ◌^◌};
ghost use Rattle.congee.specs.Keys.{key_bytes};

use judge::Word64;

/// How many bytes a key has.
pub const KEY_BYTES: usize = 8;

/// A key's bytes, the highest first.
#[inline(always)]
pub(crate) fn bytes_of_key<K: Word64>(key: &K) -> [u8; KEY_BYTES]
    ensures bytes { result ≡ key_bytes (K.word key.now) }
    ensures small { K.word key.now < 2 ^ 64 }
{
    key.to_word().to_be_bytes()
}

/// The key of these bytes, the highest first.
#[inline(always)]
pub(crate) fn key_of_bytes(bytes: &[u8; KEY_BYTES]) -> u64
    ensures { key_bytes result ≡ bytes.now }
{
    u64::from_be_bytes(*bytes)
}
