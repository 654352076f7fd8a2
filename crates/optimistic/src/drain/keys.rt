//! Keys that share their first bytes.
ghost use Rattle.std.specs.Prelude.{◌≡◌, ℕ, ◌+◌, ◌-◌, ◌*◌, ◌/◌, ◌^◌, ◌<◌, ◌≤◌, ◌⊎◌, false, None, unwrap_or};
ghost use Rattle.optimistic.specs.Layout.{prefix_of};
ghost use Rattle.optimistic.specs.tree.Levels.{goes_on, pair_value};
ghost use Rattle.optimistic.specs.tree.Nexts.{IsSilent};

use crate::forms::names::{child_level, child_tag};
use crate::tree::place::Child;

/// The last of the keys that have a key's first bytes, as many as the level, and then this one.
#[inline(always)]
pub fn last_key(key: u64, level: u64, byte: u8) -> u64
    requires { level < 8 }
    ensures { result + 1 ≡ (prefix_of key level * 256 + byte + 1) * 2 ^ (56 - 8 * level) }
{
    let shift = 56 - 8 * level;
    let first_bytes = (key >> shift) / 256 * 256 + byte as u64;
    (first_bytes << shift) | ((1 << shift) - 1)
}

/// The first of the keys that have a key's first bytes, as many as the level, and then this one.
#[inline(always)]
pub fn first_key(key: u64, level: u64, byte: u8) -> u64
    requires { level < 8 }
    ensures { result ≡ (prefix_of key level * 256 + byte) * 2 ^ (56 - 8 * level) }
{
    let shift = 56 - 8 * level;
    ((key >> shift) / 256 * 256 + byte as u64) << shift
}

/// Of a child that says nothing of a key: no key before this one with the same first byte, from that key on, has a word of
/// it, or none at all if this one isn't later.
pub fn next_key(child: Child, from: u64) -> u64
    ensures { goes_on child.first child.second from ≡ false → pair_value child.first child.second from ≡ None → (k : ℕ) → from ≤ k → k / 2 ^ 56 ≡ from / 2 ^ 56
        → (k < result) ⊎ (result ≤ from) → IsSilent child.first child.second k }
{
    let tag = child_tag(child.first);
    if tag == 0 {
        return same_first_byte(child, from);
    }
    if tag < 9 {
        child.second / 256 * 256
    } else {
        same_first_byte(child, from)
    }
}

/// The key of a lone leaf, if its first byte is that of `key`.
fn same_first_byte(child: Child, key: u64) -> u64
    ensures { result ≡ key / 2 ^ 56 * 2 ^ 56 + child.first / 256 }
{
    (key >> 56 << 56) + (child.first >> 8)
}

/// The last key of which a child may say something, if it has the first byte of `key`.
pub fn last_of(child: Child, key: u64) -> u64 {
    let tag = child_tag(child.first);
    if tag == 0 {
        return same_first_byte(child, key);
    }
    if tag < 9 {
        child.second | (u64::MAX >> (8 * child_level(child.first)))
    } else {
        same_first_byte(child, key)
    }
}

/// The key behind one, if it isn't the last.
pub fn key_after(key: u64) -> Option<u64>
    ensures { unwrap_or result (2 ^ 64) ≡ key + 1 }
{
    key.checked_add(1)
}
