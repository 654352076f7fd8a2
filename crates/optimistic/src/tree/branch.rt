//! Where a key parts from the keys below a child.
ghost use Rattle.std.specs.Prelude.{◌≡◌, ℕ, ◌<◌, ◌⊎◌, MatchOption};
ghost use Rattle.optimistic.specs.tree.Branches.{Begins, IsBranch, HasNoBranch};

use crate::forms::names::{child_level, child_tag, common_prefix, key_byte, leaf_key};
use crate::tree::place::Child;

/// The first bytes of a key, as many as the length.
#[derive(Clone, Copy, Drop)]
pub struct Prefix {
    pub key: u64,
    pub len: u64,
}

/// A node that fits between a node and its child: its form, its level, and the child's byte there.
#[derive(Clone, Copy, Drop)]
pub struct Branch {
    pub form: u64,
    pub level: u64,
    pub byte: u8,
}

/// What the keys below a child begin with, of those with the first byte of `key`.
fn prefix_below(child: Child, key: u64) -> Option<Prefix>
    ensures { MatchOption result ((o e : ℕ) → Begins child.first child.second key o e → ⊥) (λ p. Begins child.first child.second key p.key p.len) }
{
    if child.first % 256 == 9 {
        let other = leaf_key(child.first, key);
        return Some(Prefix { key: other, len: 8 });
    }
    let tag = child_tag(child.first);
    if tag == 0 {
        return None;
    }
    if tag > 8 {
        return None;
    }
    let len = child_level(child.first);
    Some(Prefix {
        key: child.second,
        len,
    })
}

/// The form of a node where a key parts from another one's leaf, or from a node's keys.
fn branch_form(level: u64) -> u64
    ensures { (result ≡ 1) ⊎ ((result ≡ 5) × (level ≡ 7)) }
{
    if level == 7 { 5 } else { 1 }
}

/// The node that fits between a node of this level and its child on the way to a key: where the key parts from the keys
/// below the child.
pub fn find_branch(child: Child, key: u64, level: u64) -> Option<Branch>
    requires { level < 8 }
    ensures { MatchOption result (HasNoBranch child.first child.second key level) (λ r. IsBranch child.first child.second key level r.form r.level r.byte) }
{
    let Some(prefix) = prefix_below(child, key) else {
        return None;
    };
    let depth = common_prefix(key, prefix.key);
    if depth <= level {
        return None;
    }
    if depth >= prefix.len {
        return None;
    }
    Some(Branch {
        form: branch_form(depth),
        level: depth,
        byte: key_byte(prefix.key, depth),
    })
}
