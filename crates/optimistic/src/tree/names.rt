//! What a child says of a key.
ghost use Rattle.std.specs.Prelude.{◌≡◌, ◌≢◌, ℕ, ◌<◌, ◌≤◌, ◌%◌, true, false};
ghost use Rattle.optimistic.specs.Layout.{tag_of, level_of, node_of};
ghost use Rattle.optimistic.specs.tree.Levels.{goes_on, pair_value};

use crate::forms::names::{child_level, child_node, child_tag, leaf_word, where_word};
use crate::tree::place::{Child, Place};

/// The node that a child word names.
#[inline(always)]
pub fn place_below(first: u64) -> Place
    ensures node { result.node ≡ node_of first }
    ensures form { result.form ≡ tag_of first }
    ensures level { result.level < 8 }
    ensures same_level { result.level ≡ level_of first }
{
    Place {
        node: child_node(first),
        form: child_tag(first),
        level: child_level(first),
    }
}

/// Whether a child is a node that covers a key.
#[inline(always)]
pub fn goes_on(child: Child, key: u64) -> bool
    ensures on { result ≡ goes_on child.first child.second key }
    ensures form { result ≡ true → (0 < tag_of child.first) × (tag_of child.first < 9) }
{
    let tag = child_tag(child.first);
    if tag == 0 {
        return false;
    }
    if tag > 8 {
        return false;
    }
    let word = where_word(tag, child_level(child.first), key);
    child.second == word
}

/// Whether a child may be a node that covers a key: such a one is, and others of which the keys begin with the same bytes.
#[inline(always)]
pub fn may_go_on(child: Child, key: u64) -> bool
    ensures off { result ≡ false → goes_on child.first child.second key ≡ false }
    ensures form { result ≡ true → (0 < tag_of child.first) × (tag_of child.first < 9) }
{
    let tag = child_tag(child.first);
    if tag == 0 {
        return false;
    }
    if tag > 8 {
        return false;
    }
    let beyond = 63 - 8 * child_level(child.first);
    let apart = ((child.second ^ key) >> 1) >> beyond;
    if apart != 0 {
        return false;
    }
    true
}

/// What a child that is no such node has for a key.
#[inline(always)]
#[tactic(auto, unfolding(crate::specs::tree::Levels::pair_value))]
pub fn pair_value(child: Child, key: u64) -> Option<u64>
    ensures { result ≡ pair_value child.first child.second key }
{
    let leaf = leaf_word(key);
    if child.first == leaf {
        Some(child.second)
    } else {
        None
    }
}
