//! The words that name children, and those that say which keys a node covers.
ghost use Rattle.std.specs.Prelude.{◌≡◌, ◌≢◌, ◌↔◌, ◌==◌, ◌<◌, ◌≤◌, ◌+◌, ◌-◌, ◌*◌, ◌/◌, ◌%◌, ◌^◌, IsTrue, ℕ};
ghost use Rattle.optimistic.specs.Layout.{prefix_of, where_of, byte_at, child_of, tag_of, level_of, node_of, leaf_of};

/// The byte of a key that tells children apart at a level.
#[inline(always)]
pub fn key_byte(key: u64, level: u64) -> u8
    requires { level < 8 }
    ensures byte { result ≡ byte_at key level }
    ensures prefix { prefix_of key (level + 1) ≡ prefix_of key level * 256 + result }
{
    ((key >> (56 - 8 * level)) & 255) as u8
}

/// The word that says which keys a node of this form and level covers, by one of them.
#[inline(always)]
pub fn where_word(form: u64, level: u64, key: u64) -> u64
    requires form { form < 16 }
    requires level { level < 8 }
    ensures word { result ≡ where_of form level key }
    ensures some { 0 < form → result ≢ 0 }
{
    (key & !(u64::MAX >> (8 * level))) | (8 * form + level)
}

/// A child word.
#[inline(always)]
pub fn child_word(tag: u64, level: u64, node: u64) -> u64
    requires tag { tag < 16 }
    requires level { level < 8 }
    requires node { node < 2 ^ 56 }
    ensures word { result ≡ child_of tag level node }
    ensures tag { tag_of result ≡ tag }
    ensures level { level_of result ≡ level }
    ensures node { node_of result ≡ node }
    ensures some { 0 < tag → result ≢ 0 }
{
    (node << 8) + (level << 4) + tag
}

/// The tag of a child word.
#[inline(always)]
pub fn child_tag(child: u64) -> u64
    ensures tag { result ≡ tag_of child }
    ensures small { result < 16 }
{
    child & 15
}

/// The level of a child word.
#[inline(always)]
pub fn child_level(child: u64) -> u64
    ensures level { result ≡ level_of child }
    ensures small { result < 8 }
{
    (child >> 4) & 7
}

/// The node that a child word names.
#[inline(always)]
pub fn child_node(child: u64) -> usize
    ensures { result ≡ node_of child }
{
    (child >> 8) as usize
}

/// The child word of a lone leaf.
#[inline(always)]
pub fn leaf_word(key: u64) -> u64
    ensures word { result ≡ leaf_of key }
    ensures some { result ≢ 0 }
{
    (key << 8) + 9
}

/// The key of a lone leaf, which has the first byte of `key`.
#[inline(always)]
pub fn leaf_key(child: u64, key: u64) -> u64
    requires { child % 256 ≡ 9 }
    ensures leaf { leaf_of result ≡ child }
    ensures first { prefix_of result 1 ≡ prefix_of key 1 }
{
    (key & !(u64::MAX >> 8)) | (child >> 8)
}

/// How many first bytes two keys have in common.
#[inline(always)]
pub fn common_prefix(a: u64, b: u64) -> u64
    ensures bound { result ≤ 8 }
    ensures same { prefix_of a result ≡ prefix_of b result }
    ensures apart { result < 8 → byte_at a result ≢ byte_at b result }
{
    (a ^ b).leading_zeros() as u64 / 8
}
