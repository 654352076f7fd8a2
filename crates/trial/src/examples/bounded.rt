//! What a user of owned trees concludes of their bytes: so many for each pair, with no proof of its own.
ghost use Rattle.std.specs.Prelude.{◌≡◌, ◌+◌, ◌*◌, ◌≤◌};
ghost use Rattle.std.specs.FinMap.{len};

use congee::{Congee, Limited};

/// What is charged of a tree: what had been charged before it was opened, the root's bytes, and no more than 128 for each pair and 56
/// for each child that its nodes lack.
pub fn charged_by_pairs(tree: &Congee<u64, u64, Limited>) -> u64
    ensures { result ≤ tree.now.base + 2104 + 128 * len tree.now.pairs + 56 * tree.now.lacking }
{
    tree.bytes_by_pairs();
    tree.charged()
}

/// The same of a tree whose nodes lack no child, as one from which nothing was taken.
pub fn charged_of_filled(tree: &Congee<u64, u64, Limited>) -> u64
    requires { tree.now.lacking ≡ 0 }
    ensures { result ≤ tree.now.base + 2104 + 128 * len tree.now.pairs }
{
    charged_by_pairs(tree)
}
