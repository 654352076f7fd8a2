//! An owned tree as any ordered map is used: at a key's place, for several pairs by one call, made of pairs, and copied.
ghost use Rattle.std.specs.Prelude.{◌≡◌, IfOk, length};
ghost use Rattle.std.specs.FinMap.{entries};
ghost use Rattle.congee.specs.owned.Ranges.{in_range};
ghost use Rattle.congee.specs.owned.Several.{WithoutRange};

use congee::{BuildError, Congee, DefaultAllocator, OOMError};
use std::alloc::Global;

/// Numbers under their keys.
pub type Numbers = Congee<u64, u64>;

/// How often each number stands in a list.
pub fn tally(alloc: Global, list: &[u64]) -> Result<Numbers, OOMError> {
    let mut tally: Numbers = Congee::new(alloc, DefaultAllocator::new())?;
    for number in list {
        tally
            .entry(*number)
            .and_modify(|count| count.wrapping_add(1))
            .or_insert(1)?;
    }
    Ok(tally)
}

/// Keeps the numbers that stand more than once.
pub fn keeps_repeated(tally: &mut Numbers) {
    tally.retain(|_, count| count > 1);
}

/// Takes out what has a key of a range, and tells how many pairs that were.
pub fn cuts(tree: &mut Numbers, start: u64, end: u64) -> usize
    ensures left { WithoutRange start end tree.old.pairs tree.new.pairs }
    ensures count { result ≡ length (in_range start end (entries tree.old.pairs)) }
{
    tree.remove_range(&start, &end)
}

/// A tree of pairs that ascend by key.
pub fn made_of(alloc: Global, pairs: Vec<(u64, u64)>) -> Result<Numbers, BuildError> {
    Congee::from_sorted(alloc, DefaultAllocator::new(), pairs)
}

/// A copy, which has the same pairs and goes its own way.
pub fn copy_of(alloc: Global, tree: &Numbers) -> Result<Numbers, OOMError>
    ensures { IfOk result (λ copy. copy.pairs ≡ tree.now.pairs) }
{
    tree.try_clone(alloc, DefaultAllocator::new())
}

/// A copy with further pairs. The tree stays as it was.
pub fn extended(alloc: Global, tree: &Numbers, more: Vec<(u64, u64)>) -> Result<Numbers, OOMError> {
    let mut copy = copy_of(alloc, tree)?;
    copy.extend(more)?;
    Ok(copy)
}
