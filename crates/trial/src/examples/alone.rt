//! What a worker of an index whose readers take no lock concludes where no other thread is there: one attempt answers.
ghost use Rattle.std.specs.Prelude.{◌≢◌, IfSome, IsSome, Err};
ghost use Rattle.optimistic.specs.declared.tree.whole.Unscanned.TheVariants.{Again};
ghost use Rattle.optimistic.specs.face.Calls.{Found};
ghost use Rattle.optimistic.specs.tree.Alone.{IsQuiet};

use optimistic::{Pair, Unscanned, Worker};
use std::alloc::Global;

/// What a key has, by one attempt. It has the answer where no node was locked as it began, and none is new or has another version
/// as it ends.
pub fn looks_up(worker: &mut Worker<'_>, key: u64) -> Option<Option<u64>>
    ensures found { IfSome result (λ x. Found key x worker.old worker.new) }
    ensures answers { IsQuiet worker.old.moment worker.new.moment → IsSome result }
{
    worker.try_get(key)
}

/// The pairs of a range as they are at one moment, by one attempt. Where it is so quiet, none but for want of memory.
pub fn reads_range(
    worker: &mut Worker<'_>,
    alloc: Global,
    start: u64,
    end: u64,
    out: &mut [Pair],
) -> Result<usize, Unscanned>
    ensures { IsQuiet worker.old.moment worker.new.moment → result ≢ Err Again }
{
    worker.try_range_at_once(alloc, start, end, out)
}
