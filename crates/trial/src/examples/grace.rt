//! What a handle calls was sealed before the guard of another one, whatever threads they belong to.

ghost use Rattle.std.specs.Prelude.{◌≡◌, ◌<◌, IfSome, IfOk};

use crossbeam_epoch::{Collector, Fault, Guard, LocalHandle, Task};
use std::sync::Wait;

/// One handle collects, and the other one, whose guard this is, is told of it. The greatest seal of what was called, if
/// anything was.
pub fn calls_what_is_older<'c, R: Wait, T: Drop, J: Task>(
    rt: &R,
    caller: &mut LocalHandle<'c, T, J>,
    pinned: &mut LocalHandle<'c, T, J>,
    guard: &Guard<'_, T, J>,
) -> Option<u64>
    requires one { caller.old.collector.now ≡ pinned.old.collector.now }
    requires out { (0 < pinned.old.guards) × (guard.now.epoch ≡ pinned.old.epoch) }
    ensures older { IfSome result (λ seal. seal < guard.now.epoch) }
    ensures same { (pinned.new.guards ≡ pinned.old.guards) × (pinned.new.row ≡ pinned.old.row) }
{
    caller.collect(rt);
    pinned.heed(caller.note());
    caller.called_up_to()
}

/// The one handle is pinned, and the other one collects meanwhile. The greatest seal of what it called, if it called anything,
/// and the epoch of the guard.
pub fn collects_beside_a_guard<R: Wait>(
    rt: &R,
    collector: &Collector<u64, ()>,
) -> Result<(Option<u64>, u64), Fault>
    ensures { IfOk result (λ r. IfSome r.0 (λ seal. seal < r.1)) }
{
    let mut caller = collector.register(rt)?;
    let mut pinned = collector.register(rt)?;
    let guard = pinned.pin()?;
    let epoch = guard.pinned_at();
    let called = calls_what_is_older(rt, &mut caller, &mut pinned, &guard);
    match pinned.unpin(guard) {
        Ok(()) => Ok((called, epoch)),
        Err(_refused) => unreachable!(),
    }
}
