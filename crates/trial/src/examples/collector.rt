//! The first calls on the collector for threads.
ghost use Rattle.std.specs.Prelude.{◌≡◌};

use crossbeam_epoch::{Fault, LocalHandle, Task};
use std::sync::Wait;

/// Puts a job off under a guard of its own, and collects. The job is called, by whoever collects then, once every guard has
/// been spent that was out when it was put off. The handle has as many guards out as before, whatever was refused.
pub fn put_off<R: Wait, T: Drop, J: Task>(
    rt: &R,
    handle: &mut LocalHandle<'_, T, J>,
    job: J,
) -> Result<(), Fault>
    ensures { handle.new.guards ≡ handle.old.guards }
{
    handle.pinned(
        |handle, guard|
            ensures guards { handle.new.guards ≡ handle.old.guards }
            ensures row { handle.new.row ≡ handle.old.row }
        {
            match handle.defer(rt, guard, job) {
                Ok(()) => {}
                Err((fault, _job)) => return Err(fault),
            }
            handle.flush(rt, guard)?;
            Ok(())
        },
    )
}
