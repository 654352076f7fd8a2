//! The first calls on an index that threads share.
ghost use Rattle.std.specs.Prelude.{◌≡◌, IfOk};

use congee::{Allocator, DefaultAllocator};
use joint::{Congee, CongeeArc, Limits, Refusal};
use std::alloc::Global;
use std::sync::{Arc, Wait};

/// Puts a number at a key, reads it, and scans the keys below 10. Gives the number, and how many pairs the scan found.
pub fn first_calls<R: Wait>(rt: &R, alloc: Global) -> Result<(Option<u64>, usize), Refusal> {
    // At most 2 workers and 1,000 nodes; and the index's number, which no other index has.
    let limits = Limits::usual(2, 1000).with_id(1);
    let art: Congee<u64, u64> = Congee::new(alloc, limits, DefaultAllocator::new())?;
    let mut worker = art.register(rt)?; // each thread registers one

    // Enter an epoch, and leave it at the end, whichever way the calls went.
    art.pinned(rt, &mut worker, |worker, guard| {
        art.insert(rt, 0, 42, worker, guard)?; // insert a value
        let value = art.get(rt, &0, worker, guard)?; // read the value

        let mut scan_buffer = [(0, 0); 8];
        let scanned = art.range(rt, &0, &10, &mut scan_buffer, worker, guard)?; // scan values
        Ok((value, scanned))
    })
}

/// An owner of a text, if there is one.
type Owner = Option<Arc<String, Global>>;

/// Puts one text at a key, reads it, puts the other one in its place, and takes that out again. Gives what it read, and
/// what it took out.
pub fn shared_values<R: Wait>(
    rt: &R,
    alloc: Global,
    hello: Arc<String, Global>,
    world: Arc<String, Global>,
) -> Result<(Owner, Owner), Refusal> {
    let art: CongeeArc<u64, String> = CongeeArc::new(alloc, Limits::usual(2, 1000).with_id(2))?;
    let mut worker = art.register(rt)?;

    art.pinned(rt, &mut worker, |worker, guard| {
        // A refused value comes back with the refusal.
        if let Err((refusal, _hello)) = art.insert(rt, 1, hello, worker, guard) {
            return Err(refusal);
        }
        let retrieved = art.get(rt, 1, worker, guard)?;

        // The closure answers what is to stand there; where no owner more can be counted, nothing.
        art.compute_if_present(rt, 1, |_hello| Arc::try_clone(&world).ok(), worker, guard)?;
        let removed = art.remove(rt, 1, worker, guard)?;
        Ok((retrieved, removed))
    })
}

/// An index that is opened, filled and closed leaves the allocator with the charge and the limit with which it came.
pub fn fills_and_closes<A: Allocator, R: Wait>(
    rt: &R,
    alloc: Global,
    allocator: A,
) -> Result<A, Refusal>
    ensures charge { IfOk result (λ a. A.charged_of a ≡ A.charged_of allocator) }
    ensures limit { IfOk result (λ a. A.limit_of a ≡ A.limit_of allocator) }
{
    let art: Congee<u64, u64, A> = Congee::new(
        alloc,
        Limits::usual(2, 1000).with_id(3),
        allocator,
    )?;
    let mut worker = art.register(rt)?;
    art.pinned(rt, &mut worker, |worker, guard| {
        art.insert(rt, 0, 42, worker, guard)
    })?;
    if let Err((refusal, _)) = art.release(rt, worker) {
        return Err(refusal);
    }
    match art.close(rt) {
        Ok((allocator, _)) => Ok(allocator),
        Err((refusal, _)) => Err(refusal),
    }
}
