//! What a share counts, and the history of two workers that call at once.

ghost use Rattle.std.specs.Prelude.{◌≡◌};

use super::asks::{left, spent};
use crate::examples::closing::closes;
use crate::examples::history::{Recorded, counts_calls, writes_of_two};
use crate::tests::asserts::assert_same;
use congee::DefaultAllocator;
use joint::{Journaled, Limits, Refusal, Share, audit};
use judge::{Entry, Verdict, check};
use std::alloc::{AllocError, Global};
use std::marker::Brand;
use std::process::Abort;
use std::sync::Wait;
use std::sync::ledger::{Blank, Ledger};
use std::test::Fail;

/// Puts four keys in by a worker of its own, who leaves. How many calls the share has counted then.
fn puts<L: Ledger, R: Wait>(
    rt: &R,
    tree: &Recorded<L>,
    share: Share<L>,
) -> Result<(Share<L>, u64), Refusal>
    requires { share.count ≡ 0 }
{
    let mut worker = tree.register(rt)?;
    let guard = tree.pin(rt, &mut worker)?;
    let put = counts_calls(rt, tree, share, &[1, 2, 256, 1], &mut worker, &guard);
    spent(tree.unpin(rt, &mut worker, guard))?;
    left(tree.release(rt, worker))?;
    put
}

/// A share counts the calls that were made with it. They are gathered when it is merged, and the ledger has no other.
fn gathers<L: Ledger, R: Wait + Abort>(
    rt: &R,
    tree: &Recorded<L>,
    all: &mut Share<L>,
    share: Share<L>,
) -> Result<(), Fail>
    requires { share.count ≡ 0 }
{
    let (share, made) = puts(rt, tree, share)?;
    let counted = (made, share.parts(), share.count(), all.count());
    assert_same(rt, counted, (4, 1, 4, 0));
    assert_same(rt, tree.gather(rt, all), Err(Refusal::SharesLeft(1)));
    all.merge(share);
    assert_same(rt, tree.gather(rt, all), Ok(4));
    Ok(())
}

/// A closed index leaves its journal, which is legal, and of which the share gathers as many.
fn leaves<L: Ledger, R: Wait + Abort>(
    rt: &R,
    alloc: Global,
    tree: Recorded<L>,
    all: &mut Share<L>,
) -> Result<(), Fail> {
    let Some((_, mut journal)) = closes(rt, tree) else {
        return Err(AllocError.into());
    };
    let verdict = check(alloc, journal.entries())?;
    let told = (journal.entries().len(), journal.gather(all), verdict);
    assert_same(rt, told, (4, Ok(4), Verdict::Legal));
    Ok(())
}

fn counts<L: Ledger, R: Wait + Abort>(rt: &R, alloc: Global, blank: Blank) -> Result<(), Fail>
    requires name { blank.name ≡ L.name }
    requires ledger { blank.parts ≡ L.parts }
    requires parts { blank.parts ≡ 2 }
{
    let limits = Limits::usual(2, 1_000);
    let allocator = DefaultAllocator::new();
    let (tree, mut all): (Recorded<L>, Share<L>) = Journaled::new(
        alloc, limits, allocator, 9, 2, blank,
    )?;
    let share = all.split(1);
    gathers(rt, &tree, &mut all, share)?;
    leaves(rt, alloc, tree, &mut all)
}

fn counts_by_brand<R: Wait + Abort>(rt: &R, alloc: Global) -> Result<(), Fail> {
    counts::<Brand, R>(rt, alloc, Blank::new(2))
}

#[test]
fn a_share_counts_the_calls_that_were_made(rt: HostRuntime) -> Result<(), Fail> {
    counts_by_brand(&rt, rt.alloc())
}

/// The entries of a worker, in their order.
fn kept_by(
    alloc: Global,
    journal: &[Entry<u64>],
    worker: u32,
) -> Result<Vec<Entry<u64>>, AllocError> {
    let mut kept = Vec::new(alloc);
    for entry in journal {
        if entry.worker == worker {
            kept.push(*entry)?;
        }
    }
    Ok(kept)
}

#[test]
fn a_history_of_two_is_checked(rt: HostRuntime) -> Result<(), Fail> {
    let known = writes_of_two(&rt, rt.alloc(), 100)?;
    let journal = known.journal.as_slice();
    let own = [
        kept_by(rt.alloc(), journal, 0)?,
        kept_by(rt.alloc(), journal, 1)?,
    ];
    let told = (journal.len(), known.written, audit(journal, &own));
    assert_same(&rt, told, (200, 200, true));
    assert_same(&rt, check(rt.alloc(), journal), Ok(Verdict::Legal));
    Ok(())
}
