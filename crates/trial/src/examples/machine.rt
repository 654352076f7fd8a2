//! What a user of the shared map's machine concludes from its contracts, with no proof of its own.
ghost use Rattle.std.specs.Prelude.{◌≡◌, ℕ, IfOk, IfSome, Some, nat_eq, suc, take, vec_capacity};
ghost use Rattle.std.specs.FinMap.{empty, entries};
ghost use Rattle.judge.specs.Answer.{Pairs};
ghost use Rattle.congee.specs.Keys.{IsMapOf};
ghost use Rattle.joint.specs.nodes.Draining.{Drained as AllDrained};
ghost use Rattle.joint.specs.nodes.Nodes.{nodes};
ghost use Rattle.joint.specs.calls.Runs.{RunsMap};
ghost use Rattle.joint.specs.calls.Scanned.{ScansAs};
ghost use Rattle.joint.specs.engine.Flying.{no_flights};
ghost use Rattle.joint.specs.engine.Engine.{World as State};
ghost use Rattle.joint.specs.engine.Standing.{pairs_of};

use congee::{Allocator, DefaultAllocator, Drainer, NoDrain};
use joint::{Limits, Op, Ran, Refusal, Report, Step, World};
use judge::Reply;
use std::alloc::Global;
use std::vec::Vec;

/// An index for two workers of at most 1,000 nodes.
pub type Index = World<u64, DefaultAllocator>;

/// Whatever steps two workers take from an empty index on, in any order and with calls of both in flight, are a run of one
/// map: the calls that took effect, each with what it answered, are a legal journal in the order of their deciding steps.
pub fn runs_as_one_map(alloc: Global, steps: Vec<Step<u64>>) -> Result<(Index, Ran<u64>), Refusal>
    ensures { IfOk result (λ r. RunsMap nat_eq no_flights empty (take r.1.done steps.items) r.1.reports.items r.0) }
{
    let mut index: Index = World::new(alloc, Limits::usual(2, 1000), DefaultAllocator::new())?;
    let ran = index.run(alloc, steps);
    Ok((index, ran))
}

/// An index on which any steps are taken, and which is closed then, leaves the allocator with the charge and the limit that it
/// had. It is refused as WorkersLeft where workers are still registered.
pub fn runs_and_closes<A: Allocator>(
    alloc: Global,
    allocator: A,
    steps: Vec<Step<u64>>,
) -> Result<A, Refusal>
    ensures charge { IfOk result (λ a. A.charged_of a ≡ A.charged_of allocator) }
    ensures limit { IfOk result (λ a. A.limit_of a ≡ A.limit_of allocator) }
{
    let mut index: World<u64, A> = World::new(alloc, Limits::usual(2, 1000), allocator)?;
    index.run(alloc, steps);
    match index.close(NoDrain) {
        Ok((allocator, _)) => Ok(allocator),
        Err((refusal, _, _)) => Err(refusal),
    }
}

/// What was told of steps, and what a drainer took then.
#[derive(Drop)]
pub struct Drained<D: Drop> {
    pub ran: Ran<u64>,
    pub drainer: D,
}

/// Whatever steps are taken from an empty index on, a close hands its drainer each pair of the map that their run leaves, in
/// ascending order of the keys.
pub fn drains_what_stands<D: Drainer<u64, u64>>(
    alloc: Global,
    steps: Vec<Step<u64>>,
    drainer: D,
) -> Result<Drained<D>, Refusal>
    requires { D.can_drain drainer }
    ensures { IfOk result (λ r. (s : State ℕ) × RunsMap nat_eq no_flights empty (take r.ran.done steps.items) r.ran.reports.items s × ((m : Pairs ℕ) → IsMapOf (nodes s.forest) m → AllDrained D.drains drainer (entries m) r.drainer)) }
{
    let (index, ran) = runs_as_one_map(alloc, steps)?;
    match index.close(drainer) {
        Ok((_, drainer)) => Ok(Drained { ran, drainer }),
        Err((refusal, _, _)) => Err(refusal),
    }
}

/// A value that a worker put at a key is found there, whatever stood there before, and whatever others have in flight. `None`
/// where one of the two calls, of 60 steps at most, didn't come to its end.
pub fn reads_what_it_put<A: Allocator>(
    index: &mut World<u64, A>,
    who: u32,
    key: u64,
    value: u64,
) -> Option<Option<u64>>
    ensures { IfSome result (λ found. found ≡ Some value) }
{
    index.reply(who, Op::Insert(key, value), 60)?;
    match index.reply(who, Op::Get(key), 60)? {
        Reply::Get(found) => Some(found),
        _ => None,
    }
}

/// The pairs with start <= key <= last of the map that stands, ascending, as many as the page has places: one whole scan of 1,000
/// steps at most. It tells how many there are. `None` where it didn't come to its end.
pub fn page_of<A: Allocator>(
    index: &mut World<u64, A>,
    who: u32,
    start: u64,
    last: u64,
    page: &mut [(u64, u64)],
) -> Option<usize>
    ensures { ScansAs start (suc last) (pairs_of index.old) result page.new }
{
    index.scan(who, start, last, 1_000, page)
}

/// Takes steps while a list has room for their reports, so that none asks for memory, and tells how many it took.
pub fn runs_within<A: Allocator>(
    index: &mut World<u64, A>,
    steps: Vec<Step<u64>>,
    reports: &mut Vec<Report<u64>>,
) -> usize
    ensures { vec_capacity reports.new ≡ vec_capacity reports.old }
{
    index.run_into(steps, reports)
}
