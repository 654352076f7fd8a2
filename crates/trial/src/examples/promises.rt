//! What a user of the machine concludes of whole runs, with no proof of its own: the memory of removed nodes comes back, and
//! when it does changes no answer.
ghost use Rattle.std.specs.Prelude.{◌≡◌, ◌≤◌, ◌++◌, ℕ, List, true, IfOk, length, nat_eq, take};
ghost use Rattle.joint.specs.engine.Census.{waiting_nodes};
ghost use Rattle.joint.specs.calls.Plain.{AreSame, AreUnrefused, answers, projection};
ghost use Rattle.joint.specs.calls.Promises.{KeepsPromises};
ghost use Rattle.joint.specs.calls.Rounds.{AreRounds, CameBack, IsQuiet, Round, rounds_wanted, steps_in};
ghost use Rattle.joint.specs.calls.Runs.{Taken, after_all};

use super::machine::Index;
use congee::DefaultAllocator;
use joint::{Limits, Ran, Refusal, Step, World, keeps_promises};
use std::alloc::Global;
use std::vec::Vec;

/// Whatever steps workers take from an index's opening on, in any order, all that is promised of a run holds of them.
///
/// So where the last of them are rounds of one worker from a quiet state on, two and one more for each eight nodes that waited
/// then, each node that stands is in the tree, or waits in the unsealed bag of another worker, of 64 removals at most.
pub fn gives_memory_back(
    alloc: Global,
    limits: Limits,
    steps: Vec<Step<u64>>,
) -> Result<(Index, Ran<u64>), Refusal>
    ensures promises { IfOk result (λ r. KeepsPromises nat_eq true limits (take r.1.done steps.items) r.1.reports.items r.0) }
    ensures back { IfOk result (λ r. (kept : KeepsPromises nat_eq true limits (take r.1.done steps.items) r.1.reports.items r.0) (before : List (Taken ℕ)) (who : ℕ) (rounds : List (Round ℕ)) → kept.run.taken ≡ before ++ steps_in rounds → IsQuiet (after_all kept.opened before) → AreRounds who rounds → rounds_wanted (length (waiting_nodes (after_all kept.opened before))) ≤ length rounds → CameBack r.0 who) }
{
    let mut index: Index = World::new(alloc, limits, DefaultAllocator::new())?;
    let ran = index.run(alloc, steps);
    Ok((index, ran))
}

/// Two indexes on which the same steps were taken on the tree, and anything else between them: pins, flushes, rounds,
/// collections at other times. Where neither refuses anything on the tree, they tell the same, answer by answer.
pub fn answer_alike(
    alloc: Global,
    limits: Limits,
    steps: Vec<Step<u64>>,
    others: Vec<Step<u64>>,
) -> Result<(Ran<u64>, Ran<u64>), Refusal>
    ensures { IfOk result (λ r. AreUnrefused r.0.reports.items → AreUnrefused r.1.reports.items → projection (take r.0.done steps.items) r.0.reports.items ≡ projection (take r.1.done others.items) r.1.reports.items → AreSame (answers (take r.0.done steps.items) r.0.reports.items) (answers (take r.1.done others.items) r.1.reports.items)) }
{
    keeps_promises::<u64, DefaultAllocator>();
    let (_, ran) = gives_memory_back(alloc, limits, steps)?;
    let (_, also) = gives_memory_back(alloc, limits, others)?;
    Ok((ran, also))
}
