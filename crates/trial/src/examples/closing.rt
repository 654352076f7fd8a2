//! An index that kept a journal, closed: what its journal and its pairs say of each other.
ghost use Rattle.std.specs.Prelude.{ℕ, IfSome, nat_eq};
ghost use Rattle.std.specs.FinMap.{empty, entries};
ghost use Rattle.judge.specs.Answer.{Pairs};
ghost use Rattle.judge.specs.Journal.{Legal};
ghost use Rattle.joint.specs.nodes.Draining.{Drained as AllDrained};

use congee::{Allocator, Drainer};
use joint::{Journal, Journaled, Watch};
use std::sync::Wait;
use std::sync::ledger::Ledger;

/// Closes an index. Its drainer has got each pair of a map, ascending by key, and the journal that comes along replays to that very
/// map, whatever threads did before. `None` while workers are registered.
pub fn closes<L: Ledger, W: Watch, A: Allocator, D: Drainer<u64, u64>, R: Wait>(
    rt: &R,
    index: Journaled<L, W, u64, u64, A, D>,
) -> Option<(D, Journal<L, W>)>
    requires { D.can_drain index.drainer }
    ensures { IfSome result (λ r. (m : Pairs ℕ) × Legal nat_eq empty r.1.entries.items m × AllDrained D.drains index.drainer (entries m) r.0) }
{
    match index.close(rt) {
        Ok((_, drainer, journal)) => Some((drainer, journal)),
        Err(_) => None,
    }
}
