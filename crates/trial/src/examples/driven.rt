//! What an owner of an index concludes of a whole call whose turns he gives himself, with no proof of his own.
ghost use Rattle.std.specs.Prelude.{◌≡◌, None, Some, nat_eq, true};
ghost use Rattle.std.specs.Option.{option_map};
ghost use Rattle.joint.specs.threads.Driving.{IsDriven, IsToldInCall, IsTurn, ended};
ghost use Rattle.joint.specs.world.World.{IsStep};

use congee::Allocator;
use joint::{Done, Op, Refusal, Report, Step, Turns, World, drive, turns_tell};
use std::snapshot::Snapshot;
use std::sync::Wait;

/// An index of one owner, and the call of a worker that is to be driven on it.
#[derive(Drop)]
pub struct Driven<A: Allocator> {
    index: World<u64, A>,
    worker: u32,
    op: Op<u64>,
    last: Option<Snapshot<Report<u64>>>,
}

impl<A: Allocator> Driven<A> {
    /// A call of a worker's on an index, which comes back by `into_index`.
    pub fn new(index: World<u64, A>, worker: u32, op: Op<u64>) -> Self
        ensures { (result.index ≡ index) × (result.worker ≡ worker) × (result.op ≡ op) }
    {
        Driven {
            index,
            worker,
            op,
            last: None,
        }
    }

    /// The index as it stands.
    pub fn into_index(self) -> World<u64, A>
        ensures { result ≡ self.index }
    {
        let Driven { index, .. } = self;
        index
    }
}

impl<A: Allocator> Turns<u64> for Driven<A> {
    ghost worker = { λ d. d.worker };

    ghost op = { λ d. d.op };

    ghost last = { λ d. option_map (λ r. r.value) d.last };

    ghost gives = { λ d step r d'. IsStep nat_eq true d.index step r d'.index };

    /// Each turn is a step of the index. What is known of a turn has to stand at a method of one's own too.
    fn turn(&mut self, step: Step<u64>) -> Report<u64>
        requires { IsTurn self.old.worker self.old.op (option_map (λ r. r.value) self.old.last) step }
        ensures worker { self.new.worker ≡ self.old.worker }
        ensures op { self.new.op ≡ self.old.op }
        ensures last { option_map (λ r. r.value) self.new.last ≡ Some result }
        ensures gives { IsStep nat_eq true self.old.index step result self.new.index }
        ensures told { IsToldInCall result.outcome }
    {
        turns_tell::<u64>();
        let report = self.index.step(step);
        self.last = Some(Snapshot::of(&report));
        report
    }
}

/// The call is driven to its end: it is begun, each further turn is a step of the index, with the closure's answer exactly
/// where the turn before asked for it; what a scan finds is written to its places; and what the call answers is what the
/// last turn told.
pub fn answered<A: Allocator, R: Wait, F: FnMut(Option<u64>) -> Option<u64>>(
    rt: &R,
    driven: &mut Driven<A>,
    closure: F,
    found: &mut [(u64, u64)],
) -> Result<Done<u64>, Refusal>
    requires { F.IsAlwaysCallable closure }
    ensures turns { IsDriven (λ d step r d'. IsStep nat_eq true d.index step r d'.index) F.step (λ key value. (key, value)) driven.old.worker driven.old.op closure (record driven.old { last = None }) found.old driven.new found.new (ended result) }
    ensures last { option_map (λ r. r.value.outcome) driven.new.last ≡ Some (ended result) }
{
    driven.last = None;
    let worker = driven.worker;
    let op = driven.op;
    drive(rt, driven, worker, op, closure, found)
}
