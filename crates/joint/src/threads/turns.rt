//! The turns of a call on an index that threads share: each is one hold of the index's lock.

ghost use Rattle.std.specs.Prelude.{◌≡◌, None, Some};
ghost use Rattle.std.specs.Option.{option_map};
ghost use Rattle.joint.specs.threads.Driving.{IsToldInCall, IsTurn};

use crate::steps::{Op, Report, Step};
use crate::threads::driver::Turns;
use crate::threads::locked::Locked;
use crate::threads::tree::Tree;
use congee::{Payload, Small};
use std::snapshot::Snapshot;
use std::sync::Wait;

/// Takes the lock for each turn of a worker's call.
#[derive(Drop)]
pub(crate) struct Holds<'t, P: Payload + Small, T: Locked<P>, R: Wait> {
    rt: &'t R,
    tree: &'t Tree<P, T>,
    worker: u32,
    call: T::Memo,
    last: Option<Snapshot<Report<P>>>,
}

impl<'t, P: Payload + Small, T: Locked<P>, R: Wait> Holds<'t, P, T, R> {
    /// Before the first turn of a call.
    pub(crate) fn new(rt: &'t R, tree: &'t Tree<P, T>, worker: u32, op: &Op<P>) -> Self
        ensures worker { result.worker ≡ worker }
        ensures op { T.asked result.call ≡ op.now }
        ensures last { result.last ≡ None }
    {
        Holds {
            rt,
            tree,
            worker,
            call: T::memo(op),
            last: None,
        }
    }
}

impl<P: Payload + Small, T: Locked<P>, R: Wait> Turns<P> for Holds<'_, P, T, R> {
    ghost worker = { λ h. h.worker };

    ghost op = { λ h. T.asked h.call };

    ghost last = { λ h. option_map (λ r. r.value) h.last };

    ghost gives = { λ h step r h'. T.holds h.worker (T.asked h.call) step r × (h'.worker ≡ h.worker) × (T.asked h'.call ≡ T.asked h.call) };

    fn turn(&mut self, step: Step<P>) -> Report<P>
        requires { IsTurn self.old.worker (T.asked self.old.call) (option_map (λ r. r.value) self.old.last) step }
        ensures worker { self.new.worker ≡ self.old.worker }
        ensures op { T.asked self.new.call ≡ T.asked self.old.call }
        ensures last { option_map (λ r. r.value) self.new.last ≡ Some result }
        ensures gives { T.holds self.old.worker (T.asked self.old.call) step result × (self.new.worker ≡ self.old.worker) × (T.asked self.new.call ≡ T.asked self.old.call) }
        ensures told { IsToldInCall result.outcome }
    {
        let report = self.tree.turn(self.rt, &self.call, step);
        self.last = Some(Snapshot::of(&report));
        report
    }
}
