//! The turns of a writing call on an index with a journal: each is one hold of the index's lock.

ghost use Rattle.std.specs.Prelude.{◌≡◌, ℕ, [], None, Some, true};
ghost use Rattle.std.specs.Option.{option_map};
ghost use Rattle.joint.specs.Changes.{changes};
ghost use Rattle.joint.specs.threads.Driving.{IsToldInCall, IsTurn};
ghost use Rattle.joint.specs.threads.Writing.{IsWritingTurn, Writes, WritesMute, unwritten};

use crate::steps::{Op, Report, Step};
use crate::threads::answers::{Answer, Silent};
use crate::threads::driver::{Turns, drive_to};
use crate::threads::journaled_world::JournaledWorld;
use crate::threads::progress::Progress;
use crate::threads::replies::End;
use crate::threads::share::Share;
use crate::threads::tokens::Worker;
use crate::threads::tree::Tree;
use crate::threads::watch::Watch;
use congee::Allocator;
use std::mem;
use std::snapshot::Snapshot;
use std::sync::Wait;
use std::sync::ledger::Ledger;

/// Takes the lock for each turn of a worker's writing call.
#[derive(Drop)]
pub(crate) struct WritingHolds<'t, L: Ledger, W: Watch, A: Allocator, R: Wait> {
    rt: &'t R,
    tree: &'t Tree<u64, JournaledWorld<L, W, A>>,
    worker: u32,
    op: Op<u64>,
    call: Progress<L>,
    last: Option<Snapshot<Report<u64>>>,
    ghost writing: { changes op ≡ true },
}

impl<'t, L: Ledger, W: Watch, A: Allocator, R: Wait> WritingHolds<'t, L, W, A, R> {
    /// Before the first turn of a call.
    fn new(
        rt: &'t R,
        tree: &'t Tree<u64, JournaledWorld<L, W, A>>,
        worker: u32,
        op: Op<u64>,
        share: Share<L>,
    ) -> Self
        requires { changes op ≡ true }
        ensures worker { result.worker ≡ worker }
        ensures op { result.op ≡ op }
        ensures call { result.call ≡ unwritten share }
        ensures last { result.last ≡ None }
    {
        WritingHolds {
            rt,
            tree,
            worker,
            op,
            call: Progress::new(share),
            last: None,
        }
    }
}

impl<L: Ledger, W: Watch, A: Allocator, R: Wait> Turns<u64> for WritingHolds<'_, L, W, A, R> {
    ghost worker = { λ h. h.worker };

    ghost op = { λ h. h.op };

    ghost last = { λ h. option_map (λ r. r.value) h.last };

    ghost gives = { λ h step r h'. IsWritingTurn W.watched h.worker h.op h.call step r h'.call × (h'.worker ≡ h.worker) × (h'.op ≡ h.op) };

    fn turn(&mut self, step: Step<u64>) -> Report<u64>
        requires { IsTurn self.old.worker self.old.op (option_map (λ r. r.value) self.old.last) step }
        ensures worker { self.new.worker ≡ self.old.worker }
        ensures op { self.new.op ≡ self.old.op }
        ensures last { option_map (λ r. r.value) self.new.last ≡ Some result }
        ensures gives { IsWritingTurn W.watched self.old.worker self.old.op self.old.call step result self.new.call × (self.new.worker ≡ self.old.worker) × (self.new.op ≡ self.old.op) }
        ensures told { IsToldInCall result.outcome }
    {
        let report = self
            .tree
            .hold(self.rt)
            .write(&self.op, &mut self.call, step);
        self.last = Some(Snapshot::of(&report));
        report
    }
}

impl<L: Ledger, W: Watch, A: Allocator> Tree<u64, JournaledWorld<L, W, A>> {
    /// A whole writing call of a worker's, each turn of which is a hold of the lock; it counts on this share.
    fn drive_writing<C: Answer<u64>, R: Wait>(
        &self,
        rt: &R,
        worker: &Worker,
        op: Op<u64>,
        answers: &mut C,
        share: Share<L>,
    ) -> (End<u64>, Share<L>)
        requires ready { C.can_answer answers.old }
        requires writing { changes op ≡ true }
        ensures { Writes W.watched C.answers worker.now.number op answers.old (λ end. end) share result.1 result.0 }
    {
        let mut nothing: [(u64, u64); 0] = [];
        let mut turns = WritingHolds::new(rt, self, worker.number, op, share);
        let end = drive_to(rt, &mut turns, worker.number, op, answers, &mut nothing);
        let WritingHolds { call, .. } = turns;
        (end, call.into_share())
    }

    /// The same, on a share that the caller keeps.
    pub(crate) fn write<C: Answer<u64>, R: Wait>(
        &self,
        rt: &R,
        worker: &Worker,
        op: Op<u64>,
        answers: &mut C,
        share: &mut Share<L>,
    ) -> End<u64>
        requires ready { C.can_answer answers.old }
        requires writing { changes op ≡ true }
        ensures { Writes W.watched C.answers worker.now.number op answers.old (λ end. end) share.old share.new result }
    {
        let mut tokens = share.tokens.empty();
        mem::swap(&mut share.tokens, &mut tokens);
        let lent = Share {
            parts: share.parts,
            count: share.count,
            all: share.all.again(),
            tokens,
        };
        let (end, lent) = self.drive_writing(rt, worker, op, answers, lent);
        let Share {
            parts,
            count,
            mut tokens,
            ..
        } = lent;
        mem::swap(&mut share.tokens, &mut tokens);
        share.parts = parts;
        share.count = count;
        end
    }

    /// One that asks nobody.
    pub(crate) fn write_silently<R: Wait>(
        &self,
        rt: &R,
        worker: &Worker,
        op: Op<u64>,
        share: &mut Share<L>,
    ) -> End<u64>
        requires { changes op ≡ true }
        ensures { WritesMute W.watched worker.now.number op (λ end. end) share.old share.new result }
    {
        self.write(rt, worker, op, &mut Silent, share)
    }
}
