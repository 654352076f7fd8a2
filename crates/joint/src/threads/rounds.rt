//! A round of whole calls: pin, flush, unpin.

ghost use Rattle.std.specs.Prelude.{Ok, Result};
ghost use Rattle.joint.specs.threads.Threads.{Rounds, RoundsFrom};
ghost use Rattle.joint.specs.declared.refusal.Refusal.{Refusal};
ghost use Rattle.joint.specs.declared.steps.Op.{Op};

use crate::refusal::Refusal;
use crate::steps::Op;

/// Makes whole calls of one worker's, one after another, which tell nothing but that they have ended.
pub(crate) trait Ends<P> {
    /// What is known of a call, from what stood before it to what stands after it.
    ghost ends: { Self → Op P → Result (Unit {0}) Refusal → Self → Type 0 };

    /// One of them.
    fn end(&mut self, op: Op<P>) -> Result<(), Refusal>
        ensures { ends self.old op result self.new };
}

/// Pin, flush, unpin, in this order. Answers the first refusal; after a refused flush it unpins too.
pub(crate) fn round<P, C: Ends<P>>(calls: &mut C) -> Result<(), Refusal>
    ensures { Rounds C.ends calls.old result calls.new }
{
    match calls.end(Op::Pin) {
        Ok(()) => flush_and_unpin(calls),
        Err(refusal) => Err(refusal),
    }
}

/// Flush, unpin, in this order. Answers the first refusal.
fn flush_and_unpin<P, C: Ends<P>>(calls: &mut C) -> Result<(), Refusal>
    ensures { RoundsFrom C.ends (Ok tt) calls.old result calls.new }
{
    let flushed = calls.end(Op::Flush);
    let left = calls.end(Op::Unpin);
    match flushed {
        Ok(()) => left,
        Err(refusal) => Err(refusal),
    }
}
