//! What a step leaves behind, and what it reports.
ghost use Rattle.std.specs.Prelude.{◌≡◌, true, false};
ghost use Rattle.congee.specs.protocol.Steps.{next_phase_of, quiet, again, answered, finished, refused, decided, asking, skipping, outcome_of};

use crate::protocol::machine::{Move, Outcome};
use crate::protocol::phase::Phase;
use crate::protocol::scan::ScanReport;
use crate::protocol::store::{NodeName, Refusal};
use judge::{Payload, Reply};

impl<C: NodeName, P: Payload> Phase<C, P> {
    /// The step leaves this one as the next, and its report. It is compiled into each step, and so are those that hand a phase on
    /// to it: a phase is then made where it is to lie, and not copied there.
    #[inline(always)]
    fn leave(&mut self, next: Self, decided: bool, outcome: Outcome<P>) -> Move<P>
        ensures { next_phase_of self.new result ≡ record { phase = next; report = record { decided = decided; skipped = false; outcome = outcome } } }
    {
        *self = next;
        Move {
            decided,
            skipped: false,
            outcome,
        }
    }

    /// The call goes on.
    #[inline(always)]
    pub(crate) fn quiet(&mut self, next: Self) -> Move<P>
        ensures { next_phase_of self.new result ≡ quiet next }
    {
        self.leave(next, false, Outcome::Running)
    }

    /// The call begins anew at the root.
    pub(crate) fn again(&mut self, root: C) -> Move<P>
        ensures { next_phase_of self.new result ≡ again root }
    {
        self.quiet(Phase::Version {
            above: None,
            node: root,
        })
    }

    /// The call takes effect in this step, and ends with its reply.
    pub(crate) fn answered(&mut self, reply: Reply<P>) -> Move<P>
        ensures { next_phase_of self.new result ≡ answered reply }
    {
        self.leave(Phase::Ended, true, Outcome::Done(reply))
    }

    /// The call ends with the reply of a step before.
    pub(crate) fn finished(&mut self, reply: Reply<P>) -> Move<P>
        ensures { next_phase_of self.new result ≡ finished reply }
    {
        self.leave(Phase::Ended, false, Outcome::Done(reply))
    }

    /// The call ends without a reply.
    pub(crate) fn refused(&mut self, refusal: Refusal) -> Move<P>
        ensures { next_phase_of self.new result ≡ refused refusal }
    {
        self.leave(Phase::Ended, false, Outcome::Refused(refusal))
    }

    /// The call takes effect in this step, and goes on.
    #[inline(always)]
    pub(crate) fn decided(&mut self, next: Self) -> Move<P>
        ensures { next_phase_of self.new result ≡ decided next }
    {
        self.leave(next, true, Outcome::Running)
    }

    /// The call goes on without a node that wasn't made.
    pub(crate) fn skipping(&mut self, next: Self) -> Move<P>
        ensures { next_phase_of self.new result ≡ skipping next }
    {
        let report = self.leave(next, false, Outcome::Running);
        Move {
            skipped: true,
            ..report
        }
    }

    /// The closure is asked, for this value or for an absent key.
    #[inline(always)]
    pub(crate) fn asking(&mut self, next: Self, value: Option<P>) -> Move<P>
        ensures { next_phase_of self.new result ≡ asking next value }
    {
        self.leave(next, false, Outcome::Asks(value))
    }
}

impl<P> ScanReport<P> {
    /// The report of a scan's step.
    pub(crate) fn report(self) -> Move<P>
        ensures { result ≡ record { decided = false; skipped = false; outcome = outcome_of self } }
    {
        let outcome = match self {
            ScanReport::Running => Outcome::Running,
            ScanReport::Found { place, key, value } => Outcome::Found { place, key, value },
            ScanReport::Done { count } => Outcome::Scanned { count },
            ScanReport::Refused(refusal) => Outcome::Refused(refusal),
        };
        Move {
            decided: false,
            skipped: false,
            outcome,
        }
    }
}
