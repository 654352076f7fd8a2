//! What an index keeps under its lock, and the holds of that lock.

ghost use Rattle.std.specs.Prelude.{◌≡◌, ◌↔◌, ℕ, Some, IsTrue, nat_eq, true, IfOk, MatchResult};
ghost use Rattle.joint.specs.declared.steps.Op.{Op};
ghost use Rattle.joint.specs.declared.steps.Report.{Report};
ghost use Rattle.joint.specs.declared.steps.Step.{Step};
ghost use Rattle.joint.specs.engine.Closing.{IsClosed, IsNotClosed};
ghost use Rattle.joint.specs.threads.Driving.{IsToldInCall};
ghost use Rattle.joint.specs.threads.Threads.{ByHold, ByOwn, ByStep, IsHold, IsOwn, OwnTurn, call_in_flight, register_step};
ghost use Rattle.joint.specs.world.World.{IsStep};
ghost use Rattle.joint.specs.engine.Engine.{IsOfCall, World as State};

use crate::refusal::Refusal;
use crate::steps::{Event, Op, Outcome, Report, Step};
use crate::threads::journaled_world::{is_same_op, stopped};
use crate::world::World;
use congee::{Allocator, Drainer, Payload, Small};
use std::snapshot::Snapshot;

/// What an index keeps under its lock; each turn of a call is one hold of it.
pub(crate) trait Locked<P: Payload + Small>: Drop {
    /// Allocates the nodes.
    type Account: Allocator;
    /// What is known of a call between its turns.
    type Memo: Drop;

    /// What it keeps beside the machine, and gives back at the close.
    type Kept: Drop;

    /// The call that it is of.
    ghost asked: { Self.Memo → Op P };

    /// The machine that it has.
    ghost machine: { Self → State P };

    /// What it gives back beside the machine that was closed.
    ghost keeps: { Self.Kept → State P → Type 0 };

    /// What a turn of this worker's call does, from the machine before it to the one after it.
    ghost turns: { State P → ℕ → Op P → Step P → Report P → State P → Type 0 };

    /// What is known of it where a lock hides both.
    ghost holds: { ℕ → Op P → Step P → Report P → Type 0 };

    /// What to know of a call.
    fn memo(op: &Op<P>) -> Self::Memo
        ensures { asked result ≡ op.now };

    /// One turn of a worker's call.
    fn turn(&mut self, call: &Self::Memo, step: Step<P>) -> Report<P>
        requires { IsOfCall step.event }
        ensures turns { turns (machine self.old) step.worker (asked call.now) step result (machine self.new) }
        ensures holds { holds step.worker (asked call.now) step result }
        ensures told { IsToldInCall result.outcome };

    /// A worker registers: one step.
    fn register(&mut self) -> Report<P>
        ensures { IsStep P.same_as P.always_copies (machine self.old) register_step result (machine self.new) };

    /// The machine.
    fn world(&self) -> &World<P, Self::Account>
        ensures { result.now ≡ machine self.now };

    /// Ends it, where no worker is registered.
    fn close<D: Drainer<u64, P>>(
        self,
        drainer: D,
    ) -> Result<(Self::Account, D, Self::Kept), (Refusal, Self, D)>
        requires { D.can_drain drainer }
        ensures closed { MatchResult result (λ r. IsClosed D.drains (machine self) drainer (Self.Account.charged_of r.0) (Self.Account.limit_of r.0) r.1) (λ e. IsNotClosed (machine self) drainer e.0 (machine e.1) e.2) }
        ensures kept { IfOk result (λ r. keeps r.2 (machine self)) };
}

/// The machine alone.
pub(crate) struct Plain<P: Payload + Small, A: Allocator> {
    world: World<P, A>,
}

impl<P: Payload + Small, A: Allocator> Drop for Plain<P, A> {
    fn drop(self) {
        let Plain { world: _ } = self;
    }
}

impl<P: Payload + Small, A: Allocator> Plain<P, A> {
    pub(crate) fn new(world: World<P, A>) -> Self {
        Plain { world }
    }
}

impl<P: Payload + Small, A: Allocator> Locked<P> for Plain<P, A> {
    type Account = A;

    type Memo = Snapshot<Op<P>>;

    type Kept = ();

    ghost asked = { λ m. m.value };

    ghost machine = { λ p. p.world };

    ghost keeps = { λ _ _. Unit {0} };

    ghost turns = { ByStep P.same_as P.always_copies };

    ghost holds = { ByHold P.same_as P.always_copies };

    fn memo(op: &Op<P>) -> Snapshot<Op<P>>
        ensures { result.value ≡ op.now }
    {
        Snapshot::of(op)
    }

    fn turn(&mut self, _call: &Snapshot<Op<P>>, step: Step<P>) -> Report<P>
        requires { IsOfCall step.event }
        ensures turns { IsStep P.same_as P.always_copies self.old.world step result self.new.world }
        ensures holds { IsHold P.same_as P.always_copies step result }
        ensures told { IsToldInCall result.outcome }
    {
        self.world.step(step)
    }

    fn register(&mut self) -> Report<P>
        ensures { IsStep P.same_as P.always_copies self.old.world register_step result self.new.world }
    {
        self.world.step(registration())
    }

    fn world(&self) -> &World<P, A>
        ensures { result.now ≡ self.now.world }
    {
        &self.world
    }

    fn close<D: Drainer<u64, P>>(self, drainer: D) -> Result<(A, D, ()), (Refusal, Self, D)>
        requires { D.can_drain drainer }
        ensures closed { MatchResult result (λ r. IsClosed D.drains self.world drainer (A.charged_of r.0) (A.limit_of r.0) r.1) (λ e. IsNotClosed self.world drainer e.0 e.1.world e.2) }
        ensures kept { IfOk result (λ r. Unit {0}) }
    {
        let Plain { world } = self;
        match world.close(drainer) {
            Ok((allocator, drainer)) => Ok((allocator, drainer, ())),
            Err((refusal, world, drainer)) => Err((refusal, Plain { world }, drainer)),
        }
    }
}

/// The machine alone, of words: a turn of a call is a step of a machine in which that call is what its worker has in flight.
pub(crate) struct Words<A: Allocator> {
    world: World<u64, A>,
}

impl<A: Allocator> Drop for Words<A> {
    fn drop(self) {
        let Words { world: _ } = self;
    }
}

impl<A: Allocator> Words<A> {
    pub(crate) fn new(world: World<u64, A>) -> Self {
        Words { world }
    }

    /// Whether a worker has this call in flight.
    fn has_in_flight(&self, who: u32, op: &Op<u64>) -> bool
        ensures { IsTrue result ↔ (call_in_flight self.now.world who ≡ Some op.now) }
    {
        match self.world.in_flight(who) {
            Some((flying, _)) => is_same_op(&flying, op),
            None => false,
        }
    }

    /// Whether a step is one of this call of a worker's.
    fn is_own(&self, who: u32, op: &Op<u64>, event: &Event<u64>) -> bool
        ensures { IsTrue result ↔ IsOwn self.now.world who op.now event.now }
    {
        match event {
            Event::Register => false,
            Event::Begin(_) => true,
            Event::Go(_) => self.has_in_flight(who, op),
        }
    }

    /// One turn of a call: its begin; then, while it is what its worker has in flight, its next step.
    fn take(&mut self, op: &Op<u64>, step: Step<u64>) -> Report<u64>
        requires { IsOfCall step.event }
        ensures turn { OwnTurn nat_eq true self.old.world step.worker op.now step result self.new.world }
        ensures told { IsToldInCall result.outcome }
    {
        self.world.sound();
        if !self.is_own(step.worker, op, &step.event) {
            return stopped(Outcome::Refused(Refusal::Idle));
        }
        self.world.step(step)
    }
}

impl<A: Allocator> Locked<u64> for Words<A> {
    type Account = A;

    type Memo = Op<u64>;

    type Kept = ();

    ghost asked = { λ op. op };

    ghost machine = { λ w. w.world };

    ghost keeps = { λ _ _. Unit {0} };

    ghost turns = { OwnTurn nat_eq true };

    ghost holds = { ByOwn nat_eq true };

    fn memo(op: &Op<u64>) -> Op<u64>
        ensures { result ≡ op.now }
    {
        *op
    }

    fn turn(&mut self, call: &Op<u64>, step: Step<u64>) -> Report<u64>
        requires { IsOfCall step.event }
        ensures turns { OwnTurn nat_eq true self.old.world step.worker call.now step result self.new.world }
        ensures holds { ByOwn nat_eq true step.worker call.now step result }
        ensures told { IsToldInCall result.outcome }
    {
        self.take(call, step)
    }

    fn register(&mut self) -> Report<u64>
        ensures { IsStep nat_eq true self.old.world register_step result self.new.world }
    {
        self.world.step(registration())
    }

    fn world(&self) -> &World<u64, A>
        ensures { result.now ≡ self.now.world }
    {
        &self.world
    }

    fn close<D: Drainer<u64, u64>>(self, drainer: D) -> Result<(A, D, ()), (Refusal, Self, D)>
        requires { D.can_drain drainer }
        ensures closed { MatchResult result (λ r. IsClosed D.drains self.world drainer (A.charged_of r.0) (A.limit_of r.0) r.1) (λ e. IsNotClosed self.world drainer e.0 e.1.world e.2) }
        ensures kept { IfOk result (λ r. Unit {0}) }
    {
        let Words { world } = self;
        match world.close(drainer) {
            Ok((allocator, drainer)) => Ok((allocator, drainer, ())),
            Err((refusal, world, drainer)) => Err((refusal, Words { world }, drainer)),
        }
    }
}

/// The step by which a worker registers.
pub(crate) fn registration<P>() -> Step<P>
    ensures { result ≡ register_step }
{
    Step {
        worker: 0,
        event: Event::Register,
    }
}
