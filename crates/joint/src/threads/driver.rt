//! A whole call, whoever gives its turns.

ghost use Rattle.std.specs.Prelude.{◌≡◌, ◌≢◌, ℕ, Option, None, Some, IfErr};
ghost use Rattle.std.specs.Int.{from_be_bytes, w64};
ghost use Rattle.std.specs.Option.{option_map};
ghost use Rattle.joint.specs.declared.refusal.Refusal.TheVariants as cause;
ghost use Rattle.joint.specs.declared.steps.Op.{Op};
ghost use Rattle.joint.specs.declared.steps.Report.{Report};
ghost use Rattle.joint.specs.declared.steps.Step.{Step};
ghost use Rattle.congee.specs.Keys.{key_bytes};
ghost use Rattle.joint.specs.threads.Driving.{IsDriven, IsToldInCall, IsTurn, begin_step, ended, go_step};
ghost use Rattle.joint.specs.world.World.{IsStep};
ghost use Rattle.joint.specs.engine.Engine.{World};

use crate::calls::call::put_at;
use crate::refusal::Refusal;
use crate::steps::{Done, Event, Op, Outcome, Report, Step};
use crate::threads::answers::{Answer, Closure};
use congee::{KEY_BYTES, Noise, Payload, Small};
use std::sync::Wait;

/// Gives the turns of one whole call of a worker's: each is one step of the machine.
pub trait Turns<P> {
    /// The worker whose call it is.
    ghost worker: { Self → ℕ };

    /// The call.
    ghost op: { Self → Op P };

    /// What the last turn told; nothing before the first.
    ghost last: { Self → Option (Report P) };

    /// What is known of a turn, from what stood before it to what stands after it.
    ghost gives: { Self → Step P → Report P → Self → Type 0 };

    /// One turn: the begin of the call first; then, until a report ends the call, its next step, with the closure's
    /// answer exactly where the report before asked for it. The last report is kept.
    fn turn(&mut self, step: Step<P>) -> Report<P>
        requires { IsTurn (worker self.old) (op self.old) (last self.old) step }
        ensures worker { worker self.new ≡ worker self.old }
        ensures op { op self.new ≡ op self.old }
        ensures last { last self.new ≡ Some result }
        ensures gives { gives self.old step result self.new }
        ensures told { IsToldInCall result.outcome };
}

/// What a scan writes to a place for a pair that it finds.
pub(crate) trait Pair<P>: Drop {
    /// The pair of a key and a value.
    ghost pair: { ℕ → P → Self };

    /// Its key.
    ghost key_of: { Self → ℕ };

    /// The pair of a key and a value.
    fn pair(key: u64, value: P) -> Self
        ensures { result ≡ pair key value };

    /// Its key.
    fn key(&self) -> u64
        ensures { result ≡ key_of self.now };
}

impl<P: Drop> Pair<P> for (u64, P) {
    ghost pair = { λ key value. (key, value) };

    ghost key_of = { λ pair. pair.0 };

    fn pair(key: u64, value: P) -> Self {
        (key, value)
    }

    fn key(&self) -> u64 {
        self.0
    }
}

impl<P: Drop> Pair<P> for ([u8; KEY_BYTES], P) {
    ghost pair = { λ key value. (key_bytes key, value) };

    ghost key_of = { λ pair. from_be_bytes w64 pair.0 };

    fn pair(key: u64, value: P) -> Self {
        (key.to_be_bytes(), value)
    }

    fn key(&self) -> u64 {
        u64::from_be_bytes(self.0)
    }
}

/// A step by which a call begins or goes on registers nobody and knows no tokens: where the turns that somebody gives are
/// steps of an index, they tell what may be told in a call.
pub fn turns_tell<P: Payload + Small>()
    ensures { (who : ℕ) (op : Op P) (last : Option (Report P)) (s s' : World P) (step : Step P) (r : Report P) → IsTurn who op last step → IsStep P.same_as P.always_copies s step r s' → IsToldInCall r.outcome }
{}

/// A whole call of a worker's, by turns that somebody gives; answers what the last of them told. The closure gives its
/// answer between two turns, and is asked again where the call begins anew. Each pair that a scan finds is written to
/// its place of `found`, if there is that place.
pub fn drive<P: Drop, T: Turns<P>, F: FnMut(Option<P>) -> Option<P>, R: Wait>(
    rt: &R,
    turns: &mut T,
    worker: u32,
    op: Op<P>,
    closure: F,
    found: &mut [(u64, P)],
) -> Result<Done<P>, Refusal>
    requires worker { T.worker turns.old ≡ worker }
    requires op { T.op turns.old ≡ op }
    requires new { T.last turns.old ≡ None }
    requires callable { F.IsAlwaysCallable closure }
    ensures turns { IsDriven T.gives F.step (λ key value. (key, value)) worker op closure turns.old found.old turns.new found.new (ended result) }
    ensures answer { option_map (λ r. r.outcome) (T.last turns.new) ≡ Some (ended result) }
    ensures told { IsToldInCall (ended result) }
{
    let mut answers = Closure::new(closure);
    let done = drive_to(rt, turns, worker, op, &mut answers, found);
    let _ = answers.into_inner();
    done
}

/// The same, whatever answers for the closure, and with places for pairs of any form.
pub(crate) fn drive_to<P: Drop, Q: Pair<P>, T: Turns<P>, C: Answer<P>, R: Wait>(
    rt: &R,
    turns: &mut T,
    worker: u32,
    op: Op<P>,
    answers: &mut C,
    found: &mut [Q],
) -> Result<Done<P>, Refusal>
    requires worker { T.worker turns.old ≡ worker }
    requires op { T.op turns.old ≡ op }
    requires new { T.last turns.old ≡ None }
    requires ready { C.can_answer answers.old }
    ensures turns { IsDriven T.gives C.answers Q.pair worker op answers.old turns.old found.old turns.new found.new (ended result) }
    ensures answer { option_map (λ r. r.outcome) (T.last turns.new) ≡ Some (ended result) }
    ensures told { IsToldInCall (ended result) }
{
    let mut step = begin_step(worker, op);
    for _ in rt.forever() {
        let Report { outcome, .. } = turns.turn(step);
        let answer = match outcome {
            Outcome::Running => None,
            Outcome::Asks(value) => Some(answers.answer(value)),
            Outcome::Found { place, key, value } => {
                put_at(found, place, Q::pair(key, value));
                None
            }
            Outcome::Done(done) => return Ok(done),
            Outcome::Refused(refusal) => return Err(refusal),
            Outcome::Registered(_) => unreachable!(),
        };
        step = go_step(worker, answer);
    }
    unreachable!()
}

/// The step that begins a worker's call.
pub(crate) fn begin_step<P>(worker: u32, op: Op<P>) -> Step<P>
    ensures { result ≡ begin_step worker op }
{
    Step {
        worker,
        event: Event::Begin(op),
    }
}

/// The next step of a worker's call, with the closure's answer where there is one.
pub(crate) fn go_step<P>(worker: u32, answer: Option<Option<P>>) -> Step<P>
    ensures { result ≡ go_step worker answer }
{
    Step {
        worker,
        event: Event::Go(Noise {
            fail: false,
            seen: None,
            answer,
        }),
    }
}
