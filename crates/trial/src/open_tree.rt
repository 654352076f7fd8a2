//! A tree with what stands behind its workers' calls, which go on from line to line.
ghost use Rattle.std.specs.Prelude.{◌≡◌, ◌<◌, [], None, OnOk, IfOk, IfErr, slice_set, length, replicate};
ghost use Rattle.trial.specs.Callers.{caller_at, fresh, noise_of, after_step};
ghost use Rattle.trial.specs.Calling.{IsUncalled, Registers, Begins, Goes, GoesOn, Calls};
ghost use Rattle.trial.specs.Places.{places_at, filled};
ghost use Rattle.trial.specs.declared.end.End.TheVariants as End;

use crate::caller::{Caller, Closure};
use crate::end::End;
use crate::places::Places;
use congee::{Limited, Noise};
use joint::{Event, Id, Op, Outcome, Step, World};
use std::alloc::{AllocError, Global};
use std::mem;

/// The most workers of a tree.
const CALLERS: usize = 256;

/// The most steps of a call that its line doesn't begin alone.
const STEPS_MAX: u64 = 10_000;

/// A tree with what stands behind its workers' calls.
#[derive(Drop)]
pub struct OpenTree {
    pub world: World<u64, Limited>,
    /// By the worker's number.
    pub callers: Vec<Caller>,
    /// The places of each worker's scan, by the worker's number.
    pub scans: Vec<Places>,
}

/// What stands behind the calls of workers none of whom has begun one.
fn no_callers(alloc: Global) -> Result<Vec<Caller>, AllocError>
    ensures { IfOk result (λ callers. callers.items ≡ replicate 256 (fresh None)) }
{
    let mut callers = Vec::with_capacity(alloc, CALLERS)?;
    for _i in 0..CALLERS {
        callers.push(Caller {
            closure: None,
            answer: None,
        })?;
    }
    Ok(callers)
}

/// The places of workers none of whom has begun a scan.
fn no_scans(alloc: Global) -> Result<Vec<Places>, AllocError>
    ensures { IfOk result (λ scans. scans.items ≡ replicate 256 []) }
{
    let mut scans = Vec::new(alloc);
    for _i in 0..CALLERS {
        scans.push(Places::new(alloc))?;
    }
    Ok(scans)
}

impl OpenTree {
    /// A tree none of whose workers has a call.
    pub fn new(alloc: Global, world: World<u64, Limited>) -> Result<OpenTree, AllocError>
        ensures { IfOk result (λ index. IsUncalled world index) }
    {
        let callers = no_callers(alloc)?;
        let scans = no_scans(alloc)?;
        Ok(OpenTree {
            world,
            callers,
            scans,
        })
    }

    /// A worker's call is in flight: this closure stands behind it, and a scan has filled no place.
    fn start(&mut self, worker: u32, closure: Option<Closure>)
        ensures callers { self.new.callers.items ≡ slice_set self.old.callers.items worker (fresh closure) }
        ensures scans { self.new.scans.items ≡ slice_set self.old.scans.items worker [] }
        ensures world { self.new.world ≡ self.old.world }
    {
        let worker = worker as usize;
        if worker < self.callers.len() {
            self.callers[worker] = Caller {
                closure,
                answer: None,
            };
        }
        if worker < self.scans.len() {
            self.scans[worker].clear();
        }
    }

    /// What comes from outside to the next step of a worker's call.
    fn noise(&self, worker: u32, fail: bool) -> Noise<Id, u64>
        ensures { result ≡ noise_of (caller_at self.now.callers.items worker) fail }
    {
        let answer = match self.callers.get(worker as usize) {
            Some(caller) => caller.answer,
            None => None,
        };
        Noise {
            fail,
            seen: None,
            answer,
        }
    }

    /// After a step of a worker's call that ended so: where it asked, the closure has answered, and where it told a pair,
    /// that stands in its place.
    fn after_step(&mut self, worker: u32, outcome: &Outcome<u64>) -> Result<(), AllocError>
        ensures callers { OnOk result (self.new.callers.items ≡ slice_set self.old.callers.items worker (after_step (caller_at self.old.callers.items worker) outcome.now)) }
        ensures scans { OnOk result (self.new.scans.items ≡ filled self.old.scans.items worker outcome.now) }
        ensures world { OnOk result (self.new.world ≡ self.old.world) }
    {
        let worker = worker as usize;
        if worker < self.callers.len() {
            self.callers[worker].after_step(outcome);
        }
        let Outcome::Found { place, key, value } = outcome else {
            return Ok(());
        };
        if worker < self.scans.len() {
            self.scans[worker].fill(*place, *key, *value)?;
        }
        Ok(())
    }

    /// Takes the places of a worker's scan; none of them is filled then.
    pub fn take_scan(&mut self, alloc: Global, worker: u32) -> Places
        ensures places { result ≡ places_at self.old.scans.items worker }
        ensures scans { self.new.scans.items ≡ slice_set self.old.scans.items worker [] }
        ensures world { self.new.world ≡ self.old.world }
        ensures callers { self.new.callers ≡ self.old.callers }
    {
        if (worker as usize) < self.scans.len() {
            return mem::replace(&mut self.scans[worker as usize], Places::new(alloc));
        }
        Places::new(alloc)
    }

    /// A worker takes the lowest free place.
    pub fn register(&mut self) -> Outcome<u64>
        ensures { Registers self.old result self.new }
    {
        let step = Step {
            worker: 0,
            event: Event::Register,
        };
        self.world.step(step).outcome
    }

    /// The first step of a call, and what its closure is from then on.
    pub fn begin(&mut self, worker: u32, op: Op<u64>, closure: Option<Closure>) -> Outcome<u64>
        ensures { Begins self.old worker op closure result self.new }
    {
        let step = Step {
            worker,
            event: Event::Begin(op),
        };
        let outcome = self.world.step(step).outcome;
        if outcome.is_in_flight() {
            self.start(worker, closure);
        }
        outcome
    }

    /// One further step of the call in flight.
    pub fn go(&mut self, worker: u32, fail: bool) -> Result<Outcome<u64>, End>
        ensures ok { IfOk result (λ told. Goes self.old worker fail told self.new) }
        ensures err { IfErr result (λ e. e ≡ End.Memory) }
    {
        let step = Step {
            worker,
            event: Event::Go(self.noise(worker, fail)),
        };
        let outcome = self.world.step(step).outcome;
        self.after_step(worker, &outcome)?;
        Ok(outcome)
    }

    /// So many further steps of a call that stands so, fewer where it ends.
    pub fn go_on(
        &mut self,
        worker: u32,
        most: u64,
        outcome: Outcome<u64>,
    ) -> Result<Outcome<u64>, End>
        ensures ok { IfOk result (λ told. GoesOn worker most self.old outcome told self.new) }
        ensures err { IfErr result (λ e. e ≡ End.Memory) }
    {
        let mut outcome = outcome;
        for _i in 0..most {
            if !outcome.is_in_flight() {
                return Ok(outcome);
            }
            outcome = self.go(worker, false)?;
        }
        Ok(outcome)
    }

    /// A whole call, or its first steps where it takes more than a line may.
    pub fn call(
        &mut self,
        worker: u32,
        op: Op<u64>,
        closure: Option<Closure>,
    ) -> Result<Outcome<u64>, End>
        ensures ok { IfOk result (λ told. Calls self.old worker op closure told self.new) }
        ensures err { IfErr result (λ e. e ≡ End.Memory) }
    {
        let begun = self.begin(worker, op, closure);
        self.go_on(worker, STEPS_MAX - 1, begun)
    }
}
