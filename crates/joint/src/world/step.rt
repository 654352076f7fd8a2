//! One step of the index, with what is written down of it.

ghost use Rattle.std.specs.Prelude.{◌≡◌, ◌++◌, ◌&&◌, true, false, Option, None, is_some, slice_get, slice_set};
ghost use Rattle.joint.specs.engine.Intact.{is_reserving};
ghost use Rattle.judge.specs.declared.journal.Entry.{Entry};
ghost use Rattle.joint.specs.declared.engine.request.Request.{Request};
ghost use Rattle.joint.specs.engine.Journaling.{asks_at, entry_of, in_list, kept_if, reply_by};
ghost use Rattle.joint.specs.engine.Log.{has_room, answered_if, is_full, request_at};
ghost use Rattle.joint.specs.world.World.{IsStep};

use crate::engine::Engine;
use crate::engine::request::Request;
use crate::engine::step::refused;
use crate::id::Id;
use crate::refusal::Refusal;
use crate::steps::{Event, Kind, Op, Outcome, Report, Step};
use crate::world::World;
use crate::world::log::Log;
use congee::{Allocator, Noise, Payload, Small};
use judge::Entry;

impl<P: Payload + Small, A: Allocator> World<P, A> {
    /// One step.
    pub fn step(&mut self, step: Step<P>) -> Report<P>
        ensures { IsStep P.same_as P.always_copies self.old step result self.new }
    {
        let Step { worker, event } = step;
        match event {
            Event::Register => self.register(worker),
            Event::Begin(op) => self.begin(worker, op),
            Event::Go(noise) => self.go(worker, noise),
        }
    }

    /// A worker takes the lowest free place.
    fn register(&mut self, worker: u32) -> Report<P>
        ensures { IsStep P.same_as P.always_copies self.old (record { worker = worker; event = Event.Register }) result self.new }
    {
        self.engine.step_in(worker)
    }

    /// A worker begins a call, and what it asks for is written down.
    pub(crate) fn begin(&mut self, worker: u32, op: Op<P>) -> Report<P>
        ensures { IsStep P.same_as P.always_copies self.old (record { worker = worker; event = Event.Begin op }) result self.new }
    {
        let request = Request::of(&op);
        let report = self.engine.step_begin(worker, op);
        let on = report.outcome.is_in_flight();
        self.log.put_request_if(worker as usize, on, request);
        report
    }

    /// The next step of a worker's call. Where no journal is kept, nothing is counted for one, and nothing written down.
    #[inline(always)]
    pub(crate) fn go(&mut self, worker: u32, noise: Noise<Id, P>) -> Report<P>
        ensures { IsStep P.same_as P.always_copies self.old (record { worker = worker; event = Event.Go noise }) result self.new }
    {
        if self.log.is_kept() {
            return self.go_kept(worker, noise);
        }
        let who = worker as usize;
        take_answer(&self.engine, &mut self.log, who, &noise.answer);
        let told = self.engine.step_on(worker, noise);
        self.log
            .put_request_if(who, !told.outcome.is_in_flight(), None);
        told
    }

    /// The next step of a worker's call; its first is refused to a writing one for which the journal has no place.
    #[inline(never)]
    fn go_kept(&mut self, worker: u32, noise: Noise<Id, P>) -> Report<P>
        ensures { IsStep P.same_as P.always_copies self.old (record { worker = worker; event = Event.Go noise }) result self.new }
    {
        if self.finds_journal_full(worker as usize) {
            self.tell_journal_full(worker as usize)
        } else {
            self.go_journaled(worker, noise)
        }
    }

    /// Whether a worker's call is a writing one in its first step for which the journal has no place.
    fn finds_journal_full(&self, who: usize) -> bool
        ensures { result ≡ (is_reserving (slice_get self.now.calls who) && is_full self.now.log) }
    {
        self.engine.is_reserving(who) && self.log.is_full()
    }

    /// Ends such a call.
    fn tell_journal_full(&mut self, who: usize) -> Report<P>
        requires { (is_reserving (slice_get self.old.calls who) && is_full self.old.log) ≡ true }
        ensures { (noise : Noise Id P) → IsStep P.same_as P.always_copies self.old (record { worker = who; event = Event.Go noise }) result self.new }
    {
        self.engine.abandon(who);
        self.log.put_request(who, None);
        refused(Kind::Collection, Refusal::JournalFull)
    }

    /// The next step of any other call.
    fn go_journaled(&mut self, worker: u32, noise: Noise<Id, P>) -> Report<P>
        requires { (is_reserving (slice_get self.old.calls worker) && is_full self.old.log) ≡ false }
        ensures { IsStep P.same_as P.always_copies self.old (record { worker = worker; event = Event.Go noise }) result self.new }
    {
        let who = worker as usize;
        take_answer(&self.engine, &mut self.log, who, &noise.answer);
        let before = self.engine.has_place(who);
        let mut told = self.engine.step_on(worker, noise);
        let after = self.engine.has_place(who);
        self.log.recount(before, after);
        told.kept = keep(&self.engine, &mut self.log, worker, &told);
        self.log
            .put_request_if(who, !told.outcome.is_in_flight(), None);
        told
    }
}

/// What a worker asked for takes the answer that its call takes in its next step, if there is one; it goes where a value can't
/// be copied.
#[inline(always)]
fn take_answer<P: Payload + Small, A: Allocator>(
    engine: &Engine<P, A>,
    log: &mut Log<P>,
    who: usize,
    answer: &Option<Option<P>>,
)
    ensures answered { P.always_copies ≡ true → request_at log.new.requests who ≡ answered_if (asks_at (slice_get engine.now.machines.items who)) answer.now (request_at log.old.requests who) }
    ensures left { log.new ≡ record log.old { requests = slice_set log.old.requests who (request_at log.new.requests who) } }
{
    if answer.is_none() {
        return;
    }
    if engine.asks(who) {
        let request = log.put_request(who, None);
        log.put_request(who, with_answer(request, answer));
    }
}

/// A request with the answer that its call takes.
fn with_answer<P: Payload>(
    request: Option<Request<P>>,
    answer: &Option<Option<P>>,
) -> Option<Request<P>>
    ensures { P.always_copies ≡ true → result ≡ answered_if true answer.now request }
{
    request?.with_answer(answer)
}

/// Writes the entry of a worker's call down that took effect in a step with this report, where a place is free that nobody
/// has reserved; tells whether it did.
fn keep<P: Payload + Small, A: Allocator>(
    engine: &Engine<P, A>,
    log: &mut Log<P>,
    worker: u32,
    told: &Report<P>,
) -> bool
    ensures { (x : Option (Entry P)) × ((P.always_copies ≡ true → told.now.decided ≡ true → has_room log.old ≡ true → x ≡ entry_of worker (request_at log.old.requests worker) (reply_by told.now.outcome (slice_get engine.now.machines.items worker))) × ((result ≡ is_some (kept_if told.now.decided (has_room log.old) x)) × (log.new ≡ record log.old { entries = log.old.entries ++ in_list (kept_if told.now.decided (has_room log.old) x) }))) }
{
    if !told.decided {
        return false;
    }
    if !log.has_room() {
        return false;
    }
    write_down(engine, log, worker, &told.outcome)
}

/// Writes the entry of a worker's call down that took effect in a step with this outcome; tells whether it did.
fn write_down<P: Payload + Small, A: Allocator>(
    engine: &Engine<P, A>,
    log: &mut Log<P>,
    worker: u32,
    outcome: &Outcome<P>,
) -> bool
    requires { has_room log.old ≡ true }
    ensures { (x : Option (Entry P)) × ((P.always_copies ≡ true → x ≡ entry_of worker (request_at log.old.requests worker) (reply_by outcome.now (slice_get engine.now.machines.items worker))) × ((result ≡ is_some x) × (log.new ≡ record log.old { entries = log.old.entries ++ in_list x }))) }
{
    match entry(engine, log, worker, outcome) {
        Some(entry) => {
            log.append(entry);
            true
        }
        None => false,
    }
}

/// The entry of a worker's call that took effect in a step with this outcome.
fn entry<P: Payload + Small, A: Allocator>(
    engine: &Engine<P, A>,
    log: &Log<P>,
    worker: u32,
    outcome: &Outcome<P>,
) -> Option<Entry<P>>
    ensures { P.always_copies ≡ true → result ≡ entry_of worker (request_at log.now.requests worker) (reply_by outcome.now (slice_get engine.now.machines.items worker)) }
{
    let who = worker as usize;
    let reply = engine.reply(who, outcome)?;
    let call = log.request(who)?.call(&reply)?;
    Some(Entry {
        worker,
        call,
        reply,
    })
}
