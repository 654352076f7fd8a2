//! The index and its collector, one step at a time.
//!
//! `step` takes one, and writes down in the `log` what was asked and what took effect. `laws` say where each node is.

pub(crate) mod laws;
pub(crate) mod log;
pub(crate) mod step;

ghost use Rattle.std.specs.Prelude.{◌≡◌, ◌+◌, ◌<◌, [], true, length, option_map, slice_get, IfOk, IfErr, MatchResult};
ghost use Rattle.std.specs.FinMap.{empty};
ghost use Rattle.std.specs.List.{sum_by};
ghost use Rattle.judge.specs.Answer.{Pairs};
ghost use Rattle.judge.specs.Journal.{IsLegal, Legal};
ghost use Rattle.congee.specs.Heap.{Stands};
ghost use Rattle.congee.specs.Keys.{IsMapOf};
ghost use Rattle.joint.specs.engine.Closing.{IsClosed, IsNotClosed, account_of};
ghost use Rattle.joint.specs.engine.Looks.{Looks};
ghost use Rattle.joint.specs.engine.Standing.{pairs_of};
ghost use Rattle.joint.specs.nodes.Nodes.{nodes};
ghost use Rattle.joint.specs.engine.Journaling.{asks_at, has_place};
ghost use Rattle.joint.specs.nodes.Nearest.{IsNearest};
ghost use Rattle.joint.specs.nodes.Listing.{IsListOf, bytes_of, standing_nodes};
ghost use Rattle.joint.specs.engine.Census.{waiting_nodes};
ghost use Rattle.joint.specs.engine.Log.{opened_log, request_at};
ghost use Rattle.joint.specs.nodes.Opening.{HasPlaces, IsOpened, IsUnjournaled, IsUnopened};
ghost use Rattle.joint.specs.world.World.{IsNew, Holds};
ghost use Rattle.joint.specs.engine.Engine.{IsFresh};
ghost use Rattle.joint.specs.world.Whereabouts.{AllSomewhere, IsWaiting};

use crate::engine::Engine;
use crate::limits::Limits;
use crate::nodes::account::Account;
use crate::nodes::nearest::Near;
use crate::refusal::Refusal;
use crate::steps::{Op, Report};
use crate::world::laws::{waits, whereabouts};
use crate::world::log::Log;
use congee::{Allocator, Drainer, Payload, Small};
use judge::Entry;
use std::alloc::Global;
use std::marker::Model;

/// An index whose removed nodes are reclaimed. Its workers register, pin, and then call; a call of each may be in flight.
#[derive(Drop)]
pub struct World<P: Payload + Small, A: Allocator> {
    pub(crate) engine: Engine<P, A>,
    pub(crate) log: Log<P>,
}

impl<P: Payload + Small, A: Allocator> Model for World<P, A> {
    ghost use Rattle.std.specs.Coded.{codes};
    ghost use Rattle.joint.specs.nodes.MapCode.{map_code};
    ghost use Rattle.std.specs.Prelude.{◌≡◌};
    ghost use Rattle.joint.specs.engine.Census.{AreCounted};
    ghost use Rattle.joint.specs.world.World.{Holds};
    ghost use Rattle.joint.specs.engine.Engine.{World as State};

    ghost Value = { State P };

    ghost coded = { Prim.hlevel (codes, map_code) };

    ghost view = { λ w. record { forest = w.engine.nodes; machines = w.engine.machines.items; calls = w.engine.calls.items; log = w.log } };

    ghost invariant = { λ w. Holds P.same_as P.always_copies (record { forest = w.engine.nodes; machines = w.engine.machines.items; calls = w.engine.calls.items; log = w.log }) × AreCounted w.engine.census w.engine.nodes w.engine.machines.items };
}

impl<P: Payload + Small, A: Allocator> World<P, A> {
    /// An index with a root alone, charged to the allocator, and a place for each worker there may be. Refused as Limits
    /// where one is out of its range, as Budget where the allocator refuses the root, and as Memory.
    pub fn new(alloc: Global, limits: Limits, allocator: A) -> Result<Self, Refusal>
        ensures opened { IfOk result (λ w. IsOpened limits (A.charged_of allocator) (A.limit_of allocator) w.forest) }
        ensures fresh { IfOk result (λ w. IsFresh w) }
        ensures is_new { IfOk result (λ w. IsNew limits w) }
        ensures cause { IfErr result (λ e. IsUnopened limits (A.charged_of allocator) (A.limit_of allocator) e) }
        ensures journal { IfOk result (λ w. w.log ≡ opened_log limits.epoch.participants 0) }
    {
        World::with_places(alloc, limits, allocator, 0)
    }

    /// The same, with a journal of so many places.
    fn with_places(
        alloc: Global,
        limits: Limits,
        allocator: A,
        places: usize,
    ) -> Result<Self, Refusal>
        requires { 0 < places → P.always_copies ≡ true }
        ensures opened { IfOk result (λ w. IsOpened limits (A.charged_of allocator) (A.limit_of allocator) w.forest) }
        ensures fresh { IfOk result (λ w. IsFresh w) }
        ensures is_new { IfOk result (λ w. IsNew limits w) }
        ensures cause { IfErr result (λ e. IsUnopened limits (A.charged_of allocator) (A.limit_of allocator) e) }
        ensures log { IfOk result (λ w. w.log ≡ opened_log limits.epoch.participants places) }
    {
        let engine = Engine::new(alloc, limits, allocator)?;
        match Log::new(alloc, limits.epoch.participants as usize, places) {
            Ok(log) => Ok(World { engine, log }),
            Err(_) => Err(Refusal::Memory),
        }
    }

    /// What holds in every state: tree, calls and collector are sound, the charge is that of the nodes that aren't destroyed,
    /// and each node that was made is held by the call that made it, in the tree, waiting for its destruction, or destroyed.
    pub fn sound(&self)
        ensures holds { Holds P.same_as P.always_copies self.now }
        ensures somewhere { AllSomewhere self.now }
    {
        whereabouts::<P>();
        let _ = &self.engine;
    }

    /// The bytes charged to the allocator: what it had charged before the first node, and the sizes of the nodes that stand.
    pub fn charged(&self) -> u64
        ensures value { result ≡ self.now.forest.charge }
        ensures listed { IsListOf (λ n. Stands (nodes self.now.forest n)) (standing_nodes self.now.forest) }
        ensures sum { result ≡ self.now.forest.base + sum_by (bytes_of self.now.forest) (standing_nodes self.now.forest) }
    {
        self.engine.nodes.weighed();
        self.engine.nodes.charged()
    }

    /// The nodes that wait for their destruction: they stand, out of the tree, and no call holds them as made by it.
    pub fn waiting(&self) -> u64
        ensures listed { IsListOf (IsWaiting self.now) (waiting_nodes self.now) }
        ensures count { result ≡ length (waiting_nodes self.now) }
    {
        waits::<P>();
        self.engine.waiting()
    }

    /// Their sizes, in bytes.
    pub fn waiting_bytes(&self) -> u64
        ensures listed { IsListOf (IsWaiting self.now) (waiting_nodes self.now) }
        ensures sum { result ≡ sum_by (bytes_of self.now.forest) (waiting_nodes self.now) }
    {
        waits::<P>();
        self.engine.waiting_bytes()
    }

    /// The nearest pair of those that stand, for a worker that may ask for emptiness. Refused as such a question, and as
    /// Count where the value can't have an owner more.
    pub(crate) fn nearest(&self, worker: u32, near: Near) -> Result<Option<(u64, P)>, Refusal>
        ensures { Looks P.always_copies self.now worker (λ m pair. IsNearest m near pair) result }
    {
        self.engine.nearest(worker as usize, near)
    }

    /// The entries of the calls that took effect: of all writing ones, and of the look-ups for which a place was free that no
    /// writing call had reserved, in the order of their deciding steps. The journal is legal, and replays to the pairs that
    /// stand; where none is kept it is empty.
    pub fn journal(&self) -> &[Entry<P>]
        ensures entries { result.now ≡ self.now.log.entries }
        ensures legal { IsLegal P.same_as result.now }
        ensures replays { (m : Pairs P) → 0 < self.now.log.places → IsMapOf (nodes self.now.forest) m → Legal P.same_as empty result.now m }
        ensures pairs { 0 < self.now.log.places → Legal P.same_as empty result.now (pairs_of self.now) }
        ensures none { self.now.log.places ≡ 0 → result.now ≡ [] }
    {
        self.log.entries()
    }

    /// What came in with the allocator.
    pub(crate) fn account(&self) -> Account
        ensures { result ≡ account_of self.now }
    {
        self.engine.nodes.account()
    }

    /// Whether the next step of a worker's call takes its closure's answer.
    pub(crate) fn asks(&self, worker: u32) -> bool
        ensures { result ≡ asks_at (slice_get self.now.machines worker) }
    {
        self.engine.asks(worker as usize)
    }

    /// Whether a place of the journal is reserved for a worker's call.
    pub(crate) fn has_place(&self, worker: u32) -> bool
        ensures { result ≡ has_place (slice_get self.now.calls worker) (slice_get self.now.machines worker) }
    {
        self.engine.has_place(worker as usize)
    }

    /// Hands each pair to the drainer, in ascending order of the keys; then the removals that wait are carried out, and the
    /// allocator comes back with the charge that it had when it was handed in. Refused as WorkersLeft while workers are
    /// registered, and the index and the drainer come back.
    pub fn close<D: Drainer<u64, P>>(self, drainer: D) -> Result<(A, D), (Refusal, World<P, A>, D)>
        requires { D.can_drain drainer }
        ensures { MatchResult result (λ r. IsClosed D.drains self drainer (A.charged_of r.0) (A.limit_of r.0) r.1) (λ e. IsNotClosed self drainer e.0 e.1 e.2) }
    {
        match self.close_with_journal(drainer) {
            Ok((allocator, drainer, _)) => Ok((allocator, drainer)),
            Err(back) => Err(back),
        }
    }

    /// The same; its journal comes back too, with no copy.
    pub(crate) fn close_with_journal<D: Drainer<u64, P>>(
        self,
        drainer: D,
    ) -> Result<(A, D, Vec<Entry<P>>), (Refusal, World<P, A>, D)>
        requires { D.can_drain drainer }
        ensures closed { MatchResult result (λ r. IsClosed D.drains self drainer (A.charged_of r.0) (A.limit_of r.0) r.1) (λ e. IsNotClosed self drainer e.0 e.1 e.2) }
        ensures journal { IfOk result (λ r. r.2.items ≡ self.log.entries) }
    {
        let registered = self.engine.registered();
        if registered > 0 {
            return Err((Refusal::WorkersLeft(registered), self, drainer));
        }
        let World { engine, log } = self;
        let (allocator, drainer) = engine.close(drainer);
        Ok((allocator, drainer, log.into_entries()))
    }
}

impl<A: Allocator> World<u64, A> {
    /// An index as `new` opens it, with a journal of so many places, 1 to 4,294,967,295; another number is refused as Limits.
    /// An entry takes no memory later.
    pub fn new_journaled(
        alloc: Global,
        limits: Limits,
        allocator: A,
        places: u64,
    ) -> Result<Self, Refusal>
        ensures opened { IfOk result (λ w. IsOpened limits (A.charged_of allocator) (A.limit_of allocator) w.forest) }
        ensures fresh { IfOk result (λ w. IsFresh w) }
        ensures is_new { IfOk result (λ w. IsNew limits w) }
        ensures cause { IfErr result (λ e. IsUnjournaled limits places (A.charged_of allocator) (A.limit_of allocator) e) }
        ensures journal { IfOk result (λ w. HasPlaces places × (w.log ≡ opened_log limits.epoch.participants places)) }
    {
        if places == 0 || places > 4_294_967_295 {
            return Err(Refusal::Limits);
        }
        World::with_places(alloc, limits, allocator, places as usize)
    }

    /// A worker's call in flight as it was begun, and the last answer of its closure that it took.
    pub fn in_flight(&self, worker: u32) -> Option<(Op<u64>, Option<Option<u64>>)>
        ensures { result ≡ option_map (λ q. (q.op, q.answer)) (request_at self.now.log.requests worker) }
    {
        let request = self.log.request(worker as usize)?;
        Some((request.op, request.answer))
    }
}
