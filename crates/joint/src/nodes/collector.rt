//! The collector's calls on the nodes.

ghost use Rattle.std.specs.Prelude.{◌≡◌, ◌<◌, ℕ, List, ◌∷◌, [], Some, None, IfOk, OnOk, OnErr, MatchResult, MatchOption, length, unwrap_or, true, false};
ghost use Rattle.std.specs.Result.{result_ok};
ghost use Rattle.crossbeam_epoch.specs.Limits.{bag_places};
ghost use Rattle.crossbeam_epoch.specs.declared.bag.Work.{Work};
ghost use Rattle.crossbeam_epoch.specs.world.Machine.{place, registered, after_deferral};
ghost use Rattle.crossbeam_epoch.specs.world.Progress.{Moves};
ghost use Rattle.crossbeam_epoch.specs.world.Reach.{Moment, Quiet, Marked, moment, step_act, HasMoments};
ghost use Rattle.crossbeam_epoch.specs.world.History.{Deferred};
ghost use Rattle.crossbeam_epoch.specs.world.Steps.{IsReport, after, destroy_fault};
ghost use Rattle.joint.specs.nodes.Nodes.{IsCharged, IsBeside, with_collector};
ghost use Rattle.joint.specs.nodes.Slots.{slot_names};

use crate::id::Id;
use crate::nodes::Nodes;
use crate::nodes::slot::Slot;
use congee::{Allocator, Payload, Small};
use crossbeam_epoch::{Event, Fault, Report, World};

impl<P: Payload + Small, A: Allocator> Nodes<P, A> {
    /// Gives out the lowest free place of the collector's table; TableFull where every place is taken.
    pub fn register(&mut self) -> Result<usize, Fault>
        ensures state { MatchResult result (λ n. self.new ≡ with_collector self.old (registered self.old.collector n)) (λ e. (e ≡ Fault.TableFull) × (self.new ≡ self.old)) }
        ensures free { IfOk result (λ n. (n < length self.old.collector.table) × ((place self.old.collector n).registered ≡ false)) }
        ensures lowest { (q : ℕ) → q < unwrap_or (result_ok result) (length self.old.collector.table) → (place self.old.collector q).registered ≡ true }
        ensures told { (h : List Moment) → HasMoments slot_names h self.old.collector → HasMoments slot_names (moment slot_names Quiet self.new.collector ∷ h) self.new.collector }
    {
        World::<Slot<P>, ()>::order();
        self.collector.register()
    }

    /// One step of the collector. What it destroys is taken off the charge, and off what waits.
    pub fn collect(&mut self, who: usize, event: Event) -> Report
        ensures report { IsReport self.old.collector who event result }
        ensures state { self.new.collector ≡ after self.old.collector who event result.outcome }
        ensures moves { Moves self.old.collector who result.called self.new.collector }
        ensures told { (h : List Moment) → HasMoments slot_names h self.old.collector → HasMoments slot_names (moment slot_names (step_act self.old.collector who event result) self.new.collector ∷ h) self.new.collector }
        ensures beside { IsBeside self.old self.new }
        ensures charged { IsCharged self.new }
    {
        World::<Slot<P>, ()>::order();
        World::<Slot<P>, ()>::cells();
        let report = self.collector.step(who, event);
        match report.called {
            None => report,
            Some((_, None)) => report,
            Some((_, Some(name))) => {
                let size = self.counts.take_off(name.cell);
                self.allocator.deallocate(size);
                report
            }
        }
    }

    /// Defers the destruction of a node, and answers the ticket; refused as the collector refuses it.
    pub fn defer(&mut self, who: usize, node: Id) -> Result<u64, Fault>
        ensures ticket { IfOk result (λ t. t ≡ self.old.collector.next) }
        ensures state { OnOk result (self.new ≡ with_collector self.old (after_deferral self.old.collector who (Work.Remove node.name))) }
        ensures back { OnErr result (self.new ≡ self.old) }
        ensures fault { MatchResult result (λ t. destroy_fault self.old.collector who node.name ≡ None) (λ e. MatchOption (destroy_fault self.old.collector who node.name) ((e ≡ Fault.Memory) × (length (place self.old.collector who).bag ≡ bag_places) × (self.old.collector.room ≡ 0)) (λ f. e ≡ f)) }
        ensures told { (h : List Moment) → HasMoments slot_names h self.old.collector → MatchResult result (λ t. HasMoments slot_names (moment slot_names (Marked (Deferred t (Some node.name))) self.new.collector ∷ h) self.new.collector) (λ e. HasMoments slot_names (moment slot_names Quiet self.new.collector ∷ h) self.new.collector) }
    {
        self.collector.defer_destroy(who, node.name)
    }
}
