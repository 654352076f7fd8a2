//! What follows for a user from a history that fits.

ghost use Rattle.std.specs.Prelude.{◌≡◌, ◌≢◌, ◌⊎◌, ◌<◌, ◌≤◌, ◌+◌, ℕ, true, false, List, [], ◌∷◌, Option, None, Some, is_some, length, Contains, nat_lt, ◌++◌, if◌then◌else◌};
ghost use Rattle.std.specs.Int.{div_ceil};
ghost use Rattle.crossbeam_epoch.specs.declared.names.Name.{Name};
ghost use Rattle.crossbeam_epoch.specs.declared.names.Ptr.{Ptr};
ghost use Rattle.crossbeam_epoch.specs.world.Machine.{State, place, opened, registered, deferred, after_deferral, with_store, with_roots, name_of};
ghost use Rattle.crossbeam_epoch.specs.world.Sealing.{IsSealing, DestroyedOnce, destructions};
ghost use Rattle.crossbeam_epoch.specs.world.Store.{Store, Sets, IsNext, opened_store, value_at, was_given, placed, replaced, emptied};
ghost use Rattle.crossbeam_epoch.specs.world.History.{Mark, IsGraceful, AreCalledLater, WasDeferred, Deferred, began, times_called, deferrals};
ghost use Rattle.crossbeam_epoch.specs.world.Fits.{Fits, times_held, job_count, weight};
ghost use Rattle.crossbeam_epoch.specs.declared.world.report.Op.{Op};
ghost use Rattle.crossbeam_epoch.specs.declared.world.report.Report.{Report};
ghost use Rattle.crossbeam_epoch.specs.declared.world.report.Step.{Step};
ghost use Rattle.crossbeam_epoch.specs.world.Steps.{after, marks, state_after, history_after, AreReports, IsReport, defer_fault};
ghost use Rattle.crossbeam_epoch.specs.world.Log.{LogLine, Stepped, Accepted, log_after, history_of, guards, Shows};
ghost use Rattle.crossbeam_epoch.specs.world.Calls.{IsGoing, IsCall};
ghost use Rattle.crossbeam_epoch.specs.world.Progress.{Orderly, Moves, Begins, IsOn, GoesOn, IsResting, KeepsCalls, collects};
ghost use Rattle.crossbeam_epoch.specs.world.Reach.{Act, Moment, with_act, marks_of, moment, moments_after, step_act, InReach, IsIn, WasIn, WasLive, changes_pin, IsBy, IsDestruction, IsNow, EntersLive, DestructionsTold, HasMoments, IsCareful, KeepsLinks, Visible, links_of};
ghost use Rattle.crossbeam_epoch.specs.world.Rounds.{IsQuiet, Finishes, IsRound, AreRounds, TakesOff, IsSealedBag, IsEmptied};
ghost use Rattle.crossbeam_epoch.specs.Limits.{bag_places};

use crate::bag::{Deferral, Sealed, Work};
use crate::limits::Limits;
use crate::names::{Links, Pointable};
use crate::task::Task;
use crate::world::World;
use crate::world::participant::Phase;
use crate::world::report::{Event, Outcome};

impl<T: Links + Pointable + Drop, J: Task> World<T, J> {
    /// No job was called while a participant blocked it, and while a stretch lasts the epoch is at most one past its beginning.
    pub fn grace()
        ensures called { (h : List Mark) (s : State T J) → Fits h s → IsGraceful h }
        ensures epoch { (h : List Mark) (s : State T J) (q e : ℕ) → Fits h s → began h q ≡ Some e → (e ≤ s.epoch) × (s.epoch ≤ e + 1) }
    {}

    /// Each accepted job stands in exactly one bag or was called once, and `waiting` counts those that stand in bags.
    pub fn once()
        ensures each { (h : List Mark) (s : State T J) (t : ℕ) → Fits h s → t < s.next → times_held s t + times_called h t ≡ 1 }
        ensures waiting { (h : List Mark) (s : State T J) → Fits h s → s.waiting ≡ job_count s }
    {}

    /// Where the user is careful, what a stretch saw in reach isn't destroyed while it lasts, and what such a cell holds was seen too.
    pub fn reach()
        ensures stands { (h : List Moment) (s : State T J) (p : ℕ) (n : Name) → HasMoments T.names h s → IsCareful h → is_some (began (marks_of h) p) ≡ true → Visible h p n → is_some (value_at s.store n) ≡ true }
        ensures closed { (m : Moment) (h : List Moment) (p : ℕ) (c n : Name) → KeepsLinks (m ∷ h) → Visible (m ∷ h) p c → Contains (m.links c) n → Visible (m ∷ h) p n }
    {}

    /// The history is read off the steps, their reports and the tickets alone, its epochs aside, and so are the guards that are out.
    pub fn watched()
        ensures opened { (limits : Limits) (roots : ℕ) → Shows {T = T} {J = J} [] [] (opened limits roots) }
        ensures step { (log : List LogLine) (h : List Mark) (s : State T J) (step : Step) (r : Report) → IsReport s step.who step.event r → Shows log h s → Shows (Stepped step r ∷ log) (marks s step.who step.event r h) (after s step.who step.event r.outcome) }
        ensures run { (log : List LogLine) (h : List Mark) (s : State T J) (steps : List Step) (reports : List Report) → AreReports s steps reports → Shows log h s → Shows (log_after steps reports log) (history_after s steps reports h) (state_after s steps reports) }
        ensures moments { (log : List LogLine) (h : List Moment) (s : State T J) (steps : List Step) (reports : List Report) → AreReports s steps reports → Shows log (marks_of h) s → Shows (log_after steps reports log) (marks_of (moments_after T.names s steps reports h)) (state_after s steps reports) }
        ensures registered { (log : List LogLine) (h : List Mark) (s : State T J) (n : ℕ) → Shows log h s → Shows log h (registered s n) }
        ensures deferred { (log : List LogLine) (h : List Mark) (s : State T J) (who : ℕ) (work : Work J) → Shows log h s → Shows (Accepted s.next (name_of work) ∷ log) (Deferred s.next (name_of work) ∷ h) (after_deferral s who work) }
        ensures stored { (log : List LogLine) (h : List Mark) (s : State T J) (st : Store T) → Shows log h s → Shows log h (with_store s st) }
        ensures rooted { (log : List LogLine) (h : List Mark) (s : State T J) (roots : List Ptr) → Shows log h s → Shows log h (with_roots s roots) }
    {}

    /// What the log alone tells: no job was called while a participant blocked it; each accepted job stands in one bag or was
    /// called once, a cell's removal only after it was accepted; a stretch lasts exactly while guards are out, and what it saw in
    /// reach isn't destroyed then.
    pub fn log()
        ensures called { (log : List LogLine) (h : List Mark) (s : State T J) → Shows log h s → Fits h s → IsGraceful (history_of log) }
        ensures later { (log : List LogLine) (h : List Mark) (s : State T J) → Shows log h s → Fits h s → AreCalledLater (history_of log) }
        ensures once { (log : List LogLine) (h : List Mark) (s : State T J) (t : ℕ) → Shows log h s → Fits h s → (times_held s t + times_called (history_of log) t ≡ deferrals (history_of log) t) × (deferrals (history_of log) t ≡ (if nat_lt t s.next then 1 else 0)) }
        ensures pinned { (log : List LogLine) (h : List Mark) (s : State T J) (q : ℕ) → Shows log h s → Fits h s → (is_some (place s q).word ≡ nat_lt 0 (guards log q)) × (is_some (began (history_of log) q) ≡ nat_lt 0 (guards log q)) }
        ensures stands { (log : List LogLine) (h : List Moment) (s : State T J) (p : ℕ) (n : Name) → Shows log (marks_of h) s → HasMoments T.names h s → IsCareful h → 0 < guards log p → Visible h p n → is_some (value_at s.store n) ≡ true }
    {}

    /// What a step marks: that a guard of the participant's own comes or goes, that one job is called, or nothing. So the
    /// stretch of every other participant goes on, no removal is accepted, and a cell that the step destroys was deferred.
    pub fn acts()
        ensures step { (s : State T J) (who : ℕ) (event : Event) (r : Report) → IsBy who (step_act s who event r) }
        ensures marks { (h : List Mark) (s : State T J) (who : ℕ) (event : Event) (r : Report) → with_act (step_act s who event r) h ≡ marks s who event r h }
        ensures others { (who p : ℕ) (act : Act) → IsBy who act → p ≢ who → changes_pin act p ≡ false }
        ensures began { (h : List Mark) (p : ℕ) (act : Act) → changes_pin act p ≡ false → began (with_act act h) p ≡ began h p }
        ensures deferred { (h : List Mark) (who t : ℕ) (n : Name) (act : Act) → IsBy who act → WasDeferred (with_act act h) t n → WasDeferred h t n }
        ensures destroyed { (h : List Mark) (who : ℕ) (n : Name) (act : Act) → IsBy who act → IsDestruction act n → AreCalledLater (with_act act h) → (t : ℕ) × WasDeferred h t n }
    {}

    /// Whatever becomes of the cells or the roots, the history of guards and jobs fits, and the bags stand in order. Where
    /// the act tells what is destroyed, and no name that was given is given anew, so do the moments.
    pub fn stored()
        ensures fits { (h : List Mark) (s : State T J) (st : Store T) → Fits h s → Fits h (with_store s st) }
        ensures rooted { (h : List Mark) (s : State T J) (roots : List Ptr) → Fits h s → Fits h (with_roots s roots) }
        ensures orderly { (s : State T J) (st : Store T) (roots : List Ptr) → Orderly s → Orderly (with_roots (with_store s st) roots) }
        ensures told { (h : List Moment) (s : State T J) (st : Store T) (act : Act) → HasMoments T.names h s → with_act act (marks_of h) ≡ marks_of h
            → ((n : Name) → is_some (value_at s.store n) ≡ true → is_some (value_at st n) ≡ false → IsDestruction act n)
            → ((n : Name) → was_given s.store n ≡ true → was_given st n ≡ true)
            → HasMoments T.names (moment T.names act (with_store s st) ∷ h) (with_store s st) }
    {}

    /// A value that is placed, replaced or taken out changes what one name stands for, and no other's.
    pub fn cells()
        ensures placed { (st : Store T) (n : Name) (v : T) → IsNext st n → Sets st n (Some v) (placed st n v) }
        ensures vacant { (st : Store T) (n : Name) → IsNext st n → (value_at st n ≡ None) × (was_given st n ≡ false) }
        ensures replaced { (st : Store T) (n : Name) (v : T) → is_some (value_at st n) ≡ true → Sets st n (Some v) (replaced st n.cell v) }
        ensures emptied { (st : Store T) (n : Name) → is_some (value_at st n) ≡ true → Sets st n None (emptied st n.cell) }
        ensures given { (st : Store T) (n : Name) → is_some (value_at st n) ≡ true → was_given st n ≡ true }
    {}

    /// What paths lead to in a state was in reach, and every stretch sees it; and what a stretch saw was in reach.
    pub fn seen()
        ensures now { (h : List Moment) (s : State T J) (p : ℕ) (n : Name) → IsNow T.names h s → InReach s.roots (links_of T.names s.store) n → Visible h p n }
        ensures newest { (m : Moment) (h : List Moment) (s : State T J) (n : Name) → IsNow T.names (m ∷ h) s → InReach s.roots (links_of T.names s.store) n → IsIn m n }
        ensures before { (h : List Moment) (p : ℕ) (n : Name) → Visible h p n → WasIn h n }
        ensures fewer { (roots : List Ptr) (links less : Name → List Name) (n : Name) → ((c m : Name) → Contains (less c) m → Contains (links c) m) → InReach roots less n → InReach roots links n }
        ensures enters { (m : Moment) (h : List Moment) (s : State T J) → IsNow T.names h s → ((n : Name) → IsIn m n → (m.live n ≡ true) ⊎ InReach s.roots (links_of T.names s.store) n) → EntersLive h → EntersLive (m ∷ h) }
        ensures ended { (m : Moment) (h : List Moment) (s : State T J) (n : Name) → IsNow T.names h s → DestructionsTold (m ∷ h) → is_some (value_at s.store n) ≡ true → m.live n ≡ false → IsDestruction m.act n }
        ensures lived { (h : List Moment) (s : State T J) (n : Name) → IsNow T.names h s → is_some (value_at s.store n) ≡ true → WasLive h n }
    {}

    /// A step of any participant keeps the order of the bags, the roots and the limits; each job that it doesn't call stands
    /// as before, and of the cells it empties the one that its call told.
    pub fn order()
        ensures moves { (s : State T J) (who : ℕ) (event : Event) (r : Report) → Orderly s → IsReport s who event r → Moves s who r.called (after s who event r.outcome) }
        ensures opened { (limits : Limits) (roots : ℕ) → IsResting {T = T} {J = J} (opened limits roots) }
        ensures empty { (limits : Limits) (roots : ℕ) (f : Deferral J → ℕ) → weight f (opened {T = T} limits roots) ≡ 0 }
        ensures registered { (s : State T J) (n : ℕ) → n < length s.table → Orderly s → KeepsCalls s (registered s n) (λ f. 0) }
        ensures deferred { (s : State T J) (who : ℕ) (work : Work J) → who < length s.table → length (place s who).bag < bag_places → Orderly s → KeepsCalls s (deferred s who work) (λ f. f (record { ticket = s.next; work = work })) }
        ensures deferral { (s : State T J) (who : ℕ) (work : Work J) → defer_fault s who ≡ None → Orderly s → KeepsCalls s (after_deferral s who work) (λ f. f (record { ticket = s.next; work = work })) }
    {}

    /// No empty bag is queued, and no seal is past the epoch, after any list of steps and whatever calls came between them.
    pub fn seals()
        ensures opened { (limits : Limits) (roots : ℕ) → IsSealing {T = T} {J = J} (opened limits roots) }
        ensures step { (h : List Mark) (s : State T J) (who : ℕ) (event : Event) (r : Report) → Fits h s → IsReport s who event r → IsSealing s → IsSealing (after s who event r.outcome) }
        ensures run { (h : List Mark) (s : State T J) (steps : List Step) (reports : List Report) → Fits h s → AreReports s steps reports → IsSealing s → IsSealing (state_after s steps reports) }
        ensures registered { (s : State T J) (n : ℕ) → n < length s.table → IsSealing s → IsSealing (registered s n) }
        ensures deferred { (s : State T J) (who : ℕ) (work : Work J) → defer_fault s who ≡ None → IsSealing s → IsSealing (after_deferral s who work) }
        ensures stored { (s : State T J) (st : Store T) (roots : List Ptr) → IsSealing s → IsSealing (with_roots (with_store s st) roots) }
    {}

    /// The destruction of a cell is told once at most, after any list of steps and whatever became of cells between them.
    pub fn destroyed_once()
        ensures once { (h : List Mark) (st : Store T) (n : Name) → DestroyedOnce h st → destructions h n ≤ 1 }
        ensures opened { (limits : Limits) → DestroyedOnce [] (opened_store {T = T} limits.cells limits.turn_max) }
        ensures step { (h : List Mark) (s : State T J) (who : ℕ) (event : Event) (r : Report) → Orderly s → IsReport s who event r → DestroyedOnce h s.store → DestroyedOnce (marks s who event r h) (after s who event r.outcome).store }
        ensures run { (h : List Mark) (s : State T J) (steps : List Step) (reports : List Report) → Orderly s → AreReports s steps reports → DestroyedOnce h s.store → Orderly (state_after s steps reports) × DestroyedOnce (history_after s steps reports h) (state_after s steps reports).store }
        ensures placed { (h : List Mark) (st : Store T) (n : Name) (v : T) → IsNext st n → DestroyedOnce h st → DestroyedOnce h (placed st n v) }
        ensures replaced { (h : List Mark) (st : Store T) (n : Name) (v : T) → is_some (value_at st n) ≡ true → DestroyedOnce h st → DestroyedOnce h (replaced st n.cell v) }
        ensures given_back { (h : List Mark) (st : Store T) (n : Name) → is_some (value_at st n) ≡ true → DestroyedOnce h st → DestroyedOnce h (emptied st n.cell) }
        ensures deferred { (h : List Mark) (st : Store T) (t : ℕ) (name : Option Name) → DestroyedOnce h st → DestroyedOnce (Deferred t name ∷ h) st }
    {}

    /// A call begins unless its first refusal stands. In flight it is at most 526 steps, and one for each place of the
    /// table, from its end, one less with each, and refused only for want of memory for its bag.
    pub fn progress()
        ensures begins { (s : State T J) (who : ℕ) (op : Op) (r : Report) → (place s who).phase ≡ Phase.Idle → IsReport s who (Event.Begin op) r → Begins s who op r.outcome (after s who (Event.Begin op) r.outcome) }
        ensures goes_on { (s : State T J) (who : ℕ) (op : Op) (r : Report) → Orderly s → IsOn op (place s who) → IsReport s who Event.Go r → GoesOn s who op r.outcome (after s who Event.Go r.outcome) }
        ensures first { (s : State T J) (who : ℕ) (op : Op) (r : Report) → IsReport s who (Event.Begin op) r → r.called ≡ None }
        ensures quiet { (s : State T J) (who : ℕ) (r : Report) → collects (place s who).phase ≡ false → IsReport s who Event.Go r → r.called ≡ None }
    {}

    /// Steps of one call, taken one by one, are the call: one after which it runs on leaves it going, and one that ends it makes it whole.
    pub fn parts()
        ensures begins { (s : State T J) (who : ℕ) (op : Op) → IsGoing s who op 0 None (Event.Begin op) s }
        ensures more { (s now new : State T J) (who : ℕ) (op : Op) (n : ℕ) (newest : Option Report) (event : Event) (r : Report) → IsGoing s who op n newest event now → IsReport now who event r → new ≡ after now who event r.outcome → r.outcome ≡ Outcome.Running → IsGoing s who op (n + 1) (Some r) Event.Go new }
        ensures ends { (s now new : State T J) (who : ℕ) (op : Op) (n most : ℕ) (newest : Option Report) (event : Event) (r : Report) → n < most → IsGoing s who op n newest event now → IsReport now who event r → new ≡ after now who event r.outcome → (r.outcome ≡ Outcome.Running → ⊥) → (reports : List Report) × IsCall s who op most reports (Some r) new }
    {}

    /// While nobody else steps: each round of a participant from a quiet state on advances the epoch by one, and after its
    /// flush no seal is past that epoch. A flush queues the participant's bag if it isn't empty, and takes off the queue's
    /// front what is due by the epoch that it leaves. After the first flush of such rounds one more of them, and one for each
    /// eight bags that are queued then, empty the queue; and there are no more such bags than jobs waited before.
    pub fn rounds()
        ensures advances { (h : List Moment) (s s' : State T J) (who : ℕ) → HasMoments T.names h s → Orderly s → IsSealing s → IsQuiet s → IsRound s who s' → s'.epoch ≡ s.epoch + 1 }
        ensures seals { (h : List Moment) (s s' : State T J) (who : ℕ) → HasMoments T.names h s → Orderly s → IsSealing s → IsQuiet s → (r : IsRound s who s') → (b : Sealed J) → Contains r.flushed.queue b → b.seal ≤ s.epoch + 1 }
        ensures takes { (h : List Moment) (s s' : State T J) (who : ℕ) → HasMoments T.names h s → Orderly s → IsSealing s → Finishes s who Op.Flush s' → (sealed : List (Sealed J)) × IsSealedBag (place s who).bag sealed × TakesOff s.limits.expiry s'.epoch (s.queue ++ sealed) s'.queue }
        ensures bags { (h : List Moment) (s s' : State T J) (who : ℕ) → HasMoments T.names h s → Orderly s → IsSealing s → IsQuiet s → (r : IsRound s who s') → length r.flushed.queue ≤ job_count s }
        ensures empties { (h : List Moment) (s s1 s' : State T J) (who n : ℕ) → HasMoments T.names h s → Orderly s → IsSealing s → s.limits.expiry ≡ 2 → IsQuiet s → (r : IsRound s who s1) → AreRounds s1 who n s' → 1 + div_ceil (length r.flushed.queue) 8 ≤ n → IsEmptied s who s' }
    {}
}
