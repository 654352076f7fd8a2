//! What follows from the protocol for whoever keeps nodes and calls together.
ghost use Rattle.std.specs.Prelude.{◌≡◌, ◌≢◌, ℕ, ◌≤◌, ◌⊎◌, Bool, true, false, Option, None, Some, List, [], length, slice_get};
ghost use Rattle.std.specs.FinMap.{len};
ghost use Rattle.std.proofs.Math.ListN.{set};
ghost use Rattle.judge.specs.Answer.{Pairs};
ghost use Rattle.congee.specs.declared.forms.base_node.NodeType.{NodeType};
ghost use Rattle.congee.specs.declared.protocol.op.Op.{Op};
ghost use Rattle.congee.specs.declared.protocol.store.Refusal.TheVariants.{Exhausted};
ghost use Rattle.congee.specs.declared.protocol.store.Seen.{Seen};
ghost use Rattle.congee.specs.declared.protocol.phase.Phase.{Phase};
ghost use Rattle.congee.specs.declared.protocol.phase.Phase.TheVariants.{Ended};
ghost use Rattle.congee.specs.declared.protocol.phase.Kind.{Kind};
ghost use Rattle.congee.specs.declared.protocol.machine.Machine.{Machine as Call};
ghost use Rattle.congee.specs.declared.protocol.machine.Move.{Move};
ghost use Rattle.congee.specs.protocol.Alone.{NoOtherLocks, IsUndisturbed, HasAnswer, IsPast, StepsOn, steps_left, steps_whole, tree_pairs};
ghost use Rattle.congee.specs.protocol.Alike.{Ordered, HeapAlike, CallAlike, IsUnrefused, Longer, MovedAlike, SparedAlike};
ghost use Rattle.congee.specs.protocol.Answers.{Keeps};
ghost use Rattle.congee.specs.protocol.Bounds.{Within};
ghost use Rattle.congee.specs.protocol.Destroys.{Destroys, Spares};
ghost use Rattle.congee.specs.protocol.Events.{HoldsAlike};
ghost use Rattle.congee.specs.protocol.Filled.{AllBranch, KeepsFilled};
ghost use Rattle.congee.specs.protocol.Handing.{Leads, InTree};
ghost use Rattle.congee.specs.Heap.{Node, value_at};
ghost use Rattle.congee.specs.protocol.Holdings.{MadeBy, Holdings};
ghost use Rattle.congee.specs.Keys.{key_bytes, IsMapOf};
ghost use Rattle.congee.specs.protocol.Leaving.{StepLeaves};
ghost use Rattle.congee.specs.Notes.{Note, Held, Linked, Tree, LockWords, Lifts, Collapses, Lessens, Shrinks};
ghost use Rattle.congee.specs.protocol.Opening.{FreshRoot};
ghost use Rattle.congee.specs.protocol.PlainSteps.{Mark, plain_step};
ghost use Rattle.congee.specs.protocol.Play.{begun, first_phase, IsNew, IsIdle, Protocol, ProtocolAt, Settled};
ghost use Rattle.congee.specs.protocol.Protocol.{Known};
ghost use Rattle.congee.specs.protocol.Steps.{MayStep, Stepped};

use crate::protocol::machine::Machine;
use crate::protocol::store::{NodeName, Store};
use judge::Payload;

impl<C: NodeName + Drop, P: Payload> Machine<C, P> {
    /// A tree with a root alone stands beside calls that have not begun or have ended, and nobody holds anything.
    pub fn opens()
        ensures { (h : ℕ → Node P) (ms : List (Call C P)) → FreshRoot h → ((i : ℕ) (m : Call C P) → slice_get ms i ≡ Some m → IsIdle C.number m) → Settled C.number P.same_as P.always_copies h ms }
    {}

    /// A call begins in the place of one that has ended.
    pub fn begins()
        ensures { (h : ℕ → Node P) (ms : List (Call C P)) (i : ℕ) (old new : Call C P) → Settled C.number P.same_as P.always_copies h ms → slice_get ms i ≡ Some old → old.phase ≡ Ended → IsNew new → C.number new.root ≡ 0 → Settled C.number P.same_as P.always_copies h (set ms i new) }
    {}

    /// A call of the protocol may take its next step.
    pub fn may_step()
        ensures { (h : ℕ → Node P) (ms : List (Call C P)) (i : ℕ) (m : Call C P) → Protocol C.number P.same_as P.always_copies h ms → slice_get ms i ≡ Some m → MayStep C.number m.root (key_bytes m.key) m.given m.phase h }
    {}

    /// What a step leaves of names and nodes.
    pub fn leaves<S: Store<C, P>>()
        ensures { (s : S) (i : ℕ) (a : ℕ → Note) (h h' : ℕ → Node P) (ms : List (Call C P)) (m m' : Call C P) (d : Move P) (fail : Bool) (answer : Option (Option P)) → ProtocolAt C.number P.same_as P.always_copies a h ms → Holdings C.number a h ms → slice_get ms i ≡ Some m → (k : Keeps C.number P.same_as P.always_copies i a m h m' h' d) → Stepped C.number P.same_as P.always_copies (S.version_max s) (S.refuses s) m h fail answer m' h' d → StepLeaves C.number i a k.notes h h' m m' }
    {}

    /// Where nodes that had been handed over and that no call names are destroyed, the tree, its map, what each call knows
    /// and holds, and the versions' limit stay.
    pub fn spares()
        ensures spared { (h : ℕ → Node P) (ms : List (Call C P)) → Spares C.number P.same_as P.always_copies h ms }
        ensures within { (most : ℕ) (h : ℕ → Node P) (ms : List (Call C P)) (h' : ℕ → Node P) → Destroys C.number h ms h' → Within most h → Within most h' }
    {}

    /// A call whose steps nobody else's come between, while no other call holds a lock, comes nearer to its end with each
    /// step, whatever is refused to it.
    pub fn alone<S: Store<C, P>>()
        ensures begins { (h : ℕ → Node P) (root : C) (op : Op P) → IsUndisturbed C.number h (first_phase root op) }
        ensures step { (s : S) (h h' : ℕ → Node P) (i : ℕ) (a : ℕ → Note) (ms : List (Call C P)) (m m' : Call C P) (d : Move P) (answer : Option (Option P)) → ProtocolAt C.number P.same_as P.always_copies a h ms → Holdings C.number a h ms → slice_get ms i ≡ Some m → NoOtherLocks C.number i ms → IsUndisturbed C.number h m.phase → HasAnswer m.kind m.phase answer → (IsPast m.phase → ⊥) → Stepped C.number P.same_as P.always_copies (S.version_max s) (S.refuses s) m h false answer m' h' d → StepsOn C.number h m.phase h' m'.phase }
        ensures whole { (a : ℕ → Note) (h : ℕ → Node P) (root : C) (op : Op P) → Tree a h → steps_left C.number h (first_phase root op) ≤ steps_whole h op }
    {}

    /// What a call has made and not hung is held by it.
    pub fn holds()
        ensures { (i : ℕ) (a : ℕ → Note) (h : ℕ → Node P) (k : ℕ) (kind : Kind P) (given : Option P) (n : ℕ) (s : Phase C P) → Known C.number P.same_as P.always_copies i a h k (key_bytes k) kind given s → MadeBy C.number s n → (a n).status ≡ Held i }
    {}

    /// What is in the tree by the notes is what paths from the root lead to, and each node of it holds values alone or
    /// nodes alone.
    pub fn tree()
        ensures linked { (a : ℕ → Note) (h : ℕ → Node P) (n : ℕ) → Tree a h → (a n).status ≡ Linked → InTree h n }
        ensures leads { (a : ℕ → Note) (h : ℕ → Node P) → Tree a h → (path : List ℕ) (n c : ℕ) → (a n).status ≡ Linked → Leads h n path c → (a c).status ≡ Linked }
        ensures alike { (a : ℕ → Note) (h : ℕ → Node P) → Tree a h → (n : ℕ) → (a n).status ≡ Linked → HoldsAlike (h n) }
    {}

    /// The values that hang in a tree, which bound a scan, are as many as the pairs of its map.
    pub fn counts_pairs()
        ensures { (a : ℕ → Note) (h : ℕ → Node P) (m : Pairs P) → Tree a h → LockWords a h → IsMapOf h m → tree_pairs h ≡ len m }
    {}

    /// A node with one child gives its place to it: the tree stands, and each key finds what it found.
    pub fn lifted()
        ensures tree { (a : ℕ → Note) (h : ℕ → Node P) (a' : ℕ → Note) (h' : ℕ → Node P) (n b m q o : ℕ) → Tree a h → Lifts a h a' h' n b m q o → Tree a' h' }
        ensures map { (a : ℕ → Note) (h : ℕ → Node P) (a' : ℕ → Note) (h' : ℕ → Node P) (n b m q o : ℕ) → Tree a h → Lifts a h a' h' n b m q o → (key : List ℕ) → length key ≡ 8 → value_at h' key ≡ value_at h key }
    {}

    /// A leaf goes with its one value, and the node above gives its place to its other child.
    pub fn collapsed()
        ensures tree { (a : ℕ → Note) (h : ℕ → Node P) (a' : ℕ → Note) (h' : ℕ → Node P) (g c p n q o : ℕ) (key : List ℕ) (v : P) → Tree a h → Collapses a h a' h' g c p n q o key v → Tree a' h' }
        ensures map { (a : ℕ → Note) (h : ℕ → Node P) (a' : ℕ → Note) (h' : ℕ → Node P) (g c p n q o : ℕ) (key : List ℕ) (v : P) → Tree a h → Collapses a h a' h' g c p n q o key v → length key ≡ 8 → (value_at h key ≡ Some v) × (value_at h' key ≡ None) × ((x : List ℕ) → length x ≡ 8 → x ≢ key → value_at h' x ≡ value_at h x) }
    {}

    /// A leaf goes with its one value, and a lesser node comes in the place of the one above.
    pub fn lessened()
        ensures tree { (a : ℕ → Note) (h : ℕ → Node P) (a' : ℕ → Note) (h' : ℕ → Node P) (g c p n d : ℕ) (key : List ℕ) (v : P) → Tree a h → Lessens a h a' h' g c p n d key v → Tree a' h' }
        ensures map { (a : ℕ → Note) (h : ℕ → Node P) (a' : ℕ → Note) (h' : ℕ → Node P) (g c p n d : ℕ) (key : List ℕ) (v : P) → Tree a h → Lessens a h a' h' g c p n d key v → length key ≡ 8 → (value_at h key ≡ Some v) × (value_at h' key ≡ None) × ((x : List ℕ) → length x ≡ 8 → x ≢ key → value_at h' x ≡ value_at h x) }
    {}

    /// A value goes, and a lesser leaf comes in the place of its leaf.
    pub fn shrunk()
        ensures tree { (a : ℕ → Note) (h : ℕ → Node P) (a' : ℕ → Note) (h' : ℕ → Node P) (p c n d : ℕ) (key : List ℕ) (v : P) → Tree a h → Shrinks a h a' h' p c n d key v → Tree a' h' }
        ensures map { (a : ℕ → Note) (h : ℕ → Node P) (a' : ℕ → Note) (h' : ℕ → Node P) (p c n d : ℕ) (key : List ℕ) (v : P) → Tree a h → Shrinks a h a' h' p c n d key v → length key ≡ 8 → (value_at h key ≡ Some v) × (value_at h' key ≡ None) × ((x : List ℕ) → length x ≡ 8 → x ≢ key → value_at h' x ≡ value_at h x) }
    {}

    /// Each node of the tree but the root has a child, each that holds nodes two of them, whatever steps are taken; and none is too
    /// small for its form, but after steps that go on without a node that they wanted. So it is where a root stands alone.
    pub fn filled<S: Store<C, P>>()
        ensures opens { (by_form : Bool) (h : ℕ → Node P) (ms : List (Call C P)) → FreshRoot h → ((i : ℕ) (m : Call C P) → slice_get ms i ≡ Some m → IsIdle C.number m) → KeepsFilled by_form C.number h ms }
        ensures begins { (by_form : Bool) (h : ℕ → Node P) (ms : List (Call C P)) (i : ℕ) (new : Call C P) → KeepsFilled by_form C.number h ms → IsNew new → KeepsFilled by_form C.number h (set ms i new) }
        ensures steps { (by_form : Bool) (s : S) (i : ℕ) (a : ℕ → Note) (h h' : ℕ → Node P) (ms : List (Call C P)) (m m' : Call C P) (d : Move P) (fail : Bool) (answer : Option (Option P)) → ProtocolAt C.number P.same_as P.always_copies a h ms → slice_get ms i ≡ Some m → Keeps C.number P.same_as P.always_copies i a m h m' h' d → Stepped C.number P.same_as P.always_copies (S.version_max s) (S.refuses s) m h fail answer m' h' d → (by_form ≡ true → d.skipped ≡ false) → KeepsFilled by_form C.number h ms → KeepsFilled by_form C.number h' (set ms i m') }
        ensures spared { (by_form : Bool) (a : ℕ → Note) (h h' : ℕ → Node P) (ms : List (Call C P)) → ProtocolAt C.number P.same_as P.always_copies a h ms → Holdings C.number a h ms → Destroys C.number h ms h' → KeepsFilled by_form C.number h ms → KeepsFilled by_form C.number h' ms }
        ensures branch { (h : ℕ → Node P) (ms : List (Call C P)) → KeepsFilled false C.number h ms → AllBranch h }
    {}

    /// The calls after one of them was exchanged.
    pub fn exchanged()
        ensures either { (ms : List (Call C P)) (i j : ℕ) (x y : Call C P) → slice_get (set ms i x) j ≡ Some y → ((j ≡ i) × (x ≡ y)) ⊎ ((j ≢ i) × (slice_get ms j ≡ Some y)) }
        ensures others { (ms : List (Call C P)) (i j : ℕ) (x y : Call C P) → j ≢ i → slice_get ms j ≡ Some y → slice_get (set ms i x) j ≡ Some y }
    {}

    /// A call's steps are those of the same call on nodes that are known by their numbers and never taken away: so is an
    /// unrefused one of its own; one of another call, and a destruction of nodes that no call names, leave it the same call;
    /// and it is so as it begins.
    pub fn numbered<S: Store<C, P>>()
        ensures steps { (s : S) (seen : Option (Seen Mark P)) (i : ℕ) (a : ℕ → Note) (h g h' : ℕ → Node P) (ms : List (Call C P)) (m m' : Call C P) (d : Move P) (fail : Bool) (answer : Option (Option P)) (order : List ℕ) (q : Call ℕ P) (k : ℕ) → ((form : NodeType) → S.refuses s form Exhausted → ⊥) → ProtocolAt C.number P.same_as P.always_copies a h ms → slice_get ms i ≡ Some m → Stepped C.number P.same_as P.always_copies (S.version_max s) (S.refuses s) m h fail answer m' h' d → IsUnrefused d.outcome → d.skipped ≡ false → Ordered order h → HeapAlike order h g → k ≡ length order → CallAlike order C.number h m q → MovedAlike order C.number h' m' d q (plain_step P.same_as (S.version_max s) q (record { fail = fail; seen = seen; answer = answer }) g k) }
        ensures others { (i j : ℕ) (a : ℕ → Note) (h h' : ℕ → Node P) (ms : List (Call C P)) (m m' other : Call C P) (d : Move P) (order order' : List ℕ) (q : Call ℕ P) → ProtocolAt C.number P.same_as P.always_copies a h ms → slice_get ms j ≡ Some other → j ≢ i → Keeps C.number P.same_as P.always_copies i a m h m' h' d → Longer order order' → CallAlike order C.number h other q → CallAlike order' C.number h' other q }
        ensures spared { (order : List ℕ) (h h' : ℕ → Node P) (ms : List (Call C P)) → Destroys C.number h ms h' → SparedAlike order C.number h ms h' }
        ensures begins { (order : List ℕ) (h : ℕ → Node P) (root : C) (n : ℕ) (op : Op P) → slice_get order n ≡ Some (C.number root) → CallAlike order C.number h (begun root op) (begun n op) }
    {}
}
