//! Nodes in their cells: one is taken out to be changed and put back, comes into a usable cell, or goes for good.

ghost use Rattle.std.specs.Prelude.{◌≡◌, ◌≢◌, ◌+◌, ◌≤◌, ℕ, Some, is_some, true, length, IfOk, IfErr, OnOk, OnErr};
ghost use Rattle.crossbeam_epoch.specs.world.Machine.{with_store};
ghost use Rattle.crossbeam_epoch.specs.world.Store.{value_at, replaced, is_usable};
ghost use Rattle.crossbeam_epoch.specs.declared.names.Name.{Name};
ghost use Rattle.congee.specs.declared.forms.prefix.TheConstants.{MAX_PREFIX_LEN};
ghost use Rattle.congee.specs.protocol.Events.{TakesOver};
ghost use Rattle.congee.specs.forms.Forms.{size_of};
ghost use Rattle.joint.specs.nodes.Altering.{Fills, Empties, IsNewSlot, IsNoSlot, IsOverBudget, MovesTo, Exchanges};
ghost use Rattle.joint.specs.nodes.Solid.{IsWhole};
ghost use Rattle.joint.specs.nodes.View.{node_of, out};

use crate::nodes::slot::{LockWord, Slot};
use congee::{Allocator, NodeType, OOMError, Payload, Refusal, Small};
use crossbeam_epoch::{Name, World};
use std::alloc::Global;

/// Takes the slot of a name out, and leaves one without a node there.
pub(crate) fn take_out<P: Payload + Small>(collector: &mut World<Slot<P>, ()>, at: Name) -> Slot<P>
    requires { is_some (value_at collector.old.store at) ≡ true }
    ensures was { value_at collector.old.store at ≡ Some result }
    ensures state { collector.new ≡ with_store collector.old (replaced collector.old.store at.cell out) }
{
    let out = Slot {
        node: None,
        word: LockWord {
            version: 0,
            locked: false,
            obsolete: false,
            retired: false,
        },
    };
    match collector.replace(at, out) {
        Ok(slot) => slot,
        Err(_) => unreachable!(),
    }
}

/// Puts a slot under a name that stands.
pub(crate) fn put_back<P: Payload + Small>(
    collector: &mut World<Slot<P>, ()>,
    at: Name,
    slot: Slot<P>,
)
    requires { is_some (value_at collector.old.store at) ≡ true }
    ensures { collector.new ≡ with_store collector.old (replaced collector.old.store at.cell slot) }
{
    match collector.replace(at, slot) {
        Ok(_) => {}
        Err(_) => unreachable!(),
    }
}

/// Puts a node into a usable cell.
pub(crate) fn place<P: Payload + Small>(collector: &mut World<Slot<P>, ()>, slot: Slot<P>) -> Name
    requires { (i : ℕ) × (is_usable collector.old.store i ≡ true) }
    ensures beside { collector.new ≡ with_store collector.old collector.new.store }
    ensures fills { Fills collector.old.store result slot collector.new.store }
{
    World::<Slot<P>, ()>::cells();
    match collector.place(slot) {
        Ok(name) => name,
        Err(_) => unreachable!(),
    }
}

/// Takes a node out of its cell for good.
pub(crate) fn take_away<P: Payload + Small>(collector: &mut World<Slot<P>, ()>, at: Name)
    requires { is_some (value_at collector.old.store at) ≡ true }
    ensures beside { collector.new ≡ with_store collector.old collector.new.store }
    ensures slot { (s : Slot P) × Empties collector.old.store at s collector.new.store }
{
    World::<Slot<P>, ()>::cells();
    match collector.give_back(at) {
        Ok(_) => {}
        Err(_) => unreachable!(),
    }
}

/// An empty node of the form, where some cell is usable.
pub(crate) fn new_slot<P: Payload + Small>(
    alloc: Global,
    collector: &World<Slot<P>, ()>,
    form: NodeType,
    prefix: &[u8],
) -> Result<Slot<P>, Refusal>
    requires { length prefix.now ≤ MAX_PREFIX_LEN }
    ensures fresh { IfOk result (λ s. IsNewSlot s form prefix.now) }
    ensures usable { OnOk result ((i : ℕ) × (is_usable collector.now.store i ≡ true)) }
    ensures cause { IfErr result (λ e. IsNoSlot collector.now.store e) }
{
    if !collector.has_cell() {
        return Err(Refusal::Cells);
    }
    match Slot::new(alloc, form, prefix) {
        Ok(slot) => Ok(slot),
        Err(_) => Err(Refusal::Memory),
    }
}

/// Charges a node of the form.
pub(crate) fn charge<A: Allocator>(allocator: &mut A, form: NodeType) -> Result<(), Refusal>
    ensures charged { OnOk result (A.charged_of allocator.new ≡ A.charged_of allocator.old + size_of form) }
    ensures within { OnOk result (A.charged_of allocator.old + size_of form ≤ A.limit_of allocator.old) }
    ensures limit { OnOk result (A.limit_of allocator.new ≡ A.limit_of allocator.old) }
    ensures refused { IfErr result (λ e. IsOverBudget (A.charged_of allocator.old) (A.limit_of allocator.old) (size_of form) e) }
    ensures back { OnErr result (allocator.new ≡ allocator.old) }
{
    match allocator.allocate(form.size()) {
        Ok(()) => Ok(()),
        Err(
            OOMError::Budget {
                charged,
                wanted,
                limit,
            },
        ) => Err(Refusal::Budget {
            charged,
            wanted,
            limit,
        }),
        Err(OOMError::Memory) => unreachable!(),
    }
}

/// Gives the children of one node to another, an empty one: values are moved, and the names of nodes stay in the first
/// too.
pub(crate) fn move_children<P: Payload + Small>(
    collector: &mut World<Slot<P>, ()>,
    old: Name,
    node: Name,
)
    requires apart { old ≢ node }
    requires stands_old { is_some (value_at collector.old.store old) ≡ true }
    requires stands { is_some (value_at collector.old.store node) ≡ true }
    requires whole { (n : Name) (s : Slot P) → value_at collector.old.store n ≡ Some s → IsWhole s.node }
    requires room { (a b : Slot P) → value_at collector.old.store old ≡ Some a → value_at collector.old.store node ≡ Some b → TakesOver (node_of a) (node_of b) }
    ensures beside { collector.new ≡ with_store collector.old collector.new.store }
    ensures slots { (a : Slot P) × ((b : Slot P) × ((a' : Slot P) × ((b' : Slot P) × (Exchanges collector.old.store old node a b a' b' collector.new.store × MovesTo a b a' b')))) }
{
    World::<Slot<P>, ()>::cells();
    let mut from = take_out(collector, old);
    let mut to = take_out(collector, node);
    from.move_to(&mut to);
    put_back(collector, node, to);
    put_back(collector, old, from);
}
