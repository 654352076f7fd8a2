//! What a change writes to the nodes that the call has locked, and what is given back of one that is given up.
ghost use Rattle.std.specs.Prelude.{◌≡◌, ◌≢◌, None};
ghost use Rattle.congee.specs.protocol.Steps.{value_hung, BackHere, BackAbove, Collapses, PutsLesser, Lessens, MayLessen, MayTop, ChangedAbove, MayBackHere, MayBackAbove, MayChangeAbove, Changeable, Blank, PutsGreater, PutsFork};
ghost use Rattle.congee.specs.protocol.Events.{hung, HoldsAlike};
ghost use Rattle.congee.specs.declared.protocol.phase.Replacement.TheVariants as replacement;
ghost use Rattle.congee.specs.Heap.{Nothing, Below, Stands};

use crate::forms::child::Child;
use crate::forms::prefix::MAX_PREFIX_LEN;
use crate::keys::KEY_BYTES;
use crate::protocol::phase::{ParentChange, Placement, Replacement};
use crate::protocol::store::{NodeName, Store};
use judge::{Payload, Reply};

/// What hangs where the call puts its value, or takes one out.
pub(crate) fn value_child<C: NodeName, P: Payload>(new: Option<P>) -> Child<C, P>
    ensures { hung C.number result ≡ value_hung new }
{
    match new {
        None => Child::Blank,
        Some(value) => Child::Value(value),
    }
}

/// Changes the node above, or the one above both, and before it the new nodes.
pub(crate) fn put_replacement<C: NodeName, P: Payload, S: Store<C, P>>(
    store: &mut S,
    two: ParentChange<C>,
    key: &[u8; KEY_BYTES],
    new: Option<P>,
)
    requires { MayChangeAbove C.number key.now new two two.change (S.heap store.old) }
    ensures limit { S.version_max store.new ≡ S.version_max store.old }
    ensures rest { S.rest store.new ≡ S.rest store.old }
    ensures changed { ChangedAbove C.number key.now new two two.change (S.heap store.old) (S.heap store.new) }
{
    let value = value_child(new);
    let change = two.change;
    match change {
        Replacement::Unlink => store.change(two.parent(), two.above.byte, Child::Blank),
        Replacement::Shrink { node: lesser } => shrink(store, two, lesser, key[MAX_PREFIX_LEN]),
        Replacement::Collapse => lift(store, two),
        Replacement::ShrinkAbove { node: lesser } => lessen(store, two, lesser),
        Replacement::Grow { node: greater } => put_greater(
            store,
            two,
            greater,
            key[MAX_PREFIX_LEN],
            value,
        ),
        Replacement::GrowLink {
            node: greater,
            leaf,
            byte,
        } => {
            store.fill(leaf, key[MAX_PREFIX_LEN], value);
            put_greater(store, two, greater, byte, Child::Node(leaf));
        }
        Replacement::Split {
            top,
            leaf,
            common,
            byte,
        } => {
            store.fill(leaf, key[MAX_PREFIX_LEN], value);
            put_fork(store, two, top, byte, key[common], leaf);
        }
    }
}

/// Puts a lesser node, without the child at the byte, in the place of another one, which hangs in a locked node.
fn put_lesser<C: NodeName, P: Payload, S: Store<C, P>>(
    store: &mut S,
    old: C,
    lesser: C,
    byte: u8,
    above: C,
    up: u8,
)
    requires { MayLessen (S.heap store.old) (C.number old) (C.number lesser) byte (C.number above) up }
    ensures limit { S.version_max store.new ≡ S.version_max store.old }
    ensures rest { S.rest store.new ≡ S.rest store.old }
    ensures put { PutsLesser (S.heap store.old) (C.number old) (C.number lesser) byte (C.number above) up (S.heap store.new) }
{
    store.take_over(old, lesser);
    store.fill(lesser, byte, Child::Blank);
    store.change(above, up, Child::Node(lesser));
}

/// Puts a lesser leaf, without the value at the byte, in the place of the one at hand.
fn shrink<C: NodeName, P: Payload, S: Store<C, P>>(
    store: &mut S,
    two: ParentChange<C>,
    lesser: C,
    byte: u8,
)
    requires { MayLessen (S.heap store.old) (C.number two.at.node) (C.number lesser) byte (C.number two.above.stamp.node) two.above.byte }
    ensures limit { S.version_max store.new ≡ S.version_max store.old }
    ensures rest { S.rest store.new ≡ S.rest store.old }
    ensures put { PutsLesser (S.heap store.old) (C.number two.at.node) (C.number lesser) byte (C.number two.above.stamp.node) two.above.byte (S.heap store.new) }
{
    let ParentChange { above, at, .. } = two;
    put_lesser(store, at.node, lesser, byte, above.stamp.node, above.byte);
}

/// Puts the other child of the node above in its place, in the node above both.
fn lift<C: NodeName, P: Payload, S: Store<C, P>>(store: &mut S, two: ParentChange<C>)
    requires { MayTop C.number two replacement.Collapse two.top (S.heap store.old) }
    ensures limit { S.version_max store.new ≡ S.version_max store.old }
    ensures rest { S.rest store.new ≡ S.rest store.old }
    ensures put { Collapses C.number two two.top (S.heap store.old) (S.heap store.new) }
{
    let ParentChange { top, above, .. } = two;
    match top {
        None => unreachable!(),
        Some(top) => {
            let other = store.other(above.stamp.node, above.byte);
            store.change(top.stamp.node, top.byte, Child::Node(other));
        }
    }
}

/// Puts a lesser node, without the leaf, in the place of the node above, in the node above both.
fn lessen<C: NodeName, P: Payload, S: Store<C, P>>(store: &mut S, two: ParentChange<C>, lesser: C)
    requires { MayTop C.number two (replacement.ShrinkAbove lesser) two.top (S.heap store.old) }
    ensures limit { S.version_max store.new ≡ S.version_max store.old }
    ensures rest { S.rest store.new ≡ S.rest store.old }
    ensures put { Lessens C.number two lesser two.top (S.heap store.old) (S.heap store.new) }
{
    let ParentChange { top, above, .. } = two;
    match top {
        None => unreachable!(),
        Some(top) => put_lesser(
            store,
            above.stamp.node,
            lesser,
            above.byte,
            top.stamp.node,
            top.byte,
        ),
    }
}

/// Puts a greater node, with one more child, in the place of the node at hand.
fn put_greater<C: NodeName, P: Payload, S: Store<C, P>>(
    store: &mut S,
    two: ParentChange<C>,
    greater: C,
    byte: u8,
    child: Child<C, P>,
)
    requires above { Changeable (S.heap store.old (C.number two.above.stamp.node)) two.above.byte (Below (C.number greater)) }
    requires stands { Stands (S.heap store.old (C.number two.at.node)) }
    requires blank { Blank (S.heap store.old (C.number greater)) (S.heap store.old (C.number two.at.node)).count }
    requires beside_above { C.number two.above.stamp.node ≢ C.number greater }
    requires beside { C.number two.at.node ≢ C.number greater }
    requires apart { C.number two.above.stamp.node ≢ C.number two.at.node }
    requires hangs { hung C.number child ≢ Nothing }
    requires alike { HoldsAlike (S.heap store.old (C.number two.at.node)) }
    ensures limit { S.version_max store.new ≡ S.version_max store.old }
    ensures rest { S.rest store.new ≡ S.rest store.old }
    ensures put { PutsGreater C.number two greater byte (hung C.number child) (S.heap store.old) (S.heap store.new) }
{
    let parent = two.parent();
    let ParentChange { above, at, .. } = two;
    store.take_over(at.node, greater);
    store.fill(greater, byte, child);
    store.change(parent, above.byte, Child::Node(greater));
}

/// Puts a node above the one at hand and a new leaf in its place.
fn put_fork<C: NodeName, P: Payload, S: Store<C, P>>(
    store: &mut S,
    two: ParentChange<C>,
    top: C,
    byte: u8,
    new_byte: u8,
    leaf: C,
)
    requires above { Changeable (S.heap store.old (C.number two.above.stamp.node)) two.above.byte (Below (C.number top)) }
    requires blank { Blank (S.heap store.old (C.number top)) 1 }
    requires bytes { byte ≢ new_byte }
    requires apart { C.number two.above.stamp.node ≢ C.number top }
    ensures limit { S.version_max store.new ≡ S.version_max store.old }
    ensures rest { S.rest store.new ≡ S.rest store.old }
    ensures put { PutsFork C.number two top byte new_byte leaf (S.heap store.old) (S.heap store.new) }
{
    let parent = two.parent();
    let ParentChange { above, at, .. } = two;
    store.fill(top, byte, Child::Node(at.node));
    store.fill(top, new_byte, Child::Node(leaf));
    store.change(parent, above.byte, Child::Node(top));
}

/// Gives up the change of one node: the node that was made for it goes back, and the reply is dropped.
pub(crate) fn give_back_placement<C: NodeName, P: Payload, S: Store<C, P>>(
    store: &mut S,
    change: Placement<C>,
    reply: Reply<P>,
)
    requires { MayBackHere C.number (S.heap store.old) change }
    ensures limit { S.version_max store.new ≡ S.version_max store.old }
    ensures rest { S.rest store.new ≡ S.rest store.old }
    ensures back { BackHere C.number (S.heap store.old) change (S.heap store.new) }
{
    drop(reply);
    match change {
        Placement::Set => {}
        Placement::Link { leaf } => store.give_back(leaf),
    }
}

/// Gives up the change of the node above: the nodes that were made for it go back, and the reply is dropped.
pub(crate) fn give_back_replacement<C: NodeName, P: Payload, S: Store<C, P>>(
    store: &mut S,
    change: Replacement<C>,
    reply: Reply<P>,
)
    requires { MayBackAbove C.number (S.heap store.old) change }
    ensures limit { S.version_max store.new ≡ S.version_max store.old }
    ensures rest { S.rest store.new ≡ S.rest store.old }
    ensures back { BackAbove C.number (S.heap store.old) change (S.heap store.new) }
{
    drop(reply);
    match change {
        Replacement::Unlink => {}
        Replacement::Shrink { node } => store.give_back(node),
        Replacement::Collapse => {}
        Replacement::ShrinkAbove { node } => store.give_back(node),
        Replacement::Grow { node } => store.give_back(node),
        Replacement::GrowLink { node, leaf, .. } => {
            store.give_back(leaf);
            store.give_back(node);
        }
        Replacement::Split { top, leaf, .. } => {
            store.give_back(leaf);
            store.give_back(top);
        }
    }
}
