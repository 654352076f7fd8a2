//! Where a call stands between two of its steps.

ghost use Rattle.std.specs.Prelude.{◌≡◌};
ghost use Rattle.congee.specs.protocol.Steps.{adds, asks_new, absent_reply, plan_here, greater, here_of, near_of, set_at, both, node_of};

use crate::forms::base_node::NodeType;
use crate::forms::child::Child;
use crate::protocol::scan::ScanState;
use crate::protocol::store::{NodeName, Refusal, Stamp};
use judge::Reply;
use std::mem;

/// What a call does with its key.
#[derive(Drop)]
pub enum Kind<P> {
    /// Looks it up.
    Get,
    /// Puts a value there.
    Insert,
    /// Takes it out.
    Remove,
    /// Where it is present, puts what its closure answers there, or takes it out.
    ComputePresent,
    /// Puts what its closure answers there.
    ComputeInsert,
    /// Where it has the old value, puts another one there, or takes it out.
    Exchange { old: P },
}

impl<P> Kind<P> {
    /// Whether the call puts a value at an absent key.
    pub(crate) fn adds(&self) -> bool
        ensures { result ≡ adds self.now }
    {
        matches!(self, Kind::Insert | Kind::ComputeInsert)
    }

    /// Whether the closure is asked for an absent key.
    pub(crate) fn asks_new(&self) -> bool
        ensures { result ≡ asks_new self.now }
    {
        matches!(self, Kind::ComputeInsert)
    }

    /// The reply where the key is absent.
    pub(crate) fn absent_reply(&self) -> Reply<P>
        ensures { result ≡ absent_reply self.now }
    {
        match self {
            Kind::Get => Reply::Get(None),
            Kind::Insert => Reply::Insert(None),
            Kind::Remove => Reply::Remove(None),
            Kind::ComputePresent => Reply::ComputePresent(None),
            Kind::ComputeInsert => Reply::ComputeInsert(None),
            Kind::Exchange { .. } => Reply::Exchange(Err(None)),
        }
    }
}

/// A node above the one at hand as it was read, and the byte at which the next one on the way hangs in it.
#[derive(Clone, Copy)]
pub struct Parent<C: NodeName> {
    /// The node above.
    pub stamp: Stamp<C>,
    /// The byte.
    pub byte: u8,
    /// The length of its prefix, in bytes.
    pub depth: usize,
    /// How many children it has.
    pub count: u16,
    /// Its form.
    pub form: NodeType,
}

/// The nodes above the one at hand: the next one, and the one above that, which only the root has not.
#[derive(Clone, Copy)]
pub struct Above<C: NodeName> {
    /// The node above.
    pub near: Parent<C>,
    /// The node above that one.
    pub far: Option<Parent<C>>,
}

/// The node at hand as it was read, on the way of the call's key; nothing is above the root.
#[derive(Clone, Copy)]
pub struct Site<C: NodeName> {
    /// The nodes above.
    pub above: Option<Above<C>>,
    /// The node.
    pub at: Stamp<C>,
    /// The length of its prefix, in bytes.
    pub depth: usize,
    /// The key's byte there.
    pub byte: u8,
    /// How many children it has.
    pub count: u16,
    /// Whether it has no place for one more.
    pub full: bool,
    /// Its form.
    pub form: NodeType,
}

/// What the change of one locked node puts at the key's byte there.
#[derive(Clone, Copy)]
pub enum Placement<C: NodeName> {
    /// The call's new value, or nothing.
    Set,
    /// A new leaf with the value.
    Link { leaf: C },
}

/// A change of one node.
#[derive(Clone, Copy)]
pub struct NodeChange<C: NodeName> {
    /// The node.
    pub at: Stamp<C>,
    /// The key's byte there.
    pub byte: u8,
    /// What comes there.
    pub change: Placement<C>,
}

/// What the change of the node above puts in place of the node at hand, with both locked.
#[derive(Clone, Copy)]
pub enum Replacement<C: NodeName> {
    /// Nothing: the leaf has no other value.
    Unlink,
    /// A greater leaf with the value.
    Grow {
        node: C,
    },
    /// A greater node with a new leaf, at the key's byte, that has the value.
    GrowLink {
        node: C,
        leaf: C,
        byte: u8,
    },
    /// A node above the one at hand and a new leaf with the value. So many bytes of the prefix are the key's, and
    /// the next one of it is `byte`.
    Split {
        top: C,
        leaf: C,
        common: usize,
        byte: u8,
    },
    /// A lesser leaf, without the value.
    Shrink {
        node: C,
    },
    /// The node above has one other child, which comes in its place: the leaf and the node above go.
    Collapse,
    /// A lesser node comes in the place of the node above, without the leaf: both go.
    ShrinkAbove {
        node: C,
    },
}

/// A change of the node above, or of the one above that.
#[derive(Clone, Copy)]
pub struct ParentChange<C: NodeName> {
    /// The node above both, where the call has locked it.
    pub top: Option<Parent<C>>,
    /// The node above.
    pub above: Parent<C>,
    /// The node at hand.
    pub at: Stamp<C>,
    /// What comes in its place.
    pub change: Replacement<C>,
}

/// What an insertion that found its key absent will do, its nodes made.
#[derive(Clone, Copy)]
pub enum Plan<C: NodeName> {
    /// Changes one node; the node above is checked first, where there is one.
    Here {
        check: Option<Stamp<C>>,
        one: NodeChange<C>,
    },
    /// Changes the node above.
    Above {
        two: ParentChange<C>,
    },
}

/// The next step of a call, with what the steps before found out for it.
#[derive(Drop)]
pub enum Phase<C: NodeName, P> {
    /// The call's first step: takes the root's version.
    New,
    /// Takes the version of the root or of a child.
    Version {
        above: Option<Above<C>>,
        node: C,
    },
    /// Reads the node.
    Read {
        above: Option<Above<C>>,
        at: Stamp<C>,
    },
    /// Checks the node after the read.
    Check {
        site: Site<C>,
        child: Child<C, P>,
    },
    /// Checks the node whose value couldn't be copied.
    CheckUncopied {
        at: Stamp<C>,
    },
    /// Checks the node above one whose prefix differs from the key.
    CheckMiss {
        above: Parent<C>,
        at: Stamp<C>,
        common: usize,
        byte: u8,
    },
    /// An insertion's check of the node above, before it follows a child.
    CheckDown {
        above: Stamp<C>,
        at: Above<C>,
        node: C,
    },
    /// An insertion's check of the node above, at a value.
    CheckOld {
        above: Stamp<C>,
        site: Site<C>,
        old: P,
    },
    /// Makes the leaf for the key.
    MakeLeaf {
        site: Site<C>,
    },
    /// Makes the greater node that takes the place of a full one.
    MakeGreater {
        site: Site<C>,
        above: Parent<C>,
        leaf: Option<C>,
    },
    /// Makes the node that comes above the one at hand.
    MakeTop {
        above: Parent<C>,
        at: Stamp<C>,
        common: usize,
        byte: u8,
    },
    /// Makes the leaf beside the one at hand.
    MakeBeside {
        above: Parent<C>,
        at: Stamp<C>,
        common: usize,
        byte: u8,
        top: C,
    },
    /// Makes the lesser node that takes the place of the leaf, or of the node above it, which hangs in `top`.
    MakeLesser {
        site: Site<C>,
        above: Parent<C>,
        top: Option<Parent<C>>,
        reply: Reply<P>,
    },
    /// Takes the closure's answer for a value that stands.
    AskOld {
        site: Site<C>,
        old: P,
    },
    /// Takes the closure's answer for an absent key.
    AskNew {
        plan: Plan<C>,
    },
    /// Checks the node once more, where the call leaves the value as it is.
    Confirm {
        at: Stamp<C>,
        reply: Reply<P>,
    },
    /// Checks the node above before one node is changed.
    CheckAbove {
        above: Stamp<C>,
        one: NodeChange<C>,
        reply: Reply<P>,
    },
    /// Locks the one node.
    UpgradeHere {
        one: NodeChange<C>,
        reply: Reply<P>,
    },
    /// Changes the one node.
    ChangeHere {
        one: NodeChange<C>,
        reply: Reply<P>,
    },
    /// Locks the node above both, the first of three.
    UpgradeTop {
        top: Parent<C>,
        two: ParentChange<C>,
        reply: Reply<P>,
    },
    /// Locks the node above.
    UpgradeAbove {
        two: ParentChange<C>,
        reply: Reply<P>,
    },
    /// Locks the node at hand, the node above being locked.
    UpgradeBelow {
        two: ParentChange<C>,
        reply: Reply<P>,
    },
    /// Changes the node above, with both locked.
    ChangeAbove {
        two: ParentChange<C>,
        reply: Reply<P>,
    },
    /// Marks the node that was taken out.
    Obsolete {
        node: C,
        next: Option<C>,
        above: C,
        reply: Reply<P>,
    },
    /// Hands it over for destruction.
    Retire {
        node: C,
        next: Option<C>,
        above: C,
        reply: Reply<P>,
    },
    /// Unlocks the node below a split.
    UnlockBelow {
        node: C,
        above: C,
        reply: Reply<P>,
    },
    /// Unlocks the last node.
    Unlock {
        node: C,
        reply: Reply<P>,
    },
    /// Unlocks the node above after the node at hand couldn't be locked; then begins anew, or is refused.
    Unwind {
        node: C,
        next: Option<C>,
        refusal: Option<Refusal>,
    },
    /// A scan's step.
    Scan {
        scan: ScanState<C, P>,
    },
    /// The call has ended.
    Ended,
}

impl<C: NodeName> Site<C> {
    /// A change of the node.
    pub(crate) fn one(self, change: Placement<C>) -> NodeChange<C>
        ensures { result ≡ record { at = self.at; byte = self.byte; change = change } }
    {
        NodeChange {
            at: self.at,
            byte: self.byte,
            change,
        }
    }

    /// A change of the node, after a check of the one above.
    pub(crate) fn plan(self, change: Placement<C>) -> Plan<C>
        ensures { result ≡ plan_here self change }
    {
        let above = self.above;
        let check = match above {
            None => None,
            Some(above) => Some(above.near.stamp),
        };
        Plan::Here {
            check,
            one: self.one(change),
        }
    }

    /// The node, as the one above the next.
    pub(crate) fn here(self) -> Parent<C>
        ensures { result ≡ here_of self }
    {
        Parent {
            stamp: self.at,
            byte: self.byte,
            depth: self.depth,
            count: self.count,
            form: self.form,
        }
    }

    /// A change of the node above.
    pub(crate) fn both(self, above: Parent<C>, change: Replacement<C>) -> ParentChange<C>
        ensures { result ≡ both above self change }
    {
        ParentChange {
            top: None,
            above,
            at: self.at,
            change,
        }
    }

    /// The change by a greater node, with a new leaf where one was made.
    pub(crate) fn greater(self, leaf: Option<C>, node: C) -> Replacement<C>
        ensures { result ≡ greater self leaf node }
    {
        match leaf {
            None => Replacement::Grow { node },
            Some(leaf) => Replacement::GrowLink {
                node,
                leaf,
                byte: self.byte,
            },
        }
    }
}

impl<C: NodeName> ParentChange<C> {
    /// The node above.
    pub(crate) fn parent(&self) -> C
        ensures { result ≡ self.now.above.stamp.node }
    {
        self.above.stamp.node
    }

    /// The locked node above both.
    pub(crate) fn top_node(&self) -> Option<C>
        ensures { result ≡ node_of self.now.top }
    {
        let top = self.top;
        match top {
            None => None,
            Some(top) => Some(top.stamp.node),
        }
    }

    /// The node above, and its version.
    pub(crate) fn stamp_above(&self) -> Stamp<C>
        ensures { result ≡ self.now.above.stamp }
    {
        self.above.stamp
    }
}

/// Takes the reply out of a phase that a step leaves.
pub(crate) fn taken<P>(reply: &mut Reply<P>) -> Reply<P>
    ensures { result ≡ reply.old }
{
    mem::replace(reply, Reply::Get(None))
}

/// The next node of some.
pub(crate) fn near_of<C: NodeName>(above: Option<Above<C>>) -> Option<Parent<C>>
    ensures { result ≡ near_of above }
{
    match above {
        None => None,
        Some(above) => Some(above.near),
    }
}
