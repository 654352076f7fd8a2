//! Where the answers of the store lead.
ghost use Rattle.std.specs.Prelude.{◌≡◌, None};
ghost use Rattle.congee.specs.protocol.Steps.{next_phase_of, quiet, again, answered, refused, decided, asking, adds, asks_new, absent_reply, after_version, after_read, down, started, ready, unless_full, absent, IsAsked, replaced, emptied, IsAtOld, IsAdded, IsExchanged, IsPresent, IsChecked, after_miss, after_change, after_top, after_retire, after_unwind, given_up, last_out, shrinks, set_at, both, unwound};
ghost use Rattle.congee.specs.declared.protocol.phase.Phase.TheVariants as phase;
ghost use Rattle.congee.specs.declared.protocol.phase.Replacement.TheVariants as replacement;
ghost use Rattle.congee.specs.declared.protocol.phase.Plan.TheVariants as plan;

use crate::forms::child::Child;
use crate::forms::prefix::MAX_PREFIX_LEN;
use crate::protocol::machine::Move;
use crate::protocol::phase::{
    Above, Kind, Parent, ParentChange, Phase, Placement, Plan, Replacement, Site, near_of,
};
use crate::protocol::store::{NodeName, Reading, Refusal, Stamp};
use judge::{Payload, Reply};

/// What a step leaves: the call's next step, and what is reported. Contracts speak of both as one; a step changes the
/// phase where it lies, and gives its report.
#[derive(Drop)]
pub struct NextPhase<C: NodeName, P> {
    /// The next step.
    pub phase: Phase<C, P>,
    /// What the step did, as it is told to the caller.
    pub report: Move<P>,
}

impl<C: NodeName, P: Payload> Phase<C, P> {
    /// After the version of a node was asked for.
    pub(crate) fn after_version(
        &mut self,
        root: C,
        above: Option<Above<C>>,
        node: C,
        version: Option<u64>,
    ) -> Move<P>
        ensures { next_phase_of self.new result ≡ after_version root above node version }
    {
        match version {
            None => self.again(root),
            Some(version) => self.quiet(Phase::Read {
                above,
                at: Stamp { node, version },
            }),
        }
    }

    /// After a read.
    pub(crate) fn after_read(
        &mut self,
        root: C,
        above: Option<Above<C>>,
        at: Stamp<C>,
        reading: Reading<C, P>,
    ) -> Move<P>
        ensures { next_phase_of self.new result ≡ after_read root above at reading }
    {
        match reading {
            Reading::Differs { common, byte } => match above {
                None => self.again(root),
                Some(above) => self.quiet(Phase::CheckMiss {
                    above: above.near,
                    at,
                    common,
                    byte,
                }),
            },
            Reading::Fits { depth, form, seen } => self.quiet(Phase::Check {
                site: Site {
                    above,
                    at,
                    depth,
                    byte: seen.byte,
                    count: seen.count,
                    full: seen.full,
                    form,
                },
                child: seen.child,
            }),
            Reading::Uncopied => self.quiet(Phase::CheckUncopied { at }),
        }
    }

    /// The check after a read succeeded, and a node hangs at the key's byte.
    fn down(&mut self, adds: bool, site: Site<C>, node: C) -> Move<P>
        ensures { next_phase_of self.new result ≡ down adds site site.above node }
    {
        let above = site.above;
        let here = Above {
            near: site.here(),
            far: near_of(above),
        };
        match (adds, above) {
            (true, Some(above)) => self.quiet(Phase::CheckDown {
                above: above.near.stamp,
                at: here,
                node,
            }),
            (true, None) | (false, _) => self.quiet(Phase::Version {
                above: Some(here),
                node,
            }),
        }
    }

    /// What was planned begins.
    pub(crate) fn started(&mut self, plan: Plan<C>, reply: Reply<P>) -> Move<P>
        ensures { next_phase_of self.new result ≡ started plan reply }
    {
        match plan {
            Plan::Here { check: None, one } => self.quiet(Phase::UpgradeHere { one, reply }),
            Plan::Here {
                check: Some(above),
                one,
            } => self.quiet(Phase::CheckAbove { above, one, reply }),
            Plan::Above { two } => self.quiet(Phase::UpgradeAbove { two, reply }),
        }
    }

    /// The nodes that an insertion needs are made.
    pub(crate) fn ready(&mut self, kind: &Kind<P>, plan: Plan<C>) -> Move<P>
        ensures { next_phase_of self.new result ≡ ready kind.now plan }
    {
        if kind.asks_new() {
            self.asking(Phase::AskNew { plan }, None)
        } else {
            self.started(plan, kind.absent_reply())
        }
    }

    /// The nodes are made that come in place of the one at hand.
    pub(crate) fn ready_above(
        &mut self,
        kind: &Kind<P>,
        above: Parent<C>,
        at: Stamp<C>,
        change: Replacement<C>,
    ) -> Move<P>
        ensures { next_phase_of self.new result ≡ ready kind.now (plan.Above (record { top = None; above = above; at = at; change = change })) }
    {
        self.ready(
            kind,
            Plan::Above {
                two: ParentChange {
                    top: None,
                    above,
                    at,
                    change,
                },
            },
        )
    }

    /// A node with no place gives way to a greater one; the root is never full.
    pub(crate) fn unless_full(
        &mut self,
        kind: &Kind<P>,
        site: Site<C>,
        leaf: Option<C>,
        change: Placement<C>,
    ) -> Move<P>
        ensures { next_phase_of self.new result ≡ unless_full kind.now site site.full site.above leaf change }
    {
        match (site.full, site.above) {
            (true, Some(above)) => self.quiet(Phase::MakeGreater {
                site,
                above: above.near,
                leaf,
            }),
            (true, None) | (false, _) => self.ready(kind, site.plan(change)),
        }
    }

    /// The key is absent at the node.
    fn absent(&mut self, kind: &Kind<P>, site: Site<C>) -> Move<P>
        ensures { next_phase_of self.new result ≡ absent kind.now site }
    {
        if !kind.adds() {
            self.answered(kind.absent_reply())
        } else if site.depth == MAX_PREFIX_LEN {
            self.unless_full(kind, site, None, Placement::Set)
        } else {
            self.quiet(Phase::MakeLeaf { site })
        }
    }

    /// The closure is asked for the value that stands.
    pub(crate) fn asked(&mut self, site: Site<C>, old: P) -> Move<P>
        ensures { IsAsked P.always_copies site old (next_phase_of self.new result) }
    {
        match old.copy() {
            None => self.refused(Refusal::Count),
            Some(shown) => self.asking(Phase::AskOld { site, old }, Some(shown)),
        }
    }

    /// The same value again is confirmed, and another one takes its place.
    pub(crate) fn replaced(&mut self, site: Site<C>, same: bool, reply: Reply<P>) -> Move<P>
        ensures { next_phase_of self.new result ≡ replaced site same reply }
    {
        if same {
            self.quiet(Phase::Confirm { at: site.at, reply })
        } else {
            self.quiet(Phase::UpgradeHere {
                one: site.one(Placement::Set),
                reply,
            })
        }
    }

    /// The value is taken out of the leaf.
    fn set_out(&mut self, site: Site<C>, reply: Reply<P>) -> Move<P>
        ensures { next_phase_of self.new result ≡ quiet (phase.UpgradeHere (set_at site) reply) }
    {
        self.quiet(Phase::UpgradeHere {
            one: site.one(Placement::Set),
            reply,
        })
    }

    /// The leaf is taken out of the node above.
    fn leaf_out(&mut self, site: Site<C>, above: Parent<C>, reply: Reply<P>) -> Move<P>
        ensures { next_phase_of self.new result ≡ quiet (phase.UpgradeAbove (both above site replacement.Unlink) reply) }
    {
        self.quiet(Phase::UpgradeAbove {
            two: site.both(above, Replacement::Unlink),
            reply,
        })
    }

    /// The leaf goes with its last value, and with it the node above where one child is left there.
    fn last_out(
        &mut self,
        site: Site<C>,
        above: Parent<C>,
        top: Option<Parent<C>>,
        reply: Reply<P>,
    ) -> Move<P>
        ensures { next_phase_of self.new result ≡ last_out site above top reply }
    {
        match top {
            None => self.leaf_out(site, above, reply),
            Some(top) => {
                if above.count == 2 {
                    self.quiet(Phase::UpgradeTop {
                        top,
                        two: site.both(above, Replacement::Collapse),
                        reply,
                    })
                } else if above.count > 2 && above.form.shrinks(above.count) {
                    self.quiet(Phase::MakeLesser {
                        site,
                        above,
                        top: Some(top),
                        reply,
                    })
                } else {
                    self.leaf_out(site, above, reply)
                }
            }
        }
    }

    /// The value goes: with its last value the leaf goes, and one that came down to few gives way to a lesser leaf.
    pub(crate) fn emptied(&mut self, site: Site<C>, reply: Reply<P>) -> Move<P>
        ensures { next_phase_of self.new result ≡ emptied site reply }
    {
        let above = site.above;
        match above {
            None => self.set_out(site, reply),
            Some(above) => {
                if site.count == 1 {
                    self.last_out(site, above.near, above.far, reply)
                } else if site.form.shrinks(site.count) {
                    self.quiet(Phase::MakeLesser {
                        site,
                        above: above.near,
                        top: None,
                        reply,
                    })
                } else {
                    self.set_out(site, reply)
                }
            }
        }
    }

    /// An insertion stands at a value, and the node above is checked.
    pub(crate) fn at_old(
        &mut self,
        kind: &Kind<P>,
        new: &Option<P>,
        site: Site<C>,
        old: P,
    ) -> Move<P>
        ensures { IsAtOld P.always_copies P.same_as kind.now new.now site old (next_phase_of self.new result) }
    {
        match kind {
            Kind::Insert => {
                let same = match new {
                    None => false,
                    Some(value) => old.same(value),
                };
                self.replaced(site, same, Reply::Insert(Some(old)))
            }
            Kind::ComputeInsert
            | Kind::Get
            | Kind::Remove
            | Kind::ComputePresent
            | Kind::Exchange { .. } => self.asked(site, old),
        }
    }

    /// An insertion stands at a value.
    fn added(&mut self, kind: &Kind<P>, new: &Option<P>, site: Site<C>, old: P) -> Move<P>
        ensures { IsAdded P.always_copies P.same_as kind.now new.now site site.above old (next_phase_of self.new result) }
    {
        let above = site.above;
        match above {
            None => self.at_old(kind, new, site, old),
            Some(above) => self.quiet(Phase::CheckOld {
                above: above.near.stamp,
                site,
                old,
            }),
        }
    }

    /// An exchange found the old value.
    fn exchanged(&mut self, new: &Option<P>, site: Site<C>, old: P) -> Move<P>
        ensures { IsExchanged P.always_copies P.same_as new.now site old (next_phase_of self.new result) }
    {
        match new {
            None => self.emptied(site, Reply::Exchange(Ok(None))),
            Some(value) => match value.copy() {
                None => self.refused(Refusal::Count),
                Some(copied) => {
                    let same = old.same(value);
                    self.replaced(site, same, Reply::Exchange(Ok(Some(copied))))
                }
            },
        }
    }

    /// A call stands at a value.
    fn present(&mut self, kind: &Kind<P>, new: &Option<P>, site: Site<C>, value: P) -> Move<P>
        ensures { IsPresent P.always_copies P.same_as kind.now new.now site value (next_phase_of self.new result) }
    {
        match kind {
            Kind::Get => self.answered(Reply::Get(Some(value))),
            Kind::Insert => self.added(kind, new, site, value),
            Kind::Remove => self.emptied(site, Reply::Remove(Some(value))),
            Kind::ComputePresent => self.asked(site, value),
            Kind::ComputeInsert => self.added(kind, new, site, value),
            Kind::Exchange { old } => {
                if value.same(old) {
                    self.exchanged(new, site, value)
                } else {
                    self.quiet(Phase::Confirm {
                        at: site.at,
                        reply: Reply::Exchange(Err(Some(value))),
                    })
                }
            }
        }
    }

    /// The check after a read succeeded.
    pub(crate) fn checked(
        &mut self,
        kind: &Kind<P>,
        new: &Option<P>,
        site: Site<C>,
        child: Child<C, P>,
    ) -> Move<P>
        ensures { IsChecked P.always_copies P.same_as kind.now new.now site child (next_phase_of self.new result) }
    {
        match child {
            Child::Blank => self.absent(kind, site),
            Child::Node(node) => self.down(kind.adds(), site, node),
            Child::Value(value) => self.present(kind, new, site, value),
        }
    }

    /// The check of the node above one whose prefix differs succeeded.
    pub(crate) fn after_miss(
        &mut self,
        kind: &Kind<P>,
        above: Parent<C>,
        at: Stamp<C>,
        common: usize,
        byte: u8,
    ) -> Move<P>
        ensures { next_phase_of self.new result ≡ after_miss kind.now above at common byte }
    {
        if kind.adds() {
            self.quiet(Phase::MakeTop {
                above,
                at,
                common,
                byte,
            })
        } else {
            self.answered(kind.absent_reply())
        }
    }

    /// The node above was changed.
    pub(crate) fn after_change(&mut self, two: ParentChange<C>, reply: Reply<P>) -> Move<P>
        ensures { next_phase_of self.new result ≡ after_change two reply two.change }
    {
        let above = two.parent();
        let ParentChange { at, change, .. } = two;
        let node = at.node;
        match change {
            Replacement::Split { .. } => self.decided(Phase::UnlockBelow { node, above, reply }),
            Replacement::Collapse | Replacement::ShrinkAbove { .. } => self.after_top(two, reply),
            // Otherwise the node at hand went.
            _ => self.decided(Phase::Obsolete {
                node,
                next: None,
                above,
                reply,
            }),
        }
    }

    /// The node above both was changed: the node at hand and the node above go.
    fn after_top(&mut self, two: ParentChange<C>, reply: Reply<P>) -> Move<P>
        ensures { next_phase_of self.new result ≡ after_top two reply two.top }
    {
        let above = two.parent();
        let ParentChange { top, at, .. } = two;
        let node = at.node;
        match top {
            None => self.decided(Phase::Unlock { node: above, reply }),
            Some(top) => self.decided(Phase::Obsolete {
                node,
                next: Some(above),
                above: top.stamp.node,
                reply,
            }),
        }
    }

    /// A node was handed over: the next one is marked, or the last lock is let go.
    pub(crate) fn after_retire(&mut self, next: Option<C>, above: C, reply: Reply<P>) -> Move<P>
        ensures { next_phase_of self.new result ≡ after_retire next above reply }
    {
        match next {
            None => self.quiet(Phase::Unlock { node: above, reply }),
            Some(node) => self.quiet(Phase::Obsolete {
                node,
                next: None,
                above,
                reply,
            }),
        }
    }

    /// A node was unlocked after an attempt was given up: the next one is, or the call begins anew or is refused.
    pub(crate) fn after_unwind(
        &mut self,
        root: C,
        next: Option<C>,
        refusal: Option<Refusal>,
    ) -> Move<P>
        ensures { next_phase_of self.new result ≡ after_unwind root next refusal }
    {
        match next {
            None => self.unwound(root, refusal),
            Some(node) => self.quiet(Phase::Unwind {
                node,
                next: None,
                refusal,
            }),
        }
    }

    /// An attempt is given up, with this node locked, or none.
    pub(crate) fn given_up(
        &mut self,
        root: C,
        top: Option<Parent<C>>,
        refusal: Option<Refusal>,
    ) -> Move<P>
        ensures { next_phase_of self.new result ≡ given_up root top refusal }
    {
        match top {
            None => self.unwound(root, refusal),
            Some(top) => self.quiet(Phase::Unwind {
                node: top.stamp.node,
                next: None,
                refusal,
            }),
        }
    }

    /// After an attempt was given up: the call begins anew, or is refused.
    pub(crate) fn unwound(&mut self, root: C, refusal: Option<Refusal>) -> Move<P>
        ensures { next_phase_of self.new result ≡ unwound root refusal }
    {
        match refusal {
            None => self.again(root),
            Some(refusal) => self.refused(refusal),
        }
    }
}
