//! The steps of a call that make, lock or change nodes, and those after its change.
ghost use Rattle.std.specs.Prelude.{◌≡◌, ◌<◌, ◌≤◌, Bool, Option, None, Result, IfErr};
ghost use Rattle.congee.specs.Heap.{Stands};
ghost use Rattle.congee.specs.Keys.{key_bytes};
ghost use Rattle.congee.specs.protocol.Steps.{next_phase_of, form_above, decided, after_change, Acts, MayLock, IsReleasing, IsUnlocking, MadeLeaf, MadeGreater, MadeTop, MadeBeside, MadeLesser, lesser_form, UpgradedHere, UpgradedTop, UpgradedAbove, UpgradedBelow, ChangedHere, ChangedAbove, IsCheckedAbove, MayBackHere, MayBackAbove, MayBackLeaf, MayChangeHere, MayChangeAbove, MachineStepped, MachineMayStep};
ghost use Rattle.congee.specs.protocol.Events.{upgrade_gives};
ghost use Rattle.congee.specs.declared.protocol.store.Upgrade.{Upgrade};
ghost use Rattle.congee.specs.declared.protocol.store.Refusal.{Refusal};
ghost use Rattle.congee.specs.declared.protocol.phase.Phase.TheVariants as phase;
ghost use Rattle.congee.specs.declared.forms.base_node.NodeType.TheVariants as base;
ghost use Rattle.congee.specs.protocol.Bounds.{Within};

use crate::forms::base_node::NodeType;
use crate::forms::child::Child;
use crate::forms::prefix::MAX_PREFIX_LEN;
use crate::protocol::changes::{
    give_back_placement, give_back_replacement, put_replacement, value_child,
};
use crate::protocol::machine::{Machine, Move, Outcome};
use crate::protocol::phase::{
    NodeChange, Parent, ParentChange, Phase, Placement, Replacement, Site, taken,
};
use crate::protocol::store::{NodeName, Refusal, Stamp, Store, Upgrade};
use judge::{Payload, Reply};

impl<C: NodeName, P: Payload> Machine<C, P> {
    /// The step of a phase that makes, locks or changes nodes, or of a later one.
    pub(crate) fn act<S: Store<C, P>>(&mut self, store: &mut S, fail: bool) -> Move<P>
        requires may { MachineMayStep C.number self.old (S.heap store.old) }
        requires acts { Acts self.old.phase }
        requires within { Within (S.version_max store.old) (S.heap store.old) }
        ensures root { self.new.root ≡ self.old.root }
        ensures key { self.new.key ≡ self.old.key }
        ensures kind { self.new.kind ≡ self.old.kind }
        ensures limit { S.version_max store.new ≡ S.version_max store.old }
        ensures rest { S.rest store.new ≡ S.rest store.old }
        ensures step { (answer : Option (Option P)) → MachineStepped C.number P.same_as P.always_copies (S.version_max store.old) (S.refuses store.old) self.old (S.heap store.old) fail answer self.new (S.heap store.new) result }
    {
        match &mut self.phase {
            Phase::MakeLeaf { site } => {
                let site = *site;
                self.make_leaf(store, site)
            }
            Phase::MakeGreater { site, above, leaf } => {
                let (site, above, leaf) = (*site, *above, *leaf);
                self.make_greater(store, site, above, leaf)
            }
            Phase::MakeTop {
                above,
                at,
                common,
                byte,
            } => {
                let (above, at, common, byte) = (*above, *at, *common, *byte);
                self.make_top(store, above, at, common, byte)
            }
            Phase::MakeBeside {
                above,
                at,
                common,
                byte,
                top,
            } => {
                let (above, at, common, byte, top) = (*above, *at, *common, *byte, *top);
                self.make_beside(store, above, at, common, byte, top)
            }
            Phase::MakeLesser {
                site,
                above,
                top,
                reply,
            } => {
                let (site, above, top, reply) = (*site, *above, *top, taken(reply));
                self.make_lesser(store, site, above, top, reply)
            }
            // The phases that lock or change nodes, and the later ones: each has its arm there.
            _ => self.lock(store, fail),
        }
    }

    /// The step of a phase that locks or changes nodes, or of a later one.
    fn lock<S: Store<C, P>>(&mut self, store: &mut S, fail: bool) -> Move<P>
        requires may { MachineMayStep C.number self.old (S.heap store.old) }
        requires may_lock { MayLock self.old.phase }
        requires within { Within (S.version_max store.old) (S.heap store.old) }
        ensures root { self.new.root ≡ self.old.root }
        ensures key { self.new.key ≡ self.old.key }
        ensures kind { self.new.kind ≡ self.old.kind }
        ensures limit { S.version_max store.new ≡ S.version_max store.old }
        ensures rest { S.rest store.new ≡ S.rest store.old }
        ensures step { (answer : Option (Option P)) → MachineStepped C.number P.same_as P.always_copies (S.version_max store.old) (S.refuses store.old) self.old (S.heap store.old) fail answer self.new (S.heap store.new) result }
    {
        match &mut self.phase {
            Phase::CheckAbove { above, one, reply } => {
                let (above, one, reply) = (*above, *one, taken(reply));
                self.check_above(store, above, one, reply)
            }
            Phase::UpgradeHere { one, reply } => {
                let (one, reply) = (*one, taken(reply));
                self.upgrade_here(store, one, reply, fail)
            }
            Phase::ChangeHere { one, reply } => {
                let (one, reply) = (*one, taken(reply));
                self.change_here(store, one, reply)
            }
            Phase::UpgradeTop { top, two, reply } => {
                let (top, two, reply) = (*top, *two, taken(reply));
                self.upgrade_top(store, top, two, reply, fail)
            }
            Phase::UpgradeAbove { two, reply } => {
                let (two, reply) = (*two, taken(reply));
                self.upgrade_above(store, two, reply, fail)
            }
            Phase::UpgradeBelow { two, reply } => {
                let (two, reply) = (*two, taken(reply));
                self.upgrade_below(store, two, reply, fail)
            }
            Phase::ChangeAbove { two, reply } => {
                let (two, reply) = (*two, taken(reply));
                self.change_above(store, two, reply)
            }
            // The phases after the change: each has its arm there.
            _ => self.leave(store),
        }
    }

    /// The step of a phase that marks or hands over a node, or of a later one.
    fn leave<S: Store<C, P>>(&mut self, store: &mut S) -> Move<P>
        requires may { MachineMayStep C.number self.old (S.heap store.old) }
        requires leaves { IsReleasing self.old.phase }
        requires within { Within (S.version_max store.old) (S.heap store.old) }
        ensures phase_alone { self.new ≡ record self.old { phase = self.new.phase } }
        ensures limit { S.version_max store.new ≡ S.version_max store.old }
        ensures rest { S.rest store.new ≡ S.rest store.old }
        ensures step { (fail : Bool) (answer : Option (Option P)) → MachineStepped C.number P.same_as P.always_copies (S.version_max store.old) (S.refuses store.old) self.old (S.heap store.old) fail answer self.new (S.heap store.new) result }
    {
        match &mut self.phase {
            Phase::Obsolete {
                node,
                next,
                above,
                reply,
            } => {
                let (node, next, above, reply) = (*node, *next, *above, taken(reply));
                store.obsolete(node);
                self.phase.quiet(Phase::Retire {
                    node,
                    next,
                    above,
                    reply,
                })
            }
            Phase::Retire {
                node,
                next,
                above,
                reply,
            } => {
                let (node, next, above, reply) = (*node, *next, *above, taken(reply));
                store.retire(node);
                self.phase.after_retire(next, above, reply)
            }
            // The phases that unlock a node, and the last one: each has its arm there.
            _ => self.release(store),
        }
    }

    /// The step of a phase that unlocks a node, or of a call that has ended.
    fn release<S: Store<C, P>>(&mut self, store: &mut S) -> Move<P>
        requires may { MachineMayStep C.number self.old (S.heap store.old) }
        requires unlocks { IsUnlocking self.old.phase }
        requires within { Within (S.version_max store.old) (S.heap store.old) }
        ensures phase_alone { self.new ≡ record self.old { phase = self.new.phase } }
        ensures limit { S.version_max store.new ≡ S.version_max store.old }
        ensures rest { S.rest store.new ≡ S.rest store.old }
        ensures step { (fail : Bool) (answer : Option (Option P)) → MachineStepped C.number P.same_as P.always_copies (S.version_max store.old) (S.refuses store.old) self.old (S.heap store.old) fail answer self.new (S.heap store.new) result }
    {
        match &mut self.phase {
            Phase::UnlockBelow { node, above, reply } => {
                let (node, above, reply) = (*node, *above, taken(reply));
                store.unlock(node);
                self.phase.quiet(Phase::Unlock { node: above, reply })
            }
            Phase::Unlock { node, reply } => {
                let (node, reply) = (*node, taken(reply));
                store.unlock(node);
                self.phase.finished(reply)
            }
            Phase::Unwind {
                node,
                next,
                refusal,
            } => {
                let (node, next, refusal) = (*node, *next, *refusal);
                store.unlock(node);
                self.phase.after_unwind(self.root, next, refusal)
            }
            // A call that has ended stays so; what is no phase after a change doesn't come here.
            _ => Move {
                decided: false,
                skipped: false,
                outcome: Outcome::Running,
            },
        }
    }

    /// Makes the leaf for the key, and plans to hang it; a full node gives way to a greater one first.
    fn make_leaf<S: Store<C, P>>(&mut self, store: &mut S, site: Site<C>) -> Move<P>
        ensures phase_alone { self.new ≡ record self.old { phase = self.new.phase } }
        ensures limit { S.version_max store.new ≡ S.version_max store.old }
        ensures rest { S.rest store.new ≡ S.rest store.old }
        ensures made { ((r : Result C Refusal) × MadeLeaf C.number self.old.kind site (S.heap store.old) (key_bytes self.old.key) r (S.heap store.new) (next_phase_of self.new.phase result) × IfErr r (S.refuses store.old base.N4)) }
    {
        match store.make(NodeType::N4, &self.key.to_be_bytes(), MAX_PREFIX_LEN) {
            Err(refusal) => self.phase.refused(refusal),
            Ok(leaf) => self
                .phase
                .unless_full(&self.kind, site, Some(leaf), Placement::Link { leaf }),
        }
    }

    /// Makes the greater node that takes a full one's place; where it can't be made, the leaf goes back.
    fn make_greater<S: Store<C, P>>(
        &mut self,
        store: &mut S,
        site: Site<C>,
        above: Parent<C>,
        leaf: Option<C>,
    ) -> Move<P>
        requires depth { site.depth ≤ MAX_PREFIX_LEN }
        requires stands { MayBackLeaf C.number (S.heap store.old) leaf }
        ensures phase_alone { self.new ≡ record self.old { phase = self.new.phase } }
        ensures limit { S.version_max store.new ≡ S.version_max store.old }
        ensures rest { S.rest store.new ≡ S.rest store.old }
        ensures made { ((r : Result C Refusal) × MadeGreater C.number self.old.kind site above leaf (S.heap store.old) (key_bytes self.old.key) r (S.heap store.new) (next_phase_of self.new.phase result) × IfErr r (S.refuses store.old (form_above site.count))) }
    {
        let form = NodeType::above(site.count);
        match store.make(form, &self.key.to_be_bytes(), site.depth) {
            Err(refusal) => {
                if let Some(leaf) = leaf {
                    store.give_back(leaf);
                }
                self.phase.refused(refusal)
            }
            Ok(node) => {
                let change = site.greater(leaf, node);
                self.phase.ready_above(&self.kind, above, site.at, change)
            }
        }
    }

    /// Makes the node with the common prefix that comes above the one at hand.
    fn make_top<S: Store<C, P>>(
        &mut self,
        store: &mut S,
        above: Parent<C>,
        at: Stamp<C>,
        common: usize,
        byte: u8,
    ) -> Move<P>
        requires { common < MAX_PREFIX_LEN }
        ensures phase_alone { self.new ≡ record self.old { phase = self.new.phase } }
        ensures limit { S.version_max store.new ≡ S.version_max store.old }
        ensures rest { S.rest store.new ≡ S.rest store.old }
        ensures made { ((r : Result C Refusal) × MadeTop C.number above at common byte (S.heap store.old) (key_bytes self.old.key) r (S.heap store.new) (next_phase_of self.new.phase result) × IfErr r (S.refuses store.old base.N4)) }
    {
        match store.make(NodeType::N4, &self.key.to_be_bytes(), common) {
            Err(refusal) => self.phase.refused(refusal),
            Ok(top) => self.phase.quiet(Phase::MakeBeside {
                above,
                at,
                common,
                byte,
                top,
            }),
        }
    }

    /// Makes the key's leaf beside the node at hand; where it can't be made, the node above goes back.
    fn make_beside<S: Store<C, P>>(
        &mut self,
        store: &mut S,
        above: Parent<C>,
        at: Stamp<C>,
        common: usize,
        byte: u8,
        top: C,
    ) -> Move<P>
        requires { Stands (S.heap store.old (C.number top)) }
        ensures phase_alone { self.new ≡ record self.old { phase = self.new.phase } }
        ensures limit { S.version_max store.new ≡ S.version_max store.old }
        ensures rest { S.rest store.new ≡ S.rest store.old }
        ensures made { ((r : Result C Refusal) × MadeBeside C.number self.old.kind above at common byte top (S.heap store.old) (key_bytes self.old.key) r (S.heap store.new) (next_phase_of self.new.phase result) × IfErr r (S.refuses store.old base.N4)) }
    {
        match store.make(NodeType::N4, &self.key.to_be_bytes(), MAX_PREFIX_LEN) {
            Err(refusal) => {
                store.give_back(top);
                self.phase.refused(refusal)
            }
            Ok(leaf) => {
                let change = Replacement::Split {
                    top,
                    leaf,
                    common,
                    byte,
                };
                self.phase.ready_above(&self.kind, above, at, change)
            }
        }
    }

    /// Makes the lesser node that takes the place of the leaf, or of the node above. Where it can't be made, the call goes on
    /// without it.
    fn make_lesser<S: Store<C, P>>(
        &mut self,
        store: &mut S,
        site: Site<C>,
        above: Parent<C>,
        top: Option<Parent<C>>,
        reply: Reply<P>,
    ) -> Move<P>
        requires depth { site.depth ≤ MAX_PREFIX_LEN }
        requires depth_above { above.depth ≤ MAX_PREFIX_LEN }
        ensures phase_alone { self.new ≡ record self.old { phase = self.new.phase } }
        ensures limit { S.version_max store.new ≡ S.version_max store.old }
        ensures rest { S.rest store.new ≡ S.rest store.old }
        ensures made { ((x : Result C Refusal) × MadeLesser C.number site above top reply (S.heap store.old) (key_bytes self.old.key) x (S.heap store.new) (next_phase_of self.new.phase result) × IfErr x (S.refuses store.old (lesser_form site above top))) }
    {
        let key = self.key.to_be_bytes();
        match top {
            None => match store.make(site.form.below(), &key, site.depth) {
                Err(_) => self.phase.skipping(Phase::UpgradeHere {
                    one: site.one(Placement::Set),
                    reply,
                }),
                Ok(node) => self.phase.quiet(Phase::UpgradeAbove {
                    two: site.both(above, Replacement::Shrink { node }),
                    reply,
                }),
            },
            Some(top) => match store.make(above.form.below(), &key, above.depth) {
                Err(_) => self.phase.skipping(Phase::UpgradeAbove {
                    two: site.both(above, Replacement::Unlink),
                    reply,
                }),
                Ok(node) => self.phase.quiet(Phase::UpgradeTop {
                    top,
                    two: site.both(above, Replacement::ShrinkAbove { node }),
                    reply,
                }),
            },
        }
    }

    /// Checks the node above before one node is changed.
    fn check_above<S: Store<C, P>>(
        &mut self,
        store: &mut S,
        above: Stamp<C>,
        one: NodeChange<C>,
        reply: Reply<P>,
    ) -> Move<P>
        requires stands { Stands (S.heap store.old (C.number above.node)) }
        requires made { MayBackHere C.number (S.heap store.old) one.change }
        ensures phase_alone { self.new ≡ record self.old { phase = self.new.phase } }
        ensures limit { S.version_max store.new ≡ S.version_max store.old }
        ensures rest { S.rest store.new ≡ S.rest store.old }
        ensures checked { IsCheckedAbove C.number self.old.root above one reply (S.heap store.old) (S.heap store.new) (next_phase_of self.new.phase result) }
    {
        if store.check(above) {
            self.phase.quiet(Phase::UpgradeHere { one, reply })
        } else {
            give_back_placement(store, one.change, reply);
            self.phase.again(self.root)
        }
    }

    /// Locks the one node that the call changes.
    fn upgrade_here<S: Store<C, P>>(
        &mut self,
        store: &mut S,
        one: NodeChange<C>,
        reply: Reply<P>,
        fail: bool,
    ) -> Move<P>
        requires stands { Stands (S.heap store.old (C.number one.at.node)) }
        requires made { MayBackHere C.number (S.heap store.old) one.change }
        ensures phase_alone { self.new ≡ record self.old { phase = self.new.phase } }
        ensures limit { S.version_max store.new ≡ S.version_max store.old }
        ensures rest { S.rest store.new ≡ S.rest store.old }
        ensures upgraded { ((u : Upgrade) × (u ≡ upgrade_gives (S.version_max store.old) (S.heap store.old (C.number one.at.node)) one.at.version fail) × UpgradedHere C.number self.old.root one reply (S.heap store.old) u (S.heap store.new) (next_phase_of self.new.phase result)) }
    {
        let refusal = match store.upgrade(one.at, fail) {
            Upgrade::Locked => return self.phase.quiet(Phase::ChangeHere { one, reply }),
            Upgrade::Failed => None,
            Upgrade::Exhausted => Some(Refusal::Exhausted),
        };
        give_back_placement(store, one.change, reply);
        self.phase.unwound(self.root, refusal)
    }

    /// Locks the node above both, the first of three.
    fn upgrade_top<S: Store<C, P>>(
        &mut self,
        store: &mut S,
        top: Parent<C>,
        two: ParentChange<C>,
        reply: Reply<P>,
        fail: bool,
    ) -> Move<P>
        requires stands { Stands (S.heap store.old (C.number top.stamp.node)) }
        requires made { MayBackAbove C.number (S.heap store.old) two.change }
        ensures phase_alone { self.new ≡ record self.old { phase = self.new.phase } }
        ensures limit { S.version_max store.new ≡ S.version_max store.old }
        ensures rest { S.rest store.new ≡ S.rest store.old }
        ensures upgraded { ((u : Upgrade) × (u ≡ upgrade_gives (S.version_max store.old) (S.heap store.old (C.number top.stamp.node)) top.stamp.version fail) × UpgradedTop C.number self.old.root top two reply (S.heap store.old) u (S.heap store.new) (next_phase_of self.new.phase result)) }
    {
        let refusal = match store.upgrade(top.stamp, fail) {
            Upgrade::Locked => {
                let two = ParentChange {
                    top: Some(top),
                    ..two
                };
                return self.phase.quiet(Phase::UpgradeAbove { two, reply });
            }
            Upgrade::Failed => None,
            Upgrade::Exhausted => Some(Refusal::Exhausted),
        };
        give_back_replacement(store, two.change, reply);
        self.phase.unwound(self.root, refusal)
    }

    /// Locks the node above: the first of two, or the second of three.
    fn upgrade_above<S: Store<C, P>>(
        &mut self,
        store: &mut S,
        two: ParentChange<C>,
        reply: Reply<P>,
        fail: bool,
    ) -> Move<P>
        requires stands { Stands (S.heap store.old (C.number two.above.stamp.node)) }
        requires made { MayBackAbove C.number (S.heap store.old) two.change }
        ensures phase_alone { self.new ≡ record self.old { phase = self.new.phase } }
        ensures limit { S.version_max store.new ≡ S.version_max store.old }
        ensures rest { S.rest store.new ≡ S.rest store.old }
        ensures upgraded { ((u : Upgrade) × (u ≡ upgrade_gives (S.version_max store.old) (S.heap store.old (C.number two.above.stamp.node)) two.above.stamp.version fail) × UpgradedAbove C.number self.old.root two reply (S.heap store.old) u (S.heap store.new) (next_phase_of self.new.phase result)) }
    {
        let refusal = match store.upgrade(two.stamp_above(), fail) {
            Upgrade::Locked => return self.phase.quiet(Phase::UpgradeBelow { two, reply }),
            Upgrade::Failed => None,
            Upgrade::Exhausted => Some(Refusal::Exhausted),
        };
        give_back_replacement(store, two.change, reply);
        let top = two.top;
        self.phase.given_up(self.root, top, refusal)
    }

    /// Locks the node at hand, the last one, where those above are locked.
    fn upgrade_below<S: Store<C, P>>(
        &mut self,
        store: &mut S,
        two: ParentChange<C>,
        reply: Reply<P>,
        fail: bool,
    ) -> Move<P>
        requires stands { Stands (S.heap store.old (C.number two.at.node)) }
        requires made { MayBackAbove C.number (S.heap store.old) two.change }
        ensures phase_alone { self.new ≡ record self.old { phase = self.new.phase } }
        ensures limit { S.version_max store.new ≡ S.version_max store.old }
        ensures rest { S.rest store.new ≡ S.rest store.old }
        ensures upgraded { ((u : Upgrade) × (u ≡ upgrade_gives (S.version_max store.old) (S.heap store.old (C.number two.at.node)) two.at.version fail) × UpgradedBelow C.number two reply (S.heap store.old) u (S.heap store.new) (next_phase_of self.new.phase result)) }
    {
        let node = two.parent();
        let next = two.top_node();
        let refusal = match store.upgrade(two.at, fail) {
            Upgrade::Locked => return self.phase.quiet(Phase::ChangeAbove { two, reply }),
            Upgrade::Failed => None,
            Upgrade::Exhausted => Some(Refusal::Exhausted),
        };
        give_back_replacement(store, two.change, reply);
        self.phase.quiet(Phase::Unwind {
            node,
            next,
            refusal,
        })
    }

    /// Changes the one locked node, a new leaf being filled before: the call takes effect.
    fn change_here<S: Store<C, P>>(
        &mut self,
        store: &mut S,
        one: NodeChange<C>,
        reply: Reply<P>,
    ) -> Move<P>
        requires { MayChangeHere C.number self.old.given one one.change (S.heap store.old) }
        ensures root { self.new.root ≡ self.old.root }
        ensures key { self.new.key ≡ self.old.key }
        ensures kind { self.new.kind ≡ self.old.kind }
        ensures spent { self.new.given ≡ None }
        ensures limit { S.version_max store.new ≡ S.version_max store.old }
        ensures rest { S.rest store.new ≡ S.rest store.old }
        ensures changed { ChangedHere C.number (key_bytes self.old.key) self.old.given one one.change (S.heap store.old) (S.heap store.new) }
        ensures next_phase { next_phase_of self.new.phase result ≡ decided (phase.Unlock one.at.node reply) }
    {
        let value = value_child(self.given.take());
        let NodeChange { at, byte, change } = one;
        let node = at.node;
        match change {
            Placement::Set => store.change(node, byte, value),
            Placement::Link { leaf } => {
                store.fill(leaf, self.key.to_be_bytes()[MAX_PREFIX_LEN], value);
                store.change(node, byte, Child::Node(leaf));
            }
        }
        self.phase.decided(Phase::Unlock { node, reply })
    }

    /// Changes the node above, or the one above both, with all of them locked: the call takes effect.
    fn change_above<S: Store<C, P>>(
        &mut self,
        store: &mut S,
        two: ParentChange<C>,
        reply: Reply<P>,
    ) -> Move<P>
        requires { MayChangeAbove C.number (key_bytes self.old.key) self.old.given two two.change (S.heap store.old) }
        ensures root { self.new.root ≡ self.old.root }
        ensures key { self.new.key ≡ self.old.key }
        ensures kind { self.new.kind ≡ self.old.kind }
        ensures spent { self.new.given ≡ None }
        ensures limit { S.version_max store.new ≡ S.version_max store.old }
        ensures rest { S.rest store.new ≡ S.rest store.old }
        ensures changed { ChangedAbove C.number (key_bytes self.old.key) self.old.given two two.change (S.heap store.old) (S.heap store.new) }
        ensures next_phase { next_phase_of self.new.phase result ≡ after_change two reply two.change }
    {
        put_replacement(store, two, &self.key.to_be_bytes(), self.given.take());
        self.phase.after_change(two, reply)
    }
}
