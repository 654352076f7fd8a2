//! One call on a shared tree, as a machine that takes one step at a time.
ghost use Rattle.std.specs.Prelude.{◌≡◌, ℕ, ◌+◌, Some, List, [], ◌∷◌, ◌++◌};
ghost use Rattle.congee.specs.Heap.{Node, Stands, is_taken};
ghost use Rattle.congee.specs.protocol.Answers.{KeepsProtocol};
ghost use Rattle.congee.specs.protocol.Names.{KeepsOrigin};
ghost use Rattle.congee.specs.protocol.Play.{begun, flight, range_of, IsNew, IsOfRange, Begins};
ghost use Rattle.congee.specs.protocol.Opening.{RootAlone};
ghost use Rattle.congee.specs.protocol.Steps.{next_phase_of, quiet, answered, refused, after_miss, IsIf, IsChecked, IsAtOld, IsGiven, IsGivenNew, Stepped, HasValue, Settles, MachineStepped, MachineMayStep};
ghost use Rattle.congee.specs.declared.protocol.store.Refusal.TheVariants as refusal;
ghost use Rattle.congee.specs.declared.protocol.phase.Phase.TheVariants as phase;
ghost use Rattle.congee.specs.protocol.Bounds.{Within};

use crate::forms::child::Child;
use crate::protocol::op::Op;
use crate::protocol::phase::{Above, Kind, Parent, Phase, Plan, Site, taken};
use crate::protocol::store::{NodeName, Refusal, Seen, Stamp, Store};
use judge::{Payload, Reply};
use std::mem;

/// How a step left its call.
#[derive(Drop)]
pub enum Outcome<P> {
    /// The call goes on.
    Running,
    /// The closure's answer is wanted, for the value that stands or for an absent key.
    Asks(Option<P>),
    /// A scan found a pair for a place; it goes on.
    Found { place: usize, key: u64, value: P },
    /// The call has ended with its reply.
    Done(Reply<P>),
    /// A scan has ended, with so many places filled.
    Scanned { count: usize },
    /// The call has ended without one, and has changed nothing.
    Refused(Refusal),
}

/// What one step of a call did.
#[derive(Drop)]
pub struct Move<P> {
    /// Whether the call took effect in this step.
    pub decided: bool,
    /// Whether a lesser node wasn't made in this step, and the call goes on without it.
    pub skipped: bool,
    /// How the call stands after it.
    pub outcome: Outcome<P>,
}

/// What comes to a step from outside; each part is used only where the step asks for it.
#[derive(Drop)]
pub struct Noise<C, P> {
    /// An exchange of a lock word fails.
    pub fail: bool,
    /// What a read of a changed node sees.
    pub seen: Option<Seen<C, P>>,
    /// What the closure answers. `Some(None)` takes the key out, and is no answer where a value is wanted.
    pub answer: Option<Option<P>>,
}

/// One call on one key, between two of its steps.
#[derive(Drop)]
pub struct Machine<C: NodeName, P> {
    /// The tree's root.
    pub root: C,
    /// The key.
    pub key: u64,
    /// What the call does.
    pub kind: Kind<P>,
    /// The value that the call puts at its key: given with the call, or the closure's last answer.
    pub given: Option<P>,
    /// Its next step.
    pub phase: Phase<C, P>,
}

impl<C: NodeName, P: Payload> Machine<C, P> {
    /// The call on the tree with this root, before its first step.
    pub fn new(root: C, op: Op<P>) -> Self
        ensures call { result ≡ begun root op }
        ensures new { IsNew result }
        ensures scan { IsOfRange (range_of op) (flight result) }
        ensures begins { (h : ℕ → Node P) → RootAlone h → C.number root ≡ 0 → Begins C.number h (result ∷ []) }
        ensures joins { (h : ℕ → Node P) (ms : List (Machine C P)) → Begins C.number h ms → C.number root ≡ 0 → Begins C.number h (ms ++ result ∷ []) }
    {
        let phase = op.first_phase(root);
        let (key, kind, given) = op.parts();
        Machine {
            root,
            key,
            kind,
            given,
            phase,
        }
    }

    /// The call on the tree with this root, in the place of another one, which goes.
    pub fn begin(&mut self, root: C, op: Op<P>)
        ensures call { self.new ≡ begun root op }
        ensures new { IsNew self.new }
    {
        op.begin(root, &mut self.phase);
        let (key, kind, given) = op.parts();
        self.root = root;
        self.key = key;
        self.kind = kind;
        self.given = given;
    }

    /// The next step of the call.
    #[inline(always)]
    pub fn next<S: Store<C, P>>(&mut self, store: &mut S, mut noise: Noise<C, P>) -> Move<P>
        requires may { MachineMayStep C.number self.old (S.heap store.old) }
        requires within { Within (S.version_max store.old) (S.heap store.old) }
        ensures limit { S.version_max store.new ≡ S.version_max store.old }
        ensures rest { S.rest store.new ≡ S.rest store.old }
        ensures within { Within (S.version_max store.new) (S.heap store.new) }
        ensures step { Stepped C.number P.same_as P.always_copies (S.version_max store.old) (S.refuses store.old) self.old (S.heap store.old) noise.fail noise.answer self.new (S.heap store.new) result }
        ensures keeps { KeepsProtocol C.number P.same_as P.always_copies self.old (S.heap store.old) self.new (S.heap store.new) result }
        ensures origin { KeepsOrigin C.number P.same_as P.always_copies self.old (S.heap store.old) self.new (S.heap store.new) }
    {
        let report = self.step_phase(store, &mut noise);
        // What isn't wanted any more is handed to `drop`: in place it would be a step for each variant, which the checker
        // goes through at each branch.
        drop(noise);
        report
    }

    /// The step of a phase: of one on the call's way down, of a scan, or of a later one. The phase is changed where it lies,
    /// and a scan in it too.
    fn step_phase<S: Store<C, P>>(&mut self, store: &mut S, noise: &mut Noise<C, P>) -> Move<P>
        requires may { MachineMayStep C.number self.old (S.heap store.old) }
        requires within { Within (S.version_max store.old) (S.heap store.old) }
        ensures root { self.new.root ≡ self.old.root }
        ensures key { self.new.key ≡ self.old.key }
        ensures kind { self.new.kind ≡ self.old.kind }
        ensures limit { S.version_max store.new ≡ S.version_max store.old }
        ensures rest { S.rest store.new ≡ S.rest store.old }
        ensures step { MachineStepped C.number P.same_as P.always_copies (S.version_max store.old) (S.refuses store.old) self.old (S.heap store.old) noise.old.fail noise.old.answer self.new (S.heap store.new) result }
    {
        let root = self.root;
        match &mut self.phase {
            Phase::New => self
                .phase
                .after_version(root, None, root, store.version(root)),
            Phase::Version { above, node } => {
                let (above, node) = (*above, *node);
                self.phase
                    .after_version(root, above, node, store.version(node))
            }
            Phase::Read { above, at } => {
                let (above, at) = (*above, *at);
                let reading = store.read(at, &self.key.to_be_bytes(), noise.seen.take());
                self.phase.after_read(root, above, at, reading)
            }
            Phase::Check { site, child } => {
                let site = *site;
                let child = mem::replace(child, Child::Blank);
                self.check(store, site, child)
            }
            Phase::CheckDown { above, at, node } => {
                let (above, at, node) = (*above, *at, *node);
                self.check_down(store, above, at, node)
            }
            Phase::Scan { scan } => scan.step(store, root, &mut noise.seen).report(),
            // The phases past the way: each has its arm there.
            _ => self.settle(store, noise),
        }
    }

    /// The step of a phase that checks once more or takes an answer, or of a later one.
    fn settle<S: Store<C, P>>(&mut self, store: &mut S, noise: &mut Noise<C, P>) -> Move<P>
        requires may { MachineMayStep C.number self.old (S.heap store.old) }
        requires settles { Settles self.old.phase }
        requires within { Within (S.version_max store.old) (S.heap store.old) }
        ensures root { self.new.root ≡ self.old.root }
        ensures key { self.new.key ≡ self.old.key }
        ensures kind { self.new.kind ≡ self.old.kind }
        ensures limit { S.version_max store.new ≡ S.version_max store.old }
        ensures rest { S.rest store.new ≡ S.rest store.old }
        ensures step { MachineStepped C.number P.same_as P.always_copies (S.version_max store.old) (S.refuses store.old) self.old (S.heap store.old) noise.old.fail noise.old.answer self.new (S.heap store.new) result }
    {
        match &mut self.phase {
            Phase::CheckUncopied { at } => {
                let at = *at;
                self.check_uncopied(store, at)
            }
            Phase::CheckMiss {
                above,
                at,
                common,
                byte,
            } => {
                let (above, at, common, byte) = (*above, *at, *common, *byte);
                self.check_miss(store, above, at, common, byte)
            }
            Phase::CheckOld { .. } | Phase::AskOld { .. } => self.at_value(store, noise),
            Phase::AskNew { plan } => {
                let plan = *plan;
                self.take_new(plan, noise.answer.take())
            }
            Phase::Confirm { at, reply } => {
                let (at, reply) = (*at, taken(reply));
                self.confirm(store, at, reply)
            }
            // The phases that make, lock or change nodes, and the later ones: each has its arm there.
            _ => self.act(store, noise.fail),
        }
    }

    /// The step of a phase that has the value that stands, which is taken out of it.
    fn at_value<S: Store<C, P>>(&mut self, store: &S, noise: &mut Noise<C, P>) -> Move<P>
        requires may { MachineMayStep C.number self.old (S.heap store.now) }
        requires value { HasValue self.old.phase }
        ensures root { self.new.root ≡ self.old.root }
        ensures key { self.new.key ≡ self.old.key }
        ensures kind { self.new.kind ≡ self.old.kind }
        ensures step { MachineStepped C.number P.same_as P.always_copies (S.version_max store.now) (S.refuses store.now) self.old (S.heap store.now) noise.old.fail noise.old.answer self.new (S.heap store.now) result }
    {
        match mem::replace(&mut self.phase, Phase::Ended) {
            Phase::CheckOld { above, site, old } => self.check_old(store, above, site, old),
            Phase::AskOld { site, old } => self.take_answer(site, old, noise.answer.take()),
            _ => unreachable!(),
        }
    }

    /// Checks the node whose value couldn't be copied.
    fn check_uncopied<S: Store<C, P>>(&mut self, store: &S, at: Stamp<C>) -> Move<P>
        requires { Stands (S.heap store.now (C.number at.node)) }
        ensures phase_alone { self.new ≡ record self.old { phase = self.new.phase } }
        ensures checked { IsIf (is_taken (S.heap store.now (C.number at.node)) at.version) self.old.root (λ u. u ≡ refused refusal.Count) (next_phase_of self.new.phase result) }
    {
        if store.check(at) {
            self.phase.refused(Refusal::Count)
        } else {
            self.phase.again(self.root)
        }
    }

    /// Checks the node once more, where the call leaves the value as it is.
    fn confirm<S: Store<C, P>>(&mut self, store: &S, stamp: Stamp<C>, reply: Reply<P>) -> Move<P>
        requires { Stands (S.heap store.now (C.number stamp.node)) }
        ensures phase_alone { self.new ≡ record self.old { phase = self.new.phase } }
        ensures checked { IsIf (is_taken (S.heap store.now (C.number stamp.node)) stamp.version) self.old.root (λ u. u ≡ answered reply) (next_phase_of self.new.phase result) }
    {
        if store.check(stamp) {
            self.phase.answered(reply)
        } else {
            self.phase.again(self.root)
        }
    }

    /// Checks the node after the read.
    fn check<S: Store<C, P>>(&mut self, store: &S, site: Site<C>, child: Child<C, P>) -> Move<P>
        requires { Stands (S.heap store.now (C.number site.at.node)) }
        ensures phase_alone { self.new ≡ record self.old { phase = self.new.phase } }
        ensures checked { IsIf (is_taken (S.heap store.now (C.number site.at.node)) site.at.version) self.old.root (IsChecked P.always_copies P.same_as self.old.kind self.old.given site child) (next_phase_of self.new.phase result) }
    {
        if store.check(site.at) {
            self.phase.checked(&self.kind, &self.given, site, child)
        } else {
            self.phase.again(self.root)
        }
    }

    /// Checks the node above one whose prefix differs from the key.
    fn check_miss<S: Store<C, P>>(
        &mut self,
        store: &S,
        above: Parent<C>,
        at: Stamp<C>,
        common: usize,
        byte: u8,
    ) -> Move<P>
        requires { Stands (S.heap store.now (C.number above.stamp.node)) }
        ensures phase_alone { self.new ≡ record self.old { phase = self.new.phase } }
        ensures checked { IsIf (is_taken (S.heap store.now (C.number above.stamp.node)) above.stamp.version) self.old.root (λ u. u ≡ after_miss self.old.kind above at common byte) (next_phase_of self.new.phase result) }
    {
        if store.check(above.stamp) {
            self.phase.after_miss(&self.kind, above, at, common, byte)
        } else {
            self.phase.again(self.root)
        }
    }

    /// Checks the node above, before a child is followed.
    fn check_down<S: Store<C, P>>(
        &mut self,
        store: &S,
        above: Stamp<C>,
        at: Above<C>,
        node: C,
    ) -> Move<P>
        requires { Stands (S.heap store.now (C.number above.node)) }
        ensures phase_alone { self.new ≡ record self.old { phase = self.new.phase } }
        ensures checked { IsIf (is_taken (S.heap store.now (C.number above.node)) above.version) self.old.root (λ u. u ≡ quiet (phase.Version (Some at) node)) (next_phase_of self.new.phase result) }
    {
        if store.check(above) {
            let above = Some(at);
            self.phase.quiet(Phase::Version { above, node })
        } else {
            self.phase.again(self.root)
        }
    }

    /// Checks the node above, at a value.
    fn check_old<S: Store<C, P>>(
        &mut self,
        store: &S,
        above: Stamp<C>,
        site: Site<C>,
        old: P,
    ) -> Move<P>
        requires { Stands (S.heap store.now (C.number above.node)) }
        ensures phase_alone { self.new ≡ record self.old { phase = self.new.phase } }
        ensures checked { IsIf (is_taken (S.heap store.now (C.number above.node)) above.version) self.old.root (IsAtOld P.always_copies P.same_as self.old.kind self.old.given site old) (next_phase_of self.new.phase result) }
    {
        if store.check(above) {
            self.phase.at_old(&self.kind, &self.given, site, old)
        } else {
            self.phase.again(self.root)
        }
    }

    /// Takes the closure's answer for the value that stands; without one it is asked again.
    fn take_answer(&mut self, site: Site<C>, old: P, answer: Option<Option<P>>) -> Move<P>
        ensures root { self.new.root ≡ self.old.root }
        ensures key { self.new.key ≡ self.old.key }
        ensures kind { self.new.kind ≡ self.old.kind }
        ensures given { IsGiven P.always_copies P.same_as self.old.kind site old answer self.old.given self.new.given (next_phase_of self.new.phase result) }
    {
        match (&self.kind, answer) {
            (_, None) => self.phase.asked(site, old),
            (Kind::ComputeInsert, Some(None)) => self.phase.asked(site, old),
            (Kind::ComputeInsert, Some(Some(value))) => {
                let same = old.same(&value);
                self.given = Some(value);
                self.phase
                    .replaced(site, same, Reply::ComputeInsert(Some(old)))
            }
            // the two computes alone ask, so from here on it is the one of a present key
            (_, Some(None)) => {
                self.given = None;
                self.phase
                    .emptied(site, Reply::ComputePresent(Some((old, None))))
            }
            (_, Some(Some(value))) => {
                let same = old.same(&value);
                let copied = value.copy();
                self.given = Some(value);
                match copied {
                    None => self.phase.refused(Refusal::Count),
                    Some(copied) => self.phase.replaced(
                        site,
                        same,
                        Reply::ComputePresent(Some((old, Some(copied)))),
                    ),
                }
            }
        }
    }

    /// Takes the closure's answer for an absent key; without a value it is asked again.
    fn take_new(&mut self, plan: Plan<C>, answer: Option<Option<P>>) -> Move<P>
        ensures root { self.new.root ≡ self.old.root }
        ensures key { self.new.key ≡ self.old.key }
        ensures kind { self.new.kind ≡ self.old.kind }
        ensures given { IsGivenNew plan answer self.old.given self.new.given (next_phase_of self.new.phase result) }
    {
        match answer {
            Some(Some(value)) => {
                self.given = Some(value);
                self.phase.started(plan, Reply::ComputeInsert(None))
            }
            // without a value it isn't answered, and asks again
            _ => self.phase.asking(Phase::AskNew { plan }, None),
        }
    }
}
