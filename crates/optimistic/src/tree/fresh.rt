//! New nodes: those that a worker freed are taken again first, and then nodes are carved.
ghost use Rattle.std.specs.Prelude.{◌≡◌, ℕ, ◌+◌, ◌%◌, ◌^◌, ◌<◌, true, IfErr, IfOk, IfSome, MatchOption, MatchResult, length};
ghost use Rattle.optimistic.specs.declared.words.rule.View.{View};
ghost use Rattle.optimistic.specs.words.Kept.{Since};
ghost use Rattle.optimistic.specs.words.Room.{IsUncarved};
ghost use Rattle.optimistic.specs.words.Told.{view, IsOf, HasForm, Looks};
ghost use Rattle.optimistic.specs.tree.Fresh.{IsFreeOf, IsMade};
ghost use Rattle.optimistic.specs.tree.Trees.{IsTree};

use crate::tree::get::Tree;
use crate::words::{Hand, Uncarved};
use std::alloc::{AllocError, Global};

/// The names of nodes that a worker freed, a list for each form. A name tells nothing but the form: whoever takes the node
/// sees whether it is free.
#[derive(Drop)]
pub struct Free {
    pub(crate) lists: Vec<Vec<usize>>,
    /// How many words of nodes of one form are kept back in a trade.
    pub(crate) share: usize,
    /// Of which forms others have names, bit i for form i: of these no words are carved before the others were asked.
    others: u64,
    /// Of which form a node was wanted last where there was no name.
    wanted: u64,
}

/// A node that the hand has, which covers no key, and its version.
#[derive(Clone, Copy, Drop)]
pub struct Fresh {
    pub node: usize,
    pub version: u64,
}

impl Free {
    /// No names, of which a trade keeps back those of so many words of a form.
    pub fn new(alloc: Global, share: usize) -> Result<Free, AllocError>
        ensures { IfOk result (λ f. (v : View) → IsFreeOf f v) }
    {
        let mut lists = Vec::with_capacity(alloc, 9)?;
        for _ in 0..9usize {
            lists.push(Vec::new(alloc))?;
        }
        Ok(Free {
            lists,
            share,
            others: 0,
            wanted: 0,
        })
    }

    /// Takes in of which forms others have names, bit i for form i. Nothing is wanted yet.
    pub fn know(&mut self, others: u64)
        ensures { self.new.lists ≡ self.old.lists }
    {
        self.others = others;
        self.wanted = 0;
    }

    /// The forms that were wanted, bit i for form i. The others are asked, so that from now on words may be carved.
    pub fn wanted(&mut self) -> u64
        ensures { self.new.lists ≡ self.old.lists }
    {
        self.others = 0;
        self.wanted
    }

    /// Notes that a node of a form is wanted of which there is no name. Tells whether others have one.
    fn lack(&mut self, form: u64) -> bool
        requires { form < 9 }
        ensures { self.new.lists ≡ self.old.lists }
    {
        self.wanted = 1 << form;
        self.others & self.wanted != 0
    }

    /// Keeps the name of a node of this form. Where there is no memory for it, the node is lost.
    pub fn give(&mut self, node: usize, form: u64)
        requires forms { length self.old.lists.items ≡ 9 }
        requires form { (0 < form) × (form < 9) }
        ensures forms { length self.new.lists.items ≡ 9 }
        ensures names { (v : View) → HasForm node form v → IsFreeOf self.old v → IsFreeOf self.new v }
    {
        let _ = self.lists[form as usize].push(node);
    }

    /// The last name of a node of this form.
    pub(crate) fn pop(&mut self, form: u64) -> Option<usize>
        requires forms { length self.old.lists.items ≡ 9 }
        requires form { (0 < form) × (form < 9) }
        ensures forms { length self.new.lists.items ≡ 9 }
        ensures names { (v : View) → IsFreeOf self.old v → IsFreeOf self.new v }
        ensures name { (v : View) → IsFreeOf self.old v → IfSome result (λ n. HasForm n form v) }
    {
        self.lists[form as usize].pop()
    }
}

/// Whether a version is one at which its node can be locked.
#[inline(always)]
fn is_free(version: u64) -> bool
    ensures { result ≡ true → (version % 2 ≡ 0) × (version + 2 < 2 ^ 64) }
{
    version % 2 == 0 && version < u64::MAX - 1
}

impl Tree {
    /// Takes a node, if nobody has it and it says that it covers no key.
    fn take_free(&self, hand: &mut Hand, node: usize, form: u64) -> Option<Fresh>
        requires of { IsOf self.now.nodes.table.shared.table_id hand.old }
        requires form { (0 < form) × (form < 9) }
        requires at { HasForm node form (view hand.old) }
        ensures of { IsOf self.now.nodes.table.shared.table_id hand.new }
        ensures taken { MatchOption result (Looks IsTree (view hand.old) (view hand.new)) (λ r. IsMade r form (view hand.old) (view hand.new)) }
    {
        let version = self.nodes.load(hand, node, form, 0);
        let free = is_free(version);
        if !free {
            return None;
        }
        let covers = self.nodes.load(hand, node, form, 1);
        if covers != 0 {
            return None;
        }
        let locked = self.nodes.lock(hand, node, form, version);
        if !locked {
            return None;
        }
        Some(Fresh {
            node,
            version: version + 1,
        })
    }

    /// Takes a node of this form of the words at the end.
    fn carve_fresh(&self, hand: &mut Hand, form: u64) -> Result<Fresh, Uncarved>
        requires of { IsOf self.now.nodes.table.shared.table_id hand.old }
        requires form { (0 < form) × (form < 9) }
        ensures of { IsOf self.now.nodes.table.shared.table_id hand.new }
        ensures since { Since (view hand.old).seen (view hand.new).seen }
        ensures fresh { MatchResult result (λ r. IsMade r form (view hand.old) (view hand.new)) (λ _. Looks IsTree (view hand.old) (view hand.new)) }
        ensures cause { IfErr result (λ e. IsUncarved self.now.nodes.table.shared.table_id.words form e (view hand.new).seen) }
    {
        let node = self.nodes.carve(hand, form)?;
        match self.take_free(hand, node, form) {
            Some(fresh) => Ok(fresh),
            None => Err(Uncarved::Again),
        }
    }

    /// Takes this node, which was freed, if it is free, or else words at the end. Then the name is kept.
    fn fresh_or(
        &self,
        hand: &mut Hand,
        free: &mut Free,
        node: usize,
        form: u64,
    ) -> Result<Fresh, Uncarved>
        requires of { IsOf self.now.nodes.table.shared.table_id hand.old }
        requires form { (0 < form) × (form < 9) }
        requires at { HasForm node form (view hand.old) }
        requires names { IsFreeOf free.old (view hand.old) }
        ensures of { IsOf self.now.nodes.table.shared.table_id hand.new }
        ensures names { IsFreeOf free.new (view hand.new) }
        ensures fresh { MatchResult result (λ r. IsMade r form (view hand.old) (view hand.new)) (λ _. Looks IsTree (view hand.old) (view hand.new)) }
        ensures cause { IfErr result (λ e. IsUncarved self.now.nodes.table.shared.table_id.words form e (view hand.new).seen) }
    {
        match self.take_free(hand, node, form) {
            Some(fresh) => Ok(fresh),
            None => {
                free.give(node, form);
                self.carve_fresh(hand, form)
            }
        }
    }

    /// Takes a node of this form of the words at the end, unless others have a name of one.
    fn fresh_at_end(&self, hand: &mut Hand, free: &mut Free, form: u64) -> Result<Fresh, Uncarved>
        requires of { IsOf self.now.nodes.table.shared.table_id hand.old }
        requires form { (0 < form) × (form < 9) }
        requires names { IsFreeOf free.old (view hand.old) }
        ensures of { IsOf self.now.nodes.table.shared.table_id hand.new }
        ensures names { IsFreeOf free.new (view hand.new) }
        ensures fresh { MatchResult result (λ r. IsMade r form (view hand.old) (view hand.new)) (λ _. Looks IsTree (view hand.old) (view hand.new)) }
        ensures cause { IfErr result (λ e. IsUncarved self.now.nodes.table.shared.table_id.words form e (view hand.new).seen) }
    {
        if free.lack(form) {
            self.nodes.used(hand);
            return Err(Uncarved::Again);
        }
        self.carve_fresh(hand, form)
    }

    /// Takes a node of this form: the last one that was freed, if it is free, or else words at the end.
    pub fn fresh(&self, hand: &mut Hand, free: &mut Free, form: u64) -> Result<Fresh, Uncarved>
        requires of { IsOf self.now.nodes.table.shared.table_id hand.old }
        requires form { (0 < form) × (form < 9) }
        requires names { IsFreeOf free.old (view hand.old) }
        ensures of { IsOf self.now.nodes.table.shared.table_id hand.new }
        ensures names { IsFreeOf free.new (view hand.new) }
        ensures fresh { MatchResult result (λ r. IsMade r form (view hand.old) (view hand.new)) (λ _. Looks IsTree (view hand.old) (view hand.new)) }
        ensures cause { IfErr result (λ e. IsUncarved self.now.nodes.table.shared.table_id.words form e (view hand.new).seen) }
    {
        match free.pop(form) {
            Some(node) => self.fresh_or(hand, free, node, form),
            None => self.fresh_at_end(hand, free, form),
        }
    }
}
