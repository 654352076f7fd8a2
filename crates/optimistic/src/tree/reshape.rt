//! Writes that change which nodes there are.
ghost use Rattle.std.specs.Prelude.{◌≡◌, IfErr, IfOk, IfSome, MatchOption, MatchResult};
ghost use Rattle.optimistic.specs.words.Calls.{Keeps};
ghost use Rattle.optimistic.specs.words.Kept.{calls_by, Since};
ghost use Rattle.optimistic.specs.words.Room.{IsUnmade};
ghost use Rattle.optimistic.specs.words.Told.{view, IsOf};
ghost use Rattle.optimistic.specs.tree.Fresh.{IsFreeOf};
ghost use Rattle.optimistic.specs.tree.Reads.{IsPlace};
ghost use Rattle.optimistic.specs.tree.Sets.{IsSet, Minds, HasNoMore};
ghost use Rattle.optimistic.specs.tree.Sizes.{IsFit};

use crate::tree::fresh::Free;
use crate::tree::get::Tree;
use crate::tree::place::Place;
use crate::tree::reach::End;
use crate::tree::set::Set;
use crate::tree::sizes::{Fit, after_insertion, after_removal};
use crate::tree::write::{Write, allows};
use crate::words::{Hand, Uncarved};

/// What a write wants at its key's last node.
#[derive(Clone, Copy, Drop)]
pub enum Want {
    /// A new node for two, where another key's leaf, or a node that doesn't cover the key, stands in its place.
    Branch,
    /// Room for one entry more.
    Room,
    /// No more room than it takes.
    Less,
}

/// Whether a node stays.
fn is_same(fit: Fit) -> bool {
    match fit {
        Fit::Stays => true,
        Fit::Becomes(_) => false,
        Fit::Lifts => false,
    }
}

impl Tree {
    /// Writes a key below a new node.
    fn branch_at(
        &self,
        hand: &mut Hand,
        free: &mut Free,
        end: End,
        write: Write,
    ) -> Result<Set, Uncarved>
        requires of { IsOf self.now.nodes.table.shared.table_id hand.old }
        requires place { IsPlace end.at (view hand.old) }
        requires own { calls_by (view hand.old).by (view hand.old).seen.log ≡ (view hand.old).made }
        requires names { IsFreeOf free.old (view hand.old) }
        ensures of { IsOf self.now.nodes.table.shared.table_id hand.new }
        ensures names { IsFreeOf free.new (view hand.new) }
        ensures set { MatchResult result (λ s. IsSet write.key write.value s (view hand.old) (view hand.new)) (λ _. Keeps (view hand.old) (view hand.new)) }
        ensures cause { IfErr result (λ e. IsUnmade self.now.nodes.table.shared.table_id.words e (view hand.new).seen) }
        ensures minds { IfOk result (Minds write) }
        ensures no_more { HasNoMore (view hand.old) (view hand.new) }
    {
        let allowed = allows(write, None);
        if !allowed {
            return Ok(Set::Again);
        }
        match write.value {
            Some(value) => self.try_split(hand, free, end.at, write.key, value),
            None => Ok(Set::Again),
        }
    }

    /// Takes a key away, and its last node with it.
    fn lift_at(
        &self,
        hand: &mut Hand,
        free: &mut Free,
        above: Place,
        at: Place,
        write: Write,
    ) -> Set
        requires of { IsOf self.now.nodes.table.shared.table_id hand.old }
        requires above { IsPlace above (view hand.old) }
        requires place { IsPlace at (view hand.old) }
        requires own { calls_by (view hand.old).by (view hand.old).seen.log ≡ (view hand.old).made }
        requires names { IsFreeOf free.old (view hand.old) }
        ensures of { IsOf self.now.nodes.table.shared.table_id hand.new }
        ensures names { IsFreeOf free.new (view hand.new) }
        ensures set { IsSet write.key write.value result (view hand.old) (view hand.new) }
        ensures minds { Minds write result }
        ensures no_more { HasNoMore (view hand.old) (view hand.new) }
    {
        match write.value {
            None => self.try_lift(hand, free, above, at, write),
            Some(_) => Set::Again,
        }
    }

    /// What is to become of a key's last node. It is a hint.
    fn fit(&self, hand: &mut Hand, at: Place, want: Want) -> Fit
        requires of { IsOf self.now.nodes.table.shared.table_id hand.old }
        requires place { IsPlace at (view hand.old) }
        requires own { calls_by (view hand.old).by (view hand.old).seen.log ≡ (view hand.old).made }
        ensures of { IsOf self.now.nodes.table.shared.table_id hand.new }
        ensures keeps { Keeps (view hand.old) (view hand.new) }
        ensures mine { (view hand.new).mine ≡ (view hand.old).mine }
        ensures since { Since (view hand.old).seen (view hand.new).seen }
        ensures fit { IsFit at.form result }
    {
        match want {
            Want::Branch => Fit::Stays,
            Want::Room => after_insertion(at.form),
            Want::Less => {
                let entries = self.entries(hand, at);
                after_removal(at.form, entries)
            }
        }
    }

    /// Makes a write as its key's last node is made anew in another form, or is taken out with the key.
    fn refit_at(
        &self,
        hand: &mut Hand,
        free: &mut Free,
        end: End,
        write: Write,
        want: Want,
    ) -> Result<Set, Uncarved>
        requires of { IsOf self.now.nodes.table.shared.table_id hand.old }
        requires place { IsPlace end.at (view hand.old) }
        requires above { IfSome end.above (λ p. IsPlace p (view hand.old)) }
        requires own { calls_by (view hand.old).by (view hand.old).seen.log ≡ (view hand.old).made }
        requires names { IsFreeOf free.old (view hand.old) }
        ensures of { IsOf self.now.nodes.table.shared.table_id hand.new }
        ensures names { IsFreeOf free.new (view hand.new) }
        ensures set { MatchResult result (λ s. IsSet write.key write.value s (view hand.old) (view hand.new)) (λ _. Keeps (view hand.old) (view hand.new)) }
        ensures cause { IfErr result (λ e. IsUnmade self.now.nodes.table.shared.table_id.words e (view hand.new).seen) }
        ensures minds { IfOk result (Minds write) }
        ensures no_more { HasNoMore (view hand.old) (view hand.new) }
    {
        let Some(above) = end.above else {
            return Ok(Set::Again);
        };
        match self.fit(hand, end.at, want) {
            Fit::Stays => Ok(Set::Again),
            Fit::Becomes(form) => self.try_replace(hand, free, above, end.at, form, write),
            Fit::Lifts => Ok(self.lift_at(hand, free, above, end.at, write)),
        }
    }

    /// Makes a write as it changes which nodes there are, if no writer comes between. Where no node was to be had, nothing
    /// changed.
    pub fn try_reshape(
        &self,
        hand: &mut Hand,
        free: &mut Free,
        write: Write,
        want: Want,
    ) -> Result<Set, Uncarved>
        requires of { IsOf self.now.nodes.table.shared.table_id hand.old }
        requires names { IsFreeOf free.old (view hand.old) }
        ensures of { IsOf self.now.nodes.table.shared.table_id hand.new }
        ensures names { IsFreeOf free.new (view hand.new) }
        ensures set { MatchResult result (λ s. IsSet write.key write.value s (view hand.old) (view hand.new)) (λ _. Keeps (view hand.old) (view hand.new)) }
        ensures cause { IfErr result (λ e. IsUnmade self.now.nodes.table.shared.table_id.words e (view hand.new).seen) }
        ensures minds { IfOk result (Minds write) }
        ensures no_more { HasNoMore (view hand.old) (view hand.new) }
    {
        let Some(end) = self.reach(hand, write.key) else {
            return Ok(Set::Again);
        };
        match want {
            Want::Branch => self.branch_at(hand, free, end, write),
            Want::Room => self.refit_at(hand, free, end, write, want),
            Want::Less => self.refit_at(hand, free, end, write, want),
        }
    }

    /// Whether a key's last node stays as its leaf is taken out. It is a hint.
    fn stays(&self, hand: &mut Hand, end: End) -> bool
        requires of { IsOf self.now.nodes.table.shared.table_id hand.old }
        requires place { IsPlace end.at (view hand.old) }
        requires own { calls_by (view hand.old).by (view hand.old).seen.log ≡ (view hand.old).made }
        ensures of { IsOf self.now.nodes.table.shared.table_id hand.new }
        ensures place { IsPlace end.at (view hand.new) }
        ensures keeps { Keeps (view hand.old) (view hand.new) }
        ensures mine { (view hand.new).mine ≡ (view hand.old).mine }
    {
        if end.above.is_none() {
            return true;
        }
        let entries = self.entries(hand, end.at);
        is_same(after_removal(end.at.form, entries))
    }

    /// Takes a key away, if no writer comes between, and its last node stays; else nothing.
    pub fn try_take(&self, hand: &mut Hand, write: Write) -> Option<Set>
        requires of { IsOf self.now.nodes.table.shared.table_id hand.old }
        ensures of { IsOf self.now.nodes.table.shared.table_id hand.new }
        ensures set { MatchOption result (Keeps (view hand.old) (view hand.new)) (λ s. IsSet write.key write.value s (view hand.old) (view hand.new)) }
        ensures minds { IfSome result (Minds write) }
        ensures no_more { HasNoMore (view hand.old) (view hand.new) }
    {
        let Some(end) = self.reach(hand, write.key) else {
            return Some(Set::Again);
        };
        let allowed = allows(write, end.value);
        if !allowed {
            return Some(Set::Differs(end.value));
        }
        let stays = self.stays(hand, end);
        if !stays {
            return None;
        }
        Some(self.set_at(hand, end.at, write))
    }
}
