//! A node comes in another's place: it has another form, and the same children but for a key's.
ghost use Rattle.std.specs.Prelude.{◌≡◌, ◌≢◌, ◌<◌, IfErr, IfOk, MatchResult, length, true};
ghost use Rattle.optimistic.specs.Layout.{byte_at};
ghost use Rattle.optimistic.specs.words.Calls.{Keeps};
ghost use Rattle.optimistic.specs.words.Kept.{calm_at, Since};
ghost use Rattle.optimistic.specs.declared.words.rule.View.{View};
ghost use Rattle.optimistic.specs.words.Room.{IsUnmade};
ghost use Rattle.optimistic.specs.words.Told.{view, IsOf, HasForm, MayUnlock};
ghost use Rattle.optimistic.specs.Moves.{words_of, Stays};
ghost use Rattle.optimistic.specs.forms.Children.{is_inner, first_of, IsForm};
ghost use Rattle.optimistic.specs.forms.Copies.{Copies, given_first, own_second};
ghost use Rattle.optimistic.specs.tree.Exchanges.{IsHeld, IsLocked, IsReady, HasValue, LetsPairGo, LetsThreeGo, IsExchanged};
ghost use Rattle.optimistic.specs.tree.Fresh.{IsFreeOf};
ghost use Rattle.optimistic.specs.tree.Reads.{IsPlace};
ghost use Rattle.optimistic.specs.tree.Replace.{rebuilt_note};
ghost use Rattle.optimistic.specs.tree.Sets.{IsSet, Minds, HasNoMore};
ghost use Rattle.optimistic.specs.declared.tree.set.Set.TheVariants.{Done};
ghost use Rattle.optimistic.specs.tree.Trees.{IsTree};

use crate::fill::{fill_with, fill_without};
use crate::forms::names::{child_word, key_byte, leaf_word, where_word};
use crate::moves::Item;
use crate::tree::fresh::Free;
use crate::tree::get::Tree;
use crate::tree::locked::{Both, Locked};
use crate::tree::place::{Child, Place};
use crate::tree::set::Set;
use crate::tree::sizes::is_enough;
use crate::tree::write::{Write, allows};
use crate::words::{Entry, Hand, Note, Uncarved};

/// A node on the way to a key, the node above it, and a node that covers nothing, which is to come in its
/// place, with a write of the key.
#[derive(Clone, Copy, Drop)]
pub struct Exchange {
    pub above: Locked,
    pub old: Locked,
    pub new: Locked,
    pub write: Write,
}

/// What is said where a node is let go that covers nothing.
const NOTHING: Note = Note {
    first: None,
    second: None,
    third: None,
    entry: None,
    form: 0,
};

/// Keeps the name of the node that is free after a write: of the old one if it was made, else of the new one.
fn give_one(free: &mut Free, old: Place, new: Place, set: Set)
    requires forms { length free.old.lists.items ≡ 9 }
    requires old { (0 < old.form) × (old.form < 9) }
    requires new { (0 < new.form) × (new.form < 9) }
    ensures { (v : View) → HasForm old.node old.form v → HasForm new.node new.form v → IsFreeOf free.old v → IsFreeOf free.new v }
{
    match set {
        Set::Done(_) => free.give(old.node, old.form),
        _ => free.give(new.node, new.form),
    }
}

impl Tree {
    /// Lets three nodes go that are as they were settled.
    fn give_back(&self, hand: &mut Hand, nodes: Exchange)
        requires of { IsOf self.now.nodes.table.shared.table_id hand.old }
        requires ready { IsReady nodes (view hand.old) }
        ensures of { IsOf self.now.nodes.table.shared.table_id hand.new }
        ensures keeps { Keeps (view hand.old) (view hand.new) }
        ensures since { Since (view hand.old).seen (view hand.new).seen }
        ensures lets_go { LetsThreeGo nodes (view hand.old) (view hand.new) }
    {
        self.let_two_go(hand, nodes.above, nodes.old);
        self.let_go(hand, nodes.new);
    }

    /// Lets the nodes go, of which the new one has other words, but covers nothing.
    fn abandon(&self, hand: &mut Hand, nodes: Exchange)
        requires of { IsOf self.now.nodes.table.shared.table_id hand.old }
        requires above { IsLocked nodes.above (view hand.old) }
        requires old { IsLocked nodes.old (view hand.old) }
        requires new { IsHeld nodes.new (view hand.old) }
        requires apart { (nodes.above.at.node ≢ nodes.old.at.node) × (nodes.above.at.node ≢ nodes.new.at.node) × (nodes.old.at.node ≢ nodes.new.at.node) }
        requires blank { (words_of (view hand.old) nodes.new.at.node 1 ≡ 0) × (calm_at (view hand.old).seen.calm nodes.new.at.node 1 ≡ 0) }
        ensures of { IsOf self.now.nodes.table.shared.table_id hand.new }
        ensures keeps { Keeps (view hand.old) (view hand.new) }
        ensures since { Since (view hand.old).seen (view hand.new).seen }
        ensures lets_go { LetsThreeGo nodes (view hand.old) (view hand.new) }
    {
        self.let_two_go(hand, nodes.above, nodes.old);
        let new = nodes.new;
        self.nodes
            .unlock(hand, new.at.node, new.at.form, new.version, &NOTHING);
    }

    /// Gives the new node the old one's children, but of the key what is to be written. Whether it has room for them; where
    /// the key is to have none, whether it had a child.
    fn copy(&self, hand: &mut Hand, nodes: Exchange) -> bool
        requires of { IsOf self.now.nodes.table.shared.table_id hand.old }
        requires old { IsLocked nodes.old (view hand.old) }
        requires new { IsLocked nodes.new (view hand.old) }
        requires apart { nodes.old.at.node ≢ nodes.new.at.node }
        requires kind { is_inner nodes.new.at.form ≡ is_inner nodes.old.at.form }
        requires shape { IsForm nodes.old.at.form (words_of (view hand.old) nodes.old.at.node) }
        ensures of { IsOf self.now.nodes.table.shared.table_id hand.new }
        ensures stays { Stays nodes.new.at.node (view hand.old) (view hand.new) }
        ensures copies { result ≡ true → Copies nodes.old.at.form (words_of (view hand.old) nodes.old.at.node) nodes.new.at.form (words_of (view hand.new) nodes.new.at.node) (byte_at nodes.write.key nodes.old.at.level) (given_first nodes.new.at.form nodes.write.value nodes.write.key) (own_second nodes.write.value) }
    {
        let old = nodes.old.at;
        let new = nodes.new.at;
        let byte = key_byte(nodes.write.key, old.level);
        match nodes.write.value {
            Some(last) => {
                let first = leaf_word(nodes.write.key);
                let item = Item { byte, first, last };
                fill_with(
                    &self.nodes,
                    hand,
                    old.node,
                    old.form,
                    new.node,
                    new.form,
                    item,
                )
            }
            None => fill_without(
                &self.nodes,
                hand,
                old.node,
                old.form,
                new.node,
                new.form,
                byte,
            ),
        }
    }

    /// Hangs the new node in the old one's place.
    fn exchange(&self, hand: &mut Hand, nodes: Exchange)
        requires of { IsOf self.now.nodes.table.shared.table_id hand.old }
        requires above { IsHeld nodes.above (view hand.old) }
        requires old { IsHeld nodes.old (view hand.old) }
        requires new { IsHeld nodes.new (view hand.old) }
        requires apart { (nodes.above.at.node ≢ nodes.old.at.node) × (nodes.above.at.node ≢ nodes.new.at.node) × (nodes.old.at.node ≢ nodes.new.at.node) }
        requires shape { IsForm nodes.above.at.form (words_of (view hand.old) nodes.above.at.node) }
        requires inner { is_inner nodes.above.at.form ≡ true }
        requires there { first_of nodes.above.at.form (words_of (view hand.old) nodes.above.at.node) nodes.write.key (byte_at nodes.write.key nodes.above.at.level) ≢ 0 }
        ensures of { IsOf self.now.nodes.table.shared.table_id hand.new }
        ensures exchanged { IsExchanged nodes (view hand.old) (view hand.new) }
        ensures held { IsHeld nodes.above (view hand.new) × IsHeld nodes.old (view hand.new) × IsHeld nodes.new (view hand.new) }
    {
        let new = nodes.new.at;
        let second = where_word(new.form, new.level, nodes.write.key);
        self.nodes.store(hand, new.node, new.form, 1, second);
        let first = child_word(new.form, new.level, new.node as u64);
        self.hang(
            hand,
            nodes.above,
            nodes.old,
            nodes.write.key,
            Child { first, second },
        );
    }

    /// Lets the three nodes go as they are, which decides the key's write. Right before, the key had this value.
    fn settle(&self, hand: &mut Hand, nodes: Exchange, before: Option<u64>) -> Set
        requires of { IsOf self.now.nodes.table.shared.table_id hand.old }
        requires above { IsHeld nodes.above (view hand.old) }
        requires old { IsHeld nodes.old (view hand.old) }
        requires new { IsHeld nodes.new (view hand.old) }
        requires apart { (nodes.above.at.node ≢ nodes.old.at.node) × (nodes.above.at.node ≢ nodes.new.at.node) × (nodes.old.at.node ≢ nodes.new.at.node) }
        requires may { MayUnlock IsTree nodes.above.at.node (rebuilt_note nodes.old.at.node nodes.new.at.node nodes.write.key nodes.write.value) (view hand.old) }
        requires before { HasValue nodes.write.key before (view hand.old) }
        ensures of { IsOf self.now.nodes.table.shared.table_id hand.new }
        ensures set { IsSet nodes.write.key nodes.write.value result (view hand.old) (view hand.new) }
        ensures since { Since (view hand.old).seen (view hand.new).seen }
        ensures done { result ≡ Done before }
        ensures lets_go { LetsThreeGo nodes (view hand.old) (view hand.new) }
    {
        let above = nodes.above;
        let entry = Entry {
            by: 0,
            key: nodes.write.key,
            value: nodes.write.value,
        };
        let note = Note {
            first: Some(nodes.old.at.node as u64),
            second: Some(nodes.new.at.node as u64),
            third: None,
            entry: Some(entry),
            form: 0,
        };
        self.nodes
            .unlock(hand, above.at.node, above.at.form, above.version, &note);
        self.let_go(hand, nodes.old);
        self.let_go(hand, nodes.new);
        Set::Done(before)
    }

    /// Puts the new node in the old one's place, with the key's write made in it, if the key is to be written, the old one is its
    /// last node, and the new one has room. The key had what is answered right before. All three nodes are let go.
    fn replace_with(&self, hand: &mut Hand, nodes: Exchange) -> Set
        requires of { IsOf self.now.nodes.table.shared.table_id hand.old }
        requires ready { IsReady nodes (view hand.old) }
        ensures of { IsOf self.now.nodes.table.shared.table_id hand.new }
        ensures since { Since (view hand.old).seen (view hand.new).seen }
        ensures set { IsSet nodes.write.key nodes.write.value result (view hand.old) (view hand.new) }
        ensures minds { Minds nodes.write result }
        ensures lets_go { LetsThreeGo nodes (view hand.old) (view hand.new) }
    {
        let hangs = self.is_child(hand, nodes.above, nodes.old, nodes.write.key);
        if !hangs {
            self.give_back(hand, nodes);
            return Set::Again;
        }
        let Some(before) = self.own_leaf(hand, nodes.old, nodes.write.key) else {
            self.give_back(hand, nodes);
            return Set::Again;
        };
        let allowed = allows(nodes.write, before);
        if !allowed {
            self.give_back(hand, nodes);
            return Set::Again;
        }
        let copied = self.copy(hand, nodes);
        if !copied {
            self.abandon(hand, nodes);
            return Set::Again;
        }
        self.exchange(hand, nodes);
        self.settle(hand, nodes, before)
    }

    /// The same, unless that leaves the new node with fewer than two entries.
    fn replace_counted(&self, hand: &mut Hand, nodes: Exchange) -> Set
        requires of { IsOf self.now.nodes.table.shared.table_id hand.old }
        requires ready { IsReady nodes (view hand.old) }
        ensures of { IsOf self.now.nodes.table.shared.table_id hand.new }
        ensures since { Since (view hand.old).seen (view hand.new).seen }
        ensures set { IsSet nodes.write.key nodes.write.value result (view hand.old) (view hand.new) }
        ensures minds { Minds nodes.write result }
        ensures lets_go { LetsThreeGo nodes (view hand.old) (view hand.new) }
    {
        if nodes.write.value.is_some() {
            return self.replace_with(hand, nodes);
        }
        let entries = self.entries(hand, nodes.old.at);
        let enough = is_enough(entries);
        if !enough {
            self.give_back(hand, nodes);
            return Set::Again;
        }
        self.replace_with(hand, nodes)
    }

    /// The same, and the name of the node is kept that is free then: of the old one, or of the new one.
    fn replace_by(&self, hand: &mut Hand, free: &mut Free, nodes: Exchange) -> Set
        requires of { IsOf self.now.nodes.table.shared.table_id hand.old }
        requires ready { IsReady nodes (view hand.old) }
        requires names { IsFreeOf free.old (view hand.old) }
        ensures of { IsOf self.now.nodes.table.shared.table_id hand.new }
        ensures names { IsFreeOf free.new (view hand.new) }
        ensures since { Since (view hand.old).seen (view hand.new).seen }
        ensures set { IsSet nodes.write.key nodes.write.value result (view hand.old) (view hand.new) }
        ensures minds { Minds nodes.write result }
        ensures lets_go { LetsThreeGo nodes (view hand.old) (view hand.new) }
    {
        let set = self.replace_counted(hand, nodes);
        give_one(free, nodes.old.at, nodes.new.at, set);
        set
    }

    /// The same with a node of this form that is taken for it. Where none is left, nothing changed.
    fn replace_fresh(
        &self,
        hand: &mut Hand,
        free: &mut Free,
        above: Locked,
        old: Locked,
        form: u64,
        write: Write,
    ) -> Result<Set, Uncarved>
        requires of { IsOf self.now.nodes.table.shared.table_id hand.old }
        requires above { IsLocked above (view hand.old) }
        requires old { IsLocked old (view hand.old) }
        requires apart { above.at.node ≢ old.at.node }
        requires form { (0 < form) × (form < 9) × (is_inner form ≡ is_inner old.at.form) }
        requires names { IsFreeOf free.old (view hand.old) }
        ensures of { IsOf self.now.nodes.table.shared.table_id hand.new }
        ensures names { IsFreeOf free.new (view hand.new) }
        ensures since { Since (view hand.old).seen (view hand.new).seen }
        ensures set { MatchResult result (λ s. IsSet write.key write.value s (view hand.old) (view hand.new)) (λ _. Keeps (view hand.old) (view hand.new)) }
        ensures cause { IfErr result (λ e. IsUnmade self.now.nodes.table.shared.table_id.words e (view hand.new).seen) }
        ensures minds { IfOk result (Minds write) }
        ensures lets_go { LetsPairGo above.at.node old.at.node (view hand.old) (view hand.new) }
    {
        match self.fresh(hand, free, form) {
            Ok(made) => {
                let at = Place {
                    node: made.node,
                    form,
                    level: old.at.level,
                };
                let new = Locked {
                    at,
                    version: made.version,
                };
                let nodes = Exchange {
                    above,
                    old,
                    new,
                    write,
                };
                Ok(self.replace_by(hand, free, nodes))
            }
            Err(error) => {
                self.let_two_go(hand, above, old);
                Err(error)
            }
        }
    }

    /// Makes a key's last node anew in this form, with the key's write made in it, if the key is to be written and the form has
    /// room: of more places where the node is full, or of fewer as a key is taken away. Where no node was to be had, nothing
    /// changed.
    pub fn try_replace(
        &self,
        hand: &mut Hand,
        free: &mut Free,
        above: Place,
        old: Place,
        form: u64,
        write: Write,
    ) -> Result<Set, Uncarved>
        requires of { IsOf self.now.nodes.table.shared.table_id hand.old }
        requires above { IsPlace above (view hand.old) }
        requires old { IsPlace old (view hand.old) }
        requires form { (0 < form) × (form < 9) × (is_inner form ≡ is_inner old.form) }
        requires names { IsFreeOf free.old (view hand.old) }
        ensures of { IsOf self.now.nodes.table.shared.table_id hand.new }
        ensures names { IsFreeOf free.new (view hand.new) }
        ensures since { Since (view hand.old).seen (view hand.new).seen }
        ensures set { MatchResult result (λ s. IsSet write.key write.value s (view hand.old) (view hand.new)) (λ _. Keeps (view hand.old) (view hand.new)) }
        ensures cause { IfErr result (λ e. IsUnmade self.now.nodes.table.shared.table_id.words e (view hand.new).seen) }
        ensures minds { IfOk result (Minds write) }
        ensures no_more { HasNoMore (view hand.old) (view hand.new) }
    {
        match self.lock_both(hand, above, old) {
            Both::Had(upper, lower) => self.replace_fresh(hand, free, upper, lower, form, write),
            Both::Busy => Ok(Set::Again),
            Both::Exhausted => Ok(Set::Exhausted),
        }
    }
}
