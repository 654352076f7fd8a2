//! A node's only child goes up in its place, where the key's leaf beside it is taken away.
ghost use Rattle.std.specs.Prelude.{◌≡◌, ◌≢◌, ◌<◌, IfSome, None, length, true};
ghost use Rattle.optimistic.specs.declared.words.rule.View.{View};
ghost use Rattle.optimistic.specs.words.Kept.{Since};
ghost use Rattle.optimistic.specs.words.Told.{view, IsOf, HasForm, Tells, Looks, MayUnlock};
ghost use Rattle.optimistic.specs.Moves.{words_of};
ghost use Rattle.optimistic.specs.forms.Children.{is_inner};
ghost use Rattle.optimistic.specs.forms.Copies.{IsNext, IsOnly};
ghost use Rattle.optimistic.specs.tree.Exchanges.{IsHeld, IsLocked, HasValue, LetsTwoGo, GoesTo, IsBelow};
ghost use Rattle.optimistic.specs.tree.Raises.{lifted_note, IsRisen, Rises};
ghost use Rattle.optimistic.specs.tree.Fresh.{IsFreeOf};
ghost use Rattle.optimistic.specs.tree.Reads.{IsPlace};
ghost use Rattle.optimistic.specs.tree.Sets.{IsSet, Minds, HasNoMore};
ghost use Rattle.optimistic.specs.declared.tree.set.Set.TheVariants.{Done};
ghost use Rattle.optimistic.specs.tree.Trees.{IsTree};

use crate::forms::names::{child_tag, key_byte, leaf_word, where_word};
use crate::moves::{Item, load_item, room_of};
use crate::tree::fresh::Free;
use crate::tree::get::Tree;
use crate::tree::locked::{Both, Locked};
use crate::tree::place::{Child, Place};
use crate::tree::set::Set;
use crate::tree::write::{Write, allows};
use crate::words::{Entry, Hand, Note};

/// The first byte of a key counts so much.
const TOP: u64 = 72057594037927936;

/// Whether a key goes to a byte of the node that covers another one.
fn goes_to(at: Place, key: u64, byte: u8, other: u64) -> bool
    requires form { at.form < 9 }
    requires level { at.level < 8 }
    ensures { result ≡ true → GoesTo at key byte other }
{
    let word = where_word(at.form, at.level, key);
    let there = where_word(at.form, at.level, other);
    if there != word {
        return false;
    }
    key_byte(other, at.level) == byte
}

/// Whether a child of a node has only keys that go to a byte there.
fn is_below(at: Place, key: u64, byte: u8, child: Child) -> bool
    requires form { at.form < 9 }
    requires level { at.level < 8 }
    ensures { result ≡ true → IsBelow at key byte child.first child.second }
{
    let tag = child_tag(child.first);
    if tag == 9 {
        return goes_to(at, key, byte, key / TOP * TOP + child.first / 256);
    }
    if tag == 0 {
        return false;
    }
    if tag > 8 {
        return false;
    }
    if child.second % 8 <= at.level {
        return false;
    }
    goes_to(at, key, byte, child.second)
}

/// The two words of an entry as a child of the node above; of a node of values, the lone leaf.
fn risen(at: Place, key: u64, item: Item) -> Child
    ensures { IsRisen at item result.first result.second }
{
    if at.form < 5 {
        Child {
            first: item.first,
            second: item.last,
        }
    } else {
        let leaf = leaf_word(key / 256 * 256 + u64::from(item.byte));
        Child {
            first: leaf,
            second: item.last,
        }
    }
}

/// The only entry so far but for those of a byte, or none, where there is one more; `None` if there are two.
fn with_another(found: Option<Item>, item: Option<Item>, byte: u8) -> Option<Option<Item>>
    ensures { IfSome result (λ r. IsNext found item byte r) }
{
    let Some(another) = item else {
        return Some(found);
    };
    if another.byte == byte {
        return Some(found);
    }
    match found {
        None => Some(item),
        Some(_) => None,
    }
}

/// Keeps the name of the node that is free after a removal, if it was made.
fn give_old(free: &mut Free, old: Place, set: Set)
    requires forms { length free.old.lists.items ≡ 9 }
    requires old { (0 < old.form) × (old.form < 9) }
    ensures { (v : View) → HasForm old.node old.form v → IsFreeOf free.old v → IsFreeOf free.new v }
{
    if let Set::Done(_) = set {
        free.give(old.node, old.form);
    }
}

impl Tree {
    /// The only entry of a node beside that of a byte, if there is just one.
    fn only_other(&self, hand: &mut Hand, at: Locked, byte: u8) -> Option<Item>
        requires of { IsOf self.now.nodes.table.shared.table_id hand.old }
        requires at { IsHeld at (view hand.old) }
        ensures of { IsOf self.now.nodes.table.shared.table_id hand.new }
        ensures looks { Looks IsTree (view hand.old) (view hand.new) }
        ensures only { IfSome result (λ e. IsOnly at.at.form (words_of (view hand.old) at.at.node) byte e) }
        ensures tells { IfSome result (λ e. is_inner at.at.form ≡ true → Tells e.first (view hand.new)) }
    {
        let node = at.at.node;
        let form = at.at.form;
        let mut found = None;
        for place in 0..room_of(form) {
            let item = load_item(&self.nodes, hand, node, form, place);
            match with_another(found, item, byte) {
                Some(next) => found = next,
                None => return None,
            }
        }
        found
    }

    /// Lets two nodes go as they are, which decides the key's removal. Right before, the key had this value.
    fn settle_lift(
        &self,
        hand: &mut Hand,
        above: Locked,
        old: Locked,
        key: u64,
        before: Option<u64>,
    ) -> Set
        requires of { IsOf self.now.nodes.table.shared.table_id hand.old }
        requires above { IsHeld above (view hand.old) }
        requires old { IsHeld old (view hand.old) }
        requires apart { above.at.node ≢ old.at.node }
        requires may { MayUnlock IsTree above.at.node (lifted_note old.at.node key) (view hand.old) }
        requires before { HasValue key before (view hand.old) }
        ensures of { IsOf self.now.nodes.table.shared.table_id hand.new }
        ensures set { IsSet key None result (view hand.old) (view hand.new) }
        ensures since { Since (view hand.old).seen (view hand.new).seen }
        ensures done { result ≡ Done before }
        ensures lets_go { LetsTwoGo above.at.node old.at.node (view hand.old) (view hand.new) }
    {
        let entry = Entry {
            by: 0,
            key,
            value: None,
        };
        let note = Note {
            first: Some(old.at.node as u64),
            second: None,
            third: None,
            entry: Some(entry),
            form: 0,
        };
        self.nodes
            .unlock(hand, above.at.node, above.at.form, above.version, &note);
        self.let_go(hand, old);
        Set::Done(before)
    }

    /// The child that is to go up: the only one beside the key's, if all its keys go to its byte.
    fn rising(&self, hand: &mut Hand, old: Locked, key: u64) -> Option<Child>
        requires of { IsOf self.now.nodes.table.shared.table_id hand.old }
        requires old { IsLocked old (view hand.old) }
        ensures of { IsOf self.now.nodes.table.shared.table_id hand.new }
        ensures looks { Looks IsTree (view hand.old) (view hand.new) }
        ensures rises { IfSome result (λ r. Rises old.at key r.first r.second (view hand.old)) }
        ensures tells { IfSome result (λ r. Tells r.first (view hand.new)) }
    {
        let byte = key_byte(key, old.at.level);
        let Some(item) = self.only_other(hand, old, byte) else {
            return None;
        };
        let child = risen(old.at, key, item);
        let below = is_below(old.at, key, item.byte, child);
        if !below {
            return None;
        }
        Some(child)
    }

    /// Takes a key's leaf away and hangs the only other child of its last node in that node's place, if the key is to be written
    /// and there is just one. The key had what is answered right before. Both nodes are let go.
    fn lift_with(&self, hand: &mut Hand, above: Locked, old: Locked, write: Write) -> Set
        requires of { IsOf self.now.nodes.table.shared.table_id hand.old }
        requires above { IsLocked above (view hand.old) }
        requires old { IsLocked old (view hand.old) }
        requires apart { above.at.node ≢ old.at.node }
        ensures of { IsOf self.now.nodes.table.shared.table_id hand.new }
        ensures since { Since (view hand.old).seen (view hand.new).seen }
        ensures set { IsSet write.key None result (view hand.old) (view hand.new) }
        ensures minds { Minds write result }
        ensures lets_go { LetsTwoGo above.at.node old.at.node (view hand.old) (view hand.new) }
    {
        let hangs = self.is_child(hand, above, old, write.key);
        if !hangs {
            self.let_two_go(hand, above, old);
            return Set::Again;
        }
        let Some(before) = self.own_leaf(hand, old, write.key) else {
            self.let_two_go(hand, above, old);
            return Set::Again;
        };
        let allowed = allows(write, before);
        if !allowed {
            self.let_two_go(hand, above, old);
            return Set::Again;
        }
        let Some(child) = self.rising(hand, old, write.key) else {
            self.let_two_go(hand, above, old);
            return Set::Again;
        };
        self.hang(hand, above, old, write.key, child);
        self.settle_lift(hand, above, old, write.key, before)
    }

    /// Takes a key away and hangs the only other child of its last node in that node's place, if there is just one.
    pub fn try_lift(
        &self,
        hand: &mut Hand,
        free: &mut Free,
        above: Place,
        old: Place,
        write: Write,
    ) -> Set
        requires of { IsOf self.now.nodes.table.shared.table_id hand.old }
        requires above { IsPlace above (view hand.old) }
        requires old { IsPlace old (view hand.old) }
        requires names { IsFreeOf free.old (view hand.old) }
        ensures of { IsOf self.now.nodes.table.shared.table_id hand.new }
        ensures names { IsFreeOf free.new (view hand.new) }
        ensures since { Since (view hand.old).seen (view hand.new).seen }
        ensures set { IsSet write.key None result (view hand.old) (view hand.new) }
        ensures minds { Minds write result }
        ensures no_more { HasNoMore (view hand.old) (view hand.new) }
    {
        match self.lock_both(hand, above, old) {
            Both::Had(upper, lower) => {
                let set = self.lift_with(hand, upper, lower, write);
                give_old(free, old, set);
                set
            }
            Both::Busy => Set::Again,
            Both::Exhausted => Set::Exhausted,
        }
    }
}
