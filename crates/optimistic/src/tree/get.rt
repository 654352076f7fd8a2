//! The look-up.
ghost use Rattle.std.specs.Prelude.{◌≡◌, ◌≢◌, ℕ, ◌<◌, ◌≤◌, ◌+◌, ◌%◌, ◌^◌, [], IfNone, IfSome, IfOk, true};
ghost use Rattle.optimistic.specs.Layout.{width};
ghost use Rattle.optimistic.specs.words.Calls.{Keeps, Later};
ghost use Rattle.optimistic.specs.words.Kept.{calls_by, value_of, Since};
ghost use Rattle.optimistic.specs.words.Told.{view, IsOf, HasForm};
ghost use Rattle.optimistic.specs.tree.Alone.{IsDisturbedFrom, IsSeen};
ghost use Rattle.optimistic.specs.tree.Reads.{IsPlace, IsLook};
ghost use Rattle.optimistic.specs.tree.Trees.{IsTree};

use crate::forms::names::{key_byte, where_word};
use crate::tree::names::{goes_on, pair_value, place_below};
use crate::tree::place::{Look, Place};
use crate::words::{Hand, Nodes, ROOT, Shape};
use std::alloc::{AllocError, Global};
use std::hint::spin_loop;
use std::sync::Wait;
use std::thread::yield_now;

/// What the nodes mean: each key has at its last node what the log says.
pub struct Levels;

impl Shape for Levels {
    ghost good = { IsTree };
}

/// A tree that threads share.
#[derive(Drop)]
pub struct Tree {
    pub(crate) nodes: Nodes<Levels>,
}

/// How often a call is tried before its thread lets others run: a write of another thread is long done by then, unless that thread waits
/// for a processor.
pub const ATTEMPTS: u32 = 64;

/// The root.
pub const TOP: Place = Place {
    node: ROOT,
    form: 4,
    level: 0,
};

impl Tree {
    /// An empty tree, of so many words.
    pub fn new(alloc: Global, words: usize) -> Result<Tree, AllocError>
        requires { (536 ≤ words) × (words < 2 ^ 48) }
        ensures { IfOk result (λ t. t.nodes.count ≡ words) }
    {
        let nodes = Nodes::new(alloc, words)?;
        Ok(Tree { nodes })
    }

    /// A hand for a thread, which has seen some beginning of the log, and has written nothing.
    pub fn hand(&self) -> Hand
        ensures of { IsOf self.now.nodes.table.shared.table_id result }
        ensures fresh { ((view result).made ≡ []) × ((view result).mine ≡ []) × (calls_by (view result).by (view result).seen.log ≡ []) }
    {
        self.nodes.hand()
    }

    /// Looks a key up at a node.
    #[inline(always)]
    pub fn look(&self, hand: &mut Hand, at: Place, key: u64) -> Look
        requires of { IsOf self.now.nodes.table.shared.table_id hand.old }
        requires at { IsPlace at (view hand.old) }
        ensures of { IsOf self.now.nodes.table.shared.table_id hand.new }
        ensures keeps { Keeps (view hand.old) (view hand.new) }
        ensures mine { (view hand.new).mine ≡ (view hand.old).mine }
        ensures since { Since (view hand.old).seen (view hand.new).seen }
        ensures place { IsPlace at (view hand.new) }
        ensures look { IsLook key result (view hand.new) }
        ensures seen { IsSeen key at result (view hand.old) (view hand.new) }
    {
        let version = self.nodes.load(hand, at.node, at.form, 0);
        let byte = key_byte(key, at.level);
        let child = self.child(hand, at, key, byte);
        let on = goes_on(child, key);
        if on {
            return Look::Down(place_below(child.first));
        }
        let found = self.read(hand, at.node, at.form, 1);
        let word = where_word(at.form, at.level, key);
        if found != word {
            return Look::Again;
        }
        if version % 2 == 1 {
            return Look::Again;
        }
        let last = self.nodes.load(hand, at.node, at.form, 0);
        if last != version {
            return Look::Again;
        }
        Look::Answer(pair_value(child, key))
    }

    /// Looks a key up, if no writer comes between. It had the answer at one moment within the call: after all that the hand has
    /// then seen of the log, which begins with all that it had seen before.
    pub fn try_get(&self, hand: &mut Hand, key: u64) -> Option<Option<u64>>
        requires of { IsOf self.now.nodes.table.shared.table_id hand.old }
        ensures of { IsOf self.now.nodes.table.shared.table_id hand.new }
        ensures later { Later (view hand.old) (view hand.new) }
        ensures mine { (view hand.new).mine ≡ (view hand.old).mine }
        ensures since { Since (view hand.old).seen (view hand.new).seen }
        ensures value { IfSome result (λ x. Keeps (view hand.old) (view hand.new) × (x ≡ value_of key (view hand.new).seen.log)) }
        ensures alone { IfNone result (IsDisturbedFrom (view hand.old) (view hand.new)) }
    {
        let mut next = self.look(hand, TOP, key);
        for _depth in 0..9u64 {
            match next {
                Look::Answer(value) => return Some(value),
                Look::Down(at) => next = self.look(hand, at, key),
                Look::Again => return None,
            }
        }
        None
    }

    /// The same, some times where a writer comes between.
    #[inline(always)]
    fn get_soon(&self, hand: &mut Hand, key: u64) -> Option<Option<u64>>
        requires of { IsOf self.now.nodes.table.shared.table_id hand.old }
        ensures of { IsOf self.now.nodes.table.shared.table_id hand.new }
        ensures later { Later (view hand.old) (view hand.new) }
        ensures mine { (view hand.new).mine ≡ (view hand.old).mine }
        ensures since { Since (view hand.old).seen (view hand.new).seen }
        ensures value { IfSome result (λ x. Keeps (view hand.old) (view hand.new) × (x ≡ value_of key (view hand.new).seen.log)) }
        ensures alone { IfNone result (IsDisturbedFrom (view hand.old) (view hand.new)) }
    {
        for _attempt in 0..ATTEMPTS {
            if let Some(value) = self.try_get(hand, key) {
                return Some(value);
            }
            spin_loop();
        }
        None
    }

    /// Looks a key up.
    pub fn get<R: Wait>(&self, rt: &R, hand: &mut Hand, key: u64) -> Option<u64>
        requires of { IsOf self.now.nodes.table.shared.table_id hand.old }
        ensures of { IsOf self.now.nodes.table.shared.table_id hand.new }
        ensures keeps { Keeps (view hand.old) (view hand.new) }
        ensures mine { (view hand.new).mine ≡ (view hand.old).mine }
        ensures since { Since (view hand.old).seen (view hand.new).seen }
        ensures value { result ≡ value_of key (view hand.new).seen.log }
    {
        for _ in rt.forever() {
            if let Some(value) = self.get_soon(hand, key) {
                return value;
            }
            yield_now();
        }
        unreachable!()
    }
}
