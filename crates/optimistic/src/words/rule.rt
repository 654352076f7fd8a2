//! The rule that every step keeps, what a thread knows, and what each step tells it.
ghost use Rattle.std.specs.Prelude.{List};
ghost use Rattle.optimistic.specs.words.Told.{arrived, looked, locked, stored, unlocked, released, carved, noted, with_told, heeded};
ghost use Rattle.optimistic.specs.words.Kept.{nothing};

use atomic_table::{Join, Play, Seat, Split, TableRule};
use std::collections::LinkedList;
use std::marker::PhantomData;

/// A call that was decided: by whom, its key, and what the key has from then on.
#[derive(Clone, Copy, Drop)]
pub struct Entry {
    pub by: u64,
    pub key: u64,
    pub value: Option<u64>,
}

/// A node: its first word and its form. It is one for good.
pub struct Plot {
    pub node: u64,
    pub form: u64,
}

/// A node as it was settled: all words at that moment.
pub struct Block {
    pub node: u64,
    pub words: LinkedList<u64>,
}

/// A moment: every word, the nodes that were carved, the nodes as they were settled, the latest first, and the log.
pub struct Moment {
    pub words: LinkedList<u64>,
    pub plots: LinkedList<Plot>,
    pub calm: LinkedList<Block>,
    pub log: LinkedList<Entry>,
}

/// Whether a thread has a node. The latest that it says of a node counts.
pub struct Tenure {
    pub node: u64,
    pub held: bool,
}

/// What a thread knows: the moment of its last step, which nodes it has, its own calls, its number in the log, and a moment
/// that another hand told it of. No value of it is made. The number 0 is no thread's: such a hand makes no step, and knows
/// only what it was told.
pub struct View {
    pub seen: Moment,
    pub mine: LinkedList<Tenure>,
    pub made: LinkedList<Entry>,
    pub by: u64,
    pub told: Moment,
}

/// What a thread says at a step. As it lets a node go: which others that it has are settled in the same step, and the call
/// that this decides. As it carves a node: its form.
#[derive(Clone, Copy, Drop)]
pub struct Note {
    pub first: Option<u64>,
    pub second: Option<u64>,
    pub third: Option<u64>,
    pub entry: Option<Entry>,
    pub form: u64,
}

/// How many words there are.
#[derive(Clone, Copy, Drop)]
pub struct Extent {
    pub words: u64,
}

/// What the nodes mean, which the author of a structure states.
pub trait Shape {
    ghost use Rattle.optimistic.specs.declared.words.rule.Block.{Block};
    ghost use Rattle.optimistic.specs.declared.words.rule.Entry.{Entry};

    // Of the nodes as they were last settled, and of the log.
    ghost good: { List Block → List Entry → Type 0 };
}

/// Whoever steps on the words keeps this.
pub struct Versions<P> {
    shape: PhantomData<P>,
}

impl<P: Shape> TableRule<Note, View, Extent> for Versions<P> {
    ghost use Rattle.optimistic.specs.words.Kept.{Kept, newcomer};

    ghost holds = { λ k. Kept P.good k.words };

    ghost first = { λ k. newcomer k.words };
}

/// A thread's hand at the nodes. It has no bytes.
pub type Hand = Seat<Note, View>;

/// A new hand looks at a word.
pub struct Arrive<P> {
    shape: PhantomData<P>,
}

impl<P: Shape> Play<Note, View> for Arrive<P> {
    ghost then = { arrived P.good };
}

/// A word is looked at.
pub struct Look<P> {
    shape: PhantomData<P>,
}

impl<P: Shape> Play<Note, View> for Look<P> {
    ghost then = { looked P.good };
}

/// A node is taken where its version is the one expected.
pub struct Lock<P> {
    shape: PhantomData<P>,
}

impl<P: Shape> Play<Note, View> for Lock<P> {
    ghost then = { locked P.good };
}

/// A word of a node that the thread has is written.
pub struct Put<P> {
    shape: PhantomData<P>,
}

impl<P: Shape> Play<Note, View> for Put<P> {
    ghost then = { stored P.good };
}

/// A node is let go.
pub struct Unlock<P> {
    shape: PhantomData<P>,
}

impl<P: Shape> Play<Note, View> for Unlock<P> {
    ghost then = { unlocked P.good };
}

/// A node is let go as it was settled.
pub struct Release<P> {
    shape: PhantomData<P>,
}

impl<P: Shape> Play<Note, View> for Release<P> {
    ghost then = { released P.good };
}

/// A node is carved where the end is the one expected.
pub struct Carve<P> {
    shape: PhantomData<P>,
}

impl<P: Shape> Play<Note, View> for Carve<P> {
    ghost then = { carved P.good };
}

/// A hand gives another one the moment that it saw.
pub struct Noting;

impl Split<View> for Noting {
    ghost left = { λ v. v };

    ghost right = { λ v. noted v.seen };
}

/// A hand takes in what another one was told.
pub struct Heeding;

impl Join<View> for Heeding {
    ghost both = { with_told };

    ghost spent = { noted nothing };
}

/// A word is looked at, after what the hand was told.
pub struct Heed<P> {
    shape: PhantomData<P>,
}

impl<P: Shape> Play<Note, View> for Heed<P> {
    ghost then = { heeded P.good };
}
