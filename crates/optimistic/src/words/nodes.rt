//! The nodes, and the steps on them.
ghost use Rattle.std.specs.Prelude.{ℕ, ◌≡◌, ◌+◌, ◌*◌, ◌%◌, ◌^◌, ◌<◌, ◌≤◌, true, false, [], List, IfErr, IfOk, IfSome, MatchBool};
ghost use Rattle.optimistic.specs.Layout.{width, is_link};
ghost use Rattle.optimistic.specs.words.Kept.{word_at, version_at, has, first_calm, Follows};
ghost use Rattle.optimistic.specs.words.Last.{words_in, IsLast};
ghost use Rattle.optimistic.specs.words.Room.{used, IsUncarved};
ghost use Rattle.optimistic.specs.declared.words.rule.Moment.{Moment};
ghost use Rattle.optimistic.specs.words.Told.{view, IsOf, IsNote, IsFresh, HasForm, Tells, Looks, Locks, Stores, Unlocks, Releases, MayUnlock, HasAlso, IsDrafted};

use crate::words::last::Words;
use crate::words::rule::{
    Arrive, Carve, Extent, Hand, Heed, Heeding, Lock, Look, Note, Noting, Put, Release, Shape,
    Unlock, Versions, View,
};
use atomic_table::Table;
use std::alloc::{AllocError, Global};

/// The least number of words: the root ends there.
pub const FIRST_END: usize = 536;

/// The root's first word.
pub const ROOT: usize = 16;

/// The word that has the end.
const END: usize = 0;

/// Which keys the root covers, in its second word.
const ROOT_WHERE: u64 = 32;

/// Nodes that threads share.
#[derive(Drop)]
pub struct Nodes<P: Shape> {
    table: Table<Note, View, Extent, Versions<P>, Global>,
    count: usize,
    ghost sized: { table.shared.table_id.words ≡ count },
    ghost bare: { table.shared.table_id.slots ≡ 0 },
    ghost count_is: { table.shared.key.words ≡ count },
    ghost bounded: { (536 ≤ count) × (count < 2 ^ 48) },
}

/// How many words a node of a form has.
#[tactic(auto, unfolding(crate::specs::Layout::width))]
pub fn width_of(form: u64) -> usize
    requires { (0 < form) × (form < 9) }
    ensures { (result ≡ width form) × (0 < result) × (result < 1024) }
{
    match form {
        1 => 12,
        2 => 40,
        3 => 112,
        4 => 520,
        5 => 8,
        6 => 24,
        7 => 64,
        _ => 264,
    }
}

/// Why no node was carved.
#[derive(Clone, Copy, Drop)]
pub enum Uncarved {
    /// Another thread was faster.
    Again,
    /// There are not as many words left.
    Full,
}

impl<P: Shape> Nodes<P> {
    /// So many words, with the root alone, which has no child.
    pub fn new(alloc: Global, count: usize) -> Result<Nodes<P>, AllocError>
        requires count { (536 ≤ count) × (count < 2 ^ 48) }
        requires empty { P.good (first_calm count) [] }
        ensures { IfOk result (λ n. n.count ≡ count) }
    {
        let mut words = Vec::from_elem(alloc, 0, count)?;
        words[END] = FIRST_END as u64;
        words[ROOT + 1] = ROOT_WHERE;
        let extent = Extent {
            words: count as u64,
        };
        let (table, _hand) = Table::of_words(alloc, words.as_slice(), &extent)?;
        Ok(Nodes { table, count })
    }

    /// How many words there are.
    pub fn count(&self) -> usize
        ensures { result ≡ self.now.table.shared.table_id.words }
    {
        self.count
    }

    /// A hand that has no node.
    pub fn hand(&self) -> Hand
        ensures of { IsOf self.now.table.shared.table_id result }
        ensures fresh { IsFresh P.good (view result) }
    {
        self.table.shared.load_new_seat::<Arrive<P>>(END).1
    }

    /// Closes the nodes, with what a hand knows of them. They are what they were at one last moment.
    pub fn close(self, hand: Hand) -> Words
        requires { IsOf self.table.shared.table_id hand }
        ensures { (m : Moment) × (m.words ≡ words_in result) × IsLast P.good (view hand) m }
    {
        let Nodes { table, count: _ } = self;
        Words::of(table.close_with(hand))
    }

    /// Reads a word of a node of this form; word 0 is its version.
    #[inline(always)]
    pub fn load(&self, hand: &mut Hand, node: usize, form: u64, word: usize) -> u64
        requires of { IsOf self.now.table.shared.table_id hand.old }
        requires at { HasForm node form (view hand.old) }
        requires inside { word < width form }
        ensures of { IsOf self.now.table.shared.table_id hand.new }
        ensures at { HasForm node form (view hand.new) }
        ensures looks { Looks P.good (view hand.old) (view hand.new) }
        ensures found { result ≡ word_at (view hand.new).seen.words node word }
        ensures tells { is_link form word ≡ true → Tells result (view hand.new) }
    {
        self.table.shared.load::<Look<P>>(hand, node + word)
    }

    /// How many words are in use: behind them no node was carved yet.
    pub fn used(&self, hand: &mut Hand) -> u64
        requires of { IsOf self.now.table.shared.table_id hand.old }
        ensures of { IsOf self.now.table.shared.table_id hand.new }
        ensures looks { Looks P.good (view hand.old) (view hand.new) }
        ensures used { result ≡ used (view hand.new).seen }
    {
        self.table.shared.load::<Look<P>>(hand, END)
    }

    /// Takes a node where its version is this one, and tells whether it did.
    pub fn lock(&self, hand: &mut Hand, node: usize, form: u64, version: u64) -> bool
        requires of { IsOf self.now.table.shared.table_id hand.old }
        requires at { HasForm node form (view hand.old) }
        requires some { 0 < width form }
        requires free { (version % 2 ≡ 0) × (version + 1 < 2 ^ 64) }
        ensures of { IsOf self.now.table.shared.table_id hand.new }
        ensures at { HasForm node form (view hand.new) }
        ensures locked { MatchBool result (Locks P.good node version (view hand.old) (view hand.new)) (Looks P.good (view hand.old) (view hand.new)) }
    {
        let found = self
            .table
            .shared
            .compare_exchange::<Lock<P>>(hand, node, version, version + 1);
        found == version
    }

    /// Writes a word of a node that the hand has.
    pub fn store(&self, hand: &mut Hand, node: usize, form: u64, word: usize, value: u64)
        requires of { IsOf self.now.table.shared.table_id hand.old }
        requires at { HasForm node form (view hand.old) }
        requires inside { (0 < word) × (word < width form) }
        requires mine { has (view hand.old).mine node ≡ true }
        requires tells { is_link form word ≡ true → Tells value (view hand.old) }
        ensures of { IsOf self.now.table.shared.table_id hand.new }
        ensures at { HasForm node form (view hand.new) }
        ensures stored { Stores P.good (node + word) value (view hand.old) (view hand.new) }
    {
        self.table.shared.store::<Put<P>>(hand, node + word, value);
    }

    /// Lets a node go, whose version, as the hand has it, is this one.
    pub fn unlock(&self, hand: &mut Hand, node: usize, form: u64, version: u64, note: &Note)
        requires of { IsOf self.now.table.shared.table_id hand.old }
        requires at { HasForm node form (view hand.old) }
        requires some { 0 < width form }
        requires mine { has (view hand.old).mine node ≡ true }
        requires version { (version_at (view hand.old).seen.words node ≡ version) × (version + 1 < 2 ^ 64) }
        requires also { HasAlso (view hand.old).mine note.now.first × HasAlso (view hand.old).mine note.now.second × HasAlso (view hand.old).mine note.now.third }
        requires may { MayUnlock P.good node note.now (view hand.old) }
        ensures of { IsOf self.now.table.shared.table_id hand.new }
        ensures at { HasForm node form (view hand.new) }
        ensures unlocked { Unlocks P.good node note.now (view hand.old) (view hand.new) }
    {
        self.table
            .shared
            .compare_exchange_with::<Unlock<P>>(hand, node, version, version + 1, note);
    }

    /// Lets a node go that is as it was settled.
    pub fn release(&self, hand: &mut Hand, node: usize, form: u64, version: u64)
        requires of { IsOf self.now.table.shared.table_id hand.old }
        requires at { HasForm node form (view hand.old) }
        requires some { 0 < width form }
        requires drafted { IsDrafted node version (view hand.old) }
        requires version { version + 1 < 2 ^ 64 }
        ensures of { IsOf self.now.table.shared.table_id hand.new }
        ensures released { Releases P.good node (view hand.old) (view hand.new) }
    {
        self.table
            .shared
            .compare_exchange::<Release<P>>(hand, node, version, version + 1);
    }

    /// The moment that a hand saw, for another hand or for later.
    pub fn note(&self, hand: &mut Hand) -> Hand
        requires of { IsOf self.now.table.shared.table_id hand.old }
        ensures of { IsOf self.now.table.shared.table_id hand.new }
        ensures same { view hand.new ≡ view hand.old }
        ensures note { IsNote self.now.table.shared.table_id (view hand.old).seen result }
    {
        self.table.shared.split_seat::<Noting>(hand)
    }

    /// Takes in the moment that a hand had seen, and looks at a word.
    pub fn heed(&self, hand: &mut Hand, note: Hand)
        requires of { IsOf self.now.table.shared.table_id hand.old }
        requires note { IsNote self.now.table.shared.table_id (view note).told note }
        ensures of { IsOf self.now.table.shared.table_id hand.new }
        ensures looks { Looks P.good (view hand.old) (view hand.new) }
        ensures heeds { Follows (view note).told (view hand.new).seen }
    {
        self.table.shared.join_seat::<Heeding>(hand, note);
        self.table.shared.load::<Heed<P>>(hand, END);
    }

    /// Makes a node of this form of the words at the end, if there are as many.
    pub fn carve(&self, hand: &mut Hand, form: u64) -> Result<usize, Uncarved>
        requires of { IsOf self.now.table.shared.table_id hand.old }
        requires form { (0 < form) × (form < 9) }
        ensures of { IsOf self.now.table.shared.table_id hand.new }
        ensures looks { Looks P.good (view hand.old) (view hand.new) }
        ensures node { IfOk result (λ n. HasForm n form (view hand.new)) }
        ensures cause { IfErr result (λ e. IsUncarved self.now.table.shared.table_id.words form e (view hand.new).seen) }
    {
        let end = self.table.shared.load::<Look<P>>(hand, END);
        let room = self.count as u64;
        let width = width_of(form) as u64;
        if room < width {
            return Err(Uncarved::Full);
        }
        if end > room - width {
            return Err(Uncarved::Full);
        }
        let note = Note {
            first: None,
            second: None,
            third: None,
            entry: None,
            form,
        };
        let found = self
            .table
            .shared
            .compare_exchange_with::<Carve<P>>(hand, END, end, end + width, &note);
        if found == end {
            Ok(end as usize)
        } else {
            Err(Uncarved::Again)
        }
    }
}
