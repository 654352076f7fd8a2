//! Shares of a ledger, which count writing calls across threads.

ghost use Rattle.std.specs.Prelude.{◌≡◌, ◌+◌, ◌-◌, ◌*◌, ◌^◌, ◌%◌, ◌<◌, ◌≤◌};
ghost use Rattle.joint.specs.engine.Journaling.{one_where};
ghost use Rattle.joint.specs.threads.Shares.{GathersBook, ShareView, counts_more};

use crate::refusal::Refusal;
use std::marker::{Model, PhantomData};
use std::sync::ledger::{Book, Ledger, Share as Tokens};

/// The number of all parts of a ledger.
#[derive(Drop)]
pub(crate) struct Parts<L: Ledger> {
    all: u32,
    ledger: PhantomData<L>,
    ghost are_all: { all ≡ L.parts },
}

impl<L: Ledger> Parts<L> {
    pub(crate) fn again(&self) -> Self
        ensures { result.all ≡ self.now.all }
    {
        Parts {
            all: self.all,
            ledger: PhantomData,
        }
    }
}

/// A share of the ledger of an index with a journal. It has some of the ledger's parts, and counts the watched entries
/// of the writing calls that took it.
#[derive(Drop)]
pub struct Share<L: Ledger> {
    pub(crate) parts: u32,
    /// Modulo 2^64: no bound of the number is known here.
    pub(crate) count: u64,
    pub(crate) all: Parts<L>,
    pub(crate) tokens: Tokens<L>,
}

impl<L: Ledger> Model for Share<L> {
    ghost use Rattle.std.specs.Prelude.{◌≡◌, ◌^◌, ◌%◌, ◌<◌, ◌≤◌};
    ghost use Rattle.joint.specs.threads.Shares.{ShareView};

    ghost Value = { ShareView };

    ghost view = { λ s. record { parts = s.parts; count = s.tokens.amount } };

    ghost invariant = { λ s. (0 < s.parts) × (s.parts ≤ s.all.all) × (s.tokens.parts ≡ s.parts) × (s.count ≡ s.tokens.amount % 2 ^ 64) };
}

impl<L: Ledger> Share<L> {
    /// The share of all parts of a new ledger.
    pub(crate) fn all(parts: u32, tokens: Tokens<L>) -> Self
        requires some { 0 < parts }
        requires parts { parts ≡ L.parts }
        requires tokens { (tokens.parts ≡ L.parts) × (tokens.amount ≡ 0) }
        ensures { result ≡ record { parts = parts; count = 0 } }
    {
        Share {
            parts,
            count: 0,
            all: Parts {
                all: parts,
                ledger: PhantomData,
            },
            tokens,
        }
    }

    /// Its parts.
    pub fn parts(&self) -> u32
        ensures { result ≡ self.now.parts }
    {
        self.parts
    }

    /// The watched entries that it counts: the very number where that is below 2^64, as those of one journal always are.
    pub fn count(&self) -> u64
        ensures { self.now.count < 2 ^ 64 → result ≡ self.now.count }
    {
        self.count
    }

    /// Cuts off a share of so many parts, at least one and not all, with a count of 0.
    pub fn split(&mut self, parts: u32) -> Share<L>
        requires some { 0 < parts }
        requires below { parts < self.old.parts }
        ensures cut { result ≡ record { parts = parts; count = 0 } }
        ensures left { self.new ≡ record { parts = self.old.parts - parts; count = self.old.count } }
    {
        let tokens = self.tokens.split_off(u64::from(parts), 0);
        self.parts -= parts;
        Share {
            parts,
            count: 0,
            all: self.all.again(),
            tokens,
        }
    }

    /// Joins the other share to this one: its parts and its count.
    pub fn merge(&mut self, other: Share<L>)
        ensures { self.new ≡ record { parts = self.old.parts + other.parts; count = self.old.count + other.count } }
    {
        let Share {
            parts,
            count,
            all: _,
            tokens,
        } = other;
        self.tokens.merge(tokens);
        self.parts += parts;
        self.count = self.count.wrapping_add(count);
    }

    /// Counts one entry more, in the ledger's book too, where it is watched.
    pub(crate) fn count_if(&mut self, watched: bool, book: &mut Book<L>)
        ensures share { self.new ≡ counts_more self.old (one_where watched) }
        ensures book { book.new.total ≡ book.old.total + one_where watched }
    {
        if watched {
            book.add(&mut self.tokens, 1);
            self.count = self.count.wrapping_add(1);
        }
    }

    /// How many parts it lacks of all.
    pub(crate) fn lacks(&self) -> u32
        ensures { result + self.now.parts ≡ L.parts }
    {
        self.all.all - self.parts
    }

    /// What it counts, with all parts: as much as the book does. One that lacks parts is refused as SharesLeft.
    pub(crate) fn gather(&mut self, book: &mut Book<L>) -> Result<u64, Refusal>
        ensures gathers { GathersBook L.parts book.old.total self.old result }
        ensures share { self.new ≡ self.old }
        ensures book { book.new.total ≡ book.old.total }
    {
        match self.lacks() {
            0 => {
                self.audit(book);
                Ok(self.count())
            }
            lacking => Err(Refusal::SharesLeft(lacking)),
        }
    }

    /// With all parts it counts what the book does.
    pub(crate) fn audit(&mut self, book: &mut Book<L>)
        ensures share { self.new ≡ self.old }
        ensures book { book.new.total ≡ book.old.total }
        ensures whole { self.old.parts ≡ L.parts → self.old.count ≡ book.old.total }
    {
        book.audit(&mut self.tokens);
    }
}
