//! The journal of an index that was closed, with the book of the ledger that counted its watched writing calls.

ghost use Rattle.std.specs.Prelude.{◌≡◌, ◌≤◌, length};
ghost use Rattle.joint.specs.threads.Journals.{count_watched};
ghost use Rattle.joint.specs.threads.Writing.{GathersOf};

use crate::refusal::Refusal;
use crate::threads::share::Share;
use crate::threads::watch::Watch;
use judge::Entry;
use std::marker::PhantomData;
use std::sync::ledger::{Book, Ledger};

/// What an index with a journal leaves: the entries of all writing calls that took effect, and of the look-ups for which
/// there was a place, in the order of their deciding steps; and how many of the writing ones are watched.
pub struct Journal<L: Ledger, W: Watch> {
    pub(crate) entries: Vec<Entry<u64>>,
    book: Book<L>,
    watch: PhantomData<W>,
    ghost few: { length entries.items ≤ 4294967295 },
    ghost counted: { book.total ≡ count_watched W.watched entries.items },
}

impl<L: Ledger, W: Watch> Drop for Journal<L, W> {
    fn drop(self) {
        let Journal {
            entries: _,
            book: _,
            watch: _,
        } = self;
    }
}

impl<L: Ledger, W: Watch> Journal<L, W> {
    /// These entries, and the book that counts them.
    pub(crate) fn of(entries: Vec<Entry<u64>>, book: Book<L>) -> Self
        requires few { length entries.items ≤ 4294967295 }
        requires counted { book.total ≡ count_watched W.watched entries.items }
        ensures { result.entries ≡ entries }
    {
        Journal {
            entries,
            book,
            watch: PhantomData,
        }
    }

    /// The entries.
    pub fn entries(&self) -> &[Entry<u64>]
        ensures { result.now ≡ self.now.entries.items }
    {
        &self.entries
    }

    /// The number of watched writing calls among the entries, by a share of all parts: its count. One that lacks parts is
    /// refused as SharesLeft, with their number.
    pub fn gather(&mut self, share: &mut Share<L>) -> Result<u64, Refusal>
        ensures gathers { GathersOf W.watched L.parts self.old.entries.items share.old result }
        ensures share { share.new ≡ share.old }
        ensures entries { self.new.entries ≡ self.old.entries }
    {
        share.gather(&mut self.book)
    }
}
