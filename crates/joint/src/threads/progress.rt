//! What a writing call on an index with a journal has come to.

ghost use Rattle.std.specs.Prelude.{◌≡◌, ◌+◌};
ghost use Rattle.joint.specs.engine.Log.{with_answer};
ghost use Rattle.joint.specs.threads.Writing.{given_after, noted, settled, told_with, unwritten, weight};

use crate::engine::request::Request;
use crate::refusal::Refusal;
use crate::steps::{Done, Event, Op, Outcome, Report};
use crate::threads::share::Share;
use crate::threads::watch::Watch;
use judge::Entry;
use std::marker::Model;
use std::sync::ledger::{Book, Ledger};

/// The last answer of the call's closure, its entry in the journal, and its caller's share.
#[derive(Drop)]
pub(crate) struct Progress<L: Ledger> {
    pub(crate) given: Option<Option<u64>>,
    pub(crate) entry: Option<Entry<u64>>,
    pub(crate) share: Share<L>,
}

impl<L: Ledger> Model for Progress<L> {
    ghost use Rattle.joint.specs.threads.Writing.{Progress};

    ghost Value = { Progress };

    ghost view = { λ p. record { given = p.given; entry = p.entry; share = p.share } };
}

impl<L: Ledger> Progress<L> {
    /// Before the first turn.
    pub(crate) fn new(share: Share<L>) -> Self
        ensures { result ≡ unwritten share }
    {
        Progress {
            given: None,
            entry: None,
            share,
        }
    }

    /// The share back.
    pub(crate) fn into_share(self) -> Share<L>
        ensures { result ≡ self.share }
    {
        let Progress { share, .. } = self;
        share
    }

    /// The call takes the answer that comes to a step, if one does.
    pub(crate) fn take_answer(&mut self, op: &Op<u64>, event: &Event<u64>)
        ensures { self.new ≡ record self.old { given = given_after op.now self.old.given event.now } }
    {
        if let Event::Go(noise) = event {
            let request = Request {
                op: *op,
                answer: self.given,
            };
            if let Some(Request { answer, .. }) = request.with_answer(&noise.answer) {
                self.given = answer;
            }
        }
    }

    /// It has this entry, if there is one; its share and the book count it where it is watched.
    pub(crate) fn note<W: Watch>(&mut self, book: &mut Book<L>, entry: Option<Entry<u64>>)
        ensures call { self.new ≡ noted W.watched self.old entry }
        ensures book { book.new.total ≡ book.old.total + weight W.watched entry }
    {
        if let Some(entry) = entry {
            self.share.count_if(W::watches(&entry), book);
            self.entry = Some(entry);
        }
    }

    /// How it ends: with the reply of its entry, or idle.
    pub(crate) fn settled(&self) -> Outcome<u64>
        ensures { result ≡ settled self.now.entry }
    {
        match &self.entry {
            Some(entry) => Outcome::Done(Done::Reply(entry.reply)),
            None => Outcome::Refused(Refusal::Idle),
        }
    }

    /// How it tells the outcome of a hold.
    fn told(&self, outcome: Outcome<u64>) -> Outcome<u64>
        ensures { result ≡ told_with self.now.entry outcome }
    {
        match outcome {
            Outcome::Running => Outcome::Running,
            Outcome::Asks(found) => Outcome::Asks(found),
            Outcome::Refused(refusal) if self.entry.is_none() => Outcome::Refused(refusal),
            // It has ended; a writing call finds no pairs and no worker's place.
            _ => self.settled(),
        }
    }

    /// How it tells a hold.
    pub(crate) fn tell(&self, report: Report<u64>) -> Report<u64>
        ensures { result ≡ record report { outcome = told_with self.now.entry report.outcome } }
    {
        Report {
            outcome: self.told(report.outcome),
            ..report
        }
    }
}
