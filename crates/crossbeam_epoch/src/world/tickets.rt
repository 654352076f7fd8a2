//! Tickets of deferred jobs.

ghost use Rattle.std.specs.Prelude.{◌≡◌, ◌<◌, ◌+◌, ◌-◌, ◌^◌, None};
ghost use Rattle.crossbeam_epoch.specs.world.Steps.{or_count};

use crate::fault::Fault;
use std::marker::Model;

/// The next ticket, and how many jobs wait to be called.
#[derive(Drop)]
pub struct Tickets {
    next: u64,
    waiting: u64,
}

impl Model for Tickets {
    ghost use Rattle.std.specs.Prelude.{◌≤◌};
    ghost use Rattle.crossbeam_epoch.specs.world.Tickets.{TicketCount};

    ghost Value = { TicketCount };

    ghost view = { λ t. record { next = t.next; waiting = t.waiting } };

    ghost invariant = { λ t. t.waiting ≤ t.next };
}

impl Tickets {
    /// No ticket was given.
    pub fn new() -> Tickets
        ensures { result ≡ record { next = 0; waiting = 0 } }
    {
        Tickets {
            next: 0,
            waiting: 0,
        }
    }

    /// This fault, or Count where no ticket is left.
    pub fn or_count(&self, fault: Option<Fault>) -> Option<Fault>
        ensures value { result ≡ or_count self.now.next fault }
        ensures few { result ≡ None → self.now.next < 2 ^ 64 - 1 }
    {
        match fault {
            Some(fault) => Some(fault),
            None if self.next == u64::MAX => Some(Fault::Count),
            None => None,
        }
    }

    /// How many jobs wait.
    pub fn waiting(&self) -> u64
        ensures { result ≡ self.now.waiting }
    {
        self.waiting
    }

    /// Gives the next ticket to a job that waits from now on.
    pub fn give(&mut self) -> u64
        requires { self.old.next < 2 ^ 64 - 1 }
        ensures ticket { result ≡ self.old.next }
        ensures count { self.new ≡ record { next = self.old.next + 1; waiting = self.old.waiting + 1 } }
    {
        let ticket = self.next;
        self.next += 1;
        self.waiting += 1;
        ticket
    }

    /// A job waits no longer.
    pub fn settle(&mut self)
        ensures { self.new ≡ record { next = self.old.next; waiting = self.old.waiting - 1 } }
    {
        self.waiting = self.waiting.saturating_sub(1);
    }
}
