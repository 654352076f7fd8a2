//! The table and its second index, of one owner.
ghost use Rattle.std.specs.Prelude.{◌≡◌, ◌<◌, ℕ, IfErr, IfNone, IfOk, IfSome, OnOk, is_some};
ghost use Rattle.std.specs.FinMap as map;
ghost use Rattle.judge.specs.Answer.{set_at};
ghost use Rattle.trial.specs.Sessions.{IsClosed, after, renewed, unexpired};

use congee::{Congee, DefaultAllocator, OOMError};
use std::alloc::{AllocError, Global};
use std::marker::Model;

/// A change of the table.
#[derive(Clone, Copy, Debug, PartialEq, Eq)]
pub enum Change {
    /// The session comes, or gets another expiry.
    Register { session: u32, expiry: u32 },
    /// The session gets another expiry, if it is there.
    Renew { session: u32, expiry: u32 },
    /// The sessions go whose expiry is this time or an earlier one.
    Expire { now: u32 },
}

/// The pairs of both indexes, ascending.
#[derive(Drop)]
pub struct Closed {
    /// Each session with its expiry.
    pub by_session: Vec<(u32, u32)>,
    /// Each expiry with its session.
    pub by_expiry: Vec<(u32, u32)>,
}

/// Sessions with the times at which they expire, seen as the map from the ones to the others.
#[derive(Drop)]
pub struct Registry {
    expiries: Congee<u32, u32>,
    /// The sessions, each under its expiry and itself.
    by_expiry: Congee<(u32, u32), u32>,
}

impl Model for Registry {
    ghost use Rattle.std.specs.Coded.{coded_ℕ};
    ghost use Rattle.std.specs.FinMap as fin;
    ghost use Rattle.judge.specs.Answer.{Pairs};
    ghost use Rattle.trial.specs.Sessions.{Turned};
    ghost use Rattle.std.specs.Prelude.{ℕ};

    ghost Value = { Pairs ℕ };

    ghost coded = { fin.code coded_ℕ coded_ℕ };

    ghost view = { λ r. r.expiries.pairs };

    ghost invariant = { λ r. Turned r.expiries.pairs r.by_expiry.pairs };
}

impl Registry {
    /// No sessions.
    #[tactic(auto, using(crate::proofs::Turning::turned_empty))]
    pub fn new(alloc: Global) -> Result<Registry, OOMError>
        ensures { IfOk result (λ r. r ≡ map.empty) }
    {
        let expiries = Congee::new(alloc, DefaultAllocator::new())?;
        let by_expiry = Congee::new(alloc, DefaultAllocator::new())?;
        Ok(Registry {
            expiries,
            by_expiry,
        })
    }

    /// When the session expires; `None` where it isn't registered, or has expired.
    #[tactic(auto, using(crate::proofs::Turning::expiry_kept))]
    pub fn look_up(&self, session: u32) -> Option<u32>
        ensures { result ≡ map.get self.now session }
    {
        self.expiries.get(&session)
    }

    /// Registers a session, or gives it another expiry, and gives the one before. A refused call changes nothing.
    pub fn register(&mut self, session: u32, expiry: u32) -> Result<Option<u32>, OOMError>
        ensures before { IfOk result (λ before. before ≡ map.get self.old session) }
        ensures registered { OnOk result (self.new ≡ map.insert self.old session expiry) }
        ensures refused { IfErr result (λ e. self.new ≡ self.old) }
    {
        let before = self.look_up(session);
        if before == Some(expiry) {
            return Ok(before);
        }
        let place = (expiry, session);
        self.by_expiry.insert(place, session)?;
        if let Err(error) = self.expiries.insert(session, expiry) {
            self.by_expiry.remove(&place);
            return Err(error);
        }
        if let Some(old) = before {
            self.by_expiry.remove(&(old, session));
        }
        Ok(before)
    }

    /// Gives a session another expiry if it is there, and tells whether it is. A refused call changes nothing.
    pub fn renew(&mut self, session: u32, expiry: u32) -> Result<bool, OOMError>
        ensures found { IfOk result (λ found. found ≡ is_some (map.get self.old session)) }
        ensures renewed { OnOk result (self.new ≡ set_at self.old session (renewed expiry (map.get self.old session))) }
        ensures refused { IfErr result (λ e. self.new ≡ self.old) }
    {
        match self.look_up(session) {
            None => Ok(false),
            Some(_) => {
                self.register(session, expiry)?;
                Ok(true)
            }
        }
    }

    /// Takes out the session that expires first, if its expiry has come.
    fn pop_expired(&mut self, now: u32) -> Option<u32>
        ensures due { IfSome result (λ session. (q : ℕ) → unexpired now (map.get self.new q) ≡ unexpired now (map.get self.old q)) }
        ensures fewer { IfSome result (λ session. map.len self.new < map.len self.old) }
        ensures none { IfNone result ((q : ℕ) → map.get self.new q ≡ unexpired now (map.get self.old q)) }
    {
        let ((expiry, session), _) = self.by_expiry.first()?;
        if now < expiry {
            return None;
        }
        self.by_expiry.remove(&(expiry, session));
        self.expiries.remove(&session);
        Some(session)
    }

    /// Takes out each session whose expiry is this time or an earlier one, the earliest first.
    pub fn expire_up_to(&mut self, now: u32)
        ensures { (session : ℕ) → map.get self.new session ≡ unexpired now (map.get self.old session) }
    {
        while let Some(_) = self.pop_expired(now) {}
    }

    /// Makes a change. A refused one changes nothing.
    #[tactic(auto, using(crate::proofs::Turning::after_register, crate::proofs::Turning::after_renew))]
    pub fn make(&mut self, change: Change) -> Result<(), OOMError>
        ensures made { OnOk result ((session : ℕ) → map.get self.new session ≡ after change session (map.get self.old session)) }
        ensures refused { IfErr result (λ e. self.new ≡ self.old) }
    {
        match change {
            Change::Register { session, expiry } => {
                self.register(session, expiry)?;
            }
            Change::Renew { session, expiry } => {
                self.renew(session, expiry)?;
            }
            Change::Expire { now } => self.expire_up_to(now),
        }
        Ok(())
    }

    /// Drops both indexes, and gives the pairs of each. Refused for want of memory alone.
    pub fn close(self, alloc: Global) -> Result<Closed, AllocError>
        ensures { IfOk result (λ closed. IsClosed self closed) }
    {
        Ok(Closed {
            by_session: self.expiries.iter().collect(alloc)?,
            by_expiry: self.by_expiry.keys()?,
        })
    }
}
