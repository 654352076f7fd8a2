//! What a collection tells.

ghost use Rattle.std.specs.Prelude.{◌≡◌, ◌≤◌, ◌<◌, ◌+◌, ◌⊎◌, Some, None, IfSome, is_some};
ghost use Rattle.crossbeam_epoch.specs.Limits.{most_bags};
ghost use Rattle.crossbeam_epoch.specs.face.Pins.{IsDue};

use crate::face::pins::Attempt;
use crate::face::queue::{Emptied, NoneExpired};

/// What a collection called.
#[derive(Clone, Copy, Drop)]
pub struct Collected {
    /// The greatest seal of its bags.
    pub newest: Option<u64>,
    /// How many bags.
    pub bags: u8,
    /// Where it stopped for want of another one: that no front bag was expired.
    pub rest: Option<NoneExpired>,
    /// How it tried before to advance the epoch.
    pub attempt: Option<Attempt>,
}

impl Collected {
    /// No bag, and no attempt to advance.
    pub fn new() -> Collected
        ensures { result ≡ record { newest = None; bags = 0; rest = None; attempt = None } }
    {
        Collected {
            newest: None,
            bags: 0,
            rest: None,
            attempt: None,
        }
    }

    /// No bag yet, after this attempt to advance.
    pub fn after(attempt: Attempt) -> Collected
        ensures { result ≡ record { newest = None; bags = 0; rest = None; attempt = Some attempt } }
    {
        Collected {
            newest: None,
            bags: 0,
            rest: None,
            attempt: Some(attempt),
        }
    }

    /// One bag more, whose jobs were called.
    pub fn one_more(self, bag: Emptied) -> Collected
        requires { self.bags < most_bags }
        ensures bags { (result.bags ≡ self.bags + 1) × (result.rest ≡ self.rest) × (result.attempt ≡ self.attempt) }
        ensures newest { (s : _) × (result.newest ≡ Some s) × (bag.seal ≤ s) × IfSome self.newest (λ n. n ≤ s) × ((s ≡ bag.seal) ⊎ (self.newest ≡ Some s)) }
    {
        Collected {
            newest: Some(later(self.newest, bag.seal())),
            bags: self.bags + 1,
            rest: self.rest,
            attempt: self.attempt,
        }
    }

    /// Whether it stopped for want of another bag.
    pub fn is_at_rest(self) -> bool
        ensures { result ≡ is_some self.rest }
    {
        self.rest.is_some()
    }

    /// No bag more, since none was expired.
    pub fn at_rest(self, rest: NoneExpired) -> Collected
        ensures { result ≡ record self { rest = Some rest } }
    {
        Collected {
            newest: self.newest,
            bags: self.bags,
            rest: Some(rest),
            attempt: self.attempt,
        }
    }
}

/// The greater seal.
fn later(newest: Option<u64>, seal: u64) -> u64
    ensures { (seal ≤ result) × IfSome newest (λ n. n ≤ result) × ((result ≡ seal) ⊎ (newest ≡ Some result)) }
{
    match newest {
        Some(greatest) => greatest.max(seal),
        None => seal,
    }
}
