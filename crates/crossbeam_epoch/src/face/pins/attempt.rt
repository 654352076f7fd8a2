//! The steps of an attempt to advance the epoch, which alone tell of it.

ghost use Rattle.std.specs.Prelude.{◌≡◌, ◌<◌, ◌≤◌, ◌^◌, MatchOption};
ghost use Rattle.crossbeam_epoch.specs.face.Attempt.{IsAttempt};
ghost use Rattle.crossbeam_epoch.specs.face.Pins.{with_seen, IsRead};
ghost use Rattle.crossbeam_epoch.specs.face.Tokens.{known, IsOf};

use crate::face::pins::{Pins, passes, word_of};
use crate::face::seats::{Advance, Inspect, Token};

/// How an attempt ended.
#[derive(Clone, Copy, Drop)]
pub enum Ending {
    /// The epoch is the last one.
    AtLast,
    /// This number stood in the word of a place, which isn't passed.
    Stopped(u64),
    /// Every place was passed, and the epoch was exchanged once, where this number stood.
    Exchanged(u64),
}

/// An attempt to advance the epoch.
#[derive(Clone, Copy, Drop)]
pub struct Attempt {
    /// The epoch that was looked at.
    from: u64,
    ending: Ending,
}

impl Pins {
    /// The attempt at the last epoch, where the one that was seen is that.
    pub(super) fn at_last(&self, seen: u64) -> Option<Attempt>
        ensures { MatchOption result (seen < self.now.epoch_max) (λ a. IsAttempt self.now.epoch_max a seen) }
    {
        if seen < self.epoch_max {
            return None;
        }
        Some(Attempt {
            from: seen,
            ending: Ending::AtLast,
        })
    }

    /// Inspects each place in order. The attempt that stops where one isn't passed; none where all were.
    pub(super) fn scan(&self, token: &mut Token, seen: u64) -> Option<Attempt>
        requires of { IsOf self.now.words.shared.table_id token.old }
        requires starts { (known token.old ≡ with_seen (known token.old) seen) × (seen ≤ 2 ^ 62) }
        ensures of { IsOf self.now.words.shared.table_id token.new }
        ensures view { known token.new ≡ record (known token.old) { passed = (known token.new).passed } }
        ensures all { MatchOption result (self.now.places ≤ (known token.new).passed) (λ a. IsAttempt self.now.epoch_max a seen) }
    {
        for place in 0..self.places {
            let number = self.words.shared.load::<Inspect>(token, word_of(place));
            if !passes(number, seen) {
                return Some(Attempt {
                    from: seen,
                    ending: Ending::Stopped(number),
                });
            }
        }
        None
    }

    /// Puts the next epoch once in the place of the one that was seen, where all places were passed and it isn't the last one.
    /// The epoch that was seen last.
    pub(super) fn raise(&self, token: &mut Token, seen: u64) -> (u64, Attempt)
        requires of { IsOf self.now.words.shared.table_id token.old }
        requires seen { ((known token.old).seen ≡ seen) × (seen < self.now.epoch_max) }
        requires all { self.now.places ≤ (known token.old).passed }
        ensures of { IsOf self.now.words.shared.table_id token.new }
        ensures view { known token.new ≡ record (known token.old) { seen = result.0; passed = (known token.new).passed } }
        ensures read { IsRead (known token.old) seen → IsRead (known token.old) result.0 }
        ensures attempt { IsAttempt self.now.epoch_max result.1 result.0 }
    {
        let shared = &self.words.shared;
        let found = shared.compare_exchange::<Advance>(token, 0, seen, seen + 1);
        let attempt = Attempt {
            from: seen,
            ending: Ending::Exchanged(found),
        };
        if found == seen {
            (seen + 1, attempt)
        } else {
            (seen, attempt)
        }
    }
}
