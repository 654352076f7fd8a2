//! A walk over a range, pair by pair.
ghost use Rattle.std.specs.Prelude.{◌≡◌};
ghost use Rattle.optimistic.specs.face.Walks.{IsStep, ahead};

use crate::drain::Pair;
use crate::drain::keys::key_after;
use crate::face::worker::Worker;
use std::sync::Wait;

/// A place in a range: the key from which on its pairs are still to be told, if there is one, and its last key. It takes no
/// memory, and a worker may make other calls between two steps.
#[derive(Clone, Copy, Debug, Drop)]
pub struct Walk {
    pub from: Option<u64>,
    pub last: u64,
}

impl Walk {
    /// A walk over start <= key <= last.
    pub fn new(start: u64, last: u64) -> Walk
        ensures from { ahead result ≡ start }
        ensures last { result.last ≡ last }
    {
        Walk {
            from: Some(start),
            last,
        }
    }
}

impl<'t> Worker<'t> {
    /// The next pair of a walk, or `None` if there is none up to its last key, as it was at one moment within the call. After
    /// `None` there is none any more.
    pub fn step<R: Wait>(&mut self, rt: &R, walk: &mut Walk) -> Option<Pair>
        ensures { IsStep walk.old result walk.new self.old self.new }
    {
        let last = walk.last;
        let Some(from) = walk.from else {
            return None;
        };
        walk.from = None;
        let Some(pair) = self.at_or_after(rt, from) else {
            return None;
        };
        if pair.key > last {
            return None;
        }
        walk.from = key_after(pair.key);
        Some(pair)
    }
}
