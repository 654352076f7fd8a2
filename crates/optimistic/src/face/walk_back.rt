//! A walk over a range, pair by pair, from its greatest key down.
ghost use Rattle.std.specs.Prelude.{◌≡◌, ◌+◌};
ghost use Rattle.optimistic.specs.face.WalksBack.{IsStepBack, below, below_next};

use crate::drain::Pair;
use crate::face::worker::Worker;
use std::sync::Wait;

/// A place in a range: the key down from which its pairs are still to be told, if there is one, and its first key. It takes no
/// memory, and a worker may make other calls between two steps.
#[derive(Clone, Copy, Debug, Drop)]
pub struct WalkBack {
    pub from: Option<u64>,
    pub first: u64,
}

impl WalkBack {
    /// A walk over start <= key <= last, from the last one down.
    pub fn new(start: u64, last: u64) -> WalkBack
        ensures from { below result ≡ last + 1 }
        ensures first { result.first ≡ start }
    {
        WalkBack {
            from: Some(last),
            first: start,
        }
    }
}

/// The key before one, if it isn't the first.
fn key_before(key: u64) -> Option<u64>
    ensures { below_next result ≡ key }
{
    match key.checked_sub(1) {
        Some(before) => Some(before),
        None => None,
    }
}

impl<'t> Worker<'t> {
    /// The pair before, of a walk that goes back, or `None` if there is none down to its first key, as it was at one moment within
    /// the call. After `None` there is none any more.
    pub fn step_back<R: Wait>(&mut self, rt: &R, walk: &mut WalkBack) -> Option<Pair>
        ensures { IsStepBack walk.old result walk.new self.old self.new }
    {
        let first = walk.first;
        let Some(from) = walk.from else {
            return None;
        };
        walk.from = None;
        let Some(pair) = self.at_or_before(rt, from) else {
            return None;
        };
        if pair.key < first {
            return None;
        }
        walk.from = key_before(pair.key);
        Some(pair)
    }
}
