//! A worker's calls that stand for many.
ghost use Rattle.std.specs.Prelude.{◌≡◌, ◌<◌, length, take, drop, min, IfErr};
ghost use Rattle.optimistic.specs.face.Calls.{Saw, Looked, Found};
ghost use Rattle.optimistic.specs.face.Many.{Answered, AreInserted, IsSameWorker};
ghost use Rattle.optimistic.specs.face.Writes.{IsFinal};
ghost use Rattle.optimistic.specs.tree.Trails.{AreKnown};

use crate::drain::Pair;
use crate::face::refusal::Uninserted;
use crate::face::worker::Worker;
use crate::tree::ahead::{Ahead, GROUP, STEPS};
use std::sync::Wait;

impl<'t> Worker<'t> {
    /// The root for each key.
    pub(crate) fn ahead(&self) -> Ahead
        ensures { AreKnown result self.now.moment }
    {
        self.tree.ahead(&self.hand)
    }

    /// Follows a key's way by one node.
    pub(crate) fn follow(&mut self, ahead: &mut Ahead, turn: usize, key: u64)
        requires known { AreKnown ahead.old self.old.moment }
        requires turn { turn < 8 }
        ensures looked { Looked self.old self.new }
        ensures known { AreKnown ahead.new self.new.moment }
    {
        self.tree.follow(&mut self.hand, ahead, turn, key);
    }

    /// Looks a key up from where its way led.
    pub(crate) fn get_ahead<R: Wait>(
        &mut self,
        rt: &R,
        ahead: &Ahead,
        turn: usize,
        key: u64,
    ) -> Option<u64>
        requires known { AreKnown ahead.now self.old.moment }
        requires turn { turn < 8 }
        ensures found { Found key result self.old self.new }
        ensures known { AreKnown ahead.now self.new.moment }
    {
        self.tree.get_ahead(rt, &mut self.hand, ahead, turn, key)
    }

    /// Follows the ways to the keys of a group, if one begins at this place.
    fn look_ahead(&mut self, ahead: &mut Ahead, keys: &[u64], first: usize)
        requires known { AreKnown ahead.old self.old.moment }
        ensures saw { Saw self.old self.new }
        ensures known { AreKnown ahead.new self.new.moment }
    {
        if first % GROUP != 0 {
            return;
        }
        *ahead = self.ahead();
        for step in 0..STEPS {
            let turn = step % GROUP;
            let place = first.saturating_add(turn);
            if place >= keys.len() {
                continue;
            }
            self.follow(ahead, turn, keys[place]);
        }
    }

    /// Looks up one key after the other, as many as there are places for answers, and gives their number. Each key had its
    /// answer at a moment within the call, and these moments rise. The places past those that are written stay as they were.
    pub fn get_many<R: Wait>(&mut self, rt: &R, keys: &[u64], out: &mut [Option<u64>]) -> usize
        ensures answers { Answered self.old.seen (take result keys.now) (take result out.new) self.new.seen }
        ensures count { result ≡ min (length keys.now) (length out.old) }
        ensures saw { Saw self.old self.new }
        ensures past { drop result out.new ≡ drop result out.old }
    {
        let count = keys.len().min(out.len());
        let mut ahead = self.ahead();
        for place in 0..count {
            self.look_ahead(&mut ahead, keys, place);
            out[place] = self.get_ahead(rt, &ahead, place % GROUP, keys[place]);
        }
        count
    }

    /// Puts one pair's value at its key after the other, each by a call of its own, as `insert` does. At the first that is refused
    /// it ends, and tells which one that is.
    pub fn insert_many<R: Wait>(&mut self, rt: &R, pairs: &[Pair]) -> Result<(), Uninserted>
        ensures inserted { AreInserted pairs.now self.old self.new result }
        ensures decided { IfErr result (λ e. IsFinal e.refusal) }
        ensures same { IsSameWorker self.old self.new }
    {
        for place in 0..pairs.len() {
            let pair = pairs[place];
            match self.insert(rt, pair.key, pair.value) {
                Ok(_) => {}
                Err(refusal) => return Err(Uninserted { place, refusal }),
            }
        }
        Ok(())
    }
}
