//! A worker's backward scans.
//!
//! As of a range, each pair stood at a moment within the call, and these moments rise from pair to pair as they are written: from
//! the greatest key down.
ghost use Rattle.std.specs.Prelude.{◌≡◌, ◌+◌, ◌≤◌, length, take, drop};
ghost use Rattle.optimistic.specs.face.Calls.{Saw};
ghost use Rattle.optimistic.specs.face.ScansBack.{IsScanBack, IsRunBackOf};
ghost use Rattle.optimistic.specs.tree.Trails.{IsTrail};

use crate::drain::Pair;
use crate::face::worker::Worker;
use crate::tree::run::{BUFFER, Run, fewer, put_all};
use crate::tree::trail::Trail;
use std::sync::Wait;

impl<'t> Worker<'t> {
    /// What is told of the keys down from one, as it was at one moment within the call: as many of them as one node tells of.
    fn back_run<R: Wait>(
        &mut self,
        rt: &R,
        trail: &mut Trail,
        from: u64,
        first: u64,
        pairs: &mut [Pair],
        places: usize,
    ) -> Run
        requires trail { IsTrail trail.old self.old.moment }
        requires order { first ≤ from }
        requires room { places ≤ length pairs.old }
        ensures run { IsRunBackOf result from first places (take result.count pairs.new) self.old self.new }
        ensures same { length pairs.new ≡ length pairs.old }
        ensures trail { IsTrail trail.new self.new.moment }
    {
        self.tree
            .back_run(rt, &mut self.hand, trail, from, first, pairs, places)
    }

    /// Writes pairs with start <= key < end into `out`, descending, and gives their number. Each stood at a moment within the
    /// call, and these moments rise from pair to pair as written. A key that stood throughout the call is there, unless the places
    /// are filled with higher keys. The places past those that are written stay as they were.
    pub fn range_rev<R: Wait>(&mut self, rt: &R, start: u64, end: u64, out: &mut [Pair]) -> usize
        ensures scan { IsScanBack start end (length out.old) self.old self.new (take result out.new) }
        ensures count { result ≤ length out.new }
        ensures saw { Saw self.old self.new }
        ensures past { drop result out.new ≡ drop result out.old }
    {
        match end.checked_sub(1) {
            Some(last) => self.range_rev_inclusive(rt, start, last, out),
            None => 0,
        }
    }

    /// The same of start <= key <= last.
    pub fn range_rev_inclusive<R: Wait>(
        &mut self,
        rt: &R,
        start: u64,
        last: u64,
        out: &mut [Pair],
    ) -> usize
        ensures scan { IsScanBack start (last + 1) (length out.old) self.old self.new (take result out.new) }
        ensures count { result ≤ length out.new }
        ensures saw { Saw self.old self.new }
        ensures past { drop result out.new ≡ drop result out.old }
    {
        if start > last {
            return 0;
        }
        let mut trail = self.tree.trail(&self.hand);
        let mut pairs = [Pair { key: 0, value: 0 }; BUFFER];
        let mut from = last;
        let mut count = 0;
        while count < out.len() {
            let places = fewer(out.len() - count, BUFFER);
            let run = self.back_run(rt, &mut trail, from, start, &mut pairs, places);
            put_all(out, count, &pairs, run.count);
            count += run.count;
            match run.next {
                Some(next) => from = next,
                None => return count,
            }
        }
        count
    }
}
