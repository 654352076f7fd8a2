//! A worker's scans.
//!
//! Each pair that is told stood at a moment within the call. Of a single pair this is one moment, at which no key stood between
//! it and the key that was asked for. Of a range it is one for each pair, and these moments rise.
ghost use Rattle.std.specs.Prelude.{◌≡◌, ℕ, ◌+◌, ◌<◌, ◌≤◌, ◌^◌, length, take, drop, IfSome};
ghost use Rattle.optimistic.specs.face.Calls.{Saw};
ghost use Rattle.optimistic.specs.face.Scans.{FirstFrom, LastBelow, FirstIn, LastIn, Emptiness, IsScan, AreKeys, Counts, IsRunOf, IsFilled};
ghost use Rattle.optimistic.specs.tree.Trails.{IsTrail};

use crate::drain::Pair;
use crate::face::worker::Worker;
use crate::tree::Reached;
use crate::tree::run::{BUFFER, Run, fewer, put_all, put_keys};
use crate::tree::trail::Trail;
use std::sync::Wait;

impl<'t> Worker<'t> {
    /// The pair with the least key that isn't below this one, or `None` if there was none. It was so at one moment within the
    /// call: after all that the worker had seen of the log before, and before all that it has seen then.
    pub fn at_or_after<R: Wait>(&mut self, rt: &R, key: u64) -> Option<Pair>
        ensures { FirstFrom key result self.old self.new }
    {
        self.tree.next_from(rt, &mut self.hand, key)
    }

    /// The pair with the least key, or `None` if there was none, at one moment within the call.
    pub fn first<R: Wait>(&mut self, rt: &R) -> Option<Pair>
        ensures { FirstFrom 0 result self.old self.new }
    {
        self.at_or_after(rt, 0)
    }

    /// The pair with the least key above this one, or `None` if there was none, at one moment within the call.
    pub fn next_after<R: Wait>(&mut self, rt: &R, key: u64) -> Option<Pair>
        ensures { FirstFrom (key + 1) result self.old self.new }
    {
        match key.checked_add(1) {
            Some(next) => self.at_or_after(rt, next),
            None => {
                self.at_or_after(rt, key);
                None
            }
        }
    }

    /// The pair with the greatest key that isn't above this one, or `None` if there was none, at one moment within the call.
    pub fn at_or_before<R: Wait>(&mut self, rt: &R, key: u64) -> Option<Pair>
        ensures { LastBelow (key + 1) result self.old self.new }
    {
        self.tree.last_to(rt, &mut self.hand, key)
    }

    /// The pair with the greatest key, or `None` if there was none, at one moment within the call.
    pub fn last<R: Wait>(&mut self, rt: &R) -> Option<Pair>
        ensures { LastBelow (2 ^ 64) result self.old self.new }
    {
        self.at_or_before(rt, u64::MAX)
    }

    /// The pair with the greatest key below this one, or `None` if there was none, at one moment within the call.
    pub fn next_before<R: Wait>(&mut self, rt: &R, key: u64) -> Option<Pair>
        ensures { LastBelow key result self.old self.new }
    {
        match key.checked_sub(1) {
            Some(before) => self.at_or_before(rt, before),
            None => {
                self.at_or_before(rt, key);
                None
            }
        }
    }

    /// The pair with the least key of start <= key <= last, or `None` if there was none, at one moment within the call.
    pub fn first_in<R: Wait>(&mut self, rt: &R, start: u64, last: u64) -> Option<Pair>
        ensures { FirstIn start (last + 1) result self.old self.new }
    {
        let Some(pair) = self.at_or_after(rt, start) else {
            return None;
        };
        if pair.key > last {
            return None;
        }
        Some(pair)
    }

    /// The pair with the greatest key of start <= key <= last, or `None` if there was none, at one moment within the call.
    pub fn last_in<R: Wait>(&mut self, rt: &R, start: u64, last: u64) -> Option<Pair>
        ensures { LastIn start (last + 1) result self.old self.new }
    {
        let Some(pair) = self.at_or_before(rt, last) else {
            return None;
        };
        if pair.key < start {
            return None;
        }
        Some(pair)
    }

    /// Whether no key had a value, at one moment within the call.
    pub fn is_empty<R: Wait>(&mut self, rt: &R) -> bool
        ensures { Emptiness result self.old self.new }
    {
        match self.first(rt) {
            Some(_) => false,
            None => true,
        }
    }

    /// What is told of the keys from one on, as it was at one moment within the call: as many of them as one node tells of.
    fn run<R: Wait>(
        &mut self,
        rt: &R,
        trail: &mut Trail,
        from: u64,
        last: u64,
        pairs: &mut [Pair],
        places: usize,
    ) -> Run
        requires trail { IsTrail trail.old self.old.moment }
        requires order { from ≤ last }
        requires room { (0 < places) × (places ≤ length pairs.old) }
        ensures run { IsRunOf result from last places (take result.count pairs.new) self.old self.new }
        ensures same { length pairs.new ≡ length pairs.old }
        ensures trail { IsTrail trail.new self.new.moment }
    {
        self.tree
            .run(rt, &mut self.hand, trail, from, last, pairs, places)
    }

    /// The same, if no writer comes between.
    #[inline(always)]
    fn run_on(
        &mut self,
        trail: &mut Trail,
        from: u64,
        last: u64,
        pairs: &mut [Pair],
        places: usize,
    ) -> Option<Run>
        requires trail { IsTrail trail.old self.old.moment }
        requires order { from ≤ last }
        requires room { (0 < places) × (places ≤ length pairs.old) }
        ensures run { IfSome result (λ r. IsRunOf r from last places (take r.count pairs.new) self.old self.new) }
        ensures saw { Saw self.old self.new }
        ensures same { length pairs.new ≡ length pairs.old }
        ensures trail { IsTrail trail.new self.new.moment }
    {
        self.tree
            .run_on(&mut self.hand, trail, from, last, pairs, places)
    }

    /// What some nodes tell of the keys from one on, one node behind the other, as long as there are places and no writer comes
    /// between: each as it was at one moment within the call, and these moments rise.
    fn fill<R: Wait>(
        &mut self,
        rt: &R,
        trail: &mut Trail,
        from: u64,
        last: u64,
        pairs: &mut [Pair],
        places: usize,
    ) -> Reached
        requires trail { IsTrail trail.old self.old.moment }
        requires order { from ≤ last }
        requires room { (0 < places) × (places ≤ length pairs.old) }
        ensures filled { IsFilled result from last places (take result.count pairs.new) self.old self.new }
        ensures same { length pairs.new ≡ length pairs.old }
        ensures trail { IsTrail trail.new self.new.moment }
    {
        let run = self.run(rt, trail, from, last, pairs, places);
        let mut next = run.next;
        let mut count = run.count;
        while count < places {
            let Some(key) = next else {
                return Reached { next: None, count };
            };
            let Some(run) = self.run_on(trail, key, last, &mut pairs[count..], places - count)
            else {
                return Reached {
                    next: Some(key),
                    count,
                };
            };
            next = run.next;
            count += run.count;
        }
        Reached { next, count }
    }

    /// Writes pairs with start <= key < end into `out`, ascending, and gives their number. Each stood at a moment within the
    /// call, and these moments rise. A key that stood throughout the call is there, unless the places are filled with lower keys.
    /// The places past those that are written stay as they were.
    pub fn range<R: Wait>(&mut self, rt: &R, start: u64, end: u64, out: &mut [Pair]) -> usize
        ensures scan { IsScan start end (length out.old) self.old self.new (take result out.new) }
        ensures count { result ≤ length out.new }
        ensures saw { Saw self.old self.new }
        ensures past { drop result out.new ≡ drop result out.old }
    {
        match end.checked_sub(1) {
            Some(last) => self.range_inclusive(rt, start, last, out),
            None => 0,
        }
    }

    /// The same of start <= key <= last.
    pub fn range_inclusive<R: Wait>(
        &mut self,
        rt: &R,
        start: u64,
        last: u64,
        out: &mut [Pair],
    ) -> usize
        ensures scan { IsScan start (last + 1) (length out.old) self.old self.new (take result out.new) }
        ensures count { result ≤ length out.new }
        ensures saw { Saw self.old self.new }
        ensures past { drop result out.new ≡ drop result out.old }
    {
        if start > last {
            return 0;
        }
        let mut trail = self.tree.trail(&self.hand);
        let mut pairs = [Pair { key: 0, value: 0 }; BUFFER];
        let mut from = start;
        let mut count = 0;
        while count < out.len() {
            let places = fewer(out.len() - count, BUFFER);
            let filled = self.fill(rt, &mut trail, from, last, &mut pairs, places);
            put_all(out, count, &pairs, filled.count);
            count += filled.count;
            match filled.next {
                Some(next) => from = next,
                None => return count,
            }
        }
        count
    }

    /// Writes the keys with start <= key <= last that have a value into `out`, ascending, and gives their number: those of the pairs
    /// that `range_inclusive` tells. `congee`'s `keys` tells all; here `0` and `u64::MAX` do, and where the places are filled a scan
    /// goes on from behind the last key.
    pub fn keys<R: Wait>(&mut self, rt: &R, start: u64, last: u64, out: &mut [u64]) -> usize
        ensures keys { AreKeys start (last + 1) (length out.old) self.old self.new (take result out.new) }
        ensures count { result ≤ length out.new }
        ensures saw { Saw self.old self.new }
        ensures past { drop result out.new ≡ drop result out.old }
    {
        if start > last {
            return 0;
        }
        let mut trail = self.tree.trail(&self.hand);
        let mut pairs = [Pair { key: 0, value: 0 }; BUFFER];
        let mut from = start;
        let mut count = 0;
        while count < out.len() {
            let places = fewer(out.len() - count, BUFFER);
            let filled = self.fill(rt, &mut trail, from, last, &mut pairs, places);
            put_keys(out, count, &pairs, filled.count);
            count += filled.count;
            match filled.next {
                Some(next) => from = next,
                None => return count,
            }
        }
        count
    }

    /// How many pairs with start <= key <= last a scan finds. Each stood at a moment within the call, and a key that stood
    /// throughout is counted. The greatest number of 64 bits stands for any greater one.
    pub fn count<R: Wait>(&mut self, rt: &R, start: u64, last: u64) -> u64
        ensures count { Counts start (last + 1) result self.old self.new }
        ensures saw { Saw self.old self.new }
    {
        if start > last {
            return 0;
        }
        let mut trail = self.tree.trail(&self.hand);
        let mut pairs = [Pair { key: 0, value: 0 }; BUFFER];
        let mut from = start;
        let mut count = 0u64;
        loop {
            let filled = self.fill(rt, &mut trail, from, last, &mut pairs, BUFFER);
            count = count.saturating_add(filled.count as u64);
            match filled.next {
                Some(next) => from = next,
                None => return count,
            }
        }
    }

    /// How many pairs a scan of all keys finds, as `count` does of some.
    pub fn len<R: Wait>(&mut self, rt: &R) -> u64
        ensures count { Counts 0 (2 ^ 64) result self.old self.new }
        ensures saw { Saw self.old self.new }
    {
        self.count(rt, 0, u64::MAX)
    }
}
