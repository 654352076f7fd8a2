//! A worker's ranges as they are at one moment.
//!
//! For each node that told of the range its version is kept in mind until all are told, which wants memory: three words for each
//! node.
ghost use Rattle.std.specs.Prelude.{◌+◌, ◌≤◌, length, take, IfOk};
ghost use Rattle.optimistic.specs.face.Calls.{Saw};
ghost use Rattle.optimistic.specs.face.Scans.{RangeAtOnce};
ghost use Rattle.optimistic.specs.tree.Alone.{IsDisturbedIn};
ghost use Rattle.optimistic.specs.tree.Wholes.{IfAgain};

use crate::drain::Pair;
use crate::face::worker::Worker;
use crate::tree::Unscanned;
use std::alloc::{AllocError, Global};
use std::sync::Wait;

impl<'t> Worker<'t> {
    /// Writes the pairs with start <= key < end into `out`, ascending, and gives their number: all that stood at one moment
    /// within the call, or as many as there are places, the lowest. An error tells that a writer came between, or that there was
    /// no memory; what the places hold then, and what those hold that are past the pairs, isn't told.
    pub fn try_range_at_once(
        &mut self,
        alloc: Global,
        start: u64,
        end: u64,
        out: &mut [Pair],
    ) -> Result<usize, Unscanned>
        ensures range { IfOk result (λ n. RangeAtOnce start end (length out.old) (take n out.new) self.old self.new) }
        ensures count { IfOk result (λ n. n ≤ length out.new) }
        ensures saw { Saw self.old self.new }
        ensures alone { IfAgain result (IsDisturbedIn self.old.moment self.new.moment) }
    {
        match end.checked_sub(1) {
            Some(last) => self.try_range_inclusive_at_once(alloc, start, last, out),
            None => Ok(0),
        }
    }

    /// The same of start <= key <= last.
    pub fn try_range_inclusive_at_once(
        &mut self,
        alloc: Global,
        start: u64,
        last: u64,
        out: &mut [Pair],
    ) -> Result<usize, Unscanned>
        ensures range { IfOk result (λ n. RangeAtOnce start (last + 1) (length out.old) (take n out.new) self.old self.new) }
        ensures count { IfOk result (λ n. n ≤ length out.new) }
        ensures saw { Saw self.old self.new }
        ensures alone { IfAgain result (IsDisturbedIn self.old.moment self.new.moment) }
    {
        if start > last {
            return Ok(0);
        }
        let places = out.len();
        if places == 0 {
            return Ok(0);
        }
        let mut marks = Vec::new(alloc);
        let count = self
            .tree
            .try_whole(&mut self.hand, start, last, &mut marks, out)?;
        Ok(count)
    }

    /// Writes the pairs with start <= key < end into `out`, as `try_range_at_once` does, again where a writer comes between.
    pub fn range_at_once<R: Wait>(
        &mut self,
        rt: &R,
        alloc: Global,
        start: u64,
        end: u64,
        out: &mut [Pair],
    ) -> Result<usize, AllocError>
        ensures range { IfOk result (λ n. RangeAtOnce start end (length out.old) (take n out.new) self.old self.new) }
        ensures count { IfOk result (λ n. n ≤ length out.new) }
        ensures saw { Saw self.old self.new }
    {
        match end.checked_sub(1) {
            Some(last) => self.range_inclusive_at_once(rt, alloc, start, last, out),
            None => Ok(0),
        }
    }

    /// The same of start <= key <= last.
    pub fn range_inclusive_at_once<R: Wait>(
        &mut self,
        rt: &R,
        alloc: Global,
        start: u64,
        last: u64,
        out: &mut [Pair],
    ) -> Result<usize, AllocError>
        ensures range { IfOk result (λ n. RangeAtOnce start (last + 1) (length out.old) (take n out.new) self.old self.new) }
        ensures count { IfOk result (λ n. n ≤ length out.new) }
        ensures saw { Saw self.old self.new }
    {
        if start > last {
            return Ok(0);
        }
        let places = out.len();
        if places == 0 {
            return Ok(0);
        }
        self.tree.whole(rt, &mut self.hand, alloc, start, last, out)
    }
}
