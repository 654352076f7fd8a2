//! Ranges from the greatest key down, of the index for keys and values of eight bytes.
ghost use Rattle.std.specs.Prelude.{◌≡◌, ◌+◌, ◌≤◌, length, take, drop, IfOk};
ghost use Rattle.optimistic.specs.face.Calls.{Saw};
ghost use Rattle.optimistic.specs.face.ScansBack.{IsScanBack, RangeBackAtOnce};
ghost use Rattle.optimistic.specs.face.WalksBack.{IsStepBack};
ghost use Rattle.optimistic.specs.face.Words.{As, pair_words};

use crate::drain::Pair;
use crate::face::congee::{WordWorker, pair_words};
use crate::face::walk_back::WalkBack;
use crate::tree::Unscanned;
use judge::Word64;
use std::alloc::{AllocError, Global};
use std::sync::Wait;

impl<'t, K: Word64, V: Word64> WordWorker<'t, K, V> {
    /// Writes pairs with start <= key < end into `out`, as words, descending, and gives their number. Each stood at a moment
    /// within the call, and these moments rise from pair to pair as written. A key that stood throughout the call is there, unless
    /// the places are filled with higher keys. The places past those that are written stay as they were.
    pub fn range_rev<R: Wait>(&mut self, rt: &R, start: &K, end: &K, out: &mut [Pair]) -> usize
        ensures scan { IsScanBack (K.word start.now) (K.word end.now) (length out.old) self.old self.new (take result out.new) }
        ensures count { result ≤ length out.new }
        ensures saw { Saw self.old self.new }
        ensures past { drop result out.new ≡ drop result out.old }
    {
        self.worker
            .range_rev(rt, start.to_word(), end.to_word(), out)
    }

    /// The same of start <= key <= last.
    pub fn range_rev_inclusive<R: Wait>(
        &mut self,
        rt: &R,
        start: &K,
        last: &K,
        out: &mut [Pair],
    ) -> usize
        ensures scan { IsScanBack (K.word start.now) (K.word last.now + 1) (length out.old) self.old self.new (take result out.new) }
        ensures count { result ≤ length out.new }
        ensures saw { Saw self.old self.new }
        ensures past { drop result out.new ≡ drop result out.old }
    {
        self.worker
            .range_rev_inclusive(rt, start.to_word(), last.to_word(), out)
    }

    /// Writes the pairs with start <= key < end into `out`, as words, descending, and gives their number: all that stood at one
    /// moment within the call, or as many as there are places, the greatest. An error tells that a writer came between, or that
    /// there was no memory; what the places hold then, and what those hold that are past the pairs, isn't told.
    pub fn try_range_rev_at_once(
        &mut self,
        alloc: Global,
        start: &K,
        end: &K,
        out: &mut [Pair],
    ) -> Result<usize, Unscanned>
        ensures range { IfOk result (λ n. RangeBackAtOnce (K.word start.now) (K.word end.now) (length out.old) (take n out.new) self.old self.new) }
        ensures count { IfOk result (λ n. n ≤ length out.new) }
        ensures saw { Saw self.old self.new }
    {
        self.worker
            .try_range_rev_at_once(alloc, start.to_word(), end.to_word(), out)
    }

    /// The same of start <= key <= last.
    pub fn try_range_rev_inclusive_at_once(
        &mut self,
        alloc: Global,
        start: &K,
        last: &K,
        out: &mut [Pair],
    ) -> Result<usize, Unscanned>
        ensures range { IfOk result (λ n. RangeBackAtOnce (K.word start.now) (K.word last.now + 1) (length out.old) (take n out.new) self.old self.new) }
        ensures count { IfOk result (λ n. n ≤ length out.new) }
        ensures saw { Saw self.old self.new }
    {
        self.worker
            .try_range_rev_inclusive_at_once(alloc, start.to_word(), last.to_word(), out)
    }

    /// Writes the pairs with start <= key < end into `out`, as `try_range_rev_at_once` does, again where a writer comes between.
    pub fn range_rev_at_once<R: Wait>(
        &mut self,
        rt: &R,
        alloc: Global,
        start: &K,
        end: &K,
        out: &mut [Pair],
    ) -> Result<usize, AllocError>
        ensures range { IfOk result (λ n. RangeBackAtOnce (K.word start.now) (K.word end.now) (length out.old) (take n out.new) self.old self.new) }
        ensures count { IfOk result (λ n. n ≤ length out.new) }
        ensures saw { Saw self.old self.new }
    {
        self.worker
            .range_rev_at_once(rt, alloc, start.to_word(), end.to_word(), out)
    }

    /// The same of start <= key <= last.
    pub fn range_rev_inclusive_at_once<R: Wait>(
        &mut self,
        rt: &R,
        alloc: Global,
        start: &K,
        last: &K,
        out: &mut [Pair],
    ) -> Result<usize, AllocError>
        ensures range { IfOk result (λ n. RangeBackAtOnce (K.word start.now) (K.word last.now + 1) (length out.old) (take n out.new) self.old self.new) }
        ensures count { IfOk result (λ n. n ≤ length out.new) }
        ensures saw { Saw self.old self.new }
    {
        self.worker
            .range_rev_inclusive_at_once(rt, alloc, start.to_word(), last.to_word(), out)
    }

    /// The pair before, of a walk that goes back, or `None` if there is none down to its first key, as it was at one moment within
    /// the call. After `None` there is none any more.
    pub fn step_back<R: Wait>(&mut self, rt: &R, walk: &mut WalkBack) -> Option<(K, V)>
        ensures { As (λ r. IsStepBack walk.old r walk.new self.old self.new) (pair_words K.of_word V.of_word) result }
    {
        pair_words(self.worker.step_back(rt, walk))
    }
}
