//! The pairs of a range, as they are at one moment, from the greatest key down.
//!
//! As from the least key on: each node that tells of some keys is kept in mind, with the version at which it did.
ghost use Rattle.std.specs.Prelude.{◌≡◌, ◌+◌, ◌<◌, ◌≤◌, ◌⊎◌, ℕ, [], length, take, IfOk, IfSome};
ghost use Rattle.optimistic.specs.words.Calls.{Keeps, Later};
ghost use Rattle.optimistic.specs.words.Kept.{Since};
ghost use Rattle.optimistic.specs.words.Told.{view, IsOf, Looks};
ghost use Rattle.optimistic.specs.tree.RunsBack.{lowest};
ghost use Rattle.optimistic.specs.tree.Sights.{Stood};
ghost use Rattle.optimistic.specs.tree.Trails.{IsTrail};
ghost use Rattle.optimistic.specs.tree.Trees.{IsTree};
ghost use Rattle.optimistic.specs.tree.WholesBack.{IsCollectedBack, IsRangeBack};

use crate::drain::Pair;
use crate::tree::get::{ATTEMPTS, Tree};
use crate::tree::run::{BUFFER, fewer, put_all};
use crate::tree::trail::Trail;
use crate::tree::whole::{Mark, Reached, Unscanned, mark_of, remember};
use crate::words::Hand;
use std::alloc::{AllocError, Global};
use std::hint::spin_loop;
use std::sync::Wait;
use std::thread::yield_now;

impl Tree {
    /// One node more is asked, for as many pairs as there are places.
    fn back_collect_one(
        &self,
        hand: &mut Hand,
        trail: &mut Trail,
        from: u64,
        first: u64,
        marks: &mut Vec<Mark>,
        pairs: &mut [Pair],
        out: &mut [Pair],
        count: usize,
    ) -> Result<Reached, Unscanned>
        requires of { IsOf self.now.nodes.table.shared.table_id hand.old }
        requires trail { IsTrail trail.old (view hand.old).seen }
        requires order { first ≤ from }
        requires room { count ≤ length out.old }
        ensures of { IsOf self.now.nodes.table.shared.table_id hand.new }
        ensures looks { Looks IsTree (view hand.old) (view hand.new) }
        ensures trail { IsTrail trail.new (view hand.new).seen }
        ensures order { IfOk result (λ r. (lowest first r.next ≤ from) × IfSome r.next (λ k. first ≤ k) × (r.count ≤ length out.new)) }
        ensures same { length out.new ≡ length out.old }
        ensures buffer { length pairs.new ≡ length pairs.old }
        ensures collected { (to : ℕ) → IsCollectedBack marks.old.items (from + 1) to (take count out.old) (view hand.old)
            → IfOk result (λ r. IsCollectedBack marks.new.items (lowest first r.next) to (take r.count out.new) (view hand.new)) }
    {
        let places = fewer(out.len() - count, pairs.len());
        let Some(run) = self.back_look_by(hand, trail, from, first, pairs, places) else {
            return Err(Unscanned::Again);
        };
        remember(marks, mark_of(run))?;
        put_all(out, count, pairs, run.count);
        Ok(Reached {
            next: run.next,
            count: count + run.count,
        })
    }

    /// The pairs of a range, and the nodes that told of it.
    fn back_collect(
        &self,
        hand: &mut Hand,
        start: u64,
        last: u64,
        marks: &mut Vec<Mark>,
        out: &mut [Pair],
    ) -> Result<usize, Unscanned>
        requires of { IsOf self.now.nodes.table.shared.table_id hand.old }
        requires order { start ≤ last }
        requires none { marks.old.items ≡ [] }
        ensures of { IsOf self.now.nodes.table.shared.table_id hand.new }
        ensures looks { Looks IsTree (view hand.old) (view hand.new) }
        ensures same { length out.new ≡ length out.old }
        ensures collected { IfOk result (λ n. (n ≤ length out.old) × ((low : ℕ) × IsCollectedBack marks.new.items low (last + 1) (take n out.new) (view hand.new)
            × ((low ≡ start) ⊎ ((start ≤ low) × (n ≡ length out.old))))) }
    {
        let mut trail = self.trail(hand);
        let mut pairs = [Pair { key: 0, value: 0 }; BUFFER];
        let mut reached = self.back_collect_one(
            hand, &mut trail, last, start, marks, &mut pairs, out, 0,
        )?;
        loop {
            let Some(from) = reached.next else {
                return Ok(reached.count);
            };
            if reached.count == out.len() {
                return Ok(reached.count);
            }
            reached = self.back_collect_one(
                hand,
                &mut trail,
                from,
                start,
                marks,
                &mut pairs,
                out,
                reached.count,
            )?;
        }
    }

    /// The pairs of a range, as they are at one moment, if no writer comes between.
    pub fn try_whole_back(
        &self,
        hand: &mut Hand,
        start: u64,
        last: u64,
        marks: &mut Vec<Mark>,
        out: &mut [Pair],
    ) -> Result<usize, Unscanned>
        requires of { IsOf self.now.nodes.table.shared.table_id hand.old }
        requires order { start ≤ last }
        requires room { 0 < length out.old }
        ensures of { IsOf self.now.nodes.table.shared.table_id hand.new }
        ensures keeps { Keeps (view hand.old) (view hand.new) }
        ensures mine { (view hand.new).mine ≡ (view hand.old).mine }
        ensures since { Since (view hand.old).seen (view hand.new).seen }
        ensures same { length out.new ≡ length out.old }
        ensures whole { IfOk result (λ n. Stood (λ log. IsRangeBack log start (last + 1) (length out.old) (take n out.new)) (view hand.old) (view hand.new)) }
        ensures count { IfOk result (λ n. n ≤ length out.new) }
    {
        marks.clear();
        let count = self.back_collect(hand, start, last, marks, out)?;
        let still = self.are_still(hand, marks);
        if still {
            Ok(count)
        } else {
            Err(Unscanned::Again)
        }
    }

    /// The same, some times where a writer comes between.
    fn whole_back_soon(
        &self,
        hand: &mut Hand,
        start: u64,
        last: u64,
        marks: &mut Vec<Mark>,
        out: &mut [Pair],
    ) -> Result<usize, Unscanned>
        requires of { IsOf self.now.nodes.table.shared.table_id hand.old }
        requires order { start ≤ last }
        requires room { 0 < length out.old }
        ensures of { IsOf self.now.nodes.table.shared.table_id hand.new }
        ensures later { Later (view hand.old) (view hand.new) }
        ensures mine { (view hand.new).mine ≡ (view hand.old).mine }
        ensures since { Since (view hand.old).seen (view hand.new).seen }
        ensures same { length out.new ≡ length out.old }
        ensures keeps { IfOk result (λ _. Keeps (view hand.old) (view hand.new)) }
        ensures whole { IfOk result (λ n. Stood (λ log. IsRangeBack log start (last + 1) (length out.old) (take n out.new)) (view hand.old) (view hand.new)) }
        ensures count { IfOk result (λ n. n ≤ length out.new) }
    {
        for _ in 0..ATTEMPTS {
            match self.try_whole_back(hand, start, last, marks, out) {
                Ok(count) => return Ok(count),
                Err(Unscanned::Again) => spin_loop(),
                Err(Unscanned::Memory) => return Err(Unscanned::Memory),
            }
        }
        Err(Unscanned::Again)
    }

    /// The pairs of a range, as they were at one moment within the call.
    pub fn whole_back<R: Wait>(
        &self,
        rt: &R,
        hand: &mut Hand,
        alloc: Global,
        start: u64,
        last: u64,
        out: &mut [Pair],
    ) -> Result<usize, AllocError>
        requires of { IsOf self.now.nodes.table.shared.table_id hand.old }
        requires order { start ≤ last }
        requires room { 0 < length out.old }
        ensures of { IsOf self.now.nodes.table.shared.table_id hand.new }
        ensures later { Later (view hand.old) (view hand.new) }
        ensures mine { (view hand.new).mine ≡ (view hand.old).mine }
        ensures whole { IfOk result (λ n. Stood (λ log. IsRangeBack log start (last + 1) (length out.old) (take n out.new)) (view hand.old) (view hand.new)) }
        ensures count { IfOk result (λ n. n ≤ length out.new) }
    {
        let mut marks = Vec::new(alloc);
        for _ in rt.forever() {
            match self.whole_back_soon(hand, start, last, &mut marks, out) {
                Ok(count) => return Ok(count),
                Err(Unscanned::Again) => yield_now(),
                Err(Unscanned::Memory) => return Err(AllocError),
            }
        }
        unreachable!()
    }
}
