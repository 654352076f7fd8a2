//! The pairs of a range, as they are at one moment.
//!
//! Each node that tells of some keys is kept in mind, with the version at which it did. If all of them have these versions after
//! the last was read, then all that they told held at that moment.
ghost use Rattle.std.specs.Prelude.{◌≡◌, ◌+◌, ◌<◌, ◌≤◌, ◌⊎◌, ℕ, [], true, false, length, take, IfErr, IfOk, IfSome};
ghost use Rattle.optimistic.specs.declared.drain.nexts.Pair.{Pair};
ghost use Rattle.optimistic.specs.declared.words.rule.View.{View};
ghost use Rattle.optimistic.specs.words.Calls.{Keeps, Later};
ghost use Rattle.optimistic.specs.words.Kept.{Since};
ghost use Rattle.optimistic.specs.words.Told.{view, IsOf, Looks};
ghost use Rattle.optimistic.specs.declared.tree.whole.Unscanned.TheVariants.{Memory};
ghost use Rattle.optimistic.specs.tree.Alone.{IsDisturbedFrom};
ghost use Rattle.optimistic.specs.tree.Runs.{behind};
ghost use Rattle.optimistic.specs.tree.Sights.{Stood};
ghost use Rattle.optimistic.specs.tree.Trails.{IsTrail};
ghost use Rattle.optimistic.specs.tree.Trees.{IsTree};
ghost use Rattle.optimistic.specs.tree.Wholes.{AreSeen, AreDated, IsSteadfast, HasMoved, HasMore, IfAgain, IsCollected, IsRange, Went, mark_of};

use crate::drain::Pair;
use crate::tree::get::{ATTEMPTS, Tree};
use crate::tree::run::{BUFFER, Run, fewer, put_all};
use crate::tree::trail::Trail;
use crate::words::Hand;
use std::alloc::{AllocError, Global};
use std::hint::spin_loop;
use std::sync::Wait;
use std::thread::yield_now;

/// Why the pairs of one moment weren't told.
#[derive(Clone, Copy, Debug, PartialEq, Eq, Drop)]
pub enum Unscanned {
    /// A writer came between.
    Again,
    /// There was no memory to keep the nodes in mind.
    Memory,
}

/// A node that told of keys, at a version.
#[derive(Clone, Copy, Drop)]
pub struct Mark {
    pub node: usize,
    pub form: u64,
    pub version: u64,
}

/// The key from which on is still to be told, if there is one, and how many pairs stand.
#[derive(Clone, Copy, Drop)]
pub struct Reached {
    pub next: Option<u64>,
    pub count: usize,
}

/// What is to be kept in mind of what a node told.
pub(crate) fn mark_of(run: Run) -> Mark
    ensures { result ≡ mark_of run }
{
    Mark {
        node: run.at.node,
        form: run.at.form,
        version: run.version,
    }
}

/// Whether these are one.
fn are_same(a: Mark, b: Mark) -> bool
    ensures { result ≡ true → a ≡ b }
{
    if a.node != b.node {
        return false;
    }
    if a.form != b.form {
        return false;
    }
    a.version == b.version
}

/// Keeps a node in mind, unless it is the last that was.
pub(crate) fn remember(marks: &mut Vec<Mark>, mark: Mark) -> Result<(), Unscanned>
    ensures more { IfOk result (λ _. HasMore marks.old.items mark marks.new.items) }
    ensures memory { IfErr result (λ e. e ≡ Memory) }
{
    let count = marks.len();
    if count > 0 {
        let same = are_same(marks[count - 1], mark);
        if same {
            return Ok(());
        }
    }
    match marks.push(mark) {
        Ok(()) => Ok(()),
        Err(_) => Err(Unscanned::Memory),
    }
}

impl Tree {
    /// One node more is asked, for as many pairs as there are places.
    fn collect_one(
        &self,
        hand: &mut Hand,
        trail: &mut Trail,
        from: u64,
        last: u64,
        marks: &mut Vec<Mark>,
        pairs: &mut [Pair],
        out: &mut [Pair],
        count: usize,
    ) -> Result<Reached, Unscanned>
        requires of { IsOf self.now.nodes.table.shared.table_id hand.old }
        requires trail { IsTrail trail.old (view hand.old).seen }
        requires order { from ≤ last }
        requires room { count < length out.old }
        requires some { 0 < length pairs.old }
        ensures of { IsOf self.now.nodes.table.shared.table_id hand.new }
        ensures looks { Looks IsTree (view hand.old) (view hand.new) }
        ensures trail { IsTrail trail.new (view hand.new).seen }
        ensures order { IfOk result (λ r. (from < behind last r.next) × IfSome r.next (λ k. k ≤ last) × (r.count ≤ length out.new)) }
        ensures same { length out.new ≡ length out.old }
        ensures buffer { length pairs.new ≡ length pairs.old }
        ensures collected { (start : ℕ) → IsCollected marks.old.items start from (take count out.old) (view hand.old)
            → IfOk result (λ r. IsCollected marks.new.items start (behind last r.next) (take r.count out.new) (view hand.new)) }
        ensures dated { (v : View) → Since v.seen (view hand.old).seen → AreDated marks.old.items v (view hand.old) → IfOk result (λ _. AreDated marks.new.items v (view hand.new)) }
        ensures alone { IfAgain result (IsDisturbedFrom (view hand.old) (view hand.new)) }
    {
        let places = fewer(out.len() - count, pairs.len());
        let Some(run) = self.look_on(hand, trail, from, last, pairs, places) else {
            return Err(Unscanned::Again);
        };
        match remember(marks, mark_of(run)) {
            Ok(()) => {}
            Err(error) => return Err(error),
        }
        put_all(out, count, pairs, run.count);
        Ok(Reached {
            next: run.next,
            count: count + run.count,
        })
    }

    /// The pairs of a range, and the nodes that told of it.
    fn collect(
        &self,
        hand: &mut Hand,
        start: u64,
        last: u64,
        marks: &mut Vec<Mark>,
        out: &mut [Pair],
    ) -> Result<usize, Unscanned>
        requires of { IsOf self.now.nodes.table.shared.table_id hand.old }
        requires order { start ≤ last }
        requires none { marks.old.items ≡ [] }
        requires room { 0 < length out.old }
        ensures of { IsOf self.now.nodes.table.shared.table_id hand.new }
        ensures looks { Looks IsTree (view hand.old) (view hand.new) }
        ensures same { length out.new ≡ length out.old }
        ensures collected { IfOk result (λ n. (n ≤ length out.old) × ((next : ℕ) × IsCollected marks.new.items start next (take n out.new) (view hand.new)
            × ((next ≡ last + 1) ⊎ ((next ≤ last + 1) × (n ≡ length out.old))))) }
        ensures dated { IfOk result (λ _. AreDated marks.new.items (view hand.old) (view hand.new)) }
        ensures alone { IfAgain result (IsDisturbedFrom (view hand.old) (view hand.new)) }
    {
        let mut trail = self.trail(hand);
        let mut pairs = [Pair { key: 0, value: 0 }; BUFFER];
        let mut reached = self.collect_one(
            hand, &mut trail, start, last, marks, &mut pairs, out, 0,
        )?;
        loop {
            let Some(from) = reached.next else {
                return Ok(reached.count);
            };
            if reached.count == out.len() {
                return Ok(reached.count);
            }
            let more = self.collect_one(
                hand,
                &mut trail,
                from,
                last,
                marks,
                &mut pairs,
                out,
                reached.count,
            );
            match more {
                Ok(next) => reached = next,
                Err(error) => return Err(error),
            }
        }
    }

    /// Whether each node that is kept in mind still has its version.
    pub(crate) fn are_still(&self, hand: &mut Hand, marks: &[Mark]) -> bool
        requires of { IsOf self.now.nodes.table.shared.table_id hand.old }
        requires seen { AreSeen marks.now (view hand.old) }
        ensures of { IsOf self.now.nodes.table.shared.table_id hand.new }
        ensures went { Went (view hand.old) (view hand.new) }
        ensures still { result ≡ true → IsSteadfast marks.now (view hand.old).seen }
        ensures moved { result ≡ false → HasMoved marks.now (view hand.new) }
    {
        for i in 0..marks.len() {
            let mark = marks[i];
            let version = self.nodes.load(hand, mark.node, mark.form, 0);
            if version != mark.version {
                return false;
            }
        }
        true
    }

    /// The pairs of a range, as they are at one moment, if no writer comes between.
    pub fn try_whole(
        &self,
        hand: &mut Hand,
        start: u64,
        last: u64,
        marks: &mut Vec<Mark>,
        out: &mut [Pair],
    ) -> Result<usize, Unscanned>
        requires of { IsOf self.now.nodes.table.shared.table_id hand.old }
        requires order { start ≤ last }
        requires room { 0 < length out.old }
        ensures of { IsOf self.now.nodes.table.shared.table_id hand.new }
        ensures keeps { Keeps (view hand.old) (view hand.new) }
        ensures mine { (view hand.new).mine ≡ (view hand.old).mine }
        ensures since { Since (view hand.old).seen (view hand.new).seen }
        ensures same { length out.new ≡ length out.old }
        ensures whole { IfOk result (λ n. Stood (λ log. IsRange log start (last + 1) (length out.old) (take n out.new)) (view hand.old) (view hand.new)) }
        ensures count { IfOk result (λ n. n ≤ length out.new) }
        ensures alone { IfAgain result (IsDisturbedFrom (view hand.old) (view hand.new)) }
    {
        marks.clear();
        let count = self.collect(hand, start, last, marks, out)?;
        let still = self.are_still(hand, marks);
        if still {
            Ok(count)
        } else {
            Err(Unscanned::Again)
        }
    }

    /// The same, some times where a writer comes between.
    fn whole_soon(
        &self,
        hand: &mut Hand,
        start: u64,
        last: u64,
        marks: &mut Vec<Mark>,
        out: &mut [Pair],
    ) -> Result<usize, Unscanned>
        requires of { IsOf self.now.nodes.table.shared.table_id hand.old }
        requires order { start ≤ last }
        requires room { 0 < length out.old }
        ensures of { IsOf self.now.nodes.table.shared.table_id hand.new }
        ensures later { Later (view hand.old) (view hand.new) }
        ensures mine { (view hand.new).mine ≡ (view hand.old).mine }
        ensures since { Since (view hand.old).seen (view hand.new).seen }
        ensures same { length out.new ≡ length out.old }
        ensures keeps { IfOk result (λ _. Keeps (view hand.old) (view hand.new)) }
        ensures whole { IfOk result (λ n. Stood (λ log. IsRange log start (last + 1) (length out.old) (take n out.new)) (view hand.old) (view hand.new)) }
        ensures count { IfOk result (λ n. n ≤ length out.new) }
        ensures alone { IfAgain result (IsDisturbedFrom (view hand.old) (view hand.new)) }
    {
        for _attempt in 0..ATTEMPTS {
            match self.try_whole(hand, start, last, marks, out) {
                Ok(count) => return Ok(count),
                Err(Unscanned::Again) => spin_loop(),
                Err(Unscanned::Memory) => return Err(Unscanned::Memory),
            }
        }
        Err(Unscanned::Again)
    }

    /// The pairs of a range, as they were at one moment within the call.
    pub fn whole<R: Wait>(
        &self,
        rt: &R,
        hand: &mut Hand,
        alloc: Global,
        start: u64,
        last: u64,
        out: &mut [Pair],
    ) -> Result<usize, AllocError>
        requires of { IsOf self.now.nodes.table.shared.table_id hand.old }
        requires order { start ≤ last }
        requires room { 0 < length out.old }
        ensures of { IsOf self.now.nodes.table.shared.table_id hand.new }
        ensures later { Later (view hand.old) (view hand.new) }
        ensures mine { (view hand.new).mine ≡ (view hand.old).mine }
        ensures whole { IfOk result (λ n. Stood (λ log. IsRange log start (last + 1) (length out.old) (take n out.new)) (view hand.old) (view hand.new)) }
        ensures count { IfOk result (λ n. n ≤ length out.new) }
    {
        let mut marks = Vec::new(alloc);
        for _ in rt.forever() {
            match self.whole_soon(hand, start, last, &mut marks, out) {
                Ok(count) => return Ok(count),
                Err(Unscanned::Again) => yield_now(),
                Err(Unscanned::Memory) => return Err(AllocError),
            }
        }
        unreachable!()
    }
}
