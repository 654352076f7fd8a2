//! A scan beside a writing call, in every order of their steps and with the whole call between any two of the scan's: its
//! list is one that a scan promises.

use super::drawn::number_in;
use super::flights::Flight;
use super::one_map::{journal_of, value_at};
use super::orders::{CELLS, Course, Ground, LONG, Pair, Plays, Turn, lengths, single};
use super::told::Standing;
use super::{call, discard, is_done, open};
use crate::tests::asserts::assert_same;
use crate::tests::texts::{array, call_of, named, pairs, part};
use joint::Op;
use judge::{Call, Verdict, check};
use std::alloc::Global;
use std::test::Fail;

/// A scan beside a call: the numbers of its range; the call; the pairs before it and after it; how many steps the scan takes alone,
/// and the call, and how many of the call's come before the scan's: they lock and change no node of the tree, nor does a scan, so
/// they do the same wherever they come; and how many of its last steps come as one turn, where it isn't one: they mark and hand
/// over what nobody finds any more.
const CASES: [&str; 14] = [
    // The call puts a value there, or another one.
    "an insertion into the root: 0 9 2; insert 5 5; ; 5:5; 3 7 0",
    "an insertion into a leaf: 1 4 2; insert 2 2; 1:1 3:3; 1:1 2:2 3:3; 9 10 7",
    "an insertion into a leaf that has no key of the range: 2 9 2; insert 2 2; 1:1; 1:1 2:2; 8 10 7",
    "an insertion at a key that is there: 1 3 2; insert 2 9; 1:1 2:2; 1:1 2:9; 9 10 7",
    "an exchange: 1 3 1; cas 1 1 9; 1:1 2:2; 1:9 2:2; 7 9 4",
    // It changes the tree's nodes, or takes a value out.
    "a growth: 0 9 1; insert 0 9; 1:1 2:2 3:3 4:4; 0:9 1:1 2:2 3:3 4:4; 7 13 7",
    "a split: 0 999 1; insert 1 9; 256:256; 1:9 256:256; 7 13 8",
    "a removal of one of several values: 0 9 1; remove 1; 1:1 2:2 3:3; 2:2 3:3; 7 9 4",
    "a removal of a leaf: 0 18446744073709551615 1; remove 1; 1:1 72057594037927936:7; 72057594037927936:7; 7 12 6",
    "a removal of a leaf and the node above, before the scan's key: 256 999 1; remove 1; 1:1 256:256; 256:256; 10 18 9; 5",
    "a removal of a leaf and the node above, with the scan's key: 0 999 1; remove 1; 1:1 256:256; 256:256; 10 18 9; 5",
    // The same beside longer scans, from the step on at which the call may take its first lock.
    "a split below the keys of a scan: 0 999 2; insert 1 9; 256:256 257:257; 1:9 256:256 257:257; 9 13 8",
    "a split above the keys of a scan: 0 999 2; insert 256 9; 1:1; 1:1 256:9; 10 13 8",
    "a removal of one of several values: 0 9 4; remove 2; 1:1 2:2 3:3; 1:1 3:3; 14 9 6",
];

/// Scans of more than one leaf, which a change of each kind makes begin anew.
const CHANGES: [&str; 7] = [
    "an insertion: 0 999 4; insert 2 9; 1:1 3:3 300:300; 1:1 2:9 3:3 300:300; 24 14 0",
    "a growth: 2 999 4; insert 5 9; 1:1 2:2 3:3 4:4 300:300; 1:1 2:2 3:3 4:4 5:9 300:300; 21 17 0",
    "a split: 1 18446744073709551615 4; insert 256 9; 1:1 2:2 72057594037927936:7; \
     1:1 2:2 256:9 72057594037927936:7; 19 13 0",
    "a removal: 0 18446744073709551615 4; remove 2; 1:1 2:2 3:3 72057594037927936:7; \
     1:1 3:3 72057594037927936:7; 18 9 0",
    "a removal of a leaf: 0 999 4; remove 256; 1:1 256:256 513:513; 1:1 513:513; 29 15 0",
    "a removal of a leaf and the node above: 0 999 4; remove 1; 1:1 256:256 257:257; 256:256 257:257; 24 18 0",
    "an exchange: 0 999 4; cas 2 2 9; 1:1 2:2 300:300; 1:1 2:9 300:300; 24 12 0",
];

/// The keys from `start` to before `end`, into so many places at most.
#[derive(Clone, Copy)]
struct Range {
    start: u64,
    end: u64,
    size: usize,
}

/// A scan, call 0, and a writing call, 1, on a small tree.
#[derive(Drop)]
struct Case {
    range: Range,
    calls: [Flight; 2],
    /// The pairs that are there before the writing call takes effect, and after it.
    ground: Ground,
    after: Vec<(u64, u64)>,
    /// How many steps each takes alone.
    steps: [u32; 2],
    /// How many of the writing call's come before the scan's.
    ahead: u32,
    /// How many of its last ones come as one turn.
    last: u32,
}

/// A case of a table's line.
fn case_of(alloc: Global, text: &str) -> Result<Case, Fail> {
    let [start, end, size] = array::<3>(part(text, 0))?;
    let [scan, write, ahead] = array::<3>(part(text, 4))?;
    let size = usize::try_from(size)?;
    let call = call_of(alloc, part(text, 1))?;
    Ok(Case {
        range: Range { start, end, size },
        calls: [
            Flight::scan(0, Op::Range(start, end, size)),
            Flight::on_key(1, call),
        ],
        ground: Ground {
            cells: CELLS,
            pairs: pairs(alloc, part(text, 2))?,
            gone: Vec::new(alloc),
        },
        after: pairs(alloc, part(text, 3))?,
        steps: [u32::try_from(scan)?, u32::try_from(write)?],
        ahead: u32::try_from(ahead)?,
        last: match part(text, 5) {
            "" => 1,
            last => last.parse::<u32>()?,
        },
    })
}

/// Whether the pairs ascend within the range, and no more than its places.
fn are_within(pairs: &[(u64, u64)], range: Range) -> bool {
    let mut least = range.start;
    for (key, _) in pairs {
        if *key < least || range.end <= *key {
            return false;
        }
        least = key.saturating_add(1);
    }
    pairs.len() <= range.size
}

fn are_below(pairs: &[(u64, u64)], key: u64) -> bool {
    for (at, _) in pairs {
        if *at >= key {
            return false;
        }
    }
    true
}

/// Whether a scan that told these pairs may leave a key out: it is no key of the range, or smaller ones fill all places.
fn is_past(key: u64, pairs: &[(u64, u64)], range: Range) -> bool {
    let is_asked = range.start <= key && key < range.end;
    !is_asked || pairs.len() == range.size && are_below(pairs, key)
}

impl Case {
    /// Whether a key is told as a scan promises: with a value that stood at a step of it, or left out if it didn't stand at each of
    /// them.
    fn is_right_at(&self, key: u64, pairs: &[(u64, u64)], scan: &Flight) -> bool {
        let before = value_at(&self.ground.pairs, key);
        let after = value_at(&self.after, key);
        let told = value_at(pairs, key);
        if told.is_some() {
            scan.saw_before && told == before || scan.saw_after && told == after
        } else {
            scan.saw_before && before.is_none()
                || scan.saw_after && after.is_none()
                || is_past(key, pairs, self.range)
        }
    }

    fn promises(&self, pairs: &[(u64, u64)], scan: &Flight) -> bool {
        for stood in [self.ground.pairs.as_slice(), self.after.as_slice(), pairs] {
            for (key, _) in stood {
                if !self.is_right_at(*key, pairs, scan) {
                    return false;
                }
            }
        }
        are_within(pairs, self.range)
    }

    /// Whether the writing call took effect once, and answered as a map with the pairs before it.
    fn is_answered(&self, alloc: Global, write: &Flight) -> Result<bool, Fail> {
        let Some(entry) = write.entry() else {
            return Ok(false);
        };
        let mut journal = journal_of(alloc, &self.ground)?;
        journal.push(entry)?;
        Ok(check(alloc, &journal)? == Verdict::Legal)
    }

    /// The scan by these turns, if it has ended with the pairs that it promises, and the writing call with its reply.
    fn flown(&self, alloc: Global, plan: &[Turn]) -> Result<Option<Flight>, Fail> {
        let mut pair = Pair::on(alloc, &self.ground, self.calls)?;
        pair.fly(plan);
        let [scan, write] = pair.end();
        let Standing::Scanned(count) = scan.standing else {
            return Ok(None);
        };
        let pairs = scan.found.get(..count).ok_or("more pairs than places")?;
        let is_right = self.promises(pairs, &scan) && self.is_answered(alloc, &write)?;
        Ok(if is_right { Some(scan) } else { None })
    }
}

impl Plays for Case {
    fn goes(&self, alloc: Global, plan: &[Turn]) -> Result<bool, Fail> {
        Ok(self.flown(alloc, plan)?.is_some())
    }
}

/// Both calls go on to their ends.
const ENDS: [Turn; 2] = [Turn::Go(1, LONG), Turn::Go(0, LONG)];

/// Whether both are right in every order of their turns, or in one of so many, behind the first steps of the writing call.
fn are_orders_right(alloc: Global, case: &Case, every: u32) -> Result<bool, Fail> {
    let [scan, write] = case.steps;
    let left = write.saturating_sub(case.ahead).saturating_sub(case.last);
    let [scan, before] = single(scan, left);
    let mut steps = Vec::new(alloc);
    steps.extend_from_slice(before)?;
    steps.push(u64::from(case.last))?;
    let head = [Turn::Begin(1), Turn::Go(1, case.ahead), Turn::Begin(0)];
    let course = Course {
        head: &head,
        sweeps: false,
        tail: &ENDS,
    };
    let turns = [scan, steps.as_slice()];
    let all = course.right_orders(alloc, turns, case, every)?;
    Ok(all.is_some())
}

/// The scan with the whole call after so many of its steps, and with collections after the call.
fn cut(steps: u32) -> [Turn; 6] {
    [
        Turn::Begin(0),
        Turn::Go(0, steps),
        Turn::Begin(1),
        Turn::Go(1, LONG),
        Turn::Rounds(1),
        Turn::Go(0, LONG),
    ]
}

/// Whether both are right with the call after any of the scan's steps, and it makes the scan tell a place again.
fn begins_anew(alloc: Global, case: &Case) -> Result<bool, Fail> {
    let [scan, _] = case.steps;
    let mut again = false;
    for steps in 1..scan {
        match case.flown(alloc, &cut(steps))? {
            Some(scan) => again |= scan.again,
            None => return Ok(false),
        }
    }
    Ok(again)
}

/// Both take as many steps as they should, and are right in every order of these; or wherever the scan is cut, which begins anew.
#[test]
fn a_scan_beside_a_writing_call(rt: HostRuntime) -> Result<(), Fail> {
    let every = number_in(&rt, "TRIAL_ORDERS", 61);
    for (table, cuts) in [(CASES.as_slice(), false), (CHANGES.as_slice(), true)] {
        for text in table {
            let (name, text) = named(*text)?;
            let case = case_of(rt.alloc(), text)?;
            let steps = lengths(rt.alloc(), &case.ground, case.calls)?;
            let is_right = if cuts {
                begins_anew(rt.alloc(), &case)?
            } else {
                are_orders_right(rt.alloc(), &case, every)?
            };
            assert_same(&rt, (name, steps, is_right), (name, case.steps, true));
        }
    }
    Ok(())
}

/// A whole scan fills its places with the first pairs of its range.
#[test]
fn a_whole_scan_fills_its_places(rt: HostRuntime) -> Result<(), Fail> {
    let mut index = open(rt.alloc(), 1, 100)?;
    is_done(&mut index, 0, Op::Pin);
    for key in [1, 2, 256] {
        call(&mut index, 0, Call::Insert(key, key));
    }
    let mut places = [(0, 0); 2];
    let found = index.scan(0, 2, 256, 100, &mut places);
    discard(index);
    assert_same(&rt, (found, places), (Some(2), [(2, 2), (256, 256)]));
    Ok(())
}
