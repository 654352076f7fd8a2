//! The store's versions for threads, on an index whose readers take no lock: readers with stamps beside one writer that also vacuums.
//!
//! What a reader is told (`read`): what its row showed at its stamp at one moment of the call, by the log of all calls; and if each
//! call that came since the reader last looked spares the row at that stamp, this is what the row showed then already. A call
//! spares a row at a stamp if it is of another row or under a later stamp, as each write under a new stamp is, or takes a version
//! out behind which the row has another up to that stamp. The writer keeps to that: a new stamp for each write, and a
//! vacuum by the oldest stamp that a reader still has. That it does is no clause, since the index can't know its writers.
ghost use Rattle.std.specs.Prelude.{◌≡◌, ℕ, List, ◌++◌, Option, None, Some, OnOk};
ghost use Rattle.judge.specs.Words.{joined};
ghost use Rattle.optimistic.specs.declared.words.rule.Entry.{Entry};
ghost use Rattle.optimistic.specs.face.Calls.{HasCall, Looked};
ghost use Rattle.optimistic.specs.face.Scans.{Once};
ghost use Rattle.trial.specs.Versions.{word_in};
ghost use Rattle.trial.specs.VersionsAtOnce.{Shows, Spare, shown_by};

use crate::examples::versions::keys::{Version, Written};
use optimistic::{Congee, Refusal, WordWorker};
use std::sync::Wait;

/// Versions that threads share.
pub type Shared = Congee<Version, Written>;

/// A thread's hand at them.
pub type Hand<'t> = WordWorker<'t, Version, Written>;

/// What a version says that was found, if it is one of the row.
fn shown(found: Option<(Version, Written)>, row: u32) -> Option<u32>
    ensures { result ≡ shown_by row found }
{
    match found {
        Some((version, written)) if version.row == row => written.value,
        _ => None,
    }
}

/// The value that a row has at a stamp; none where it has no version up to it, or where the last such deleted it.
pub fn read<R: Wait>(rt: &R, hand: &mut Hand<'_>, row: u32, stamp: u32) -> Option<u32>
    ensures saw { Looked hand.old hand.new }
    ensures shown { Once (λ log. Shows log row stamp result) hand.old hand.new }
    ensures stays { (value : Option ℕ) → Shows hand.old.seen row stamp value
        → ((calls : List Entry) → hand.new.seen ≡ hand.old.seen ++ calls → Spare row stamp hand.old.seen calls) → result ≡ value }
{
    let found = hand.at_or_before(rt, &Version { row, stamp });
    shown(found, row)
}

/// Writes a value to a row under a stamp, or deletes the row at none. The stamp is the writer's next one.
#[tactic(auto, using(optimistic::proofs::Laws::call_wrote))]
pub fn write<R: Wait>(
    rt: &R,
    hand: &mut Hand<'_>,
    row: u32,
    stamp: u32,
    value: Option<u32>,
) -> Result<(), Refusal>
    ensures { OnOk result (HasCall (joined row stamp) (Some (word_in value)) hand.new.seen) }
{
    hand.insert(rt, Version { row, stamp }, Written { value })?;
    Ok(())
}

/// Whether the version behind another one hides it from each reader of this stamp or a later one.
fn hides(older: Version, newer: Option<(Version, Written)>, oldest: u32) -> bool {
    match newer {
        Some((newer, _)) => newer.row == older.row && newer.stamp <= oldest,
        None => false,
    }
}

/// Takes out the versions that no reader of this stamp or a later one sees, and gives their number.
pub fn vacuum<R: Wait>(rt: &R, hand: &mut Hand<'_>, oldest: u32) -> Result<u64, Refusal> {
    let mut gone = 0u64;
    let mut found = hand.first(rt);
    for _ in rt.forever() {
        let Some((older, _)) = found else {
            return Ok(gone);
        };
        let newer = hand.next_after(rt, &older);
        if hides(older, newer, oldest) {
            hand.remove(rt, &older)?;
            gone = gone.saturating_add(1);
        }
        found = newer;
    }
    Ok(gone)
}
