//! Which versions nobody sees any more, and how they go.
ghost use Rattle.std.specs.Prelude.{◌≡◌, ◌≤◌, ◌/◌, ◌^◌, IfSome};
ghost use Rattle.trial.specs.Versions.{Keeps};

use crate::examples::versions::keys::{Version, Written};
use congee::{Allocator, Congee};

/// Versions under their keys.
pub type Versions<A> = Congee<Version, Written, A>;

/// Takes out the versions of a row behind which it has one of this stamp or before, and gives their number.
fn vacuum_row<A: Allocator>(versions: &mut Versions<A>, row: u32, oldest: u32) -> u64
    ensures keeps { Keeps oldest versions.old.pairs versions.new.pairs }
    ensures base { versions.new.base ≡ versions.old.base }
{
    let first = Version { row, stamp: 0 };
    let last = Version { row, stamp: oldest };
    match versions.last_in(first..=last) {
        Some((seen, _)) => versions.remove_range(&first, &seen) as u64,
        None => 0,
    }
}

/// The least row from this one on that has a version.
fn row_from<A: Allocator>(versions: &Versions<A>, row: u32) -> Option<u32>
    ensures { IfSome result (λ r. row ≤ r) }
{
    match versions.at_or_after(&Version { row, stamp: 0 }) {
        Some((found, _)) => Some(found.row),
        None => None,
    }
}

/// The same of each row.
pub fn vacuum_rows<A: Allocator>(versions: &mut Versions<A>, oldest: u32) -> u64
    ensures keeps { Keeps oldest versions.old.pairs versions.new.pairs }
    ensures base { versions.new.base ≡ versions.old.base }
{
    let mut removed = 0u64;
    let mut row = 0;
    while let Some(next) = row_from(versions, row) {
        removed = removed.saturating_add(vacuum_row(versions, next, oldest));
        if next == u32::MAX {
            break;
        }
        row = next + 1;
    }
    removed
}
