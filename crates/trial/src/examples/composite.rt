//! A table whose rows have versions: a key is a row's number and a version's, so one range has all versions of a row.
ghost use Rattle.std.specs.Prelude.{◌≡◌, ℕ, ◌+◌, ◌-◌, ◌/◌, ◌%◌, ◌^◌, IfOk, Option, Some, map};
ghost use Rattle.std.specs.Option.{option_map};
ghost use Rattle.std.specs.FinMap.{entries};
ghost use Rattle.congee.specs.owned.Nearest.{IsGreatestIn, pair_by};
ghost use Rattle.congee.specs.owned.Ranges.{in_range};
ghost use Rattle.judge.specs.Words.{joined};

use congee::{Congee, DefaultAllocator, Iter, OOMError};
use std::alloc::Global;
use std::ops::Bound;

/// Values, each under its row's number and its version's.
pub type Table = Congee<(u32, u32), u64>;

/// A value that was put at a version of a row is found there.
pub fn finds_what_it_puts(
    alloc: Global,
    row: u32,
    version: u32,
    value: u64,
) -> Result<Option<u64>, OOMError>
    ensures { IfOk result (λ found. found ≡ Some value) }
{
    let mut table: Table = Congee::new(alloc, DefaultAllocator::new())?;
    table.insert((row, version), value)?;
    Ok(table.get(&(row, version)))
}

/// The versions of a row with their values, ascending, each once.
pub fn versions(table: &Table, row: u32) -> Iter<'_, (u32, u32), u64>
    ensures { result ≡ map (pair_by (λ n. (n / 2 ^ 32, n % 2 ^ 32)) (λ n. n))
        (in_range (joined row 0) (joined row (2 ^ 32 - 1) + 1) (entries table.now.pairs)) }
{
    table.range_iter((Bound::Included((row, 0)), Bound::Included((row, u32::MAX))))
}

/// The value that a row had as of a version: that of its greatest version up to this one.
pub fn as_of(table: &Table, row: u32, version: u32) -> Option<u64>
    ensures { (found : Option (ℕ × ℕ)) × (result ≡ option_map (λ pair. pair.1) found)
        × IsGreatestIn table.now.pairs (joined row 0) (joined row version + 1) found }
{
    match table.last_in((row, 0)..=(row, version)) {
        Some((_, value)) => Some(value),
        None => None,
    }
}
