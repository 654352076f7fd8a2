//! The desk.
ghost use Rattle.std.specs.Prelude.{◌≡◌};

use crate::desk::rule::{Fact, Lending};
use atomic_table::Table;
use std::alloc::Global;

/// Has the value while no caller has it.
#[derive(Drop)]
pub struct Desk<T, K, F: Fact<T, K>> {
    pub(crate) table: Table<Option<T>, K, K, Lending<F>, Global>,
    ghost sized: { (table.shared.table_id.words ≡ 1) × (table.shared.table_id.slots ≡ 1) },
}
