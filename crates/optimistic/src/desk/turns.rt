//! How threads come, take the value and give it back.
ghost use Rattle.std.specs.Prelude.{◌≡◌, IfOk, MatchOption};
ghost use Rattle.optimistic.specs.desk.Turns.{IsCaller, HasIt};

use crate::desk::place::Desk;
use crate::desk::rule::{Arrive, Caller, Fact, Give, Take};
use atomic_table::Table;
use std::alloc::{AllocError, Global};

impl<T: Drop, K, F: Fact<T, K>> Desk<T, K, F> {
    /// A desk with this value.
    pub fn new(alloc: Global, value: T, key: &K) -> Result<Self, AllocError>
        requires { F.tells key.now value }
        ensures { IfOk result (λ d. d.table.shared.key ≡ key.now) }
    {
        let mut values = Vec::with_capacity(alloc, 1)?;
        values.push(Some(value))?;
        match Table::new(alloc, &[0u64], values, key) {
            Ok((table, _caller)) => Ok(Desk { table }),
            Err(_) => Err(AllocError),
        }
    }

    /// A caller that doesn't have the value.
    pub fn caller(&self) -> Caller<T, K>
        ensures { IsCaller self.now result }
    {
        self.table.shared.load_new_seat::<Arrive>(0).1
    }

    /// Takes the value, if nobody has it.
    pub fn take(&self, caller: &mut Caller<T, K>) -> Option<T>
        requires { IsCaller self.now caller.old }
        ensures { MatchOption result (IsCaller self.now caller.new) (λ x. HasIt self.now caller.new × F.tells self.now.table.shared.key x) }
    {
        let found = self
            .table
            .shared
            .compare_exchange::<Take<F>>(caller, 0, 0, 1);
        if found != 0 {
            return None;
        }
        self.table.shared.exchange(caller, 0, None)
    }

    /// Gives a value back.
    pub fn give(&self, caller: &mut Caller<T, K>, value: T)
        requires has { HasIt self.now caller.old }
        requires tells { F.tells self.now.table.shared.key value }
        ensures { IsCaller self.now caller.new }
    {
        self.table.shared.exchange(caller, 0, Some(value));
        self.table.shared.store::<Give>(caller, 0, 0);
    }
}
