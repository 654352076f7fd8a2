//! The cells: values under names, each cell used again under its next turn.

ghost use Rattle.std.specs.Prelude.{◌≡◌, ◌<◌, ◌≤◌, ℕ, IsTrue, length, true, false, None, Some, IfOk, IfErr, MatchResult, is_some, if◌then◌else◌};
ghost use Rattle.std.specs.Option.{option_copied};
ghost use Rattle.crossbeam_epoch.specs.world.Store.{value_at, cell_at, IsNext, placed, emptied, replaced, is_usable, opened_store};

use crate::names::Name;
use std::alloc::{AllocError, Global};
use std::marker::Model;
use std::mem;

/// A cell: how many values it was given so far, and the one that stands in it.
#[derive(Drop)]
pub struct Cell<T> {
    pub turns: u64,
    pub value: Option<T>,
}

/// The cells, and the numbers of those that are free again.
#[derive(Drop)]
pub struct Cells<T> {
    cells: Vec<Cell<T>>,
    free: Vec<u32>,
    most: u32,
    turn_max: u32,
}

impl<T> Model for Cells<T> {
    ghost use Rattle.std.specs.Prelude.{◌≤◌, vec_capacity};
    ghost use Rattle.crossbeam_epoch.specs.world.Store.{Store};
    ghost use Rattle.crossbeam_epoch.specs.world.Free.{FitsFree};

    ghost Value = { Store T };

    ghost view = { λ c. record { cells = c.cells.items; most = c.most; turn_max = c.turn_max } };

    ghost invariant = { λ c. FitsFree c.cells.items c.free.items c.most c.turn_max × (c.most ≤ vec_capacity c.cells) × (c.most ≤ vec_capacity c.free) };
}

impl<T: Drop> Cells<T> {
    /// So many cells, whose room is made here, each for `turn_max` + 1 values.
    pub fn new(alloc: Global, most: u32, turn_max: u32) -> Result<Cells<T>, AllocError>
        ensures { IfOk result (λ c. c ≡ opened_store most turn_max) }
    {
        let cells = Vec::with_capacity(alloc, most as usize)?;
        let free = Vec::with_capacity(alloc, most as usize)?;
        Ok(Cells {
            cells,
            free,
            most,
            turn_max,
        })
    }

    /// The value of a name that isn't destroyed.
    pub fn get(&self, name: Name) -> Option<&T>
        ensures { option_copied result ≡ value_at self.now name }
    {
        match self.cells.get(name.cell as usize) {
            Some(cell) if cell.turns == name.turn as u64 + 1 => cell.value.as_ref(),
            _ => None,
        }
    }

    /// Puts a value into a usable cell, or hands it back where there is none.
    pub fn place(&mut self, value: T) -> Result<Name, T>
        ensures ok { IfOk result (λ name. IsNext self.old name × (self.new ≡ placed self.old name value)) }
        ensures back { IfErr result (λ v. (v ≡ value) × (self.new ≡ self.old)) }
        ensures full { IfErr result (λ v. (i : ℕ) → is_usable self.old i ≡ false) }
    {
        if let Some(at) = self.free.pop() {
            let cell = &mut self.cells[at as usize];
            let turn = cell.turns as u32;
            cell.turns += 1;
            cell.value = Some(value);
            return Ok(Name { cell: at, turn });
        }
        if self.cells.len() >= self.most as usize {
            return Err(value);
        }
        let cell = self.cells.len() as u32;
        self.cells.push_reserved(Cell {
            turns: 1,
            value: Some(value),
        });
        Ok(Name { cell, turn: 0 })
    }

    /// Whether some cell is usable.
    pub fn has_room(&self) -> bool
        ensures some { IsTrue result → (i : ℕ) × (is_usable self.now i ≡ true) }
        ensures none { result ≡ false → (i : ℕ) → is_usable self.now i ≡ false }
    {
        if !self.free.is_empty() {
            return true;
        }
        if self.cells.len() < self.most as usize {
            return true;
        }
        false
    }

    /// Whether the name isn't destroyed.
    fn stands(&self, name: Name) -> bool
        ensures value { result ≡ is_some (value_at self.now name) }
        ensures inside { IsTrue result → name.cell < length self.now.cells }
        ensures cell { IsTrue result → (cell_at self.now name.cell).value ≡ value_at self.now name }
    {
        match self.cells.get(name.cell as usize) {
            Some(cell) => cell.turns == name.turn as u64 + 1 && cell.value.is_some(),
            None => false,
        }
    }

    /// Takes out the value of a name that isn't destroyed; its cell is free again, if it has a turn left.
    pub fn take(&mut self, name: Name) -> Option<T>
        ensures value { result ≡ value_at self.old name }
        ensures cells { self.new ≡ (if is_some (value_at self.old name) then emptied self.old name.cell else self.old) }
    {
        if !self.stands(name) {
            return None;
        }
        let cell = &mut self.cells[name.cell as usize];
        if cell.turns > self.turn_max as u64 {
            return mem::replace(&mut cell.value, None);
        }
        let value = mem::replace(&mut cell.value, None);
        self.free.push_reserved(name.cell);
        value
    }

    /// Gives a name that isn't destroyed another value, and answers the old one.
    pub fn replace(&mut self, name: Name, value: T) -> Result<T, T>
        ensures ok { IfOk result (λ v. (value_at self.old name ≡ Some v) × (self.new ≡ replaced self.old name.cell value)) }
        ensures err { IfErr result (λ v. (value_at self.old name ≡ None) × (v ≡ value) × (self.new ≡ self.old)) }
    {
        if !self.stands(name) {
            return Err(value);
        }
        let cell = &mut self.cells[name.cell as usize];
        Ok(mem::replace(&mut cell.value, Some(value)).unwrap())
    }
}
