//! The cells of a collector.

ghost use Rattle.std.specs.Prelude.{◌≡◌, List, ℕ, IsTrue, true, false, None, Some, IfOk, IfErr, OnErr, MatchResult, ◌∷◌, Contains};
ghost use Rattle.std.specs.Option.{option_copied};
ghost use Rattle.crossbeam_epoch.specs.world.Machine.{with_store};
ghost use Rattle.crossbeam_epoch.specs.world.Store.{value_at, IsNext, placed, emptied, replaced, is_usable};
ghost use Rattle.crossbeam_epoch.specs.declared.names.Name.{Name};
ghost use Rattle.crossbeam_epoch.specs.world.Reach.{Moment, Quiet, GivenBack, HasMoments, WasLive, KeepsLinks, Visible, links_of, NextMoment};

use crate::fault::Fault;
use crate::names::{Links, Name, Pointable};
use crate::task::Task;
use crate::world::World;

impl<T: Links + Pointable + Drop, J: Task> World<T, J> {
    /// Puts a value into a usable cell under a new name; CellsFull, with the value, where no cell is usable.
    pub fn place(&mut self, value: T) -> Result<Name, (Fault, T)>
        ensures ok { IfOk result (λ name. IsNext self.old.store name × (self.new ≡ with_store self.old (placed self.old.store name value))) }
        ensures back { IfErr result (λ e. (e.0 ≡ Fault.CellsFull) × (e.1 ≡ value) × (self.new ≡ self.old)) }
        ensures told { NextMoment T.names Quiet self.old self.new }
        ensures full { OnErr result ((i : ℕ) → is_usable self.old.store i ≡ false) }
        ensures fresh { IfOk result (λ name. (h : List Moment) → HasMoments T.names h self.old → WasLive h name → ⊥) }
    {
        match self.cells.place(value) {
            Ok(name) => Ok(name),
            Err(value) => Err((Fault::CellsFull, value)),
        }
    }

    /// Whether some cell is usable, so that the next value is placed.
    pub fn has_cell(&self) -> bool
        ensures some { IsTrue result → (i : ℕ) × (is_usable self.now.store i ≡ true) }
        ensures none { result ≡ false → (i : ℕ) → is_usable self.now.store i ≡ false }
    {
        self.cells.has_room()
    }

    /// Takes back the value of a cell that was never in reach; Unknown where the name is destroyed.
    pub fn give_back(&mut self, name: Name) -> Result<T, Fault>
        ensures ok { IfOk result (λ v. (value_at self.old.store name ≡ Some v) × (self.new ≡ with_store self.old (emptied self.old.store name.cell))) }
        ensures err { IfErr result (λ e. (value_at self.old.store name ≡ None) × (e ≡ Fault.Unknown) × (self.new ≡ self.old)) }
        ensures told { MatchResult result (λ v. NextMoment T.names (GivenBack name) self.old self.new) (λ e. NextMoment T.names Quiet self.old self.new) }
    {
        match self.cells.take(name) {
            Some(value) => Ok(value),
            None => Err(Fault::Unknown),
        }
    }

    /// The value of a name, where it isn't destroyed.
    pub fn read(&self, name: Name) -> Option<&T>
        ensures value { option_copied result ≡ value_at self.now.store name }
        ensures links { (h : List Moment) (p : ℕ) (n : Name) → HasMoments T.names h self.now → KeepsLinks h → Visible h p name → Contains (links_of T.names self.now.store name) n → Visible h p n }
    {
        self.cells.get(name)
    }

    /// Gives a name another value, and answers the old one; Unknown, with the value, where the name is destroyed.
    pub fn replace(&mut self, name: Name, value: T) -> Result<T, (Fault, T)>
        ensures ok { IfOk result (λ v. (value_at self.old.store name ≡ Some v) × (self.new ≡ with_store self.old (replaced self.old.store name.cell value))) }
        ensures err { IfErr result (λ e. (value_at self.old.store name ≡ None) × (e.0 ≡ Fault.Unknown) × (e.1 ≡ value) × (self.new ≡ self.old)) }
        ensures told { NextMoment T.names Quiet self.old self.new }
    {
        match self.cells.replace(name, value) {
            Ok(old) => Ok(old),
            Err(value) => Err((Fault::Unknown, value)),
        }
    }
}
