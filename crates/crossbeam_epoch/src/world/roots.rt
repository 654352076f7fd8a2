//! The roots of a collector.

ghost use Rattle.std.specs.Prelude.{◌≡◌, ◌<◌, ◌≤◌, List, ◌∷◌, ℕ, length, Some, IfOk, OnOk, IfErr, slice_get, slice_set, is_ok, nat_lt, ◌&&◌};
ghost use Rattle.crossbeam_epoch.specs.world.Machine.{with_roots, stands};
ghost use Rattle.crossbeam_epoch.specs.world.Roots.{root_at};
ghost use Rattle.crossbeam_epoch.specs.declared.names.Name.{Name};
ghost use Rattle.crossbeam_epoch.specs.world.Reach.{Quiet, NextMoment, InSight};

use crate::fault::Fault;
use crate::names::{Links, Pointable, Ptr};
use crate::task::Task;
use crate::world::World;

impl<T: Links + Pointable + Drop, J: Task> World<T, J> {
    /// What a root holds; Unknown where there is no such root.
    pub fn load(&self, root: usize) -> Result<Ptr, Fault>
        ensures ok { IfOk result (λ p. slice_get self.now.roots root ≡ Some p) }
        ensures held { IfOk result (λ p. (root_at self.now root ≡ p) × (root < length self.now.roots)) }
        ensures err { IfErr result (λ e. (e ≡ Fault.Unknown) × (length self.now.roots ≤ root)) }
        ensures fault { is_ok result ≡ nat_lt root (length self.now.roots) }
        ensures seen { IfOk result (λ ptr. InSight T.names self.now ptr) }
    {
        if root >= self.roots.len() {
            return Err(Fault::Unknown);
        }
        Ok(self.roots[root])
    }

    /// Writes a pointer into a root; Unknown where there is no such root, or the pointer's name is destroyed.
    pub fn store(&mut self, root: usize, new: Ptr) -> Result<(), Fault>
        ensures ok { OnOk result (self.new ≡ with_roots self.old (slice_set self.old.roots root new)) }
        ensures err { IfErr result (λ e. (e ≡ Fault.Unknown) × (self.new ≡ self.old)) }
        ensures told { NextMoment T.names Quiet self.old self.new }
        ensures fault { is_ok result ≡ (nat_lt root (length self.old.roots) && stands self.old.store new) }
    {
        if root >= self.roots.len() || !self.has_standing(new) {
            return Err(Fault::Unknown);
        }
        self.roots[root] = new;
        Ok(())
    }

    /// Whether a pointer is null, or its name isn't destroyed.
    pub(crate) fn has_standing(&self, ptr: Ptr) -> bool
        ensures { result ≡ stands self.now.store ptr }
    {
        match ptr.name {
            Some(name) => self.cells.get(name).is_some(),
            None => true,
        }
    }
}
