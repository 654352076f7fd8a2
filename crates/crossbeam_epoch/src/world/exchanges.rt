//! Exchanges and tag calls on the roots of a collector.

ghost use Rattle.std.specs.Prelude.{◌≡◌, ◌≢◌, ◌%◌, ◌<◌, List, ◌∷◌, ℕ, length, Some, IfOk, OnOk, IfErr, MatchResult};
ghost use Rattle.std.specs.Prelude.{slice_get, is_ok, nat_lt, ◌&&◌, bit_and, bit_or, bit_xor};
ghost use Rattle.crossbeam_epoch.specs.world.Machine.{stands};
ghost use Rattle.crossbeam_epoch.specs.world.Roots.{root_at, with_root, with_tag_at};
ghost use Rattle.crossbeam_epoch.specs.declared.names.Name.{Name};
ghost use Rattle.crossbeam_epoch.specs.world.Reach.{Quiet, NextMoment, InSight};
ghost use Rattle.crossbeam_epoch.specs.Tags.{changed};

use crate::fault::Fault;
use crate::names::{Links, Pointable, Ptr};
use crate::tag::TagCall;
use crate::task::Task;
use crate::world::World;

/// A compare-and-exchange of a root that held another pointer: that one, and what was to be written.
#[derive(Clone, Copy, Debug, PartialEq, Eq, Drop)]
pub struct OtherPointer {
    pub current: Ptr,
    pub new: Ptr,
}

impl<T: Links + Pointable + Drop, J: Task> World<T, J> {
    /// Writes a pointer into a root, and gives the one before; Unknown where there is no such root, or the new
    /// pointer's name is destroyed.
    pub fn swap(&mut self, root: usize, new: Ptr) -> Result<Ptr, Fault>
        ensures before { IfOk result (λ before. slice_get self.old.roots root ≡ Some before) }
        ensures state { OnOk result (self.new ≡ with_root self.old root new) }
        ensures err { IfErr result (λ e. (e ≡ Fault.Unknown) × (self.new ≡ self.old)) }
        ensures fault { is_ok result ≡ (nat_lt root (length self.old.roots) && stands self.old.store new) }
        ensures told { NextMoment T.names Quiet self.old self.new }
        ensures seen { IfOk result (λ ptr. InSight T.names self.old ptr) }
    {
        let held = self.load(root)?;
        self.store(root, new)?;
        Ok(held)
    }

    /// Writes `new` into a root that holds the cell and the tag of `current`, and gives what was written; else it
    /// gives what the root holds and `new` back. Unknown where there is no such root, or `new`'s name is destroyed.
    pub fn compare_exchange(
        &mut self,
        root: usize,
        current: Ptr,
        new: Ptr,
    ) -> Result<Result<Ptr, OtherPointer>, Fault>
        ensures ok { IfOk result (λ r. MatchResult r
            (λ written. (slice_get self.old.roots root ≡ Some current) × (written ≡ new) × (self.new ≡ with_root self.old root new))
            (λ e. (slice_get self.old.roots root ≡ Some e.current) × (e.current ≢ current) × (e.new ≡ new) × (self.new ≡ self.old))) }
        ensures err { IfErr result (λ e. (e ≡ Fault.Unknown) × (self.new ≡ self.old)) }
        ensures fault { is_ok result ≡ (nat_lt root (length self.old.roots) && stands self.old.store new) }
        ensures told { NextMoment T.names Quiet self.old self.new }
        ensures seen { IfOk result (λ r. IfErr r (λ e. InSight T.names self.old e.current)) }
    {
        let now = self.load(root)?;
        if !self.has_standing(new) {
            return Err(Fault::Unknown);
        }
        if now != current {
            return Ok(Err(OtherPointer { current: now, new }));
        }
        self.store(root, new)?;
        Ok(Ok(new))
    }

    /// Keeps the bits of a root's tag that stand in the number modulo `T::ALIGN` too, and gives the pointer before;
    /// Unknown where there is no such root.
    pub fn fetch_and(&mut self, root: usize, number: usize) -> Result<Ptr, Fault>
        ensures before { IfOk result (λ before. slice_get self.old.roots root ≡ Some before) }
        ensures state { OnOk result (self.new ≡ with_tag_at self.old root (bit_and (root_at self.old root).tag (number % T.ALIGN))) }
        ensures err { IfErr result (λ e. (e ≡ Fault.Unknown) × (self.new ≡ self.old)) }
        ensures fault { is_ok result ≡ nat_lt root (length self.old.roots) }
        ensures told { NextMoment T.names Quiet self.old self.new }
        ensures seen { IfOk result (λ ptr. InSight T.names self.old ptr) }
    {
        self.change_tag(root, TagCall::And, number)
    }

    /// Adds the bits of the number modulo `T::ALIGN` to a root's tag, and gives the pointer before; Unknown where
    /// there is no such root.
    pub fn fetch_or(&mut self, root: usize, number: usize) -> Result<Ptr, Fault>
        ensures before { IfOk result (λ before. slice_get self.old.roots root ≡ Some before) }
        ensures state { OnOk result (self.new ≡ with_tag_at self.old root (bit_or (root_at self.old root).tag (number % T.ALIGN))) }
        ensures err { IfErr result (λ e. (e ≡ Fault.Unknown) × (self.new ≡ self.old)) }
        ensures fault { is_ok result ≡ nat_lt root (length self.old.roots) }
        ensures told { NextMoment T.names Quiet self.old self.new }
        ensures seen { IfOk result (λ ptr. InSight T.names self.old ptr) }
    {
        self.change_tag(root, TagCall::Or, number)
    }

    /// Flips the bits of the number modulo `T::ALIGN` in a root's tag, and gives the pointer before; Unknown where
    /// there is no such root.
    pub fn fetch_xor(&mut self, root: usize, number: usize) -> Result<Ptr, Fault>
        ensures before { IfOk result (λ before. slice_get self.old.roots root ≡ Some before) }
        ensures state { OnOk result (self.new ≡ with_tag_at self.old root (bit_xor (root_at self.old root).tag (number % T.ALIGN))) }
        ensures err { IfErr result (λ e. (e ≡ Fault.Unknown) × (self.new ≡ self.old)) }
        ensures fault { is_ok result ≡ nat_lt root (length self.old.roots) }
        ensures told { NextMoment T.names Quiet self.old self.new }
        ensures seen { IfOk result (λ ptr. InSight T.names self.old ptr) }
    {
        self.change_tag(root, TagCall::Xor, number)
    }

    /// Changes a root's tag so with the bits of the number modulo `T::ALIGN`, and gives the pointer before; Unknown where
    /// there is no such root.
    fn change_tag(&mut self, root: usize, call: TagCall, number: usize) -> Result<Ptr, Fault>
        ensures before { IfOk result (λ before. slice_get self.old.roots root ≡ Some before) }
        ensures state { OnOk result (self.new ≡ with_tag_at self.old root (changed call (root_at self.old root).tag (number % T.ALIGN))) }
        ensures err { IfErr result (λ e. (e ≡ Fault.Unknown) × (self.new ≡ self.old)) }
        ensures fault { is_ok result ≡ nat_lt root (length self.old.roots) }
        ensures told { NextMoment T.names Quiet self.old self.new }
        ensures seen { IfOk result (λ ptr. InSight T.names self.old ptr) }
    {
        let before = self.load(root)?;
        self.set_tag(root, call.changed::<T>(before.tag, number));
        Ok(before)
    }

    /// Writes the tag of a root.
    fn set_tag(&mut self, root: usize, tag: u8)
        requires { root < length self.old.roots }
        ensures { self.new ≡ with_tag_at self.old root tag }
    {
        self.roots[root].tag = tag;
    }
}
