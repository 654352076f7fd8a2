//! Values that are lent.

ghost use Rattle.std.specs.Prelude.{◌≡◌, IfSome, IsSomeAnd};

use crate::face::slots::{Claimed, Slots};
use crate::names::Name;
use counted_slot::Claim;
use std::sync::Wait;

/// A value that is lent to be read. It is spent by `back`, and can't be dropped.
pub struct Lent<'g, T> {
    claim: Claim<'g, Option<Claimed<T>>>,
    pub(crate) name: Name,
    ghost reads: { claim.right ≡ 1 },
    ghost filled: { ∥ IsSomeAnd claim.value (λ slot. IsSomeAnd slot (λ kept. kept.name ≡ name)) ∥₁ },
}

impl<'g, T> Lent<'g, T> {
    /// The value that this claim reads, where it was placed under this name.
    pub(crate) fn new(name: Name, claim: Claim<'g, Option<Claimed<T>>>) -> Option<Self>
        requires { claim.right ≡ 1 }
        ensures { IfSome result (λ l. l.name ≡ name) }
    {
        let is_it = match claim.get() {
            Some(kept) => kept.name == name,
            None => false,
        };
        if is_it {
            Some(Lent { claim, name })
        } else {
            claim.leave();
            None
        }
    }

    /// The value.
    pub fn get(&self) -> &T
        ensures { IfSome self.now.claim.value (λ slot. IfSome slot (λ kept. result.now ≡ kept.value.value)) }
    {
        match self.claim.get() {
            Some(kept) => &kept.value,
            None => unreachable!(),
        }
    }

    /// Ends the reading.
    pub fn back<R: Wait>(self, _rt: &R) {
        let Lent { claim, name: _ } = self;
        claim.leave();
    }
}

/// A value that is lent to be changed. It is spent by `back`, and can't be dropped.
pub struct LentMut<'g, T> {
    slots: &'g Slots<T>,
    pub(crate) kept: Claimed<T>,
}

impl<'g, T: Drop> LentMut<'g, T> {
    /// The value that was taken out of one of these cells, which keeps its place.
    pub(crate) fn new(slots: &'g Slots<T>, kept: Claimed<T>) -> Self
        ensures { result.kept ≡ kept }
    {
        LentMut { slots, kept }
    }

    /// The value.
    pub fn get(&self) -> &T
        ensures { result.now ≡ self.now.kept.value.value }
    {
        &self.kept.value
    }

    /// The value, to be changed.
    pub fn get_mut(&mut self) -> &mut T
        ensures { result.now ≡ self.old.kept.value.value }
    {
        &mut self.kept.value
    }

    /// Gives the value back to its cell.
    pub fn back<R: Wait>(self, _rt: &R) {
        let LentMut { slots, kept } = self;
        let _ = slots.put_back(kept);
    }
}
