//! Pointers that a guard protects.

ghost use Rattle.std.specs.Prelude.{◌≡◌, ◌%◌, not, is_some, is_ok, true, None, IfSome};
ghost use Rattle.crossbeam_epoch.specs.face.Pointer.{name_in};

use crate::face::collector::Collector;
use crate::face::guard::Guard;
use crate::face::lent::{Lent, LentMut};
use crate::face::link::Link;
use crate::face::owned::Owned;
use crate::fault::Fault;
use crate::names::{Name, Pointable};
use crate::tag::tag_of;
use crate::task::Task;
use std::marker::PhantomData;
use std::sync::Wait;

/// A pointer to a value in a cell, for as long as a guard is out (the source's `Shared`).
/// It is equal to another where cell and tag are; the order is by cell, then by tag, null first.
#[derive(Drop)]
#[derive_where(Clone, Copy, Debug, PartialEq, Eq, PartialOrd, Ord)]
pub struct Shared<'g, T> {
    link: Link,
    of: PhantomData<T>,
    guard: PhantomData<&'g ()>,
}

impl<T> Default for Shared<'_, T> {
    fn default() -> Self {
        Shared::null()
    }
}

impl<T> Shared<'_, T> {
    /// The pointer of this link, which may have been told under another guard.
    pub fn of(link: Link) -> Self
        ensures { result.link ≡ link }
    {
        Shared {
            link,
            of: PhantomData,
            guard: PhantomData,
        }
    }

    /// Where it leads, and its tag.
    pub fn link(&self) -> Link
        ensures { result ≡ self.now.link }
    {
        self.link
    }

    /// Null with tag 0.
    pub fn null() -> Self
        ensures { result.link ≡ record { site = None; tag = 0 } }
    {
        Shared::of(Link::null())
    }

    /// Whether it leads nowhere, whatever its tag.
    pub fn is_null(&self) -> bool
        ensures { result ≡ not (is_some self.now.link.site) }
    {
        self.link.site.is_none()
    }

    /// Its tag.
    pub fn tag(&self) -> usize
        ensures { result ≡ self.now.link.tag }
    {
        usize::from(self.link.tag)
    }
}

impl<T: Pointable> Shared<'_, T> {
    /// The same cell with this number modulo `T::ALIGN` as its tag.
    pub fn with_tag(&self, tag: usize) -> Self
        ensures { result.link ≡ record self.now.link { tag = tag % T.ALIGN } }
    {
        Shared::of(Link {
            site: self.link.site,
            tag: tag_of::<T>(tag),
        })
    }
}

impl<'g, T: Drop> Shared<'g, T> {
    /// The name of its value in this collector: `Unknown` for null, `Foreign` for another collector's.
    pub(crate) fn name_in<J: Task>(&self, collector: &Collector<T, J>) -> Result<Name, Fault>
        ensures { result ≡ name_in self.now.link.site collector.now.id }
    {
        match self.link.site {
            Some(site) if site.collector != collector.id() => Err(Fault::Foreign),
            Some(site) => Ok(Name {
                cell: site.cell,
                turn: site.turn,
            }),
            None => Err(Fault::Unknown),
        }
    }

    /// Lends the value to be read, to any number at once. `None` for null, and where the value is destroyed, lent to be
    /// changed, or another collector's.
    pub fn deref<R: Wait, J: Task>(&self, rt: &R, guard: &'g Guard<'_, T, J>) -> Option<Lent<'g, T>>
        ensures { IfSome result (λ l. name_in self.now.link.site guard.now.collector.now.id ≡ Ok l.name) }
    {
        let name = self.name_in(guard.collector).ok()?;
        guard.collector.lend(rt, name)
    }

    /// The same as `deref`.
    pub fn as_ref<R: Wait, J: Task>(
        &self,
        rt: &R,
        guard: &'g Guard<'_, T, J>,
    ) -> Option<Lent<'g, T>>
        ensures { IfSome result (λ l. name_in self.now.link.site guard.now.collector.now.id ≡ Ok l.name) }
    {
        self.deref(rt, guard)
    }

    /// Lends the value to be changed, to nobody else meanwhile. `None` for null, and where the value is destroyed, lent, or
    /// another collector's.
    pub fn deref_mut<R: Wait, J: Task>(
        &mut self,
        _rt: &R,
        guard: &'g Guard<'_, T, J>,
    ) -> Option<LentMut<'g, T>>
        ensures same { self.new ≡ self.old }
        ensures name { IfSome result (λ l. name_in self.old.link.site guard.now.collector.now.id ≡ Ok l.kept.name) }
    {
        let name = self.name_in(guard.collector).ok()?;
        guard.collector.lend_mut(name)
    }

    /// Takes the value out of its cell, which is destroyed. The value keeps the pointer's tag. `None` for null, and where
    /// the value is destroyed, lent, or another collector's.
    pub fn into_owned<R: Wait, J: Task>(self, rt: &R, guard: &Guard<'_, T, J>) -> Option<Owned<T>>
        ensures tag { IfSome result (λ o. o.tag ≡ self.entry.link.tag) }
        ensures here { IfSome result (λ _. is_ok (name_in self.entry.link.site guard.now.collector.now.id) ≡ true) }
    {
        let name = self.name_in(guard.collector).ok()?;
        let value = guard.collector.remove(rt, name)?;
        Some(Owned::with(value, self.link.tag))
    }

    /// The same as `into_owned`.
    pub fn try_into_owned<R: Wait, J: Task>(
        self,
        rt: &R,
        guard: &Guard<'_, T, J>,
    ) -> Option<Owned<T>>
        ensures tag { IfSome result (λ o. o.tag ≡ self.entry.link.tag) }
        ensures here { IfSome result (λ _. is_ok (name_in self.entry.link.site guard.now.collector.now.id) ≡ true) }
    {
        self.into_owned(rt, guard)
    }
}
