//! Values that aren't placed yet.

ghost use Rattle.std.specs.Prelude.{◌≡◌, ◌%◌, ◌<◌, MatchResult, IfOk, IfErr, IsSomeAnd};

use crate::face::guard::Guard;
use crate::face::pointer::Pointer;
use crate::face::shared::Shared;
use crate::fault::Fault;
use crate::names::Pointable;
use crate::tag::tag_of;
use crate::task::Task;
use std::alloc::Global;
use std::ops::{Deref, DerefMut};
use std::sync::Wait;

/// A boxed value with a tag, which no pointer leads to (the source's `Owned`).
#[derive(Drop)]
#[derive_where(Debug; T)]
pub struct Owned<T> {
    value: Box<T>,
    tag: u8,
}

impl<T> Owned<T> {
    /// Boxes a value, with tag 0. Refused as `Memory`; the value comes back.
    pub fn new(alloc: Global, value: T) -> Result<Self, (Fault, T)>
        ensures { MatchResult result (λ o. (o.value.value ≡ value) × (o.tag ≡ 0)) (λ e. (e.0 ≡ Fault.Memory) × (e.1 ≡ value)) }
    {
        match Box::new(alloc, value) {
            Ok(value) => Ok(Owned { value, tag: 0 }),
            Err(refused) => Err((Fault::Memory, refused.value)),
        }
    }

    /// The same as `new`.
    pub fn init(alloc: Global, value: T) -> Result<Self, (Fault, T)>
        ensures { MatchResult result (λ o. (o.value.value ≡ value) × (o.tag ≡ 0)) (λ e. (e.0 ≡ Fault.Memory) × (e.1 ≡ value)) }
    {
        Owned::new(alloc, value)
    }

    /// This box with this tag.
    pub(crate) fn with(value: Box<T>, tag: u8) -> Self
        ensures { result ≡ record { value = value; tag = tag } }
    {
        Owned { value, tag }
    }

    /// Its box, without the tag.
    pub fn into_box(self) -> Box<T>
        ensures { result ≡ self.value }
    {
        let Owned { value, tag: _ } = self;
        value
    }

    /// Its box and its tag.
    pub(crate) fn into_parts(self) -> (Box<T>, u8)
        ensures value { result.0 ≡ self.value }
        ensures tag { result.1 ≡ self.tag }
    {
        let Owned { value, tag } = self;
        (value, tag)
    }

    /// Its tag.
    pub fn tag(&self) -> usize
        ensures { result ≡ self.now.tag }
    {
        usize::from(self.tag)
    }
}

impl<T: Pointable> Owned<T> {
    /// The same value with this number modulo `T::ALIGN` as its tag.
    pub fn with_tag(self, tag: usize) -> Self
        ensures { result ≡ record self { tag = tag % T.ALIGN } }
    {
        let Owned { value, tag: _ } = self;
        Owned {
            value,
            tag: tag_of::<T>(tag),
        }
    }
}

impl<T: Pointable + Drop> Owned<T> {
    /// Places the value. Refused as `CellsFull`; it comes back.
    pub fn into_shared<'g, R: Wait, J: Task>(
        self,
        rt: &R,
        guard: &'g Guard<'_, T, J>,
    ) -> Result<Shared<'g, T>, (Fault, Self)>
        ensures { MatchResult result (λ s. (s.link.tag ≡ self.tag % T.ALIGN) × IsSomeAnd s.link.site (λ x. x.collector ≡ guard.now.collector.now.id)) (λ e. (e.0 ≡ Fault.CellsFull) × (e.1 ≡ self)) }
    {
        let tagged = self.enter(rt, guard)?;
        Ok(Shared::of(tagged.load()))
    }
}

impl<T: Clone> Owned<T> {
    /// A copy of the value, with the same tag. A clone of the value has to equal it. Refused as `Memory`.
    pub fn clone(&self) -> Result<Self, Fault>
        requires { (x : T) → T.is_clone self.now.value.value x → x ≡ self.now.value.value }
        ensures { MatchResult result (λ o. (o.value.value ≡ self.now.value.value) × (o.tag ≡ self.now.tag)) (λ e. e ≡ Fault.Memory) }
    {
        match self.value.clone() {
            Ok(value) => Ok(Owned {
                value,
                tag: self.tag,
            }),
            Err(_) => Err(Fault::Memory),
        }
    }
}

impl<T> Owned<T> {
    /// The value.
    pub fn borrow(&self) -> &T
        ensures { result.now ≡ self.now.value.value }
    {
        &self.value
    }

    /// The value, to be changed.
    pub fn borrow_mut(&mut self) -> &mut T
        ensures { result.now ≡ self.old.value.value }
    {
        &mut self.value
    }
}

impl<T> From<Box<T>> for Owned<T> {
    ghost from_gives = { λ b o. (o.value ≡ b) × (o.tag ≡ 0) };

    fn from(value: Box<T>) -> Self {
        Owned { value, tag: 0 }
    }
}

impl<T> Deref for Owned<T> {
    type Target = T;

    ghost deref_gives = { λ o x. x ≡ o.value.value };

    fn deref(&self) -> &T {
        &self.value
    }
}

impl<T> DerefMut for Owned<T> {
    ghost deref_mut_gives = { λ o x. x ≡ o.value.value };

    fn deref_mut(&mut self) -> &mut T {
        &mut self.value
    }
}

impl<T> AsRef<T> for Owned<T> {
    fn as_ref(&self) -> &T
        ensures { result.now ≡ self.now.value.value }
    {
        &self.value
    }
}

impl<T> AsMut<T> for Owned<T> {
    fn as_mut(&mut self) -> &mut T
        ensures { result.now ≡ self.old.value.value }
    {
        &mut self.value
    }
}
