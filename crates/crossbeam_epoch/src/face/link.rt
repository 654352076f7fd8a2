//! What a pointer is: where it leads, and its tag.

ghost use Rattle.std.specs.Bool.{OnTrue};
ghost use Rattle.std.specs.Prelude.{◌≡◌, ◌%◌, ◌<◌, ◌↔◌, None, true, false, bit_and, bit_or, bit_xor};
ghost use Rattle.crossbeam_epoch.specs.Tags.{changed};

use crate::names::Pointable;
use crate::tag::{TagCall, tag_of};
use std::marker::PhantomData;
use std::mem;

/// Where a pointer leads: a value's stay in a cell of a collector.
#[derive(Clone, Copy, Debug, PartialEq, Eq, PartialOrd, Ord, Drop)]
pub struct Site {
    /// The collector's identity number.
    pub collector: u64,
    /// The cell's number.
    pub cell: u32,
    /// How many values the cell had before.
    pub turn: u32,
}

/// A pointer, null or to a cell, with a tag.
#[derive(Clone, Copy, Debug, PartialEq, Eq, PartialOrd, Ord, Drop)]
pub struct Link {
    pub site: Option<Site>,
    pub tag: u8,
}

impl Link {
    /// Null with tag 0.
    pub fn null() -> Link
        ensures { result ≡ record { site = None; tag = 0 } }
    {
        Link { site: None, tag: 0 }
    }
}

/// What an `Atomic` of a `T` holds: a pointer whose tag is below `T::ALIGN`.
#[derive(Drop)]
pub struct Tagged<T: Pointable> {
    link: Link,
    of: PhantomData<T>,
    ghost below: { link.tag < T.ALIGN },
}

impl<T: Pointable> Tagged<T> {
    /// This pointer, its tag modulo `T::ALIGN`.
    pub fn new(link: Link) -> Tagged<T>
        ensures site { result.link.site ≡ link.site }
        ensures tag { result.link.tag ≡ link.tag % T.ALIGN }
    {
        Tagged {
            link: Link {
                site: link.site,
                tag: tag_of::<T>(usize::from(link.tag)),
            },
            of: PhantomData,
        }
    }

    /// The pointer.
    pub fn load(&self) -> Link
        ensures value { result ≡ self.now.link }
        ensures below { result.tag < T.ALIGN }
    {
        self.link
    }

    /// Writes another pointer, and gives the one before.
    pub fn swap(&mut self, new: Tagged<T>) -> Link
        ensures before { result ≡ self.old.link }
        ensures below { result.tag < T.ALIGN }
        ensures after { self.new.link ≡ new.link }
    {
        mem::replace(self, new).link
    }

    /// Writes the pointer, its tag modulo `T::ALIGN`, where this one is still held, and tells whether it was.
    pub fn update(&mut self, before: Link, next: Link) -> bool
        ensures value { result ≡ true ↔ (self.old.link ≡ before) }
        ensures written { OnTrue result ((self.new.link.site ≡ next.site) × (self.new.link.tag ≡ next.tag % T.ALIGN)) }
        ensures kept { result ≡ false → self.new ≡ self.old }
    {
        let held = self.link == before;
        if held {
            *self = Tagged::new(next);
        }
        held
    }

    /// Changes the tag so with the number's bits, and gives the pointer before.
    pub(crate) fn change(&mut self, call: TagCall, number: usize) -> Link
        ensures before { result ≡ self.old.link }
        ensures below { result.tag < T.ALIGN }
        ensures after { self.new.link ≡ record self.old.link { tag = changed call self.old.link.tag (number % T.ALIGN) } }
    {
        let before = self.link;
        self.link.tag = call.changed::<T>(before.tag, number);
        before
    }

    /// Keeps the bits of the tag that stand in the number too, and gives the pointer before.
    pub fn fetch_and(&mut self, number: usize) -> Link
        ensures before { result ≡ self.old.link }
        ensures below { result.tag < T.ALIGN }
        ensures after { self.new.link ≡ record self.old.link { tag = bit_and self.old.link.tag (number % T.ALIGN) } }
    {
        self.change(TagCall::And, number)
    }

    /// Adds the number's bits to the tag, and gives the pointer before.
    pub fn fetch_or(&mut self, number: usize) -> Link
        ensures before { result ≡ self.old.link }
        ensures below { result.tag < T.ALIGN }
        ensures after { self.new.link ≡ record self.old.link { tag = bit_or self.old.link.tag (number % T.ALIGN) } }
    {
        self.change(TagCall::Or, number)
    }

    /// Flips the number's bits in the tag, and gives the pointer before.
    pub fn fetch_xor(&mut self, number: usize) -> Link
        ensures before { result ≡ self.old.link }
        ensures below { result.tag < T.ALIGN }
        ensures after { self.new.link ≡ record self.old.link { tag = bit_xor self.old.link.tag (number % T.ALIGN) } }
    {
        self.change(TagCall::Xor, number)
    }
}
