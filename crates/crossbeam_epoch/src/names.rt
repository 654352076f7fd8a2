//! Names of cells, and what a cell's value shows of itself.

use crate::tag::tag_of;

/// The name of one value's stay in a cell: the cell's number, and how many values it had before.
#[derive(Clone, Copy, Debug, PartialEq, Eq, Drop)]
pub struct Name {
    pub cell: u32,
    pub turn: u32,
}

/// What a root holds: a name or null, with a tag. `with_tag` gives tags below the `ALIGN` of a type.
#[derive(Clone, Copy, Debug, PartialEq, Eq, Drop)]
pub struct Ptr {
    pub name: Option<Name>,
    pub tag: u8,
}

impl Ptr {
    ghost use Rattle.std.specs.Prelude.{◌≡◌, ◌%◌, None};

    /// Null with tag 0.
    pub fn null() -> Ptr
        ensures { result ≡ record { name = None; tag = 0 } }
    {
        Ptr { name: None, tag: 0 }
    }

    /// The same cell with this number modulo `T::ALIGN` as its tag.
    pub fn with_tag<T: Pointable>(self, number: usize) -> Ptr
        ensures { result ≡ record self { tag = number % T.ALIGN } }
    {
        Ptr {
            name: self.name,
            tag: tag_of::<T>(number),
        }
    }
}

/// A value that holds names of other cells.
pub trait Links {
    ghost use Rattle.std.specs.Prelude.{List, ◌≡◌, slice_get};
    ghost use Rattle.std.specs.Mem.{FitsInMemory};
    ghost use Rattle.crossbeam_epoch.specs.declared.names.Name.{Name};
    ghost use Rattle.crossbeam_epoch.specs.contracts.world.cells.Cell.{the_row};

    ghost names: { Self → List Name };

    /// The i-th name that the value holds.
    fn link(&self, i: u32) -> Option<Name>
        ensures { result ≡ slice_get (names self.now) i };

    ghost fits: { FitsInMemory (the_row Self.row) };
}

/// A value that pointers with tags may name (the source's `Pointable`).
pub trait Pointable {
    ghost use Rattle.std.specs.Prelude.{ℕ, ◌≡◌, ◌≤◌, ◌^◌};

    ghost ALIGN: { ℕ };

    /// Tags are below this power of two, which is at most 256.
    const ALIGN: u16;

    ghost aligned: { (k : ℕ) × (k ≤ 8) × (ALIGN ≡ 2 ^ k) };
}
