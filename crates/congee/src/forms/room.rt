//! The room that the boxed forms of a node take.

use crate::forms::child::Small;

/// A payload whose nodes, with children named by `C`, fit in memory in every form.
///
/// Each payload is one; a user has nothing to prove.
pub trait Boxed<C: Small>: Small {
    ghost use Rattle.std.specs.Mem.{FitsInMemory};
    ghost use Rattle.congee.specs.contracts.forms.node16.Node16.{the_row as row_16};
    ghost use Rattle.congee.specs.contracts.forms.node48.Node48.{the_row as row_48};
    ghost use Rattle.congee.specs.contracts.forms.node256.Node256.{the_row as row_256};

    ghost fits_16: { FitsInMemory (row_16 C.row Self.row) };

    ghost fits_48: { FitsInMemory (row_48 C.row Self.row) };

    ghost fits_256: { FitsInMemory (row_256 C.row Self.row) };
}

impl<C: Small, P: Small> Boxed<C> for P {
    ghost use Rattle.congee.specs.forms.RoomLemmas.{node16_fits, node48_fits, node256_fits};

    ghost fits_16 = { node16_fits C.row P.row C.small P.small };

    ghost fits_48 = { node48_fits C.row P.row C.small P.small };

    ghost fits_256 = { node256_fits C.row P.row C.small P.small };
}
