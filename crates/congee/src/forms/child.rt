//! What a node keeps for a byte.

/// A type that a node can hold: a value takes at most 65,536 bytes, and so does its alignment.
///
/// It has no call. An `impl` proves the law by computing, as those for integers here.
pub trait Small: Drop {
    ghost use denote.Param.{layout};
    ghost use Rattle.congee.specs.forms.Room.{IsSmall};

    ghost small: { IsSmall (layout Self.row) };
}

impl Small for u32 {
    ghost use Rattle.std.proofs.Common.{rules};

    ghost small = { Prim.search rules };
}

impl Small for usize {
    ghost use Rattle.std.proofs.Common.{rules};

    ghost small = { Prim.search rules };
}

impl Small for u64 {
    ghost use Rattle.std.proofs.Common.{rules};

    ghost small = { Prim.search rules };
}

/// What stands below a byte: a node by its name, or a value.
///
/// `Blank` fills the places of a node that no byte uses. It is never a child.
#[derive(Drop, Default)]
pub enum Child<C, P> {
    #[default]
    Blank,
    Node(C),
    Value(P),
}
