//! The places of a leaf with a slot of its own, in each form.
ghost use Rattle.std.specs.Prelude.{◌≡◌, ◌≢◌, ◌≤◌, ◌<◌, ℕ, false, MatchOption, None, Some, IsSome, IfOk, OnOk, OnErr};
ghost use Rattle.std.specs.Option.{option_copied};
ghost use Rattle.std.specs.FinMap as map;
ghost use Rattle.congee.specs.forms.Bytes.{IsFirst, IsLastBelow};
ghost use Rattle.congee.specs.forms.Forms.{capacity_of, next_form};
ghost use Rattle.congee.specs.owned.Values.{form_in, kept_in, full_in, Refills};
ghost use Rattle.congee.specs.protocol.Steps.{form_below};

use crate::forms::base_node::NodeType;
use crate::forms::child::Small;
use crate::forms::indexed::Indexed;
use crate::forms::masked::Masked;
use crate::forms::sorted::Sorted;
use std::alloc::{AllocError, Global};

/// At most 16 values.
#[derive(Drop)]
pub(crate) struct Values16<X> {
    pub(crate) values: Sorted<X, 16>,
}

/// At most 48 values.
#[derive(Drop)]
pub(crate) struct Values48<X> {
    pub(crate) values: Indexed<X>,
}

/// A place for each byte.
#[derive(Drop)]
pub(crate) struct Values256<X> {
    pub(crate) values: Masked<X>,
}

/// What a leaf keeps for a value, whose places fit in memory in every form. Each small type is one.
pub(crate) trait Shelved: Small {
    ghost use Rattle.std.specs.Mem.{FitsInMemory};
    ghost use Rattle.congee.specs.contracts.owned.values.Values16.{the_row as row_16};
    ghost use Rattle.congee.specs.contracts.owned.values.Values48.{the_row as row_48};
    ghost use Rattle.congee.specs.contracts.owned.values.Values256.{the_row as row_256};

    ghost fits_16: { FitsInMemory (row_16 Self.row) };

    ghost fits_48: { FitsInMemory (row_48 Self.row) };

    ghost fits_256: { FitsInMemory (row_256 Self.row) };
}

impl<X: Small> Shelved for X {
    ghost use Rattle.congee.specs.owned.ValueRoom.{values16_fits, values48_fits, values256_fits};

    ghost fits_16 = { values16_fits X.row X.small };

    ghost fits_48 = { values48_fits X.row X.small };

    ghost fits_256 = { values256_fits X.row X.small };
}

/// What a leaf keeps by byte. The least form lies inline, the others in a box.
#[derive(Drop)]
pub(crate) enum Values<X: Shelved> {
    N4(Sorted<X, 4>),
    N16(Box<Values16<X>>),
    N48(Box<Values48<X>>),
    N256(Box<Values256<X>>),
}

impl<X: Default + Small> Values<X> {
    ghost use Rattle.congee.specs.declared.forms.base_node.NodeType.TheVariants.{N4};

    /// No values, in a form. The least one asks for no memory.
    pub(crate) fn new(alloc: Global, form: NodeType) -> Result<Self, AllocError>
        ensures form { IfOk result (λ n. form_in n ≡ form) }
        ensures kept { IfOk result (λ n. kept_in n ≡ map.empty) }
        ensures memory { OnErr result (form ≢ N4) }
    {
        Ok(match form {
            NodeType::N4 => Values::N4(Sorted::new()),
            NodeType::N16 => Values::N16(Box::new(
                alloc,
                Values16 {
                    values: Sorted::new(),
                },
            )?),
            NodeType::N48 => Values::N48(Box::new(
                alloc,
                Values48 {
                    values: Indexed::new(),
                },
            )?),
            NodeType::N256 => Values::N256(Box::new(
                alloc,
                Values256 {
                    values: Masked::new(),
                },
            )?),
        })
    }

    /// No values, in the least form.
    pub(crate) fn least() -> Self
        ensures form { form_in result ≡ N4 }
        ensures kept { kept_in result ≡ map.empty }
    {
        Values::N4(Sorted::new())
    }

    /// The form.
    #[inline(always)]
    pub(crate) fn node_type(&self) -> NodeType
        ensures { result ≡ form_in self.now }
    {
        match self {
            Values::N4(_) => NodeType::N4,
            Values::N16(_) => NodeType::N16,
            Values::N48(_) => NodeType::N48,
            Values::N256(_) => NodeType::N256,
        }
    }

    /// How many values there are.
    #[inline(always)]
    pub(crate) fn len(&self) -> usize
        ensures count { result ≡ map.len (kept_in self.now) }
        ensures fits { result ≤ capacity_of (form_in self.now) }
        ensures bytes { (b : ℕ) → IsSome (map.get (kept_in self.now) b) → b < 256 }
    {
        match self {
            Values::N4(n) => n.len(),
            Values::N16(n) => n.values.len(),
            Values::N48(n) => n.values.len(),
            Values::N256(n) => n.values.len(),
        }
    }

    /// Whether no further value fits.
    #[inline(always)]
    pub(crate) fn is_full(&self) -> bool
        ensures { result ≡ full_in self.now }
    {
        match self {
            Values::N4(n) => n.len() == 4,
            Values::N16(n) => n.values.len() == 16,
            Values::N48(n) => n.values.len() == 48,
            Values::N256(_) => false,
        }
    }

    /// The value of a byte.
    #[inline(always)]
    pub(crate) fn get_child(&self, byte: u8) -> Option<&X>
        ensures { option_copied result ≡ map.get (kept_in self.now) byte }
    {
        match self {
            Values::N4(n) => n.get_child(byte),
            Values::N16(n) => n.values.get_child(byte),
            Values::N48(n) => n.values.get_child(byte),
            Values::N256(n) => n.values.get_child(byte),
        }
    }

    /// The value of the least byte from `from` on.
    #[inline(always)]
    pub(crate) fn first_from(&self, from: usize) -> Option<(u8, &X)>
        ensures { MatchOption result ((b : ℕ) → from ≤ b → map.get (kept_in self.now) b ≡ None)
            (λ r. IsFirst (kept_in self.now) from r.0 r.1.now) }
    {
        match self {
            Values::N4(n) => n.first_from(from),
            Values::N16(n) => n.values.first_from(from),
            Values::N48(n) => n.values.first_from(from),
            Values::N256(n) => n.values.first_from(from),
        }
    }

    /// The greatest byte below `end` that has a value.
    #[inline(always)]
    pub(crate) fn last_below(&self, end: usize) -> Option<u8>
        requires { end ≤ 256 }
        ensures { IsLastBelow (kept_in self.now) end result }
    {
        match self {
            Values::N4(n) => n.last_below(end),
            Values::N16(n) => n.values.last_below(end),
            Values::N48(n) => n.values.last_below(end),
            Values::N256(n) => n.values.last_below(end),
        }
    }

    /// Adds a value under a byte that has none, where there is room.
    #[inline(always)]
    pub(crate) fn insert(&mut self, byte: u8, value: X)
        requires absent { map.get (kept_in self.old) byte ≡ None }
        requires room { full_in self.old ≡ false }
        ensures { Refills self.old self.new (map.insert (kept_in self.old) byte value) }
    {
        match self {
            Values::N4(n) => n.insert(byte, value),
            Values::N16(n) => n.values.insert(byte, value),
            Values::N48(n) => n.values.insert(byte, value),
            Values::N256(n) => n.values.insert(byte, value),
        }
    }

    /// Puts another value under a byte that has one, and gives the one before.
    #[inline(always)]
    pub(crate) fn change(&mut self, byte: u8, value: X) -> X
        requires present { IsSome (map.get (kept_in self.old) byte) }
        ensures before { map.get (kept_in self.old) byte ≡ Some result }
        ensures after { Refills self.old self.new (map.insert (kept_in self.old) byte value) }
    {
        match self {
            Values::N4(n) => n.change(byte, value),
            Values::N16(n) => n.values.change(byte, value),
            Values::N48(n) => n.values.change(byte, value),
            Values::N256(n) => n.values.change(byte, value),
        }
    }

    /// Takes out the value of a byte that has one.
    #[inline(always)]
    pub(crate) fn remove(&mut self, byte: u8) -> X
        requires present { IsSome (map.get (kept_in self.old) byte) }
        ensures before { map.get (kept_in self.old) byte ≡ Some result }
        ensures after { Refills self.old self.new (map.remove (kept_in self.old) byte) }
    {
        match self {
            Values::N4(n) => n.remove(byte),
            Values::N16(n) => n.values.remove(byte),
            Values::N48(n) => n.values.remove(byte),
            Values::N256(n) => n.values.remove(byte),
        }
    }

    /// Takes every value out.
    pub(crate) fn clear(&mut self)
        ensures { Refills self.old self.new map.empty }
    {
        let mut next = 0;
        while let Some((byte, _)) = self.first_from(next) {
            self.remove(byte);
            next = 1 + byte as usize;
        }
    }

    /// Moves every value to `other`, which has none and has room for them, and leaves a default in the place of each.
    fn move_to(&mut self, other: &mut Values<X>)
        requires empty { kept_in other.old ≡ map.empty }
        requires room { map.len (kept_in self.old) ≤ capacity_of (form_in other.old) }
        ensures moved { Refills other.old other.new (kept_in self.old) }
    {
        let mut from = 0;
        while let Some((byte, _)) = self.first_from(from) {
            let value = self.change(byte, X::default());
            other.insert(byte, value);
            from = byte as usize + 1;
        }
    }

    /// Becomes the next greater form with the same values. Memory is asked for first: where it is refused, all stays.
    pub(crate) fn grow(&mut self, alloc: Global) -> Result<(), AllocError>
        ensures form { OnOk result (form_in self.new ≡ next_form (form_in self.old)) }
        ensures kept { OnOk result (kept_in self.new ≡ kept_in self.old) }
        ensures refused { OnErr result (self.new ≡ self.old) }
    {
        let form = self.node_type().next();
        let mut greater = Values::new(alloc, form)?;
        prove!(self.len() <= form.capacity());
        self.move_to(&mut greater);
        *self = greater;
        Ok(())
    }

    /// Becomes the form below with the same values. Memory is asked for first, but for the least form: where it is refused, all stays.
    pub(crate) fn shrink(&mut self, alloc: Global) -> Result<(), AllocError>
        requires room { map.len (kept_in self.old) ≤ capacity_of (form_below (form_in self.old)) }
        ensures form { OnOk result (form_in self.new ≡ form_below (form_in self.old)) }
        ensures kept { OnOk result (kept_in self.new ≡ kept_in self.old) }
        ensures refused { OnErr result (self.new ≡ self.old) }
        ensures memory { OnErr result (form_below (form_in self.old) ≢ N4) }
    {
        let form = self.node_type().below();
        let mut lesser = Values::new(alloc, form)?;
        self.move_to(&mut lesser);
        *self = lesser;
        Ok(())
    }
}
