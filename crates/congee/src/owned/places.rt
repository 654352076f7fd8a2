//! The places of an inner node, in each form.
ghost use Rattle.std.specs.Prelude.{◌≡◌, ◌≢◌, ◌≤◌, ◌<◌, ℕ, false, MatchOption, None, Some, IsSome, IfOk, OnOk, OnErr};
ghost use Rattle.std.specs.Option.{option_copied};
ghost use Rattle.std.specs.FinMap as map;
ghost use Rattle.congee.specs.forms.Bytes.{IsFirst, IsLastBelow, Lists};
ghost use Rattle.congee.specs.forms.Forms.{capacity_of, next_form};
ghost use Rattle.congee.specs.owned.Entries.{form_in, entries_in, full_in, Refills};
ghost use Rattle.congee.specs.protocol.Steps.{form_below};

use crate::forms::base_node::NodeType;
use crate::forms::child::Small;
use crate::forms::masked::Masked;
use crate::forms::ranks::Ranks;
use crate::forms::sorted::Sorted;
use crate::owned::entries::Entry;
use arrayvec::ArrayVec;
use std::alloc::{AllocError, Global};
use std::marker::Model;

/// What lies in the box of at most `N` entries.
#[derive(Drop)]
pub(crate) struct EntryList<P, const N: usize> {
    list: ArrayVec<Entry<P>, N>,
}

/// At most `N` entries, in a box. Their bytes stand beside it, so that a look-up reads one line of the box.
#[derive(Drop)]
pub(crate) struct Ranked<P: Listable<N>, const N: usize> {
    bytes: Ranks<N>,
    entries: Box<EntryList<P, N>>,
}

impl<P: Listable<N>, const N: usize> Model for Ranked<P, N> {
    ghost use Rattle.std.specs.Ordering.{nat_cmp};
    ghost use Rattle.std.specs.FinMap as map;
    ghost use Rattle.std.specs.Coded.{coded_ℕ};
    ghost use Rattle.congee.specs.forms.Places.{sorted_map, IsSorted};
    ghost use Rattle.congee.specs.owned.EntryCodes.{entry_code};
    ghost use Rattle.congee.specs.declared.owned.entries.Entry.{Entry};

    ghost Value = { map.FinMap nat_cmp (Entry P) };

    ghost coded = { map.code coded_ℕ (entry_code P.code) };

    ghost view = { λ s. sorted_map s.bytes s.entries.value.list.items };

    ghost invariant = { λ s. IsSorted s.bytes s.entries.value.list.items };
}

/// An entry for each byte.
#[derive(Drop)]
pub(crate) struct Places256<P> {
    pub(crate) children: Masked<Entry<P>>,
}

/// A payload of which a list of `N` entries fits in memory.
pub(crate) trait Listable<const N: usize>: Small {
    ghost use Rattle.std.specs.Mem.{FitsInMemory};
    ghost use Rattle.congee.specs.contracts.owned.places.EntryList.{the_row as list_row};

    ghost fits_list: { FitsInMemory (list_row Self.row N.row) };
}

impl<P: Small> Listable<16> for P {
    ghost use Rattle.congee.specs.owned.EntryRoom.{entries16_fits};

    ghost fits_list = { entries16_fits P.row P.small };
}

impl<P: Small> Listable<48> for P {
    ghost use Rattle.congee.specs.owned.EntryRoom.{entries48_fits};

    ghost fits_list = { entries48_fits P.row P.small };
}

/// A payload whose inner nodes fit in memory in every form. Each payload is one.
pub(crate) trait Nested: Listable<16> + Listable<48> {
    ghost use Rattle.std.specs.Mem.{FitsInMemory};
    ghost use Rattle.congee.specs.contracts.owned.places.Places256.{the_row as row_256};

    ghost fits_256: { FitsInMemory (row_256 Self.row) };
}

impl<P: Small> Nested for P {
    ghost use Rattle.congee.specs.owned.EntryRoom.{places256_fits};

    ghost fits_256 = { places256_fits P.row P.small };
}

/// What an inner node has by byte. The least form lies inline, the entries of the others in a box.
#[derive(Drop)]
pub(crate) enum Places<P: Nested> {
    N4(Sorted<Entry<P>, 4>),
    N16(Ranked<P, 16>),
    N48(Ranked<P, 48>),
    N256(Box<Places256<P>>),
}

impl<P: Listable<N>, const N: usize> Ranked<P, N> {
    /// No entries.
    fn new(alloc: Global) -> Result<Self, AllocError>
        requires { N < 256 }
        ensures { IfOk result (λ n. n ≡ map.empty) }
    {
        Ok(Ranked {
            bytes: Ranks::new(),
            entries: Box::new(
                alloc,
                EntryList {
                    list: ArrayVec::new(),
                },
            )?,
        })
    }

    /// How many entries there are.
    #[inline(always)]
    fn len(&self) -> usize
        ensures count { result ≡ map.len self.now }
        ensures fits { result ≤ N }
        ensures bytes { (b : ℕ) → IsSome (map.get self.now b) → b < 256 }
    {
        self.bytes.len()
    }

    /// The entry of a byte.
    #[inline(always)]
    fn get_child(&self, byte: u8) -> Option<&Entry<P>>
        ensures { option_copied result ≡ map.get self.now byte }
    {
        self.bytes.get_child(&self.entries.list, byte)
    }

    /// The entry of the least byte from `from` on.
    #[inline(always)]
    fn first_from(&self, from: usize) -> Option<(u8, &Entry<P>)>
        ensures { MatchOption result ((b : ℕ) → from ≤ b → map.get self.now b ≡ None)
            (λ r. IsFirst self.now from r.0 r.1.now) }
    {
        self.bytes.first_from(&self.entries.list, from)
    }

    /// The greatest byte below `end` that has an entry.
    #[inline(always)]
    fn last_below(&self, end: usize) -> Option<u8>
        requires { end ≤ 256 }
        ensures { IsLastBelow self.now end result }
    {
        self.bytes.last_below(end)
    }

    /// The entries from a byte on, in the order of their bytes.
    #[inline(always)]
    pub(crate) fn children_from(&self, from: usize) -> &[Entry<P>]
        ensures { Lists self.now from result.now }
    {
        self.bytes.children_from(&self.entries.list, from)
    }

    /// Adds an entry under a byte that has none, where there is room.
    #[inline(always)]
    fn insert(&mut self, byte: u8, entry: Entry<P>)
        requires absent { map.get self.old byte ≡ None }
        requires room { map.len self.old ≢ N }
        ensures { self.new ≡ map.insert self.old byte entry }
    {
        self.bytes.insert_child(&mut self.entries.list, byte, entry);
    }

    /// Puts another entry under a byte that has one, and gives the one before.
    #[inline(always)]
    fn change(&mut self, byte: u8, entry: Entry<P>) -> Entry<P>
        requires present { IsSome (map.get self.old byte) }
        ensures before { map.get self.old byte ≡ Some result }
        ensures after { self.new ≡ map.insert self.old byte entry }
    {
        self.bytes.change_child(&mut self.entries.list, byte, entry)
    }

    /// Takes out the entry of a byte that has one.
    #[inline(always)]
    fn remove(&mut self, byte: u8) -> Entry<P>
        requires present { IsSome (map.get self.old byte) }
        ensures before { map.get self.old byte ≡ Some result }
        ensures after { self.new ≡ map.remove self.old byte }
    {
        self.bytes.remove_child(&mut self.entries.list, byte)
    }

    /// Moves every entry to a list of another form, which has none and has room for them, and leaves blanks.
    fn move_to<const M: usize>(&mut self, other: &mut Ranked<P, M>)
    where
        P: Listable<M>,
        requires empty { other.old ≡ map.empty }
        requires room { map.len self.old ≤ M }
        ensures { other.new ≡ self.old }
    {
        self.bytes.move_children(
            &mut self.entries.list,
            &mut other.bytes,
            &mut other.entries.list,
        );
    }

    /// The same to the least form.
    fn move_to_least(&mut self, least: &mut Sorted<Entry<P>, 4>)
        requires empty { least.old ≡ map.empty }
        requires room { map.len self.old ≤ 4 }
        ensures { least.new ≡ self.old }
    {
        least.move_in(&self.bytes, &mut self.entries.list);
    }

    /// Moves every entry of the least form here, where none is and there is room for them.
    fn move_from_least(&mut self, least: &mut Sorted<Entry<P>, 4>)
        requires empty { self.old ≡ map.empty }
        requires room { map.len least.old ≤ N }
        ensures { self.new ≡ least.old }
    {
        least.move_out(&mut self.bytes, &mut self.entries.list);
    }
}

impl<P: Small> Places<P> {
    ghost use Rattle.congee.specs.declared.forms.base_node.NodeType.TheVariants.{N4};

    /// No entries, in a form. The least one asks for no memory.
    pub(crate) fn new(alloc: Global, form: NodeType) -> Result<Self, AllocError>
        ensures form { IfOk result (λ n. form_in n ≡ form) }
        ensures entries { IfOk result (λ n. entries_in n ≡ map.empty) }
        ensures memory { OnErr result (form ≢ N4) }
    {
        Ok(match form {
            NodeType::N4 => Places::N4(Sorted::new()),
            NodeType::N16 => Places::N16(Ranked::new(alloc)?),
            NodeType::N48 => Places::N48(Ranked::new(alloc)?),
            NodeType::N256 => Places::N256(Box::new(
                alloc,
                Places256 {
                    children: Masked::new(),
                },
            )?),
        })
    }

    /// No entries, in the least form.
    pub(crate) fn least() -> Self
        ensures form { form_in result ≡ N4 }
        ensures entries { entries_in result ≡ map.empty }
    {
        Places::N4(Sorted::new())
    }

    /// The form.
    #[inline(always)]
    pub(crate) fn node_type(&self) -> NodeType
        ensures { result ≡ form_in self.now }
    {
        match self {
            Places::N4(_) => NodeType::N4,
            Places::N16(_) => NodeType::N16,
            Places::N48(_) => NodeType::N48,
            Places::N256(_) => NodeType::N256,
        }
    }

    /// How many entries there are.
    #[inline(always)]
    pub(crate) fn len(&self) -> usize
        ensures count { result ≡ map.len (entries_in self.now) }
        ensures fits { result ≤ capacity_of (form_in self.now) }
        ensures bytes { (b : ℕ) → IsSome (map.get (entries_in self.now) b) → b < 256 }
    {
        match self {
            Places::N4(n) => n.len(),
            Places::N16(n) => n.len(),
            Places::N48(n) => n.len(),
            Places::N256(n) => n.children.len(),
        }
    }

    /// Whether no further entry fits.
    #[inline(always)]
    pub(crate) fn is_full(&self) -> bool
        ensures { result ≡ full_in self.now }
    {
        match self {
            Places::N4(n) => n.len() == 4,
            Places::N16(n) => n.len() == 16,
            Places::N48(n) => n.len() == 48,
            Places::N256(_) => false,
        }
    }

    /// The entry of a byte.
    #[inline(always)]
    pub(crate) fn get_child(&self, byte: u8) -> Option<&Entry<P>>
        ensures { option_copied result ≡ map.get (entries_in self.now) byte }
    {
        match self {
            Places::N4(n) => n.get_child(byte),
            Places::N16(n) => n.get_child(byte),
            Places::N48(n) => n.get_child(byte),
            Places::N256(n) => n.children.get_child(byte),
        }
    }

    /// The entry of the least byte from `from` on.
    #[inline(always)]
    pub(crate) fn first_from(&self, from: usize) -> Option<(u8, &Entry<P>)>
        ensures { MatchOption result ((b : ℕ) → from ≤ b → map.get (entries_in self.now) b ≡ None)
            (λ r. IsFirst (entries_in self.now) from r.0 r.1.now) }
    {
        match self {
            Places::N4(n) => n.first_from(from),
            Places::N16(n) => n.first_from(from),
            Places::N48(n) => n.first_from(from),
            Places::N256(n) => n.children.first_from(from),
        }
    }

    /// The greatest byte below `end` that has an entry.
    #[inline(always)]
    pub(crate) fn last_below(&self, end: usize) -> Option<u8>
        requires { end ≤ 256 }
        ensures { IsLastBelow (entries_in self.now) end result }
    {
        match self {
            Places::N4(n) => n.last_below(end),
            Places::N16(n) => n.last_below(end),
            Places::N48(n) => n.last_below(end),
            Places::N256(n) => n.children.last_below(end),
        }
    }

    /// Adds an entry under a byte that has none, where there is room.
    #[inline(always)]
    pub(crate) fn insert(&mut self, byte: u8, entry: Entry<P>)
        requires absent { map.get (entries_in self.old) byte ≡ None }
        requires room { full_in self.old ≡ false }
        ensures { Refills self.old self.new (map.insert (entries_in self.old) byte entry) }
    {
        match self {
            Places::N4(n) => n.insert(byte, entry),
            Places::N16(n) => n.insert(byte, entry),
            Places::N48(n) => n.insert(byte, entry),
            Places::N256(n) => n.children.insert(byte, entry),
        }
    }

    /// Puts another entry under a byte that has one, and gives the one before.
    #[inline(always)]
    pub(crate) fn change(&mut self, byte: u8, entry: Entry<P>) -> Entry<P>
        requires present { IsSome (map.get (entries_in self.old) byte) }
        ensures before { map.get (entries_in self.old) byte ≡ Some result }
        ensures after { Refills self.old self.new (map.insert (entries_in self.old) byte entry) }
    {
        match self {
            Places::N4(n) => n.change(byte, entry),
            Places::N16(n) => n.change(byte, entry),
            Places::N48(n) => n.change(byte, entry),
            Places::N256(n) => n.children.change(byte, entry),
        }
    }

    /// Takes out the entry of a byte that has one.
    #[inline(always)]
    pub(crate) fn remove(&mut self, byte: u8) -> Entry<P>
        requires present { IsSome (map.get (entries_in self.old) byte) }
        ensures before { map.get (entries_in self.old) byte ≡ Some result }
        ensures after { Refills self.old self.new (map.remove (entries_in self.old) byte) }
    {
        match self {
            Places::N4(n) => n.remove(byte),
            Places::N16(n) => n.remove(byte),
            Places::N48(n) => n.remove(byte),
            Places::N256(n) => n.children.remove(byte),
        }
    }

    /// Takes every entry out.
    pub(crate) fn clear(&mut self)
        ensures { Refills self.old self.new map.empty }
    {
        let mut next = 0;
        while let Some((byte, _)) = self.first_from(next) {
            self.remove(byte);
            next = 1 + byte as usize;
        }
    }

    /// Moves every entry to `other`, which has none and has room for them, and leaves a blank in the place of each. From a list
    /// to a list they go in their order.
    fn move_to(&mut self, other: &mut Places<P>)
        requires empty { entries_in other.old ≡ map.empty }
        requires room { map.len (entries_in self.old) ≤ capacity_of (form_in other.old) }
        ensures moved { Refills other.old other.new (entries_in self.old) }
    {
        match self {
            Places::N4(n) => {
                if let Places::N16(m) = other {
                    return m.move_from_least(n);
                }
            }
            Places::N16(n) => match other {
                Places::N4(m) => return n.move_to_least(m),
                Places::N48(m) => return n.move_to(m),
                _ => {}
            },
            Places::N48(n) => {
                if let Places::N16(m) = other {
                    return n.move_to(m);
                }
            }
            Places::N256(_) => {}
        }
        self.move_each(other);
    }

    /// The same by their bytes, between any forms.
    fn move_each(&mut self, other: &mut Places<P>)
        requires empty { entries_in other.old ≡ map.empty }
        requires room { map.len (entries_in self.old) ≤ capacity_of (form_in other.old) }
        ensures moved { Refills other.old other.new (entries_in self.old) }
    {
        let mut from = 0;
        while let Some((byte, _)) = self.first_from(from) {
            let entry = self.change(byte, Entry::Blank);
            other.insert(byte, entry);
            from = byte as usize + 1;
        }
    }

    /// Becomes the next greater form with the same entries. Memory is asked for first: where it is refused, all stays.
    pub(crate) fn grow(&mut self, alloc: Global) -> Result<(), AllocError>
        ensures form { OnOk result (form_in self.new ≡ next_form (form_in self.old)) }
        ensures entries { OnOk result (entries_in self.new ≡ entries_in self.old) }
        ensures refused { OnErr result (self.new ≡ self.old) }
    {
        let form = self.node_type().next();
        let mut greater = Places::new(alloc, form)?;
        prove!(self.len() <= form.capacity());
        self.move_to(&mut greater);
        *self = greater;
        Ok(())
    }

    /// Becomes the form below with the same entries. Memory is asked for first, but for the least form: where it is refused, all stays.
    pub(crate) fn shrink(&mut self, alloc: Global) -> Result<(), AllocError>
        requires room { map.len (entries_in self.old) ≤ capacity_of (form_below (form_in self.old)) }
        ensures form { OnOk result (form_in self.new ≡ form_below (form_in self.old)) }
        ensures entries { OnOk result (entries_in self.new ≡ entries_in self.old) }
        ensures refused { OnErr result (self.new ≡ self.old) }
        ensures memory { OnErr result (form_below (form_in self.old) ≢ N4) }
    {
        let form = self.node_type().below();
        let mut lesser = Places::new(alloc, form)?;
        self.move_to(&mut lesser);
        *self = lesser;
        Ok(())
    }
}
