//! Children by an index of 256 bytes.
ghost use Rattle.std.specs.Prelude.{◌≡◌, ◌≢◌, ◌<◌, ◌≤◌, ℕ, MatchOption, None, Some, IsSome};
ghost use Rattle.std.specs.Option.{option_copied};
ghost use Rattle.std.specs.FinMap as map;
ghost use Rattle.congee.specs.forms.Bytes.{IsFirst, IsLastBelow};

use crate::forms::index::{EMPTY_MARKER, Index};
use arrayvec::ArrayVec;
use std::marker::Model;
use std::mem;

/// At most 48 children, in the order in which they came.
#[derive(Drop)]
pub(crate) struct Indexed<X> {
    index: Index,
    children: ArrayVec<X, 48>,
}

impl<X> Model for Indexed<X> {
    ghost use Rattle.std.specs.Ordering.{nat_cmp};
    ghost use Rattle.std.specs.FinMap as map;
    ghost use Rattle.std.specs.Coded.{coded_ℕ};

    ghost Value = { map.FinMap nat_cmp X };

    ghost coded = { map.code coded_ℕ X.code };

    ghost use Rattle.congee.specs.forms.Index.{indexed_map, IsIndexed};

    ghost view = { λ s. indexed_map s.index s.children.items };

    ghost invariant = { λ s. IsIndexed s.index s.children.items };
}

impl<X> Indexed<X> {
    /// How many children there are.
    #[inline(always)]
    pub(crate) fn len(&self) -> usize
        ensures count { result ≡ map.len self.now }
        ensures fits { result ≤ 48 }
        ensures bytes { (b : ℕ) → IsSome (map.get self.now b) → b < 256 }
    {
        self.index.len() as usize
    }

    /// The child of a byte.
    #[inline(always)]
    pub(crate) fn get_child(&self, byte: u8) -> Option<&X>
        ensures { option_copied result ≡ map.get self.now byte }
    {
        let place = self.index.place(byte);
        if place == EMPTY_MARKER {
            return None;
        }
        Some(&self.children.as_slice()[place as usize])
    }

    /// The child of the least byte from `from` on.
    #[inline(always)]
    pub(crate) fn first_from(&self, from: usize) -> Option<(u8, &X)>
        ensures { MatchOption result ((b : ℕ) → from ≤ b → map.get self.now b ≡ None)
            (λ r. IsFirst self.now from r.0 r.1.now) }
    {
        match self.index.first_from(from) {
            None => None,
            Some(byte) => Some((
                byte,
                &self.children.as_slice()[self.index.place(byte) as usize],
            )),
        }
    }

    /// The greatest byte below `end` that has a child.
    #[inline(always)]
    pub(crate) fn last_below(&self, end: usize) -> Option<u8>
        requires { end ≤ 256 }
        ensures { IsLastBelow self.now end result }
    {
        self.index.last_below(end)
    }
}

impl<X: Default + Drop> Indexed<X> {
    /// No children.
    pub(crate) fn new() -> Self
        ensures { result ≡ map.empty }
    {
        let mut children = ArrayVec::new();
        while !children.is_full() {
            children.push(X::default());
        }
        Indexed {
            index: Index::new(),
            children,
        }
    }

    /// Adds a child under a byte that has none.
    #[inline(always)]
    pub(crate) fn insert(&mut self, byte: u8, child: X)
        requires absent { map.get self.old byte ≡ None }
        requires room { map.len self.old ≢ 48 }
        ensures { self.new ≡ map.insert self.old byte child }
    {
        let place = self.index.insert(byte) as usize;
        self.children[place] = child;
    }

    /// Puts another child under a byte, and gives the one before.
    #[inline(always)]
    pub(crate) fn change(&mut self, byte: u8, child: X) -> X
        requires present { IsSome (map.get self.old byte) }
        ensures before { map.get self.old byte ≡ Some result }
        ensures after { self.new ≡ map.insert self.old byte child }
    {
        let place = self.index.place(byte) as usize;
        mem::replace(&mut self.children[place], child)
    }

    /// Takes out the child of a byte.
    #[inline(always)]
    pub(crate) fn remove(&mut self, byte: u8) -> X
        requires present { IsSome (map.get self.old byte) }
        ensures before { map.get self.old byte ≡ Some result }
        ensures after { self.new ≡ map.remove self.old byte }
    {
        let place = self.index.remove(byte) as usize;
        mem::take(&mut self.children[place])
    }
}
