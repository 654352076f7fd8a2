//! Children in the order of their bytes, each found by how many bytes are lower.
ghost use Rattle.std.specs.Prelude.{◌≡◌, ◌≢◌, ◌<◌, ◌≤◌, ℕ, [], length, MatchOption, None, Some, IsSome};
ghost use Rattle.std.specs.Option.{option_copied};
ghost use Rattle.std.specs.FinMap as map;
ghost use Rattle.congee.specs.forms.Bytes.{IsFirst, IsLastBelow, Lists};
ghost use Rattle.congee.specs.forms.Places.{sorted_map, IsSorted};

use crate::forms::ranks::Ranks;
use arrayvec::ArrayVec;
use std::marker::Model;
use std::mem;

impl<const N: usize> Ranks<N> {
    /// The child of a byte, of children that stand in the order of these bytes.
    #[inline(always)]
    pub(crate) fn get_child<'a, X>(&self, children: &'a ArrayVec<X, N>, byte: u8) -> Option<&'a X>
        requires { IsSorted self.now children.now.items }
        ensures { option_copied result ≡ map.get (sorted_map self.now children.now.items) byte }
    {
        let place = self.place_of(byte);
        if place < self.len() && self.at(place) == byte {
            return Some(&children.as_slice()[place]);
        }
        None
    }

    /// The child of the least byte from `from` on.
    #[inline(always)]
    pub(crate) fn first_from<'a, X>(
        &self,
        children: &'a ArrayVec<X, N>,
        from: usize,
    ) -> Option<(u8, &'a X)>
        requires { IsSorted self.now children.now.items }
        ensures { MatchOption result ((b : ℕ) → from ≤ b → map.get (sorted_map self.now children.now.items) b ≡ None)
            (λ r. IsFirst (sorted_map self.now children.now.items) from r.0 r.1.now) }
    {
        let len = self.len();
        if from > 255 {
            return None;
        }
        let place = self.place_of(from as u8);
        if place == len {
            return None;
        }
        Some((self.at(place), &children.as_slice()[place]))
    }

    /// The children from `from` on, in the order of their bytes.
    #[inline(always)]
    pub(crate) fn children_from<'a, X>(&self, children: &'a ArrayVec<X, N>, from: usize) -> &'a [X]
        requires { IsSorted self.now children.now.items }
        ensures { Lists (sorted_map self.now children.now.items) from result.now }
    {
        let children = children.as_slice();
        let len = self.len();
        if from > 255 {
            return &children[len..];
        }
        &children[self.place_of(from as u8)..len]
    }

    /// Adds a child under a byte that has none.
    #[inline(always)]
    pub(crate) fn insert_child<X: Default + Drop>(
        &mut self,
        children: &mut ArrayVec<X, N>,
        byte: u8,
        child: X,
    )
        requires sorted { IsSorted self.old children.old.items }
        requires absent { map.get (sorted_map self.old children.old.items) byte ≡ None }
        requires room { map.len (sorted_map self.old children.old.items) ≢ N }
        ensures sorted { IsSorted self.new children.new.items }
        ensures after { sorted_map self.new children.new.items ≡ map.insert (sorted_map self.old children.old.items) byte child }
    {
        let place = self.place_of(byte);
        self.insert(place, byte);
        children.insert(place, child);
    }

    /// Puts another child under a byte, and gives the one before.
    #[inline(always)]
    pub(crate) fn change_child<X: Default + Drop>(
        &self,
        children: &mut ArrayVec<X, N>,
        byte: u8,
        child: X,
    ) -> X
        requires sorted { IsSorted self.now children.old.items }
        requires present { IsSome (map.get (sorted_map self.now children.old.items) byte) }
        ensures before { map.get (sorted_map self.now children.old.items) byte ≡ Some result }
        ensures sorted { IsSorted self.now children.new.items }
        ensures after { sorted_map self.now children.new.items ≡ map.insert (sorted_map self.now children.old.items) byte child }
    {
        let place = self.place_of(byte);
        mem::replace(&mut children[place], child)
    }

    /// Takes out the child of a byte.
    #[inline(always)]
    pub(crate) fn remove_child<X: Default + Drop>(
        &mut self,
        children: &mut ArrayVec<X, N>,
        byte: u8,
    ) -> X
        requires sorted { IsSorted self.old children.old.items }
        requires present { IsSome (map.get (sorted_map self.old children.old.items) byte) }
        ensures before { map.get (sorted_map self.old children.old.items) byte ≡ Some result }
        ensures sorted { IsSorted self.new children.new.items }
        ensures after { sorted_map self.new children.new.items ≡ map.remove (sorted_map self.old children.old.items) byte }
    {
        let place = self.place_of(byte);
        self.remove(place);
        children.remove(place)
    }

    /// Moves the children to others, of which there are none yet, under the same bytes and in the same order. Each leaves a default.
    #[inline(always)]
    pub(crate) fn move_children<X: Default + Drop, const M: usize>(
        &self,
        children: &mut ArrayVec<X, N>,
        others: &mut Ranks<M>,
        moved: &mut ArrayVec<X, M>,
    )
        requires same { length self.now ≡ length children.old.items }
        requires no_bytes { others.old ≡ [] }
        requires no_children { moved.old.items ≡ [] }
        requires room { length self.now ≤ M }
        ensures bytes { others.new ≡ self.now }
        ensures children { moved.new.items ≡ children.old.items }
        ensures stays { length children.new.items ≡ length children.old.items }
    {
        for place in 0..self.len() {
            others.insert(place, self.at(place));
            moved.push(mem::take(&mut children[place]));
        }
    }
}

/// At most `N` children, in two arrays that rise by byte.
#[derive(Drop)]
pub(crate) struct Sorted<X, const N: usize> {
    bytes: Ranks<N>,
    children: ArrayVec<X, N>,
}

impl<X, const N: usize> Model for Sorted<X, N> {
    ghost use Rattle.std.specs.Ordering.{nat_cmp};
    ghost use Rattle.std.specs.FinMap as map;
    ghost use Rattle.std.specs.Coded.{coded_ℕ};
    ghost use Rattle.congee.specs.forms.Places.{sorted_map, IsSorted};

    ghost Value = { map.FinMap nat_cmp X };

    ghost coded = { map.code coded_ℕ X.code };

    ghost view = { λ s. sorted_map s.bytes s.children.items };

    ghost invariant = { λ s. IsSorted s.bytes s.children.items };
}

impl<X, const N: usize> Sorted<X, N> {
    /// How many children there are.
    #[inline(always)]
    pub(crate) fn len(&self) -> usize
        ensures count { result ≡ map.len self.now }
        ensures fits { result ≤ N }
        ensures bytes { (b : ℕ) → IsSome (map.get self.now b) → b < 256 }
    {
        self.bytes.len()
    }

    /// The child of a byte.
    #[inline(always)]
    pub(crate) fn get_child(&self, byte: u8) -> Option<&X>
        ensures { option_copied result ≡ map.get self.now byte }
    {
        self.bytes.get_child(&self.children, byte)
    }

    /// The child of the least byte from `from` on.
    #[inline(always)]
    pub(crate) fn first_from(&self, from: usize) -> Option<(u8, &X)>
        ensures { MatchOption result ((b : ℕ) → from ≤ b → map.get self.now b ≡ None)
            (λ r. IsFirst self.now from r.0 r.1.now) }
    {
        self.bytes.first_from(&self.children, from)
    }

    /// The greatest byte below `end` that has a child.
    #[inline(always)]
    pub(crate) fn last_below(&self, end: usize) -> Option<u8>
        requires { end ≤ 256 }
        ensures { IsLastBelow self.now end result }
    {
        self.bytes.last_below(end)
    }

    /// The children from `from` on, in the order of their bytes.
    #[inline(always)]
    pub(crate) fn children_from(&self, from: usize) -> &[X]
        ensures { Lists self.now from result.now }
    {
        self.bytes.children_from(&self.children, from)
    }
}

impl<X: Default + Drop, const N: usize> Sorted<X, N> {
    /// No children.
    pub(crate) fn new() -> Self
        requires { N < 256 }
        ensures { result ≡ map.empty }
    {
        Sorted {
            bytes: Ranks::new(),
            children: ArrayVec::new(),
        }
    }

    /// Adds a child under a byte that has none.
    #[inline(always)]
    pub(crate) fn insert(&mut self, byte: u8, child: X)
        requires absent { map.get self.old byte ≡ None }
        requires room { map.len self.old ≢ N }
        ensures { self.new ≡ map.insert self.old byte child }
    {
        self.bytes.insert_child(&mut self.children, byte, child);
    }

    /// Puts another child under a byte, and gives the one before.
    #[inline(always)]
    pub(crate) fn change(&mut self, byte: u8, child: X) -> X
        requires present { IsSome (map.get self.old byte) }
        ensures before { map.get self.old byte ≡ Some result }
        ensures after { self.new ≡ map.insert self.old byte child }
    {
        self.bytes.change_child(&mut self.children, byte, child)
    }

    /// Takes out the child of a byte.
    #[inline(always)]
    pub(crate) fn remove(&mut self, byte: u8) -> X
        requires present { IsSome (map.get self.old byte) }
        ensures before { map.get self.old byte ≡ Some result }
        ensures after { self.new ≡ map.remove self.old byte }
    {
        self.bytes.remove_child(&mut self.children, byte)
    }

    /// Moves the children to the two arrays of another list, which are empty.
    pub(crate) fn move_out<const M: usize>(
        &mut self,
        bytes: &mut Ranks<M>,
        children: &mut ArrayVec<X, M>,
    )
        requires no_bytes { bytes.old ≡ [] }
        requires no_children { children.old.items ≡ [] }
        requires room { map.len self.old ≤ M }
        ensures sorted { IsSorted bytes.new children.new.items }
        ensures moved { sorted_map bytes.new children.new.items ≡ self.old }
    {
        self.bytes
            .move_children(&mut self.children, bytes, children);
    }

    /// Moves the children of two such arrays into this list, which is empty.
    pub(crate) fn move_in<const M: usize>(
        &mut self,
        bytes: &Ranks<M>,
        children: &mut ArrayVec<X, M>,
    )
        requires sorted { IsSorted bytes.now children.old.items }
        requires empty { self.old ≡ map.empty }
        requires room { length bytes.now ≤ N }
        ensures moved { self.new ≡ sorted_map bytes.now children.old.items }
        ensures stays { length children.new.items ≡ length children.old.items }
    {
        bytes.move_children(children, &mut self.bytes, &mut self.children);
    }
}
