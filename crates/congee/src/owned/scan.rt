//! The pairs of an arena by ascending keys.
ghost use Rattle.std.specs.Prelude.{◌≡◌, ◌+◌, ℕ, ◌<◌, ◌≤◌, ◌^◌, [], ◌∷◌, ◌++◌, length, take, drop, None, OnSome, IfOk, MatchOption};
ghost use Rattle.std.specs.FinMap as map;
ghost use Rattle.congee.specs.Keys.{key_bytes};
ghost use Rattle.congee.specs.owned.Arena.{IsTree};
ghost use Rattle.congee.specs.owned.Iterating.{IsFirstIn, IsLastBefore};
ghost use Rattle.congee.specs.owned.Nearest.{IsLeast, IsLeastIn, IsLeastPair, IsGreatest, IsGreatestIn, IsGreatestPair, NoneBelow, NoneFrom};
ghost use Rattle.congee.specs.owned.Cursor.{IsAt, steps_left};
ghost use Rattle.congee.specs.owned.Table.{pairs_of};
ghost use Rattle.congee.specs.owned.Ranges.{entries_by, in_range, keys_by};
ghost use Rattle.congee.specs.owned.Sights.{Sees};
ghost use Rattle.congee.specs.owned.Walks.{IsWalk, steps_of};
ghost use Rattle.slab.specs.Slab.{ContainsKey};

use crate::allocator::Allocator;
use crate::keys::{KEY_BYTES, bytes_of_key};
use crate::owned::arena::{Arena, Stored};
use crate::owned::names::Name;
use crate::owned::place::Way;
use crate::owned::prefix_split::Parting;
use crate::owned::sight::{Next, Sight};
use arrayvec::ArrayVec;
use judge::Word64;
use std::alloc::{AllocError, Global};

/// A node on a walk's way, and the least of its bytes that the walk has yet to look at: 256 where none is left.
#[derive(Clone, Copy, Default)]
pub(crate) struct Branch {
    node: Name,
    from: usize,
}

/// The nodes of a walk's way from the root down, each below the one before.
type Cursor = ArrayVec<Branch, KEY_BYTES>;

/// A walk over the pairs, ascending. The node that it is in was read once, and is left only for the next one below or above.
#[derive(Drop)]
pub(crate) struct Walk<'a, P: Stored> {
    above: Cursor,
    at: Name,
    from: usize,
    sight: Sight<'a, P>,
}

impl<P: Stored, A: Allocator> Arena<P, A> {
    /// A walk that is at a node, below these steps.
    #[inline(always)]
    fn enter(&self, above: Cursor, at: Name, from: usize) -> Walk<'_, P>
        requires { ContainsKey self.now.nodes at }
        ensures steps { steps_of result ≡ above.items ++ record { node = at; from = from } ∷ [] }
        ensures sees { Sees self.now.nodes result.at result.sight }
    {
        Walk {
            above,
            at,
            from,
            sight: self.nodes.sight(at),
        }
    }

    /// The walk before every pair.
    pub(crate) fn beginning(&self) -> Walk<'_, P>
        requires { IsTree self.now.nodes }
        ensures walk { IsWalk self.now.nodes result }
        ensures at { IsAt self.now.nodes (steps_of result) 0 }
    {
        self.enter(Cursor::new(), Name::root(), 0)
    }

    /// The walk after every pair.
    pub(crate) fn ending(&self) -> Walk<'_, P>
        requires { IsTree self.now.nodes }
        ensures walk { IsWalk self.now.nodes result }
        ensures at { IsAt self.now.nodes (steps_of result) (2 ^ 64) }
    {
        self.enter(Cursor::new(), Name::root(), 256)
    }

    /// The walk before the pair of the least key from a number on.
    pub(crate) fn seek(&self, key: u64) -> Walk<'_, P>
        requires { IsTree self.now.nodes }
        ensures walk { IsWalk self.now.nodes result }
        ensures at { IsAt self.now.nodes (steps_of result) key }
    {
        let bytes = bytes_of_key(&key);
        let mut above = Cursor::new();
        let mut at = Name::root();
        loop {
            let mut from = bytes[self.nodes.prefix_len(at)] as usize;
            match self.nodes.look(at, &bytes) {
                Way::Free => return self.enter(above, at, from),
                Way::Held(_) => return self.enter(above, at, from),
                Way::Apart(below) => {
                    let Parting { place, other } = self.nodes.parting(below, &bytes);
                    if other < bytes[place] {
                        from += 1;
                    }
                    return self.enter(above, at, from);
                }
                Way::Below(below) => {
                    above.push(Branch {
                        node: at,
                        from: from + 1,
                    });
                    at = below;
                }
            }
        }
    }

    /// The walk after the pair of the greatest key up to a number.
    pub(crate) fn seek_past(&self, last: u64) -> Walk<'_, P>
        requires { IsTree self.now.nodes }
        ensures walk { IsWalk self.now.nodes result }
        ensures at { IsAt self.now.nodes (steps_of result) (last + 1) }
    {
        match last.checked_add(1) {
            Some(end) => self.seek(end),
            None => self.ending(),
        }
    }

    /// The next pair. The walk is past it then.
    #[inline(always)]
    pub(crate) fn next_along<'a>(&'a self, walk: &mut Walk<'a, P>) -> Option<(u64, &'a P)>
        requires tree { IsTree self.now.nodes }
        requires walk { IsWalk self.now.nodes walk.old }
        ensures walk { IsWalk self.now.nodes walk.new }
        ensures less { OnSome result (steps_left KEY_BYTES (steps_of walk.new) < steps_left KEY_BYTES (steps_of walk.old)) }
        ensures first { (from : ℕ) → IsAt self.now.nodes (steps_of walk.old) from
            → MatchOption result ((q : ℕ) → from ≤ q → map.get (pairs_of self.now.nodes) q ≡ None)
            (λ r. IsLeastPair (pairs_of self.now.nodes) from r.0 r.1.now × IsAt self.now.nodes (steps_of walk.new) (r.0 + 1)) }
    {
        'steps: loop {
            let Some((byte, child)) = walk.sight.first_from(walk.from) else {
                let Some(branch) = walk.above.pop() else {
                    return None;
                };
                walk.at = branch.node;
                walk.from = branch.from;
                walk.sight = self.nodes.sight(walk.at);
                continue 'steps;
            };
            walk.from = byte as usize + 1;
            match child {
                Next::Blank => unreachable!(),
                Next::Value(key, value) => return Some((key, value)),
                Next::Leaf(_, key, value) => return Some((key, value)),
                Next::Node(below) => {
                    walk.above.push(Branch {
                        node: walk.at,
                        from: walk.from,
                    });
                    walk.at = below;
                    walk.from = 0;
                    walk.sight = self.nodes.sight(walk.at);
                }
            }
        }
    }

    /// The pair before. The walk is before it then.
    #[inline(always)]
    pub(crate) fn back_along<'a>(&'a self, walk: &mut Walk<'a, P>) -> Option<(u64, &'a P)>
        requires tree { IsTree self.now.nodes }
        requires walk { IsWalk self.now.nodes walk.old }
        ensures walk { IsWalk self.now.nodes walk.new }
        ensures last { (end : ℕ) → IsAt self.now.nodes (steps_of walk.old) end
            → MatchOption result ((q : ℕ) → q < end → map.get (pairs_of self.now.nodes) q ≡ None)
            (λ r. IsGreatestPair (pairs_of self.now.nodes) end r.0 r.1.now × IsAt self.now.nodes (steps_of walk.new) r.0) }
    {
        'steps: loop {
            let Some(last) = walk.sight.last_below(walk.from) else {
                let Some(branch) = walk.above.pop() else {
                    return None;
                };
                walk.at = branch.node;
                walk.from = branch.from - 1;
                walk.sight = self.nodes.sight(walk.at);
                continue 'steps;
            };
            let Some((byte, child)) = walk.sight.first_from(last as usize) else {
                unreachable!()
            };
            match child {
                Next::Blank => unreachable!(),
                Next::Value(key, value) => {
                    walk.from = byte as usize;
                    return Some((key, value));
                }
                Next::Leaf(_, key, value) => {
                    walk.from = byte as usize;
                    return Some((key, value));
                }
                Next::Node(below) => {
                    walk.above.push(Branch {
                        node: walk.at,
                        from: byte as usize + 1,
                    });
                    walk.at = below;
                    walk.from = 256;
                    walk.sight = self.nodes.sight(walk.at);
                }
            }
        }
    }

    /// The pair of the least key.
    pub(crate) fn first(&self) -> Option<(u64, &P)>
        requires { IsTree self.now.nodes }
        ensures { MatchOption result ((q : ℕ) → 0 ≤ q → map.get (pairs_of self.now.nodes) q ≡ None)
            (λ r. IsLeastPair (pairs_of self.now.nodes) 0 r.0 r.1.now) }
    {
        self.next_along(&mut self.beginning())
    }

    /// The pair of the least key from a number on.
    pub(crate) fn pair_from(&self, from: u64) -> Option<(u64, &P)>
        requires { IsTree self.now.nodes }
        ensures { MatchOption result (NoneFrom (pairs_of self.now.nodes) from)
            (λ r. IsLeastPair (pairs_of self.now.nodes) from r.0 r.1.now) }
    {
        self.next_along(&mut self.seek(from))
    }

    /// The pair of the greatest key up to a number, itself included.
    pub(crate) fn pair_to(&self, last: u64) -> Option<(u64, &P)>
        requires { IsTree self.now.nodes }
        ensures { MatchOption result (NoneBelow (pairs_of self.now.nodes) (last + 1))
            (λ r. IsGreatestPair (pairs_of self.now.nodes) (last + 1) r.0 r.1.now) }
    {
        self.back_along(&mut self.seek_past(last))
    }

    /// No key is past the greatest number of 64 bits.
    pub(crate) fn words_end(&self)
        ensures { NoneFrom (pairs_of self.now.nodes) (2 ^ 64) }
    {}

    /// All keys, ascending.
    pub(crate) fn keys<K: Word64>(&self, alloc: Global) -> Result<Vec<K, Global>, AllocError>
        requires { IsTree self.now.nodes }
        ensures { IfOk result (λ keys. keys.items ≡ keys_by K.of_word (map.entries (pairs_of self.now.nodes))) }
    {
        let mut keys = Vec::new(alloc);
        let mut walk = self.beginning();
        while let Some((key, _)) = self.next_along(&mut walk) {
            if keys.push(K::from_word(key)).is_err() {
                return Err(AllocError);
            }
        }
        Ok(keys)
    }
}

impl<A: Allocator> Arena<u64, A> {
    /// The pair of the least key from a number on.
    pub(crate) fn first_from(&self, from: u64) -> Option<(u64, u64)>
        requires { IsTree self.now.nodes }
        ensures { IsLeast (pairs_of self.now.nodes) from result }
    {
        let mut walk = self.seek(from);
        match self.next_along(&mut walk) {
            Some((key, value)) => Some((key, *value)),
            None => None,
        }
    }

    /// The pair of the greatest key up to a number, itself included.
    pub(crate) fn last_to(&self, last: u64) -> Option<(u64, u64)>
        requires { IsTree self.now.nodes }
        ensures { IsGreatest (pairs_of self.now.nodes) (last + 1) result }
    {
        let mut walk = self.seek_past(last);
        match self.back_along(&mut walk) {
            Some((key, value)) => Some((key, *value)),
            None => None,
        }
    }

    /// The pair of the least key from a number on to the last one, that included; none where there is no such number.
    pub(crate) fn first_between(&self, from: Option<u64>, last: Option<u64>) -> Option<(u64, u64)>
        requires { IsTree self.now.nodes }
        ensures { (a b : ℕ) → IsFirstIn from a → IsLastBefore last b → IsLeastIn (pairs_of self.now.nodes) a b result }
    {
        let Some(from) = from else {
            return None;
        };
        let Some(last) = last else {
            return None;
        };
        match self.first_from(from) {
            Some((key, value)) if key <= last => Some((key, value)),
            _ => None,
        }
    }

    /// The pair of the greatest such key.
    pub(crate) fn last_between(&self, from: Option<u64>, last: Option<u64>) -> Option<(u64, u64)>
        requires { IsTree self.now.nodes }
        ensures { (a b : ℕ) → IsFirstIn from a → IsLastBefore last b → IsGreatestIn (pairs_of self.now.nodes) a b result }
    {
        let Some(from) = from else {
            return None;
        };
        let Some(last) = last else {
            return None;
        };
        match self.last_to(last) {
            Some((key, value)) if key >= from => Some((key, value)),
            _ => None,
        }
    }

    /// Writes the pairs with start <= key < end, ascending, as many as fit, and gives their number.
    pub(crate) fn range<E: Listed>(&self, start: u64, end: u64, out: &mut [E]) -> usize
        requires { IsTree self.now.nodes }
        ensures pairs { take result out.new ≡ entries_by E.entry (take (length out.old) (in_range start end (map.entries (pairs_of self.now.nodes)))) }
        ensures count { result ≡ length (take (length out.old) (in_range start end (map.entries (pairs_of self.now.nodes)))) }
        ensures past { drop result out.new ≡ drop result out.old }
    {
        match end.checked_sub(1) {
            Some(last) => self.range_to(start, last, out),
            None => 0,
        }
    }

    /// Writes the pairs with start <= key <= last, ascending, as many as fit, and gives their number.
    #[inline(always)]
    pub(crate) fn range_to<E: Listed>(&self, start: u64, last: u64, out: &mut [E]) -> usize
        requires { IsTree self.now.nodes }
        ensures pairs { take result out.new ≡ entries_by E.entry (take (length out.old) (in_range start (last + 1) (map.entries (pairs_of self.now.nodes)))) }
        ensures count { result ≡ length (take (length out.old) (in_range start (last + 1) (map.entries (pairs_of self.now.nodes)))) }
        ensures past { drop result out.new ≡ drop result out.old }
    {
        let mut walk = self.seek(start);
        let mut written = self.nodes.write_from(walk.at, walk.from, last, out, 0);
        while !written.over {
            let Some(branch) = walk.above.pop() else {
                return written.count;
            };
            written = self
                .nodes
                .write_from(branch.node, branch.from, last, out, written.count);
        }
        written.count
    }
}

/// A pair as the caller of a scan has it in its slice.
pub(crate) trait Listed: Copy {
    /// What stands for a key and its value.
    ghost entry: { ℕ → ℕ → Self };

    /// The key and the value, as one.
    fn of(key: u64, value: u64) -> Self
        ensures { result ≡ entry key value };
}

/// The key as a number.
impl Listed for (u64, u64) {
    ghost entry = { λ key value. (key, value) };

    fn of(key: u64, value: u64) -> Self {
        (key, value)
    }
}

/// The key as its eight bytes, the highest first.
impl Listed for ([u8; KEY_BYTES], u64) {
    ghost entry = { λ key value. (key_bytes key, value) };

    fn of(key: u64, value: u64) -> Self {
        (bytes_of_key(&key), value)
    }
}
