//! One node of a plain list.
ghost use Rattle.std.specs.Prelude.{◌≡◌, ◌≢◌, ℕ, ◌+◌, ◌-◌, ◌^◌, ◌<◌, ◌≤◌, Bool, true, false, List, length, take, IfOk, MatchOption};
ghost use Rattle.congee.specs.Heap.{fits, Nothing};
ghost use Rattle.congee.specs.protocol.Events.{Parts, hung, kept, HoldsNodes, IsOther, ReadGives};
ghost use Rattle.congee.specs.declared.forms.prefix.TheConstants.{MAX_PREFIX_LEN};
ghost use Rattle.congee.specs.protocol.Plain.{is_there, count_of, child_at, NamesStay};

use crate::forms::base_node::NodeType;
use crate::forms::child::Child;
use crate::forms::prefix::Prefix;
use crate::keys::KEY_BYTES;
use crate::protocol::store::{Least, Reading, Seen};
use std::alloc::{AllocError, Global};
use std::mem;
use std::vec::Vec;

/// A node with a place for each byte, whatever its form.
#[derive(Drop)]
pub struct PlainNode {
    pub(crate) prefix: Prefix,
    pub(crate) children: Vec<Child<usize, u64>>,
    pub(crate) form: NodeType,
    pub(crate) version: u64,
    /// Whether a call has its lock.
    pub locked: bool,
    /// Whether a call took it out of the tree.
    pub obsolete: bool,
    /// Whether it was given back before it was hung.
    pub destroyed: bool,
    /// Whether it was handed over for its destruction.
    pub retired: bool,
    ghost wide: { length children.items ≡ 256 },
    ghost short: { length prefix ≤ MAX_PREFIX_LEN },
    ghost next: { locked ≡ true → version < 2 ^ 64 - 1 },
}

/// The first place at which the prefix isn't the key's beginning.
pub fn first_difference(prefix: &[u8], key: &[u8; KEY_BYTES]) -> Option<usize>
    requires { length prefix.now ≤ MAX_PREFIX_LEN }
    ensures { MatchOption result (fits prefix.now key.now ≡ true) (λ common. Parts prefix.now key.now common) }
{
    for i in 0..prefix.len() {
        if key[i] != prefix[i] {
            return Some(i);
        }
    }
    None
}

/// Whether something hangs there.
fn is_child(child: &Child<usize, u64>) -> bool
    ensures { result ≡ is_there child.now }
{
    !matches!(child, Child::Blank)
}

/// How many children there are.
fn count(children: &[Child<usize, u64>]) -> u16
    requires { length children.now ≤ 256 }
    ensures { result ≡ count_of children.now }
{
    let mut count = 0;
    for child in children {
        if is_child(child) {
            count += 1;
        }
    }
    count
}

/// A place for each byte, with nothing in it.
fn blanks(alloc: Global) -> Result<Vec<Child<usize, u64>>, AllocError>
    ensures wide { IfOk result (λ v. length v.items ≡ 256) }
    ensures blank { IfOk result (λ v. (b : ℕ) → child_at v.items b ≡ Nothing) }
    ensures empty { IfOk result (λ v. count_of v.items ≡ 0) }
{
    let mut children = Vec::with_capacity(alloc, 256)?;
    while children.len() < 256 {
        children.push_reserved(Child::Blank);
    }
    Ok(children)
}

/// The name of a node that hangs there.
fn only_name(child: &Child<usize, u64>) -> Child<usize, u64>
    ensures { hung (λ n. n) result ≡ kept (hung (λ n. n) child.now) }
{
    match child {
        Child::Node(name) => Child::Node(*name),
        // A value is no name, and a blank place has none.
        _ => Child::Blank,
    }
}

/// Writes the names of nodes, each at its own byte, and blanks everywhere else.
fn copy_names(from: &[Child<usize, u64>], to: &mut [Child<usize, u64>])
    requires { length from.now ≡ length to.old }
    ensures wide { length to.new ≡ length to.old }
    ensures names { NamesStay from.now to.new }
{
    for i in 0..from.len() {
        to[i] = only_name(&from[i]);
    }
}

impl PlainNode {
    ghost use Rattle.std.specs.Prelude.{Some};
    ghost use Rattle.congee.specs.Heap.{is_taken};
    ghost use Rattle.congee.specs.protocol.ScanEvents.{IsAny, LeastTruly, LeastGives};
    ghost use Rattle.congee.specs.protocol.Seeing.{IsSeen, ReadSees, LeastSees};
    ghost use Rattle.congee.specs.protocol.PlainHeap.{plain_node_of, IsFresh, IsTruly, MovesTo};

    /// An empty node on the key's way.
    pub(crate) fn new(
        alloc: Global,
        form: NodeType,
        key: &[u8; KEY_BYTES],
        size: usize,
    ) -> Result<Self, AllocError>
        requires { size ≤ MAX_PREFIX_LEN }
        ensures { IfOk result (λ n. IsFresh n form (take size key.now)) }
    {
        Ok(PlainNode {
            prefix: Prefix::new(&key[..size]),
            children: blanks(alloc)?,
            form,
            version: 0,
            locked: false,
            obsolete: false,
            destroyed: false,
            retired: false,
        })
    }

    /// Whether the lock word is free at this version.
    pub(crate) fn is_at(&self, version: u64) -> bool
        ensures { result ≡ is_taken (plain_node_of (Some self.now)) version }
    {
        self.version == version && !self.locked && !self.obsolete
    }

    /// What hangs at the byte.
    pub(crate) fn child(&self, byte: u8) -> Child<usize, u64>
        ensures { hung (λ n. n) result ≡ child_at self.now.children.items byte }
    {
        match &self.children[byte as usize] {
            Child::Blank => Child::Blank,
            Child::Node(name) => Child::Node(*name),
            Child::Value(value) => Child::Value(*value),
        }
    }

    /// How many children there are.
    pub(crate) fn count(&self) -> u16
        ensures { result ≡ count_of self.now.children.items }
    {
        count(&self.children)
    }

    /// What the node has at the byte for a call that took this version, or what another call is to see.
    fn look(&self, version: u64, byte: u8, seen: Option<Seen<usize, u64>>) -> Seen<usize, u64>
        ensures byte { result.byte ≡ byte }
        ensures fits { result.byte < 256 }
        ensures truly { is_taken (plain_node_of (Some self.now)) version ≡ true → IsTruly self.now byte result }
        ensures sees { is_taken (plain_node_of (Some self.now)) version ≡ false → IsSeen seen result }
    {
        if self.is_at(version) {
            let count = self.count();
            return Seen {
                child: self.child(byte),
                byte,
                full: count as usize == self.form.capacity(),
                count,
            };
        }
        match seen {
            None => Seen {
                child: Child::Blank,
                byte,
                full: false,
                count: 0,
            },
            Some(seen) => Seen { byte, ..seen },
        }
    }

    /// Compares the key with the prefix, and looks at the key's byte.
    pub(crate) fn read(
        &self,
        version: u64,
        key: &[u8; KEY_BYTES],
        seen: Option<Seen<usize, u64>>,
    ) -> Reading<usize, u64>
        ensures gives { ReadGives (λ n. n) true (plain_node_of (Some self.now)) version key.now result }
        ensures sees { ReadSees (plain_node_of (Some self.now)) version seen result }
    {
        match first_difference(self.prefix.as_slice(), key) {
            Some(common) => Reading::Differs {
                common,
                byte: self.prefix.as_slice()[common],
            },
            None => {
                let depth = self.prefix.len();
                let seen = self.look(version, key[depth], seen);
                Reading::Fits {
                    depth,
                    form: self.form,
                    seen,
                }
            }
        }
    }

    /// The child of the least byte within bounds, for a call that took this version, or what another call is to see.
    pub(crate) fn least(
        &self,
        version: u64,
        from: u16,
        last: u8,
        seen: Option<Seen<usize, u64>>,
    ) -> Least<usize, u64>
        ensures gives { LeastGives (λ n. n) true (plain_node_of (Some self.now)) version from last result }
        ensures sees { LeastSees (plain_node_of (Some self.now)) version seen result }
    {
        if self.is_at(version) {
            return self.least_child(from, last);
        }
        let Some(seen) = seen else {
            return Least::Nothing;
        };
        match seen.child {
            Child::Blank => Least::Nothing,
            Child::Node(node) => Least::Node {
                byte: seen.byte,
                node,
            },
            Child::Value(value) => Least::Value {
                byte: seen.byte,
                value,
            },
        }
    }

    /// The child of the least byte within bounds.
    fn least_child(&self, from: u16, last: u8) -> Least<usize, u64>
        ensures any { IsAny true result }
        ensures truly { LeastTruly (λ n. n) (plain_node_of (Some self.now)) from last result }
    {
        for place in from..last as u16 + 1 {
            let byte = place as u8;
            match self.child(byte) {
                Child::Blank => {}
                Child::Node(node) => return Least::Node { byte, node },
                Child::Value(value) => return Least::Value { byte, value },
            }
        }
        Least::Nothing
    }

    /// The node that hangs beside the one at the byte, where there are two.
    pub(crate) fn other(&self, byte: u8) -> usize
        requires nodes { HoldsNodes (plain_node_of (Some self.now)) }
        requires two { count_of self.now.children.items ≡ 2 }
        requires there { child_at self.now.children.items byte ≢ Nothing }
        ensures { IsOther (plain_node_of (Some self.now)) byte result }
    {
        for place in 0..256u16 {
            let at = place as u8;
            if at == byte {
                continue;
            }
            if let Child::Node(node) = self.child(at) {
                return node;
            }
        }
        // Not reached: there are two.
        0
    }

    /// Gives the children to another node. The names of nodes stay here too.
    pub(crate) fn move_to(&mut self, greater: &mut PlainNode)
        ensures { MovesTo self.old greater.old self.new greater.new }
    {
        copy_names(&self.children, &mut greater.children);
        mem::swap(&mut self.children, &mut greater.children);
    }
}
