//! The nodes of a shared tree, as one call's steps reach them.
ghost use Rattle.std.specs.Prelude.{◌≡◌, ◌≢◌, ℕ, ◌+◌, ◌<◌, ◌≤◌, Bool, true, false};
ghost use Rattle.congee.specs.Heap.{Node, Nothing, Stands, version_of, is_taken};
ghost use Rattle.congee.specs.protocol.Events.{hung, HoldsNodes, IsOther, ReadGives, UpgradeGives, MayChange, ChangeGives, MakeGives, TakesOver, TakeOverGives, BackGives, ObsoleteGives, RetireGives, UnlockGives};
ghost use Rattle.congee.specs.protocol.Regions.{IsRegion};
ghost use Rattle.congee.specs.protocol.ScanEvents.{LeastGives};
ghost use Rattle.congee.specs.protocol.Seeing.{ReadSees, LeastSees};
ghost use Rattle.std.specs.Prelude.{IfErr};

use crate::forms::base_node::NodeType;
use crate::forms::child::Child;
use crate::forms::prefix::MAX_PREFIX_LEN;
use crate::keys::KEY_BYTES;
use judge::Payload;

/// The name of a node: two names are of one node where their numbers are equal.
pub trait NodeName: Copy {
    /// The number of a name.
    ghost number: { Self → ℕ };

    /// It tells the name.
    ghost tells: { (c d : Self) → number c ≡ number d → c ≡ d };
}

/// A node, and the version of its lock word that was taken.
#[derive(Clone, Copy)]
pub struct Stamp<C: NodeName> {
    /// The node.
    pub node: C,
    /// The version.
    pub version: u64,
}

/// What a read found at one byte of a node.
#[derive(Drop)]
pub struct Seen<C, P> {
    /// What hangs there.
    pub child: Child<C, P>,
    /// The byte.
    pub byte: u8,
    /// Whether the node has no place for one child more.
    pub full: bool,
    /// How many children the node has.
    pub count: u16,
}

/// What a read of a node found out for a key.
#[derive(Drop)]
pub enum Reading<C, P> {
    /// The node's prefix and the key differ after so many bytes; the byte is the prefix's there.
    Differs {
        common: usize,
        byte: u8,
    },
    /// The node's prefix, of so many bytes, is the beginning of the key.
    Fits {
        depth: usize,
        form: NodeType,
        seen: Seen<C, P>,
    },
    /// The prefix fits, and the value at the key's byte could not be copied.
    Uncopied,
}

/// The keys that begin with a node's prefix: those whose first `depth` bytes are those of `base`, the least of them.
#[derive(Clone, Copy, PartialEq, Eq, Debug)]
pub struct Region {
    /// The least key.
    pub base: u64,
    /// How many bytes the prefix has.
    pub depth: usize,
}

/// What hangs at the least of some of a node's bytes that has a child.
#[derive(Drop)]
pub enum Least<C, P> {
    /// Nothing hangs at any of them.
    Nothing,
    /// A node.
    Node { byte: u8, node: C },
    /// A value.
    Value { byte: u8, value: P },
    /// A value that couldn't be copied.
    Uncopied,
}

/// How an attempt to lock a node ended.
#[derive(Clone, Copy, PartialEq, Eq, Debug)]
pub enum Upgrade {
    /// The node is locked.
    Locked,
    /// Its lock word isn't the one that was taken, or the exchange failed.
    Failed,
    /// The version is the greatest that a lock word has.
    Exhausted,
}

/// Why a call ended without an answer.
#[derive(Clone, Copy, PartialEq, Eq, Debug)]
pub enum Refusal {
    /// The allocator's limit is reached: what it has charged, what was wanted, its limit, in bytes.
    Budget {
        charged: u64,
        wanted: u64,
        limit: u64,
    },
    /// No place for a node is free.
    Cells,
    /// Memory for a node was refused.
    Memory,
    /// A node's version is the greatest that a lock word has.
    Exhausted,
    /// No more owners of the value can be counted.
    Count,
}

/// The nodes of a shared tree. What a call names stands: each method wants it of the nodes that it is given.
pub trait Store<C: NodeName, P: Payload> {
    ghost use Rattle.congee.specs.declared.forms.base_node.NodeType.{NodeType};
    ghost use Rattle.congee.specs.declared.protocol.store.Refusal.{Refusal};

    /// The nodes by their numbers.
    ghost heap: { Self → ℕ → Node P };

    /// The version at which no node can be locked any more.
    ghost version_max: { Self → ℕ };

    /// What stands beside the nodes, and no step of a call touches.
    ghost Rest: { Type 0 };

    ghost rest: { Self → Rest };

    /// Why no node of the form is made.
    ghost refuses: { Self → NodeType → Refusal → Type 0 };

    /// The node's version, where it is neither locked nor obsolete.
    fn version(&self, node: C) -> Option<u64>
        requires { Stands (heap self.now (C.number node)) }
        ensures { result ≡ version_of (heap self.now (C.number node)) };

    /// Compares the key with the node's prefix, and looks at the key's byte there. Of a node whose lock word
    /// isn't the one that was taken, what hangs at the byte, whether it is full and how many children it has are what
    /// `seen` says: no child, not full and none where it says nothing.
    fn read(&self, at: Stamp<C>, key: &[u8; KEY_BYTES], seen: Option<Seen<C, P>>) -> Reading<C, P>
        requires { Stands (heap self.now (C.number at.node)) }
        ensures gives { ReadGives C.number P.always_copies (heap self.now (C.number at.node)) at.version key.now result }
        ensures sees { ReadSees (heap self.now (C.number at.node)) at.version seen result };

    /// The keys that begin with the node's prefix, which is fixed when the node is made.
    fn region(&self, node: C) -> Region
        requires { Stands (heap self.now (C.number node)) }
        ensures { IsRegion (heap self.now (C.number node)).prefix result.base result.depth };

    /// What hangs at the least byte from `from` to `last` that has a child. Of a node whose lock word isn't the one
    /// that was taken it is what `seen` says.
    fn least(&self, at: Stamp<C>, from: u16, last: u8, seen: Option<Seen<C, P>>) -> Least<C, P>
        requires { Stands (heap self.now (C.number at.node)) }
        ensures gives { LeastGives C.number P.always_copies (heap self.now (C.number at.node)) at.version from last result }
        ensures sees { LeastSees (heap self.now (C.number at.node)) at.version seen result };

    /// Whether the node's lock word is the one that was taken.
    fn check(&self, at: Stamp<C>) -> bool
        requires { Stands (heap self.now (C.number at.node)) }
        ensures { result ≡ is_taken (heap self.now (C.number at.node)) at.version };

    /// Locks the node by one exchange from the version that was taken; `fail` makes the exchange fail.
    fn upgrade(&mut self, at: Stamp<C>, fail: bool) -> Upgrade
        requires { Stands (heap self.old (C.number at.node)) }
        ensures limit { version_max self.new ≡ version_max self.old }
        ensures rest { rest self.new ≡ rest self.old }
        ensures gives { UpgradeGives (version_max self.old) (heap self.old) (C.number at.node) at.version fail result (heap self.new) };

    /// Makes an empty node of the form, whose prefix is the key's first `length` bytes.
    fn make(&mut self, form: NodeType, key: &[u8; KEY_BYTES], length: usize) -> Result<C, Refusal>
        requires { length ≤ MAX_PREFIX_LEN }
        ensures limit { version_max self.new ≡ version_max self.old }
        ensures rest { rest self.new ≡ rest self.old }
        ensures gives { MakeGives C.number (heap self.old) form key.now length result (heap self.new) }
        ensures cause { IfErr result (λ e. refuses self.old form e) };

    /// Hangs the child at the byte of a locked node, in place of what hangs there, or takes out what hangs there.
    fn change(&mut self, node: C, byte: u8, child: Child<C, P>)
        requires stands { Stands (heap self.old (C.number node)) }
        requires locked { (heap self.old (C.number node)).locked ≡ true }
        requires room { MayChange (heap self.old (C.number node)) byte (hung C.number child) }
        ensures limit { version_max self.new ≡ version_max self.old }
        ensures rest { rest self.new ≡ rest self.old }
        ensures gives { ChangeGives (heap self.old) (C.number node) byte (hung C.number child) (heap self.new) };

    /// Hangs the child at the byte of a node that isn't in reach yet.
    fn fill(&mut self, node: C, byte: u8, child: Child<C, P>)
        requires stands { Stands (heap self.old (C.number node)) }
        requires room { MayChange (heap self.old (C.number node)) byte (hung C.number child) }
        ensures limit { version_max self.new ≡ version_max self.old }
        ensures rest { rest self.new ≡ rest self.old }
        ensures gives { ChangeGives (heap self.old) (C.number node) byte (hung C.number child) (heap self.new) };

    /// The child beside the one at the byte, of a locked node that holds two nodes.
    fn other(&self, node: C, byte: u8) -> C
        requires stands { Stands (heap self.now (C.number node)) }
        requires nodes { HoldsNodes (heap self.now (C.number node)) }
        requires two { (heap self.now (C.number node)).count ≡ 2 }
        requires there { (heap self.now (C.number node)).children byte ≢ Nothing }
        ensures { IsOther (heap self.now (C.number node)) byte (C.number result) };

    /// Gives an empty node that isn't in reach yet the children of another one, which holds values alone or nodes
    /// alone. Values are moved; the names of nodes stay in the old node too.
    fn take_over(&mut self, old: C, node: C)
        requires stands_old { Stands (heap self.old (C.number old)) }
        requires stands { Stands (heap self.old (C.number node)) }
        requires room { TakesOver (heap self.old (C.number old)) (heap self.old (C.number node)) }
        ensures limit { version_max self.new ≡ version_max self.old }
        ensures rest { rest self.new ≡ rest self.old }
        ensures gives { TakeOverGives (heap self.old) (C.number old) (C.number node) (heap self.new) };

    /// Destroys a node that never was in reach.
    fn give_back(&mut self, node: C)
        requires { Stands (heap self.old (C.number node)) }
        ensures limit { version_max self.new ≡ version_max self.old }
        ensures rest { rest self.new ≡ rest self.old }
        ensures gives { BackGives (heap self.old) (C.number node) (heap self.new) };

    /// Marks a locked node that was taken out of the tree.
    fn obsolete(&mut self, node: C)
        requires stands { Stands (heap self.old (C.number node)) }
        requires locked { (heap self.old (C.number node)).locked ≡ true }
        ensures limit { version_max self.new ≡ version_max self.old }
        ensures rest { rest self.new ≡ rest self.old }
        ensures gives { ObsoleteGives (heap self.old) (C.number node) (heap self.new) };

    /// Defers the destruction of an obsolete node until nobody can look at it.
    fn retire(&mut self, node: C)
        requires stands { Stands (heap self.old (C.number node)) }
        requires obsolete { (heap self.old (C.number node)).obsolete ≡ true }
        requires once { (heap self.old (C.number node)).retired ≡ false }
        ensures limit { version_max self.new ≡ version_max self.old }
        ensures rest { rest self.new ≡ rest self.old }
        ensures gives { RetireGives (heap self.old) (C.number node) (heap self.new) };

    /// Raises the version of a locked node by one, and frees its lock. No version rises past the greatest.
    fn unlock(&mut self, node: C)
        requires stands { Stands (heap self.old (C.number node)) }
        requires locked { (heap self.old (C.number node)).locked ≡ true }
        requires within { (heap self.old (C.number node)).version < version_max self.old }
        ensures limit { version_max self.new ≡ version_max self.old }
        ensures rest { rest self.new ≡ rest self.old }
        ensures gives { UnlockGives (heap self.old) (C.number node) (heap self.new) };
}
