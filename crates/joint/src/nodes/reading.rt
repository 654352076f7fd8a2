//! What a call sees of a node.

ghost use Rattle.std.specs.Prelude.{◌≡◌, false, MatchOption};
ghost use Rattle.congee.specs.declared.forms.child.Child.TheVariants.{Value};
ghost use Rattle.congee.specs.protocol.Events.{ReadGives};
ghost use Rattle.congee.specs.forms.Forms.{children_of, prefix_of};
ghost use Rattle.congee.specs.Heap.{is_taken};
ghost use Rattle.congee.specs.protocol.Seeing.{IsSeen, ReadSees, LeastSees};
ghost use Rattle.congee.specs.protocol.ScanEvents.{LeastGives, LeastTruly, IsAny};
ghost use Rattle.joint.specs.declared.nodes.slot.LockWord.{LockWord};
ghost use Rattle.joint.specs.nodes.Solid.{IsSolid, IsLook, IsUncopied};
ghost use Rattle.joint.specs.nodes.View.{id_number, shape, child_at};

use crate::id::Id;
use crate::nodes::slot::LockWord;
use congee::protocol::{Least, Reading, first_difference};
use congee::{Child, KEY_BYTES, Node, Payload, Seen, Small};

/// An equal child, or none where its value can't be copied.
fn copied<P: Payload + Small>(child: &Child<Id, P>) -> Option<Child<Id, P>>
    ensures { MatchOption result ((P.always_copies ≡ false) × ((v : P) × (child.now ≡ Value v))) (λ c. c ≡ child.now) }
{
    match child {
        Child::Blank => Some(Child::Blank),
        Child::Node(id) => Some(Child::Node(*id)),
        Child::Value(value) => match value.copy() {
            Some(value) => Some(Child::Value(value)),
            None => None,
        },
    }
}

/// What stands at the byte, or none where its value can't be copied.
fn look<P: Payload + Small>(node: &Node<Id, P>, byte: u8) -> Option<Seen<Id, P>>
    ensures { MatchOption result (IsUncopied P.always_copies (child_at node.now byte)) (λ s. IsLook node.now byte s) }
{
    let child = match node.get_child(byte) {
        Some(child) => copied(child)?,
        None => Child::Blank,
    };
    let count = node.len();
    Some(Seen {
        child,
        byte,
        full: count == node.node_type().capacity(),
        count: count as u16,
    })
}

/// What was to be seen, at the byte.
fn as_seen<P: Payload + Small>(byte: u8, seen: Option<Seen<Id, P>>) -> Seen<Id, P>
    ensures byte { result.byte ≡ byte }
    ensures sees { IsSeen seen result }
{
    match seen {
        Some(seen) => Seen { byte, ..seen },
        None => Seen {
            child: Child::Blank,
            byte,
            full: false,
            count: 0,
        },
    }
}

/// Compares the key with the node's prefix, and looks at the key's byte.
pub(crate) fn read<P: Payload + Small>(
    node: &Node<Id, P>,
    word: LockWord,
    version: u64,
    key: &[u8; KEY_BYTES],
    seen: Option<Seen<Id, P>>,
) -> Reading<Id, P>
    requires { IsSolid (children_of node.now) }
    ensures gives { ReadGives id_number P.always_copies (shape node.now word) version key.now result }
    ensures sees { ReadSees (shape node.now word) version seen result }
{
    let prefix = node.prefix();
    if let Some(common) = first_difference(prefix, key) {
        return Reading::Differs {
            common,
            byte: prefix[common],
        };
    }
    let depth = prefix.len();
    let form = node.node_type();
    if !word.is_at(version) {
        return Reading::Fits {
            depth,
            form,
            seen: as_seen(key[depth], seen),
        };
    }
    match look(node, key[depth]) {
        Some(seen) => Reading::Fits { depth, form, seen },
        None => Reading::Uncopied,
    }
}

/// The child of the least byte within bounds.
fn least_child<P: Payload + Small>(node: &Node<Id, P>, from: u16, last: u8) -> Least<Id, P>
    requires { IsSolid (children_of node.now) }
    ensures any { IsAny P.always_copies result }
    ensures truly { (w : LockWord) → LeastTruly id_number (shape node.now w) from last result }
{
    let Some((byte, child)) = node.first_from(from as usize) else {
        return Least::Nothing;
    };
    if byte > last {
        return Least::Nothing;
    }
    match child {
        Child::Blank => unreachable!(),
        Child::Node(node) => Least::Node { byte, node: *node },
        Child::Value(value) => match value.copy() {
            Some(value) => Least::Value { byte, value },
            None => Least::Uncopied,
        },
    }
}

/// The child of the least byte within bounds, for a call that took this version, or what another call is to see.
pub(crate) fn least<P: Payload + Small>(
    node: &Node<Id, P>,
    word: LockWord,
    version: u64,
    from: u16,
    last: u8,
    seen: Option<Seen<Id, P>>,
) -> Least<Id, P>
    requires { IsSolid (children_of node.now) }
    ensures gives { LeastGives id_number P.always_copies (shape node.now word) version from last result }
    ensures sees { LeastSees (shape node.now word) version seen result }
{
    if word.is_at(version) {
        return least_child(node, from, last);
    }
    let Some(Seen { child, byte, .. }) = seen else {
        return Least::Nothing;
    };
    match child {
        Child::Blank => Least::Nothing,
        Child::Node(node) => Least::Node { byte, node },
        Child::Value(value) => Least::Value { byte, value },
    }
}
