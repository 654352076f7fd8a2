//! Each call once on each form.
use crate::tests::asserts::assert_same;
use congee::{Child, Node, NodeType};
use std::alloc::Global;
use std::test::Fail;

type Words = Node<u32, u64>;

/// Each form, with its size in bytes and its capacity.
const FORMS: [(NodeType, u64, usize); 4] = [
    (NodeType::N4, 64, 4),
    (NodeType::N16, 168, 16),
    (NodeType::N48, 672, 48),
    (NodeType::N256, 2104, 256),
];

fn value_of(byte: u8) -> Child<u32, u64> {
    Child::Value(byte as u64 + 1000)
}

fn put(node: &mut Words, byte: u8, child: Child<u32, u64>) {
    if node.get_child(byte).is_none() && !node.is_full() {
        node.insert(byte, child);
    }
}

fn take(node: &mut Words, byte: u8) {
    if node.get_child(byte).is_some() {
        node.remove(byte);
    }
}

// A node with the prefix 7, 9 and a value at each byte, added from the last to the first.
fn filled(alloc: Global, form: NodeType, bytes: &[u8]) -> Result<Words, Fail> {
    let mut node = Node::new(alloc, form, [7, 9].as_slice())?;
    for byte in bytes.iter().rev() {
        put(&mut node, *byte, value_of(*byte));
    }
    Ok(node)
}

// The bytes and values of the children in a range of bytes.
fn scanned(alloc: Global, node: &Words, start: u8, end: u8) -> Result<Vec<(u8, u64)>, Fail> {
    let mut pairs = Vec::new(alloc);
    for (byte, child) in node.get_children(start, end) {
        if let Child::Value(value) = child {
            pairs.push((byte, *value))?;
        }
    }
    Ok(pairs)
}

fn measures(node: &Words, form: NodeType, size: u64, capacity: usize) -> bool {
    node.node_type() == form
        && node.size() == size
        && form.capacity() == capacity
        && node.prefix() == [7, 9].as_slice()
        && node.len() == 0
}

// The byte of a child, counted from 0.
fn byte_at(node: &Words, place: usize) -> Option<u8> {
    match node.child_at(place) {
        Some((byte, _)) => Some(byte),
        None => None,
    }
}

fn ascends(alloc: Global, node: &Words) -> Result<bool, Fail> {
    let all = [(0, 1000), (65, 1065), (200, 1200), (255, 1255)];
    Ok(
        scanned(alloc, node, 0, 255)?.as_slice() == all.as_slice()
            && scanned(alloc, node, 1, 200)?.as_slice() == &all[1..3]
            && scanned(alloc, node, 66, 199)?.is_empty()
            && byte_at(node, 2) == Some(200)
            && node.child_at(4).is_none()
            && node.is_full() == (node.node_type() == NodeType::N4),
    )
}

// Puts a node in place of a value.
fn change(node: &mut Words, byte: u8, name: u32) {
    if node.get_child(byte).is_some() {
        node.change(byte, Child::Node(name));
    }
}

fn changes(node: &mut Words) -> bool {
    change(node, 128, 5);
    let changed = matches!(node.get_child(128), Some(Child::Node(5)));
    take(node, 3);
    let gone = node.get_child(3).is_none() && node.len() == 2;
    put(node, 4, Child::Value(44));
    changed
        && gone
        && matches!(node.get_child(4), Some(Child::Value(44)))
        && byte_at(node, 0) == Some(4)
}

// Makes room in a full node, and tells whether no child went.
fn grows_if_full(alloc: Global, node: &mut Words) -> Result<bool, Fail> {
    let before = node.len();
    if node.is_full() {
        node.grow(alloc)?;
    }
    Ok(node.len() == before)
}

fn has_each_byte(alloc: Global, node: &Words) -> Result<bool, Fail> {
    let all = scanned(alloc, node, 0, 255)?;
    let mut right = true;
    for (place, (byte, value)) in all.iter().enumerate() {
        right &= *byte as usize == place && *value == *byte as u64 + 1000;
    }
    Ok(right)
}

fn grows(alloc: Global, node: &mut Words) -> Result<bool, Fail> {
    for byte in 0..=255u8 {
        let byte = byte.wrapping_mul(167);
        if !grows_if_full(alloc, node)? {
            return Ok(false);
        }
        put(node, byte, value_of(byte));
    }
    Ok(
        node.node_type() == NodeType::N256
            && node.len() == 256
            && !node.is_full()
            && node.prefix() == [7, 9].as_slice()
            && has_each_byte(alloc, node)?,
    )
}

// Whether a form has its size; its children come ascending, change and go.
fn is_right(alloc: Global, form: NodeType, size: u64, capacity: usize) -> Result<bool, Fail> {
    let measures = measures(&filled(alloc, form, &[])?, form, size, capacity);
    let ascends = ascends(alloc, &filled(alloc, form, &[0, 65, 200, 255])?)?;
    let changes = changes(&mut filled(alloc, form, &[3, 128, 130])?);
    Ok(measures && ascends && changes)
}

#[test]
fn each_form_is_right(rt: HostRuntime) -> Result<(), Fail> {
    for (form, size, capacity) in &FORMS {
        let right = is_right(rt.alloc(), *form, *size, *capacity)?;
        assert_same(&rt, (*size, right), (*size, true));
    }
    Ok(())
}

#[test]
fn a_node_grows_through_every_form(rt: HostRuntime) -> Result<(), Fail> {
    assert!(rt; grows(rt.alloc(), &mut filled(rt.alloc(), NodeType::N4, &[])?)?);
    Ok(())
}
