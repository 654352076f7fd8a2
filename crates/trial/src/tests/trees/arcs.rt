//! Worked sequences on a tree of shared values.
use crate::tests::asserts::assert_same;
use congee::{CongeeArc, OOMError};
use std::alloc::{AllocError, Global};
use std::sync::Arc;
use std::test::Fail;

pub type Text = Arc<String<Global>, Global>;

type Texts = CongeeArc<u64, String<Global>>;

fn made(alloc: Global, text: &str) -> Result<Text, AllocError> {
    Ok(Arc::new(alloc, String::from_str(alloc, text)?)?)
}

// A text, which is made again where memory is refused.
pub fn text(alloc: Global, text: &str) -> Result<Text, AllocError> {
    match made(alloc, text) {
        Err(AllocError) => made(alloc, text),
        made => made,
    }
}

// Whether a text is found, or none.
fn is(found: Option<Text>, text: Option<&str>) -> bool {
    match (found, text) {
        (Some(found), Some(text)) => found.as_str() == text,
        (None, None) => true,
        _ => false,
    }
}

// Whether a call isn't refused, and gives a text, or none.
fn gives<E: Drop>(told: Result<Option<Text>, E>, text: Option<&str>) -> bool {
    match told {
        Ok(found) => is(found, text),
        Err(_) => false,
    }
}

// Whether the first text is there, another one takes its place, and that one goes.
fn changes(alloc: Global, tree: &mut Texts, key: u64) -> Result<bool, Fail> {
    let other = text(alloc, "hello world")?;
    let replace = |_: Text| Arc::try_clone(&other).ok();
    Ok(
        gives(tree.get(key), Some("hello"))
            && gives(tree.compute_if_present(key, replace), Some("hello"))
            && gives(tree.get(key), Some("hello world"))
            && is(tree.remove(key), Some("hello world"))
            && gives(tree.get(key), None),
    )
}

// Whether a text comes, changes and goes.
fn shares(alloc: Global, tree: &mut Texts) -> Result<bool, Fail> {
    Ok(gives(tree.insert(1, text(alloc, "hello")?), None) && changes(alloc, tree, 1)?)
}

// Whether a closure takes a text out, or finds none.
fn takes_out(tree: &mut Texts, text: Option<&str>) -> bool {
    gives(tree.compute_if_present(1, |_| None), text)
}

// Whether one of two texts goes, and the other one stays.
fn lets_go(alloc: Global, tree: &mut Texts) -> Result<bool, Fail> {
    Ok(
        tree.is_empty()
            && gives(tree.insert(256, text(alloc, "b")?), None)
            && gives(tree.insert(1, text(alloc, "a")?), None)
            && tree.keys()?.as_slice() == [1, 256].as_slice()
            && takes_out(tree, Some("a"))
            && takes_out(tree, None)
            && !tree.is_empty(),
    )
}

// Whether an empty tree does both.
fn shares_and_lets_go(alloc: Global, tree: &mut Texts) -> Result<bool, Fail> {
    Ok(shares(alloc, tree)? && lets_go(alloc, tree)?)
}

#[test]
fn texts_are_shared_and_go(rt: HostRuntime) -> Result<(), Fail> {
    let mut tree = opened(rt.alloc())?;
    let told = shares_and_lets_go(rt.alloc(), &mut tree);
    tree.close();
    assert_same(&rt, told?, true);
    Ok(())
}

// Whether a text that is refused for want of memory comes back, and goes in at a second try.
fn comes_back(tree: &mut Texts, key: u64, hello: Text) -> Result<bool, Fail> {
    match tree.insert(key, hello) {
        Ok(before) => Ok(before.is_none()),
        Err((refused, back)) => {
            let is_refused = refused == OOMError::Memory && back.as_str() == "hello";
            Ok(is_refused && tree.get(key)?.is_none() && gives(tree.insert(key, back), None))
        }
    }
}

// The fifth value of a leaf makes it grow, which takes memory; then another takes its place, and goes.
fn fifth_comes_back(alloc: Global, tree: &mut Texts) -> Result<bool, Fail> {
    let hello = text(alloc, "hello")?;
    for key in 1..5u64 {
        if !comes_back(tree, key, Arc::try_clone(&hello)?)? {
            return Ok(false);
        }
    }
    Ok(comes_back(tree, 5, hello)? && changes(alloc, tree, 5)?)
}

// An empty tree, which is made again where memory is refused.
fn opened(alloc: Global) -> Result<Texts, OOMError> {
    match CongeeArc::new(alloc) {
        Err(OOMError::Memory) => CongeeArc::new(alloc),
        made => made,
    }
}

// The gate runs it with each request for memory refused in turn as well.
#[test]
fn a_refused_text_comes_back(rt: HostRuntime) -> Result<(), Fail> {
    let mut tree = opened(rt.alloc())?;
    let back = fifth_comes_back(rt.alloc(), &mut tree);
    tree.close();
    assert_same(&rt, back?, true);
    Ok(())
}
