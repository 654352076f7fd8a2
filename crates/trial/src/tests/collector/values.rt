//! What tries the collector's values without pointers, tags of none, and the orderings of a failed exchange.

use crate::tests::asserts::assert_same;
use crossbeam_epoch::{CompareAndSetOrdering, Fault, Owned, Pointable, Shared};
use std::alloc::Global;
use std::ops::DerefMut;
use std::sync::atomic::Ordering;
use std::sync::atomic::Ordering::SeqCst;
use std::test::Fail;

/// A value with tags 0 to 3.
#[derive(Clone, Drop)]
pub struct Item(pub u64);

impl Item {
    pub fn number(&self) -> u64 {
        self.0
    }

    /// Adds one.
    pub fn raise(&mut self) {
        self.0 = self.0.wrapping_add(1);
    }
}

impl Pointable for Item {
    ghost use Rattle.std.proofs.Common.{refl, lit≤};

    ghost ALIGN = { 4 };

    const ALIGN: u16 = 4;

    ghost aligned = { (2, lit≤ tt, refl) };
}

/// A value without a pointer.
pub fn boxed(alloc: Global, number: u64) -> Result<Owned<Item>, Fault> {
    match Owned::new(alloc, Item(number)) {
        Ok(owned) => Ok(owned),
        Err((fault, _item)) => Err(fault),
    }
}

/// The number of a value that was taken out.
pub fn number_of(owned: Option<Owned<Item>>) -> Option<u64> {
    Some(owned?.into_box().0)
}

/// Its tag.
pub fn tag_of(owned: Option<Owned<Item>>) -> Option<usize> {
    match owned {
        Some(owned) => Some(owned.tag()),
        None => None,
    }
}

#[test]
fn a_failure_loads_as_strongly_as_it_may(rt: HostRuntime) {
    let rows = [
        (Ordering::Relaxed, Ordering::Relaxed),
        (Ordering::Release, Ordering::Relaxed),
        (Ordering::Acquire, Ordering::Acquire),
        (Ordering::AcqRel, Ordering::Acquire),
        (SeqCst, SeqCst),
    ];
    for (order, failure) in rows {
        let pair = (order, failure);
        assert_same(
            &rt,
            [
                (order.success(), order.failure()),
                (pair.success(), pair.failure()),
            ],
            [pair, pair],
        );
    }
}

#[test]
fn owned_values(rt: HostRuntime) -> Result<(), Fail> {
    let alloc = rt.alloc();
    let mut owned = match Owned::init(alloc, Item(4)) {
        Ok(owned) => owned.with_tag(7),
        Err((fault, _item)) => return Err(fault.into()),
    };
    owned.deref_mut().0 = 5;
    owned.as_mut().0 = 6;
    owned.borrow_mut().0 = 7;
    assert!(rt; owned.tag() == 3 && owned.0 == 7);
    assert!(rt; owned.as_ref().0 == 7 && owned.borrow().0 == 7);
    let copy = Owned::from(Box::new(alloc, Item(9))?);
    assert!(rt; copy.tag() == 0 && copy.into_box().0 == 9);
    Ok(())
}

#[test]
fn a_copy_has_the_value_and_the_tag(rt: HostRuntime) -> Result<(), Fail> {
    let owned = boxed(rt.alloc(), 4)?.with_tag(3);
    let copy = owned.clone()?;
    assert!(rt; copy.tag() == 3 && copy.into_box().0 == 4);
    assert!(rt; owned.tag() == 3 && owned.into_box().0 == 4);
    Ok(())
}

#[test]
fn tagged_nulls_are_null(rt: HostRuntime) {
    let null: Shared<'_, Item> = Shared::null();
    let one: Shared<'_, Item> = null.with_tag(1);
    assert!(rt; null.is_null() && one.is_null());
    assert!(rt; null != one && null < one && one == one.with_tag(5));
}
