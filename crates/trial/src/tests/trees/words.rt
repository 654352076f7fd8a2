//! Keys that are no numbers of 64 bits: in which order a tree tells them, from both ends, and which lie within bounds.
ghost use Rattle.std.specs.Prelude.{refl};

use crate::examples::composite::{Table, as_of, finds_what_it_puts, versions};
use crate::tests::asserts::assert_same;
use crate::tests::dialogue::told;
use congee::{Congee, DefaultAllocator, OOMError, Word64};
use std::alloc::Global;
use std::fmt::Debug;
use std::ops::{Bound, RangeBounds};
use std::test::Fail;

/// A key of a user's own.
#[derive(Clone, Copy, Debug)]
struct Ticket {
    number: u64,
}

impl Word64 for Ticket {
    ghost word = { λ t. t.number };

    ghost of_word = { λ n. record { number = n } };

    ghost fits = { λ t. Unit {0} };

    ghost comes_back = { λ t f. refl };

    fn to_word(&self) -> u64 {
        self.number
    }

    fn from_word(n: u64) -> Ticket {
        Ticket { number: n }
    }
}

/// What a tree of some keys of each kind tells: its pairs, the last one, and the first and the last within bounds.
const KINDS: [&str; 4] = [
    "({-9223372036854775808: 2, -256: 5, -1: 1, 0: 3, 3: 0, 9223372036854775807: 4}, \
     Some((9223372036854775807, 4)), Some((-256, 5)), Some((0, 3)))",
    "({(0, 4294967295): 4, (1, 0): 3, (1, 2): 0, (1, 256): 1, (2, 0): 2, (4294967295, 4294967295): 5}, \
     Some(((4294967295, 4294967295), 5)), Some(((1, 0), 3)), Some(((1, 256), 1)))",
    "({'a': 3, 'd': 2, 'z': 1, '~': 0}, Some(('~', 0)), Some(('d', 2)), Some(('~', 0)))",
    "({Ticket { number: 0 }: 2, Ticket { number: 7 }: 1, Ticket { number: 18446744073709551615 }: 0}, \
     Some((Ticket { number: 18446744073709551615 }, 0)), Some((Ticket { number: 0 }, 2)), None)",
];

/// A tree of these keys, each with its place as its value.
fn filled<K: Word64 + Copy>(alloc: Global, keys: &[K]) -> Result<Congee<K, u8>, OOMError> {
    let mut tree: Congee<K, u8> = Congee::new(alloc, DefaultAllocator::new())?;
    let mut place = 0u8;
    for key in keys {
        tree.insert(*key, place)?;
        place = place.wrapping_add(1);
    }
    Ok(tree)
}

/// What a tree of these keys tells.
fn told_of<K: Word64 + Copy + Debug, R: RangeBounds<K> + Drop>(
    alloc: Global,
    keys: &[K],
    range: R,
) -> Result<String, Fail> {
    let tree = filled(alloc, keys)?;
    let last = tree.iter().next_back();
    let mut within = tree.range_iter(range);
    let (first, end) = (within.next(), within.next_back());
    told(alloc, &(&tree, last, first, end))
}

/// The ticket of a number.
fn ticket_of(number: u64) -> Ticket {
    Ticket { number }
}

/// What a tree of some keys of the kind at a place tells.
fn told_at(alloc: Global, place: usize) -> Result<String, Fail> {
    match place {
        0 => told_of(alloc, &[3i64, -1, i64::MIN, 0, i64::MAX, -256], -256i64..=0),
        1 => {
            let most = u32::MAX;
            let keys = [
                (1u32, 2u32),
                (1, 256),
                (2, 0),
                (1, 0),
                (0, most),
                (most, most),
            ];
            told_of(alloc, &keys, (1u32, 0u32)..(2, 0))
        }
        2 => {
            let from = (Bound::Excluded('a'), Bound::Unbounded);
            told_of(alloc, &['~', 'z', 'd', 'a'], from)
        }
        _ => told_of(
            alloc,
            &[ticket_of(u64::MAX), ticket_of(7), ticket_of(0)],
            ..ticket_of(7),
        ),
    }
}

#[test]
fn keys_of_each_kind_stand_in_their_order(rt: HostRuntime) -> Result<(), Fail> {
    for (place, expected) in KINDS.iter().enumerate() {
        let told = told_at(rt.alloc(), place)?;
        assert_same(&rt, told.as_str(), *expected);
    }
    Ok(())
}

/// Three versions of a row, and one of another.
fn table(alloc: Global) -> Result<Table, OOMError> {
    let mut table: Table = Congee::new(alloc, DefaultAllocator::new())?;
    for (row, version, value) in [(7, 3, 73), (8, 0, 80), (7, u32::MAX, 79), (7, 1, 71)] {
        table.insert((row, version), value)?;
    }
    Ok(table)
}

#[test]
fn a_range_has_all_versions_of_a_row(rt: HostRuntime) -> Result<(), Fail> {
    let table = table(rt.alloc())?;
    let mut row = versions(&table, 7);
    let found = [row.next(), row.next(), row.next(), row.next()];
    let seen = [
        as_of(&table, 7, 0),
        as_of(&table, 7, 2),
        as_of(&table, 8, 9),
        as_of(&table, 9, 0),
    ];
    let put = finds_what_it_puts(rt.alloc(), 7, 1, 70)?;
    let rows = [
        Some(((7, 1), 71)),
        Some(((7, 3), 73)),
        Some(((7, u32::MAX), 79)),
        None,
    ];
    assert_same(
        &rt,
        (found, seen, put),
        (rows, [None, Some(71), Some(80), None], Some(70)),
    );
    Ok(())
}
