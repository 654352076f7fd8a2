//! Dialogues with owned trees, worked out by hand.

use super::lessening::{changes, goes};
use crate::tests::asserts::assert_same;
use crate::tests::dialogue::{Asked, told, wrong_turn};
use crate::tests::texts::named;
use crate::tests::threads::asks::raised;
use congee::{Congee, Limited, NoDrain, OOMError, U64Congee};
use std::alloc::Global;
use std::test::Fail;

/// A limit that no dialogue comes to.
const AMPLE: u64 = u64::MAX;

/// How many bytes a tree takes at most, and what is asked of it.
const DIALOGUES: [(u64, &str); 36] = [
    (
        AMPLE,
        "a value comes, changes and goes: insert 1 42 = Ok(None); get 1 = Some(42); insert 1 43 = Ok(Some(42)); \
         remove 1 = Some(43); get 1 = None; charged = 2104",
    ),
    (
        AMPLE,
        "a leaf grows through every form: fill 1 50 = true; charged = 4208; get 49 = Some(49)",
    ),
    (
        AMPLE,
        "a leaf that is left alone moves up: insert 1 1 = Ok(None); insert 256 2 = Ok(None); charged = 2296; remove 1 = Some(1); \
         charged = 2168; empty = false; remove 256 = Some(2); empty = true; keys = []; charged = 2104",
    ),
    (
        AMPLE,
        "closures answer: insert 1 42 = Ok(None); orinsert 1 0 = Ok(Some(42)); orinsert 2 2 = Ok(None); get 1 = Some(43); \
         get 2 = Some(2); present 1 1 = Some((43, Some(44))); present 3 1 = None; present 1 = Some((44, None)); get 1 = None",
    ),
    (
        AMPLE,
        "values are exchanged: insert 1 42 = Ok(None); exchange 1 42 43 = Ok(Some(43)); insert 1 41 = Ok(Some(43)); \
         exchange 1 42 43 = Err(Some(41)); exchange 2 42 43 = Err(None); insert 1 42 = Ok(Some(41)); exchange 1 42 = Ok(None); \
         get 1 = None",
    ),
    (
        AMPLE,
        "a range ends before its end: insert 4294967295 1 = Ok(None); insert 4294967247 2 = Ok(None); \
         range 4294967066 4294967319 20 = [(4294967247, 2), (4294967295, 1)]; range 4294967000 4294967253 20 = [(4294967247, 2)]; \
         range 5 5 20 = []; insert 18446744073709551615 3 = Ok(None); range 18446744073709551614 18446744073709551615 20 = []",
    ),
    (
        AMPLE,
        "a scan has the pair of its end: through 0 18446744073709551615 20 = []; insert 5 50 = Ok(None); insert 6 60 = Ok(None); \
         through 5 5 20 = [(5, 50)]; through 5 6 1 = [(5, 50)]; through 6 5 20 = []; through 5 6 0 = []; \
         insert 18446744073709551615 7 = Ok(None); \
         through 18446744073709551615 18446744073709551615 20 = [(18446744073709551615, 7)]; \
         through 0 18446744073709551614 20 = [(5, 50), (6, 60)]; range 0 0 20 = []; through 0 0 20 = []; insert 0 1 = Ok(None); \
         through 0 0 20 = [(0, 1)]",
    ),
    (
        AMPLE,
        "a range ends with its places: insert 1 10 = Ok(None); insert 2 20 = Ok(None); insert 3 30 = Ok(None); \
         range 1 4 2 = [(1, 10), (2, 20)]; range 1 4 0 = []",
    ),
    (
        AMPLE,
        "a range starts past other prefixes: insert 4294967179 7 = Ok(None); range 1895772415 1895772670 20 = []; \
         range 4294967179 4294967434 20 = [(4294967179, 7)]",
    ),
    (
        AMPLE,
        "ranges find the keys within: each 54227 = true; range 0 0 20 = []; clear = (); each 4261390591 4294944959 = true; \
         range 4261412863 4261413116 20 = []; clear = (); each 219021065 4279959551 = true; \
         range 4294967295 4294967548 20 = []; clear = (); each 4294967128 4294940824 = true; \
         range 4294967039 4294967294 20 = [(4294967128, 4294967128)]; clear = (); each 4278190080 4278189917 = true; \
         range 4278190079 4278190334 20 = [(4278190080, 4278190080)]; clear = (); fill 393000 393500 = true; \
         each 458700 458751 499999 = true; range 393216 458751 3 = [(393216, 393216), (393217, 393217), (393218, 393218)]; \
         range 393498 458751 13 = [(393498, 393498), (393499, 393499), (458700, 458700)]; \
         range 500000 500065 20 = []; fill 0 1000 = true; range 255 258 20 = [(255, 255), (256, 256), (257, 257)]",
    ),
    (
        AMPLE,
        "keys come ascending: keys = []; insert 18446744073709551615 1 = Ok(None); insert 3 3 = Ok(None); \
         insert 4294967295 2 = Ok(None); insert 0 0 = Ok(None); insert 256 256 = Ok(None); \
         keys = [0, 3, 256, 4294967295, 18446744073709551615]",
    ),
    (
        AMPLE,
        "no pair has neighbours: ends = (None, None); beside 0 = (None, None); beside 7 = (None, None); \
         beside 18446744073709551615 = (None, None)",
    ),
    (
        AMPLE,
        "neighbours are found: insert 256 2 = Ok(None); ends = (Some((256, 2)), Some((256, 2))); beside 256 = (None, None); \
         beside 255 = (None, Some((256, 2))); beside 257 = (Some((256, 2)), None); insert 0 1 = Ok(None); insert 259 3 = Ok(None); \
         insert 4294967296 4 = Ok(None); insert 18446744073709551615 5 = Ok(None); \
         ends = (Some((0, 1)), Some((18446744073709551615, 5))); beside 0 = (None, Some((256, 2))); \
         beside 1 = (Some((0, 1)), Some((256, 2))); beside 257 = (Some((256, 2)), Some((259, 3))); \
         beside 4294967295 = (Some((259, 3)), Some((4294967296, 4))); beside 18446744073709551615 = (Some((4294967296, 4)), None); \
         remove 18446744073709551615 = Some(5); ends = (Some((0, 1)), Some((4294967296, 4)))",
    ),
    (
        AMPLE,
        "cleared trees begin anew: clear = (); charged = 2104; fill 1 50 = true; insert 18446744073709551615 5 = Ok(None); \
         clear = (); empty = true; keys = []; ends = (None, None); get 7 = None; charged = 2104; insert 256 2 = Ok(None); \
         insert 7 1 = Ok(None); keys = [7, 256]; beside 256 = (Some((7, 1)), None); charged = 2296",
    ),
    (
        AMPLE,
        "a leaf gets a second value and loses it: insert 256 1 = Ok(None); charged = 2168; insert 257 2 = Ok(None); charged = 2168; \
         get 256 = Some(1); get 257 = Some(2); remove 256 = Some(1); charged = 2168; get 256 = None; get 257 = Some(2); \
         keys = [257]; insert 256 3 = Ok(None); remove 257 = Some(2); get 256 = Some(3); insert 256 4 = Ok(Some(3)); \
         remove 256 = Some(4); charged = 2104; empty = true",
    ),
    (
        AMPLE,
        "so it is below a node that grows: insert 256 1 = Ok(None); insert 512 2 = Ok(None); charged = 2296; \
         insert 257 3 = Ok(None); insert 768 4 = Ok(None); insert 1024 5 = Ok(None); charged = 2424; insert 1280 6 = Ok(None); \
         charged = 2592; remove 257 = Some(3); insert 1281 7 = Ok(None); remove 1280 = Some(6); charged = 2592; get 256 = Some(1); \
         get 1281 = Some(7); beside 512 = (Some((256, 1)), Some((768, 4))); \
         range 256 1281 20 = [(256, 1), (512, 2), (768, 4), (1024, 5)]; range 512 769 20 = [(512, 2), (768, 4)]; \
         insert 72057594037927936 8 = Ok(None); insert 72057594037993472 9 = Ok(None); charged = 2784; \
         get 72057594037927936 = Some(8); remove 1281 = Some(7); charged = 2720; get 1281 = None; \
         keys = [256, 512, 768, 1024, 72057594037927936, 72057594037993472]",
    ),
    (
        AMPLE,
        "a closure is asked once where it must answer: present 1 1 = None; asked = 0; orinsert 1 7 = Ok(None); asked = 1; \
         present 1 0 = Some((7, Some(7))); asked = 2; orinsert 1 7 = Ok(Some(7)); asked = 3",
    ),
    (
        AMPLE,
        "nodes are counted: stats = NodeStats { levels: [LevelStats { n4: NodeInfo { node_count: 0, value_count: 0 }, n16: NodeInfo { node_count: 0, value_count: 0 }, \
         n48: NodeInfo { node_count: 0, value_count: 0 }, n256: NodeInfo { node_count: 1, value_count: 0 } }], kv_pairs: 0 }; \
         fill 72057594037927936 72057594037927940 = true; fill 144115188075855872 144115188075855877 = true; \
         fill 216172782113783808 216172782113783825 = true; fill 288230376151711744 288230376151711793 = true; \
         stats = NodeStats { levels: [LevelStats { n4: NodeInfo { node_count: 0, value_count: 0 }, n16: NodeInfo { node_count: 0, value_count: 0 }, \
         n48: NodeInfo { node_count: 0, value_count: 0 }, n256: NodeInfo { node_count: 1, value_count: 4 } }, \
         LevelStats { n4: NodeInfo { node_count: 1, value_count: 4 }, n16: NodeInfo { node_count: 1, value_count: 5 }, \
         n48: NodeInfo { node_count: 1, value_count: 17 }, n256: NodeInfo { node_count: 1, value_count: 49 } }], kv_pairs: 75 }; \
         clear = (); insert 1 10 = Ok(None); insert 256 20 = Ok(None); \
         stats = NodeStats { levels: [LevelStats { n4: NodeInfo { node_count: 0, value_count: 0 }, n16: NodeInfo { node_count: 0, value_count: 0 }, \
         n48: NodeInfo { node_count: 0, value_count: 0 }, n256: NodeInfo { node_count: 1, value_count: 1 } }, \
         LevelStats { n4: NodeInfo { node_count: 1, value_count: 2 }, n16: NodeInfo { node_count: 0, value_count: 0 }, \
         n48: NodeInfo { node_count: 0, value_count: 0 }, n256: NodeInfo { node_count: 0, value_count: 0 } }, \
         LevelStats { n4: NodeInfo { node_count: 2, value_count: 2 }, n16: NodeInfo { node_count: 0, value_count: 0 }, \
         n48: NodeInfo { node_count: 0, value_count: 0 }, n256: NodeInfo { node_count: 0, value_count: 0 } }], kv_pairs: 2 }",
    ),
    (
        AMPLE,
        "a lone leaf moves up to the root: each 1 256 = true; charged = 2296; remove 1 = Some(1); charged = 2168; get 1 = None; \
         get 256 = Some(256); changes 1 256 = true; charged = 2104",
    ),
    (
        AMPLE,
        "a lone leaf moves up below another node: each 1 256 65536 = true; charged = 2424; remove 256 = Some(256); charged = 2296; \
         get 1 = Some(1); get 256 = None; get 65536 = Some(65536); changes 1 256 65536 = true; charged = 2104",
    ),
    (
        AMPLE,
        "an inner node moves up: each 1 256 65536 = true; charged = 2424; remove 65536 = Some(65536); charged = 2296; \
         get 1 = Some(1); get 256 = Some(256); get 65536 = None; changes 1 256 65536 = true; charged = 2104",
    ),
    (
        AMPLE,
        "a leaf of two values moves up: each 1 2 256 = true; charged = 2296; remove 256 = Some(256); charged = 2168; \
         get 1 = Some(1); get 2 = Some(2); get 256 = None; changes 1 2 256 = true; charged = 2104",
    ),
    (
        AMPLE,
        "a leaf that shrinks no more moves up: each 256 1 2 3 4 5 = true; charged = 2400; remove 256 = Some(256); charged = 2272; \
         get 256 = None; get 1 = Some(1); get 2 = Some(2); get 3 = Some(3); get 4 = Some(4); get 5 = Some(5); \
         changes 256 1 2 3 4 5 = true; charged = 2104",
    ),
    (
        AMPLE,
        "three are no two: each 1 256 512 = true; charged = 2360; remove 256 = Some(256); charged = 2296; get 1 = Some(1); \
         get 256 = None; get 512 = Some(512); changes 1 256 512 = true; charged = 2104",
    ),
    (
        AMPLE,
        "the root stays: each 1 = true; charged = 2168; remove 1 = Some(1); charged = 2104; get 1 = None; changes 1 = true; \
         charged = 2104",
    ),
    (AMPLE, "a leaf goes up and down: goes 1 0 0 = true"),
    // One key below each child: its leaf lies in its parent's place, and counts as a least node.
    (
        AMPLE,
        "an inner node goes up and down over leaves of one value: goes 256 0 64 = true; goes 65536 0 64 = true; \
         goes 16777216 0 64 = true; goes 4294967296 0 64 = true; goes 1099511627776 0 64 = true; goes 281474976710656 0 64 = true",
    ),
    // Each leaf has a slot of its own.
    (
        AMPLE,
        "it does so over leaves of two values: goes 256 1 64 = true; goes 65536 1 64 = true; goes 16777216 1 64 = true; \
         goes 4294967296 1 64 = true; goes 1099511627776 1 64 = true; goes 281474976710656 1 64 = true",
    ),
    (
        AMPLE,
        "it does so over inner nodes with two leaves each: goes 65536 256 192 = true; goes 16777216 256 192 = true; \
         goes 4294967296 256 192 = true; goes 1099511627776 256 192 = true; goes 281474976710656 256 192 = true",
    ),
    (
        AMPLE,
        "a key that comes and goes changes the form of its leaf once at most: fill 0 4 = true; charged = 2168; \
         insert 4 4 = Ok(None); charged = 2272; remove 4 = Some(4); charged = 2272; insert 4 4 = Ok(None); charged = 2272; \
         remove 4 = Some(4); charged = 2272; remove 3 = Some(3); charged = 2168; insert 3 3 = Ok(None); charged = 2168; \
         remove 3 = Some(3); charged = 2168; fill 3 16 = true; charged = 2272; insert 16 16 = Ok(None); charged = 2776; \
         remove 16 = Some(16); charged = 2776; insert 16 16 = Ok(None); charged = 2776; remove 16 = Some(16); charged = 2776; \
         remove 15 = Some(15); remove 14 = Some(14); remove 13 = Some(13); charged = 2776; remove 12 = Some(12); charged = 2272; \
         insert 12 12 = Ok(None); charged = 2272; remove 12 = Some(12); charged = 2272; fill 12 48 = true; charged = 2776; \
         insert 48 48 = Ok(None); charged = 4208; remove 48 = Some(48); charged = 4208; insert 48 48 = Ok(None); charged = 4208; \
         remove 48 = Some(48); charged = 4208; remove 47 = Some(47); remove 46 = Some(46); remove 45 = Some(45); \
         remove 44 = Some(44); remove 43 = Some(43); remove 42 = Some(42); remove 41 = Some(41); charged = 4208; \
         remove 40 = Some(40); charged = 2776; insert 40 40 = Ok(None); charged = 2776; remove 40 = Some(40); charged = 2776",
    ),
    (
        2168,
        "no room for a second leaf: insert 0 100 = Ok(None); \
         insert 18446744073709551615 100 = Err(Budget { charged: 2168, wanted: 64, limit: 2168 }); insert 0 5 = Ok(Some(100))",
    ),
    (
        2104,
        "no room for a leaf: insert 100 100 = Err(Budget { charged: 2104, wanted: 64, limit: 2104 }); charged = 2104",
    ),
    // The split has made its first node when the second one is refused.
    (
        2295,
        "a split gives its first node back: insert 1 1 = Ok(None); \
         insert 256 2 = Err(Budget { charged: 2232, wanted: 64, limit: 2295 }); charged = 2168; get 256 = None",
    ),
    // The fourth of a leaf's five values goes, and then the third, which makes a lesser leaf if there is room for it. Two more are tried again.
    (
        2400,
        "a lesser node is within the budget: each 1 2 3 4 5 72057594037927936 = true; remove 1 = Some(1); charged = 2336; \
         present 2 = Some((2, None)); charged = 2232; remove 72057594037927936 = Some(72057594037927936); exchange 3 3 = Ok(None); \
         charged = 2168; get 4 = Some(4); get 5 = Some(5)",
    ),
    (
        2399,
        "a lesser node past the budget is done without: each 1 2 3 4 5 72057594037927936 = true; remove 1 = Some(1); \
         charged = 2336; present 2 = Some((2, None)); charged = 2336; remove 72057594037927936 = Some(72057594037927936); \
         exchange 3 3 = Ok(None); charged = 2168; get 4 = Some(4); get 5 = Some(5)",
    ),
    (
        2336,
        "it is done without where there is no room at all: each 1 2 3 4 5 72057594037927936 = true; remove 1 = Some(1); \
         charged = 2336; present 2 = Some((2, None)); charged = 2336; remove 72057594037927936 = Some(72057594037927936); \
         exchange 3 3 = Ok(None); charged = 2168; get 4 = Some(4); get 5 = Some(5)",
    ),
];

/// A tree within a budget.
pub type Tree = Congee<u64, u64, Limited, NoDrain>;

/// Whether each key from the first to before the second was absent when it was put there.
fn fills(tree: &mut Tree, start: u64, end: u64) -> Result<bool, Fail> {
    for key in start..end {
        if tree.insert(key, key)?.is_some() {
            return Ok(false);
        }
    }
    Ok(true)
}

/// Whether each of these keys was.
fn puts(tree: &mut Tree, keys: &[u64]) -> Result<bool, Fail> {
    for key in keys {
        if tree.insert(*key, *key)?.is_some() {
            return Ok(false);
        }
    }
    Ok(true)
}

/// The pairs from the first key to before the second, or to the second itself, in so many places.
fn scanned(
    alloc: Global,
    tree: &Tree,
    [start, last, places]: [u64; 3],
    with_last: bool,
) -> Result<String, Fail> {
    let mut found = [(0u64, 0u64); 20];
    let out = found.get_mut(..places as usize).ok_or("too many places")?;
    let count = if with_last {
        tree.range_inclusive(&start, &last, out)
    } else {
        tree.range(&start, &last, out)
    };
    told(alloc, &found.get(..count).ok_or("too many pairs")?)
}

/// The value that a closure puts there: a greater one by one, or the number at an absent key.
fn next_or(value: Option<u64>, number: u64) -> u64 {
    match value {
        Some(value) => value.wrapping_add(1),
        None => number,
    }
}

/// What can be asked.
#[derive(Clone, Copy)]
enum Word {
    Keys,
    /// The pair of the least key and that of the greatest one.
    Ends,
    Charged,
    Clear,
    /// How often closures were asked.
    Asked,
    Stats,
    Get,
    /// The pairs of the nearest keys below and above.
    Beside,
    Range,
    Through,
    Insert,
    Remove,
    /// A closure adds a number, or takes the key out where none is given.
    Present,
    /// A closure adds one, or answers a number at an absent key.
    OrInsert,
    /// The new value is left out where the key is to go.
    Exchange,
    Empty,
    Fill,
    Each,
    Changes,
    Goes,
}

const WORDS: [(&str, Word); 20] = [
    ("keys", Word::Keys),
    ("ends", Word::Ends),
    ("charged", Word::Charged),
    ("clear", Word::Clear),
    ("asked", Word::Asked),
    ("stats", Word::Stats),
    ("get", Word::Get),
    ("beside", Word::Beside),
    ("range", Word::Range),
    ("through", Word::Through),
    ("insert", Word::Insert),
    ("remove", Word::Remove),
    ("present", Word::Present),
    ("orinsert", Word::OrInsert),
    ("exchange", Word::Exchange),
    ("empty", Word::Empty),
    ("fill", Word::Fill),
    ("each", Word::Each),
    ("changes", Word::Changes),
    ("goes", Word::Goes),
];

fn word_of(text: &str) -> Result<Word, Fail> {
    for (known, word) in &WORDS {
        if *known == text {
            return Ok(*word);
        }
    }
    Err("no question")?
}

/// The number at a place, 0 where there are fewer.
fn number(numbers: &[u64], place: usize) -> u64 {
    match numbers.get(place) {
        Some(number) => *number,
        None => 0,
    }
}

/// A tree, and how often closures were asked.
#[derive(Drop)]
struct Owned<'a> {
    tree: &'a mut Tree,
    asked: u64,
}

impl Asked for Owned<'_> {
    fn answer(&mut self, alloc: Global, word: &str, numbers: &[u64]) -> Result<String, Fail> {
        let three = [number(numbers, 0), number(numbers, 1), number(numbers, 2)];
        let tree = &mut *self.tree;
        let key = three[0];
        match word_of(word)? {
            Word::Keys => told(alloc, &tree.keys()?.as_slice()),
            Word::Ends => told(alloc, &(tree.first(), tree.last())),
            Word::Charged => told(alloc, &tree.charged()),
            Word::Clear => told(alloc, &tree.clear()),
            Word::Asked => told(alloc, &self.asked),
            Word::Stats => told(alloc, &tree.stats()?),
            Word::Get => told(alloc, &tree.get(&key)),
            Word::Beside => told(alloc, &(tree.next_before(&key), tree.next_after(&key))),
            Word::Range => scanned(alloc, tree, three, false),
            Word::Through => scanned(alloc, tree, three, true),
            word => self.written(alloc, word, numbers, three),
        }
    }
}

impl Owned<'_> {
    /// The answer to a call that writes.
    fn written(
        &mut self,
        alloc: Global,
        word: Word,
        numbers: &[u64],
        three: [u64; 3],
    ) -> Result<String, Fail> {
        let (by, new) = (numbers.get(1).copied(), numbers.get(2).copied());
        let [key, value, _] = three;
        let (tree, asked) = (&mut *self.tree, &mut self.asked);
        match word {
            Word::Insert => told(alloc, &tree.insert(key, value)),
            Word::Remove => told(alloc, &tree.remove(&key)),
            Word::Present => {
                let raise = |found| {
                    *asked = asked.wrapping_add(1);
                    raised(found, by)
                };
                told(alloc, &tree.compute_if_present(&key, raise))
            }
            Word::OrInsert => {
                let raise = |found| {
                    *asked = asked.wrapping_add(1);
                    next_or(found, value)
                };
                told(alloc, &tree.compute_or_insert(key, raise))
            }
            Word::Exchange => told(alloc, &tree.compare_exchange(&key, &value, new)),
            word => told(alloc, &is_so(tree, word, numbers, three)?),
        }
    }
}

/// What is so or isn't, mostly after many calls.
fn is_so(tree: &mut Tree, word: Word, numbers: &[u64], three: [u64; 3]) -> Result<bool, Fail> {
    match word {
        Word::Empty => Ok(tree.is_empty()),
        Word::Fill => fills(tree, three[0], three[1]),
        Word::Each => puts(tree, numbers),
        Word::Changes => changes(tree, numbers),
        Word::Goes => goes(tree, three),
        _ => Err("no such word")?,
    }
}

/// The first turn that goes otherwise, with a tree that begins empty.
fn wrong(alloc: Global, limit: u64, dialogue: &'static str) -> Result<Option<&'static str>, Fail> {
    let mut tree: Tree = Congee::new(alloc, Limited::new(limit))?;
    let mut owned = Owned {
        tree: &mut tree,
        asked: 0,
    };
    let turn = wrong_turn(alloc, &mut owned, dialogue);
    tree.close();
    turn
}

#[test]
fn each_call_answers(rt: HostRuntime) -> Result<(), Fail> {
    for (limit, dialogue) in &DIALOGUES {
        let (name, turns) = named(*dialogue)?;
        assert_same(&rt, (name, wrong(rt.alloc(), *limit, turns)?), (name, None));
    }
    Ok(())
}

fn refusal(alloc: Global, limit: u64) -> Option<OOMError> {
    let tree: Result<U64Congee<u64, Limited>, OOMError> = U64Congee::new(
        alloc,
        Limited::new(limit),
    );
    match tree {
        Ok(tree) => {
            tree.close();
            None
        }
        Err(error) => Some(error),
    }
}

#[test]
fn a_root_is_refused(rt: HostRuntime) {
    let refused = OOMError::Budget {
        charged: 0,
        wanted: 2104,
        limit: 1024,
    };
    assert!(rt; refusal(rt.alloc(), 1024) == Some(refused));
}
