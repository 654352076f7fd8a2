//! The worked text of statistics; what no clause says: the text of an error; and each public call once with ample memory.
use crate::tests::asserts::assert_same;
use congee::{
    Allocator, DefaultAllocator, Drainer, LevelStats, Limited, NoDrain, NodeInfo, NodeStats,
    NodeType, OOMError,
};
use std::alloc::{AllocError, Global};
use std::test::Fail;

const TEXT: &str =
    "Level: 0 --- || N4:        0,     0.00 || N16:        0,     0.00 || N48:        0,     0.00 || N256:        1,     0.00 ||
Level: 1 --- || N4:        1,     0.50 || N16:        0,     0.00 || N48:        0,     0.00 || N256:        0,     0.00 ||
Level: 2 --- || N4:        2,     0.25 || N16:        0,     0.00 || N48:        0,     0.00 || N256:        0,     0.00 ||
Overall node count: 4, entry count: 5
Load factor: 0.25 (too low)
Active memory usage: 0 Mb
KV count: 2
";

fn prints(alloc: Global, stats: &NodeStats, text: &str) -> Result<bool, Fail> {
    Ok(format!(in alloc; "{stats}")?.as_str() == text)
}

// The nodes of the text, counted: each with its level, its form and its children.
fn counted(alloc: Global) -> Result<NodeStats, Fail> {
    let mut stats = NodeStats::new(alloc);
    stats.count(0, NodeType::N256, 1)?;
    for (level, children) in [(1, 2), (2, 1), (2, 1)] {
        if level <= stats.levels.len() {
            stats.count(level, NodeType::N4, children)?;
        }
    }
    stats.kv_pairs = 2;
    Ok(stats)
}

#[test]
fn prints_a_survey(rt: HostRuntime) -> Result<(), Fail> {
    let counted = counted(rt.alloc())?;
    let is_copied = counted.clone()? == counted;
    let is_printed = prints(rt.alloc(), &counted, TEXT)?;
    assert_same(&rt, (is_copied, is_printed), (true, true));
    Ok(())
}

const CUT_OFF: &str =
    "Level: 0 --- || N4:     1000,     0.99 || N16:     1000,     0.24 || N48:     1000,     0.08 || N256:     1000,     0.01 ||
Level: 1 --- || N4:     1000,     0.99 || N16:     1000,     0.24 || N48:     1000,     0.08 || N256:     1000,     0.01 ||
Overall node count: 8000, entry count: 31992
Load factor: 0.33 (too low)
Active memory usage: 5 Mb
KV count: 18446744073709551615
";

fn great_stats(alloc: Global) -> Result<NodeStats, Fail> {
    let info = NodeInfo {
        node_count: 1_000,
        value_count: 3_999,
    };
    let level = LevelStats {
        n4: info,
        n16: info,
        n48: info,
        n256: info,
    };
    Ok(NodeStats {
        levels: [level, level.clone()?].to_vec(alloc)?,
        kv_pairs: u64::MAX,
    })
}

#[test]
fn cuts_hundredths_off(rt: HostRuntime) -> Result<(), Fail> {
    let cut = prints(rt.alloc(), &great_stats(rt.alloc())?, CUT_OFF)?;
    assert_same(&rt, cut, true);
    Ok(())
}

fn budget(charged: u64, wanted: u64, limit: u64) -> OOMError {
    OOMError::Budget {
        charged,
        wanted,
        limit,
    }
}

// Gives back what is charged.
fn give<A: Allocator>(allocator: &mut A, size: u64) {
    if size <= allocator.charged() {
        allocator.deallocate(size);
    }
}

#[test]
fn charges_up_to_the_limit(rt: HostRuntime) {
    let mut some = Limited::new(100);
    let told = [some.allocate(64), some.allocate(37), some.allocate(36)];
    assert_same(&rt, told, [Ok(()), Err(budget(64, 37, 100)), Ok(())]);
    give(&mut some, 64);
    assert_same(&rt, (some.charged(), some.limit()), (36, 100));
    let mut all = DefaultAllocator::new();
    let told = [all.allocate(u64::MAX), all.allocate(1)];
    assert_same(&rt, told, [Ok(()), Err(budget(u64::MAX, 1, u64::MAX))]);
    give(&mut all, u64::MAX);
    assert_same(&rt, (all.charged(), all.limit()), (0, u64::MAX));
}

fn shows(alloc: Global, error: OOMError) -> Result<bool, Fail> {
    Ok(format!(in alloc; "{error}")?.as_str() == "Allocator is out of memory!")
}

fn add_one(words: &mut Vec<u64>) -> Result<(), OOMError> {
    words.push(1)?;
    Ok(())
}

// A growth that is refused is one of these errors too.
#[test]
fn shows_want_of_memory(rt: HostRuntime) -> Result<(), Fail> {
    let of_budget = shows(rt.alloc(), budget(0, 2_104, 1_024))?;
    let of_memory = shows(rt.alloc(), OOMError::from(AllocError))?;
    let added = add_one(&mut Vec::new(rt.alloc()));
    assert_same(&rt, (of_budget, of_memory, added), (true, true, Ok(())));
    Ok(())
}

#[test]
fn no_drain_takes_pairs(rt: HostRuntime) {
    let mut none = NoDrain;
    none.drain(1u64, 10u64);
    none.drain(2u64, 20u64);
    assert!(rt; none == NoDrain);
}
