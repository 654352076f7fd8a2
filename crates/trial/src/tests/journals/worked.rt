//! What no clause says: worked journals, and each public call once with ample memory.
use crate::tests::asserts::assert_same;
use crate::tests::machine::entry;
use joint::audit;
use judge::{ArcPayload, Call, Entry, Payload, Reply, Verdict, Word64, check, number_of, word_of};
use std::sync::Arc;
use std::test::Fail;

// One journal with each case of each call, from the empty map on.
fn each_case() -> [Entry<u64>; 13] {
    [
        entry(Call::Get(7), Reply::Get(None)),
        entry(Call::Insert(7, 1), Reply::Insert(None)),
        entry(Call::Insert(7, 2), Reply::Insert(Some(1))),
        entry(
            Call::ComputePresent(7, Some(3)),
            Reply::ComputePresent(Some((2, Some(3)))),
        ),
        entry(Call::Exchange(7, 4, None), Reply::Exchange(Err(Some(3)))),
        entry(Call::Exchange(7, 3, Some(5)), Reply::Exchange(Ok(Some(5)))),
        entry(Call::Exchange(7, 5, None), Reply::Exchange(Ok(None))),
        entry(Call::Exchange(7, 5, None), Reply::Exchange(Err(None))),
        entry(Call::ComputePresent(7, None), Reply::ComputePresent(None)),
        entry(Call::ComputeInsert(7, 6), Reply::ComputeInsert(None)),
        entry(Call::ComputeInsert(7, 8), Reply::ComputeInsert(Some(6))),
        entry(
            Call::ComputePresent(7, None),
            Reply::ComputePresent(Some((8, None))),
        ),
        entry(Call::Remove(7), Reply::Remove(None)),
    ]
}

#[test]
fn finds_the_first_wrong_place(rt: HostRuntime) {
    let journal = [
        entry(Call::Insert(1, 2), Reply::Insert(None)),
        entry(Call::Get(1), Reply::Get(Some(2))),
        entry(Call::Get(1), Reply::Get(None)),
    ];
    assert_same(&rt, check(rt.alloc(), &journal), Ok(Verdict::Wrong(2)));
    assert_same(&rt, check(rt.alloc(), &journal[..2]), Ok(Verdict::Legal));
    assert_same(&rt, check(rt.alloc(), &[]), Ok(Verdict::Legal));
}

#[test]
fn accepts_each_case_and_takes_no_reply_for_another(rt: HostRuntime) {
    let mut journal = each_case();
    assert_same(&rt, check(rt.alloc(), &journal), Ok(Verdict::Legal));
    journal[6].reply = Reply::Exchange(Err(Some(5)));
    assert_same(&rt, check(rt.alloc(), &journal), Ok(Verdict::Wrong(6)));
    journal[0].reply = Reply::Insert(None);
    assert_same(&rt, check(rt.alloc(), &journal), Ok(Verdict::Wrong(0)));
}

// A copy of a payload, and whether it is known to be the payload.
fn copied<P: Payload>(payload: &P) -> Option<(P, bool)> {
    let copied = payload.copy()?;
    let same = copied.same(payload);
    Some((copied, same))
}

fn there_and_back<W: Word64>(value: &W) -> W {
    W::from_word(value.to_word())
}

#[test]
fn copies_payloads(rt: HostRuntime) -> Result<(), Fail> {
    assert_same(&rt, copied(&42u64), Some((42, true)));
    assert_same(&rt, 42u64.same(&41), false);

    let shared = ArcPayload::new(Arc::new(rt.alloc(), 42u64)?);
    let (copied, same) = copied(&shared).ok_or("no copy")?;
    assert!(rt; !same);
    assert_same(&rt, *copied.into_arc(), 42);
    assert_same(&rt, *shared.into_arc(), 42);
    Ok(())
}

#[test]
fn words_come_back(rt: HostRuntime) {
    for word in [0, 42, u64::MAX] {
        assert_same(&rt, there_and_back(&word), word);
        assert_same(&rt, word_of::<u64>(number_of(&Some(word))), Some(word));
    }
    assert_same(&rt, word_of::<u64>(number_of::<u64>(&None)), None);
}

// The entry of a look-up that finds nothing.
fn looked_up(worker: u32, key: u64) -> Entry<u64> {
    Entry {
        worker,
        call: Call::Get(key),
        reply: Reply::Get(None),
    }
}

// The second worker has no list, an entry is missing, and two stand the other way round.
#[test]
fn audits_what_each_worker_keeps(rt: HostRuntime) -> Result<(), Fail> {
    let alloc = rt.alloc();
    let (first, second, third) = (looked_up(0, 1), looked_up(1, 1), looked_up(0, 2));
    let journal = [first, second, third];
    let own = [vec![in alloc; first, third]?, vec![in alloc; second]?];
    let kept = (audit(&journal, &own), audit(&[], &[]));
    let others = (
        audit(&journal, &own[..1]),
        audit(&journal[..2], &own),
        audit(&[third, second, first], &own),
    );
    assert_same(&rt, (kept, others), ((true, true), (false, false, false)));
    Ok(())
}
