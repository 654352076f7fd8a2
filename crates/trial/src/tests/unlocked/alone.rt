//! A worker that is the only one at its index: one attempt answers.

use super::{leave, opened};
use crate::examples::alone::{looks_up, reads_range};
use crate::tests::asserts::assert_same;
use optimistic::Pair;
use std::test::Fail;

#[test]
fn one_attempt_answers_a_worker_alone(rt: HostRuntime) -> Result<(), Fail> {
    let index = opened(rt.alloc(), 1000)?;
    let mut worker = index.worker(rt.alloc())?;
    let put = worker.try_insert(3, 4);
    let found = [looks_up(&mut worker, 3), looks_up(&mut worker, 5)];
    let mut out = [Pair { key: 0, value: 0 }; 2];
    let read = reads_range(&mut worker, rt.alloc(), 0, 9, &mut out);
    let told = (read, out[0].key, out[0].value);
    leave(worker);
    assert_same(&rt, put, Ok(None));
    assert_same(&rt, found, [Some(Some(4)), Some(None)]);
    assert_same(&rt, told, (Ok(1), 3, 4));
    Ok(())
}
