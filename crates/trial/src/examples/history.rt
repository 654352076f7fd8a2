//! An index with a journal that threads share: they write and scan it, and its history is checked.
ghost use Rattle.std.specs.Prelude.{◌≡◌, IfOk, true};
ghost use Rattle.joint.specs.threads.Journals.{IsCounted, IsJournal};

use congee::DefaultAllocator;
use joint::{Every, Guard, Journaled, Limits, Refusal, Share, Worker};
use judge::Entry;
use std::alloc::Global;
use std::marker::Brand;
use std::sync::Wait;
use std::sync::ledger::{Blank, Ledger};
use std::thread;
use std::thread::Threads;

/// Numbers under their keys, for threads. Its ledger counts every writing call.
pub type Recorded<L> = Journaled<L, Every, u64, u64>;

/// What is known of an index after its threads have ended.
#[derive(Drop)]
pub struct Known {
    pub journal: Vec<Entry<u64>>,
    /// The writing calls.
    pub written: u64,
}

/// A share, and the number of writing calls that it has counted.
#[derive(Drop)]
pub struct Writer<L: Ledger> {
    share: Share<L>,
    made: u64,
    ghost counted: { share.count ≡ made },
}

impl<L: Ledger> Writer<L> {
    /// With a share that has counted none.
    fn new(share: Share<L>) -> Writer<L>
        requires { share.count ≡ 0 }
    {
        Writer { share, made: 0 }
    }

    /// Puts a key in.
    fn put<R: Wait>(
        &mut self,
        rt: &R,
        index: &Recorded<L>,
        key: u64,
        worker: &mut Worker,
        guard: &Guard,
    ) -> Result<(), Refusal> {
        let Some(made) = self.made.checked_add(1) else {
            return Err(Refusal::JournalFull);
        };
        index.insert(rt, key, key, &mut self.share, worker, guard)?;
        self.made = made;
        Ok(())
    }

    /// The share, and the number of calls that it has counted.
    fn into_share(self) -> (Share<L>, u64)
        ensures { result.0.count ≡ result.1 }
    {
        let Writer { share, made } = self;
        (share, made)
    }
}

/// Puts these keys in, with a share that has counted no call. However many were put in, it has counted as many then.
pub fn counts_calls<L: Ledger, R: Wait>(
    rt: &R,
    index: &Recorded<L>,
    share: Share<L>,
    keys: &[u64],
    worker: &mut Worker,
    guard: &Guard,
) -> Result<(Share<L>, u64), Refusal>
    requires { share.count ≡ 0 }
    ensures { IfOk result (λ r. r.0.count ≡ r.1) }
{
    let mut writer = Writer::new(share);
    for key in keys {
        writer.put(rt, index, *key, worker, guard)?;
    }
    Ok(writer.into_share())
}

/// Puts a key in, and looks at the keys from it on; gives how many of them it found.
fn put_and_scan<L: Ledger, R: Wait>(
    rt: &R,
    index: &Recorded<L>,
    key: u64,
    share: &mut Share<L>,
    worker: &mut Worker,
    guard: &Guard,
) -> Result<usize, Refusal> {
    index.insert(rt, key, key, share, worker, guard)?;
    index.range(rt, &key, &u64::MAX, &mut [(0, 0); 4], worker, guard)
}

/// Puts so many keys in, from one on, and scans after each, as a worker of its own. Gives its share back.
fn writes<L: Ledger, R: Wait>(
    rt: &R,
    index: &Recorded<L>,
    share: Share<L>,
    from: u64,
    count: u64,
) -> Result<Share<L>, Refusal> {
    let mut share = share;
    let mut worker = index.register(rt)?;
    for key in from..from.saturating_add(count) {
        index.pinned(rt, &mut worker, |worker, guard| {
            put_and_scan(rt, index, key, &mut share, worker, guard)
        })?;
    }
    match index.release(rt, worker) {
        Ok(()) => Ok(share),
        Err((refusal, _)) => Err(refusal),
    }
}

/// What is known after two threads have written, with this ledger.
fn known_of_two<L: Ledger + Send + Sync, R: Threads + Wait + Sync>(
    rt: &R,
    alloc: Global,
    blank: Blank,
    count: u64,
) -> Result<Known, Refusal>
    requires name { blank.name ≡ L.name }
    requires ledger { blank.parts ≡ L.parts }
    requires parts { blank.parts ≡ 2 }
    ensures journal { IfOk result (λ known. IsJournal known.journal.items) }
    ensures written { IfOk result (λ known. IsCounted (λ _. true) known.written) }
{
    let limits = Limits::usual(2, 1_000).with_id(1);
    let (index, mut one): (Recorded<L>, Share<L>) = Journaled::new(
        alloc,
        limits,
        DefaultAllocator::new(),
        1_000,
        2,
        blank,
    )?;
    let two = one.split(1);
    let shared = &index;
    let (first, second) = thread::join(
        rt,
        move || writes(rt, shared, one, 0, count),
        move || writes(rt, shared, two, count, count),
    );
    let mut all = first?;
    all.merge(second?);
    Ok(Known {
        written: index.gather(rt, &mut all)?,
        journal: index.entries(rt)?,
    })
}

/// Whatever two threads do at once, the journal that comes back is one that the index kept, so it is legal and replays to
/// the pairs that stood then; and the count of the shares that were merged is the number of the writing calls in such a
/// journal.
pub fn writes_of_two<R: Threads + Wait + Sync>(
    rt: &R,
    alloc: Global,
    count: u64,
) -> Result<Known, Refusal>
    ensures journal { IfOk result (λ known. IsJournal known.journal.items) }
    ensures written { IfOk result (λ known. IsCounted (λ _. true) known.written) }
{
    known_of_two::<Brand, R>(rt, alloc, Blank::new(2), count)
}
