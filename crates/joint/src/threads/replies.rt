//! How calls read their end. The end of another call, which none of them meets, makes Idle.

ghost use Rattle.std.specs.Prelude.{◌≡◌, ◌≤◌, Err, length, map, min, take, IfErr, IfOk};
ghost use Rattle.joint.specs.declared.refusal.Refusal.TheVariants as cause;
ghost use Rattle.joint.specs.threads.Threads.{Ascend, IsOfReader, ascends, bounds, computed, contained, counted, emptied, exchanged, filled, got, inserted, listed, of_reader, pairs_counted, removed, replaced, scanned, told};

use crate::refusal::Refusal;
use crate::steps::{Done, Op};
use crate::threads::driver::Pair;
use congee::NodeStats;
use judge::Reply;

/// How a whole call ends.
pub(crate) type End<P> = Result<Done<P>, Refusal>;

/// The end of another call. It is let go as a whole: in place, each of its variants would be a step of the proof.
fn no_end<P: Drop, T>(other: Done<P>) -> Result<T, Refusal>
    ensures { result ≡ Err cause.Idle }
{
    drop(other);
    Err(Refusal::Idle)
}

/// A refusal of a call that only reads; that of another call, which none of these meets, makes Idle.
pub(crate) fn of_reader(refusal: Refusal) -> Refusal
    ensures same { result ≡ of_reader refusal }
    ensures own { IsOfReader result }
{
    match refusal {
        Refusal::Busy => Refusal::Busy,
        Refusal::Count => Refusal::Count,
        Refusal::Foreign => Refusal::Foreign,
        Refusal::Unknown => Refusal::Unknown,
        Refusal::Unpinned => Refusal::Unpinned,
        _ => Refusal::Idle,
    }
}

/// Of a pin, an unpin, a repin, a flush or a release.
pub(crate) fn told<P: Drop>(end: End<P>) -> Result<(), Refusal>
    ensures { result ≡ told end }
{
    match end {
        Ok(Done::Unit) => Ok(()),
        Ok(other) => no_end(other),
        Err(refusal) => Err(refusal),
    }
}

/// Of a look-up.
pub(crate) fn got<P: Drop>(end: End<P>) -> Result<Option<P>, Refusal>
    ensures same { result ≡ got end }
    ensures refused { IfErr result IsOfReader }
{
    match end {
        Ok(Done::Reply(Reply::Get(found))) => Ok(found),
        Ok(other) => no_end(other),
        Err(refusal) => Err(of_reader(refusal)),
    }
}

/// Of a look-up, whether it found a value.
pub(crate) fn contained<P: Drop>(end: End<P>) -> Result<bool, Refusal>
    ensures same { result ≡ contained end }
    ensures refused { IfErr result IsOfReader }
{
    match end {
        Ok(Done::Reply(Reply::Get(found))) => Ok(found.is_some()),
        Ok(other) => no_end(other),
        Err(refusal) => Err(of_reader(refusal)),
    }
}

/// Of an insertion.
pub(crate) fn inserted<P: Drop>(end: End<P>) -> Result<Option<P>, Refusal>
    ensures { result ≡ inserted end }
{
    match end {
        Ok(Done::Reply(Reply::Insert(before))) => Ok(before),
        Ok(other) => no_end(other),
        Err(refusal) => Err(refusal),
    }
}

/// Of a removal.
pub(crate) fn removed<P: Drop>(end: End<P>) -> Result<Option<P>, Refusal>
    ensures { result ≡ removed end }
{
    match end {
        Ok(Done::Reply(Reply::Remove(before))) => Ok(before),
        Ok(other) => no_end(other),
        Err(refusal) => Err(refusal),
    }
}

/// Of a compute on a present key.
pub(crate) fn computed<P: Drop>(end: End<P>) -> Result<Option<(P, Option<P>)>, Refusal>
    ensures { result ≡ computed end }
{
    match end {
        Ok(Done::Reply(Reply::ComputePresent(pair))) => Ok(pair),
        Ok(other) => no_end(other),
        Err(refusal) => Err(refusal),
    }
}

/// Of a compute that inserts.
pub(crate) fn replaced<P: Drop>(end: End<P>) -> Result<Option<P>, Refusal>
    ensures { result ≡ replaced end }
{
    match end {
        Ok(Done::Reply(Reply::ComputeInsert(before))) => Ok(before),
        Ok(other) => no_end(other),
        Err(refusal) => Err(refusal),
    }
}

/// Of an exchange.
pub(crate) fn exchanged<P: Drop>(end: End<P>) -> Result<Result<Option<P>, Option<P>>, Refusal>
    ensures { result ≡ exchanged end }
{
    match end {
        Ok(Done::Reply(Reply::Exchange(answer))) => Ok(answer),
        Ok(other) => no_end(other),
        Err(refusal) => Err(refusal),
    }
}

/// Of a scan, by its places: it fills no more than there are, with keys that ascend within its range.
pub(crate) fn scanned<P: Drop, Q: Pair<P>>(
    range: (u64, u128),
    found: &[Q],
    told: End<P>,
) -> Result<usize, Refusal>
    ensures same { result ≡ scanned range (map Q.key_of found.now) told }
    ensures few { IfOk result (λ n. n ≤ length found.now) }
    ensures ascend { IfOk result (λ n. Ascend range.0 range.1 (map Q.key_of (take n found.now))) }
    ensures refused { IfErr result IsOfReader }
{
    match told {
        Ok(Done::Scanned(count)) => filled_at_most(range, found, count),
        Ok(other) => no_end(other),
        Err(refusal) => Err(of_reader(refusal)),
    }
}

/// So many of the places, and no more than there are.
fn filled_at_most<P: Drop, Q: Pair<P>>(
    range: (u64, u128),
    found: &[Q],
    count: usize,
) -> Result<usize, Refusal>
    ensures same { result ≡ filled range (map Q.key_of found.now) (min count (length (map Q.key_of found.now))) }
    ensures few { IfOk result (λ n. n ≤ length found.now) }
    ensures ascend { IfOk result (λ n. Ascend range.0 range.1 (map Q.key_of (take n found.now))) }
    ensures refused { IfErr result IsOfReader }
{
    filled(range, found, count.min(found.len()))
}

/// So many of the places, where their keys ascend.
fn filled<P: Drop, Q: Pair<P>>(
    range: (u64, u128),
    found: &[Q],
    count: usize,
) -> Result<usize, Refusal>
    requires { count ≤ length found.now }
    ensures same { result ≡ filled range (map Q.key_of found.now) count }
    ensures few { IfOk result (λ n. n ≤ length found.now) }
    ensures ascend { IfOk result (λ n. Ascend range.0 range.1 (map Q.key_of (take n found.now))) }
    ensures refused { IfErr result IsOfReader }
{
    if ascends(range.0, range.1, &found[..count]) {
        Ok(count)
    } else {
        Err(Refusal::Idle)
    }
}

/// Whether the keys of these pairs ascend from `start` on, and end before `end`.
fn ascends<P: Drop, Q: Pair<P>>(start: u64, end: u128, pairs: &[Q]) -> bool
    ensures { result ≡ ascends start end (map Q.key_of pairs.now) }
{
    let mut least = start as u128;
    for pair in pairs {
        let key = pair.key() as u128;
        if key < least || end <= key {
            return false;
        }
        least = key + 1;
    }
    true
}

/// The keys of a scan, from its first on to before its end.
pub(crate) fn bounds<P>(op: &Op<P>) -> (u64, u128)
    ensures { result ≡ bounds op.now }
{
    match op {
        Op::Range(start, end, _) => (*start, *end as u128),
        Op::RangeInclusive(start, last, _) => (*start, *last as u128 + 1),
        // It is no scan.
        _ => (0, 0),
    }
}

/// Of the question whether no key stands.
pub(crate) fn emptied<P: Drop>(end: End<P>) -> Result<bool, Refusal>
    ensures same { result ≡ emptied end }
    ensures refused { IfErr result IsOfReader }
{
    match end {
        Ok(Done::Empty(empty)) => Ok(empty),
        Ok(other) => no_end(other),
        Err(refusal) => Err(of_reader(refusal)),
    }
}

/// Of the question for all keys.
pub(crate) fn listed<P: Drop>(end: End<P>) -> Result<Vec<u64>, Refusal>
    ensures { result ≡ listed end }
{
    match end {
        Ok(Done::Keys(keys)) => Ok(keys),
        Ok(other) => no_end(other),
        Err(refusal) => Err(refusal),
    }
}

/// Of the count of nodes.
pub(crate) fn counted<P: Drop>(end: End<P>) -> Result<NodeStats, Refusal>
    ensures { result ≡ counted end }
{
    match end {
        Ok(Done::Stats(stats)) => Ok(stats),
        Ok(other) => no_end(other),
        Err(refusal) => Err(refusal),
    }
}

/// Of the count of nodes, how many pairs there are.
pub(crate) fn pairs_counted<P: Drop>(end: End<P>) -> Result<u64, Refusal>
    ensures { result ≡ pairs_counted end }
{
    match end {
        Ok(Done::Stats(stats)) => Ok(stats.kv_pairs),
        Ok(other) => no_end(other),
        Err(refusal) => Err(refusal),
    }
}
