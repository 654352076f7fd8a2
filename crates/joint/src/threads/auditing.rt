//! Whether a journal has the entries that its workers keep for themselves.

ghost use Rattle.std.specs.Prelude.{◌≡◌, ◌<◌, ◌↔◌, All, IsTrue, length};
ghost use Rattle.joint.specs.threads.Auditing.{AreOwn, IsAudited, of_worker};

use judge::{Call, Entry, Reply};

/// Whether each worker's own entries stand in the journal, in its order, and no others of it: list i is worker i's, and
/// every entry's worker has a list. It goes over the journal once for each list, and takes no memory.
pub fn audit(journal: &[Entry<u64>], own: &[Vec<Entry<u64>>]) -> bool
    ensures { IsTrue result ↔ IsAudited journal.now own.now }
{
    have_lists(journal, own.len()) && are_own(journal, own)
}

/// Whether the number of every entry's worker is below this one.
fn have_lists(journal: &[Entry<u64>], lists: usize) -> bool
    ensures { IsTrue result ↔ All (λ e. e.worker < lists) journal.now }
{
    journal.iter().all(|entry| (entry.worker as usize) < lists)
}

/// Whether each list is the journal's entries of its worker.
fn are_own(journal: &[Entry<u64>], own: &[Vec<Entry<u64>>]) -> bool
    ensures { IsTrue result ↔ AreOwn journal.now own.now }
{
    for worker in 0..own.len() {
        if !is_own(journal, worker, own[worker].as_slice()) {
            return false;
        }
    }
    true
}

/// Whether this list is the journal's entries of this worker.
fn is_own(journal: &[Entry<u64>], worker: usize, list: &[Entry<u64>]) -> bool
    ensures { IsTrue result ↔ (list.now ≡ of_worker worker journal.now) }
{
    let mut rest = list;
    for entry in journal {
        if entry.worker as usize == worker {
            let Some((first, left)) = rest.split_first() else {
                return false;
            };
            if !is_same(first, entry) {
                return false;
            }
            rest = left;
        }
    }
    rest.is_empty()
}

/// Whether two entries are the same.
fn is_same(one: &Entry<u64>, other: &Entry<u64>) -> bool
    ensures { IsTrue result ↔ (one.now ≡ other.now) }
{
    one.worker == other.worker
        && is_same_call(&one.call, &other.call)
        && is_same_reply(&one.reply, &other.reply)
}

/// Whether two calls are the same, with the answers that their closures gave.
fn is_same_call(one: &Call<u64>, other: &Call<u64>) -> bool
    ensures { IsTrue result ↔ (one.now ≡ other.now) }
{
    *one == *other
}

/// Whether two replies are the same.
fn is_same_reply(one: &Reply<u64>, other: &Reply<u64>) -> bool
    ensures { IsTrue result ↔ (one.now ≡ other.now) }
{
    *one == *other
}
