//! The test of a journal.
ghost use Rattle.std.specs.Prelude.{◌≡◌, ℕ, ◌↔◌, IfOk, OnOk, nat_eq};
ghost use Rattle.judge.specs.Answer.{answer};
ghost use Rattle.judge.specs.Journal.{IsLegal, IsWrongAt};

use crate::journal::{Call, Entry, Reply};
use crate::standing::Standing;
use std::alloc::{AllocError, Global};

/// What a journal proves to be.
#[derive(Clone, Copy, PartialEq, Eq, Debug)]
pub enum Verdict {
    /// Every reply is the map's.
    Legal,
    /// The place of the first entry, counted from 0, whose reply isn't the map's.
    Wrong(usize),
}

/// Replays the journal on an empty map, in one pass of logarithmic steps.
///
/// The only error is want of memory for the map.
pub fn check(alloc: Global, journal: &[Entry<u64>]) -> Result<Verdict, AllocError>
    ensures legal { IfOk result (λ verdict. (verdict ≡ Verdict.Legal) ↔ IsLegal nat_eq journal.now) }
    ensures wrong { IfOk result (λ verdict. (place : ℕ) → (verdict ≡ Verdict.Wrong place) ↔ IsWrongAt nat_eq journal.now place) }
{
    let mut standing = Standing::new(alloc);
    for (place, entry) in journal.iter().enumerate() {
        if reply_to(&mut standing, &entry.call)? != entry.reply {
            return Ok(Verdict::Wrong(place));
        }
    }
    Ok(Verdict::Legal)
}

/// Makes the call on the standing pairs, and gives its reply.
fn reply_to(standing: &mut Standing, call: &Call<u64>) -> Result<Reply<u64>, AllocError>
    ensures reply { IfOk result (λ reply. reply ≡ (answer nat_eq standing.old call.now).0) }
    ensures next { OnOk result (standing.new ≡ (answer nat_eq standing.old call.now).1) }
{
    match *call {
        Call::Get(key) => Ok(Reply::Get(standing.get(key))),
        Call::Insert(key, value) => Ok(Reply::Insert(standing.insert(key, value)?)),
        Call::Remove(key) => Ok(Reply::Remove(standing.remove(key))),
        Call::ComputePresent(key, new) => match standing.get(key) {
            Some(old) => {
                standing.set(key, new)?;
                Ok(Reply::ComputePresent(Some((old, new))))
            }
            None => Ok(Reply::ComputePresent(None)),
        },
        Call::ComputeInsert(key, new) => Ok(Reply::ComputeInsert(standing.insert(key, new)?)),
        Call::Exchange(key, old, new) => match standing.get(key) {
            Some(found) if found == old => {
                standing.set(key, new)?;
                Ok(Reply::Exchange(Ok(new)))
            }
            found => Ok(Reply::Exchange(Err(found))),
        },
    }
}
