//! A worker of the program that lets threads call on an index whose readers take no lock.
ghost use Rattle.std.specs.Prelude.{◌≡◌, [], ◌+◌, ◌*◌, ◌/◌, ◌%◌, ◌^◌, ◌<◌, IfOk, OnOk};
ghost use Rattle.trial.specs.Lockfree.{IsCalled, IsWorked, Keeps, own_key};

use crate::worker::{KEYS, key_of, takes_out};
use judge::{Call, Entry, Reply};
use optimistic::{Refusal, Seen, U64Congee, Worker};
use std::alloc::{AllocError, Global};
use std::sync::Wait;

/// What came of a worker's calls.
#[derive(Drop)]
pub struct Made {
    /// The entries of those that were made, in their order.
    pub own: Vec<Entry<u64>>,
    /// How many were refused.
    pub refused: usize,
}

impl Made {
    /// Of no calls.
    fn none(alloc: Global) -> Made
        ensures { (result.own.items ≡ []) × (result.refused ≡ 0) }
    {
        Made {
            own: Vec::new(alloc),
            refused: 0,
        }
    }

    /// Keeps the entry of a further call, or counts it as refused.
    fn keep(&mut self, called: Result<Entry<u64>, Refusal>) -> Result<(), AllocError>
        requires { self.old.refused < 2 ^ 32 }
        ensures { OnOk result (Keeps called self.old self.new) }
    {
        match called {
            Ok(entry) => {
                self.own.push(entry)?;
                Ok(())
            }
            Err(_) => {
                self.refused += 1;
                Ok(())
            }
        }
    }
}

/// What a worker brings back from its calls.
#[derive(Drop)]
pub struct Worked<'t> {
    pub made: Made,
    /// What it has then seen of the index.
    pub seen: Seen<'t>,
}

/// The key of this number among a worker's own, of which there are `KEYS`. They lie beside those of the others.
pub fn own_key(place: u32, number: u64) -> u64
    requires few { number < 97 }
    requires place { place < 16 }
    ensures { result ≡ own_key place number }
{
    16 * key_of(number) + u64::from(place)
}

/// The key of a worker's call of this number. Two calls in a row have the same.
fn key_at(place: u32, number: u32) -> u64
    requires { place < 16 }
    ensures { result ≡ own_key place ((7 * place + number / 2) % 97) }
{
    own_key(place, (7 * u64::from(place) + u64::from(number / 2)) % KEYS)
}

/// Makes a worker's call of this number, of so many.
fn call<R: Wait>(
    rt: &R,
    worker: &mut Worker<'_>,
    place: u32,
    number: u32,
    calls: u32,
) -> Result<Entry<u64>, Refusal>
    requires { place < 16 }
    ensures called { IsCalled calls place number result worker.old worker.new }
    ensures index { worker.new.index ≡ worker.old.index }
{
    let key = key_at(place, number);
    let (call, reply) = if number % 4 == 1 {
        (Call::Get(key), Reply::Get(worker.get(rt, key)))
    } else if takes_out(number) {
        let before = worker.remove(rt, key)?;
        (Call::Remove(key), Reply::Remove(before))
    } else {
        let value = u64::from(place) * u64::from(calls) + u64::from(number);
        let before = worker.insert(rt, key, value)?;
        (Call::Insert(key, value), Reply::Insert(before))
    };
    Ok(Entry {
        worker: place,
        call,
        reply,
    })
}

/// Makes all calls of a worker, one after the other. A refused one is passed over.
pub fn work<'t, R: Wait>(
    rt: &R,
    alloc: Global,
    index: &'t U64Congee,
    place: u32,
    calls: u32,
) -> Result<Worked<'t>, AllocError>
    requires { place < 16 }
    ensures index { IfOk result (λ w. w.seen.index ≡ index.now.tree.nodes.table.shared.table_id) }
    ensures worked { IfOk result (λ w. IsWorked calls place w.made w.seen.seen) }
{
    let mut worker = index.worker(alloc)?;
    let mut made = Made::none(alloc);
    for number in 0..calls {
        made.keep(call(rt, &mut worker, place, number, calls))?;
    }
    let seen = worker.note();
    Ok(Worked { made, seen })
}
