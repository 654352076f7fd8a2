//! A worker of the program that lets threads call.
ghost use Rattle.std.specs.Prelude.{◌≡◌, ◌+◌, ◌<◌, IfOk, OnOk, length};
ghost use Rattle.judge.specs.declared.journal.Call.TheVariants as Call;
ghost use Rattle.trial.specs.Histories.{AreCalls, call_at, key_at, key_of, takes_out, writes_at, writes_in};
ghost use Rattle.trial.specs.declared.worker.Cut.TheVariants as why;

use congee::DefaultAllocator;
use joint::{Every, Guard, Journaled, Refusal, Share, Worker};
use judge::{Call, Entry, Reply};
use std::alloc::{AllocError, AllocFailed, Global};
use std::sync::Wait;
use std::sync::ledger::Ledger;

/// The index on which the workers call. Its ledger counts every writing call.
pub type Index<L> = Journaled<L, Every, u64, u64, DefaultAllocator>;

/// Why there is nothing to tell of the workers' calls.
#[derive(Clone, Copy, Debug, PartialEq, Eq)]
pub enum Cut {
    /// The index refused a call.
    Refused(Refusal),
    /// A growth of the program's own was refused.
    Memory,
}

impl From<Refusal> for Cut {
    ghost from_gives = { λ refusal cut. cut ≡ why.Refused refusal };

    fn from(refusal: Refusal) -> Cut {
        Cut::Refused(refusal)
    }
}

impl From<AllocError> for Cut {
    ghost from_gives = { λ _ cut. cut ≡ why.Memory };

    fn from(_: AllocError) -> Cut {
        Cut::Memory
    }
}

impl<T: Drop> From<AllocFailed<T>> for Cut {
    ghost from_gives = { λ _ cut. cut ≡ why.Memory };

    fn from(_: AllocFailed<T>) -> Cut {
        Cut::Memory
    }
}

/// A worker that is to call.
#[derive(Drop)]
pub struct Caller<L: Ledger> {
    /// Which of the workers it is, counted from 0.
    pub place: u32,
    pub worker: Worker,
    pub share: Share<L>,
}

/// What a worker brings back from its calls.
#[derive(Drop)]
pub struct Worked<L: Ledger> {
    pub share: Share<L>,
    /// The entries of its calls, in its order.
    pub own: Vec<Entry<u64>>,
}

/// How many keys the workers call on.
pub const KEYS: u64 = 97;

/// The key of each number below `KEYS`: sixty lie side by side in one leaf, the others in leaves of their own at three depths.
pub fn key_of(number: u64) -> u64
    requires few { number < 97 }
    ensures { result ≡ key_of number }
{
    if number < 60 {
        return number;
    }
    match number % 3 {
        0 => (number - 59) * 256,
        1 => (number - 59) * 65_536,
        _ => (number - 59) * 16_777_216,
    }
}

/// Whether the call of this number is a removal: one in four while a worker's keys become more, and two while they become fewer.
pub fn takes_out(number: u32) -> bool
    ensures { result ≡ takes_out number }
{
    match number % 4 {
        0 => number / 512 % 2 == 1,
        3 => true,
        _ => false,
    }
}

impl<L: Ledger> Caller<L> {
    /// The key of its call of this number. Two calls in a row have the same.
    fn key(&self, number: u32) -> u64
        ensures { result ≡ key_at self.now.place number }
    {
        key_of((7 * u64::from(self.place) + u64::from(number / 2)) % KEYS)
    }

    /// The entry of a call of its own.
    fn entry(&self, call: Call<u64>, reply: Reply<u64>) -> Entry<u64>
        ensures { result.call ≡ call }
    {
        Entry {
            worker: self.worker.number(),
            call,
            reply,
        }
    }

    /// Looks a key up.
    fn look<R: Wait>(
        &mut self,
        rt: &R,
        index: &Index<L>,
        guard: &Guard,
        key: u64,
    ) -> Result<Entry<u64>, Refusal>
        ensures made { IfOk result (λ entry. entry.call ≡ Call.Get key) }
        ensures kept { (self.new.place ≡ self.old.place) × (self.new.share ≡ self.old.share) }
    {
        let found = index.get(rt, &key, &mut self.worker, guard)?;
        Ok(self.entry(Call::Get(key), Reply::Get(found)))
    }

    /// Takes a key out.
    fn take<R: Wait>(
        &mut self,
        rt: &R,
        index: &Index<L>,
        guard: &Guard,
        key: u64,
    ) -> Result<Entry<u64>, Refusal>
        ensures made { IfOk result (λ entry. entry.call ≡ Call.Remove key) }
        ensures place { self.new.place ≡ self.old.place }
        ensures parts { OnOk result (self.new.share.parts ≡ self.old.share.parts) }
        ensures counted { OnOk result (self.new.share.count ≡ self.old.share.count + 1) }
    {
        let before = index.remove(rt, &key, &mut self.share, &mut self.worker, guard)?;
        Ok(self.entry(Call::Remove(key), Reply::Remove(before)))
    }

    /// Puts a value at a key.
    fn put<R: Wait>(
        &mut self,
        rt: &R,
        index: &Index<L>,
        guard: &Guard,
        key: u64,
        value: u64,
    ) -> Result<Entry<u64>, Refusal>
        ensures made { IfOk result (λ entry. entry.call ≡ Call.Insert key value) }
        ensures place { self.new.place ≡ self.old.place }
        ensures parts { OnOk result (self.new.share.parts ≡ self.old.share.parts) }
        ensures counted { OnOk result (self.new.share.count ≡ self.old.share.count + 1) }
    {
        let before = index.insert(rt, key, value, &mut self.share, &mut self.worker, guard)?;
        Ok(self.entry(Call::Insert(key, value), Reply::Insert(before)))
    }

    /// Makes its call of this number, of so many, under a guard.
    fn call<R: Wait>(
        &mut self,
        rt: &R,
        index: &Index<L>,
        guard: &Guard,
        number: u32,
        calls: u32,
    ) -> Result<Entry<u64>, Refusal>
        ensures made { IfOk result (λ entry. entry.call ≡ call_at calls self.old.place number) }
        ensures place { self.new.place ≡ self.old.place }
        ensures parts { OnOk result (self.new.share.parts ≡ self.old.share.parts) }
        ensures counted { OnOk result (self.new.share.count ≡ self.old.share.count + writes_at number) }
    {
        let key = self.key(number);
        if number % 4 == 1 {
            return self.look(rt, index, guard, key);
        }
        if takes_out(number) {
            return self.take(rt, index, guard, key);
        }
        let value = u64::from(self.place) * u64::from(calls) + u64::from(number);
        self.put(rt, index, guard, key, value)
    }

    /// The same, under a pin of its own.
    fn call_pinned<R: Wait>(
        &mut self,
        rt: &R,
        index: &Index<L>,
        number: u32,
        calls: u32,
    ) -> Result<Entry<u64>, Refusal>
        ensures made { IfOk result (λ entry. entry.call ≡ call_at calls self.old.place number) }
        ensures place { self.new.place ≡ self.old.place }
        ensures parts { OnOk result (self.new.share.parts ≡ self.old.share.parts) }
        ensures counted { OnOk result (self.new.share.count ≡ self.old.share.count + writes_at number) }
    {
        let guard = index.pin(rt, &mut self.worker)?;
        let called = self.call(rt, index, &guard, number, calls);
        match index.unpin(rt, &mut self.worker, guard) {
            Ok(()) => called,
            Err((refusal, guard)) => {
                guard.forget();
                Err(refusal)
            }
        }
    }

    /// Makes all its calls, one after the other, and leaves the index, which it can't while a guard of its own is out.
    pub fn work<R: Wait>(
        self,
        rt: &R,
        alloc: Global,
        index: &Index<L>,
        calls: u32,
    ) -> Result<Worked<L>, Cut>
        ensures made { IfOk result (λ worked. AreCalls calls self.place worked.own.items) }
        ensures all { IfOk result (λ worked. length worked.own.items ≡ calls) }
        ensures share { IfOk result (λ worked. (worked.share.parts ≡ self.share.parts) × (worked.share.count ≡ self.share.count + writes_in calls)) }
    {
        let mut caller = self;
        let mut own = Vec::new(alloc);
        for number in 0..calls {
            own.push(caller.call_pinned(rt, index, number, calls)?)?;
        }
        let Caller { worker, share, .. } = caller;
        match index.release(rt, worker) {
            Ok(()) => Ok(Worked { share, own }),
            Err((refusal, _worker)) => Err(Cut::Refused(refusal)),
        }
    }
}
