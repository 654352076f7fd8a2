//! A store of one's own that writes a journal, which is judged.
ghost use Rattle.std.specs.Prelude.{IfOk, IsFalse, IsTrue, nat_eq};
ghost use Rattle.judge.specs.Journal.{IsLegal};

use judge::{Call, Entry, Reply, Verdict, check};
use std::alloc::{AllocError, Global};
use std::collections::BTreeMap;

/// Numbers under their keys, and what each client asked and was told, in the order of the calls.
#[derive(Drop)]
pub struct Store {
    numbers: BTreeMap<u64, u64>,
    pub journal: Vec<Entry<u64>>,
}

impl Store {
    /// No numbers, and nothing asked.
    pub fn new(alloc: Global) -> Store {
        Store {
            numbers: BTreeMap::new(alloc),
            journal: Vec::new(alloc),
        }
    }

    /// Writes down what a client asked and was told.
    pub fn note(
        &mut self,
        client: u32,
        call: Call<u64>,
        reply: Reply<u64>,
    ) -> Result<(), AllocError> {
        self.journal.push(Entry {
            worker: client,
            call,
            reply,
        })?;
        Ok(())
    }

    /// Puts a number at a key, and gives the one before.
    pub fn put(&mut self, client: u32, key: u64, number: u64) -> Result<Option<u64>, AllocError> {
        let before = self.numbers.insert(key, number)?;
        self.note(client, Call::Insert(key, number), Reply::Insert(before))?;
        Ok(before)
    }

    /// The number at a key.
    pub fn get(&mut self, client: u32, key: u64) -> Result<Option<u64>, AllocError> {
        let found = self.numbers.get(&key).copied();
        self.note(client, Call::Get(key), Reply::Get(found))?;
        Ok(found)
    }
}

/// Whether one map, empty at first, answers each call of the journal as it says. Refused for want of memory alone.
pub fn is_honest(alloc: Global, journal: &[Entry<u64>]) -> Result<bool, AllocError>
    ensures honest { IsLegal nat_eq journal.now → IfOk result IsTrue }
    ensures lying { (IsLegal nat_eq journal.now → ⊥) → IfOk result IsFalse }
{
    match check(alloc, journal)? {
        Verdict::Legal => Ok(true),
        Verdict::Wrong(_) => Ok(false),
    }
}
