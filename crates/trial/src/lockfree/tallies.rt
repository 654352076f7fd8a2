//! What is told of workers that have called on an index whose readers take no lock.
ghost use Rattle.std.specs.Prelude.{◌≡◌, ◌≤◌, ◌<◌, ◌+◌, ◌^◌, ◌++◌, ◌↔◌, ℕ, List, Some, IfOk, IsTrue, OnOk, length, nat_eq, slice_get};
ghost use Rattle.judge.specs.Journal.{IsLegal};
ghost use Rattle.optimistic.specs.declared.words.rule.Entry.{Entry as Decided};
ghost use Rattle.optimistic.specs.tree.Drained.{IsDrained};
ghost use Rattle.optimistic.specs.words.Kept.{value_of};
ghost use Rattle.trial.specs.Lockfree.{AreCounted, IsCounted, counts_text, in_all, look, looks, no_counts, own_keys, plus, tallies_text, tally_text, valued};

use super::worker::{Made, own_key};
use crate::worker::KEYS;
use judge::{Call, Entry, Reply, Verdict, check};
use optimistic::Pair;
use std::alloc::{AllocError, Global};
use std::fmt;

/// What is counted of calls.
#[derive(Clone, Copy, Debug, PartialEq, Eq, Drop)]
pub struct Counts {
    /// The calls that were made.
    pub made: usize,
    /// Those that were refused.
    pub refused: usize,
    /// Whether one map answers each worker's calls as it was told, and has then what the closed index has.
    pub audited: bool,
    /// The pairs of the closed index.
    pub pairs: usize,
}

/// The counts of a worker, by its number.
#[derive(Clone, Copy, Debug, PartialEq, Eq, Drop)]
pub struct Tally {
    pub worker: u32,
    pub counts: Counts,
}

/// Those of each worker, and those in all.
#[derive(Drop)]
pub struct Tallies {
    pub each: Vec<Tally>,
    pub all: Counts,
}

/// The value of a key among the pairs of a closed index.
fn value_in(pairs: &[Pair], key: u64) -> Option<u64>
    ensures { (log : List Decided) → IsDrained log 0 (2 ^ 64) pairs.now → result ≡ value_of key log }
{
    for pair in pairs {
        if pair.key == key {
            return Some(pair.value);
        }
    }
    None
}

/// A look-up of a worker's key, which tells this.
fn look(worker: u32, key: u64, found: Option<u64>) -> Entry<u64>
    ensures { (log : List Decided) → found ≡ value_of key log → result ≡ look log worker key }
{
    Entry {
        worker,
        call: Call::Get(key),
        reply: Reply::Get(found),
    }
}

/// Puts a look-up of each of a worker's keys behind its entries, which tells what the closed index has. Of how many it has a
/// value.
fn look_at_all(own: &mut Vec<Entry<u64>>, worker: u32, pairs: &[Pair]) -> Result<usize, AllocError>
    requires { worker < 16 }
    ensures looks { (log : List Decided) → IsDrained log 0 (2 ^ 64) pairs.now → OnOk result (own.new.items ≡ own.old.items ++ looks log worker own_keys) }
    ensures found { (log : List Decided) → IsDrained log 0 (2 ^ 64) pairs.now → IfOk result (λ n. n ≡ valued log worker own_keys) }
    ensures few { IfOk result (λ n. n ≤ 97) }
{
    let mut found = 0;
    for number in 0..KEYS {
        let key = own_key(worker, number);
        let value = value_in(pairs, key);
        if value.is_some() {
            found += 1;
        }
        own.push(look(worker, key, value))?;
    }
    Ok(found)
}

/// Whether one map, empty at first, answers each call as its entry says.
fn is_legal(alloc: Global, entries: &[Entry<u64>]) -> Result<bool, AllocError>
    ensures { IfOk result (λ is. IsTrue is ↔ IsLegal nat_eq entries.now) }
{
    match check(alloc, entries)? {
        Verdict::Legal => Ok(true),
        Verdict::Wrong(_) => Ok(false),
    }
}

impl Counts {
    /// Of no calls.
    fn none() -> Counts
        ensures { result ≡ no_counts }
    {
        Counts {
            made: 0,
            refused: 0,
            audited: true,
            pairs: 0,
        }
    }

    /// Of a worker's calls, on an index that was closed with these pairs.
    fn of(alloc: Global, made: Made, worker: u32, pairs: &[Pair]) -> Result<Counts, AllocError>
        requires { worker < 16 }
        ensures made { IfOk result (λ c. (c.made ≡ length made.own.items) × (c.refused ≡ made.refused)) }
        ensures counted { (log : List Decided) → IsDrained log 0 (2 ^ 64) pairs.now → IfOk result (IsCounted log worker made) }
        ensures few { IfOk result (λ c. c.pairs ≤ 97) }
    {
        let Made { mut own, refused } = made;
        let made = own.len();
        let pairs = look_at_all(&mut own, worker, pairs)?;
        Ok(Counts {
            made,
            refused,
            audited: is_legal(alloc, &own)?,
            pairs,
        })
    }

    /// These and others together.
    fn plus(self, other: Counts) -> Counts
        requires made { self.made + other.made < 2 ^ 64 }
        requires refused { self.refused + other.refused < 2 ^ 64 }
        requires pairs { self.pairs + other.pairs < 2 ^ 64 }
        ensures { result ≡ plus self other }
    {
        Counts {
            made: self.made + other.made,
            refused: self.refused + other.refused,
            audited: self.audited && other.audited,
            pairs: self.pairs + other.pairs,
        }
    }
}

impl Tallies {
    /// Of so many calls of each worker, on an index that was closed with these pairs.
    pub fn of(
        alloc: Global,
        made: Vec<Made>,
        calls: u32,
        pairs: &[Pair],
    ) -> Result<Tallies, AllocError>
        requires few { length made.items ≤ 16 }
        requires calls { calls ≤ 10000 }
        requires all { (i : ℕ) (m : _) → slice_get made.items i ≡ Some m → length m.own.items + m.refused ≡ calls }
        ensures len { IfOk result (λ t. length t.each.items ≡ length made.items) }
        ensures counted { (log : List Decided) → IsDrained log 0 (2 ^ 64) pairs.now → IfOk result (λ t. AreCounted log made.items t.each.items) }
        ensures all { IfOk result (λ t. t.all ≡ in_all t.each.items (length pairs.now)) }
    {
        let mut each = Vec::new(alloc);
        let mut all = Counts::none();
        for one in made {
            let worker = each.len() as u32;
            let counts = Counts::of(alloc, one, worker, pairs)?;
            all = all.plus(counts);
            each.push(Tally { worker, counts })?;
        }
        all.audited = all.audited && all.pairs == pairs.len();
        Ok(Tallies { each, all })
    }
}

impl fmt::Display for Counts {
    ghost use Rattle.std.specs.Prelude.{Some};

    ghost output = { λ c. Some (counts_text c) };

    fn fmt<W: fmt::Write>(&self, f: &mut fmt::Formatter<W>) -> fmt::Result {
        let (made, refused, audited, pairs) = (self.made, self.refused, self.audited, self.pairs);
        write!(
            f,
            "calls {made} refused {refused} audit {audited} pairs {pairs}\n"
        )
    }
}

impl fmt::Display for Tally {
    ghost use Rattle.std.specs.Prelude.{Some};

    ghost output = { λ t. Some (tally_text t) };

    fn fmt<W: fmt::Write>(&self, f: &mut fmt::Formatter<W>) -> fmt::Result {
        let (worker, counts) = (self.worker, self.counts);
        write!(f, "worker {worker} {counts}")
    }
}

impl fmt::Display for Tallies {
    ghost use Rattle.std.specs.Prelude.{Some};

    ghost output = { λ t. Some (tallies_text t) };

    fn fmt<W: fmt::Write>(&self, f: &mut fmt::Formatter<W>) -> fmt::Result {
        for tally in &self.each {
            write!(f, "{tally}")?;
        }
        let all = self.all;
        write!(f, "all {all}")
    }
}
