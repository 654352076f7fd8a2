//! Each call of each kind of tree for threads, once.

use super::asks::{
    Ask, Left, Threaded, Told, Which, count_told, done, emptiness_told, exchange_told, held,
    keys_told, nothing, pair_told, pairs_told, presence_told, present_told, raised, raised_or,
    scan_told, value_told,
};
use crate::drained::Drained;
use congee::Allocator;
use joint::{Congee, CongeeArc, Every, Guard, Journaled, Refusal, Share, U64Congee, Worker};
use judge::{Call, Reply};
use std::alloc::Global;
use std::sync::ledger::Ledger;
use std::sync::{Arc, Wait};

/// A call on a key. `by` stands before a key that is looked for; a writing call also takes the share.
macro_rules! called {
    (
        $rt:ident, $tree:ident, $call:ident, ($($by:tt)?), ($($share:ident)?), $worker:ident,
        $guard:ident
    ) => {
        match $call {
            Call::Get(key) => value_told($call, $tree.get($rt, $($by)? key, $worker, $guard)),
            Call::Insert(key, value) => {
                value_told($call, $tree.insert($rt, key, value, $($share,)? $worker, $guard))
            }
            Call::Remove(key) => {
                value_told($call, $tree.remove($rt, $($by)? key, $($share,)? $worker, $guard))
            }
            Call::ComputePresent(key, by) => {
                let raise = |found: u64| raised(found, by);
                present_told($tree
                    .compute_if_present($rt, $($by)? key, raise, $($share,)? $worker, $guard))
            }
            Call::ComputeInsert(key, by) => {
                let raise = |found: Option<u64>| raised_or(found, by);
                value_told($call, $tree.compute_or_insert($rt, key, raise, $($share,)? $worker, $guard))
            }
            Call::Exchange(key, old, new) => exchange_told($tree
                .compare_exchange($rt, $($by)? key, &old, new, $($share,)? $worker, $guard)),
        }
    };
}

/// A scan by two keys, the second of which belongs to it or not.
macro_rules! scanned {
    (
        $rt:ident, $tree:ident, $ask:ident, $out:ident, ($($by:tt)?), $worker:ident, $guard:ident
    ) => {
        match $ask {
            Ask::Range(start, end) => {
                $tree.range($rt, $($by)? start, $($by)? end, &mut $out, $worker, $guard)
            }
            Ask::RangeInclusive(start, last) => {
                $tree
                    .range_inclusive($rt, $($by)? start, $($by)? last, &mut $out, $worker, $guard)
            }
            _ => return Ok(Told::Nothing),
        }
    };
}

/// The pair that is looked for. `by` stands before a key.
macro_rules! nearest {
    ($rt:ident, $tree:ident, $which:ident, ($($by:tt)?), $worker:ident, $guard:ident) => {
        match $which {
            Which::First => $tree.first($rt, $worker, $guard),
            Which::Last => $tree.last($rt, $worker, $guard),
            Which::After(key) => $tree.next_after($rt, $($by)? key, $worker, $guard),
            Which::Before(key) => $tree.next_before($rt, $($by)? key, $worker, $guard),
            Which::From(key) => $tree.at_or_after($rt, $($by)? key, $worker, $guard),
            Which::UpTo(key) => $tree.at_or_before($rt, $($by)? key, $worker, $guard),
        }
    };
}

/// What all kinds of trees have alike. `by` stands before a key that is looked for.
macro_rules! wholly {
    ($rt:ident, $tree:ident, $ask:ident, ($($by:tt)?), $worker:ident, $guard:ident) => {
        match $ask {
            Ask::Has(key) => {
                presence_told($tree.contains_key($rt, $($by)? key, $worker, $guard))
            }
            Ask::IsEmpty => emptiness_told($tree.is_empty($rt, $worker, $guard)),
            Ask::Keys => keys_told($tree.keys($rt, $worker)),
            Ask::Stats => pairs_told($tree.stats($rt, $worker)),
            Ask::Len => count_told($tree.len($rt, $worker)),
            Ask::Repin => done($tree.repin($rt, $worker, $guard)),
            Ask::Flush => done($tree.flush($rt, $worker, $guard)),
            Ask::Round => done($tree.round($rt, $worker)),
            Ask::Pinned => done($tree.pinned($rt, $worker, nothing)),
            Ask::Pin => held($tree.pin($rt, $worker)),
            Ask::Call(_) | Ask::Range(..) | Ask::RangeInclusive(..) | Ask::Nearest(_) => {
                Ok(Told::Nothing)
            }
        }
    };
}

/// A call on a key of a tree of words.
fn words_called<A: Allocator, R: Wait>(
    rt: &R,
    tree: &Congee<u64, u64, A>,
    call: Call<u64>,
    worker: &mut Worker,
    guard: &Guard,
) -> Result<Told, Refusal> {
    called!(rt, tree, call, (&), (), worker, guard)
}

fn words_scanned<A: Allocator, R: Wait>(
    rt: &R,
    tree: &Congee<u64, u64, A>,
    ask: Ask,
    worker: &mut Worker,
    guard: &Guard,
) -> Result<Told, Refusal> {
    let mut out = [(0, 0); 4];
    let count = scanned!(rt, tree, ask, out, (&), worker, guard);
    scan_told(count, out[0])
}

fn words_nearest<A: Allocator, R: Wait>(
    rt: &R,
    tree: &Congee<u64, u64, A>,
    which: Which,
    worker: &mut Worker,
    guard: &Guard,
) -> Result<Told, Refusal> {
    pair_told(nearest!(rt, tree, which, (&), worker, guard))
}

fn words_wholly<A: Allocator, R: Wait>(
    rt: &R,
    tree: &Congee<u64, u64, A>,
    ask: Ask,
    worker: &mut Worker,
    guard: &Guard,
) -> Result<Told, Refusal> {
    wholly!(rt, tree, ask, (&), worker, guard)
}

fn numbers_called<A: Allocator, R: Wait>(
    rt: &R,
    tree: &U64Congee<u64, A>,
    call: Call<u64>,
    worker: &mut Worker,
    guard: &Guard,
) -> Result<Told, Refusal> {
    called!(rt, tree, call, (), (), worker, guard)
}

fn numbers_scanned<A: Allocator, R: Wait>(
    rt: &R,
    tree: &U64Congee<u64, A>,
    ask: Ask,
    worker: &mut Worker,
    guard: &Guard,
) -> Result<Told, Refusal> {
    let mut out = [([0; 8], 0); 4];
    let count = scanned!(rt, tree, ask, out, (), worker, guard);
    scan_told(count, (u64::from_be_bytes(out[0].0), out[0].1))
}

fn numbers_nearest<A: Allocator, R: Wait>(
    rt: &R,
    tree: &U64Congee<u64, A>,
    which: Which,
    worker: &mut Worker,
    guard: &Guard,
) -> Result<Told, Refusal> {
    pair_told(nearest!(rt, tree, which, (), worker, guard))
}

fn numbers_wholly<A: Allocator, R: Wait>(
    rt: &R,
    tree: &U64Congee<u64, A>,
    ask: Ask,
    worker: &mut Worker,
    guard: &Guard,
) -> Result<Told, Refusal> {
    wholly!(rt, tree, ask, (), worker, guard)
}

/// A call on a key of a tree with a journal.
pub fn recorded_called<L: Ledger, A: Allocator, D: Drop, R: Wait>(
    rt: &R,
    tree: &Journaled<L, Every, u64, u64, A, D>,
    call: Call<u64>,
    share: &mut Share<L>,
    worker: &mut Worker,
    guard: &Guard,
) -> Result<Told, Refusal> {
    called!(rt, tree, call, (&), (share), worker, guard)
}

fn recorded_scanned<L: Ledger, A: Allocator, D: Drop, R: Wait>(
    rt: &R,
    tree: &Journaled<L, Every, u64, u64, A, D>,
    ask: Ask,
    worker: &mut Worker,
    guard: &Guard,
) -> Result<Told, Refusal> {
    let mut out = [(0, 0); 4];
    let count = scanned!(rt, tree, ask, out, (&), worker, guard);
    scan_told(count, out[0])
}

fn recorded_nearest<L: Ledger, A: Allocator, D: Drop, R: Wait>(
    rt: &R,
    tree: &Journaled<L, Every, u64, u64, A, D>,
    which: Which,
    worker: &mut Worker,
    guard: &Guard,
) -> Result<Told, Refusal> {
    pair_told(nearest!(rt, tree, which, (&), worker, guard))
}

fn recorded_wholly<L: Ledger, A: Allocator, D: Drop, R: Wait>(
    rt: &R,
    tree: &Journaled<L, Every, u64, u64, A, D>,
    ask: Ask,
    worker: &mut Worker,
    guard: &Guard,
) -> Result<Told, Refusal> {
    wholly!(rt, tree, ask, (&), worker, guard)
}

impl<A: Allocator> Threaded for Congee<u64, u64, A> {
    fn comes<R: Wait>(&self, rt: &R) -> Result<Worker, Refusal> {
        self.register(rt)
    }

    fn leaves<R: Wait>(&self, rt: &R, worker: Worker) -> Result<(), (Refusal, Worker)> {
        self.release(rt, worker)
    }

    fn pins<R: Wait>(&self, rt: &R, worker: &mut Worker) -> Result<Guard, Refusal> {
        self.pin(rt, worker)
    }

    fn unpins<R: Wait>(
        &self,
        rt: &R,
        worker: &mut Worker,
        guard: Guard,
    ) -> Result<(), (Refusal, Guard)> {
        self.unpin(rt, worker, guard)
    }

    fn goes_round<R: Wait>(&self, rt: &R, worker: &mut Worker) -> Result<(), Refusal> {
        self.round(rt, worker)
    }

    fn told<R: Wait>(
        &mut self,
        rt: &R,
        ask: Ask,
        worker: &mut Worker,
        guard: &Guard,
    ) -> Result<Told, Refusal> {
        match ask {
            Ask::Call(call) => words_called(rt, self, call, worker, guard),
            Ask::Range(..) | Ask::RangeInclusive(..) => words_scanned(rt, self, ask, worker, guard),
            Ask::Nearest(which) => words_nearest(rt, self, which, worker, guard),
            _ => words_wholly(rt, self, ask, worker, guard),
        }
    }

    fn state<R: Wait>(&self, rt: &R) -> (u64, u64, u64) {
        (self.charged(rt), self.waiting(rt), self.waiting_bytes(rt))
    }

    fn closes<R: Wait>(self, rt: &R) -> Result<Left, (Refusal, Self)> {
        match self.close(rt) {
            Ok((allocator, _drainer)) => Ok((allocator.charged(), allocator.limit(), 0, None)),
            Err(back) => Err(back),
        }
    }
}

impl<A: Allocator> Threaded for U64Congee<u64, A> {
    fn comes<R: Wait>(&self, rt: &R) -> Result<Worker, Refusal> {
        self.register(rt)
    }

    fn leaves<R: Wait>(&self, rt: &R, worker: Worker) -> Result<(), (Refusal, Worker)> {
        self.release(rt, worker)
    }

    fn pins<R: Wait>(&self, rt: &R, worker: &mut Worker) -> Result<Guard, Refusal> {
        self.pin(rt, worker)
    }

    fn unpins<R: Wait>(
        &self,
        rt: &R,
        worker: &mut Worker,
        guard: Guard,
    ) -> Result<(), (Refusal, Guard)> {
        self.unpin(rt, worker, guard)
    }

    fn goes_round<R: Wait>(&self, rt: &R, worker: &mut Worker) -> Result<(), Refusal> {
        self.round(rt, worker)
    }

    fn told<R: Wait>(
        &mut self,
        rt: &R,
        ask: Ask,
        worker: &mut Worker,
        guard: &Guard,
    ) -> Result<Told, Refusal> {
        match ask {
            Ask::Call(call) => numbers_called(rt, self, call, worker, guard),
            Ask::Range(..) | Ask::RangeInclusive(..) => numbers_scanned(
                rt, self, ask, worker, guard,
            ),
            Ask::Nearest(which) => numbers_nearest(rt, self, which, worker, guard),
            _ => numbers_wholly(rt, self, ask, worker, guard),
        }
    }

    fn state<R: Wait>(&self, rt: &R) -> (u64, u64, u64) {
        (self.charged(rt), self.waiting(rt), self.waiting_bytes(rt))
    }

    fn closes<R: Wait>(self, rt: &R) -> Result<Left, (Refusal, Self)> {
        match self.close(rt) {
            Ok(allocator) => Ok((allocator.charged(), allocator.limit(), 0, None)),
            Err(back) => Err(back),
        }
    }
}

/// A tree with a journal and the share with which its calls are made.
#[derive(Drop)]
pub struct Recorded<L: Ledger, A: Allocator> {
    pub tree: Journaled<L, Every, u64, u64, A, Drained>,
    pub share: Share<L>,
}

impl<L: Ledger, A: Allocator> Threaded for Recorded<L, A> {
    fn comes<R: Wait>(&self, rt: &R) -> Result<Worker, Refusal> {
        self.tree.register(rt)
    }

    fn leaves<R: Wait>(&self, rt: &R, worker: Worker) -> Result<(), (Refusal, Worker)> {
        self.tree.release(rt, worker)
    }

    fn pins<R: Wait>(&self, rt: &R, worker: &mut Worker) -> Result<Guard, Refusal> {
        self.tree.pin(rt, worker)
    }

    fn unpins<R: Wait>(
        &self,
        rt: &R,
        worker: &mut Worker,
        guard: Guard,
    ) -> Result<(), (Refusal, Guard)> {
        self.tree.unpin(rt, worker, guard)
    }

    fn goes_round<R: Wait>(&self, rt: &R, worker: &mut Worker) -> Result<(), Refusal> {
        self.tree.round(rt, worker)
    }

    fn told<R: Wait>(
        &mut self,
        rt: &R,
        ask: Ask,
        worker: &mut Worker,
        guard: &Guard,
    ) -> Result<Told, Refusal> {
        match ask {
            Ask::Call(call) => recorded_called(
                rt,
                &self.tree,
                call,
                &mut self.share,
                worker,
                guard,
            ),
            Ask::Range(..) | Ask::RangeInclusive(..) => recorded_scanned(
                rt, &self.tree, ask, worker, guard,
            ),
            Ask::Nearest(which) => recorded_nearest(rt, &self.tree, which, worker, guard),
            _ => recorded_wholly(rt, &self.tree, ask, worker, guard),
        }
    }

    fn state<R: Wait>(&self, rt: &R) -> (u64, u64, u64) {
        (
            self.tree.charged(rt),
            self.tree.waiting(rt),
            self.tree.waiting_bytes(rt),
        )
    }

    fn closes<R: Wait>(self, rt: &R) -> Result<Left, (Refusal, Self)> {
        let Recorded { tree, share } = self;
        match tree.close(rt) {
            Ok((allocator, drained, _journal)) => {
                let pairs = drained.pairs.as_slice();
                let first = pairs.first().copied();
                Ok((allocator.charged(), allocator.limit(), pairs.len(), first))
            }
            Err((refusal, tree)) => Err((refusal, Recorded { tree, share })),
        }
    }
}

/// A tree of owners, and where new ones are made.
#[derive(Drop)]
pub struct Owners {
    pub tree: CongeeArc<u64, u64>,
    pub alloc: Global,
}

/// The number of an owner.
fn number(owner: Option<Arc<u64, Global>>) -> Option<u64> {
    match owner {
        Some(owner) => Some(*owner),
        None => None,
    }
}

/// An owner of this number.
fn owner(alloc: Global, number: u64) -> Result<Arc<u64, Global>, Refusal> {
    match Arc::new(alloc, number) {
        Ok(owner) => Ok(owner),
        Err(_) => Err(Refusal::Memory),
    }
}

/// What comes of an insertion of this number.
fn owner_put(
    number: u64,
    put: Result<Option<Arc<u64, Global>>, (Refusal, Arc<u64, Global>)>,
) -> Result<Told, Refusal> {
    match put {
        Ok(before) => Ok(Told::Replied(Reply::Insert(self::number(before)))),
        Err((refusal, back)) if *back == number => Err(refusal),
        Err(_) => Ok(Told::Nothing),
    }
}

/// A further hold on an owner, if there is one.
fn held_again(owner: &Option<Arc<u64, Global>>) -> Option<Arc<u64, Global>> {
    match owner {
        Some(owner) => Arc::try_clone(owner).ok(),
        None => None,
    }
}

/// A call whose closure answers an owner of this number, which is made before it.
fn owner_computed<R: Wait>(
    rt: &R,
    owners: &Owners,
    key: u64,
    to: Option<u64>,
    worker: &mut Worker,
    guard: &Guard,
) -> Result<Told, Refusal> {
    let next = match to {
        Some(number) => Some(owner(owners.alloc, number)?),
        None => None,
    };
    let answer = |_| held_again(&next);
    let before = number(
        owners
            .tree
            .compute_if_present(rt, key, answer, worker, guard)?,
    );
    let told = match before {
        Some(before) => Some((before, to)),
        None => None,
    };
    Ok(Told::Replied(Reply::ComputePresent(told)))
}

fn owners_called<R: Wait>(
    rt: &R,
    owners: &Owners,
    call: Call<u64>,
    worker: &mut Worker,
    guard: &Guard,
) -> Result<Told, Refusal> {
    let (tree, alloc) = (&owners.tree, owners.alloc);
    match call {
        Call::Get(key) => {
            let found = number(tree.get(rt, key, worker, guard)?);
            Ok(Told::Replied(Reply::Get(found)))
        }
        Call::Insert(key, value) => {
            let put = tree.insert(rt, key, owner(alloc, value)?, worker, guard);
            owner_put(value, put)
        }
        Call::Remove(key) => {
            let taken = number(tree.remove(rt, key, worker, guard)?);
            Ok(Told::Replied(Reply::Remove(taken)))
        }
        Call::ComputePresent(key, number) => owner_computed(rt, owners, key, number, worker, guard),
        Call::ComputeInsert(..) | Call::Exchange(..) => Ok(Told::Nothing),
    }
}

fn owners_nearest<R: Wait>(
    rt: &R,
    tree: &CongeeArc<u64, u64>,
    which: Which,
    worker: &mut Worker,
    guard: &Guard,
) -> Result<Told, Refusal> {
    match nearest!(rt, tree, which, (), worker, guard) {
        Ok(Some((key, owner))) => Ok(Told::Pair(Some((key, *owner)))),
        Ok(None) => Ok(Told::Pair(None)),
        Err(refusal) => Err(refusal),
    }
}

fn owners_wholly<R: Wait>(
    rt: &R,
    tree: &CongeeArc<u64, u64>,
    ask: Ask,
    worker: &mut Worker,
    guard: &Guard,
) -> Result<Told, Refusal> {
    wholly!(rt, tree, ask, (), worker, guard)
}

impl Threaded for Owners {
    fn comes<R: Wait>(&self, rt: &R) -> Result<Worker, Refusal> {
        self.tree.register(rt)
    }

    fn leaves<R: Wait>(&self, rt: &R, worker: Worker) -> Result<(), (Refusal, Worker)> {
        self.tree.release(rt, worker)
    }

    fn pins<R: Wait>(&self, rt: &R, worker: &mut Worker) -> Result<Guard, Refusal> {
        self.tree.pin(rt, worker)
    }

    fn unpins<R: Wait>(
        &self,
        rt: &R,
        worker: &mut Worker,
        guard: Guard,
    ) -> Result<(), (Refusal, Guard)> {
        self.tree.unpin(rt, worker, guard)
    }

    fn goes_round<R: Wait>(&self, rt: &R, worker: &mut Worker) -> Result<(), Refusal> {
        self.tree.round(rt, worker)
    }

    fn told<R: Wait>(
        &mut self,
        rt: &R,
        ask: Ask,
        worker: &mut Worker,
        guard: &Guard,
    ) -> Result<Told, Refusal> {
        match ask {
            Ask::Call(call) => owners_called(rt, self, call, worker, guard),
            Ask::Nearest(which) => owners_nearest(rt, &self.tree, which, worker, guard),
            _ => owners_wholly(rt, &self.tree, ask, worker, guard),
        }
    }

    fn state<R: Wait>(&self, rt: &R) -> (u64, u64, u64) {
        (
            self.tree.charged(rt),
            self.tree.waiting(rt),
            self.tree.waiting_bytes(rt),
        )
    }

    fn closes<R: Wait>(self, rt: &R) -> Result<Left, (Refusal, Self)> {
        let Owners { tree, alloc } = self;
        match tree.close(rt) {
            Ok(()) => Ok((0, 0, 0, None)),
            Err((refusal, tree)) => Err((refusal, Owners { tree, alloc })),
        }
    }
}
