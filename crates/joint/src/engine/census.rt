//! What is counted of a tree beside its nodes: the pairs that stand in it, and the nodes that calls have taken out of it.

ghost use Rattle.std.specs.Prelude.{◌≡◌, ◌+◌, ◌*◌, ◌^◌, ◌≤◌};
ghost use Rattle.congee.specs.owned.Stats.{capped};
ghost use Rattle.joint.specs.engine.Census.{effect, fewer, more};

use judge::Reply;

/// What a call makes of the number of pairs.
#[derive(Clone, Copy, Drop)]
pub enum Change {
    /// There is one more.
    More,
    /// There is one fewer.
    Fewer,
    /// There are as many.
    Same,
}

/// Nodes that calls have taken out of the tree and not yet handed over.
#[derive(Clone, Copy, Drop)]
pub struct Taken {
    /// So many.
    pub nodes: u64,
    /// Their sizes, in bytes.
    pub bytes: u64,
}

/// How many pairs stand, and how many nodes calls have taken out of the tree and not yet handed over.
#[derive(Clone, Copy, Drop)]
pub struct Census {
    /// Pairs. There may be one for each of the 2^64 keys.
    pub pairs: u128,
    /// Nodes that were taken out.
    pub taken: Taken,
}

impl Census {
    /// No pair, and no node taken out.
    pub(crate) fn new() -> Census
        ensures { result ≡ record { pairs = 0; taken = record { nodes = 0; bytes = 0 } } }
    {
        Census {
            pairs: 0,
            taken: Taken { nodes: 0, bytes: 0 },
        }
    }

    /// The pairs as a number of 64 bits; one past `u64::MAX` stays there.
    pub(crate) fn capped(&self) -> u64
        ensures { result ≡ capped self.now.pairs }
    {
        self.pairs.min(u64::MAX as u128) as u64
    }

    /// A call had the first taken out before its step, and has the second taken out after it; the step made this of the
    /// number of pairs.
    #[inline(always)]
    pub(crate) fn count(&mut self, before: Taken, after: Taken, change: Change)
        requires had { before.nodes ≤ self.old.taken.nodes }
        requires had_bytes { before.bytes ≤ self.old.taken.bytes }
        requires few { self.old.taken.nodes ≤ 512 }
        requires small { self.old.taken.bytes ≤ 2104 * 512 }
        requires two { after.nodes ≤ 2 }
        requires size { after.bytes ≤ 2104 * 2 }
        requires few_pairs { self.old.pairs ≤ 2 ^ 64 }
        requires there { fewer change ≤ self.old.pairs }
        ensures pairs { self.new.pairs + fewer change ≡ self.old.pairs + more change }
        ensures nodes { self.new.taken.nodes + before.nodes ≡ self.old.taken.nodes + after.nodes }
        ensures bytes { self.new.taken.bytes + before.bytes ≡ self.old.taken.bytes + after.bytes }
    {
        self.taken = Taken {
            nodes: self.taken.nodes - before.nodes + after.nodes,
            bytes: self.taken.bytes - before.bytes + after.bytes,
        };
        match change {
            Change::More => self.pairs += 1,
            Change::Fewer => self.pairs -= 1,
            Change::Same => {}
        }
    }
}

/// What a call that answers so makes of the number of pairs.
pub(crate) fn effect<P>(reply: &Reply<P>) -> Change
    ensures { result ≡ effect reply.now }
{
    match reply {
        Reply::Get(_) => Change::Same,
        Reply::Insert(None) => Change::More,
        Reply::Insert(Some(_)) => Change::Same,
        Reply::Remove(None) => Change::Same,
        Reply::Remove(Some(_)) => Change::Fewer,
        Reply::ComputePresent(None) => Change::Same,
        Reply::ComputePresent(Some((_, None))) => Change::Fewer,
        Reply::ComputePresent(Some((_, Some(_)))) => Change::Same,
        Reply::ComputeInsert(None) => Change::More,
        Reply::ComputeInsert(Some(_)) => Change::Same,
        Reply::Exchange(Ok(None)) => Change::Fewer,
        Reply::Exchange(Ok(Some(_))) => Change::Same,
        Reply::Exchange(Err(_)) => Change::Same,
    }
}
