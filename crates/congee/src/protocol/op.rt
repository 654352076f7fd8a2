//! The calls on one key and the scans, as they begin.
ghost use Rattle.std.specs.Prelude.{◌≡◌, ◌<◌, ◌^◌, cond, Option};
ghost use Rattle.congee.specs.declared.protocol.phase.Kind.{Kind};
ghost use Rattle.congee.specs.protocol.Protocol.{HasGift};
ghost use Rattle.congee.specs.protocol.Play.{parts, first_phase, IsBegin};

use crate::protocol::phase::{Kind, Phase};
use crate::protocol::scan::ScanState;
use crate::protocol::store::NodeName;
use judge::Payload;

/// A call on one key or a scan, before its closure has answered anything.
#[derive(Drop)]
pub enum Op<P> {
    /// Looks the key up.
    Get(u64),
    /// Puts the value at the key.
    Insert(u64, P),
    /// Takes the key out.
    Remove(u64),
    /// Where the key is present, puts the closure's answer there, or takes the key out.
    ComputePresent(u64),
    /// Puts the closure's answer at the key, present or not.
    ComputeInsert(u64),
    /// Where the key has the old value, puts the new one there, or takes the key out at `None`.
    Exchange(u64, P, Option<P>),
    /// Finds the pairs of the keys from the first number to before the second, ascending, for so many places at most.
    Range(u64, u64, usize),
    /// Finds those of the keys from the first number to the second, itself included.
    RangeInclusive(u64, u64, usize),
}

impl<P> Op<P> {
    /// The first step of the call.
    pub(crate) fn first_phase<C: NodeName>(&self, root: C) -> Phase<C, P>
        ensures phase { result ≡ first_phase root self.now }
        ensures begins { (kind : Kind P) (given : Option P) → HasGift kind given → IsBegin kind given result }
    {
        match self {
            Op::Range(start, end, size) => Phase::Scan {
                scan: ScanState::new(
                    root,
                    *start,
                    end.saturating_sub(1),
                    places_where(*start < *end, *size),
                ),
            },
            Op::RangeInclusive(start, last, size) => Phase::Scan {
                scan: ScanState::new(root, *start, *last, places_where(*start <= *last, *size)),
            },
            Op::Get(_) => Phase::New,
            Op::Insert(_, _) => Phase::New,
            Op::Remove(_) => Phase::New,
            Op::ComputePresent(_) => Phase::New,
            Op::ComputeInsert(_) => Phase::New,
            Op::Exchange(_, _, _) => Phase::New,
        }
    }

    /// The key, what the call does there, and the value that it was given.
    pub(crate) fn parts(self) -> (u64, Kind<P>, Option<P>)
        ensures parts { result ≡ parts self }
        ensures gift { HasGift result.1 result.2 }
        ensures key { result.0 < 2 ^ 64 }
    {
        match self {
            Op::Get(key) => (key, Kind::Get, None),
            Op::Insert(key, value) => (key, Kind::Insert, Some(value)),
            Op::Remove(key) => (key, Kind::Remove, None),
            Op::ComputePresent(key) => (key, Kind::ComputePresent, None),
            Op::ComputeInsert(key) => (key, Kind::ComputeInsert, None),
            Op::Exchange(key, old, new) => (key, Kind::Exchange { old }, new),
            Op::Range(start, _, _) => (start, Kind::Get, None),
            Op::RangeInclusive(start, _, _) => (start, Kind::Get, None),
        }
    }
}

impl<P: Payload> Op<P> {
    /// Puts the first step of the call in the place of another call's. For a call on a key nothing of a scan is written.
    pub(crate) fn begin<C: NodeName>(&self, root: C, phase: &mut Phase<C, P>)
        ensures phase { phase.new ≡ first_phase root self.now }
        ensures begins { (kind : Kind P) (given : Option P) → HasGift kind given → IsBegin kind given phase.new }
    {
        match self {
            Op::Range(_, _, _) | Op::RangeInclusive(_, _, _) => {
                *phase = self.first_phase(root);
            }
            Op::Get(_)
            | Op::Insert(_, _)
            | Op::Remove(_)
            | Op::ComputePresent(_)
            | Op::ComputeInsert(_)
            | Op::Exchange(_, _, _) => *phase = Phase::New,
        }
    }
}

/// How many places a scan looks for pairs to fill: none where its range has no key.
fn places_where(has_key: bool, size: usize) -> usize
    ensures { result ≡ cond has_key size 0 }
{
    if has_key { size } else { 0 }
}
