//! The nodes of a tree as they begin.

ghost use Rattle.std.specs.Prelude.{◌≡◌, ◌<◌, ◌≤◌, ◌^◌, [], MatchResult, IfOk};
ghost use Rattle.joint.specs.nodes.Opening.{IsOpened, IsUnopened, IsPlanted};

use crate::limits::Limits;
use crate::nodes::counts::Counts;
use crate::nodes::slot::Slot;
use crate::nodes::{Nodes, cells};
use crate::refusal::Refusal;
use congee::{Allocator, NodeType, Payload, Small};
use crossbeam_epoch::{Limits as EpochLimits, Ptr, World};
use std::alloc::{AllocError, Global};

impl<P: Payload + Small, A: Allocator> Nodes<P, A> {
    /// A root alone, charged to the allocator. Refused as Limits where one is out of its range, as Budget where the
    /// allocator refuses the root, and as Memory.
    pub fn new(alloc: Global, limits: Limits, allocator: A) -> Result<Self, Refusal>
        ensures { MatchResult result (λ n. IsOpened limits (A.charged_of allocator) (A.limit_of allocator) n) (λ e. IsUnopened limits (A.charged_of allocator) (A.limit_of allocator) e) }
    {
        if !limits.are_allowed() {
            return Err(Refusal::Limits);
        }
        let mut allocator = allocator;
        let base = allocator.charged();
        match cells::charge(&mut allocator, NodeType::N256) {
            Ok(()) => {}
            Err(
                congee::Refusal::Budget {
                    charged,
                    wanted,
                    limit,
                },
            ) => {
                return Err(Refusal::Budget {
                    charged,
                    wanted,
                    limit,
                });
            }
            Err(_) => unreachable!(),
        }
        match plant(alloc, limits.epoch) {
            Ok((collector, counts)) => Ok(Nodes {
                collector,
                counts,
                allocator,
                base,
                version_max: limits.version_max,
                alloc,
            }),
            Err(_) => Err(Refusal::Memory),
        }
    }
}

/// The last turn of a cell.
fn last_turn(limits: EpochLimits) -> u32
    ensures value { result ≡ limits.turn_max }
    ensures word { result < 2 ^ 32 }
{
    limits.turn_max
}

/// A collector with a root alone, which its one root holds, and the counts of it.
fn plant<P: Payload + Small>(
    alloc: Global,
    limits: EpochLimits,
) -> Result<(World<Slot<P>, ()>, Counts), AllocError>
    requires some { 1 ≤ limits.cells }
    requires expiry { limits.expiry ≡ 2 }
    ensures { IfOk result (λ r. IsPlanted limits r.0 r.1) }
{
    World::<Slot<P>, ()>::order();
    World::<Slot<P>, ()>::stored();
    let _last = last_turn(limits);
    let Ok(mut collector) = World::new(alloc, limits, 1) else {
        return Err(AllocError);
    };
    let mut counts = Counts::new(alloc, limits.cells)?;
    let root = Slot::new(alloc, NodeType::N256, &[])?;
    let name = cells::place(&mut collector, root);
    counts.add(name.cell, NodeType::N256);
    let pointer = Ptr {
        name: Some(name),
        tag: 0,
    };
    match collector.store(0, pointer) {
        Ok(()) => Ok((collector, counts)),
        Err(_) => unreachable!(),
    }
}
