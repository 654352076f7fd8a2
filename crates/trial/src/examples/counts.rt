//! What a user of keys' places concludes from their contracts, with no proof of its own.
ghost use Rattle.std.specs.Prelude.{◌≡◌, IfOk};

use congee::{Allocator, Limited, OOMError, U64Congee};
use std::alloc::Global;

/// How often numbers came, over a budget that had nothing charged.
#[derive(Drop)]
struct Counts {
    tree: U64Congee<u64, Limited>,
    ghost first: { tree.tree.base ≡ 0 },
}

impl Counts {
    /// Counts a number once more, and tells how often it came.
    fn count(&mut self, number: u64) -> Result<u64, OOMError> {
        self.tree
            .entry(number)
            .and_modify(|count| count.saturating_add(1))
            .or_insert(1)
    }

    /// What is charged once the tree is closed.
    fn close(self) -> u64
        ensures { result ≡ 0 }
    {
        let (allocator, _) = self.tree.close();
        allocator.charged()
    }
}

/// Whatever numbers were counted, once the tree is closed nothing is charged. It tells what is, and how often the last one came.
pub fn charge_after_counts(
    alloc: Global,
    limit: u64,
    numbers: &[u64],
) -> Result<(u64, u64), OOMError>
    ensures { IfOk result (λ r. r.0 ≡ 0) }
{
    let mut counts = Counts {
        tree: U64Congee::new(alloc, Limited::new(limit))?,
    };
    let mut often = 0;
    for number in numbers {
        often = counts.count(*number)?;
    }
    Ok((counts.close(), often))
}
