//! What a user of owned trees concludes from their contracts, with no proof of its own.
ghost use Rattle.std.specs.Prelude.{◌≡◌, IfOk, Some};

use congee::{Allocator, Congee, DefaultAllocator, Limited, OOMError, U64Congee};
use std::alloc::Global;

/// What a budget has charged, and its limit, after a tree over it was made and closed.
#[derive(Clone, Copy)]
pub struct Budget {
    pub charged: u64,
    pub limit: u64,
}

/// A tree that is made and closed leaves a budget as it was.
pub fn opens_and_closes(alloc: Global, limit: u64) -> Result<Budget, OOMError>
    ensures charged { IfOk result (λ r. r.charged ≡ 0) }
    ensures limit { IfOk result (λ r. r.limit ≡ limit) }
{
    let tree: Congee<u64, u64, Limited> = Congee::new(alloc, Limited::new(limit))?;
    let (allocator, _) = tree.close();
    Ok(Budget {
        charged: allocator.charged(),
        limit: allocator.limit(),
    })
}

/// The same of a tree of numbers.
pub fn opens_and_closes_numbers(alloc: Global, limit: u64) -> Result<Budget, OOMError>
    ensures charged { IfOk result (λ r. r.charged ≡ 0) }
    ensures limit { IfOk result (λ r. r.limit ≡ limit) }
{
    let tree: U64Congee<u64, Limited> = U64Congee::new(alloc, Limited::new(limit))?;
    let (allocator, _) = tree.close();
    Ok(Budget {
        charged: allocator.charged(),
        limit: allocator.limit(),
    })
}

/// A tree over a budget that had nothing charged when the tree was opened.
#[derive(Drop)]
struct Filled {
    tree: Congee<u64, u64, Limited>,
    ghost first: { tree.base ≡ 0 },
}

impl Filled {
    /// Puts a value at a key.
    fn put(&mut self, key: u64, value: u64) -> Result<Option<u64>, OOMError> {
        self.tree.insert(key, value)
    }

    /// What is charged once the tree is closed.
    fn close(self) -> u64
        ensures { result ≡ 0 }
    {
        let (allocator, _) = self.tree.close();
        allocator.charged()
    }
}

/// Whatever pairs a tree was filled with, once it is closed nothing is charged. It tells what is.
pub fn charge_after_insertions(
    alloc: Global,
    limit: u64,
    pairs: &[(u64, u64)],
) -> Result<u64, OOMError>
    ensures { IfOk result (λ charged. charged ≡ 0) }
{
    let mut filled = Filled {
        tree: Congee::new(alloc, Limited::new(limit))?,
    };
    for (key, value) in pairs {
        filled.put(*key, *value)?;
    }
    Ok(filled.close())
}

/// A value that was put at a key is found there. The tree is let go.
pub fn finds_what_it_puts(alloc: Global, key: u64, value: u64) -> Result<Option<u64>, OOMError>
    ensures { IfOk result (λ found. found ≡ Some value) }
{
    let mut tree: Congee<u64, u64> = Congee::new(alloc, DefaultAllocator::new())?;
    tree.insert(key, value)?;
    Ok(tree.get(&key))
}

/// The same of a tree of numbers.
pub fn finds_what_it_puts_in_numbers(
    alloc: Global,
    key: u64,
    value: u64,
) -> Result<Option<u64>, OOMError>
    ensures { IfOk result (λ found. found ≡ Some value) }
{
    let mut tree: U64Congee<u64> = U64Congee::new(alloc, DefaultAllocator::new())?;
    tree.insert(key, value)?;
    Ok(tree.get(key))
}
