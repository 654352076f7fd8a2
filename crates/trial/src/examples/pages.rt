//! A tree of one owner, read a page at a time, and drained at its end.
ghost use Rattle.std.specs.Prelude.{◌≡◌, ◌^◌, ◌-◌, length, take};
ghost use Rattle.std.specs.FinMap.{entries};
ghost use Rattle.congee.specs.owned.Drained.{Drained};
ghost use Rattle.congee.specs.owned.Ranges.{in_range};

use congee::{Congee, DefaultAllocator, Drainer};

/// Numbers under their keys, whose pairs go to a drainer in the end.
pub type Numbers<D> = Congee<u64, u64, DefaultAllocator, D>;

/// The pairs of the least keys from `start` on, as many as the page has places. The key `u64::MAX` is in no page.
pub fn page_from<D: Drop>(tree: &Numbers<D>, start: u64, page: &mut [(u64, u64)]) -> usize
    ensures { take result page.new ≡ take (length page.old) (in_range start (2 ^ 64 - 1) (entries tree.now.pairs)) }
{
    tree.range(&start, &u64::MAX, page)
}

/// The sum of all values, modulo 2^64, read 16 pairs at a time: the next page begins past the last key of the one before.
pub fn sum_by_pages<D: Drop>(tree: &Numbers<D>) -> u64 {
    let mut page = [(0, 0); 16];
    let mut start = 0;
    let mut sum = 0u64;
    for _ in 0..u64::MAX {
        let found = page_from(tree, start, &mut page);
        for (_, value) in page.iter().take(found) {
            sum = sum.wrapping_add(*value);
        }
        if found < page.len() {
            return sum;
        }
        start = page[15].0.saturating_add(1);
    }
    sum
}

/// Adds up what it is handed, and keeps the last key.
#[derive(Drop)]
pub struct Sum {
    pub of_values: u64,
    pub last_key: Option<u64>,
}

impl Drainer<u64, u64> for Sum {
    ghost use Rattle.std.specs.Prelude.{◌≡◌, ◌+◌, ◌^◌, ◌%◌, Some};

    ghost can_drain = { λ _. Unit {0} };

    ghost drains = { λ before key value after. after ≡ record { of_values = (before.of_values + value) % 2 ^ 64; last_key = Some key } };

    fn drain(&mut self, key: u64, value: u64) {
        self.of_values = self.of_values.wrapping_add(value);
        self.last_key = Some(key);
    }
}

/// Closes the tree: its drainer takes each pair, in ascending order of the keys.
pub fn drained<D: Drainer<u64, u64>>(tree: Numbers<D>) -> D
    requires { D.can_drain tree.drainer }
    ensures { Drained D.drains (λ k. k) (λ v. v) tree.drainer (entries tree.pairs) result }
{
    let (_, drainer) = tree.close();
    drainer
}
