//! What a child tells of the keys up to one.
ghost use Rattle.std.specs.Prelude.{◌≡◌, ℕ, ◌+◌, ◌≤◌, ◌<◌, ◌⊎◌};
ghost use Rattle.optimistic.specs.forms.Children.{put_first};
ghost use Rattle.optimistic.specs.tree.Nexts.{IsNear, IsNext};
ghost use Rattle.optimistic.specs.tree.Sights.{IsBack};

use crate::drain::keys::{first_key, last_of};
use crate::drain::nexts::{Next, child_of, next_of_item};
use crate::forms::names::key_byte;
use crate::moves::Item;
use crate::tree::place::{Child, Place};

/// What was told of the keys from one on, up to the one that was asked for at least.
#[derive(Clone, Copy, Drop)]
pub struct Back {
    pub from: u64,
    pub next: Next,
}

/// The byte from which on there is no child up to `byte`, if that comes before it.
#[inline(always)]
pub fn byte_behind(end: usize, byte: u8) -> u8
    ensures { (result ≤ byte) × ((result ≡ byte) ⊎ (end ≤ result)) }
{
    if end < byte as usize { end as u8 } else { byte }
}

/// Of a child that says nothing of a key: the first key of which it may say nothing either, nor of those in between.
fn silent_from(child: Child, level: u64, to: u64) -> u64
    requires { level < 8 }
    ensures before { result ≤ to }
    ensures near { IsNear (level + 1) to result }
{
    let first = first_key(to, level, key_byte(to, level));
    let last = last_of(child, to);
    if last < first {
        return first;
    }
    if last < to { last + 1 } else { first }
}

/// What the item at a key's byte tells of the keys up to that one.
pub fn back_of_item(item: Item, at: Place, to: u64) -> Back
    requires { at.level < 8 }
    ensures back { IsBack to result.from result.next }
    ensures near { IsNear (at.level + 1) to result.from }
    ensures next { IsNext (at.level + 1) (λ k. put_first at.form item.first k) (λ k. item.last) result.from result.next }
{
    let next = next_of_item(item, at, to);
    if let Next::After(_) = next {
        let from = silent_from(child_of(item, at.form, to), at.level, to);
        let earlier = next_of_item(item, at, from);
        if let Next::After(last) = earlier {
            if last >= to {
                return Back {
                    from,
                    next: earlier,
                };
            }
        }
    }
    Back { from: to, next }
}
