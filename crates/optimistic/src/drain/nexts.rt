//! The next pair from a key on.
ghost use Rattle.std.specs.Prelude.{◌≡◌, ℕ, List, ◌+◌, ◌%◌, ◌<◌, ◌≤◌, false, length, None, IfSome, IfOk, MatchBool, MatchResult};
ghost use Rattle.optimistic.specs.declared.words.rule.Block.{Block};
ghost use Rattle.optimistic.specs.declared.words.rule.Entry.{Entry};
ghost use Rattle.optimistic.specs.declared.words.rule.Plot.{Plot};
ghost use Rattle.optimistic.specs.Layout.{room, width, byte_at};
ghost use Rattle.optimistic.specs.words.Kept.{version_at};
ghost use Rattle.optimistic.specs.words.Last.{words_in};
ghost use Rattle.optimistic.specs.forms.Children.{first_of, second_of, put_first, IsForm};
ghost use Rattle.optimistic.specs.forms.Least.{IsLeast};
ghost use Rattle.optimistic.specs.tree.Levels.{goes_on, pair_value};
ghost use Rattle.optimistic.specs.tree.Nexts.{IsNext, IsPlaced, IsAnswer, IsNear, IsSilent, UpTo, IsEnd, Leads, IsNextAt, IsTold, HasLocked, IsFirst};

use crate::drain::items::least;
use crate::drain::keys::{last_key, next_key};
use crate::forms::names::{key_byte, leaf_word};
use crate::moves::Item;
use crate::tree::TOP;
use crate::tree::names::{goes_on, pair_value, place_below};
use crate::tree::place::{Child, Place};
use crate::words::{Words, width_of};

/// What a node tells of the first pair from a key on.
#[derive(Clone, Copy, Drop)]
pub enum Next {
    /// It is the key's, with this value.
    Here(u64),
    /// The key's next node tells it.
    Down(Place),
    /// It is of a key after this one.
    After(u64),
}

/// A node is locked: a hand was lost in the midst of a write.
#[derive(Clone, Copy, Debug, Drop)]
pub struct Locked;

/// A key with its value.
#[derive(Clone, Copy, Debug, Drop)]
pub struct Pair {
    pub key: u64,
    pub value: u64,
}

/// The child of a key at an item of a node of a form.
#[inline(always)]
pub fn child_of(item: Item, form: u64, key: u64) -> Child
    ensures { (result.first ≡ put_first form item.first key) × (result.second ≡ item.last) }
{
    if form < 5 {
        Child {
            first: item.first,
            second: item.last,
        }
    } else {
        Child {
            first: leaf_word(key),
            second: item.last,
        }
    }
}

/// Of a child that says nothing of a key: a key up to which it says nothing of any.
fn silent_to(child: Child, level: u64, from: u64) -> u64
    requires { level < 8 }
    ensures { goes_on child.first child.second from ≡ false → pair_value child.first child.second from ≡ None
        → UpTo from result (λ k. IsNear (level + 1) from k × IsSilent child.first child.second k) }
{
    let last = last_key(from, level, key_byte(from, level));
    let next = next_key(child, from);
    if next > from {
        if next <= last {
            return next - 1;
        }
    }
    last
}

/// What the item at a key's byte tells.
#[inline(always)]
pub fn next_of_item(item: Item, at: Place, from: u64) -> Next
    requires { at.level < 8 }
    ensures placed { IsPlaced from result }
    ensures next { IsNext (at.level + 1) (λ k. put_first at.form item.first k) (λ k. item.last) from result }
{
    let child = child_of(item, at.form, from);
    let on = goes_on(child, from);
    if on {
        return Next::Down(place_below(child.first));
    }
    match pair_value(child, from) {
        Some(value) => Next::Here(value),
        None => Next::After(silent_to(child, at.level, from)),
    }
}

/// What the lowest item from a key's byte on tells.
fn next_of_least(least: Option<Item>, at: Place, from: u64) -> Next
    requires { at.level < 8 }
    ensures placed { IsPlaced from result }
    ensures next { (w : ℕ → ℕ) → IsForm at.form w → IsLeast at.form w (byte_at from at.level) (room at.form) least
        → IsNext at.level (λ k. first_of at.form w k (byte_at k at.level)) (λ k. second_of at.form w k (byte_at k at.level)) from result }
{
    let byte = key_byte(from, at.level);
    match least {
        Some(item) => {
            if item.byte > byte {
                Next::After(last_key(from, at.level, item.byte - 1))
            } else {
                next_of_item(item, at, from)
            }
        }
        None => Next::After(last_key(from, at.level, 255)),
    }
}

/// Whether a node lies among the words, and isn't locked.
pub fn is_unlocked(words: &Words, at: Place) -> bool
    requires { (0 < at.form) × (at.form < 9) }
    ensures { MatchBool result ((at.node + width at.form ≤ length (words_in words.now)) × (version_at (words_in words.now) at.node % 2 ≡ 0))
        (at.node + width at.form ≤ length (words_in words.now) → version_at (words_in words.now) at.node % 2 ≡ 1) }
{
    let width = width_of(at.form);
    let len = words.len();
    if len < width {
        return false;
    }
    if at.node > len - width {
        return false;
    }
    let version = words.word(at.node, 0);
    version % 2 == 0
}

/// What a node on the way to a key tells.
fn next_at(words: &Words, at: Place, from: u64) -> Result<Next, Locked>
    requires form { (0 < at.form) × (at.form < 9) }
    requires level { at.level < 8 }
    ensures placed { IfOk result (λ n. IsPlaced from n) }
    ensures next { (plots : List Plot) (calm : List Block) (log : List Entry) → IsEnd (words_in words.now) plots calm log → Leads plots calm at from
        → MatchResult result (λ n. IsNextAt plots calm log at from n) (λ _. HasLocked (words_in words.now) plots) }
{
    let unlocked = is_unlocked(words, at);
    if !unlocked {
        return Err(Locked);
    }
    let byte = key_byte(from, at.level);
    let item = least(words, at.node, at.form, byte);
    Ok(next_of_least(item, at, from))
}

/// The value of a key, or a key up to which there is none.
fn descend(words: &Words, from: u64) -> Result<Next, Locked>
    ensures ended { IfOk result (λ n. IsAnswer from n) }
    ensures told { (plots : List Plot) (calm : List Block) (log : List Entry) → IsEnd (words_in words.now) plots calm log
        → MatchResult result (λ n. IsTold log from n) (λ _. HasLocked (words_in words.now) plots) }
{
    let mut at = TOP;
    for _depth in 0..8u64 {
        let next = next_at(words, at, from)?;
        match next {
            Next::Here(value) => return Ok(Next::Here(value)),
            Next::Down(place) => at = place,
            Next::After(last) => return Ok(Next::After(last)),
        }
    }
    Err(Locked)
}

/// The first pair from a key on.
pub fn first_from(words: &Words, from: u64) -> Result<Option<Pair>, Locked>
    ensures later { IfOk result (λ first. IfSome first (λ p. from ≤ p.key)) }
    ensures first { (plots : List Plot) (calm : List Block) (log : List Entry) → IsEnd (words_in words.now) plots calm log
        → MatchResult result (λ first. IsFirst log from first) (λ _. HasLocked (words_in words.now) plots) }
{
    let mut key = from;
    loop {
        let next = descend(words, key)?;
        match next {
            Next::Here(value) => return Ok(Some(Pair { key, value })),
            Next::Down(_) => unreachable!(),
            Next::After(last) => {
                if last == u64::MAX {
                    return Ok(None);
                }
                key = last + 1;
            }
        }
    }
}
