//! The queue of sealed bags, as a chain of blocks.

ghost use Rattle.std.specs.Prelude.{◌≡◌, ◌<◌, ◌++◌, ◌∷◌, [], ◌-◌, ◌==◌, MatchOption, OnOk, OnErr, IfSome, length, slice_index_or};
ghost use Rattle.std.specs.VecDeque.{deque_len, deque_capacity};
ghost use Rattle.crossbeam_epoch.specs.Chain.{joined, AreFilled, refilled, room_freed, room_left};

use crate::bag::Sealed;
use crate::task::Task;
use std::alloc::{AllocError, Global};
use std::collections::VecDeque;
use std::marker::Model;
use std::mem;

/// The bags of a block.
const BLOCK: usize = 32;

/// Sealed bags, the oldest in front, in blocks of 32. They are taken from the first block and queued in the last one. A
/// block is made when a bag is queued and the last one is full or there is none, and given up when its bags are taken.
#[derive(Drop)]
pub struct Chain<J: Task> {
    /// The first block, where it isn't the last one.
    first: VecDeque<Sealed<J>>,
    /// The blocks between the first and the last.
    between: VecDeque<VecDeque<Sealed<J>>>,
    last: VecDeque<Sealed<J>>,
    alloc: Global,
}

impl<J: Task> Model for Chain<J> {
    ghost use Rattle.std.specs.Prelude.{◌≡◌, ◌-◌, ◌++◌, []};
    ghost use Rattle.std.specs.VecDeque.{deque_len, deque_capacity};
    ghost use Rattle.crossbeam_epoch.specs.Chain.{Chain as Bags, joined, AreBlocks};
    ghost use Rattle.crossbeam_epoch.specs.declared.bag.Sealed.{Sealed};

    ghost Value = { Bags (Sealed J) };

    ghost view = { λ c. record {
      items = c.first.items ++ (joined (λ q. q.items) c.between.items ++ c.last.items);
      room = deque_capacity c.last - deque_len c.last;
    } };

    ghost invariant = { λ c. AreBlocks (λ q. q.items) (λ q. deque_len q) (λ q. deque_capacity q) c.first c.between.items c.last };
}

impl<J: Task> Chain<J> {
    /// No bag, and no block.
    pub fn new(alloc: Global) -> Chain<J>
        ensures { (result.items ≡ []) × (result.room ≡ 0) }
    {
        Chain {
            first: no_block(alloc),
            between: VecDeque::new(alloc),
            last: no_block(alloc),
            alloc,
        }
    }

    /// Makes a block where the last one is full or there is none, so that the next bag needs no memory.
    pub fn reserve(&mut self) -> Result<(), AllocError>
        ensures items { self.new.items ≡ self.old.items }
        ensures ok { OnOk result (self.new.room ≡ refilled self.old.room) }
        ensures err { OnErr result ((self.old.room ≡ 0) × (self.new.room ≡ 0)) }
    {
        if self.last.len() < self.last.capacity() {
            return Ok(());
        }
        let block = VecDeque::with_capacity(self.alloc, BLOCK)?;
        if self.last.is_empty() {
            self.last = block;
        } else if self.first.is_empty() {
            self.first = mem::replace(&mut self.last, block);
        } else {
            self.between.reserve(1)?;
            self.between
                .push_back_reserved(mem::replace(&mut self.last, block));
        }
        Ok(())
    }

    /// Queues a bag where there is room.
    pub fn push_back_reserved(&mut self, bag: Sealed<J>)
        requires room { 0 < self.old.room }
        ensures items { self.new.items ≡ self.old.items ++ bag ∷ [] }
        ensures room { self.new.room ≡ self.old.room - 1 }
    {
        self.last.push_back_reserved(bag);
    }

    /// The oldest bag.
    pub fn front(&self) -> Option<&Sealed<J>>
        ensures { MatchOption result (self.now.items ≡ []) (λ b. (0 < length self.now.items) × (b.now ≡ slice_index_or self.now.items 0 b.now)) }
    {
        match self.first.front() {
            Some(bag) => Some(bag),
            None => self.last.front(),
        }
    }

    /// Takes the oldest bag off, and gives its block up where it was the last one there.
    pub fn pop_front(&mut self) -> Option<Sealed<J>>
        ensures items { MatchOption result ((self.old.items ≡ []) × (self.new.items ≡ [])) (λ b. self.old.items ≡ b ∷ self.new.items) }
        ensures room { IfSome result (λ _. self.new.room ≡ room_left (length self.new.items) self.old.room) }
    {
        let bag = self.take_front()?;
        if self.is_empty() {
            self.give_up();
        }
        Some(bag)
    }

    /// Takes the oldest bag off, and gives its block up where it was the last one there, but for the last block.
    fn take_front(&mut self) -> Option<Sealed<J>>
        ensures items { MatchOption result ((self.old.items ≡ []) × (self.new.items ≡ [])) (λ b. self.old.items ≡ b ∷ self.new.items) }
        ensures room { IfSome result (λ _. self.new.room ≡ room_freed (length self.new.items) self.old.room) }
    {
        let Some(bag) = self.first.pop_front() else {
            return self.last.pop_front();
        };
        if self.first.is_empty() {
            self.first = take_block(&mut self.between, self.alloc);
        }
        Some(bag)
    }

    /// Gives the last block up, in which no bag is left.
    fn give_up(&mut self)
        requires { self.old.items ≡ [] }
        ensures items { self.new.items ≡ [] }
        ensures room { self.new.room ≡ 0 }
    {
        self.last = no_block(self.alloc);
    }

    /// Whether there is no bag.
    fn is_empty(&self) -> bool
        ensures { result ≡ (length self.now.items == 0) }
    {
        match self.front() {
            Some(_) => false,
            None => true,
        }
    }
}

/// No block: no bag, and no place for one.
fn no_block<J: Drop>(alloc: Global) -> VecDeque<Sealed<J>>
    ensures { (result.items ≡ []) × (deque_len result ≡ 0) × (deque_capacity result ≡ 0) }
{
    match VecDeque::with_capacity(alloc, 0) {
        Ok(block) => block,
        Err(_) => unreachable!(),
    }
}

/// Takes the first block off; none where there is none.
fn take_block<J: Drop>(
    blocks: &mut VecDeque<VecDeque<Sealed<J>>>,
    alloc: Global,
) -> VecDeque<Sealed<J>>
    requires filled { AreFilled (λ q. deque_len q) blocks.old.items }
    ensures items { joined (λ q. q.items) blocks.old.items ≡ result.items ++ joined (λ q. q.items) blocks.new.items }
    ensures filled { AreFilled (λ q. deque_len q) blocks.new.items }
    ensures none { result.items ≡ [] → (blocks.new.items ≡ []) × (deque_capacity result ≡ 0) }
{
    match blocks.pop_front() {
        Some(block) => block,
        None => no_block(alloc),
    }
}
