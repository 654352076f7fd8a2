//! Treiber's stack over `crossbeam_epoch`: threads exchange the head of a list, and a node that was taken off is
//! destroyed once no guard is out that was out then.

ghost use Rattle.std.specs.Prelude.{◌≡◌, ◌-◌, true, MatchResult};
ghost use Rattle.crossbeam_epoch.specs.face.Handle.{owns};

use crossbeam_epoch::{
    Atomic, Collector, Fault, Guard, Link, LocalHandle, Owned, Pointable, Shared, Task,
};
use std::alloc::Global;
use std::sync::Wait;
use std::sync::atomic::Ordering;
use std::thread;
use std::thread::Threads;

/// A number, and where the node below it stands.
#[derive(Clone, Copy, Drop)]
pub(crate) struct Node {
    number: u64,
    below: Link,
}

impl Pointable for Node {
    ghost use Rattle.std.proofs.Common.{refl, lit≤};

    ghost ALIGN = { 1 };

    const ALIGN: u16 = 1;

    ghost aligned = { (0, lit≤ tt, refl) };
}

/// Numbers, of which the last one that was pushed is popped first. Its nodes stand in the cells of one collector.
#[derive(Drop)]
pub(crate) struct Stack {
    head: Atomic<Node>,
}

impl Stack {
    /// No number.
    pub(crate) fn new() -> Stack {
        Stack {
            head: Atomic::null(),
        }
    }

    /// Puts a number on top. Refused as `Memory`, or as `CellsFull`.
    pub(crate) fn push<R: Wait, J: Task>(
        &self,
        rt: &R,
        alloc: Global,
        guard: &Guard<'_, Node, J>,
        number: u64,
    ) -> Result<(), Fault> {
        let node = Node {
            number,
            below: Link::null(),
        };
        let mut owned = match Owned::new(alloc, node) {
            Ok(owned) => owned,
            Err((fault, _node)) => return Err(fault),
        };
        for _ in rt.forever() {
            match self.put(rt, guard, owned) {
                Ok(()) => return Ok(()),
                Err((None, back)) => owned = back,
                Err((Some(fault), _back)) => return Err(fault),
            }
        }
        unreachable!()
    }

    /// Puts a node on top of the one that is there now. It comes back where another thread was faster, and with the
    /// fault where it is refused.
    fn put<R: Wait, J: Task>(
        &self,
        rt: &R,
        guard: &Guard<'_, Node, J>,
        mut node: Owned<Node>,
    ) -> Result<(), (Option<Fault>, Owned<Node>)> {
        let top = self.head.load(rt, Ordering::Acquire, guard);
        node.borrow_mut().below = top.link();
        match self
            .head
            .compare_exchange(rt, top, node, Ordering::Release, Ordering::Relaxed, guard)
        {
            Ok(Ok(_written)) => Ok(()),
            Ok(Err(other)) => Err((None, other.new)),
            Err((fault, back)) => Err((Some(fault), back)),
        }
    }

    /// Takes the number off the top; `None` where there is none. Refused as `Foreign` under a guard of another
    /// collector. Where the node's destruction can't be put off, for want of memory, its cell isn't used again.
    pub(crate) fn pop<R: Wait, J: Task>(
        &self,
        rt: &R,
        handle: &mut LocalHandle<'_, Node, J>,
        guard: &Guard<'_, Node, J>,
    ) -> Result<Option<u64>, Fault>
        ensures row { handle.new.row ≡ handle.old.row }
        ensures guards { handle.new.guards ≡ handle.old.guards }
    {
        let Some((number, top)) = self.take_top(rt, guard)? else {
            return Ok(None);
        };
        match handle.defer_destroy(rt, guard, Shared::of(top)) {
            Ok(()) => {}
            Err(_refused) => {}
        }
        Ok(Some(number))
    }

    /// Takes the node off the top, and gives its number and where it stands.
    fn take_top<R: Wait, J: Task>(
        &self,
        rt: &R,
        guard: &Guard<'_, Node, J>,
    ) -> Result<Option<(u64, Link)>, Fault> {
        for _ in rt.forever() {
            let top = self.head.load(rt, Ordering::Acquire, guard).link();
            if top.site.is_none() {
                return Ok(None);
            }
            if is_elsewhere(top, guard) {
                return Err(Fault::Foreign);
            }
            if let Some(number) = self.take(rt, guard, top) {
                return Ok(Some((number, top)));
            }
        }
        unreachable!()
    }

    /// Takes this node off, where it is still on top.
    fn take<R: Wait, J: Task>(&self, rt: &R, guard: &Guard<'_, Node, J>, top: Link) -> Option<u64> {
        let Node { number, below } = read(rt, guard, top)?;
        let exchanged = self.head.compare_exchange(
            rt,
            Shared::of(top),
            below,
            Ordering::Release,
            Ordering::Relaxed,
            guard,
        );
        match exchanged {
            Ok(Ok(_written)) => Some(number),
            Ok(Err(_other)) => None,
            Err(_refused) => None,
        }
    }
}

/// Whether a pointer leads to a cell of another collector than the guard's.
fn is_elsewhere<J: Task>(top: Link, guard: &Guard<'_, Node, J>) -> bool {
    match guard.collector() {
        Some(numbers) => top.site.is_some_and(|site| site.collector != numbers.id()),
        None => false,
    }
}

/// A copy of the node that stands there.
fn read<R: Wait, J: Task>(rt: &R, guard: &Guard<'_, Node, J>, top: Link) -> Option<Node> {
    let node: Shared<'_, Node> = Shared::of(top);
    let lent = node.deref(rt, guard)?;
    let copy = *lent.get();
    lent.back(rt);
    Some(copy)
}

/// Pushes the numbers below `count` and pops as many, each pair of calls under a guard of its own. The sum of the numbers
/// that it popped, which other threads may have pushed.
pub(crate) fn push_and_pop<R: Wait, J: Task>(
    rt: &R,
    alloc: Global,
    stack: &Stack,
    handle: &mut LocalHandle<'_, Node, J>,
    count: u32,
) -> Result<u64, Fault> {
    let mut sum = 0u64;
    for number in 0..count {
        let guard = handle.pin()?;
        let popped = push_then_pop(rt, alloc, stack, handle, &guard, u64::from(number));
        spend(handle, guard);
        sum = sum.wrapping_add(popped?.unwrap_or(0));
    }
    Ok(sum)
}

fn push_then_pop<R: Wait, J: Task>(
    rt: &R,
    alloc: Global,
    stack: &Stack,
    handle: &mut LocalHandle<'_, Node, J>,
    guard: &Guard<'_, Node, J>,
    number: u64,
) -> Result<Option<u64>, Fault>
    ensures row { handle.new.row ≡ handle.old.row }
    ensures guards { handle.new.guards ≡ handle.old.guards }
{
    stack.push(rt, alloc, guard, number)?;
    let popped = stack.pop(rt, handle, guard)?;
    handle.collect(rt);
    Ok(popped)
}

/// Spends a guard of the handle.
fn spend<J: Task>(handle: &mut LocalHandle<'_, Node, J>, guard: Guard<'_, Node, J>)
    requires { owns handle.old.guards handle.old.row guard.row ≡ true }
    ensures { handle.new ≡ record handle.old { guards = handle.old.guards - 1; knows = handle.new.knows } }
{
    match handle.unpin(guard) {
        Ok(()) => {}
        Err(_refused) => unreachable!(),
    }
}

/// Registers a handle, pushes and pops so many numbers, and leaves. The sum of the numbers that it popped.
fn takes_part<R: Wait>(
    rt: &R,
    alloc: Global,
    numbers: &Collector<Node, ()>,
    stack: &Stack,
    count: u32,
) -> Result<u64, Fault> {
    let mut handle = numbers.register(rt)?;
    let sum = push_and_pop(rt, alloc, stack, &mut handle, count);
    match handle.release(rt) {
        Ok(()) => sum,
        Err((fault, _handle)) => Err(fault),
    }
}

/// Two threads push and pop so many numbers each. The sum of the numbers that both popped.
pub(crate) fn sum_of_two<R: Threads + Wait + Sync>(
    rt: &R,
    alloc: Global,
    numbers: &Collector<Node, ()>,
    stack: &Stack,
    count: u32,
) -> Result<u64, Fault> {
    let (one, two) = thread::join(
        rt,
        move || takes_part(rt, alloc, numbers, stack, count),
        move || takes_part(rt, alloc, numbers, stack, count),
    );
    Ok(one?.wrapping_add(two?))
}

/// Pushes three numbers onto a new stack, and pops four times.
pub(crate) fn pops<R: Wait>(
    rt: &R,
    alloc: Global,
    numbers: &Collector<Node, ()>,
    pushed: [u64; 3],
) -> Result<[Option<u64>; 4], Fault> {
    let mut handle = numbers.register(rt)?;
    let guard = handle.pin()?;
    let popped = pops_under(rt, alloc, &mut handle, &guard, pushed);
    spend(&mut handle, guard);
    popped
}

fn pops_under<R: Wait>(
    rt: &R,
    alloc: Global,
    handle: &mut LocalHandle<'_, Node, ()>,
    guard: &Guard<'_, Node, ()>,
    pushed: [u64; 3],
) -> Result<[Option<u64>; 4], Fault>
    ensures row { handle.new.row ≡ handle.old.row }
    ensures guards { handle.new.guards ≡ handle.old.guards }
{
    let stack = Stack::new();
    for number in pushed {
        stack.push(rt, alloc, guard, number)?;
    }
    let first = stack.pop(rt, handle, guard)?;
    let second = stack.pop(rt, handle, guard)?;
    let third = stack.pop(rt, handle, guard)?;
    let none = stack.pop(rt, handle, guard)?;
    Ok([first, second, third, none])
}
