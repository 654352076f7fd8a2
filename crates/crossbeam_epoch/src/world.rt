//! Epoch-based reclamation as a machine of atomic steps: the epoch, the table, the queue, the cells and the roots.
//!
//! A participant that is pinned has published an epoch in its place of the table, and may look at what is in reach. What
//! has left reach is deferred: the job goes into the participant's bag, under a ticket. A full bag, or a flushed one, is
//! sealed with the epoch as it is then, and queued. A collection looks at every place; where nobody is pinned at another
//! epoch than the one that it loaded it advances the epoch by one. Then it takes bags whose seal is `expiry` behind, the
//! oldest first, eight at most, and calls their jobs, one a step; the job of a removal destroys its cell.
//!
//! Why that is safe with an `expiry` of two: while a participant stays pinned the epoch rises at most once, since an
//! advance passes only places that are pinned at the epoch loaded. A job that it blocks was deferred while it was
//! pinned, so the seal is no older than its epoch, and the bag isn't two behind before it has unpinned.
//!
//! | The step | Its file |
//! |---|---|
//! | look, publish, seal, queue, leave, secure | `steps`, on a place of the table (`participant`) |
//! | load, inspect, advance, take, call | `collect` |
//! | a step of any call, a whole call, a list of steps | `calls`, with what is told of it in `report` |
//! | a deferral, the end | `defer`, `ending` |
//! | cells and roots | `store` over `cells`; `roots` and `exchanges` |
//! | what follows over any steps | `laws` |

mod calls;
pub(crate) mod cells;
mod collect;
mod defer;
mod ending;
mod exchanges;
mod laws;
mod participant;
mod report;
mod roots;
mod steps;
mod store;
mod tickets;

ghost use Rattle.std.specs.Prelude.{◌≡◌, ◌<◌, ℕ, List, [], ◌∷◌, IsTrue, true, false, IfOk, IfSome, MatchResult, length, unwrap_or, replicate, is_some, if◌then◌else◌, ◌&&◌};
ghost use Rattle.std.specs.Result.{result_ok};
ghost use Rattle.crossbeam_epoch.specs.world.Machine.{place, opened, registered, blank, null};
ghost use Rattle.crossbeam_epoch.specs.Limits.{within};
ghost use Rattle.crossbeam_epoch.specs.world.Reach.{Quiet, moment, HasMoments, NextMoment};

use crate::bag::Bag;
use crate::chain::Chain;
use crate::fault::Fault;
use crate::limits::Limits;
use crate::names::{Links, Pointable, Ptr};
use crate::task::Task;
use crate::world::cells::Cells;
use crate::world::tickets::Tickets;
pub use cells::Cell;
pub use exchanges::OtherPointer;
pub use participant::{Participant, Phase};
pub use report::{Event, Op, Outcome, Ran, Report, Step};
use std::alloc::{AllocError, Global};
use std::marker::Model;

/// Epoch-based reclamation as a machine of atomic steps.
#[derive(Drop)]
pub struct World<T, J: Task> {
    pub(crate) limits: Limits,
    pub(crate) epoch: u64,
    pub(crate) participants: Vec<Participant<J>>,
    pub(crate) queue: Chain<J>,
    pub(crate) tickets: Tickets,
    pub(crate) cells: Cells<T>,
    pub(crate) roots: Vec<Ptr>,
}

impl<T, J: Task> Model for World<T, J> {
    ghost use Rattle.crossbeam_epoch.specs.world.Machine.{State};

    ghost Value = { State T J };

    ghost view = { λ w. record {
      limits = w.limits;
      epoch = w.epoch;
      table = w.participants.items;
      queue = w.queue.items;
      room = w.queue.room;
      next = w.tickets.next;
      waiting = w.tickets.waiting;
      store = w.cells;
      roots = w.roots.items;
    } };
}

impl<T: Links + Pointable + Drop, J: Task> World<T, J> {
    /// A collector with no participant, whose roots hold null.
    pub fn new(alloc: Global, limits: Limits, roots: usize) -> Result<World<T, J>, Fault>
        ensures state { IfOk result (λ w. w ≡ opened limits roots) }
        ensures told { IfOk result (λ w. limits.expiry ≡ 2 → HasMoments T.names (moment T.names Quiet w ∷ []) w) }
        ensures limits { MatchResult result (λ _. within limits ≡ true) (λ e. e ≡ (if within limits then Fault.Memory else Fault.Limits)) }
    {
        if !limits.is_within() {
            return Err(Fault::Limits);
        }
        let Ok(world) = World::make(alloc, limits, roots) else {
            return Err(Fault::Memory);
        };
        Ok(world)
    }

    /// A collector with room for what these limits allow.
    fn make(alloc: Global, limits: Limits, roots: usize) -> Result<World<T, J>, AllocError>
        ensures state { IfOk result (λ w. w ≡ opened limits roots) }
    {
        let cells = Cells::new(alloc, limits.cells, limits.turn_max)?;
        let participants = blanks(alloc, limits.participants as usize)?;
        let roots = nulls(alloc, roots)?;
        Ok(World {
            limits,
            epoch: 0,
            participants,
            queue: Chain::new(alloc),
            tickets: Tickets::new(),
            cells,
            roots,
        })
    }

    /// Takes the lowest free place, and answers its number; TableFull where every place is taken.
    pub fn register(&mut self) -> Result<usize, Fault>
        ensures state { MatchResult result (λ n. self.new ≡ registered self.old n) (λ e. (e ≡ Fault.TableFull) × (self.new ≡ self.old)) }
        ensures free { IfOk result (λ n. (n < length self.old.table) × ((place self.old n).registered ≡ false)) }
        ensures lowest { (q : ℕ) → q < unwrap_or (result_ok result) (length self.old.table) → (place self.old q).registered ≡ true }
        ensures told { NextMoment T.names Quiet self.old self.new }
    {
        match self.free_place() {
            Some(n) => {
                let place = &mut self.participants[n];
                place.registered = true;
                place.pins = 0;
                Ok(n)
            }
            None => Err(Fault::TableFull),
        }
    }

    /// The lowest free place.
    fn free_place(&self) -> Option<usize>
        ensures free { IfSome result (λ n. (n < length self.now.table) × ((place self.now n).registered ≡ false)) }
        ensures below { (q : ℕ) → q < unwrap_or result (length self.now.table) → (place self.now q).registered ≡ true }
    {
        for (n, place) in self.participants.iter().enumerate() {
            let free = !place.registered;
            if free {
                return Some(n);
            }
        }
        None
    }

    /// Whether a participant of this number is registered.
    pub fn is_registered(&self, who: usize) -> bool
        ensures value { result ≡ (place self.now who).registered }
        ensures inside { IsTrue result → who < length self.now.table }
    {
        match self.participants.get(who) {
            Some(place) => place.registered,
            None => false,
        }
    }

    /// Whether a participant of this number is registered and pinned.
    pub fn is_pinned(&self, who: usize) -> bool
        ensures { result ≡ ((place self.now who).registered && is_some (place self.now who).word) }
    {
        self.is_registered(who) && self.participants[who].word.is_some()
    }

    /// The global epoch.
    pub fn epoch(&self) -> u64
        ensures { result ≡ self.now.epoch }
    {
        self.epoch
    }

    /// How many jobs were deferred and not yet called.
    pub fn waiting(&self) -> u64
        ensures { result ≡ self.now.waiting }
    {
        self.tickets.waiting()
    }
}

/// So many places that nobody holds.
fn blanks<J: Task>(alloc: Global, places: usize) -> Result<Vec<Participant<J>>, AllocError>
    ensures { IfOk result (λ v. v.items ≡ replicate places blank) }
{
    let mut table = Vec::with_capacity(alloc, places)?;
    for _ in 0..places {
        table.push(Participant::blank())?;
    }
    Ok(table)
}

/// So many roots that hold null.
fn nulls(alloc: Global, roots: usize) -> Result<Vec<Ptr>, AllocError>
    ensures { IfOk result (λ v. v.items ≡ replicate roots null) }
{
    let mut all = Vec::with_capacity(alloc, roots)?;
    for _ in 0..roots {
        all.push(Ptr::null())?;
    }
    Ok(all)
}
