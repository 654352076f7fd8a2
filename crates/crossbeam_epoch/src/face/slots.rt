//! The cells, and the values that stand in them. Threads step on a cell's word without a lock.
//!
//! The word of a vacant cell is `FREE`. While a value stands it is `PRESENT`, with the value's turn in the high half, and
//! counts who reads it; while the value is lent to be changed it is `MARKED`, with the turn. Whoever places a value, or takes
//! one out that nobody reads, has the word `TAKEN` for a moment.

ghost use Rattle.std.specs.Prelude.{◌≡◌, ◌<◌, ◌%◌, ◌+◌, ◌*◌, IsTrue, IfErr, IfSome, IsSomeAnd};
ghost use Rattle.counted_slot.specs.Counting.{readers, IsTurn, Gains};

use crate::face::lent::{Lent, LentMut};
use crate::names::Name;
use counted_slot::{Counted, FREE, Fits, MARKED, MOST_READERS, ONE_READER, PRESENT, TAKEN};
use std::alloc::{AllocError, Global};
use std::marker::Model;
use std::sync::Wait;

/// A value, and the name that it was placed under.
#[derive(Drop)]
pub struct Claimed<T> {
    pub name: Name,
    pub value: Box<T>,
}

impl<T> Fits for Claimed<T> {
    type Tag = ();

    ghost fits = { λ _ _. Unit {0} };
}

/// A place for a value.
type Cell<T> = Counted<Option<Claimed<T>>>;

/// The cells of a collector. Contracts see nothing of them, since other threads step on them.
#[derive(Drop)]
pub struct Slots<T> {
    cells: Vec<Cell<T>>,
}

impl<T> Model for Slots<T> {
    ghost Value = { Unit {0} };

    ghost view = { λ _. tt };
}

/// The word of a cell whose value has this turn, in this state, and that nobody reads.
fn word_of(turn: u32, state: u64) -> u64
    requires { state < 4 }
    ensures { result ≡ turn * 4294967296 + state }
{
    u64::from(turn) * 0x1_0000_0000 + state
}

/// Whether one more may read the value of this turn.
fn is_readable(word: u64, turn: u32) -> bool
    ensures state { IsTrue result → word % 4 ≡ 1 }
    ensures room { IsTrue result → readers word < 1073741823 }
{
    word % 4 == PRESENT
        && word / 0x1_0000_0000 == u64::from(turn)
        && word % 0x1_0000_0000 / 4 < MOST_READERS
}

impl<T: Drop> Slots<T> {
    /// So many cells, which are vacant.
    pub fn new(alloc: Global, cells: u32) -> Result<Slots<T>, AllocError> {
        let mut made = Vec::with_capacity(alloc, cells as usize)?;
        for _ in 0..cells {
            made.push(Counted::new(None, &()))?;
        }
        Ok(Slots { cells: made })
    }

    /// The cell that a name leads to.
    fn cell(&self, name: Name) -> Option<&Cell<T>> {
        self.cells.get(name.cell as usize)
    }

    /// Places a value under this name, or hands it back where the cell isn't vacant.
    pub fn place(&self, name: Name, value: Box<T>) -> Result<(), Box<T>>
        ensures { IfErr result (λ v. v ≡ value) }
    {
        let Some(cell) = self.cell(name) else {
            return Err(value);
        };
        let (found, claim) = cell.turn(FREE, TAKEN);
        if found != FREE {
            claim.done();
            return Err(value);
        }
        claim.put(Some(Claimed { name, value }), word_of(name.turn, PRESENT));
        Ok(())
    }

    /// Lends the value to be read, where it stands under this name. `None` too where it is lent to 2^30 - 1 readers.
    pub fn lend<R: Wait>(&self, rt: &R, name: Name) -> Option<Lent<'_, T>>
        ensures { IfSome result (λ l. l.name ≡ name) }
    {
        let cell = self.cell(name)?;
        for _ in rt.forever() {
            let seen = cell.load();
            if !is_readable(seen, name.turn) {
                return None;
            }
            let (found, claim) = cell.turn(seen, seen + ONE_READER);
            if found == seen {
                return Lent::new(name, claim);
            }
            claim.done();
        }
        unreachable!()
    }

    /// Lends the value to be changed, where it stands under this name and isn't lent.
    pub fn lend_mut(&self, name: Name) -> Option<LentMut<'_, T>>
        ensures { IfSome result (λ l. l.kept.name ≡ name) }
    {
        let kept = self.take(name, word_of(name.turn, MARKED))?;
        Some(LentMut::new(self, kept))
    }

    /// Takes the value out for good, where it stands under this name and isn't lent.
    pub fn remove(&self, name: Name) -> Option<Claimed<T>>
        ensures { IfSome result (λ k. k.name ≡ name) }
    {
        self.take(name, FREE)
    }

    /// Puts a value that was lent to be changed back, or hands it back where its place isn't kept.
    pub fn put_back(&self, kept: Claimed<T>) -> Result<(), Claimed<T>>
        ensures { IfErr result (λ k. k ≡ kept) }
    {
        let Some(cell) = self.cell(kept.name) else {
            return Err(kept);
        };
        let turn = kept.name.turn;
        let away = word_of(turn, MARKED);
        let (found, claim) = cell.turn(away, word_of(turn, TAKEN));
        if found != away {
            claim.done();
            return Err(kept);
        }
        claim.put(Some(kept), word_of(turn, PRESENT));
        Ok(())
    }

    /// Takes the value out and leaves this word, where it stands under this name and isn't lent.
    fn take(&self, name: Name, left: u64) -> Option<Claimed<T>>
        requires { (left % 4 < 3) × (readers left ≡ 0) }
        ensures { IfSome result (λ k. k.name ≡ name) }
    {
        let cell = self.cell(name)?;
        let alone = word_of(name.turn, PRESENT);
        let (found, claim) = cell.turn(alone, word_of(name.turn, TAKEN));
        if found != alone {
            claim.done();
            return None;
        }
        let kept = claim.put(None, left)?;
        if kept.name == name { Some(kept) } else { None }
    }
}
