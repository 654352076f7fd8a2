//! The names of freed nodes that all workers of an index share.
ghost use Rattle.std.specs.Prelude.{◌≡◌, IfOk};
ghost use Rattle.optimistic.specs.face.Workers.{HasNames};

use crate::desk::{Desk, Fact};
use crate::tree::{Free, Trade, Tree};
use crate::words::Hand;
use std::alloc::{AllocError, Global};
use std::marker::Model;
use std::mem::replace;
use std::sync::atomic::AtomicU64;
use std::sync::atomic::Ordering::SeqCst;

/// Names of nodes that were freed, and the moment at which they were last used.
#[derive(Drop)]
pub struct Shelf {
    free: Free,
    names: Hand,
}

/// The names are of nodes of the tree that the key is a hand of.
pub struct Naming;

impl Fact<Shelf, Hand> for Naming {
    ghost use Rattle.optimistic.specs.face.Workers.{HasNames};

    ghost tells = { λ key shelf. HasNames key.table_id shelf.free shelf.names };
}

/// Where the names are that no worker keeps. One worker at a time has them, and none waits for them.
#[derive(Drop)]
pub struct Pool {
    desk: Desk<Shelf, Hand, Naming>,
    /// Of which forms there are names. It is a hint.
    stock: AtomicU64,
    /// How many words the nodes have that are named. It is a hint.
    words: AtomicU64,
}

impl Model for Pool {
    ghost use Rattle.atomic_table.specs.Seated.{TableId};

    ghost Value = { TableId };

    ghost view = { λ p. p.desk.table.shared.key.table_id };
}

/// Trades names with a shelf's.
fn trade_with(tree: &Tree, free: &mut Free, names: &mut Hand, shelf: Shelf, trade: Trade) -> Shelf
    requires mine { HasNames tree.now.nodes.table.shared.table_id free.old names.old }
    requires shelf { HasNames tree.now.nodes.table.shared.table_id shelf.free shelf.names }
    ensures names { HasNames tree.now.nodes.table.shared.table_id free.new names.new }
    ensures shelf { HasNames tree.now.nodes.table.shared.table_id result.free result.names }
{
    let mut hand = tree.hand();
    let now = tree.nodes.note(&mut hand);
    let mine = replace(names, now);
    let Shelf {
        free: mut others,
        names: seen,
    } = shelf;
    tree.nodes.heed(&mut hand, mine);
    tree.nodes.heed(&mut hand, seen);
    free.trade(&mut others, trade);
    *names = tree.nodes.note(&mut hand);
    let seen = tree.nodes.note(&mut hand);
    Shelf {
        free: others,
        names: seen,
    }
}

impl Pool {
    /// A pool for a tree, without names.
    pub fn new(alloc: Global, tree: &Tree) -> Result<Pool, AllocError>
        ensures { IfOk result (λ p. p ≡ tree.now.nodes.table.shared.table_id) }
    {
        let free = Free::new(alloc, 0)?;
        let mut hand = tree.hand();
        let names = tree.nodes.note(&mut hand);
        let desk = Desk::new(alloc, Shelf { free, names }, &hand)?;
        Ok(Pool {
            desk,
            stock: AtomicU64::new(0),
            words: AtomicU64::new(0),
        })
    }

    /// Of which forms there may be names: bit i tells it of form i.
    pub fn stocked(&self) -> u64 {
        self.stock.load(SeqCst)
    }

    /// How many words the nodes may have that are named.
    pub fn words(&self) -> u64 {
        self.words.load(SeqCst)
    }

    /// A trade of names of free nodes, or nothing where another worker trades. Tells whether it was made.
    pub fn trade(&self, tree: &Tree, free: &mut Free, names: &mut Hand, trade: Trade) -> bool
        requires same { self.now ≡ tree.now.nodes.table.shared.table_id }
        requires names { HasNames tree.now.nodes.table.shared.table_id free.old names.old }
        ensures { HasNames tree.now.nodes.table.shared.table_id free.new names.new }
    {
        let mut caller = self.desk.caller();
        let Some(shelf) = self.desk.take(&mut caller) else {
            return false;
        };
        let shelf = trade_with(tree, free, names, shelf, trade);
        self.stock.store(shelf.free.stocked(), SeqCst);
        self.words.store(shelf.free.words(), SeqCst);
        self.desk.give(&mut caller, shelf);
        true
    }
}
