//! The seats of the table of epoch and participants, and the rule that every step keeps.
//!
//! Word 0 is the epoch. Word 16 p + 16 is place p's: 0 where it is nobody's, 1 where its participant is unpinned, and
//! e + 2 where it is pinned at e. The factor keeps the words of two places 128 bytes apart.

ghost use Rattle.crossbeam_epoch.specs.face.Pins.{seat_arrived, seat_claimed, seat_counted, seat_looked, seat_published, seat_confirmed, seat_left, seat_released, seat_inspected, seat_advanced, newcomer, noted, with_note};

use atomic_table::{Join, Play, Seat, Split, Table, TableRule};
use std::alloc::Global;

/// How many places there are, and the last epoch.
#[derive(Clone, Copy, Drop)]
pub struct Extent {
    pub places: u32,
    pub epoch_max: u64,
}

/// What a seat knows. No value of it is made.
pub struct View {
    /// The place whose word is its own.
    pub place: Option<u64>,
    /// The epoch that its word publishes.
    pub at: Option<u64>,
    /// The epoch that was read after the publication.
    pub pin: Option<u64>,
    /// The last epoch that its own steps saw.
    pub seen: u64,
    /// It has passed the places below this one since it saw that epoch.
    pub passed: u64,
    /// So many places, from the lowest on, it has looked at for whether they are free,
    pub asked: u64,
    /// and so many of them were taken.
    pub taken: u64,
}

/// Whoever steps on the table keeps this.
pub struct Epochs;

impl TableRule<(), View, Extent> for Epochs {
    ghost use Rattle.crossbeam_epoch.specs.face.Pins.{IsKept, newcomer};

    ghost holds = { λ k. IsKept k.places k.epoch_max };

    ghost first = { λ _. newcomer };
}

/// The words of the epoch and of the participants.
pub type Words = Table<(), View, Extent, Epochs, Global>;

/// A seat at the words. It has no bytes.
pub type Token = Seat<(), View>;

/// A new seat looks at the epoch.
pub struct Arrive;

impl Play<(), View> for Arrive {
    ghost then = { seat_arrived };
}

/// A place is taken where it is free.
pub struct Claim;

impl Play<(), View> for Claim {
    ghost then = { seat_claimed };
}

/// A place is looked at for whether it is free.
pub struct Count;

impl Play<(), View> for Count {
    ghost then = { seat_counted };
}

/// The epoch is looked at; a scan of the places starts so too.
pub struct Look;

impl Play<(), View> for Look {
    ghost then = { seat_looked };
}

/// The own word says at which epoch its participant is pinned.
pub struct Publish;

impl Play<(), View> for Publish {
    ghost then = { seat_published };
}

/// The epoch is read after the publication.
pub struct Confirm;

impl Play<(), View> for Confirm {
    ghost then = { seat_confirmed };
}

/// The own word says that its participant isn't pinned.
pub struct Leave;

impl Play<(), View> for Leave {
    ghost then = { seat_left };
}

/// The own word says that the place is nobody's.
pub struct Release;

impl Play<(), View> for Release {
    ghost then = { seat_released };
}

/// One place is looked at in a scan.
pub struct Inspect;

impl Play<(), View> for Inspect {
    ghost then = { seat_inspected };
}

/// The epoch goes on by one where it is the one that was seen.
pub struct Advance;

impl Play<(), View> for Advance {
    ghost then = { seat_advanced };
}

/// A seat gives a note of the epoch that it saw last.
pub struct Noting;

impl Split<View> for Noting {
    ghost left = { λ v. v };

    ghost right = { noted };
}

/// A seat takes another one's note in.
pub struct Heeding;

impl Join<View> for Heeding {
    ghost both = { with_note };

    ghost spent = { newcomer };
}
