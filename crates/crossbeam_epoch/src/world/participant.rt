//! The table's places, and where a call stands.

ghost use Rattle.std.specs.Prelude.{◌≡◌, ◌+◌, ◌∷◌, [], ◌==◌, ◌&&◌, nat_le, nat_lt, if◌then◌else◌};
ghost use Rattle.crossbeam_epoch.specs.world.Machine.{blank, ends_advance, is_at, published, relooked, repinned, secured};
ghost use Rattle.crossbeam_epoch.specs.world.Steps.{begin_fault, begun_at, outcome_at, outcome_or, place_or, quiet_fault};
ghost use Rattle.crossbeam_epoch.specs.Limits.{bag_places};

use crate::bag::{BAG, Bag, Deferral};
use crate::fault::Fault;
use crate::world::report::{Op, Outcome};
use std::mem;

/// Where a call stands between two of its steps, and what it goes on with.
#[derive(Clone, Copy, Debug, PartialEq, Eq, Drop)]
pub enum Phase {
    /// No call is in flight.
    Idle,
    /// A pin reads the epoch next.
    Look,
    /// A pin publishes the epoch that it read next.
    Publish(u64),
    /// A repin reads the epoch next.
    RepinLook,
    /// A repin publishes the epoch that it read next.
    RepinPublish(u64),
    /// A flush reads the epoch for its bag next.
    Seal,
    /// A flush queues its bag under this seal next.
    Queue(u64),
    /// A leave reads the epoch for its bag next.
    ReleaseSeal,
    /// A leave queues its bag under this seal and goes next.
    ReleaseQueue(u64),
    /// A securing looks next whether so many places of the bag are free.
    Secure(u8),
    /// A securing reads the epoch for its bag next.
    SecureSeal,
    /// A securing queues its bag under this seal next.
    SecureQueue(u64),
    /// A collection reads the epoch next.
    Load,
    /// A collection read this epoch, and looks at this place next.
    Inspect(u64, usize),
    /// A collection read this epoch, passed every place, and advances next.
    Advance(u64),
    /// A collection's advance answered this epoch; with so many bags taken, it looks for another next.
    Take(u64, u8),
    /// The same, which calls the first job of its hand next; the hand's bag has this seal.
    Call(u64, u8, u64),
}

/// A place of the table.
#[derive(Drop)]
pub struct Participant<J> {
    pub registered: bool,
    /// The epoch at which it is pinned.
    pub word: Option<u64>,
    pub guards: u16,
    /// First-level pins, modulo 128.
    pub pins: u8,
    /// Jobs that aren't sealed yet.
    pub bag: Bag<J>,
    /// Jobs of a taken bag that aren't called yet.
    pub hand: Bag<J>,
    pub phase: Phase,
}

impl<J> Participant<J> {
    /// A pin begins: without a guard it looks at the epoch next, else it takes one more.
    fn begin_pin(&mut self) -> Outcome
        requires idle { self.old.phase ≡ Phase.Idle }
        ensures place { self.new ≡ place_or (begin_fault Op.Pin self.old) (begun_at Op.Pin self.old) self.old }
        ensures outcome { result ≡ outcome_or (begin_fault Op.Pin self.old) (begun_at Op.Pin self.old) }
    {
        if self.guards == 65_535 {
            Outcome::Refused(Fault::Count)
        } else if self.word.is_none() {
            self.phase = Phase::Look;
            Outcome::Running
        } else {
            self.guards += 1;
            Outcome::Done
        }
    }

    /// An unpin gives one guard back; with the last one the word becomes unpinned.
    fn begin_unpin(&mut self) -> Outcome
        requires idle { self.old.phase ≡ Phase.Idle }
        ensures place { self.new ≡ place_or (begin_fault Op.Unpin self.old) (begun_at Op.Unpin self.old) self.old }
        ensures outcome { result ≡ outcome_or (begin_fault Op.Unpin self.old) (begun_at Op.Unpin self.old) }
    {
        if self.word.is_none() {
            return Outcome::Refused(Fault::Unpinned);
        }
        if self.guards <= 1 {
            self.word = None;
            self.guards = 0;
        } else {
            self.guards -= 1;
        }
        Outcome::Done
    }

    /// A repin begins: under more than one guard it does nothing.
    fn begin_repin(&mut self) -> Outcome
        requires idle { self.old.phase ≡ Phase.Idle }
        ensures place { self.new ≡ place_or (begin_fault Op.Repin self.old) (begun_at Op.Repin self.old) self.old }
        ensures outcome { result ≡ outcome_or (begin_fault Op.Repin self.old) (begun_at Op.Repin self.old) }
    {
        if self.word.is_none() {
            Outcome::Refused(Fault::Unpinned)
        } else if self.guards <= 1 {
            self.phase = Phase::RepinLook;
            Outcome::Running
        } else {
            Outcome::Done
        }
    }

    /// A first-level pin publishes the epoch that it read; each 128th goes on to collect, the first among them.
    pub(crate) fn publish(&mut self, seen: u64) -> Outcome
        ensures place { self.new ≡ published seen self.old }
        ensures outcome { result ≡ outcome_at self.new.phase }
    {
        self.word = Some(seen);
        self.guards = 1;
        self.phase = after_pin(self.pins);
        self.pins = one_more_pin(self.pins);
        outcome_at(self.phase)
    }

    /// A repin reads the epoch, and ends where it is the word's.
    pub(crate) fn look_again(&mut self, epoch: u64) -> Outcome
        ensures place { self.new ≡ relooked epoch self.old }
        ensures outcome { result ≡ outcome_at self.new.phase }
    {
        self.phase = if self.is_pinned_at(epoch) {
            Phase::Idle
        } else {
            Phase::RepinPublish(epoch)
        };
        outcome_at(self.phase)
    }

    /// A repin publishes the epoch that it read.
    pub(crate) fn publish_again(&mut self, seen: u64) -> Outcome
        ensures place { self.new ≡ repinned seen self.old }
        ensures outcome { result ≡ Outcome.Done }
    {
        self.word = Some(seen);
        self.phase = Phase::Idle;
        Outcome::Done
    }

    /// Whether it is pinned at this epoch.
    fn is_pinned_at(&self, epoch: u64) -> bool
        ensures { result ≡ is_at self.now.word epoch }
    {
        match self.word {
            Some(word) => word == epoch,
            None => false,
        }
    }

    /// Whether it is pinned at another epoch.
    pub(crate) fn is_elsewhere(&self, seen: u64) -> bool
        ensures { result ≡ ends_advance self.now.word seen }
    {
        match self.word {
            Some(word) => word != seen,
            None => false,
        }
    }

    /// A securing looks whether so many places of the bag are free.
    pub(crate) fn secure(&mut self, n: u8) -> Outcome
        ensures place { self.new ≡ secured n self.old }
        ensures outcome { result ≡ outcome_at self.new.phase }
    {
        let free = self.bag.len() + usize::from(n) <= BAG;
        self.phase = if free { Phase::Idle } else { Phase::SecureSeal };
        outcome_at(self.phase)
    }

    /// The fault of a deferral here, Count and Memory aside.
    pub(crate) fn quiet_fault(&self) -> Option<Fault>
        ensures { result ≡ quiet_fault self.now.phase self.now }
    {
        match self.phase {
            Phase::Idle => {
                if self.word.is_none() {
                    Some(Fault::Unpinned)
                } else {
                    None
                }
            }
            _ => Some(Fault::InCall),
        }
    }

    /// A securing begins.
    fn begin_secure(&mut self, n: u8) -> Outcome
        requires idle { self.old.phase ≡ Phase.Idle }
        ensures place { self.new ≡ place_or (begin_fault (Op.Secure n) self.old) (begun_at (Op.Secure n) self.old) self.old }
        ensures outcome { result ≡ outcome_or (begin_fault (Op.Secure n) self.old) (begun_at (Op.Secure n) self.old) }
    {
        if self.word.is_none() {
            Outcome::Refused(Fault::Unpinned)
        } else if !is_secured_size(n) {
            Outcome::Refused(Fault::Limits)
        } else {
            self.phase = Phase::Secure(n);
            Outcome::Running
        }
    }
}

impl<J: Drop> Participant<J> {
    /// A place that nobody holds.
    pub(crate) fn blank() -> Participant<J>
        ensures { result ≡ blank }
    {
        Participant {
            registered: false,
            word: None,
            guards: 0,
            pins: 0,
            bag: Bag::new(),
            hand: Bag::new(),
            phase: Phase::Idle,
        }
    }

    /// The bag goes to the queue, and the call goes on so.
    pub(crate) fn give_bag(&mut self, next: Phase) -> Bag<J>
        ensures bag { result ≡ self.old.bag }
        ensures place { self.new ≡ record self.old { bag = []; phase = next } }
    {
        self.phase = next;
        mem::replace(&mut self.bag, Bag::new())
    }

    /// A new bag holds this job alone, and the old one goes to the queue.
    pub(crate) fn start_bag(&mut self, entry: Deferral<J>) -> Bag<J>
        ensures bag { result ≡ self.old.bag }
        ensures place { self.new ≡ record self.old { bag = entry ∷ [] } }
    {
        let mut bag = Bag::new();
        bag.push(entry);
        mem::replace(&mut self.bag, bag)
    }

    /// A collection goes on to call these jobs.
    pub(crate) fn call_from(&mut self, jobs: Bag<J>, next: Phase)
        ensures { self.new ≡ record self.old { hand = jobs; phase = next } }
    {
        self.hand = jobs;
        self.phase = next;
    }

    /// A flush begins: a bag that isn't empty is sealed first.
    fn begin_flush(&mut self) -> Outcome
        requires idle { self.old.phase ≡ Phase.Idle }
        ensures place { self.new ≡ place_or (begin_fault Op.Flush self.old) (begun_at Op.Flush self.old) self.old }
        ensures outcome { result ≡ outcome_or (begin_fault Op.Flush self.old) (begun_at Op.Flush self.old) }
    {
        if self.word.is_none() {
            Outcome::Refused(Fault::Unpinned)
        } else if self.bag.is_empty() {
            self.phase = Phase::Load;
            Outcome::Running
        } else {
            self.phase = Phase::Seal;
            Outcome::Running
        }
    }

    /// A leave begins: with an empty bag the place is free at once.
    fn begin_release(&mut self) -> Outcome
        requires idle { self.old.phase ≡ Phase.Idle }
        ensures place { self.new ≡ place_or (begin_fault Op.Release self.old) (begun_at Op.Release self.old) self.old }
        ensures outcome { result ≡ outcome_or (begin_fault Op.Release self.old) (begun_at Op.Release self.old) }
    {
        if self.word.is_some() {
            Outcome::Refused(Fault::GuardOut)
        } else if self.bag.is_empty() {
            *self = Participant::blank();
            Outcome::Done
        } else {
            self.phase = Phase::ReleaseSeal;
            Outcome::Running
        }
    }

    /// A call begins at a place without a call in flight, or is refused.
    pub(crate) fn begin(&mut self, op: Op) -> Outcome
        requires idle { self.old.phase ≡ Phase.Idle }
        ensures place { self.new ≡ place_or (begin_fault op self.old) (begun_at op self.old) self.old }
        ensures outcome { result ≡ outcome_or (begin_fault op self.old) (begun_at op self.old) }
    {
        match op {
            Op::Pin => self.begin_pin(),
            Op::Unpin => self.begin_unpin(),
            Op::Repin => self.begin_repin(),
            Op::Flush => self.begin_flush(),
            Op::Release => self.begin_release(),
            Op::Secure(n) => self.begin_secure(n),
        }
    }
}

/// The count of first-level pins after one more, modulo 128.
fn one_more_pin(pins: u8) -> u8
    ensures { result ≡ (if nat_lt pins 127 then pins + 1 else 0) }
{
    if pins < 127 { pins + 1 } else { 0 }
}

/// Where a first-level pin goes on after so many: each 128th collects, the first among them.
fn after_pin(pins: u8) -> Phase
    ensures { result ≡ (if pins == 0 then Phase.Load else Phase.Idle) }
{
    if pins == 0 { Phase::Load } else { Phase::Idle }
}

/// Whether a securing may be for so many places.
fn is_secured_size(n: u8) -> bool
    ensures { result ≡ (nat_lt 0 n && nat_le n bag_places) }
{
    n > 0 && usize::from(n) <= BAG
}

/// Whether the call goes on.
pub(crate) fn outcome_at(phase: Phase) -> Outcome
    ensures { result ≡ outcome_at phase }
{
    match phase {
        Phase::Idle => Outcome::Done,
        _ => Outcome::Running,
    }
}
