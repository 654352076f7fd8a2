//! The epoch and the participants' words. Threads step on them without a lock.

mod attempt;

ghost use Rattle.std.specs.Prelude.{◌≡◌, true, false, ◌<◌, ◌≤◌, ◌+◌, ◌^◌, None, Some, IfOk, IfErr, MatchOption};
ghost use Rattle.crossbeam_epoch.specs.face.Attempt.{IsAttempt};
ghost use Rattle.crossbeam_epoch.specs.face.Pins.{word_of, newcomer, noted, with_seen, IsRead, Passes};
ghost use Rattle.crossbeam_epoch.specs.face.Tokens.{known, IsOf, unpinned_view, pinned_view};

use crate::face::seats::{
    Arrive, Claim, Confirm, Count, Extent, Heeding, Leave, Look, Noting, Publish, Release, Token,
    Words,
};
use crate::fault::Fault;
use atomic_table::Table;
pub use attempt::Attempt;
use std::alloc::{AllocError, Global};

/// The number in the word of a place that is nobody's.
const FREE: u64 = 0;

/// The number in the word of a participant that isn't pinned.
const UNPINNED: u64 = 1;

/// The number in the word of a participant that is pinned at this epoch.
fn pinned(epoch: u64) -> u64
    requires { epoch ≤ 2 ^ 62 }
    ensures { result ≡ epoch + 2 }
{
    epoch + 2
}

/// The index of a place's word.
fn word_of(place: u32) -> usize
    ensures { result ≡ word_of place }
{
    16 * place as usize + 16
}

/// Whether a scan that saw this epoch passes a place.
fn passes(number: u64, seen: u64) -> bool
    requires { seen ≤ 2 ^ 62 }
    ensures passed { result ≡ true → Passes seen number }
    ensures stopped { result ≡ false → ¬ Passes seen number }
{
    number == FREE || number == UNPINNED || number == pinned(seen)
}

/// The refusal while so many places are taken.
fn refusal(taken: u32) -> Option<Fault>
    ensures { MatchOption result (taken ≡ 0) (λ f. (0 < taken) × (f ≡ Fault.Registered taken)) }
{
    if taken > 0 {
        return Some(Fault::Registered(taken));
    }
    None
}

/// What a participant's word publishes, and an epoch that was read after it.
#[derive(Clone, Copy, Drop)]
pub struct Pin {
    pub at: u64,
    pub epoch: u64,
    ghost later: { at ≤ epoch },
}

/// The words of a collector.
#[derive(Drop)]
pub struct Pins {
    words: Words,
    places: u32,
    epoch_max: u64,
    ghost sized: { words.shared.table_id.words ≡ word_of places },
    ghost places_are: { words.shared.key.places ≡ places },
    ghost last_is: { words.shared.key.epoch_max ≡ epoch_max },
}

/// That a collector's words are closed, so that nobody steps on them any more.
#[derive(Drop)]
pub struct Ended {
    places: u32,
}

impl Pins {
    /// Epoch 0, and so many places, which are free.
    pub fn new(alloc: Global, places: u32, epoch_max: u64) -> Result<Pins, AllocError>
        requires { epoch_max ≤ 2 ^ 62 }
        ensures { IfOk result (λ p. (p.places ≡ places) × (p.epoch_max ≡ epoch_max)) }
    {
        let words = Vec::from_elem(alloc, FREE, word_of(places))?;
        let extent = Extent { places, epoch_max };
        let (words, _seat) = Table::of_words(alloc, words.as_slice(), &extent)?;
        Ok(Pins {
            words,
            places,
            epoch_max,
        })
    }

    /// A seat of its own for the caller, and the place that it takes: each is tried once, the lowest one first. Where each
    /// was taken, the seat that found so.
    pub fn register(&self) -> Result<(Token, u32), Token>
        ensures ok { IfOk result (λ r. (r.1 < self.now.places) × IsOf self.now.words.shared.table_id r.0 × (known r.0 ≡ unpinned_view r.1 (known r.0).seen 0)) }
        ensures full { IfErr result (λ t. (known t).taken ≡ self.now.places) }
    {
        let mut token = self.words.shared.load_new_seat::<Arrive>(0).1;
        for place in 0..self.places {
            let shared = &self.words.shared;
            let found = shared.compare_exchange::<Claim>(
                &mut token,
                word_of(place),
                FREE,
                UNPINNED,
            );
            if found == FREE {
                return Ok((token, place));
            }
        }
        Err(token)
    }

    /// Gives the place up, and the seat.
    pub fn release(&self, mut token: Token, place: u32)
        requires of { IsOf self.now.words.shared.table_id token }
        requires own { (place < self.now.places) × ((known token).place ≡ Some place) }
    {
        self.words
            .shared
            .store::<Release>(&mut token, word_of(place), FREE);
    }

    /// Reads the epoch.
    pub fn look(&self, token: &mut Token) -> u64
        requires of { IsOf self.now.words.shared.table_id token.old }
        ensures of { IsOf self.now.words.shared.table_id token.new }
        ensures view { known token.new ≡ with_seen (known token.old) result }
        ensures read { IsRead (known token.old) result }
    {
        self.words.shared.load::<Look>(token, 0)
    }

    /// A note of the epoch that this seat saw last.
    pub fn note(&self, token: &mut Token) -> Token
        requires of { IsOf self.now.words.shared.table_id token.old }
        ensures of { IsOf self.now.words.shared.table_id token.new × IsOf self.now.words.shared.table_id result }
        ensures view { known token.new ≡ known token.old }
        ensures note { known result ≡ noted (known token.old) }
    {
        self.words.shared.split_seat::<Noting>(token)
    }

    /// Takes a note of another seat in, and reads the epoch.
    pub fn heed(&self, token: &mut Token, note: Token) -> u64
        requires of { IsOf self.now.words.shared.table_id token.old × IsOf self.now.words.shared.table_id note }
        requires note { known note ≡ with_seen newcomer (known note).seen }
        ensures of { IsOf self.now.words.shared.table_id token.new }
        ensures view { known token.new ≡ with_seen (known token.old) result }
        ensures read { IsRead (known token.old) result }
        ensures later { (known note).seen ≤ result }
    {
        self.words.shared.join_seat::<Heeding>(token, note);
        self.look(token)
    }

    /// Publishes that the place's participant is pinned at this epoch, which it saw last, and confirms it.
    fn publish(&self, token: &mut Token, place: u32, at: u64) -> Pin
        requires of { IsOf self.now.words.shared.table_id token.old }
        requires own { (place < self.now.places) × ((known token.old).place ≡ Some place) }
        requires seen { ((known token.old).seen ≡ at) × (at ≤ 2 ^ 62) }
        ensures of { IsOf self.now.words.shared.table_id token.new }
        ensures view { known token.new ≡ pinned_view place at result.epoch result.epoch 0 }
        ensures pin { (result.at ≡ at) × (result.epoch ≤ 2 ^ 62) }
    {
        let shared = &self.words.shared;
        shared.store::<Publish>(token, word_of(place), pinned(at));
        let epoch = shared.load::<Confirm>(token, 0);
        Pin { at, epoch }
    }

    /// Pins a place's participant, which is unpinned: looks, publishes, and confirms.
    pub fn pin(&self, token: &mut Token, place: u32) -> Pin
        requires of { IsOf self.now.words.shared.table_id token.old }
        requires own { place < self.now.places }
        requires unpinned { known token.old ≡ unpinned_view place (known token.old).seen (known token.old).passed }
        ensures of { IsOf self.now.words.shared.table_id token.new }
        ensures view { known token.new ≡ pinned_view place result.at result.epoch result.epoch 0 }
    {
        let at = self.look(token);
        self.publish(token, place, at)
    }

    /// Pins a place's participant anew, where the epoch isn't the one that its word publishes.
    pub fn repin(&self, token: &mut Token, place: u32, was: Pin) -> Pin
        requires of { IsOf self.now.words.shared.table_id token.old }
        requires own { place < self.now.places }
        requires pinned { known token.old ≡ pinned_view place was.at was.epoch (known token.old).seen (known token.old).passed }
        ensures of { IsOf self.now.words.shared.table_id token.new }
        ensures view { known token.new ≡ pinned_view place result.at result.epoch result.epoch 0 }
    {
        let at = self.look(token);
        if at == was.at {
            return was;
        }
        self.publish(token, place, at)
    }

    /// Takes the pin of a place's participant away.
    pub fn unpin(&self, token: &mut Token, place: u32)
        requires of { IsOf self.now.words.shared.table_id token.old }
        requires own { (place < self.now.places) × ((known token.old).place ≡ Some place) }
        ensures of { IsOf self.now.words.shared.table_id token.new }
        ensures view { known token.new ≡ unpinned_view place (known token.old).seen (known token.old).passed }
    {
        self.words
            .shared
            .store::<Leave>(token, word_of(place), UNPINNED);
    }

    /// Tries once to advance the epoch: looks at it, inspects each place, and where all were passed puts the next one in
    /// its place, unless another was faster. Answers the epoch that it saw last, and how the attempt ended.
    pub fn advance(&self, token: &mut Token) -> (u64, Attempt)
        requires of { IsOf self.now.words.shared.table_id token.old }
        ensures of { IsOf self.now.words.shared.table_id token.new }
        ensures view { known token.new ≡ record (known token.old) { seen = result.0; passed = (known token.new).passed } }
        ensures read { IsRead (known token.old) result.0 }
        ensures attempt { IsAttempt self.now.epoch_max result.1 result.0 }
    {
        let seen = self.look(token);
        if let Some(last) = self.at_last(seen) {
            return (seen, last);
        }
        if let Some(stopped) = self.scan(token, seen) {
            return (seen, stopped);
        }
        self.raise(token, seen)
    }

    /// `Registered(n)` where n places aren't free, with the seat that found so: it looked at each.
    pub fn registered(&self) -> (Option<Fault>, Token)
        ensures seat { IsOf self.now.words.shared.table_id result.1 × ((known result.1).asked ≡ self.now.places) }
        ensures fault { MatchOption result.0 ((known result.1).taken ≡ 0) (λ f. (0 < (known result.1).taken) × (f ≡ Fault.Registered (known result.1).taken)) }
    {
        let mut token = self.words.shared.load_new_seat::<Arrive>(0).1;
        let mut taken = 0;
        for place in 0..self.places {
            if self.words.shared.load::<Count>(&mut token, word_of(place)) != FREE {
                taken += 1;
            }
        }
        (refusal(taken), token)
    }

    /// Closes the words, once a seat found each place to be free.
    pub fn close(self, _seat: &Token) -> Ended
        requires of { IsOf self.words.shared.table_id _seat.now }
        requires free { ((known _seat.now).asked ≡ self.places) × ((known _seat.now).taken ≡ 0) }
        ensures { result.places ≡ self.places }
    {
        let Pins {
            words,
            places,
            epoch_max: _,
        } = self;
        drop(words);
        Ended { places }
    }
}
