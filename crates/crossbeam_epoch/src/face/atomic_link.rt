//! A pointer on which threads step without a lock.
//!
//! It is one word while it leads nowhere, or to a cell of the home collector: that of the first cell that it leads to. A
//! pointer to another collector's cell lies under a lock, and the word says so.

ghost use Rattle.std.specs.Prelude.{◌≡◌, ◌<◌, ◌%◌, IfSome};
ghost use Rattle.crossbeam_epoch.specs.face.Packed.{Says};

use crate::face::link::{Link, Tagged};
use crate::face::packed::{AWAY, pack, unpack};
use crate::names::Pointable;
use std::marker::PhantomData;
use std::sync::atomic::Ordering::SeqCst;
use std::sync::atomic::{AtomicIn, Rule};
use std::sync::{Mutex, OnceLock, Wait};

/// The rule of the word: its tag is below `T::ALIGN`.
pub struct Aligned<T> {
    of: PhantomData<T>,
}

impl<T: Pointable> Rule for Aligned<T> {
    ghost use Rattle.std.specs.Prelude.{◌<◌, ◌%◌};

    ghost invariant = { λ n. n % 256 < T.ALIGN };
}

/// A pointer that a step found there. The steps on the word alone tell it.
#[derive(Clone, Copy, Drop)]
pub struct Found {
    link: Link,
}

impl Found {
    /// The pointer.
    pub fn link(self) -> Link
        ensures { result ≡ self.link }
    {
        self.link
    }
}

/// That one step found a pointer there and wrote another one in its place. The steps on the word alone tell it.
#[derive(Clone, Copy, Drop)]
pub struct Replaced {
    found: Link,
    written: Link,
}

impl Replaced {
    /// The pointer before.
    pub fn found(self) -> Link
        ensures { result ≡ self.found }
    {
        self.found
    }

    /// The pointer that was written.
    pub fn written(self) -> Link
        ensures { result ≡ self.written }
    {
        self.written
    }
}

/// A pointer whose tag is below `T::ALIGN`.
#[derive(Drop)]
pub struct AtomicLink<T: Pointable> {
    /// The pointer, or `AWAY`.
    word: AtomicIn<Aligned<T>>,
    /// The number of the collector to whose cells the word leads.
    home: OnceLock<u64>,
    /// The pointer while the word is `AWAY`. The word becomes `AWAY`, and another one again, under this lock alone.
    away: Mutex<Tagged<T>>,
}

impl<T: Pointable> AtomicLink<T> {
    /// This pointer.
    pub fn new(tagged: Tagged<T>) -> Self {
        let link = tagged.load();
        let home = OnceLock::new();
        let word = pack_at(&home, link).unwrap_or(AWAY);
        AtomicLink {
            word: AtomicIn::new(word),
            home,
            away: Mutex::new(tagged),
        }
    }

    /// The pointer, at the end.
    pub fn into_inner(self) -> Link
        ensures { result.tag < T.ALIGN }
    {
        let AtomicLink { word, home, away } = self;
        match unpack(word.into_inner(), home.into_inner()) {
            Some(link) => link,
            None => away.into_inner().load(),
        }
    }

    /// The pointer.
    pub fn load<R: Wait>(&self, rt: &R) -> Found
        ensures { result.link.tag < T.ALIGN }
    {
        for _ in rt.forever() {
            let word = self.word.load(SeqCst);
            if let Some(link) = unpack(word, self.home()) {
                return Found { link };
            }
            let held = self.away.lock(rt);
            if self.word.load(SeqCst) == AWAY {
                return Found { link: held.load() };
            }
        }
        unreachable!()
    }

    /// Tries once to write `next` where the pointer is `before`. It can fail where it is, too.
    pub fn replace<R: Wait>(&self, rt: &R, before: Link, next: Link) -> Option<Replaced>
        requires { next.tag < T.ALIGN }
        ensures { IfSome result (λ r. (r.found ≡ before) × (r.written ≡ next) × (before.tag < T.ALIGN)) }
    {
        let (Some(old), Some(new)) = (pack(before, self.home()), pack_at(&self.home, next)) else {
            return self.replace_away(rt, before, next);
        };
        match self.word.compare_exchange(old, new, SeqCst, SeqCst) {
            Ok(_) => Some(Replaced {
                found: before,
                written: next,
            }),
            Err(found) if found == AWAY => self.replace_away(rt, before, next),
            Err(_) => None,
        }
    }

    /// The same under the lock.
    fn replace_away<R: Wait>(&self, rt: &R, before: Link, next: Link) -> Option<Replaced>
        requires { next.tag < T.ALIGN }
        ensures { IfSome result (λ r. (r.found ≡ before) × (r.written ≡ next) × (before.tag < T.ALIGN)) }
    {
        let mut held = self.away.lock(rt);
        self.bring(rt, &mut held);
        let done = held.update(before, next);
        self.settle(&held);
        if !done {
            return None;
        }
        Some(Replaced {
            found: before,
            written: next,
        })
    }

    /// Brings the pointer under the lock, which is held: until `settle` every step on it waits for the lock.
    pub fn bring<R: Wait>(&self, rt: &R, held: &mut Tagged<T>) {
        for _ in rt.forever() {
            let word = self.word.load(SeqCst);
            if word == AWAY {
                return;
            }
            let Some(link) = unpack(word, self.home()) else {
                continue;
            };
            *held = Tagged::new(link);
            if self
                .word
                .compare_exchange(word, AWAY, SeqCst, SeqCst)
                .is_ok()
            {
                return;
            }
        }
        unreachable!()
    }

    /// Puts the pointer back into the word, where it can say it. The lock is held.
    pub fn settle(&self, held: &Tagged<T>) {
        if let Some(word) = pack_at(&self.home, held.load()) {
            self.word.store(word, SeqCst);
        }
    }

    /// Its lock.
    pub fn lock(&self) -> &Mutex<Tagged<T>> {
        &self.away
    }

    /// The number of the home collector, once there is one.
    fn home(&self) -> Option<u64> {
        self.home.get().copied()
    }
}

/// The word that says this pointer, whose collector becomes the home one where there is none yet.
fn pack_at(home: &OnceLock<u64>, link: Link) -> Option<u64>
    ensures word { IfSome result (λ w. (h : _) × Says h w link) }
    ensures tag { IfSome result (λ w. w % 256 ≡ link.tag) }
{
    if let Some(site) = link.site
        && home.get().is_none()
    {
        let _ = home.try_set(site.collector);
    }
    pack(link, home.get().copied())
}
