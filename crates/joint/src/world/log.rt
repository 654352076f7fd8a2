//! What the machine writes down of its workers' calls.

ghost use Rattle.std.specs.Prelude.{◌≡◌, ◌<◌, ltb, None, [], ◌∷◌, ◌++◌, true, false, replicate, slice_set, IfOk};
ghost use Rattle.std.specs.Option.{option_copied};
ghost use Rattle.joint.specs.engine.Log.{has_room, is_full, opened_log, recounted, request_at, with_request};

use crate::engine::request::Request;
use judge::Entry;
use std::alloc::{AllocError, Global};
use std::marker::Model;

/// The entries of the calls that took effect, the places reserved for entries to come, and what each worker asked for.
#[derive(Drop)]
pub struct Log<P> {
    entries: Vec<Entry<P>>,
    /// The most entries; 0 where no journal is kept.
    places: usize,
    /// Places that writing calls in flight have reserved.
    reserved: usize,
    /// By the worker's place.
    requests: Vec<Option<Request<P>>>,
}

impl<P> Model for Log<P> {
    ghost use Rattle.std.specs.Coded.{codes};
    ghost use Rattle.std.specs.Prelude.{◌≤◌, ◌+◌, length, vec_capacity};
    ghost use Rattle.joint.specs.engine.Log as log;

    ghost Value = { log.Log P };

    ghost coded = { Prim.hlevel codes };

    ghost view = { λ l. record { entries = l.entries.items; places = l.places; reserved = l.reserved; requests = l.requests.items } };

    ghost invariant = { λ l. (l.places ≤ vec_capacity l.entries) × (length l.entries.items + l.reserved ≤ l.places) };
}

/// So many workers who have asked for nothing.
fn no_requests<P: Drop>(
    alloc: Global,
    workers: usize,
) -> Result<Vec<Option<Request<P>>>, AllocError>
    ensures { IfOk result (λ v. v.items ≡ replicate workers None) }
{
    let mut requests = Vec::with_capacity(alloc, workers)?;
    for _ in 0..workers {
        requests.push(None)?;
    }
    Ok(requests)
}

impl<P: Drop> Log<P> {
    /// Nothing written down, with room for so many entries.
    pub(crate) fn new(alloc: Global, workers: usize, places: usize) -> Result<Self, AllocError>
        ensures { IfOk result (λ l. l ≡ opened_log workers places) }
    {
        let entries = Vec::with_capacity(alloc, places)?;
        let requests = no_requests(alloc, workers)?;
        Ok(Log {
            entries,
            places,
            reserved: 0,
            requests,
        })
    }

    /// Whether a place is free that nobody has reserved.
    pub(crate) fn has_room(&self) -> bool
        ensures { result ≡ has_room self.now }
    {
        self.entries.len() + self.reserved < self.places
    }

    /// Whether a journal is kept.
    pub(crate) fn is_kept(&self) -> bool
        ensures { result ≡ ltb 0 self.now.places }
    {
        0 < self.places
    }

    /// Whether a journal is kept in which no such place is free.
    pub(crate) fn is_full(&self) -> bool
        ensures { result ≡ is_full self.now }
    {
        0 < self.places && !self.has_room()
    }

    /// A place is reserved or freed, by whether a step's call had one before it and has one after it.
    pub(crate) fn recount(&mut self, before: bool, after: bool)
        requires { before ≡ false → after ≡ true → is_full self.old ≡ false }
        ensures { self.new ≡ record self.old { reserved = recounted self.old.places before after self.old.reserved } }
    {
        self.reserved = recounted(self.places, before, after, self.reserved);
    }

    /// Writes an entry down.
    pub(crate) fn append(&mut self, entry: Entry<P>)
        requires { has_room self.old ≡ true }
        ensures { self.new ≡ record self.old { entries = self.old.entries ++ entry ∷ [] } }
    {
        self.entries.push_reserved(entry);
    }

    /// The entries, in the order in which the calls took effect.
    pub(crate) fn entries(&self) -> &[Entry<P>]
        ensures { result.now ≡ self.now.entries }
    {
        &self.entries
    }

    /// The same, as all that is left of it.
    pub(crate) fn into_entries(self) -> Vec<Entry<P>>
        ensures { result.items ≡ self.entries }
    {
        let Log { entries, .. } = self;
        entries
    }

    /// What a worker asked for.
    pub(crate) fn request(&self, who: usize) -> Option<&Request<P>>
        ensures { option_copied result ≡ request_at self.now.requests who }
    {
        match self.requests.get(who) {
            Some(Some(request)) => Some(request),
            _ => None,
        }
    }

    /// Puts another request in a worker's place, and answers the one before.
    pub(crate) fn put_request(
        &mut self,
        who: usize,
        request: Option<Request<P>>,
    ) -> Option<Request<P>>
        ensures before { result ≡ request_at self.old.requests who }
        ensures after { self.new ≡ record self.old { requests = slice_set self.old.requests who request } }
    {
        if who < self.requests.len() {
            std::mem::replace(&mut self.requests[who], request)
        } else {
            None
        }
    }

    /// Puts another request in a worker's place, where it is to be noted.
    #[inline(always)]
    pub(crate) fn put_request_if(&mut self, who: usize, on: bool, request: Option<Request<P>>)
        ensures { self.new ≡ with_request self.old who on request }
    {
        if !on {
            return;
        }
        if who < self.requests.len() {
            // Handed to `drop`: in place it would be a step for each variant.
            drop(std::mem::replace(&mut self.requests[who], request));
        }
    }
}

/// The places reserved after a step, of so many.
fn recounted(places: usize, before: bool, after: bool, reserved: usize) -> usize
    requires { before ≡ false → after ≡ true → 0 < places → reserved < places }
    ensures { result ≡ recounted places before after reserved }
{
    match (before, after) {
        (false, true) if 0 < places => reserved + 1,
        (true, false) if 0 < places => reserved.saturating_sub(1),
        _ => reserved,
    }
}
