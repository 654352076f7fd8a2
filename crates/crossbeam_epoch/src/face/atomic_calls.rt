//! Calls on a pointer that threads share: each reads it, and tries a step on it until that is done.

ghost use Rattle.std.specs.Prelude.{◌≡◌, ◌≢◌, ◌<◌, ◌%◌, MatchResult};
ghost use Rattle.crossbeam_epoch.specs.Tags.{changed};

use crate::face::atomic_link::{AtomicLink, Found, Replaced};
use crate::face::link::Link;
use crate::names::Pointable;
use crate::tag::TagCall;
use std::sync::Wait;

impl<T: Pointable> AtomicLink<T> {
    /// Writes this pointer, whatever stands there.
    pub fn swap<R: Wait>(&self, rt: &R, new: Link) -> Replaced
        requires { new.tag < T.ALIGN }
        ensures { (result.written ≡ new) × (result.found.tag < T.ALIGN) }
    {
        for _ in rt.forever() {
            let before = self.load(rt).link();
            if let Some(done) = self.replace(rt, before, new) {
                return done;
            }
        }
        unreachable!()
    }

    /// Writes `new` where the pointer is `current`, or gives the pointer.
    pub fn exchange<R: Wait>(&self, rt: &R, current: Link, new: Link) -> Result<Replaced, Found>
        requires { new.tag < T.ALIGN }
        ensures { MatchResult result
            (λ r. (r.found ≡ current) × (r.written ≡ new) × (current.tag < T.ALIGN))
            (λ now. (now.link ≢ current) × (now.link.tag < T.ALIGN)) }
    {
        for _ in rt.forever() {
            if let Some(done) = self.replace(rt, current, new) {
                return Ok(done);
            }
            let now = self.load(rt);
            if now.link() != current {
                return Err(now);
            }
        }
        unreachable!()
    }

    /// Changes the tag so with the bits of the number modulo `T::ALIGN`.
    pub fn change<R: Wait>(&self, rt: &R, call: TagCall, number: usize) -> Replaced
        ensures found { result.found.tag < T.ALIGN }
        ensures written { result.written ≡ record result.found { tag = changed call result.found.tag (number % T.ALIGN) } }
    {
        for _ in rt.forever() {
            let before = self.load(rt).link();
            let next = Link {
                site: before.site,
                tag: call.changed::<T>(before.tag, number),
            };
            if let Some(done) = self.replace(rt, before, next) {
                return done;
            }
        }
        unreachable!()
    }
}
