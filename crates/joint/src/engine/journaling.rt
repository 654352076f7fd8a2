//! What a call on the tree is about, as far as its entry in a journal goes.

ghost use Rattle.std.specs.Prelude.{◌≡◌, true, slice_get};
ghost use Rattle.std.specs.Option.{option_copied};
ghost use Rattle.joint.specs.engine.Journaling.{asks_at, has_place, is_writing, reply_at, reply_by};

use crate::engine::Engine;
use crate::engine::in_flight::InFlight;
use crate::engine::request::copy_reply;
use crate::steps::{Done, Outcome};
use congee::{Allocator, Payload, Small};
use judge::Reply;

impl<P: Payload + Small, A: Allocator> Engine<P, A> {
    /// Whether the next step of a worker's call takes its closure's answer.
    pub(crate) fn asks(&self, who: usize) -> bool
        ensures { result ≡ asks_at (slice_get self.now.machines.items who) }
    {
        match self.machines.get(who) {
            Some(machine) => machine.asks(),
            None => false,
        }
    }

    /// Whether a place of the journal is reserved for a worker's call.
    pub(crate) fn has_place(&self, who: usize) -> bool
        ensures { result ≡ has_place (slice_get self.now.calls.items who) (slice_get self.now.machines.items who) }
    {
        match self.calls.get(who) {
            Some(InFlight::Securing(_)) => true,
            Some(InFlight::Walking) => self.is_writing(who),
            // There is none, it is no writing call, or it has taken no step.
            _ => false,
        }
    }

    /// Whether a worker's call on the tree is a writing one that has yet to take effect.
    fn is_writing(&self, who: usize) -> bool
        ensures { result ≡ is_writing (slice_get self.now.machines.items who) }
    {
        match self.machines.get(who) {
            Some(machine) => machine.may_write() && machine.is_pending(),
            None => false,
        }
    }

    /// The reply of a worker's call that took effect and has locks to let go; `None` also where a value can't be copied.
    fn reply_held(&self, who: usize) -> Option<Reply<P>>
        ensures always { P.always_copies ≡ true → result ≡ reply_at (slice_get self.now.machines.items who) }
    {
        match self.machines.get(who) {
            Some(machine) => copy_held(machine.reply()),
            None => None,
        }
    }

    /// The reply of a worker's call that took effect in a step with this outcome; `None` also where a value can't be copied.
    pub(crate) fn reply(&self, who: usize, outcome: &Outcome<P>) -> Option<Reply<P>>
        ensures always { P.always_copies ≡ true → result ≡ reply_by outcome.now (slice_get self.now.machines.items who) }
    {
        match outcome {
            Outcome::Running => self.reply_held(who),
            Outcome::Done(Done::Reply(reply)) => copy_reply(reply),
            // It asks, has found a pair or was refused, or it is no call on one key.
            _ => None,
        }
    }
}

/// An equal reply, where there is one; `None` also where a value can't be copied.
fn copy_held<P: Payload>(reply: Option<&Reply<P>>) -> Option<Reply<P>>
    ensures always { P.always_copies ≡ true → result ≡ option_copied reply.entry }
{
    copy_reply(reply?)
}
