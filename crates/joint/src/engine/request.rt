//! What a worker asked for, kept while its call is in flight.

ghost use Rattle.std.specs.Prelude.{◌≡◌, None, true, IfSome, IsSome};
ghost use Rattle.joint.specs.engine.Journaling.{call_of, given_by};
ghost use Rattle.joint.specs.engine.Log.{with_answer, with_none};

use crate::steps::Op;
use judge::{Call, Payload, Reply};

/// A call in flight as its worker asked for it.
#[derive(Debug, PartialEq, Eq, Drop)]
pub struct Request<P> {
    /// The call.
    pub op: Op<P>,
    /// The last answer of its closure that it took, if it took one.
    pub answer: Option<Option<P>>,
}

impl<P: Payload> Request<P> {
    /// A call that has taken no answer yet; `None` where a value can't be copied.
    pub(crate) fn of(op: &Op<P>) -> Option<Self>
        ensures equal { IfSome result (λ q. q ≡ record { op = op.now; answer = None }) }
        ensures always { P.always_copies ≡ true → IsSome result }
    {
        let op = match op {
            Op::Pin => Op::Pin,
            Op::Unpin => Op::Unpin,
            Op::Repin => Op::Repin,
            Op::Flush => Op::Flush,
            Op::Release => Op::Release,
            Op::Get(key) => Op::Get(*key),
            Op::Insert(key, value) => Op::Insert(*key, value.copy()?),
            Op::Remove(key) => Op::Remove(*key),
            Op::ComputePresent(key) => Op::ComputePresent(*key),
            Op::ComputeInsert(key) => Op::ComputeInsert(*key),
            Op::Exchange(key, old, new) => Op::Exchange(*key, old.copy()?, copy_value(new)?),
            Op::Range(start, end, size) => Op::Range(*start, *end, *size),
            Op::RangeInclusive(start, last, size) => Op::RangeInclusive(*start, *last, *size),
            Op::Keys => Op::Keys,
            Op::IsEmpty => Op::IsEmpty,
            Op::Stats => Op::Stats,
        };
        Some(Request { op, answer: None })
    }

    /// The call takes the answer, or none came; `None` where a value can't be copied.
    pub(crate) fn with_answer(self, answer: &Option<Option<P>>) -> Option<Self>
        ensures equal { IfSome result (λ q. q ≡ with_answer answer.now self) }
        ensures always { P.always_copies ≡ true → IsSome result }
    {
        match answer {
            None => Some(self),
            Some(None) => Some(self.without()),
            Some(Some(value)) => Some(Request {
                op: self.op,
                answer: Some(Some(value.copy()?)),
            }),
        }
    }

    /// The answer is to take the key out, which is none where a value is wanted.
    fn without(self) -> Self
        ensures { result ≡ record { op = self.op; answer = with_none self.op self.answer } }
    {
        match self.op {
            Op::ComputeInsert(_) => self,
            op => Request {
                op,
                answer: Some(None),
            },
        }
    }

    /// The call with its closure's last answer, as a journal has it with this reply; `None` of a call on no key, and where
    /// a value can't be copied.
    pub(crate) fn call(&self, reply: &Reply<P>) -> Option<Call<P>>
        ensures equal { IfSome result (λ c. call_of self.now.op self.now.answer reply.now ≡ Some c) }
        ensures always { P.always_copies ≡ true → result ≡ call_of self.now.op self.now.answer reply.now }
    {
        match &self.op {
            Op::Get(key) => Some(Call::Get(*key)),
            Op::Insert(key, value) => Some(Call::Insert(*key, value.copy()?)),
            Op::Remove(key) => Some(Call::Remove(*key)),
            Op::ComputePresent(key) => match reply {
                Reply::ComputePresent(None) => Some(Call::ComputePresent(*key, None)),
                _ => Some(Call::ComputePresent(*key, given(&self.answer)?)),
            },
            Op::ComputeInsert(key) => Some(Call::ComputeInsert(*key, given(&self.answer)??)),
            Op::Exchange(key, old, new) => {
                Some(Call::Exchange(*key, old.copy()?, copy_value(new)?))
            }
            // No other call is on one key.
            _ => None,
        }
    }
}

/// An equal value, where there is one.
fn copy_value<P: Payload>(value: &Option<P>) -> Option<Option<P>>
    ensures equal { IfSome result (λ v. v ≡ value.now) }
    ensures always { P.always_copies ≡ true → IsSome result }
{
    match value {
        None => Some(None),
        Some(value) => Some(Some(value.copy()?)),
    }
}

/// What an answer puts at its key.
fn given<P: Payload>(answer: &Option<Option<P>>) -> Option<Option<P>>
    ensures equal { IfSome result (λ v. v ≡ given_by answer.now) }
    ensures always { P.always_copies ≡ true → IsSome result }
{
    match answer {
        None => Some(None),
        Some(value) => copy_value(value),
    }
}

/// An equal reply.
pub(crate) fn copy_reply<P: Payload>(reply: &Reply<P>) -> Option<Reply<P>>
    ensures equal { IfSome result (λ r. r ≡ reply.now) }
    ensures always { P.always_copies ≡ true → IsSome result }
{
    Some(match reply {
        Reply::Get(found) => Reply::Get(copy_value(found)?),
        Reply::Insert(before) => Reply::Insert(copy_value(before)?),
        Reply::Remove(before) => Reply::Remove(copy_value(before)?),
        Reply::ComputePresent(None) => Reply::ComputePresent(None),
        Reply::ComputePresent(Some((old, new))) => {
            Reply::ComputePresent(Some((old.copy()?, copy_value(new)?)))
        }
        Reply::ComputeInsert(before) => Reply::ComputeInsert(copy_value(before)?),
        Reply::Exchange(Ok(new)) => Reply::Exchange(Ok(copy_value(new)?)),
        Reply::Exchange(Err(found)) => Reply::Exchange(Err(copy_value(found)?)),
    })
}
