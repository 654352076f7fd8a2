//! What a journal is made of.

/// A call on one key of the map.
///
/// An answer is what the call's closure gave at the moment when the call took effect.
#[derive(Clone, Copy, PartialEq, Eq, Debug, Drop)]
pub enum Call<P> {
    /// Looks the key up.
    Get(u64),
    /// Puts the value at the key.
    Insert(u64, P),
    /// Takes the key out.
    Remove(u64),
    /// Where the key is present, puts the closure's answer there, or takes the key out at `None`.
    /// For an absent key the answer is recorded as `None`.
    ComputePresent(u64, Option<P>),
    /// Puts the closure's answer at the key, present or not.
    ComputeInsert(u64, P),
    /// Where the key has the old value, puts the new one there, or takes the key out at `None`.
    Exchange(u64, P, Option<P>),
}

/// What a call found, in one form for each call.
#[derive(Clone, Copy, PartialEq, Eq, Debug, Drop)]
pub enum Reply<P> {
    /// The value at the key.
    Get(Option<P>),
    /// The value that stood there before.
    Insert(Option<P>),
    /// The value that was taken out.
    Remove(Option<P>),
    /// The value before and the answer that took its place, or nothing for an absent key.
    ComputePresent(Option<(P, Option<P>)>),
    /// The value that stood there before.
    ComputeInsert(Option<P>),
    /// The new value, or the value that stands there in place of the old one.
    Exchange(Result<Option<P>, Option<P>>),
}

/// One call of a worker, given by its number, with its reply.
#[derive(Clone, Copy, PartialEq, Eq, Debug, Drop)]
pub struct Entry<P> {
    /// The worker's number.
    pub worker: u32,
    /// The call, with the answers that its closure gave.
    pub call: Call<P>,
    /// What the worker was told.
    pub reply: Reply<P>,
}
