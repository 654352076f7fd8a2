//! Tags of pointers: numbers below the `ALIGN` of what they lead to.

ghost use Rattle.std.specs.Prelude.{◌≡◌, ◌%◌, ◌<◌};
ghost use Rattle.crossbeam_epoch.specs.Tags.{changed};

use crate::names::Pointable;

/// What a tag call does with the bits of a tag and of a number.
#[derive(Clone, Copy, Drop)]
pub enum TagCall {
    /// Keeps those of the tag that stand in the number too.
    And,
    /// Adds those of the number to the tag.
    Or,
    /// Flips those of the number in the tag.
    Xor,
}

impl TagCall {
    /// What it makes of the tag with the number modulo `T::ALIGN`.
    pub fn changed<T: Pointable>(self, tag: u8, number: usize) -> u8
        ensures value { result ≡ changed self tag (number % T.ALIGN) }
        ensures below { tag < T.ALIGN → result < T.ALIGN }
    {
        let bits = tag_of::<T>(number);
        match self {
            TagCall::And => tag & bits,
            TagCall::Or => tag | bits,
            TagCall::Xor => tag ^ bits,
        }
    }
}

/// The number modulo `T::ALIGN`.
pub fn tag_of<T: Pointable>(number: usize) -> u8
    ensures value { result ≡ number % T.ALIGN }
    ensures below { result < T.ALIGN }
{
    (number % usize::from(T::ALIGN)) as u8
}
