//! A node of at most 256 children.
use crate::forms::child::Child;
use crate::forms::masked::Masked;
use crate::forms::prefix::Prefix;

/// A place for each byte, and a mask of the bytes that have a child.
#[derive(Drop)]
pub struct Node256<C, P> {
    pub(crate) prefix: Prefix,
    pub(crate) children: Masked<Child<C, P>>,
}
