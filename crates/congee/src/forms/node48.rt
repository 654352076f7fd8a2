//! A node of at most 48 children.
use crate::forms::child::Child;
use crate::forms::indexed::Indexed;
use crate::forms::prefix::Prefix;

/// At most 48 children, found by an index of 256 bytes.
#[derive(Drop)]
pub struct Node48<C, P> {
    pub(crate) prefix: Prefix,
    pub(crate) children: Indexed<Child<C, P>>,
}
