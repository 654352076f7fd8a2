//! A node of at most 4 children.
use crate::forms::child::Child;
use crate::forms::prefix::Prefix;
use crate::forms::sorted::Sorted;

/// At most 4 children, in arrays that rise by byte.
#[derive(Drop)]
pub struct Node4<C, P> {
    pub(crate) prefix: Prefix,
    pub(crate) children: Sorted<Child<C, P>, 4>,
}
