//! The forms of a node: `base_node` has the node over them, `sorted`, `indexed` and `masked` the layouts of children.
pub mod base_node;
pub mod child;
mod index;
pub(crate) mod indexed;
pub(crate) mod masked;
pub mod node16;
pub mod node256;
pub mod node4;
pub mod node48;
pub(crate) mod prefix;
pub(crate) mod ranks;
mod room;
pub(crate) mod sorted;

pub use base_node::{Node, NodeIter, NodeType};
pub use child::{Child, Small};
pub use node4::Node4;
pub use node16::Node16;
pub use node48::Node48;
pub use node256::Node256;
pub use prefix::MAX_PREFIX_LEN;
pub use room::Boxed;
