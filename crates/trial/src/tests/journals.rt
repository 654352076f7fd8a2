//! What tries journals: the judge of one, and an index that keeps one.

pub mod kept;
pub mod worked;
