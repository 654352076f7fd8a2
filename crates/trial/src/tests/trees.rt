//! What tries the trees of one owner, their nodes' forms, and a shared tree's calls step by step on a plain store.

pub mod arcs;
pub mod closing;
pub mod forms;
pub mod lessening;
pub mod maps;
pub mod numbers;
pub mod owned;
pub mod owners;
pub mod protocol;
pub mod sessions;
pub mod stats;
pub mod versions;
pub mod words;
