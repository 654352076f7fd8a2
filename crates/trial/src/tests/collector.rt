//! What tries the collector: its machine step by step, and its face for threads.

pub mod atomics;
pub mod face;
pub mod jobs;
pub mod machine;
pub mod threads;
pub mod values;
