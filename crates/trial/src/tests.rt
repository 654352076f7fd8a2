//! The tests of all crates, which see of the libraries what a user sees.

mod asserts;
mod collector;
mod dialogue;
mod examples;
mod failures;
mod journals;
mod machine;
mod program;
mod texts;
mod threads;
mod trees;
mod unlocked;
