//! A value that threads take by turns, and a fact that holds of it whenever it may be taken.
//!
//! What is known of a value under a lock is what its type says. Here the fact may also name a key, which is fixed as the desk is
//! made. So the value may tell of another structure, and the key tells of which one.
//!
//! Nobody waits here: where another thread has the value, there is none to be had.

mod place;
mod rule;
mod turns;

pub use place::Desk;
pub use rule::{Caller, Fact};
