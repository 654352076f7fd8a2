//! The index that threads share. Each thread calls through a worker of its own.

mod close;
mod computes;
mod congee;
mod congee_back;
mod index;
mod many;
mod open;
mod pool;
mod refusal;
mod scans;
mod scans_back;
mod seen;
mod walk;
mod walk_back;
mod wholes;
mod wholes_back;
mod worker;
mod writes;

pub use close::Retired;
pub use congee::{Congee, WordWorker};
pub use index::{LEAST_WORDS, MOST_WORDS, U64Congee};
pub use open::Filled;
pub use refusal::{Refusal, Unfilled, Uninserted, Unopened, Unreopened};
pub use seen::Seen;
pub use walk::Walk;
pub use walk_back::WalkBack;
pub use worker::Worker;
