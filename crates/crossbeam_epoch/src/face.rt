//! Epoch-based reclamation for real threads, under the names of `crossbeam-epoch`.

mod atomic;
mod atomic_calls;
mod atomic_link;
mod collected;
mod collector;
mod guard;
mod handle;
mod internal;
mod laws;
mod lent;
mod link;
mod note;
mod ordering;
mod owned;
mod packed;
mod pins;
mod pointer;
mod queue;
mod seats;
mod shared;
mod slots;
mod unguarded;

pub use atomic::{Atomic, CompareAndSetError, CompareExchangeError, Exchanged};
pub use collector::Collector;
pub use guard::{Guard, unprotected};
pub use handle::LocalHandle;
pub use lent::{Lent, LentMut};
pub use link::{Link, Site, Tagged};
pub use note::Note;
pub use ordering::CompareAndSetOrdering;
pub use owned::Owned;
pub use pointer::Pointer;
pub use shared::Shared;
pub use unguarded::Unprotected;
