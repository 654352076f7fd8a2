//! A table of sessions, each with the time at which it expires, and a second index by that time.
//!
//! Proved, in words: whatever changes were made, the sessions that are drained at the end are those that were registered and
//! haven't expired, each with its last expiry: what the changes leave, one after the other (`left`). The second index has the
//! same pairs turned around. A look-up answers what the changes so far leave.
//!
//! `registry` is for one owner. `shared` is for threads of which one at a time has the table; it keeps a journal of the changes.
//! `unlocked` is for threads whose readers take no lock, over two indexes. There a look-up answers what the changes leave that
//! its thread has seen, and what is drained is what one log of decided calls leaves. No clause ties its two indexes together.
//!
//! Which write comes first: in `registry` the second index, whose insertion alone may be refused with nothing to undo; nobody
//! reads between the two. In `unlocked` the table, and an expiry takes the pair of the second index first: so a reader may meet
//! a session that no scan by expiry finds yet, and a pair whose session is gone or has another expiry. The table is right.

pub mod registry;
pub mod shared;
pub mod unlocked;
