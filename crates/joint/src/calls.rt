//! What steps come to.
//!
//! `call` takes a whole call, `replies` one on one key for its reply alone, `run` any list of steps. The rest are laws, which
//! have no code: `laws`, of any steps; `map_laws`, of a call that nobody else's steps come between; `run_laws`, what a reader
//! may conclude of a run by its reports and its states; `promises`, all that is promised of one, in one place.

pub(crate) mod call;
pub(crate) mod laws;
pub(crate) mod map_laws;
pub(crate) mod promises;
pub(crate) mod replies;
pub(crate) mod run;
pub(crate) mod run_laws;
