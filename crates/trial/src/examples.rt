//! Functions of users of the libraries, who have nothing but the contracts.
//!
//! The program calls `sessions` and `versions`. The others are proved with the tests alone, but for `history` and `reverse`: a proof file
//! has its function in each build.

#[cfg(test)]
pub mod alone;
#[cfg(test)]
pub mod bounded;
#[cfg(test)]
pub mod closing;
#[cfg(test)]
pub mod collector;
#[cfg(test)]
pub mod composite;
#[cfg(test)]
pub mod counter;
#[cfg(test)]
pub mod counts;
#[cfg(test)]
pub mod driven;
#[cfg(test)]
pub mod grace;
pub mod history;
#[cfg(test)]
pub mod journal;
#[cfg(test)]
pub mod machine;
#[cfg(test)]
pub mod many;
#[cfg(test)]
pub mod moment;
#[cfg(test)]
pub mod owned;
#[cfg(test)]
pub mod pages;
#[cfg(test)]
pub mod promises;
#[cfg(test)]
pub mod read_mostly;
pub mod reverse;
pub mod sessions;
#[cfg(test)]
pub(crate) mod stack;
#[cfg(test)]
pub mod tallies;
#[cfg(test)]
pub mod threaded;
#[cfg(test)]
pub mod timed;
#[cfg(test)]
pub mod unlocked;
pub mod versions;
