//! What the words of a node mean: a finite map from bytes to children. Everything here is on plain numbers.
pub mod bits;
pub mod bytes;
pub mod gaps;
pub mod names;
pub mod places;
pub mod scan;
pub mod wide;
