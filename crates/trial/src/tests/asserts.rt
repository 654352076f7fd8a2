//! What a test finds held beside what it expects, in one call: an `assert_eq!` in place would be proved anew in each test.

use std::fmt::Debug;
use std::process::Abort;

/// Ends the test unless what was found is what is expected. A row of a table stands in both, so that a failure names it.
pub fn assert_same<T: Debug + PartialEq + Drop, R: Abort>(rt: &R, found: T, expected: T) {
    assert_eq!(rt; found, expected);
}
