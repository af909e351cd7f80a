//! Assertions by functions. A macro writes its branch and its formatting into the body that it stands in, and each proof goes through all
//! of it: a test of several macros takes many times as long to prove as one that calls these.

use std::process::Abort;

/// Asserts that something holds. Where it does not, these words say what it was.
pub fn claim(rt: &impl Abort, holds: bool, what: &str) {
    assert!(rt; holds, "{what}");
}

/// Asserts that something holds of what is named second.
pub fn claim_of(rt: &impl Abort, holds: bool, what: &str, of: &str) {
    assert!(rt; holds, "{what} of {of}");
}

/// Asserts that something holds of the row, or at the place, of this number.
pub fn claim_at(rt: &impl Abort, holds: bool, what: &str, number: usize) {
    assert!(rt; holds, "{what} {number}");
}

/// Asserts that something holds of the row of this number of a case.
pub fn claim_in(rt: &impl Abort, holds: bool, case: &str, of: &str, number: usize) {
    assert!(rt; holds, "{case}, {of}, {number}");
}
