//! What the tests of written bytes assert, in one function, so that the proof of the assertion is made once.

use std::process::Abort;

/// The bytes that were written are the expected ones.
pub fn are_written(rt: &impl Abort, written: &[u8], wanted: &[u8]) {
    assert_eq!(rt; written, wanted);
}
