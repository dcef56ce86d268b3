//! What the assertions of this crate call. The comparison stands here once: written out at each of them, it would be most of
//! what the proof of a test costs.

use std::fmt::Debug;
use std::process::Abort;

/// Asserts that what is found is what is wanted. The text of the call that found it tells which assertion it is.
pub fn assert_same<T: PartialEq + Debug + Drop>(rt: &impl Abort, call: &str, found: T, wanted: T) {
    assert_eq!(rt; found, wanted, "{call}");
}
