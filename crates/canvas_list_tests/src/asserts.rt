//! What tests assert. A call of these is quicker to prove than the branch of a macro.

use std::process::Abort;

/// Ends the test with these words unless it is so.
pub(crate) fn holds(rt: &impl Abort, what: &str, is_so: bool) {
    assert!(rt; is_so, "{what}");
}

/// The same for one of several cases, with its number.
pub(crate) fn holds_at(rt: &impl Abort, what: &str, number: u32, is_so: bool) {
    assert!(rt; is_so, "{what} {number}");
}
