//! What tests assert. A call of these is quicker to prove than the branch of a macro.

use std::process::Abort;

/// Ends the test with these words unless it is so.
pub(crate) fn holds(rt: &impl Abort, what: &str, is_so: bool) {
    assert!(rt; is_so, "{what}");
}

/// The same for one of several cases, with its number.
pub(crate) fn holds_at(rt: &impl Abort, what: &str, number: i64, is_so: bool) {
    assert!(rt; is_so, "{what} {number}");
}

/// The same for a length or a rank.
pub(crate) fn holds_for(rt: &impl Abort, what: &str, number: usize, is_so: bool) {
    assert!(rt; is_so, "{what} {number}");
}

/// Ends the test with both texts, and the one that was read, unless they are equal.
pub(crate) fn reads(rt: &impl Abort, text: &str, found: &str, wanted: &str) {
    assert!(rt; found == wanted, "{found} is not {wanted} at {text}");
}
