//! What tests assert. A call of these is quicker to prove than the branch of a macro.

use std::process::Abort;

/// Ends the test with these words unless it is so.
pub(crate) fn holds(rt: &impl Abort, what: &str, is_so: bool) {
    assert!(rt; is_so, "{what}");
}

/// Ends the test with these words and both numbers unless they are equal.
pub(crate) fn counts(rt: &impl Abort, what: &str, found: usize, wanted: usize) {
    assert!(rt; found == wanted, "{what}: {found} is not {wanted}");
}
