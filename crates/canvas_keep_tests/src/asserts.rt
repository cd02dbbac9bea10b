//! What tests assert. A call of these is quicker to prove than the branch of a macro.

use std::fmt::Debug;
use std::process::Abort;

/// Ends the test with these words unless it is so.
pub(crate) fn holds(rt: &impl Abort, what: &str, is_so: bool) {
    assert!(rt; is_so, "{what}");
}

/// Ends the test with these words and both values unless they are equal.
pub(crate) fn equal<T: PartialEq + Debug>(rt: &impl Abort, what: &str, left: &T, right: &T) {
    let is_equal = left == right;
    assert!(rt; is_equal, "{what}: {left:?} is not {right:?}");
}

/// Ends the test with these words and this number unless it is so.
pub(crate) fn holds_at(rt: &impl Abort, what: &str, number: u64, is_so: bool) {
    assert!(rt; is_so, "{what} {number}");
}
