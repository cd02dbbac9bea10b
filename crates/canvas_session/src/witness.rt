//! Who is told of the answers of a session.

use canvas_wire::Request;

/// Who is told of each answer of a session, before it is written. Many sessions may tell one
/// witness at any time.
pub trait Witness {
    /// A line was answered: it was read as a request, or it is none, and the answer is perhaps the
    /// refusal of a number.
    fn answered(&self, _request: Option<&Request>, _refusal: Option<u16>) {}
}

/// Nobody is told.
#[derive(Clone, Copy, Debug)]
pub struct Unwitnessed;

impl Witness for Unwitnessed {}
