//! What a session that ended with its input has done.

/// A session whose input ended after a line.
#[derive(Clone, Copy, Debug, PartialEq, Eq)]
pub struct Served {
    /// How many lines were answered.
    pub requests: u64,
    /// How many bytes the writer took.
    pub written: u64,
}
