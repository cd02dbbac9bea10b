//! What a look answers.
use crate::recent::Recent;
use canvas_doc::{Change, Document};

/// The document after so many accepted changes.
#[derive(Drop)]
pub struct Version {
    /// How many changes were accepted, 0 to the line's limit.
    pub number: u64,
    /// The last of them; none at 0.
    pub change: Option<Change>,
    /// The document after them.
    pub document: Document,
    /// The damage of the last 64 changes at most, oldest first.
    pub recent: Recent,
}
