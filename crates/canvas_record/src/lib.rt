//! Records in a page tree, edits of them, and boxes outside of which a record and all below it show
//! nothing. What a document decides of an edit, what a change makes of a document and what it shows
//! is defined here, on lists of records.
#![tactic(auto)]

mod edits;
mod records;
mod refusals;
mod tree_faults;

pub use edits::{Change, Edit, Spot};
pub use records::{Parent, Place, Record, Standing};
pub use refusals::Refusal;
pub use tree_faults::TreeFault;

/// The most records that a document has.
pub const MOST_RECORDS: usize = 16_384;
