//! Saved documents: a document as one JSON text, and back.
#![tactic(auto)]

mod document;
mod fault;
mod formats;
mod opening;
mod record;
mod saving;

pub use document::{export, import};
pub use fault::StoreFault;
pub use formats::Format;
pub use opening::{SavedRecords, read_records};
pub use saving::write_records;
