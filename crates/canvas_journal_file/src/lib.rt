//! Files as devices of a journal, by what was asked of them.
#![tactic(auto)]

mod asked;
mod backing;
mod record;

pub use asked::Asked;
pub use backing::Backing;
pub use record::Record;
