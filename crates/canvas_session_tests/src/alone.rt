//! Boards over a document of one's own, and sessions over them.

mod boards;
mod ends;
mod faults;
mod kept;
mod memory;
mod serving;
pub(crate) mod sessions;
