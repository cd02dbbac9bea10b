//! The core over lists of events: edits, looks, strips and answers of any number of seats.
#![tactic(auto)]

mod cut;
mod entry;
mod event;
mod job;
mod piece;
mod running;
mod world;

pub use entry::{Entry, Raster, Transcript};
pub use event::Event;
pub use running::run;
