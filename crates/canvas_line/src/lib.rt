//! One history of a document under many threads: a desk under a lock publishes versions, and seats
//! look without it. A line here is such a shared document with its history, and no line of text.
#![tactic(auto)]

mod desk;
mod fault;
mod front;
mod herald;
mod line;
mod mark;
mod next;
mod painters;
mod perch;
mod published;
mod recent;
mod recorder;
mod rule;
mod seat;
mod version;
mod viewer;
mod writer;

pub use canvas_look::Edited;
pub use desk::Desk;
pub use fault::LineFault;
pub use front::{Glimpse, Lines, Opened};
pub use herald::Herald;
pub use line::Line;
pub use mark::Mark;
pub use recent::{Damage, MOST_RECENT, Recent};
pub use recorder::Taken;
pub use seat::Seat;
pub use version::Version;
