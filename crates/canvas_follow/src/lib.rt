//! A follower of a document: the line of its own that goes on as a feed tells, and the board of a
//! session there, which hands edits on.
#![tactic(auto)]

mod course;
mod fault;
mod feed_line;
mod handed;
mod law;
mod relayed;
mod turns;

pub use course::Course;
pub use fault::CourseFault;
pub use feed_line::edit_in;
pub use handed::{Handed, Leader, Outcome, read_outcome};
pub use law::lines_are_the_feed;
pub use relayed::Relayed;
pub use turns::Turns;
