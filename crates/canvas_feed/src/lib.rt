//! The feed of a kept document: what leaves of each edit once it is kept, for programs that follow.
#![tactic(auto)]

mod fault;
mod first_line;
mod index;
mod line;
mod refusal;
mod request;
mod scribe;
mod sending;

pub use fault::FeedFault;
pub use first_line::{LINE_ROOM, read_line};
pub use index::FeedIndex;
pub use line::push_line;
pub use refusal::Refusal;
pub use request::{FeedRequest, Unread, read_request};
pub use scribe::Scribe;
pub use sending::{Shelf, send};
