//! Requests and replies: one line of JSON each.
#![tactic(auto)]

mod asked;
mod extra;
mod fault;
mod law;
mod reading;
mod reply;
mod request;
mod spot;
mod verb;
mod writing;

pub use fault::WireFault;
pub use law::replies_are_json;
pub use reading::{RequestReader, read_request};
pub use reply::{Reply, ReplyLine, write_reply};
pub use request::Request;
pub use writing::write_edit;
