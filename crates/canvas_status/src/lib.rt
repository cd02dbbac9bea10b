//! What a server tells of itself: its state as a page of numbers, its health, and the answers to
//! those who ask for them.
#![tactic(auto)]

mod answer;
mod counts;
mod family;
mod followers;
mod head;
mod health;
mod page;
mod status;
mod text;
mod verb;

pub use answer::{Report, answer_of};
pub use counts::Counts;
pub use followers::MOST_FOLLOWERS;
pub use head::{Head, MOST_BYTES, Page, Wanted, read_head};
pub use health::{Health, Lookback, TICK};
pub use page::write_page;
pub use status::{CODES, Status};
pub use verb::{VERBS, Verb};
