//! One session: the lines of a reader are requests to a board, and the responses go to a writer.
#![tactic(auto)]

mod answer;
mod fault;
mod law;
mod next;
mod output;
mod pending;
mod respond;
mod served;
mod session;
mod witness;

pub use answer::Answer;
pub use fault::{Cause, SessionFault};
pub use law::{
    all_sessions_tell_one_history, lines_are_one, lone_boards_change_by_accepted_edits_alone,
    lone_boards_make_no_other_change, longer_histories_hold_as_much, sessions_tell_one_history,
    transcripts_belong_to_one_history,
};
pub use respond::answer_line;
pub use served::Served;
pub use session::{MOST_REQUESTS, serve, serve_before};
pub use witness::{Unwitnessed, Witness};
