//! What is asked of a document and answered: the interface of boards, whoever has them, and why one
//! does not answer.
#![tactic(auto)]

mod answers;
mod board;
mod fault;

pub use answers::{Dot, Edited, MOST_BYTES, Picture, Saved};
pub use board::Board;
pub use fault::BoardFault;
