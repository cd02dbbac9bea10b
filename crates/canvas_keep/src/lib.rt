//! A document that is kept: a line whose edits stand in a journal before anything is answered that
//! rests on them.
#![tactic(auto)]

mod fault;
mod keeper;
mod opening;
mod reach;
mod replaying;
mod settling;
mod slot;
mod texts;

pub use fault::{KeepFault, OpenFault, ReplayFault, ReplayWhy};
pub use keeper::Keeper;
pub use opening::open;
pub use replaying::replay;
pub use settling::Keep;
