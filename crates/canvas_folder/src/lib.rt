//! The folder of a document that is kept: which generation of it is served, and how one is made,
//! whatever moment a crash comes.
#![tactic(auto)]

mod generation;
mod making;
mod names;
mod state;
mod step;

pub use generation::{Generation, next_number, served};
pub use making::{Maker, make};
pub use names::{JOURNAL, LOCK, NEW_JOURNAL, OPENING, STORE, TEMPORARY, number_of};
pub use state::{State, state_of};
pub use step::Step;
