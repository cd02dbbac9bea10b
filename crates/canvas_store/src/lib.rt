//! A store: where a document is kept in place of the disk of one machine. It is at the other end of
//! a connection; this is what it is told, and what is taken from its answers.
#![tactic(auto)]

mod answer;
mod fault;
mod head;
mod held;
mod name;
mod store;

pub use fault::{StoreFault, Words};
pub use held::Held;
pub use name::name_of;
pub use store::Store;
