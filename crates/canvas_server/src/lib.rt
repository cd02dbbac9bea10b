//! The server: one document lent to the connections that come to its doors, the words that ask for
//! it, and its statuses.
#![tactic(auto)]

mod at_doors;
mod connection;
mod counted;
mod house;
mod server_fault;
mod serving;
mod visit;
mod words;
mod workers;

pub use at_doors::{DoorSettings, Ended, serve_boards_at, serve_doors};
pub use counted::Counted;
pub use server_fault::ServerFault;
pub use serving::{Settings, boards_of, serve_connections};
pub use words::{Command, exit_status};
