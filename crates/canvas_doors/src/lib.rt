//! Doors at which connections come, and what stands between a connection and its session: the seats
//! that are lent, the gate that is asked before bytes leave, and the end of a server.
#![tactic(auto)]

mod accepting;
mod closing;
mod doors;
mod ending;
mod event;
mod first_line;
mod foreign;
mod gate;
mod gated;
mod only_reply;
mod outlet;
mod seats;
mod timely;
mod waits;

pub use accepting::{Arrival, close_doors, is_passing, next_stream};
pub use canvas_session::Witness;
pub use closing::{settle, settle_counted};
pub use doors::{Accepts, Door, OwnDoor, Stream, set_up};
pub use ending::{Call, Ending, NoEntry};
pub use event::{Events, Parting, Quiet};
pub use first_line::{Beginning, read_first};
pub use foreign::is_foreign;
pub use gate::{Settles, Unkept};
pub use gated::{Connection, Gated};
pub use only_reply::{refuse, refuse_foreign};
pub use outlet::{Outlet, WriteTwo};
pub use seats::{Guest, Seats, Settling, Shares};
pub use timely::{Lapse, Timely};
