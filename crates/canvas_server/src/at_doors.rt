//! Serving a line at its doors, behind a gate.

ghost use Rattle.std.specs.Prelude.{◌≡◌, length, vec_len};
ghost use Rattle.canvas_server.specs.Doors.{EndsAtDoors, door_fault, shares_of};

use crate::house::serve_until;
use crate::server_fault::ServerFault;
use crate::serving::boards_of;
use crate::workers::Workers;
use canvas_doors::{Call, Door, Ending, Events, Settles, Shares};
use canvas_line::{Lines, Seat};
use canvas_look::Board;
use std::alloc::Global;
use std::net::Net;
use std::sync::{Mutex, Wait};
use std::thread::Threads;
use std::time::Clock;

/// How a line is served at its doors.
#[derive(Clone, Copy, Debug, PartialEq, Eq)]
pub struct DoorSettings {
    /// How many pictures are kept for each seat, 0 to 256.
    pub keep: u32,
    /// How many threads paint a picture, 1 to 16.
    pub workers: u32,
    /// After how many seconds a session ends whose client sends nothing, or takes nothing; 0 is never.
    pub idle: u64,
    /// How many seats one address of another machine may have, one at least.
    pub share: u32,
    /// How many of the doors, the last ones, are for gateways, which have some seats of their own.
    pub gateways: usize,
}

/// How many seats are left to gateways at most.
const GATEWAY_SEATS: usize = 16;

impl DoorSettings {
    /// The first of `BadSetting` and `BadWorkers` that the settings call for at so many doors and
    /// seats: there is a door, and 1 to 64 seats.
    pub fn check(&self, doors: usize, seats: usize) -> Result<(), ServerFault>
        ensures { result ≡ door_fault doors seats self.now }
    {
        if doors < 1 || seats < 1 || 64 < seats || 256 < self.keep || self.share < 1 {
            return Err(ServerFault::BadSetting);
        }
        if self.workers < 1 || 16 < self.workers {
            return Err(ServerFault::BadWorkers);
        }
        Ok(())
    }

    /// How so many seats are shared. Where a door is for gateways, sixteen are left to them, or half.
    pub fn shares(&self, seats: usize) -> Shares
        ensures { result ≡ shares_of seats self.now }
    {
        let own = if self.gateways == 0 {
            0
        } else {
            (seats / 2).min(GATEWAY_SEATS)
        };
        Shares {
            count: seats,
            own,
            each: self.share as usize,
        }
    }
}

/// Why a server behind a gate ended, after all its sessions.
#[derive(Clone, Copy, Debug, Drop, PartialEq, Eq)]
pub enum Ended {
    /// The gate said that the server is to end.
    Asked,
    /// The gate could not settle, and nobody was sent what is not settled.
    Unsettled,
}

/// Serves a line to the connections that come to its doors, each on a thread of its own with one of
/// the seats, until the gate ends that: it can't settle, or says that the server is to end. No
/// bytes of a session leave before the gate has settled for all that were put in.
///
/// A connection that finds all seats taken gets the reply `NoSeats` and is closed; one whose thread
/// can't be started is closed without a reply. `BadSetting` and then `BadWorkers` come before all
/// else, and `OutOfMemory` before the first connection. At the end no connection is accepted any
/// more. Where the gate asked for the end, what was answered still leaves, for five seconds at
/// most; then all sessions are closed, and so are the seats. The doors stay open. `AcceptFault` is
/// such an end too, where a door accepts no connection any more.
pub fn serve_doors<
    L: Lines + Send + Sync,
    G: Settles + Sync,
    E: Events + Sync,
    H: Threads + Wait + Clock + Net + Sync,
>(
    rt: &H,
    alloc: Global,
    doors: &[Door],
    seats: Vec<Seat<L>>,
    gate: &G,
    settings: &DoorSettings,
    events: &E,
) -> Result<Ended, ServerFault>
    ensures { EndsAtDoors (length doors.now) (vec_len seats) settings.now result }
{
    let count = seats.len();
    settings.check(doors.len(), count)?;
    let ending = Ending::new(alloc, count)?;
    let keep = settings.keep;
    let boards = boards_of(alloc, seats, keep, events)?;
    let ended = serve_boards_at(rt, alloc, doors, &boards, gate, settings, events, &ending);
    for board in boards {
        board.into_inner().close(rt);
    }
    ended
}

/// The same over boards of one line, 1 to 64, which their maker closes; of the settings `keep` is
/// their maker's. The end has a place for each board, and others may begin it too.
pub fn serve_boards_at<
    B: Board + Send,
    G: Settles + Sync,
    E: Events + Sync,
    H: Threads + Wait + Clock + Net + Sync,
>(
    rt: &H,
    alloc: Global,
    doors: &[Door],
    boards: &[Mutex<B>],
    gate: &G,
    settings: &DoorSettings,
    events: &E,
    ending: &Ending,
) -> Result<Ended, ServerFault>
    ensures { EndsAtDoors (length doors.now) (length boards.now) settings.now result }
{
    settings.check(doors.len(), boards.len())?;
    let call = serve_until(
        rt,
        alloc,
        doors,
        boards,
        boards.len(),
        Workers::new(settings.workers),
        gate,
        events,
        settings,
        ending,
    );
    match call {
        Call::Asked => Ok(Ended::Asked),
        Call::Unsettled => Ok(Ended::Unsettled),
        Call::DoorFault => Err(ServerFault::AcceptFault),
    }
}
