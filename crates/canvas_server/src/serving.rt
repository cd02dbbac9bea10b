//! Serving a document to connections.

ghost use Rattle.std.specs.Prelude.{◌≡◌, ◌≤◌, IfErr, IfOk, vec_len};
ghost use Rattle.canvas_server.specs.declared.server_fault.ServerFault.TheVariants.{OutOfMemory};
ghost use Rattle.canvas_server.specs.Settings.{Ends, opening_fault, settings_fault};

use crate::counted::Counted;
use crate::house::serve_boards;
use crate::server_fault::ServerFault;
use crate::workers::Workers;
use canvas_board::{Gallery, LastExport};
use canvas_doc::Document;
use canvas_doors::{Events, Quiet};
use canvas_line::{Line, LineFault, Lines, Opened, Seat};
use std::alloc::Global;
use std::marker::Brand;
use std::net::TcpListener;
use std::sync::{Mutex, Wait};
use std::thread::Threads;
use std::time::Clock;

/// How a document is served.
#[derive(Clone, Copy, Debug, PartialEq, Eq)]
pub struct Settings {
    /// How many sessions may be at once, 1 to 64.
    pub seats: u32,
    /// How many changes the document takes, 1 to 1,000,000.
    pub limit: u64,
    /// How many pictures are kept for each seat, 0 to 256.
    pub keep: u32,
    /// How many threads paint a picture, 1 to 16.
    pub workers: u32,
    /// After how many connections the server ends; 0 is no end.
    pub connections: u64,
}

impl Settings {
    /// The first of `BadSetting` and `BadWorkers` that the settings call for.
    pub fn check(&self) -> Result<(), ServerFault>
        ensures { result ≡ settings_fault self.now }
    {
        if self.seats < 1 || 64 < self.seats {
            return Err(ServerFault::BadSetting);
        }
        if self.limit < 1 || 1_000_000 < self.limit || 256 < self.keep {
            return Err(ServerFault::BadSetting);
        }
        if self.workers < 1 || 16 < self.workers {
            return Err(ServerFault::BadWorkers);
        }
        Ok(())
    }
}

/// Serves a document to the connections that come to a listener, each on a thread of its own with a
/// seat of its own, and returns after so many connections, when all their sessions have ended.
///
/// A connection that finds all seats taken gets the reply `NoSeats` and is closed; one whose thread
/// can't be started is closed without a reply. `BadSetting` and then `BadWorkers` come before all
/// else; `NoSeats` and `OutOfMemory` before the first connection; `AcceptFault` where no connection
/// can be accepted any more, after all sessions have ended.
pub fn serve_connections<H: Threads + Wait + Clock + Sync>(
    rt: &H,
    alloc: Global,
    listener: &TcpListener,
    document: Document,
    settings: &Settings,
) -> Result<(), ServerFault>
    ensures { Ends settings.now result }
{
    settings.check()?;
    serve_line::<Brand, H>(rt, alloc, Opened::new(), listener, document, settings)
}

/// The name of the one line that a server has.
const NAME: u64 = 1;

// Serves a document as the line that is opened here.
fn serve_line<L: Lines + Send + Sync, H: Threads + Wait + Clock + Sync>(
    rt: &H,
    alloc: Global,
    opened: Opened,
    listener: &TcpListener,
    document: Document,
    settings: &Settings,
) -> Result<(), ServerFault>
    requires line { L.line 1
        ≡ record { book = opened.head.word.book; opening = document; limit = settings.now.limit } }
    requires settings { settings_fault settings.now ≡ Ok tt }
    ensures { Ends settings.now result }
{
    let Settings {
        seats,
        limit,
        keep,
        workers,
        connections,
    } = *settings;
    let line = match Line::open::<L, H>(rt, alloc, opened, NAME, document, seats, limit) {
        Ok(line) => line,
        Err(fault) => return Err(opening_fault(&fault)),
    };
    let boards = boards_of(alloc, line, keep, &Quiet)?;
    let workers = Workers::new(workers);
    let ended = serve_boards(rt, alloc, listener, &boards, seats, workers, connections);
    for board in boards {
        board.into_inner().close(rt);
    }
    ended
}

/// A board for each seat, which tells of its pictures. They export one text for a version, and
/// share up to `keep` pictures a seat, as many as a gallery holds.
pub fn boards_of<'a, L: Lines, E: Events>(
    alloc: Global,
    seats: Vec<Seat<L>>,
    keep: u32,
    events: &'a E,
) -> Result<Vec<Mutex<Counted<'a, L, E>>>, ServerFault>
    ensures count { IfOk result (λ boards. vec_len boards ≡ vec_len seats) }
    ensures fault { IfErr result (λ fault. fault ≡ OutOfMemory) }
{
    let last_export = LastExport::new(alloc);
    let gallery = Gallery::of_many(alloc, seats.len().saturating_mul(keep as usize));
    let mut boards = Vec::with_capacity(alloc, seats.len())?;
    for seat in seats {
        let board = Counted::new(alloc, seat, gallery.again(), last_export.again(), events);
        if boards.push(Mutex::new(board)).is_err() {
            return Err(ServerFault::OutOfMemory);
        }
    }
    Ok(boards)
}

// Why no line could be opened, as the fault of the server.
fn opening_fault(fault: &LineFault) -> ServerFault
    ensures { result ≡ opening_fault fault.now }
{
    match fault {
        LineFault::BadSetting => ServerFault::BadSetting,
        LineFault::NoSeats => ServerFault::NoSeats,
        _ => ServerFault::OutOfMemory,
    }
}
