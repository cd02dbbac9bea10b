//! Serving a line that follows a leader: beside the doors one thread goes on as the leader's feed
//! tells, and the boards hand edits on.

ghost use denote.Param.Send.{IsSend, IsSync};

use crate::course::keep_course;
use crate::fault::Fault;
use crate::feeding::{Fed, serve_fed};
use crate::follow_gate::{FollowEvents, FollowGate, lost_marks};
use crate::gate::{Gate, Kept};
use crate::lanes::Lanes;
use crate::recent::Own;
use crate::serving::MOST_EDITS;
use crate::yard::Yard;
use canvas_board::{Gallery, LastExport};
use canvas_doors::{Door, Ending, Events, Settles};
use canvas_feed::Scribe;
use canvas_follow::{Course, Relayed, Turns};
use canvas_journal::Device;
use canvas_line::{Lines, Seat};
use canvas_look::Board;
use canvas_server::{Counted, DoorSettings, Ended, ServerFault, serve_boards_at};
use log::Log;
use std::alloc::Global;
use std::net::{Net, TcpListener, TcpStream};
use std::sync::atomic::AtomicBool;
use std::sync::{Mutex, Wait};
use std::thread;
use std::thread::{Scope, Threads};
use std::time::Clock;

/// What a generation follows, and where it is served.
#[derive(Clone, Copy, Drop)]
pub struct Follows<'a> {
    /// The leader's feed.
    pub feed: &'a str,
    /// The leader's sessions, where edits are handed on.
    pub leader: Option<&'a str>,
    pub number: u32,
    /// Where sessions come here.
    pub doors: &'a [Door],
    pub settings: &'a DoorSettings,
}

/// Serves a line that follows at doors, and its feed where there is one, until the leader has gone
/// on to another generation.
pub fn serve_followed<
    'y,
    D: Device + Drop + Send,
    L: Lines + Send + Sync,
    E: Events + Sync,
    K: Log + Sync,
    H: Threads + Wait + Clock + Net<Listener = TcpListener, Stream = TcpStream> + Sync,
>(
    rt: &'y H,
    log: &'y K,
    alloc: Global,
    mut seats: Vec<Seat<L>>,
    gate: &'y Gate<D, L>,
    events: &'y E,
    follows: Follows<'y>,
    own: Own,
    told: Option<(Scribe, &'y Fed<'y>)>,
) -> Result<Result<Ended, ServerFault>, Fault> {
    let Some(seat) = seats.pop() else {
        return Err(Fault::Server(ServerFault::NoSeats));
    };
    let Ok(course) = Course::new(alloc, seat) else {
        return Err(Fault::Server(ServerFault::NoSeats));
    };
    let turns = Turns::new(alloc, course, MOST_EDITS);
    let lost = lost_marks(alloc, seats.len())?;
    let is_away = AtomicBool::new(false);
    let ended = serve_turns(
        rt, log, alloc, seats, gate, &lost, &is_away, &turns, events, follows, own, told,
    );
    turns.close(rt);
    ended
}

// Serves the line whose turns these are.
fn serve_turns<
    'y,
    D: Device + Drop + Send,
    L: Lines + Send + Sync,
    E: Events + Sync,
    K: Log + Sync,
    H: Threads + Wait + Clock + Net<Listener = TcpListener, Stream = TcpStream> + Sync,
>(
    rt: &'y H,
    log: &'y K,
    alloc: Global,
    seats: Vec<Seat<L>>,
    gate: &'y Gate<D, L>,
    lost: &'y [AtomicBool],
    is_away: &'y AtomicBool,
    turns: &'y Turns<L>,
    events: &'y E,
    follows: Follows<'y>,
    own: Own,
    told: Option<(Scribe, &'y Fed<'y>)>,
) -> Result<Result<Ended, ServerFault>, Fault> {
    let gate = FollowGate::new(gate, lost);
    let events = FollowEvents { log, lost, events };
    let ending = Ending::new(alloc, seats.len())?;
    let lanes = match follows.leader {
        Some(address) => Some(Lanes::new(rt, log, alloc, address, is_away)),
        None => None,
    };
    let keep = follows.settings.keep;
    let boards = boards_of(alloc, seats, keep, &events, turns, lanes.as_ref(), lost)?;
    let fault = Mutex::new(None);
    let yard = Yard {
        alloc,
        log,
        feed: follows.feed,
        number: follows.number,
        is_away,
        turns,
        gate: &gate,
        ending: &ending,
        fault: &fault,
    };
    let told = match told {
        Some((scribe, fed)) => Some((scribe, fed.again())),
        None => None,
    };
    let ended = serve_yard(
        rt, log, alloc, &yard, own, &follows, &boards, &gate, &events, &ending, told,
    );
    for board in boards {
        board.into_inner().into_inner().close(rt);
    }
    match fault.into_inner() {
        Some(fault) => Err(fault),
        None => Ok(ended),
    }
}

// A board for each seat, whose edits are handed on.
fn boards_of<
    'a,
    'w,
    L: Lines,
    E: Events,
    K: Log,
    H: Wait + Clock + Net<Listener = TcpListener, Stream = TcpStream>,
>(
    alloc: Global,
    seats: Vec<Seat<L>>,
    keep: u32,
    events: &'a E,
    turns: &'a Turns<L>,
    lanes: Option<&'a Lanes<'w, H, K>>,
    lost: &'a [AtomicBool],
) -> Result<Vec<Mutex<Relayed<'a, Counted<'a, L, E>, L, Lanes<'w, H, K>>>>, Fault> {
    let last_export = LastExport::new(alloc);
    let gallery = Gallery::of_many(alloc, seats.len().saturating_mul(keep as usize));
    let mut boards = Vec::with_capacity(alloc, seats.len())?;
    for (seat, mark) in seats.into_iter().zip(lost) {
        let board = Counted::new(alloc, seat, gallery.again(), last_export.again(), events);
        boards.push(Mutex::new(Relayed::new(alloc, board, turns, lanes, mark)))?;
    }
    Ok(boards)
}

// What goes on as a leader tells.
trait Led {
    // Goes on as the leader's feed tells, until that is over.
    fn keep_course<R: Wait + Clock + Net<Listener = TcpListener, Stream = TcpStream>>(
        &self,
        rt: &R,
        own: Own,
    );

    // Counts the time for those who wait.
    fn keep_time<R: Wait + Clock>(&self, rt: &R);

    // Ends it, with a fault or without one.
    fn end<R: Wait>(&self, rt: &R, fault: Option<Fault>);
}

impl<D: Device + Drop, L: Lines, K: Log> Led for Yard<'_, D, L, K> {
    fn keep_course<R: Wait + Clock + Net<Listener = TcpListener, Stream = TcpStream>>(
        &self,
        rt: &R,
        own: Own,
    ) {
        keep_course(rt, self, own);
    }

    fn keep_time<R: Wait + Clock>(&self, rt: &R) {
        Yard::keep_time(self, rt);
    }

    fn end<R: Wait>(&self, rt: &R, fault: Option<Fault>) {
        Yard::end(self, rt, fault);
    }
}

// Serves the boards of a line that follows, beside the threads by which it does.
fn serve_yard<
    'y,
    B: Board + Send,
    Y: Led + Sync,
    G: Settles + Kept + Sync,
    E: Events + Sync,
    K: Log + Sync,
    H: Threads + Wait + Clock + Net<Listener = TcpListener, Stream = TcpStream> + Sync,
>(
    rt: &H,
    log: &'y K,
    alloc: Global,
    led: &Y,
    own: Own,
    follows: &Follows<'_>,
    boards: &[Mutex<B>],
    gate: &'y G,
    events: &E,
    ending: &Ending,
    told: Option<(Scribe, Fed<'y>)>,
) -> Result<Ended, ServerFault> {
    let Follows {
        doors,
        settings,
        ..
    } = *follows;
    thread::scope(
        thread::scope_env(),
        rt,
        |scope|
            requires { IsSync H.row × IsSend B.row × IsSync Y.row × IsSync G.row × IsSync E.row
                × IsSync K.row }
        {
            start_threads(rt, scope, led, own);
            let ended = match told {
                None => serve_boards_at(rt, alloc, doors, boards, gate, settings, events, ending),
                Some((scribe, fed)) => serve_fed(
                    rt, log, alloc, doors, boards, gate, settings, events, ending, scribe, &fed,
                ),
            };
            led.end(rt, None);
            ended
        },
    )
}

// Starts the thread that goes on as the leader tells, and the one that counts the time.
fn start_threads<
    's,
    'e: 's,
    Y: Led + Sync,
    H: Threads + Wait + Clock + Net<Listener = TcpListener, Stream = TcpStream> + Sync,
>(rt: &'e H, scope: &'s Scope<'s, &'e ()>, led: &'e Y, own: Own)
    requires { IsSync H.row × IsSync Y.row }
{
    let started = scope.spawn(
        move ||
            requires { IsSync H.row × IsSync Y.row }
        { led.keep_course(rt, own) },
    );
    let ticks = scope.spawn(
        move ||
            requires { IsSync H.row × IsSync Y.row }
        { led.keep_time(rt) },
    );
    if started.is_err() || ticks.is_err() {
        led.end(rt, Some(Fault::Memory));
    }
}
