//! Connections, each served by a thread of its own from a seat of its own.

ghost use denote.Param.Send.{IsSend, IsSync};
ghost use Rattle.std.specs.Prelude.{◌≡◌, ◌<◌, OnOk, IfErr, length};
ghost use Rattle.canvas_server.specs.declared.server_fault.ServerFault.TheVariants.{AcceptFault};

use crate::at_doors::DoorSettings;
use crate::server_fault::ServerFault;
use crate::visit::answer_visit;
use crate::workers::Workers;
use canvas_doors::{
    Accepts, Arrival, Call, Door, Ending, Events, Guest, OwnDoor, Quiet, Seats, Settles, Settling,
    Shares, Stream, Unkept, close_doors, next_stream, refuse, settle_counted,
};
use canvas_look::Board;
use std::alloc::Global;
use std::net::{Net, TcpListener};
use std::sync::{Mutex, Wait};
use std::thread;
use std::thread::{Scope, Threads};
use std::time::Clock;

/// What the threads of a server share: a board for each seat, which seats are taken and how they are
/// shared, and how many connections are being settled; the gate that sessions ask, who is told of them, after how many
/// silent seconds they end (0 for never), and the server's end.
#[derive(Drop)]
pub struct House<'a, B: Board, G: Settles, E: Events> {
    pub alloc: Global,
    boards: &'a [Mutex<B>],
    seats: &'a Mutex<Seats>,
    shares: Shares,
    settling: &'a Mutex<Settling>,
    pub workers: Workers,
    pub gate: &'a G,
    pub events: &'a E,
    pub idle: u64,
    pub ending: &'a Ending,
}

/// Serves so many connections, or without end where the number is 0, each with a board that no
/// other session has. There is a board for each seat. Returns when all sessions have ended.
pub fn serve_boards<H: Threads + Wait + Clock + Sync, B: Board + Send>(
    rt: &H,
    alloc: Global,
    listener: &TcpListener,
    boards: &[Mutex<B>],
    seats: u32,
    workers: Workers,
    connections: u64,
) -> Result<(), ServerFault>
    requires { length boards.now ≡ seats }
    ensures served { OnOk result (0 < connections) }
    ensures fault { IfErr result (λ fault. fault ≡ AcceptFault) }
{
    // Anybody may have any seat.
    let shares = Shares {
        count: boards.len(),
        own: 0,
        each: boards.len(),
    };
    let seats = Mutex::new(Seats::new());
    let settling = Mutex::new(Settling::new());
    let gate = Unkept;
    let events = Quiet;
    let ending = Ending::never(alloc);
    let house = House {
        alloc,
        boards,
        seats: &seats,
        shares,
        settling: &settling,
        workers,
        gate: &gate,
        events: &events,
        idle: 0,
        ending: &ending,
    };
    let house = &house;
    let ended = thread::scope(
        thread::scope_env(),
        rt,
        |scope|
            requires { IsSync H.row × IsSend B.row }
        { accept_each(rt, scope, house, listener, connections) },
    );
    if ended.is_err() || connections == 0 {
        return Err(ServerFault::AcceptFault);
    }
    Ok(())
}

/// Serves the connections that come to several doors, each door on a thread of its own, until
/// something ends the server, and says what. There is a board for each seat. Returns when all
/// sessions have ended.
pub fn serve_until<
    'a,
    H: Threads + Wait + Clock + Net + Sync,
    B: Board + Send,
    G: Settles + Sync,
    E: Events + Sync,
>(
    rt: &H,
    alloc: Global,
    doors: &[Door],
    boards: &'a [Mutex<B>],
    seats: usize,
    workers: Workers,
    gate: &'a G,
    events: &'a E,
    settings: &DoorSettings,
    ending: &'a Ending,
) -> Call
    requires { length boards.now ≡ seats }
{
    let shares = settings.shares(boards.len());
    let shared_doors = doors.len().saturating_sub(settings.gateways);
    let seats = Mutex::new(Seats::new());
    let settling = Mutex::new(Settling::new());
    let house = House {
        alloc,
        boards,
        seats: &seats,
        shares,
        settling: &settling,
        workers,
        gate,
        events,
        idle: settings.idle,
        ending,
    };
    let house = &house;
    thread::scope(
        thread::scope_env(),
        rt,
        |scope|
            requires { IsSync H.row × IsSend B.row × IsSync G.row × IsSync E.row }
        {
            open_doors(rt, scope, house, doors, shared_doors);
            ending.wait(rt);
            close_doors(rt, doors, ending)
        },
    );
    ending.wait(rt)
}

// Starts a thread at each door. The first ones share their seats, and the others have some of their own.
fn open_doors<
    's,
    'e: 's,
    H: Threads + Wait + Clock + Sync,
    B: Board + Send,
    G: Settles + Sync,
    E: Events + Sync,
>(
    rt: &'e H,
    scope: &'s Scope<'s, &'e ()>,
    house: &'e House<'e, B, G, E>,
    doors: &'e [Door],
    shared_doors: usize,
)
    requires { IsSync H.row × IsSend B.row × IsSync G.row × IsSync E.row }
{
    for (index, door) in doors.iter().enumerate() {
        let is_own = shared_doors <= index;
        let started = scope.spawn(
            move ||
                requires { IsSync H.row × IsSend B.row × IsSync G.row × IsSync E.row }
            { keep_door(rt, scope, house, door, is_own) },
        );
        if started.is_err() {
            house.ending.begin(rt, Call::DoorFault);
        }
    }
}

// Accepts at a door until the server ends, or until no connection can be accepted there any more,
// which ends it.
fn keep_door<
    's,
    'e: 's,
    H: Threads + Wait + Clock + Sync,
    B: Board + Send,
    G: Settles + Sync,
    E: Events + Sync,
>(rt: &'e H, scope: &'s Scope<'s, &'e ()>, house: &'e House<'e, B, G, E>, door: &Door, is_own: bool)
    requires { IsSync H.row × IsSend B.row × IsSync G.row × IsSync E.row }
{
    let ended = if is_own {
        accept_each(rt, scope, house, &OwnDoor(door), 0)
    } else {
        accept_each(rt, scope, house, door, 0)
    };
    if ended.is_err() {
        house.ending.begin(rt, Call::DoorFault);
    }
}

// Admits each connection that comes, until there were so many, the server ends, or none can be
// accepted any more.
fn accept_each<
    's,
    'e: 's,
    H: Threads + Wait + Clock + Sync,
    B: Board + Send,
    G: Settles + Sync,
    E: Events + Sync,
    D: Accepts,
>(
    rt: &'e H,
    scope: &'s Scope<'s, &'e ()>,
    house: &'e House<'e, B, G, E>,
    door: &D,
    connections: u64,
) -> Result<(), ServerFault>
    requires { IsSync H.row × IsSend B.row × IsSync G.row × IsSync E.row }
    ensures served { OnOk result (0 < connections) }
    ensures fault { IfErr result (λ fault. fault ≡ AcceptFault) }
{
    let mut left = connections;
    'accepts: for _ in rt.forever() {
        match next_stream(rt, door, house.ending) {
            Arrival::Over => break,
            Arrival::Missed => house.events.was_missed(),
            Arrival::Came(stream, guest) => {
                admit(rt, scope, house, stream, guest);
                if left == 1 {
                    return Ok(());
                }
                left = left.saturating_sub(1);
            }
        }
    }
    Err(ServerFault::AcceptFault)
}

// Lends a free seat to a connection, on a thread of its own; where there is none that the guest may
// have, says so and closes it.
fn admit<
    's,
    'e: 's,
    H: Threads + Wait + Clock + Sync,
    B: Board + Send,
    G: Settles + Sync,
    E: Events + Sync,
>(
    rt: &'e H,
    scope: &'s Scope<'s, &'e ()>,
    house: &'e House<'e, B, G, E>,
    stream: Stream,
    guest: Guest,
)
    requires { IsSync H.row × IsSend B.row × IsSync G.row × IsSync E.row }
{
    let found = house.seats.lock(rt).take(guest, &house.shares);
    match found {
        None => {
            house.events.was_full();
            turn_away(rt, scope, house.settling, stream);
        }
        Some(seat) => {
            if let Some(board) = house.boards.get(seat) {
                let started = scope.spawn(move || session(rt, house, seat, board, &stream));
                if started.is_err() {
                    house.seats.lock(rt).give_back(seat);
                }
            }
        }
    }
}

// Tells a connection that no seat is free, and closes it. The reply is written at once, into a
// connection that holds nothing yet; a thread of its own then settles the connection, unless too
// many are being settled.
fn turn_away<'s, 'e: 's, H: Threads + Wait + Clock + Sync>(
    rt: &'e H,
    scope: &'s Scope<'s, &'e ()>,
    settling: &'e Mutex<Settling>,
    stream: Stream,
)
    requires { IsSync H.row }
{
    refuse(&stream);
    if settling.lock(rt).begin() {
        let started = scope.spawn(move || settle_counted(rt, settling, &stream));
        if started.is_err() {
            settling.lock(rt).end();
        }
    }
}

// Serves one connection from a seat, and leaves the seat before the connection is settled and closed.
fn session<H: Threads + Wait + Clock + Sync, B: Board, G: Settles, E: Events>(
    rt: &H,
    house: &House<B, G, E>,
    seat: usize,
    board: &Mutex<B>,
    stream: &Stream,
) {
    let told = answer_visit(rt, house, &mut *board.lock(rt), seat, stream);
    house.seats.lock(rt).give_back(seat);
    if told && house.settling.lock(rt).begin() {
        settle_counted(rt, house.settling, stream);
    }
}
