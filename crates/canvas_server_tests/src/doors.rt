//! A line served at its doors, behind a gate, with its clients on threads beside it.

ghost use Rattle.std.specs.Prelude.{◌≡◌};

use crate::asserts::{equal, holds};
use crate::crowd::{PICTURE, WHITE};
use crate::gates::{Counts, Few, Slow, Stuck};
use crate::servers::{NO_SEATS, RED, ask, connected, listening};
use canvas_doc::Document;
use canvas_doors::{Door, Events, Quiet, Settles};
use canvas_line::{Line, Lines, Opened};
use canvas_server::{DoorSettings, Ended, ServerFault, serve_doors};
use std::alloc::Global;
use std::io::{Read, Write};
use std::marker::Brand;
use std::net::{Net, SocketAddr, TcpListener, TcpStream};
use std::os::unix::net;
use std::os::unix::net::{UnixListener, UnixStream};
use std::process::Abort;
use std::sync::Wait;
use std::thread;
use std::thread::Threads;
use std::time::{Clock, Duration, Instant};

const SETTINGS: DoorSettings = DoorSettings {
    keep: 2,
    workers: 1,
    idle: 0,
    share: 64,
    gateways: 0,
};

/// The reply to the first edit.
const MADE: &str = "{\"body\":0,\"id\":1,\"ok\":true,\"version\":1}\n";

const POINT: &str = "{\"verb\":\"point\",\"x\":0,\"y\":0}\n";

/// The reply to a point of the red rectangle.
const RED_POINT: &str = "{\"body\":0,\"colour\":\"ff0000\",\"ok\":true,\"version\":1}\n";

// Serves an empty document that takes ten changes at doors, with so many seats.
fn serve_at<G, E, H>(
    rt: &H,
    alloc: Global,
    doors: &[Door],
    seats: u32,
    gate: &G,
    settings: &DoorSettings,
    events: &E,
) -> Result<Ended, ServerFault>
where
    G: Settles + Sync,
    E: Events + Sync,
    H: Threads + Wait + Clock + Net + Abort + Sync,
{
    let document = Document::empty(alloc);
    opened::<Brand, G, E, H>(
        rt,
        alloc,
        Opened::new(),
        document,
        doors,
        seats,
        gate,
        settings,
        events,
    )
}

fn opened<L, G, E, H>(
    rt: &H,
    alloc: Global,
    opened: Opened,
    document: Document,
    doors: &[Door],
    seats: u32,
    gate: &G,
    settings: &DoorSettings,
    events: &E,
) -> Result<Ended, ServerFault>
where
    L: Lines + Send + Sync,
    G: Settles + Sync,
    E: Events + Sync,
    H: Threads + Wait + Clock + Net + Abort + Sync,
    requires { L.line 1 ≡ record { book = opened.head.word.book; opening = document; limit = 10 } }
{
    let seats = Line::open::<L, H>(rt, alloc, opened, 1, document, seats, 10);
    let seats = seats.expect(rt, "a line");
    serve_doors(rt, alloc, doors, seats, gate, settings, events)
}

// One door on the loopback, and its address.
fn door<H: Net<Listener = TcpListener, Stream = TcpStream> + Abort>(
    rt: &H,
) -> ([Door; 1], SocketAddr) {
    let (listener, address) = listening(rt);
    ([Door::Tcp(listener)], address)
}

// What a client reads until the server closes the connection.
fn rest_of(alloc: Global, stream: &TcpStream) -> Vec<u8> {
    let mut stream = stream;
    let mut rest = Vec::new(alloc);
    // A connection that is reset has no more.
    let _ = stream.read_to_end(&mut rest);
    rest
}

// Makes the red rectangle, and says whether the reply is right and the last.
fn makes_red<H: Net<Stream = TcpStream> + Abort>(rt: &H, address: SocketAddr) -> bool {
    let stream = connected(rt, address).expect(rt, "an editor");
    let mut reply = [0u8; 40];
    ask(rt, &stream, RED, &mut reply);
    reply.as_slice() == MADE.as_bytes()
}

// Looks at the red rectangle over a socket of this machine, and says whether the reply is right.
fn sees_red<H: Net + Abort>(rt: &H, address: &net::SocketAddr) -> bool {
    let mut stream = UnixStream::connect_addr(rt, address).expect(rt, "a viewer");
    let mut reply = [0u8; 51];
    stream.write_all(POINT.as_bytes()).expect(rt, "a request");
    stream.read_exact(&mut reply).expect(rt, "its reply");
    reply.as_slice() == RED_POINT.as_bytes()
}

#[test]
fn two_doors_lead_to_one_line(rt: HostRuntime) {
    let alloc = rt.alloc();
    let (listener, address) = listening(&rt);
    // The system chooses a name that is no file.
    let unix = UnixListener::bind(&rt, "").expect(&rt, "a socket");
    let local = unix.local_addr().expect(&rt, "its address");
    let doors = [Door::Tcp(listener), Door::Unix(unix)];
    let counts = Counts::new();
    let (ended, (made, seen)) = thread::join(
        &rt,
        || serve_at(&rt, alloc, &doors, 2, &Few::new(2), &SETTINGS, &counts),
        || (makes_red(&rt, address), sees_red(&rt, &local)),
    );
    equal(&rt, "the end", &ended, &Ok(Ended::Asked));
    holds(&rt, "the edit", made);
    holds(&rt, "the look", seen);
    equal(&rt, "told", &counts.told(), &[2, 0, 2, 0]);
}

// Sends a line to a server that answers nothing, and says what comes until it closes the connection.
fn unanswered<H: Net<Stream = TcpStream> + Abort>(
    rt: &H,
    alloc: Global,
    address: SocketAddr,
) -> Vec<u8> {
    let stream = connected(rt, address).expect(rt, "an editor");
    (&stream).write_all(RED.as_bytes()).expect(rt, "a request");
    rest_of(alloc, &stream)
}

#[test]
fn nothing_leaves_that_is_not_settled(rt: HostRuntime) {
    let alloc = rt.alloc();
    let (doors, address) = door(&rt);
    let (ended, reply) = thread::join(
        &rt,
        || serve_at(&rt, alloc, &doors, 1, &Stuck, &SETTINGS, &Quiet),
        || unanswered(&rt, alloc, address),
    );
    equal(&rt, "the end", &ended, &Ok(Ended::Unsettled));
    holds(&rt, "no byte", reply.is_empty());
}

// Asks for a point so often, each time once the last reply has come, and says whether all replies were right.
fn looks<H: Net<Stream = TcpStream> + Abort>(rt: &H, address: SocketAddr, times: u32) -> bool {
    let stream = connected(rt, address).expect(rt, "a viewer");
    let mut right = true;
    for _ in 0..times {
        let mut reply = [0u8; 51];
        ask(rt, &stream, POINT, &mut reply);
        right = right && reply.as_slice() == WHITE.as_bytes();
    }
    right
}

#[test]
fn replies_wait_for_a_slow_gate(rt: HostRuntime) {
    let alloc = rt.alloc();
    let (doors, address) = door(&rt);
    let start = Instant::now(&rt).expect(&rt, "a clock");
    let gate = Slow {
        clock: &rt,
        milliseconds: 100,
        then: Few::new(3),
    };
    let (ended, right) = thread::join(
        &rt,
        || serve_at(&rt, alloc, &doors, 1, &gate, &SETTINGS, &Quiet),
        || looks(&rt, address, 3),
    );
    let time = start.elapsed(&rt).expect(&rt, "a clock");
    equal(&rt, "the end", &ended, &Ok(Ended::Asked));
    holds(&rt, "the replies", right);
    holds(&rt, "late", time >= Duration::from_millis(300));
}

// A client that says nothing until it is sent away, and one that then is answered.
fn silent_first<H: Net<Stream = TcpStream> + Abort>(
    rt: &H,
    alloc: Global,
    address: SocketAddr,
) -> (bool, bool) {
    let silent = connected(rt, address).expect(rt, "a silent client");
    let nothing = rest_of(alloc, &silent);
    (nothing.is_empty(), looks(rt, address, 1))
}

#[test]
fn a_silent_session_ends_and_its_seat_is_free(rt: HostRuntime) {
    let alloc = rt.alloc();
    let (doors, address) = door(&rt);
    let settings = DoorSettings {
        idle: 1,
        ..SETTINGS
    };
    let counts = Counts::new();
    let (ended, (silent, right)) = thread::join(
        &rt,
        || serve_at(&rt, alloc, &doors, 1, &Few::new(1), &settings, &counts),
        || silent_first(&rt, alloc, address),
    );
    equal(&rt, "the end", &ended, &Ok(Ended::Asked));
    holds(&rt, "silence", silent);
    holds(&rt, "the reply", right);
    equal(&rt, "told", &counts.told(), &[2, 1, 1, 0]);
}

// A viewer that has been answered once, a client without a seat, an edit of the viewer's, and what
// comes after that.
fn last_edit<H: Net<Stream = TcpStream> + Abort>(
    rt: &H,
    alloc: Global,
    address: SocketAddr,
) -> (bool, bool) {
    let viewer = connected(rt, address).expect(rt, "a viewer");
    let mut look = [0u8; 51];
    ask(rt, &viewer, POINT, &mut look);
    let turned_away = connected(rt, address).expect(rt, "a second client");
    let refusal = rest_of(alloc, &turned_away);
    let mut made = [0u8; 40];
    ask(rt, &viewer, RED, &mut made);
    let rest = rest_of(alloc, &viewer);
    let is_told = made.as_slice() == MADE.as_bytes() && rest.is_empty();
    (is_told, refusal.as_slice() == NO_SEATS.as_bytes())
}

#[test]
fn the_last_reply_leaves_before_the_end(rt: HostRuntime) {
    let alloc = rt.alloc();
    let (doors, address) = door(&rt);
    let counts = Counts::new();
    let (ended, (is_told, is_refused)) = thread::join(
        &rt,
        || serve_at(&rt, alloc, &doors, 1, &Few::new(2), &SETTINGS, &counts),
        || last_edit(&rt, alloc, address),
    );
    equal(&rt, "the end", &ended, &Ok(Ended::Asked));
    holds(&rt, "the last reply", is_told);
    holds(&rt, "no seat", is_refused);
    equal(&rt, "told", &counts.told(), &[1, 0, 1, 1]);
    equal(&rt, "counted", &counts.counted(), &[2, 0, 91]);
}

// Asks at once for pictures of twelve million bytes in all, and takes nothing of them.
fn greedy<H: Net<Stream = TcpStream> + Abort>(
    rt: &H,
    alloc: Global,
    address: SocketAddr,
) -> TcpStream {
    let stream = connected(rt, address).expect(rt, "a client");
    let mut lines = Vec::new(alloc);
    for _ in 0..64u32 {
        lines
            .extend_from_slice(PICTURE.as_bytes())
            .expect(rt, "memory");
    }
    (&stream).write_all(&lines).expect(rt, "requests");
    stream
}

#[test]
fn a_client_that_takes_nothing_holds_up_no_end(rt: HostRuntime) {
    let alloc = rt.alloc();
    let (doors, address) = door(&rt);
    let (ended, stream) = thread::join(
        &rt,
        || serve_at(&rt, alloc, &doors, 1, &Few::new(1), &SETTINGS, &Quiet),
        || greedy(&rt, alloc, address),
    );
    equal(&rt, "the end", &ended, &Ok(Ended::Asked));
    drop(stream);
}

#[test]
fn bad_settings_come_before_the_doors(rt: HostRuntime) {
    let (doors, _) = door(&rt);
    for (keep, workers, fault) in &[
        (257, 17, ServerFault::BadSetting),
        (256, 17, ServerFault::BadWorkers),
        (0, 0, ServerFault::BadWorkers),
    ] {
        let settings = DoorSettings {
            keep: *keep,
            workers: *workers,
            ..SETTINGS
        };
        let ended = serve_at(&rt, rt.alloc(), &doors, 1, &Stuck, &settings, &Quiet);
        equal(&rt, "the end", &ended, &Err(*fault));
    }
    let ended = serve_at(&rt, rt.alloc(), &[], 1, &Stuck, &SETTINGS, &Quiet);
    equal(&rt, "no door", &ended, &Err(ServerFault::BadSetting));
}
