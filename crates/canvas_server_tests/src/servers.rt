//! Servers on the loopback, with their clients on threads beside them.

use crate::asserts::{equal, holds};
use canvas_doc::Document;
use canvas_server::{ServerFault, Settings, serve_connections};
use std::alloc::Global;
use std::io::{Read, Write};
use std::net::{Net, OpenListener, OpenStream, SocketAddr, TcpListener, TcpStream};
use std::process::Abort;
use std::sync::Wait;
use std::thread::Threads;
use std::time::{Clock, Duration};
use std::{io, thread};

pub(crate) const RED: &str =
    "{\"verb\":\"create\",\"shape\":{\"kind\":\"rect\",\"w\":1,\"h\":1,\"fill\":\"ff0000\"}}\n";

const BLUE: &str =
    "{\"verb\":\"create\",\"shape\":{\"kind\":\"rect\",\"w\":1,\"h\":1,\"fill\":\"0000ff\"},\"pose\":{\"dx\":1}}\n";

const PATCH: &str = "{\"verb\":\"patch\",\"x\":0,\"y\":0,\"w\":2,\"h\":1}\n";

const PATCH_REPLY: &str = "{\"body\":17,\"ok\":true,\"version\":2}\nP6\n2 1\n255\n";

pub(crate) const NO_SEATS: &str = "{\"body\":0,\"code\":19,\"name\":\"NoSeats\",\"ok\":false}\n";

// Where the number of the version stands in the reply to an accepted edit, and to a patch.
const EDIT_VERSION: usize = 37;

const PATCH_VERSION: usize = 31;

/// Settings of a server that takes ten changes and whose seats keep two pictures each.
pub(crate) fn settings(seats: u32, workers: u32, connections: u64) -> Settings {
    Settings {
        seats,
        limit: 10,
        keep: 2,
        workers,
        connections,
    }
}

/// A connection whose reads wait 20 seconds at most.
pub(crate) fn connected<H: Net<Stream = TcpStream>>(
    rt: &H,
    address: SocketAddr,
) -> io::Result<TcpStream> {
    let stream = TcpStream::connect(rt, address)?;
    let timed = stream.set_read_timeout(Some(Duration::from_secs(20)));
    timed.and(Ok(stream))
}

/// Sends a line, and reads as many bytes of what is answered as the reply holds.
pub(crate) fn ask(rt: &impl Abort, stream: &TcpStream, line: &str, reply: &mut [u8]) {
    let mut stream = stream;
    stream.write_all(line.as_bytes()).expect(rt, "a request");
    stream.read_exact(reply).expect(rt, "its reply");
}

/// A listener on the loopback, and its address.
pub(crate) fn listening<H: Net<Listener = TcpListener, Stream = TcpStream> + Abort>(
    rt: &H,
) -> (TcpListener, SocketAddr) {
    let listener = TcpListener::bind(rt, "127.0.0.1:0").expect(rt, "a listener");
    let address = listener.local_addr().expect(rt, "an address");
    (listener, address)
}

/// Serves an empty document to connections.
pub(crate) fn served<H: Threads + Wait + Clock + Sync>(
    rt: &H,
    alloc: Global,
    listener: &TcpListener,
    settings: &Settings,
) -> Result<(), ServerFault> {
    serve_connections(rt, alloc, listener, Document::empty(alloc), settings)
}

// The reply to an edit in a session of its own.
fn edit<H: Net<Stream = TcpStream> + Abort>(rt: &H, address: SocketAddr, line: &str) -> [u8; 40] {
    let stream = connected(rt, address).expect(rt, "an editor");
    let mut reply = [0u8; 40];
    ask(rt, &stream, line, &mut reply);
    reply
}

// The reply to a patch, asked for until it shows a version, at most 1,000 times.
fn view(rt: &impl Abort, stream: &TcpStream, version: u8) -> [u8; 51] {
    let mut reply = [0u8; 51];
    for _ in 0..1000u32 {
        ask(rt, stream, PATCH, &mut reply);
        if reply[PATCH_VERSION] == version {
            break;
        }
    }
    reply
}

#[test]
fn a_viewer_sees_what_two_editors_made(rt: HostRuntime) {
    let (listener, address) = listening(&rt);
    let alloc = rt.alloc();
    let (ended, (red, blue, viewed)) = thread::join(
        &rt,
        || served(&rt, alloc, &listener, &settings(3, 2, 3)),
        || {
            // The viewer is answered before the editors come.
            let viewer = connected(&rt, address).expect(&rt, "a viewer");
            view(&rt, &viewer, b'0');
            let (red, blue) = thread::join(
                &rt,
                || edit(&rt, address, RED),
                || edit(&rt, address, BLUE),
            );
            (red, blue, view(&rt, &viewer, b'2'))
        },
    );
    holds(&rt, "served", ended.is_ok());
    let versions = [red[EDIT_VERSION], blue[EDIT_VERSION]];
    let is_each = versions == [b'1', b'2'] || versions == [b'2', b'1'];
    holds(&rt, "two versions", is_each);
    let is_viewed = viewed.starts_with(PATCH_REPLY.as_bytes());
    holds(&rt, "the reply", is_viewed);
    holds(&rt, "pixels", viewed.ends_with(&[255, 0, 0, 0, 0, 255]));
}

// What a second connection reads while the first, which was answered once, is still open.
fn second<H: Net<Stream = TcpStream> + Abort>(rt: &H, address: SocketAddr) -> [u8; 49] {
    let first = connected(rt, address).expect(rt, "a first client");
    ask(rt, &first, PATCH, &mut [0u8; 51]);
    refusal(rt, address)
}

// What a connection reads that asks nothing.
fn refusal<H: Net<Stream = TcpStream> + Abort>(rt: &H, address: SocketAddr) -> [u8; 49] {
    let stream = connected(rt, address).expect(rt, "a second client");
    let mut reply = [0u8; 49];
    (&stream).read_exact(&mut reply).expect(rt, "a refusal");
    reply
}

#[test]
fn a_full_house_says_so(rt: HostRuntime) {
    let (listener, address) = listening(&rt);
    let alloc = rt.alloc();
    let (ended, reply) = thread::join(
        &rt,
        || served(&rt, alloc, &listener, &settings(1, 1, 2)),
        || second(&rt, address),
    );
    holds(&rt, "served", ended.is_ok());
    holds(&rt, "no seats", reply.as_slice() == NO_SEATS.as_bytes());
}

#[test]
fn bad_settings_come_first(rt: HostRuntime) {
    let (listener, _) = listening(&rt);
    for (seats, workers, fault) in &[
        (0, 17, ServerFault::BadSetting),
        (65, 1, ServerFault::BadSetting),
        (1, 17, ServerFault::BadWorkers),
        (1, 0, ServerFault::BadWorkers),
    ] {
        let settings = settings(*seats, *workers, 1);
        let ended = served(&rt, rt.alloc(), &listener, &settings);
        equal(&rt, "the end", &ended, &Err(*fault));
    }
}

#[test]
fn a_listener_that_accepts_nothing_ends_the_server(rt: HostRuntime) {
    let (listener, _) = listening(&rt);
    listener.set_nonblocking(true).expect(&rt, "no waiting");
    let fault = ServerFault::AcceptFault;
    let ended = served(&rt, rt.alloc(), &listener, &settings(1, 1, 0));
    equal(&rt, "the end", &ended, &Err(fault));
    let told = (fault.code(), fault.name());
    equal(&rt, "number and name", &told, &(None, "AcceptFault"));
}
