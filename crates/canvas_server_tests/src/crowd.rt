//! A server of one seat and its 1,001 connections, the first of which goes away in the middle of a picture.

use crate::asserts::{equal, holds, holds_at};
use crate::servers::{NO_SEATS, ask, connected, listening, served, settings};
use std::alloc::Global;
use std::io::{Read, Write};
use std::net::{Net, OpenStream, Shutdown, SocketAddr, TcpStream};
use std::process::Abort;
use std::time::{Clock, Duration};
use std::{io, thread};

pub(crate) const PICTURE: &str = "{\"verb\":\"patch\",\"x\":0,\"y\":0,\"w\":256,\"h\":256}\n";

const POINT: &str = "{\"verb\":\"point\",\"x\":0,\"y\":0}\n";

/// The reply to a point of an empty document.
pub(crate) const WHITE: &str = "{\"body\":0,\"colour\":\"ffffff\",\"ok\":true,\"version\":0}\n";

/// How many connections come after the first.
const OTHERS: u32 = 1_000;

// Asks for a picture of 196,623 bytes, reads the first ten bytes of the answer, and goes away.
fn leave<H: Net<Stream = TcpStream> + Abort>(rt: &H, address: SocketAddr) -> [u8; 10] {
    let stream = connected(rt, address).expect(rt, "a client");
    let mut head = [0u8; 10];
    ask(rt, &stream, PICTURE, &mut head);
    head
}

/// A connection that has asked for a point, and asks for no more.
pub(crate) fn asking<H: Net<Stream = TcpStream>>(
    rt: &H,
    address: SocketAddr,
) -> io::Result<TcpStream> {
    let stream = connected(rt, address)?;
    let written = (&stream).write_all(POINT.as_bytes());
    let ended = stream.shutdown(Shutdown::Write);
    written.and(ended).and(Ok(stream))
}

// What a connection that asks for a point reads until the server closes it.
fn asked<H: Net<Stream = TcpStream>>(
    rt: &H,
    alloc: Global,
    address: SocketAddr,
) -> io::Result<Vec<u8>> {
    let stream = asking(rt, address)?;
    let mut reply = Vec::new(alloc);
    let read = (&stream).read_to_end(&mut reply);
    read.and(Ok(reply))
}

fn is_told(answer: &io::Result<Vec<u8>>, line: &str) -> bool {
    match answer {
        Ok(reply) => reply.as_slice() == line.as_bytes(),
        Err(_) => false,
    }
}

// Connects 1,000 times, one after another, with a millisecond after each that finds no seat. How
// many were turned away before the first that was answered, and how many were answered.
fn ask_each<H: Net<Stream = TcpStream> + Clock>(
    rt: &H,
    alloc: Global,
    address: SocketAddr,
) -> (u32, u32) {
    let mut turned_away: u32 = 0;
    let mut answered: u32 = 0;
    for _ in 0..OTHERS {
        let answer = asked(rt, alloc, address);
        if is_told(&answer, WHITE) {
            answered = answered.saturating_add(1);
        } else if answered == 0 && is_told(&answer, NO_SEATS) {
            turned_away = turned_away.saturating_add(1);
            thread::sleep(rt, Duration::from_millis(1));
        }
    }
    (turned_away, answered)
}

#[test]
fn a_seat_comes_back_from_a_client_that_went_away(rt: HostRuntime) {
    let (listener, address) = listening(&rt);
    let alloc = rt.alloc();
    let (ended, (head, (turned_away, answered))) = thread::join(
        &rt,
        || served(&rt, alloc, &listener, &settings(1, 1, 1_001)),
        || (leave(&rt, address), ask_each(&rt, alloc, address)),
    );
    holds(&rt, "served", ended.is_ok());
    holds(&rt, "its head", head.starts_with(b"{\"body\":19"));
    // A seat is free before its connection is closed, so once one is answered all others are.
    holds_at(&rt, "answered", answered, answered > 0);
    let others = OTHERS.saturating_sub(answered);
    equal(&rt, "turned away before", &turned_away, &others);
}
