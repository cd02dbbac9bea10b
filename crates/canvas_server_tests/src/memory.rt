//! A server for which memory may be refused: run with each allocation refused in turn, it ends
//! before the first connection, or answers it or closes it, and it serves another one afterwards.

use crate::asserts::{equal, holds};
use crate::crowd::{WHITE, asking};
use crate::servers::{served, settings};
use canvas_server::ServerFault;
use std::alloc::Global;
use std::io::{ErrorKind, Read};
use std::net::{Net, OpenListener, TcpListener, TcpStream};
use std::process::Abort;
use std::sync::Wait;
use std::test::Fail;
use std::thread::Threads;
use std::time::Clock;

const WANT: &str = "{\"body\":0,\"code\":1,\"name\":\"OutOfMemory\",\"ok\":false}\n";

// Whether a connection is answered, is told of want of memory, or is closed without an answer.
fn is_right(stream: &TcpStream, reply: &mut Vec<u8>) -> bool {
    let mut stream = stream;
    match stream.read_to_end(reply) {
        Ok(_) => {
            reply.is_empty()
                || reply.as_slice() == WHITE.as_bytes()
                || reply.as_slice() == WANT.as_bytes()
        }
        Err(fault) => reply.is_empty() && fault.kind() == ErrorKind::ConnectionReset,
    }
}

#[test]
fn a_server_with_little_memory(rt: HostRuntime) -> Result<(), Fail> {
    let listener = TcpListener::bind(&rt, "127.0.0.1:0")?;
    let address = listener.local_addr()?;
    let alloc = rt.alloc();
    let mut reply = Vec::with_capacity(alloc, 128)?;
    // The first client waits until a server accepts its connection.
    let first = asking(&rt, address)?;
    match next_client(&rt, alloc, &listener, first, &mut reply)? {
        Some(waiting) => serve_next(&rt, alloc, &listener, &waiting, &mut reply),
        None => Ok(()),
    }
}

// The client that waits once a server has ended: the first one, where it ended before it accepted a
// connection, or another one. None where the first was answered in full.
fn next_client<H: Threads + Wait + Clock + Net<Stream = TcpStream> + Abort + Sync>(
    rt: &H,
    alloc: Global,
    listener: &TcpListener,
    first: TcpStream,
    reply: &mut Vec<u8>,
) -> Result<Option<TcpStream>, Fail> {
    match served(rt, alloc, listener, &settings(2, 1, 1)) {
        Ok(()) => {
            holds(rt, "the reply", is_right(&first, reply));
            drop(first);
            if reply.as_slice() == WHITE.as_bytes() {
                return Ok(None);
            }
            Ok(Some(asking(rt, listener.local_addr()?)?))
        }
        Err(fault) => {
            equal(rt, "the end", &fault, &ServerFault::OutOfMemory);
            Ok(Some(first))
        }
    }
}

// Serves a client that waits, which is answered in full.
fn serve_next<H: Threads + Wait + Clock + Abort + Sync>(
    rt: &H,
    alloc: Global,
    listener: &TcpListener,
    waiting: &TcpStream,
    reply: &mut Vec<u8>,
) -> Result<(), Fail> {
    let mut waiting = waiting;
    reply.clear();
    let ended = served(rt, alloc, listener, &settings(2, 1, 1));
    holds(rt, "served", ended.is_ok());
    waiting.read_to_end(reply)?;
    holds(rt, "a point", reply.as_slice() == WHITE.as_bytes());
    Ok(())
}
