//! Answering those who ask how the server does.
ghost use denote.Param.Send.{IsSync};
ghost use Rattle.std.specs.Prelude.{◌≤◌, ◌+◌, IfOk};

use crate::words::VERSION;
use canvas_doors::{Accepts, Door, Stream, is_passing, settle};
use canvas_status::{Counts, Head, MOST_BYTES, Report, answer_of, read_head};
use std::alloc::Global;
use std::io::{ErrorKind, Read, Write};
use std::net::Net;
use std::sync::Wait;
use std::sync::atomic::{AtomicBool, Ordering};
use std::thread::{Scope, Threads};
use std::time::{Clock, Duration, Instant};
use std::{io, thread};

/// How many connections are answered at once, at all doors.
const THREADS: usize = 16;

/// How many seconds a connection has to say what it asks, and to take the answer.
const PATIENCE: u64 = 2;

/// For how many milliseconds a read waits before it is seen whether the program ends.
const GLANCE: u64 = 500;

/// How many milliseconds pass after an accept that failed.
const PAUSE: u64 = 10;

/// What the threads at the doors are told from.
#[derive(Drop)]
pub struct Desk<'a> {
    pub alloc: Global,
    pub counts: &'a Counts,
    pub seats: u32,
    pub begun: Instant,
    pub has_ended: AtomicBool,
}

impl Desk<'_> {
    // What is told now.
    fn report<H: Clock>(&self, rt: &H) -> Report {
        let seconds = match self.begun.elapsed(rt) {
            Ok(passed) => passed.as_secs(),
            Err(_) => 0,
        };
        Report {
            status: self.counts.status(VERSION, seconds, self.seats),
            health: self.counts.health(),
        }
    }

    fn has_ended(&self) -> bool {
        self.has_ended.load(Ordering::SeqCst)
    }
}

// How many threads stand at each of so many doors.
fn threads_at(doors: usize) -> usize {
    match doors {
        0 => 0,
        _ => (THREADS / doors).max(1),
    }
}

/// Starts the threads at the doors.
pub fn open_status<'s, 'e: 's, H: Threads + Wait + Clock + Sync>(
    rt: &'e H,
    scope: &'s Scope<'s, &'e ()>,
    desk: &'e Desk<'_>,
    doors: &'e [Door],
)
    requires { IsSync H.row }
{
    for door in doors {
        for _ in 0..threads_at(doors.len()) {
            // Where a thread can't be started, those that are there answer.
            let _ = scope.spawn(
                move ||
                    requires { IsSync H.row }
                { keep_door(rt, desk, door) },
            );
        }
    }
}

/// Has the threads at the doors end.
pub fn close_status<H: Net>(rt: &H, desk: &Desk<'_>, doors: &[Door]) {
    desk.has_ended.store(true, Ordering::SeqCst);
    for door in doors {
        if door.shut().is_err() {
            for _ in 0..threads_at(doors.len()) {
                door.wake(rt);
            }
        }
    }
}

// Answers the connections that come to a door, one after another, until the program ends.
fn keep_door<H: Wait + Clock>(rt: &H, desk: &Desk<'_>, door: &Door) {
    for _ in rt.forever() {
        let accepted = door.accept();
        if desk.has_ended() {
            return;
        }
        match accepted {
            Ok((stream, _)) => answer_visit(rt, desk, &stream),
            Err(error) => {
                if is_passing(&error) {
                    desk.counts.miss_connection();
                }
                thread::sleep(rt, Duration::from_millis(PAUSE));
            }
        }
    }
}

// Answers one request, and ends the connection.
fn answer_visit<H: Wait + Clock>(rt: &H, desk: &Desk<'_>, stream: &Stream) {
    let Some(head) = head_of(rt, desk, stream) else {
        return;
    };
    let Ok(bytes) = answer_of(desk.alloc, head, &desk.report(rt)) else {
        return;
    };
    let mut writer = stream;
    if stream
        .set_write_timeout(Duration::from_secs(PATIENCE))
        .is_ok()
        && writer.write_all(&bytes).is_ok()
    {
        settle(rt, stream);
    }
}

// What a connection asks; nothing where it said nothing, or took too long.
fn head_of<H: Clock>(rt: &H, desk: &Desk<'_>, stream: &Stream) -> Option<Head> {
    let begun = Instant::now(rt).ok()?;
    stream.set_read_timeout(Duration::from_millis(GLANCE)).ok()?;
    let mut bytes = [0u8; MOST_BYTES];
    let mut count = 0;
    'reads: for _ in 0..u64::MAX {
        if desk.has_ended() || PATIENCE <= begun.elapsed(rt).ok()?.as_secs() {
            return None;
        }
        match read_more(stream, &mut bytes, count) {
            Ok(0) if count == 0 => return None,
            Ok(0) => return Some(Head::Bad),
            Ok(more) => count += more,
            Err(error) if error.kind() == ErrorKind::WouldBlock => continue,
            Err(_) => return None,
        }
        match read_head(&bytes[..count]) {
            Head::Unfinished => {}
            head => return Some(head),
        }
    }
    None
}

// Reads behind the bytes that came, and says how many more there are.
fn read_more(stream: &Stream, bytes: &mut [u8; MOST_BYTES], count: usize) -> io::Result<usize>
    requires { count ≤ 8192 }
    ensures { IfOk result (λ more. count + more ≤ 8192) }
{
    let mut reader = stream;
    reader.read(&mut bytes[count..])
}
