//! Connections to the sessions of a leader, by which edits are handed on.

use crate::addresses::{Address, address_of};
use crate::leader::Away;
use canvas_doors::Stream;
use canvas_follow::{Handed, Leader, Outcome, read_outcome};
use log::{Log, info, warn};
use std::alloc::Global;
use std::io;
use std::io::{ErrorKind, Read, Write};
use std::net::{Net, TcpListener, TcpStream, ToSocketAddrs};
use std::os::unix::net::UnixStream;
use std::sync::atomic::{AtomicBool, Ordering};
use std::sync::{Condvar, CondvarTimeouts, Mutex, MutexGuard, Wait};
use std::time::{Clock, Duration};

/// How many connections there are at most: so many seats of the leader a follower takes.
const MOST_LANES: usize = 8;

/// After how many edits a connection makes way for a new one, since a session answers 1,000,000 lines.
const MOST_EDITS: u32 = 900_000;

/// How many seconds a connection may take to be made.
const CONNECTING: u64 = 3;

/// How many seconds a reply may take, and the wait for a connection that is free.
const PATIENCE: u64 = 10;

/// Room for a reply, which has at most 160 bytes.
const REPLY_ROOM: usize = 256;

/// A connection to an address, made in a few seconds or not at all.
pub fn connect_to<H: Net<Listener = TcpListener, Stream = TcpStream>>(
    rt: &H,
    word: &str,
) -> io::Result<Stream> {
    match address_of(word) {
        Address::Unix(path) => Ok(Stream::Unix(UnixStream::connect(rt, path)?)),
        Address::Tcp(address) => Ok(Stream::Tcp(connect_tcp(rt, address)?)),
    }
}

fn connect_tcp<H: Net<Listener = TcpListener, Stream = TcpStream>>(
    rt: &H,
    address: &str,
) -> io::Result<TcpStream> {
    let mut last = io::Error::from(ErrorKind::AddrNotAvailable);
    for found in address.to_socket_addrs(rt)? {
        match TcpStream::connect_timeout(rt, &found, Duration::from_secs(CONNECTING)) {
            Ok(stream) => return Ok(stream),
            Err(error) => last = error,
        }
    }
    Err(last)
}

// One connection, by which so many edits were handed on.
#[derive(Drop)]
struct Lane {
    stream: Stream,
    asked: u32,
}

impl Lane {
    // Whether the leader still listens, and has sent nothing that was not asked for.
    fn is_open(&self) -> bool {
        let mut byte = [0u8; 1];
        let mut reader = &self.stream;
        if set_waiting(&self.stream, false).is_err() {
            return false;
        }
        let has_waited = match reader.read(&mut byte) {
            Ok(_) => false,
            Err(error) => error.kind() == ErrorKind::WouldBlock,
        };
        has_waited && set_waiting(&self.stream, true).is_ok()
    }

    // Hands an edit's line on, and reads what comes back.
    fn hand_on(&mut self, line: &[u8]) -> Handed {
        self.asked = self.asked.saturating_add(1);
        let mut writer = &self.stream;
        // A line that was not taken whole has no end there.
        if writer.write_all(line).is_err() {
            return Handed::Unsent;
        }
        match self.read_outcome() {
            // No seat was free, or the session had ended before the line.
            Some(Outcome::Refused { code: 19 | 70 | 73 }) => Handed::Unsent,
            Some(outcome) => Handed::Answered(outcome),
            None => Handed::Lost,
        }
    }

    fn read_outcome(&self) -> Option<Outcome> {
        let mut reply = [0u8; REPLY_ROOM];
        let mut count = 0;
        let mut reader = &self.stream;
        for _ in 0..REPLY_ROOM {
            if REPLY_ROOM <= count {
                return None;
            }
            match reader.read(&mut reply[count..]) {
                Ok(more) if more > 0 => count += more,
                _ => return None,
            }
            let (known, _) = reply.split_at(count);
            if known.ends_with(b"\n") {
                return read_outcome(known);
            }
        }
        None
    }
}

fn set_waiting(stream: &Stream, waits: bool) -> io::Result<()> {
    match stream {
        Stream::Tcp(stream) => stream.set_nonblocking(!waits),
        Stream::Unix(stream) => stream.set_nonblocking(!waits),
    }
}

// The connections that are free, and how many there are with those that are in use.
#[derive(Drop)]
struct Pool {
    free: Vec<Lane>,
    count: usize,
}

/// The connections to the sessions of a leader.
#[derive(Drop)]
pub struct Lanes<'w, H, K: Log> {
    rt: &'w H,
    log: &'w K,
    alloc: Global,
    address: &'w str,
    // Whether the leader's feed is away, by which an edit comes back.
    is_away: &'w AtomicBool,
    // Whether it was told that the leader takes no edits.
    is_told: AtomicBool,
    pool: Mutex<Pool>,
    // Word that a connection is free.
    word: Condvar,
}

impl<'w, H: Wait + Clock + Net<Listener = TcpListener, Stream = TcpStream>, K: Log> Lanes<
    'w,
    H,
    K,
> {
    /// None so far, to the sessions at an address. While its feed is away no edit is handed on.
    pub fn new(
        rt: &'w H,
        log: &'w K,
        alloc: Global,
        address: &'w str,
        is_away: &'w AtomicBool,
    ) -> Lanes<'w, H, K> {
        let pool = Pool {
            free: Vec::new(alloc),
            count: 0,
        };
        Lanes {
            rt,
            log,
            alloc,
            address,
            is_away,
            is_told: AtomicBool::new(false),
            pool: Mutex::new(pool),
            word: Condvar::new(),
        }
    }

    // A connection that is in use from now on: one that was free, or a new one. There is none where
    // all are in use for too long.
    fn take<R: Wait>(&self, rt: &R) -> Option<Lane> {
        let mut pool = self.pool.lock(rt);
        for _ in rt.forever() {
            match pool.free.pop() {
                Some(lane) if lane.is_open() => return Some(lane),
                Some(_) => pool.count = pool.count.saturating_sub(1),
                None if pool.count < MOST_LANES => {
                    pool.count += 1;
                    drop(pool);
                    return self.new_lane(rt);
                }
                None => pool = self.wait_for_one(pool)?,
            }
        }
        unreachable!()
    }

    // Waits until a connection may be free.
    fn wait_for_one<'p>(&self, pool: MutexGuard<'p, Pool>) -> Option<MutexGuard<'p, Pool>> {
        let patience = Duration::from_secs(PATIENCE);
        let (pool, waited) = self.word.wait_timeout(self.rt, pool, patience);
        if waited.timed_out() { None } else { Some(pool) }
    }

    // A new connection, which was counted.
    fn new_lane<R: Wait>(&self, rt: &R) -> Option<Lane> {
        match self.connected() {
            Ok(stream) => Some(Lane { stream, asked: 0 }),
            Err(error) => {
                self.tell_away(Away::from(error).name());
                self.forget(rt);
                None
            }
        }
    }

    fn connected(&self) -> io::Result<Stream> {
        let stream = connect_to(self.rt, self.address)?;
        stream.set_nodelay()?;
        stream.set_read_timeout(Duration::from_secs(PATIENCE))?;
        stream.set_write_timeout(Duration::from_secs(PATIENCE))?;
        Ok(stream)
    }

    // Says once that the leader takes no edits.
    fn tell_away(&self, why: &str) {
        if !self.is_told.swap(true, Ordering::SeqCst) {
            warn!(*self.log; "the leader's sessions at {} take no edits ({why}): they are refused until it does", self.address);
        }
    }

    // Says that the leader takes edits again, where it was said that it does not.
    fn tell_back(&self) {
        if self.is_told.load(Ordering::SeqCst) && self.is_told.swap(false, Ordering::SeqCst) {
            info!(*self.log; "the leader's sessions at {} take edits again", self.address);
        }
    }

    // Counts a connection no more.
    fn forget<R: Wait>(&self, rt: &R) {
        let mut pool = self.pool.lock(rt);
        pool.count = pool.count.saturating_sub(1);
        self.word.notify_one();
    }

    // Gives a connection back that is well.
    fn give_back<R: Wait>(&self, rt: &R, lane: Lane) {
        let mut pool = self.pool.lock(rt);
        if pool.free.push(lane).is_err() {
            pool.count = pool.count.saturating_sub(1);
        }
        self.word.notify_one();
    }
}

impl<H: Wait + Clock + Net<Listener = TcpListener, Stream = TcpStream>, K: Log> Leader
    for Lanes<'_, H, K> {
    fn hand_on<R: Wait>(&self, rt: &R, text: &[u8]) -> Handed {
        if self.is_away.load(Ordering::SeqCst) {
            return Handed::Unsent;
        }
        let mut line = match Vec::from_slice(self.alloc, text) {
            Ok(line) => line,
            Err(_) => return Handed::Unsent,
        };
        if line.push(b'\n').is_err() {
            return Handed::Unsent;
        }
        let Some(mut lane) = self.take(rt) else {
            return Handed::Unsent;
        };
        let handed = lane.hand_on(&line);
        let is_answered = matches!(handed, Handed::Answered(_));
        match handed {
            Handed::Answered(_) => self.tell_back(),
            Handed::Unsent => self.tell_away("it has no seat, or ends"),
            Handed::Lost => self.tell_away("a reply did not come"),
        }
        if is_answered && lane.asked < MOST_EDITS {
            self.give_back(rt, lane);
        } else {
            self.forget(rt);
        }
        handed
    }
}
