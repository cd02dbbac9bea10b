//! An end of a server that begins inside: no more connections come in, and the sessions that are open end.

ghost use Rattle.std.specs.Prelude.{◌≡◌, ◌≤◌, vec_len};

use crate::doors::Stream;
use std::alloc::{AllocError, Global};
use std::net::Shutdown;
use std::sync::atomic::{AtomicBool, Ordering};
use std::sync::{Condvar, Mutex, Wait};

/// What ends a server.
#[derive(Clone, Copy, Debug, Drop, PartialEq, Eq)]
pub enum Call {
    /// The gate said that the server is to end.
    Asked,
    /// The gate could not settle.
    Unsettled,
    /// A door accepts no more connections.
    DoorFault,
}

/// Why a session does not begin.
#[derive(Clone, Copy, Debug, Drop, PartialEq, Eq)]
pub enum NoEntry {
    /// All seats are taken.
    Full,
    /// The end has begun, or the socket can't be held twice.
    Ended,
}

// What ended the server, where something has, and the sockets of the sessions that are open, by seat.
#[derive(Drop)]
struct Open {
    call: Option<Call>,
    sockets: Vec<Option<Stream>>,
}

impl Open {
    // Shuts down the socket of each session that is open.
    fn shut_down(&self, how: Shutdown) {
        for socket in &self.sockets {
            if let Some(stream) = socket {
                // A client that is gone needs none.
                let _ = stream.shutdown(how);
            }
        }
    }
}

/// The end of a server, as its threads share it.
#[derive(Drop)]
pub struct Ending {
    can_begin: bool,
    has_begun: AtomicBool,
    open: Mutex<Open>,
    word: Condvar,
}

impl Ending {
    /// The end of a server with so many seats. It has not begun.
    pub fn new(alloc: Global, seats: usize) -> Result<Ending, AllocError> {
        let mut sockets = Vec::with_capacity(alloc, seats)?;
        for _ in 0..seats {
            sockets.push(None)?;
        }
        Ok(Ending::with(true, sockets))
    }

    /// The end of a server that does not end inside.
    pub fn never(alloc: Global) -> Ending {
        Ending::with(false, Vec::new(alloc))
    }

    // An end that has not begun.
    fn with(can_begin: bool, sockets: Vec<Option<Stream>>) -> Ending {
        let open = Open {
            call: None,
            sockets,
        };
        Ending {
            can_begin,
            has_begun: AtomicBool::new(false),
            open: Mutex::new(open),
            word: Condvar::new(),
        }
    }

    /// Whether the end has begun.
    pub fn has_begun(&self) -> bool {
        self.has_begun.load(Ordering::SeqCst)
    }

    /// Notes the socket of a session that begins. False where the end has begun, or the socket
    /// can't be held twice: then there is to be no session.
    pub fn enter<H: Wait>(&self, rt: &H, seat: usize, stream: &Stream) -> bool {
        if !self.can_begin {
            return true;
        }
        let Ok(socket) = stream.try_clone() else {
            return false;
        };
        let mut open = self.open.lock(rt);
        if open.call.is_some() {
            return false;
        }
        match open.sockets.get_mut(seat) {
            Some(place) => {
                *place = Some(socket);
                true
            }
            None => false,
        }
    }

    /// Notes the socket of a session that begins at the first seat that has none. `Err` is why
    /// there is to be no session.
    pub fn enter_free<H: Wait>(&self, rt: &H, stream: &Stream) -> Result<usize, NoEntry> {
        let Ok(socket) = stream.try_clone() else {
            return Err(NoEntry::Ended);
        };
        let mut open = self.open.lock(rt);
        if open.call.is_some() {
            return Err(NoEntry::Ended);
        }
        let Some(seat) = open.sockets.iter().position(|socket| socket.is_none()) else {
            return Err(NoEntry::Full);
        };
        open.sockets[seat] = Some(socket);
        Ok(seat)
    }

    /// Forgets the socket of a session that has ended.
    pub fn leave<H: Wait>(&self, rt: &H, seat: usize) {
        if !self.can_begin {
            return;
        }
        let mut open = self.open.lock(rt);
        if let Some(place) = open.sockets.get_mut(seat) {
            *place = None;
        }
    }

    /// Begins the end, unless it has begun: no session takes in anything more, and what it has
    /// answered still leaves. Where the gate could not settle nothing leaves any more.
    pub fn begin<H: Wait>(&self, rt: &H, call: Call) {
        if !self.can_begin {
            return;
        }
        let mut open = self.open.lock(rt);
        if call == Call::Unsettled {
            open.shut_down(Shutdown::Both);
        } else if open.call.is_some() {
            return;
        } else {
            open.shut_down(Shutdown::Read);
        }
        open.call = Some(call);
        self.has_begun.store(true, Ordering::SeqCst);
        self.word.notify_all();
    }

    /// Waits until the end begins.
    pub fn wait<H: Wait>(&self, rt: &H) -> Call {
        let mut open = self.open.lock(rt);
        for _ in rt.forever() {
            if let Some(call) = open.call {
                return call;
            }
            open = self.word.wait(rt, open);
        }
        unreachable!()
    }

    /// Whether no session is open.
    pub fn is_empty<H: Wait>(&self, rt: &H) -> bool {
        self.open
            .lock(rt)
            .sockets
            .iter()
            .all(|socket| socket.is_none())
    }

    /// Shuts down the sockets of the sessions that are still open, both ways.
    pub fn cut<H: Wait>(&self, rt: &H) {
        self.open.lock(rt).shut_down(Shutdown::Both);
    }
}
