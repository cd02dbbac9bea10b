//! Doors, at which connections come, and their streams: over TCP, or over a socket of this machine.

ghost use Rattle.std.specs.Prelude.{◌++◌};
ghost use Rattle.std.specs.Io.{ReadsAtMost, WritesAtMost};

use crate::outlet::WriteTwo;
use crate::seats::Guest;
use std::io;
use std::io::{IoSlice, Read, Write};
use std::net::{IpAddr, Net, Shutdown, TcpListener, TcpStream};
use std::os::fd::OwnedFd;
use std::os::unix::net::{UnixListener, UnixStream};
use std::time::Duration;

/// A place where connections come.
#[derive(Debug, Drop)]
pub enum Door {
    Tcp(TcpListener),
    Unix(UnixListener),
}

/// A connection that came to a door.
#[derive(Debug, Drop)]
pub enum Stream {
    Tcp(TcpStream),
    Unix(UnixStream),
}

/// Where connections are accepted.
pub trait Accepts {
    /// Waits for the next connection, and says who comes by it.
    fn accept(&self) -> io::Result<(Stream, Guest)>;
}

impl Accepts for TcpListener {
    fn accept(&self) -> io::Result<(Stream, Guest)> {
        let (stream, address) = TcpListener::accept(self)?;
        Ok((Stream::Tcp(stream), guest_of(address.ip())))
    }
}

impl Accepts for Door {
    fn accept(&self) -> io::Result<(Stream, Guest)> {
        match self {
            Door::Tcp(listener) => Accepts::accept(listener),
            Door::Unix(listener) => {
                let (stream, _) = listener.accept()?;
                Ok((Stream::Unix(stream), Guest::Near))
            }
        }
    }
}

/// A door with seats of its own.
#[derive(Clone, Copy, Debug, Drop)]
pub struct OwnDoor<'a>(pub &'a Door);

impl Accepts for OwnDoor<'_> {
    fn accept(&self) -> io::Result<(Stream, Guest)> {
        let OwnDoor(door) = self;
        let (stream, _) = door.accept()?;
        Ok((stream, Guest::Own))
    }
}

// Who comes from an address. Of an address of IPv6 only the network counts, which has 64 bits.
fn guest_of(address: IpAddr) -> Guest {
    match address.to_canonical() {
        address if address.is_loopback() => Guest::Near,
        IpAddr::V4(address) => Guest::Far(u64::from(address.to_bits())),
        IpAddr::V6(address) => {
            let [a, b, c, d, ..] = address.segments();
            Guest::Far(u64::from(a) << 48 | u64::from(b) << 32 | u64::from(c) << 16 | u64::from(d))
        }
    }
}

impl Door {
    /// Has an accept that waits at the door go on: by a connection of our own, or, where none can
    /// be had, by shutting the door for good.
    pub fn wake<H: Net>(&self, rt: &H) {
        if self.knock(rt).is_err() {
            // Then nobody can connect there, and the accept may wait on.
            let _ = self.shut();
        }
    }

    // Connects to the door, and closes the connection.
    fn knock<H: Net>(&self, rt: &H) -> io::Result<()> {
        match self {
            Door::Tcp(listener) => {
                TcpStream::connect(rt, listener.local_addr()?)?;
            }
            Door::Unix(listener) => {
                UnixStream::connect_addr(rt, &listener.local_addr()?)?;
            }
        }
        Ok(())
    }

    /// Shuts the door: each accept that waits there fails, and so does each one after it.
    pub fn shut(&self) -> io::Result<()> {
        match self {
            Door::Tcp(listener) => {
                let socket = OwnedFd::from(listener.try_clone()?);
                TcpStream::from(socket).shutdown(Shutdown::Both)
            }
            Door::Unix(listener) => {
                let socket = OwnedFd::from(listener.try_clone()?);
                UnixStream::from(socket).shutdown(Shutdown::Both)
            }
        }
    }
}

impl Stream {
    /// Another handle of the same connection.
    pub fn try_clone(&self) -> io::Result<Stream> {
        match self {
            Stream::Tcp(stream) => Ok(Stream::Tcp(stream.try_clone()?)),
            Stream::Unix(stream) => Ok(Stream::Unix(stream.try_clone()?)),
        }
    }

    /// Sends small pieces at once.
    pub fn set_nodelay(&self) -> io::Result<()> {
        match self {
            Stream::Tcp(stream) => stream.set_nodelay(true),
            Stream::Unix(_) => Ok(()),
        }
    }

    /// How long a read waits.
    pub fn set_read_timeout(&self, time: Duration) -> io::Result<()> {
        self.set_patience(Some(time))
    }

    /// How long a read waits; nothing is without end.
    pub fn set_patience(&self, time: Option<Duration>) -> io::Result<()> {
        match self {
            Stream::Tcp(stream) => stream.set_read_timeout(time),
            Stream::Unix(stream) => stream.set_read_timeout(time),
        }
    }

    /// How long a write waits.
    pub fn set_write_timeout(&self, time: Duration) -> io::Result<()> {
        match self {
            Stream::Tcp(stream) => stream.set_write_timeout(Some(time)),
            Stream::Unix(stream) => stream.set_write_timeout(Some(time)),
        }
    }

    /// Ends what is sent, what is received, or both.
    pub fn shutdown(&self, how: Shutdown) -> io::Result<()> {
        match self {
            Stream::Tcp(stream) => stream.shutdown(how),
            Stream::Unix(stream) => stream.shutdown(how),
        }
    }

    // Receives bytes.
    fn receive(&self, bytes: &mut [u8]) -> io::Result<usize>
        ensures { ReadsAtMost result bytes.new }
    {
        match self {
            Stream::Tcp(stream) => {
                let mut stream = stream;
                stream.read(bytes)
            }
            Stream::Unix(stream) => {
                let mut stream = stream;
                stream.read(bytes)
            }
        }
    }

    // Sends the beginning of a piece.
    fn send(&self, bytes: &[u8]) -> io::Result<usize>
        ensures { WritesAtMost result bytes.now }
    {
        match self {
            Stream::Tcp(stream) => {
                let mut stream = stream;
                stream.write(bytes)
            }
            Stream::Unix(stream) => {
                let mut stream = stream;
                stream.write(bytes)
            }
        }
    }

    // Sends the beginning of two pieces in one system call.
    fn send_two(&self, first: &[u8], second: &[u8]) -> io::Result<usize>
        ensures { WritesAtMost result (first.now ++ second.now) }
    {
        let pieces = [IoSlice::new(first), IoSlice::new(second)];
        match self {
            Stream::Tcp(stream) => stream.write_vectored(&pieces),
            Stream::Unix(stream) => stream.write_vectored(&pieces),
        }
    }
}

/// Sets how a connection sends and after how many silent seconds a read or a write fails, 0 for
/// never. Where that can't be set it is served all the same.
pub fn set_up(stream: &Stream, idle: u64) {
    // Where small replies are delayed they come all the same.
    let _ = stream.set_nodelay();
    if idle > 0 {
        let patience = Duration::from_secs(idle);
        let _ = stream.set_read_timeout(patience);
        let _ = stream.set_write_timeout(patience);
    }
}

impl Read for &Stream {
    fn read(&mut self, bytes: &mut [u8]) -> io::Result<usize> {
        self.receive(bytes)
    }
}

impl Write for &Stream {
    fn write(&mut self, bytes: &[u8]) -> io::Result<usize> {
        self.send(bytes)
    }

    fn flush(&mut self) -> io::Result<()> {
        Ok(())
    }
}

impl WriteTwo for &Stream {
    fn write_two(&mut self, first: &[u8], second: &[u8]) -> io::Result<usize> {
        self.send_two(first, second)
    }
}
