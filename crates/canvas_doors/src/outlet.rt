//! A writer that sends small pieces together with the large ones behind them.

ghost use Rattle.std.specs.Prelude.{◌≡◌, ◌≤◌, ◌++◌, [], drop, vec_len, IfErr, IfOk, OnOk};
ghost use Rattle.std.specs.Io.{WritesAtMost};
ghost use Rattle.std.specs.Io.KnownBytes.{Keeps, WriteAppends};
ghost use Rattle.canvas_doors.specs.Outlet.{given_to, held_by, writer_of};

use std::alloc::Global;
use std::io;
use std::io::{ErrorKind, Write};

/// How many bytes an outlet gathers.
const ROOM: usize = 65_536;

/// A writer that takes two pieces in one call.
pub trait WriteTwo: Write {
    /// Writes the beginning of two pieces, one behind the other, and says how many bytes went out.
    fn write_two(&mut self, first: &[u8], second: &[u8]) -> io::Result<usize>
        ensures bound { WritesAtMost result (first.now ++ second.now) }
        ensures bytes { WriteAppends (Self.contents self.old) (Self.contents self.new) result
            (first.now ++ second.now) };
}

/// A writer that gathers small pieces, and sends them together with the large piece behind them in
/// one call. What its writer has got and what it holds are together the bytes that it was given, in
/// order.
#[derive(Drop)]
pub struct Outlet<W: WriteTwo + Drop> {
    writer: W,
    held: Vec<u8>,
}

impl<W: WriteTwo + Drop> Outlet<W> {
    /// An outlet that holds nothing yet. Where memory for what it will hold is refused, the writer
    /// comes back.
    pub fn new(alloc: Global, writer: W) -> Result<Outlet<W>, W>
        ensures writer { IfOk result (λ outlet. writer_of outlet ≡ writer) }
        ensures empty { IfOk result (λ outlet. held_by outlet ≡ []) }
        ensures refused { IfErr result (λ back. back ≡ writer) }
    {
        match Vec::with_capacity(alloc, ROOM) {
            Ok(held) => Ok(Outlet { writer, held }),
            Err(_) => Err(writer),
        }
    }

    /// Sends what is held and gives the writer back. Where that went well the writer has all bytes
    /// that the outlet was given.
    pub fn finish(mut self) -> (W, io::Result<()>)
        ensures { OnOk result.1 (Keeps (given_to W.contents self) (W.contents result.0)) }
    {
        let sent = self.flush();
        let Outlet { writer, held: _ } = self;
        (writer, sent)
    }

    // Sends what is held, and behind it the beginning of a piece.
    fn send(&mut self, bytes: &[u8]) -> io::Result<usize>
        ensures bound { WritesAtMost result bytes.now }
        ensures bytes { WriteAppends (given_to W.contents self.old) (given_to W.contents self.new)
            result bytes.now }
    {
        let held = self.held.len();
        let sent = self.writer.write_two(&self.held, bytes)?;
        if held <= sent {
            self.held.clear();
            return Ok(sent - held);
        }
        drop_front(&mut self.held, sent);
        self.send_held()?;
        self.writer.write(bytes)
    }

    // Sends what is held.
    fn send_held(&mut self) -> io::Result<()>
        ensures empty { OnOk result (held_by self.new ≡ []) }
        ensures bytes { Keeps (given_to W.contents self.old) (given_to W.contents self.new) }
    {
        while !self.held.is_empty() {
            let sent = self.writer.write(&self.held)?;
            if sent == 0 {
                return Err(ErrorKind::WriteZero.into());
            }
            drop_front(&mut self.held, sent);
        }
        Ok(())
    }
}

impl<W: WriteTwo + Drop> Write for Outlet<W> {
    ghost contents = { given_to W.contents };

    fn write(&mut self, bytes: &[u8]) -> io::Result<usize> {
        let held = self.held.len();
        if bytes.len() < ROOM && held <= ROOM - bytes.len() {
            self.held.extend_from_slice(bytes)?;
            return Ok(bytes.len());
        }
        self.send(bytes)
    }

    fn flush(&mut self) -> io::Result<()>
        ensures bytes { Keeps (given_to W.contents self.old) (given_to W.contents self.new) }
        ensures empty { OnOk result (held_by self.new ≡ []) }
    {
        self.send_held()?;
        self.writer.flush()
    }
}

// Takes the first bytes out.
fn drop_front(bytes: &mut Vec<u8>, count: usize)
    requires { count ≤ vec_len bytes.old }
    ensures { bytes.new.items ≡ drop count bytes.old.items }
{
    bytes.drain(..count);
}
