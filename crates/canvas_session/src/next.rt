//! Finding the next line of a session, or what comes in its place.

ghost use Rattle.std.specs.Prelude.{◌≡◌, ◌≢◌, ℕ, ◌<◌, ◌≤◌, ◌+◌, length, slice_index, IfErr, IfOk, OnErr, IfSome, IfNone};
ghost use Rattle.std.specs.Io.KnownBytes.{Keeps};
ghost use Rattle.canvas_session.specs.Line.{LacksLf, HasNoLf};
ghost use Rattle.canvas_session.specs.Pending.{TakesIn};
ghost use Rattle.canvas_session.specs.Next.{IsInterrupted, IsNext};

use crate::pending::{Pending, ROOM};
use std::io;
use std::io::{Read, Write};

/// What comes next in a session.
#[derive(Clone, Copy, Debug, PartialEq, Eq)]
pub enum Next {
    Line(usize),
    End,
    Cut,
    TooLong,
}

/// The place of the first LF.
fn lf_in(bytes: &[u8]) -> Option<usize>
    ensures found { IfSome result
        (λ n. (n < length bytes.now) × LacksLf n bytes.now × (slice_index bytes.now n ≡ 10)) }
    ensures none { IfNone result (HasNoLf bytes.now) }
{
    memchr::memchr(b'\n', bytes)
}

/// The place of the first LF from `seen` on.
fn find_lf(bytes: &[u8], seen: usize) -> Option<usize>
    requires within { seen ≤ length bytes.now }
    requires before { LacksLf seen bytes.now }
    ensures found { IfSome result
        (λ n. (n < length bytes.now) × LacksLf n bytes.now × (slice_index bytes.now n ≡ 10)) }
    ensures none { IfNone result (HasNoLf bytes.now) }
{
    let (_, rest) = bytes.split_at(seen);
    match lf_in(rest) {
        None => None,
        Some(at) => Some(seen + at),
    }
}

/// What ends the wait for a line.
#[derive(Clone, Copy, Debug, PartialEq, Eq)]
pub enum Interruption {
    Read,
    Write,
}

/// Finds what comes next. Where that takes a read, which may wait, the writer first passes on what it holds.
pub fn find_next<R: Read, W: Write>(
    pending: &mut Pending,
    reader: &mut R,
    writer: &mut W,
) -> Result<Next, Interruption>
    requires { length pending.old ≤ 65537 }
    ensures takes { TakesIn (R.remaining reader.old) (R.remaining reader.new) pending.old
        pending.new }
    ensures kept { Keeps (W.contents writer.old) (W.contents writer.new) }
    ensures next { IfOk result (λ n. IsNext n pending.new (R.remaining reader.new)) }
    ensures interrupted { IfErr result (λ why. IsInterrupted why pending.new) }
{
    if let Some(n) = lf_in(pending.as_slice()) {
        return Ok(Next::Line(n));
    }
    match writer.flush() {
        Err(_) => Err(Interruption::Write),
        Ok(()) => match read_next(pending, reader) {
            Err(_) => Err(Interruption::Read),
            Ok(next) => Ok(next),
        },
    }
}

// Reads until it is known what comes next, where no whole line is pending.
fn read_next<R: Read>(pending: &mut Pending, reader: &mut R) -> io::Result<Next>
    requires fits { length pending.old ≤ 65537 }
    requires none { HasNoLf pending.old }
    ensures takes { TakesIn (R.remaining reader.old) (R.remaining reader.new) pending.old
        pending.new }
    ensures next { IfOk result (λ n. IsNext n pending.new (R.remaining reader.new)) }
    ensures unread { OnErr result (HasNoLf pending.new × (length pending.new ≤ 65536)) }
{
    let mut seen = pending.as_slice().len();
    loop {
        let bytes = pending.as_slice();
        if let Some(n) = find_lf(bytes, seen) {
            return Ok(Next::Line(n));
        }
        seen = bytes.len();
        if seen == ROOM {
            return Ok(Next::TooLong);
        }
        if !pending.fill(reader)? {
            return Ok(if seen == 0 { Next::End } else { Next::Cut });
        }
    }
}
