//! Writing answers and closing replies.

ghost use Rattle.std.specs.Prelude.{◌≡◌, ◌≤◌, ◌<◌, ◌+◌, ◌^◌, length, take, IsTrue, IsFalse};
ghost use Rattle.std.specs.Io.KnownBytes.{Appends};
ghost use Rattle.canvas_session.specs.Cause.{cause_code};
ghost use Rattle.canvas_session.specs.Response.{text_of};
ghost use Rattle.canvas_session.specs.Session.{Closes, closing_line};

use crate::answer::Answer;
use crate::fault::{Cause, SessionFault};
use crate::respond::refusal;
use canvas_code::Coded;
use canvas_wire::write_reply;
use std::io::Write;

// Writes until a write fails or takes nothing, and says how many bytes went out.
fn write_counted<W: Write>(writer: &mut W, bytes: &[u8]) -> usize
    ensures within { result ≤ length bytes.now }
    ensures wrote { Appends (W.contents writer.old) (W.contents writer.new)
        (take result bytes.now) }
{
    let mut at = 0;
    while at < bytes.len() {
        let (_, rest) = bytes.split_at(at);
        match writer.write(rest) {
            Ok(n) if n > 0 => at += n,
            _ => return at,
        }
    }
    at
}

/// Writes an answer, its line and then its body, and says how many bytes went out and whether these were all.
pub fn write_answer<W: Write>(writer: &mut W, answer: &Answer) -> (usize, bool)
    ensures within { result.0 ≤ length (text_of answer.now) }
    ensures small { result.0 ≤ 2 ^ 41 }
    ensures wrote { Appends (W.contents writer.old) (W.contents writer.new)
        (take result.0 (text_of answer.now)) }
    ensures whole { IsTrue result.1 → result.0 ≡ length (text_of answer.now) }
    ensures cut { IsFalse result.1 → result.0 < length (text_of answer.now) }
{
    let line = answer.line();
    let line = line.as_str().as_bytes();
    let body = answer.body();
    let first = write_counted(writer, line);
    if first < line.len() {
        return (first, false);
    }
    let second = write_counted(writer, body);
    (first + second, second == body.len())
}

/// Ends a session with a closing reply, and passes on what the writer holds.
pub fn close<W: Write>(writer: &mut W, cause: Cause, answered: u64, written: u64) -> SessionFault
    requires { written ≤ 2 ^ 62 }
    ensures { Closes (W.contents writer.old) (W.contents writer.new) cause answered written result }
{
    let (sent, whole) = write_closing(writer, cause);
    let passed_on = writer.flush().is_ok();
    SessionFault {
        cause: if whole && passed_on {
            cause
        } else {
            Cause::WriteFault
        },
        answered,
        written: written + sent as u64,
    }
}

// Writes a closing line, and says how many bytes went out and whether these were all.
fn write_closing<W: Write>(writer: &mut W, cause: Cause) -> (usize, bool)
    ensures within { result.0 ≤ length (closing_line (cause_code cause)) }
    ensures small { result.0 ≤ 160 }
    ensures wrote { Appends (W.contents writer.old) (W.contents writer.new)
        (take result.0 (closing_line (cause_code cause))) }
    ensures whole { IsTrue result.1 → result.0 ≡ length (closing_line (cause_code cause)) }
{
    let line = write_reply(&refusal(cause.code()));
    let line = line.as_str().as_bytes();
    let sent = write_counted(writer, line);
    (sent, sent == line.len())
}
