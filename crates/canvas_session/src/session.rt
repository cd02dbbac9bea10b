//! A session: the lines of a reader, answered one by one.

ghost use Rattle.std.specs.Prelude.{◌≡◌};
ghost use Rattle.canvas_session.specs.Session.{Serves};

use crate::fault::{Cause, SessionFault};
use crate::next::{Interruption, Next, find_next};
use crate::output::{close, write_answer};
use crate::pending::Pending;
use crate::respond::answer_next;
use crate::served::Served;
use crate::witness::{Unwitnessed, Witness};
use canvas_look::Board;
use canvas_wire::RequestReader;
use std::alloc::Global;
use std::io::{Read, Write};
use std::sync::Wait;
use std::thread::Threads;

/// The most lines that a session answers.
pub const MOST_REQUESTS: u64 = 1_000_000;

/// Answers each line of a reader to a writer, until the input ends.
///
/// A line is the bytes before an LF, at most 65,536. The writer is flushed before each read, which
/// may wait, and at the end, so that no answer is held back; a writer that gathers small writes, as
/// `BufWriter`, is welcome.
pub fn serve<B: Board, R: Read, W: Write, H: Threads + Wait + Sync>(
    rt: &H,
    alloc: Global,
    board: &mut B,
    workers: u32,
    reader: &mut R,
    writer: &mut W,
) -> Result<Served, SessionFault>
    ensures { Serves workers (record {
      input = R.remaining reader.old;
      unread = R.remaining reader.new;
      held = W.contents writer.old;
      output = W.contents writer.new;
      before = B.seen board.old;
      after = B.seen board.new;
    }) result }
{
    serve_before(rt, alloc, board, workers, &Unwitnessed, reader, writer)
}

/// The same, before a witness who is told of each answer.
pub fn serve_before<B: Board, O: Witness, R: Read, W: Write, H: Threads + Wait + Sync>(
    rt: &H,
    alloc: Global,
    board: &mut B,
    workers: u32,
    witness: &O,
    reader: &mut R,
    writer: &mut W,
) -> Result<Served, SessionFault>
    ensures { Serves workers (record {
      input = R.remaining reader.old;
      unread = R.remaining reader.new;
      held = W.contents writer.old;
      output = W.contents writer.new;
      before = B.seen board.old;
      after = B.seen board.new;
    }) result }
{
    let Ok(mut pending) = Pending::new(alloc) else {
        return Err(stop(Cause::OutOfMemory, 0, 0));
    };
    let mut request_reader = RequestReader::new(alloc);
    let mut requests = 0;
    let mut written = 0;
    'lines: loop {
        match find_next(&mut pending, reader, writer) {
            Err(Interruption::Read) => return Err(stop(Cause::ReadFault, requests, written)),
            Err(Interruption::Write) => return Err(stop(Cause::WriteFault, requests, written)),
            Ok(Next::End) => return Ok(Served { requests, written }),
            Ok(Next::Cut) => return Err(stop(Cause::CutLine, requests, written)),
            Ok(Next::TooLong) => return Err(close(writer, Cause::LineTooLong, requests, written)),
            Ok(Next::Line(n)) => {
                if requests == MOST_REQUESTS {
                    return Err(close(writer, Cause::TooManyRequests, requests, written));
                }
                let (line, _) = pending.as_slice().split_at(n);
                let answer = answer_next(
                    rt,
                    alloc,
                    board,
                    workers,
                    witness,
                    &mut request_reader,
                    line,
                );
                pending.drop_front(n + 1);
                let (sent, whole) = write_answer(writer, &answer);
                drop(answer);
                written += sent as u64;
                if whole {
                    requests += 1;
                } else {
                    return Err(stop(Cause::WriteFault, requests, written));
                }
            }
        }
    }
}

fn stop(cause: Cause, answered: u64, written: u64) -> SessionFault
    ensures { result ≡ record { cause = cause; answered = answered; written = written } }
{
    SessionFault {
        cause,
        answered,
        written,
    }
}
