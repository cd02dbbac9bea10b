//! The bytes of one connection.

ghost use Rattle.std.specs.Prelude.{◌≡◌, ℕ, IfSome, List, Option};
ghost use Rattle.canvas_server.specs.Connection.{IsAnswered};
ghost use Rattle.canvas_doors.specs.Gate.{HasPassed};

use crate::workers::Workers;
use canvas_doors::{
    Beginning, Connection, Gated, Outlet, Settles, WriteTwo, read_first, refuse_foreign,
};
use canvas_look::Board;
use canvas_session::{Served, SessionFault, Witness, serve_before};
use std::alloc::Global;
use std::io::Read;
use std::marker::Brand;
use std::sync::Wait;
use std::thread::Threads;

/// How a connection was answered.
#[derive(Drop)]
pub enum Answered {
    /// What is no session, as HTTP or TLS, by one reply.
    Foreign,
    /// All else, as a session.
    Session(Result<Served, SessionFault>),
    /// Not at all: a read failed before the first line was whole.
    Unread,
}

/// Answers what a reader brings until that has ended, to a writer that comes back. A gate is asked
/// before any bytes are handed to the writer, and a witness is told of each answer of a session.
/// `None` where no memory could be had or not all was sent.
pub fn answer<
    H: Threads + Wait + Sync,
    B: Board,
    G: Settles,
    O: Witness,
    R: Read + Drop,
    W: WriteTwo + Drop,
>(
    rt: &H,
    alloc: Global,
    board: &mut B,
    workers: &Workers,
    gate: &G,
    witness: &O,
    reader: R,
    writer: W,
) -> (W, Option<Answered>)
    ensures answered { IfSome result.1 (λ answered. (unread : Option (List ℕ))
        × IsAnswered workers.now (record {
          input = R.remaining reader;
          unread = unread;
          held = W.contents writer;
          output = W.contents result.0;
          before = B.seen board.old;
          after = B.seen board.new;
        }) answered) }
    ensures settled { ∥ ((n : ℕ)
        × HasPassed (G.settled gate.now) (W.contents writer) (W.contents result.0) n) ∥₁ }
{
    answer_gated::<Brand, H, B, G, O, R, W>(
        rt, alloc, board, workers, gate, witness, reader, writer,
    )
}

// Answers through the gate of one connection.
fn answer_gated<
    K: Connection,
    H: Threads + Wait + Sync,
    B: Board,
    G: Settles,
    O: Witness,
    R: Read + Drop,
    W: WriteTwo + Drop,
>(
    rt: &H,
    alloc: Global,
    board: &mut B,
    workers: &Workers,
    gate: &G,
    witness: &O,
    reader: R,
    writer: W,
) -> (W, Option<Answered>)
    requires begun { K.begun ≡ W.contents writer }
    requires tells { (n : ℕ) → G.settled gate.now n → K.settled n }
    ensures answered { IfSome result.1 (λ answered. (unread : Option (List ℕ))
        × IsAnswered workers.now (record {
          input = R.remaining reader;
          unread = unread;
          held = W.contents writer;
          output = W.contents result.0;
          before = B.seen board.old;
          after = B.seen board.new;
        }) answered) }
    ensures settled { ∥ ((n : ℕ) × HasPassed K.settled K.begun (W.contents result.0) n) ∥₁ }
{
    let gated = Gated::<K, H, G, W>::new(rt, gate, writer);
    let (gated, answered) = answer_input(rt, alloc, board, workers, witness, reader, gated);
    (gated.into_inner(), answered)
}

// Answers what a reader brings, to a writer that comes back: `None` where no memory could be had or
// not all was sent.
fn answer_input<H: Threads + Wait + Sync, B: Board, O: Witness, R: Read + Drop, W: WriteTwo + Drop>(
    rt: &H,
    alloc: Global,
    board: &mut B,
    workers: &Workers,
    witness: &O,
    mut reader: R,
    mut writer: W,
) -> (W, Option<Answered>)
    ensures { IfSome result.1 (λ answered. (unread : Option (List ℕ))
        × IsAnswered workers.now (record {
          input = R.remaining reader;
          unread = unread;
          held = W.contents writer;
          output = W.contents result.0;
          before = B.seen board.old;
          after = B.seen board.new;
        }) answered) }
{
    let mut first = Vec::new(alloc);
    match read_first(&mut reader, &mut first) {
        Err(_) => return (writer, None),
        Ok(Beginning::Unread) => return (writer, Some(Answered::Unread)),
        Ok(Beginning::Foreign) => {
            if !refuse_foreign(&mut writer) {
                return (writer, None);
            }
            return (writer, Some(Answered::Foreign));
        }
        Ok(Beginning::Session) => {}
    }
    let mut outlet = match Outlet::new(alloc, writer) {
        Ok(outlet) => outlet,
        Err(writer) => return (writer, None),
    };
    let ended = serve_before(
        rt,
        alloc,
        board,
        workers.count(),
        witness,
        &mut first.as_slice().chain(reader),
        &mut outlet,
    );
    match outlet.finish() {
        (writer, Ok(())) => (writer, Some(Answered::Session(ended))),
        (writer, Err(_)) => (writer, None),
    }
}
