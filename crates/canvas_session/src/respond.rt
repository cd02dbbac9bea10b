//! The answer to one line.

ghost use denote.Param.Send.{IsSync};
ghost use Rattle.std.specs.Prelude.{◌≡◌, Ok, pos, ◌*ℤ◌};
ghost use Rattle.canvas_wire.specs.Replies.{IsNamed, refused, said};
ghost use Rattle.canvas_session.specs.Response.{bare, edit_response, fault_response, made, picture_response, point_response, saved_response};
ghost use Rattle.canvas_session.specs.Transcript.{Answers, Shows, ShowsAt, Step};

use crate::answer::Answer;
use crate::witness::{Unwitnessed, Witness};
use canvas_code::{Coded, name_of};
use canvas_look::{Board, BoardFault, Dot, Edited, Picture, Saved};
use canvas_plane::Window;
use canvas_wire::{Reply, Request, RequestReader};
use std::alloc::Global;
use std::sync::Wait;
use std::thread::Threads;

/// What is answered to one line of a session, without its LF: the request is read and put to the
/// board, and pictures are painted by so many workers. Where memory for the request is refused, the
/// answer is the reply `OutOfMemory`, and the board is as it was.
pub fn answer_line<B: Board, H: Threads + Wait + Sync>(
    rt: &H,
    alloc: Global,
    board: &mut B,
    workers: u32,
    line: &[u8],
) -> Answer
    ensures { Answers workers (B.seen board.old) line.now result (B.seen board.new) }
{
    let mut request_reader = RequestReader::new(alloc);
    answer_next(
        rt,
        alloc,
        board,
        workers,
        &Unwitnessed,
        &mut request_reader,
        line,
    )
}

/// The same, with a reader that keeps its memory from line to line, before a witness.
pub(crate) fn answer_next<B: Board, O: Witness, H: Threads + Wait + Sync>(
    rt: &H,
    alloc: Global,
    board: &mut B,
    workers: u32,
    witness: &O,
    request_reader: &mut RequestReader,
    line: &[u8],
) -> Answer
    ensures { Answers workers (B.seen board.old) line.now result (B.seen board.new) }
{
    match request_reader.read(alloc, line) {
        Err(fault) => {
            let answer = Answer::bare(refusal(fault.code()));
            witness.answered(None, answer.refusal());
            answer
        }
        Ok(request) => {
            let answer = answer_request(rt, board, workers, &request);
            witness.answered(Some(&request), answer.refusal());
            answer
        }
    }
}

// The answer to a request.
fn answer_request<B: Board, H: Threads + Wait + Sync>(
    rt: &H,
    board: &mut B,
    workers: u32,
    request: &Request,
) -> Answer
    ensures { Step workers (B.seen board.old) (Ok request.now) result (B.seen board.new) }
{
    match request {
        Request::Edit(edit) => {
            let result = board.edit(rt, edit);
            edit_answer(&result)
        }
        Request::Tile { level, col, row } => { answer_tile(rt, board, workers, *level, *col, *row) }
        Request::Patch { level, x, y, w, h } => {
            answer_patch(rt, board, workers, *level, *x, *y, *w, *h)
        }
        Request::Point { x, y } => {
            let result = board.point(*x, *y);
            point_answer(&result)
        }
        Request::Export => {
            let result = board.saved();
            saved_answer(result)
        }
    }
}

// The answer to the wish for a tile of a level.
fn answer_tile<B: Board, H: Threads + Wait + Sync>(
    rt: &H,
    board: &mut B,
    workers: u32,
    level: u8,
    col: i32,
    row: i32,
) -> Answer
    ensures { ShowsAt workers (B.seen board.old) level (pos 256 *ℤ col) (pos 256 *ℤ row) 256 256
        result (B.seen board.new) }
{
    match Window::tile_at(level, col, row) {
        Ok(window) => answer_window(rt, board, workers, &window),
        Err(fault) => Answer::bare(refusal(fault.code())),
    }
}

// The answer to the wish for a window of a level.
fn answer_patch<B: Board, H: Threads + Wait + Sync>(
    rt: &H,
    board: &mut B,
    workers: u32,
    level: u8,
    x: i32,
    y: i32,
    w: u32,
    h: u32,
) -> Answer
    ensures { ShowsAt workers (B.seen board.old) level x y w h result (B.seen board.new) }
{
    match Window::at_level(level, x, y, w, h) {
        Ok(window) => answer_window(rt, board, workers, &window),
        Err(fault) => Answer::bare(refusal(fault.code())),
    }
}

// The answer with the picture of a window.
fn answer_window<B: Board, H: Threads + Wait + Sync>(
    rt: &H,
    board: &mut B,
    workers: u32,
    window: &Window,
) -> Answer
    ensures { Shows workers (B.seen board.old) window.now result (B.seen board.new) }
{
    let result = board.picture(rt, window, workers);
    picture_answer(result)
}

fn edit_answer(outcome: &Result<Edited, BoardFault>) -> Answer
    ensures { result ≡ edit_response outcome.now }
{
    match outcome {
        Ok(edited) => Answer::bare(accepted(edited)),
        Err(fault) => Answer::bare(fault_reply(fault)),
    }
}

fn picture_answer(outcome: Result<Picture, BoardFault>) -> Answer
    ensures { result ≡ picture_response outcome }
{
    match outcome {
        Ok(picture) => {
            let reply = Reply::Body {
                bytes: picture.bytes.len() as u64,
                version: picture.version,
            };
            Answer::new(reply, picture.bytes)
        }
        Err(fault) => Answer::bare(fault_reply(&fault)),
    }
}

fn saved_answer(outcome: Result<Saved, BoardFault>) -> Answer
    ensures { result ≡ saved_response outcome }
{
    match outcome {
        Ok(saved) => {
            let reply = Reply::Body {
                bytes: saved.text.len() as u64,
                version: saved.version,
            };
            Answer::new(reply, saved.text)
        }
        Err(fault) => Answer::bare(fault_reply(&fault)),
    }
}

fn point_answer(outcome: &Result<Dot, BoardFault>) -> Answer
    ensures { result ≡ point_response outcome.now }
{
    match outcome {
        Ok(dot) => {
            let reply = Reply::Point {
                colour: dot.colour,
                version: dot.version,
            };
            Answer::bare(reply)
        }
        Err(fault) => Answer::bare(fault_reply(fault)),
    }
}

// The reply to an accepted edit.
fn accepted(edited: &Edited) -> Reply
    ensures named { IsNamed result }
    ensures said { said result ≡ made edited.now.id edited.now.number }
{
    let version = edited.number;
    match edited.id {
        Some(id) => Reply::Created { id, version },
        None => Reply::Edited { version },
    }
}

// The reply to what a board refuses.
fn fault_reply(fault: &BoardFault) -> Reply
    ensures named { IsNamed result }
    ensures said { bare (said result) ≡ fault_response fault.now }
{
    match fault {
        BoardFault::Behind { desk, front } => Reply::Behind {
            desk: *desk,
            front: *front,
        },
        other => refusal(other.code()),
    }
}

// The reply to a refusal.
pub(crate) fn refusal(code: u16) -> Reply
    ensures named { IsNamed result }
    ensures said { said result ≡ refused code }
{
    Reply::Refused {
        code,
        name: name_of(code),
    }
}
