//! How sessions are served, and what is asked of their ends.

use crate::asserts::holds;
use crate::fakes::{Drip, Narrow};
use canvas_board::Alone;
use canvas_code::Coded;
use canvas_doc::Document;
use canvas_session::{Cause, Served, SessionFault, serve};
use std::alloc::Global;
use std::io::{Read, Write};
use std::process::Abort;
use std::sync::Wait;
use std::thread::Threads;

/// A board over a document, which may accept so many changes.
pub(crate) fn board(rt: &impl Abort, alloc: Global, document: Document, limit: u64) -> Alone {
    Alone::new(alloc, document, limit).expect(rt, "a board")
}

/// Serves a session over an empty document, by one worker.
pub(crate) fn served<H: Threads + Wait + Sync + Abort, R: Read, W: Write>(
    rt: &H,
    alloc: Global,
    reader: &mut R,
    writer: &mut W,
) -> Result<Served, SessionFault> {
    let mut board = board(rt, alloc, Document::empty(alloc), 1_000_000);
    serve(rt, alloc, &mut board, 1, reader, writer)
}

/// Whether every line of a session over a board has an answer, and these are written.
pub(crate) fn answers<H: Threads + Wait + Sync + Abort>(
    rt: &H,
    alloc: Global,
    mut board: Alone,
    workers: u32,
    input: &[u8],
    output: &[u8],
) -> bool {
    let mut reader = input;
    let mut out = Vec::new(alloc);
    let served = serve(rt, alloc, &mut board, workers, &mut reader, &mut out);
    served.is_ok() && out.as_slice() == output
}

/// Asserts what a session writes, in one piece and byte by byte.
pub(crate) fn check<H: Threads + Wait + Sync + Abort>(
    rt: &H,
    alloc: Global,
    input: &[u8],
    output: &[u8],
    requests: u64,
) {
    let wanted = Served {
        requests,
        written: output.len() as u64,
    };
    let is_served = is_served(rt, alloc, input, output, wanted);
    holds(rt, "in one piece", is_served);
    let is_dripped = is_dripped(rt, alloc, input, output, wanted);
    holds(rt, "byte by byte", is_dripped);
}

// Whether a session in one piece writes this.
fn is_served<H: Threads + Wait + Sync + Abort>(
    rt: &H,
    alloc: Global,
    input: &[u8],
    output: &[u8],
    wanted: Served,
) -> bool {
    let mut reader = input;
    let mut whole = Vec::new(alloc);
    served(rt, alloc, &mut reader, &mut whole) == Ok(wanted) && whole.as_slice() == output
}

// Whether a session byte by byte writes this.
fn is_dripped<H: Threads + Wait + Sync + Abort>(
    rt: &H,
    alloc: Global,
    input: &[u8],
    output: &[u8],
    wanted: Served,
) -> bool {
    let mut drip = Drip {
        rest: input,
        reads_left: usize::MAX,
    };
    let mut narrow = Narrow {
        out: Vec::new(alloc),
        step: 1,
        room: usize::MAX,
    };
    served(rt, alloc, &mut drip, &mut narrow) == Ok(wanted) && narrow.out.as_slice() == output
}

/// Whether a session ended with such a fault, its number, and its counts.
pub(crate) fn is_fault(
    served: &Result<Served, SessionFault>,
    cause: Cause,
    code: u16,
    answered: u64,
    written: u64,
) -> bool {
    match served {
        Ok(_) => false,
        Err(fault) => {
            let wanted = SessionFault {
                cause,
                answered,
                written,
            };
            *fault == wanted && fault.code() == code
        }
    }
}

/// How many lines end in these bytes.
pub(crate) fn lines_in(bytes: &[u8]) -> usize {
    bytes.iter().filter(|byte| **byte == b'\n').count()
}

/// The first bytes, so many or all.
pub(crate) fn front(bytes: &[u8], n: usize) -> &[u8] {
    let (front, _) = bytes.split_at(n.min(bytes.len()));
    front
}
