//! Sessions for which memory may be refused: run with each allocation refused in turn, nothing is
//! read, or one line is answered by want of memory and all others as they should be; what was
//! refused is asked again, and answered in full.

use crate::alone::serving::board;
use crate::alone::sessions::{RED, RED_ANSWERS};
use crate::asserts::holds;
use canvas_board::Alone;
use canvas_doc::Document;
use canvas_session::{Cause, Served, SessionFault, serve};
use std::alloc::Global;
use std::process::Abort;
use std::sync::Wait;
use std::test::Fail;
use std::thread::Threads;

const PATCH: &[u8] = b"{\"verb\":\"patch\",\"x\":0,\"y\":0,\"w\":3,\"h\":1}\n";

const PATCH_ANSWER: &[u8] =
    b"{\"body\":20,\"ok\":true,\"version\":1}\nP6\n3 1\n255\n\xff\x00\x00\xff\x00\x00\xff\xff\xff";

const EDIT_REFUSED: &[u8] =
    b"{\"body\":0,\"code\":1,\"name\":\"OutOfMemory\",\"ok\":false}\n{\"body\":20,\"ok\":true,\"version\":0}\nP6\n3 1\n255\n\xff\xff\xff\xff\xff\xff\xff\xff\xff";

const PATCH_REFUSED: &[u8] =
    b"{\"body\":0,\"id\":1,\"ok\":true,\"version\":1}\n{\"body\":0,\"code\":1,\"name\":\"OutOfMemory\",\"ok\":false}\n";

const EXPORT: &[u8] = b"{\"verb\":\"export\"}\n";

const EXPORT_ANSWER: &[u8] =
    b"{\"body\":33,\"ok\":true,\"version\":0}\n{\"format\":2,\"next\":1,\"shapes\":[]}";

const EXPORT_REFUSED: &[u8] = b"{\"body\":0,\"code\":1,\"name\":\"OutOfMemory\",\"ok\":false}\n";

/// What a session may write, and the requests that are then asked again, with their answers.
#[derive(Clone, Copy)]
struct End {
    written: &'static [u8],
    again: &'static [u8],
    answers: &'static [u8],
}

const RED_ENDS: [End; 4] = [
    End {
        written: RED_ANSWERS,
        again: b"",
        answers: b"",
    },
    End {
        written: b"",
        again: RED,
        answers: RED_ANSWERS,
    },
    End {
        written: EDIT_REFUSED,
        again: RED,
        answers: RED_ANSWERS,
    },
    End {
        written: PATCH_REFUSED,
        again: PATCH,
        answers: PATCH_ANSWER,
    },
];

const EXPORT_ENDS: [End; 3] = [
    End {
        written: EXPORT_ANSWER,
        again: b"",
        answers: b"",
    },
    End {
        written: b"",
        again: EXPORT,
        answers: EXPORT_ANSWER,
    },
    End {
        written: EXPORT_REFUSED,
        again: EXPORT,
        answers: EXPORT_ANSWER,
    },
];

// The end of a session that wrote this, if it may write it.
fn end_of(ends: &[End], written: &[u8]) -> Option<End> {
    for end in ends {
        if end.written == written {
            return Some(*end);
        }
    }
    None
}

// Whether a session tells its counts, or nothing was read for want of memory.
fn is_counted(served: &Result<Served, SessionFault>, counts: Served, is_unread: bool) -> bool {
    match served {
        Ok(served) => *served == counts,
        Err(fault) => {
            fault.cause == Cause::OutOfMemory
                && fault.answered == 0
                && fault.written == 0
                && counts.written == 0
                && is_unread
        }
    }
}

// Serves requests, so many, and what was refused of them again.
fn serve_again<H: Threads + Wait + Sync + Abort>(
    rt: &H,
    alloc: Global,
    requests: u64,
    input: &[u8],
    ends: &[End],
) -> Result<(), Fail> {
    let mut out = Vec::with_capacity(alloc, 256)?;
    let mut board = board(rt, alloc, Document::empty(alloc), 1_000_000);
    let is_right = is_counted_right(rt, alloc, &mut board, &mut out, requests, input);
    holds(rt, "the counts", is_right);
    let end = end_of(ends, &out).expect(rt, "one of these ends");
    if !end.again.is_empty() {
        out.clear();
        let is_answered = answers_again(rt, alloc, &mut board, &mut out, end);
        holds(rt, "the answers again", is_answered);
    }
    Ok(())
}

// Whether a session over a board tells its counts, or nothing was read for want of memory.
fn is_counted_right<H: Threads + Wait + Sync + Abort>(
    rt: &H,
    alloc: Global,
    board: &mut Alone,
    out: &mut Vec<u8>,
    requests: u64,
    input: &[u8],
) -> bool {
    let mut reader = input;
    let served = serve(rt, alloc, board, 1, &mut reader, out);
    let written = out.len() as u64;
    let counts = Served { requests, written };
    is_counted(&served, counts, reader.len() == input.len())
}

// Whether what is asked again is answered.
fn answers_again<H: Threads + Wait + Sync + Abort>(
    rt: &H,
    alloc: Global,
    board: &mut Alone,
    out: &mut Vec<u8>,
    end: End,
) -> bool {
    let mut reader = end.again;
    let served = serve(rt, alloc, board, 1, &mut reader, out);
    served.is_ok() && out.as_slice() == end.answers
}

#[test]
fn an_edit_and_a_picture_with_little_memory(rt: HostRuntime) -> Result<(), Fail> {
    serve_again(&rt, rt.alloc(), 2, RED, &RED_ENDS)
}

#[test]
fn an_export_with_little_memory(rt: HostRuntime) -> Result<(), Fail> {
    serve_again(&rt, rt.alloc(), 1, EXPORT, &EXPORT_ENDS)
}
