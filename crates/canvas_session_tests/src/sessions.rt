//! A session over a seat's board whose reader gives and whose writer takes one byte a time. More are in `tests/sessions/`.

ghost use Rattle.std.specs.Prelude.{◌≡◌};

use crate::alone::sessions::{RED, RED_ANSWERS};
use crate::asserts::{equal, holds};
use crate::boards::first_board;
use crate::fakes::{Drip, Narrow};
use canvas_board::Shared;
use canvas_doc::Document;
use canvas_line::{Lines, Opened};
use canvas_session::{Served, serve};
use std::alloc::Global;
use std::marker::Brand;
use std::process::Abort;
use std::sync::Wait;
use std::thread::Threads;

#[test]
fn a_session_byte_by_byte(rt: HostRuntime) {
    let alloc = rt.alloc();
    byte_by_byte::<Brand, _>(&rt, alloc, Opened::new(), Document::empty(alloc))
}

fn byte_by_byte<B: Lines, H: Threads + Wait + Abort + Sync>(
    rt: &H,
    alloc: Global,
    opened: Opened,
    document: Document,
)
    requires { B.line 1 ≡ record { book = opened.head.word.book; opening = document; limit = 10 } }
{
    let mut board = first_board::<B, H>(rt, alloc, opened, document, 10);
    check_bytes(rt, alloc, &mut board);
}

fn check_bytes<B: Lines, H: Threads + Wait + Abort + Sync>(
    rt: &H,
    alloc: Global,
    board: &mut Shared<B>,
) {
    let mut drip = Drip {
        rest: RED,
        reads_left: usize::MAX,
    };
    let mut narrow = Narrow {
        out: Vec::new(alloc),
        step: 1,
        room: usize::MAX,
    };
    let served = serve(rt, alloc, board, 1, &mut drip, &mut narrow);
    let counts = Served {
        requests: 2,
        written: RED_ANSWERS.len() as u64,
    };
    equal(rt, "the counts", &served, &Ok(counts));
    holds(rt, "the answers", narrow.out.as_slice() == RED_ANSWERS);
}
