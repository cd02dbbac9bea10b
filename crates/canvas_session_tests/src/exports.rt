//! Exports of boards that keep one text: one text for a version, another after an edit, and never
//! that of another line.

ghost use Rattle.std.specs.Prelude.{◌≡◌};

use crate::asserts::{equal, holds};
use crate::boards::{check_edit, square};
use canvas_board::{Board, Gallery, LastExport, Shared};
use canvas_doc::Document;
use canvas_line::{Line, Lines, Opened, Seat};
use canvas_saved::import;
use std::alloc::Global;
use std::marker::Brand;
use std::process::Abort;
use std::sync::{Arc, Wait};
use std::thread::{self, Threads};

/// How many boards a crowd has, of which one edits.
const CROWD: u32 = 4;

/// How many edits or exports a board of a crowd makes.
const TURNS: u32 = 40;

// A board of each of the seats, all with one last export.
fn boards_beside<B: Lines>(
    rt: &impl Abort,
    alloc: Global,
    seats: Vec<Seat<B>>,
    last_export: &LastExport<B>,
) -> Vec<Shared<B>> {
    let mut boards = Vec::new(alloc);
    for seat in seats {
        let gallery = Gallery::of_many(alloc, 0);
        let board = Shared::beside(alloc, seat, gallery, last_export.again());
        boards.push(board).expect(rt, "memory");
    }
    boards
}

// The last of some boards.
fn last<B: Lines>(rt: &impl Abort, boards: &mut Vec<Shared<B>>) -> Shared<B> {
    boards.pop().expect(rt, "a board")
}

// The text that a board exports, as such a version with as many shapes.
fn text<B: Lines>(
    rt: &impl Abort,
    alloc: Global,
    board: &mut Shared<B>,
    version: u64,
) -> Arc<Vec<u8>, Global> {
    let saved = board.saved().expect(rt, "a saved document");
    equal(rt, "the version", &saved.version, &version);
    check_shapes(rt, alloc, saved.text.as_slice(), version);
    saved.text
}

// Asserts that a text opens as a document of so many shapes.
fn check_shapes(rt: &impl Abort, alloc: Global, text: &[u8], shapes: u64) {
    let document = import(alloc, text).expect(rt, "a document again");
    equal(rt, "its shapes", &(document.count() as u64), &shapes);
}

// Asserts that two boards export one text of such a version.
fn check_one_text<B: Lines>(
    rt: &impl Abort,
    alloc: Global,
    first: &mut Shared<B>,
    second: &mut Shared<B>,
    version: u64,
) {
    let one = text(rt, alloc, first, version);
    let other = text(rt, alloc, second, version);
    holds(rt, "one text", one.as_slice() == other.as_slice());
    // One text is kept at most, and each of these is held elsewhere: so they are one in memory too.
    holds(
        rt,
        "the first is held elsewhere",
        Arc::into_inner(one).is_none(),
    );
    holds(rt, "so is the second", Arc::into_inner(other).is_none());
}

#[test]
fn two_boards_export_one_text(rt: HostRuntime) {
    let alloc = rt.alloc();
    both_export::<Brand, _>(&rt, alloc, Opened::new(), Document::empty(alloc))
}

fn both_export<B: Lines, H: Wait + Abort>(rt: &H, alloc: Global, opened: Opened, document: Document)
    requires { B.line 1 ≡ record { book = opened.head.word.book; opening = document; limit = 10 } }
{
    let seats = Line::open::<B, H>(rt, alloc, opened, 1, document, 2, 10).expect(rt, "a line");
    let mut boards = boards_beside(rt, alloc, seats, &LastExport::new(alloc));
    let mut first = last(rt, &mut boards);
    let mut second = last(rt, &mut boards);
    check_one_text(rt, alloc, &mut first, &mut second, 0);
    check_edit(rt, &mut first, square(1, 0), 1, Some(1));
    check_one_text(rt, alloc, &mut first, &mut second, 1);
    check_edit(rt, &mut second, square(2, 0), 2, Some(2));
    check_one_text(rt, alloc, &mut second, &mut first, 2);
}

#[test]
fn a_board_exports_no_text_of_another_line(rt: HostRuntime) {
    let alloc = rt.alloc();
    let one = Document::empty(alloc);
    let two = Document::empty(alloc);
    apart::<Brand, _>(&rt, alloc, Opened::new(), one, Opened::new(), two);
}

fn apart<B: Lines, H: Wait + Abort>(
    rt: &H,
    alloc: Global,
    first: Opened,
    one: Document,
    second: Opened,
    two: Document,
)
    requires first { B.line 3 ≡ record { book = first.head.word.book; opening = one; limit = 10 } }
    requires second { B.line 7
        ≡ record { book = second.head.word.book; opening = two; limit = 10 } }
{
    let last_export = LastExport::new(alloc);
    let threes = Line::open::<B, H>(rt, alloc, first, 3, one, 1, 10).expect(rt, "a line");
    let sevens = Line::open::<B, H>(rt, alloc, second, 7, two, 1, 10).expect(rt, "a line");
    let mut three = last(rt, &mut boards_beside(rt, alloc, threes, &last_export));
    let mut seven = last(rt, &mut boards_beside(rt, alloc, sevens, &last_export));
    check_edit(rt, &mut three, square(1, 0), 1, Some(1));
    check_edit(rt, &mut seven, square(2, 0), 1, Some(1));
    check_two_texts(rt, alloc, &mut three, &mut seven);
    check_two_texts(rt, alloc, &mut seven, &mut three);
}

// Asserts that two boards export two texts of the first version.
fn check_two_texts<B: Lines>(
    rt: &impl Abort,
    alloc: Global,
    first: &mut Shared<B>,
    second: &mut Shared<B>,
) {
    let one = text(rt, alloc, first, 1);
    let other = text(rt, alloc, second, 1);
    holds(rt, "two texts", one.as_slice() != other.as_slice());
}

#[test]
fn boards_export_while_one_edits(rt: HostRuntime) {
    let alloc = rt.alloc();
    crowd::<Brand, _>(&rt, alloc, Opened::new(), Document::empty(alloc))
}

fn crowd<B: Lines + Send + Sync, H: Threads + Wait + Abort + Sync>(
    rt: &H,
    alloc: Global,
    opened: Opened,
    document: Document,
)
    requires { B.line 1 ≡ record { book = opened.head.word.book; opening = document; limit = 100 } }
{
    let seats = Line::open::<B, H>(rt, alloc, opened, 1, document, CROWD, 100);
    let seats = seats.expect(rt, "a line");
    let boards = boards_beside(rt, alloc, seats, &LastExport::new(alloc));
    let jobs = jobs_of(rt, alloc, boards);
    let done = thread::map_vec(rt, jobs, &|job: Job<B>| work(rt, alloc, job));
    done.expect(rt, "threads");
}

/// A thread's work with its board.
#[derive(Drop)]
struct Job<B: Lines> {
    board: Shared<B>,
    edits: bool,
}

// The first board edits, and all others export.
fn jobs_of<B: Lines>(rt: &impl Abort, alloc: Global, boards: Vec<Shared<B>>) -> Vec<Job<B>> {
    let mut jobs = Vec::new(alloc);
    for board in boards {
        let edits = jobs.is_empty();
        jobs.push(Job { board, edits }).expect(rt, "memory");
    }
    jobs
}

fn work<B: Lines, H: Threads + Wait + Abort + Sync>(rt: &H, alloc: Global, job: Job<B>) {
    let Job { mut board, edits } = job;
    for _ in 0..TURNS {
        if edits {
            board.edit(rt, &square(1, 0)).expect(rt, "an edit");
        } else {
            check_export(rt, alloc, &mut board);
        }
    }
}

// Asserts that a board exports a text with as many shapes as its version says.
fn check_export<B: Lines>(rt: &impl Abort, alloc: Global, board: &mut Shared<B>) {
    let saved = board.saved().expect(rt, "a saved document");
    check_shapes(rt, alloc, saved.text.as_slice(), saved.version);
}
