//! Boards at one document for which memory may be refused: run with each allocation refused in
//! turn, a call that is refused leaves the history as it was, and made again it is answered in
//! full.

ghost use Rattle.std.specs.Prelude.{◌≡◌};

use crate::asserts::{equal, holds};
use crate::boards::{RED, WHITE, accepted, at, boards, is_painted, origin, square};
use canvas_board::{Board, BoardFault, Dot, Edited, Gallery, LastExport, Picture, Saved, Shared};
use canvas_doc::{Document, Edit};
use canvas_line::{Line, Lines, Opened, Seat};
use canvas_plane::Window;
use canvas_shape::Colour;
use std::alloc::Global;
use std::marker::Brand;
use std::process::Abort;
use std::sync::Wait;
use std::test::Fail;
use std::thread::Threads;

// Whether a board sees such a version.
fn sees<B: Lines>(board: &mut Shared<B>, version: u64) -> bool {
    match board.point(0, 0) {
        Ok(dot) => dot.version == version,
        Err(_) => false,
    }
}

// Makes an edit, and makes it again where memory was wanted: then neither board sees a version more.
fn edited<B: Lines, H: Wait + Abort>(
    rt: &H,
    board: &mut Shared<B>,
    other: &mut Shared<B>,
    version: u64,
    edit: Edit,
) -> Result<Edited, BoardFault> {
    match board.edit(rt, &edit) {
        Err(BoardFault::OutOfMemory | BoardFault::NoView) => {
            holds(rt, "the board sees no more", sees(board, version));
            holds(rt, "nor the other", sees(other, version));
            board.edit(rt, &edit)
        }
        answer => answer,
    }
}

// The picture of a window, asked for again where memory was wanted.
fn painted<B: Lines, H: Threads + Wait + Sync>(
    rt: &H,
    board: &mut Shared<B>,
    window: &Window,
) -> Result<Picture, BoardFault> {
    match board.picture(rt, window, 1) {
        Err(BoardFault::OutOfMemory | BoardFault::NoView) => board.picture(rt, window, 1),
        answer => answer,
    }
}

// The colour of a pixel, asked for again where memory was wanted.
fn seen<B: Lines>(board: &mut Shared<B>, x: i32) -> Result<Dot, BoardFault> {
    match board.point(x, 0) {
        Err(BoardFault::NoView) => board.point(x, 0),
        answer => answer,
    }
}

// The saved document, asked for again where memory was wanted.
fn saved<B: Lines>(board: &mut Shared<B>) -> Result<Saved, BoardFault> {
    match board.saved() {
        Err(BoardFault::OutOfMemory | BoardFault::NoView) => board.saved(),
        answer => answer,
    }
}

#[test]
fn a_square_moves_away_with_little_memory(rt: HostRuntime) -> Result<(), Fail> {
    let alloc = rt.alloc();
    moves_away::<Brand, _>(&rt, alloc, Opened::new(), Document::empty(alloc))
}

fn moves_away<B: Lines, H: Threads + Wait + Abort + Sync>(
    rt: &H,
    alloc: Global,
    opened: Opened,
    document: Document,
) -> Result<(), Fail>
    requires { B.line 1 ≡ record { book = opened.head.word.book; opening = document; limit = 10 } }
{
    let (mut first, mut second) = boards::<B, H>(rt, alloc, opened, document, 10)?;
    check_moves(rt, &mut first, &mut second);
    check_the_end(rt, &mut first);
    check_the_end(rt, &mut second);
    Ok(())
}

// Makes a square, moves it away and makes another, of which the second board paints pictures.
fn check_moves<B: Lines, H: Threads + Wait + Abort + Sync>(
    rt: &H,
    first: &mut Shared<B>,
    second: &mut Shared<B>,
) {
    let answer = edited(rt, first, second, 0, square(10, 0));
    equal(rt, "a square", &answer, &accepted(1, Some(1)));
    check_picture(rt, second, 1, RED);
    let away = Edit::Pose {
        id: 1,
        pose: at(100),
    };
    let answer = edited(rt, second, first, 1, away);
    equal(rt, "away", &answer, &accepted(2, None));
    check_picture(rt, second, 2, WHITE);
    let answer = edited(rt, first, second, 2, square(1, 500));
    equal(rt, "another", &answer, &accepted(3, Some(2)));
    // One picture at most could not be kept, so one of these is answered as kept, or both.
    check_picture(rt, second, 3, WHITE);
    check_picture(rt, second, 3, WHITE);
    let hits = second.hits();
    holds(rt, "one or two hits", hits == 1 || hits == 2);
}

fn check_picture<B: Lines, H: Threads + Wait + Abort + Sync>(
    rt: &H,
    board: &mut Shared<B>,
    version: u64,
    left: Colour,
) {
    let answer = painted(rt, board, &origin(rt));
    let picture = answer.expect(rt, "a picture");
    holds(rt, "its bytes", is_painted(&picture, version, left));
}

// Checks what a board answers after the three edits.
fn check_the_end<B: Lines, R: Abort>(rt: &R, board: &mut Shared<B>) {
    for (x, colour) in &[(0, WHITE), (109, RED), (500, RED)] {
        let wanted = Ok(Dot {
            version: 3,
            colour: *colour,
        });
        equal(rt, "a colour at the end", &seen(board, *x), &wanted);
    }
    let saved = saved(board).expect(rt, "a saved document");
    equal(rt, "its version", &saved.version, &3);
    holds(rt, "its text", saved.text.as_slice() == saved_squares());
}

// A square of 10 at 100 and one of 1 at 500, as they are saved.
fn saved_squares() -> &'static [u8] {
    br#"{"format":2,"next":3,"shapes":[{"hidden":false,"id":1,"place":{"index":"a0","parent":null},"pose":{"dx":100,"dy":0,"flip":false,"quarter":0},"shape":{"fill":"ff0000","h":10,"kind":"rect","w":10}},{"hidden":false,"id":2,"place":{"index":"a1","parent":null},"pose":{"dx":500,"dy":0,"flip":false,"quarter":0},"shape":{"fill":"ff0000","h":1,"kind":"rect","w":1}}]}"#
}

#[test]
fn two_boards_share_pictures_with_little_memory(rt: HostRuntime) -> Result<(), Fail> {
    let alloc = rt.alloc();
    share::<Brand, _>(&rt, alloc, Opened::new(), Document::empty(alloc))
}

fn share<B: Lines, H: Threads + Wait + Abort + Sync>(
    rt: &H,
    alloc: Global,
    opened: Opened,
    document: Document,
) -> Result<(), Fail>
    requires { B.line 1 ≡ record { book = opened.head.word.book; opening = document; limit = 10 } }
{
    let mut seats = Line::open::<B, H>(rt, alloc, opened, 1, document, 2, 10)?;
    let gallery = Gallery::of_many(alloc, 320);
    let mut first = sharing(rt, alloc, seats.pop(), &gallery);
    let mut second = sharing(rt, alloc, seats.pop(), &gallery);
    check_shared(rt, &mut first, &mut second);
    // The first picture of a version is painted, and one more may not have been kept.
    let hits = first.hits().saturating_add(second.hits());
    holds(rt, "hits", hits <= 9);
    Ok(())
}

// The board of a seat, which shares a gallery.
fn sharing<B: Lines>(
    rt: &impl Abort,
    alloc: Global,
    seat: Option<Seat<B>>,
    gallery: &Gallery<B>,
) -> Shared<B> {
    let seat = seat.expect(rt, "a seat");
    Shared::beside(alloc, seat, gallery.again(), LastExport::new(alloc))
}

// Makes a square, makes one elsewhere and moves the first away. After each edit both boards are
// asked for the picture twice.
fn check_shared<B: Lines, H: Threads + Wait + Abort + Sync>(
    rt: &H,
    first: &mut Shared<B>,
    second: &mut Shared<B>,
) {
    let answer = edited(rt, first, second, 0, square(10, 0));
    equal(rt, "a square", &answer, &accepted(1, Some(1)));
    check_both(rt, first, second, 1, RED);
    let answer = edited(rt, second, first, 1, square(1, 500));
    equal(rt, "another", &answer, &accepted(2, Some(2)));
    check_both(rt, first, second, 2, RED);
    let away = Edit::Pose {
        id: 1,
        pose: at(100),
    };
    let answer = edited(rt, first, second, 2, away);
    equal(rt, "away", &answer, &accepted(3, None));
    check_both(rt, first, second, 3, WHITE);
}

// Asks both boards for the picture, twice each.
fn check_both<B: Lines, H: Threads + Wait + Abort + Sync>(
    rt: &H,
    first: &mut Shared<B>,
    second: &mut Shared<B>,
    version: u64,
    left: Colour,
) {
    check_picture(rt, first, version, left);
    check_picture(rt, second, version, left);
    check_picture(rt, second, version, left);
    check_picture(rt, first, version, left);
}
