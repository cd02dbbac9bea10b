//! Boards that share a gallery: what one of them was shown twice, the others are answered again
//! while it is right.

ghost use Rattle.std.specs.Prelude.{◌≡◌};
ghost use denote.Param.Send.{IsSync};

use crate::asserts::{equal, holds};
use crate::boards::{RED, WHITE, at, check_edit, is_painted, origin, square};
use canvas_board::{Board, Gallery, LastExport, Picture, Shared};
use canvas_doc::{Document, Edit};
use canvas_line::{Line, Lines, Opened, Seat};
use canvas_plane::Window;
use canvas_shape::Colour;
use std::alloc::Global;
use std::marker::Brand;
use std::process::Abort;
use std::sync::Wait;
use std::thread::{self, Threads};

/// How many boards a crowd has, of which one edits.
const CROWD: u32 = 4;

/// How many edits or pictures a board of a crowd makes.
const TURNS: u32 = 60;

/// Boards of all seats, which share a gallery.
pub(crate) fn boards_sharing<B: Lines>(
    rt: &impl Abort,
    alloc: Global,
    seats: Vec<Seat<B>>,
    gallery: &Gallery<B>,
) -> Vec<Shared<B>> {
    let mut boards = Vec::new(alloc);
    for seat in seats {
        let board = Shared::beside(alloc, seat, gallery.again(), LastExport::new(alloc));
        boards.push(board).expect(rt, "memory");
    }
    boards
}

// The last of some boards.
fn last<B: Lines>(rt: &impl Abort, boards: &mut Vec<Shared<B>>) -> Shared<B> {
    boards.pop().expect(rt, "a board")
}

// Asserts that a picture at the page's origin is of such a version, has such a colour at its left,
// and that the board has answered so many as kept by then.
fn check_asked<B: Lines, H: Threads + Wait + Abort + Sync>(
    rt: &H,
    board: &mut Shared<B>,
    version: u64,
    left: Colour,
    hits: u64,
)
    requires { IsSync H.row }
{
    let picture = board.picture(rt, &origin(rt), 1).expect(rt, "a picture");
    holds(rt, "its bytes", is_painted(&picture, version, left));
    equal(rt, "hits", &board.hits(), &hits);
}

#[test]
fn a_picture_is_kept_from_its_second_asking_on(rt: HostRuntime) {
    let alloc = rt.alloc();
    shares::<Brand, _>(&rt, alloc, Opened::new(), Document::empty(alloc))
}

fn shares<B: Lines, H: Threads + Wait + Abort + Sync>(
    rt: &H,
    alloc: Global,
    opened: Opened,
    document: Document,
)
    requires sync { IsSync H.row }
    requires line { B.line 1
        ≡ record { book = opened.head.word.book; opening = document; limit = 10 } }
{
    let seats = Line::open::<B, H>(rt, alloc, opened, 1, document, 2, 10).expect(rt, "a line");
    let mut boards = boards_sharing(rt, alloc, seats, &Gallery::of_many(alloc, 320));
    let mut first = last(rt, &mut boards);
    let mut second = last(rt, &mut boards);
    check_edit(rt, &mut first, square(10, 0), 1, Some(1));
    check_asked(rt, &mut first, 1, RED, 0);
    check_asked(rt, &mut second, 1, RED, 0);
    check_asked(rt, &mut first, 1, RED, 1);
    check_asked(rt, &mut second, 1, RED, 1);
    check_later(rt, &mut first, &mut second);
}

// Asserts what two boards answer after an edit elsewhere, and after one that the picture shows.
fn check_later<B: Lines, H: Threads + Wait + Abort + Sync>(
    rt: &H,
    first: &mut Shared<B>,
    second: &mut Shared<B>,
)
    requires { IsSync H.row }
{
    check_edit(rt, first, square(1, 500), 2, Some(2));
    check_asked(rt, second, 2, RED, 2);
    let away = Edit::Pose {
        id: 1,
        pose: at(100),
    };
    check_edit(rt, second, away, 3, None);
    check_asked(rt, first, 3, WHITE, 1);
    check_asked(rt, second, 3, WHITE, 3);
}

#[test]
fn a_board_is_answered_no_picture_of_another_line(rt: HostRuntime) {
    let alloc = rt.alloc();
    let one = Document::empty(alloc);
    let two = Document::empty(alloc);
    apart::<Brand, _>(&rt, alloc, Opened::new(), one, Opened::new(), two);
}

fn apart<B: Lines, H: Threads + Wait + Abort + Sync>(
    rt: &H,
    alloc: Global,
    first: Opened,
    one: Document,
    second: Opened,
    two: Document,
)
    requires sync { IsSync H.row }
    requires first { B.line 3 ≡ record { book = first.head.word.book; opening = one; limit = 10 } }
    requires second { B.line 7
        ≡ record { book = second.head.word.book; opening = two; limit = 10 } }
{
    let gallery = Gallery::of_many(alloc, 320);
    let threes = Line::open::<B, H>(rt, alloc, first, 3, one, 1, 10).expect(rt, "a line");
    let sevens = Line::open::<B, H>(rt, alloc, second, 7, two, 1, 10).expect(rt, "a line");
    let mut three = last(rt, &mut boards_sharing(rt, alloc, threes, &gallery));
    let mut seven = last(rt, &mut boards_sharing(rt, alloc, sevens, &gallery));
    check_edit(rt, &mut three, square(10, 0), 1, Some(1));
    check_edit(rt, &mut seven, square(10, 100), 1, Some(1));
    for _ in 0..3u32 {
        check_asked(rt, &mut three, 1, RED, 0);
        check_asked(rt, &mut seven, 1, WHITE, 0);
    }
}

#[test]
fn a_picture_outlasts_edits_elsewhere(rt: HostRuntime) {
    let alloc = rt.alloc();
    outlasts::<Brand, _>(&rt, alloc, Opened::new(), Document::empty(alloc))
}

fn outlasts<B: Lines, H: Threads + Wait + Abort + Sync>(
    rt: &H,
    alloc: Global,
    opened: Opened,
    document: Document,
)
    requires sync { IsSync H.row }
    requires line { B.line 1
        ≡ record { book = opened.head.word.book; opening = document; limit = 1000 } }
{
    let seats = Line::open::<B, H>(rt, alloc, opened, 1, document, 2, 1000).expect(rt, "a line");
    let mut boards = boards_sharing(rt, alloc, seats, &Gallery::of_many(alloc, 320));
    let mut editor = last(rt, &mut boards);
    let mut viewer = last(rt, &mut boards);
    check_edit(rt, &mut editor, square(10, 0), 1, Some(1));
    check_asked(rt, &mut viewer, 1, RED, 0);
    check_asked(rt, &mut viewer, 1, RED, 0);
    // As many as four editors make in a second.
    edits_elsewhere(rt, &mut editor, 240, 32);
    check_asked(rt, &mut viewer, 241, RED, 1);
    edits_elsewhere(rt, &mut editor, 257, 32);
    check_asked(rt, &mut viewer, 498, RED, 1);
    // Nobody told of these in time.
    edits_elsewhere(rt, &mut editor, 65, 1000);
    check_asked(rt, &mut viewer, 563, RED, 1);
}

#[test]
fn as_many_pictures_are_kept_as_there_is_room_for(rt: HostRuntime) {
    let alloc = rt.alloc();
    keeps_eight::<Brand, _>(&rt, alloc, Opened::new(), Document::empty(alloc))
}

fn keeps_eight<B: Lines, H: Threads + Wait + Abort + Sync>(
    rt: &H,
    alloc: Global,
    opened: Opened,
    document: Document,
)
    requires sync { IsSync H.row }
    requires line { B.line 1 ≡ record { book = opened.head.word.book; opening = document; limit = 10 } }
{
    let seats = Line::open::<B, H>(rt, alloc, opened, 1, document, 1, 10).expect(rt, "a line");
    let mut boards = boards_sharing(rt, alloc, seats, &Gallery::of_many(alloc, 8));
    let mut board = last(rt, &mut boards);
    for hits in &[0u64, 0, 8, 16] {
        for place in 0..8i32 {
            let window = Window::new(place.saturating_mul(16), 0, 16, 16).expect(rt, "a window");
            board.picture(rt, &window, 1).expect(rt, "a picture");
        }
        equal(rt, "hits of eight", &board.hits(), hits);
    }
}

// Makes so many edits that no window meets. After each so many the gallery is told of them.
fn edits_elsewhere<B: Lines, H: Wait + Abort>(
    rt: &H,
    editor: &mut Shared<B>,
    count: u64,
    told: u64,
) {
    for number in 1..=count {
        editor.edit(rt, &square(1, 500)).expect(rt, "an edit");
        if number.checked_rem(told) == Some(0) {
            editor.remember();
        }
    }
}

#[test]
fn boards_are_answered_while_one_edits(rt: HostRuntime) {
    let alloc = rt.alloc();
    crowd::<Brand, _>(&rt, alloc, Opened::new(), Document::empty(alloc))
}

fn crowd<B: Lines + Send + Sync, H: Threads + Wait + Abort + Sync>(
    rt: &H,
    alloc: Global,
    opened: Opened,
    document: Document,
)
    requires { B.line 1 ≡ record { book = opened.head.word.book; opening = document; limit = 100 } }
{
    let seats = Line::open::<B, H>(rt, alloc, opened, 1, document, CROWD, 100);
    let seats = seats.expect(rt, "a line");
    let boards = boards_sharing(rt, alloc, seats, &Gallery::of_many(alloc, 320));
    let jobs = jobs_of(rt, alloc, boards);
    let done = thread::map_vec(rt, jobs, &|job: Job<B>| work(rt, job));
    done.expect(rt, "threads");
}

/// A thread's work with its board.
#[derive(Drop)]
struct Job<B: Lines> {
    board: Shared<B>,
    edits: bool,
}

// The first board edits, and all others look.
fn jobs_of<B: Lines>(rt: &impl Abort, alloc: Global, boards: Vec<Shared<B>>) -> Vec<Job<B>> {
    let mut jobs = Vec::new(alloc);
    for board in boards {
        let edits = jobs.is_empty();
        jobs.push(Job { board, edits }).expect(rt, "memory");
    }
    jobs
}

// Each edit makes one more dot of a row, from left to right; each picture shows as many as its version says.
fn work<B: Lines, H: Threads + Wait + Abort + Sync>(rt: &H, job: Job<B>) {
    let Job { mut board, edits } = job;
    for turn in 0..TURNS {
        if edits {
            let dot = square(1, i64::from(turn));
            board.edit(rt, &dot).expect(rt, "an edit");
        } else {
            check_dots(rt, &mut board, turn % 4);
        }
    }
}

// Asserts that a quarter of the row shows as many dots as the version says.
fn check_dots<B: Lines, H: Threads + Wait + Abort + Sync>(
    rt: &H,
    board: &mut Shared<B>,
    quarter: u32,
) {
    let left = quarter.saturating_mul(16);
    let column = i32::try_from(left).expect(rt, "a column");
    let window = Window::new(column, 0, 16, 1).expect(rt, "a window");
    let picture = board.picture(rt, &window, 1).expect(rt, "a picture");
    holds(rt, "dots", has_dots(&picture, left));
}

// Whether so many pixels of a picture of 16 are red, from the left, as there are dots at the right
// of its left edge.
fn has_dots(picture: &Picture, left: u32) -> bool {
    let dots = picture.version.saturating_sub(left.into()).min(16) as usize;
    let reds = picture
        .bytes
        .iter()
        .skip(12)
        .step_by(3)
        .all(|red| *red == 255);
    let whites = picture
        .bytes
        .iter()
        .skip(13)
        .step_by(3)
        .filter(|green| **green == 255)
        .count();
    reds && whites == 16usize.saturating_sub(dots)
}
