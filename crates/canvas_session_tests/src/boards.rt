//! What boards over seats answer.

ghost use Rattle.std.specs.Prelude.{◌≡◌};

use crate::asserts::{equal, holds};
use canvas_board::{Board, BoardFault, Dot, Edited, Picture, Shared};
use canvas_code::Coded;
use canvas_doc::{Document, Edit, Parent, Refusal, Spot};
use canvas_line::{Line, LineFault, Lines, Opened, Seat};
use canvas_plane::{Pose, Window};
use canvas_saved::import;
use canvas_shape::{Colour, Kind};
use std::alloc::Global;
use std::marker::Brand;
use std::process::Abort;
use std::sync::{Arc, Wait};
use std::thread::Threads;

pub(crate) const RED: Colour = Colour([255, 0, 0]);

pub(crate) const WHITE: Colour = Colour([255, 255, 255]);

/// A red square in front of all others on the page.
pub(crate) fn square(side: u32, dx: i64) -> Edit {
    Edit::Create {
        kind: Kind::Rect {
            w: side,
            h: side,
            fill: RED,
        },
        pose: at(dx),
        hidden: false,
        parent: Parent::Page,
        spot: Spot::Front,
    }
}

/// A pose that moves to the right.
pub(crate) fn at(dx: i64) -> Pose {
    Pose {
        dx,
        dy: 0,
        quarter: 0,
        flip: false,
    }
}

/// The boards of a line of two seats.
pub(crate) fn boards<B: Lines, H: Wait + Abort>(
    rt: &H,
    alloc: Global,
    opened: Opened,
    document: Document,
    limit: u64,
) -> Result<(Shared<B>, Shared<B>), LineFault>
    requires { B.line 1
        ≡ record { book = opened.head.word.book; opening = document; limit = limit } }
{
    let mut seats = Line::open::<B, H>(rt, alloc, opened, 1, document, 2, limit)?;
    let first = board(rt, alloc, seats.pop(), 4);
    let second = board(rt, alloc, seats.pop(), 4);
    Ok((first, second))
}

/// The first of these boards alone.
pub(crate) fn first_board<B: Lines, H: Wait + Abort>(
    rt: &H,
    alloc: Global,
    opened: Opened,
    document: Document,
    limit: u64,
) -> Shared<B>
    requires { B.line 1
        ≡ record { book = opened.head.word.book; opening = document; limit = limit } }
{
    let (first, _) = boards::<B, H>(rt, alloc, opened, document, limit).expect(rt, "boards");
    first
}

/// The board of a seat, which keeps so many pictures.
pub(crate) fn board<B: Lines>(
    rt: &impl Abort,
    alloc: Global,
    seat: Option<Seat<B>>,
    keep: u32,
) -> Shared<B> {
    let seat = seat.expect(rt, "a seat");
    Shared::new(alloc, seat, keep).ok().expect(rt, "a board")
}

/// The answer to an edit that was accepted as such a version, and made such a shape.
pub(crate) fn accepted(number: u64, id: Option<u32>) -> Result<Edited, BoardFault> {
    Ok(Edited { number, id })
}

/// Whether a picture of 16 by 16 names such a version and has such a colour at the left of its
/// first row, and white elsewhere from the eleventh row on.
pub(crate) fn is_painted(picture: &Picture, version: u64, left: Colour) -> bool {
    let bytes = picture.bytes.as_slice();
    let lower_rows = [255; 288];
    picture.version == version
        && bytes.len() == 781
        && bytes.starts_with(&first_row(left))
        && bytes.ends_with(&lower_rows)
}

// The header of a picture of 16 by 16, and a row that begins with ten pixels of such a colour.
fn first_row(left: Colour) -> [u8; 61] {
    let pixel = left.0;
    let mut row = [255; 61];
    row[..13].copy_from_slice(b"P6\n16 16\n255\n");
    row[13..43].copy_from_slice([pixel; 10].as_flattened());
    row
}

/// Asserts that an edit is accepted as such a version, and makes such a shape. (Calls of this, of
/// `check_dot` and of `check_picture` tell a proof nothing, which keeps tests quick to prove.)
pub(crate) fn check_edit<B: Lines, H: Wait + Abort>(
    rt: &H,
    board: &mut Shared<B>,
    edit: Edit,
    number: u64,
    id: Option<u32>,
) {
    let answer = board.edit(rt, &edit);
    equal(rt, "an edit", &answer, &accepted(number, id));
}

// Asserts that an edit has this fault.
fn check_fault<B: Lines, H: Wait + Abort>(
    rt: &H,
    board: &mut Shared<B>,
    edit: &Edit,
    fault: BoardFault,
) {
    equal(rt, "a refusal", &board.edit(rt, edit), &Err(fault));
}

/// Asserts that a pixel at the page's origin has such a colour in such a version.
pub(crate) fn check_dot<B: Lines>(
    rt: &impl Abort,
    board: &mut Shared<B>,
    version: u64,
    colour: Colour,
) {
    let wanted = Ok(Dot { version, colour });
    equal(rt, "a colour", &board.point(0, 0), &wanted);
}

/// A window of 16 by 16 at the page's origin.
pub(crate) fn origin(rt: &impl Abort) -> Window {
    Window::new(0, 0, 16, 16).expect(rt, "a window")
}

// Asserts that a picture by so many workers names such a version and has such a colour at its left.
fn check_picture<B: Lines, H: Threads + Wait + Abort + Sync>(
    rt: &H,
    board: &mut Shared<B>,
    workers: u32,
    version: u64,
    left: Colour,
) {
    let answer = board.picture(rt, &origin(rt), workers);
    let picture = answer.expect(rt, "a picture");
    holds(rt, "its bytes", is_painted(&picture, version, left));
}

// Asserts that a board saves two shapes as its third version.
fn check_saved<B: Lines>(rt: &impl Abort, alloc: Global, board: &mut Shared<B>) {
    let saved = board.saved().expect(rt, "a saved document");
    equal(rt, "the saved version", &saved.version, &3);
    let again = import(alloc, saved.text.as_slice()).expect(rt, "a document again");
    equal(rt, "its shapes", &again.count(), &2);
}

#[test]
fn a_square_moves_away(rt: HostRuntime) {
    let alloc = rt.alloc();
    moves_away::<Brand, _>(&rt, alloc, Opened::new(), Document::empty(alloc))
}

fn moves_away<B: Lines, H: Threads + Wait + Abort + Sync>(
    rt: &H,
    alloc: Global,
    opened: Opened,
    document: Document,
)
    requires { B.line 1 ≡ record { book = opened.head.word.book; opening = document; limit = 10 } }
{
    let mut board = first_board::<B, H>(rt, alloc, opened, document, 10);
    check_edit(rt, &mut board, square(10, 0), 1, Some(1));
    check_picture(rt, &mut board, 1, 1, RED);
    let away = Edit::Pose {
        id: 1,
        pose: at(100),
    };
    check_edit(rt, &mut board, away, 2, None);
    check_picture(rt, &mut board, 2, 2, WHITE);
    check_edit(rt, &mut board, square(1, 500), 3, Some(2));
    check_picture(rt, &mut board, 1, 3, WHITE);
    check_dot(rt, &mut board, 3, WHITE);
    check_saved(rt, alloc, &mut board);
    board.close(rt);
}

#[test]
fn versions_are_spent_first(rt: HostRuntime) {
    let alloc = rt.alloc();
    spends::<Brand, _>(&rt, alloc, Opened::new(), Document::empty(alloc))
}

fn spends<B: Lines, H: Wait + Abort>(rt: &H, alloc: Global, opened: Opened, document: Document)
    requires { B.line 1 ≡ record { book = opened.head.word.book; opening = document; limit = 2 } }
{
    let mut board = first_board::<B, H>(rt, alloc, opened, document, 2);
    check_edit(rt, &mut board, square(1, 0), 1, Some(1));
    check_edit(rt, &mut board, square(1, 0), 2, Some(2));
    let missing = Edit::Delete { id: 9 };
    check_fault(rt, &mut board, &missing, BoardFault::VersionsSpent);
    check_dot(rt, &mut board, 2, RED);
}

// The version and the text of a board's document.
fn saved<B: Lines>(rt: &impl Abort, board: &mut Shared<B>) -> (u64, Arc<Vec<u8>, Global>) {
    let saved = board.saved().expect(rt, "a saved document");
    (saved.version, saved.text)
}

// Asserts that an edit has this fault, and that a witness saves what was saved before. It has
// exported nothing yet, so it makes the text.
fn check_kept<B: Lines, H: Wait + Abort>(
    rt: &H,
    board: &mut Shared<B>,
    witness: &mut Shared<B>,
    edit: Edit,
    fault: BoardFault,
) {
    let before = saved(rt, board);
    check_fault(rt, board, &edit, fault);
    holds(rt, fault.name(), is_same(&saved(rt, witness), &before));
}

// Asserts that no picture is painted by so many workers, and that a witness saves what was saved before.
fn check_unpainted<B: Lines, H: Threads + Wait + Abort + Sync>(
    rt: &H,
    board: &mut Shared<B>,
    witness: &mut Shared<B>,
    workers: u32,
) {
    let before = saved(rt, board);
    let answer = board.picture(rt, &origin(rt), workers);
    let fault = answer.err().expect(rt, "a refusal");
    equal(rt, "its number", &fault.code(), &31);
    holds(rt, "saved as before", is_same(&saved(rt, witness), &before));
}

// Whether two are of one version and have one text.
fn is_same(one: &(u64, Arc<Vec<u8>, Global>), other: &(u64, Arc<Vec<u8>, Global>)) -> bool {
    one.0 == other.0 && one.1.as_slice() == other.1.as_slice()
}

#[test]
fn refusals_change_nothing(rt: HostRuntime) {
    let alloc = rt.alloc();
    keeps::<Brand, _>(&rt, alloc, Opened::new(), Document::empty(alloc))
}

fn keeps<B: Lines, H: Threads + Wait + Abort + Sync>(
    rt: &H,
    alloc: Global,
    opened: Opened,
    document: Document,
)
    requires { B.line 1 ≡ record { book = opened.head.word.book; opening = document; limit = 2 } }
{
    let seats = Line::open::<B, H>(rt, alloc, opened, 1, document, 6, 2);
    let mut seats = seats.expect(rt, "a line");
    let mut board = witness(rt, alloc, &mut seats);
    check_edit(rt, &mut board, square(1, 0), 1, Some(1));
    check_refusals(rt, alloc, &mut board, &mut seats);
    check_edit(rt, &mut board, square(2, 5), 2, Some(2));
    let last = Edit::Delete { id: 1 };
    let spent = BoardFault::VersionsSpent;
    check_kept(
        rt,
        &mut board,
        &mut witness(rt, alloc, &mut seats),
        last,
        spent,
    );
}

// Asserts that refusals of each kind change nothing, as a new board of a seat sees it each time.
fn check_refusals<B: Lines, H: Threads + Wait + Abort + Sync>(
    rt: &H,
    alloc: Global,
    board: &mut Shared<B>,
    seats: &mut Vec<Seat<B>>,
) {
    let missing = Edit::Delete { id: 9 };
    let refused = BoardFault::Refused(Refusal::NoSuchShape);
    check_kept(rt, board, &mut witness(rt, alloc, seats), missing, refused);
    let empty = BoardFault::Refused(Refusal::BadSize);
    check_kept(
        rt,
        board,
        &mut witness(rt, alloc, seats),
        square(0, 0),
        empty,
    );
    check_unpainted(rt, board, &mut witness(rt, alloc, seats), 0);
    check_unpainted(rt, board, &mut witness(rt, alloc, seats), 17);
}

// A board of the last of some seats.
fn witness<B: Lines>(rt: &impl Abort, alloc: Global, seats: &mut Vec<Seat<B>>) -> Shared<B> {
    board(rt, alloc, seats.pop(), 0)
}

#[test]
fn two_boards_share_a_document(rt: HostRuntime) {
    let alloc = rt.alloc();
    share::<Brand, _>(&rt, alloc, Opened::new(), Document::empty(alloc))
}

fn share<B: Lines, H: Wait + Abort>(rt: &H, alloc: Global, opened: Opened, document: Document)
    requires { B.line 1 ≡ record { book = opened.head.word.book; opening = document; limit = 10 } }
{
    let both = boards::<B, H>(rt, alloc, opened, document, 10);
    let (mut first, mut second) = both.expect(rt, "boards");
    check_edit(rt, &mut first, square(1, 0), 1, Some(1));
    check_dot(rt, &mut second, 1, RED);
    check_edit(rt, &mut second, Edit::Delete { id: 1 }, 2, None);
    check_edit(rt, &mut first, square(1, 0), 3, Some(2));
}

#[test]
fn settings_that_are_refused(rt: HostRuntime) {
    let alloc = rt.alloc();
    refuses::<Brand, _>(&rt, alloc, Opened::new(), Document::empty(alloc))
}

fn refuses<B: Lines, H: Wait + Abort>(rt: &H, alloc: Global, opened: Opened, document: Document)
    requires { B.line 1 ≡ record { book = opened.head.word.book; opening = document; limit = 10 } }
{
    let mut seats = Line::open::<B, H>(rt, alloc, opened, 1, document, 1, 10).expect(rt, "a line");
    let seat = edited(rt, seats.pop());
    let seat = refused(rt, alloc, seat);
    let mut board = board(rt, alloc, Some(seat), 256);
    check_edit(rt, &mut board, square(1, 0), 2, Some(2));
}

// The seat, once it has made a shape.
fn edited<B: Lines, H: Wait + Abort>(rt: &H, seat: Option<Seat<B>>) -> Seat<B> {
    let mut seat = seat.expect(rt, "a seat");
    seat.edit(rt, &square(1, 0)).expect(rt, "an edit");
    seat
}

// The seat, once a board that would keep too many pictures has given it back.
fn refused<B: Lines>(rt: &impl Abort, alloc: Global, seat: Seat<B>) -> Seat<B> {
    let (fault, seat) = Shared::new(alloc, seat, 257).err().expect(rt, "a refusal");
    equal(rt, "the refusal", &fault.code(), &32);
    equal(rt, "the version", &seat.number(), &1);
    seat
}
