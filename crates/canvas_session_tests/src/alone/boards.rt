//! Edits, pictures and refusals of a board.

use crate::asserts::{equal, holds};
use canvas_board::{Alone, Board, BoardFault, Dot, Edited};
use canvas_code::Coded;
use canvas_doc::{Document, Edit, Parent, Refusal, Spot};
use canvas_plane::{Pose, Window};
use canvas_shape::{Colour, Kind};
use std::alloc::Global;
use std::process::Abort;
use std::sync::Wait;
use std::thread::Threads;

pub(crate) const RED: Colour = Colour([255, 0, 0]);

/// A rectangle of 2 by 1 in front of all others on the page.
pub(crate) fn rectangle(fill: Colour) -> Edit {
    Edit::Create {
        kind: Kind::Rect { w: 2, h: 1, fill },
        pose: Pose::STILL,
        hidden: false,
        parent: Parent::Page,
        spot: Spot::Front,
    }
}

/// A board over an empty document, which may accept so many changes.
pub(crate) fn board(rt: &impl Abort, alloc: Global, limit: u64) -> Alone {
    Alone::new(alloc, Document::empty(alloc), limit).expect(rt, "a board")
}

fn window(rt: &impl Abort, w: u32, h: u32) -> Window {
    Window::new(0, 0, w, h).expect(rt, "a window")
}

// Asserts what a board answers to an edit.
fn check_edit<H: Wait + Abort>(
    rt: &H,
    board: &mut Alone,
    edit: Edit,
    wanted: Result<Edited, BoardFault>,
) {
    equal(rt, "an edit", &board.edit(rt, &edit), &wanted);
}

// The answer to an edit that was accepted as such a version, and made such a shape.
fn accepted(number: u64, id: u32) -> Result<Edited, BoardFault> {
    let id = Some(id);
    Ok(Edited { number, id })
}

// Asserts that a pixel of the page's first row is red in such a version.
fn check_red(rt: &impl Abort, board: &mut Alone, x: i32, version: u64) {
    let wanted = Dot {
        version,
        colour: RED,
    };
    equal(rt, "a colour", &board.point(x, 0), &Ok(wanted));
}

// Asserts that a window is painted as these bytes of such a version.
fn check_picture<H: Abort + Threads + Wait + Sync>(
    rt: &H,
    board: &mut Alone,
    window: &Window,
    version: u64,
    want: &[u8],
) {
    let picture = board.picture(rt, window, 1).expect(rt, "a picture");
    equal(rt, "its version", &picture.version, &version);
    holds(rt, "its bytes", picture.bytes.as_slice() == want);
}

// Asserts that no board takes such a limit.
fn check_no_board(rt: &impl Abort, alloc: Global, limit: u64) {
    let fault = Alone::new(alloc, Document::empty(alloc), limit).err();
    equal(rt, "a limit", &fault, &Some(BoardFault::BadSetting));
}

#[test]
fn limits_of_a_board(rt: HostRuntime) {
    let alloc = rt.alloc();
    check_no_board(&rt, alloc, 0);
    check_no_board(&rt, alloc, 1_000_001);
    check_no_board(&rt, alloc, u64::MAX);
    equal(&rt, "its number", &BoardFault::BadSetting.code(), &32);
    drop(board(&rt, alloc, 1));
    drop(board(&rt, alloc, 1_000_000));
}

#[test]
fn a_red_rectangle(rt: HostRuntime) {
    let mut board = board(&rt, rt.alloc(), 10);
    check_edit(&rt, &mut board, rectangle(RED), accepted(1, 1));
    let want = b"P6\n3 1\n255\n\xff\x00\x00\xff\x00\x00\xff\xff\xff";
    check_picture(&rt, &mut board, &window(&rt, 3, 1), 1, want);
    check_red(&rt, &mut board, 1, 1);
    let saved = saved_size(&rt, &mut board);
    equal(&rt, "version and bytes saved", &saved, &(1, 193));
}

// The version of a saved document, and of how many bytes it is.
fn saved_size(rt: &impl Abort, board: &mut Alone) -> (u64, usize) {
    let saved = board.saved().expect(rt, "a saved document");
    (saved.version, saved.text.len())
}

#[test]
fn versions_are_spent_first(rt: HostRuntime) {
    let mut board = board(&rt, rt.alloc(), 2);
    let no_shape = Err(BoardFault::Refused(Refusal::NoSuchShape));
    check_edit(&rt, &mut board, Edit::Delete { id: 9 }, no_shape);
    check_edit(&rt, &mut board, rectangle(RED), accepted(1, 1));
    let below_itself = Edit::Move {
        id: 1,
        parent: Parent::Shape(1),
        spot: Spot::Front,
    };
    let no_container = Err(BoardFault::Refused(Refusal::NotAContainer));
    check_edit(&rt, &mut board, below_itself, no_container);
    check_edit(&rt, &mut board, rectangle(RED), accepted(2, 2));
    let spent = Err(BoardFault::VersionsSpent);
    check_edit(&rt, &mut board, Edit::Delete { id: 9 }, spent);
    check_red(&rt, &mut board, 0, 2);
}

// Asserts that no picture is painted by so many workers.
fn check_no_picture<H: Abort + Threads + Wait + Sync>(
    rt: &H,
    board: &mut Alone,
    window: &Window,
    workers: u32,
) {
    let fault = board.picture(rt, window, workers).err();
    equal(rt, "workers", &fault, &Some(BoardFault::BadWorkers));
}

#[test]
fn bad_numbers_of_workers(rt: HostRuntime) {
    let mut board = board(&rt, rt.alloc(), 1);
    check_edit(&rt, &mut board, rectangle(RED), accepted(1, 1));
    let window = window(&rt, 256, 2);
    check_bad_workers(&rt, &mut board, &window);
    let fault = BoardFault::BadWorkers;
    let told = (fault.code(), fault.name());
    equal(&rt, "the refusal", &told, &(31, "BadWorkers"));
}

// Asserts that no picture is painted by none, or by more than sixteen.
fn check_bad_workers<H: Abort + Threads + Wait + Sync>(rt: &H, board: &mut Alone, window: &Window) {
    check_no_picture(rt, board, window, 0);
    check_no_picture(rt, board, window, 17);
    check_no_picture(rt, board, window, u32::MAX);
}
