//! A board's document after refusals that no session gets: it is as it was before.

use crate::alone::boards::{RED, board, rectangle};
use crate::asserts::{equal, holds};
use canvas_board::{Alone, Board, BoardFault};
use canvas_doc::Edit;
use canvas_plane::Window;
use std::alloc::Global;
use std::process::Abort;
use std::sync::{Arc, Wait};

// A board that has made a shape, and takes so many versions.
fn edited_board<H: Wait + Abort>(rt: &H, alloc: Global, limit: u64) -> Alone {
    let mut board = board(rt, alloc, limit);
    board.edit(rt, &rectangle(RED)).expect(rt, "an edit");
    board
}

// The version and the text of a board's document.
fn saved(rt: &impl Abort, board: &mut Alone) -> (u64, Arc<Vec<u8>, Global>) {
    let saved = board.saved().expect(rt, "a saved document");
    (saved.version, saved.text)
}

#[test]
fn spent_versions_change_nothing(rt: HostRuntime) {
    let mut board = edited_board(&rt, rt.alloc(), 1);
    let before = saved(&rt, &mut board);
    equal(&rt, "the version", &before.0, &1);
    let answer = board.edit(&rt, &Edit::Delete { id: 1 });
    equal(&rt, "a refusal", &answer, &Err(BoardFault::VersionsSpent));
    holds(&rt, "as before", saved(&rt, &mut board) == before);
}

#[test]
fn a_refused_picture_changes_nothing(rt: HostRuntime) {
    let mut board = edited_board(&rt, rt.alloc(), 2);
    let window = Window::new(0, 0, 1, 1).expect(&rt, "a window");
    let before = saved(&rt, &mut board);
    let fault = board.picture(&rt, &window, 17).err();
    equal(&rt, "the fault", &fault, &Some(BoardFault::BadWorkers));
    holds(&rt, "as before", saved(&rt, &mut board) == before);
}
