//! Boards at one document, of which one keeps pictures.

ghost use Rattle.std.specs.Prelude.{◌≡◌};
ghost use denote.Param.Send.{IsSync};

use crate::asserts::{equal, holds};
use crate::boards::board;
use canvas_board::{Board, Picture, Shared};
use canvas_doc::{Document, Edit};
use canvas_line::{Line, Lines, Opened, Seat};
use canvas_plane::Window;
use std::alloc::Global;
use std::marker::Brand;
use std::process::Abort;
use std::sync::Wait;
use std::thread::Threads;

/// How many changes a document may accept.
const LIMIT: u64 = 4000;

/// Boards at one document: a viewer that keeps pictures, an editor, and a witness that keeps none.
#[derive(Drop)]
pub(crate) struct Table<B: Lines> {
    pub(crate) viewer: Shared<B>,
    pub(crate) editor: Shared<B>,
    pub(crate) witness: Shared<B>,
}

impl<B: Lines> Table<B> {
    /// The viewer's picture of a window, if it is the one that the witness has painted.
    pub(crate) fn picture<H: Threads + Wait + Sync>(
        &mut self,
        rt: &H,
        window: &Window,
    ) -> Option<Picture>
        requires { IsSync H.row }
    {
        let seen = self.viewer.picture(rt, window, 1).ok()?;
        if self.is_painted(rt, window, &seen) {
            Some(seen)
        } else {
            None
        }
    }

    // Whether the witness paints such a picture of a window.
    fn is_painted<H: Threads + Wait + Sync>(
        &mut self,
        rt: &H,
        window: &Window,
        seen: &Picture,
    ) -> bool
        requires { IsSync H.row }
    {
        match self.witness.picture(rt, window, 1) {
            Ok(painted) => {
                painted.version == seen.version && painted.bytes.as_slice() == seen.bytes.as_slice()
            }
            Err(_) => false,
        }
    }

    /// Whether the viewer's picture of a window is the one that the witness has painted.
    pub(crate) fn shows<H: Threads + Wait + Sync>(&mut self, rt: &H, window: &Window) -> bool
        requires { IsSync H.row }
    {
        self.picture(rt, window).is_some()
    }

    /// Whether that picture is one of such a version.
    pub(crate) fn shows_version<H: Threads + Wait + Sync>(
        &mut self,
        rt: &H,
        window: &Window,
        version: u64,
    ) -> bool
        requires { IsSync H.row }
    {
        match self.picture(rt, window) {
            Some(seen) => seen.version == version,
            None => false,
        }
    }

    /// Asserts how many pictures the viewer has answered as kept, in such a version.
    pub(crate) fn check_hits(&self, rt: &impl Abort, version: u64, hits: u64) {
        let found = (version, self.viewer.hits());
        equal(rt, "version and hits", &found, &(version, hits));
    }

    /// Asserts that the editor, or the viewer in its place, makes an edit.
    pub(crate) fn check_edit<H: Wait + Abort>(&mut self, rt: &H, by_viewer: bool, edit: Edit) {
        holds(rt, "an edit", self.edits(rt, by_viewer, &edit));
    }

    /// Whether the editor, or the viewer in its place, makes an edit.
    pub(crate) fn edits<H: Wait>(&mut self, rt: &H, by_viewer: bool, edit: &Edit) -> bool {
        if by_viewer {
            self.viewer.edit(rt, edit).is_ok()
        } else {
            self.editor.edit(rt, edit).is_ok()
        }
    }
}

/// What is done at a table.
pub(crate) trait Play {
    /// Plays it at a document that nobody has looked at.
    fn play<B: Lines, H: Threads + Wait + Abort + Sync>(&self, rt: &H, table: &mut Table<B>)
        requires { IsSync H.row };
}

/// Plays at a document, whose viewer keeps so many pictures.
pub(crate) fn play_at<P: Play, H: Threads + Wait + Abort + Sync>(
    rt: &H,
    alloc: Global,
    document: Document,
    keep: u32,
    play: &P,
)
    requires { IsSync H.row }
{
    opened::<Brand, P, H>(rt, alloc, Opened::new(), document, keep, play)
}

fn opened<B: Lines, P: Play, H: Threads + Wait + Abort + Sync>(
    rt: &H,
    alloc: Global,
    opened: Opened,
    document: Document,
    keep: u32,
    play: &P,
)
    requires sync { IsSync H.row }
    requires line { B.line 1
        ≡ record { book = opened.head.word.book; opening = document; limit = 4000 } }
{
    let seats = Line::open::<B, H>(rt, alloc, opened, 1, document, 3, LIMIT);
    let mut table = seated(rt, alloc, seats.expect(rt, "a line"), keep);
    play.play(rt, &mut table)
}

// Boards of three seats, of which one keeps so many pictures.
fn seated<B: Lines>(
    rt: &impl Abort,
    alloc: Global,
    mut seats: Vec<Seat<B>>,
    keep: u32,
) -> Table<B> {
    let viewer = board(rt, alloc, seats.pop(), keep);
    let editor = board(rt, alloc, seats.pop(), 0);
    let witness = board(rt, alloc, seats.pop(), 0);
    Table {
        viewer,
        editor,
        witness,
    }
}
