//! The board of a seat that tells how its pictures were answered.

ghost use Rattle.std.specs.Prelude.{◌≡◌, false};

use canvas_board::{Gallery, LastExport, Shared};
use canvas_doc::Edit;
use canvas_doors::Events;
use canvas_line::{Lines, Seat};
use canvas_look::{Board, BoardFault, Dot, Edited, Picture, Saved};
use canvas_plane::Window;
use std::alloc::Global;
use std::sync::Wait;
use std::thread::Threads;

/// After how many changes the one who makes the next has their damage remembered: fewer than a
/// version tells of.
const REMEMBERED: u64 = 32;

/// The board of a seat that tells of each picture whether it was painted.
#[derive(Drop)]
pub struct Counted<'a, L: Lines, E: Events> {
    board: Shared<L>,
    events: &'a E,
}

impl<'a, L: Lines, E: Events> Counted<'a, L, E> {
    /// A board over a seat, beside others that have the same gallery and the same last export.
    pub fn new(
        alloc: Global,
        seat: Seat<L>,
        gallery: Gallery<L>,
        last_export: LastExport<L>,
        events: &'a E,
    ) -> Counted<'a, L, E>
        ensures { result.board.alone ≡ false }
    {
        let board = Shared::beside(alloc, seat, gallery, last_export);
        Counted { board, events }
    }

    /// Gives the seat up.
    pub fn close<R: Wait>(self, rt: &R) {
        let Counted { board, events: _ } = self;
        board.close(rt);
    }
}

impl<'a, L: Lines, E: Events> Board for Counted<'a, L, E> {
    ghost seen = { λ counted. counted.board };

    fn edit<H: Wait>(&mut self, rt: &H, edit: &Edit) -> Result<Edited, BoardFault> {
        let answer = self.board.edit(rt, edit);
        if let Ok(edited) = &answer
            && edited.number % REMEMBERED == 0
        {
            self.board.remember();
        }
        answer
    }

    fn picture<H: Threads + Wait + Sync>(
        &mut self,
        rt: &H,
        window: &Window,
        workers: u32,
    ) -> Result<Picture, BoardFault> {
        let hits = self.board.hits();
        let answer = self.board.picture(rt, window, workers);
        if answer.is_ok() {
            self.events.pictured(hits < self.board.hits());
        }
        answer
    }

    fn point(&mut self, x: i32, y: i32) -> Result<Dot, BoardFault> {
        self.board.point(x, y)
    }

    fn saved(&mut self) -> Result<Saved, BoardFault> {
        self.board.saved()
    }
}
