//! The board of one caller among others, over a seat of a shared document.

ghost use Rattle.std.specs.Prelude.{◌≡◌, IfOk, true};
ghost use Rattle.canvas_line.specs.Standing.{IsVersionOf};
ghost use Rattle.canvas_paint.specs.Workers.{are_workers};
ghost use Rattle.canvas_board.specs.Kept.{ShowsAt};
ghost use Rattle.canvas_board.specs.Shared.{OpensAt, known_after, shared_board};

use crate::fault::board_fault_of;
use crate::gallery::Gallery;
use crate::kept_pictures::KeptPictures;
use crate::last_export::LastExport;
use crate::picture::file_of;
use crate::shelf::Shelf;
use bumpalo::Bump;
use canvas_code::OutOfMemory;
use canvas_doc::Edit;
use canvas_line::{LineFault, Lines, Seat, Version};
use canvas_look::{Board, BoardFault, Dot, Edited, Picture, Saved};
use canvas_plane::Window;
use std::alloc::Global;
use std::marker::Model;
use std::sync::Wait;
use std::thread::Threads;

/// The most pictures that a board may be asked to keep.
pub const MOST_KEPT: u32 = 256;

/// The board of one caller among others: a seat at a document that many share.
///
/// Its front is the history of its last answer that told of one, at first that of its seat. The
/// seat may have seen more, where an answer could not be given.
#[derive(Drop)]
pub struct Shared<B: Lines> {
    alloc: Global,
    seat: Seat<B>,
    // How many changes the front has.
    known: u64,
    pictures: KeptPictures<B>,
    last_export: LastExport<B>,
    // How many pictures were answered from the kept ones.
    hits: u64,
}

impl<B: Lines> Model for Shared<B> {
    ghost use Rattle.std.specs.Prelude.{◌≤◌, length};
    ghost use Rattle.canvas_look.specs.Seen.{Seen};
    ghost use Rattle.canvas_board.specs.Shared.{board_at};

    ghost Value = { Seen };

    ghost view = { λ board. board_at board.seat board.known };

    ghost invariant = { λ board. board.known ≤ length board.seat.front };
}

impl<B: Lines> Shared<B> {
    /// A board over a seat, which may keep up to `keep` pictures, 0 to 256; else `BadSetting`.
    /// Where it can't be made the seat comes back.
    pub fn new(alloc: Global, seat: Seat<B>, keep: u32) -> Result<Shared<B>, (BoardFault, Seat<B>)>
        ensures { OpensAt seat keep result }
    {
        if keep > MOST_KEPT {
            return Err((BoardFault::BadSetting, seat));
        }
        let pictures = KeptPictures::Own(Shelf::new(keep as usize));
        Ok(Shared::with(alloc, seat, pictures, LastExport::new(alloc)))
    }

    /// A board over a seat, beside other boards of the line that have the same gallery and the same
    /// last export.
    pub fn beside(
        alloc: Global,
        seat: Seat<B>,
        gallery: Gallery<B>,
        last_export: LastExport<B>,
    ) -> Shared<B>
        ensures { result ≡ shared_board seat.opening seat.limit seat.front }
    {
        Shared::with(alloc, seat, KeptPictures::Common(gallery), last_export)
    }

    fn with(
        alloc: Global,
        seat: Seat<B>,
        pictures: KeptPictures<B>,
        last_export: LastExport<B>,
    ) -> Shared<B>
        ensures { result ≡ shared_board seat.opening seat.limit seat.front }
    {
        let known = seat.number();
        Shared {
            alloc,
            seat,
            known,
            pictures,
            last_export,
            hits: 0,
        }
    }

    /// How many pictures were answered from those that are kept; at 2^64 - 1 it stays.
    pub fn hits(&self) -> u64 {
        self.hits
    }

    /// Has the gallery, where boards share one, remember the damage of the last changes, so that it
    /// still tells which pictures are right when nobody has asked for one during 64 changes.
    pub fn remember(&mut self)
        ensures { self.new ≡ self.old }
    {
        if let Ok(version) = self.seat.look() {
            self.pictures.remember(self.alloc, &self.seat, &version);
        }
    }

    /// Gives the seat up. The last seat of a line gives up the line's memory too.
    pub fn close<R: Wait>(self, rt: &R) {
        let Shared { seat, .. } = self;
        seat.close(rt);
    }
}

impl<B: Lines> Board for Shared<B> {
    ghost seen = { λ board. board };

    fn edit<H: Wait>(&mut self, rt: &H, edit: &Edit) -> Result<Edited, BoardFault> {
        let answer = self.seat.edit(rt, edit);
        self.known = known_after(self.known, self.seat.number(), &answer);
        match answer {
            Ok(edited) => Ok(edited),
            Err(fault) => Err(board_fault_of(fault)),
        }
    }

    fn picture<H: Threads + Wait + Sync>(
        &mut self,
        rt: &H,
        window: &Window,
        workers: u32,
    ) -> Result<Picture, BoardFault> {
        if workers < 1 || 16 < workers {
            return Err(BoardFault::BadWorkers);
        }
        let Ok(version) = self.seat.look() else {
            return Err(BoardFault::NoView);
        };
        let answer = picture_at(
            rt,
            self.alloc,
            &mut self.pictures,
            &self.seat,
            &version,
            window,
            workers,
        );
        match answer {
            Ok(answer) => {
                self.known = version.number;
                self.hits = self.hits.saturating_add(u64::from(answer.was_kept));
                Ok(answer.picture)
            }
            Err(_) => Err(BoardFault::OutOfMemory),
        }
    }

    fn point(&mut self, x: i32, y: i32) -> Result<Dot, BoardFault> {
        let Ok(version) = self.seat.look() else {
            return Err(BoardFault::NoView);
        };
        let colour = version.document.colour_at(x, y);
        let version = version.number;
        self.known = version;
        Ok(Dot { version, colour })
    }

    fn saved(&mut self) -> Result<Saved, BoardFault> {
        let Ok(version) = self.seat.look() else {
            return Err(BoardFault::NoView);
        };
        let mark = self.seat.mark();
        match self
            .last_export
            .text_at(self.alloc, mark, &version.document)
        {
            Ok(text) => {
                let version = version.number;
                self.known = version;
                Ok(Saved { version, text })
            }
            Err(_) => Err(BoardFault::OutOfMemory),
        }
    }
}

// A picture that is answered.
#[derive(Drop)]
struct Answered {
    picture: Picture,
    was_kept: bool,
}

// The picture of a window at the version that a seat has looked at: the one that is kept, where it
// is still right; else it is painted, and kept.
fn picture_at<B: Lines, R: Threads + Sync>(
    rt: &R,
    alloc: Global,
    pictures: &mut KeptPictures<B>,
    seat: &Seat<B>,
    version: &Version,
    window: &Window,
    workers: u32,
) -> Result<Answered, OutOfMemory>
    requires workers { are_workers workers ≡ true }
    requires at { IsVersionOf seat.now.opening seat.now.limit seat.now.front version.now }
    ensures { IfOk result (λ answer. ShowsAt version.now window.now answer.picture) }
{
    if let Some(bytes) = pictures.answer(alloc, seat, version, window) {
        let number = version.number;
        return Ok(Answered {
            picture: Picture {
                version: number,
                bytes,
            },
            was_kept: true,
        });
    }
    seat.start_painting();
    let painted = painted(rt, alloc, version, window, workers);
    seat.stop_painting();
    let picture = painted?;
    version.document.well_formed_law();
    pictures.keep(alloc, seat, version, window, &picture.bytes);
    Ok(Answered {
        picture,
        was_kept: false,
    })
}

// The picture of a window at a version, painted.
fn painted<R: Threads + Sync>(
    rt: &R,
    alloc: Global,
    version: &Version,
    window: &Window,
    workers: u32,
) -> Result<Picture, OutOfMemory>
    requires { are_workers workers ≡ true }
    ensures { IfOk result (ShowsAt version.now window.now) }
{
    let arena = Bump::new(alloc);
    let bytes = file_of(rt, alloc, &arena, &version.document, window, workers)?;
    Ok(Picture {
        version: version.number,
        bytes,
    })
}

// How many changes the front has after an edit: all that the seat has seen, where the answer tells of them.
fn known_after(known: u64, seen: u64, answer: &Result<Edited, LineFault>) -> u64
    ensures { result ≡ known_after known seen answer.now }
{
    match answer {
        Ok(_) | Err(LineFault::VersionsSpent | LineFault::Refused(_)) => seen,
        Err(_) => known,
    }
}
