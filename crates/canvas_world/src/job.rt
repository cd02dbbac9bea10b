//! The work at one picture: from a look to its answer.

ghost use Rattle.std.specs.Prelude.{◌≡◌, ◌<◌, ◌++◌, ◌∷◌, [], Some, None, IfOk, OnOk, if◌then◌else◌};
ghost use Rattle.canvas_record.specs.Picture.{colour};
ghost use Rattle.canvas_paint.specs.Pictures.{picture_of};
ghost use Rattle.canvas_world.specs.Transcript.{is_whole, may_paint};

use crate::cut::Cut;
use crate::entry::Raster;
use crate::piece::{Piece, are_beside, joined, painted};
use bumpalo::Bump;
use canvas_code::OutOfMemory;
use canvas_doc::Document;
use canvas_plane::Window;
use std::alloc::Global;
use std::marker::Model;
use std::rc::Rc;

/// The most strips of a picture.
const MOST_STRIPS: u32 = 16;

/// What a look fixed, and the strips painted since.
#[derive(Drop)]
pub(crate) struct Job {
    version: u64,
    window: Window,
    // The document at that version, shared with the looks of the same version.
    document: Rc<Document>,
    // In the order in which they were painted.
    pieces: Vec<Piece>,
}

impl Model for Job {
    ghost use Rattle.canvas_world.specs.Pieces.{Work, ArePainted, cuts_of};

    ghost Value = { Work };

    ghost view = { λ j.
        record { version = j.version; window = j.window; document = j.document.value; cuts = cuts_of j.pieces.items } };

    ghost invariant = { λ j. ArePainted j.document.value j.window j.pieces.items };
}

impl Job {
    /// The work at the picture of a window of a document, with no strip painted yet.
    pub(crate) fn new(alloc: Global, version: u64, window: Window, document: Rc<Document>) -> Job
        ensures { result
            ≡ record { version = version; window = window; document = document.value; cuts = [] } }
    {
        Job {
            version,
            window,
            document,
            pieces: Vec::new(alloc),
        }
    }

    /// The version that the picture shows.
    pub(crate) fn version(&self) -> u64
        ensures { result ≡ self.now.version }
    {
        self.version
    }

    /// The window that it shows.
    pub(crate) fn window(&self) -> Window
        ensures { result ≡ self.now.window }
    {
        self.window
    }

    /// Whether a strip may be painted: one of 1 to 16, of as many as those painted before, and
    /// none of these.
    pub(crate) fn may_paint(&self, cut: Cut) -> bool
        ensures { result ≡ may_paint cut self.now.cuts }
    {
        let is_strip = 1 <= cut.n && cut.n <= MOST_STRIPS && cut.k < cut.n;
        is_strip && are_beside(&self.pieces, cut)
    }

    /// Paints a strip, in an arena that holds nothing afterwards.
    pub(crate) fn paint(
        &mut self,
        alloc: Global,
        arena: &mut Bump,
        cut: Cut,
    ) -> Result<(), OutOfMemory>
        requires { cut.k < cut.n }
        ensures { OnOk result (self.new ≡ record self.old { cuts = self.old.cuts ++ cut ∷ [] }) }
    {
        let painted = painted(alloc, arena, &self.document, &self.window, cut);
        // Nothing borrows the arena any more, so a reset can't fail.
        let _ = arena.reset();
        let rows = painted?;
        self.pieces.push(Piece { cut, rows })?;
        Ok(())
    }

    /// The picture, where all its strips are there.
    pub(crate) fn picture(&self, alloc: Global) -> Result<Option<Raster>, OutOfMemory>
        ensures { IfOk result (λ raster. raster ≡ (if is_whole self.now.cuts
            then Some (picture_of (colour self.now.document.records) self.now.window)
            else None)) }
    {
        match self.pieces.first() {
            None => Ok(None),
            Some(piece) => joined(alloc, &self.pieces, piece.cut.n),
        }
    }
}
