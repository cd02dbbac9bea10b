//! Strips of a picture, painted one by one and joined.

ghost use Rattle.std.specs.Prelude.{◌≡◌, ◌<◌, Some, None, IfOk, IfSome, is_some, if◌then◌else◌};
ghost use Rattle.std.specs.List.{list_all, list_any};
ghost use Rattle.canvas_plane.specs.declared.windows.Window.{Window};
ghost use Rattle.canvas_record.specs.Contents.{Contents};
ghost use Rattle.canvas_record.specs.Picture.{colour};
ghost use Rattle.canvas_paint.specs.Pictures.{picture_of};
ghost use Rattle.canvas_world.specs.Pieces.{cuts_of, strip_of, ArePainted};
ghost use Rattle.canvas_world.specs.Transcript.{has_below, is_beside, is_cut};

use crate::cut::Cut;
use crate::entry::Raster;
use bumpalo::Bump;
use canvas_code::OutOfMemory;
use canvas_doc::Document;
use canvas_paint::{paint_strip, strip_rows};
use canvas_plane::Window;
use canvas_scene::Scene;
use std::alloc::Global;

/// A strip of a picture, painted.
#[derive(Drop)]
pub(crate) struct Piece {
    pub(crate) cut: Cut,
    pub(crate) rows: Raster,
}

/// The rows of a strip of the picture of a window of a document. The arena holds the scene until
/// its next reset.
pub(crate) fn painted(
    alloc: Global,
    arena: &Bump,
    document: &Document,
    window: &Window,
    cut: Cut,
) -> Result<Raster, OutOfMemory>
    requires { cut.k < cut.n }
    ensures { IfOk result (λ rows. rows ≡ strip_of document.now window.now cut) }
{
    let scene = Scene::build(arena, document, window)?;
    let (first, end) = strip_rows(window.h(), cut.k, cut.n);
    let bytes = paint_strip(alloc, scene.display_list(), window, first, end)?;
    Ok(Raster::from_vec(bytes))
}

/// Whether all pieces are of as many strips as a new one, and none is the same strip.
pub(crate) fn are_beside(pieces: &[Piece], cut: Cut) -> bool
    ensures { result ≡ list_all (is_beside cut) (cuts_of pieces.now) }
{
    for piece in pieces {
        let own = piece.cut;
        if own.n != cut.n || own.k == cut.k {
            return false;
        }
    }
    true
}

/// The rows of a strip, if it is among the pieces.
pub(crate) fn rows_of(pieces: &[Piece], cut: Cut) -> Option<&Raster>
    ensures found { is_some result ≡ list_any (is_cut cut.k cut.n) (cuts_of pieces.now) }
    ensures rows { IfSome result
        (λ rows. (document : Contents) (window : Window) → ArePainted document window pieces.now
        → rows.now ≡ strip_of document window cut) }
{
    for piece in pieces {
        let own = piece.cut;
        if own.k == cut.k && own.n == cut.n {
            return Some(&piece.rows);
        }
    }
    None
}

/// The picture of which the pieces are strips, where each of `n` is there.
pub(crate) fn joined(alloc: Global, pieces: &[Piece], n: u32) -> Result<Option<Raster>, OutOfMemory>
    requires { 0 < n }
    ensures { IfOk result
        (λ raster. (document : Contents) (window : Window) → ArePainted document window pieces.now
        → raster ≡ (if has_below n n (cuts_of pieces.now)
        then Some (picture_of (colour document.records) window)
        else None)) }
{
    let mut bytes = Vec::new(alloc);
    for k in 0..n {
        match rows_of(pieces, Cut { k, n }) {
            None => return Ok(None),
            Some(rows) => bytes.extend_from_slice(rows.bytes())?,
        }
    }
    Ok(Some(Raster::from_vec(bytes)))
}
