//! Pictures of documents.

ghost use Rattle.std.specs.Prelude.{◌≡◌, ◌++◌, OnOk, OnErr, true};
ghost use Rattle.canvas_record.specs.Picture.{colour};
ghost use Rattle.canvas_paint.specs.Pictures.{picture_of};
ghost use Rattle.canvas_paint.specs.Workers.{are_workers};

use crate::Scene;
use bumpalo::Bump;
use canvas_code::OutOfMemory;
use canvas_doc::Document;
use canvas_paint::append_raster;
use canvas_plane::Window;
use std::alloc::Global;
use std::thread::Threads;

/// Appends the picture of a document in a window: row by row, for each pixel red, green and blue
/// of the colour that the document has there, painted by as many of 1 to 16 workers as pay. The
/// arena holds the scene until its next reset. Without memory `out` is as it was.
pub fn append_picture<R: Threads + Sync>(
    rt: &R,
    alloc: Global,
    bump: &Bump,
    document: &Document,
    window: &Window,
    workers: u32,
    out: &mut Vec<u8>,
) -> Result<(), OutOfMemory>
    requires { are_workers workers ≡ true }
    ensures ok { OnOk result
        (out.new.items ≡ out.old.items ++ picture_of (colour document.now.records) window.now) }
    ensures err { OnErr result (out.new.items ≡ out.old.items) }
{
    let scene = Scene::build(bump, document, window)?;
    let items = scene.display_list();
    append_raster(rt, alloc, items, window, workers, out)
}
