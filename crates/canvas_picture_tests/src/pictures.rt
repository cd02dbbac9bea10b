//! Pictures of documents, and how many items they have.

ghost use Rattle.std.specs.Prelude.{◌<◌, ℕ};

use bumpalo::Bump;
use canvas_doc::Document;
use canvas_paint::{Gate, PaintFault, paint};
use canvas_plane::Window;
use canvas_scene::{Scene, append_picture};
use std::alloc::Global;
use std::process::Abort;
use std::thread::Threads;

/// The picture of a document by 1 to 16 workers.
pub(crate) fn picture<R: Threads + Sync + Abort>(
    rt: &R,
    alloc: Global,
    document: &Document,
    window: &Window,
    workers: u32,
) -> Vec<u8> {
    let bump = Bump::new(alloc);
    let mut out = Vec::new(alloc);
    let workers = workers.clamp(1, 16);
    append_picture(rt, alloc, &bump, document, window, workers, &mut out).expect(rt, "memory");
    out
}

/// The picture of a document by so many workers, who pass a gate.
pub(crate) fn painted<R: Threads + Sync + Abort, G: Gate + Sync>(
    rt: &R,
    alloc: Global,
    document: &Document,
    window: &Window,
    workers: u32,
    gate: &G,
) -> Result<Vec<u8>, PaintFault>
    requires { (k : ℕ) → k < workers → G.admits gate.now k }
{
    let bump = Bump::new(alloc);
    let scene = Scene::build(&bump, document, window).expect(rt, "memory");
    paint(rt, alloc, scene.display_list(), window, workers, gate)
}

/// How many items a window has.
pub(crate) fn count(rt: &impl Abort, alloc: Global, document: &Document, window: &Window) -> usize {
    let bump = Bump::new(alloc);
    let scene = Scene::build(&bump, document, window).expect(rt, "memory");
    scene.display_list().len()
}
