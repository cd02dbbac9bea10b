//! The painting of a window as a P6 file.

ghost use Rattle.std.specs.Prelude.{◌≡◌, ◌≤◌, ◌^◌, IfOk, true, vec_len};
ghost use Rattle.std.specs.Arc.{arc_value};
ghost use Rattle.canvas_look.specs.Raster.{file_of};
ghost use Rattle.canvas_paint.specs.Workers.{are_workers};

use bumpalo::Bump;
use canvas_code::OutOfMemory;
use canvas_doc::Document;
use canvas_look::MOST_BYTES;
use canvas_plane::Window;
use canvas_scene::append_picture;
use std::alloc::Global;
use std::sync::Arc;
use std::thread::Threads;

/// The P6 file of a window of a document, painted by 1 to 16 workers, ready to be shared. The arena
/// holds the scene until its next reset.
#[tactic(auto, unfolding(canvas_look::specs::Raster::file_of))]
pub fn file_of<R: Threads + Sync>(
    rt: &R,
    alloc: Global,
    arena: &Bump,
    document: &Document,
    window: &Window,
    workers: u32,
) -> Result<Arc<Vec<u8>, Global>, OutOfMemory>
    requires { are_workers workers ≡ true }
    ensures file { IfOk result
        (λ bytes. (arc_value bytes).items ≡ file_of document.now window.now) }
    ensures small { IfOk result (λ bytes. vec_len (arc_value bytes) ≤ 2 ^ 40) }
{
    let mut bytes = canvas_ppm::start(alloc, window.w(), window.h())?;
    append_picture(rt, alloc, arena, document, window, workers, &mut bytes)?;
    if bytes.len() > MOST_BYTES {
        return Err(OutOfMemory);
    }
    Ok(Arc::new(alloc, bytes)?)
}
