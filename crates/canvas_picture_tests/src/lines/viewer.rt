//! A thread that looks and paints.
use crate::asserts::holds;
use crate::pictures::picture;
use canvas_doc::Document;
use canvas_line::{Lines, Seat, Version};
use canvas_plane::Window;
use std::alloc::Global;
use std::process::Abort;
use std::sync::Arc;
use std::thread::Threads;

/// What a viewer saw at once.
#[derive(Drop)]
pub(crate) struct Sight {
    pub(crate) version: Arc<Version, Global>,
    /// The raster of the window.
    pub(crate) raster: Vec<u8>,
}

/// So many looks, each version painted where it is another than the last one. No look is refused,
/// goes back, or is not at the seat's number.
pub(crate) fn take_looks<B: Lines, R: Threads + Sync + Abort>(
    rt: &R,
    alloc: Global,
    seat: &mut Seat<B>,
    count: u32,
) -> Vec<Sight> {
    let mut seen: Vec<Sight> = Vec::new(alloc);
    for _ in 0..count {
        let before = seat.number();
        let version = seat.look().expect(rt, "a version");
        let number = version.number;
        holds(rt, "a look that does not go back", before <= number);
        holds(rt, "a look at the seat's number", seat.number() == number);
        if before < number {
            let raster = raster(rt, alloc, &version.document);
            seen.push(Sight { version, raster }).expect(rt, "memory");
        }
    }
    seen
}

/// The raster of a small window of a document, by one worker.
pub(crate) fn raster<R: Threads + Sync + Abort>(
    rt: &R,
    alloc: Global,
    document: &Document,
) -> Vec<u8> {
    let window = Window::new(0, 0, 64, 4).expect(rt, "a window");
    picture(rt, alloc, document, &window, 1)
}
