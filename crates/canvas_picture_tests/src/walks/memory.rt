//! Lists of events for which memory may be refused: run with each allocation refused in turn, a
//! list answers want of memory, or what it answers with ample memory.

use crate::asserts::equal;
use crate::memory::are_right;
use crate::walks::events::{A_TILE, A_TILE_TOLD, transcript};
use canvas_code::OutOfMemory;
use canvas_plane::Window;
use std::alloc::Global;
use std::test::Fail;

fn is_told(alloc: Global, window: Window) -> Result<bool, OutOfMemory> {
    Ok(transcript(alloc, 1, window, &A_TILE)?.as_str() == A_TILE_TOLD)
}

#[test]
fn events_with_little_memory(rt: HostRuntime) -> Result<(), Fail> {
    let alloc = rt.alloc();
    let window = Window::new(0, 0, 1, 2)?;
    let first = is_told(alloc, window);
    let again = is_told(alloc, window);
    equal(&rt, "two transcripts", &are_right(first, again), &true);
    Ok(())
}
