//! What several rectangles hide together: the cells of 8 by 8 pixels of the window that lie in one
//! of them each.

use crate::asserts::{equal, holds_at};
use crate::pictures::count;
use crate::shapes::{GREEN, RED, away, ellipse, frame, rect, triangle, with};
use canvas_doc::{Document, Parent};
use canvas_plane::Window;
use canvas_shape::Kind;
use std::alloc::Global;
use std::process::Abort;

// The document with a shape in front at a place.
fn at(rt: &impl Abort, alloc: Global, document: Document, kind: Kind, x: i64, y: i64) -> Document {
    with(alloc, document, kind, away(x, y), Parent::Page).expect(rt, "memory")
}

// The document with four rectangles in front that tile `w` by `h` pixels, parted at column and row 128.
fn tiled(rt: &impl Abort, alloc: Global, document: Document, w: u32, h: u32) -> Document {
    let wide = w.saturating_sub(128);
    let high = h.saturating_sub(128);
    let mut document = document;
    for (x, y, w, h) in [
        (0, 0, 128, 128),
        (128, 0, wide, 128),
        (0, 128, 128, high),
        (128, 128, wide, high),
    ] {
        document = at(rt, alloc, document, rect(w, h, GREEN), x, y);
    }
    document
}

// From the back a frame, a rectangle, an ellipse and a polygon, all of which show something.
fn behind(rt: &impl Abort, alloc: Global) -> Document {
    let document = Document::empty(alloc);
    let document = at(rt, alloc, document, frame(300, 300, Some(RED)), 0, 0);
    let document = at(rt, alloc, document, rect(250, 250, RED), 0, 0);
    let document = at(rt, alloc, document, ellipse(200, 90, RED), 30, 40);
    let polygon = triangle(alloc, 30, RED).expect(rt, "memory");
    at(rt, alloc, document, polygon, 120, 120)
}

// How many items a window has of the shapes behind, with four rectangles in front that tile so many
// pixels.
fn count_tiled(rt: &impl Abort, alloc: Global, window: &Window, w: u32, h: u32) -> usize {
    let document = tiled(rt, alloc, behind(rt, alloc), w, h);
    count(rt, alloc, &document, window)
}

#[test]
fn four_rectangles_that_tile_the_window_hide_all(rt: HostRuntime) {
    let alloc = rt.alloc();
    let tile = Window::tile(0, 0).expect(&rt, "a window");
    let document = behind(&rt, alloc);
    equal(&rt, "items", &count(&rt, alloc, &document, &tile), &4);
    let document = tiled(&rt, alloc, document, 256, 256);
    equal(&rt, "shapes", &document.count(), &8);
    equal(&rt, "items", &count(&rt, alloc, &document, &tile), &4);
}

#[test]
fn cells_at_the_right_and_bottom_edges_are_cut(rt: HostRuntime) {
    let alloc = rt.alloc();
    let window = Window::new(0, 0, 201, 131).expect(&rt, "a window");
    let all = count_tiled(&rt, alloc, &window, 201, 131);
    equal(&rt, "items", &all, &4);
    let some = count_tiled(&rt, alloc, &window, 200, 131);
    holds_at(&rt, "items", some as u64, some > 4);
}

// How many items a window has of one rectangle with four in front that tile so many pixels.
fn count_of_one_tiled(rt: &impl Abort, alloc: Global, window: &Window, w: u32, h: u32) -> usize {
    let document = Document::empty(alloc);
    let document = at(rt, alloc, document, rect(1000, 1000, RED), 0, 0);
    let document = tiled(rt, alloc, document, w, h);
    count(rt, alloc, &document, window)
}

#[test]
fn a_window_of_a_level_has_greater_cells(rt: HostRuntime) {
    let alloc = rt.alloc();
    let window = Window::at_level(2, 0, 0, 201, 131).expect(&rt, "a window");
    let hidden = count_of_one_tiled(&rt, alloc, &window, 804, 524);
    equal(&rt, "items of 804 columns", &hidden, &4);
    let shown = count_of_one_tiled(&rt, alloc, &window, 803, 524);
    equal(&rt, "items of 803 columns", &shown, &5);
}

#[test]
fn a_polygon_behind_a_part_of_the_tiles_alone_makes_an_item(rt: HostRuntime) {
    let alloc = rt.alloc();
    let tile = Window::tile(0, 0).expect(&rt, "a window");
    let polygon = triangle(alloc, 30, RED).expect(&rt, "memory");
    let mut document = at(&rt, alloc, Document::empty(alloc), polygon, 120, 120);
    for x in [0, 128] {
        document = at(&rt, alloc, document, rect(128, 256, GREEN), x, 0);
        let found = (x, count(&rt, alloc, &document, &tile));
        equal(&rt, "items", &found, &(x, 2));
    }
}
