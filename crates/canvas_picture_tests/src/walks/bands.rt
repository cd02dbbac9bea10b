//! Strips of more shapes than are painted at once: in two of them the picture is what it is in one.

use crate::asserts::{equal, holds_at};
use crate::shapes::{away, ellipse, rect, triangle, with};
use bumpalo::Bump;
use canvas_doc::{Document, Parent};
use canvas_paint::append_strip;
use canvas_plane::Window;
use canvas_scene::{Item, Scene};
use canvas_shape::{Colour, Kind};
use std::alloc::Global;
use std::process::Abort;

// How many shapes a document has. A strip paints up to 128 at once.
const SHAPES: u32 = 320;

// A small shape, of each kind in turn.
fn kind(rt: &impl Abort, alloc: Global, number: u32, level: u8) -> Kind {
    let side = 6u32.wrapping_shl(u32::from(level));
    let fill = Colour([(number % 200) as u8, 90, 7]);
    match number % 3 {
        0 => rect(side, side, fill),
        1 => ellipse(side, side, fill),
        _ => triangle(alloc, i64::from(side), fill).expect(rt, "memory"),
    }
}

// So many pixels of a window from its corner, as pixels of the page.
fn placed(pixels: u32, level: u8) -> i64 {
    i64::from(pixels.wrapping_shl(u32::from(level)))
}

// Small shapes over one another.
fn crowd(rt: &impl Abort, alloc: Global, level: u8) -> Document {
    let mut document = Document::empty(alloc);
    for number in 0..SHAPES {
        let shape = kind(rt, alloc, number, level);
        let dx = placed(number.wrapping_mul(7) % 66, level);
        let dy = placed(number.wrapping_mul(5) % 41, level);
        document = with(alloc, document, shape, away(dx, dy), Parent::Page).expect(rt, "memory");
    }
    document
}

// The picture of a window in two strips, of which the second begins at a row.
fn in_two(
    rt: &impl Abort,
    alloc: Global,
    items: &[Item<'_>],
    window: &Window,
    row: u32,
) -> Vec<u8> {
    let middle = row.min(window.h());
    let mut bytes = Vec::new(alloc);
    append_strip(alloc, items, window, 0, middle, &mut bytes).expect(rt, "memory");
    append_strip(alloc, items, window, middle, window.h(), &mut bytes).expect(rt, "memory");
    bytes
}

// Compares a picture in one strip with those in two.
fn compare_strips(rt: &impl Abort, alloc: Global, items: &[Item<'_>], window: &Window) {
    let level = window.level();
    let whole = in_two(rt, alloc, items, window, 0);
    for row in [1, 15, 16, 17, 33, 42_u32] {
        let parts = in_two(rt, alloc, items, window, row);
        let found = (level, row, parts.as_slice());
        equal(
            rt,
            "level, row, bytes",
            &found,
            &(level, row, whole.as_slice()),
        );
    }
}

// Compares the strips of a crowd in a window of a level.
fn compare(rt: &impl Abort, alloc: Global, level: u8) {
    let document = crowd(rt, alloc, level);
    let window = Window::at_level(level, -3, -2, 70, 43).expect(rt, "a window");
    let bump = Bump::new(alloc);
    let scene = Scene::build(&bump, &document, &window).expect(rt, "memory");
    let items = scene.display_list();
    let count = items.len() as u64;
    holds_at(rt, "items", count, count > 128);
    compare_strips(rt, alloc, items, &window);
}

#[test]
fn two_strips_of_many_shapes_are_the_picture(rt: HostRuntime) {
    compare(&rt, rt.alloc(), 0);
    compare(&rt, rt.alloc(), 3);
}
