//! Kinds and their clones. Their pixels and limits are in `tests/sessions/`.

use crate::asserts::holds;
use canvas_plane::Point;
use canvas_shape::{Colour, Kind, Points};
use std::alloc::Global;
use std::process::Abort;

fn triangle(rt: &impl Abort, alloc: Global, far: i64) -> Kind {
    let mut points = Points::new(alloc);
    for (x, y) in [(0, 0), (4, 0), (0, far)] {
        points.push(Point { x, y }).expect(rt, "memory");
    }
    Kind::Polygon {
        points,
        fill: Colour([1, 2, 3]),
    }
}

fn assert_cloned(rt: &impl Abort, alloc: Global, kind: Kind) {
    let copy = kind.try_clone(alloc).expect(rt, "memory");
    holds(rt, "its clone", copy == kind);
}

fn assert_unequal(rt: &impl Abort, kind: Kind, other: Kind) {
    holds(rt, "another kind", kind != other);
}

#[test]
fn clones_are_equal(rt: HostRuntime) {
    let alloc = rt.alloc();
    assert_cloned(&rt, alloc, triangle(&rt, alloc, 4));
    assert_cloned(&rt, alloc, frame(2, 1));
    assert_unequal(&rt, triangle(&rt, alloc, 5), triangle(&rt, alloc, 4));
    assert_unequal(&rt, frame(2, 1), triangle(&rt, alloc, 4));
}

fn frame(w: u32, h: u32) -> Kind {
    Kind::Frame { w, h, fill: None }
}
