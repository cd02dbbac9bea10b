//! What a carried leaf is made of.

ghost use Rattle.std.specs.Prelude.{◌≡◌, ◌≤◌, ◌<◌, ◌^◌, ◌≤ℤ◌, All, length};
ghost use Rattle.canvas_plane.specs.Motion.{size_of};
ghost use Rattle.canvas_shape.specs.Bounds.{bounds_of};
ghost use Rattle.canvas_shape.specs.Ellipse.{IsSide};

use canvas_plane::{PageBox, Point};

/// The box of a leaf on the page.
#[derive(Clone, Copy, Debug)]
pub struct LeafBox {
    pub left: i64,
    pub top: i64,
    pub right: i64,
    pub bottom: i64,
    ghost across: { IsSide left right },
    ghost down: { IsSide top bottom },
}

/// The vertices of a leaf on the page, and the box from their least to their greatest coordinates.
#[derive(Clone, Copy, Debug)]
pub struct Vertices<'a> {
    pub points: &'a [Point],
    pub bounds: PageBox,
    ghost exact: { bounds ≡ bounds_of points.now },
    ghost some: { 0 < length points.now },
    ghost near: { All (λ p. size_of p ≤ 2 ^ 27) points.now },
}

/// The pixels of a row from one x up to another.
#[derive(Clone, Copy)]
pub struct Row {
    pub y: i32,
    pub left: i32,
    pub right: i32,
    ghost ordered: { left ≤ℤ right },
}
