//! Corners and edges of boxes.

ghost use Rattle.std.specs.Prelude.{◌≡◌, ◌≤◌, ◌^◌, ◌&&◌, unsigned_abs, int_le, int_lt, nat_le};
ghost use Rattle.std.specs.Int.{int_min, int_max};
ghost use Rattle.canvas_plane.specs.Motion.{size_of};

use canvas_plane::{PageBox, Point};

// How far an edge may lie from the origin.
const FAR: u64 = 1 << 27;

pub(crate) fn left_top(sides: &PageBox) -> Point
    ensures { result ≡ record { x = sides.now.left; y = sides.now.top } }
{
    Point {
        x: sides.left,
        y: sides.top,
    }
}

pub(crate) fn right_bottom(sides: &PageBox) -> Point
    ensures { result ≡ record { x = sides.now.right; y = sides.now.bottom } }
{
    Point {
        x: sides.right,
        y: sides.bottom,
    }
}

/// Whether both points are near enough to be corners.
pub(crate) fn are_near(p: Point, q: Point) -> bool
    ensures { result ≡ (nat_le (size_of p) (2 ^ 27) && nat_le (size_of q) (2 ^ 27)) }
{
    is_near(p) & is_near(q)
}

fn is_near(point: Point) -> bool
    ensures { result ≡ nat_le (size_of point) (2 ^ 27) }
{
    point.x.unsigned_abs().max(point.y.unsigned_abs()) <= FAR
}

/// The lesser and the greater of two coordinates.
pub(crate) fn ends(a: i64, b: i64) -> (i32, i32)
    requires first { unsigned_abs a ≤ 2 ^ 27 }
    requires second { unsigned_abs b ≤ 2 ^ 27 }
    ensures from { result.0 ≡ int_min a b }
    ensures to { result.1 ≡ int_max a b }
{
    (a.min(b) as i32, a.max(b) as i32)
}

#[inline(always)]
pub(crate) fn lesser(a: i32, b: i32) -> i32
    ensures { result ≡ int_min a b }
{
    a.min(b)
}

#[inline(always)]
pub(crate) fn greater(a: i32, b: i32) -> i32
    ensures { result ≡ int_max a b }
{
    a.max(b)
}

/// Whether a side, from one edge to another, has all of a second one.
#[inline(always)]
pub(crate) fn spans(from: i32, to: i32, start: i32, end: i32) -> bool
    ensures { result ≡ (int_le from start && int_le end to) }
{
    (from <= start) & (end <= to)
}

/// Whether two sides have a part in common.
#[inline(always)]
pub(crate) fn overlaps(from: i32, to: i32, start: i32, end: i32) -> bool
    ensures { result ≡ (int_lt from end && int_lt start to) }
{
    (from < end) & (start < to)
}
