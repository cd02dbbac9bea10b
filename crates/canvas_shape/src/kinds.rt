//! Kinds: their limits, their copies and the pixels that they hold.

ghost use Rattle.std.specs.Prelude.{◌≡◌, ◌≤◌, ◌<◌, ◌^◌, ◌↔◌, ℤ, Some, None, IfOk, IsOk, MatchResult, map, false};
ghost use Rattle.canvas_plane.specs.Motion.{carry, reach_of, size_of};
ghost use Rattle.canvas_shape.specs.Box.{AreSides, box_of};
ghost use Rattle.canvas_plane.specs.Page.{is_in};
ghost use Rattle.canvas_shape.specs.Ellipse.{is_in_ellipse};
ghost use Rattle.canvas_shape.specs.Edges.{is_in_polygon, is_odd_along};
ghost use Rattle.canvas_shape.specs.Limits.{are_sides, are_vertices, are_near, is_near, is_size, fault_code, has_sides, has_vertices, kind_fault, takes_memory};
ghost use Rattle.canvas_shape.specs.Inside.{holds_of, IsSound, AreVertices};

use crate::ellipse::ellipse_holds;
use crate::leaves::carried_box;
use crate::polygon::edge_counts;
use crate::{Kind, KindFault};
use canvas_code::{Coded, OutOfMemory};
use canvas_plane::{Point, Pose};
use std::alloc::Global;

impl Coded for KindFault {
    ghost code_of = { fault_code };

    fn code(&self) -> u16 {
        match self {
            KindFault::BadSize => 8,
            KindFault::BadPolygon => 10,
        }
    }
}

impl Kind {
    /// Refuses as `BadSize` a side outside 1 to 65,536, and as `BadPolygon` fewer than 3 vertices, more
    /// than 256, or a coordinate above 2^20 in size.
    pub fn check(&self) -> Result<(), KindFault>
        ensures fault { MatchResult result (λ _. kind_fault self.now ≡ None)
            (λ fault. kind_fault self.now ≡ Some fault) }
        ensures sound { IsOk result ↔ IsSound self.now }
    {
        if !self.has_sides() {
            Err(KindFault::BadSize)
        } else if !self.has_vertices() {
            Err(KindFault::BadPolygon)
        } else {
            Ok(())
        }
    }

    /// Whether each side that the kind has is 1 to 65,536.
    pub fn has_sides(&self) -> bool
        ensures { result ≡ has_sides self.now }
    {
        match self {
            Kind::Group => true,
            Kind::Frame { w, h, .. } => are_sides(*w, *h),
            Kind::Rect { w, h, .. } => are_sides(*w, *h),
            Kind::Ellipse { w, h, .. } => are_sides(*w, *h),
            Kind::Polygon { .. } => true,
        }
    }

    /// Whether a polygon has 3 to 256 vertices with coordinates of at most 2^20 in size. Other kinds have no
    /// vertices to refuse.
    pub fn has_vertices(&self) -> bool
        ensures { result ≡ has_vertices self.now }
    {
        match self {
            Kind::Polygon { points, .. } => are_vertices(points.as_slice()),
            _ => true,
        }
    }

    /// An equal kind. Only the vertices of a polygon take memory.
    pub fn try_clone(&self, alloc: Global) -> Result<Kind, OutOfMemory>
        ensures value { IfOk result (λ kind. kind ≡ self.now) }
        ensures memory { takes_memory self.now ≡ false → IsOk result }
    {
        Ok(match self {
            Kind::Group => Kind::Group,
            Kind::Frame { w, h, fill } => Kind::Frame {
                w: *w,
                h: *h,
                fill: *fill,
            },
            Kind::Rect { w, h, fill } => Kind::Rect {
                w: *w,
                h: *h,
                fill: *fill,
            },
            Kind::Ellipse { w, h, fill } => Kind::Ellipse {
                w: *w,
                h: *h,
                fill: *fill,
            },
            Kind::Polygon { points, fill } => Kind::Polygon {
                points: points.try_clone(alloc)?,
                fill: *fill,
            },
        })
    }

    /// Whether the kind holds the pixel (x, y) of the page, where the pose carries its own points
    /// to the page: a leaf its area, a frame its box, a group nothing.
    pub fn holds(&self, page: &Pose, x: i32, y: i32) -> bool
        requires sound { IsSound self.now }
        requires quarter { page.now.quarter ≤ 3 }
        requires reach { reach_of page.now ≤ 2 ^ 26 }
        ensures { result ≡ holds_of self.now (carry page.now) x y }
    {
        match self {
            Kind::Group => false,
            Kind::Frame { w, h, .. } => box_holds(page, *w, *h, x, y),
            Kind::Rect { w, h, .. } => box_holds(page, *w, *h, x, y),
            Kind::Ellipse { w, h, .. } => carried_ellipse_holds(page, *w, *h, x, y),
            Kind::Polygon { points, .. } => carried_polygon_holds(page, points.as_slice(), x, y),
        }
    }
}

// Whether both sides are 1 to 65,536.
fn are_sides(w: u32, h: u32) -> bool
    ensures { result ≡ are_sides w h }
{
    let is_wide = is_side(w);
    let is_high = is_side(h);
    is_wide && is_high
}

fn is_side(size: u32) -> bool
    ensures { result ≡ is_size size }
{
    0 < size && size <= 65_536
}

// Whether vertices are 3 to 256, each near enough.
fn are_vertices(points: &[Point]) -> bool
    ensures { result ≡ are_vertices points.now }
{
    let is_counted = 3 <= points.len() && points.len() <= 256;
    is_counted && are_near(points)
}

fn are_near(points: &[Point]) -> bool
    ensures { result ≡ are_near points.now }
{
    points.iter().all(|point| is_near(point))
}

fn is_near(point: &Point) -> bool
    ensures { result ≡ is_near point.now }
{
    point.x.unsigned_abs().max(point.y.unsigned_abs()) <= 1 << 20
}

fn box_holds(page: &Pose, w: u32, h: u32, x: i32, y: i32) -> bool
    requires sides { AreSides w h }
    requires quarter { page.now.quarter ≤ 3 }
    requires reach { reach_of page.now ≤ 2 ^ 26 }
    ensures { result ≡ is_in (box_of (carry page.now) w h) x y }
{
    carried_box(page, w, h)
        .sides()
        .holds(widened(x), widened(y))
}

fn widened(x: i32) -> i64
    ensures { result ≡ x }
{
    i64::from(x)
}

fn carried_ellipse_holds(page: &Pose, w: u32, h: u32, x: i32, y: i32) -> bool
    requires sides { AreSides w h }
    requires quarter { page.now.quarter ≤ 3 }
    requires reach { reach_of page.now ≤ 2 ^ 26 }
    ensures { result ≡ is_in_ellipse (box_of (carry page.now) w h) x y }
{
    ellipse_holds(&carried_box(page, w, h).sides(), x, y)
}

// Carries each vertex in its turn, and so takes no memory.
fn carried_polygon_holds(page: &Pose, points: &[Point], x: i32, y: i32) -> bool
    requires vertices { AreVertices points.now }
    requires quarter { page.now.quarter ≤ 3 }
    requires reach { reach_of page.now ≤ 2 ^ 26 }
    ensures { result ≡ is_in_polygon (map (carry page.now) points.now) x y }
{
    let mut inside = false;
    let mut from = carried_last(page, points);
    for point in points {
        let to = page.apply(*point);
        inside = inside != edge_counts(from, to, x, y);
        from = to;
    }
    inside
}

// Where the last vertex is carried.
fn carried_last(page: &Pose, points: &[Point]) -> Point
    requires vertices { AreVertices points.now }
    requires quarter { page.now.quarter ≤ 3 }
    requires reach { reach_of page.now ≤ 2 ^ 26 }
    ensures value { (x y : ℤ)
        → is_odd_along result (map (carry page.now) points.now) x y
        ≡ is_in_polygon (map (carry page.now) points.now) x y }
    ensures near { size_of result ≤ 2 ^ 27 }
{
    page.apply(points[points.len() - 1])
}
