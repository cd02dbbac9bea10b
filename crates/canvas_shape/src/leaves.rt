//! Leaves carried to the page, and the pixels that they hold.

ghost use Rattle.std.specs.Prelude.{◌≡◌, ◌≤◌, ◌<◌, ◌^◌, ℤ, pos, All, length, OnOk, OnErr, ◌≤ℤ◌, ◌<ℤ◌, ◌+ℤ◌, ◌-ℤ◌, true, unsigned_abs};
ghost use Rattle.canvas_plane.specs.Motion.{carry, reach_of, size_of};
ghost use Rattle.std.specs.Int.{int_min, int_max};
ghost use Rattle.canvas_plane.specs.Page.{is_in};
ghost use Rattle.canvas_shape.specs.Ellipse.{is_in_ellipse, IsSide};
ghost use Rattle.canvas_shape.specs.Edges.{is_in_polygon};
ghost use Rattle.canvas_shape.specs.Bounds.{bounds_of};
ghost use Rattle.canvas_shape.specs.Box.{box_of, box_between, AreSides, AreSideEnds};
ghost use Rattle.canvas_shape.specs.Leaves.{carried_holds, sides_of, page_box_of};
ghost use Rattle.canvas_shape.specs.Spans.{AppendsSpans, within, is_from_to};

use crate::ellipse::{Ends, ellipse_holds, ellipse_spans, row_ends};
use crate::parts::{LeafBox, Row, Vertices};
use crate::polygon::{Cuts, bounds, polygon_holds, polygon_spans};
use crate::spans::append_cut;
use crate::{Carried, Span};
use canvas_code::OutOfMemory;
use canvas_plane::{PageBox, Point, Pose};
use std::alloc::Global;

impl<'a> Carried<'a> {
    /// The rectangle of `w` by `h` as the pose carries it.
    pub fn rect(pose: &Pose, w: u32, h: u32) -> Carried<'a>
        requires sides { AreSides w h }
        requires quarter { pose.now.quarter ≤ 3 }
        requires reach { reach_of pose.now ≤ 2 ^ 26 }
        ensures pixels { (x y : ℤ)
            → carried_holds result x y ≡ is_in (box_of (carry pose.now) w h) x y }
        ensures sides { page_box_of result ≡ box_of (carry pose.now) w h }
    {
        Carried::Rect(carried_box(pose, w, h))
    }

    /// The ellipse that fills the rectangle of `w` by `h`, as the pose carries it.
    pub fn ellipse(pose: &Pose, w: u32, h: u32) -> Carried<'a>
        requires sides { AreSides w h }
        requires quarter { pose.now.quarter ≤ 3 }
        requires reach { reach_of pose.now ≤ 2 ^ 26 }
        ensures pixels { (x y : ℤ)
            → carried_holds result x y ≡ is_in_ellipse (box_of (carry pose.now) w h) x y }
        ensures sides { page_box_of result ≡ box_of (carry pose.now) w h }
    {
        Carried::Ellipse(carried_box(pose, w, h))
    }

    /// The polygon of vertices that stand on the page already.
    pub fn polygon(points: &'a [Point]) -> Carried<'a>
        requires some { 0 < length points.now }
        requires near { All (λ p. size_of p ≤ 2 ^ 27) points.now }
        ensures pixels { (x y : ℤ) → carried_holds result x y ≡ is_in_polygon points.now x y }
        ensures bounds { page_box_of result ≡ bounds_of points.now }
    {
        Carried::Polygon(Vertices {
            points,
            bounds: bounds(points),
        })
    }

    /// The box of the page that has all points of the leaf.
    pub fn page_box(&self) -> PageBox
        ensures value { result ≡ page_box_of self.now }
        ensures has_all { (x y : ℤ) → carried_holds self.now x y ≡ true → is_in result x y ≡ true }
    {
        match self {
            Carried::Rect(shape) => shape.sides(),
            Carried::Ellipse(shape) => shape.sides(),
            Carried::Polygon(vertices) => vertices.bounds,
        }
    }

    /// Whether the leaf holds a pixel.
    pub fn holds(&self, x: i32, y: i32) -> bool
        ensures { result ≡ carried_holds self.now x y }
    {
        match self {
            Carried::Rect(shape) => shape.sides().holds(i64::from(x), i64::from(y)),
            Carried::Ellipse(shape) => ellipse_holds(&shape.sides(), x, y),
            Carried::Polygon(vertices) => polygon_holds(vertices.points, x, y),
        }
    }

    /// Appends the pixels of the leaf in the row `y`, from `left` up to `right`, as spans that
    /// rise, lie apart and are not empty. Without memory `out` stays as it was; a range without a
    /// pixel needs none.
    pub fn row_spans(
        &self,
        alloc: Global,
        y: i32,
        left: i32,
        right: i32,
        out: &mut Vec<Span>,
    ) -> Result<(), OutOfMemory>
        requires { left ≤ℤ right }
        ensures ok { OnOk result
            (AppendsSpans out.old.items out.new.items
            (within left right (λ x. carried_holds self.now x y))) }
        ensures err { OnErr result (out.new.items ≡ out.old.items) }
        ensures want { OnErr result (left <ℤ right) }
    {
        let mut cuts = Cuts::new(alloc);
        self.row_spans_with(&mut cuts, y, left, right, out)
    }

    /// The same with the caller's memory for a polygon's cuts, so that no row of many makes its own.
    pub fn row_spans_with(
        &self,
        cuts: &mut Cuts,
        y: i32,
        left: i32,
        right: i32,
        out: &mut Vec<Span>,
    ) -> Result<(), OutOfMemory>
        requires { left ≤ℤ right }
        ensures ok { OnOk result
            (AppendsSpans out.old.items out.new.items
            (within left right (λ x. carried_holds self.now x y))) }
        ensures err { OnErr result (out.new.items ≡ out.old.items) }
        ensures want { OnErr result (left <ℤ right) }
    {
        match self {
            Carried::Rect(shape) => box_spans(shape, y, left, right, out),
            Carried::Ellipse(shape) => ellipse_spans(&shape.sides(), y, left, right, out),
            Carried::Polygon(vertices) => {
                vertices_spans(cuts, vertices, Row { y, left, right }, out)
            }
        }
    }
}

// Appends the pixels of a polygon in a row, which are none outside its box.
fn vertices_spans(
    cuts: &mut Cuts,
    vertices: &Vertices<'_>,
    row: Row,
    out: &mut Vec<Span>,
) -> Result<(), OutOfMemory>
    ensures ok { OnOk result
        (AppendsSpans out.old.items out.new.items
        (within row.left row.right (λ x. is_in_polygon vertices.now.points.now x row.y))) }
    ensures err { OnErr result (out.new.items ≡ out.old.items) }
    ensures want { OnErr result (row.left <ℤ row.right) }
{
    if row.left >= row.right {
        return Ok(());
    }
    if is_in_rows(vertices.bounds.top, row.y, vertices.bounds.bottom) {
        polygon_spans(cuts, vertices.points, row, out)
    } else {
        Ok(())
    }
}

impl LeafBox {
    /// The row `y` of the ellipse that fills the box.
    pub fn row_ends(&self, y: i32) -> Ends
        ensures { (x : ℤ)
            → is_from_to result.from x result.to ≡ is_in_ellipse (sides_of self.now) x y }
    {
        row_ends(&self.sides(), y)
    }

    /// The mirror image of the row `y`, from top to bottom: the ellipse that fills the box holds
    /// the same there.
    pub fn mirror(&self, y: i32) -> i64
        ensures row { result ≡ self.now.top +ℤ self.now.bottom -ℤ pos 1 -ℤ y }
        ensures same { (x : ℤ)
            → is_in_ellipse (sides_of self.now) x result ≡ is_in_ellipse (sides_of self.now) x y }
        ensures bound { unsigned_abs result ≤ 2 ^ 32 }
    {
        self.top + self.bottom - 1 - i64::from(y)
    }

    /// The box as plain data.
    pub fn sides(&self) -> PageBox
        ensures value { result ≡ sides_of self.now }
        ensures across { IsSide result.left result.right }
        ensures down { IsSide result.top result.bottom }
    {
        PageBox {
            left: self.left,
            top: self.top,
            right: self.right,
            bottom: self.bottom,
        }
    }
}

fn box_spans(
    shape: &LeafBox,
    y: i32,
    left: i32,
    right: i32,
    out: &mut Vec<Span>,
) -> Result<(), OutOfMemory>
    requires { left ≤ℤ right }
    ensures ok { OnOk result
        (AppendsSpans out.old.items out.new.items
        (within left right (λ x. is_in (sides_of shape.now) x y))) }
    ensures err { OnErr result (out.new.items ≡ out.old.items) }
    ensures want { OnErr result (left <ℤ right) }
{
    if is_in_rows(shape.top, y, shape.bottom) {
        append_cut(shape.left, shape.right, left, right, out)
    } else {
        Ok(())
    }
}

fn is_in_rows(top: i64, y: i32, bottom: i64) -> bool
    ensures { result ≡ is_from_to top y bottom }
{
    let y = i64::from(y);
    if top <= y { y < bottom } else { false }
}

// The box of `w` by `h` as the pose carries it.
pub(crate) fn carried_box(pose: &Pose, w: u32, h: u32) -> LeafBox
    requires sides { AreSides w h }
    requires quarter { pose.now.quarter ≤ 3 }
    requires reach { reach_of pose.now ≤ 2 ^ 26 }
    ensures { sides_of result ≡ box_of (carry pose.now) w h }
{
    hull(pose.apply(corner(0, 0)), pose.apply(corner(w, h)))
}

fn corner(w: u32, h: u32) -> Point
    requires { (w ≤ 65536) × (h ≤ 65536) }
    ensures value { result ≡ record { x = pos w; y = pos h } }
    ensures size { size_of result ≤ 65536 }
{
    Point {
        x: w as i64,
        y: h as i64,
    }
}

fn hull(p: Point, q: Point) -> LeafBox
    requires first { size_of p ≤ 2 ^ 27 }
    requires second { size_of q ≤ 2 ^ 27 }
    requires across { AreSideEnds p.x q.x }
    requires down { AreSideEnds p.y q.y }
    ensures { sides_of result ≡ box_between p q }
{
    let (left, right) = ends(p.x, q.x);
    let (top, bottom) = ends(p.y, q.y);
    LeafBox {
        left,
        top,
        right,
        bottom,
    }
}

fn ends(a: i64, b: i64) -> (i64, i64)
    requires first { unsigned_abs a ≤ 2 ^ 27 }
    requires second { unsigned_abs b ≤ 2 ^ 27 }
    requires apart { AreSideEnds a b }
    ensures value { result ≡ (int_min a b, int_max a b) }
    ensures side { IsSide result.0 result.1 }
{
    (a.min(b), a.max(b))
}
