//! Bounds of shapes: where a shape and all below it may show, in the plane of its parent.

ghost use Rattle.canvas_doc.specs.Edges.{AreEdges};

use crate::corners::{are_near, ends, greater, left_top, lesser, overlaps, right_bottom, spans};
use crate::slabs::slabs_between;
use canvas_plane::{PageBox, Point, Pose};
use canvas_shape::{Kind, bounds};

/// A box of the plane of a shape's parent, outside of which nothing of the shape and of what lies
/// below it shows. The one whose left edge is `i32::MIN` is the whole plane.
#[derive(Clone, Copy, Debug, PartialEq, Eq)]
pub struct Bounds {
    left: i32,
    top: i32,
    right: i32,
    bottom: i32,
    ghost edges: { AreEdges left top right bottom },
}

impl Bounds {
    ghost use Rattle.std.specs.Prelude.{◌≡◌, ◌≤◌, ◌^◌, IsTrue, true, false, pos};
    ghost use Rattle.canvas_plane.specs.Motion.{reach_of};
    ghost use Rattle.canvas_shape.specs.Box.{AreSides};
    ghost use Rattle.canvas_shape.specs.Inside.{IsSound};
    ghost use Rattle.canvas_doc.specs.Edges.{AreNearEnds};
    ghost use Rattle.canvas_doc.specs.Slabs.{HasSlabs};
    ghost use Rattle.canvas_doc.specs.Bounds.{is_empty, is_whole, left_top, right_bottom, HoldsAll, HoldsBetween, HoldsClip, HoldsOwn, IsCarriedWithin, IsWithinBounds, LieApart};

    /// A box that holds nothing.
    pub fn nowhere() -> Bounds
        ensures { is_empty result ≡ true }
    {
        Bounds {
            left: 0,
            top: 0,
            right: 0,
            bottom: 0,
        }
    }

    /// The whole plane.
    pub fn everywhere() -> Bounds
        ensures { is_whole result ≡ true }
    {
        Bounds {
            left: i32::MIN,
            top: i32::MIN,
            right: i32::MAX,
            bottom: i32::MAX,
        }
    }

    /// The box in which a shape of its own shows, where the pose carries it to its parent's plane.
    /// A group shows nothing of its own.
    pub fn of_shape(kind: &Kind, pose: &Pose) -> Bounds
        requires kind { IsSound kind.now }
        requires quarter { pose.now.quarter ≤ 3 }
        requires reach { reach_of pose.now ≤ 2 ^ 20 }
        ensures { HoldsOwn kind.now pose.now result }
    {
        Bounds::of_kind(kind).carried(pose)
    }

    /// What the pose of a shape carries the box to: from the shape's own plane to its parent's. It
    /// is the whole plane where an edge would lie too far from the origin.
    pub fn carried(&self, pose: &Pose) -> Bounds
        requires quarter { pose.now.quarter ≤ 3 }
        requires reach { reach_of pose.now ≤ 2 ^ 20 }
        ensures { IsCarriedWithin pose.now self.now result }
    {
        if self.is_whole() {
            *self
        } else {
            Bounds::between(pose.apply(self.left_top()), pose.apply(self.right_bottom()))
        }
    }

    /// A box that holds what either holds. An empty one adds nothing.
    #[inline(always)]
    pub fn hull(&self, other: &Bounds) -> Bounds
        ensures first { IsWithinBounds self.now result }
        ensures second { IsWithinBounds other.now result }
    {
        if self.is_empty() {
            *other
        } else if other.is_empty() {
            *self
        } else {
            self.joined(other)
        }
    }

    /// Whether the other box lies within this one.
    pub fn contains(&self, other: &Bounds) -> bool
        ensures { IsTrue result → IsWithinBounds other.now self.now }
    {
        let is_across = spans(self.left, self.right, other.left, other.right);
        let is_down = spans(self.top, self.bottom, other.top, other.bottom);
        other.is_empty() | (is_across & is_down)
    }

    /// Whether the two may have a pixel in common.
    #[inline(always)]
    pub fn meets(&self, area: &Bounds) -> bool
        ensures { result ≡ false → LieApart self.now area.now }
    {
        let is_across = overlaps(self.left, self.right, area.left, area.right);
        let is_down = overlaps(self.top, self.bottom, area.top, area.bottom);
        is_across & is_down
    }

    /// The part of a plane that a box of the page shows, where `out` carries the plane to the page.
    /// It is the whole plane where an edge would lie too far from the origin.
    pub fn of_clip(out: &Pose, clip: &PageBox) -> Bounds
        requires quarter { out.now.quarter ≤ 3 }
        requires reach { reach_of out.now ≤ 2 ^ 26 }
        ensures { HoldsClip out.now clip.now result }
    {
        let p = left_top(clip);
        let q = right_bottom(clip);
        if are_near(p, q) {
            let back = out.inverse();
            Bounds::between(back.apply(p), back.apply(q))
        } else {
            Bounds::everywhere()
        }
    }

    // The box in which a shape of its own shows, in its own plane.
    fn of_kind(kind: &Kind) -> Bounds
        requires { IsSound kind.now }
        ensures { HoldsAll kind.now result }
    {
        match kind {
            Kind::Group => Bounds::nowhere(),
            Kind::Frame { w, h, .. } => Bounds::sized(*w, *h),
            Kind::Rect { w, h, .. } => Bounds::sized(*w, *h),
            Kind::Ellipse { w, h, .. } => Bounds::sized(*w, *h),
            Kind::Polygon { points, .. } => {
                let sides = bounds(points.as_slice());
                Bounds::between(left_top(&sides), right_bottom(&sides))
            }
        }
    }

    // The box from the origin to (w, h).
    fn sized(w: u32, h: u32) -> Bounds
        requires { AreSides w h }
        ensures first { left_top result ≡ record { x = pos 0; y = pos 0 } }
        ensures last { right_bottom result ≡ record { x = pos w; y = pos h } }
    {
        Bounds {
            left: 0,
            top: 0,
            right: w as i32,
            bottom: h as i32,
        }
    }

    // The box between two points, or the whole plane where one of them lies too far from the origin.
    fn between(p: Point, q: Point) -> Bounds
        ensures { HoldsBetween p q result }
    {
        if are_near(p, q) {
            Bounds::between_near(p, q)
        } else {
            Bounds::everywhere()
        }
    }

    fn between_near(p: Point, q: Point) -> Bounds
        requires { AreNearEnds p.x p.y q.x q.y }
        ensures { HoldsBetween p q result }
    {
        let (left, right) = ends(p.x, q.x);
        let (top, bottom) = ends(p.y, q.y);
        Bounds {
            left,
            top,
            right,
            bottom,
        }
    }

    // From the least to the greatest edges of two boxes.
    #[inline(always)]
    fn joined(&self, other: &Bounds) -> Bounds
        ensures first { IsWithinBounds self.now result }
        ensures second { IsWithinBounds other.now result }
    {
        Bounds {
            left: lesser(self.left, other.left),
            top: lesser(self.top, other.top),
            right: greater(self.right, other.right),
            bottom: greater(self.bottom, other.bottom),
        }
    }

    /// The columns in which it lies.
    #[inline(always)]
    pub(crate) fn columns(&self) -> u64
        ensures { HasSlabs self.now.left self.now.right result }
    {
        slabs_between(self.left, self.right)
    }

    /// The rows in which it lies.
    #[inline(always)]
    pub(crate) fn rows(&self) -> u64
        ensures { HasSlabs self.now.top self.now.bottom result }
    {
        slabs_between(self.top, self.bottom)
    }

    fn is_whole(&self) -> bool
        ensures { result ≡ is_whole self.now }
    {
        self.left == i32::MIN
    }

    #[inline(always)]
    fn is_empty(&self) -> bool
        ensures { result ≡ is_empty self.now }
    {
        self.right <= self.left || self.bottom <= self.top
    }

    fn left_top(&self) -> Point
        ensures { result ≡ left_top self.now }
    {
        Point {
            x: i64::from(self.left),
            y: i64::from(self.top),
        }
    }

    fn right_bottom(&self) -> Point
        ensures { result ≡ right_bottom self.now }
    {
        Point {
            x: i64::from(self.right),
            y: i64::from(self.bottom),
        }
    }
}
