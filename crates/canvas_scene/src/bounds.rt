//! The boxes of the page in which shapes show.

ghost use Rattle.std.specs.Prelude.{◌≡◌, ◌≤◌, ◌^◌, ℤ, Option, map, true};
ghost use Rattle.canvas_plane.specs.Motion.{carry, reach_of};
ghost use Rattle.canvas_plane.specs.Page.{is_in};
ghost use Rattle.canvas_shape.specs.Edges.{is_in_polygon};
ghost use Rattle.canvas_shape.specs.Inside.{AreVertices, IsSound};
ghost use Rattle.canvas_shape.specs.declared.Colour.{Colour};
ghost use Rattle.canvas_record.specs.Contents.{is_container};
ghost use Rattle.canvas_scene.specs.Nodes.{seen, shown_of};
ghost use Rattle.canvas_scene.specs.Trees.{clip_of};

use canvas_plane::{PageBox, Point, Pose};
use canvas_shape::{Carried, Kind, bounds};

/// The part of a clip in which a shape of a kind with all below it may be seen, where `page`
/// carries its own points to the page. For the children of a group or a frame it is the clip.
pub(crate) fn part_of(kind: &Kind, page: &Pose, clip: &PageBox) -> PageBox
    requires kind { IsSound kind.now }
    requires quarter { page.now.quarter ≤ 3 }
    requires reach { reach_of page.now ≤ 2 ^ 26 }
    ensures seen { (inner : Option Colour) (x y : ℤ)
        → seen (is_in result x y) (shown_of kind.now page.now inner x y)
        ≡ seen (is_in clip.now x y) (shown_of kind.now page.now inner x y) }
    ensures clip { is_container kind.now ≡ true
        → result ≡ clip_of kind.now (carry page.now) clip.now }
{
    match kind {
        Kind::Group => *clip,
        Kind::Frame { w, h, .. } => clip.meet(&Carried::rect(page, *w, *h).page_box()),
        Kind::Rect { w, h, .. } => Carried::rect(page, *w, *h).page_box().meet(clip),
        Kind::Ellipse { w, h, .. } => Carried::ellipse(page, *w, *h).page_box().meet(clip),
        Kind::Polygon { points, .. } => carried_bounds(page, points.as_slice()).meet(clip),
    }
}

// A box of the page with all pixels of a polygon whose vertices a pose carries. Quarter turns and
// flips make boxes into boxes, so two opposite corners of the vertices' own box are carried.
fn carried_bounds(page: &Pose, points: &[Point]) -> PageBox
    requires vertices { AreVertices points.now }
    requires quarter { page.now.quarter ≤ 3 }
    requires reach { reach_of page.now ≤ 2 ^ 26 }
    ensures { (x y : ℤ) → is_in_polygon (map (carry page.now) points.now) x y ≡ true
        → is_in result x y ≡ true }
{
    let own = bounds(points);
    bounds(&[page.apply(left_top(&own)), page.apply(right_bottom(&own))])
}

fn left_top(shape: &PageBox) -> Point
    ensures { result ≡ record { x = shape.now.left; y = shape.now.top } }
{
    Point {
        x: shape.left,
        y: shape.top,
    }
}

fn right_bottom(shape: &PageBox) -> Point
    ensures { result ≡ record { x = shape.now.right; y = shape.now.bottom } }
{
    Point {
        x: shape.right,
        y: shape.bottom,
    }
}
