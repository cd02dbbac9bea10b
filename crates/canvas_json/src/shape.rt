//! Shapes, as they are read.
ghost use Rattle.std.specs.Prelude.{◌≡◌, None, codes, map, IfOk};
ghost use Rattle.canvas_json.specs.Given.{view, items_view};
ghost use Rattle.canvas_json.specs.Json.{required, optional};
ghost use Rattle.canvas_json.specs.Shapes.{colour_of, fill_of, point_in, point_of, points_in, points_of, frame_of, rect_of, ellipse_of, polygon_of, shape_named, shape_of, shape_members};

use crate::field::{i32_of, u32_at};
use crate::given::{Given, GivenItems};
use canvas_code::OutOfMemory;
use canvas_plane::Point;
use canvas_shape::{Colour, Kind, Points};
use std::alloc::Global;

#[tactic(auto, unfolding(crate::specs::Shapes::colour_of))]
fn colour_of(value: Given<'_, '_>) -> Option<Colour>
    ensures { result ≡ colour_of (view value.entry) }
{
    value.as_str().and_then(Colour::read)
}

fn colour_at(shape: &Given<'_, '_>) -> Option<Colour>
    ensures { result ≡ required colour_of (codes "fill") (view shape.now) }
{
    shape.get("fill").and_then(colour_of)
}

#[tactic(auto, unfolding(crate::specs::Shapes::fill_of))]
fn fill_of(value: Given<'_, '_>) -> Option<Option<Colour>>
    ensures { result ≡ fill_of (view value.entry) }
{
    if value.is_null() {
        Some(None)
    } else {
        colour_of(value).map(Some)
    }
}

fn fill_or_none(shape: &Given<'_, '_>) -> Option<Option<Colour>>
    ensures { result ≡ optional fill_of None (codes "fill") (view shape.now) }
{
    match shape.get("fill") {
        Some(fill) => fill_of(fill),
        None => Some(None),
    }
}

fn point_in(items: GivenItems<'_, '_>) -> Option<Point>
    ensures { result ≡ point_in (items_view items.entry) }
{
    let mut left = items;
    let x = left.next()?;
    let y = left.next()?;
    if left.next().is_some() {
        return None;
    }
    Some(Point {
        x: i64::from(i32_of(x)?),
        y: i64::from(i32_of(y)?),
    })
}

#[tactic(auto, unfolding(crate::specs::Shapes::point_of))]
fn point_of(value: Given<'_, '_>) -> Option<Point>
    ensures { result ≡ point_of (view value.entry) }
{
    point_in(value.items()?)
}

// The points of a list.
fn points_in(alloc: Global, items: GivenItems<'_, '_>) -> Result<Option<Points>, OutOfMemory>
    ensures { IfOk result (λ points. points ≡ points_in (items_view items.entry)) }
{
    let mut points = Points::new(alloc);
    let mut left = items;
    while let Some(value) = left.next() {
        match point_of(value) {
            Some(point) => points.push(point)?,
            None => return Ok(None),
        }
    }
    Ok(Some(points))
}

#[tactic(auto, unfolding(crate::specs::Shapes::points_of))]
fn points_of(alloc: Global, value: Given<'_, '_>) -> Result<Option<Points>, OutOfMemory>
    ensures { IfOk result (λ points. points ≡ points_of (view value.entry)) }
{
    match value.items() {
        Some(items) => points_in(alloc, items),
        None => Ok(None),
    }
}

#[tactic(auto, unfolding(crate::specs::Shapes::frame_of))]
fn frame_of(shape: &Given<'_, '_>) -> Option<Kind>
    ensures { result ≡ frame_of (view shape.now) }
{
    let w = u32_at(shape, "w")?;
    let h = u32_at(shape, "h")?;
    let fill = fill_or_none(shape)?;
    Some(Kind::Frame { w, h, fill })
}

#[tactic(auto, unfolding(crate::specs::Shapes::rect_of))]
fn rect_of(shape: &Given<'_, '_>) -> Option<Kind>
    ensures { result ≡ rect_of (view shape.now) }
{
    let w = u32_at(shape, "w")?;
    let h = u32_at(shape, "h")?;
    let fill = colour_at(shape)?;
    Some(Kind::Rect { w, h, fill })
}

#[tactic(auto, unfolding(crate::specs::Shapes::ellipse_of))]
fn ellipse_of(shape: &Given<'_, '_>) -> Option<Kind>
    ensures { result ≡ ellipse_of (view shape.now) }
{
    let w = u32_at(shape, "w")?;
    let h = u32_at(shape, "h")?;
    let fill = colour_at(shape)?;
    Some(Kind::Ellipse { w, h, fill })
}

#[tactic(auto, unfolding(crate::specs::Shapes::polygon_of))]
fn polygon_of(alloc: Global, shape: &Given<'_, '_>) -> Result<Option<Kind>, OutOfMemory>
    ensures { IfOk result (λ kind. kind ≡ polygon_of (view shape.now)) }
{
    let Some(fill) = colour_at(shape) else {
        return Ok(None);
    };
    let Some(list) = shape.get("points") else {
        return Ok(None);
    };
    match points_of(alloc, list)? {
        Some(points) => Ok(Some(Kind::Polygon { points, fill })),
        None => Ok(None),
    }
}

#[tactic(auto, unfolding(crate::specs::Shapes::shape_named))]
fn shape_named(
    alloc: Global,
    kind: &str,
    shape: &Given<'_, '_>,
) -> Result<Option<Kind>, OutOfMemory>
    ensures { IfOk result (λ read. read ≡ shape_named kind.now (view shape.now)) }
{
    match kind {
        "group" => Ok(Some(Kind::Group)),
        "frame" => Ok(frame_of(shape)),
        "rect" => Ok(rect_of(shape)),
        "ellipse" => Ok(ellipse_of(shape)),
        "polygon" => polygon_of(alloc, shape),
        _ => Ok(None),
    }
}

/// The shape of an object: that of its `kind`, with that kind's members. A frame's fill may be left out.
#[tactic(auto, unfolding(crate::specs::Shapes::shape_of))]
pub fn shape_of(alloc: Global, shape: Given<'_, '_>) -> Result<Option<Kind>, OutOfMemory>
    ensures { IfOk result (λ kind. kind ≡ shape_of (view shape.entry)) }
{
    match shape.get("kind").and_then(|kind| kind.as_str()) {
        Some(kind) => shape_named(alloc, kind, &shape),
        None => Ok(None),
    }
}

/// The shape, which has to be there. Its points alone want memory.
pub fn shape_at(alloc: Global, object: &Given<'_, '_>) -> Result<Option<Kind>, OutOfMemory>
    ensures { IfOk result (λ kind. kind ≡ required shape_of (codes "shape") (view object.now)) }
{
    match object.get("shape") {
        Some(shape) => shape_of(alloc, shape),
        None => Ok(None),
    }
}

/// The names of all members that a shape of a kind may have.
#[tactic(auto, unfolding(crate::specs::Shapes::shape_members))]
pub fn shape_members(kind: &str) -> &'static [&'static str]
    ensures { map (λ name. name.now) result.now ≡ shape_members kind.now }
{
    match kind {
        "group" => &["kind"],
        "polygon" => &["fill", "kind", "points"],
        _ => &["fill", "h", "kind", "w"],
    }
}
