//! Shapes spread over the page's first tile and beyond it on all sides, and squares at its origin.

use crate::fault::Fault;
use crate::shapes::Drawing;
use canvas_doc::Parent;
use canvas_plane::Pose;
use canvas_shape::{Colour, Kind};

/// How many pixels shapes are spread over, in both directions.
const ACROSS: u32 = 500;

/// How far before the page's origin they begin.
const BEFORE: i64 = 120;

/// Adds a rectangle with sides up to `most`.
pub fn add_rectangle(drawing: &mut Drawing, most: u32) -> Result<(), Fault> {
    let w = drawing.below(most).saturating_add(1);
    let h = drawing.below(most).saturating_add(1);
    let fill = colour(drawing);
    add_anywhere(drawing, Kind::Rect { w, h, fill })
}

/// Adds an ellipse with sides up to `most`.
pub fn add_ellipse(drawing: &mut Drawing, most: u32) -> Result<(), Fault> {
    let w = drawing.below(most).saturating_add(1);
    let h = drawing.below(most).saturating_add(1);
    let fill = colour(drawing);
    add_anywhere(drawing, Kind::Ellipse { w, h, fill })
}

/// Adds a polygon of so many vertices, 120 across, that crosses itself.
pub fn add_polygon(drawing: &mut Drawing, vertices: u32) -> Result<(), Fault> {
    let kind = polygon(drawing, vertices)?;
    add_anywhere(drawing, kind)
}

/// Adds a frame of 8 by 8 pixels, and a polygon in it, of which it shows a part.
pub fn add_framed(drawing: &mut Drawing, vertices: u32) -> Result<(), Fault> {
    let frame = drawing.next_parent();
    let (w, h, fill) = (8, 8, None);
    add_anywhere(drawing, Kind::Frame { w, h, fill })?;
    let kind = polygon(drawing, vertices)?;
    drawing.add(kind, at(-56, -56), frame)
}

/// Adds a square with such sides at the page's origin.
pub fn add_square(drawing: &mut Drawing, side: u32) -> Result<(), Fault> {
    let fill = Colour([1, 2, 3]);
    let (w, h) = (side, side);
    drawing.add(Kind::Rect { w, h, fill }, Pose::STILL, Parent::Page)
}

fn polygon(drawing: &mut Drawing, vertices: u32) -> Result<Kind, Fault> {
    let points = drawing.vertices(vertices, 120, 120)?;
    let fill = colour(drawing);
    Ok(Kind::Polygon { points, fill })
}

fn colour(drawing: &mut Drawing) -> Colour {
    let shade = drawing.below(256).to_be_bytes();
    Colour([shade[3], 100, 7])
}

// Adds a shape on the page.
fn add_anywhere(drawing: &mut Drawing, kind: Kind) -> Result<(), Fault> {
    let dx = i64::from(drawing.below(ACROSS)).saturating_sub(BEFORE);
    let dy = i64::from(drawing.below(ACROSS)).saturating_sub(BEFORE);
    drawing.add(kind, at(dx, dy), Parent::Page)
}

/// The pose that moves by so much.
fn at(dx: i64, dy: i64) -> Pose {
    Pose {
        dx,
        dy,
        quarter: 0,
        flip: false,
    }
}
