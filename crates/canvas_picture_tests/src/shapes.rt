//! Small documents.

use canvas_code::OutOfMemory;
use canvas_doc::{Document, Edit, Parent, Spot};
use canvas_plane::{PageBox, Point, Pose};
use canvas_shape::{Colour, Kind, Points};
use std::alloc::Global;

pub(crate) const RED: Colour = Colour([255, 0, 0]);

pub(crate) const GREEN: Colour = Colour([0, 255, 0]);

pub(crate) const BLUE: Colour = Colour([0, 0, 255]);

pub(crate) fn rect(w: u32, h: u32, fill: Colour) -> Kind {
    Kind::Rect { w, h, fill }
}

pub(crate) fn frame(w: u32, h: u32, fill: Option<Colour>) -> Kind {
    Kind::Frame { w, h, fill }
}

pub(crate) fn ellipse(w: u32, h: u32, fill: Colour) -> Kind {
    Kind::Ellipse { w, h, fill }
}

/// Half of a square.
pub(crate) fn triangle(alloc: Global, side: i64, fill: Colour) -> Result<Kind, OutOfMemory> {
    let mut points = Points::new(alloc);
    for (x, y) in [(0, 0), (side, 0), (0, side)] {
        points.push(Point { x, y })?;
    }
    Ok(Kind::Polygon { points, fill })
}

/// A move without a turn.
pub(crate) fn away(dx: i64, dy: i64) -> Pose {
    Pose {
        dx,
        dy,
        quarter: 0,
        flip: false,
    }
}

/// A pose so far to the right.
pub(crate) fn right(dx: i64) -> Pose {
    away(dx, 0)
}

pub(crate) fn page_box(left: i64, top: i64, right: i64, bottom: i64) -> PageBox {
    PageBox {
        left,
        top,
        right,
        bottom,
    }
}

/// The document after an edit, or as it was where the edit is refused.
pub(crate) fn after(
    alloc: Global,
    document: Document,
    edit: &Edit,
) -> Result<Document, OutOfMemory> {
    let Ok(change) = document.decide(alloc, edit) else {
        return Ok(document);
    };
    let after = document.with(alloc, &change);
    drop(change);
    drop(document);
    after
}

/// The document with a shape in front of a parent's children.
pub(crate) fn with(
    alloc: Global,
    document: Document,
    kind: Kind,
    pose: Pose,
    parent: Parent,
) -> Result<Document, OutOfMemory> {
    let edit = Edit::Create {
        kind,
        pose,
        hidden: false,
        parent,
        spot: Spot::Front,
    };
    after(alloc, document, &edit)
}

/// A frame of 4 by 4, in it one of 8 by 2, and in that a green rectangle of 6 by 2.
pub(crate) fn nested(alloc: Global) -> Result<Document, OutOfMemory> {
    let still = Pose::STILL;
    let document = Document::empty(alloc);
    let document = with(alloc, document, frame(4, 4, None), still, Parent::Page)?;
    let document = with(alloc, document, frame(8, 2, None), still, Parent::Shape(1))?;
    with(alloc, document, rect(6, 2, GREEN), still, Parent::Shape(2))
}

/// A red rectangle of 2 by 1 at the origin.
pub(crate) fn red_rectangle(alloc: Global) -> Result<Document, OutOfMemory> {
    let document = Document::empty(alloc);
    with(alloc, document, rect(2, 1, RED), Pose::STILL, Parent::Page)
}
