//! Documents to be edited.

use crate::drawings::{Part, drawn};
use crate::fault::Fault;
use crate::shapes::Drawing;
use canvas_doc::{Document, MOST_RECORDS, Parent, Place, Record};
use canvas_key::fresh;
use canvas_plane::{Point, Pose};
use canvas_shape::{Colour, Kind, Points};
use std::alloc::Global;

/// What documents are made of that grow.
pub const SQUARE: Part = Part::Square(5);

/// How records hang together. In all but `Grown` ids begin at 2, as where the first shape was
/// deleted, and indexes stand in no order of the ids, with a gap behind each, so that new indexes
/// are other ones.
#[derive(Clone, Copy)]
pub enum Layout {
    /// Groups on the page, each with 63 rectangles.
    Grouped,
    /// Groups on the page, each with 63 triangles.
    Triangles,
    /// Rectangles on the page.
    Flat,
    /// Rectangles on the page, each put in front of those before it.
    Grown,
    /// A group at each depth up to 31, with all rectangles in the lowest.
    Deep,
}

/// A triangle or a rectangle.
pub fn leaf(alloc: Global, layout: Layout, side: u32) -> Result<Kind, Fault> {
    let fill = Colour([1, 2, 3]);
    match layout {
        Layout::Triangles => {
            let points = triangle(alloc, i64::from(side))?;
            Ok(Kind::Polygon { points, fill })
        }
        _ => Ok(Kind::Rect {
            w: side,
            h: side,
            fill,
        }),
    }
}

fn triangle(alloc: Global, side: i64) -> Result<Points, Fault> {
    let corners = [
        Point { x: 0, y: 0 },
        Point { x: side, y: 0 },
        Point { x: 0, y: side },
    ];
    Ok(Points::from_vec(Vec::from_array(alloc, corners)?))
}

// The parent of the record of an id, and whether it is a group.
fn hung(layout: Layout, id: u32) -> (Parent, bool) {
    let within = id % 64;
    match layout {
        Layout::Flat | Layout::Grown => (Parent::Page, false),
        Layout::Deep if id == 2 => (Parent::Page, true),
        Layout::Deep => (Parent::Shape(id.saturating_sub(1).min(32)), id <= 32),
        _ if within == 2 => (Parent::Page, true),
        _ => {
            let first = id.saturating_sub(within.wrapping_sub(2) % 64);
            (Parent::Shape(first), false)
        }
    }
}

/// The first records of a layout.
pub fn records(alloc: Global, layout: Layout, count: u32) -> Result<Vec<Record>, Fault> {
    let mut records = Vec::new(alloc);
    for number in 0..count {
        records.push(record(alloc, layout, number.saturating_add(2))?)?;
    }
    Ok(records)
}

// The record of an id.
fn record(alloc: Global, layout: Layout, id: u32) -> Result<Record, Fault> {
    let (parent, is_group) = hung(layout, id);
    let kind = if is_group {
        Kind::Group
    } else {
        leaf(alloc, layout, 5)?
    };
    Ok(Record {
        id,
        kind,
        place: Place {
            parent,
            index: fresh(id.wrapping_mul(1_597) % 16_384 * 2),
        },
        pose: Pose::STILL,
        hidden: false,
    })
}

/// The document of the first records of a layout.
pub fn document(alloc: Global, layout: Layout, count: u32) -> Result<Document, Fault> {
    match layout {
        Layout::Grown => {
            let Drawing { document, .. } = drawn(alloc, 0, SQUARE, count)?;
            Ok(document)
        }
        _ => restored(alloc, records(alloc, layout, count)?),
    }
}

/// The document of records, where there are not too many.
pub fn restored(alloc: Global, records: Vec<Record>) -> Result<Document, Fault> {
    if records.len() > MOST_RECORDS {
        return Err(Fault::NoDocument);
    }
    Ok(Document::restore(alloc, records, 20_000)?)
}
