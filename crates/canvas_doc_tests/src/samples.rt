//! Kinds, records, edits and documents for tests.

use canvas_code::OutOfMemory;
use canvas_doc::{Document, Edit, MOST_RECORDS, Parent, Place, Record, Refusal, Spot, TreeFault};
use canvas_key::Key;
use canvas_plane::{Point, Pose};
use canvas_shape::{Colour, Kind, Points};
use std::alloc::Global;
use std::process::Abort;

pub(crate) const RED: Colour = Colour([255, 0, 0]);

pub(crate) const GREEN: Colour = Colour([0, 255, 0]);

pub(crate) const BLUE: Colour = Colour([0, 0, 255]);

/// A rectangle.
pub(crate) fn rectangle(w: u32, h: u32, fill: Colour) -> Kind {
    Kind::Rect { w, h, fill }
}

/// A frame without a fill.
pub(crate) fn frame(w: u32, h: u32) -> Kind {
    Kind::Frame { w, h, fill: None }
}

/// A red polygon.
pub(crate) fn polygon(alloc: Global, vertices: &[(i64, i64)]) -> Result<Kind, OutOfMemory> {
    let mut points = Points::new(alloc);
    push_all(&mut points, vertices)?;
    Ok(Kind::Polygon { points, fill: RED })
}

fn push_all(points: &mut Points, vertices: &[(i64, i64)]) -> Result<(), OutOfMemory> {
    for (x, y) in vertices {
        points.push(Point { x: *x, y: *y })?;
    }
    Ok(())
}

/// A pose that moves.
pub(crate) fn moved(dx: i64, dy: i64) -> Pose {
    Pose {
        dx,
        dy,
        quarter: 0,
        flip: false,
    }
}

/// A record in front of nothing, without motion.
pub(crate) fn record(id: u32, parent: Parent, index: Key, kind: Kind) -> Record {
    Record {
        id,
        kind,
        place: Place { parent, index },
        pose: Pose::STILL,
        hidden: false,
    }
}

/// A new shape without motion.
pub(crate) fn create(kind: Kind, parent: Parent, spot: Spot) -> Edit {
    Edit::Create {
        kind,
        pose: Pose::STILL,
        hidden: false,
        parent,
        spot,
    }
}

/// The document of records, where the conditions of `restore` hold.
pub(crate) fn restored(
    alloc: Global,
    records: Vec<Record>,
    next: u32,
) -> Result<Document, TreeFault> {
    if next == 0 || records.len() > MOST_RECORDS {
        return Err(TreeFault::OutOfMemory);
    }
    Document::restore(alloc, records, next)
}

/// The document after an edit, or why it is refused.
pub(crate) fn edited(alloc: Global, document: &Document, edit: &Edit) -> Result<Document, Refusal> {
    let change = document.decide(alloc, edit)?;
    let after = document.with(alloc, &change);
    drop(change);
    Ok(after?)
}

/// The same of an edit that is given away.
pub(crate) fn edited_by(
    alloc: Global,
    document: &Document,
    edit: Edit,
) -> Result<Document, Refusal> {
    let after = edited(alloc, document, &edit);
    drop(edit);
    after
}

/// The document after an edit that is accepted.
pub(crate) fn after(rt: &impl Abort, alloc: Global, document: Document, edit: Edit) -> Document {
    let after = edited_by(alloc, &document, edit).expect(rt, "accepted");
    drop(document);
    after
}

/// Why an edit is refused, if it is.
pub(crate) fn refusal(alloc: Global, document: &Document, edit: Edit) -> Option<Refusal> {
    let refusal = document.decide(alloc, &edit).err();
    drop(edit);
    refusal
}

/// Puts one more record at the end.
pub(crate) fn push(rt: &impl Abort, records: &mut Vec<Record>, shape: Record) {
    records.push(shape).expect(rt, "memory");
}
