//! The way from a parent up to the page, and the height of a subtree.

ghost use Rattle.std.specs.Prelude.{◌≡◌, ◌≤◌, All, Some, true};
ghost use Rattle.std.specs.Option.{option_copied};
ghost use Rattle.canvas_record.specs.declared.records.Parent.TheVariants.{Shape};
ghost use Rattle.canvas_record.specs.Contents.{record_of, reaches_page, is_container, AreRising, IsWellFormed};
ghost use Rattle.canvas_record.specs.Decision.{has_shape, has_parent, can_have_children, holds_container, lies_too_deep};
ghost use Rattle.canvas_record.specs.Depth.{height_of};
ghost use Rattle.canvas_record.specs.Tree.{IsInLimits};
ghost use Rattle.canvas_doc.specs.Heights.{tallest};
ghost use Rattle.canvas_doc.specs.Ways.{holder_in, IsWay};

use crate::Document;
use crate::lookup::find;
use crate::place_order::children_range;
use crate::records::Records;
use canvas_plane::Pose;
use canvas_record::{Parent, Record};
use canvas_shape::Kind;
use std::ops::Range;

/// How many steps up lead from a parent to the page at most.
pub(crate) const STEPS: u32 = 31;

pub(crate) fn has_shape(records: &Records, id: u32) -> bool
    requires { AreRising records.now }
    ensures { result ≡ has_shape records.now id }
{
    find(records, id).is_some()
}

pub(crate) fn has_parent(records: &Records, parent: Parent) -> bool
    requires { AreRising records.now }
    ensures { result ≡ has_parent records.now parent }
{
    match parent {
        Parent::Page => true,
        Parent::Shape(id) => has_shape(records, id),
    }
}

pub(crate) fn is_container(kind: &Kind) -> bool
    ensures { result ≡ is_container kind.now }
{
    match kind {
        Kind::Group => true,
        Kind::Frame { .. } => true,
        Kind::Rect { .. } => false,
        Kind::Ellipse { .. } => false,
        Kind::Polygon { .. } => false,
    }
}

fn holds_container(shape: Option<&Record>) -> bool
    ensures { result ≡ holds_container (option_copied shape.entry) }
{
    match shape {
        Some(shape) => is_container(&shape.kind),
        None => false,
    }
}

pub(crate) fn can_have_children(records: &Records, parent: Parent) -> bool
    requires { AreRising records.now }
    ensures { result ≡ can_have_children records.now parent }
{
    match parent {
        Parent::Page => true,
        Parent::Shape(id) => holds_container(find(records, id)),
    }
}

/// The way from a parent up to the page, for a shape that hangs there or is to.
#[derive(Clone, Copy)]
pub(crate) struct Way {
    /// How many shapes lie on it.
    pub(crate) depth: u32,
    /// Whether the shape itself is one of them.
    pub(crate) has_own: bool,
    /// Carries the parent's points to the page.
    pub(crate) pose: Pose,
}

// The way up from a parent, at most so many steps of it, for the shape of an id.
pub(crate) fn way_up(records: &Records, steps: u32, id: u32, parent: Parent) -> Way
    requires steps { steps ≤ 32 }
    requires rising { AreRising records.now }
    requires limits { All IsInLimits records.now }
    ensures { IsWay records.now id steps parent result }
{
    let mut has_own = false;
    let mut pose = Pose::STILL;
    let mut at = parent;
    for depth in 0..steps {
        let Some(shape) = holder(records, at) else {
            return Way {
                depth,
                has_own,
                pose,
            };
        };
        has_own |= shape.id == id;
        pose = pose.then(&shape.pose);
        at = shape.place.parent;
    }
    Way {
        depth: steps,
        has_own,
        pose,
    }
}

// The record of a parent, if it is one that is there.
fn holder(records: &Records, parent: Parent) -> Option<&Record>
    requires { AreRising records.now }
    ensures { option_copied result ≡ holder_in parent records.now }
{
    match parent {
        Parent::Page => None,
        Parent::Shape(id) => find(records, id),
    }
}

// Whether the way up from a parent that can have children leaves room for a shape below it.
pub(crate) fn is_shallow(document: &Document, parent: Parent) -> bool
    requires { can_have_children document.now.records parent ≡ true }
    ensures { result ≡ reaches_page 31 document.now.records parent }
{
    let way = way_up(&document.records, STEPS + 1, document.next, parent);
    way.depth <= STEPS
}

// Whether a parent can have children and leads to the page, with room for a shape below it.
pub(crate) fn reaches_page(document: &Document, parent: Parent) -> bool
    ensures { result ≡ reaches_page 31 document.now.records parent }
{
    can_have_children(&document.records, parent) && is_shallow(document, parent)
}

// Whether some record lies too deep, or leads to no page, once a shape hangs under another parent.
pub(crate) fn lies_too_deep(document: &Document, id: u32, shape: &Record, under: Parent) -> bool
    requires { record_of id document.now.records ≡ Some shape.now }
    ensures { result ≡ lies_too_deep document.now.records id under }
{
    let records = &document.records;
    if !can_have_children(records, under) {
        return true;
    }
    let way = way_up(records, STEPS + 1, id, under);
    way.has_own || way.depth + height_of(document, id, shape) > 32
}

// The height of the subtree of a shape: 1 where nothing lies below it.
pub(crate) fn height_of(document: &Document, id: u32, shape: &Record) -> u32
    requires well_formed { IsWellFormed document.now }
    requires found { record_of id document.now.records ≡ Some shape.now }
    ensures value { result ≡ height_of id document.now.records }
    ensures small { result ≤ 32 }
{
    levels_below(document, STEPS, shape) + 1
}

// How many levels lie below a shape of the document, down to so many: one for each child, and the
// levels below it, the greatest of these.
fn levels_below(document: &Document, levels: u32, shape: &Record) -> u32
    requires { record_of shape.now.id document.now.records ≡ Some shape.now }
    ensures value { result ≡ tallest levels document.now.records (Shape shape.now.id) }
    ensures small { result ≤ levels }
{
    let order = &document.order;
    if levels == 0 {
        return 0;
    }
    if !is_container(&shape.kind) {
        return 0;
    }
    let Range { start, end } = children_range(order, Parent::Shape(shape.id));
    let mut tallest: u32 = 0;
    for placed in order.list.iter_range(start, end) {
        let child = placed.shape.value();
        tallest = tallest.max(levels_below(document, levels - 1, child) + 1);
    }
    tallest
}
