//! Whether a change fits.

ghost use Rattle.std.specs.Prelude.{◌≡◌, Decides, IsTrue};
ghost use Rattle.canvas_key.specs.Text.{IsKey};
ghost use Rattle.canvas_record.specs.Contents.{IsWellFormed};
ghost use Rattle.canvas_record.specs.Effect.{Fits, HasKey};
ghost use Rattle.canvas_doc.specs.Fitting.{creation_test, fits_test, has_no_child, kind_test, move_test};

use crate::ancestry::{has_parent, has_shape, is_container, lies_too_deep, reaches_page};
use crate::decisions::is_pose;
use crate::lookup::find;
use crate::place_order::children_range;
use crate::spots::is_taken;
use crate::{Document, MOST_RECORDS};
use canvas_plane::Pose;
use canvas_record::{Change, Parent, Place};
use canvas_shape::Kind;

impl Document {
    /// Whether a change may be made here.
    pub fn fits(&self, change: &Change) -> bool
        ensures { Decides result (Fits change.now self.now) }
    {
        fits_test(self, change)
    }
}

fn has_no_child(document: &Document, id: u32) -> bool
    ensures { result ≡ has_no_child id document.now.records }
{
    let children = children_range(&document.order, Parent::Shape(id));
    children.start == children.end
}

fn fits_test(document: &Document, change: &Change) -> bool
    ensures value { result ≡ fits_test change.now document.now }
    ensures key { IsTrue result → HasKey change.now }
    ensures well_formed { IsWellFormed document.now }
{
    let records = &document.records;
    match change {
        Change::Create {
            id,
            kind,
            pose,
            place,
            ..
        } => *id == document.next && can_be_created(document, kind, pose, place),
        Change::Move { id, place } => can_be_moved(document, *id, place),
        Change::Pose { id, pose } => has_shape(records, *id) && is_pose(pose),
        Change::Reshape { id, kind } => can_be_reshaped(document, *id, kind),
        Change::Show { id, .. } => has_shape(records, *id),
        Change::Delete { id } => has_shape(records, *id),
        Change::Respace { parent } => has_parent(records, *parent),
    }
}

// Whether a new shape may be put here.
fn can_be_created(document: &Document, kind: &Kind, pose: &Pose, place: &Place) -> bool
    ensures value { result ≡ creation_test kind.now pose.now place.now document.now }
    ensures key { IsTrue result → IsKey place.now.index }
{
    if document.next == 4_294_967_295 {
        return false;
    }
    if document.records.len() >= MOST_RECORDS {
        return false;
    }
    if !kind.has_sides() {
        return false;
    }
    if !kind.has_vertices() {
        return false;
    }
    if !is_pose(pose) {
        return false;
    }
    if !reaches_page(document, place.parent) {
        return false;
    }
    !is_taken(document, document.next, place.parent, &place.index)
}

// Whether a shape may be moved here.
fn can_be_moved(document: &Document, id: u32, place: &Place) -> bool
    ensures value { result ≡ move_test id place.now document.now.records }
    ensures key { IsTrue result → IsKey place.now.index }
{
    let Some(shape) = find(&document.records, id) else {
        return false;
    };
    if lies_too_deep(document, id, shape, place.parent) {
        return false;
    }
    !is_taken(document, id, place.parent, &place.index)
}

// Whether a shape may have this kind.
fn can_be_reshaped(document: &Document, id: u32, kind: &Kind) -> bool
    ensures { result ≡ kind_test id kind.now document.now.records }
{
    if !has_shape(&document.records, id) {
        return false;
    }
    if !kind.has_sides() {
        return false;
    }
    if !kind.has_vertices() {
        return false;
    }
    if is_container(kind) {
        return true;
    }
    has_no_child(document, id)
}
