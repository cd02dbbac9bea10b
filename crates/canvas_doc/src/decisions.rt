//! What is decided of an edit.

ghost use Rattle.std.specs.Prelude.{◌≡◌, IfOk, false};
ghost use Rattle.canvas_plane.specs.Limits.{is_pose};
ghost use Rattle.canvas_shape.specs.Limits.{takes_memory};
ghost use Rattle.canvas_key.specs.Text.{IsKey};
ghost use Rattle.canvas_record.specs.declared.edits.Edit.TheVariants.{Create};
ghost use Rattle.canvas_record.specs.Contents.{AreRising, IsWellFormed};
ghost use Rattle.canvas_record.specs.Effect.{Fits, HasKey};
ghost use Rattle.canvas_record.specs.Decision.{same_variant, move_index, create_index, move_decision, pose_decision, reshape_judgement, reshape_decision, show_decision, delete_decision, respace_decision, decision_of, asks_memory, IsAnswer};

use crate::ancestry::{
    STEPS, can_have_children, has_parent, has_shape, height_of, is_shallow, way_up,
};
use crate::lookup::find;
use crate::records::Records;
use crate::spots::index_at;
use crate::{Document, MOST_RECORDS};
use canvas_key::Key;
use canvas_plane::Pose;
use canvas_record::{Change, Edit, Parent, Place, Refusal, Spot};
use canvas_shape::Kind;
use std::alloc::Global;

impl Document {
    /// What becomes of an edit: a change that fits, or the first refusal that applies.
    ///
    /// Every other refusal is decided before any memory is asked for, so `OutOfMemory` comes only
    /// in place of a change, and only where `Create` or `Reshape` copies the vertices of a polygon.
    pub fn decide(&self, alloc: Global, edit: &Edit) -> Result<Change, Refusal>
        ensures decision { IsAnswer result (decision_of edit.now self.now) }
        ensures exact { asks_memory edit.now ≡ false → result ≡ decision_of edit.now self.now }
        ensures fits { IfOk result (λ change. Fits change self.now) }
    {
        decision(alloc, self, edit)
    }
}

// The change, or the refusal.
fn decision(alloc: Global, document: &Document, edit: &Edit) -> Result<Change, Refusal>
    ensures value { IsAnswer result (decision_of edit.now document.now) }
    ensures exact { asks_memory edit.now ≡ false → result ≡ decision_of edit.now document.now }
    ensures key { IfOk result HasKey }
    ensures well_formed { IsWellFormed document.now }
{
    let records = &document.records;
    match edit {
        Edit::Create {
            kind,
            pose,
            hidden,
            parent,
            spot,
        } => decide_create(alloc, document, kind, pose, *hidden, *parent, spot),
        Edit::Move { id, parent, spot } => decide_move(document, *id, *parent, spot),
        Edit::Pose { id, pose } => decide_pose(records, *id, *pose),
        Edit::Reshape { id, kind } => decide_reshape(alloc, records, *id, kind),
        Edit::Show { id, hidden } => decide_show(records, *id, *hidden),
        Edit::Delete { id } => decide_delete(records, *id),
        Edit::Respace { parent } => decide_respace(records, *parent),
    }
}

// A new shape, or why it is refused.
fn decide_create(
    alloc: Global,
    document: &Document,
    kind: &Kind,
    pose: &Pose,
    hidden: bool,
    parent: Parent,
    spot: &Spot,
) -> Result<Change, Refusal>
    ensures value { IsAnswer result
        (decision_of (Create kind.now pose.now hidden parent spot.now) document.now) }
    ensures exact { takes_memory kind.now ≡ false
        → result ≡ decision_of (Create kind.now pose.now hidden parent spot.now) document.now }
    ensures key { IfOk result HasKey }
{
    let index = create_index(document, kind, pose, parent, spot)?;
    Ok(Change::Create {
        id: document.next,
        kind: kind.try_clone(alloc)?,
        pose: *pose,
        hidden,
        place: Place { parent, index },
    })
}

// The index of a new shape, or why it is refused.
fn create_index(
    document: &Document,
    kind: &Kind,
    pose: &Pose,
    parent: Parent,
    spot: &Spot,
) -> Result<Key, Refusal>
    ensures value { result ≡ create_index kind.now pose.now parent spot.now document.now }
    ensures key { IfOk result IsKey }
{
    let records = &document.records;
    if !has_parent(records, parent) {
        return Err(Refusal::NoSuchParent);
    }
    if !can_have_children(records, parent) {
        return Err(Refusal::NotAContainer);
    }
    if !is_shallow(document, parent) {
        return Err(Refusal::TooDeep);
    }
    if records.len() >= MOST_RECORDS {
        return Err(Refusal::TooMany);
    }
    if document.next == 4_294_967_295 {
        return Err(Refusal::IdsSpent);
    }
    if !kind.has_sides() {
        return Err(Refusal::BadSize);
    }
    if !is_pose(pose) {
        return Err(Refusal::BadPose);
    }
    if !kind.has_vertices() {
        return Err(Refusal::BadPolygon);
    }
    index_at(document, document.next, parent, spot)
}

// Another place, or why it is refused.
fn decide_move(document: &Document, id: u32, parent: Parent, spot: &Spot) -> Result<Change, Refusal>
    ensures value { result ≡ move_decision id parent spot.now document.now.records }
    ensures key { IfOk result HasKey }
{
    let index = move_index(document, id, parent, spot)?;
    Ok(Change::Move {
        id,
        place: Place { parent, index },
    })
}

// The index of a moved shape, or why the move is refused.
fn move_index(document: &Document, id: u32, parent: Parent, spot: &Spot) -> Result<Key, Refusal>
    ensures value { result ≡ move_index id parent spot.now document.now.records }
    ensures key { IfOk result IsKey }
{
    let records = &document.records;
    let Some(shape) = find(records, id) else {
        return Err(Refusal::NoSuchShape);
    };
    if !has_parent(records, parent) {
        return Err(Refusal::NoSuchParent);
    }
    if !can_have_children(records, parent) {
        return Err(Refusal::NotAContainer);
    }
    let way = way_up(records, STEPS + 1, id, parent);
    if way.has_own {
        return Err(Refusal::Cycle);
    }
    if way.depth + height_of(document, id, shape) > 32 {
        return Err(Refusal::TooDeep);
    }
    index_at(document, id, parent, spot)
}

// Another pose, or why it is refused.
fn decide_pose(records: &Records, id: u32, pose: Pose) -> Result<Change, Refusal>
    requires { AreRising records.now }
    ensures value { result ≡ pose_decision id pose records.now }
    ensures key { IfOk result HasKey }
{
    if !has_shape(records, id) {
        return Err(Refusal::NoSuchShape);
    }
    if !is_pose(&pose) {
        return Err(Refusal::BadPose);
    }
    Ok(Change::Pose { id, pose })
}

// Another kind, or why it is refused.
fn decide_reshape(alloc: Global, records: &Records, id: u32, kind: &Kind) -> Result<Change, Refusal>
    requires { AreRising records.now }
    ensures value { IsAnswer result (reshape_decision id kind.now records.now) }
    ensures exact { takes_memory kind.now ≡ false
        → result ≡ reshape_decision id kind.now records.now }
    ensures key { IfOk result HasKey }
{
    judge_reshape(records, id, kind)?;
    Ok(Change::Reshape {
        id,
        kind: kind.try_clone(alloc)?,
    })
}

// Whether a shape may have another kind, or why it may not.
fn judge_reshape(records: &Records, id: u32, kind: &Kind) -> Result<(), Refusal>
    requires { AreRising records.now }
    ensures { result ≡ reshape_judgement id kind.now records.now }
{
    let Some(shape) = find(records, id) else {
        return Err(Refusal::NoSuchShape);
    };
    if !same_variant(&shape.kind, kind) {
        return Err(Refusal::WrongKind);
    }
    if !kind.has_sides() {
        return Err(Refusal::BadSize);
    }
    if !kind.has_vertices() {
        return Err(Refusal::BadPolygon);
    }
    Ok(())
}

// Hidden or shown, or why it is refused.
fn decide_show(records: &Records, id: u32, hidden: bool) -> Result<Change, Refusal>
    requires { AreRising records.now }
    ensures value { result ≡ show_decision id hidden records.now }
    ensures key { IfOk result HasKey }
{
    if !has_shape(records, id) {
        return Err(Refusal::NoSuchShape);
    }
    Ok(Change::Show { id, hidden })
}

// Without a shape, or why it is refused.
fn decide_delete(records: &Records, id: u32) -> Result<Change, Refusal>
    requires { AreRising records.now }
    ensures value { result ≡ delete_decision id records.now }
    ensures key { IfOk result HasKey }
{
    if !has_shape(records, id) {
        return Err(Refusal::NoSuchShape);
    }
    Ok(Change::Delete { id })
}

// New indexes for children, or why they are refused.
fn decide_respace(records: &Records, parent: Parent) -> Result<Change, Refusal>
    requires { AreRising records.now }
    ensures value { result ≡ respace_decision parent records.now }
    ensures key { IfOk result HasKey }
{
    if !has_parent(records, parent) {
        return Err(Refusal::NoSuchParent);
    }
    if !can_have_children(records, parent) {
        return Err(Refusal::NotAContainer);
    }
    Ok(Change::Respace { parent })
}

pub(crate) fn is_pose(pose: &Pose) -> bool
    ensures { result ≡ is_pose pose.now }
{
    pose.check().is_ok()
}

fn same_variant(a: &Kind, b: &Kind) -> bool
    ensures { result ≡ same_variant a.now b.now }
{
    match a {
        Kind::Group => matches!(b, Kind::Group),
        Kind::Frame { .. } => matches!(b, Kind::Frame { .. }),
        Kind::Rect { .. } => matches!(b, Kind::Rect { .. }),
        Kind::Ellipse { .. } => matches!(b, Kind::Ellipse { .. }),
        Kind::Polygon { .. } => matches!(b, Kind::Polygon { .. }),
    }
}
