//! Records after a change.

ghost use Rattle.std.specs.Prelude.{◌≡◌, ◌==◌, IfOk, MatchOption, false, map};
ghost use Rattle.canvas_record.specs.Contents.{AreRising};
ghost use Rattle.canvas_record.specs.declared.records.Record.{Record};
ghost use Rattle.canvas_record.specs.Effect.{changed_by, Replaces};

use crate::lookup::locate;
use crate::records::{ListedRecord, Records};
use canvas_code::OutOfMemory;
use canvas_plane::Pose;
use canvas_record::{Change, Place, Record, Standing};
use canvas_shape::Kind;
use std::alloc::Global;

// A record after a change, with its first owner. It is made in the call that gives it that, so that
// it need not be moved.
pub(crate) fn changed_by(
    alloc: Global,
    shape: &Record,
    change: &Change,
) -> Result<ListedRecord, OutOfMemory>
    ensures { IfOk result (λ after. after ≡ changed_by change.now shape.now) }
{
    match change {
        Change::Move { id, place } => {
            if shape.id == *id {
                moved(alloc, shape, place)
            } else {
                unchanged(alloc, shape)
            }
        }
        Change::Pose { id, pose } => {
            if shape.id == *id {
                posed(alloc, shape, *pose)
            } else {
                unchanged(alloc, shape)
            }
        }
        Change::Reshape { id, kind } => {
            if shape.id == *id {
                reshaped(alloc, shape, kind)
            } else {
                unchanged(alloc, shape)
            }
        }
        Change::Show { id, hidden } => {
            if shape.id == *id {
                shown(alloc, shape, *hidden)
            } else {
                unchanged(alloc, shape)
            }
        }
        Change::Create { .. } => unchanged(alloc, shape),
        Change::Delete { .. } => unchanged(alloc, shape),
        Change::Respace { .. } => unchanged(alloc, shape),
    }
}

fn moved(alloc: Global, shape: &Record, place: &Place) -> Result<ListedRecord, OutOfMemory>
    ensures { IfOk result (λ after. after ≡ record shape.now { place = place.now }) }
{
    ListedRecord::new(
        alloc,
        Record {
            id: shape.id,
            kind: shape.kind.try_clone(alloc)?,
            place: place.copy(),
            pose: shape.pose,
            hidden: shape.hidden,
        },
    )
}

fn posed(alloc: Global, shape: &Record, pose: Pose) -> Result<ListedRecord, OutOfMemory>
    ensures { IfOk result (λ after. after ≡ record shape.now { pose = pose }) }
{
    ListedRecord::new(
        alloc,
        Record {
            id: shape.id,
            kind: shape.kind.try_clone(alloc)?,
            place: shape.place.copy(),
            pose,
            hidden: shape.hidden,
        },
    )
}

fn reshaped(alloc: Global, shape: &Record, kind: &Kind) -> Result<ListedRecord, OutOfMemory>
    ensures { IfOk result (λ after. after ≡ record shape.now { kind = kind.now }) }
{
    ListedRecord::new(
        alloc,
        Record {
            id: shape.id,
            kind: kind.try_clone(alloc)?,
            place: shape.place.copy(),
            pose: shape.pose,
            hidden: shape.hidden,
        },
    )
}

fn shown(alloc: Global, shape: &Record, hidden: bool) -> Result<ListedRecord, OutOfMemory>
    ensures { IfOk result (λ after. after ≡ record shape.now { hidden = hidden }) }
{
    ListedRecord::new(
        alloc,
        Record {
            id: shape.id,
            kind: shape.kind.try_clone(alloc)?,
            place: shape.place.copy(),
            pose: shape.pose,
            hidden,
        },
    )
}

fn unchanged(alloc: Global, shape: &Record) -> Result<ListedRecord, OutOfMemory>
    ensures { IfOk result (λ after. after ≡ shape.now) }
{
    ListedRecord::new(alloc, shape.try_clone(alloc)?)
}

// The only record that a change replaces, and its position, if there is one.
pub(crate) fn changed_record<'a>(records: &'a Records, change: &Change) -> Option<Standing<'a>>
    requires { AreRising records.now }
    ensures { MatchOption result (map (changed_by change.now) records.now ≡ records.now)
        (λ found. Replaces change.now records.now found.at found.shape.now) }
{
    match changed_id(change) {
        Some(id) => locate(records, id),
        None => None,
    }
}

// The id of the only record that a change replaces, if there is one.
fn changed_id(change: &Change) -> Option<u32>
    ensures { MatchOption result ((r : Record) → changed_by change.now r ≡ r)
        (λ id. (r : Record) → (r.id == id) ≡ false → changed_by change.now r ≡ r) }
{
    match change {
        Change::Move { id, .. } => Some(*id),
        Change::Pose { id, .. } => Some(*id),
        Change::Reshape { id, .. } => Some(*id),
        Change::Show { id, .. } => Some(*id),
        Change::Create { .. } => None,
        Change::Delete { .. } => None,
        Change::Respace { .. } => None,
    }
}
