//! Records as they are read.
ghost use Rattle.std.specs.Prelude.{◌≡◌, Some, codes, IfOk};
ghost use Rattle.canvas_json.specs.Given.{view};
ghost use Rattle.canvas_json.specs.Json.{has_others, required};
ghost use Rattle.canvas_saved.specs.Records.{whole_shape_of, whole_pose_of, index_of, place_in, place_of, place_at, record_members, record_in, record_of, if_within, element_of};

use crate::formats::{Format, Head};
use canvas_code::OutOfMemory;
use canvas_json::{
    Given, bool_at, has_exactly, has_others, key_named, parent_at, pose_of, shape_members,
    shape_of, u32_at,
};
use canvas_key::Key;
use canvas_plane::Pose;
use canvas_record::{Place, Record};
use canvas_shape::Kind;
use std::alloc::Global;

// The shape of an object with exactly the members of its kind.
#[tactic(auto, unfolding(crate::specs::Records::whole_shape_of))]
fn whole_shape_of(alloc: Global, shape: Given<'_, '_>) -> Result<Option<Kind>, OutOfMemory>
    ensures { IfOk result (λ kind. kind ≡ whole_shape_of (view shape.entry)) }
{
    let Some(kind) = shape.get("kind").and_then(|kind| kind.as_str()) else {
        return Ok(None);
    };
    if has_exactly(shape_members(kind), &shape) {
        shape_of(alloc, shape)
    } else {
        Ok(None)
    }
}

// The shape, which has to be there.
fn shape_at(alloc: Global, object: &Given<'_, '_>) -> Result<Option<Kind>, OutOfMemory>
    ensures { IfOk result
        (λ kind. kind ≡ required whole_shape_of (codes "shape") (view object.now)) }
{
    match object.get("shape") {
        Some(shape) => whole_shape_of(alloc, shape),
        None => Ok(None),
    }
}

// The pose of an object with exactly the members of a pose.
#[tactic(auto, unfolding(crate::specs::Records::whole_pose_of))]
fn whole_pose_of(pose: Given<'_, '_>) -> Option<Pose>
    ensures { result ≡ whole_pose_of (view pose.entry) }
{
    if has_exactly(&["dx", "dy", "flip", "quarter"], &pose) {
        pose_of(pose)
    } else {
        None
    }
}

// The pose, which has to be there.
fn pose_at(object: &Given<'_, '_>) -> Option<Pose>
    ensures { result ≡ required whole_pose_of (codes "pose") (view object.now) }
{
    object.get("pose").and_then(whole_pose_of)
}

#[tactic(auto, unfolding(crate::specs::Records::index_of))]
fn index_of(value: Given<'_, '_>) -> Option<Key>
    ensures { result ≡ index_of (view value.entry) }
{
    value.as_str().and_then(|text| key_named(text))
}

// The index, which has to be there.
fn index_at(object: &Given<'_, '_>) -> Option<Key>
    ensures { result ≡ required index_of (codes "index") (view object.now) }
{
    object.get("index").and_then(index_of)
}

// The place that an index and a parent make.
#[tactic(auto, unfolding(crate::specs::Records::place_in))]
fn place_in(object: &Given<'_, '_>) -> Option<Place>
    ensures { result ≡ place_in (view object.now) }
{
    let index = index_at(object)?;
    let parent = parent_at(object)?;
    Some(Place { parent, index })
}

#[tactic(auto, unfolding(crate::specs::Records::place_of))]
fn place_of(value: Given<'_, '_>) -> Option<Place>
    ensures { result ≡ place_of (view value.entry) }
{
    if has_others(&["index", "parent"], &value) {
        None
    } else {
        place_in(&value)
    }
}

// The place of a record, as the format has it.
#[tactic(auto, unfolding(crate::specs::Records::place_at))]
fn place_at(format: Format, object: &Given<'_, '_>) -> Option<Place>
    ensures { result ≡ place_at format (view object.now) }
{
    match format {
        Format::One => place_in(object),
        Format::Two => object.get("place").and_then(place_of),
    }
}

// Whether a record has a member that the format does not have.
fn has_unknown(format: Format, object: &Given<'_, '_>) -> bool
    ensures { result ≡ has_others (record_members format) (view object.now) }
{
    match format {
        Format::One => has_others(
            &["hidden", "id", "index", "parent", "pose", "shape"],
            object,
        ),
        Format::Two => has_others(&["hidden", "id", "place", "pose", "shape"], object),
    }
}

// The record with this shape.
#[tactic(auto, unfolding(crate::specs::Records::record_in))]
fn record_with(format: Format, kind: Kind, object: &Given<'_, '_>) -> Option<Record>
    ensures { required whole_shape_of (codes "shape") (view object.now) ≡ Some kind
        → result ≡ record_in format (view object.now) }
{
    let hidden = bool_at(object, "hidden")?;
    let id = u32_at(object, "id")?;
    let place = place_at(format, object)?;
    let pose = pose_at(object)?;
    Some(Record {
        id,
        kind,
        place,
        pose,
        hidden,
    })
}

// The shape is read first: its points alone want memory.
#[tactic(auto, unfolding(crate::specs::Records::record_in))]
fn record_in(
    alloc: Global,
    format: Format,
    object: &Given<'_, '_>,
) -> Result<Option<Record>, OutOfMemory>
    ensures { IfOk result (λ shape. shape ≡ record_in format (view object.now)) }
{
    match shape_at(alloc, object)? {
        Some(kind) => Ok(record_with(format, kind, object)),
        None => Ok(None),
    }
}

#[tactic(auto, unfolding(crate::specs::Records::record_of))]
fn record_of(
    alloc: Global,
    format: Format,
    object: &Given<'_, '_>,
) -> Result<Option<Record>, OutOfMemory>
    ensures { IfOk result (λ shape. shape ≡ record_of format (view object.now)) }
{
    if has_unknown(format, object) {
        Ok(None)
    } else {
        record_in(alloc, format, object)
    }
}

// The record, if it is within the limits of a record.
fn if_within(next: u32, shape: Record) -> Option<Record>
    ensures { result ≡ if_within next shape }
{
    if shape.is_within(next) {
        Some(shape)
    } else {
        None
    }
}

// The record of an element, within the limits of a record.
#[tactic(auto, unfolding(crate::specs::Records::element_of))]
pub(crate) fn element_of(
    alloc: Global,
    head: Head,
    element: &Given<'_, '_>,
) -> Result<Option<Record>, OutOfMemory>
    ensures { IfOk result (λ shape. shape ≡ element_of head (view element.now)) }
{
    match record_of(alloc, head.format, element)? {
        Some(shape) => Ok(if_within(head.next, shape)),
        None => Ok(None),
    }
}
