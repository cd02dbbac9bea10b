//! What a request of each verb asks for.
ghost use Rattle.std.specs.Prelude.{◌≡◌, None, Some, IfOk, codes};
ghost use Rattle.canvas_wire.specs.Asked.{asked};
ghost use Rattle.canvas_json.specs.Given.{view};
ghost use Rattle.canvas_json.specs.Json.{required};
ghost use Rattle.canvas_json.specs.Shapes.{shape_of};
ghost use Rattle.canvas_wire.specs.declared.verb.Verb.TheVariants as verb;

use crate::request::Request;
use crate::spot::{spot_at, spot_or_front};
use crate::verb::Verb;
use canvas_code::OutOfMemory;
use canvas_json::{
    Given, bool_at, bool_or_false, i32_at, parent_at, parent_or_page, pose_at, pose_or_still,
    shape_at, u8_or_zero, u32_at,
};
use canvas_record::Edit;
use canvas_shape::Kind;
use std::alloc::Global;

// What a request asks for, or none where a member is missing or can't be read.
#[tactic(auto, unfolding(crate::specs::Asked::asked))]
pub(crate) fn asked(
    alloc: Global,
    verb: Verb,
    object: &Given<'_, '_>,
) -> Result<Option<Request>, OutOfMemory>
    ensures { IfOk result (λ request. request ≡ asked verb (view object.now)) }
{
    match verb {
        Verb::Create => create_of(alloc, object),
        Verb::Move => Ok(move_of(object)),
        Verb::Pose => Ok(pose_edit_of(object)),
        Verb::Reshape => reshape_of(alloc, object),
        Verb::Show => Ok(show_of(object)),
        Verb::Delete => Ok(delete_of(object)),
        Verb::Respace => Ok(respace_of(object)),
        Verb::Tile => Ok(tile_of(object)),
        Verb::Patch => Ok(patch_of(object)),
        Verb::Point => Ok(pixel_of(object)),
        Verb::Export => Ok(Some(Request::Export)),
    }
}

// The shape is read first: its points alone want memory.
#[tactic(auto, unfolding(crate::specs::Asked::asked))]
fn create_of(alloc: Global, object: &Given<'_, '_>) -> Result<Option<Request>, OutOfMemory>
    ensures { IfOk result (λ request. request ≡ asked verb.Create (view object.now)) }
{
    match shape_at(alloc, object)? {
        Some(kind) => Ok(create_with(kind, object)),
        None => Ok(None),
    }
}

#[tactic(auto, unfolding(crate::specs::Asked::asked))]
fn create_with(kind: Kind, object: &Given<'_, '_>) -> Option<Request>
    ensures { required shape_of (codes "shape") (view object.now) ≡ Some kind
        → result ≡ asked verb.Create (view object.now) }
{
    let pose = pose_or_still(object)?;
    let hidden = bool_or_false(object, "hidden")?;
    let parent = parent_or_page(object)?;
    let spot = spot_or_front(object)?;
    Some(Request::Edit(Edit::Create {
        kind,
        pose,
        hidden,
        parent,
        spot,
    }))
}

#[tactic(auto, unfolding(crate::specs::Asked::asked))]
fn move_of(object: &Given<'_, '_>) -> Option<Request>
    ensures { result ≡ asked verb.Move (view object.now) }
{
    let id = u32_at(object, "id")?;
    let parent = parent_at(object)?;
    let spot = spot_at(object)?;
    Some(Request::Edit(Edit::Move { id, parent, spot }))
}

#[tactic(auto, unfolding(crate::specs::Asked::asked))]
fn pose_edit_of(object: &Given<'_, '_>) -> Option<Request>
    ensures { result ≡ asked verb.Pose (view object.now) }
{
    let id = u32_at(object, "id")?;
    let pose = pose_at(object)?;
    Some(Request::Edit(Edit::Pose { id, pose }))
}

#[tactic(auto, unfolding(crate::specs::Asked::asked))]
fn reshape_of(alloc: Global, object: &Given<'_, '_>) -> Result<Option<Request>, OutOfMemory>
    ensures { IfOk result (λ request. request ≡ asked verb.Reshape (view object.now)) }
{
    let Some(id) = u32_at(object, "id") else {
        return Ok(None);
    };
    match shape_at(alloc, object)? {
        Some(kind) => Ok(Some(Request::Edit(Edit::Reshape { id, kind }))),
        None => Ok(None),
    }
}

#[tactic(auto, unfolding(crate::specs::Asked::asked))]
fn show_of(object: &Given<'_, '_>) -> Option<Request>
    ensures { result ≡ asked verb.Show (view object.now) }
{
    let id = u32_at(object, "id")?;
    let hidden = bool_at(object, "hidden")?;
    Some(Request::Edit(Edit::Show { id, hidden }))
}

#[tactic(auto, unfolding(crate::specs::Asked::asked))]
fn delete_of(object: &Given<'_, '_>) -> Option<Request>
    ensures { result ≡ asked verb.Delete (view object.now) }
{
    let id = u32_at(object, "id")?;
    Some(Request::Edit(Edit::Delete { id }))
}

#[tactic(auto, unfolding(crate::specs::Asked::asked))]
fn respace_of(object: &Given<'_, '_>) -> Option<Request>
    ensures { result ≡ asked verb.Respace (view object.now) }
{
    let parent = parent_at(object)?;
    Some(Request::Edit(Edit::Respace { parent }))
}

#[tactic(auto, unfolding(crate::specs::Asked::asked))]
fn tile_of(object: &Given<'_, '_>) -> Option<Request>
    ensures { result ≡ asked verb.Tile (view object.now) }
{
    let col = i32_at(object, "col")?;
    let row = i32_at(object, "row")?;
    let level = u8_or_zero(object, "level")?;
    Some(Request::Tile { level, col, row })
}

#[tactic(auto, unfolding(crate::specs::Asked::asked))]
fn patch_of(object: &Given<'_, '_>) -> Option<Request>
    ensures { result ≡ asked verb.Patch (view object.now) }
{
    let x = i32_at(object, "x")?;
    let y = i32_at(object, "y")?;
    let w = u32_at(object, "w")?;
    let h = u32_at(object, "h")?;
    let level = u8_or_zero(object, "level")?;
    Some(Request::Patch { level, x, y, w, h })
}

#[tactic(auto, unfolding(crate::specs::Asked::asked))]
fn pixel_of(object: &Given<'_, '_>) -> Option<Request>
    ensures { result ≡ asked verb.Point (view object.now) }
{
    let x = i32_at(object, "x")?;
    let y = i32_at(object, "y")?;
    Some(Request::Point { x, y })
}
