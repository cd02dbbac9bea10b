//! Members that a request does not have.
ghost use Rattle.std.specs.Prelude.{◌≡◌, codes};
ghost use Rattle.canvas_json.specs.Given.{view};
ghost use Rattle.canvas_wire.specs.Extra.{pose_has_extra, shape_has_extra, spot_has_extra, inside, inside_of, has_extra};

use crate::verb::Verb;
use canvas_json::{Given, has_others, shape_members};

fn pose_has_extra(pose: Given<'_, '_>) -> bool
    ensures { result ≡ pose_has_extra (view pose.entry) }
{
    has_others(&["dx", "dy", "flip", "quarter"], &pose)
}

fn shape_has_extra(shape: Given<'_, '_>) -> bool
    ensures { result ≡ shape_has_extra (view shape.entry) }
{
    match shape.get("kind").and_then(|kind| kind.as_str()) {
        Some(kind) => has_others(shape_members(kind), &shape),
        None => false,
    }
}

fn spot_has_extra(spot: Given<'_, '_>) -> bool
    ensures { result ≡ spot_has_extra (view spot.entry) }
{
    match spot.get("over") {
        Some(_) => has_others(&["over"], &spot),
        None => has_others(&["at"], &spot),
    }
}

fn extra_in_pose(object: &Given<'_, '_>) -> bool
    ensures { result ≡ inside pose_has_extra (codes "pose") (view object.now) }
{
    object.get("pose").is_some_and(pose_has_extra)
}

fn extra_in_shape(object: &Given<'_, '_>) -> bool
    ensures { result ≡ inside shape_has_extra (codes "shape") (view object.now) }
{
    object.get("shape").is_some_and(shape_has_extra)
}

fn extra_in_spot(object: &Given<'_, '_>) -> bool
    ensures { result ≡ inside spot_has_extra (codes "spot") (view object.now) }
{
    object.get("spot").is_some_and(spot_has_extra)
}

// Whether an object that belongs into a request of the verb has an extra member.
fn has_extra_inside(verb: Verb, object: &Given<'_, '_>) -> bool
    ensures { result ≡ inside_of verb (view object.now) }
{
    match verb {
        Verb::Create => extra_in_pose(object) || extra_in_shape(object) || extra_in_spot(object),
        Verb::Move => extra_in_spot(object),
        Verb::Pose => extra_in_pose(object),
        Verb::Reshape => extra_in_shape(object),
        Verb::Show
        | Verb::Delete
        | Verb::Respace
        | Verb::Tile
        | Verb::Patch
        | Verb::Point
        | Verb::Export => false,
    }
}

// Whether a request has a member that its verb does not have, or an object inside it has one.
pub(crate) fn has_extra(verb: Verb, object: &Given<'_, '_>) -> bool
    ensures { result ≡ has_extra verb (view object.now) }
{
    has_others(verb.members(), object) || has_extra_inside(verb, object)
}
