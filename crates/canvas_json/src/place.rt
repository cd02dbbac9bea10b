//! Parents, keys and poses, as they are read.
ghost use Rattle.std.specs.Prelude.{◌≡◌, codes};
ghost use Rattle.canvas_record.specs.declared.records.Parent.TheVariants.{Page};
ghost use Rattle.canvas_json.specs.Given.{view};
ghost use Rattle.canvas_json.specs.Json.{required, optional};
ghost use Rattle.canvas_json.specs.Places.{parent_of, key_named};
ghost use Rattle.canvas_json.specs.Poses.{pose_of, still};

use crate::field::{bool_or_false, i32_or_zero, u8_or_zero, u32_of};
use crate::given::Given;
use canvas_key::Key;
use canvas_plane::Pose;
use canvas_record::Parent;

#[tactic(auto, unfolding(crate::specs::Places::parent_of))]
fn parent_of(value: Given<'_, '_>) -> Option<Parent>
    ensures { result ≡ parent_of (view value.entry) }
{
    if value.is_null() {
        Some(Parent::Page)
    } else {
        u32_of(value).map(Parent::Shape)
    }
}

/// The parent, which has to be there.
pub fn parent_at(object: &Given<'_, '_>) -> Option<Parent>
    ensures { result ≡ required parent_of (codes "parent") (view object.now) }
{
    object.get("parent").and_then(parent_of)
}

/// The parent, or the page where it is left out.
pub fn parent_or_page(object: &Given<'_, '_>) -> Option<Parent>
    ensures { result ≡ optional parent_of Page (codes "parent") (view object.now) }
{
    object.get("parent").map_or(Some(Parent::Page), parent_of)
}

/// The key that a text is, if it is one.
#[tactic(auto, unfolding(crate::specs::Places::key_named))]
pub fn key_named(text: &str) -> Option<Key>
    ensures { result ≡ key_named text.now }
{
    match Key::read(text.as_bytes()) {
        Ok(key) => Some(key),
        Err(_) => None,
    }
}

/// The pose of an object, each member of which may be left out.
#[tactic(auto, unfolding(crate::specs::Poses::pose_of))]
pub fn pose_of(value: Given<'_, '_>) -> Option<Pose>
    ensures { result ≡ pose_of (view value.entry) }
{
    if !value.is_object() {
        return None;
    }
    let dx = i32_or_zero(&value, "dx")?;
    let dy = i32_or_zero(&value, "dy")?;
    let quarter = u8_or_zero(&value, "quarter")?;
    let flip = bool_or_false(&value, "flip")?;
    Some(Pose {
        dx: i64::from(dx),
        dy: i64::from(dy),
        quarter,
        flip,
    })
}

/// The pose, which has to be there.
pub fn pose_at(object: &Given<'_, '_>) -> Option<Pose>
    ensures { result ≡ required pose_of (codes "pose") (view object.now) }
{
    object.get("pose").and_then(pose_of)
}

/// The pose, or the one that moves nothing where it is left out.
pub fn pose_or_still(object: &Given<'_, '_>) -> Option<Pose>
    ensures { result ≡ optional pose_of still (codes "pose") (view object.now) }
{
    object.get("pose").map_or(Some(Pose::STILL), pose_of)
}
