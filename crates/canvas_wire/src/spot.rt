//! Spots: where among its siblings a shape goes.
ghost use Rattle.std.specs.Prelude.{◌≡◌, codes};
ghost use Rattle.canvas_record.specs.declared.edits.Spot.TheVariants.{Front};
ghost use Rattle.canvas_json.specs.Given.{view};
ghost use Rattle.canvas_json.specs.Json.{required, optional};
ghost use Rattle.canvas_wire.specs.Spots.{spot_named, spot_over, spot_at_key, spot_in, spot_of};

use canvas_json::{Given, key_named, u32_of};
use canvas_record::Spot;

#[tactic(auto, unfolding(crate::specs::Spots::spot_named))]
fn spot_named(name: &str) -> Option<Spot>
    ensures { result ≡ spot_named name.now }
{
    match name {
        "back" => Some(Spot::Back),
        "front" => Some(Spot::Front),
        _ => None,
    }
}

#[tactic(auto, unfolding(crate::specs::Spots::spot_over))]
fn spot_over(id: Given<'_, '_>) -> Option<Spot>
    ensures { result ≡ spot_over (view id.entry) }
{
    u32_of(id).map(Spot::Over)
}

#[tactic(auto, unfolding(crate::specs::Spots::spot_at_key))]
fn spot_at_key(text: &str) -> Option<Spot>
    ensures { result ≡ spot_at_key text.now }
{
    key_named(text).map(Spot::At)
}

#[tactic(auto, unfolding(crate::specs::Spots::spot_in))]
fn spot_in(object: &Given<'_, '_>) -> Option<Spot>
    ensures { result ≡ spot_in (view object.now) }
{
    match object.get("over") {
        Some(id) => spot_over(id),
        None => object
            .get("at")
            .and_then(|key| key.as_str())
            .and_then(spot_at_key),
    }
}

#[tactic(auto, unfolding(crate::specs::Spots::spot_of))]
fn spot_of(value: Given<'_, '_>) -> Option<Spot>
    ensures { result ≡ spot_of (view value.entry) }
{
    match value.as_str() {
        Some(name) => spot_named(name),
        None => spot_in(&value),
    }
}

// The spot, which has to be there.
pub(crate) fn spot_at(object: &Given<'_, '_>) -> Option<Spot>
    ensures { result ≡ required spot_of (codes "spot") (view object.now) }
{
    object.get("spot").and_then(spot_of)
}

// The spot, or in front of all siblings where it is left out.
pub(crate) fn spot_or_front(object: &Given<'_, '_>) -> Option<Spot>
    ensures { result ≡ optional spot_of Front (codes "spot") (view object.now) }
{
    match object.get("spot") {
        Some(spot) => spot_of(spot),
        None => Some(Spot::Front),
    }
}
