//! The names of an object's members, against those that it may have.
ghost use Rattle.std.specs.Prelude.{◌≡◌, ◌&&◌, is_some, not, map};
ghost use Rattle.std.specs.List.{list_all, list_any};
ghost use Rattle.std.specs.Str.{bytes_eq};
ghost use Rattle.json.specs.Find.{InMembers};
ghost use Rattle.json.specs.Json as json;
ghost use Rattle.serde_json.specs.Find.{get};
ghost use Rattle.canvas_json.specs.Given.{view};
ghost use Rattle.canvas_json.specs.Json.{has_others, has_exactly};
ghost use Rattle.canvas_json.specs.MemberNames.{given_names};

use crate::given::Given;
use json::Members;

fn is_among(names: &[&str], name: &str) -> bool
    ensures { result ≡ list_any (λ other. bytes_eq other.now name.now) names.now }
{
    names.iter().any(|other| *other == name)
}

// Whether one of the members has none of these names.
fn any_outside(names: &[&str], members: Members<'_, '_>) -> bool
    ensures { (given : json.Members) → InMembers members.entry given
        → result ≡ list_any (λ name. not (list_any (λ other. bytes_eq other.now name) names.now))
        (given_names given) }
{
    let mut left = members;
    while let Some((name, _)) = left.next() {
        if !is_among(names, name) {
            return true;
        }
    }
    false
}

/// Whether an object has a member of none of these names.
#[tactic(auto, unfolding(crate::specs::Json::has_others))]
pub fn has_others(names: &[&str], object: &Given<'_, '_>) -> bool
    ensures { result ≡ has_others (map (λ name. name.now) names.now) (view object.now) }
{
    match object.members() {
        Some(members) => any_outside(names, members),
        None => false,
    }
}

fn has_all(names: &[&str], object: &Given<'_, '_>) -> bool
    ensures { result ≡ list_all (λ name. is_some (get name.now (view object.now))) names.now }
{
    names.iter().all(|name| object.get(name).is_some())
}

/// Whether an object has a member of each of these names, and no others.
#[tactic(auto, unfolding(crate::specs::Json::has_exactly))]
pub fn has_exactly(names: &[&str], object: &Given<'_, '_>) -> bool
    ensures { result ≡ has_exactly (map (λ name. name.now) names.now) (view object.now) }
{
    has_all(names, object) && !has_others(names, object)
}
