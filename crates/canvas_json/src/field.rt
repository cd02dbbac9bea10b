//! Values of an object's members.
ghost use Rattle.std.specs.Prelude.{◌≡◌, false, pos};
ghost use Rattle.serde_json.specs.Find.{as_bool};
ghost use Rattle.canvas_json.specs.Given.{view};
ghost use Rattle.canvas_json.specs.Json.{in_i32, in_u32, in_u8, i32_of, u32_of, u8_of, required, optional};

use crate::given::Given;

fn in_i32(n: i64) -> Option<i32>
    ensures { result ≡ in_i32 n }
{
    if n < -2_147_483_648 || 2_147_483_647 < n {
        None
    } else {
        Some(n as i32)
    }
}

fn in_u32(n: i64) -> Option<u32>
    ensures { result ≡ in_u32 n }
{
    if 0 <= n && n <= 4_294_967_295 {
        Some(n as u32)
    } else {
        None
    }
}

fn in_u8(n: i64) -> Option<u8>
    ensures { result ≡ in_u8 n }
{
    if 0 <= n && n <= 255 {
        Some(n as u8)
    } else {
        None
    }
}

/// A whole number with a sign.
#[tactic(auto, unfolding(crate::specs::Json::i32_of))]
pub fn i32_of(value: Given<'_, '_>) -> Option<i32>
    ensures { result ≡ i32_of (view value.entry) }
{
    value.as_i64().and_then(in_i32)
}

/// A whole number from 0 on.
#[tactic(auto, unfolding(crate::specs::Json::u32_of))]
pub fn u32_of(value: Given<'_, '_>) -> Option<u32>
    ensures { result ≡ u32_of (view value.entry) }
{
    value.as_i64().and_then(in_u32)
}

/// A whole number of one byte.
#[tactic(auto, unfolding(crate::specs::Json::u8_of))]
pub fn u8_of(value: Given<'_, '_>) -> Option<u8>
    ensures { result ≡ u8_of (view value.entry) }
{
    value.as_i64().and_then(in_u8)
}

/// A number with a sign, which has to be there.
pub fn i32_at(object: &Given<'_, '_>, name: &str) -> Option<i32>
    ensures { result ≡ required i32_of name.now (view object.now) }
{
    object.get(name).and_then(i32_of)
}

/// A number from 0 on, which has to be there.
pub fn u32_at(object: &Given<'_, '_>, name: &str) -> Option<u32>
    ensures { result ≡ required u32_of name.now (view object.now) }
{
    object.get(name).and_then(u32_of)
}

/// True or false, which has to be there.
pub fn bool_at(object: &Given<'_, '_>, name: &str) -> Option<bool>
    ensures { result ≡ required as_bool name.now (view object.now) }
{
    object.get(name).and_then(|value| value.as_bool())
}

/// A number with a sign, or 0 where it is left out.
pub fn i32_or_zero(object: &Given<'_, '_>, name: &str) -> Option<i32>
    ensures { result ≡ optional i32_of (pos 0) name.now (view object.now) }
{
    object.get(name).map_or(Some(0), i32_of)
}

/// A number of one byte, or 0 where it is left out.
pub fn u8_or_zero(object: &Given<'_, '_>, name: &str) -> Option<u8>
    ensures { result ≡ optional u8_of 0 name.now (view object.now) }
{
    object.get(name).map_or(Some(0), u8_of)
}

/// True or false, or false where it is left out.
pub fn bool_or_false(object: &Given<'_, '_>, name: &str) -> Option<bool>
    ensures { result ≡ optional as_bool false name.now (view object.now) }
{
    object
        .get(name)
        .map_or(Some(false), |value| value.as_bool())
}
