//! Numbers of a text, as serde_json reads their texts.
ghost use Rattle.std.specs.Prelude.{◌≡◌, ◌<◌, ◌==◌, IsTrue, IfSome, Some, length, slice_index, option_map, option_and_then, is_some, true, false};
ghost use Rattle.std.specs.Int.{IsInRange};
ghost use Rattle.serde_json.specs.Data as Num;
ghost use Rattle.serde_json.specs.Find.{as_i64};
ghost use Rattle.serde_json.specs.Read.{number_of, number_from, float_of};
ghost use Rattle.serde_json.specs.View.{number_view};

use fast_float::{Numeral, parse_u64};
use serde_json::Number;

// The nearest float, unless it is infinite.
#[inline(always)]
fn nearest(negative: bool, numeral: &Numeral<'_>) -> Option<Number>
    ensures { option_map number_view result ≡ float_of negative numeral.now }
{
    Number::from_f64(numeral.to_float::<f64>(negative))
}

// A number from 0 on.
#[inline(always)]
fn unsigned(numeral: &Numeral<'_>) -> Option<Number>
    ensures { option_map number_view result ≡ number_from false numeral.now }
{
    match numeral.to_u64() {
        Some(n) => Some(Number::from(n)),
        None => nearest(false, numeral),
    }
}

// A number with a minus. `-0` is a float.
#[inline(always)]
fn negative(numeral: &Numeral<'_>) -> Option<Number>
    ensures { option_map number_view result ≡ number_from true numeral.now }
{
    if let Some(n) = numeral.to_i64(true) {
        if n < 0 {
            return Some(Number::from(n));
        }
    }
    nearest(true, numeral)
}

#[inline(always)]
fn has_minus(bytes: &[u8]) -> bool
    ensures value { result ≡ (slice_index bytes.now 0 == 45) }
    ensures len { IsTrue result → 0 < length bytes.now }
{
    !bytes.is_empty() && bytes[0] == b'-'
}

// The number that a text of JSON writes, unless it is too large for a float.
fn number_of(text: &str) -> Option<Number>
    ensures { option_map number_view result ≡ number_of text.now }
{
    let bytes = text.as_bytes();
    if has_minus(bytes) {
        negative(&Numeral::scan(&bytes[1..]))
    } else {
        unsigned(&Numeral::scan(bytes))
    }
}

#[inline(always)]
fn begins_with_digit(bytes: &[u8]) -> bool
    ensures { IsTrue result → IsInRange 48 57 (slice_index bytes.now 0) }
{
    !bytes.is_empty() && bytes[0].is_ascii_digit()
}

// The number that a text of digits alone writes, if it has 64 bits. Most numbers are such texts.
fn from_digits(text: &str) -> Option<u64>
    ensures { IfSome result (λ n. number_of text.now ≡ Some (Num.unsigned n)) }
{
    let bytes = text.as_bytes();
    if !begins_with_digit(bytes) {
        return None;
    }
    match parse_u64(bytes) {
        Ok(n) => Some(n),
        Err(_) => None,
    }
}

/// Whether serde_json takes the number that a text writes.
pub(crate) fn is_in_range(text: &str) -> bool
    ensures { result ≡ is_some (number_of text.now) }
{
    from_digits(text).is_some() || number_of(text).is_some()
}

/// The number that a text writes, if it is whole and has 64 bits with a sign.
pub(crate) fn whole(text: &str) -> Option<i64>
    ensures { result ≡ option_and_then as_i64 (number_of text.now) }
{
    match from_digits(text) {
        Some(n) => i64::try_from(n).ok(),
        None => number_of(text)?.as_i64(),
    }
}
