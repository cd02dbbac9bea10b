//! Spans of a row of pixels.

ghost use Rattle.std.specs.Prelude.{◌≡◌, ◌≤ℤ◌, ◌<ℤ◌, OnOk, OnErr, ◌∷◌, [], int_lt, MatchOption};
ghost use Rattle.canvas_shape.specs.Spans.{AppendsSpans, is_from_to, IsSpans, held, within};

use crate::Span;
use canvas_code::OutOfMemory;

/// Appends what lies from `from` up to `to` of the pixels from `left` up to `right`.
pub(crate) fn append_cut(
    from: i64,
    to: i64,
    left: i32,
    right: i32,
    out: &mut Vec<Span>,
) -> Result<(), OutOfMemory>
    requires { left ≤ℤ right }
    ensures ok { OnOk result
        (AppendsSpans out.old.items out.new.items (within left right (λ x. is_from_to from x to))) }
    ensures err { OnErr result (out.new.items ≡ out.old.items) }
    ensures want { OnErr result (left <ℤ right) }
{
    if let Some(span) = cut_span(from, to, left, right) {
        out.push(span)?;
    }
    Ok(())
}

// What lies from `from` up to `to`, if anything does.
fn cut_span(from: i64, to: i64, left: i32, right: i32) -> Option<Span>
    requires { left ≤ℤ right }
    ensures { MatchOption result (IsSpans [] (within left right (λ x. is_from_to from x to)))
        (λ span. IsSpans (span ∷ []) (within left right (λ x. is_from_to from x to))
        × (left <ℤ right)) }
{
    let span = cut(from, to, left, right);
    if is_filled(&span) { Some(span) } else { None }
}

fn cut(from: i64, to: i64, left: i32, right: i32) -> Span
    requires { left ≤ℤ right }
    ensures from { result.from ≡ held left from right }
    ensures to { result.to ≡ held left to right }
{
    Span {
        from: clamped(left, from, right),
        to: clamped(left, to, right),
    }
}

fn is_filled(span: &Span) -> bool
    ensures { result ≡ int_lt span.now.from span.now.to }
{
    span.from < span.to
}

/// The edge, held between `left` and `right`.
pub(crate) fn clamped(left: i32, edge: i64, right: i32) -> i32
    requires { left ≤ℤ right }
    ensures value { result ≡ held left edge right }
    ensures within { (left ≤ℤ result) × (result ≤ℤ right) }
{
    if edge < i64::from(left) {
        left
    } else if i64::from(right) < edge {
        right
    } else {
        edge as i32
    }
}
