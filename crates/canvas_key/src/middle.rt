//! The midpoint of two fractions.
ghost use Rattle.std.specs.Prelude.{◌≡◌, ◌<◌, ◌≤◌, ◌+◌, ◌-◌, ◌++◌, true, length, drop, slice_index_or};
ghost use Rattle.canvas_key.specs.Digit.{is_digit};
ghost use Rattle.canvas_key.specs.Text.{HasDigits};
ghost use Rattle.canvas_key.specs.Middle.{middle_digit, midpoint_above, midpoint_apart, midpoint_between};

use super::KEY_LIMIT;
use super::digit::{digit_of, digit_value};
use arrayvec::ArrayVec;

// One byte more than a key may have.
const DRAFT_LIMIT: usize = KEY_LIMIT + 1;

/// A text that is being written.
pub(crate) type Draft = ArrayVec<u8, DRAFT_LIMIT>;

// The digit in the middle of two values.
fn middle_digit(low: u8, high: u8) -> u8
    requires apart { low + 1 < high }
    requires small { high ≤ 62 }
    ensures { result ≡ middle_digit low high }
{
    digit_of((low + high + 1) / 2)
}

// The digit at a place, or `0` past the end.
fn digit_at(text: &[u8], at: usize) -> u8
    requires place { 0 < at }
    requires digits { HasDigits text.now }
    ensures value { result ≡ slice_index_or text.now at 48 }
    ensures digit { is_digit result ≡ true }
{
    if at < text.len() { text[at] } else { b'0' }
}

// Appends the midpoint of what follows a place in `low` and no other fraction.
pub(crate) fn push_midpoint_above(draft: &mut Draft, low: &[u8], at: usize)
    requires place { 0 < at }
    requires digits { HasDigits low.now }
    requires room { length draft.old.items + (length low.now - at) < 129 }
    ensures { draft.new.items ≡ draft.old.items ++ midpoint_above (drop at low.now) }
{
    if at >= low.len() {
        draft.push(middle_digit(0, 62));
        return;
    }
    let value = digit_value(low[at]);
    if value < 61 {
        draft.push(middle_digit(value, 62));
    } else {
        draft.push(low[at]);
        push_midpoint_above(draft, low, at + 1);
    }
}

// Appends the midpoint of what follows a place in two texts.
pub(crate) fn push_midpoint_between(draft: &mut Draft, low: &[u8], high: &[u8], at: usize)
    requires place { 0 < at }
    requires low_digits { HasDigits low.now }
    requires high_digits { HasDigits high.now }
    requires low_room { length draft.old.items + (length low.now - at) < 129 }
    requires high_room { length draft.old.items + (length high.now - at) < 129 }
    ensures { draft.new.items
        ≡ draft.old.items ++ midpoint_between (drop at low.now) (drop at high.now) }
{
    if at >= high.len() {
        push_midpoint_above(draft, low, at);
        return;
    }
    if digit_at(low, at) == high[at] {
        draft.push(high[at]);
        push_midpoint_between(draft, low, high, at + 1);
    } else {
        push_midpoint_apart(draft, low, high, at);
    }
}

// Appends the midpoint of what follows a place in two texts, where the digits there differ.
fn push_midpoint_apart(draft: &mut Draft, low: &[u8], high: &[u8], at: usize)
    requires place { 0 < at }
    requires inside { at < length high.now }
    requires low_digits { HasDigits low.now }
    requires high_digits { HasDigits high.now }
    requires low_room { length draft.old.items + (length low.now - at) < 129 }
    requires high_room { length draft.old.items + (length high.now - at) < 129 }
    ensures { draft.new.items
        ≡ draft.old.items
        ++ midpoint_apart (drop at low.now) (slice_index_or high.now at 48)
        (drop (at + 1) high.now) }
{
    let first = digit_at(low, at);
    let low_value = digit_value(first);
    let high_value = digit_value(high[at]);
    if low_value + 1 < high_value {
        draft.push(middle_digit(low_value, high_value));
    } else if at + 1 < high.len() {
        draft.push(high[at]);
    } else {
        draft.push(first);
        push_midpoint_above(draft, low, at + 1);
    }
}
