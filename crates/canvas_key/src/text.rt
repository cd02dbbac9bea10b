//! Which texts are keys.
ghost use Rattle.std.specs.Prelude.{◌≡◌, ◌≤◌, true, length, drop, slice_index};
ghost use Rattle.std.specs.List.{list_all};
ghost use Rattle.canvas_key.specs.Digit.{is_digit};
ghost use Rattle.canvas_key.specs.Text.{is_head, integer_part_len, least_part, is_same, ends_in_zero, key_fault};

use super::digit::is_digit;
use super::{KEY_LIMIT, KeyFault};
use arrayvec::ArrayVec;

// `A` and 26 zeros.
pub(crate) const LEAST_PART: [u8; 27] = *b"A00000000000000000000000000";

// Why a text is no key, if it is none.
pub(crate) fn fault_of(text: &[u8]) -> Option<KeyFault>
    ensures { result ≡ key_fault text.now }
{
    if text.len() > KEY_LIMIT {
        return Some(KeyFault::KeyTooLong);
    }
    let head = head_of(text);
    if !is_head(head) {
        Some(KeyFault::BadHead)
    } else if text.len() < integer_part_len(head) {
        Some(KeyFault::TooShort)
    } else if !are_digits(&text[1..]) {
        Some(KeyFault::BadDigit)
    } else if is_least(text) {
        Some(KeyFault::LeastInteger)
    } else if ends_in_zero(text) {
        Some(KeyFault::LastZero)
    } else {
        None
    }
}

// The first byte, or 0 where there is none.
fn head_of(text: &[u8]) -> u8
    ensures { result ≡ slice_index text.now 0 }
{
    if text.is_empty() { 0 } else { text[0] }
}

// Whether a byte is a letter.
fn is_head(byte: u8) -> bool
    ensures { result ≡ is_head byte }
{
    matches!(byte, b'A'..=b'Z' | b'a'..=b'z')
}

// The length of the integer part with this head.
pub(crate) fn integer_part_len(head: u8) -> usize
    requires { is_head head ≡ true }
    ensures value { result ≡ integer_part_len head }
    ensures short { result ≤ 27 }
{
    if head >= b'a' {
        usize::from(head - b'a') + 2
    } else {
        usize::from(b'Z' - head) + 2
    }
}

// Whether all bytes are digits.
fn are_digits(text: &[u8]) -> bool
    ensures { result ≡ list_all is_digit text.now }
{
    text.iter().all(|byte| is_digit(*byte))
}

// Whether a text is the least integer part alone.
pub(crate) fn is_least(text: &[u8]) -> bool
    ensures { result ≡ is_same text.now least_part }
{
    text == &LEAST_PART[..]
}

// Whether the last byte is a `0` past the integer part.
fn ends_in_zero(text: &[u8]) -> bool
    requires { is_head (slice_index text.now 0) ≡ true }
    ensures { result ≡ ends_in_zero text.now }
{
    text.len() > integer_part_len(head_of(text)) && text[text.len() - 1] == b'0'
}

// A copy of a text that is no longer than a key.
pub(crate) fn text_of(text: &[u8]) -> ArrayVec<u8, KEY_LIMIT>
    requires { length text.now ≤ 128 }
    ensures { result.items ≡ text.now }
{
    let mut copy = ArrayVec::new();
    // It has room for any key.
    let _fits = copy.try_extend_from_slice(text);
    copy
}
