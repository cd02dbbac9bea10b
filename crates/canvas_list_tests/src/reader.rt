//! Lists as a reader reads them, beside plain lists.

ghost use Rattle.std.specs.Prelude.{◌≡◌, ◌≤◌, length};

use crate::dice::Dice;
use crate::numbers::{Numbers, Span};

/// Whether a list has as many numbers as a plain one, and a reader gives them in order.
pub(crate) fn reads_on(list: &Numbers, plain: &[u32]) -> bool {
    if list.len() != plain.len() {
        return false;
    }
    let mut reader = list.reader();
    let mut same = true;
    for at in 0..plain.len() {
        same &= reader.at(at).value().value == plain[at];
    }
    same
}

/// Whether a reader gives them at positions that the dice pick, and at those beside them.
pub(crate) fn reads_about(list: &Numbers, plain: &[u32], dice: &mut Dice) -> bool {
    let mut reader = list.reader();
    let len = list.len().min(plain.len());
    let mut same = true;
    for round in 0..4_000u32 {
        if len > 0 {
            let at = dice.below(len);
            let at = if round % 4 == 0 { at } else { at / 64 };
            same &= reader.at(at).value().value == plain[at];
        }
    }
    same
}

/// Whether walks through a list and through a part of it come to just the numbers that some spans have.
pub(crate) fn meets(list: &Numbers, plain: &[u32]) -> bool
    requires { length list.now ≡ length plain.now }
{
    let len = plain.len();
    let third = len / 3;
    let mut same = true;
    for span in &some_spans(plain) {
        same &= meets_between(list, plain, 0, len, span);
        same &= meets_between(list, plain, third, len - third, span);
    }
    same
}

// Spans that have none of some numbers, one of them, those between two of them, and all.
fn some_spans(plain: &[u32]) -> [Span; 4] {
    let third = plain.len() / 3;
    let one = plain.get(third).copied().unwrap_or(0);
    let other = plain.get(2 * third).copied().unwrap_or(0);
    [
        Span::of(1, 0),
        Span::of(one, one),
        Span::of(one.min(other), one.max(other)),
        Span::of(0, u32::MAX),
    ]
}

// Whether a walk comes to just the positions of a part whose numbers a span has, in order.
fn meets_between(list: &Numbers, plain: &[u32], from: usize, end: usize, sought: &Span) -> bool
    requires order { from ≤ end }
    requires list { end ≤ length list.now }
    requires plain { end ≤ length plain.now }
{
    let mut reader = list.reader();
    let mut next = reader.next_meeting(from, end, sought);
    let mut same = true;
    for at in from..end {
        let is_next = at == next;
        same &= sought.has(plain[at]) == is_next;
        if is_next {
            next = reader.next_meeting(at + 1, end, sought);
        }
    }
    same & (next == end)
}
