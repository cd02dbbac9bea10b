//! How many items the parts of a table have: chunks in a block, blocks in a list.

ghost use Rattle.std.specs.Prelude.{ℕ, ◌≡◌, ◌<◌, ◌≤◌, ◌^◌, IfSome, true, length, slice_index_or, sum_by, take};
ghost use Rattle.canvas_list.specs.Changed.{IsKept};
ghost use Rattle.canvas_list.specs.Chunks.{IsPartAbout, IsSpot};

use crate::hint::Hint;
use crate::in_place::ItemChange;
use crate::sizes::PartSizes;

/// A part of a table, which knows how many items it has.
pub(crate) trait Counted {
    ghost size: { Self → ℕ };

    // It has room for one more item.
    ghost has_room: { Self → Type 0 };

    /// How many items there are.
    fn count(&self) -> usize
        ensures count { result ≡ size self.now }
        ensures some { 0 < size self.now }
        ensures few { result < 2 ^ 32 };

    /// The hint of the first item, as it was when that item came there.
    fn hint(&self) -> Hint;

    /// Whether one more item may come to it, where parts get so large.
    fn takes_more(&self, sizes: PartSizes) -> bool
        ensures { result ≡ true → has_room self.now };

    /// Whether it and one beside it are so short that they are to be one.
    fn is_short_beside(&self, other: &Self, sizes: PartSizes) -> bool;
}

/// A chunk or a block, by its number, and where it starts.
#[derive(Clone, Copy)]
pub(crate) struct Spot {
    pub(crate) chunk: usize,
    pub(crate) start: usize,
}

/// The part that has a position, or the last one where the position stands behind all.
pub(crate) fn spot_of<P: Counted>(parts: &[P], at: usize) -> Spot
    requires { 0 < length parts.now }
    ensures { IsSpot P.size parts.now at result.chunk result.start }
{
    let last = parts.len() - 1;
    let mut chunk = 0;
    let mut offset = at;
    'pass: while chunk < last && parts[chunk].count() <= offset {
        offset -= parts[chunk].count();
        chunk += 1;
    }
    Spot {
        chunk,
        start: at - offset,
    }
}

/// The part in which the items that come before a hint end, most likely: the last one whose own hint comes
/// before it, or the first.
pub(crate) fn spot_near<P: Counted>(parts: &[P], hint: Hint) -> Spot
    requires some { 0 < length parts.now }
    requires few { sum_by P.size parts.now < 2 ^ 32 }
    ensures within { result.chunk < length parts.now }
    ensures start { result.start ≡ sum_by P.size (take result.chunk parts.now) }
{
    let last = parts.len() - 1;
    let mut chunk = 0;
    let mut start = 0;
    'pass: while chunk < last && parts[chunk + 1].hint().is_before(hint) {
        start += parts[chunk].count();
        chunk += 1;
    }
    Spot { chunk, start }
}

/// Whether the first of some parts begins with an item that most likely comes before a hint.
#[inline(always)]
pub(crate) fn begin_before<P: Counted>(parts: &[P], hint: Hint) -> bool
    ensures { result ≡ true → 0 < length parts.now }
{
    match parts.first() {
        Some(first) => first.hint().is_before(hint),
        None => false,
    }
}

/// How many items some parts have.
pub(crate) fn count_of<P: Counted>(parts: &[P]) -> usize
    requires { sum_by P.size parts.now < 2 ^ 32 }
    ensures { result ≡ sum_by P.size parts.now }
{
    let mut count = 0;
    for part in parts {
        count += part.count();
    }
    count
}

/// The part in which a change at a position is made in place, if there is such a one: it keeps an
/// item and is not to be one with a part beside it, or has room for one more.
pub(crate) fn spot_for<P: Counted, T>(
    parts: &[P],
    at: usize,
    change: &ItemChange<T>,
    sizes: PartSizes,
) -> Option<Spot>
    ensures spot { IfSome result (λ spot. IsSpot P.size parts.now at spot.chunk spot.start) }
    ensures kept { IfSome result
        (λ spot. (part : P) → part ≡ slice_index_or parts.now spot.chunk part
        → IsKept change.now (P.size part) (P.has_room part)) }
{
    if parts.is_empty() {
        return None;
    }
    let spot = spot_of(parts, at);
    if keeps_parts(parts, spot.chunk, change, sizes) {
        Some(spot)
    } else {
        None
    }
}

/// Whether parts stay parts where an item of one is changed.
pub(crate) fn keeps_parts<P: Counted, T>(
    parts: &[P],
    part: usize,
    change: &ItemChange<T>,
    sizes: PartSizes,
) -> bool
    requires { part < length parts.now }
    ensures { result ≡ true → (p : P) → p ≡ slice_index_or parts.now part p
        → IsKept change.now (P.size p) (P.has_room p) }
{
    match change {
        ItemChange::Replace(_) => true,
        ItemChange::Remove => 1 < parts[part].count() && !is_short(parts, part, sizes),
        ItemChange::Insert(_) => parts[part].takes_more(sizes),
    }
}

// Whether a part and one beside it are to be one.
fn is_short<P: Counted>(parts: &[P], part: usize, sizes: PartSizes) -> bool
    requires { part < length parts.now }
{
    let about = short_about(parts, part, sizes);
    about.end - about.first > 1
}

/// Some parts side by side, from the first up to the end, and where they start.
#[derive(Clone, Copy)]
pub(crate) struct PartSpan {
    pub(crate) first: usize,
    pub(crate) end: usize,
    pub(crate) start: usize,
}

/// The part that has a position, with one beside it if both are short; none where there are no parts.
pub(crate) fn part_about<P: Counted>(parts: &[P], at: usize, sizes: PartSizes) -> PartSpan
    requires { sum_by P.size parts.now < 2 ^ 32 }
    ensures { IsPartAbout P.size parts.now at result.first result.end result.start }
{
    if parts.is_empty() {
        return PartSpan {
            first: 0,
            end: 0,
            start: 0,
        };
    }
    let about = short_about(parts, spot_of(parts, at).chunk, sizes);
    PartSpan {
        first: about.first,
        end: about.end,
        start: count_of(&parts[..about.first]),
    }
}

// Some parts, from the first up to the end.
#[derive(Clone, Copy)]
struct Span {
    first: usize,
    end: usize,
}

// A part, with one beside it if both are short.
fn short_about<P: Counted>(parts: &[P], part: usize, sizes: PartSizes) -> Span
    requires { part < length parts.now }
    ensures first { result.first ≤ part }
    ensures end { part < result.end }
    ensures within { result.end ≤ length parts.now }
{
    if part > 0 && parts[part].is_short_beside(&parts[part - 1], sizes) {
        return Span {
            first: part - 1,
            end: part + 1,
        };
    }
    if part + 1 < parts.len() && parts[part].is_short_beside(&parts[part + 1], sizes) {
        return Span {
            first: part,
            end: part + 2,
        };
    }
    Span {
        first: part,
        end: part + 1,
    }
}
