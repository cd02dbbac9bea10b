//! Polygons on whole pixels.

ghost use Rattle.std.specs.Prelude.{List, [], ◌++◌, OnOk, OnErr, All, length, take, false, ◌≡◌, ◌≤◌, ◌<◌, ◌^◌, ◌*◌, ◌+◌, ℕ, ℤ, unsigned_abs, ◌-ℤ◌, ◌*ℤ◌, ◌+ℤ◌, ◌≤ℤ◌, ◌<ℤ◌, pos, int_le, int_lt, true};
ghost use Rattle.canvas_plane.specs.Motion.{size_of};
ghost use Rattle.canvas_shape.specs.Edges.{crosses_row, is_right_of, counts, is_odd_along, is_in_polygon};
ghost use Rattle.canvas_shape.specs.Bounds.{bounds_of, dot_of, grown_to};
ghost use Rattle.canvas_plane.specs.Page.{is_in};
ghost use Rattle.std.specs.Int.{int_min, int_max};
ghost use Rattle.canvas_shape.specs.Cuts.{is_odd, is_odd_above, piece, spans_of, AddsCut, AreCuts, AreWithin};
ghost use Rattle.canvas_shape.specs.Spans.{AppendsSpans, within};
ghost use lib.IntN.{neg_ℤ};

use crate::Span;
use crate::parts::Row;
use crate::spans::clamped;
use canvas_code::OutOfMemory;
use canvas_plane::{PageBox, Point};
use std::alloc::Global;
use std::marker::Model;

/// Memory for the cuts of a row, to be kept from row to row: only a row with more cuts than any
/// before makes it grow. It is seen as the cuts that were left in it, which no later row counts.
#[derive(Drop)]
pub struct Cuts {
    places: Vec<u32>,
}

impl Model for Cuts {
    ghost use Rattle.std.specs.Prelude.{List, ℕ};

    ghost Value = { List ℕ };

    ghost view = { λ cuts. cuts.places.items };
}

impl Cuts {
    /// No cut, and no memory yet.
    pub fn new(alloc: Global) -> Cuts
        ensures { result ≡ [] }
    {
        Cuts {
            places: Vec::new(alloc),
        }
    }
}

/// Appends the pixels of a polygon in the row `y`, from `left` up to `right`.
pub(crate) fn polygon_spans(
    cuts: &mut Cuts,
    points: &[Point],
    row: Row,
    out: &mut Vec<Span>,
) -> Result<(), OutOfMemory>
    requires some { 0 < length points.now }
    requires near { All (λ p. size_of p ≤ 2 ^ 27) points.now }
    ensures ok { OnOk result
        (AppendsSpans out.old.items out.new.items
        (within row.left row.right (λ x. is_in_polygon points.now x row.y))) }
    ensures err { OnErr result (out.new.items ≡ out.old.items) }
{
    let places = &mut cuts.places;
    places.clear();
    collect(points, row, places)?;
    places.sort_unstable();
    append_spans(places, row, out)
}

/// Whether the polygon holds a pixel.
pub(crate) fn polygon_holds(points: &[Point], x: i32, y: i32) -> bool
    requires some { 0 < length points.now }
    requires near { All (λ p. size_of p ≤ 2 ^ 27) points.now }
    ensures { result ≡ is_in_polygon points.now x y }
{
    let mut inside = false;
    let mut from = last(points);
    for to in points {
        inside = inside != edge_counts(from, *to, x, y);
        from = *to;
    }
    inside
}

pub(crate) fn edge_counts(p: Point, q: Point, x: i32, y: i32) -> bool
    requires near { (size_of p ≤ 2 ^ 27) × (size_of q ≤ 2 ^ 27) }
    ensures { result ≡ counts p q x y }
{
    if crosses(p, q, y) {
        is_before(x, threshold(p, q, y))
    } else {
        false
    }
}

fn is_before(x: i32, edge: i64) -> bool
    ensures { result ≡ int_lt x edge }
{
    i64::from(x) < edge
}

/// The box of points, from the least to the greatest coordinates. It holds every pixel of the
/// polygon with these vertices.
#[inline(always)]
pub fn bounds(points: &[Point]) -> PageBox
    requires { 0 < length points.now }
    ensures value { result ≡ bounds_of points.now }
    ensures has_all { (x y : ℤ) → is_in_polygon points.now x y ≡ true → is_in result x y ≡ true }
{
    let mut bounds = dot(points[0]);
    for point in points {
        bounds = grown(bounds, *point);
    }
    bounds
}

fn dot(p: Point) -> PageBox
    ensures { result ≡ dot_of p }
{
    PageBox {
        left: p.x,
        top: p.y,
        right: p.x,
        bottom: p.y,
    }
}

fn grown(b: PageBox, p: Point) -> PageBox
    ensures { result ≡ grown_to b p }
{
    PageBox {
        left: lesser(b.left, p.x),
        top: lesser(b.top, p.y),
        right: greater(b.right, p.x),
        bottom: greater(b.bottom, p.y),
    }
}

fn lesser(a: i64, b: i64) -> i64
    ensures { result ≡ int_min a b }
{
    a.min(b)
}

fn greater(a: i64, b: i64) -> i64
    ensures { result ≡ int_max a b }
{
    a.max(b)
}

// The places of a row at which the edges stop to count.
fn collect(points: &[Point], row: Row, cuts: &mut Vec<u32>) -> Result<(), OutOfMemory>
    requires some { 0 < length points.now }
    requires near { All (λ p. size_of p ≤ 2 ^ 27) points.now }
    requires empty { cuts.old.items ≡ [] }
    ensures { OnOk result
        (AreCuts row.left row.right cuts.new.items (λ x. is_in_polygon points.now x row.y)) }
{
    let mut from = last(points);
    for to in points {
        add_cut(from, *to, row, cuts)?;
        from = *to;
    }
    Ok(())
}

pub(crate) fn last(points: &[Point]) -> Point
    requires some { 0 < length points.now }
    requires near { All (λ p. size_of p ≤ 2 ^ 27) points.now }
    ensures value { (x y : ℤ) → is_odd_along result points.now x y ≡ is_in_polygon points.now x y }
    ensures near { size_of result ≤ 2 ^ 27 }
{
    points[points.len() - 1]
}

// Notes where an edge stops to count, if it counts in this row.
fn add_cut(from: Point, to: Point, row: Row, cuts: &mut Vec<u32>) -> Result<(), OutOfMemory>
    requires near { (size_of from ≤ 2 ^ 27) × (size_of to ≤ 2 ^ 27) }
    ensures { OnOk result
        (AddsCut row.left row.right cuts.old.items cuts.new.items (λ x. counts from to x row.y)) }
{
    if crosses(from, to, row.y) {
        cuts.push(edge_cut(from, to, row))?;
    }
    Ok(())
}

// The place in the row at which an edge stops to count.
fn edge_cut(p: Point, q: Point, row: Row) -> u32
    requires near { (size_of p ≤ 2 ^ 27) × (size_of q ≤ 2 ^ 27) }
    requires crossing { crosses_row p q row.y ≡ true }
    ensures value { (x : ℤ) → row.left ≤ℤ x → x <ℤ row.right
        → counts p q x row.y ≡ int_lt x (row.left +ℤ pos result) }
    ensures bound { (row.left +ℤ pos result) ≤ℤ row.right }
{
    place(threshold(p, q, row.y), row)
}

fn place(edge: i64, row: Row) -> u32
    ensures value { (x : ℤ) → row.left ≤ℤ x → x <ℤ row.right
        → int_lt x edge ≡ int_lt x (row.left +ℤ pos result) }
    ensures bound { (row.left +ℤ pos result) ≤ℤ row.right }
{
    distance(row.left, clamped(row.left, edge, row.right))
}

fn distance(from: i32, to: i32) -> u32
    requires { from ≤ℤ to }
    ensures { from +ℤ pos result ≡ to }
{
    (i64::from(to) - i64::from(from)) as u32
}

// Appends the spans between cuts, or leaves all as it was.
fn append_spans(cuts: &[u32], row: Row, out: &mut Vec<Span>) -> Result<(), OutOfMemory>
    requires { AreWithin row.left row.right cuts.now }
    ensures ok { OnOk result
        (out.new.items ≡ out.old.items ++ spans_of row.left (is_odd (length cuts.now)) 0 cuts.now) }
    ensures err { OnErr result (out.new.items ≡ out.old.items) }
{
    let before = out.len();
    match push_spans(cuts, row, out) {
        Ok(()) => Ok(()),
        Err(fault) => {
            out.truncate(before);
            Err(fault)
        }
    }
}

fn push_spans(cuts: &[u32], row: Row, out: &mut Vec<Span>) -> Result<(), OutOfMemory>
    requires { AreWithin row.left row.right cuts.now }
    ensures ok { OnOk result
        (out.new.items ≡ out.old.items ++ spans_of row.left (is_odd (length cuts.now)) 0 cuts.now) }
    ensures kept { take (length out.old.items) out.new.items ≡ out.old.items }
{
    let mut inside = is_odd_size(cuts.len());
    let mut start = 0;
    for cut in cuts {
        push_piece(row, inside, start, *cut, out)?;
        inside = !inside;
        start = *cut;
    }
    Ok(())
}

fn is_odd_size(size: usize) -> bool
    ensures { result ≡ is_odd size }
{
    size % 2 == 1
}

pub(crate) fn push_piece(
    row: Row,
    inside: bool,
    start: u32,
    cut: u32,
    out: &mut Vec<Span>,
) -> Result<(), OutOfMemory>
    requires first { (row.left +ℤ pos start) ≤ℤ row.right }
    requires second { (row.left +ℤ pos cut) ≤ℤ row.right }
    ensures ok { OnOk result (out.new.items ≡ out.old.items ++ piece row.left inside start cut) }
    ensures err { OnErr result (out.new.items ≡ out.old.items) }
    ensures want { OnErr result (start < cut) }
{
    if inside && start < cut {
        out.push(span_between(row, start, cut))?;
    }
    Ok(())
}

fn span_between(row: Row, start: u32, cut: u32) -> Span
    requires first { (row.left +ℤ pos start) ≤ℤ row.right }
    requires second { (row.left +ℤ pos cut) ≤ℤ row.right }
    ensures { result ≡ record { from = row.left +ℤ pos start; to = row.left +ℤ pos cut } }
{
    Span {
        from: pixel(row, start),
        to: pixel(row, cut),
    }
}

fn pixel(row: Row, at: u32) -> i32
    requires { (row.left +ℤ pos at) ≤ℤ row.right }
    ensures { result ≡ row.left +ℤ pos at }
{
    (i64::from(row.left) + at as i64) as i32
}

// Whether one end of an edge is above the row's centre line, and the other is not.
fn crosses(p: Point, q: Point, y: i32) -> bool
    ensures { result ≡ crosses_row p q y }
{
    is_above(p.y, y) != is_above(q.y, y)
}

fn is_above(at: i64, y: i32) -> bool
    ensures { result ≡ int_le at y }
{
    at <= i64::from(y)
}

// The first x at which the edge is no longer to the right of the pixel's centre.
fn threshold(p: Point, q: Point, y: i32) -> i64
    requires near { (size_of p ≤ 2 ^ 27) × (size_of q ≤ 2 ^ 27) }
    requires crossing { crosses_row p q y ≡ true }
    ensures { (x : ℤ) → is_right_of p q x y ≡ int_lt x result }
{
    let lean = lean(p, q, y);
    if p.y < q.y {
        first_past(p.x, lean, rise(p.y, q.y))
    } else {
        first_past(p.x, negated(lean), rise(q.y, p.y))
    }
}

pub(crate) fn lean(p: Point, q: Point, y: i32) -> i64
    requires near { (size_of p ≤ 2 ^ 27) × (size_of q ≤ 2 ^ 27) }
    ensures value { result ≡ (pos 2 *ℤ y +ℤ pos 1 -ℤ pos 2 *ℤ p.y) *ℤ (q.x -ℤ p.x) }
    ensures bound { unsigned_abs result ≤ 2 ^ 61 }
{
    product(below(y, p.y), minus(q.x, p.x))
}

fn below(y: i32, top: i64) -> i64
    requires { unsigned_abs top ≤ 2 ^ 27 }
    ensures value { result ≡ pos 2 *ℤ y +ℤ pos 1 -ℤ pos 2 *ℤ top }
    ensures bound { unsigned_abs result ≤ 2 ^ 33 }
{
    less(centre(y), doubled(top))
}

fn centre(at: i32) -> i64
    ensures value { result ≡ pos 2 *ℤ at +ℤ pos 1 }
    ensures bound { unsigned_abs result ≤ 2 ^ 32 }
{
    2 * i64::from(at) + 1
}

fn doubled(from: i64) -> i64
    requires { unsigned_abs from ≤ 2 ^ 27 }
    ensures value { result ≡ pos 2 *ℤ from }
    ensures bound { unsigned_abs result ≤ 2 ^ 28 }
{
    2 * from
}

fn less(a: i64, b: i64) -> i64
    requires first { unsigned_abs a ≤ 2 ^ 32 }
    requires second { unsigned_abs b ≤ 2 ^ 28 }
    ensures value { result ≡ a -ℤ b }
    ensures bound { unsigned_abs result ≤ 2 ^ 33 }
{
    a - b
}

pub(crate) fn minus(a: i64, b: i64) -> i64
    requires first { unsigned_abs a ≤ 2 ^ 27 }
    requires second { unsigned_abs b ≤ 2 ^ 27 }
    ensures value { result ≡ a -ℤ b }
    ensures bound { unsigned_abs result ≤ 2 ^ 28 }
{
    a - b
}

fn product(a: i64, b: i64) -> i64
    requires first { unsigned_abs a ≤ 2 ^ 33 }
    requires second { unsigned_abs b ≤ 2 ^ 28 }
    ensures value { result ≡ a *ℤ b }
    ensures bound { unsigned_abs result ≤ 2 ^ 61 }
{
    a * b
}

pub(crate) fn negated(a: i64) -> i64
    requires { unsigned_abs a ≤ 2 ^ 61 }
    ensures value { result ≡ neg_ℤ a }
    ensures bound { unsigned_abs result ≤ 2 ^ 61 }
{
    -a
}

pub(crate) fn rise(from: i64, to: i64) -> u64
    requires order { from <ℤ to }
    requires first { unsigned_abs from ≤ 2 ^ 27 }
    requires second { unsigned_abs to ≤ 2 ^ 27 }
    ensures value { pos result ≡ to -ℤ from }
    ensures bound { (0 < result) × (result ≤ 2 ^ 28) }
{
    (to - from) as u64
}

// The first place at which a line that leans so far over a height is passed.
fn first_past(x: i64, lean: i64, rise: u64) -> i64
    requires near { unsigned_abs x ≤ 2 ^ 27 }
    requires small { unsigned_abs lean ≤ 2 ^ 61 }
    requires height { (0 < rise) × (rise ≤ 2 ^ 28) }
    ensures { (z : ℤ)
        → int_lt z result
        ≡ int_lt (pos 0) ((pos 2 *ℤ x -ℤ pos 2 *ℤ z -ℤ pos 1) *ℤ pos rise +ℤ lean) }
{
    plus(x, half_floor(raised(lean, rise), rise))
}

pub(crate) fn raised(lean: i64, rise: u64) -> i64
    requires small { unsigned_abs lean ≤ 2 ^ 61 }
    requires height { (0 < rise) × (rise ≤ 2 ^ 28) }
    ensures value { result ≡ (lean +ℤ pos rise) -ℤ pos 1 }
    ensures bound { unsigned_abs result ≤ 2 ^ 62 }
{
    lean + rise as i64 - 1
}

pub(crate) fn plus(a: i64, b: i64) -> i64
    requires first { unsigned_abs a ≤ 2 ^ 36 }
    requires second { unsigned_abs b ≤ 2 ^ 62 + 2 ^ 48 }
    ensures value { result ≡ a +ℤ b }
    ensures bound { unsigned_abs result ≤ unsigned_abs a + unsigned_abs b }
{
    a + b
}

// The quotient by twice `b`, rounded down.
pub(crate) fn half_floor(a: i64, b: u64) -> i64
    requires small { unsigned_abs a ≤ 2 ^ 62 }
    requires divisor { (0 < b) × (b ≤ 2 ^ 28) }
    ensures least { ((result *ℤ pos b) +ℤ (result *ℤ pos b)) ≤ℤ a }
    ensures most { a <ℤ (((result *ℤ pos b) +ℤ (result *ℤ pos b)) +ℤ (pos b +ℤ pos b)) }
    ensures bound { unsigned_abs result ≤ unsigned_abs a }
{
    if 0 <= a {
        quotient(a as u64, 2 * b) as i64
    } else {
        flipped(quotient(flipped_size(a), 2 * b))
    }
}

fn quotient(a: u64, b: u64) -> u64
    requires { 0 < b }
    ensures least { result * b ≤ a }
    ensures most { a < result * b + b }
    ensures bound { result ≤ a }
{
    a / b
}

fn flipped_size(a: i64) -> u64
    requires { a <ℤ pos 0 }
    ensures value { pos result ≡ neg_ℤ a -ℤ pos 1 }
    ensures bound { result < 2 ^ 63 }
{
    (-1 - a) as u64
}

fn flipped(a: u64) -> i64
    requires { a < 2 ^ 62 }
    ensures { result ≡ neg_ℤ (pos a) -ℤ pos 1 }
{
    -1 - a as i64
}
