//! Spans, clones and requests for which memory may be refused: run with each allocation refused in
//! turn, they answer want of memory and leave what was there, or answer what they answer with ample
//! memory.

use crate::asserts::{holds, holds_at};
use crate::random_leaves::polygon;
use canvas_code::OutOfMemory;
use canvas_plane::Point;
use canvas_record::Edit;
use canvas_shape::{Carried, Colour, Kind, Points, Span};
use canvas_wire::{Request, WireFault, read_request};
use std::alloc::Global;
use std::process::Abort;
use std::test::Fail;

static TRIANGLE: [Point; 3] = [
    Point { x: 0, y: 0 },
    Point { x: 4, y: 0 },
    Point { x: 0, y: 4 },
];

// Whether the spans of a row are appended, at once or, where memory was wanted, to what was there before.
fn is_appended(alloc: Global, leaf: &Carried<'_>, y: i32, out: &mut Vec<Span>) -> bool {
    let before = out.len();
    match leaf.row_spans(alloc, y, 0, 4, out) {
        Ok(()) => true,
        Err(OutOfMemory) => out.len() == before && leaf.row_spans(alloc, y, 0, 4, out).is_ok(),
    }
}

// The spans of the four rows of the triangle, behind one that was there.
static SPANS: [Span; 4] = [
    Span { from: 7, to: 7 },
    Span { from: 0, to: 3 },
    Span { from: 0, to: 2 },
    Span { from: 0, to: 1 },
];

fn are_all(spans: &[Span]) -> bool {
    spans == SPANS.as_slice()
}

fn assert_appended(rt: &impl Abort, alloc: Global, out: &mut Vec<Span>) {
    let leaf = polygon(&TRIANGLE).expect(rt, "near vertices");
    for y in 0..4 {
        holds_at(rt, "row", i64::from(y), is_appended(alloc, &leaf, y, out));
    }
}

#[test]
fn spans_with_little_memory(rt: HostRuntime) -> Result<(), Fail> {
    let mut out = Vec::new(rt.alloc());
    out.push(Span { from: 7, to: 7 })?;
    assert_appended(&rt, rt.alloc(), &mut out);
    holds(&rt, "all spans", are_all(&out));
    Ok(())
}

fn triangle(alloc: Global) -> Result<Kind, OutOfMemory> {
    let mut points = Points::new(alloc);
    for point in &TRIANGLE {
        points.push(*point)?;
    }
    Ok(Kind::Polygon {
        points,
        fill: Colour([1, 2, 3]),
    })
}

// Whether a clone is equal.
fn is_cloned(alloc: Global, kind: &Kind) -> Result<bool, OutOfMemory> {
    Ok(kind.try_clone(alloc)? == *kind)
}

// Of two answers one at least is no want of memory, and what is none is right.
fn assert_right(
    rt: &impl Abort,
    what: &str,
    first: Result<bool, OutOfMemory>,
    again: Result<bool, OutOfMemory>,
) {
    holds(rt, what, first.is_ok() || again.is_ok());
    holds(rt, "the first", first.unwrap_or(true));
    holds(rt, "the second", again.unwrap_or(true));
}

#[test]
fn clones_with_little_memory(rt: HostRuntime) -> Result<(), Fail> {
    let kind = triangle(rt.alloc())?;
    let first = is_cloned(rt.alloc(), &kind);
    let again = is_cloned(rt.alloc(), &kind);
    assert_right(&rt, "a clone", first, again);
    Ok(())
}

const TRIANGLE_MADE: &[u8] =
    br#"{"verb":"create","shape":{"kind":"polygon","points":[[0,0],[4,0],[0,4]],"fill":"010203"}}"#;

// Whether a line is read as the edit that makes such a kind.
fn is_read(alloc: Global, line: &[u8], wanted: &Kind) -> Result<bool, OutOfMemory> {
    match read_request(alloc, line) {
        Ok(Request::Edit(Edit::Create { kind, .. })) => Ok(kind == *wanted),
        Err(WireFault::OutOfMemory) => Err(OutOfMemory),
        _ => Ok(false),
    }
}

#[test]
fn read_with_little_memory(rt: HostRuntime) -> Result<(), Fail> {
    let kind = triangle(rt.alloc())?;
    let first = is_read(rt.alloc(), TRIANGLE_MADE, &kind);
    let again = is_read(rt.alloc(), TRIANGLE_MADE, &kind);
    assert_right(&rt, "a request", first, again);
    Ok(())
}
