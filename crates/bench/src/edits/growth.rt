//! Times documents that grow.

use crate::drawings::extend;
use crate::edits::layouts::{Layout, SQUARE, document};
use crate::fault::Fault;
use crate::shapes::Drawing;
use crate::times::{now, since};
use canvas_doc::Document;
use std::alloc::Global;
use std::time::{Clock, Duration};

/// How often a growth is timed.
const ROUNDS: u32 = 21;

/// How many records the documents have that are timed while they grow.
const SIZES: [u32; 5] = [10, 100, 1_000, 4_096, 16_384];

/// Times how documents grow.
pub fn time_all<R: Clock + Print>(rt: &R, alloc: Global) -> Result<(), Fault> {
    for records in &SIZES {
        time_size(rt, alloc, *records)?;
    }
    Ok(())
}

/// Times how a document grows to so many records.
fn time_size<R: Clock + Print>(rt: &R, alloc: Global, records: u32) -> Result<(), Fault> {
    let more = (records / 8).max(1);
    let small = document(alloc, Layout::Grown, records.saturating_sub(more))?;
    time_growth(rt, alloc, &small, records, more)
}

/// Prints the least of some mean times of a new shape while a document grows to so many records by
/// its last eighth. One length alone says little: what a new shape costs goes up and down with the
/// lengths of the parts at the lists' ends.
fn time_growth<R: Clock + Print>(
    rt: &R,
    alloc: Global,
    small: &Document,
    records: u32,
    more: u32,
) -> Result<(), Fault> {
    let mut least = u64::MAX;
    for _ in 0..ROUNDS {
        least = least.min(time_round(rt, alloc, small, more)?);
    }
    print_growth(rt, records, least / u64::from(more.max(1)), more)
}

fn print_growth<R: Print>(rt: &R, records: u32, each: u64, more: u32) -> Result<(), Fault> {
    let each = Duration::from_nanos(each);
    println!(rt; "grown     {records:>6} growing {each:?} a shape, the last {more}")?;
    Ok(())
}

/// The time in which a document gets so many more shapes, one after another.
fn time_round<R: Clock>(rt: &R, alloc: Global, small: &Document, more: u32) -> Result<u64, Fault> {
    let mut drawing = Drawing::of(alloc, small.try_clone(alloc)?);
    let start = now(rt);
    let grown = extend(&mut drawing, SQUARE, more);
    let took = since(rt, start);
    drop(drawing);
    grown?;
    Ok(took)
}
