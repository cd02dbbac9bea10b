//! Times edits and looks through the seats of a line.

ghost use Rattle.std.specs.Prelude.{◌≡◌};

mod edits;
mod looks;

use crate::drawings::{Part, drawn};
use crate::fault::Fault;
use crate::shapes::Drawing;
use canvas_doc::Document;
use canvas_line::{Line, Lines, Opened, Seat};
use std::alloc::Global;
use std::marker::Brand;
use std::sync::Wait;
use std::thread::Threads;
use std::time::Clock;

/// What is timed at a line.
#[derive(Clone, Copy)]
enum Work {
    /// Edits through one seat.
    Edits,
    /// Looks that find nothing new, by one seat after another.
    LooksInTurn,
    /// Such looks by each seat on a thread of its own, while so many of the first seats edit.
    AtOnce(usize),
}

/// What is timed at lines of 100 records, with how many seats: looks in turn, looks at once, looks
/// beside an editor, and edits at once.
const WORKS: [(u32, Work); 12] = [
    (1, Work::LooksInTurn),
    (4, Work::LooksInTurn),
    (16, Work::LooksInTurn),
    (1, Work::AtOnce(0)),
    (4, Work::AtOnce(0)),
    (16, Work::AtOnce(0)),
    (2, Work::AtOnce(1)),
    (4, Work::AtOnce(1)),
    (1, Work::AtOnce(1)),
    (2, Work::AtOnce(2)),
    (4, Work::AtOnce(4)),
    (8, Work::AtOnce(8)),
];

/// Times each kind of work.
pub fn time_all<R: Clock + Print + Threads + Wait + Sync>(
    rt: &R,
    alloc: Global,
) -> Result<(), Fault> {
    time_edits(rt, alloc, 100)?;
    time_edits(rt, alloc, 4096)?;
    for (seats, work) in &WORKS {
        time(rt, alloc, 100, *seats, *work)?;
    }
    Ok(())
}

/// Times edits of a document of so many records, at no line and through a seat.
fn time_edits<R: Clock + Print + Threads + Wait + Sync>(
    rt: &R,
    alloc: Global,
    records: u32,
) -> Result<(), Fault> {
    time_alone(rt, alloc, records)?;
    time(rt, alloc, records, 1, Work::Edits)
}

/// Times edits of a document of so many records at no line.
fn time_alone<R: Clock + Print>(rt: &R, alloc: Global, records: u32) -> Result<(), Fault> {
    let mut drawing = document(alloc, records)?;
    edits::time_alone(rt, &mut drawing)
}

/// A document of so many squares on the page.
fn document(alloc: Global, records: u32) -> Result<Drawing, Fault> {
    drawn(alloc, 0, Part::Square(2), records)
}

/// Opens a line of so many records and times one kind of work there.
fn time<R: Clock + Print + Threads + Wait + Sync>(
    rt: &R,
    alloc: Global,
    records: u32,
    seats: u32,
    work: Work,
) -> Result<(), Fault> {
    if let Work::AtOnce(editors) = work {
        println!(rt; "{seats:>2} seats, {editors} of which edit:")?;
    }
    let Drawing { document, .. } = document(alloc, records)?;
    time_at::<Brand, R>(rt, alloc, Opened::new(), document, seats, work)
}

fn time_at<B: Lines + Send + Sync, R: Clock + Print + Threads + Wait + Sync>(
    rt: &R,
    alloc: Global,
    opened: Opened,
    document: Document,
    seats: u32,
    work: Work,
) -> Result<(), Fault>
    requires { B.line 1
        ≡ record { book = opened.head.word.book; opening = document; limit = 1000000 } }
{
    let records = document.count();
    let seats = Line::open::<B, R>(rt, alloc, opened, 1, document, seats, 1_000_000)?;
    run(rt, alloc, seats, records, work)
}

fn run<B: Lines + Send + Sync, R: Clock + Print + Threads + Wait + Sync>(
    rt: &R,
    alloc: Global,
    mut seats: Vec<Seat<B>>,
    records: usize,
    work: Work,
) -> Result<(), Fault> {
    match work {
        Work::Edits => edits::time_by_seat(rt, alloc, seats, records),
        Work::LooksInTurn => looks::time_in_turn(rt, &mut seats),
        Work::AtOnce(editors) => looks::time_at_once(rt, alloc, seats, editors),
    }
}
