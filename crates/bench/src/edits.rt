//! Times edits of documents, and the restoring of one.

mod each;
mod growth;
pub mod layouts;

use crate::fault::Fault;
use crate::shapes::edited;
use crate::times::{least_and_middle, now, since};
use canvas_doc::{Document, Edit};
use each::Sort;
use layouts::Layout;
use std::alloc::Global;
use std::time::{Clock, Duration};

/// How often each call is timed.
const ROUNDS: usize = 401;

/// How many edits are made in turn for the time of a whole one, so that reading the clock adds little to it.
const IN_TURN: u32 = 8;

/// How often the restoring of a document is timed.
const RESTORED: usize = 21;

/// How many records a document has of which each layout is timed.
const MANY: u32 = 4_096;

/// The documents: what their layout is called, the layout, and how many records they have. Those
/// that are made shape by shape have other numbers too, by which the growth of costs is seen.
const DOCUMENTS: [(&str, Layout, u32); 9] = [
    ("grouped", Layout::Grouped, MANY),
    ("triangles", Layout::Triangles, MANY),
    ("flat", Layout::Flat, MANY),
    ("grown", Layout::Grown, MANY),
    ("deep", Layout::Deep, MANY),
    ("grown", Layout::Grown, 10),
    ("grown", Layout::Grown, 100),
    ("grown", Layout::Grown, 1_000),
    ("grown", Layout::Grown, 16_384),
];

/// Times each edit of each document, and how documents grow.
pub fn time_all<R: Clock + Print>(rt: &R, alloc: Global) -> Result<(), Fault> {
    println!(rt;
        "layout, records, call: least of {ROUNDS} rounds until decided, made, and the new document dropped"
    )?;
    time_documents(rt, alloc)?;
    growth::time_all(rt, alloc)
}

fn time_documents<R: Clock + Print>(rt: &R, alloc: Global) -> Result<(), Fault> {
    for (name, layout, records) in &DOCUMENTS {
        time_document(rt, alloc, name, *layout, *records)?;
    }
    Ok(())
}

/// Times a document's edits, and its restoring where it is one of those of each layout.
fn time_document<R: Clock + Print>(
    rt: &R,
    alloc: Global,
    name: &str,
    layout: Layout,
    records: u32,
) -> Result<(), Fault> {
    time_edits(rt, alloc, name, layout, records)?;
    if records == MANY {
        time_restoring(rt, alloc, name, layout)
    } else {
        Ok(())
    }
}

/// Times each edit of a document of so many records, `Create` of one with a record less.
fn time_edits<R: Clock + Print>(
    rt: &R,
    alloc: Global,
    name: &str,
    layout: Layout,
    records: u32,
) -> Result<(), Fault> {
    time_creation(rt, alloc, (name, layout, records))?;
    let full = layouts::document(alloc, layout, records)?;
    time_others(rt, alloc, &full, (name, layout, records))
}

/// Times `Create` at a document of a record less.
fn time_creation<R: Clock + Print>(
    rt: &R,
    alloc: Global,
    (name, layout, records): (&str, Layout, u32),
) -> Result<(), Fault> {
    let room = layouts::document(alloc, layout, records.saturating_sub(1))?;
    let creation = ("Create", Sort::Create);
    time_sort(rt, alloc, &room, (name, layout, records), creation)
}

/// Times each edit but `Create` of a document.
fn time_others<R: Clock + Print>(
    rt: &R,
    alloc: Global,
    document: &Document,
    layout: (&str, Layout, u32),
) -> Result<(), Fault> {
    for sort in &Sort::OTHERS {
        time_sort(rt, alloc, document, layout, *sort)?;
    }
    Ok(())
}

/// Times one edit of a document.
fn time_sort<R: Clock + Print>(
    rt: &R,
    alloc: Global,
    document: &Document,
    (layout_name, layout, records): (&str, Layout, u32),
    (sort_name, sort): (&str, Sort),
) -> Result<(), Fault> {
    let edit = sort.edit(alloc, layout, records)?;
    time_edit(rt, alloc, (layout_name, sort_name), document, &edit)
}

/// Times `decide`, and `with` behind it, and both with the drop of the document that they made.
fn time_edit<R: Clock + Print>(
    rt: &R,
    alloc: Global,
    names: (&str, &str),
    document: &Document,
    edit: &Edit,
) -> Result<(), Fault> {
    let mut least = (u64::MAX, u64::MAX);
    let mut times = [0; ROUNDS];
    for time in &mut times {
        let (decided, made) = time_call(rt, alloc, document, edit)?;
        least = (least.0.min(decided), least.1.min(made));
        *time = time_in_turn(rt, alloc, document, edit)?;
    }
    print_names(rt, names, document.count())?;
    print_times(rt, least, &mut times)
}

fn print_names<R: Print>(rt: &R, names: (&str, &str), records: usize) -> Result<(), Fault> {
    print!(rt; "{:<9} {records:>6} {:<7} ", names.0, names.1)?;
    Ok(())
}

/// Prints the least times until decided and made, and the least and the middle of the whole ones.
fn print_times<R: Print>(rt: &R, least: (u64, u64), times: &mut [u64]) -> Result<(), Fault> {
    let decided = Duration::from_nanos(least.0);
    let made = Duration::from_nanos(least.1);
    print!(rt; "{decided:?} {made:?} ")?;
    let (whole, middle) = least_and_middle(times);
    print_least_and_middle(rt, whole, middle)
}

fn print_least_and_middle<R: Print>(rt: &R, least: u64, middle: u64) -> Result<(), Fault> {
    let least = Duration::from_nanos(least);
    let middle = Duration::from_nanos(middle);
    println!(rt; "{least:?}, middle {middle:?}")?;
    Ok(())
}

/// The times until an edit is decided, and until it is made.
fn time_call<R: Clock>(
    rt: &R,
    alloc: Global,
    document: &Document,
    edit: &Edit,
) -> Result<(u64, u64), Fault> {
    let start = now(rt);
    let change = document.decide(alloc, edit)?;
    let decided = since(rt, start);
    let after = document.with(alloc, &change);
    let made = since(rt, start);
    drop(change);
    drop(after?);
    Ok((decided, made))
}

/// The mean time in which an edit is decided and made, and the document dropped that it made, some
/// times in turn.
fn time_in_turn<R: Clock>(
    rt: &R,
    alloc: Global,
    document: &Document,
    edit: &Edit,
) -> Result<u64, Fault> {
    let start = now(rt);
    for _ in 0..IN_TURN {
        drop(edited(alloc, document, edit)?);
    }
    Ok(since(rt, start) / u64::from(IN_TURN))
}

fn time_restoring<R: Clock + Print>(
    rt: &R,
    alloc: Global,
    name: &str,
    layout: Layout,
) -> Result<(), Fault> {
    let mut times = [0; RESTORED];
    for time in &mut times {
        *time = time_restoration(rt, alloc, layout)?;
    }
    print_restoring(rt, name, &mut times)
}

fn print_restoring<R: Print>(rt: &R, name: &str, times: &mut [u64]) -> Result<(), Fault> {
    print!(rt; "{name:<9} {MANY:>6} restore ")?;
    let (least, middle) = least_and_middle(times);
    print_least_and_middle(rt, least, middle)
}

/// The time in which a document becomes one of its records, which come in the reverse of their order.
fn time_restoration<R: Clock>(rt: &R, alloc: Global, layout: Layout) -> Result<u64, Fault> {
    let mut records = layouts::records(alloc, layout, MANY)?;
    records.reverse();
    let start = now(rt);
    let document = layouts::restored(alloc, records)?;
    let took = since(rt, start);
    drop(document);
    Ok(took)
}
