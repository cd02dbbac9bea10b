//! From a text to records.
ghost use Rattle.std.specs.Prelude.{◌≡◌, ◌≤◌, ◌∷◌, ◌++◌, [], codes, nat_le, option_map, length, false, None, Some, Err, IfOk, IfSome, OnOk, if◌then◌else◌};
ghost use Rattle.std.specs.Str.{is_utf8};
ghost use Rattle.serde_json.specs.Events.{items_len};
ghost use Rattle.canvas_json.specs.Given.{view, items_view};
ghost use Rattle.canvas_json.specs.Json.{required};
ghost use Rattle.canvas_saved.specs.Faults.{GivesSeen};
ghost use Rattle.canvas_saved.specs.Opened.{format_of, head_of, shapes_of, records_from, contents_of, records_in, records_read};
ghost use Rattle.canvas_record.specs.Contents.{most_records};
ghost use Rattle.canvas_saved.specs.declared.fault.StoreFault.TheVariants.{BadJson};

use crate::fault::StoreFault;
use crate::formats::{Format, Head};
use crate::record::element_of;
use canvas_code::OutOfMemory;
use canvas_json::{Given, GivenItems, has_others, tape_of, u32_at, u32_of};
use canvas_record::Record;
use json::Scratch;
use std::alloc::Global;

/// What a saved text has. Its records need not make a document.
#[derive(Drop)]
pub struct SavedRecords {
    /// The records, in the order of the text.
    pub records: Vec<Record>,
    /// The id that the next new shape gets, 1 at least.
    pub next: u32,
}

// The format that a number names.
#[tactic(auto, unfolding(crate::specs::Opened::format_of))]
fn format_of(value: Given<'_, '_>) -> Option<Format>
    ensures { result ≡ format_of (view value.entry) }
{
    u32_of(value).and_then(Format::numbered)
}

// The format, which has to be there.
fn format_at(saved: &Given<'_, '_>) -> Option<Format>
    ensures { result ≡ required format_of (codes "format") (view saved.now) }
{
    saved.get("format").and_then(format_of)
}

// The format and the next id of a saved document.
#[tactic(auto, unfolding(crate::specs::Opened::head_of))]
fn head_of(saved: &Given<'_, '_>) -> Option<Head>
    ensures value { result ≡ head_of (view saved.now) }
    ensures least { IfSome result (λ head. 1 ≤ head.next) }
{
    let format = format_at(saved)?;
    let next = u32_at(saved, "next")?;
    if next < 1 || has_others(&["format", "next", "shapes"], saved) {
        return None;
    }
    Some(Head { format, next })
}

// How many items there are, if they are at most so many.
fn count_of(most: usize, items: GivenItems<'_, '_>) -> Option<usize>
    ensures { result ≡ (if nat_le (items_len (items_view items.entry)) most
        then Some (items_len (items_view items.entry))
        else None) }
{
    let mut left = items;
    let mut count = 0;
    while let Some(_) = left.next() {
        if count == most {
            return None;
        }
        count += 1;
    }
    Some(count)
}

/// The elements of a saved document's list of shapes, and how many they are.
#[derive(Drop)]
struct Shapes<'t, 'a> {
    items: GivenItems<'t, 'a>,
    count: usize,
}

// The list of shapes, which has to be there and to have at most as many elements as the format has.
#[tactic(auto, unfolding(crate::specs::Opened::shapes_of))]
fn shapes_of<'t, 'a>(format: Format, saved: &Given<'t, 'a>) -> Option<Shapes<'t, 'a>>
    ensures value { option_map (λ shapes. items_view shapes.items) result
        ≡ shapes_of format (view saved.now) }
    ensures few { IfSome result (λ shapes. items_len (items_view shapes.items) ≤ most_records) }
{
    let list = saved.get("shapes")?;
    let items = list.items()?;
    let count = count_of(format.most_records(), list.items()?)?;
    Some(Shapes { items, count })
}

fn push(records: &mut Vec<Record>, shape: Record) -> Result<(), OutOfMemory>
    ensures { OnOk result (records.new.items ≡ records.old.items ++ shape ∷ []) }
{
    Ok(records.push(shape)?)
}

// The records of the elements.
fn records_of(alloc: Global, head: Head, shapes: Shapes<'_, '_>) -> Result<Vec<Record>, StoreFault>
    ensures value { GivesSeen (λ records. records.items) result
        (records_from head 0 (items_view shapes.entry.items)) }
    ensures count { IfOk result
        (λ records. length records.items ≡ items_len (items_view shapes.entry.items)) }
{
    let mut records = Vec::with_capacity(alloc, shapes.count)?;
    let mut left = shapes.items;
    while let Some(element) = left.next() {
        let position = records.len();
        match element_of(alloc, head, &element)? {
            Some(shape) => push(&mut records, shape)?,
            None => return Err(StoreFault::BadRecord { position }),
        }
    }
    Ok(records)
}

// The records of a JSON value and its next id.
#[tactic(auto, unfolding(crate::specs::Opened::records_in))]
fn records_in(alloc: Global, saved: &Given<'_, '_>) -> Result<SavedRecords, StoreFault>
    ensures value { GivesSeen contents_of result (records_in (view saved.now)) }
    ensures least { IfOk result (λ found. 1 ≤ found.next) }
    ensures few { IfOk result (λ found. length found.records.items ≤ most_records) }
{
    let head = head_of(saved).ok_or(StoreFault::BadFormat)?;
    let shapes = shapes_of(head.format, saved).ok_or(StoreFault::BadFormat)?;
    let records = records_of(alloc, head, shapes)?;
    Ok(SavedRecords {
        records,
        next: head.next,
    })
}

/// The records of a saved text of format 1 or 2 and its next id, by serde_json's reading of it.
///
/// White space and any order of members and records are taken. The first of these faults that
/// applies is answered: 50 where the text is not JSON; 60 where it is no object of exactly
/// `format` 1 or 2, a `next` of 1 to 4,294,967,295 and a list `shapes` of at most 4,096 elements
/// in format 1 or 16,384 in format 2; 61 with the least position whose element is no record of
/// the text's own format within its limits. 1 is answered only where the allocator refused memory;
/// bytes that are no UTF-8 take none.
#[tactic(auto, unfolding(crate::specs::Opened::records_read))]
pub fn read_records(alloc: Global, text: &[u8]) -> Result<SavedRecords, StoreFault>
    ensures value { GivesSeen contents_of result (records_read text.now) }
    ensures text { is_utf8 text.now ≡ false → result ≡ Err BadJson }
    ensures least { IfOk result (λ found. 1 ≤ found.next) }
    ensures few { IfOk result (λ found. length found.records.items ≤ most_records) }
{
    let mut scratch = Scratch::new(alloc);
    let tape = tape_of(alloc, &mut scratch, text)?;
    records_in(alloc, &Given::root(&tape))
}
