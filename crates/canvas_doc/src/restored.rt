//! Documents from lists of records.

ghost use Rattle.std.specs.Prelude.{ℕ, IsErrOf, ◌≡◌, ◌≤◌, ◌⊎◌, ◌&&◌, ◌||◌, ◌==◌, Ok, Err, IfOk, MatchResult, OnOk, All, Some, None, length, take, not};
ghost use Rattle.std.specs.Option.{option_copied};
ghost use Rattle.std.specs.List.{list_any, slice_get};
ghost use Rattle.canvas_record.specs.declared.records.Record.{Record};
ghost use Rattle.canvas_code.specs.Names.{name_of};
ghost use Rattle.canvas_key.specs.Text.{IsKey};
ghost use Rattle.canvas_record.specs.Contents.{record_of, IsWellFormed, most_records};
ghost use Rattle.canvas_record.specs.Decision.{can_have_children};
ghost use Rattle.canvas_record.specs.Restored.{is_record, record_fault, leads_to_page, same_place, tree_fault, by_id, restoration_of, tree_fault_code};
ghost use Rattle.canvas_doc.specs.Listed.{GivesFirsts, holder_of, has_place};

use crate::Document;
use crate::ancestry::{STEPS, is_container};
use crate::kept_bounds::bounded;
use crate::place_order::{holder_of, in_place_order};
use crate::records::{ListedRecord, Records};
use canvas_code::OutOfMemory;
use canvas_record::{Parent, Record, TreeFault};
use std::alloc::Global;
use std::collections::{BTreeMap, BTreeSet};

impl Document {
    /// The document of these records, which may stand in any order, with `next` as its next id.
    ///
    /// `BadRecord` names the least position whose record has an id outside 1 to `next - 1`, or a
    /// pose or a kind outside its limits; it is judged first and takes no memory. `BadTree`, judged
    /// after that, names the least position whose record has the id of an earlier one, a parent
    /// that is neither the page nor a group or frame of the list, no path to the page within 32
    /// steps, or the parent and index of an earlier one. Where an id stands twice, the first record
    /// with it counts as the parent.
    pub fn restore(alloc: Global, records: Vec<Record>, next: u32) -> Result<Document, TreeFault>
        requires next { 1 ≤ next }
        requires few { length records.items ≤ most_records }
        ensures restoration { MatchResult result
            (λ document. restoration_of records.items next ≡ Ok document)
            (λ fault. (fault ≡ TreeFault.OutOfMemory)
            ⊎ (restoration_of records.items next ≡ Err fault)) }
        // A record's own fault is named also where there is no memory.
        ensures limits { (position : ℕ) → record_fault next records.items ≡ Some position
            → IsErrOf result (TreeFault.BadRecord position) }
        ensures again { IsWellFormed (record { records = records.items; next = next })
            → restoration_of records.items next
            ≡ Ok (record { records = records.items; next = next }) }
    {
        if let Some(position) = record_fault(&records, next) {
            return Err(TreeFault::BadRecord { position });
        }
        if let Some(position) = tree_fault(alloc, &records)? {
            return Err(TreeFault::BadTree { position });
        }
        let records = shared(alloc, by_id(records)?)?;
        let document = Document::of_sorted(alloc, records, next)?;
        Ok(document)
    }

    // The document of records in rising id.
    fn of_sorted(alloc: Global, records: Records, next: u32) -> Result<Document, OutOfMemory>
        requires { IsWellFormed (record { records = records; next = next }) }
        ensures { IfOk result (λ document. document ≡ record { records = records; next = next }) }
    {
        let sorted = in_place_order(alloc, &records)?;
        let order = bounded(alloc, &records, sorted)?;
        Ok(Document {
            records,
            order,
            next,
        })
    }
}

// The least position of a record outside the limits of one record.
fn record_fault(records: &[Record], next: u32) -> Option<usize>
    ensures { result ≡ record_fault next records.now }
{
    records.iter().position(|shape| !shape.is_within(next))
}

// The records in rising id.
fn by_id(mut records: Vec<Record>) -> Result<Vec<Record>, OutOfMemory>
    ensures { IfOk result (λ sorted. sorted.items ≡ by_id records.items) }
{
    records.sort_by_key(|shape| shape.id)?;
    Ok(records)
}

// The records, so that they can be shared.
fn shared(alloc: Global, records: Vec<Record>) -> Result<Records, OutOfMemory>
    requires { length records.items ≤ most_records }
    ensures { IfOk result (λ all. all ≡ records.items) }
{
    let mut all = Vec::with_capacity(alloc, records.len())?;
    for shape in records {
        all.push(ListedRecord::new(alloc, shape)?)?;
    }
    Records::from_vec(alloc, all)
}

// The least position of a record that does not belong to a page tree.
fn tree_fault(alloc: Global, records: &[Record]) -> Result<Option<usize>, OutOfMemory>
    ensures value { IfOk result (λ fault. fault ≡ tree_fault records.now) }
    ensures keys { IfOk result
        (λ fault. fault ≡ None → All (λ shape. IsKey shape.place.index) records.now) }
{
    let firsts = first_positions(alloc, records)?;
    let mut places = BTreeSet::new(alloc);
    for (position, shape) in records.iter().enumerate() {
        if repeats_id(records, &firsts, position, shape)
            || !hangs_in(records, &firsts, shape.place.parent)
            || !takes_place(&mut places, shape)?
        {
            return Ok(Some(position));
        }
    }
    Ok(None)
}

// The first position of each id.
fn first_positions(alloc: Global, records: &[Record]) -> Result<BTreeMap<u32, usize>, OutOfMemory>
    ensures { IfOk result (λ firsts. GivesFirsts firsts records.now) }
{
    let mut firsts = BTreeMap::new(alloc);
    for (position, shape) in records.iter().enumerate() {
        firsts.entry(shape.id)?.or_insert(position);
    }
    Ok(firsts)
}

// Whether a record before the position has the id of the record there.
fn repeats_id(
    records: &[Record],
    firsts: &BTreeMap<u32, usize>,
    position: usize,
    shape: &Record,
) -> bool
    requires firsts { GivesFirsts firsts.now records.now }
    requires at { slice_get records.now position ≡ Some shape.now }
    ensures { result ≡ list_any (λ s. s.id == shape.now.id) (take position records.now) }
{
    firsts.get(&shape.id) != Some(&position)
}

// Adds the place of a record, and tells whether it was free.
fn takes_place<'a>(
    places: &mut BTreeSet<(Option<u32>, &'a [u8])>,
    shape: &'a Record,
) -> Result<bool, OutOfMemory>
    ensures key { IsKey shape.now.place.index }
    ensures free { IfOk result (λ free. free ≡ not (has_place places.old shape.now)) }
    ensures after { OnOk result ((r : Record)
        → has_place places.new r ≡ (same_place r shape.now || has_place places.old r)) }
{
    let free = places.insert(place_of(shape))?;
    Ok(free)
}

// A parent and an index among its children, as they are compared.
fn place_of(shape: &Record) -> (Option<u32>, &[u8])
    ensures holder { result.0 ≡ holder_of shape.now.place.parent }
    ensures index { result.1.now ≡ shape.now.place.index }
    ensures key { IsKey shape.now.place.index }
{
    (holder_of(shape.place.parent), shape.place.index.bytes())
}

// The first record with an id.
fn record_of<'a>(
    records: &'a [Record],
    firsts: &BTreeMap<u32, usize>,
    id: u32,
) -> Option<&'a Record>
    requires { GivesFirsts firsts.now records.now }
    ensures { option_copied result ≡ record_of id records.now }
{
    match firsts.get(&id) {
        Some(position) => Some(&records[*position]),
        None => None,
    }
}

// Whether the parent can hold children and leads to the page.
fn hangs_in(records: &[Record], firsts: &BTreeMap<u32, usize>, parent: Parent) -> bool
    requires { GivesFirsts firsts.now records.now }
    ensures { result
        ≡ (can_have_children records.now parent && leads_to_page 31 records.now parent) }
{
    can_have_children(records, firsts, parent) && leads_to_page(records, firsts, STEPS, parent)
}

// Whether the parent is the page, a group or a frame.
fn can_have_children(records: &[Record], firsts: &BTreeMap<u32, usize>, parent: Parent) -> bool
    requires { GivesFirsts firsts.now records.now }
    ensures { result ≡ can_have_children records.now parent }
{
    match parent {
        Parent::Page => true,
        Parent::Shape(id) => match record_of(records, firsts, id) {
            Some(holder) => is_container(&holder.kind),
            None => false,
        },
    }
}

// Whether following parents comes to the page within so many steps.
#[tactic(auto, using(crate::proofs::restoring::Leads::leads_rules))]
fn leads_to_page(
    records: &[Record],
    firsts: &BTreeMap<u32, usize>,
    steps: u32,
    parent: Parent,
) -> bool
    requires { GivesFirsts firsts.now records.now }
    ensures { result ≡ leads_to_page steps records.now parent }
{
    let Parent::Shape(id) = parent else {
        return true;
    };
    if steps == 0 {
        return false;
    }
    let Some(holder) = record_of(records, firsts, id) else {
        return false;
    };
    leads_to_page(records, firsts, steps - 1, holder.place.parent)
}
