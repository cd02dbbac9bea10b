//! A shape and all below it, taken out of the lists of a document: what it costs grows with what goes.

ghost use Rattle.std.specs.Prelude.{◌≡◌, ◌<◌, ◌≤◌, ◌-◌, ◌++◌, ◌==◌, IfOk, drop, filter, length, not, take};
ghost use Rattle.std.specs.List.{remove};
ghost use Rattle.std.specs.List.Sorted.{IsStrictlySortedBy};
ghost use Rattle.canvas_record.specs.Children.{is_child};
ghost use Rattle.canvas_record.specs.Contents.{AreRising};
ghost use Rattle.canvas_record.specs.declared.records.Parent.TheVariants.{Shape};
ghost use Rattle.canvas_doc.specs.Deletion.{is_held, has_id_of, container_ids, containers_under, holders_below, AreLists};
ghost use Rattle.canvas_doc.specs.PlaceOrder.{comes_first};

use crate::ancestry::is_container;
use crate::lookup::position_of;
use crate::place_order::{children_range, position_in};
use crate::placed_shapes::PlacedShapes;
use crate::records::Records;
use canvas_code::OutOfMemory;
use canvas_list::ItemChange;
use canvas_record::Parent;
use std::alloc::Global;
use std::ops::Range;

// The records of a document by id, and by place with their bounds.
#[derive(Drop)]
pub(crate) struct Lists {
    pub(crate) records: Records,
    pub(crate) order: PlacedShapes,
}

// The lists without all that hangs under some shapes, or under groups and frames below these, where
// `whole` has all of them; so many levels of them.
pub(crate) fn without_below(
    alloc: Global,
    whole: &PlacedShapes,
    levels: u32,
    level: &[u32],
    lists: Lists,
) -> Result<Lists, OutOfMemory>
    requires rising { IsStrictlySortedBy comes_first whole.now.shapes }
    requires lists { AreLists lists.records lists.order.shapes lists.order.bounds }
    ensures lists { IfOk result
        (λ after. AreLists after.records after.order.shapes after.order.bounds) }
    ensures records { IfOk result (λ after. after.records
        ≡ filter (λ r. not (is_held (holders_below levels whole.now.shapes level.now) r))
        lists.records) }
{
    if levels == 0 {
        return Ok(lists);
    }
    let next = containers_under(alloc, whole, level)?;
    let left = without_held(alloc, level, lists)?;
    without_below(alloc, whole, levels - 1, &next, left)
}

// The groups and frames among the children of some shapes.
fn containers_under(
    alloc: Global,
    order: &PlacedShapes,
    holders: &[u32],
) -> Result<Vec<u32>, OutOfMemory>
    requires { IsStrictlySortedBy comes_first order.now.shapes }
    ensures { IfOk result (λ all. all.items ≡ containers_under order.now.shapes holders.now) }
{
    let mut all = Vec::new(alloc);
    for holder in holders {
        all = with_containers(order, *holder, all)?;
    }
    Ok(all)
}

// Ids, and those of the groups and frames among the children of a shape.
fn with_containers(
    order: &PlacedShapes,
    holder: u32,
    ids: Vec<u32>,
) -> Result<Vec<u32>, OutOfMemory>
    requires { IsStrictlySortedBy comes_first order.now.shapes }
    ensures { IfOk result (λ all. all.items
        ≡ ids.items ++ container_ids (filter (is_child (Shape holder)) order.now.shapes)) }
{
    let Range { start, end } = children_range(order, Parent::Shape(holder));
    let mut all = ids;
    for at in start..end {
        let shape = order.at(at).value();
        if is_container(&shape.kind) {
            all.push(shape.id)?;
        }
    }
    Ok(all)
}

// The lists without the children of some shapes.
fn without_held(alloc: Global, holders: &[u32], lists: Lists) -> Result<Lists, OutOfMemory>
    requires { AreLists lists.records lists.order.shapes lists.order.bounds }
    ensures lists { IfOk result
        (λ after. AreLists after.records after.order.shapes after.order.bounds) }
    ensures records { IfOk result
        (λ after. after.records ≡ filter (λ r. not (is_held holders.now r)) lists.records) }
{
    let mut left = lists;
    for holder in holders {
        left = without_children(alloc, *holder, left)?;
    }
    Ok(left)
}

// The lists without the children of a shape.
fn without_children(alloc: Global, holder: u32, lists: Lists) -> Result<Lists, OutOfMemory>
    requires { AreLists lists.records lists.order.shapes lists.order.bounds }
    ensures lists { IfOk result
        (λ after. AreLists after.records after.order.shapes after.order.bounds) }
    ensures records { IfOk result
        (λ after. after.records ≡ filter (λ r. not (is_child (Shape holder) r)) lists.records) }
{
    let Range { start, end } = children_range(&lists.order, Parent::Shape(holder));
    let records = without_range(alloc, lists.records, &lists.order, start, end)?;
    let order = lists
        .order
        .with_spliced(alloc, start, end, Vec::new(alloc))?;
    Ok(Lists { records, order })
}

// Records without those that have the ids of those from one position of the order up to another.
fn without_range(
    alloc: Global,
    records: Records,
    order: &PlacedShapes,
    start: usize,
    end: usize,
) -> Result<Records, OutOfMemory>
    requires rising { AreRising records }
    requires from { start ≤ end }
    requires within { end ≤ length order.now.shapes }
    ensures { IfOk result (λ left. left ≡ filter
        (λ r. not (has_id_of (take (end - start) (drop start order.now.shapes)) r)) records) }
{
    let mut left = records;
    for at in start..end {
        left = without_id(alloc, left, order.at(at).value().id)?;
    }
    Ok(left)
}

// Records without the one of an id.
fn without_id(alloc: Global, records: Records, id: u32) -> Result<Records, OutOfMemory>
    requires { AreRising records }
    ensures { IfOk result (λ left. left ≡ filter (λ r. not (r.id == id)) records) }
{
    let Some(at) = position_of(&records, id) else {
        return Ok(records);
    };
    let mut left = records;
    left.change(alloc, at, ItemChange::Remove)?;
    Ok(left)
}

// The lists without the record of an id.
pub(crate) fn without_shape(alloc: Global, id: u32, lists: Lists) -> Result<Lists, OutOfMemory>
    requires { AreLists lists.records lists.order.shapes lists.order.bounds }
    ensures lists { IfOk result
        (λ after. AreLists after.records after.order.shapes after.order.bounds) }
    ensures records { IfOk result
        (λ after. after.records ≡ filter (λ r. not (r.id == id)) lists.records) }
{
    match position_of(&lists.records, id) {
        Some(at) => without_at(alloc, at, lists),
        None => Ok(lists),
    }
}

// The lists without the record at a position.
fn without_at(alloc: Global, at: usize, lists: Lists) -> Result<Lists, OutOfMemory>
    requires lists { AreLists lists.records lists.order.shapes lists.order.bounds }
    requires at { at < length lists.records }
    ensures lists { IfOk result
        (λ after. AreLists after.records after.order.shapes after.order.bounds) }
    ensures records { IfOk result (λ after. after.records ≡ remove lists.records at) }
{
    let Lists {
        mut records,
        mut order,
    } = lists;
    let from = position_in(&order, &records.at(at).value().place);
    records.change(alloc, at, ItemChange::Remove)?;
    order.remove(alloc, from)?;
    Ok(Lists { records, order })
}
