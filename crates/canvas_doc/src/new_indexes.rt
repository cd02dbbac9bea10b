//! New indexes for the children of a parent.

ghost use Rattle.std.specs.Prelude.{◌≡◌, ◌+◌, ◌-◌, ◌≤◌, ◌<◌, map, filter, length, IfOk, drop, take};
ghost use Rattle.std.specs.List.Sorted.{IsStrictlySortedBy};
ghost use Rattle.std.specs.Option.{unwrap_or};
ghost use Rattle.canvas_key.specs.Rank.{fresh_key};
ghost use Rattle.canvas_record.specs.Children.{is_child};
ghost use Rattle.canvas_record.specs.Contents.{record_of, HaveIds, AreRising, most_records};
ghost use Rattle.canvas_record.specs.Effect.{respaced};
ghost use Rattle.canvas_doc.specs.Placements.{placements_of};
ghost use Rattle.canvas_doc.specs.PlaceOrder.{comes_first, AreChildrenWithin};

use crate::Document;
use crate::lookup::position_of;
use crate::place_order::children_range;
use crate::placed_shapes::{PlacedShape, PlacedShapes};
use crate::records::{ListedRecord, Records};
use canvas_code::OutOfMemory;
use canvas_key::fresh;
use canvas_list::{ItemChange, Share, Shared};
use canvas_record::{Parent, Place, Record};
use std::alloc::Global;
use std::ops::Range;

impl Document {
    ghost use Rattle.canvas_record.specs.Effect.{effect_of};
    ghost use Rattle.canvas_record.specs.declared.edits.Change.TheVariants.{Respace};

    /// The document with new indexes for the children of a parent.
    pub(crate) fn with_new_indexes(
        &self,
        alloc: Global,
        parent: Parent,
    ) -> Result<Document, OutOfMemory>
        ensures { IfOk result (λ after. after ≡ effect_of (Respace parent) self.now) }
    {
        let Range { start, end } = children_range(&self.order, parent);
        let children = respaced_children(alloc, &self.order, parent, start, end)?;
        let records = with_each(alloc, &self.records, &children)?;
        let order = self.order.with_spliced(alloc, start, end, children)?;
        Ok(Document {
            records,
            order,
            next: self.next,
        })
    }
}

// The children of a parent, which stand from one position up to another, each with the index that
// stands for its place from the back, and with its bounds.
fn respaced_children(
    alloc: Global,
    order: &PlacedShapes,
    parent: Parent,
    start: usize,
    end: usize,
) -> Result<Vec<PlacedShape>, OutOfMemory>
    requires rising { IsStrictlySortedBy comes_first order.now.shapes }
    requires children { AreChildrenWithin parent order.now.shapes start end }
    requires few { end ≤ start + most_records }
    ensures shapes { IfOk result (λ children. (placements_of children.items).shapes
        ≡ map (respaced parent order.now.shapes) (filter (is_child parent) order.now.shapes)) }
    ensures bounds { IfOk result (λ children. (placements_of children.items).bounds
        ≡ take (end - start) (drop start order.now.bounds)) }
{
    let mut all = order.reader();
    let mut children = Vec::with_capacity(alloc, end - start)?;
    for at in start..end {
        let placed = all.at(at);
        let rank = (end - 1 - at) as u32;
        let shape = respaced(alloc, placed.shape.value(), rank)?;
        let child = PlacedShape::new(shape, placed.bounds);
        children.push(child)?;
    }
    Ok(children)
}

// A record with the index that stands for a rank, with its first owner.
fn respaced(alloc: Global, shape: &Record, rank: u32) -> Result<Shared<Record>, OutOfMemory>
    requires { rank < most_records }
    ensures { IfOk result (λ after. after
        ≡ record shape.now { place = record shape.now.place { index = fresh_key rank } }) }
{
    Shared::new(
        alloc,
        Record {
            id: shape.id,
            kind: shape.kind.try_clone(alloc)?,
            pose: shape.pose,
            hidden: shape.hidden,
            place: Place {
                parent: shape.place.parent,
                index: fresh(rank),
            },
        },
    )
}

// Where no more than a few records change, or one in so many, each is replaced on its own, which
// copies a chunk and two tables at most. Else a whole list is made, which counts up the owners of
// all.
const FEW_REPLACED: usize = 4;

const RECORDS_FOR_EACH_REPLACED: usize = 64;

// The records, with others in the place of those that have their ids.
fn with_each(
    alloc: Global,
    records: &Records,
    others: &[PlacedShape],
) -> Result<Records, OutOfMemory>
    requires few { length records.now ≤ most_records }
    requires rising { AreRising records.now }
    requires once { HaveIds (placements_of others.now).shapes }
    ensures { IfOk result (λ all. all
        ≡ map (λ r. unwrap_or (record_of r.id (placements_of others.now).shapes) r) records.now) }
{
    if others.len() <= FEW_REPLACED.max(records.len() / RECORDS_FOR_EACH_REPLACED) {
        with_few(alloc, records, others)
    } else {
        with_many(alloc, records, others)
    }
}

// The same, where the others are few: what they leave alone is shared.
fn with_few(
    alloc: Global,
    records: &Records,
    others: &[PlacedShape],
) -> Result<Records, OutOfMemory>
    requires rising { AreRising records.now }
    requires once { HaveIds (placements_of others.now).shapes }
    ensures { IfOk result (λ all. all
        ≡ map (λ r. unwrap_or (record_of r.id (placements_of others.now).shapes) r) records.now) }
{
    let mut all = records.try_clone(alloc)?;
    for other in others {
        if let Some(at) = position_of(records, other.shape.value().id) {
            let new = ListedRecord::of(other.shape.try_clone()?);
            all.change(alloc, at, ItemChange::Replace(new))?;
        }
    }
    Ok(all)
}

// The same, where the others are many: a list made at once.
fn with_many(
    alloc: Global,
    records: &Records,
    others: &[PlacedShape],
) -> Result<Records, OutOfMemory>
    requires few { length records.now ≤ most_records }
    requires rising { AreRising records.now }
    requires once { HaveIds (placements_of others.now).shapes }
    ensures { IfOk result (λ all. all
        ≡ map (λ r. unwrap_or (record_of r.id (placements_of others.now).shapes) r) records.now) }
{
    let mut all = listed(alloc, records)?;
    for other in others {
        if let Some(at) = position_of(records, other.shape.value().id) {
            all[at] = ListedRecord::of(other.shape.try_clone()?);
        }
    }
    Records::from_vec(alloc, all)
}

// All records, side by side, for one more list.
fn listed(alloc: Global, records: &Records) -> Result<Vec<ListedRecord>, OutOfMemory>
    ensures { IfOk result (λ all. all.items ≡ records.now) }
{
    let mut all = Vec::with_capacity(alloc, records.len())?;
    for shape in records.iter() {
        all.push(shape.share()?)?;
    }
    Ok(all)
}
