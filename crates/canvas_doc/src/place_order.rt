//! The order of a document's records by place: the children of a parent stand side by side in it, from
//! front to back.

ghost use Rattle.std.specs.Prelude.{◌≡◌, ◌<◌, ◌^◌, IfOk, length};
ghost use Rattle.std.specs.List.{remove};
ghost use Rattle.std.specs.List.Sorted.{IsStrictlySortedBy};
ghost use Rattle.std.specs.Ordering.{is_le, is_lt};
ghost use Rattle.canvas_doc.specs.Listed.{holder_of};
ghost use Rattle.canvas_doc.specs.Placements.{placements_of};
ghost use Rattle.canvas_doc.specs.PlaceOrder.{by_parent, by_place, comes_first, AreChildrenWithin, IsInPlaceOrder, IsPlaceOf};
ghost use Rattle.canvas_record.specs.Tree.{HavePlaces};

use crate::placed_shapes::{PlacedShape, PlacedShapes};
use crate::records::Records;
use canvas_code::OutOfMemory;
use canvas_list::{FoundRange, Hint, Shared};
use canvas_record::{Parent, Place, Record};
use std::alloc::Global;
use std::cmp::Ordering;
use std::ops::Range;

// All records, sorted by place.
pub(crate) fn in_place_order(
    alloc: Global,
    records: &Records,
) -> Result<Vec<Shared<Record>>, OutOfMemory>
    requires { HavePlaces records.now }
    ensures order { IfOk result (λ order. IsInPlaceOrder order.items records.now) }
    ensures few { IfOk result (λ order. length order.items < 2 ^ 32) }
{
    let mut order = shares(alloc, records)?;
    order.sort_unstable_by(|shape, other| by_place(&shape.value().place, &other.value().place));
    Ok(order)
}

// All records, side by side.
fn shares(alloc: Global, records: &Records) -> Result<Vec<Shared<Record>>, OutOfMemory>
    ensures all { IfOk result (λ all. all.items ≡ records.now) }
    ensures few { length records.now < 2 ^ 32 }
{
    let mut all = Vec::with_capacity(alloc, records.len())?;
    for shape in records.iter() {
        all.push(shape.shared()?)?;
    }
    Ok(all)
}

// Where the children of a parent stand in the order, from front to back, and a reader of the order
// that most likely gives them without another search.
pub(crate) fn children_of(order: &PlacedShapes, parent: Parent) -> FoundRange<'_, PlacedShape>
    requires { IsStrictlySortedBy comes_first order.now.shapes }
    ensures children { AreChildrenWithin parent order.now.shapes result.start result.end }
    ensures reader { placements_of result.reader ≡ order.now }
{
    order.list.range_near(
        hint_under(parent, 0),
        |placed| comes_before(placed.shape.value(), parent),
        hint_under(parent, u64::MAX),
        |placed| comes_before_or_hangs(placed.shape.value(), parent),
    )
}

// The same without the reader.
pub(crate) fn children_range(order: &PlacedShapes, parent: Parent) -> Range<usize>
    requires { IsStrictlySortedBy comes_first order.now.shapes }
    ensures { AreChildrenWithin parent order.now.shapes result.start result.end }
{
    let children = children_of(order, parent);
    children.start..children.end
}

// Whether the parent of a record comes before another.
fn comes_before(shape: &Record, parent: Parent) -> bool
    ensures { result ≡ is_lt (by_parent shape.now.place.parent parent) }
{
    by_parent(shape.place.parent, parent).is_lt()
}

// Whether the parent of a record comes before another, or is that one.
fn comes_before_or_hangs(shape: &Record, parent: Parent) -> bool
    ensures { result ≡ is_le (by_parent shape.now.place.parent parent) }
{
    by_parent(shape.place.parent, parent).is_le()
}

// How many records of the order come before a place: where the record of that place stands, or would.
pub(crate) fn position_in(order: &PlacedShapes, place: &Place) -> usize
    requires { IsStrictlySortedBy comes_first order.now.shapes }
    ensures { IsPlaceOf place.now order.now.shapes result }
{
    order
        .list
        .partition_point_near(hint_of_place(place), |placed| {
            by_place(&placed.shape.value().place, place).is_lt()
        })
}

// The same of the order without the record at a position.
pub(crate) fn position_without(order: &PlacedShapes, from: usize, place: &Place) -> usize
    requires rising { IsStrictlySortedBy comes_first order.now.shapes }
    requires from { from < length order.now.shapes }
    ensures { IsPlaceOf place.now (remove order.now.shapes from) result }
{
    let at = position_in(order, place);
    if from < at { at - 1 } else { at }
}

// How many records of an order that stand side by side in memory come before a place.
pub(crate) fn position_among(order: &[Shared<Record>], place: &Place) -> usize
    requires { IsStrictlySortedBy comes_first order.now }
    ensures { IsPlaceOf place.now order.now result }
{
    order.partition_point(|shape| by_place(&shape.value().place, place).is_lt())
}

// By the parent, and under one parent the greater index first.
fn by_place(place: &Place, other: &Place) -> Ordering
    ensures { result ≡ by_place place.now other.now }
{
    match by_parent(place.parent, other.parent) {
        Ordering::Less => Ordering::Less,
        Ordering::Equal => other.index.cmp(&place.index),
        Ordering::Greater => Ordering::Greater,
    }
}

// The page before all shapes, and these by their ids.
fn by_parent(parent: Parent, other: Parent) -> Ordering
    ensures { result ≡ by_parent parent other }
{
    holder_of(parent).cmp(&holder_of(other))
}

/// Where a record stands in the order by place: by the parent, and then by the first bytes of its
/// index, where the greater comes first.
pub(crate) fn hint_of_place(place: &Place) -> Hint {
    hint_under(place.parent, !first_bytes(place.index.bytes()))
}

// The page comes before all shapes.
#[inline(always)]
fn hint_under(parent: Parent, minor: u64) -> Hint {
    let major = match parent {
        Parent::Page => 0,
        Parent::Shape(id) => id,
    };
    Hint { major, minor }
}

// The first eight bytes as a number, and zeros where there are fewer.
fn first_bytes(bytes: &[u8]) -> u64 {
    let mut number: u64 = 0;
    let mut room: u32 = 64;
    for byte in bytes.iter().take(8) {
        room = room.saturating_sub(8);
        number |= u64::from(*byte).wrapping_shl(room);
    }
    number
}

// The id of a shape as a parent.
pub(crate) fn holder_of(parent: Parent) -> Option<u32>
    ensures { result ≡ holder_of parent }
{
    match parent {
        Parent::Page => None,
        Parent::Shape(id) => Some(id),
    }
}
