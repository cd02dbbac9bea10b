//! The index of a spot among siblings.

ghost use Rattle.std.specs.Prelude.{◌≡◌, ◌≤◌, ◌-◌, ◌&&◌, IfOk, Some, None, length, take, drop};
ghost use Rattle.std.specs.List.{Contains};
ghost use Rattle.std.specs.Option.{option_copied};
ghost use Rattle.canvas_key.specs.Order.{AreApart};
ghost use Rattle.canvas_key.specs.Text.{IsKey, is_same};
ghost use Rattle.canvas_key.specs.Between.{key_between};
ghost use Rattle.canvas_record.specs.Siblings.{is_sibling, siblings, least_above, greatest_index, is_taken, with_room, index_at};
ghost use Rattle.canvas_doc.specs.Ends.{first_index, last_index};

use crate::Document;
use crate::lookup::find;
use crate::place_order::{children_range, position_in};
use crate::placed_shapes::PlacedShapes;
use canvas_key::{Key, first_fresh};
use canvas_record::{Parent, Place, Record, Refusal, Spot};
use std::ops::Range;

// The index of a spot among the children of a parent but for one shape.
pub(crate) fn index_at(
    document: &Document,
    own: u32,
    parent: Parent,
    spot: &Spot,
) -> Result<Key, Refusal>
    ensures value { result ≡ index_at spot.now (siblings own parent document.now.records) }
    ensures key { IfOk result IsKey }
{
    match spot {
        Spot::Back => key_between(None, least_index(document, own, parent)),
        Spot::Front => key_between(greatest_index(document, own, parent), None),
        Spot::Over(id) => index_over(document, own, parent, *id),
        Spot::At(key) => {
            if is_taken(document, own, parent, key) {
                Err(Refusal::IndexTaken)
            } else {
                Ok(key.copy())
            }
        }
    }
}

// The index just in front of a sibling.
fn index_over(document: &Document, own: u32, parent: Parent, id: u32) -> Result<Key, Refusal>
    ensures value { result ≡ index_at (Spot.Over id) (siblings own parent document.now.records) }
    ensures key { IfOk result IsKey }
{
    match find(&document.records, id) {
        Some(shape) => {
            if is_sibling(own, parent, shape) {
                let high = next_above(document, own, shape);
                key_between(Some(&shape.place.index), high)
            } else {
                Err(Refusal::SpotNotSibling)
            }
        }
        None => Err(Refusal::SpotNotSibling),
    }
}

// The key between two ends, made where it lies.
fn key_between(low: Option<&Key>, high: Option<&Key>) -> Result<Key, Refusal>
    requires { AreApart (option_copied low) (option_copied high) }
    ensures value { result
        ≡ with_room (key_between (option_copied low.entry) (option_copied high.entry)) }
    ensures key { IfOk result IsKey }
{
    let mut key = first_fresh();
    match key.make_between(low, high) {
        Ok(()) => Ok(key),
        Err(_) => Err(Refusal::NoRoom),
    }
}

fn is_sibling(own: u32, parent: Parent, shape: &Record) -> bool
    ensures { result ≡ is_sibling own parent shape.now }
{
    shape.place.parent == parent && shape.id != own
}

// The greatest index among the siblings: that of the foremost.
fn greatest_index(document: &Document, own: u32, parent: Parent) -> Option<&Key>
    ensures { option_copied result ≡ greatest_index (siblings own parent document.now.records) }
{
    let Range { start, end } = children_range(&document.order, parent);
    first_index(&document.order, own, start, end)
}

// The index of the first record from one position of the order up to another that is not the shape.
fn first_index(order: &PlacedShapes, own: u32, start: usize, end: usize) -> Option<&Key>
    requires from { start ≤ end }
    requires bound { end ≤ length order.now.shapes }
    ensures { option_copied result
        ≡ first_index own (take (end - start) (drop start order.now.shapes)) }
{
    for at in start..end {
        let shape = order.at(at).value();
        if shape.id != own {
            return Some(&shape.place.index);
        }
    }
    None
}

// The least index among the siblings: that of the backmost.
fn least_index(document: &Document, own: u32, parent: Parent) -> Option<&Key>
    ensures { option_copied result ≡ least_above None (siblings own parent document.now.records) }
{
    let Range { start, end } = children_range(&document.order, parent);
    last_index(&document.order, own, start, end)
}

// The least index above that of a record, among the siblings of a shape beside it.
fn next_above<'a>(document: &'a Document, own: u32, shape: &Record) -> Option<&'a Key>
    requires { Contains document.now.records shape.now }
    ensures value { option_copied result
        ≡ least_above (Some shape.now.place.index)
        (siblings own shape.now.place.parent document.now.records) }
    ensures apart { AreApart (Some shape.now.place.index) (option_copied result) }
{
    let start = children_range(&document.order, shape.place.parent).start;
    let end = position_in(&document.order, &shape.place);
    last_index(&document.order, own, start, end)
}

// The index of the last record from one position of the order up to another that is not the shape.
fn last_index(order: &PlacedShapes, own: u32, start: usize, end: usize) -> Option<&Key>
    requires from { start ≤ end }
    requires bound { end ≤ length order.now.shapes }
    ensures { option_copied result
        ≡ last_index own (take (end - start) (drop start order.now.shapes)) }
{
    for at in (start..end).rev() {
        let shape = order.at(at).value();
        if shape.id != own {
            return Some(&shape.place.index);
        }
    }
    None
}

// Whether a sibling has the index.
pub(crate) fn is_taken(document: &Document, own: u32, parent: Parent, key: &Key) -> bool
    ensures value { result ≡ is_taken key.now (siblings own parent document.now.records) }
    ensures key { IsKey key.now }
{
    let place = Place {
        parent,
        index: key.copy(),
    };
    match document.order.get(position_in(&document.order, &place)) {
        Some(shape) => is_sibling_at(own, &place, shape.value()),
        None => false,
    }
}

fn is_sibling_at(own: u32, place: &Place, shape: &Record) -> bool
    ensures { result ≡ (is_sibling own place.now.parent shape.now
        && is_same shape.now.place.index place.now.index) }
{
    is_sibling(own, place.parent, shape) && shape.place.index.bytes() == place.index.bytes()
}
