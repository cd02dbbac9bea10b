//! The upkeep of bounds: those of each record of a document, in its position in the order by place.

ghost use Rattle.std.specs.Prelude.{◌≡◌, ◌<◌, ◌^◌, ℕ, All, IfOk, MatchOption, false, length, slice_index_or, true};
ghost use Rattle.std.specs.List.{slice_get};
ghost use Rattle.std.specs.List.Sorted.{IsStrictlySortedBy};
ghost use Rattle.std.specs.Option.{option_copied};
ghost use Rattle.canvas_shape.specs.declared.Kind.TheVariants.{Group};
ghost use Rattle.canvas_doc.specs.declared.bounds.Bounds.{Bounds};
ghost use Rattle.canvas_record.specs.declared.records.Parent.TheVariants.{Shape};
ghost use Rattle.canvas_record.specs.declared.records.Record.{Record};
ghost use Rattle.canvas_doc.specs.Bounds.{is_empty, is_group, AreBounds, AreWithin, HoldChildren, HoldChildrenBut, HoldsOwn, IsCarriedWithin, IsGroupAt, IsGroupPosition, IsHeldAbove, IsWithinBounds};
ghost use Rattle.canvas_record.specs.Children.{is_child};
ghost use Rattle.canvas_record.specs.Contents.{reaches_page, AreRising};
ghost use Rattle.canvas_doc.specs.PlaceOrder.{comes_first, IsInPlaceOrder};
ghost use Rattle.canvas_record.specs.Tree.{IsInLimits};

use crate::ancestry::STEPS;
use crate::bounds::Bounds;
use crate::coverage::Coverage;
use crate::lookup::find;
use crate::place_order::{children_range, position_among, position_in};
use crate::placed_shapes::{PlacedShape, PlacedShapes};
use crate::records::Records;
use canvas_code::OutOfMemory;
use canvas_list::Shared;
use canvas_record::{Parent, Record};
use canvas_shape::Kind;
use std::alloc::Global;
use std::ops::Range;

// The bounds of a shape that has its place in the order, or is to have one there, as they are now.
fn bounds_for(order: &PlacedShapes, shape: &Record) -> Bounds
    requires rising { IsStrictlySortedBy comes_first order.now.shapes }
    requires limits { IsInLimits shape.now }
    ensures own { shape.now.hidden ≡ false → HoldsOwn shape.now.kind shape.now.pose result }
    ensures below { (j : ℕ) (s : Record) (c : Bounds) → slice_get order.now.shapes j ≡ Some s
        → slice_get order.now.bounds j ≡ Some c → is_child (Shape shape.now.id) s ≡ true
        → shape.now.hidden ≡ false → shape.now.kind ≡ Group
        → IsCarriedWithin shape.now.pose c result }
{
    if is_group(&shape.kind) && !shape.hidden {
        children_hull(order, shape.id).carried(&shape.pose)
    } else {
        own_bounds(shape)
    }
}

// A box that holds what the bounds of a shape's children do.
fn children_hull(order: &PlacedShapes, id: u32) -> Bounds
    requires { IsStrictlySortedBy comes_first order.now.shapes }
    ensures { (j : ℕ) (s : Record) (c : Bounds) → slice_get order.now.shapes j ≡ Some s
        → slice_get order.now.bounds j ≡ Some c → is_child (Shape id) s ≡ true
        → IsWithinBounds c result }
{
    let Range { start, end } = children_range(order, Parent::Shape(id));
    order
        .list
        .iter_range(start, end)
        .summed_with(&Coverage::of(&Bounds::nowhere()))
        .bounds
}

/// The bounds of a shape that has its place in the order, or is to have one there. Those of the
/// groups above are made wider first where they do not hold them.
pub(crate) fn held_bounds_for(
    alloc: Global,
    records: &Records,
    order: &mut PlacedShapes,
    shape: &Record,
) -> Result<Bounds, OutOfMemory>
    requires in_order { IsInPlaceOrder order.old.shapes records.now }
    requires rising { AreRising records.now }
    requires limits { All IsInLimits records.now }
    requires grounded { All (λ r. reaches_page 31 records.now r.place.parent ≡ true) records.now }
    requires bounded { AreBounds order.old.shapes order.old.bounds }
    requires shape { IsInLimits shape.now }
    ensures shapes { order.new.shapes ≡ order.old.shapes }
    ensures bounds { AreBounds order.new.shapes order.new.bounds }
    ensures own { IfOk result
        (λ b. shape.now.hidden ≡ false → HoldsOwn shape.now.kind shape.now.pose b) }
    ensures below { IfOk result (λ b. (j : ℕ) (s : Record) (c : Bounds)
        → slice_get order.new.shapes j ≡ Some s → slice_get order.new.bounds j ≡ Some c
        → is_child (Shape shape.now.id) s ≡ true → shape.now.hidden ≡ false → shape.now.kind ≡ Group
        → IsCarriedWithin shape.now.pose c b) }
    ensures held { IfOk result (λ b. IsHeldAbove order.new.shapes order.new.bounds shape.now b) }
{
    let bounds = bounds_for(order, shape);
    if is_held_above(records, order, shape, &bounds) {
        return Ok(bounds);
    }
    widen_above(alloc, records, order, shape.place.parent, &bounds, STEPS)?;
    let again = bounds_for(order, shape);
    // They are held now, which no clause tells.
    if is_held_above(records, order, shape, &again) {
        Ok(again)
    } else {
        Err(OutOfMemory)
    }
}

/// The bounds at a position of the order, which a shape is to have. Those of the groups above the
/// shape are made wider first where they do not hold them.
pub(crate) fn held_bounds_at(
    alloc: Global,
    records: &Records,
    order: &mut PlacedShapes,
    at: usize,
    shape: &Record,
) -> Result<Bounds, OutOfMemory>
    requires in_order { IsInPlaceOrder order.old.shapes records.now }
    requires rising { AreRising records.now }
    requires limits { All IsInLimits records.now }
    requires grounded { All (λ r. reaches_page 31 records.now r.place.parent ≡ true) records.now }
    requires bounded { AreBounds order.old.shapes order.old.bounds }
    requires at { at < length order.old.shapes }
    ensures shapes { order.new.shapes ≡ order.old.shapes }
    ensures bounds { AreBounds order.new.shapes order.new.bounds }
    ensures there { IfOk result (λ b. b ≡ slice_index_or order.new.bounds at b) }
    ensures held { IfOk result (λ b. IsHeldAbove order.new.shapes order.new.bounds shape.now b) }
{
    let bounds = *order.bounds_at(at);
    if is_held_above(records, order, shape, &bounds) {
        return Ok(bounds);
    }
    widen_above(alloc, records, order, shape.place.parent, &bounds, STEPS)?;
    let again = *order.bounds_at(at);
    // They are held now, which no clause tells.
    if is_held_above(records, order, shape, &again) {
        Ok(again)
    } else {
        Err(OutOfMemory)
    }
}

// Whether the bounds of the shown group in which a shape hangs hold the shape's, if it hangs in one.
fn is_held_above(records: &Records, order: &PlacedShapes, shape: &Record, bounds: &Bounds) -> bool
    requires in_order { IsInPlaceOrder order.now.shapes records.now }
    requires rising { AreRising records.now }
    requires limits { All IsInLimits records.now }
    requires long { length order.now.bounds ≡ length order.now.shapes }
    ensures { result ≡ true → IsHeldAbove order.now.shapes order.now.bounds shape.now bounds.now }
{
    let Some(group) = shown_group(records, shape.place.parent) else {
        return true;
    };
    let up = position_in(order, &group.place);
    order.bounds_at(up).contains(&bounds.carried(&group.pose))
}

// Makes the bounds of the groups above wider to hold those of a shape that hangs in a parent or is
// to: the outermost group's first, so that all hold what lies below them throughout.
fn widen_above(
    alloc: Global,
    records: &Records,
    order: &mut PlacedShapes,
    parent: Parent,
    bounds: &Bounds,
    steps: u32,
) -> Result<(), OutOfMemory>
    requires in_order { IsInPlaceOrder order.old.shapes records.now }
    requires rising { AreRising records.now }
    requires limits { All IsInLimits records.now }
    requires grounded { All (λ r. reaches_page 31 records.now r.place.parent ≡ true) records.now }
    requires bounded { AreBounds order.old.shapes order.old.bounds }
    ensures shapes { order.new.shapes ≡ order.old.shapes }
    ensures bounds { AreBounds order.new.shapes order.new.bounds }
{
    let Some(group) = shown_group(records, parent) else {
        return Ok(());
    };
    if steps == 0 {
        return Ok(());
    }
    let up = position_in(order, &group.place);
    let wider = order.bounds_at(up).hull(&bounds.carried(&group.pose));
    if !is_held_above(records, order, group, &wider) {
        widen_above(alloc, records, order, group.place.parent, &wider, steps - 1)?;
    }
    if is_held_above(records, order, group, &wider) && wider.contains(order.bounds_at(up)) {
        order.change_bounds(alloc, up, wider)?;
    }
    Ok(())
}

// Records by place, with bounds.
pub(crate) fn bounded(
    alloc: Global,
    records: &Records,
    order: Vec<Shared<Record>>,
) -> Result<PlacedShapes, OutOfMemory>
    requires in_order { IsInPlaceOrder order.items records.now }
    requires few { length order.items < 2 ^ 32 }
    requires rising { AreRising records.now }
    requires limits { All IsInLimits records.now }
    requires grounded { All (λ r. reaches_page 31 records.now r.place.parent ≡ true) records.now }
    ensures shapes { IfOk result (λ all. all.shapes ≡ order.items) }
    ensures bounds { IfOk result (λ all. AreBounds all.shapes all.bounds) }
{
    let mut bounds = vec![in alloc; Bounds::nowhere(); order.len()]?;
    raise_all(records, &order, &mut bounds);
    placed_with(alloc, order, &bounds)
}

// Records with bounds in the same positions.
fn placed_with(
    alloc: Global,
    order: Vec<Shared<Record>>,
    bounds: &[Bounds],
) -> Result<PlacedShapes, OutOfMemory>
    requires long { length bounds.now ≡ length order.items }
    requires few { length order.items < 2 ^ 32 }
    ensures shapes { IfOk result (λ all. all.shapes ≡ order.items) }
    ensures bounds { IfOk result (λ all. all.bounds ≡ bounds.now) }
{
    let mut all = Vec::with_capacity(alloc, order.len())?;
    for (shape, held) in order.into_iter().zip(bounds) {
        all.push(PlacedShape::new(shape, *held))?;
    }
    PlacedShapes::from_vec(alloc, all)
}

// Makes bounds that hold nothing wide enough for their records, and for those below them.
fn raise_all(records: &Records, order: &[Shared<Record>], bounds: &mut [Bounds])
    requires in_order { IsInPlaceOrder order.now records.now }
    requires rising { AreRising records.now }
    requires limits { All IsInLimits records.now }
    requires grounded { All (λ r. reaches_page 31 records.now r.place.parent ≡ true) records.now }
    requires long { length bounds.old ≡ length order.now }
    requires nowhere { All (λ b. is_empty b ≡ true) bounds.old }
    ensures { AreBounds order.now bounds.new }
{
    let mut above = Above {
        parent: Parent::Page,
        group: None,
    };
    for at in 0..order.len() {
        let shape = order[at].value();
        let own = own_bounds(shape);
        bounds[at] = bounds[at].hull(&own);
        above = above_for(records, order, shape.place.parent, above);
        raise(records, order, bounds, at, above.group, STEPS);
    }
}

// A parent, and where it stands in the order if it is a shown group.
#[derive(Clone, Copy)]
struct Above {
    parent: Parent,
    group: Option<usize>,
}

// The same of another parent. It is sought only where it is not the last one: siblings stand side by side.
fn above_for(records: &Records, order: &[Shared<Record>], parent: Parent, last: Above) -> Above
    requires in_order { IsInPlaceOrder order.now records.now }
    requires rising { AreRising records.now }
    requires last { IsGroupPosition last.parent records.now order.now last.group }
    ensures parent { result.parent ≡ parent }
    ensures group { IsGroupPosition parent records.now order.now result.group }
{
    if last.parent == parent {
        return last;
    }
    Above {
        parent,
        group: group_position(records, order, parent),
    }
}

// Where in the order the group stands that a parent is, if it is one that is shown.
fn group_position(records: &Records, order: &[Shared<Record>], parent: Parent) -> Option<usize>
    requires in_order { IsInPlaceOrder order.now records.now }
    requires rising { AreRising records.now }
    ensures { IsGroupPosition parent records.now order.now result }
{
    let group = shown_group(records, parent)?;
    Some(position_among(order, &group.place))
}

// What a shape shows of its own.
fn own_bounds(shape: &Record) -> Bounds
    requires { IsInLimits shape.now }
    ensures { shape.now.hidden ≡ false → HoldsOwn shape.now.kind shape.now.pose result }
{
    if shape.hidden {
        Bounds::nowhere()
    } else {
        Bounds::of_shape(&shape.kind, &shape.pose)
    }
}

// Makes the bounds of the groups above a record, the first of which stands at `above`, wide enough to
// hold the record's.
fn raise(
    records: &Records,
    order: &[Shared<Record>],
    bounds: &mut [Bounds],
    at: usize,
    above: Option<usize>,
    steps: u32,
)
    requires in_order { IsInPlaceOrder order.now records.now }
    requires rising { AreRising records.now }
    requires limits { All IsInLimits records.now }
    requires at { at < length order.now }
    requires above { (r : Record) → slice_get order.now at ≡ Some r
        → IsGroupPosition r.place.parent records.now order.now above }
    requires but { HoldChildrenBut at order.now bounds.old }
    requires reaches { (r : Record) → slice_get order.now at ≡ Some r
        → reaches_page steps records.now r.place.parent ≡ true }
    ensures children { HoldChildren order.now bounds.new }
    ensures wider { AreWithin bounds.old bounds.new }
{
    let Some(up) = above else {
        return;
    };
    if steps == 0 {
        return;
    }
    let group = order[up].value();
    let carried = bounds[at].carried(&group.pose);
    let held = bounds[up];
    if held.contains(&carried) {
        return;
    }
    bounds[up] = held.hull(&carried);
    let higher = group_position(records, order, group.place.parent);
    raise(records, order, bounds, up, higher, steps - 1);
}

// The group that a parent is, where it is shown.
fn shown_group(records: &Records, parent: Parent) -> Option<&Record>
    requires { AreRising records.now }
    ensures { MatchOption (option_copied result) ((g : Record) → ¬ IsGroupAt parent records.now g)
        (IsGroupAt parent records.now) }
{
    let Parent::Shape(id) = parent else {
        return None;
    };
    let shape = find(records, id)?;
    if is_group(&shape.kind) && !shape.hidden {
        Some(shape)
    } else {
        None
    }
}

fn is_group(kind: &Kind) -> bool
    ensures { result ≡ is_group kind.now }
{
    matches!(kind, Kind::Group)
}
