//! The records of a document by place, each with its bounds.

ghost use Rattle.std.specs.Prelude.{◌≡◌, ◌≤◌, ◌<◌, ◌+◌, ◌++◌, ◌^◌, [], IfOk, OnOk, cond, drop, length, slice_index_or, slice_set, take};
ghost use Rattle.std.specs.List.{insert, remove, slice_get};
ghost use Rattle.std.specs.Option.{option_copied};
ghost use Rattle.std.specs.Result.{is_ok};
ghost use Rattle.canvas_list.specs.declared.in_place.ItemChange.TheVariants.{Replace};
ghost use Rattle.canvas_list.specs.Changed.{changed_if, IsPositionOf};
ghost use Rattle.canvas_doc.specs.Placements.{bounds_change, placements_of, shape_change};

use crate::bounds::Bounds;
use crate::coverage::Coverage;
use crate::place_order::hint_of_place;
use crate::records::{ListedRecord, Records};
use canvas_code::OutOfMemory;
use canvas_list::{Hint, ItemChange, ListChange, Reader, Share, Shared, SharedList, ShortHint};
use canvas_record::Record;
use std::alloc::Global;
use std::marker::Model;

/// A record, and bounds of what it and all below it may show. The beginning of the hint of its
/// place stands beside it, so that a search among the items of a chunk reads few records. All take
/// 32 bytes: a walk goes over many.
#[derive(Drop)]
pub(crate) struct PlacedShape {
    pub(crate) shape: Shared<Record>,
    pub(crate) bounds: Bounds,
    short: ShortHint,
}

impl PlacedShape {
    /// A record with bounds, to stand at its place.
    #[inline(always)]
    pub(crate) fn new(shape: Shared<Record>, bounds: Bounds) -> PlacedShape
        ensures shape { result.shape ≡ shape }
        ensures bounds { result.bounds ≡ bounds }
    {
        let short = hint_of_place(&shape.value().place).short();
        PlacedShape {
            shape,
            bounds,
            short,
        }
    }
}

// A summary of some shapes is a coverage of all their bounds. A walk seeks those whose bounds meet
// a box, given as its coverage.
impl Share for PlacedShape {
    ghost use Rattle.canvas_doc.specs.Bounds.{LieApart};
    ghost use Rattle.canvas_doc.specs.Coverage.{IsCovered};

    type Summary = Coverage;

    ghost covers = { λ summary placed. IsCovered placed.bounds summary };

    ghost lies_apart = { λ sought placed. IsCovered sought.bounds sought
        → LieApart placed.bounds sought.bounds };

    #[inline(always)]
    fn share(&self) -> Result<PlacedShape, OutOfMemory> {
        Ok(PlacedShape {
            shape: self.shape.try_clone()?,
            bounds: self.bounds,
            short: self.short,
        })
    }

    #[inline(always)]
    fn hint(&self) -> Hint {
        hint_of_place(&self.shape.value().place)
    }

    #[inline(always)]
    fn short_hint(&self) -> ShortHint {
        self.short
    }

    #[inline(always)]
    fn summary(&self) -> Coverage {
        Coverage::of(&self.bounds)
    }

    #[inline(always)]
    fn summed(first: &Coverage, second: &Coverage) -> Coverage {
        first.with(second)
    }

    #[inline(always)]
    fn is_covered(&self, summary: &Coverage) -> bool {
        summary.contains(&self.bounds)
    }

    #[inline(always)]
    fn may_have(&self, sought: &Coverage) -> bool {
        self.bounds.meets(&sought.bounds)
    }

    #[inline(always)]
    fn may_meet(summary: &Coverage, sought: &Coverage) -> bool {
        summary.meets(sought)
    }
}

/// Records by place with their bounds, which documents share, seen as the list of the records and that
/// of the bounds, in the same positions. A call that answers want of memory leaves them as they were.
#[derive(Drop)]
pub(crate) struct PlacedShapes {
    pub(crate) list: SharedList<PlacedShape>,
}

impl Model for PlacedShapes {
    ghost use Rattle.canvas_doc.specs.Placements.{Placements, placements_of};

    ghost Value = { Placements };

    ghost view = { λ placed. placements_of placed.list };
}

impl PlacedShapes {
    /// No records.
    pub(crate) fn empty(alloc: Global) -> PlacedShapes
        ensures { result ≡ record { shapes = []; bounds = [] } }
    {
        PlacedShapes {
            list: SharedList::empty(alloc),
        }
    }

    /// The records of a `Vec`.
    pub(crate) fn from_vec(
        alloc: Global,
        placed: Vec<PlacedShape>,
    ) -> Result<PlacedShapes, OutOfMemory>
        requires { length placed.items < 2 ^ 32 }
        ensures { IfOk result (λ all. all ≡ placements_of placed.items) }
    {
        Ok(PlacedShapes {
            list: SharedList::from_vec(alloc, placed)?,
        })
    }

    /// The same records.
    pub(crate) fn try_clone(&self, alloc: Global) -> Result<PlacedShapes, OutOfMemory>
        ensures { IfOk result (λ all. all ≡ self.now) }
    {
        Ok(PlacedShapes {
            list: self.list.try_clone(alloc)?,
        })
    }

    /// How many records there are.
    #[inline(always)]
    pub(crate) fn len(&self) -> usize
        ensures len { result ≡ length self.now.shapes }
        ensures few { result < 2 ^ 32 }
    {
        self.list.len()
    }

    /// The record at a position.
    #[inline(always)]
    pub(crate) fn at(&self, at: usize) -> &Shared<Record>
        requires { at < length self.now.shapes }
        ensures { result.now ≡ slice_index_or self.now.shapes at result.now }
    {
        &self.list.at(at).shape
    }

    /// The record at a position, if there is one.
    #[inline(always)]
    pub(crate) fn get(&self, at: usize) -> Option<&Shared<Record>>
        ensures { option_copied result ≡ slice_get self.now.shapes at }
    {
        if at < self.len() {
            Some(self.at(at))
        } else {
            None
        }
    }

    /// The bounds at a position.
    #[inline(always)]
    pub(crate) fn bounds_at(&self, at: usize) -> &Bounds
        requires { at < length self.now.shapes }
        ensures { result.now ≡ slice_index_or self.now.bounds at result.now }
    {
        &self.list.at(at).bounds
    }

    /// A reader of the records and their bounds.
    #[inline(always)]
    pub(crate) fn reader(&self) -> Reader<'_, PlacedShape>
        ensures { placements_of result ≡ self.now }
    {
        self.list.reader()
    }

    /// Changes a record here with its bounds, and one of other records: both, or neither.
    pub(crate) fn change_both(
        &mut self,
        alloc: Global,
        at: usize,
        change: ItemChange<PlacedShape>,
        records: &mut Records,
        other_at: usize,
        other_change: ItemChange<ListedRecord>,
    ) -> Result<(), OutOfMemory>
        requires place { IsPositionOf (shape_change change) at self.old.shapes }
        requires other { IsPositionOf other_change other_at records.old }
        ensures shapes { self.new.shapes
            ≡ changed_if (is_ok result) (shape_change change) at self.old.shapes }
        ensures bounds { self.new.bounds
            ≡ changed_if (is_ok result) (bounds_change change) at self.old.bounds }
        ensures other { records.new ≡ changed_if (is_ok result) other_change other_at records.old }
    {
        let also = ListChange::At(other_at, other_change);
        self.list.change_both(alloc, at, change, records, also)
    }

    /// Puts a record and its bounds in the place of those at a position here, and the record in
    /// that of one of other records: both, or neither.
    pub(crate) fn replace_both(
        &mut self,
        alloc: Global,
        at: usize,
        bounds: Bounds,
        records: &mut Records,
        other_at: usize,
        new: ListedRecord,
    ) -> Result<(), OutOfMemory>
        requires at { at < length self.old.shapes }
        requires other { other_at < length records.old }
        ensures shapes { self.new.shapes
            ≡ changed_if (is_ok result) (Replace new) at self.old.shapes }
        ensures bounds { self.new.bounds
            ≡ changed_if (is_ok result) (Replace bounds) at self.old.bounds }
        ensures other { records.new ≡ changed_if (is_ok result) (Replace new) other_at records.old }
    {
        let placed = PlacedShape::new(new.shared()?, bounds);
        let change = ItemChange::Replace(placed);
        self.change_both(
            alloc,
            at,
            change,
            records,
            other_at,
            ItemChange::Replace(new),
        )
    }

    /// Takes the record at `from` away with its bounds, and puts another with its own in front of
    /// what then stands at `to`, or at the end, and in the place of one of other records: both, or
    /// neither.
    pub(crate) fn move_both(
        &mut self,
        alloc: Global,
        from: usize,
        to: usize,
        bounds: Bounds,
        records: &mut Records,
        other_at: usize,
        new: ListedRecord,
    ) -> Result<(), OutOfMemory>
        requires from { from < length self.old.shapes }
        requires to { to < length self.old.shapes }
        requires other { other_at < length records.old }
        ensures shapes { self.new.shapes
            ≡ cond (is_ok result) (insert (remove self.old.shapes from) to new) self.old.shapes }
        ensures bounds { self.new.bounds
            ≡ cond (is_ok result) (insert (remove self.old.bounds from) to bounds) self.old.bounds }
        ensures other { records.new ≡ changed_if (is_ok result) (Replace new) other_at records.old }
    {
        let placed = PlacedShape::new(new.shared()?, bounds);
        let change = ItemChange::Replace(new);
        let also = ListChange::Move(from, to, placed);
        records.change_both(alloc, other_at, change, &mut self.list, also)
    }

    /// Puts other bounds at a position.
    pub(crate) fn change_bounds(
        &mut self,
        alloc: Global,
        at: usize,
        bounds: Bounds,
    ) -> Result<(), OutOfMemory>
        requires { at < length self.old.shapes }
        ensures shapes { self.new.shapes ≡ self.old.shapes }
        ensures bounds { self.new.bounds
            ≡ cond (is_ok result) (slice_set self.old.bounds at bounds) self.old.bounds }
    {
        let placed = PlacedShape::new(self.at(at).try_clone()?, bounds);
        self.list.change(alloc, at, ItemChange::Replace(placed))
    }

    /// Takes the record at a position away with its bounds.
    pub(crate) fn remove(&mut self, alloc: Global, at: usize) -> Result<(), OutOfMemory>
        requires { at < length self.old.shapes }
        ensures shapes { OnOk result (self.new.shapes ≡ remove self.old.shapes at) }
        ensures bounds { OnOk result (self.new.bounds ≡ remove self.old.bounds at) }
    {
        self.list.change(alloc, at, ItemChange::Remove)
    }

    /// The same with others in place of those from `first` up to `end`, which itself stays.
    pub(crate) fn with_spliced(
        &self,
        alloc: Global,
        first: usize,
        end: usize,
        placed: Vec<PlacedShape>,
    ) -> Result<PlacedShapes, OutOfMemory>
        requires order { first ≤ end }
        requires within { end ≤ length self.now.shapes }
        requires few { length self.now.shapes + length placed.items < 2 ^ 32 }
        ensures shapes { IfOk result (λ all. all.shapes
            ≡ take first self.now.shapes ++ (placements_of placed.items).shapes
            ++ drop end self.now.shapes) }
        ensures bounds { IfOk result (λ all. all.bounds
            ≡ take first self.now.bounds ++ (placements_of placed.items).bounds
            ++ drop end self.now.bounds) }
    {
        Ok(PlacedShapes {
            list: self.list.with_spliced(alloc, first, end, placed)?,
        })
    }
}
