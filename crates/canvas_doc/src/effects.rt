//! Changes of a document.

ghost use Rattle.std.specs.Prelude.{◌≡◌, ◌<◌, ◌+◌, ◌++◌, ◌∷◌, [], IfOk, IfSome, OnErr, OnOk, cond, length, true};
ghost use Rattle.std.specs.List.{remove};
ghost use Rattle.std.specs.Result.{is_ok};
ghost use Rattle.canvas_record.specs.declared.records.Record.{Record};
ghost use Rattle.canvas_doc.specs.Bounds.{HaveOneShape};
ghost use Rattle.canvas_record.specs.Contents.{IsWellFormed};
ghost use Rattle.canvas_record.specs.Effect.{changed_by};

use crate::Document;
use crate::ancestry::{STEPS, is_container};
use crate::changed::{changed_by, changed_record};
use crate::deletion::{Lists, without_below, without_shape};
use crate::kept_bounds::{held_bounds_at, held_bounds_for};
use crate::lookup::locate;
use crate::place_order::{children_range, position_in, position_without};
use crate::placed_shapes::PlacedShape;
use crate::records::ListedRecord;
use canvas_code::OutOfMemory;
use canvas_list::ItemChange;
use canvas_record::{Change, Edit, Parent, Record, Refusal};
use std::alloc::Global;

impl Document {
    ghost use Rattle.std.specs.Prelude.{◌+◌, ℤ, true};
    ghost use Rattle.canvas_record.specs.Decision.{decision_of, IsAnswer};
    ghost use Rattle.canvas_record.specs.Effect.{changes_one, effect_of, Fits, SpacesOnly};
    ghost use Rattle.canvas_record.specs.declared.edits.Change.TheVariants.{Delete};
    ghost use Rattle.canvas_record.specs.Picture.{colour};

    /// Makes an edit in the document itself: the change that it is, or the first refusal that
    /// applies, which leaves the document as it was. Out of memory comes only in place of a change.
    pub fn edit(&mut self, alloc: Global, edit: &Edit) -> Result<Change, Refusal>
        ensures decision { IsAnswer result (decision_of edit.now self.old) }
        ensures fits { IfOk result (λ change. Fits change self.old) }
        ensures effect { IfOk result (λ change. self.new ≡ effect_of change self.old) }
        ensures same { OnErr result (self.new ≡ self.old) }
    {
        let change = self.decide(alloc, edit)?;
        self.apply(alloc, &change)?;
        Ok(change)
    }

    /// The document after a change that fits.
    pub fn with(&self, alloc: Global, change: &Change) -> Result<Document, OutOfMemory>
        requires { Fits change.now self.now }
        ensures effect { IfOk result (λ after. after ≡ effect_of change.now self.now) }
        ensures colours { IfOk result (λ after. SpacesOnly change.now → (x y : ℤ)
            → colour after.records x y ≡ colour self.now.records x y) }
    {
        let mut after = self.try_clone(alloc)?;
        after.apply(alloc, change)?;
        Ok(after)
    }

    /// Makes a change that fits in the document itself. Want of memory is the
    /// only refusal, and leaves the document as it was.
    pub fn apply(&mut self, alloc: Global, change: &Change) -> Result<(), OutOfMemory>
        requires { Fits change.now self.old }
        ensures effect { OnOk result (self.new ≡ effect_of change.now self.old) }
        ensures same { OnErr result (self.new ≡ self.old) }
    {
        match change {
            Change::Create {
                id,
                kind,
                pose,
                hidden,
                place,
            } => {
                let shape = Record {
                    id: *id,
                    kind: kind.try_clone(alloc)?,
                    place: place.copy(),
                    pose: *pose,
                    hidden: *hidden,
                };
                self.add(alloc, shape)
            }
            Change::Delete { id } => self.remove(alloc, *id),
            Change::Respace { parent } => {
                *self = self.with_new_indexes(alloc, *parent)?;
                Ok(())
            }
            Change::Move { .. } => self.move_one(alloc, change),
            Change::Pose { .. } => self.replace_one(alloc, change),
            Change::Reshape { .. } => self.replace_one(alloc, change),
            Change::Show { .. } => self.replace_one(alloc, change),
        }
    }

    // Adds a record.
    fn add(&mut self, alloc: Global, shape: Record) -> Result<(), OutOfMemory>
        requires { IsWellFormed
            (record { records = self.old.records ++ shape ∷ []; next = self.old.next + 1 }) }
        ensures { self.new ≡ cond (is_ok result)
            (record { records = self.old.records ++ shape ∷ []; next = self.old.next + 1 })
            self.old }
    {
        let at = position_in(&self.order, &shape.place);
        let last = self.records.len();
        let bounds = held_bounds_for(alloc, &self.records, &mut self.order, &shape)?;
        let new = ListedRecord::new(alloc, shape)?;
        let placed = PlacedShape::new(new.shared()?, bounds);
        self.order.change_both(
            alloc,
            at,
            ItemChange::Insert(placed),
            &mut self.records,
            last,
            ItemChange::Insert(new),
        )?;
        self.next += 1;
        Ok(())
    }

    // Makes a change of one shape's pose, kind or mark.
    fn replace_one(&mut self, alloc: Global, change: &Change) -> Result<(), OutOfMemory>
        requires one { changes_one change.now ≡ true }
        requires place { (r : Record) → (changed_by change.now r).place ≡ r.place }
        requires fits { Fits change.now self.old }
        ensures { self.new ≡ cond (is_ok result) (effect_of change.now self.old) self.old }
    {
        let Some(found) = changed_record(&self.records, change) else {
            return Ok(());
        };
        let at = found.at;
        let new = changed_by(alloc, found.shape, change)?;
        let from = position_in(&self.order, &new.value().place);
        let bounds = held_bounds_for(alloc, &self.records, &mut self.order, new.value())?;
        self.order
            .replace_both(alloc, from, bounds, &mut self.records, at, new)
    }

    // Moves a shape.
    fn move_one(&mut self, alloc: Global, change: &Change) -> Result<(), OutOfMemory>
        requires one { changes_one change.now ≡ true }
        requires shape { (r : Record) → HaveOneShape r (changed_by change.now r) }
        requires fits { Fits change.now self.old }
        ensures { self.new ≡ cond (is_ok result) (effect_of change.now self.old) self.old }
    {
        let Some(found) = changed_record(&self.records, change) else {
            return Ok(());
        };
        let at = found.at;
        let new = changed_by(alloc, found.shape, change)?;
        let from = position_in(&self.order, &found.shape.place);
        let to = position_without(&self.order, from, &new.value().place);
        let bounds = held_bounds_at(alloc, &self.records, &mut self.order, from, new.value())?;
        self.order
            .move_both(alloc, from, to, bounds, &mut self.records, at, new)
    }

    // Takes a shape away, and all below it.
    fn remove(&mut self, alloc: Global, id: u32) -> Result<(), OutOfMemory>
        requires { Fits (Delete id) self.old }
        ensures { self.new ≡ cond (is_ok result) (effect_of (Delete id) self.old) self.old }
    {
        match self.childless_position(id) {
            Some(at) => self.remove_at(alloc, at),
            None => {
                *self = self.without_subtree(alloc, id)?;
                Ok(())
            }
        }
    }

    // Takes the record at a position away, below which nothing lies.
    fn remove_at(&mut self, alloc: Global, at: usize) -> Result<(), OutOfMemory>
        requires there { at < length self.old.records }
        requires well_formed { IsWellFormed
            (record { records = remove self.old.records at; next = self.old.next }) }
        ensures { self.new ≡ cond (is_ok result)
            (record { records = remove self.old.records at; next = self.old.next }) self.old }
    {
        let from = position_in(&self.order, &self.records.at(at).value().place);
        self.order.change_both(
            alloc,
            from,
            ItemChange::Remove,
            &mut self.records,
            at,
            ItemChange::Remove,
        )
    }

    // The position of a shape, if there is such a one and nothing lies below it.
    fn childless_position(&self, id: u32) -> Option<usize>
        ensures there { IfSome result (λ at. at < length self.now.records) }
        ensures alone { IfSome result (λ at. effect_of (Delete id) self.now
            ≡ record { records = remove self.now.records at; next = self.now.next }) }
    {
        let found = locate(&self.records, id)?;
        if is_container(&found.shape.kind) {
            let below = children_range(&self.order, Parent::Shape(id));
            if below.start < below.end {
                return None;
            }
        }
        Some(found.at)
    }

    // The document without a shape and all below it.
    fn without_subtree(&self, alloc: Global, id: u32) -> Result<Document, OutOfMemory>
        requires { Fits (Delete id) self.now }
        ensures { IfOk result (λ after. after ≡ effect_of (Delete id) self.now) }
    {
        let all = Lists {
            records: self.records.try_clone(alloc)?,
            order: self.order.try_clone(alloc)?,
        };
        let above = without_below(alloc, &self.order, STEPS + 1, &[id], all)?;
        let left = without_shape(alloc, id, above)?;
        Ok(Document {
            records: left.records,
            order: left.order,
            next: self.next,
        })
    }
}
