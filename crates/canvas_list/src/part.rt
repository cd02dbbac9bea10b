//! The parts of a list, shared by all lists that have them.

ghost use Rattle.std.specs.Prelude.{ℕ, ◌≡◌, ◌<◌, ◌≤◌, ◌+◌, ◌^◌, List, All, IfOk, IfSome, OnErr, OnOk, cond, length};
ghost use Rattle.std.specs.Arc.{arc_value};
ghost use Rattle.std.specs.List.{insert, remove, slice_get};
ghost use Rattle.std.specs.Result.{is_ok};
ghost use Rattle.canvas_list.specs.Chunks.{joined};
ghost use Rattle.canvas_list.specs.Changed.{changed, changed_if, IsKept, IsPositionOf};

use crate::also::Also;
use crate::contents::Contents;
use crate::counted::Counted;
use crate::hint::Hint;
use crate::in_place::ItemChange;
use crate::noted::Noted;
use crate::share::Share;
use crate::sizes::{MOST_IN_CHUNK, PartSizes};
use crate::table::Table;
use canvas_code::OutOfMemory;
use std::alloc::Global;
use std::marker::Model;
use std::sync::Arc;

/// A part with an item, freed with the last list that has it.
#[derive(Drop)]
pub struct Part<T: Share, C: Contents<T>> {
    contents: Arc<C>,
    noted: Noted,
    summary: T::Summary,
}

/// From one item to as many as a chunk holds, side by side.
pub type Chunk<T> = Part<T, Vec<T>>;

/// Some chunks, side by side.
pub type Block<T> = Part<T, Table<T, Vec<T>>>;

impl<T: Share, C: Contents<T>> Model for Part<T, C> {
    ghost use Rattle.std.specs.Prelude.{All, List, length, ◌<◌, ◌≡◌};
    ghost use Rattle.std.specs.Arc.{arc_value};

    ghost Value = { List T };

    ghost view = { λ part. C.list (arc_value part.contents) };

    ghost invariant = { λ part. (0 < length (C.list (arc_value part.contents)))
        × C.fits (length (C.list (arc_value part.contents)))
        × (part.noted.count ≡ length (C.list (arc_value part.contents)))
        × All (T.covers part.summary) (C.list (arc_value part.contents)) };
}

impl<T: Share, C: Contents<T>> Part<T, C> {
    pub(crate) fn new(alloc: Global, contents: C) -> Result<Part<T, C>, OutOfMemory>
        requires some { 0 < length (C.list contents) }
        requires fits { C.fits (length (C.list contents)) }
        ensures { IfOk result (λ part. part ≡ C.list contents) }
    {
        let noted = Noted::new(contents.count() as u32, contents.first().hint());
        let summary = contents.summary();
        Ok(Part {
            contents: Arc::new(alloc, contents)?,
            noted,
            summary,
        })
    }

    /// The same part for another list: it takes no memory of its own.
    #[inline(always)]
    pub(crate) fn try_clone(&self) -> Result<Part<T, C>, OutOfMemory>
        ensures { IfOk result (λ part. part ≡ self.now) }
    {
        Ok(Part {
            contents: Arc::try_clone(&self.contents)?,
            noted: self.noted,
            summary: self.summary,
        })
    }

    #[inline(always)]
    pub(crate) fn contents(&self) -> &C
        ensures same { C.list result.now ≡ self.now }
        ensures some { 0 < length self.now }
    {
        &self.contents
    }

    /// Changes an item together with something else. What another list shares is copied first.
    pub(crate) fn change<O: Also>(
        &mut self,
        alloc: Global,
        at: usize,
        change: ItemChange<T>,
        sizes: PartSizes,
        other: &mut O,
        also: O::Change,
    ) -> Result<(), OutOfMemory>
        requires place { IsPositionOf change at self.old }
        requires kept { IsKept change (length self.old) (C.fits (length self.old + 1)) }
        requires other { O.may also other.old }
        ensures items { self.new ≡ changed_if (is_ok result) change at self.old }
        ensures some { 0 < length self.new }
        ensures made { OnOk result (O.makes also other.old other.new) }
        ensures same { OnErr result (other.new ≡ other.old) }
    {
        own(alloc, &mut self.contents, sizes)?;
        // They have no other owner now, which no clause tells.
        let Some(contents) = Arc::get_mut(&mut self.contents) else {
            return Err(OutOfMemory);
        };
        let summary = summary_after(&self.summary, &change);
        contents.change(alloc, at, change, sizes, other, also)?;
        self.noted = noted_after(self.noted, contents, at);
        self.summary = summary_or(summary, contents);
        Ok(())
    }

    /// Takes the item at `from` away, and puts another one in front of what then stands at `to`, or
    /// at the end. What another list shares is copied first.
    pub(crate) fn shift(
        &mut self,
        alloc: Global,
        from: usize,
        to: usize,
        item: T,
        sizes: PartSizes,
    ) -> Result<(), OutOfMemory>
        requires from { from < length self.old }
        requires to { to < length self.old }
        ensures { self.new ≡ cond (is_ok result) (insert (remove self.old from) to item) self.old }
    {
        own(alloc, &mut self.contents, sizes)?;
        let Some(contents) = Arc::get_mut(&mut self.contents) else {
            return Err(OutOfMemory);
        };
        let summary = summary_covering(&self.summary, &item);
        contents.shift(alloc, from, to, item, sizes)?;
        self.noted = noted_after(self.noted, contents, 0);
        self.summary = summary_or(summary, contents);
        Ok(())
    }

    /// A summary of all items.
    #[inline(always)]
    pub(crate) fn summary(&self) -> &T::Summary
        ensures { All (T.covers result.now) self.now }
    {
        &self.summary
    }

    /// The first item.
    #[inline(always)]
    pub(crate) fn first(&self) -> &T
        ensures { slice_get self.now 0 ≡ Some result.now }
    {
        self.contents.first()
    }
}

impl<T: Share> Chunk<T> {
    #[inline(always)]
    pub(crate) fn items(&self) -> &[T]
        ensures same { result.now ≡ self.now }
        ensures some { 0 < length self.now }
        ensures few { length self.now ≤ MOST_IN_CHUNK }
    {
        &self.contents
    }
}

impl<T: Share> Block<T> {
    /// How many items there are.
    #[inline(always)]
    pub(crate) fn count(&self) -> usize
        ensures count { result ≡ length self.now }
        ensures some { 0 < length self.now }
        ensures few { result < 2 ^ 32 }
    {
        self.noted.count as usize
    }

    /// Its chunks.
    #[inline(always)]
    pub(crate) fn table(&self) -> &Table<T, Vec<T>>
        ensures same { result.now ≡ self.now }
        ensures some { 0 < length self.now }
    {
        &self.contents
    }
}

impl<T: Share, C: Contents<T>> Counted for Part<T, C> {
    ghost size = { λ part. length part };

    ghost has_room = { λ part. C.fits (length part + 1) };

    #[inline(always)]
    fn count(&self) -> usize {
        self.noted.count as usize
    }

    #[inline(always)]
    fn hint(&self) -> Hint {
        self.noted.hint()
    }

    fn takes_more(&self, sizes: PartSizes) -> bool {
        self.contents.takes_more(sizes)
    }

    fn is_short_beside(&self, other: &Part<T, C>, sizes: PartSizes) -> bool {
        self.count() + other.count() <= C::enough(sizes) / 2
    }
}

// Copies contents that have another owner.
fn own<T: Share, C: Contents<T>>(
    alloc: Global,
    contents: &mut Arc<C>,
    sizes: PartSizes,
) -> Result<(), OutOfMemory>
    ensures { C.list (arc_value contents.new) ≡ C.list (arc_value contents.old) }
{
    if Arc::strong_count(contents) > 1 {
        let own = contents.copied(alloc, sizes)?;
        *contents = Arc::new(alloc, own)?;
    }
    Ok(())
}

// What is noted of contents of which an item was changed, the first of them at a position.
fn noted_after<T: Share, C: Contents<T>>(before: Noted, contents: &C, at: usize) -> Noted
    requires some { 0 < length (C.list contents.now) }
    requires fits { C.fits (length (C.list contents.now)) }
    ensures { result.count ≡ length (C.list contents.now) }
{
    let hint = if at == 0 {
        contents.first().hint()
    } else {
        before.hint()
    };
    Noted::new(contents.count() as u32, hint)
}

// A summary of items after a change, made from the one before alone. It may still tell of an item
// that was replaced. None where an item goes, or one that it does not tell of takes a place.
#[inline(always)]
fn summary_after<T: Share>(summary: &T::Summary, change: &ItemChange<T>) -> Option<T::Summary>
    ensures { IfSome result (λ after. (items : List T) (at : ℕ) → All (T.covers summary.now) items
        → All (T.covers after) (changed change.now at items)) }
{
    match change {
        ItemChange::Insert(item) => Some(T::summed(summary, &item.summary())),
        ItemChange::Replace(item) => summary_covering(summary, item),
        ItemChange::Remove => None,
    }
}

// A summary, if it tells of an item.
#[inline(always)]
fn summary_covering<T: Share>(summary: &T::Summary, item: &T) -> Option<T::Summary>
    ensures same { IfSome result (λ same. same ≡ summary.now) }
    ensures item { IfSome result (λ same. T.covers same item.now) }
{
    if item.is_covered(summary) {
        Some(*summary)
    } else {
        None
    }
}

// A summary of contents, if there is one, or else one that is made anew.
#[inline(always)]
fn summary_or<T: Share, C: Contents<T>>(summary: Option<T::Summary>, contents: &C) -> T::Summary
    requires some { 0 < length (C.list contents.now) }
    requires all { IfSome summary (λ given. All (T.covers given) (C.list contents.now)) }
    ensures { All (T.covers result) (C.list contents.now) }
{
    match summary {
        Some(given) => given,
        None => contents.summary(),
    }
}

/// A summary of what another tells of, and of all items of some parts.
pub(crate) fn summed_parts<T: Share, C: Contents<T>>(
    other: &T::Summary,
    parts: &[Part<T, C>],
) -> T::Summary
    ensures items { All (T.covers result) (joined parts.now) }
    ensures other { (item : T) → T.covers other.now item → T.covers result item }
{
    let mut summary = *other;
    for part in parts {
        summary = T::summed(&summary, part.summary());
    }
    summary
}

/// What some parts hold, as one.
pub(crate) fn merged<T: Share, C: Contents<T>>(
    alloc: Global,
    parts: &[Part<T, C>],
    sizes: PartSizes,
) -> Result<C, OutOfMemory>
    requires { length (joined parts.now) < 2 ^ 32 }
    ensures { IfOk result (λ all. C.list all ≡ joined parts.now) }
{
    let mut all = C::none(alloc, sizes)?;
    for part in parts {
        all = all.and(part.contents())?;
    }
    Ok(all)
}
