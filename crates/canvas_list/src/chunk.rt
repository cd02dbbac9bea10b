//! What a chunk holds: items side by side.

ghost use Rattle.std.specs.Prelude.{◌≡◌, ◌<◌, ◌≤◌, ◌+◌, ◌^◌, ◌++◌, All, IfOk, OnErr, OnOk, take, drop, length};
ghost use Rattle.std.specs.Result.{is_ok};
ghost use Rattle.canvas_list.specs.Changed.{changed, changed_if, IsKept, IsPositionOf};
ghost use Rattle.canvas_list.specs.declared.sizes.TheConstants.{MOST_IN_CHUNK};

use crate::also::Also;
use crate::contents::Contents;
use crate::in_place::{ItemChange, change_items, make_room};
use crate::search::count_passed;
use crate::share::Share;
use crate::sizes::PartSizes;
use canvas_code::OutOfMemory;
use std::alloc::Global;

impl<T: Share> Contents<T> for Vec<T> {
    ghost list = { λ items. items.items };

    ghost fits = { λ n. n ≤ MOST_IN_CHUNK };

    #[inline(always)]
    fn count(&self) -> usize {
        self.len()
    }

    #[inline(always)]
    fn item(&self, at: usize) -> &T {
        &self[at]
    }

    #[inline(always)]
    fn first(&self) -> &T {
        &self[0]
    }

    fn summary(&self) -> T::Summary {
        summed_items(&self[0].summary(), self)
    }

    fn summed(&self, from: usize, end: usize, other: &T::Summary) -> T::Summary {
        summed_items(other, &self[from..end])
    }

    fn passed<P: Fn(&T) -> bool>(&self, pred: &P) -> usize {
        count_passed(self, pred)
    }

    fn takes_more(&self, sizes: PartSizes) -> bool {
        self.len() < sizes.per_chunk
    }

    fn enough(sizes: PartSizes) -> usize {
        sizes.per_chunk
    }

    fn none(alloc: Global, sizes: PartSizes) -> Result<Vec<T>, OutOfMemory> {
        Ok(Vec::with_capacity(alloc, sizes.per_chunk)?)
    }

    fn copied(&self, alloc: Global, sizes: PartSizes) -> Result<Vec<T>, OutOfMemory> {
        let mut items = Vec::with_capacity(alloc, self.len().max(sizes.per_chunk))?;
        push_shared(&mut items, self)?;
        Ok(items)
    }

    fn and(self, other: &Vec<T>) -> Result<Vec<T>, OutOfMemory> {
        let mut items = self;
        push_shared(&mut items, other)?;
        Ok(items)
    }

    fn between(
        alloc: Global,
        before: &Vec<T>,
        upto: usize,
        items: Vec<T>,
        behind: &Vec<T>,
        from: usize,
        sizes: PartSizes,
    ) -> Result<Vec<T>, OutOfMemory>
        requires upto { upto ≤ length before.now.items }
        requires from { from ≤ length behind.now.items }
        requires before { 0 < length before.now.items }
        requires behind { 0 < length behind.now.items }
        requires small { length (take upto before.now.items) + length items.items
            + length (drop from behind.now.items)
            < 2 ^ 32 }
        ensures { IfOk result (λ all. all.items
            ≡ take upto before.now.items ++ items.items ++ drop from behind.now.items) }
    {
        let mut all = Vec::with_capacity(alloc, sizes.per_chunk)?;
        push_shared(&mut all, &before[..upto])?;
        push_all(&mut all, items)?;
        push_shared(&mut all, &behind[from..])?;
        Ok(all)
    }

    fn cut(
        self,
        alloc: Global,
        place: usize,
        sizes: PartSizes,
    ) -> Result<(Vec<T>, Vec<T>), OutOfMemory> {
        let mut first = self;
        if first.len() <= sizes.per_chunk {
            return Ok((first, Vec::new(alloc)));
        }
        let second = first.split_off(cut_at(place, first.len(), sizes.per_chunk))?;
        Ok((first, second))
    }

    fn change<O: Also>(
        &mut self,
        alloc: Global,
        at: usize,
        change: ItemChange<T>,
        sizes: PartSizes,
        other: &mut O,
        also: O::Change,
    ) -> Result<(), OutOfMemory>
        requires place { IsPositionOf change at self.old.items }
        requires other { O.may also other.old }
        ensures items { self.new.items ≡ changed_if (is_ok result) change at self.old.items }
        ensures fits { IsKept change (length self.old.items)
            (length self.old.items + 1 ≤ MOST_IN_CHUNK)
            → length self.old.items ≤ MOST_IN_CHUNK
            → length self.new.items ≤ MOST_IN_CHUNK }
        ensures made { OnOk result (O.makes also other.old other.new) }
        ensures same { OnErr result (other.new ≡ other.old) }
    {
        make_room(self, &change, sizes.per_chunk)?;
        other.make(alloc, also)?;
        change_items(self, at, change);
        Ok(())
    }

    fn shift(
        &mut self,
        _: Global,
        from: usize,
        to: usize,
        item: T,
        _: PartSizes,
    ) -> Result<(), OutOfMemory> {
        self.remove(from);
        // There is room, so it can't fail.
        let _ = self.insert(to, item);
        Ok(())
    }

    fn after(
        self,
        _: Global,
        at: usize,
        change: ItemChange<T>,
        sizes: PartSizes,
    ) -> Result<Vec<T>, OutOfMemory>
        requires { IsPositionOf change at self.items }
        ensures { IfOk result (λ other. other.items ≡ changed change at self.items) }
    {
        let mut items = self;
        make_room(&mut items, &change, sizes.per_chunk)?;
        change_items(&mut items, at, change);
        Ok(items)
    }
}

// Where more items than a chunk gets are cut after a change at a place: beside the end that it was
// at, so that items put in there one after another leave full chunks behind.
fn cut_at(place: usize, len: usize, per_chunk: usize) -> usize
    requires some { 0 < per_chunk }
    requires over { per_chunk < len }
    ensures some { 0 < result }
    ensures few { result ≤ per_chunk }
{
    if place == 0 {
        1
    } else if place >= len - 1 {
        per_chunk.min(len - 1)
    } else {
        per_chunk.min(len / 2)
    }
}

/// A summary of what another tells of, and of some items.
pub(crate) fn summed_items<T: Share>(other: &T::Summary, items: &[T]) -> T::Summary
    ensures items { All (T.covers result) items.now }
    ensures other { (item : T) → T.covers other.now item → T.covers result item }
{
    let mut summary = *other;
    for item in items {
        summary = T::summed(&summary, &item.summary());
    }
    summary
}

/// Puts items of the same values behind others.
pub(crate) fn push_shared<T: Share>(items: &mut Vec<T>, more: &[T]) -> Result<(), OutOfMemory>
    ensures { OnOk result (items.new.items ≡ items.old.items ++ more.now) }
{
    for item in more {
        items.push(item.share()?)?;
    }
    Ok(())
}

// Puts items behind others.
fn push_all<T: Drop>(all: &mut Vec<T>, more: Vec<T>) -> Result<(), OutOfMemory>
    ensures { OnOk result (all.new.items ≡ all.old.items ++ more.items) }
{
    for item in more {
        all.push(item)?;
    }
    Ok(())
}
