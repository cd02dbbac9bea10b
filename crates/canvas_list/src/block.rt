//! What a block holds: a table of chunks. It is written for tables of any parts, and so is what a
//! list holds, too.

ghost use Rattle.std.specs.Prelude.{◌≡◌, ◌<◌, ◌≤◌, ◌+◌, ◌^◌, ◌++◌, IfOk, OnErr, OnOk, cond, take, drop, length, ⊤};
ghost use Rattle.std.specs.List.{insert, remove};
ghost use Rattle.std.specs.Result.{is_ok};
ghost use Rattle.canvas_list.specs.Changed.{changed, changed_if, IsKept, IsPositionOf};

use crate::also::{Also, PartChange};
use crate::contents::Contents;
use crate::counted::{Counted, count_of, part_about, spot_for, spot_of};
use crate::in_place::ItemChange;
use crate::moves::{may_pass, spots_of, two_of};
use crate::part::{merged, summed_parts};
use crate::search::count_begun;
use crate::share::Share;
use crate::sizes::PartSizes;
use crate::table::{Table, spliced};
use canvas_code::OutOfMemory;
use std::alloc::Global;

impl<T: Share, C: Contents<T>> Contents<T> for Table<T, C> {
    ghost list = { λ table. table };

    ghost fits = { λ n. ⊤ };

    #[inline(always)]
    fn count(&self) -> usize {
        self.len()
    }

    #[inline(always)]
    fn item(&self, at: usize) -> &T {
        self.at(at)
    }

    #[inline(always)]
    fn first(&self) -> &T {
        self.parts[0].first()
    }

    fn summary(&self) -> T::Summary {
        summed_parts(self.parts[0].summary(), &self.parts[1..])
    }

    fn summed(&self, from: usize, end: usize, other: &T::Summary) -> T::Summary {
        if from == end {
            return *other;
        }
        let first = spot_of(&self.parts, from);
        let last = spot_of(&self.parts, end);
        let part = self.parts[first.chunk].contents();
        if first.chunk == last.chunk {
            return part.summed(from - first.start, end - first.start, other);
        }
        let next = first.chunk + 1;
        let front = part.summed(from - first.start, part.count(), other);
        let middle = summed_parts(&front, &self.parts[next..last.chunk]);
        let rest = self.parts[last.chunk].contents();
        rest.summed(0, end - last.start, &middle)
    }

    fn passed<P: Fn(&T) -> bool>(&self, pred: &P) -> usize {
        let begun = count_begun(&self.parts, pred);
        if begun == 0 {
            return 0;
        }
        let last = begun - 1;
        count_of(&self.parts[..last]) + self.parts[last].contents().passed(pred)
    }

    fn takes_more(&self, sizes: PartSizes) -> bool {
        !is_over(self.parts.len(), sizes.per_block)
    }

    fn enough(sizes: PartSizes) -> usize {
        C::enough(sizes).saturating_mul(sizes.per_block)
    }

    fn none(alloc: Global, _: PartSizes) -> Result<Table<T, C>, OutOfMemory> {
        Ok(Table::empty(alloc))
    }

    fn copied(&self, alloc: Global, _: PartSizes) -> Result<Table<T, C>, OutOfMemory> {
        self.try_clone(alloc)
    }

    fn and(self, other: &Table<T, C>) -> Result<Table<T, C>, OutOfMemory> {
        self.and_all(&other.parts)
    }

    fn between(
        alloc: Global,
        before: &Table<T, C>,
        upto: usize,
        items: Vec<T>,
        behind: &Table<T, C>,
        from: usize,
        sizes: PartSizes,
    ) -> Result<Table<T, C>, OutOfMemory>
        requires upto { upto ≤ length before.now }
        requires from { from ≤ length behind.now }
        requires before { 0 < length before.now }
        requires behind { 0 < length behind.now }
        requires small { length (take upto before.now) + length items.items
            + length (drop from behind.now)
            < 2 ^ 32 }
        ensures { IfOk result
            (λ all. all ≡ take upto before.now ++ items.items ++ drop from behind.now) }
    {
        let last = spot_of(&before.parts, upto);
        let first = spot_of(&behind.parts, from);
        let (front, back) = (
            before.parts[last.chunk].contents(),
            behind.parts[first.chunk].contents(),
        );
        let new = C::between(
            alloc,
            front,
            upto - last.start,
            items,
            back,
            from - first.start,
            sizes,
        )?;
        let middle = new.count() / 2;
        let next = first.chunk + 1;
        spliced(
            alloc,
            &before.parts[..last.chunk],
            new,
            middle,
            &behind.parts[next..],
            sizes,
        )
    }

    fn cut(
        self,
        alloc: Global,
        _: usize,
        sizes: PartSizes,
    ) -> Result<(Table<T, C>, Table<T, C>), OutOfMemory> {
        if !is_over(self.parts.len(), sizes.per_block) {
            return Ok((self, Table::empty(alloc)));
        }
        let (front, back) = self
            .parts
            .split_at(even_share(self.parts.len(), sizes.per_block));
        Ok((
            Table::with_room(alloc, front.len())?.and_all(front)?,
            Table::with_room(alloc, back.len())?.and_all(back)?,
        ))
    }

    fn change<O: Also>(
        &mut self,
        alloc: Global,
        at: usize,
        change: ItemChange<T>,
        sizes: PartSizes,
        other: &mut O,
        also: O::Change,
    ) -> Result<(), OutOfMemory>
        requires place { IsPositionOf change at self.old }
        requires other { O.may also other.old }
        ensures items { self.new ≡ changed_if (is_ok result) change at self.old }
        ensures fits { IsKept change (length self.old) (⊤) → ⊤ → ⊤ }
        ensures made { OnOk result (O.makes also other.old other.new) }
        ensures same { OnErr result (other.new ≡ other.old) }
    {
        let Some(spot) = spot_for(&self.parts, at, &change, sizes) else {
            let list = self.remade(alloc, at, change, sizes)?;
            other.make(alloc, also)?;
            *self = list;
            return Ok(());
        };
        let part = &mut self.parts[spot.chunk];
        let before = part.count();
        let made = part.change(alloc, at - spot.start, change, sizes, other, also);
        let after = part.count();
        self.count = self.count - before + after;
        made
    }

    fn shift(
        &mut self,
        alloc: Global,
        from: usize,
        to: usize,
        item: T,
        sizes: PartSizes,
    ) -> Result<(), OutOfMemory> {
        let (source, target, place) = spots_of(&self.parts, from, to);
        if source.chunk == target.chunk {
            let (from, to) = (from - source.start, to - source.start);
            return self.parts[source.chunk].shift(alloc, from, to, item, sizes);
        }
        if !may_pass(&self.parts, source.chunk, target.chunk, sizes) {
            return self.shift_remade(alloc, from, to, item, sizes);
        }
        let (part, goal) = two_of(&mut self.parts, source.chunk, target.chunk);
        let also = PartChange {
            at: place - target.start,
            change: ItemChange::Insert(item),
            sizes,
        };
        let at = from - source.start;
        part.change(alloc, at, ItemChange::Remove, sizes, goal, also)
    }

    fn after(
        self,
        alloc: Global,
        at: usize,
        change: ItemChange<T>,
        sizes: PartSizes,
    ) -> Result<Table<T, C>, OutOfMemory>
        requires { IsPositionOf change at self }
        ensures { IfOk result (λ other. other ≡ changed change at self) }
    {
        self.remade(alloc, at, change, sizes)
    }
}

impl<T: Share, C: Contents<T>> Table<T, C> {
    // The list after a change, which puts the items of a part, or of two short ones, into new ones:
    // they fill whole parts where items are put in one after another.
    fn remade(
        &self,
        alloc: Global,
        at: usize,
        change: ItemChange<T>,
        sizes: PartSizes,
    ) -> Result<Table<T, C>, OutOfMemory>
        requires { IsPositionOf change at self.now }
        ensures { IfOk result (λ list. list ≡ changed change at self.now) }
    {
        let span = part_about(&self.parts, at, sizes);
        let place = at - span.start;
        let old = merged(alloc, &self.parts[span.first..span.end], sizes)?;
        let new = old.after(alloc, place, change, sizes)?;
        let (front, back) = (&self.parts[..span.first], &self.parts[span.end..]);
        spliced(alloc, front, new, place, back, sizes)
    }

    // A move by two changes that make parts anew.
    fn shift_remade(
        &mut self,
        alloc: Global,
        from: usize,
        to: usize,
        item: T,
        sizes: PartSizes,
    ) -> Result<(), OutOfMemory>
        requires from { from < length self.old }
        requires to { to < length self.old }
        ensures { self.new ≡ cond (is_ok result) (insert (remove self.old from) to item) self.old }
    {
        // From what is read here the proof knows that the list is small, so an item may come back.
        let _parts = &self.parts;
        let list = self.remade(alloc, from, ItemChange::Remove, sizes)?;
        *self = list.remade(alloc, to, ItemChange::Insert(item), sizes)?;
        Ok(())
    }
}

// Whether there are more parts than one gets that gets so many.
fn is_over(parts: usize, per_block: usize) -> bool {
    parts / 2 >= per_block
}

// How many parts one gets, where they are put into some of much the same size, each of which gets
// about so many.
fn even_share(parts: usize, per_block: usize) -> usize
    ensures within { result ≤ parts }
    ensures some { 0 < parts → 0 < result }
{
    let shares = (parts / per_block.max(1)).max(1);
    parts.min((parts / shares).saturating_add(1))
}
