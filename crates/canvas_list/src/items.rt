//! Going over a list, item by item, without an allocation.

ghost use Rattle.std.specs.Prelude.{◌≡◌, ◌<◌, ◌≤◌, ◌-◌, ◌^◌, All, take, drop, length};
ghost use Rattle.std.specs.Iterator.{YieldsFirstRef, YieldsLastRef, item_count};

use crate::contents::Contents;
use crate::list::SharedList;
use crate::reader::Reader;
use crate::share::Share;
use std::marker::Model;

/// The items of a list that are left to go over, in order, seen as the list of them.
#[derive(Drop)]
pub struct Items<'a, T: Share> {
    reader: Reader<'a, T>,
    from: usize,
    end: usize,
}

impl<'a, T: Share> Model for Items<'a, T> {
    ghost use Rattle.std.specs.Prelude.{List, ◌≤◌, ◌-◌, take, drop, length};

    ghost Value = { List T };

    ghost view = { λ items. take (items.end - items.from) (drop items.from items.reader) };

    ghost invariant = { λ items. (items.from ≤ items.end) × (items.end ≤ length items.reader) };
}

impl<'a, T: Share> Items<'a, T> {
    /// A summary of what another tells of, and of all items that are left. It goes by the summaries
    /// of whole parts.
    pub fn summed_with(&self, other: &T::Summary) -> T::Summary
        ensures items { All (T.covers result) self.now }
        ensures other { (item : T) → T.covers other.now item → T.covers result item }
    {
        let list = self.reader.list();
        list.table.summed(self.from, self.end, other)
    }
}

impl<'a, T: Share> Iterator for Items<'a, T> {
    type Item = &'a T;

    ghost next_gives = { YieldsFirstRef (λ items. items) };

    ghost remaining = { item_count (λ items. items) };

    #[inline(always)]
    fn next(&mut self) -> Option<&'a T> {
        if self.from == self.end {
            return None;
        }
        let item = self.reader.at(self.from);
        self.from += 1;
        Some(item)
    }
}

impl<'a, T: Share> DoubleEndedIterator for Items<'a, T> {
    ghost next_back_gives = { YieldsLastRef (λ items. items) };

    #[inline(always)]
    fn next_back(&mut self) -> Option<&'a T> {
        if self.from == self.end {
            return None;
        }
        self.end -= 1;
        Some(self.reader.at(self.end))
    }
}

impl<T: Share> SharedList<T> {
    /// All items.
    pub fn iter(&self) -> Items<'_, T>
        ensures items { result ≡ self.now }
        ensures few { length result < 2 ^ 32 }
    {
        self.iter_range(0, self.len())
    }

    /// The items from a position on.
    pub fn iter_from(&self, at: usize) -> Items<'_, T>
        requires { at ≤ length self.now }
        ensures items { result ≡ drop at self.now }
        ensures few { length result < 2 ^ 32 }
    {
        self.iter_range(at, self.len())
    }

    /// The items before a position; `rev` gives them backwards from it.
    pub fn iter_before(&self, at: usize) -> Items<'_, T>
        requires { at ≤ length self.now }
        ensures items { result ≡ take at self.now }
        ensures few { length result < 2 ^ 32 }
    {
        self.iter_range(0, at)
    }

    /// The items from a position on, up to another, which itself stays out.
    pub fn iter_range(&self, from: usize, to: usize) -> Items<'_, T>
        requires order { from ≤ to }
        requires within { to ≤ length self.now }
        ensures items { result ≡ take (to - from) (drop from self.now) }
        ensures few { length result < 2 ^ 32 }
    {
        Items {
            reader: self.reader(),
            from,
            end: to,
        }
    }
}
