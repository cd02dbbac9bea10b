//! Tables of parts, on either level.

ghost use Rattle.std.specs.Prelude.{◌≡◌, ◌<◌, ◌≤◌, ◌+◌, ◌^◌, ◌++◌, [], IfOk, length, slice_index_or};
ghost use Rattle.canvas_list.specs.Chunks.{joined};

use crate::contents::Contents;
use crate::counted::{Counted, spot_of};
use crate::part::Part;
use crate::share::Share;
use crate::sizes::PartSizes;
use canvas_code::OutOfMemory;
use std::alloc::Global;
use std::marker::Model;

/// Items in order, seen as the list of them: some parts, side by side.
#[derive(Drop)]
pub struct Table<T: Share, C: Contents<T>> {
    pub(crate) parts: Vec<Part<T, C>>,
    pub(crate) count: usize,
}

/// What a block holds: chunks.
pub type Chunks<T> = Table<T, Vec<T>>;

/// What a list holds: blocks.
pub type Blocks<T> = Table<T, Chunks<T>>;

impl<T: Share, C: Contents<T>> Model for Table<T, C> {
    ghost use Rattle.std.specs.Prelude.{List};
    ghost use Rattle.canvas_list.specs.Chunks.{joined, IsTable};

    ghost Value = { List T };

    ghost view = { λ list. joined list.parts.items };

    ghost invariant = { λ list. IsTable list.parts.items list.count };
}

impl<T: Share, C: Contents<T>> Table<T, C> {
    /// No items.
    pub(crate) fn empty(alloc: Global) -> Table<T, C>
        ensures { result ≡ [] }
    {
        Table {
            parts: Vec::new(alloc),
            count: 0,
        }
    }

    /// How many items there are.
    #[inline(always)]
    pub(crate) fn len(&self) -> usize
        ensures len { result ≡ length self.now }
        ensures few { result < 2 ^ 32 }
    {
        self.count
    }

    /// The item at a position.
    #[inline(always)]
    pub(crate) fn at(&self, at: usize) -> &T
        requires { at < length self.now }
        ensures { result.now ≡ slice_index_or self.now at result.now }
    {
        let spot = spot_of(&self.parts, at);
        self.parts[spot.chunk].contents().item(at - spot.start)
    }

    /// The same items, in the same parts.
    pub(crate) fn try_clone(&self, alloc: Global) -> Result<Table<T, C>, OutOfMemory>
        ensures { IfOk result (λ list. list ≡ self.now) }
    {
        Table::with_room(alloc, self.parts.len())?.and_all(&self.parts)
    }

    /// No items, and room for some parts.
    pub(crate) fn with_room(alloc: Global, parts: usize) -> Result<Table<T, C>, OutOfMemory>
        ensures { IfOk result (λ list. list ≡ []) }
    {
        let parts = Vec::with_capacity(alloc, parts)?;
        Ok(Table { parts, count: 0 })
    }

    /// One more part.
    pub(crate) fn and_part(self, part: Part<T, C>) -> Result<Table<T, C>, OutOfMemory>
        requires { length self + length part < 2 ^ 32 }
        ensures { IfOk result (λ list. list ≡ self ++ part) }
    {
        let Table { mut parts, count } = self;
        let more = part.count();
        parts.push(part)?;
        Ok(Table {
            parts,
            count: count + more,
        })
    }

    /// More parts, which are shared.
    pub(crate) fn and_all(self, more: &[Part<T, C>]) -> Result<Table<T, C>, OutOfMemory>
        requires { length self + length (joined more.now) < 2 ^ 32 }
        ensures { IfOk result (λ list. list ≡ self ++ joined more.now) }
    {
        let Table {
            mut parts,
            mut count,
        } = self;
        for part in more {
            count += part.count();
            parts.push(part.try_clone()?)?;
        }
        Ok(Table { parts, count })
    }

    /// More items, in as many parts as they need after a change at a place.
    pub(crate) fn and_contents(
        self,
        alloc: Global,
        contents: C,
        place: usize,
        sizes: PartSizes,
    ) -> Result<Table<T, C>, OutOfMemory>
        requires { length self + length (C.list contents) < 2 ^ 32 }
        ensures { IfOk result (λ list. list ≡ self ++ C.list contents) }
    {
        let mut list = self;
        let mut rest = contents;
        let mut near = place;
        'parts: while rest.count() > 0 {
            let (part, behind) = rest.cut(alloc, near, sizes)?;
            list = list.and_part(Part::new(alloc, part)?)?;
            near = behind.count() / 2;
            rest = behind;
        }
        Ok(list)
    }
}

/// Some parts, more items after a change at a place, and parts behind them.
pub(crate) fn spliced<T: Share, C: Contents<T>>(
    alloc: Global,
    front: &[Part<T, C>],
    contents: C,
    place: usize,
    back: &[Part<T, C>],
    sizes: PartSizes,
) -> Result<Table<T, C>, OutOfMemory>
    requires { length (joined front.now) + length (C.list contents) + length (joined back.now)
        < 2 ^ 32 }
    ensures { IfOk result (λ list. list ≡ joined front.now ++ C.list contents ++ joined back.now) }
{
    Table::with_room(
        alloc,
        front.len().saturating_add(back.len()).saturating_add(2),
    )?
    .and_all(front)?
    .and_contents(alloc, contents, place, sizes)?
    .and_all(back)
}
