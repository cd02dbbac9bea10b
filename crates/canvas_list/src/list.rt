//! The list, as a table of its blocks. A call of that table's own functions is proved from what blocks
//! are. Each is called in one place, so that callers of a list need not know it.

ghost use Rattle.std.specs.Prelude.{◌≡◌, ◌↔◌, ◌<◌, ◌+◌, ◌^◌, ◌++◌, [], IfOk, IsTrue, length, slice_index_or};
ghost use Rattle.std.specs.List.{slice_get};
ghost use Rattle.std.specs.Option.{option_copied};
ghost use Rattle.canvas_list.specs.Chunks.{joined};

use crate::part::Block;
use crate::share::Share;
use crate::sizes::PartSizes;
use crate::table::{Blocks, Chunks, Table};
use canvas_code::OutOfMemory;
use std::alloc::Global;
use std::marker::Model;

/// Items in order, seen as the list of them. A call that answers want of memory leaves the list as it
/// was.
pub struct SharedList<T: Share> {
    pub(crate) table: Blocks<T>,
}

impl<T: Share> Model for SharedList<T> {
    ghost use Rattle.std.specs.Prelude.{List};

    ghost Value = { List T };

    ghost view = { λ list. list.table };
}

// Written out, so that a drop of a list is a call, and needs no more than that its items can be shared.
impl<T: Share> Drop for SharedList<T> {
    #[inline(always)]
    fn drop(self) {
        let SharedList { table: _table } = self;
    }
}

impl<T: Share> SharedList<T> {
    /// No items.
    pub fn empty(alloc: Global) -> SharedList<T>
        ensures { result ≡ [] }
    {
        SharedList {
            table: Table {
                parts: Vec::new(alloc),
                count: 0,
            },
        }
    }

    /// How many items there are.
    #[inline(always)]
    pub fn len(&self) -> usize
        ensures len { result ≡ length self.now }
        ensures few { result < 2 ^ 32 }
    {
        self.table.count
    }

    /// Whether there are none.
    pub fn is_empty(&self) -> bool
        ensures { IsTrue result ↔ (self.now ≡ []) }
    {
        self.len() == 0
    }

    /// The item at a position.
    #[inline(always)]
    pub fn at(&self, at: usize) -> &T
        requires { at < length self.now }
        ensures { result.now ≡ slice_index_or self.now at result.now }
    {
        self.table.at(at)
    }

    /// The item at a position, if there is one.
    #[inline(always)]
    pub fn get(&self, at: usize) -> Option<&T>
        ensures { option_copied result ≡ slice_get self.now at }
    {
        if at < self.len() {
            Some(self.at(at))
        } else {
            None
        }
    }

    /// The same items, in the same parts.
    #[inline(always)]
    pub fn try_clone(&self, alloc: Global) -> Result<SharedList<T>, OutOfMemory>
        ensures { IfOk result (λ list. list ≡ self.now) }
    {
        Ok(SharedList {
            table: self.table.try_clone(alloc)?,
        })
    }

    /// The items of some chunks behind these, in as many blocks as they need.
    pub(crate) fn and_chunks(
        self,
        alloc: Global,
        chunks: Chunks<T>,
        sizes: PartSizes,
    ) -> Result<SharedList<T>, OutOfMemory>
        requires { length self + length chunks < 2 ^ 32 }
        ensures { IfOk result (λ list. list ≡ self ++ chunks) }
    {
        let SharedList { table } = self;
        Ok(SharedList {
            table: table.and_contents(alloc, chunks, 0, sizes)?,
        })
    }

    /// Its blocks.
    #[inline(always)]
    pub(crate) fn blocks(&self) -> &[Block<T>]
        ensures same { joined result.now ≡ self.now }
        ensures few { length self.now < 2 ^ 32 }
    {
        let table = &self.table;
        &table.parts
    }
}
