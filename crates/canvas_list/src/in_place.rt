//! Changes of a list at one position. What other lists share on the way to it is copied first; then
//! the change is made where the item stands.

ghost use Rattle.std.specs.Prelude.{◌≡◌, ◌<◌, ◌≤◌, ◌+◌, IfOk, OnErr, OnOk, length, ⊤};
ghost use Rattle.std.specs.Result.{is_ok};
ghost use Rattle.std.specs.Vec.{vec_len, vec_capacity};
ghost use Rattle.canvas_list.specs.Changed.{changed, changed_if, list_changed, IsKept, IsPositionOf, MayChange};

use crate::also::{Alone, Also};
use crate::contents::Contents;
use crate::list::SharedList;
use crate::moves::ListChange;
use crate::part::{Block, merged};
use crate::share::Share;
use crate::sizes::PartSizes;
use canvas_code::OutOfMemory;
use std::alloc::Global;
use std::marker::Model;

/// What becomes of the item at a position.
#[derive(Drop)]
pub enum ItemChange<T> {
    /// Another item stands there.
    Replace(T),
    /// It is gone.
    Remove,
    /// One more item stands before it, or at the end.
    Insert(T),
}

/// Makes room for a change of items: for so many where one is to come.
pub(crate) fn make_room<T>(
    items: &mut Vec<T>,
    change: &ItemChange<T>,
    room: usize,
) -> Result<(), OutOfMemory>
    ensures items { items.new.items ≡ items.old.items }
    ensures room { OnOk result (IsKept change.now 2 (vec_len items.new < vec_capacity items.new)) }
{
    if let ItemChange::Insert(_) = change {
        items.reserve_exact(room.saturating_sub(items.len()).max(1))?;
    }
    Ok(())
}

/// Changes items that have room for it.
pub(crate) fn change_items<T: Drop>(items: &mut Vec<T>, at: usize, change: ItemChange<T>)
    requires place { IsPositionOf change at items.old.items }
    requires room { IsKept change 2 (vec_len items.old < vec_capacity items.old) }
    ensures { items.new.items ≡ changed change at items.old.items }
{
    match change {
        ItemChange::Replace(item) => items[at] = item,
        ItemChange::Remove => {
            items.remove(at);
        }
        // There is room, so it can't fail.
        ItemChange::Insert(item) => {
            let _ = items.insert(at, item);
        }
    }
}

impl<T: Share> SharedList<T> {
    /// Changes the item at a position. Where memory is refused, the list stays as it was.
    pub fn change(
        &mut self,
        alloc: Global,
        at: usize,
        change: ItemChange<T>,
    ) -> Result<(), OutOfMemory>
        requires { IsPositionOf change at self.old }
        ensures made { OnOk result (self.new ≡ changed change at self.old) }
        ensures same { OnErr result (self.new ≡ self.old) }
    {
        self.change_with(alloc, at, change, &mut Alone, ())
    }

    /// The same together with a change of another list: both are made, or where memory is refused neither.
    pub fn change_both<U: Share>(
        &mut self,
        alloc: Global,
        at: usize,
        change: ItemChange<T>,
        other: &mut SharedList<U>,
        also: ListChange<U>,
    ) -> Result<(), OutOfMemory>
        requires place { IsPositionOf change at self.old }
        requires other { MayChange also other.old }
        ensures made { OnOk result (self.new ≡ changed change at self.old) }
        ensures same { OnErr result (self.new ≡ self.old) }
        ensures made_there { OnOk result (other.new ≡ list_changed also other.old) }
        ensures same_there { OnErr result (other.new ≡ other.old) }
    {
        self.change_with(alloc, at, change, other, also)
    }

    // Changes an item together with something else.
    fn change_with<O: Also>(
        &mut self,
        alloc: Global,
        at: usize,
        change: ItemChange<T>,
        other: &mut O,
        also: O::Change,
    ) -> Result<(), OutOfMemory>
        requires place { IsPositionOf change at self.old }
        requires other { O.may also other.old }
        ensures items { self.new ≡ changed_if (is_ok result) change at self.old }
        ensures made { OnOk result (O.makes also other.old other.new) }
        ensures same { OnErr result (other.new ≡ other.old) }
    {
        let sizes = PartSizes::of(self.len());
        let blocks = self.blocks().len();
        Contents::change(&mut self.table, alloc, at, change, sizes, other, also)?;
        self.balance_beyond(alloc, blocks, sizes);
        Ok(())
    }

    /// Makes all blocks anew, if there are more than so many and they have few chunks each: most
    /// likely they were made while the list was short. Where memory is refused they stay, until the
    /// next block comes.
    #[inline(always)]
    pub(crate) fn balance_beyond(&mut self, alloc: Global, blocks: usize, sizes: PartSizes)
        ensures { self.new ≡ self.old }
    {
        if self.blocks().len() <= blocks || !have_few_chunks(self.blocks(), sizes.per_block) {
            return;
        }
        if let Ok(list) = self.balanced(alloc, sizes) {
            *self = list;
        }
    }

    // The same items in blocks of much the same size.
    fn balanced(&self, alloc: Global, sizes: PartSizes) -> Result<SharedList<T>, OutOfMemory>
        ensures { IfOk result (λ list. list ≡ self.now) }
    {
        let chunks = merged(alloc, self.blocks(), sizes)?;
        SharedList::empty(alloc).and_chunks(alloc, chunks, sizes)
    }
}

// Whether there are many blocks with well fewer chunks in the mean than a block gets. Blocks that
// were just made anew do not have so few, nor once one more was put at an end: so they are not made
// anew again and again.
fn have_few_chunks<T: Share>(blocks: &[Block<T>], per_block: usize) -> bool {
    if blocks.len() < per_block.saturating_add(per_block / 4) {
        return false;
    }
    let mut chunks: usize = 0;
    for block in blocks {
        chunks = chunks.saturating_add(block.table().parts.len());
    }
    chunks / blocks.len().max(1) < per_block.saturating_mul(7) / 8
}
