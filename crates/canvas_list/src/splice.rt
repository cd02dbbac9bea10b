//! Other items in place of a range of a list.

ghost use Rattle.std.specs.Prelude.{◌≡◌, ◌<◌, ◌≤◌, ◌+◌, ◌^◌, ◌++◌, IfOk, take, drop, length};

use crate::contents::Contents;
use crate::list::SharedList;
use crate::share::Share;
use crate::sizes::PartSizes;
use canvas_code::OutOfMemory;
use std::alloc::Global;

// The items of a list up to a position, others, and those of a list from a position on.
#[inline(always)]
fn between<T: Share>(
    alloc: Global,
    before: &SharedList<T>,
    upto: usize,
    items: Vec<T>,
    behind: &SharedList<T>,
    from: usize,
    sizes: PartSizes,
) -> Result<SharedList<T>, OutOfMemory>
    requires upto { upto ≤ length before.now }
    requires from { from ≤ length behind.now }
    requires before { 0 < length before.now }
    requires behind { 0 < length behind.now }
    requires small { length (take upto before.now) + length items.items
        + length (drop from behind.now)
        < 2 ^ 32 }
    ensures { IfOk result
        (λ all. all ≡ take upto before.now ++ items.items ++ drop from behind.now) }
{
    let (front, back) = (&before.table, &behind.table);
    let table = Contents::between(alloc, front, upto, items, back, from, sizes)?;
    Ok(SharedList { table })
}

impl<T: Share> SharedList<T> {
    /// The list with other items in place of those from `first` up to `end`, which itself stays.
    pub fn with_spliced(
        &self,
        alloc: Global,
        first: usize,
        end: usize,
        items: Vec<T>,
    ) -> Result<SharedList<T>, OutOfMemory>
        requires order { first ≤ end }
        requires within { end ≤ length self.now }
        requires few { length self.now + length items.items < 2 ^ 32 }
        ensures { IfOk result
            (λ list. list ≡ take first self.now ++ items.items ++ drop end self.now) }
    {
        if self.is_empty() {
            return SharedList::from_vec(alloc, items);
        }
        let sizes = PartSizes::of(self.len() - (end - first) + items.len());
        if items.len() / 2 <= sizes.per_chunk {
            return between(alloc, self, first, items, self, end, sizes);
        }
        let more = items.len();
        let middle = SharedList::from_vec(alloc, items)?;
        let front = between(alloc, self, first, Vec::new(alloc), &middle, 0, sizes)?;
        between(
            alloc,
            &front,
            first + more,
            Vec::new(alloc),
            self,
            end,
            sizes,
        )
    }
}
