//! Lists made of all its items at once.

ghost use Rattle.std.specs.Prelude.{◌≡◌, ◌<◌, ◌^◌, IfOk, length};

use crate::list::SharedList;
use crate::part::Chunk;
use crate::share::Share;
use crate::sizes::PartSizes;
use crate::table::Chunks;
use canvas_code::OutOfMemory;
use std::alloc::Global;

impl<T: Share> SharedList<T> {
    /// The items of a `Vec`.
    pub fn from_vec(alloc: Global, items: Vec<T>) -> Result<SharedList<T>, OutOfMemory>
        requires { length items.items < 2 ^ 32 }
        ensures { IfOk result (λ list. list ≡ items.items) }
    {
        let sizes = PartSizes::of(items.len());
        let chunks = full_chunks(alloc, items, sizes)?;
        SharedList::empty(alloc).and_chunks(alloc, chunks, sizes)
    }
}

// The items of a `Vec` in full chunks, but for the last one.
fn full_chunks<T: Share>(
    alloc: Global,
    items: Vec<T>,
    sizes: PartSizes,
) -> Result<Chunks<T>, OutOfMemory>
    requires { length items.items < 2 ^ 32 }
    ensures { IfOk result (λ chunks. chunks ≡ items.items) }
{
    let per_chunk = sizes.per_chunk;
    let mut list = Chunks::with_room(alloc, items.len() / per_chunk + 1)?;
    let mut fresh = Vec::with_capacity(alloc, per_chunk)?;
    for item in items {
        fresh.push(item)?;
        if fresh.len() == per_chunk {
            list = list.and_part(Chunk::new(alloc, fresh)?)?;
            fresh = Vec::with_capacity(alloc, per_chunk)?;
        }
    }
    list.and_contents(alloc, fresh, 0, sizes)
}
