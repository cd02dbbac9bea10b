//! How large the parts of a list become. These decide what a change costs, and nothing of what a
//! list is.

ghost use Rattle.std.specs.Prelude.{◌<◌, ◌≤◌};
ghost use Rattle.canvas_list.specs.Chunks.{FitsChunk};

/// How many items stand side by side in a chunk, at most.
pub(crate) const MOST_IN_CHUNK: usize = 24;

/// How large the parts of a list get.
#[derive(Clone, Copy)]
pub struct PartSizes {
    /// How many items a chunk gets. One that would get more is cut, in place beside an end that the item
    /// comes to; where the list is made anew, at an end of its block the item gets a chunk of its own. Two
    /// neighbours in a block with no more than half as many together become one where an item is removed.
    pub(crate) per_chunk: usize,
    /// How many chunks a block gets. One with twice as many or more is cut where a change makes it
    /// anew, and gets no more in place. Two neighbours with no more than half as many each become
    /// one where an item of theirs is removed and the list is made anew. Where a single item comes
    /// into a list with one and a quarter times so many blocks or more, which have well fewer
    /// chunks in the mean, all blocks are made anew.
    pub(crate) per_block: usize,
    ghost fits: { FitsChunk per_chunk },
}

impl PartSizes {
    /// The sizes in a list of so many items. A change that makes a new list counts up an owner of
    /// each item of one chunk, of each chunk of one block, and of each block of the list: so all
    /// three grow with the list.
    pub(crate) fn of(items: usize) -> PartSizes
        ensures some { 0 < result.per_block }
        ensures few { result.per_block ≤ 30 }
    {
        let (per_chunk, per_block) = match items {
            0..96 => (6, 4),
            96..384 => (8, 6),
            384..1_536 => (12, 8),
            1_536..6_144 => (16, 14),
            _ => (MOST_IN_CHUNK, 30),
        };
        PartSizes {
            per_chunk,
            per_block,
        }
    }
}
