//! Reading a list at positions that often stand side by side.

ghost use Rattle.std.specs.Prelude.{◌≡◌, ◌<◌, ◌≤◌, ◌+◌, ◌^◌, IfSome, List, length, slice_index_or, take, false, true};
ghost use Rattle.canvas_list.specs.Chunks.{joined, AllBetween, IsRun, IsSpot, IsStretch};

use crate::contents::Contents;
use crate::counted::{Counted, Spot, begin_before, spot_near, spot_of};
use crate::hint::Hint;
use crate::list::SharedList;
use crate::part::{Block, Chunk, Part};
use crate::share::Share;
use crate::table::{Blocks, Chunks};
use std::marker::Model;

/// A reader of a list, seen as that list. It holds the chunk of the item that it gave last, that a
/// walk came to, or to which the hint of a range's start led, if there was one. Of this it gives
/// another item without a search, as it does of the next chunk of the same block. From the end of
/// the block a walk goes on with the blocks beyond it.
#[derive(Drop)]
pub struct Reader<'a, T: Share> {
    list: &'a SharedList<T>,
    held: Stretch<'a, T>,
}

impl<'a, T: Share> Model for Reader<'a, T> {
    ghost use Rattle.std.specs.Prelude.{List, length, ◌<◌, ◌^◌};
    ghost use Rattle.canvas_list.specs.Chunks.{joined, IsStretch};

    ghost Value = { List T };

    ghost view = { λ reader. reader.list.now };

    ghost invariant = { λ reader. length reader.list.now < 2 ^ 32
        × IsStretch reader.list.now reader.held.items.now (joined reader.held.behind.now)
        (joined reader.held.beyond.now) reader.held.start reader.held.beyond_start };
}

impl<'a, T: Share> Reader<'a, T> {
    /// The list.
    pub(crate) fn list(&self) -> &'a SharedList<T>
        ensures { result.now ≡ self.now }
    {
        self.list
    }

    /// The item at a position.
    #[inline(always)]
    pub fn at(&mut self, at: usize) -> &'a T
        requires { at < length self.old }
        ensures item { result.now ≡ slice_index_or self.old at result.now }
        ensures same { self.new ≡ self.old }
    {
        if at < self.held.start || at - self.held.start >= self.held.items.len() {
            self.held = self.stretch_at(at);
        }
        &self.held.items[at - self.held.start]
    }

    /// The position of the first item from `from` on that may meet what is sought, or `end` where
    /// none before that may. Parts whose summaries lie apart from it are passed over.
    #[inline(always)]
    pub fn next_meeting(&mut self, from: usize, end: usize, sought: &T::Summary) -> usize
        requires order { from ≤ end }
        requires within { end ≤ length self.old }
        ensures from { from ≤ result }
        ensures upto { result ≤ end }
        ensures apart { AllBetween (T.lies_apart sought.now) self.old from result }
        ensures same { self.new ≡ self.old }
    {
        let mut at = from;
        'walk: while at < end {
            let seen = self.look_on(at, end, sought);
            if seen.meets {
                return seen.at;
            }
            at = seen.at;
        }
        end
    }

    // Goes on from a position to the next item that may meet what is sought, or as far as the end of a part.
    #[inline(always)]
    fn look_on(&mut self, at: usize, end: usize, sought: &T::Summary) -> Seen
        requires within { at < end }
        requires end { end ≤ length self.old }
        ensures on { result.meets ≡ false → at < result.at }
        ensures from { at ≤ result.at }
        ensures upto { result.meets ≡ true → result.at < end }
        ensures apart { AllBetween (T.lies_apart sought.now) self.old at result.at }
        ensures same { self.new ≡ self.old }
    {
        if at < self.held.start || at - self.held.start >= self.held.items.len() {
            self.held = self.stretch_meeting(at, end, sought);
        }
        let from = at.max(self.held.start);
        let upto = end.min(self.held.start + self.held.items.len());
        if from >= upto {
            return Seen {
                at: from,
                meets: false,
            };
        }
        let first = from - self.held.start;
        let last = upto - self.held.start;
        let place = from + place_meeting(&self.held.items[first..last], sought);
        Seen {
            at: place,
            meets: place < upto,
        }
    }

    // The items of the chunk of a position, or of one behind it, or none; what stands between lies
    // apart.
    fn stretch_meeting(&self, at: usize, end: usize, sought: &T::Summary) -> Stretch<'a, T>
        requires within { at < end }
        requires end { end ≤ length self.now }
        ensures held { IsStretch self.now result.items.now (joined result.behind.now)
            (joined result.beyond.now) result.start result.beyond_start }
        ensures on { at < result.start + length result.items.now }
        ensures apart { AllBetween (T.lies_apart sought.now) self.now at result.start }
    {
        let held = &self.held;
        if at >= held.start && at - held.start == held.items.len() && !held.behind.is_empty() {
            let found = chunk_meeting(held.behind, end - at, sought);
            return Stretch {
                start: at + found.start,
                beyond: held.beyond,
                beyond_start: held.beyond_start,
                ..found
            };
        }
        if at == held.beyond_start && !held.beyond.is_empty() {
            let found = block_meeting(held.beyond, end - at, sought);
            return Stretch {
                start: at + found.start,
                beyond_start: at + found.beyond_start,
                ..found
            };
        }
        let list = self.list;
        list.table.stretch_meeting(at, end, sought)
    }

    // The items of the chunk of a position, most often the next one of the block.
    fn stretch_at(&self, at: usize) -> Stretch<'a, T>
        requires { at < length self.now }
        ensures held { IsStretch self.now result.items.now (joined result.behind.now)
            (joined result.beyond.now) result.start result.beyond_start }
        ensures from { result.start ≤ at }
        ensures upto { at < result.start + length result.items.now }
    {
        let held = &self.held;
        if at >= held.start && at - held.start == held.items.len() {
            if let Some((next, behind)) = held.behind.split_first() {
                return Stretch {
                    items: next.items(),
                    start: at,
                    behind,
                    beyond: held.beyond,
                    beyond_start: held.beyond_start,
                };
            }
        }
        let list = self.list;
        list.table.stretch_at(at)
    }
}

// How far a walk has come, and whether the item there may meet what it seeks.
#[derive(Clone, Copy)]
struct Seen {
    at: usize,
    meets: bool,
}

/// The items of a chunk, or none, where they start, the chunks of their block behind them, and
/// blocks beyond that one, or none, and where they start.
#[derive(Drop)]
struct Stretch<'a, T: Share> {
    items: &'a [T],
    start: usize,
    behind: &'a [Chunk<T>],
    beyond: &'a [Block<T>],
    beyond_start: usize,
}

/// A stretch that is searched by hints: the items of a chunk, where they start, its hint, the
/// chunks of its block behind it, and the blocks beyond that one, and where they start.
#[derive(Drop)]
pub(crate) struct Run<'a, T: Share> {
    pub(crate) items: &'a [T],
    pub(crate) start: usize,
    // What the table notes of the first one.
    pub(crate) hint: Hint,
    pub(crate) behind: &'a [Chunk<T>],
    pub(crate) beyond: &'a [Block<T>],
    pub(crate) beyond_start: usize,
}

// No items, where a search came to.
fn nothing<'a, T: Share>(start: usize) -> Stretch<'a, T>
    ensures start { result.start ≡ start }
    ensures held { (xs : List T) → start ≤ length xs
        → IsStretch xs result.items.now (joined result.behind.now) (joined result.beyond.now)
        result.start result.beyond_start }
{
    Stretch {
        items: &[],
        start,
        behind: &[],
        beyond: &[],
        beyond_start: 0,
    }
}

// How many items come before the first that may meet what is sought, or all.
fn place_meeting<T: Share>(items: &[T], sought: &T::Summary) -> usize
    ensures within { result ≤ length items.now }
    ensures apart { AllBetween (T.lies_apart sought.now) items.now 0 result }
{
    for (place, item) in items.iter().enumerate() {
        if item.may_have(sought) {
            return place;
        }
    }
    items.len()
}

// The first of some parts that may meet what is sought, or the end of them all, and how many items
// come before it. It stops once there are so many.
fn part_meeting<T: Share, C: Contents<T>>(
    parts: &[Part<T, C>],
    room: usize,
    sought: &T::Summary,
) -> Spot
    requires { length (joined parts.now) < 2 ^ 32 }
    ensures within { result.chunk ≤ length parts.now }
    ensures start { result.start ≡ length (joined (take result.chunk parts.now)) }
    ensures on { 0 < result.chunk → 0 < result.start }
    ensures apart { AllBetween (T.lies_apart sought.now) (joined parts.now) 0 result.start }
{
    let mut start = 0;
    for (chunk, part) in parts.iter().enumerate() {
        if start >= room || T::may_meet(part.summary(), sought) {
            return Spot { chunk, start };
        }
        start += part.count();
    }
    Spot {
        chunk: parts.len(),
        start,
    }
}

// The same of blocks.
#[inline(always)]
fn meeting_block<T: Share>(blocks: &[Block<T>], room: usize, sought: &T::Summary) -> Spot
    requires { length (joined blocks.now) < 2 ^ 32 }
    ensures within { result.chunk ≤ length blocks.now }
    ensures start { result.start ≡ length (joined (take result.chunk blocks.now)) }
    ensures on { 0 < result.chunk → 0 < result.start }
    ensures apart { AllBetween (T.lies_apart sought.now) (joined blocks.now) 0 result.start }
{
    part_meeting(blocks, room, sought)
}

// The block that has a position, or the last one.
#[inline(always)]
fn block_of<T: Share>(blocks: &[Block<T>], at: usize) -> Spot
    requires { 0 < length blocks.now }
    ensures { IsSpot length blocks.now at result.chunk result.start }
{
    spot_of(blocks, at)
}

// The first of some chunks that may meet what is sought, and those behind it. Where none of the
// first `room` items stands in one that may: the chunk at which the search stopped, or no items at
// the end of all.
fn chunk_meeting<'a, T: Share>(
    chunks: &'a [Chunk<T>],
    room: usize,
    sought: &T::Summary,
) -> Stretch<'a, T>
    requires some { 0 < length chunks.now }
    requires few { length (joined chunks.now) < 2 ^ 32 }
    ensures held { IsStretch (joined chunks.now) result.items.now (joined result.behind.now)
        (joined result.beyond.now) result.start result.beyond_start }
    ensures on { 0 < result.start + length result.items.now }
    ensures apart { AllBetween (T.lies_apart sought.now) (joined chunks.now) 0 result.start }
{
    let spot = part_meeting(chunks, room, sought);
    if spot.chunk == chunks.len() {
        return nothing(spot.start);
    }
    Stretch {
        items: chunks[spot.chunk].items(),
        start: spot.start,
        behind: &chunks[spot.chunk + 1..],
        beyond: &[],
        beyond_start: 0,
    }
}

// The same of some blocks: of the first that may meet what is sought.
fn block_meeting<'a, T: Share>(
    blocks: &'a [Block<T>],
    room: usize,
    sought: &T::Summary,
) -> Stretch<'a, T>
    requires some { 0 < length blocks.now }
    requires few { length (joined blocks.now) < 2 ^ 32 }
    ensures held { IsStretch (joined blocks.now) result.items.now (joined result.behind.now)
        (joined result.beyond.now) result.start result.beyond_start }
    ensures on { 0 < result.start + length result.items.now }
    ensures apart { AllBetween (T.lies_apart sought.now) (joined blocks.now) 0 result.start }
{
    let spot = meeting_block(blocks, room, sought);
    if spot.chunk == blocks.len() {
        return nothing(spot.start);
    }
    let block = &blocks[spot.chunk];
    let found = block
        .table()
        .chunk_meeting(room.saturating_sub(spot.start), sought);
    Stretch {
        start: spot.start + found.start,
        beyond: &blocks[spot.chunk + 1..],
        beyond_start: spot.start + block.count(),
        ..found
    }
}

impl<T: Share> SharedList<T> {
    /// A reader of the list.
    pub fn reader(&self) -> Reader<'_, T>
        ensures { result ≡ self.now }
    {
        // It holds no items, where the list ends: from its length a proof knows that all positions are small.
        Reader {
            list: self,
            held: nothing(self.len()),
        }
    }

    /// Of a chunk, those behind it and those of the blocks beyond, the one in which the items that
    /// come before a hint end, most likely.
    #[inline(always)]
    pub(crate) fn run_from<'a>(&'a self, run: &Run<'a, T>, hint: Hint) -> Run<'a, T>
        requires held { IsStretch self.now run.now.items.now (joined run.now.behind.now)
            (joined run.now.beyond.now) run.now.start run.now.beyond_start }
        requires small { length self.now < 2 ^ 32 }
        ensures run { IsRun self.now result.items.now result.start }
        ensures few { result.start + length result.items.now < 2 ^ 32 }
    {
        if begin_before(run.beyond, hint) {
            let found = run_over(run.beyond, hint);
            return Run {
                start: run.beyond_start + found.start,
                ..found
            };
        }
        if begin_before(run.behind, hint) {
            let found = run_in(run.behind, hint);
            return Run {
                start: run.start + run.items.len() + found.start,
                ..found
            };
        }
        Run { ..*run }
    }

    /// A reader of the list that holds a chunk from the start.
    #[inline(always)]
    pub(crate) fn reader_of<'a>(&'a self, run: Run<'a, T>) -> Reader<'a, T>
        requires { IsStretch self.now run.items.now (joined run.behind.now)
            (joined run.beyond.now) run.start run.beyond_start }
        ensures { result ≡ self.now }
    {
        Reader {
            held: Stretch {
                items: run.items,
                start: run.start,
                behind: run.behind,
                beyond: run.beyond,
                beyond_start: run.beyond_start,
            },
            ..self.reader()
        }
    }

    /// The items of the chunk in which those that come before a hint end, most likely, if there is an item.
    #[inline(always)]
    pub(crate) fn run_near(&self, hint: Hint) -> Option<Run<'_, T>>
        ensures held { IfSome result (λ run. IsStretch self.now run.items.now
            (joined run.behind.now) (joined run.beyond.now) run.start run.beyond_start) }
        ensures few { IfSome result (λ run. run.start + length run.items.now < 2 ^ 32) }
        ensures small { length self.now < 2 ^ 32 }
    {
        let blocks = self.blocks();
        if blocks.is_empty() {
            return None;
        }
        Some(run_over(blocks, hint))
    }
}

impl<T: Share> Blocks<T> {
    // The items of the chunk of a position.
    fn stretch_at(&self, at: usize) -> Stretch<'_, T>
        requires { at < length self.now }
        ensures held { IsStretch self.now result.items.now (joined result.behind.now)
            (joined result.beyond.now) result.start result.beyond_start }
        ensures from { result.start ≤ at }
        ensures upto { at < result.start + length result.items.now }
    {
        let spot = block_of(&self.parts, at);
        let block = &self.parts[spot.chunk];
        let found = block.table().stretch_at(at - spot.start);
        let next = spot.chunk + 1;
        Stretch {
            start: spot.start + found.start,
            beyond: &self.parts[next..],
            beyond_start: spot.start + block.count(),
            ..found
        }
    }

    // The items of the chunk of a position, or none, where the next block begins that may meet what
    // is sought.
    fn stretch_meeting(&self, at: usize, end: usize, sought: &T::Summary) -> Stretch<'_, T>
        requires within { at < end }
        requires end { end ≤ length self.now }
        ensures held { IsStretch self.now result.items.now (joined result.behind.now)
            (joined result.beyond.now) result.start result.beyond_start }
        ensures on { at < result.start + length result.items.now }
        ensures apart { AllBetween (T.lies_apart sought.now) self.now at result.start }
    {
        let spot = block_of(&self.parts, at);
        let found = meeting_block(&self.parts[spot.chunk..], end - spot.start, sought);
        let start = spot.start + found.start;
        if start <= at {
            return self.stretch_at(at);
        }
        nothing(start)
    }
}

impl<T: Share> Chunks<T> {
    // The items of the chunk of a position.
    fn stretch_at(&self, at: usize) -> Stretch<'_, T>
        requires { at < length self.now }
        ensures held { IsStretch self.now result.items.now (joined result.behind.now)
            (joined result.beyond.now) result.start result.beyond_start }
        ensures from { result.start ≤ at }
        ensures upto { at < result.start + length result.items.now }
    {
        let spot = spot_of(&self.parts, at);
        let next = spot.chunk + 1;
        Stretch {
            items: self.parts[spot.chunk].items(),
            start: spot.start,
            behind: &self.parts[next..],
            beyond: &[],
            beyond_start: 0,
        }
    }

    // As the function of that name, over all its chunks.
    fn chunk_meeting(&self, room: usize, sought: &T::Summary) -> Stretch<'_, T>
        requires { 0 < length self.now }
        ensures held { IsStretch self.now result.items.now (joined result.behind.now)
            (joined result.beyond.now) result.start result.beyond_start }
        ensures on { 0 < result.start + length result.items.now }
        ensures apart { AllBetween (T.lies_apart sought.now) self.now 0 result.start }
    {
        chunk_meeting(&self.parts, room, sought)
    }

    // The items of the chunk in which those that come before a hint end, most likely.
    #[inline(always)]
    fn run_near(&self, hint: Hint) -> Run<'_, T>
        requires { 0 < length self.now }
        ensures { IsStretch self.now result.items.now (joined result.behind.now)
            (joined result.beyond.now) result.start result.beyond_start }
    {
        run_in(&self.parts, hint)
    }
}

// Of some chunks the one in which the items that come before a hint end, most likely.
#[inline(always)]
fn run_in<T: Share>(chunks: &[Chunk<T>], hint: Hint) -> Run<'_, T>
    requires some { 0 < length chunks.now }
    requires few { length (joined chunks.now) < 2 ^ 32 }
    ensures { IsStretch (joined chunks.now) result.items.now (joined result.behind.now)
        (joined result.beyond.now) result.start result.beyond_start }
{
    let spot = spot_near(chunks, hint);
    let behind = &chunks[spot.chunk + 1..];
    Run {
        items: chunks[spot.chunk].items(),
        start: spot.start,
        hint: chunks[spot.chunk].hint(),
        behind,
        beyond: &[],
        beyond_start: 0,
    }
}

// Of some blocks the chunk in which the items that come before a hint end, most likely.
#[inline(always)]
fn run_over<T: Share>(blocks: &[Block<T>], hint: Hint) -> Run<'_, T>
    requires some { 0 < length blocks.now }
    requires few { length (joined blocks.now) < 2 ^ 32 }
    ensures { IsStretch (joined blocks.now) result.items.now (joined result.behind.now)
        (joined result.beyond.now) result.start result.beyond_start }
{
    let spot = spot_near(blocks, hint);
    let block = &blocks[spot.chunk];
    let run = block.table().run_near(hint);
    Run {
        start: spot.start + run.start,
        beyond: &blocks[spot.chunk + 1..],
        beyond_start: spot.start + block.count(),
        ..run
    }
}
