//! The words of a strip's rows, one below the other. The blocks that show in a word are chosen
//! anew only where one begins or ends, and in a row only the pixels that change are filled.

ghost use Rattle.std.specs.Prelude.{◌≡◌, ℕ, ◌+◌, ◌-◌, ◌*◌, ◌%◌, ◌<◌, ◌≤◌, IfOk, List, [], length, false, true, OnOk, slice_index_or, vec_len, if◌then◌else◌};
ghost use Rattle.canvas_record.specs.Picture.{or_else};
ghost use Rattle.canvas_shape.specs.Words.{has};
ghost use Rattle.canvas_paint.specs.Blocks.{block_fill, last_block_fill};
ghost use Rattle.canvas_paint.specs.Columns.{IsChosen, IsColumn, IsNew, active_fill, masked, masked_fill};
ghost use Rattle.canvas_paint.specs.Words.{covers, is_within};

use crate::active::Active;
use crate::block::Block;
use crate::row::{Pixel, WHITE, fill_word};
use crate::word::{both, differing, either, part, without};
use canvas_code::OutOfMemory;
use std::alloc::Global;

/// A word of each row of a strip.
#[derive(Drop)]
pub(crate) struct Column<'a> {
    /// The blocks that meet the word, from back to front.
    pub blocks: Vec<Block<'a>>,
    /// Those that show in it, from front to back.
    pub active: Vec<Active<'a>>,
    /// Up to which row they are these.
    pub end: usize,
    /// Up to that row, the pixels of the word that a row has.
    pub inside: u64,
    /// Up to which row the word stays the same.
    pub until: usize,
}

impl<'a> Column<'a> {
    /// A column of no block, with room for so many, of which no row was painted.
    pub(crate) fn new(alloc: Global, room: usize) -> Result<Column<'a>, OutOfMemory>
        ensures new { IfOk result IsNew }
        ensures empty { IfOk result (λ column. vec_len column.blocks ≡ 0) }
    {
        Ok(Column {
            blocks: Vec::with_capacity(alloc, room)?,
            active: Vec::new(alloc),
            end: 0,
            inside: 0,
            until: 0,
        })
    }

    /// Makes it a column of no block again, of which no row was painted. It keeps its room.
    pub(crate) fn clear(&mut self)
        ensures new { IsNew self.new }
        ensures empty { self.new.blocks.items ≡ [] }
    {
        self.blocks.clear();
        self.end = 0;
        self.until = 0;
    }

    /// Puts a block in front of the others, if it meets the word at a column.
    pub(crate) fn add(&mut self, block: &Block<'a>, base: usize) -> Result<(), OutOfMemory>
        requires base { base < 256 }
        ensures new { OnOk result (IsNew self.old → IsNew self.new) }
        ensures front { OnOk result ((k j : ℕ) → base ≤ k → k < base + 64
            → last_block_fill self.new.blocks.items k j
            ≡ or_else (block_fill block.now k j) (last_block_fill self.old.blocks.items k j)) }
    {
        if block.meets(base) {
            self.blocks.push(*block)?;
        }
        Ok(())
    }

    /// Paints the word at a column of the row `y` where it has changed.
    pub(crate) fn refresh(
        &mut self,
        base: usize,
        y: usize,
        row: &mut [Pixel],
    ) -> Result<(), OutOfMemory>
        requires y { y < usize.MAX }
        requires base { base < 256 }
        requires whole { base % 64 ≡ 0 }
        requires kept { IsColumn base row.old self.old y }
        ensures blocks { OnOk result (self.new.blocks.items ≡ self.old.blocks.items) }
        ensures live { OnOk result (y < self.new.until) }
        ensures kept { OnOk result (IsColumn base row.new self.new y) }
        ensures outside { OnOk result
            ((x : ℕ) (d : List ℕ) → x < length row.old → is_within base x (base + 64) ≡ false
            → slice_index_or row.new x d ≡ slice_index_or row.old x d) }
    {
        if self.until <= y {
            self.repaint(base, y, row)?;
        }
        Ok(())
    }

    // The same where the word changes, apart from the loop over rows in which it does not.
    #[inline(never)]
    fn repaint(&mut self, base: usize, y: usize, row: &mut [Pixel]) -> Result<(), OutOfMemory>
        requires y { y < usize.MAX }
        requires base { base < 256 }
        requires whole { base % 64 ≡ 0 }
        requires kept { IsColumn base row.old self.old y }
        ensures blocks { OnOk result (self.new.blocks.items ≡ self.old.blocks.items) }
        ensures live { OnOk result (y < self.new.until) }
        ensures kept { OnOk result (IsColumn base row.new self.new y) }
        ensures outside { OnOk result
            ((x : ℕ) (d : List ℕ) → x < length row.old → is_within base x (base + 64) ≡ false
            → slice_index_or row.new x d ≡ slice_index_or row.old x d) }
    {
        let is_chosen = y < self.end;
        if !is_chosen {
            self.inside = part(0, row.len(), base);
            self.end = choose(&self.blocks, row.len(), base, y, &mut self.active)?;
        }
        let all = self.inside;
        let change = follow(self.active.as_mut_slice(), base, y, self.end);
        let pixels = if is_chosen {
            both(all, change.pixels)
        } else {
            all
        };
        paint_word(&self.active, base, pixels, row);
        self.until = change.until;
        Ok(())
    }
}

// Chooses the blocks that show in the word at a column from the row `y` on, from front to back,
// and tells up to which row they are these.
fn choose<'a>(
    blocks: &[Block<'a>],
    width: usize,
    base: usize,
    y: usize,
    active: &mut Vec<Active<'a>>,
) -> Result<usize, OutOfMemory>
    requires y { y < usize.MAX }
    ensures live { IfOk result (λ end. y < end) }
    ensures chosen { IfOk result (λ end. IsChosen width blocks.now active.new.items base y end) }
{
    active.clear();
    active.reserve(blocks.len())?;
    let mut free = part(0, width, base);
    let mut end = usize::MAX;
    let mut left = blocks.len();
    while left > 0 && free != 0 {
        let block = &blocks[left - 1];
        if y < block.top {
            end = end.min(block.top);
        } else if y < block.bottom {
            let reach = both(free, part(block.from, block.to, base));
            if reach != 0 {
                end = end.min(block.bottom);
                active.push(Active::new(block, reach))?;
                free = without(free, block.form.covered(reach));
            }
        }
        left -= 1;
    }
    Ok(end)
}

/// What of a word changes in a row, and up to which row it then stays the same.
#[derive(Clone, Copy)]
struct Change {
    pixels: u64,
    until: usize,
}

// Moves the masks of active blocks, which are these up to a row, to the row `y`.
fn follow(active: &mut [Active<'_>], base: usize, y: usize, end: usize) -> Change
    requires y { y < usize.MAX }
    requires end { y < end }
    requires base { base < 256 }
    requires whole { base % 64 ≡ 0 }
    ensures live { y < result.until }
    ensures end { result.until ≤ end }
    ensures kept { (i z : ℕ) → active_fill base active.new i z ≡ active_fill base active.old i z }
    ensures exact { (i z : ℕ) → i < 64 → y ≤ z → z < result.until
        → masked_fill active.new i ≡ active_fill base active.new i z }
    ensures same { (i : ℕ) → i < 64 → has result.pixels i ≡ false
        → masked_fill active.new i ≡ masked_fill active.old i }
{
    let mut pixels = 0;
    let mut until = end;
    for one in active.iter_mut() {
        let held = one.form.held(one.reach, base, y);
        pixels = either(pixels, differing(one.mask, held.word));
        until = until.min(held.until);
        one.mask = held.word;
    }
    Change { pixels, until }
}

// Fills pixels of the word at a column, each with the colour of the first active block whose mask
// has it, or with white.
fn paint_word(active: &[Active<'_>], base: usize, pixels: u64, row: &mut [Pixel])
    requires { (i : ℕ) → i < 64 → has pixels i ≡ true → base + i < length row.old }
    ensures { (k : ℕ) (d : List ℕ) → k < length row.old
        → slice_index_or row.new k d
        ≡ (if covers base pixels k
        then masked active.now (k - base)
        else slice_index_or row.old k d) }
{
    let mut free = pixels;
    let mut at = 0;
    while at < active.len() && free != 0 {
        let one = &active[at];
        let word = both(free, one.mask);
        fill_word(row, base, word, one.fill.0);
        free = without(free, word);
        at += 1;
    }
    fill_word(row, base, free, WHITE);
}
