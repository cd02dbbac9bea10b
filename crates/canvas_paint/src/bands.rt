//! Strips of many blocks, band by band: in a band of rows the columns have only the blocks that meet it.

ghost use Rattle.std.specs.Prelude.{◌≡◌, ℕ, ◌-◌, ◌<◌, ◌≤◌, ◌++◌, length, IfOk, OnOk, take, All};
ghost use Rattle.canvas_plane.specs.Window.{column_shown, row_shown};
ghost use Rattle.canvas_paint.specs.Items.{last_colour, last_fill};
ghost use Rattle.canvas_paint.specs.Pictures.{raster_of, rows_of};
ghost use Rattle.canvas_paint.specs.Blocks.{last_block_fill, shown};
ghost use Rattle.canvas_paint.specs.Columns.{IsNew, blocks_in, fill_in};

use crate::block::Block;
use crate::column::Column;
use crate::item::Item;
use crate::row::{Pixel, WHITE};
use crate::strip::{add, append_rows, new_columns};
use bumpalo::Bump;
use canvas_code::OutOfMemory;
use canvas_plane::Window;
use std::alloc::Global;

/// Up to how many blocks a strip is painted at once. More are gone along band by band.
const FEW: usize = 128;

/// How many rows a band has at least: fewer would not pay for going along all blocks once more.
const LEAST: usize = 16;

// The blocks of items in the rows of a window from one up to another, from back to front. They are
// cut from front to back, each only from the first to the last row in which ellipses and polygons
// further in front leave pixels of it free.
fn blocks_of<'a>(
    alloc: Global,
    bump: &'a Bump,
    items: &[Item<'_>],
    window: &Window,
    first: usize,
    end: usize,
) -> Result<Vec<Block<'a>>, OutOfMemory>
    requires { end ≤ window.now.h }
    ensures { IfOk result (λ blocks. (k j : ℕ) → k < window.now.w → first ≤ j → j < end
        → last_block_fill blocks.items k j
        ≡ last_fill items.now (column_shown window.now k) (row_shown window.now j)) }
{
    let mut blocks = Vec::with_capacity(alloc, items.len())?;
    let mut free = [[u64::MAX; 4]; 256];
    let mut left = items.len();
    while left > 0 {
        let item = &items[left - 1];
        match Block::cut(bump, item, window, first, end, &mut free)? {
            Some(block) => blocks.push(block)?,
            None => {}
        }
        left -= 1;
    }
    blocks.reverse();
    Ok(blocks)
}

// How many rows a band of blocks has: all where they are few, else on average as many as they have,
// so that most of them meet two bands at most.
fn band_height(blocks: &[Block<'_>]) -> usize
    ensures { 0 < result }
{
    if blocks.len() <= FEW {
        return usize::MAX;
    }
    let mut rows = 0_usize;
    for block in blocks.iter() {
        rows = rows.saturating_add(block.height());
    }
    (rows / blocks.len().max(1)).max(LEAST)
}

// Takes all blocks from columns.
fn clear(columns: &mut [Column<'_>])
    requires count { length columns.old ≡ 4 }
    ensures new { All IsNew columns.new }
    ensures empty { (k j : ℕ) → k < 256 → fill_in (blocks_in columns.new) k j ≡ None }
{
    for column in columns.iter_mut() {
        column.clear();
    }
}

// Gives columns the blocks that meet the rows from one up to another, in place of those that they had.
fn fill<'a>(
    blocks: &[Block<'a>],
    first: usize,
    end: usize,
    columns: &mut [Column<'a>],
) -> Result<(), OutOfMemory>
    requires count { length columns.old ≡ 4 }
    ensures new { OnOk result (All IsNew columns.new) }
    ensures fills { OnOk result ((k j : ℕ) → k < 256 → first ≤ j → j < end
        → fill_in (blocks_in columns.new) k j ≡ last_block_fill blocks.now k j) }
{
    clear(columns);
    for block in blocks {
        if block.meets_rows(first, end) {
            add(block, columns)?;
        }
    }
    Ok(())
}

// Appends the rows of the picture of blocks from one up to another, a band of so many rows after the other.
fn append_bands<'a>(
    blocks: &[Block<'a>],
    first: usize,
    end: usize,
    height: usize,
    columns: &mut [Column<'a>],
    row: &mut [Pixel],
    out: &mut Vec<u8>,
) -> Result<(), OutOfMemory>
    requires rows { first ≤ end }
    requires height { 0 < height }
    requires width { length row.old ≤ 256 }
    requires count { length columns.old ≡ 4 }
    ensures ok { OnOk result (out.new.items
        ≡ out.old.items ++ raster_of (shown blocks.now) (length row.old) first (end - first)) }
    ensures kept { take (length out.old.items) out.new.items ≡ out.old.items }
{
    let mut at = first;
    while at < end {
        let next = end.min(at.saturating_add(height));
        fill(blocks, at, next, columns)?;
        append_rows(columns, at, next, row, out)?;
        at = next;
    }
    Ok(())
}

/// Appends the rows of a picture from one up to another, those of many items band by band.
pub(crate) fn append_banded(
    alloc: Global,
    items: &[Item<'_>],
    window: &Window,
    first: usize,
    end: usize,
    out: &mut Vec<u8>,
) -> Result<(), OutOfMemory>
    requires { (first ≤ end) × (end ≤ window.now.h) }
    ensures ok { OnOk result
        (out.new.items ≡ out.old.items ++ rows_of (last_colour items.now) window.now first end) }
    ensures kept { take (length out.old.items) out.new.items ≡ out.old.items }
{
    let bump = Bump::new(alloc);
    let blocks = blocks_of(alloc, &bump, items, window, first, end)?;
    let mut columns = new_columns(alloc, blocks.len().min(FEW))?;
    let height = band_height(&blocks);
    let width = window.w() as usize;
    let mut row = [WHITE; 256];
    append_bands(
        &blocks,
        first,
        end,
        height,
        columns.as_mut_slice(),
        &mut row[..width],
        out,
    )
}
