//! Pictures of items, strip by strip.

ghost use Rattle.std.specs.Prelude.{◌≡◌, ℕ, ◌+◌, ◌-◌, ◌*◌, ◌/◌, ◌<◌, ◌≤◌, ◌++◌, List, length, false, slice_index_or, IfErr, IfOk, OnOk, OnErr, take, vec_len, All};
ghost use Rattle.canvas_paint.specs.Items.{last_colour};
ghost use Rattle.canvas_paint.specs.Pictures.{raster_of, rows_of};
ghost use Rattle.canvas_record.specs.Picture.{or_else};
ghost use Rattle.canvas_paint.specs.Blocks.{block_fill};
ghost use Rattle.canvas_paint.specs.Columns.{AreColumns, IsNew, blocks_in, fill_in, shown_in};
ghost use Rattle.canvas_paint.specs.Strips.{strip_start};

use crate::bands::append_banded;
use crate::block::Block;
use crate::column::Column;
use crate::item::Item;
use crate::row::Pixel;
use crate::word::PIXELS;
use canvas_code::OutOfMemory;
use canvas_plane::Window;
use std::alloc::Global;

/// How many words a row has.
const WORDS: usize = 4;

/// Four columns of no block, each with room for so many, of which no row was painted.
pub(crate) fn new_columns<'a>(alloc: Global, room: usize) -> Result<Vec<Column<'a>>, OutOfMemory>
    ensures count { IfOk result (λ columns. vec_len columns ≡ 4) }
    ensures new { IfOk result (λ columns. All IsNew columns.items) }
    ensures empty { IfOk result
        (λ columns. (k j : ℕ) → fill_in (blocks_in columns.items) k j ≡ None) }
{
    let mut columns = Vec::with_capacity(alloc, WORDS)?;
    for _ in 0..WORDS {
        columns.push(Column::new(alloc, room)?)?;
    }
    Ok(columns)
}

/// Puts a block in front of the others in each column that it meets.
pub(crate) fn add<'a>(block: &Block<'a>, columns: &mut [Column<'a>]) -> Result<(), OutOfMemory>
    requires count { length columns.old ≡ 4 }
    requires new { All IsNew columns.old }
    ensures new { OnOk result (All IsNew columns.new) }
    ensures front { OnOk result ((k j : ℕ) → k < 256
        → fill_in (blocks_in columns.new) k j
        ≡ or_else (block_fill block.now k j) (fill_in (blocks_in columns.old) k j)) }
{
    for (k, column) in columns.iter_mut().enumerate() {
        column.add(block, PIXELS * k)?;
    }
    Ok(())
}

// Paints anew the words of a row that have changed at the row `y`.
fn refresh(y: usize, row: &mut [Pixel], columns: &mut [Column<'_>]) -> Result<(), OutOfMemory>
    requires y { y < usize.MAX }
    requires width { length row.old ≤ 256 }
    requires count { length columns.old ≡ 4 }
    requires kept { AreColumns row.old columns.old y }
    ensures blocks { OnOk result (blocks_in columns.new ≡ blocks_in columns.old) }
    ensures kept { OnOk result (AreColumns row.new columns.new y) }
    ensures fresh { OnOk result ((x : ℕ) (d : List ℕ) → x < length row.old
        → slice_index_or row.new x d ≡ shown_in (blocks_in columns.old) x y) }
{
    for (k, column) in columns.iter_mut().enumerate() {
        column.refresh(PIXELS * k, y, row)?;
    }
    Ok(())
}

/// Appends the rows of the picture of columns from one up to another.
pub(crate) fn append_rows(
    columns: &mut [Column<'_>],
    first: usize,
    end: usize,
    row: &mut [Pixel],
    out: &mut Vec<u8>,
) -> Result<(), OutOfMemory>
    requires rows { first ≤ end }
    requires width { length row.old ≤ 256 }
    requires count { length columns.old ≡ 4 }
    requires new { All IsNew columns.old }
    ensures ok { OnOk result (out.new.items
        ≡ out.old.items
        ++ raster_of (shown_in (blocks_in columns.old)) (length row.old) first (end - first)) }
    ensures kept { take (length out.old.items) out.new.items ≡ out.old.items }
{
    for y in first..end {
        refresh(y, row, columns)?;
        out.extend_from_slice(row.as_flattened())?;
    }
    Ok(())
}

/// Appends the rows of a picture from one up to another: three bytes for each pixel, red, green
/// and blue of the last item that holds it, or of white. Without memory all is as it was; no row
/// wants no memory.
pub fn append_strip(
    alloc: Global,
    items: &[Item<'_>],
    window: &Window,
    first: u32,
    end: u32,
    out: &mut Vec<u8>,
) -> Result<(), OutOfMemory>
    requires { (first ≤ end) × (end ≤ window.now.h) }
    ensures ok { OnOk result
        (out.new.items ≡ out.old.items ++ rows_of (last_colour items.now) window.now first end) }
    ensures err { OnErr result (out.new.items ≡ out.old.items) }
    ensures want { OnErr result (first < end) }
{
    let (first, end) = (first as usize, end as usize);
    if first == end {
        return Ok(());
    }
    let before = out.len();
    out.reserve(3 * window.w() as usize * (end - first))?;
    match append_banded(alloc, items, window, first, end, out) {
        Ok(()) => Ok(()),
        Err(fault) => {
            out.truncate(before);
            Err(fault)
        }
    }
}

/// The rows of a picture from one up to another: three bytes for each pixel, red, green and blue
/// of the last item that holds it, or of white.
pub fn paint_strip(
    alloc: Global,
    items: &[Item<'_>],
    window: &Window,
    first: u32,
    end: u32,
) -> Result<Vec<u8>, OutOfMemory>
    requires { (first ≤ end) × (end ≤ window.now.h) }
    ensures rows { IfOk result
        (λ bytes. bytes.items ≡ rows_of (last_colour items.now) window.now first end) }
    ensures want { IfErr result (λ _. first < end) }
{
    let mut out = Vec::new(alloc);
    append_strip(alloc, items, window, first, end, &mut out)?;
    Ok(out)
}

/// The rows of a strip of a picture, from one up to another: of `n` strips of `h` rows, the k-th
/// has the rows from `k * h / n`, rounded down, up to where the next one begins.
pub fn strip_rows(h: u32, k: u32, n: u32) -> (u32, u32)
    requires { k < n }
    ensures rows { result ≡ (strip_start h k n, strip_start h (k + 1) n) }
    ensures order { (result.0 ≤ result.1) × (result.1 ≤ h) }
    ensures first { k ≡ 0 → result.0 ≡ 0 }
    ensures last { k + 1 ≡ n → result.1 ≡ h }
{
    let (k, h, n) = (u64::from(k), u64::from(h), u64::from(n));
    ((k * h / n) as u32, ((k + 1) * h / n) as u32)
}
