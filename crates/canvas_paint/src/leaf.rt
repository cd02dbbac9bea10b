//! Rows of ellipses and polygons as words.

ghost use Rattle.std.specs.Prelude.{◌≡◌, ℕ, ℤ, ◌+◌, ◌<◌, ◌≤◌, length, ◌-◌, ◌%◌, ◌^◌, IfOk, IfSome, [], slice_index_or, unsigned_abs};
ghost use Rattle.canvas_plane.specs.Window.{column_shown, row_shown};
ghost use Rattle.canvas_shape.specs.Leaves.{sides_of};
ghost use Rattle.canvas_shape.specs.Ellipse.{is_in_ellipse};
ghost use Rattle.canvas_shape.specs.Edges.{is_in_polygon};
ghost use Rattle.canvas_shape.specs.Flags.{is_held};
ghost use Rattle.canvas_shape.specs.declared.edge_flags.EdgeFlags.{EdgeFlags as RowFlags};
ghost use Rattle.canvas_paint.specs.Blocks.{row_has};
ghost use Rattle.canvas_shape.specs.Words.{has};

use crate::word::{PIXELS, row_between};
use bumpalo::Bump;
use bumpalo::collections::into_bump_slice;
use canvas_code::OutOfMemory;
use canvas_plane::Window;
use canvas_shape::{EdgeFlags, LeafBox, Vertices};

/// The pixels of rows that follow one another, from the row `first` of a window on: four words a
/// row.
#[derive(Clone, Copy)]
pub(crate) struct RowWords<'a> {
    pub first: usize,
    pub words: &'a [[u64; 4]],
}

impl RowWords<'_> {
    /// The pixels in the word at a column of a row.
    pub(crate) fn word(&self, base: usize, y: usize) -> u64
        requires base { base < 256 }
        requires whole { base % 64 ≡ 0 }
        ensures { (i : ℕ) → i < 64
            → has result i
            ≡ row_has (slice_index_or self.now.words.now (y - self.now.first) []) (base + i) }
    {
        match self.words.get(y.saturating_sub(self.first)) {
            Some(words) => words[base / PIXELS],
            None => 0,
        }
    }

    /// The pixels in a row.
    pub(crate) fn row(&self, y: usize) -> [u64; 4]
        ensures { (k : ℕ) → k < 256
            → row_has result k
            ≡ row_has (slice_index_or self.now.words.now (y - self.now.first) []) k }
    {
        match self.words.get(y.saturating_sub(self.first)) {
            Some(words) => *words,
            None => [0; 4],
        }
    }
}

// The pixels of an ellipse in a window's row.
fn ellipse_row(sides: &LeafBox, window: &Window, y: usize) -> [u64; 4]
    requires { y < window.now.h }
    ensures { (k : ℕ) → k < window.now.w
        → row_has result k
        ≡ is_in_ellipse (sides_of sides.now) (column_shown window.now k) (row_shown window.now y) }
{
    let ends = sides.row_ends(window.row_shown(y));
    let from = window.columns_before(ends.from);
    let to = window.columns_before(ends.to);
    row_between(from, to)
}

// The row that shows a row of the page, of a window's and of those that would follow them, if there is one.
fn showing(window: &Window, at: i64) -> Option<usize>
    requires { unsigned_abs at ≤ 2 ^ 32 }
    ensures { IfSome result (λ row. row_shown window.now row ≡ at) }
{
    let distance = at - i64::from(window.row_shown(0));
    if distance < 0 {
        return None;
    }
    let level = window.level();
    let row = distance as u64 >> level;
    if row << level == distance as u64 {
        Some(row as usize)
    } else {
        None
    }
}

// A row of a window in which an ellipse has the same columns: the one that shows the mirror image
// of a row from top to bottom, or the row itself where none does.
fn mirrored(sides: &LeafBox, window: &Window, y: usize) -> usize
    requires { y < window.now.h }
    ensures { (x : ℤ)
        → is_in_ellipse (sides_of sides.now) x (row_shown window.now result)
        ≡ is_in_ellipse (sides_of sides.now) x (row_shown window.now y) }
{
    match showing(window, sides.mirror(window.row_shown(y))) {
        Some(row) => row,
        None => y,
    }
}

// The pixels of an ellipse in a row of a window, below rows from `top` on that were made. No root
// is taken where they have the mirror image of the row.
fn next_ellipse_row(
    made: &[[u64; 4]],
    sides: &LeafBox,
    window: &Window,
    top: usize,
    y: usize,
) -> [u64; 4]
    requires y { y < window.now.h }
    requires made { (k j : ℕ) → k < window.now.w → top ≤ j → j < top + length made.now
        → row_has (slice_index_or made.now (j - top) []) k
        ≡ is_in_ellipse (sides_of sides.now) (column_shown window.now k) (row_shown window.now j) }
    ensures { (k : ℕ) → k < window.now.w
        → row_has result k
        ≡ is_in_ellipse (sides_of sides.now) (column_shown window.now k) (row_shown window.now y) }
{
    let same = mirrored(sides, window, y);
    if top <= same && same - top < made.len() {
        made[same - top]
    } else {
        ellipse_row(sides, window, y)
    }
}

/// The pixels of an ellipse in the rows of a window from one up to another.
pub(crate) fn ellipse_rows<'a>(
    bump: &'a Bump,
    sides: &LeafBox,
    window: &Window,
    top: usize,
    bottom: usize,
) -> Result<RowWords<'a>, OutOfMemory>
    requires rows { top < bottom }
    requires bottom { bottom ≤ window.now.h }
    ensures { IfOk result (λ rows. (k j : ℕ) → k < window.now.w → top ≤ j → j < bottom
        → row_has (slice_index_or rows.words.now (j - rows.first) []) k
        ≡ is_in_ellipse (sides_of sides.now) (column_shown window.now k) (row_shown window.now j)) }
{
    let words = bump.try_alloc_slice_fill_clone(bottom - top, [0; 4])?;
    for k in 0..words.len() {
        words[k] = next_ellipse_row(&words[..k], sides, window, top, top + k);
    }
    Ok(RowWords { first: top, words })
}

/// The pixels of a polygon in the rows of a window from one up to another.
pub(crate) fn polygon_rows<'a>(
    bump: &'a Bump,
    vertices: &Vertices<'_>,
    window: &Window,
    top: usize,
    bottom: usize,
) -> Result<RowWords<'a>, OutOfMemory>
    requires rows { top < bottom }
    requires bottom { bottom ≤ window.now.h }
    ensures { IfOk result (λ rows. (k j : ℕ) → k < window.now.w → top ≤ j → j < bottom
        → row_has (slice_index_or rows.words.now (j - rows.first) []) k
        ≡ is_in_polygon vertices.now.points.now (column_shown window.now k)
        (row_shown window.now j)) }
{
    let rows = bump.try_alloc_slice_fill_clone(bottom - top, EdgeFlags::none())?;
    vertices.flag_rows(window, top, rows);
    Ok(RowWords {
        first: top,
        words: held_rows(bump, rows)?,
    })
}

// The held pixels of rows of edge flags.
fn held_rows<'a>(bump: &'a Bump, rows: &[EdgeFlags]) -> Result<&'a [[u64; 4]], OutOfMemory>
    ensures { IfOk result (λ words. (j k : ℕ) (d : RowFlags) → j < length rows.now → k < 256
        → row_has (slice_index_or words.now j []) k
        ≡ is_held (slice_index_or rows.now j d).words k) }
{
    let mut words = Vec::with_capacity(bump, rows.len())?;
    for row in rows {
        words.push(row.held())?;
    }
    Ok(into_bump_slice(words))
}
