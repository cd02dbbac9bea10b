//! Rows of pixels, three bytes each.

ghost use Rattle.std.specs.Prelude.{◌≡◌, ℕ, ◌+◌, ◌-◌, ◌<◌, ◌≤◌, List, length, true, slice_index_or, if◌then◌else◌};
ghost use Rattle.canvas_shape.specs.Words.{has};
ghost use Rattle.canvas_paint.specs.Words.{covers, is_within};

use crate::word::{PIXELS, next_run};

/// The bytes of a pixel: red, green, blue.
pub(crate) type Pixel = [u8; 3];

/// The bytes of a white pixel.
pub(crate) const WHITE: Pixel = [255, 255, 255];

/// How many pixels are copied at once.
const PIECE: usize = 16;

// Copies a pattern into the places of a row from one up to another.
#[inline(always)]
fn put(row: &mut [Pixel], from: usize, to: usize, pattern: &[Pixel])
    requires ends { from ≤ to }
    requires within { to ≤ length row.old }
    requires long { to ≤ from + length pattern.now }
    ensures { (k : ℕ) (d : List ℕ) → k < length row.old
        → slice_index_or row.new k d
        ≡ (if is_within from k to
        then slice_index_or pattern.now (k - from) d
        else slice_index_or row.old k d) }
{
    row[from..to].copy_from_slice(&pattern[..to - from]);
}

// Fills the places of a row from one up to another, many at once.
fn fill_long(row: &mut [Pixel], from: usize, to: usize, colour: Pixel)
    requires ends { from ≤ to }
    requires within { to ≤ length row.old }
    ensures { (k : ℕ) (d : List ℕ) → k < length row.old
        → slice_index_or row.new k d
        ≡ (if is_within from k to then colour else slice_index_or row.old k d) }
{
    let pattern = [colour; PIECE];
    let mut at = from;
    while to - at >= PIECE {
        put(row, at, at + PIECE, &pattern);
        at += PIECE;
    }
    put(row, at, to, &pattern);
}

// Fills the places of a row from one up to another, one by one.
fn fill_short(row: &mut [Pixel], from: usize, to: usize, colour: Pixel)
    requires ends { from ≤ to }
    requires within { to ≤ length row.old }
    ensures { (k : ℕ) (d : List ℕ) → k < length row.old
        → slice_index_or row.new k d
        ≡ (if is_within from k to then colour else slice_index_or row.old k d) }
{
    for at in from..to {
        row[at] = colour;
    }
}

// Fills the places of a row from one up to another.
fn fill(row: &mut [Pixel], from: usize, to: usize, colour: Pixel)
    requires ends { from ≤ to }
    requires within { to ≤ length row.old }
    ensures { (k : ℕ) (d : List ℕ) → k < length row.old
        → slice_index_or row.new k d
        ≡ (if is_within from k to then colour else slice_index_or row.old k d) }
{
    if to - from < PIECE {
        fill_short(row, from, to, colour);
    } else {
        fill_long(row, from, to, colour);
    }
}

/// Fills the pixels of a word that is put down from the column `base` on.
#[inline(always)]
pub(crate) fn fill_word(row: &mut [Pixel], base: usize, word: u64, colour: Pixel)
    requires { (i : ℕ) → i < 64 → has word i ≡ true → base + i < length row.old }
    ensures { (k : ℕ) (d : List ℕ) → k < length row.old
        → slice_index_or row.new k d
        ≡ (if covers base word k then colour else slice_index_or row.old k d) }
{
    if word != 0 {
        fill_runs(row, base, word, colour);
    }
}

// The same, run by run.
fn fill_runs(row: &mut [Pixel], base: usize, word: u64, colour: Pixel)
    requires { (i : ℕ) → i < 64 → has word i ≡ true → base + i < length row.old }
    ensures { (k : ℕ) (d : List ℕ) → k < length row.old
        → slice_index_or row.new k d
        ≡ (if covers base word k then colour else slice_index_or row.old k d) }
{
    let mut at = 0;
    while let Some(run) = next_run(word, at) {
        fill(row, base + run.from, base + run.to, colour);
        at = run.to;
    }
}
