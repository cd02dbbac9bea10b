//! Words of 64 pixels: bit i is the pixel i columns to the right of the word's first column.

ghost use Rattle.std.specs.Prelude.{◌≡◌, ◌≤◌, ◌<◌, ◌+◌, ◌-◌, ◌^◌, ◌&&◌, ◌||◌, ℕ, false, true, not, MatchOption};
ghost use Rattle.canvas_plane.specs.Motion.{not_same};
ghost use Rattle.canvas_shape.specs.Words.{has};
ghost use Rattle.canvas_paint.specs.Blocks.{row_has};
ghost use Rattle.canvas_paint.specs.Words.{is_within, HasNone, IsLowest, IsRun, IsWord};

/// How many pixels a word has.
pub(crate) const PIXELS: usize = 64;

/// Pixels of a word that lie side by side, from the first up to the one after the last.
#[derive(Clone, Copy)]
pub(crate) struct Run {
    pub from: usize,
    pub to: usize,
}

// The first so many pixels.
fn first(count: usize) -> u64
    requires { count ≤ 64 }
    ensures { result + 1 ≡ 2 ^ count }
{
    if count == 64 {
        u64::MAX
    } else {
        (1 << count) - 1
    }
}

/// The pixels from one up to another.
pub(crate) fn between(from: usize, to: usize) -> u64
    requires order { from ≤ to }
    requires within { to ≤ 64 }
    ensures { IsWord result (λ i. is_within from i to) }
{
    first(to) - first(from)
}

/// The pixels of a row from one column up to another that are in the word at the column `base`.
pub(crate) fn part(from: usize, to: usize, base: usize) -> u64
    ensures { IsWord result (λ i. is_within from (base + i) to) }
{
    let start = from.saturating_sub(base).min(PIXELS);
    let end = to.saturating_sub(base).min(PIXELS);
    if start < end { between(start, end) } else { 0 }
}

/// The pixels of a row from one column up to another: four words.
pub(crate) fn row_between(from: usize, to: usize) -> [u64; 4]
    requires { to ≤ 256 }
    ensures { (k : ℕ) → k < 256 → row_has result k ≡ is_within from k to }
{
    let mut row = [0; 4];
    for n in from / PIXELS..to.div_ceil(PIXELS) {
        row[n] = part(from, to, PIXELS * n);
    }
    row
}

/// The pixels of both words.
pub(crate) fn both(a: u64, b: u64) -> u64
    ensures { IsWord result (λ i. has a i && has b i) }
{
    a & b
}

/// The pixels of the one word that are not in the other.
pub(crate) fn without(a: u64, b: u64) -> u64
    ensures { IsWord result (λ i. has a i && not (has b i)) }
{
    a & !b
}

/// The pixels of both rows.
pub(crate) fn row_both(a: [u64; 4], b: [u64; 4]) -> [u64; 4]
    ensures { (k : ℕ) → k < 256 → row_has result k ≡ (row_has a k && row_has b k) }
{
    [
        both(a[0], b[0]),
        both(a[1], b[1]),
        both(a[2], b[2]),
        both(a[3], b[3]),
    ]
}

/// The pixels of the one row that are not in the other.
pub(crate) fn row_without(a: [u64; 4], b: [u64; 4]) -> [u64; 4]
    ensures { (k : ℕ) → k < 256 → row_has result k ≡ (row_has a k && not (row_has b k)) }
{
    [
        without(a[0], b[0]),
        without(a[1], b[1]),
        without(a[2], b[2]),
        without(a[3], b[3]),
    ]
}

/// The pixels of either word.
pub(crate) fn either(a: u64, b: u64) -> u64
    ensures { IsWord result (λ i. has a i || has b i) }
{
    a | b
}

/// The pixels of which one word has one and the other has not.
pub(crate) fn differing(a: u64, b: u64) -> u64
    ensures { IsWord result (λ i. not_same (has a i) (has b i)) }
{
    a ^ b
}

// The place of the first pixel of a word, or 64.
fn lowest(word: u64) -> usize
    ensures { IsLowest word result }
{
    word.trailing_zeros() as usize
}

/// The next pixels of a word that lie side by side, from a place on.
pub(crate) fn next_run(word: u64, at: usize) -> Option<Run>
    requires { at ≤ 64 }
    ensures { MatchOption result (HasNone word at 64) (λ run. IsRun word at run.from run.to) }
{
    let from = lowest(both(word, between(at, PIXELS)));
    if from == PIXELS {
        return None;
    }
    let to = lowest(without(between(from, PIXELS), word));
    Some(Run { from, to })
}
