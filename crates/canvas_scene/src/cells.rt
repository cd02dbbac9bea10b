//! The cells of what a window covers, each marked or not.

ghost use Rattle.std.specs.Prelude.{◌≡◌, ◌<◌, ◌≤◌, ◌^◌, ◌||◌, ℕ, ℤ, false, true, IsTrue};
ghost use Rattle.canvas_plane.specs.Page.{is_in};
ghost use Rattle.canvas_scene.specs.Cells.{is_covered};
ghost use Rattle.canvas_scene.specs.Places.{is_among, is_bit};

use crate::shown::lies_within;
use crate::side::{Run, Side};
use canvas_plane::{PageBox, Window};

/// The cells of what a window covers: squares of 8 by 8 of its own pixels from its left top corner
/// on, at its right and bottom edges what of them lies in it. So there are as many at each level.
#[derive(Clone, Copy)]
pub(crate) struct Cells {
    across: Side,
    down: Side,
    // A word for each row of cells, in which the least bit stands for the left cell.
    rows: [u64; 32],
    // The same for the cells that have a pixel of a box whose cells were marked.
    touched: [u64; 32],
}

/// The cells that a box touches, if it is not empty and lies in what the window covers, and else
/// any: in each row from one up to another those of a word. No clause says so, for they only decide
/// what is looked at more closely.
#[derive(Clone, Copy)]
struct Patch {
    word: u64,
    first: u32,
    end: u32,
    ghost begins: { first < 32 },
    ghost ends: { end ≤ 32 },
}

impl Cells {
    /// The cells of a window, none of them marked.
    pub(crate) fn new(window: &Window) -> Cells
        ensures { (x y : ℤ) → is_covered result x y ≡ false }
    {
        let area = window.covered();
        let level = window.level();
        Cells {
            across: Side::new(area.left, area.right, level),
            down: Side::new(area.top, area.bottom, level),
            rows: [0; 32],
            touched: [0; 32],
        }
    }

    /// Marks the cells that lie wholly in a box.
    pub(crate) fn mark(&mut self, part: &PageBox)
        ensures { (x y : ℤ) → is_covered self.new x y ≡ true
            → (is_covered self.old x y || is_in part.now x y) ≡ true }
    {
        let across = self.across.within(part.left, part.right);
        let down = self.down.within(part.top, part.bottom);
        let word = bits(across);
        for row in down.first..down.end {
            self.rows[row as usize] = with_bits(self.rows[row as usize], word);
        }
        self.touch(part);
    }

    // Notes the cells that a box in the window touches.
    fn touch(&mut self, part: &PageBox)
        ensures across { self.new.across ≡ self.old.across }
        ensures down { self.new.down ≡ self.old.down }
        ensures rows { self.new.rows ≡ self.old.rows }
    {
        let patch = self.patch(part);
        for row in patch.first..patch.end {
            self.touched[row as usize] = with_bits(self.touched[row as usize], patch.word);
        }
    }

    /// Whether each cell that a box touches is touched by a box whose cells were marked, for boxes
    /// in the window that are not empty. If not, some cell that it touches is not marked, and it
    /// lies within no such box.
    pub(crate) fn may_cover(&self, part: &PageBox) -> bool {
        let patch = self.patch(part);
        for row in patch.first..patch.end {
            if !has_bits(self.touched[row as usize], patch.word) {
                return false;
            }
        }
        true
    }

    // Whether of the cells that a box touches those of the first row are marked.
    #[inline(always)]
    fn begins_marked(&self, part: &PageBox) -> bool {
        let patch = self.patch(part);
        has_bits(self.rows[patch.first as usize], patch.word)
    }

    // The cells that a box touches, if it is not empty and lies in what the window covers.
    #[inline(always)]
    fn patch(&self, part: &PageBox) -> Patch {
        let left = self.across.cell_near(part.left);
        let right = self.across.cell_near(part.right.wrapping_sub(1));
        let bottom = self.down.cell_near(part.bottom.wrapping_sub(1));
        Patch {
            word: bit(right + 1).wrapping_sub(bit(left)),
            first: self.down.cell_near(part.top),
            end: bottom + 1,
        }
    }

    // The box of the cells.
    fn area(&self) -> PageBox
        ensures { result
            ≡ record { left = self.now.across.start; top = self.now.down.start; right = self.now.across.end; bottom = self.now.down.end } }
    {
        PageBox {
            left: self.across.start,
            top: self.down.start,
            right: self.across.end,
            bottom: self.down.end,
        }
    }

    /// Whether a box lies in what the window covers, and each cell that it touches is marked. Most
    /// others fail in the first row. Inlined, it shares the cells of a box with `may_cover`.
    #[inline(always)]
    pub(crate) fn covers(&self, part: &PageBox) -> bool
        ensures { IsTrue result → (x y : ℤ) → is_in part.now x y ≡ true
            → is_covered self.now x y ≡ true }
    {
        if !self.begins_marked(part) || !lies_within(part, &self.area()) {
            return false;
        }
        let across = self.across.touched(part.left, part.right);
        let down = self.down.touched(part.top, part.bottom);
        let word = bits(across);
        for row in down.first..down.end {
            if !has_bits(self.rows[row as usize], word) {
                return false;
            }
        }
        true
    }
}

// A word with the bits of a run.
fn bits(run: Run) -> u64
    ensures { (k : ℕ) → is_bit result k ≡ is_among run.first run.end k }
{
    if run.first < run.end {
        bit(run.end) - bit(run.first)
    } else {
        0
    }
}

// A word with one bit.
fn bit(place: u32) -> u64
    requires { place ≤ 32 }
    ensures { result ≡ 2 ^ place }
{
    1 << place
}

// A word with the bits of another.
fn with_bits(word: u64, more: u64) -> u64
    ensures { (k : ℕ) → is_bit result k ≡ (is_bit word k || is_bit more k) }
{
    word | more
}

// Whether a word has all bits of another.
fn has_bits(word: u64, some: u64) -> bool
    ensures { IsTrue result → (k : ℕ) → is_bit some k ≡ true → is_bit word k ≡ true }
{
    word & some == some
}
