//! The rows of a window that are flagged, and the box that it covers.

ghost use Rattle.std.specs.Prelude.{◌≡◌, ◌≤◌, ◌<◌, ◌+◌, ◌*◌, ℕ, ◌+ℤ◌, ◌≤ℤ◌, ◌<ℤ◌, IsTrue, ◌↔◌, int_lt, nat_lt, pos};
ghost use Rattle.canvas_plane.specs.Sides.{scale_of};
ghost use Rattle.canvas_plane.specs.Window.{column_shown, covered_by, row_shown};

use canvas_plane::{PageBox, Window};

/// A window's columns, and its rows from one on.
#[derive(Clone, Copy)]
pub(crate) struct Grid {
    pub window: Window,
    pub first: usize,
    pub covered: PageBox,
    ghost exact: { covered ≡ covered_by window },
    ghost narrow: { window.w ≤ 256 },
    ghost low: { window.h ≤ 256 },
}

impl Grid {
    /// The window's columns, and its rows from the row `first` on.
    pub(crate) fn of(window: &Window, first: usize) -> Grid
        ensures window { result.window ≡ window.now }
        ensures first { result.first ≡ first }
    {
        Grid {
            window: *window,
            first,
            covered: window.covered(),
        }
    }

    /// Whether all columns lie at a place or to the right of it.
    pub(crate) fn is_right_of(&self, edge: i64) -> bool
        ensures { IsTrue result ↔ (edge ≤ℤ column_shown self.now.window 0) }
    {
        edge <= self.covered.left
    }

    /// Whether all columns lie to the left of a place.
    pub(crate) fn is_left_of(&self, edge: i64) -> bool
        ensures { IsTrue result ↔ (column_shown self.now.window self.now.window.w ≤ℤ edge) }
    {
        self.covered.right <= edge
    }

    /// Whether a threshold lies in the window, to the right of its left side.
    pub(crate) fn has_inside(&self, edge: i64) -> bool
        ensures { IsTrue result
            ↔ ((column_shown self.now.window 0 <ℤ edge)
            × (edge ≤ℤ column_shown self.now.window self.now.window.w)) }
    {
        self.covered.left < edge && edge <= self.covered.right
    }

    /// The last column before a threshold inside.
    pub(crate) fn column_before(&self, edge: i64) -> u8
        requires least { column_shown self.now.window 0 <ℤ edge }
        requires most { edge ≤ℤ column_shown self.now.window self.now.window.w }
        ensures within { result < self.now.window.w }
        ensures before { (k : ℕ)
            → nat_lt k (result + 1) ≡ int_lt (column_shown self.now.window k) edge }
    {
        steps_before(edge, self.covered.left, self.window.level()) as u8
    }

    /// How many of `count` rows lie before an edge.
    pub(crate) fn rows_before(&self, edge: i64, count: usize) -> usize
        requires { self.now.first + count ≤ self.now.window.h }
        ensures within { result ≤ count }
        ensures before { (k : ℕ) → k < count
            → nat_lt k result ≡ int_lt (row_shown self.now.window (self.now.first + k)) edge }
    {
        let before = self.window.rows_before(edge);
        before.saturating_sub(self.first).min(count)
    }

    /// How many columns lie before an edge.
    pub(crate) fn columns_before(&self, edge: i64) -> usize
        ensures within { result ≤ self.now.window.w }
        ensures before { (k : ℕ) → k < self.now.window.w
            → nat_lt k result ≡ int_lt (column_shown self.now.window k) edge }
    {
        self.window.columns_before(edge)
    }

    /// The page row that the row so far below the first shows.
    pub(crate) fn row(&self, k: usize) -> i32
        requires { self.now.first + k < self.now.window.h }
        ensures { result ≡ row_shown self.now.window (self.now.first + k) }
    {
        self.window.row_shown(self.first + k)
    }

    /// How many page rows its rows lie apart.
    pub(crate) fn apart(&self) -> u32
        ensures value { result ≡ scale_of self.now.window.level }
        ensures bound { result ≤ 64 }
    {
        scale(self.window.level())
    }
}

// How many steps of 2^level go from a place to before an edge.
fn steps_before(edge: i64, from: i64, level: u8) -> u64
    requires level { level ≤ 6 }
    requires least { from <ℤ edge }
    requires most { edge ≤ℤ (from +ℤ pos 16384) }
    ensures most { (k : ℕ) → edge ≤ℤ (from +ℤ pos (k * scale_of level)) → result < k }
    ensures before { (k : ℕ)
        → nat_lt k (result + 1) ≡ int_lt (from +ℤ pos (k * scale_of level)) edge }
{
    way_before(edge, from) >> u32::from(level)
}

fn way_before(edge: i64, from: i64) -> u64
    requires least { from <ℤ edge }
    requires most { edge ≤ℤ (from +ℤ pos 16384) }
    ensures { from +ℤ pos result +ℤ pos 1 ≡ edge }
{
    (edge - from - 1) as u64
}

// How many page pixels a window's pixels lie apart.
fn scale(level: u8) -> u32
    requires { level ≤ 6 }
    ensures value { result ≡ scale_of level }
    ensures bound { result ≤ 64 }
{
    1 << u32::from(level)
}
