//! Many rows of a polygon at once: an edge is asked only in the rows that it crosses, of those that
//! a window shows.

ghost use Rattle.std.specs.Prelude.{◌≡◌, ◌≤◌, ◌<◌, ◌^◌, ◌&&◌, All, ℕ, ◌≤ℤ◌, false, get_or, int_lt, nat_lt, length, IsTrue, ◌+◌, ◌<ℤ◌};
ghost use Rattle.canvas_plane.specs.Motion.{not_same, size_of};
ghost use Rattle.canvas_plane.specs.Window.{column_shown, row_shown};
ghost use Rattle.canvas_shape.specs.Edges.{counts, is_in_polygon};
ghost use Rattle.canvas_shape.specs.Flags.{is_held};
ghost use Rattle.canvas_shape.specs.declared.edge_flags.EdgeFlags.{EdgeFlags};

use crate::edge_flags::EdgeFlags;
use crate::grid::Grid;
use crate::line::Line;
use crate::parts::Vertices;
use crate::polygon::last;
use canvas_plane::{Point, Window};

impl Vertices<'_> {
    /// Puts into each of `rows`, which are the window's rows from the row `first` on, its edge
    /// flags for the window's columns: exactly the columns that show a pixel of the polygon are
    /// held, and none beyond the window's width. Page rows and columns that the window does not
    /// show are not computed. The rows end at the window's last at most.
    pub fn flag_rows(&self, window: &Window, first: usize, rows: &mut [EdgeFlags])
        requires { first + length rows.old ≤ window.now.h }
        ensures { (k i : ℕ) (d : EdgeFlags) → k < length rows.new
            → is_held (get_or rows.new k d).words i
            ≡ (nat_lt i window.now.w
            && is_in_polygon self.now.points.now (column_shown window.now i)
            (row_shown window.now (first + k))) }
    {
        clear_rows(rows);
        flag_edges(self.points, Grid::of(window, first), rows);
    }
}

fn clear_rows(rows: &mut [EdgeFlags])
    ensures { (k i : ℕ) (d : EdgeFlags) → k < length rows.new
        → is_held (get_or rows.new k d).words i ≡ false }
{
    for k in 0..rows.len() {
        rows[k] = EdgeFlags::none();
    }
}

// Flags all edges in rows that have no flag.
fn flag_edges(points: &[Point], grid: Grid, rows: &mut [EdgeFlags])
    requires some { 0 < length points.now }
    requires near { All (λ p. size_of p ≤ 2 ^ 27) points.now }
    requires empty { (k i : ℕ) (d : EdgeFlags) → k < length rows.old
        → is_held (get_or rows.old k d).words i ≡ false }
    requires bottom { grid.first + length rows.old ≤ grid.window.h }
    ensures { (k i : ℕ) (d : EdgeFlags) → k < length rows.new
        → is_held (get_or rows.new k d).words i
        ≡ (nat_lt i grid.window.w
        && is_in_polygon points.now (column_shown grid.window i)
        (row_shown grid.window (grid.first + k))) }
{
    let mut from = last(points);
    for to in points {
        flag_edge(from, *to, grid, rows);
        from = *to;
    }
}

// Turns over the columns in which an edge counts: none where it lies to the left of them, and all
// where it lies to the right. The loop over its rows is made twice more, so that it asks no
// threshold of an edge that lies inside where the window ends.
fn flag_edge(from: Point, to: Point, grid: Grid, rows: &mut [EdgeFlags])
    requires near { (size_of from ≤ 2 ^ 27) × (size_of to ≤ 2 ^ 27) }
    requires bottom { grid.first + length rows.old ≤ grid.window.h }
    ensures { (k i : ℕ) (d : EdgeFlags) → k < length rows.new
        → is_held (get_or rows.new k d).words i
        ≡ not_same (is_held (get_or rows.old k d).words i)
        (nat_lt i grid.window.w
        && counts from to (column_shown grid.window i) (row_shown grid.window (grid.first + k))) }
{
    if grid.is_right_of(from.x) && grid.is_right_of(to.x) {
        return;
    }
    if grid.is_left_of(from.x) && grid.is_left_of(to.x) {
        flag_whole(from, to, grid, rows);
    } else if grid.has_inside(from.x) && grid.has_inside(to.x) {
        flag_crossed(from, to, grid, true, rows);
    } else {
        flag_crossed(from, to, grid, false, rows);
    }
}

// Turns over all columns in each row that an edge to the right of them crosses.
fn flag_whole(from: Point, to: Point, grid: Grid, rows: &mut [EdgeFlags])
    requires near { (size_of from ≤ 2 ^ 27) × (size_of to ≤ 2 ^ 27) }
    requires beyond { (column_shown grid.window grid.window.w ≤ℤ from.x)
        × (column_shown grid.window grid.window.w ≤ℤ to.x) }
    requires bottom { grid.first + length rows.old ≤ grid.window.h }
    ensures { (k i : ℕ) (d : EdgeFlags) → k < length rows.new
        → is_held (get_or rows.new k d).words i
        ≡ not_same (is_held (get_or rows.old k d).words i)
        (nat_lt i grid.window.w
        && counts from to (column_shown grid.window i) (row_shown grid.window (grid.first + k))) }
{
    let start = grid.rows_before(from.y.min(to.y), rows.len());
    let end = grid.rows_before(from.y.max(to.y), rows.len());
    for k in start..end {
        rows[k].toggle_before(grid.window.w() as usize);
    }
}

// Turns over the columns in which an edge counts, in each row that it crosses.
#[inline(always)]
fn flag_crossed(from: Point, to: Point, grid: Grid, inside: bool, rows: &mut [EdgeFlags])
    requires near { (size_of from ≤ 2 ^ 27) × (size_of to ≤ 2 ^ 27) }
    requires first { IsTrue inside
        → (column_shown grid.window 0 <ℤ from.x)
        × (from.x ≤ℤ column_shown grid.window grid.window.w) }
    requires second { IsTrue inside
        → (column_shown grid.window 0 <ℤ to.x) × (to.x ≤ℤ column_shown grid.window grid.window.w) }
    requires bottom { grid.first + length rows.old ≤ grid.window.h }
    ensures { (k i : ℕ) (d : EdgeFlags) → k < length rows.new
        → is_held (get_or rows.new k d).words i
        ≡ not_same (is_held (get_or rows.old k d).words i)
        (nat_lt i grid.window.w
        && counts from to (column_shown grid.window i) (row_shown grid.window (grid.first + k))) }
{
    let start = grid.rows_before(from.y.min(to.y), rows.len());
    let end = grid.rows_before(from.y.max(to.y), rows.len());
    if end <= start {
        return;
    }
    let mut line = Line::in_row(from, to, grid.row(start), grid.apart());
    for k in start..end {
        flag_row(&mut rows[k], line.threshold(), grid, inside);
        line = line.next();
    }
}

// Turns over a row's columns before a threshold.
#[inline(always)]
fn flag_row(row: &mut EdgeFlags, edge: i64, grid: Grid, inside: bool)
    requires { IsTrue inside
        → (column_shown grid.window 0 <ℤ edge) × (edge ≤ℤ column_shown grid.window grid.window.w) }
    ensures { (i : ℕ)
        → is_held row.new.words i
        ≡ not_same (is_held row.old.words i)
        (nat_lt i grid.window.w && int_lt (column_shown grid.window i) edge) }
{
    if inside {
        row.toggle_through(grid.column_before(edge));
    } else {
        row.toggle_before(grid.columns_before(edge));
    }
}
