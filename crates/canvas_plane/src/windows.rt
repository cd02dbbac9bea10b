//! Windows: the pixels of the page that a picture shows.

ghost use Rattle.std.specs.Prelude.{◌≡◌, ◌↔◌, ◌≤◌, ◌<◌, ◌*◌, ◌^◌, ℕ, ◌+ℤ◌, ◌*ℤ◌, ◌≤ℤ◌, ◌<ℤ◌, ◌-ℤ◌, pos, IfOk, MatchResult, None, Some, int_le, int_lt, nat_le, nat_lt};
ghost use lib.IntN.{neg_ℤ};
ghost use Rattle.canvas_plane.specs.Sides.{is_near_enough, is_window, is_window_side, scale_of, IsWindowSide};
ghost use Rattle.canvas_plane.specs.Limits.{window_fault, window_fault_code};

use crate::PageBox;
use canvas_code::Coded;
use thiserror::Error;

/// 1 to 256 by 1 to 256 pixels of the page, each 2^level from the next, level 0 to 6. The edges are
/// counted in such steps, and lie in -2^21 to 2^21 of the page's pixels.
/// Only `Window::new`, `tile`, `at_level` and `tile_at` make one.
#[derive(Clone, Copy, Debug, PartialEq, Eq)]
pub struct Window {
    level: u8,
    x: i32,
    y: i32,
    w: u32,
    h: u32,
    pub ghost leveled: { level ≤ 6 },
    pub ghost across: { IsWindowSide (scale_of level) x w },
    pub ghost down: { IsWindowSide (scale_of level) y h },
}

/// Why a window is refused.
#[derive(Clone, Copy, Debug, PartialEq, Eq, Drop, Error)]
#[error("{}", self.name())]
pub enum WindowFault {
    /// The level is above 6.
    BadLevel,
    /// A side is outside 1 to 256, or an edge outside -2^21 to 2^21 of the page's pixels.
    BadWindow,
}

impl Coded for WindowFault {
    ghost code_of = { window_fault_code };

    fn code(&self) -> u16 {
        match self {
            WindowFault::BadLevel => 34,
            WindowFault::BadWindow => 30,
        }
    }
}

impl Window {
    ghost use Rattle.canvas_plane.specs.Window.{IsWindowAt, column_shown, covered_by, row_shown};

    /// The side of a tile, in pixels.
    pub const TILE: u32 = 256;

    // How far an edge may lie from the page's origin.
    const EDGE: i64 = 1 << 21;

    /// The window of level 0 of `w` by `h` pixels whose left top pixel is (x, y). It is `BadWindow`
    /// where a side is outside 1 to 256, or an edge outside -2^21 to 2^21.
    pub fn new(x: i32, y: i32, w: u32, h: u32) -> Result<Window, WindowFault>
        ensures fault { MatchResult result (λ _. window_fault 0 x y w h ≡ None)
            (λ fault. window_fault 0 x y w h ≡ Some fault) }
        ensures value { IfOk result (λ window. IsWindowAt 0 x y w h window) }
    {
        Window::placed(0, i64::from(x), i64::from(y), w, h)
    }

    /// The window of level 0 of 256 by 256 pixels at (256 * col, 256 * row), refused as by `new`.
    pub fn tile(col: i32, row: i32) -> Result<Window, WindowFault>
        ensures fault { MatchResult result
            (λ _. window_fault 0 (pos 256 *ℤ col) (pos 256 *ℤ row) 256 256 ≡ None)
            (λ fault. window_fault 0 (pos 256 *ℤ col) (pos 256 *ℤ row) 256 256 ≡ Some fault) }
        ensures value { IfOk result
            (λ window. IsWindowAt 0 (pos 256 *ℤ col) (pos 256 *ℤ row) 256 256 window) }
    {
        Window::tile_at(0, col, row)
    }

    /// The window of a level whose pixel (i, j) shows the page's pixel ((x + i) * 2^level, (y + j)
    /// * 2^level). It is `BadLevel` where the level is above 6, and else `BadWindow` where a side
    /// is outside 1 to 256, or an edge times 2^level outside -2^21 to 2^21.
    pub fn at_level(level: u8, x: i32, y: i32, w: u32, h: u32) -> Result<Window, WindowFault>
        ensures fault { MatchResult result (λ _. window_fault level x y w h ≡ None)
            (λ fault. window_fault level x y w h ≡ Some fault) }
        ensures value { IfOk result (λ window. IsWindowAt level x y w h window) }
    {
        Window::placed(level, i64::from(x), i64::from(y), w, h)
    }

    /// The window of a level of 256 by 256 pixels at (256 * col, 256 * row), refused as by `at_level`.
    pub fn tile_at(level: u8, col: i32, row: i32) -> Result<Window, WindowFault>
        ensures fault { MatchResult result
            (λ _. window_fault level (pos 256 *ℤ col) (pos 256 *ℤ row) 256 256 ≡ None)
            (λ fault. window_fault level (pos 256 *ℤ col) (pos 256 *ℤ row) 256 256 ≡ Some fault) }
        ensures value { IfOk result
            (λ window. IsWindowAt level (pos 256 *ℤ col) (pos 256 *ℤ row) 256 256 window) }
    {
        Window::placed(
            level,
            tile_edge(col),
            tile_edge(row),
            Window::TILE,
            Window::TILE,
        )
    }

    fn placed(level: u8, x: i64, y: i64, w: u32, h: u32) -> Result<Window, WindowFault>
        requires across { (neg_ℤ (pos (2 ^ 40)) ≤ℤ x) × (x ≤ℤ pos (2 ^ 40)) }
        requires down { (neg_ℤ (pos (2 ^ 40)) ≤ℤ y) × (y ≤ℤ pos (2 ^ 40)) }
        ensures fault { MatchResult result (λ _. window_fault level x y w h ≡ None)
            (λ fault. window_fault level x y w h ≡ Some fault) }
        ensures value { IfOk result (λ window. IsWindowAt level x y w h window) }
    {
        if 6 < level {
            Err(WindowFault::BadLevel)
        } else if is_window(level, x, y, w, h) {
            Ok(Window {
                level,
                x: x as i32,
                y: y as i32,
                w,
                h,
            })
        } else {
            Err(WindowFault::BadWindow)
        }
    }

    /// The level, 0 to 6: the window's pixels lie 2^level of the page's apart.
    pub fn level(&self) -> u8
        ensures value { result ≡ self.now.level }
        ensures bound { result ≤ 6 }
    {
        self.level
    }

    /// The left edge, in pixels of the window.
    pub fn x(&self) -> i32
        ensures { result ≡ self.now.x }
    {
        self.x
    }

    /// The top edge, in pixels of the window.
    pub fn y(&self) -> i32
        ensures { result ≡ self.now.y }
    {
        self.y
    }

    /// The width, 1 to 256.
    pub fn w(&self) -> u32
        ensures value { result ≡ self.now.w }
        ensures bounds { (1 ≤ result) × (result ≤ 256) }
    {
        self.w
    }

    /// The height, 1 to 256.
    pub fn h(&self) -> u32
        ensures value { result ≡ self.now.h }
        ensures bounds { (1 ≤ result) × (result ≤ 256) }
    {
        self.h
    }

    /// The box of the page that the window covers, of w * 2^level by h * 2^level pixels.
    pub fn covered(&self) -> PageBox
        ensures { result ≡ covered_by self.now }
    {
        PageBox {
            left: page_place(self.level, self.x, 0),
            top: page_place(self.level, self.y, 0),
            right: page_place(self.level, self.x, self.w),
            bottom: page_place(self.level, self.y, self.h),
        }
    }

    /// The row of the page that the window's row `j`, counted from 0, shows.
    pub fn row_shown(&self, j: usize) -> i32
        requires { j < self.now.h }
        ensures { result ≡ row_shown self.now j }
    {
        page_place(self.level, self.y, j as u32) as i32
    }

    /// How many of the window's columns show a column of the page before an edge.
    pub fn columns_before(&self, edge: i64) -> usize
        ensures within { result ≤ self.now.w }
        ensures before { (k : ℕ) → k < self.now.w
            → nat_lt k result ≡ int_lt (column_shown self.now k) edge }
        ensures after { (k : ℕ) → k < self.now.w
            → nat_le result k ≡ int_le edge (column_shown self.now k) }
    {
        places_before(self.level, self.x, self.w, edge)
    }

    /// How many of the window's rows show a row of the page before an edge.
    pub fn rows_before(&self, edge: i64) -> usize
        ensures within { result ≤ self.now.h }
        ensures before { (k : ℕ) → k < self.now.h
            → nat_lt k result ≡ int_lt (row_shown self.now k) edge }
        ensures after { (k : ℕ) → k < self.now.h
            → nat_le result k ≡ int_le edge (row_shown self.now k) }
    {
        places_before(self.level, self.y, self.h, edge)
    }
}

// The edge of the tiles in a column or row.
fn tile_edge(at: i32) -> i64
    ensures { result ≡ pos 256 *ℤ at }
{
    256 * i64::from(at)
}

// The page's pixels from one that is shown to the next.
fn scale_of(level: u8) -> i64
    requires { level ≤ 6 }
    ensures { result ≡ pos (scale_of level) }
{
    1 << level
}

// A place in pixels of a window, as one in pixels of the page.
fn stretched(level: u8, place: i64) -> i64
    requires leveled { level ≤ 6 }
    requires within { (neg_ℤ (pos (2 ^ 41)) ≤ℤ place) × (place ≤ℤ pos (2 ^ 41)) }
    ensures { result ≡ place *ℤ pos (scale_of level) }
{
    product(place, scale_of(level))
}

fn product(place: i64, scale: i64) -> i64
    requires least { pos 1 ≤ℤ scale }
    requires most { scale ≤ℤ pos 64 }
    requires within { (neg_ℤ (pos (2 ^ 41)) ≤ℤ place) × (place ≤ℤ pos (2 ^ 41)) }
    ensures { result ≡ place *ℤ scale }
{
    place * scale
}

// The place on the page that is shown so far behind the edge of a window.
fn page_place(level: u8, from: i32, at: u32) -> i64
    requires leveled { level ≤ 6 }
    ensures { result ≡ (from +ℤ pos at) *ℤ pos (scale_of level) }
{
    stretched(level, end(from, at))
}

fn end(from: i32, at: u32) -> i64
    ensures value { result ≡ from +ℤ pos at }
    ensures within { (neg_ℤ (pos (2 ^ 41)) ≤ℤ result) × (result ≤ℤ pos (2 ^ 41)) }
{
    i64::from(from) + i64::from(at)
}

// How many of the places from the edge of a window on are shown before an edge of the page.
fn places_before(level: u8, from: i32, size: u32, edge: i64) -> usize
    requires leveled { level ≤ 6 }
    requires side { IsWindowSide (scale_of level) from size }
    ensures within { result ≤ size }
    ensures before { (k : ℕ) → k < size
        → nat_lt k result ≡ int_lt ((from +ℤ pos k) *ℤ pos (scale_of level)) edge }
    ensures after { (k : ℕ) → k < size
        → nat_le result k ≡ int_le edge ((from +ℤ pos k) *ℤ pos (scale_of level)) }
{
    let start = page_place(level, from, 0);
    if edge <= start {
        0
    } else if page_place(level, from, size) <= edge {
        size as usize
    } else {
        steps(level, last_before(start, edge)) + 1
    }
}

// How far the last place before an edge lies behind the start.
fn last_before(start: i64, edge: i64) -> i64
    requires some { start <ℤ edge }
    requires near { neg_ℤ (pos (2 ^ 41)) ≤ℤ start }
    requires far { edge ≤ℤ pos (2 ^ 41) }
    ensures value { result ≡ edge -ℤ start -ℤ pos 1 }
    ensures least { pos 0 ≤ℤ result }
    ensures most { result ≤ℤ pos (2 ^ 42) }
{
    edge - start - 1
}

// How many whole steps of a level a distance has.
fn steps(level: u8, distance: i64) -> usize
    requires leveled { level ≤ 6 }
    requires least { pos 0 ≤ℤ distance }
    requires most { distance ≤ℤ pos (2 ^ 42) }
    ensures exact { (k : ℕ) → (k ≤ result) ↔ (pos (k * scale_of level) ≤ℤ distance) }
    ensures bound { result ≤ 2 ^ 42 }
{
    (distance as u64 >> level) as usize
}

// Whether a window of a level may lie there and have these sides.
fn is_window(level: u8, x: i64, y: i64, w: u32, h: u32) -> bool
    requires leveled { level ≤ 6 }
    requires across { (neg_ℤ (pos (2 ^ 40)) ≤ℤ x) × (x ≤ℤ pos (2 ^ 40)) }
    requires down { (neg_ℤ (pos (2 ^ 40)) ≤ℤ y) × (y ≤ℤ pos (2 ^ 40)) }
    ensures { result ≡ is_window (scale_of level) x y w h }
{
    let is_across = is_side(level, x, w);
    let is_down = is_side(level, y, h);
    is_across && is_down
}

// Whether a window may have this side.
fn is_side(level: u8, from: i64, size: u32) -> bool
    requires leveled { level ≤ 6 }
    requires within { (neg_ℤ (pos (2 ^ 40)) ≤ℤ from) × (from ≤ℤ pos (2 ^ 40)) }
    ensures { result ≡ is_window_side (scale_of level) from size }
{
    if 1 <= size && size <= 256 {
        is_near(level, from, size)
    } else {
        false
    }
}

// Whether a side lies within the edges.
fn is_near(level: u8, from: i64, size: u32) -> bool
    requires leveled { level ≤ 6 }
    requires within { (neg_ℤ (pos (2 ^ 40)) ≤ℤ from) × (from ≤ℤ pos (2 ^ 40)) }
    requires side { size ≤ 256 }
    ensures { result ≡ is_near_enough (scale_of level) from size }
{
    let is_behind = -Window::EDGE <= stretched(level, from);
    let is_before = stretched(level, far_edge(from, size)) <= Window::EDGE;
    is_behind && is_before
}

fn far_edge(from: i64, size: u32) -> i64
    requires { (neg_ℤ (pos (2 ^ 40)) ≤ℤ from) × (from ≤ℤ pos (2 ^ 40)) }
    ensures value { result ≡ from +ℤ pos size }
    ensures within { (neg_ℤ (pos (2 ^ 41)) ≤ℤ result) × (result ≤ℤ pos (2 ^ 41)) }
{
    from + i64::from(size)
}
