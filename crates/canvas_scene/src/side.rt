//! The sides of what a window covers, in cells.

ghost use Rattle.std.specs.Prelude.{◌≡◌, ◌<◌, ◌≤◌, ◌*◌, ◌^◌, ◌+ℤ◌, ◌-ℤ◌, ◌≤ℤ◌, pos, ℤ, true, int_le, nat_le, unsigned_abs};
ghost use Rattle.canvas_shape.specs.Spans.{is_from_to};
ghost use Rattle.canvas_scene.specs.Places.{cell_of, is_among};

/// How many cells a side has at most.
const COUNT: u32 = 32;

/// The places from one up to another, in cells of `2 ^ shift` places from the first on, of which
/// the last may be cut.
#[derive(Clone, Copy)]
pub(crate) struct Side {
    pub start: i64,
    pub end: i64,
    pub shift: u32,
    pub ghost order: { start ≤ℤ end },
    pub ghost short: { end ≤ℤ (start +ℤ pos (32 * 2 ^ shift)) },
    pub ghost fine: { shift ≤ 9 },
}

/// Cells from one up to another.
#[derive(Clone, Copy)]
pub(crate) struct Run {
    pub first: u32,
    pub end: u32,
    pub ghost bound: { end ≤ 32 },
}

impl Side {
    /// The side of what a window of a level covers: its cells have 8 of the window's pixels.
    pub(crate) fn new(start: i64, end: i64, level: u8) -> Side
        requires level { level ≤ 6 }
        requires order { start ≤ℤ end }
        requires short { end ≤ℤ (start +ℤ pos (256 * 2 ^ level)) }
    {
        Side {
            start,
            end,
            shift: u32::from(level) + 3,
        }
    }

    /// The cells whose places all lie from one place up to another.
    pub(crate) fn within(&self, from: i64, to: i64) -> Run
        ensures { (x : ℤ) → is_from_to self.now.start x self.now.end ≡ true
            → is_among result.first result.end (cell_of self.now.start self.now.shift x) ≡ true
            → is_from_to from x to ≡ true }
    {
        Run {
            first: self.begun(from),
            end: self.ended(to),
        }
    }

    /// The cells that have a place from one up to another.
    pub(crate) fn touched(&self, from: i64, to: i64) -> Run
        ensures { (x : ℤ) → is_from_to self.now.start x self.now.end ≡ true
            → is_from_to from x to ≡ true
            → is_among result.first result.end (cell_of self.now.start self.now.shift x) ≡ true }
    {
        Run {
            first: self.ended(from),
            end: self.begun(to),
        }
    }

    /// The cell that has a place of the side, and of a place elsewhere some cell. No clause says
    /// so: it is asked for where a wrong answer costs time alone.
    #[inline(always)]
    pub(crate) fn cell_near(&self, at: i64) -> u32
        ensures { result < 32 }
    {
        (at.wrapping_sub(self.start) >> self.shift).rem_euclid(32) as u32
    }

    // How many cells begin before a place.
    fn begun(&self, at: i64) -> u32
        ensures bound { result ≤ 32 }
        ensures past { (x : ℤ) → is_from_to self.now.start x self.now.end ≡ true
            → result ≤ cell_of self.now.start self.now.shift x
            → int_le at x ≡ true }
    {
        (self.offset(at) + (cell(self.shift) - 1)) >> self.shift
    }

    // How many cells end before a place or at it: all where the side does.
    fn ended(&self, at: i64) -> u32
        ensures bound { result ≤ 32 }
        ensures before { (x : ℤ) → is_from_to self.now.start x self.now.end ≡ true
            → int_le at x ≡ true
            → result ≤ cell_of self.now.start self.now.shift x }
    {
        if self.end <= at {
            COUNT
        } else {
            self.offset(at) >> self.shift
        }
    }

    // How many places lie before one.
    fn offset(&self, at: i64) -> u32
        ensures bound { result ≤ 32 * 2 ^ self.now.shift }
        ensures places { (x : ℤ) → is_from_to self.now.start x self.now.end ≡ true
            → int_le at x ≡ nat_le result (unsigned_abs (x -ℤ self.now.start)) }
    {
        if at <= self.start {
            0
        } else if at < self.end {
            distance(self.start, at)
        } else {
            distance(self.start, self.end)
        }
    }
}

// How far a place lies from another.
fn distance(from: i64, to: i64) -> u32
    requires order { from ≤ℤ to }
    requires near { to ≤ℤ (from +ℤ pos 16384) }
    ensures { from +ℤ pos result ≡ to }
{
    (to - from) as u32
}

// How many places a cell has.
fn cell(shift: u32) -> u32
    requires { shift ≤ 9 }
    ensures { result ≡ 2 ^ shift }
{
    1 << shift
}
