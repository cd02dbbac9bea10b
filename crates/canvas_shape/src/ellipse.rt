//! Ellipses on whole pixels.

ghost use Rattle.std.specs.Prelude.{◌≡◌, ◌≤◌, ◌<◌, ◌^◌, ◌*◌, ◌+◌, ◌-◌, ◌/◌, ◌%◌, ◌↔◌, ℕ, ℤ, unsigned_abs, ◌-ℤ◌, ◌*ℤ◌, ◌+ℤ◌, ◌≤ℤ◌, ◌<ℤ◌, pos, nat_le, OnOk, OnErr, IsTrue};
ghost use Rattle.canvas_shape.specs.Ellipse.{is_in_ellipse, offset, IsSide, is_near_middle};
ghost use Rattle.canvas_shape.specs.Spans.{AppendsSpans, is_from_to, within};

use crate::Span;
use crate::spans::append_cut;
use canvas_code::OutOfMemory;
use canvas_plane::PageBox;
use std::num::f64_to_bits_with_nan;

/// Appends the pixels of an ellipse in the row `y`, from `left` up to `right`.
pub(crate) fn ellipse_spans(
    shape: &PageBox,
    y: i32,
    left: i32,
    right: i32,
    out: &mut Vec<Span>,
) -> Result<(), OutOfMemory>
    requires across { IsSide shape.now.left shape.now.right }
    requires down { IsSide shape.now.top shape.now.bottom }
    requires range { left ≤ℤ right }
    ensures ok { OnOk result
        (AppendsSpans out.old.items out.new.items
        (within left right (λ x. is_in_ellipse shape.now x y))) }
    ensures err { OnErr result (out.new.items ≡ out.old.items) }
    ensures want { OnErr result (left <ℤ right) }
{
    let ends = row_ends(shape, y);
    append_cut(ends.from, ends.to, left, right, out)
}

/// Whether the ellipse holds a pixel.
pub(crate) fn ellipse_holds(shape: &PageBox, x: i32, y: i32) -> bool
    requires across { IsSide shape.now.left shape.now.right }
    requires down { IsSide shape.now.top shape.now.bottom }
    ensures { result ≡ is_in_ellipse shape.now x y }
{
    row_ends(shape, y).hold(x)
}

impl Ends {
    fn hold(&self, x: i32) -> bool
        ensures { result ≡ is_from_to self.now.from x self.now.to }
    {
        let x = i64::from(x);
        if self.from <= x { x < self.to } else { false }
    }
}

/// From where up to where a row of a leaf is held; nothing where `to` is not above `from`.
#[derive(Clone, Copy, Debug, PartialEq, Eq)]
pub struct Ends {
    pub from: i64,
    pub to: i64,
}

/// The pixels of the row `y` that the ellipse holds.
pub(crate) fn row_ends(shape: &PageBox, y: i32) -> Ends
    requires across { IsSide shape.now.left shape.now.right }
    requires down { IsSide shape.now.top shape.now.bottom }
    ensures { (x : ℤ) → is_from_to result.from x result.to ≡ is_in_ellipse shape.now x y }
{
    let w = side(shape.left, shape.right);
    let h = side(shape.top, shape.bottom);
    let m = way(y, shape.top, h);
    if m < h {
        ends_at(shape.left, w, reach(m, w, h))
    } else {
        Ends { from: 0, to: 0 }
    }
}

fn side(from: i64, to: i64) -> u64
    requires { IsSide from to }
    ensures value { pos result ≡ to -ℤ from }
    ensures least { 0 < result }
    ensures most { result ≤ 65536 }
{
    (to - from) as u64
}

// Twice the way from the middle of a side to the centre of a pixel.
fn way(at: i32, from: i64, size: u64) -> u64
    requires near { unsigned_abs from ≤ 2 ^ 28 }
    requires small { size ≤ 65536 }
    ensures value { result ≡ unsigned_abs (offset at from (pos size)) }
    ensures odd { (result + size) % 2 ≡ 1 }
{
    less(centre(at), doubled(from), size).unsigned_abs()
}

fn centre(at: i32) -> i64
    ensures value { result ≡ pos 2 *ℤ at +ℤ pos 1 }
    ensures bound { unsigned_abs result ≤ 2 ^ 32 }
{
    2 * i64::from(at) + 1
}

fn doubled(from: i64) -> i64
    requires { unsigned_abs from ≤ 2 ^ 28 }
    ensures value { result ≡ pos 2 *ℤ from }
    ensures bound { unsigned_abs result ≤ 2 ^ 29 }
{
    2 * from
}

fn less(a: i64, b: i64, c: u64) -> i64
    requires first { unsigned_abs a ≤ 2 ^ 32 }
    requires second { unsigned_abs b ≤ 2 ^ 29 }
    requires third { c ≤ 65536 }
    ensures { result ≡ a -ℤ b -ℤ pos c }
{
    a - b - c as i64
}

// The ends of a row that reaches so far from the middle, doubled.
fn ends_at(left: i64, w: u64, reach: u64) -> Ends
    requires near { unsigned_abs left ≤ 2 ^ 28 }
    requires small { w ≤ 65536 }
    requires within { reach ≤ w }
    ensures from { result.from ≡ left +ℤ pos ((w - reach) / 2) }
    ensures to { result.to ≡ left +ℤ pos ((w + reach + 1) / 2) }
{
    Ends {
        from: left + ((w - reach) / 2) as i64,
        to: left + ((w + reach + 1) / 2) as i64,
    }
}

// How far a row reaches from the middle, where it is `m` away from the middle, all doubled: w / h
// times the root of h² - m². Floats only propose it, which is quicker than a search; whole numbers
// decide whether it is right.
fn reach(m: u64, w: u64, h: u64) -> u64
    requires row { m < h }
    requires odd { (m + h) % 2 ≡ 1 }
    requires across { w ≤ 65536 }
    requires down { h ≤ 65536 }
    ensures value { (n : ℕ) → nat_le n result ≡ is_near_middle n m w h }
    ensures bound { result ≤ w }
{
    let whole = square(h);
    let rest = whole - square(m);
    let number = product(square(w), rest);
    let guess = guessed_reach(rest, w, h);
    if is_root(guess, number, whole) {
        guess
    } else {
        root(number / whole, w)
    }
}

// A float in which a number below 65,536 that is added to it has its bits at fixed places.
const POINT: f64 = 4294967296.0;

// How many of a float's bits then stand behind the point.
const POINT_BITS: u32 = 20;

// The bits before the point, once those behind it are shifted away.
const WHOLE: u64 = 0xffff;

// w / h times the square root of `rest`, rounded down, as floats have it: added to 2^32 it has its
// whole part at one place of its bits, which is quicker than a cast.
fn guessed_reach(rest: u64, w: u64, h: u64) -> u64
    requires small { rest < 2 ^ 32 }
    requires across { w ≤ 65536 }
    requires down { h ≤ 65536 }
    ensures { result ≤ 65535 }
{
    let root = f64::from(rest as u32).sqrt();
    let slope = f64::from(w as u32) / f64::from(h as u32);
    f64_to_bits_with_nan(root * slope + POINT) >> POINT_BITS & WHOLE
}

fn square(a: u64) -> u64
    requires { a ≤ 65536 }
    ensures value { result ≡ a * a }
    ensures bound { result ≤ 2 ^ 32 }
{
    a * a
}

fn product(a: u64, b: u64) -> u64
    requires first { a ≤ 2 ^ 32 }
    requires second { b < 2 ^ 32 }
    ensures { result ≡ a * b }
{
    a * b
}

// Whether a number is the integer square root of the quotient of `n` by `by`.
fn is_root(root: u64, n: u64, by: u64) -> bool
    requires number { root ≤ 65535 }
    requires divisor { by ≤ 2 ^ 32 }
    ensures { IsTrue result ↔ (((root * root) * by ≤ n) × (n < ((root + 1) * (root + 1)) * by)) }
{
    let least = root * root * by;
    least <= n && n - least < (2 * root + 1) * by
}

// The integer square root of a number that is no greater than the square of `most`.
fn root(n: u64, most: u64) -> u64
    requires within { n ≤ most * most }
    requires bound { most ≤ 65536 }
    ensures square { result * result ≤ n }
    ensures next { n < (result + 1) * (result + 1) }
    ensures bound { result ≤ most }
{
    let mut low: u64 = 0;
    let mut size: u64 = most + 1;
    while 1 < size {
        let half = size / 2;
        let middle = low + half;
        if middle * middle <= n {
            low = middle;
        }
        size -= half;
    }
    low
}
