//! The line of an edge, followed without a division from one shown row to the next.

ghost use Rattle.std.specs.Prelude.{◌≡◌, ◌≤◌, ◌<◌, ◌^◌, ◌+◌, ℕ, ℤ, unsigned_abs, ◌-ℤ◌, ◌*ℤ◌, ◌+ℤ◌, pos, true, int_lt, ◌≤ℤ◌, ◌<ℤ◌};
ghost use Rattle.canvas_plane.specs.Motion.{size_of};
ghost use Rattle.canvas_plane.specs.declared.Point.{Point};
ghost use Rattle.canvas_shape.specs.Edges.{counts, crosses_row};
ghost use Rattle.canvas_shape.specs.Lines.{Follows, IsDivided};
ghost use lib.IntN.{neg_ℤ};

use crate::polygon::{half_floor, lean, minus, negated, plus, raised, rise};
use canvas_plane::Point;

/// A quotient, rounded down, and what is left over.
#[derive(Clone, Copy)]
pub(crate) struct Division {
    pub whole: i64,
    pub rest: u64,
}

/// The line of an edge in one row, and how it goes on to the next of rows that lie equally far
/// apart: `x + here.whole` is the first pixel whose centre no longer lies to the left of the line,
/// and `step` is what the way to the next row adds. Quotients are by twice the edge's height.
#[derive(Clone, Copy)]
pub(crate) struct Line {
    pub x: i64,
    pub height: u64,
    pub here: Division,
    pub step: Division,
}

impl Line {
    /// The line in a row that the edge crosses, of rows that lie so far apart, 64 at most.
    pub(crate) fn in_row(p: Point, q: Point, y: i32, apart: u32) -> Line
        requires near { (size_of p ≤ 2 ^ 27) × (size_of q ≤ 2 ^ 27) }
        requires crossing { crosses_row p q y ≡ true }
        requires apart { apart ≤ 64 }
        ensures follows { Follows p q apart y result }
        ensures near { unsigned_abs result.x ≤ 2 ^ 27 }
        ensures here { unsigned_abs result.here.whole ≤ 2 ^ 62 }
        ensures step { unsigned_abs result.step.whole ≤ 2 ^ 35 }
    {
        let lean = lean(p, q, y);
        let step = lean_over(apart, minus(q.x, p.x));
        if p.y < q.y {
            line_of(p.x, rise(p.y, q.y), lean, step)
        } else {
            line_of(p.x, rise(q.y, p.y), negated(lean), opposite(step))
        }
    }

    /// The line in the next row.
    pub(crate) fn next(self) -> Line
        requires low { self.height ≤ 2 ^ 28 }
        requires here { (self.here.rest < self.height + self.height)
            × (unsigned_abs self.here.whole ≤ 2 ^ 62 + 2 ^ 47) }
        requires step { (self.step.rest < self.height + self.height)
            × (unsigned_abs self.step.whole ≤ 2 ^ 35) }
        ensures follows { (p q : Point) (apart : ℕ) (y : ℤ) → Follows p q apart y self
            → Follows p q apart (y +ℤ pos apart) result }
        ensures x { result.x ≡ self.x }
        ensures here { unsigned_abs result.here.whole ≤ unsigned_abs self.here.whole + 2 ^ 36 }
        ensures step { result.step.whole ≡ self.step.whole }
    {
        Line {
            x: self.x,
            height: self.height,
            here: sum(self.here, self.step, self.height),
            step: self.step,
        }
    }

    /// The first x at which the edge is no longer to the right of the pixel's centre.
    pub(crate) fn threshold(self) -> i64
        requires near { unsigned_abs self.x ≤ 2 ^ 27 }
        requires here { unsigned_abs self.here.whole ≤ 2 ^ 62 + 2 ^ 47 }
        ensures { (p q : Point) (apart : ℕ) (x y : ℤ) → Follows p q apart y self
            → crosses_row p q y ≡ true
            → counts p q x y ≡ int_lt x result }
    {
        plus(self.x, self.here.whole)
    }
}

// What the lean grows by over so many rows.
fn lean_over(rows: u32, a: i64) -> i64
    requires few { rows ≤ 64 }
    requires small { unsigned_abs a ≤ 2 ^ 28 }
    ensures value { result ≡ (pos 2 *ℤ pos rows) *ℤ a }
    ensures bound { unsigned_abs result ≤ 2 ^ 35 }
{
    2 * rows as i64 * a
}

fn opposite(a: i64) -> i64
    requires { unsigned_abs a ≤ 2 ^ 35 }
    ensures value { result ≡ neg_ℤ a }
    ensures bound { unsigned_abs result ≤ 2 ^ 35 }
{
    -a
}

// The line that leans so far over a height in its first row, and so much more in each further one.
fn line_of(x: i64, height: u64, lean: i64, step: i64) -> Line
    requires heights { (0 < height) × (height ≤ 2 ^ 28) }
    requires small { unsigned_abs lean ≤ 2 ^ 61 }
    requires slow { unsigned_abs step ≤ 2 ^ 35 }
    ensures x { result.x ≡ x }
    ensures height { result.height ≡ height }
    ensures here { IsDivided ((lean +ℤ pos height) -ℤ pos 1) height result.here.whole
        result.here.rest }
    ensures step { IsDivided step height result.step.whole result.step.rest }
    ensures bounds { (unsigned_abs result.here.whole ≤ 2 ^ 62)
        × (unsigned_abs result.step.whole ≤ 2 ^ 35) }
{
    Line {
        x,
        height,
        here: divided(raised(lean, height), height),
        step: divided(step, height),
    }
}

// The quotient by twice the height.
fn divided(n: i64, height: u64) -> Division
    requires small { unsigned_abs n ≤ 2 ^ 62 }
    requires heights { (0 < height) × (height ≤ 2 ^ 28) }
    ensures value { IsDivided n height result.whole result.rest }
    ensures bound { unsigned_abs result.whole ≤ unsigned_abs n }
{
    let whole = half_floor(n, height);
    Division {
        whole,
        rest: left_over(n, multiple(whole, height)),
    }
}

fn multiple(a: i64, height: u64) -> i64
    requires low { height ≤ 2 ^ 28 }
    requires small { unsigned_abs (a *ℤ pos height) ≤ 2 ^ 62 }
    ensures { result ≡ a *ℤ pos height }
{
    a * height as i64
}

fn left_over(n: i64, half: i64) -> u64
    requires first { unsigned_abs n ≤ 2 ^ 62 }
    requires second { unsigned_abs half ≤ 2 ^ 62 }
    requires least { (half +ℤ half) ≤ℤ n }
    requires most { n <ℤ ((half +ℤ half) +ℤ pos (2 ^ 29)) }
    ensures { pos result ≡ n -ℤ half -ℤ half }
{
    (n - half - half) as u64
}

// The quotient of the sum of two numbers of which the quotients are known.
fn sum(a: Division, b: Division, height: u64) -> Division
    requires low { height ≤ 2 ^ 28 }
    requires first { (a.rest < height + height) × (unsigned_abs a.whole ≤ 2 ^ 62 + 2 ^ 47) }
    requires second { (b.rest < height + height) × (unsigned_abs b.whole ≤ 2 ^ 35) }
    ensures value { (n m : ℤ) → IsDivided n height a.whole a.rest
        → IsDivided m height b.whole b.rest
        → IsDivided (n +ℤ m) height result.whole result.rest }
    ensures bound { unsigned_abs result.whole ≤ unsigned_abs a.whole + 2 ^ 36 }
{
    let whole = plus(b.whole, a.whole);
    let room = 2 * height - b.rest;
    if a.rest < room {
        Division {
            whole,
            rest: a.rest + b.rest,
        }
    } else {
        Division {
            whole: plus(1, whole),
            rest: a.rest - room,
        }
    }
}
