//! Vertices of polygons, 256 each, in a square of 256 by 256.

ghost use Rattle.std.specs.Prelude.{◌≤◌, ◌<◌, ◌^◌, IfOk, All, length};
ghost use Rattle.canvas_plane.specs.Motion.{size_of};

use crate::fault::Fault;
use canvas_plane::Point;
use std::alloc::Global;

/// How many vertices a polygon has.
const COUNT: u32 = 256;

/// How far they lie from the middle at most.
const RADIUS: u32 = 120;

/// How the vertices of a polygon lie.
#[derive(Clone, Copy)]
pub enum Outline {
    /// On a circle, one after another.
    Round,
    /// On a circle and on one of half its size in turn.
    Rays,
    /// Anywhere, the same in each run.
    Scattered,
    /// Anywhere in a square of 256 by 256, the same in each run, so that most edges cross many others.
    Crossing,
    /// Down one side and up the other, a step of two rows each, where neither side is quite straight.
    Frayed,
}

/// The vertices of an outline.
pub fn vertices(alloc: Global, outline: Outline) -> Result<Vec<Point>, Fault>
    ensures { IfOk result
        (λ points. (0 < length points.items) × All (λ p. size_of p ≤ 2 ^ 27) points.items) }
{
    let mut points = Vec::new(alloc);
    let mut state: u64 = 1;
    for k in 0..COUNT {
        let drawn = mixed(state);
        state = mixed(drawn);
        points.push(vertex(outline, k, drawn, state))?;
    }
    Ok(points)
}

// One of the vertices of an outline, with two numbers that look random.
fn vertex(outline: Outline, k: u32, first: u64, second: u64) -> Point
    requires { k < 256 }
    ensures { size_of result ≤ 2 ^ 27 }
{
    match outline {
        Outline::Round => ring(k, RADIUS),
        Outline::Rays => ring(k, if k % 2 == 0 { RADIUS } else { RADIUS / 2 }),
        Outline::Scattered => at(high_bits(first) % 240, high_bits(second) % 240),
        Outline::Crossing => at(hashed(k, 5), hashed(k, 11)),
        Outline::Frayed => side(k),
    }
}

fn side(k: u32) -> Point
    requires { k < 256 }
    ensures { size_of result ≤ 2 ^ 27 }
{
    if k < 128 {
        at(200 + k % 7, 2 * k)
    } else {
        at(20 + k % 5, 512 - 2 * k)
    }
}

// A number below 256 that is mixed from two.
fn hashed(k: u32, by: u32) -> u32
    ensures { result < 256 }
{
    let sum = k
        .wrapping_mul(2654435761)
        .wrapping_add(by.wrapping_mul(40503));
    (sum.wrapping_mul(747796405).wrapping_add(by) >> 13) % 256
}

// The next number of a congruential generator.
fn mixed(state: u64) -> u64 {
    state
        .wrapping_mul(6364136223846793005)
        .wrapping_add(1442695040888963407)
}

fn high_bits(state: u64) -> u32 {
    (state >> 33) as u32
}

fn at(x: u32, y: u32) -> Point
    requires { (x ≤ 65536) × (y ≤ 65536) }
    ensures { size_of result ≤ 2 ^ 27 }
{
    Point {
        x: x as i64,
        y: y as i64,
    }
}

// One of 256 places round a circle: 64 a quarter, at (1 - s²) / (1 + s²) and 2s / (1 + s²) of the
// radius, where s goes from 0 to 1 in steps of a 64th.
fn ring(k: u32, radius: u32) -> Point
    requires { radius ≤ 120 }
    ensures { size_of result ≤ 2 ^ 27 }
{
    let step = k % 64;
    let square = squared(step);
    let across = part(radius, 4096 - square, 4096 + square);
    let down = part(radius, 128 * step, 4096 + square);
    let (x, y) = match k / 64 {
        0 => (120 + across, 120 + down),
        1 => (120 - down, 120 + across),
        2 => (120 - across, 120 - down),
        _ => (120 + down, 120 - across),
    };
    at(x, y)
}

fn squared(step: u32) -> u32
    requires { step < 64 }
    ensures { result ≤ 4096 }
{
    step * step
}

// So much of the radius, at most all of it.
fn part(radius: u32, of: u32, whole: u32) -> u32
    requires small { (radius ≤ 120) × (of ≤ 8192) }
    requires divisor { 0 < whole }
    ensures { result ≤ 120 }
{
    (radius * of / whole).min(120)
}
