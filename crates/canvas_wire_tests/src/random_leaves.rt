//! Random leaves: the spans of rows beside the pixels asked one by one.

ghost use Rattle.std.specs.Prelude.{◌≡◌, ◌<◌, ◌≤◌, ◌≤ℤ◌, ◌<ℤ◌, ◌+ℤ◌, ◌^◌, All, length, nat_le, pos, true};
ghost use Rattle.canvas_plane.specs.Motion.{size_of};

use crate::asserts::holds_at;
use canvas_plane::{PageBox, Point, Pose, Window};
use canvas_shape::{Carried, Colour, EdgeFlags, Kind, Points, Span};
use std::alloc::Global;
use std::cmp::Ordering;
use std::process::Abort;

// A plain congruential generator: the same numbers in each run.
#[derive(Drop)]
struct Dice {
    state: u64,
}

impl Dice {
    fn roll(&mut self) -> u64
        ensures { result < 2 ^ 32 }
    {
        self.state = self
            .state
            .wrapping_mul(6364136223846793005)
            .wrapping_add(1442695040888963407);
        self.state >> 32
    }

    fn below(&mut self, sides: u64) -> u64
        requires { 0 < sides }
        ensures { result < sides }
    {
        self.roll() % sides
    }

    // A number of at most this size.
    fn within(&mut self, size: u32) -> i64 {
        let size = size as i64;
        self.below(2 * size as u64 + 1) as i64 - size
    }

    // One that is often extreme.
    fn wild(&mut self, size: u32) -> i64 {
        match self.below(5) {
            0 => size as i64,
            1 => -(size as i64),
            2 => self.within(size),
            _ => self.within(20),
        }
    }

    fn side(&mut self) -> u32
        ensures { (0 < result) × (result ≤ 65536) }
    {
        match self.below(5) {
            0 => 65_536,
            1 => 65_535,
            2 => 1,
            3 => self.below(65_536) as u32 + 1,
            _ => self.below(20) as u32 + 1,
        }
    }

    fn pose(&mut self, reach: u32) -> Pose {
        Pose {
            dx: self.wild(reach),
            dy: self.wild(reach),
            quarter: self.below(4) as u8,
            flip: self.below(2) == 1,
        }
    }

    fn point(&mut self, size: u32) -> Point {
        Point {
            x: self.wild(size),
            y: self.wild(size),
        }
    }
}

/// The leaf of some vertices, if there are any and they are near enough.
pub fn polygon(points: &[Point]) -> Option<Carried<'_>> {
    if points.is_empty() || !are_near(points) {
        None
    } else {
        Some(Carried::polygon(points))
    }
}

fn are_near(points: &[Point]) -> bool
    ensures { result ≡ true → All (λ p. size_of p ≤ 2 ^ 27) points.now }
{
    points.iter().all(|point| is_near(point))
}

fn is_near(point: &Point) -> bool
    ensures { result ≡ nat_le (size_of point.now) (2 ^ 27) }
{
    point.x.unsigned_abs().max(point.y.unsigned_abs()) <= 1 << 27
}

fn has(spans: &[Span], x: i32) -> bool {
    let mut has = false;
    for span in spans {
        has |= span.from <= x && x < span.to;
    }
    has
}

// Whether spans rise, lie apart and are not empty.
fn are_rising(spans: &[Span]) -> bool {
    let mut rising = true;
    let mut end = i32::MIN;
    for span in spans {
        rising &= end <= span.from && span.from < span.to;
        end = span.to;
    }
    rising
}

// Whether the first of some spans is one that was there, and those behind it are the pixels of a
// row that the leaf holds one by one.
fn are_held(out: &[Span], leaf: &Carried<'_>, y: i32, left: i32, right: i32) -> bool
    requires { left ≤ℤ right }
{
    let Some((first, spans)) = out.split_first() else {
        return false;
    };
    let mut same = *first == THERE && are_rising(spans);
    for x in left..right {
        same &= has(spans, x) == leaf.holds(x, y);
    }
    same
}

const THERE: Span = Span { from: 7, to: 7 };

// Whether the spans of a row are the pixels that the leaf holds one by one, behind what was there.
fn agrees(rt: &impl Abort, alloc: Global, leaf: &Carried<'_>, y: i32, left: i32, right: i32) -> bool
    requires { left ≤ℤ right }
{
    let mut out = Vec::new(alloc);
    out.push(THERE).expect(rt, "memory");
    let spans = leaf.row_spans(alloc, y, left, right, &mut out);
    spans.expect(rt, "spans");
    are_held(&out, leaf, y, left, right)
}

// The number as a coordinate of a pixel, or the nearest one.
fn pixel(at: i64) -> i32 {
    at.clamp(-2_147_483_648, 2_147_483_647) as i32
}

// Asserts that rows near the edges of the k-th leaf agree, in columns near its sides.
fn assert_rows(
    rt: &impl Abort,
    alloc: Global,
    dice: &mut Dice,
    what: &str,
    k: i64,
    leaf: &Carried<'_>,
) {
    let shape = leaf.page_box();
    for row in 0..6 {
        let y = match row {
            0 => shape.top,
            1 => shape.bottom.saturating_sub(1),
            2 => shape.bottom,
            3 => shape.top.saturating_sub(1),
            _ => shape.top.saturating_add(dice.below(70_000) as i64),
        };
        let left = match dice.below(3) {
            0 => shape.left.saturating_add(dice.within(40)),
            1 => shape.right.saturating_add(dice.within(40)),
            _ => shape.left.saturating_add(dice.below(70_000) as i64),
        };
        let left = pixel(left);
        let right = left.saturating_add(40);
        if left <= right {
            let agrees = agrees(rt, alloc, leaf, pixel(y), left, right);
            holds_at(rt, what, k, agrees);
        }
    }
}

#[test]
fn boxes_agree_with_their_pixels(rt: HostRuntime) {
    let mut dice = Dice { state: 1 };
    for k in 0..2000 {
        let pose = dice.pose(1 << 26);
        let w = dice.side();
        let h = dice.side();
        if pose.quarter <= 3 && pose.reach() <= 1 << 26 {
            let flat = Carried::rect(&pose, w, h);
            let round = Carried::ellipse(&pose, w, h);
            assert_rows(&rt, rt.alloc(), &mut dice, "rectangle", k, &flat);
            assert_rows(&rt, rt.alloc(), &mut dice, "ellipse", k, &round);
        }
    }
}

// Up to twelve points of at most this size.
fn some_points(rt: &impl Abort, alloc: Global, dice: &mut Dice, size: u32) -> Vec<Point> {
    let mut points = Vec::new(alloc);
    for _ in 0..dice.below(12) + 1 {
        points.push(dice.point(size)).expect(rt, "memory");
    }
    points
}

#[test]
fn polygons_agree_with_their_pixels(rt: HostRuntime) {
    let mut dice = Dice { state: 2 };
    for k in 0..1500 {
        let size = if k % 3 == 0 { 1 << 27 } else { 12 };
        let points = some_points(&rt, rt.alloc(), &mut dice, size);
        let leaf = polygon(&points).expect(&rt, "near vertices");
        assert_rows(&rt, rt.alloc(), &mut dice, "polygon", k, &leaf);
    }
}

// A width that is often that of a word or of all words.
fn some_width(dice: &mut Dice) -> u32
    ensures { result ≤ 256 }
{
    match dice.below(9) {
        0 => 1,
        1 => 63,
        2 => 64,
        3 => 65,
        4 => 255,
        5 => 256,
        _ => dice.below(257) as u32,
    }
}

// How far the edge of a window of 256 pixels may lie from the origin, where its pixels lie so far apart.
fn far_edge(apart: i64) -> i64
    requires { pos 0 <ℤ apart }
    ensures { (pos 0 ≤ℤ result) × (result ≤ℤ pos 2097152) }
{
    ((1 << 21) / apart).saturating_sub(256).clamp(0, 1 << 21)
}

// An edge of a window of a level whose pixels lie so far apart, mostly near one of two page pixels.
fn some_edge(dice: &mut Dice, apart: i64, low: i64, high: i64) -> i32
    requires { pos 0 <ℤ apart }
{
    let most = far_edge(apart);
    let at = match dice.below(4) {
        0 => low / apart,
        1 => high / apart,
        2 => dice.wild(1 << 21),
        _ => 0,
    };
    pixel(at.saturating_add(dice.within(300)).clamp(-most, most))
}

// A window of some level near a leaf.
fn some_window(rt: &impl Abort, dice: &mut Dice, shape: &PageBox) -> Window {
    let level = dice.below(7) as u8;
    let apart = 1i64 << u32::from(level);
    let x = some_edge(dice, apart, shape.left, shape.right);
    let y = some_edge(dice, apart, shape.top, shape.bottom);
    let w = some_width(dice).max(1);
    let h = some_width(dice).max(5);
    Window::at_level(level, x, y, w, h).expect(rt, "a window")
}

// The page pixel that a window's column or row shows, so far from the edge `first`.
fn shown(window: &Window, first: i32, k: u32) -> i32 {
    let at = i64::from(first).saturating_add(k as i64);
    pixel(at.saturating_mul(1 << u32::from(window.level())))
}

// The place as the first of 256 columns, or the nearest one.
fn first_column(at: i64) -> i32
    ensures { (result +ℤ pos 256) ≤ℤ pos 2147483647 }
{
    at.clamp(-2_147_483_648, 2_147_483_391) as i32
}

// Whether a bit of a row's words stands.
fn is_set(words: &[u64; 4], i: u32) -> bool
    requires { i < 256 }
{
    words[i as usize / 64] >> (i % 64) & 1 == 1
}

// Whether the columns of a window's row that `held` and, from the pixel `left` on, the spans behind
// the first have are the page pixels that the leaf holds one by one, and nothing else.
fn columns_agree(
    held: &[u64; 4],
    out: &[Span],
    leaf: &Carried<'_>,
    window: &Window,
    y: i32,
    left: i32,
) -> bool
    requires { (left +ℤ pos 256) ≤ℤ pos 2147483647 }
{
    let Some((first, spans)) = out.split_first() else {
        return false;
    };
    let mut same = *first == THERE && are_rising(spans);
    for i in 0..256u32 {
        let is_there = i < window.w();
        let is_held = is_there && leaf.holds(shown(window, window.x(), i), y);
        same &= is_set(held, i) == is_held;
        same &= !is_there || has(spans, left.saturating_add(i as i32)) == is_held;
    }
    same
}

// Whether the held columns of a window's row and their spans from the pixel `left` on agree with the leaf.
fn row_agrees(
    rt: &impl Abort,
    alloc: Global,
    flags: &EdgeFlags,
    leaf: &Carried<'_>,
    window: &Window,
    row: u32,
    left: i32,
) -> bool
    requires { (left +ℤ pos 256) ≤ℤ pos 2147483647 }
{
    let mut out = Vec::new(alloc);
    out.push(THERE).expect(rt, "memory");
    let appended = flags.append_spans(left, window.w(), &mut out);
    appended.expect(rt, "spans");
    let y = shown(window, window.y(), row);
    columns_agree(&flags.held(), &out, leaf, window, y, left)
}

// Whether the flagged rows of a polygon in a window hold its pixels.
fn flags_agree(rt: &impl Abort, alloc: Global, dice: &mut Dice, leaf: &Carried<'_>) -> bool {
    let Carried::Polygon(vertices) = leaf else {
        return false;
    };
    let window = some_window(rt, dice, &vertices.bounds);
    let mut rows = [EdgeFlags { words: [5; 4] }; 5];
    let first = dice.below(256) as u32 % window.h();
    if first + 5 > window.h() {
        return true;
    }
    vertices.flag_rows(&window, first as usize, &mut rows);
    let left = first_column(dice.wild(i32::MAX as u32));
    let mut same = true;
    let mut at = first;
    for row in &rows {
        same &= row_agrees(rt, alloc, row, leaf, &window, at, left);
        at = at.saturating_add(1);
    }
    same
}

#[test]
fn flagged_rows_agree_with_their_pixels(rt: HostRuntime) {
    let mut dice = Dice { state: 5 };
    for k in 0..400 {
        let size = if k % 3 == 0 { 1 << 27 } else { 120 };
        let points = some_points(&rt, rt.alloc(), &mut dice, size);
        let leaf = polygon(&points).expect(&rt, "near vertices");
        let agree = flags_agree(&rt, rt.alloc(), &mut dice, &leaf);
        holds_at(&rt, "polygon", k, agree);
    }
}

// On which side of the line from `a` to `b` a point lies.
fn side_of(a: Point, b: Point, p: Point) -> Ordering {
    let across = b.x.wrapping_sub(a.x).wrapping_mul(p.y.wrapping_sub(a.y));
    let down = b.y.wrapping_sub(a.y).wrapping_mul(p.x.wrapping_sub(a.x));
    across.cmp(&down)
}

// Whether each pixel near them is in exactly one of two leaves if it is in the whole, and else in none.
fn make_up(first: &Carried<'_>, second: &Carried<'_>, whole: &Carried<'_>) -> bool {
    let mut once = true;
    for y in -20..20 {
        for x in -20..20 {
            let held = first.holds(x, y) as u8 + second.holds(x, y) as u8;
            once &= held == whole.holds(x, y) as u8;
        }
    }
    once
}

// Whether each pixel of two triangles on both sides of an edge, carried by a pose, is in exactly
// one of them, and each other pixel near them in none.
fn share_an_edge(rt: &impl Abort, pose: &Pose, [a, b, c, d]: [Point; 4]) -> bool {
    let a = carried(rt, pose, a);
    let b = carried(rt, pose, b);
    let c = carried(rt, pose, c);
    let d = carried(rt, pose, d);
    let (first, second, whole) = ([a, b, c], [b, a, d], [a, d, b, c]);
    let first = polygon(&first).expect(rt, "a triangle");
    let second = polygon(&second).expect(rt, "a triangle");
    let whole = polygon(&whole).expect(rt, "a polygon");
    make_up(&first, &second, &whole)
}

fn carried(rt: &impl Abort, pose: &Pose, point: Point) -> Point {
    assert!(rt;
        pose.quarter <= 3 && pose.reach() <= 1 << 26 && is_near(&point),
        "too far"
    );
    pose.apply(point)
}

#[test]
fn triangles_share_an_edge_in_every_pose(rt: HostRuntime) {
    let mut dice = Dice { state: 3 };
    for pair in 0..900 {
        let [a, b, c, d] = [dice.point(8), dice.point(8), dice.point(8), dice.point(8)];
        if side_of(a, b, c) != Ordering::Equal && side_of(a, b, c) == side_of(a, b, d).reverse() {
            assert_edge_in_every_pose(&rt, pair, [a, b, c, d]);
        }
    }
}

fn assert_edge_in_every_pose(rt: &impl Abort, pair: i64, points: [Point; 4]) {
    for quarter in 0..4u8 {
        for flip in [false, true] {
            let pose = Pose {
                dx: 1,
                dy: -2,
                quarter,
                flip,
            };
            holds_at(rt, "pair", pair, share_an_edge(rt, &pose, points));
        }
    }
}

#[test]
fn kinds_hold_what_their_leaves_hold(rt: HostRuntime) {
    let mut dice = Dice { state: 4 };
    for k in 0..300 {
        let points = few_points(&rt, rt.alloc(), &mut dice);
        let pose = dice.pose(5);
        assert_held_as_leaf(&rt, rt.alloc(), k, points, &pose);
    }
}

// Three to eight points near the origin.
fn few_points(rt: &impl Abort, alloc: Global, dice: &mut Dice) -> Points {
    let mut points = Points::new(alloc);
    for _ in 0..dice.below(6) + 3 {
        points.push(dice.point(9)).expect(rt, "memory");
    }
    points
}

// Points carried by a pose.
fn all_carried(rt: &impl Abort, alloc: Global, points: &Points, pose: &Pose) -> Vec<Point> {
    let mut vertices = Vec::new(alloc);
    for point in points.as_slice() {
        let vertex = carried(rt, pose, *point);
        vertices.push(vertex).expect(rt, "memory");
    }
    vertices
}

// Asserts that a polygon holds what its carried vertices hold.
fn assert_held_as_leaf(rt: &impl Abort, alloc: Global, k: i64, points: Points, pose: &Pose) {
    let vertices = all_carried(rt, alloc, &points, pose);
    let kind = Kind::Polygon {
        points,
        fill: Colour([0, 0, 0]),
    };
    holds_at(rt, "kind", k, holds_as_leaf(rt, &kind, pose, &vertices));
}

// Whether a kind holds what a leaf of these vertices holds.
fn holds_as_leaf(rt: &impl Abort, kind: &Kind, pose: &Pose, vertices: &[Point]) -> bool {
    let leaf = polygon(vertices).expect(rt, "near vertices");
    if kind.check().is_err() || pose.quarter > 3 || pose.reach() > 1 << 26 {
        return false;
    }
    let mut same = true;
    for y in -20..20 {
        for x in -20..20 {
            same &= kind.holds(pose, x, y) == leaf.holds(x, y);
        }
    }
    same
}
