//! The colour of a pixel, walked from front to back.

ghost use Rattle.std.specs.Prelude.{◌≡◌, ◌≤◌, ◌+◌, ◌+ℤ◌, ◌*◌, ◌^◌, cond, pos};
ghost use Rattle.canvas_plane.specs.Motion.{carry, reach_of};
ghost use Rattle.canvas_shape.specs.Inside.{holds_of};
ghost use Rattle.canvas_record.specs.Picture.{answer_among, answer_of, or_else, or_white, colour};
ghost use Rattle.canvas_record.specs.Tree.{IsInLimits};

use crate::Document;
use crate::coverage::Coverage;
use crate::place_order::children_of;
use canvas_list::FoundRange;
use canvas_plane::{PageBox, Pose};
use canvas_record::{Parent, Record};
use canvas_shape::{Colour, Kind};

impl Document {
    /// The colour of a pixel of the page: what the first shape that holds it answers, walked from
    /// front to back, or white.
    pub fn colour_at(&self, x: i32, y: i32) -> Colour
        ensures { result ≡ colour self.now.records x y }
    {
        let at = Pixel { x, y };
        or_white(answer_among(self, DEPTH, Parent::Page, &Pose::STILL, at))
    }
}

fn or_white(answer: Option<Colour>) -> Colour
    ensures { result ≡ or_white answer }
{
    match answer {
        Some(colour) => colour,
        None => Colour([255, 255, 255]),
    }
}

/// How deep a record may lie: a child of the page has depth 1.
const DEPTH: u32 = 32;

/// A pixel of the page.
#[derive(Clone, Copy)]
struct Pixel {
    x: i32,
    y: i32,
}

impl Pixel {
    // The box of this pixel alone.
    fn sides(self) -> PageBox
        ensures { result
            ≡ record { left = self.x; top = self.y; right = self.x +ℤ pos 1; bottom = self.y +ℤ pos 1 } }
    {
        let x = i64::from(self.x);
        let y = i64::from(self.y);
        PageBox {
            left: x,
            top: y,
            right: x + 1,
            bottom: y + 1,
        }
    }
}

// What the children of `parent` answer, where `out` carries its points to the page: the answer of
// the foremost child that has one. A child behind one that has answered is never asked.
#[cycle(walk)]
fn answer_among(
    document: &Document,
    levels: u32,
    parent: Parent,
    out: &Pose,
    at: Pixel,
) -> Option<Colour>
    requires quarter { out.now.quarter ≤ 3 }
    requires reach { reach_of out.now + levels * 2 ^ 20 ≤ 2 ^ 26 }
    ensures { result ≡ answer_among levels document.now.records parent (carry out.now) at.x at.y }
{
    if levels == 0 {
        return None;
    }
    let FoundRange {
        start,
        end,
        mut reader,
    } = children_of(&document.order, parent);
    let area = Coverage::of_clip(out, &at.sides());
    let mut slot = reader.next_meeting(start, end, &area);
    'siblings: while slot < end {
        let shape = reader.at(slot).shape.value();
        let answer = answer_of(document, levels - 1, shape, out, at);
        if answer.is_some() {
            return answer;
        }
        slot = reader.next_meeting(slot + 1, end, &area);
    }
    None
}

// What a shape answers with all below it.
#[cycle(walk)]
fn answer_of(
    document: &Document,
    levels: u32,
    shape: &Record,
    out: &Pose,
    at: Pixel,
) -> Option<Colour>
    requires shape { IsInLimits shape.now }
    requires quarter { out.now.quarter ≤ 3 }
    requires reach { reach_of out.now + (levels + 1) * 2 ^ 20 ≤ 2 ^ 26 }
    ensures { result ≡ answer_of levels document.now.records (carry out.now) at.x at.y shape.now }
{
    if shape.hidden {
        return None;
    }
    let page = shape.pose.then(out);
    let holds = holds_at(shape, &page, at);
    match &shape.kind {
        Kind::Group => answer_among(document, levels, Parent::Shape(shape.id), &page, at),
        Kind::Frame { fill, .. } => {
            if holds {
                or_fill(
                    answer_among(document, levels, Parent::Shape(shape.id), &page, at),
                    *fill,
                )
            } else {
                None
            }
        }
        Kind::Rect { fill, .. } => if_held(holds, *fill),
        Kind::Ellipse { fill, .. } => if_held(holds, *fill),
        Kind::Polygon { fill, .. } => if_held(holds, *fill),
    }
}

fn holds_at(shape: &Record, page: &Pose, at: Pixel) -> bool
    requires shape { IsInLimits shape.now }
    requires quarter { page.now.quarter ≤ 3 }
    requires reach { reach_of page.now ≤ 2 ^ 26 }
    ensures { result ≡ holds_of shape.now.kind (carry page.now) at.x at.y }
{
    shape.kind.holds(page, at.x, at.y)
}

fn if_held(held: bool, fill: Colour) -> Option<Colour>
    ensures { result ≡ cond held (Some fill) None }
{
    if held { Some(fill) } else { None }
}

fn or_fill(inner: Option<Colour>, fill: Option<Colour>) -> Option<Colour>
    ensures { result ≡ or_else inner fill }
{
    inner.or(fill)
}
