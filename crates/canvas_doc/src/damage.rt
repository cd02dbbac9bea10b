//! Damage: where a change may change what a document shows.

ghost use Rattle.std.specs.Prelude.{◌≡◌, ◌≤◌, ◌+◌, ◌*◌, ◌^◌, ℤ, All, Some, false, map};
ghost use Rattle.std.specs.Int.{int_max, int_min};
ghost use Rattle.canvas_plane.specs.Motion.{carry, reach_of};
ghost use Rattle.canvas_plane.specs.Page.{empty_box, hull_of, is_in};
ghost use Rattle.canvas_shape.specs.Bounds.{bounds_of, dot_of, grown_to};
ghost use Rattle.canvas_shape.specs.Box.{box_of, AreSides};
ghost use Rattle.canvas_shape.specs.Inside.{AreVertices, IsSound};
ghost use Rattle.canvas_record.specs.declared.records.Parent.TheVariants.{Shape};
ghost use Rattle.canvas_record.specs.declared.records.Record.{Record};
ghost use Rattle.canvas_record.specs.Children.{is_child};
ghost use Rattle.canvas_record.specs.Contents.{is_container, record_of, AreRising};
ghost use Rattle.canvas_record.specs.Damage.{damage_of, extent_among, extent_at, extent_of, extent_on_page, own_extent, to_page};
ghost use Rattle.canvas_record.specs.Effect.{Fits, effect_of};
ghost use Rattle.canvas_record.specs.Picture.{colour};
ghost use Rattle.canvas_record.specs.Tree.{IsInLimits};

use crate::Document;
use crate::ancestry::{STEPS, is_container, way_up};
use crate::lookup::find;
use crate::place_order::children_range;
use crate::records::Records;
use canvas_plane::{PageBox, Point, Pose};
use canvas_record::{Change, Parent, Place, Record};
use canvas_shape::{Carried, Kind};
use std::ops::Range;

impl Document {
    /// The box of the page outside of which a change that fits leaves every colour as it was: the
    /// least one round the carried boxes of all leaves and frames of the changed subtree, before
    /// and after the change, hidden ones too. It is 0, 0, 0, 0 where there are none, and for
    /// `Respace`.
    pub fn damage(&self, change: &Change) -> PageBox
        requires { Fits change.now self.now }
        ensures value { result ≡ damage_of change.now self.now }
        ensures outside { (x y : ℤ) → is_in result x y ≡ false
            → colour (effect_of change.now self.now).records x y ≡ colour self.now.records x y }
    {
        let records = &self.records;
        match change {
            Change::Create {
                id,
                kind,
                pose,
                place,
                ..
            } => extent_alone(records, *id, kind, pose, place.parent),
            Change::Move { id, place } => moved_extents(self, *id, place),
            Change::Pose { id, pose } => posed_extents(self, *id, pose),
            Change::Reshape { id, kind } => reshaped_extents(self, *id, kind),
            Change::Show { id, .. } => extent_at(self, *id),
            Change::Delete { id } => extent_at(self, *id),
            Change::Respace { .. } => PageBox::EMPTY,
        }
    }
}

// The extent of a shape, empty where there is none.
fn extent_at(document: &Document, id: u32) -> PageBox
    ensures { result ≡ extent_at id document.now.records }
{
    match find(&document.records, id) {
        Some(shape) => {
            let up = way_up(&document.records, STEPS, id, shape.place.parent);
            extent_of(document, STEPS, shape, &shape.kind, &shape.pose, &up.pose)
        }
        None => PageBox::EMPTY,
    }
}

// The extents of a shape as it stands and in another place, the same under the same parent.
fn moved_extents(document: &Document, id: u32, place: &Place) -> PageBox
    ensures { (r : Record) → record_of id document.now.records ≡ Some r
        → result ≡ hull_of (extent_at id document.now.records)
        (extent_on_page document.now.records (Some (record r { place = place.now }))) }
{
    match find(&document.records, id) {
        Some(shape) => {
            let up = way_up(&document.records, STEPS, id, shape.place.parent);
            let before = extent_of(document, STEPS, shape, &shape.kind, &shape.pose, &up.pose);
            if shape.place.parent == place.parent {
                return before;
            }
            let new_up = way_up(&document.records, STEPS, id, place.parent);
            let moved = extent_of(
                document,
                STEPS,
                shape,
                &shape.kind,
                &shape.pose,
                &new_up.pose,
            );
            before.hull(&moved)
        }
        None => PageBox::EMPTY,
    }
}

// The extents of a shape as it stands and with another pose.
fn posed_extents(document: &Document, id: u32, pose: &Pose) -> PageBox
    requires quarter { pose.now.quarter ≤ 3 }
    requires reach { reach_of pose.now ≤ 2 ^ 20 }
    ensures { (r : Record) → record_of id document.now.records ≡ Some r
        → result ≡ hull_of (extent_at id document.now.records)
        (extent_on_page document.now.records (Some (record r { pose = pose.now }))) }
{
    match find(&document.records, id) {
        Some(shape) => {
            let up = way_up(&document.records, STEPS, id, shape.place.parent);
            let before = extent_of(document, STEPS, shape, &shape.kind, &shape.pose, &up.pose);
            let posed = extent_of(document, STEPS, shape, &shape.kind, pose, &up.pose);
            before.hull(&posed)
        }
        None => PageBox::EMPTY,
    }
}

// The extents of a shape as it stands and with another kind.
fn reshaped_extents(document: &Document, id: u32, kind: &Kind) -> PageBox
    requires { IsSound kind.now }
    ensures { (r : Record) → record_of id document.now.records ≡ Some r
        → result ≡ hull_of (extent_at id document.now.records)
        (extent_on_page document.now.records (Some (record r { kind = kind.now }))) }
{
    match find(&document.records, id) {
        Some(shape) => {
            let up = way_up(&document.records, STEPS, id, shape.place.parent);
            let before = extent_of(document, STEPS, shape, &shape.kind, &shape.pose, &up.pose);
            let reshaped = extent_of(document, STEPS, shape, kind, &shape.pose, &up.pose);
            before.hull(&reshaped)
        }
        None => PageBox::EMPTY,
    }
}

// The extent of a new shape of this kind and pose under a parent.
fn extent_alone(records: &Records, id: u32, kind: &Kind, pose: &Pose, parent: Parent) -> PageBox
    requires rising { AreRising records.now }
    requires limits { All IsInLimits records.now }
    requires sound { IsSound kind.now }
    requires quarter { pose.now.quarter ≤ 3 }
    requires reach { reach_of pose.now ≤ 2 ^ 20 }
    ensures { result ≡ hull_of
        (own_extent kind.now (λ q. to_page 31 records.now parent (carry pose.now q))) empty_box }
{
    let up = way_up(records, STEPS, id, parent);
    let page = pose.then(&up.pose);
    own_extent(kind, &page).hull(&PageBox::EMPTY)
}

// The box round the children of a parent and all below them, where `out` carries its points to the page.
#[cycle(extents)]
fn extent_among(document: &Document, levels: u32, parent: Parent, out: &Pose) -> PageBox
    requires quarter { out.now.quarter ≤ 3 }
    requires reach { reach_of out.now + levels * 2 ^ 20 ≤ 2 ^ 26 }
    ensures { result ≡ extent_among levels document.now.records parent (carry out.now) }
{
    if levels == 0 {
        return PageBox::EMPTY;
    }
    let Range { start, end } = children_range(&document.order, parent);
    let mut area = PageBox::EMPTY;
    for slot in (start..end).rev() {
        let shape = document.order.at(slot).value();
        let one = extent_of(document, levels - 1, shape, &shape.kind, &shape.pose, out);
        area = one.hull(&area);
    }
    area
}

// The box round a shape, where it has this kind and pose, and round all below it. A shape that is no
// group and no frame holds nothing, so nothing is sought below it.
#[cycle(extents)]
fn extent_of(
    document: &Document,
    levels: u32,
    shape: &Record,
    kind: &Kind,
    pose: &Pose,
    out: &Pose,
) -> PageBox
    requires leaf { is_container shape.now.kind ≡ false
        → All (λ r. is_child (Shape shape.now.id) r ≡ false) document.now.records }
    requires limits { IsInLimits (record shape.now { kind = kind.now; pose = pose.now }) }
    requires quarter { out.now.quarter ≤ 3 }
    requires reach { reach_of out.now + (levels + 1) * 2 ^ 20 ≤ 2 ^ 26 }
    ensures { result ≡ extent_of levels document.now.records (carry out.now)
        (record shape.now { kind = kind.now; pose = pose.now }) }
{
    let page = pose.then(out);
    let own = own_extent(kind, &page);
    if is_container(&shape.kind) {
        own.hull(&extent_among(document, levels, Parent::Shape(shape.id), &page))
    } else {
        own.hull(&PageBox::EMPTY)
    }
}

// The box of a leaf or of a frame on the page.
fn own_extent(kind: &Kind, page: &Pose) -> PageBox
    requires sound { IsSound kind.now }
    requires quarter { page.now.quarter ≤ 3 }
    requires reach { reach_of page.now ≤ 2 ^ 26 }
    ensures { result ≡ own_extent kind.now (carry page.now) }
{
    match kind {
        Kind::Group => PageBox::EMPTY,
        Kind::Frame { w, h, .. } => carried_box(page, *w, *h),
        Kind::Rect { w, h, .. } => carried_box(page, *w, *h),
        Kind::Ellipse { w, h, .. } => carried_box(page, *w, *h),
        Kind::Polygon { points, .. } => carried_bounds(page, points.as_slice()),
    }
}

fn carried_box(page: &Pose, w: u32, h: u32) -> PageBox
    requires sides { AreSides w h }
    requires quarter { page.now.quarter ≤ 3 }
    requires reach { reach_of page.now ≤ 2 ^ 26 }
    ensures { result ≡ box_of (carry page.now) w h }
{
    Carried::rect(page, w, h).page_box()
}

// Carries each vertex in its turn, and so takes no memory.
fn carried_bounds(page: &Pose, points: &[Point]) -> PageBox
    requires vertices { AreVertices points.now }
    requires quarter { page.now.quarter ≤ 3 }
    requires reach { reach_of page.now ≤ 2 ^ 26 }
    ensures { result ≡ bounds_of (map (carry page.now) points.now) }
{
    let mut bounds = dot(page.apply(points[0]));
    for point in points {
        bounds = grown(bounds, page.apply(*point));
    }
    bounds
}

fn dot(p: Point) -> PageBox
    ensures { result ≡ dot_of p }
{
    PageBox {
        left: p.x,
        top: p.y,
        right: p.x,
        bottom: p.y,
    }
}

fn grown(b: PageBox, p: Point) -> PageBox
    ensures { result ≡ grown_to b p }
{
    PageBox {
        left: lesser(b.left, p.x),
        top: lesser(b.top, p.y),
        right: greater(b.right, p.x),
        bottom: greater(b.bottom, p.y),
    }
}

fn lesser(a: i64, b: i64) -> i64
    ensures { result ≡ int_min a b }
{
    a.min(b)
}

fn greater(a: i64, b: i64) -> i64
    ensures { result ≡ int_max a b }
{
    a.max(b)
}
