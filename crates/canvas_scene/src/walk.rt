//! The walk that makes a scene, from front to back, cut by the clips on its way and by what it
//! has shown.

ghost use Rattle.std.specs.Prelude.{◌≡◌, ◌≤◌, ◌+◌, ◌*◌, ◌^◌, ◌++◌, ◌<◌, [], ◌∷◌, ℤ, All, IfOk, IfSome, IsTrue, List, OnOk, Option, reverse, map, Some, true, false};
ghost use Rattle.canvas_plane.specs.Motion.{carry, reach_of, size_of};
ghost use Rattle.canvas_plane.specs.Page.{is_in};
ghost use Rattle.canvas_shape.specs.Inside.{AreVertices, IsSound, holds_of};
ghost use Rattle.canvas_shape.specs.declared.Colour.{Colour};
ghost use Rattle.canvas_shape.specs.Leaves.{carried_holds};
ghost use Rattle.canvas_record.specs.Contents.{is_container};
ghost use Rattle.canvas_record.specs.Picture.{answer_among, colour, or_else, or_white, shape_answer};
ghost use Rattle.canvas_record.specs.declared.records.Parent.TheVariants.{Page, Shape};
ghost use Rattle.canvas_record.specs.declared.records.Record.{Record};
ghost use Rattle.canvas_scene.specs.Clips.{IsClipped};
ghost use Rattle.canvas_scene.specs.Covers.{first_fill};
ghost use Rattle.canvas_scene.specs.Nodes.{AreShown, back_item, items_along, seen, shown_of};
ghost use Rattle.canvas_scene.specs.Trees.{AreNodesOf, clip_of, IsOneMore, is_leaf_of, is_node_of};
ghost use Rattle.canvas_paint.specs.declared.item.Item.{Item};

use crate::Node;
use crate::bounds::part_of;
use crate::nodes::{branch, keep, leaf};
use crate::shown::Shown;
use bumpalo::Bump;
use bumpalo::collections::into_bump_slice;
use canvas_code::OutOfMemory;
use canvas_doc::{Document, Parent, Record};
use canvas_paint::Item;
use canvas_plane::{PageBox, Point, Pose};
use canvas_shape::{Carried, Colour, Kind};

/// How deep a record may lie: a child of the page has depth 1.
const DEPTH: u32 = 32;

/// How many nodes of one parent get room at once, at most: those of most parents.
const ROOM: usize = 16;

/// The nodes of the page's children from back to front. Their items are shown, from front to
/// back.
pub(crate) fn nodes_of_page<'a>(
    bump: &'a Bump,
    document: &Document,
    clip: &PageBox,
    shown: &mut Shown<'a>,
) -> Result<&'a [Node<'a>], OutOfMemory>
    requires { shown.old ≡ [] }
    ensures colours { IfOk result (λ nodes. (x y : ℤ) → is_in clip.now x y ≡ true
        → or_white (first_fill shown.new x y) ≡ colour document.now.records x y) }
    ensures items { IfOk result (λ nodes. shown.new ≡ reverse (items_along nodes.now)) }
    ensures clips { IfOk result (λ nodes. All (IsClipped clip.now) nodes.now) }
    ensures tree { IfOk result
        (λ nodes. AreNodesOf document.now.records Page (λ q. q) clip.now nodes.now) }
{
    nodes_among(
        bump,
        document,
        DEPTH,
        Parent::Page,
        &Pose::STILL,
        clip,
        shown,
    )
}

// The nodes of a parent's children, where `out` carries its points to the page.
#[cycle(walk)]
fn nodes_among<'a>(
    bump: &'a Bump,
    document: &Document,
    levels: u32,
    parent: Parent,
    out: &Pose,
    clip: &PageBox,
    shown: &mut Shown<'a>,
) -> Result<&'a [Node<'a>], OutOfMemory>
    requires quarter { out.now.quarter ≤ 3 }
    requires reach { reach_of out.now + levels * 2 ^ 20 ≤ 2 ^ 26 }
    ensures fills { IfOk result (λ nodes. (x y : ℤ)
        → first_fill shown.new x y
        ≡ or_else (first_fill shown.old x y)
        (seen (is_in clip.now x y)
        (answer_among levels document.now.records parent (carry out.now) x y))) }
    ensures items { IfOk result
        (λ nodes. shown.new ≡ shown.old ++ reverse (items_along nodes.now)) }
    ensures clips { IfOk result (λ nodes. All (IsClipped clip.now) nodes.now) }
    ensures tree { IfOk result
        (λ nodes. AreNodesOf document.now.records parent (carry out.now) clip.now nodes.now) }
{
    if levels == 0 {
        return Ok(&[]);
    }
    let children = document.children_meeting(bump, parent, out, clip)?;
    let mut nodes = Vec::with_capacity(bump, children.len().min(ROOM))?;
    for child in &children {
        let page = child.pose.then(out);
        let part = part_of(&child.kind, &page, clip);
        if is_out_of_sight(child, &page, clip, &part, shown) {
            continue;
        }
        let before = shown.rectangle_count();
        add_node(
            document,
            levels - 1,
            child,
            &page,
            clip,
            &part,
            shown,
            &mut nodes,
        )?;
        if shown.hides_by_last(clip, before) {
            break;
        }
    }
    nodes.reverse();
    Ok(into_bump_slice(nodes))
}

// Whether nothing of a shape with all below it may be seen behind what is shown, where `page`
// carries its own points to the page, and `part` is that of the clip in which it may be seen.
fn is_out_of_sight(
    shape: &Record,
    page: &Pose,
    clip: &PageBox,
    part: &PageBox,
    shown: &Shown<'_>,
) -> bool
    requires part { (inner : Option Colour) (x y : ℤ)
        → seen (is_in part.now x y) (shown_of shape.now.kind page.now inner x y)
        ≡ seen (is_in clip.now x y) (shown_of shape.now.kind page.now inner x y) }
    ensures nothing { IsTrue result → (inner : Option Colour) (x y : ℤ)
        → first_fill shown.now x y
        ≡ or_else (first_fill shown.now x y)
        (seen (is_in clip.now x y)
        (shape_answer shape.now (holds_of shape.now.kind (carry page.now) x y) inner)) }
    ensures shown { result ≡ false → shape.now.hidden ≡ false }
{
    if shape.hidden {
        return true;
    }
    match shape.kind {
        // Its part is the whole clip, of which the walk has asked whenever something more was shown.
        Kind::Group => false,
        _ => shown.hides(part),
    }
}

// Adds the node of a shape with all below it, of which something may be seen, to those in front of
// it. `page` carries its own points to the page, and `part` is that of the clip in which it may be
// seen. Not inlined, its room is made for such shapes alone.
#[cycle(walk)]
#[inline(never)]
fn add_node<'a>(
    document: &Document,
    levels: u32,
    shape: &Record,
    page: &Pose,
    clip: &PageBox,
    part: &PageBox,
    shown: &mut Shown<'a>,
    nodes: &mut Vec<Node<'a>, &'a Bump>,
) -> Result<(), OutOfMemory>
    requires kind { IsSound shape.now.kind }
    requires quarter { page.now.quarter ≤ 3 }
    requires reach { reach_of page.now + levels * 2 ^ 20 ≤ 2 ^ 26 }
    requires part { is_container shape.now.kind ≡ true
        → part.now ≡ clip_of shape.now.kind (carry page.now) clip.now }
    ensures fills { OnOk result ((x y : ℤ)
        → first_fill shown.new x y
        ≡ or_else (first_fill shown.old x y)
        (seen (is_in clip.now x y)
        (shown_of shape.now.kind page.now
        (answer_among levels document.now.records (Shape shape.now.id) (carry page.now) x y)
        x y))) }
    ensures items { OnOk result ((start : List Item) → AreShown start shown.old nodes.old.items
        → AreShown start shown.new nodes.new.items) }
    ensures clips { OnOk result
        (All (IsClipped clip.now) nodes.old.items → All (IsClipped clip.now) nodes.new.items) }
    ensures tree { OnOk result
        (IsOneMore
        (λ node. is_node_of document.now.records node shape.now (carry page.now) clip.now ≡ true)
        nodes.old.items nodes.new.items) }
{
    let bump: &'a Bump = *nodes.allocator();
    let inside = Parent::Shape(shape.id);
    match &shape.kind {
        Kind::Group => {
            let children = nodes_among(bump, document, levels, inside, page, clip, shown)?;
            keep(nodes, branch(*clip, None, children))
        }
        Kind::Frame { w, h, fill } => {
            let children = nodes_among(bump, document, levels, inside, page, part, shown)?;
            let back = back_of(Carried::rect(page, *w, *h), clip, part, *fill, shown)?;
            keep(nodes, branch(*part, back, children))
        }
        Kind::Rect { w, h, fill } => {
            add_leaf(Carried::rect(page, *w, *h), clip, *fill, shown, nodes)
        }
        Kind::Ellipse { w, h, fill } => {
            add_leaf(Carried::ellipse(page, *w, *h), clip, *fill, shown, nodes)
        }
        Kind::Polygon { points, fill } => {
            let vertices = carried(bump, page, points.as_slice())?;
            add_leaf(Carried::polygon(vertices), clip, *fill, shown, nodes)
        }
    }
}

// A frame's own item, if it has a fill that may be seen. `part` is what of its box lies in the clip.
fn back_of<'a>(
    leaf: Carried<'a>,
    clip: &PageBox,
    part: &PageBox,
    fill: Option<Colour>,
    shown: &mut Shown<'a>,
) -> Result<Option<Item<'a>>, OutOfMemory>
    requires part { (x y : ℤ) → is_in clip.now x y ≡ true → carried_holds leaf x y ≡ true
        → is_in part.now x y ≡ true }
    ensures fills { IfOk result (λ back. (x y : ℤ)
        → first_fill shown.new x y
        ≡ or_else (first_fill shown.old x y)
        (seen (is_in clip.now x y) (seen (carried_holds leaf.entry x y) fill))) }
    ensures items { IfOk result (λ back. shown.new ≡ shown.old ++ back_item back) }
    ensures clip { IfOk result (λ back. IfSome back (λ i. i.clip ≡ clip.now)) }
    ensures fill { IfOk result (λ back. IfSome back (λ i. fill ≡ Some i.fill)) }
{
    let Some(fill) = fill else {
        return Ok(None);
    };
    if shown.hides(part) {
        return Ok(None);
    }
    let item = shown.add(leaf, clip, fill)?;
    Ok(Some(item))
}

// Adds the node of a leaf to those in front of it.
fn add_leaf<'a>(
    shape: Carried<'a>,
    clip: &PageBox,
    fill: Colour,
    shown: &mut Shown<'a>,
    nodes: &mut Vec<Node<'a>, &'a Bump>,
) -> Result<(), OutOfMemory>
    ensures fills { OnOk result ((x y : ℤ)
        → first_fill shown.new x y
        ≡ or_else (first_fill shown.old x y)
        (seen (is_in clip.now x y) (seen (carried_holds shape.entry x y) (Some fill)))) }
    ensures items { OnOk result ((start : List Item) → AreShown start shown.old nodes.old.items
        → AreShown start shown.new nodes.new.items) }
    ensures clips { OnOk result
        (All (IsClipped clip.now) nodes.old.items → All (IsClipped clip.now) nodes.new.items) }
    ensures tree { OnOk result
        (IsOneMore (λ node. (rs : List Record) → is_node_of rs node ≡ is_leaf_of clip.now fill)
        nodes.old.items nodes.new.items) }
{
    let item = shown.add(shape, clip, fill)?;
    keep(nodes, leaf(item))
}

// Vertices as a pose carries them to the page, in the arena.
fn carried<'a>(bump: &'a Bump, page: &Pose, points: &[Point]) -> Result<&'a [Point], OutOfMemory>
    requires vertices { AreVertices points.now }
    requires quarter { page.now.quarter ≤ 3 }
    requires reach { reach_of page.now ≤ 2 ^ 26 }
    ensures value { IfOk result (λ vertices. vertices.now ≡ map (carry page.now) points.now) }
    ensures near { IfOk result (λ vertices. All (λ p. size_of p ≤ 2 ^ 27) vertices.now) }
{
    let mut vertices = Vec::with_capacity(bump, points.len())?;
    vertices.extend_from_slice(points)?;
    carry_all(&mut vertices, page);
    Ok(into_bump_slice(vertices))
}

// Carries vertices to the page. Each turn has a loop of its own, in which it is a constant: so it
// is not chosen anew for each vertex.
fn carry_all(vertices: &mut [Point], page: &Pose)
    requires vertices { AreVertices vertices.old }
    requires quarter { page.now.quarter ≤ 3 }
    requires reach { reach_of page.now ≤ 2 ^ 26 }
    ensures value { vertices.new ≡ map (carry page.now) vertices.old }
    ensures near { All (λ p. size_of p ≤ 2 ^ 27) vertices.new }
{
    match page.quarter {
        0 => carry_each(
            vertices,
            Pose {
                quarter: 0,
                ..*page
            },
        ),
        1 => carry_each(
            vertices,
            Pose {
                quarter: 1,
                ..*page
            },
        ),
        2 => carry_each(
            vertices,
            Pose {
                quarter: 2,
                ..*page
            },
        ),
        _ => carry_each(
            vertices,
            Pose {
                quarter: 3,
                ..*page
            },
        ),
    }
}

// The same by a pose that no write to a vertex can change.
#[inline(always)]
fn carry_each(vertices: &mut [Point], page: Pose)
    requires vertices { AreVertices vertices.old }
    requires quarter { page.quarter ≤ 3 }
    requires reach { reach_of page ≤ 2 ^ 26 }
    ensures value { vertices.new ≡ map (carry page) vertices.old }
    ensures near { All (λ p. size_of p ≤ 2 ^ 27) vertices.new }
{
    for vertex in vertices.iter_mut() {
        *vertex = page.apply(*vertex);
    }
}
