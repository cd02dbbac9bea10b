//! What a walk from front to back has shown so far.

ghost use Rattle.std.specs.Prelude.{◌≡◌, ◌++◌, ◌&&◌, [], ◌∷◌, ℤ, All, IfOk, IsTrue, List, Some, int_le, reverse};
ghost use Rattle.canvas_plane.specs.Page.{is_in, IsWithin};
ghost use Rattle.canvas_shape.specs.Leaves.{carried_holds};
ghost use Rattle.canvas_record.specs.Picture.{or_else};
ghost use Rattle.canvas_paint.specs.declared.item.Item.{Item};
ghost use Rattle.canvas_scene.specs.Covers.{first_fill, AreCellsHidden, IsHidden};
ghost use Rattle.canvas_scene.specs.Nodes.{seen};

use crate::cells::Cells;
use bumpalo::Bump;
use bumpalo::collections::into_bump_slice;
use canvas_code::OutOfMemory;
use canvas_paint::Item;
use canvas_plane::{PageBox, Window};
use canvas_shape::{Carried, Colour};
use std::marker::Model;

/// How many items and rectangles have room before memory grows: those of most windows.
const ROOM: usize = 32;

/// How many rectangles are kept at most, so that thousands of them don't make a walk slow: what
/// lies behind one of them alone is painted then, where the cells don't show it hidden.
const MOST_COVERS: usize = 128;

/// The items that a walk has come to, seen as their list from front to back. It keeps what the first
/// rectangles and the last one show, and marks the window's cells that lie in one, so that what lies
/// wholly behind one of those kept or wholly in marked cells makes no item.
#[derive(Drop)]
pub(crate) struct Shown<'a> {
    items: Vec<Item<'a>, &'a Bump>,
    covers: Vec<PageBox, &'a Bump>,
    // How many rectangles it has come to.
    rectangles: usize,
    cells: Cells,
}

impl<'a> Model for Shown<'a> {
    ghost Value = { List Item };

    ghost view = { λ shown. shown.items.items };

    ghost invariant = { λ shown. All (IsHidden shown.items.items) shown.covers.items
        × AreCellsHidden shown.items.items shown.cells };
}

impl<'a> Shown<'a> {
    /// Nothing yet of a window.
    pub(crate) fn new(bump: &'a Bump, window: &Window) -> Result<Shown<'a>, OutOfMemory>
        ensures { IfOk result (λ shown. shown ≡ []) }
    {
        Ok(Shown {
            items: Vec::with_capacity(bump, ROOM)?,
            covers: Vec::with_capacity(bump, ROOM)?,
            rectangles: 0,
            cells: Cells::new(window),
        })
    }

    /// How many rectangles it has come to.
    pub(crate) fn rectangle_count(&self) -> usize {
        self.rectangles
    }

    /// Whether nothing behind may be seen in a box, for it is empty, lies in marked cells or lies
    /// within one rectangle.
    pub(crate) fn hides(&self, part: &PageBox) -> bool
        ensures { IsTrue result → IsHidden self.now part.now }
    {
        part.is_empty() || self.covers_whole(part)
    }

    // Whether a box lies in marked cells or within one rectangle. Most boxes that are asked of are
    // empty, and never come here.
    #[inline(never)]
    fn covers_whole(&self, part: &PageBox) -> bool
        ensures { IsTrue result → IsHidden self.now part.now }
    {
        self.cells.may_cover(part)
            && (self.cells.covers(part) || lies_within_one(part, &self.covers))
    }

    /// Whether nothing behind may be seen in a box that was not hidden when it had come to `before`
    /// rectangles: without one more it is not hidden now. Of the rectangles it looks at the last
    /// alone, behind which nothing in the box was added if it has all of it.
    pub(crate) fn hides_by_last(&self, part: &PageBox, before: usize) -> bool
        ensures { IsTrue result → IsHidden self.now part.now }
    {
        before < self.rectangles && self.covers_by_last(part)
    }

    // Whether a box lies in marked cells or within the last rectangle.
    #[inline(never)]
    fn covers_by_last(&self, part: &PageBox) -> bool
        ensures { IsTrue result → IsHidden self.now part.now }
    {
        self.cells.covers(part) || lies_within_last(part, &self.covers)
    }

    /// Adds a leaf behind all others, and gives its item.
    pub(crate) fn add(
        &mut self,
        leaf: Carried<'a>,
        clip: &PageBox,
        fill: Colour,
    ) -> Result<Item<'a>, OutOfMemory>
        ensures fills { IfOk result (λ item. (x y : ℤ)
            → first_fill self.new x y
            ≡ or_else (first_fill self.old x y)
            (seen (is_in clip.now x y) (seen (carried_holds leaf.entry x y) (Some fill)))) }
        ensures items { IfOk result (λ item. self.new ≡ self.old ++ item ∷ []) }
        ensures clip { IfOk result (λ item. item.clip ≡ clip.now) }
        ensures fill { IfOk result (λ item. item.fill ≡ fill) }
    {
        let item = Item {
            leaf,
            clip: *clip,
            fill,
        };
        self.items.push(item)?;
        if let Carried::Rect(shape) = leaf {
            let part = shape.sides().meet(clip);
            self.rectangles = self.rectangles.saturating_add(1);
            self.cells.mark(&part);
            keep_cover(&mut self.covers, part)?;
        }
        Ok(item)
    }

    /// The items from back to front, in the arena.
    pub(crate) fn into_list(self) -> &'a [Item<'a>]
        ensures { result.now ≡ reverse self.entry }
    {
        let mut items = self.items;
        items.reverse();
        into_bump_slice(items)
    }
}

// Puts a box behind others. Where as many are kept as may be, the last one makes room.
fn keep_cover(covers: &mut Vec<PageBox, &Bump>, part: PageBox) -> Result<(), OutOfMemory>
    ensures { (items : List Item) → All (IsHidden items) covers.old.items → IsHidden items part
        → All (IsHidden items) covers.new.items }
{
    covers.truncate(MOST_COVERS - 1);
    covers.push(part)?;
    Ok(())
}

// Whether one of some boxes holds all that a box holds.
fn lies_within_one(part: &PageBox, covers: &[PageBox]) -> bool
    ensures { IsTrue result → (items : List Item) → All (IsHidden items) covers.now
        → IsHidden items part.now }
{
    for cover in covers {
        if lies_within(part, cover) {
            return true;
        }
    }
    false
}

// Whether the last of some boxes holds all that a box holds.
fn lies_within_last(part: &PageBox, covers: &[PageBox]) -> bool
    ensures { IsTrue result → (items : List Item) → All (IsHidden items) covers.now
        → IsHidden items part.now }
{
    match covers.last() {
        Some(cover) => lies_within(part, cover),
        None => false,
    }
}

// Whether the edges of a box lie within those of another.
pub(crate) fn lies_within(inner: &PageBox, outer: &PageBox) -> bool
    ensures { IsTrue result → IsWithin inner.now outer.now }
{
    let is_across = is_part(inner.left, inner.right, outer.left, outer.right);
    let is_down = is_part(inner.top, inner.bottom, outer.top, outer.bottom);
    is_across && is_down
}

// Whether a side lies within another.
fn is_part(from: i64, to: i64, start: i64, end: i64) -> bool
    ensures { result ≡ (int_le start from && int_le to end) }
{
    if start <= from { to <= end } else { false }
}
