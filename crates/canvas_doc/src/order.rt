//! The children of a parent, from front to back.

ghost use Rattle.std.specs.Prelude.{◌≡◌, ◌≤◌, ◌^◌, ℕ, ℤ, All, IfOk, filter, map, true};
ghost use Rattle.std.specs.List.Sorted.{IsStrictlySortedBy};
ghost use Rattle.canvas_plane.specs.Motion.{carry, reach_of};
ghost use Rattle.canvas_plane.specs.Page.{is_in};
ghost use Rattle.canvas_record.specs.Children.{IsPartOf, children, is_child};
ghost use Rattle.canvas_record.specs.Picture.{answer_of, first_answer};
ghost use Rattle.canvas_doc.specs.PlaceOrder.{comes_first};
ghost use Rattle.canvas_record.specs.Tree.{IsInLimits};

use crate::Document;
use crate::coverage::Coverage;
use crate::place_order::children_of;
use crate::placed_shapes::PlacedShapes;
use canvas_code::OutOfMemory;
use canvas_list::FoundRange;
use canvas_plane::{PageBox, Pose};
use canvas_record::{Parent, Record};
use std::alloc::Allocator;

/// How many children that may show get room at once, at most: those of most parents.
const ROOM: usize = 16;

impl Document {
    /// All children of `parent`, from front to back; want of memory is the only refusal.
    pub fn children<A: Allocator>(
        &self,
        alloc: A,
        parent: Parent,
    ) -> Result<Vec<&Record, A>, OutOfMemory>
        ensures children { IfOk result
            (λ list. map (λ shape. shape.now) list.items ≡ children parent self.now.records) }
        ensures limits { IfOk result (λ list. All (λ shape. IsInLimits shape.now) list.items) }
    {
        children(alloc, &self.order, parent)
    }

    /// Children of `parent`, from front to back, where `out` carries its points to the page: those that
    /// may show within `clip`. Those left out show nothing there, they nor what lies below them. Want of
    /// memory is the only refusal.
    pub fn children_meeting<A: Allocator>(
        &self,
        alloc: A,
        parent: Parent,
        out: &Pose,
        clip: &PageBox,
    ) -> Result<Vec<&Record, A>, OutOfMemory>
        requires quarter { out.now.quarter ≤ 3 }
        requires reach { reach_of out.now ≤ 2 ^ 26 }
        ensures part { IfOk result (λ list. IsPartOf (map (λ shape. shape.now) list.items)
            (children parent self.now.records)) }
        ensures answers { IfOk result (λ list. (levels : ℕ) (x y : ℤ) → is_in clip.now x y ≡ true
            → first_answer (answer_of levels self.now.records (carry out.now) x y)
            (map (λ shape. shape.now) list.items)
            ≡ first_answer (answer_of levels self.now.records (carry out.now) x y)
            (children parent self.now.records)) }
        ensures limits { IfOk result (λ list. All (λ shape. IsInLimits shape.now) list.items) }
    {
        let FoundRange {
            start,
            end,
            mut reader,
        } = children_of(&self.order, parent);
        let area = Coverage::of_clip(out, clip);
        let mut seen = Vec::with_capacity(alloc, ROOM.min(end - start))?;
        let mut at = start;
        'walk: while at < end {
            at = reader.next_meeting(at, end, &area);
            if at < end {
                seen.push(reader.at(at).shape.value())?;
                at += 1;
            }
        }
        Ok(seen)
    }
}

// All children of `parent`, from front to back.
fn children<'a, A: Allocator>(
    alloc: A,
    order: &'a PlacedShapes,
    parent: Parent,
) -> Result<Vec<&'a Record, A>, OutOfMemory>
    requires { IsStrictlySortedBy comes_first order.now.shapes }
    ensures { IfOk result
        (λ list. map (λ shape. shape.now) list.items ≡ filter (is_child parent) order.now.shapes) }
{
    let FoundRange {
        start,
        end,
        mut reader,
    } = children_of(order, parent);
    let mut list = Vec::with_capacity(alloc, end - start)?;
    for at in start..end {
        list.push(reader.at(at).shape.value())?;
    }
    Ok(list)
}
