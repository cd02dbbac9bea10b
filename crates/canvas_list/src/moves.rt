//! Changes of a list as a whole: at one position, or a move of an item.

ghost use Rattle.std.specs.Prelude.{◌≡◌, ◌≢◌, ◌<◌, ◌≤◌, ◌+◌, ◌^◌, OnErr, OnOk, cond, length, slice_set, slice_index_or, true};
ghost use Rattle.std.specs.Borrow.{sem, Array, LendsBoth};
ghost use Rattle.std.specs.List.{insert, remove};
ghost use Rattle.std.specs.Result.{is_ok};
ghost use Rattle.canvas_list.specs.Chunks.{IsSpot};

use crate::contents::Contents;
use crate::counted::{Counted, Spot, keeps_parts, spot_of};
use crate::in_place::ItemChange;
use crate::list::SharedList;
use crate::share::Share;
use crate::sizes::PartSizes;
use canvas_code::OutOfMemory;
use std::alloc::Global;
use std::marker::Model;

/// What becomes of a list.
#[derive(Drop)]
pub enum ListChange<T> {
    /// A change at a position.
    At(usize, ItemChange<T>),
    /// The item at the first position is gone, and another one stands in front of what then stands
    /// at the second, or at the end.
    Move(usize, usize, T),
}

impl<T: Share> SharedList<T> {
    /// Takes the item at `from` away, and puts another one in front of what then stands at `to`, or
    /// at the end. Where memory is refused, the list stays as it was.
    pub fn shift(
        &mut self,
        alloc: Global,
        from: usize,
        to: usize,
        item: T,
    ) -> Result<(), OutOfMemory>
        requires from { from < length self.old }
        requires to { to < length self.old }
        ensures made { OnOk result (self.new ≡ insert (remove self.old from) to item) }
        ensures same { OnErr result (self.new ≡ self.old) }
    {
        let sizes = PartSizes::of(self.len());
        let blocks = self.blocks().len();
        Contents::shift(&mut self.table, alloc, from, to, item, sizes)?;
        self.balance_beyond(alloc, blocks, sizes);
        Ok(())
    }
}

// Where an item is put in, by the items before it was taken away, so that it then stands at `to`.
fn place_before(from: usize, to: usize) -> usize
    requires { to < 2 ^ 32 }
    ensures behind { from < to → result ≡ to + 1 }
    ensures before { to ≤ from → result ≡ to }
{
    if from < to { to + 1 } else { to }
}

/// The part that an item leaves, the one that it comes to, and the place where it is put in.
pub(crate) fn spots_of<P: Counted>(parts: &[P], from: usize, to: usize) -> (Spot, Spot, usize)
    requires some { 0 < length parts.now }
    requires to { to < 2 ^ 32 }
    ensures source { IsSpot P.size parts.now from result.0.chunk result.0.start }
    ensures target { IsSpot P.size parts.now result.2 result.1.chunk result.1.start }
    ensures behind { from < to → result.2 ≡ to + 1 }
    ensures before { to ≤ from → result.2 ≡ to }
{
    let place = place_before(from, to);
    (spot_of(parts, from), spot_of(parts, place), place)
}

/// Whether an item may go from one part to another: the first one keeps an item and stays a part,
/// and the second has room.
pub(crate) fn may_pass<P: Counted>(
    parts: &[P],
    source: usize,
    target: usize,
    sizes: PartSizes,
) -> bool
    requires source { source < length parts.now }
    requires target { target < length parts.now }
    ensures apart { result ≡ true → source ≢ target }
    ensures kept { result ≡ true → (part : P) → part ≡ slice_index_or parts.now source part
        → 1 < P.size part }
    ensures room { result ≡ true → (part : P) → part ≡ slice_index_or parts.now target part
        → P.has_room part }
{
    if source == target {
        return false;
    }
    if !parts[target].takes_more(sizes) {
        return false;
    }
    keeps_parts(parts, source, &ItemChange::<()>::Remove, sizes)
}

/// Two parts at once, to be changed.
pub(crate) fn two_of<P>(parts: &mut [P], first: usize, second: usize) -> (&mut P, &mut P)
    requires first { first < length parts.old }
    requires second { second < length parts.old }
    requires apart { first ≢ second }
    ensures* writes_back { sem 𝓛
        (LendsBoth (Array P.row 0) P.row P.row parts.entry result
        (λ x y. slice_set (slice_set parts.old second y) first x)) }
    ensures first { result.0.now ≡ slice_index_or parts.old first result.0.now }
    ensures second { result.1.now ≡ slice_index_or parts.old second result.1.now }
{
    if first < second {
        let (front, back) = parts.split_at_mut(second);
        (&mut front[first], &mut back[0])
    } else {
        let (front, back) = parts.split_at_mut(first);
        (&mut back[0], &mut front[second])
    }
}
