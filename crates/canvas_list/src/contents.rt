//! What the parts of a list hold, on either level: a chunk holds items side by side, a block a
//! table of chunks.

ghost use Rattle.std.specs.Prelude.{ℕ, ◌≡◌, ◌<◌, ◌≤◌, ◌+◌, ◌-◌, ◌^◌, ◌++◌, [], Bool, List, All, IfOk, OnErr, OnOk, cond, false, true, take, drop, length, slice_index_or};
ghost use Rattle.std.specs.Fn.{ComputesKey};
ghost use Rattle.std.specs.List.{insert, remove, slice_get};
ghost use Rattle.std.specs.List.Sorted.{IsPartitionedBy, IsPartitionPoint};
ghost use Rattle.std.specs.Result.{is_ok};
ghost use Rattle.canvas_list.specs.Changed.{changed, changed_if, IsKept, IsPositionOf};

use crate::also::Also;
use crate::in_place::ItemChange;
use crate::share::Share;
use crate::sizes::PartSizes;
use canvas_code::OutOfMemory;
use std::alloc::Global;

/// What a part of a list holds: items side by side, or a table of smaller parts.
pub trait Contents<T: Share>: Drop {
    // Its items.
    ghost list: { Self → List T };

    // A part may have so many.
    ghost fits: { ℕ → Type 0 };

    /// How many items there are.
    fn count(&self) -> usize
        ensures count { result ≡ length (list self.now) }
        ensures few { fits (length (list self.now)) → result < 2 ^ 32 };

    /// The item at a position.
    fn item(&self, at: usize) -> &T
        requires { at < length (list self.now) }
        ensures { result.now ≡ slice_index_or (list self.now) at result.now };

    /// The first item.
    fn first(&self) -> &T
        requires { 0 < length (list self.now) }
        ensures { slice_get (list self.now) 0 ≡ Some result.now };

    /// A summary of all items.
    fn summary(&self) -> T::Summary
        requires { 0 < length (list self.now) }
        ensures { All (T.covers result) (list self.now) };

    /// A summary of what another tells of, and of the items from a position on, up to another.
    fn summed(&self, from: usize, end: usize, other: &T::Summary) -> T::Summary
        requires order { from ≤ end }
        requires within { end ≤ length (list self.now) }
        ensures items { All (T.covers result) (take (end - from) (drop from (list self.now))) }
        ensures other { (item : T) → T.covers other.now item → T.covers result item };

    /// How many of the items pass a test, where those that pass come first.
    fn passed<P: Fn(&T) -> bool>(&self, pred: &P) -> usize
        requires { P.IsAlwaysCallable pred.now }
        ensures bound { result ≤ length (list self.now) }
        ensures partitioned { (p : T → Bool) → ComputesKey P.FnMut p pred.now
            → IsPartitionedBy p (list self.now)
            → IsPartitionPoint (λ y. p y ≡ true) (λ y. p y ≡ false) (list self.now) result };

    /// Whether one more item may come to a part that holds it.
    fn takes_more(&self, sizes: PartSizes) -> bool
        ensures { result ≡ true → fits (length (list self.now) + 1) };

    /// About how many items are enough for a part.
    fn enough(sizes: PartSizes) -> usize;

    /// No items.
    fn none(alloc: Global, sizes: PartSizes) -> Result<Self, OutOfMemory>
        ensures { IfOk result (λ none. list none ≡ []) };

    /// The same items in contents of their own, with room for a change.
    fn copied(&self, alloc: Global, sizes: PartSizes) -> Result<Self, OutOfMemory>
        ensures { IfOk result (λ other. list other ≡ list self.now) };

    /// Those of another behind these.
    fn and(self, other: &Self) -> Result<Self, OutOfMemory>
        requires { length (list self) + length (list other.now) < 2 ^ 32 }
        ensures { IfOk result (λ both. list both ≡ list self ++ list other.now) };

    /// The items of one up to a position, others, and those of another from a position on.
    fn between(
        alloc: Global,
        before: &Self,
        upto: usize,
        items: Vec<T>,
        behind: &Self,
        from: usize,
        sizes: PartSizes,
    ) -> Result<Self, OutOfMemory>
        requires upto { upto ≤ length (list before.now) }
        requires from { from ≤ length (list behind.now) }
        requires before { 0 < length (list before.now) }
        requires behind { 0 < length (list behind.now) }
        requires small { length (take upto (list before.now)) + length items.items
            + length (drop from (list behind.now))
            < 2 ^ 32 }
        ensures { IfOk result (λ all. list all
            ≡ take upto (list before.now) ++ items.items ++ drop from (list behind.now)) };

    /// Cut in two, if they are too many for a part: what a part gets, and the rest. They are cut
    /// near the place of a change.
    fn cut(self, alloc: Global, place: usize, sizes: PartSizes) -> Result<(Self, Self), OutOfMemory>
        ensures both { IfOk result (λ pieces. list pieces.0 ++ list pieces.1 ≡ list self) }
        ensures some { 0 < length (list self) → IfOk result (λ pieces. 0 < length (list pieces.0)) }
        ensures fits { IfOk result (λ pieces. fits (length (list pieces.0))) };

    /// Changes an item together with something else.
    fn change<O: Also>(
        &mut self,
        alloc: Global,
        at: usize,
        change: ItemChange<T>,
        sizes: PartSizes,
        other: &mut O,
        also: O::Change,
    ) -> Result<(), OutOfMemory>
        requires place { IsPositionOf change at (list self.old) }
        requires other { O.may also other.old }
        ensures items { list self.new ≡ changed_if (is_ok result) change at (list self.old) }
        ensures fits { IsKept change (length (list self.old)) (fits (length (list self.old) + 1))
            → fits (length (list self.old))
            → fits (length (list self.new)) }
        ensures made { OnOk result (O.makes also other.old other.new) }
        ensures same { OnErr result (other.new ≡ other.old) };

    /// Takes the item at `from` away, and puts another one in front of what then stands at `to`, or
    /// at the end.
    fn shift(
        &mut self,
        alloc: Global,
        from: usize,
        to: usize,
        item: T,
        sizes: PartSizes,
    ) -> Result<(), OutOfMemory>
        requires from { from < length (list self.old) }
        requires to { to < length (list self.old) }
        ensures { list self.new
            ≡ cond (is_ok result) (insert (remove (list self.old) from) to item) (list self.old) };

    /// What it is after a change that may leave too many items for a part, or none.
    fn after(
        self,
        alloc: Global,
        at: usize,
        change: ItemChange<T>,
        sizes: PartSizes,
    ) -> Result<Self, OutOfMemory>
        requires { IsPositionOf change at (list self) }
        ensures { IfOk result (λ other. list other ≡ changed change at (list self)) };
}
