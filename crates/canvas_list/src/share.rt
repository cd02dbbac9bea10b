//! What a list asks of its items; values with several owners.

ghost use Rattle.std.specs.Prelude.{◌≡◌, IfOk, false, true, ⊤};

use crate::hint::{Hint, Hinted, ShortHint};
use canvas_code::OutOfMemory;
use std::alloc::Global;
use std::marker::Model;
use std::sync::Arc;

/// A value of which each list that has it holds one of its own: a small value, or a pointer to one
/// that is shared.
pub trait Share: Drop {
    /// What a list notes of all items of each of its parts, so that a walk may pass over a part.
    type Summary: Copy + Drop;

    // What a summary says holds of an item.
    ghost covers: { Self.Summary → Self → Type 0 };

    // An item has nothing of what a walk seeks.
    ghost lies_apart: { Self.Summary → Self → Type 0 };

    /// An equal value.
    fn share(&self) -> Result<Self, OutOfMemory>
        ensures { IfOk result (λ other. other ≡ self.now) };

    /// Where it most likely stands in a list.
    fn hint(&self) -> Hint;

    /// The beginning of that hint. A search asks it of the items of a chunk, so it is best told
    /// without a look at what is shared.
    fn short_hint(&self) -> ShortHint;

    /// A summary of this item alone.
    fn summary(&self) -> Self::Summary
        ensures { covers result self.now };

    /// A summary of what either of two tells of.
    fn summed(first: &Self::Summary, second: &Self::Summary) -> Self::Summary
        ensures first { (item : Self) → covers first.now item → covers result item }
        ensures second { (item : Self) → covers second.now item → covers result item };

    /// Whether an item that a summary tells of may have something of what a walk seeks. That is
    /// given as a summary, too.
    fn may_meet(summary: &Self::Summary, sought: &Self::Summary) -> bool
        ensures { result ≡ false → (item : Self) → covers summary.now item
            → lies_apart sought.now item };

    /// Whether a summary is known to tell of this item. It is no, unless a type says better: a list
    /// then makes its summaries anew where an item takes the place of another.
    fn is_covered(&self, _summary: &Self::Summary) -> bool
        ensures { result ≡ true → covers _summary.now self.now }
    {
        false
    }

    /// Whether this item may have something of what a walk seeks. It goes by the item's summary,
    /// unless a type says better.
    fn may_have(&self, sought: &Self::Summary) -> bool
        ensures { result ≡ false → lies_apart sought.now self.now }
    {
        Self::may_meet(&self.summary(), sought)
    }
}

/// A value that lies in one place for all its owners, seen as that value.
#[derive(Drop)]
pub struct Shared<T> {
    value: Arc<T>,
}

impl<T> Model for Shared<T> {
    ghost use Rattle.std.specs.Arc.{arc_value};

    ghost Value = { T };

    ghost view = { λ shared. arc_value shared.value };
}

impl<T: Drop> Shared<T> {
    /// A value with its first owner.
    pub fn new(alloc: Global, value: T) -> Result<Shared<T>, OutOfMemory>
        ensures { IfOk result (λ shared. shared ≡ value) }
    {
        Ok(Shared {
            value: Arc::new(alloc, value)?,
        })
    }

    /// The value with one more owner.
    #[inline(always)]
    pub fn try_clone(&self) -> Result<Shared<T>, OutOfMemory>
        ensures { IfOk result (λ other. other ≡ self.now) }
    {
        Ok(Shared {
            value: Arc::try_clone(&self.value)?,
        })
    }

    /// The value.
    #[inline(always)]
    pub fn value(&self) -> &T
        ensures { result.now ≡ self.now }
    {
        &self.value
    }
}

// A walk passes over none of them.
impl<T: Drop + Hinted> Share for Shared<T> {
    type Summary = ();

    ghost covers = { λ summary item. ⊤ };

    ghost lies_apart = { λ sought item. ⊥ };

    #[inline(always)]
    fn share(&self) -> Result<Shared<T>, OutOfMemory> {
        self.try_clone()
    }

    #[inline(always)]
    fn hint(&self) -> Hint {
        self.value.hint()
    }

    #[inline(always)]
    fn short_hint(&self) -> ShortHint {
        self.value.hint().short()
    }

    #[inline(always)]
    fn summary(&self) {}

    #[inline(always)]
    fn summed(_: &(), _: &()) {}

    #[inline(always)]
    fn may_meet(_: &(), _: &()) -> bool {
        true
    }
}
