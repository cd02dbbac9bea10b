//! What the bounds of some shapes cover.

use crate::bounds::Bounds;
use crate::slabs::{either, has_all, share_one};
use canvas_plane::{PageBox, Pose};

/// A box that holds some bounds, and the columns and rows of their plane in which they lie. Of
/// bounds that lie here and there in a large box the columns and rows tell more than the box.
#[derive(Clone, Copy)]
pub(crate) struct Coverage {
    pub(crate) bounds: Bounds,
    columns: u64,
    rows: u64,
}

impl Coverage {
    ghost use Rattle.std.specs.Prelude.{◌≡◌, ◌≤◌, ◌^◌, false, true};
    ghost use Rattle.canvas_plane.specs.Motion.{reach_of};
    ghost use Rattle.canvas_doc.specs.declared.bounds.Bounds.{Bounds};
    ghost use Rattle.canvas_doc.specs.Bounds.{HoldsClip, LieApart};
    ghost use Rattle.canvas_doc.specs.Coverage.{IsCovered};

    /// What bounds cover alone.
    #[inline(always)]
    pub(crate) fn of(bounds: &Bounds) -> Coverage
        ensures bounds { result.bounds ≡ bounds.now }
        ensures covered { IsCovered bounds.now result }
    {
        Coverage {
            bounds: *bounds,
            columns: bounds.columns(),
            rows: bounds.rows(),
        }
    }

    /// The part of a plane that a box of the page shows, as what it covers. `out` carries the plane
    /// to the page.
    #[inline(always)]
    pub(crate) fn of_clip(out: &Pose, clip: &PageBox) -> Coverage
        requires quarter { out.now.quarter ≤ 3 }
        requires reach { reach_of out.now ≤ 2 ^ 26 }
        ensures clip { HoldsClip out.now clip.now result.bounds }
        ensures covered { IsCovered result.bounds result }
    {
        Coverage::of(&Bounds::of_clip(out, clip))
    }

    /// What is covered by one of two.
    #[inline(always)]
    pub(crate) fn with(&self, other: &Coverage) -> Coverage
        ensures first { (b : Bounds) → IsCovered b self.now → IsCovered b result }
        ensures second { (b : Bounds) → IsCovered b other.now → IsCovered b result }
    {
        Coverage {
            bounds: self.bounds.hull(&other.bounds),
            columns: either(self.columns, other.columns),
            rows: either(self.rows, other.rows),
        }
    }

    /// Whether it covers bounds.
    #[inline(always)]
    pub(crate) fn contains(&self, bounds: &Bounds) -> bool
        ensures { result ≡ true → IsCovered bounds.now self.now }
    {
        let is_within = self.bounds.contains(bounds);
        let has_columns = has_all(self.columns, bounds.columns());
        let has_rows = has_all(self.rows, bounds.rows());
        is_within & has_columns & has_rows
    }

    /// Whether bounds that it covers may have a pixel in common with those of an area.
    #[inline(always)]
    pub(crate) fn meets(&self, area: &Coverage) -> bool
        ensures { result ≡ false → (b : Bounds) → IsCovered b self.now
            → IsCovered area.now.bounds area.now → LieApart b area.now.bounds }
    {
        let in_box = self.bounds.meets(&area.bounds);
        let in_columns = share_one(self.columns, area.columns);
        let in_rows = share_one(self.rows, area.rows);
        in_box & in_columns & in_rows
    }
}
