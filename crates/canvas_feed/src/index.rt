//! Where the lines of a feed end.
ghost use Rattle.std.specs.Prelude.{◌≡◌, ◌≤◌, ◌-◌, ◌++◌, [], List, ℕ, Some, length, slice_get, OnOk};
ghost use Rattle.canvas_record.specs.Contents.{Contents};
ghost use Rattle.canvas_feed.specs.Feed.{place_behind, whole_ends};

use std::alloc::{AllocError, Global};
use std::marker::Model;

/// Where each line of a feed ends, in bytes: that of the opening document, and then that of each
/// version. It has eight bytes for each.
#[derive(Drop)]
pub struct FeedIndex {
    ends: Vec<u64>,
}

impl Model for FeedIndex {
    ghost use Rattle.std.specs.Prelude.{List, ℕ};

    ghost Value = { List ℕ };

    ghost view = { λ i. i.ends.items };
}

impl FeedIndex {
    /// The index of a feed that has no line.
    pub fn new(alloc: Global) -> FeedIndex
        ensures { result ≡ [] }
    {
        FeedIndex {
            ends: Vec::new(alloc),
        }
    }

    /// Notes the ends of the lines that come next.
    pub fn append(&mut self, ends: &[u64]) -> Result<(), AllocError>
        ensures { OnOk result (self.new ≡ self.old ++ ends.now) }
    {
        self.ends.extend_from_slice(ends)
    }

    /// Where the lines of the versions above this one begin, if it was told.
    pub fn place_behind(&self, version: u64) -> Option<u64>
        ensures value { result ≡ slice_get self.now version }
        ensures lines { (generation : ℕ) (d : Contents) (lines : List (List ℕ))
            → self.now ≡ whole_ends generation d lines → version ≤ length lines
            → result ≡ Some (place_behind generation d lines version) }
    {
        end_of(&self.ends, version)
    }

    /// The newest version that was told; 0 where none was.
    pub fn version(&self) -> u64
        ensures value { result ≡ length self.now - 1 }
        ensures lines { (generation : ℕ) (d : Contents) (lines : List (List ℕ))
            → self.now ≡ whole_ends generation d lines
            → result ≡ length lines }
    {
        (self.ends.len() as u64).saturating_sub(1)
    }
}

// Where the line of a version ends.
fn end_of(ends: &[u64], version: u64) -> Option<u64>
    ensures { result ≡ slice_get ends.now version }
{
    ends.get(version as usize).copied()
}
