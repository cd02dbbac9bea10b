//! Records: the shapes of a document, each with its place in the page tree.

ghost use Rattle.std.specs.Prelude.{◌≡◌, IfOk};
ghost use Rattle.canvas_record.specs.Restored.{is_record};

use canvas_code::OutOfMemory;
use canvas_key::Key;
use canvas_plane::Pose;
use canvas_shape::Kind;
use std::alloc::Global;

/// What a record hangs from: the page, or a group or a frame.
#[derive(Clone, Copy, Debug, PartialEq, Eq)]
pub enum Parent {
    /// The page itself.
    Page,
    /// The shape with this id.
    Shape(u32),
}

/// Where a record hangs: its parent and its index among the parent's children, stored as one
/// property (Figma, "How Figma's multiplayer technology works").
#[derive(PartialEq, Eq, Drop)]
pub struct Place {
    /// What the record hangs from.
    pub parent: Parent,
    /// The greater index is in front.
    pub index: Key,
}

/// One shape of a document (tldraw's shape records: id, type, parent, index, place).
// Fields lie in memory as declared: the place, by far the largest, comes last, so that a walk over
// a scene finds kind, pose and mark side by side.
#[derive(PartialEq, Drop)]
pub struct Record {
    /// The shape's number, 1 to 4,294,967,294, never given twice in one history.
    pub id: u32,
    /// What it shows.
    pub kind: Kind,
    /// Carries its own coordinates to its parent's.
    pub pose: Pose,
    /// A hidden record hides all below it, too.
    pub hidden: bool,
    /// Where it hangs.
    pub place: Place,
}

/// A record, and where it stands among the records of its document.
#[derive(Clone, Copy)]
pub struct Standing<'a> {
    /// Its position.
    pub at: usize,
    /// The record.
    pub shape: &'a Record,
}

impl Place {
    /// An equal place.
    #[inline(always)]
    pub fn copy(&self) -> Place
        ensures { result ≡ self.now }
    {
        Place {
            parent: self.parent,
            index: self.index.copy(),
        }
    }
}

impl Record {
    /// An equal record; want of memory is the only refusal.
    #[inline(always)]
    pub fn try_clone(&self, alloc: Global) -> Result<Record, OutOfMemory>
        ensures { IfOk result (λ shape. shape ≡ self.now) }
    {
        Ok(Record {
            id: self.id,
            kind: self.kind.try_clone(alloc)?,
            pose: self.pose,
            hidden: self.hidden,
            place: self.place.copy(),
        })
    }

    /// Whether the id is 1 to `next - 1`, the pose is none that `Pose::check` refuses and the kind
    /// none that `Kind::check` refuses.
    pub fn is_within(&self, next: u32) -> bool
        ensures { result ≡ is_record next self.now }
    {
        1 <= self.id && self.id < next && self.pose.check().is_ok() && self.kind.check().is_ok()
    }
}
