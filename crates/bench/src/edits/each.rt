//! One edit of each sort.

use crate::edits::layouts::{Layout, leaf};
use crate::fault::Fault;
use canvas_doc::{Edit, Parent, Spot};
use canvas_plane::Pose;
use canvas_shape::Kind;
use std::alloc::Global;

/// The sorts of edits.
#[derive(Clone, Copy)]
pub enum Sort {
    /// A new leaf. The document must have room for it.
    Create,
    Move,
    Pose,
    Reshape,
    Show,
    Delete,
    Respace,
}

impl Sort {
    /// All sorts but `Create`, by their names.
    pub const OTHERS: [(&'static str, Sort); 6] = [
        ("Move", Sort::Move),
        ("Pose", Sort::Pose),
        ("Reshape", Sort::Reshape),
        ("Show", Sort::Show),
        ("Delete", Sort::Delete),
        ("Respace", Sort::Respace),
    ];

    /// An edit of this sort of a layout of so many records.
    pub fn edit(&self, alloc: Global, layout: Layout, records: u32) -> Result<Edit, Fault> {
        // A leaf of every layout.
        let id = records / 2 + 3;
        match self {
            Sort::Create => Ok(creation(leaf(alloc, layout, 7)?, with_children(layout))),
            Sort::Reshape => Ok(Edit::Reshape {
                id,
                kind: leaf(alloc, layout, 9)?,
            }),
            _ => Ok(self.edit_of(layout, id)),
        }
    }

    // An edit of a sort that makes no leaf, where this is a leaf of every layout.
    fn edit_of(&self, layout: Layout, id: u32) -> Edit {
        let (root, elsewhere) = movable(layout, id);
        match self {
            Sort::Move => Edit::Move {
                id: root,
                parent: elsewhere,
                spot: Spot::Front,
            },
            Sort::Pose => Edit::Pose { id, pose: TURNED },
            Sort::Show => Edit::Show { id, hidden: true },
            Sort::Delete => Edit::Delete { id: root },
            _ => Edit::Respace {
                parent: with_children(layout),
            },
        }
    }
}

const TURNED: Pose = Pose {
    dx: 3,
    dy: 4,
    quarter: 1,
    flip: false,
};

fn creation(kind: Kind, parent: Parent) -> Edit {
    Edit::Create {
        kind,
        pose: Pose::STILL,
        hidden: false,
        parent,
        spot: Spot::Front,
    }
}

// A parent with the most children.
fn with_children(layout: Layout) -> Parent {
    match layout {
        Layout::Deep => Parent::Shape(32),
        _ => Parent::Page,
    }
}

// The root of a large subtree that can go elsewhere, and where; of a flat layout this leaf.
fn movable(layout: Layout, leaf: u32) -> (u32, Parent) {
    match layout {
        Layout::Flat | Layout::Grown => (leaf, Parent::Page),
        Layout::Deep => (32, Parent::Page),
        _ => (66, Parent::Shape(2)),
    }
}
