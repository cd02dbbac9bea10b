//! Edits, which a document judges, and the changes that it decides.

ghost use Rattle.std.specs.Prelude.{◌≡◌};
ghost use Rattle.canvas_record.specs.Effect.{new_id};

use crate::records::{Parent, Place};
use canvas_key::Key;
use canvas_plane::Pose;
use canvas_shape::Kind;

/// Where a shape goes among its new siblings: the other children of its parent.
#[derive(PartialEq, Eq, Drop)]
pub enum Spot {
    /// Behind them all.
    Back,
    /// In front of them all.
    Front,
    /// Just in front of the sibling with this id.
    Over(u32),
    /// At this very index, which no sibling may have.
    At(Key),
}

/// What a session asks of a document.
#[derive(PartialEq, Drop)]
pub enum Edit {
    /// A new shape.
    Create {
        kind: Kind,
        pose: Pose,
        hidden: bool,
        parent: Parent,
        spot: Spot,
    },
    /// Another place for a shape and all below it.
    Move {
        id: u32,
        parent: Parent,
        spot: Spot,
    },
    /// Another pose.
    Pose {
        id: u32,
        pose: Pose,
    },
    /// Other values of the same kind.
    Reshape {
        id: u32,
        kind: Kind,
    },
    /// Hidden, or shown.
    Show {
        id: u32,
        hidden: bool,
    },
    /// Without a shape and all below it.
    Delete {
        id: u32,
    },
    /// Short indexes for the children of a parent, in the order that they have.
    Respace {
        parent: Parent,
    },
}

/// What was decided of an edit: the same, with the index of the place, and a new shape's id.
#[derive(PartialEq, Drop)]
pub enum Change {
    /// A new shape.
    Create {
        id: u32,
        kind: Kind,
        pose: Pose,
        hidden: bool,
        place: Place,
    },
    /// Another place for a shape and all below it.
    Move {
        id: u32,
        place: Place,
    },
    /// Another pose.
    Pose {
        id: u32,
        pose: Pose,
    },
    /// Another kind.
    Reshape {
        id: u32,
        kind: Kind,
    },
    /// Hidden, or shown.
    Show {
        id: u32,
        hidden: bool,
    },
    /// Without a shape and all below it.
    Delete {
        id: u32,
    },
    /// Short indexes for the children of a parent, in the order that they have.
    Respace {
        parent: Parent,
    },
}

impl Change {
    /// The id of the shape that the change makes, if it makes one.
    pub fn new_id(&self) -> Option<u32>
        ensures { result ≡ new_id self.now }
    {
        match self {
            Change::Create { id, .. } => Some(*id),
            Change::Move { .. } => None,
            Change::Pose { .. } => None,
            Change::Reshape { .. } => None,
            Change::Show { .. } => None,
            Change::Delete { .. } => None,
            Change::Respace { .. } => None,
        }
    }
}
