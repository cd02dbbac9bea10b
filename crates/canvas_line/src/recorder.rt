//! The edits of a line that records, until they are taken.
ghost use Rattle.std.specs.Prelude.{◌≡◌, ◌++◌, [], Some, None, IfOk, MatchOption};
ghost use Rattle.canvas_record.specs.declared.edits.Edit.{Edit as AnEdit};
ghost use Rattle.canvas_line.specs.Recording.{Awaits, noted};

use canvas_code::OutOfMemory;
use canvas_doc::{Edit, Spot};
use std::alloc::Global;
use std::mem::replace;

/// What was taken of a line that records.
#[derive(Drop)]
pub struct Taken {
    /// The edits that were accepted since some were last taken, in the order of versions.
    pub edits: Vec<Edit>,
    /// How many changes came before them.
    pub before: u64,
}

/// The edits that were accepted and not taken yet, if the line records.
#[derive(Drop)]
pub struct Recorder {
    // In the order of versions.
    pub(crate) edits: Vec<Edit>,
    // How many changes came before them, where the line records.
    pub(crate) taken: Option<u64>,
}

impl Recorder {
    /// Of a line that does not record.
    pub(crate) fn off(alloc: Global) -> Recorder
        ensures taken { result.taken ≡ None }
        ensures edits { result.edits.items ≡ [] }
    {
        Recorder {
            edits: Vec::new(alloc),
            taken: None,
        }
    }

    /// A copy of an edit that is about to be accepted, and room for it, where the line records.
    /// Want of memory is the only refusal.
    pub(crate) fn copy(&mut self, alloc: Global, edit: &Edit) -> Result<Option<Edit>, OutOfMemory>
        ensures taken { self.new.taken ≡ self.old.taken }
        ensures edits { self.new.edits.items ≡ self.old.edits.items }
        ensures copy { IfOk result (λ copy. Awaits self.new edit.now copy) }
    {
        if self.taken.is_none() {
            return Ok(None);
        }
        self.edits.reserve(1)?;
        Ok(Some(copied(alloc, edit)?))
    }

    /// Adds the copy of the edit that was accepted.
    pub(crate) fn add(&mut self, copy: Option<Edit>)
        ensures taken { self.new.taken ≡ self.old.taken }
        ensures edits { (e : AnEdit) → Awaits self.old e copy
            → self.new.edits.items ≡ self.old.edits.items ++ noted self.old.taken e }
    {
        if let Some(edit) = copy {
            // There is room, so this takes no memory.
            let _ = self.edits.push(edit);
        }
    }

    /// Takes all edits, the last of which made version `number`, and leaves an empty list in their place.
    pub(crate) fn take(&mut self, number: u64, empty: Vec<Edit>) -> Option<Taken>
        requires { empty.items ≡ [] }
        ensures off { self.old.taken ≡ None → (result ≡ None) × (self.new ≡ self.old) }
        ensures taken { MatchOption result (self.old.taken ≡ None)
            (λ t. (self.old.taken ≡ Some t.before)
            × (t.edits ≡ self.old.edits)
            × (self.new.taken ≡ Some number)
            × (self.new.edits.items ≡ [])) }
    {
        let before = self.taken?;
        self.taken = Some(number);
        Some(Taken {
            edits: replace(&mut self.edits, empty),
            before,
        })
    }
}

// An equal edit; want of memory is the only refusal.
fn copied(alloc: Global, edit: &Edit) -> Result<Edit, OutOfMemory>
    ensures { IfOk result (λ copy. copy ≡ edit.now) }
{
    Ok(match edit {
        Edit::Create {
            kind,
            pose,
            hidden,
            parent,
            spot,
        } => Edit::Create {
            kind: kind.try_clone(alloc)?,
            pose: *pose,
            hidden: *hidden,
            parent: *parent,
            spot: same_spot(spot),
        },
        Edit::Move { id, parent, spot } => Edit::Move {
            id: *id,
            parent: *parent,
            spot: same_spot(spot),
        },
        Edit::Pose { id, pose } => Edit::Pose {
            id: *id,
            pose: *pose,
        },
        Edit::Reshape { id, kind } => Edit::Reshape {
            id: *id,
            kind: kind.try_clone(alloc)?,
        },
        Edit::Show { id, hidden } => Edit::Show {
            id: *id,
            hidden: *hidden,
        },
        Edit::Delete { id } => Edit::Delete { id: *id },
        Edit::Respace { parent } => Edit::Respace { parent: *parent },
    })
}

// An equal spot.
fn same_spot(spot: &Spot) -> Spot
    ensures { result ≡ spot.now }
{
    match spot {
        Spot::Back => Spot::Back,
        Spot::Front => Spot::Front,
        Spot::Over(id) => Spot::Over(*id),
        Spot::At(index) => Spot::At(index.copy()),
    }
}
