//! Lists of records, which documents share.

ghost use Rattle.std.specs.Prelude.{◌≡◌, IfOk};
ghost use Rattle.canvas_record.specs.declared.records.Record.{Record};

use canvas_code::OutOfMemory;
use canvas_list::{Hint, Share, Shared, SharedList, ShortHint};
use canvas_record::Record;
use std::alloc::Global;
use std::marker::Model;

/// Records in some order, which documents share, seen as the list of them: the lists of a document
/// after a change hold the very records that the change left as they were.
pub(crate) type Records = SharedList<ListedRecord>;

/// A record in a list of records, seen as the record. Its id stands beside the pointer to it, so
/// that a search by id reads no record but the one that it finds.
#[derive(Drop)]
pub(crate) struct ListedRecord {
    shape: Shared<Record>,
    id: u32,
}

impl Model for ListedRecord {
    ghost use Rattle.std.specs.Prelude.{◌≡◌};
    ghost use Rattle.canvas_record.specs.declared.records.Record.{Record};

    ghost Value = { Record };

    ghost view = { λ listed. listed.shape };

    ghost invariant = { λ listed. listed.id ≡ listed.shape.id };
}

impl ListedRecord {
    /// A record with its first owner, a list.
    #[inline(always)]
    pub(crate) fn new(alloc: Global, shape: Record) -> Result<ListedRecord, OutOfMemory>
        ensures { IfOk result (λ listed. listed ≡ shape) }
    {
        Ok(ListedRecord::of(Shared::new(alloc, shape)?))
    }

    /// A record that has an owner.
    #[inline(always)]
    pub(crate) fn of(shape: Shared<Record>) -> ListedRecord
        ensures { result ≡ shape }
    {
        let id = shape.value().id;
        ListedRecord { shape, id }
    }

    /// The record's id, which is read without a look at the record.
    #[inline(always)]
    pub(crate) fn id(&self) -> u32
        ensures { result ≡ self.now.id }
    {
        self.id
    }

    /// The record.
    #[inline(always)]
    pub(crate) fn value(&self) -> &Record
        ensures { result.now ≡ self.now }
    {
        self.shape.value()
    }

    /// The record for one more owner.
    #[inline(always)]
    pub(crate) fn shared(&self) -> Result<Shared<Record>, OutOfMemory>
        ensures { IfOk result (λ shape. shape ≡ self.now) }
    {
        self.shape.try_clone()
    }
}

// Ids rise along the list of a document's records. A walk passes over none of them.
impl Share for ListedRecord {
    ghost use Rattle.std.specs.Prelude.{⊤};

    type Summary = ();

    ghost covers = { λ summary listed. ⊤ };

    ghost lies_apart = { λ sought listed. ⊥ };

    #[inline(always)]
    fn share(&self) -> Result<ListedRecord, OutOfMemory> {
        Ok(ListedRecord {
            shape: self.shape.try_clone()?,
            id: self.id,
        })
    }

    #[inline(always)]
    fn hint(&self) -> Hint {
        hint_of_id(self.id)
    }

    #[inline(always)]
    fn short_hint(&self) -> ShortHint {
        hint_of_id(self.id).short()
    }

    #[inline(always)]
    fn summary(&self) {}

    #[inline(always)]
    fn summed(_: &(), _: &()) {}

    #[inline(always)]
    fn may_meet(_: &(), _: &()) -> bool {
        true
    }
}

/// Where the record of an id stands among records in rising id.
#[inline(always)]
pub(crate) fn hint_of_id(id: u32) -> Hint {
    Hint {
        major: id,
        minor: 0,
    }
}
