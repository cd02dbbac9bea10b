//! One design document: records in a page tree, edits and what is decided of them, and the colour of
//! each pixel.
#![tactic(auto)]

ghost use Rattle.std.specs.Prelude.{◌≡◌, [], length};
ghost use Rattle.std.specs.Option.{option_copied};

mod ancestry;
mod bounds;
mod changed;
mod colour;
mod copies;
mod corners;
mod coverage;
mod damage;
mod decisions;
mod deletion;
mod effects;
mod fits;
mod kept_bounds;
mod lookup;
mod new_indexes;
mod order;
mod place_order;
mod placed_shapes;
mod records;
mod restored;
mod slabs;
mod spots;

pub use canvas_record::{
    Change, Edit, MOST_RECORDS, Parent, Place, Record, Refusal, Spot, TreeFault,
};
use lookup::find;
use placed_shapes::PlacedShapes;
use records::Records;
use std::alloc::Global;
use std::marker::Model;

/// A design document: records in a page tree, and the next id. It is always well formed.
#[derive(Drop)]
pub struct Document {
    // In rising id.
    records: Records,
    // By the parent, and the children of a parent from front to back.
    order: PlacedShapes,
    next: u32,
}

impl Model for Document {
    ghost use Rattle.canvas_record.specs.Contents.{Contents};
    ghost use Rattle.canvas_doc.specs.PlaceOrder.{IsKeptInOrder};

    ghost Value = { Contents };

    ghost view = { λ d. record { records = d.records; next = d.next } };

    ghost invariant = { λ d. IsKeptInOrder (record { records = d.records; next = d.next })
        d.order.shapes d.order.bounds };
}

impl Document {
    ghost use Rattle.canvas_record.specs.Contents.{record_of, IsWellFormed};

    /// A document with no record and next id 1.
    pub fn empty(alloc: Global) -> Document
        ensures { result ≡ record { records = []; next = 1 } }
    {
        Document {
            records: Records::empty(alloc),
            order: PlacedShapes::empty(alloc),
            next: 1,
        }
    }

    /// The id that the next new shape gets, 1 to 4,294,967,295; the last one is never given.
    pub fn next_id(&self) -> u32
        ensures { result ≡ self.now.next }
    {
        self.next
    }

    /// How many records there are, at most `MOST_RECORDS`.
    pub fn count(&self) -> usize
        ensures { result ≡ length self.now.records }
    {
        self.records.len()
    }

    /// A law, for callers' proofs: a document is always well formed. The call does nothing.
    #[inline(always)]
    pub fn well_formed_law(&self)
        ensures { IsWellFormed self.now }
    {
        let _order = &self.order;
    }

    /// The record of an id, if there is one.
    pub fn get(&self, id: u32) -> Option<&Record>
        ensures { option_copied result ≡ record_of id self.now.records }
    {
        find(&self.records, id)
    }
}
