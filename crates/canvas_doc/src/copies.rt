//! All records of a document in order, and copies of it.

ghost use Rattle.std.specs.Prelude.{◌≡◌, IfOk, map};
ghost use Rattle.canvas_record.specs.Contents.{AreRising, IsWellFormed};

use crate::Document;
use crate::records::Records;
use canvas_code::OutOfMemory;
use canvas_record::Record;
use std::alloc::Global;

impl Document {
    /// All records, in rising id.
    pub fn records_in_order(&self, alloc: Global) -> Result<Vec<&Record>, OutOfMemory>
        ensures records { IfOk result
            (λ all. map (λ shape. shape.now) all.items ≡ self.now.records) }
        ensures rising { AreRising self.now.records }
        ensures well_formed { IsWellFormed self.now }
    {
        in_order(alloc, &self.records)
    }

    /// An equal document, which shares all records; it takes memory for two small tables.
    pub fn try_clone(&self, alloc: Global) -> Result<Document, OutOfMemory>
        ensures { IfOk result (λ clone. clone ≡ self.now) }
    {
        Ok(Document {
            records: self.records.try_clone(alloc)?,
            order: self.order.try_clone(alloc)?,
            next: self.next,
        })
    }
}

fn in_order<'a>(alloc: Global, records: &'a Records) -> Result<Vec<&'a Record>, OutOfMemory>
    ensures { IfOk result (λ all. map (λ shape. shape.now) all.items ≡ records.now) }
{
    let mut all = Vec::with_capacity(alloc, records.len())?;
    for shape in records.iter() {
        all.push(shape.value())?;
    }
    Ok(all)
}
